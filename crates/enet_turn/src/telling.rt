//! Events that are offered to the sink.
ghost use Rattle.std.specs.Prelude.{◌≡◌, ◌≤◌, List, Bool};
ghost use Rattle.enet_codec.specs.declared.event.Event.{Event as Told};
ghost use Rattle.enet_turn.specs.Phases.{Chain, Offers, OffersWaiting, left_over, TellsAll};
ghost use Rattle.enet_turn.specs.Counts.{count_of, taken_in, stopped};

use crate::host::Core;
use crate::waiting::Waiting;
use enet_bridge::Sink;
use enet_codec::Event;
use std::sync::Wait;

/// Offers an event to the sink. One that is handed back waits in its place. Answers how many were taken: 1 or 0.
pub(crate) fn offer<K: Sink, R: Wait>(
    rt: &R,
    sink: &mut K,
    place: &mut Option<Event>,
    event: Event,
) -> u32
    ensures { (taken : Bool) × K.puts sink.old event taken sink.new × (place.new ≡ left_over event taken) × (result ≡ count_of taken) }
{
    match sink.put(rt, event) {
        Ok(()) => {
            *place = None;
            1
        }
        Err(back) => {
            *place = Some(back);
            0
        }
    }
}

// Offers what waits in a place, if something does. Answers how many were taken: 1 or 0.
fn offer_in<K: Sink, R: Wait>(rt: &R, sink: &mut K, place: &mut Option<Event>) -> u32
    ensures offers { (puts : List (Told × Bool)) × Chain (λ s x t. K.puts s x.0 x.1 t) sink.old puts sink.new × Offers place.old puts place.new × (result ≡ taken_in puts) }
    ensures one { result ≤ 1 }
{
    match place.take() {
        Some(event) => offer(rt, sink, place, event),
        None => 0,
    }
}

/// Offers what waits: first the refusal, so that orders go on, and then the host's event, whether or not the refusal was taken. Answers how
/// many were taken: 2 at most.
pub(crate) fn offer_again<K: Sink, R: Wait>(rt: &R, sink: &mut K, waiting: &mut Waiting) -> u32
    ensures { (puts : List (Told × Bool)) × Chain (λ s x t. K.puts s x.0 x.1 t) sink.old puts sink.new × OffersWaiting waiting.old puts waiting.new × (result ≡ taken_in puts) }
{
    let refusals = offer_in(rt, sink, &mut waiting.refusal);
    let events = offer_in(rt, sink, &mut waiting.event);
    refusals + events
}

/// Offers the host's events one after another, until it has none or one waits. Answers how many were taken; the
/// count stops at 4,294,967,295.
pub(crate) fn tell_all<H: Core, K: Sink, R: Wait>(
    rt: &R,
    host: &mut H,
    waiting: &mut Waiting,
    sink: &mut K,
) -> u32
    ensures { (puts : List (Told × Bool)) × Chain (λ s x t. K.puts s x.0 x.1 t) sink.old puts sink.new
        × TellsAll H.calls (record { host = host.old; waiting = waiting.old }) puts (record { host = host.new; waiting = waiting.new })
        × (result ≡ stopped (taken_in puts)) }
{
    let mut events = 0u32;
    while waiting.event.is_none() {
        match host.next_event() {
            Some(event) => {
                let taken = offer(rt, sink, &mut waiting.event, event);
                events = events.saturating_add(taken);
            }
            None => return events,
        }
    }
    events
}
