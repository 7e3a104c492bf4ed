//! Orders that are taken from the source and carried out.
ghost use Rattle.std.specs.Prelude.{◌≡◌, ◌≤◌, List, Bool, Option, None};
ghost use Rattle.enet_codec.specs.declared.event.Event.{Event as Told};
ghost use Rattle.enet_submit.specs.declared.order.Submission.{Submission as Item};
ghost use Rattle.enet_turn.specs.Phases.{Chain, AppliesSubmission, Orders};
ghost use Rattle.enet_turn.specs.Counts.{taken_in, given_in};

use crate::host::Core;
use crate::telling::offer;
use crate::waiting::Waiting;
use enet_bridge::{Sink, Source};
use enet_codec::Event;
use enet_submit::Submission;
use enet_wire::MOST_PER_TURN;
use std::sync::Wait;

// Carries an order out; a refusal is told. How many events were taken.
fn apply_submission<H: Core, K: Sink, R: Wait>(
    rt: &R,
    host: &mut H,
    waiting: &mut Waiting,
    sink: &mut K,
    submission: Submission,
) -> u32
    requires { waiting.old.refusal ≡ None }
    ensures { (puts : List (Told × Bool)) × Chain (λ s x t. K.puts s x.0 x.1 t) sink.old puts sink.new
        × AppliesSubmission H.calls (record { host = host.old; waiting = waiting.old }) submission puts (record { host = host.new; waiting = waiting.new })
        × (result ≡ taken_in puts) × (result ≤ 1) }
{
    let Submission {
        seat,
        number,
        order,
    } = submission;
    match host.apply_order(order) {
        Ok(()) => 0,
        Err(why) => offer(
            rt,
            sink,
            &mut waiting.refusal,
            Event::Refused { seat, number, why },
        ),
    }
}

/// Takes orders while no refusal waits, at most 256, and carries them out: how many orders, and how many events were taken.
pub(crate) fn take_orders<H: Core, S: Source, K: Sink, R: Wait>(
    rt: &R,
    host: &mut H,
    waiting: &mut Waiting,
    source: &mut S,
    sink: &mut K,
) -> (u32, u32)
    ensures { (gave : List (Option Item)) × Chain S.gives source.old gave source.new
        × (puts : List (Told × Bool)) × Chain (λ s x t. K.puts s x.0 x.1 t) sink.old puts sink.new
        × Orders H.calls 256 (record { host = host.old; waiting = waiting.old }) gave
        (record { service = record { host = host.new; waiting = waiting.new }; puts = puts })
        × (result.0 ≡ given_in gave) × (result.1 ≡ taken_in puts) }
{
    let mut orders = 0u32;
    let mut events = 0u32;
    for _order in 0..MOST_PER_TURN {
        if waiting.refusal.is_some() {
            return (orders, events);
        }
        match source.next(rt) {
            Some(submission) => {
                orders += 1;
                events += apply_submission(rt, host, waiting, sink, submission);
            }
            None => return (orders, events),
        }
    }
    (orders, events)
}
