//! A user takes the next event.

ghost use Rattle.std.specs.Prelude.{◌≡◌, Some, None, IfSome, IfNone, IfOk, IfErr, OnErr};
ghost use Rattle.std.specs.Option.{option_and_then};
ghost use Rattle.enet_host.specs.Calls.{Takes, address_named};
ghost use Rattle.enet_host.specs.Foretelling.{teller_of, packet_of, Foretells};
ghost use Rattle.law_network.specs.Calls as call;
ghost use Rattle.law_network.specs.World.{RefusesTake};
ghost use Rattle.enet_site.specs.Private.Sites.{IsWhole, CallsOn, told};

use crate::{End, Records, position_of};
use enet_codec::{Addr, Event, Refusal};
use enet_host::HostCore;

/// An event that is no packet, twice over.
fn twice(event: Event) -> Option<(Event, Event)>
    ensures { packet_of event ≡ None → result ≡ Some (event, event) }
{
    match event {
        Event::Connect { peer, info } => {
            Some((Event::Connect { peer, info }, Event::Connect { peer, info }))
        }
        Event::Disconnect { peer, info } => Some((
            Event::Disconnect { peer, info },
            Event::Disconnect { peer, info },
        )),
        Event::Refused { seat, number, why } => Some((
            Event::Refused { seat, number, why },
            Event::Refused { seat, number, why },
        )),
        Event::Receive { .. } => None,
    }
}

/// The next event of a host, which is no packet, twice over.
fn next_word(host: &mut HostCore) -> Option<(Event, Event)>
    requires { Foretells packet_of host.old None }
    ensures none { IfNone result (Takes None host.old host.new) }
    ensures word { IfSome result (λ words. Takes (Some words.0) host.old host.new) }
    ensures same { IfSome result (λ words. words.1 ≡ words.0) }
{
    let Some(event) = host.next_event() else {
        return None;
    };
    twice(event)
}

/// Takes the next event, which is no packet and of the peer of an end, and keeps it there.
fn take_word(host: &mut HostCore, end: &mut End) -> Result<Option<Event>, Refusal>
    requires { Foretells packet_of host.old None }
    ensures memory { IfErr result (λ why. why ≡ Refusal.Memory) }
    ensures host { OnErr result (host.new ≡ host.old) }
    ensures unchanged { OnErr result (end.new ≡ end.old) }
    ensures takes { IfOk result (λ event. Takes event host.old host.new) }
    ensures keeps { IfOk result (λ event. end.new ≡ told event end.old) }
{
    if end.events.reserve(1).is_err() {
        return Err(Refusal::Memory);
    }
    let Some((event, kept)) = next_word(host) else {
        return Ok(None);
    };
    end.events.push_reserved(kept);
    Ok(Some(event))
}

/// Takes the next event, which is of the peer of an end, and keeps it there.
fn take_of(host: &mut HostCore, end: &mut End) -> Result<Option<Event>, Refusal>
    requires { Foretells teller_of host.old (Some end.old.name) }
    ensures memory { IfErr result (λ why. why ≡ Refusal.Memory) }
    ensures host { OnErr result (host.new ≡ host.old) }
    ensures unchanged { OnErr result (end.new ≡ end.old) }
    ensures takes { IfOk result (λ event. Takes event host.old host.new) }
    ensures keeps { IfOk result (λ event. end.new ≡ told event end.old) }
{
    let Some(packet) = host.next_packet() else {
        return take_word(host, end);
    };
    end.keep_packet(packet)?;
    Ok(host.next_event())
}

/// Takes the next event, and keeps it at its end, if there is one of its peer. E1 where one waits and memory is refused, with nothing
/// changed.
pub(crate) fn take(host: &mut HostCore, own: &mut Records) -> Result<Option<Event>, Refusal>
    requires { IsWhole host.old own.old.ends }
    ensures refused { IfErr result (λ why. RefusesTake why host.old) }
    ensures host { OnErr result (host.new ≡ host.old) }
    ensures unchanged { OnErr result (own.new ≡ own.old) }
    ensures takes { IfOk result (λ event. CallsOn 0 (call.NextEvent event) (record { host = host.old; records = own.old }) (record { host = host.new; records = own.new })) }
{
    let Some(name) = host.next_event_of() else {
        return Ok(None);
    };
    let Some(place) = position_of(&own.ends, name) else {
        return Ok(host.next_event());
    };
    let end = &mut own.ends[place];
    take_of(host, end)
}

/// Where the peer is whose event is taken next; None where none waits.
pub(crate) fn next_event_from(host: &HostCore) -> Option<Addr>
    ensures { Foretells (λ event. option_and_then (address_named host.now.slots) (teller_of event)) host.now result }
{
    let Some(teller) = host.next_event_of() else {
        return None;
    };
    host.address(teller)
}
