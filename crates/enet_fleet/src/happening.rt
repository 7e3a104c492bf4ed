//! What an event does in a fleet.

ghost use Rattle.std.specs.Prelude.{◌≡◌};
ghost use Rattle.std.specs.Option.{option_zip};
ghost use Rattle.enet_fleet.specs.declared.event.FleetEvent.TheVariants as happen;
ghost use Rattle.enet_fleet.specs.Fleets.{Steps};
ghost use Rattle.enet_fleet.specs.Private.Reached.{IsReached};

use crate::answer::Answer;
use crate::connecting::connect;
use crate::delivering::deliver;
use crate::event::FleetEvent;
use crate::hosts::{Hosts, is_host};
use crate::turning::turn;
use bytes::Bytes;
use enet_codec::{Addr, Admission, DisconnectMode, Event, PeerRef, Refusal};
use law_headline::Node;
use std::alloc::Global;

/// The user of a host submits a packet.
fn submit(
    hosts: &mut Hosts,
    node: Node,
    peer: PeerRef,
    channel: u8,
    flags: u8,
    body: &Bytes,
) -> Result<Answer, Refusal>
    ensures { Steps hosts.old (happen.Submit node peer channel flags body.now) result hosts.new }
{
    let Some(here) = hosts.place_mut(node) else {
        return Err(Refusal::NoSuchHost);
    };
    here.site.submit(peer, channel, flags, body)?;
    Ok(Answer::Done)
}

/// A stranger's datagram comes to a host.
fn receive(hosts: &mut Hosts, to: Node, addr: Addr, bytes: &Bytes) -> Result<Answer, Refusal>
    ensures { Steps hosts.old (happen.Stranger to addr bytes.now) result hosts.new }
{
    if is_host(hosts.clients.len(), addr) {
        return Err(Refusal::NoSuchHost);
    }
    let Some(here) = hosts.place_mut(to) else {
        return Err(Refusal::NoSuchHost);
    };
    let received = here.site.receive(addr, bytes);
    Ok(Answer::Received(received))
}

/// The clock of a host goes on.
fn tick(hosts: &mut Hosts, node: Node, ms: u32) -> Result<Answer, Refusal>
    ensures { Steps hosts.old (happen.Tick node ms) result hosts.new }
{
    let Some(here) = hosts.place_mut(node) else {
        return Err(Refusal::NoSuchHost);
    };
    here.site.tick(ms);
    Ok(Answer::Done)
}

/// An event that was taken, and where its peer is.
fn told(event: Option<Event>, from: Option<Addr>) -> Option<(Event, Addr)>
    ensures { result ≡ option_zip event from }
{
    event.zip(from)
}

/// The user of a host takes its next event, and is told where its peer is.
fn take(hosts: &mut Hosts, node: Node) -> Result<Answer, Refusal>
    ensures { Steps hosts.old (happen.Take node) result hosts.new }
{
    let Some(here) = hosts.place_mut(node) else {
        return Err(Refusal::NoSuchHost);
    };
    let from = here.site.next_event_from();
    let event = here.site.take()?;
    Ok(Answer::Taken(told(event, from)))
}

/// The user of a host ends a connection.
fn disconnect(
    hosts: &mut Hosts,
    node: Node,
    peer: PeerRef,
    how: DisconnectMode,
    info: u32,
) -> Result<Answer, Refusal>
    ensures { Steps hosts.old (happen.Disconnect node peer how info) result hosts.new }
{
    let Some(here) = hosts.place_mut(node) else {
        return Err(Refusal::NoSuchHost);
    };
    here.site.disconnect(peer, how, info)?;
    Ok(Answer::Done)
}

/// The user of a host sets whom it lets in.
fn admit(hosts: &mut Hosts, node: Node, what: Admission) -> Result<Answer, Refusal>
    ensures { Steps hosts.old (happen.Admit node what) result hosts.new }
{
    let Some(here) = hosts.place_mut(node) else {
        return Err(Refusal::NoSuchHost);
    };
    here.site.admit(what)?;
    Ok(Answer::Done)
}

/// The user of a host sets at how much queued or unacknowledged its peers take no further packet.
fn set_send_limit(
    hosts: &mut Hosts,
    node: Node,
    bytes: u64,
    commands: u64,
) -> Result<Answer, Refusal>
    ensures { Steps hosts.old (happen.SetSendLimit node bytes commands) result hosts.new }
{
    let Some(here) = hosts.place_mut(node) else {
        return Err(Refusal::NoSuchHost);
    };
    here.site.set_send_limit(bytes, commands);
    Ok(Answer::Done)
}

/// What an event does.
pub(crate) fn happen(
    hosts: &mut Hosts,
    alloc: Global,
    event: &FleetEvent,
) -> Result<Answer, Refusal>
    requires { IsReached hosts.old }
    ensures { Steps hosts.old event.now result hosts.new }
{
    match event {
        FleetEvent::Connect {
            client,
            channels,
            info,
            word,
        } => connect(hosts, alloc, *client, *channels, *info, *word),
        FleetEvent::Submit {
            node,
            peer,
            channel,
            flags,
            body,
        } => submit(hosts, *node, *peer, *channel, *flags, body),
        FleetEvent::Deliver { to, from, k } => deliver(hosts, alloc, *to, *from, *k),
        FleetEvent::Stranger { to, addr, bytes } => receive(hosts, *to, *addr, bytes),
        FleetEvent::Turn { node } => turn(hosts, alloc, *node),
        FleetEvent::Tick { node, ms } => tick(hosts, *node, *ms),
        FleetEvent::Take { node } => take(hosts, *node),
        FleetEvent::Disconnect {
            node,
            peer,
            how,
            info,
        } => disconnect(hosts, *node, *peer, *how, *info),
        FleetEvent::Admit { node, what } => admit(hosts, *node, *what),
        FleetEvent::SetSendLimit {
            node,
            bytes,
            commands,
        } => set_send_limit(hosts, *node, *bytes, *commands),
    }
}
