//! What an event does at its side. `far` is the other side, and `count` says how many connections there have been.

ghost use Rattle.std.specs.Prelude.{◌≡◌, ◌<◌, true};
ghost use Rattle.law_network.specs.declared.event.WorldEvent.TheVariants as happen;
ghost use Rattle.law_network.specs.Headline.{AreEnds};
ghost use Rattle.law_network.specs.World.{Steps, address_of, other, side_of};
ghost use Rattle.enet_world.specs.Private.Worlds.{world_of};

use bytes::Bytes;
use enet_codec::{Admission, DisconnectMode, PeerRef, Refusal};
use enet_site::{Site, Turned};
use law_network::{Answer, Side, WorldEvent};
use std::alloc::Global;

/// The user of a side asks for a connection. An accepted one gets the next number.
fn connect(
    here: &mut Site,
    far: &Site,
    count: &mut u64,
    alloc: Global,
    side: Side,
    channels: u8,
    info: u32,
    word: u32,
) -> Result<Answer, Refusal>
    requires placed { far.now.address ≡ address_of (other side) }
    requires few { count.old < 18446744073709551615 }
    ensures { Steps (world_of side here.old far.now count.old) (happen.Connect side channels info word) result (world_of side here.new far.now count.new) }
{
    let name = here.connect(alloc, far, *count, channels, info, word)?;
    *count += 1;
    Ok(Answer::Peer(name))
}

/// The user of a side submits a packet.
fn submit(
    here: &mut Site,
    far: &Site,
    count: u64,
    side: Side,
    peer: PeerRef,
    channel: u8,
    flags: u8,
    body: &Bytes,
) -> Result<Answer, Refusal>
    ensures { Steps (world_of side here.old far.now count) (happen.Submit side peer channel flags body.now) result (world_of side here.new far.now count) }
{
    here.submit(peer, channel, flags, body)?;
    Ok(Answer::Done)
}

/// The network brings a side a datagram of the other.
fn deliver(
    here: &mut Site,
    far: &Site,
    count: u64,
    alloc: Global,
    side: Side,
    k: u64,
) -> Result<Answer, Refusal>
    ensures { Steps (world_of side here.old far.now count) (happen.Deliver side k) result (world_of side here.new far.now count) }
{
    let received = here.deliver(alloc, far, k)?;
    Ok(Answer::Received(received))
}

/// A side may put out a datagram.
fn turn(
    here: &mut Site,
    far: &Site,
    count: u64,
    alloc: Global,
    side: Side,
) -> Result<Answer, Refusal>
    requires owned { AreEnds (λ address. true) here.old }
    ensures { Steps (world_of side here.old far.now count) (happen.Turn side) result (world_of side here.new far.now count) }
{
    let Some(turned) = here.turn(alloc, far)? else {
        return Ok(Answer::Sent(None));
    };
    let Turned::Sent(k) = turned else {
        // Nothing goes to a stranger: around `far` there is none.
        unreachable!()
    };
    Ok(Answer::Sent(Some(k)))
}

/// The clock of a side goes on.
fn tick(here: &mut Site, far: &Site, count: u64, side: Side, ms: u32) -> Result<Answer, Refusal>
    ensures { Steps (world_of side here.old far.now count) (happen.Tick side ms) result (world_of side here.new far.now count) }
{
    here.tick(ms);
    Ok(Answer::Done)
}

/// The user of a side takes its next event.
fn take(here: &mut Site, far: &Site, count: u64, side: Side) -> Result<Answer, Refusal>
    ensures { Steps (world_of side here.old far.now count) (happen.Take side) result (world_of side here.new far.now count) }
{
    let event = here.take()?;
    Ok(Answer::Taken(event))
}

/// The user of a side ends a connection.
fn disconnect(
    here: &mut Site,
    far: &Site,
    count: u64,
    side: Side,
    peer: PeerRef,
    how: DisconnectMode,
    info: u32,
) -> Result<Answer, Refusal>
    ensures { Steps (world_of side here.old far.now count) (happen.Disconnect side peer how info) result (world_of side here.new far.now count) }
{
    here.disconnect(peer, how, info)?;
    Ok(Answer::Done)
}

/// The user of a side sets whom its host lets in.
fn admit(
    here: &mut Site,
    far: &Site,
    count: u64,
    side: Side,
    what: Admission,
) -> Result<Answer, Refusal>
    ensures { Steps (world_of side here.old far.now count) (happen.Admit side what) result (world_of side here.new far.now count) }
{
    here.admit(what)?;
    Ok(Answer::Done)
}

/// The user of a side sets at how much queued or unacknowledged its host's peers take no further packet.
fn set_send_limit(
    here: &mut Site,
    far: &Site,
    count: u64,
    side: Side,
    bytes: u64,
    commands: u64,
) -> Result<Answer, Refusal>
    ensures { Steps (world_of side here.old far.now count) (happen.SetSendLimit side bytes commands) result (world_of side here.new far.now count) }
{
    here.set_send_limit(bytes, commands);
    Ok(Answer::Done)
}

/// The side at which an event happens.
pub fn side_of(event: &WorldEvent) -> Side
    ensures { result ≡ side_of event.now }
{
    match *event {
        WorldEvent::Connect { side, .. }
        | WorldEvent::Submit { side, .. }
        | WorldEvent::Deliver { side, .. }
        | WorldEvent::Turn { side }
        | WorldEvent::Tick { side, .. }
        | WorldEvent::Take { side }
        | WorldEvent::Disconnect { side, .. }
        | WorldEvent::Admit { side, .. }
        | WorldEvent::SetSendLimit { side, .. } => side,
    }
}

/// What an event does at its side.
pub(crate) fn happen(
    here: &mut Site,
    far: &Site,
    count: &mut u64,
    alloc: Global,
    event: &WorldEvent,
) -> Result<Answer, Refusal>
    requires placed { far.now.address ≡ address_of (other (side_of event.now)) }
    requires few { count.old < 18446744073709551615 }
    requires owned { AreEnds (λ address. true) here.old }
    ensures { Steps (world_of (side_of event.now) here.old far.now count.old) event.now result (world_of (side_of event.now) here.new far.now count.new) }
{
    match event {
        WorldEvent::Connect {
            side,
            channels,
            info,
            word,
        } => connect(here, far, count, alloc, *side, *channels, *info, *word),
        WorldEvent::Submit {
            side,
            peer,
            channel,
            flags,
            body,
        } => submit(here, far, *count, *side, *peer, *channel, *flags, body),
        WorldEvent::Deliver { side, k } => deliver(here, far, *count, alloc, *side, *k),
        WorldEvent::Turn { side } => turn(here, far, *count, alloc, *side),
        WorldEvent::Tick { side, ms } => tick(here, far, *count, *side, *ms),
        WorldEvent::Take { side } => take(here, far, *count, *side),
        WorldEvent::Disconnect {
            side,
            peer,
            how,
            info,
        } => disconnect(here, far, *count, *side, *peer, *how, *info),
        WorldEvent::Admit { side, what } => admit(here, far, *count, *side, *what),
        WorldEvent::SetSendLimit {
            side,
            bytes,
            commands,
        } => set_send_limit(here, far, *count, *side, *bytes, *commands),
    }
}
