//! How the hosts of a script stand, and what changed at one.

use enet_codec::PeerRef;
use enet_explain::{HostReading, PeerReading, gone_line, host_line, peer_line};
use enet_fleet::{Node, node_of};
use enet_host::HostCore;
use enet_lab::{Host, Line, Stage};
use enet_peer::PeerState;
use enet_world::{Side, side_of};
use std::alloc::{AllocError, Global};

/// How a host stands, and its peers by slot.
#[derive(Drop)]
pub struct Seen {
    host: HostReading,
    peers: Vec<Option<PeerReading>>,
}

/// The hosts at which a line can change something: none, one or two.
pub fn hosts_of(line: &Line) -> [Option<Host>; 2] {
    match line {
        Line::Pair { .. } | Line::Calm { .. } => {
            [Some(Host::OfWorld(Side::A)), Some(Host::OfWorld(Side::B))]
        }
        Line::InWorld(event) => [Some(Host::OfWorld(side_of(event))), None],
        Line::InFleet(event) => [Some(Host::OfFleet(node_of(event))), None],
        Line::DeliverLast { side } => [Some(Host::OfWorld(*side)), None],
        Line::DeliverLastFrom { to, .. } => [Some(Host::OfFleet(*to)), None],
        Line::PassedOver | Line::Open { .. } | Line::Fleet { .. } | Line::RoundsNeeded { .. } => {
            [None, None]
        }
    }
}

/// How a host stands, if it is there. An error where there is no memory for that.
pub fn look(alloc: Global, stage: &Stage, host: Option<Host>) -> Result<Option<Seen>, AllocError> {
    let Some(host) = host else {
        return Ok(None);
    };
    match core_of(stage, host) {
        Some(core) => Ok(Some(read_host(alloc, core)?)),
        None => Ok(None),
    }
}

fn core_of(stage: &Stage, host: Host) -> Option<&HostCore> {
    match (stage, host) {
        (Stage::InWorld(world), Host::OfWorld(side)) => Some(world.host(side)),
        (Stage::InFleet(fleet), Host::OfFleet(node)) => fleet.host(node),
        _ => None,
    }
}

fn read_host(alloc: Global, core: &HostCore) -> Result<Seen, AllocError> {
    let held = core.held();
    let host = HostReading {
        due_in: core.due_in(),
        acknowledgements: held.acknowledgements,
        waiting: held.undispatched,
        has_event: core.next_event_of().is_some(),
    };
    let mut peers = Vec::with_capacity(alloc, usize::from(core.slot_count()))?;
    for slot in 0..core.slot_count() {
        peers.push(read_peer(core, slot))?;
    }
    Ok(Seen { host, peers })
}

// How the peer of a slot stands, if one is there.
fn read_peer(core: &HostCore, slot: u16) -> Option<PeerReading> {
    let name = core.name_in(slot)?;
    let outstanding = core.outstanding(name)?;
    Some(PeerReading {
        name,
        state: state_word(core.state(name)?),
        commands: outstanding.commands,
        bytes: outstanding.bytes,
        in_transit: core.in_transit(name)?,
        allowance: core.allowance(name)?,
    })
}

fn state_word(state: PeerState) -> &'static str {
    match state {
        PeerState::Free => "free",
        PeerState::Connecting => "connecting",
        PeerState::Answering => "answered, and not confirmed",
        PeerState::Connected => "connected",
        PeerState::DisconnectLater => "to be disconnected once all is acknowledged",
        PeerState::Disconnecting => "disconnecting",
        PeerState::AckDisconnect => "disconnected by the other side",
        PeerState::Ended => "ended, with an event to take",
        PeerState::Parting => "disconnected, which its next turn says",
    }
}

/// Puts behind a text what changed at a host between two looks at it, a line each, two spaces before it. An error where there is no memory
/// for it.
pub fn push_changes(
    alloc: Global,
    text: &mut Vec<u8>,
    name: &str,
    before: Option<&Seen>,
    now: &Seen,
) -> Result<(), AllocError> {
    let is_same = match before {
        Some(before) => before.host == now.host,
        None => false,
    };
    if !is_same {
        push_line(text, host_line(alloc, name, now.host)?.as_bytes())?;
    }
    for (slot, peer) in now.peers.iter().enumerate() {
        let was = before.and_then(|before| *before.peers.get(slot)?);
        push_change(alloc, text, name, was, *peer)?;
    }
    Ok(())
}

fn push_change(
    alloc: Global,
    text: &mut Vec<u8>,
    host: &str,
    was: Option<PeerReading>,
    is: Option<PeerReading>,
) -> Result<(), AllocError> {
    match (was, is) {
        (Some(was), Some(is)) if was == is => Ok(()),
        (Some(was), Some(is)) if was.name != is.name => {
            push_line(text, gone_line(alloc, host, was.name)?.as_bytes())?;
            push_line(text, peer_line(alloc, host, &is)?.as_bytes())
        }
        (_, Some(is)) => push_line(text, peer_line(alloc, host, &is)?.as_bytes()),
        (Some(was), None) => push_line(text, gone_line(alloc, host, was.name)?.as_bytes()),
        (None, None) => Ok(()),
    }
}

/// Puts a line behind a text, two spaces before it.
pub fn push_line(text: &mut Vec<u8>, line: &[u8]) -> Result<(), AllocError> {
    text.extend_from_slice(b"  ")?;
    text.extend_from_slice(line)?;
    text.push(b'\n')?;
    Ok(())
}
