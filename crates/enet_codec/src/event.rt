//! Peers as a caller names them, what a host tells of them, and what it answers to a datagram.

ghost use Rattle.std.specs.Prelude.{◌≡◌};
ghost use Rattle.enet_codec.specs.Outward.{goes_to};

use crate::{Packet, Refusal, Stop};
use bytes::Bytes;

/// A peer of a host: its slot and the slot's generation. Each time that a slot is freed and taken again it gets the next
/// generation, so a name of an earlier peer never means a later one (our profile: ENet names a peer by its slot alone). Peers are in the
/// order of their slots, those of one slot in the order in which they had it, so that a map can have them as its keys.
#[derive(Clone, Copy, Debug, PartialEq, Eq, PartialOrd, Ord, Hash)]
pub struct PeerRef {
    /// 0 to 4,094.
    pub slot: u16,
    /// 0 for the first peer of the slot.
    pub generation: u32,
}

/// How to end a connection (ENet 1.3).
#[derive(Clone, Copy, Debug, PartialEq, Eq)]
pub enum DisconnectMode {
    /// At once: one unsequenced DISCONNECT, and no event here.
    Now,
    /// By a reliable DISCONNECT: what is queued is dropped, and the event comes once the other end has acknowledged.
    Ask,
    /// As `Ask`, once all that is queued has gone and each reliable command is acknowledged.
    Later,
}

/// What a host tells its user. Per connection a Connect comes first, then Receives in the order of dispatch, then one
/// Disconnect and nothing after it.
#[derive(Debug, Drop)]
pub enum Event {
    /// The connection stands. `info` is the word that the connecting end gave, at that end itself 0.
    Connect { peer: PeerRef, info: u32 },
    /// A packet came.
    Receive { peer: PeerRef, packet: Packet },
    /// The connection has ended. `info` is the word of the other end's DISCONNECT, 0 where this end's own was acknowledged or
    /// the peer timed out. Once the event is taken the peer's name is spent.
    Disconnect { peer: PeerRef, info: u32 },
    /// An order taken from the submit queue was refused: the seat that submitted it, its number there and the reason. A
    /// service makes it; a host never does.
    Refused { seat: u8, number: u32, why: Refusal },
}

/// What a host answers to a datagram.
#[derive(Clone, Copy, Debug, PartialEq, Eq)]
pub struct Received {
    /// How many commands took effect or were passed over without a stop, and the one of S12 where the stop is S12, whose
    /// command took effect. It stops at 4,294,967,295.
    pub handled: u32,
    /// Why the rest of the datagram was not looked at, or None where all of it was. The stopped command has no effect,
    /// that of S12 excepted.
    pub stop: Option<Stop>,
}

/// A packet that goes to several peers, which share its bytes.
#[derive(Debug, Drop)]
pub struct Outward {
    /// The peer that doesn't get it, as one that it came from; None where all do.
    pub except: Option<PeerRef>,
    /// Its channel: 0 to 254.
    pub channel: u8,
    /// How it is to be carried, as of a [`Packet`].
    pub flags: u8,
    /// Its bytes.
    pub body: Bytes,
}

impl Outward {
    /// Whether this peer gets it.
    pub fn goes_to(&self, peer: PeerRef) -> bool
        ensures { result ≡ goes_to self.now peer }
    {
        match self.except {
            Some(except) => except != peer,
            None => true,
        }
    }
}
