//! What can happen in a world of two hosts, and what is answered.

use bytes::Bytes;
use enet_codec::{Admission, DisconnectMode, Event, PeerRef, Received};

/// One of the two sides.
#[derive(Clone, Copy)]
pub enum Side {
    /// The host at 10.0.0.1 port 7001.
    A,
    /// The host at 10.0.0.2 port 7002.
    B,
}

/// What happens in a world. The refusals that it can meet are named in the order in which they are tested.
#[derive(Drop)]
pub enum WorldEvent {
    /// The user of a side asks for a connection to the other side, with a connect id: E8, E7, E1. Accepted ones number the
    /// connections from 0.
    Connect {
        /// The side whose user asks.
        side: Side,
        /// How many channels it asks for; 0 is refused.
        channels: u8,
        /// A word for the other side's user.
        info: u32,
        /// The connect id.
        word: u32,
    },
    /// The user of a side submits a packet to a peer: E2, E3, E4, E5, E9, E1.
    Submit {
        /// The side whose user submits.
        side: Side,
        /// Its peer.
        peer: PeerRef,
        /// Below the peer's number of channels.
        channel: u8,
        /// RELIABLE 1, UNSEQUENCED 2, UNRELIABLE_FRAGMENT 8; others are ignored.
        flags: u8,
        /// The packet's bytes.
        body: Bytes,
    },
    /// The network brings a side datagram `k` of the other side, from 0: E13, E12, E11, E1.
    Deliver {
        /// The side to which the datagram comes.
        side: Side,
        /// Its number among those that the other side has put out.
        k: u64,
    },
    /// A side may put out one datagram, which gets the side's next number: E1.
    Turn {
        /// The side that may put a datagram out.
        side: Side,
    },
    /// The clock of a side goes on by so many milliseconds, at most 60,000.
    Tick {
        /// The side whose clock goes on.
        side: Side,
        /// Milliseconds; more than 60,000 count as 60,000.
        ms: u32,
    },
    /// The user of a side takes its next event: E1, only where one waits.
    Take {
        /// The side whose user takes.
        side: Side,
    },
    /// The user of a side ends a connection, with a word for the other's user: E2, E3.
    Disconnect {
        /// The side whose user ends the connection.
        side: Side,
        /// Its peer.
        peer: PeerRef,
        /// At once, by asking the other side, or later.
        how: DisconnectMode,
        /// A word for the other side's user.
        info: u32,
    },
    /// The user of a side sets whom its host lets in: E8.
    Admit {
        /// The side whose user sets it.
        side: Side,
        /// What it sets.
        what: Admission,
    },
    /// The user of a side sets at how much queued or unacknowledged each peer of its host takes no further packet. It isn't refused.
    SetSendLimit {
        /// The side whose user sets it.
        side: Side,
        /// The bytes of the payloads.
        bytes: u64,
        /// The commands: a packet that is cut counts as many as it has pieces.
        commands: u64,
    },
}

/// What a step answers.
#[derive(Drop)]
pub enum Answer {
    /// The peer that was made.
    Peer(PeerRef),
    /// A submission, a tick, a disconnect or a setting was done.
    Done,
    /// What the host answered to a datagram.
    Received(Received),
    /// The number of the datagram that was put out, or None where there was nothing to send.
    Sent(Option<u64>),
    /// The event that was taken, or None where none waits.
    Taken(Option<Event>),
}
