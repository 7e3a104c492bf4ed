//! What an outbox is made of.

use bytes::Bytes;
use enet_senders::Control;

/// An acknowledgement that waits to be put out.
#[derive(Clone, Copy)]
pub struct Acknowledgement {
    /// The channel of the command that came; 0xFF for one that concerns the connection itself.
    pub channel: u8,
    /// The reliable number of that command.
    pub number: u16,
    /// The sent time of the datagram that brought the command, in milliseconds modulo 65,536.
    pub time: u16,
}

/// An unsequenced packet that waits to be put out.
#[derive(Drop)]
pub struct Unsequenced {
    /// The channel on which it was submitted.
    pub channel: u8,
    /// Its number among the unsequenced packets to this peer, modulo 65536, from 1 on.
    pub group: u16,
    /// Its bytes.
    pub body: Bytes,
}

/// What sending goes by.
#[derive(Clone, Copy)]
pub struct Pace {
    /// The clock, in milliseconds.
    pub now: u32,
    /// How long a command that is sent for the first time waits for its acknowledgement, in milliseconds.
    pub timeout: u32,
    /// The window in bytes; the throttle allows its part of it.
    pub window: u32,
    /// The greatest length of a datagram in bytes, 576 to 4,096.
    pub mtu: u32,
}

/// To whom a datagram goes.
#[derive(Clone, Copy)]
pub struct Destination {
    /// The other end's slot; 0xFFF before it is known.
    pub slot: u16,
    /// The session of the datagrams that this end sends; it counts once the slot is known.
    pub session: u8,
    /// What this end adds to its sent times, modulo 65,536.
    pub offset: u16,
}

/// What an acknowledgement matched.
#[derive(Clone, Copy)]
pub enum Matched {
    /// No sent command.
    Nothing,
    /// A data command.
    Data,
    /// This command of channel 0xFF.
    Control(Control),
}

/// At how much that is queued, or sent and not acknowledged, a peer takes no further packet.
#[derive(Clone, Copy, Debug, PartialEq, Eq)]
pub struct SendLimit {
    /// The bytes of the payloads.
    pub bytes: u64,
    /// The commands: a packet that is cut counts as many as it has pieces.
    pub commands: u64,
}
