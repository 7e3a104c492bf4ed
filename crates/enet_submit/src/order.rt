//! What goes through the queue, and what its calls answer.
ghost use Rattle.std.specs.Prelude.{◌<◌, length};
ghost use Rattle.enet_submit.specs.Requests.{orders_of};

use crate::broadcast::Broadcast;
use bytes::Bytes;
use enet_codec::{Addr, DisconnectMode, PeerRef};

/// What a game thread asks of the host. The queue looks at nothing in it: the host's call says what it refuses.
#[derive(Debug, Drop)]
pub enum Order {
    /// To connect to `addr`, with `channels` channels. `info` is told to the other end, `word` is the connect id.
    Connect {
        addr: Addr,
        channels: u8,
        info: u32,
        word: u32,
    },
    /// To send a packet of these bytes on a channel; `flags` are RELIABLE 1, UNSEQUENCED 2 and UNRELIABLE_FRAGMENT 8.
    Submit {
        peer: PeerRef,
        channel: u8,
        flags: u8,
        body: Bytes,
    },
    /// To end the connection in this way. `info` is told to the other end.
    Disconnect {
        peer: PeerRef,
        how: DisconnectMode,
        info: u32,
    },
}

/// What is asked for at once: an order, or packets for several peers.
#[derive(Drop)]
pub enum Request {
    One(Order),
    Each(Broadcast),
}

/// What one place of the queue holds: what a seat asked for at once, with the number there of its first order.
#[derive(Drop)]
pub struct Parcel {
    pub seat: u8,
    pub number: u32,
    pub request: Request,
    pub ghost some: { 0 < length (orders_of request) },
}

/// An order with the seat that submitted it and its number there, from 0.
#[derive(Debug, Drop)]
pub struct Submission {
    pub seat: u8,
    pub number: u32,
    pub order: Order,
}

/// The receipt for an order: the seat and the order's number there, from 0.
#[derive(Clone, Copy, Debug, PartialEq, Eq)]
pub struct Ticket {
    pub seat: u8,
    pub number: u32,
}

/// How many orders went through a queue, in all and by seat. Seats that there were not have 0.
#[derive(Clone, Copy, Debug, PartialEq, Eq)]
pub struct Account {
    pub total: u64,
    pub by_seat: [u32; 16],
}
