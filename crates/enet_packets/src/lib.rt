//! Packets that came and are not dispatched yet: the reliable ones by the number of their first piece, and the unreliable
//! ones in lines, one line for each reliable number.
//!
//! Proved, over finite maps: `Packets` (by number) and `Waiting` (unreliable packets in lines, by reliable number and then
//! by unreliable number) insert, add a piece, remove, hand out and forget just what their contracts say; `dispatch` and
//! `flush` hand out the whole packets of a line from a number on, by rising number, and drop those that have fallen
//! behind; the counts of packets and bytes are exact (`len`, `bytes`, `packets`), by counters, and `is_empty` tells
//! just whether there is a line, `has_line` whether there is one of a number; want of memory changes nothing. Each packet has
//! memory of its own (`BoxedPacket`), so that a place that a map keeps free costs a pointer. The body of a packet that is handed on
//! as it comes is the bytes that came (`Bodies`).
//! Neither: that short bodies share blocks, and that a block is used again once nobody has a body of it.
//! Only tested, by `check_peer`: that calls succeed with ample memory, and worked lines.
#![tactic(auto)]

mod bodies;
mod boxed_packet;
mod incoming_packet;
mod look;
mod packets;
mod waiting;

pub use bodies::Bodies;
pub use incoming_packet::{Dispatched, IncomingPacket};
pub use look::look_at;
pub use packets::Packets;
pub use waiting::Waiting;
