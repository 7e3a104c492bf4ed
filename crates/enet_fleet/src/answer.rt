//! What is answered to what happens in a fleet.

use enet_codec::{Addr, Event, PeerRef, Received};

/// What a step answers.
#[derive(Drop)]
pub enum Answer {
    /// The peer that was made.
    Peer(PeerRef),
    /// A submission, a tick or a disconnect was done.
    Done,
    /// What the host answered to a datagram.
    Received(Received),
    /// The number of the datagram that was put out, or None where there was nothing to send.
    Sent(Option<u64>),
    /// The event that was taken, and where the host had its peer until then; None where no event waits.
    Taken(Option<(Event, Addr)>),
}
