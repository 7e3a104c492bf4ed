//! How much a peer holds of what the other end sent.

ghost use Rattle.std.specs.Prelude.{◌≡◌};
ghost use Rattle.enet_peer.specs.Held.{held_of, most_of, IsLittle, IsWithin};

use crate::Peer;

/// How much is held of what others sent.
#[derive(Clone, Copy, Debug, PartialEq, Eq)]
pub struct Held {
    /// The channels on which it came.
    pub channels: u64,
    /// The channels on which others are sent to.
    pub senders: u64,
    /// Packets that are held, wait or are in the making, and those that the user hasn't taken.
    pub packets: u64,
    /// Those of them that weren't dispatched: held, waiting or in the making.
    pub undispatched: u64,
    /// The packets' bytes, each packet counted whole from its first piece on.
    pub bytes: u64,
    /// Acknowledgements that wait to be put out.
    pub acknowledgements: u64,
}

impl Peer {
    /// How much it holds of what the other end sent. Whatever came, and whether or not the user takes, that is no more than the limits
    /// with which the peer began allow: 255 channels, twice as many packets as there are places and 255, once as many and 255 of those that
    /// weren't dispatched, twice the bytes that may wait and 257 packets, and 8,192 acknowledgements.
    pub fn held(&self) -> Held
        ensures value { result ≡ held_of self.now.peer }
        ensures bound { IsWithin result (most_of self.now.peer.inbox.max_packet self.now.peer.inbox.max_waiting) }
        ensures little { IsLittle result }
    {
        Held {
            channels: self.inbox.channels() as u64,
            senders: self.outbox.channels() as u64,
            packets: self.inbox.places() as u64,
            undispatched: self.inbox.undispatched() as u64,
            bytes: self.inbox.bytes() as u64,
            acknowledgements: self.outbox.acknowledgements() as u64,
        }
    }
}
