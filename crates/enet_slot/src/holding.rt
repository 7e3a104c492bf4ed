//! How much the peer of a slot holds of what the other end sent.

ghost use Rattle.std.specs.Prelude.{◌≡◌};
ghost use Rattle.enet_peer.specs.Held.{IsLittle, IsWithin};
ghost use Rattle.enet_slot.specs.Holding.{held_in, most_in};

use crate::Slot;
use enet_peer::Held;

/// What a free slot holds.
const NOTHING: Held = Held {
    channels: 0,
    senders: 0,
    packets: 0,
    undispatched: 0,
    bytes: 0,
    acknowledgements: 0,
};

impl Slot {
    /// How much its peer holds of what the other end sent, and at most what `Peer::held` says; nothing where it is free.
    pub fn held(&self) -> Held
        ensures value { result ≡ held_in self.now.slot.peer }
        ensures bound { IsWithin result (most_in self.now.slot.peer) }
        ensures little { IsLittle result }
    {
        match &self.peer {
            Some(peer) => peer.held(),
            None => NOTHING,
        }
    }
}
