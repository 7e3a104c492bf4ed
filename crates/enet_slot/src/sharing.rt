//! What a moment brings to a slot, and what its host's bandwidths do to it.

ghost use Rattle.std.specs.Prelude.{◌≡◌, ℕ, true, OnOk, OnErr, IfErr};
ghost use Rattle.enet_rtt.specs.Clock.{HappensIn};
ghost use Rattle.enet_peer.specs.Peering.{Peering};
ghost use Rattle.enet_peer.specs.Calls as peers;
ghost use Rattle.enet_slot.specs.Slot.{changed, is_due};
ghost use Rattle.enet_slot.specs.Sharing.{is_standing, wants_room, shared};
ghost use Rattle.enet_slot.specs.Private.Slotted.{HasRoom};

use crate::Slot;
use enet_codec::Refusal;
use enet_peer::PeerState;
use enet_throttle::{budget_of, limit_of};

impl Slot {
    /// Time has come to `now`, in milliseconds. `short` says that its peer's address has sent too little for another answer.
    pub fn tick(&mut self, now: u32, short: bool)
        ensures { self.new.slot ≡ changed (λ (p : Peering). peers.moved short p now) self.old.slot }
    {
        if let Some(peer) = &mut self.peer {
            peer.tick(now, short);
            self.let_go();
        }
    }

    /// In how many milliseconds after the moment `now` time brings its peer anything; 4,294,967,295 where it brings nothing.
    pub fn due_in(&self, now: u32) -> u32
        ensures { HappensIn (λ (later : ℕ). is_due later self.now.slot) now result }
    {
        match &self.peer {
            Some(peer) => peer.due_in(now),
            None => u32::MAX,
        }
    }

    /// Whether its connection stands.
    pub(crate) fn is_standing(&self) -> bool
        ensures { result ≡ is_standing self.now.slot }
    {
        match &self.peer {
            Some(peer) => peer.state() == PeerState::Connected,
            None => false,
        }
    }

    /// Limits a connected peer's throttle to its share of the host's outgoing bandwidth, in bytes per second, among so many
    /// connected peers.
    pub(crate) fn share(&mut self, outgoing: u32, standing: u32)
        ensures { self.new.slot ≡ shared outgoing standing self.old.slot }
    {
        if let Some(peer) = &mut self.peer {
            if peer.state() == PeerState::Connected {
                let budget = budget_of(outgoing, standing, peer.other_incoming());
                peer.throttle_limit(limit_of(self.emitted, budget));
            }
        }
        self.emitted = 0;
    }

    /// Makes room for one command of channel 0xFF of a connected peer; a slot without one takes no memory, nor does one whose
    /// peer has no such command queued or unacknowledged. E1 where memory is refused.
    pub(crate) fn reserve(&mut self) -> Result<(), Refusal>
        ensures unchanged { self.new.slot ≡ self.old.slot }
        ensures room { OnOk result (HasRoom self.new) }
        ensures memory { IfErr result (λ why. why ≡ Refusal.Memory) }
        ensures wanted { OnErr result (wants_room self.old.slot ≡ true) }
    {
        match &mut self.peer {
            Some(peer) if peer.state() == PeerState::Connected => peer.reserve(),
            _ => Ok(()),
        }
    }

    /// Sets its peer's bandwidths, in bytes per second; a connected one is told, for which there must be room.
    pub(crate) fn set_bandwidth(&mut self, incoming: u32, outgoing: u32)
        requires { HasRoom self.old }
        ensures { self.new.slot ≡ changed (λ (p : Peering). peers.with_bandwidth p incoming outgoing) self.old.slot }
    {
        if let Some(peer) = &mut self.peer {
            peer.bandwidth(incoming, outgoing);
            self.let_go();
        }
    }
}
