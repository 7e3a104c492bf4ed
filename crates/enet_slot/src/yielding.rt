//! A slot whose peer gives way.

ghost use Rattle.std.specs.Prelude.{◌≡◌};
ghost use Rattle.std.specs.Option.{option_map};
ghost use Rattle.enet_slot.specs.Yielding.{readied, yields};

use crate::Slot;
use enet_peer::PeerState;

impl Slot {
    /// Whether its peer waits for its client to confirm an answer, and it has another generation left of so many.
    pub fn yields(&self, generations: u32) -> bool
        ensures { result ≡ yields generations self.now.slot }
    {
        match &self.peer {
            Some(peer) => {
                peer.state() == PeerState::Answering
                    && self.generation < generations.saturating_sub(1)
            }
            None => false,
        }
    }

    /// When its peer was made, in milliseconds; None where it is free.
    pub fn made(&self) -> Option<u32>
        ensures { result ≡ option_map (λ p. p.made) self.now.slot.peer }
    {
        match &self.peer {
            Some(peer) => Some(peer.made()),
            None => None,
        }
    }

    /// A free slot that goes on from this one, whose peer, if it holds one, is let go: it has that one's sessions and ending, and the next
    /// generation.
    pub(crate) fn readied(&self) -> Slot
        ensures { result.slot ≡ readied self.now.slot }
    {
        let next = Slot {
            generation: self.generation,
            address: self.address,
            incoming_session: self.incoming_session,
            outgoing_session: self.outgoing_session,
            emitted: self.emitted,
            ending: self.ending,
            peer: None,
        };
        let Some(peer) = &self.peer else {
            return next;
        };
        let terms = peer.terms();
        Slot {
            generation: self.generation.saturating_add(1),
            incoming_session: terms.incoming_session,
            outgoing_session: terms.outgoing_session,
            ending: peer.ending(),
            ..next
        }
    }
}
