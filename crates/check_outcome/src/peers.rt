//! What is known of a host's peers.

use enet_codec::{Event, PeerRef};

/// How many slots a host has at most.
pub const SLOTS: u16 = 6;

/// What is known of a host's peers, by what the host told.
#[derive(Clone, Copy)]
pub struct Peers {
    /// The peer that connected last.
    pub(crate) connected: PeerRef,
    /// Whether it has no Disconnect yet.
    pub(crate) stands: bool,
    /// The generation of the last peer of each slot.
    generations: [u32; SLOTS as usize],
}

impl Peers {
    /// Nothing is known.
    pub fn nothing() -> Peers {
        Peers {
            connected: PeerRef {
                slot: 0,
                generation: 0,
            },
            stands: false,
            generations: [0; SLOTS as usize],
        }
    }

    /// The host has a peer of this name.
    pub fn has_peer(&mut self, name: PeerRef) {
        let slot = usize::from(name.slot);
        if slot < self.generations.len() {
            self.generations[slot] = name.generation;
        }
    }

    /// A peer of the host speaks: from now on it counts as the one that connected last.
    pub fn speaks(&mut self, name: PeerRef) {
        self.connected = name;
        self.stands = true;
        self.has_peer(name);
    }

    /// The host's user was told of a Connect or a Disconnect.
    pub fn told(&mut self, event: &Event) {
        match event {
            Event::Connect { peer, .. } => self.speaks(*peer),
            Event::Disconnect { peer, .. } if self.connected == *peer => self.stands = false,
            _ => {}
        }
    }

    /// The name of the last peer of a slot.
    pub(crate) fn last_peer(&self, slot: u16) -> PeerRef {
        let generation = self
            .generations
            .get(usize::from(slot))
            .copied()
            .unwrap_or(0);
        PeerRef { slot, generation }
    }
}
