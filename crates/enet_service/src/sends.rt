//! How many commands a host sent its peers, those that are gone too.

use enet_codec::PeerRef;
use enet_host::HostCore;
use std::alloc::{AllocError, Global};

/// What was counted of the last peer of a slot ([`HostCore::traffic`]).
#[derive(Clone, Copy)]
struct Counted {
    generation: u32,
    sent: u64,
    again: u64,
}

impl Counted {
    /// A peer of this generation begins.
    fn begun(generation: u32) -> Counted {
        Counted {
            generation,
            sent: 0,
            again: 0,
        }
    }
}

/// How often commands with data that ask for an acknowledgement went so far.
#[derive(Drop)]
pub(crate) struct Sends {
    // By slots.
    counted: Vec<Counted>,
    sends: u64,
    resends: u64,
}

impl Sends {
    /// Of a host with so many slots that did nothing yet. An error for want of memory.
    pub(crate) fn new(alloc: Global, slots: usize) -> Result<Sends, AllocError> {
        let mut counted = Vec::new(alloc);
        counted.resize(slots, Counted::begun(0))?;
        Ok(Sends {
            counted,
            sends: 0,
            resends: 0,
        })
    }

    /// First or again, to all peers.
    pub(crate) fn sends(&self) -> u64 {
        self.sends
    }

    /// Those times of these that the command had gone before.
    pub(crate) fn resends(&self) -> u64 {
        self.resends
    }

    /// Counts what the host just sent this peer with a datagram. A peer that is gone with its last one got no data in it.
    pub(crate) fn count(&mut self, host: &HostCore, peer: PeerRef) {
        let Some(now) = host.traffic(peer) else {
            return;
        };
        let Some(before) = self.counted.get_mut(usize::from(peer.slot)) else {
            return;
        };
        if before.generation != peer.generation {
            *before = Counted::begun(peer.generation);
        }
        let sends = now.sent.wrapping_sub(before.sent);
        let resends = now.again.wrapping_sub(before.again);
        before.sent = now.sent;
        before.again = now.again;
        self.sends = self.sends.saturating_add(sends);
        self.resends = self.resends.saturating_add(resends);
    }
}
