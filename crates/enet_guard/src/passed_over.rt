//! How much a guard passed over.

use crate::loads::Load;
use enet_codec::Refusal;
use std::alloc::Global;
use std::sync::atomic::AtomicU64;
use std::sync::atomic::Ordering::SeqCst;

/// Why a datagram was passed over.
#[derive(Clone, Copy)]
pub(crate) enum Over {
    /// It is a CONNECT that the guard doesn't let pass.
    Connect,
    /// It brings this, beyond the share of the client in this slot.
    Share { slot: usize, load: Load },
}

/// How much was passed over of what clients sent, beyond their share.
#[derive(Clone, Copy, Debug, PartialEq, Eq)]
pub struct Dropped {
    /// So many packets, or pieces of long ones.
    pub packets: u64,
    /// So many bytes of them.
    pub bytes: u64,
    /// How many of them were reliable: clients send these again, and each time counts.
    pub reliable: u64,
}

/// The same of the clients of a slot.
#[derive(Drop)]
struct Counts {
    packets: AtomicU64,
    bytes: AtomicU64,
    reliable: AtomicU64,
}

/// How many CONNECTs were passed over, and what of the clients of each slot, shared by the guard, which counts, and by those who ask.
#[derive(Drop)]
pub struct PassedOver {
    connects: AtomicU64,
    packets: AtomicU64,
    of_slots: Vec<Counts>,
}

impl PassedOver {
    ghost use Rattle.std.specs.Prelude.{◌≡◌, IfErr};

    // Nothing yet, of a host of so many slots. E1 for want of memory.
    pub(crate) fn new(alloc: Global, slots: u16) -> Result<PassedOver, Refusal>
        ensures { IfErr result (λ why. why ≡ Refusal.Memory) }
    {
        let mut of_slots = Vec::new(alloc);
        for _slot in 0..slots {
            let counts = Counts {
                packets: AtomicU64::new(0),
                bytes: AtomicU64::new(0),
                reliable: AtomicU64::new(0),
            };
            if of_slots.push(counts).is_err() {
                return Err(Refusal::Memory);
            }
        }
        Ok(PassedOver {
            connects: AtomicU64::new(0),
            packets: AtomicU64::new(0),
            of_slots,
        })
    }

    /// How many CONNECTs so far.
    pub fn connects(&self) -> u64 {
        self.connects.load(SeqCst)
    }

    /// How many packets, or pieces of long ones, so far of what clients sent.
    pub fn packets(&self) -> u64 {
        self.packets.load(SeqCst)
    }

    /// How much that was of the clients in this slot, one after another. Nothing of a slot that isn't there.
    pub fn of_slot(&self, slot: usize) -> Dropped {
        match self.of_slots.get(slot) {
            Some(counts) => Dropped {
                packets: counts.packets.load(SeqCst),
                bytes: counts.bytes.load(SeqCst),
                reliable: counts.reliable.load(SeqCst),
            },
            None => Dropped {
                packets: 0,
                bytes: 0,
                reliable: 0,
            },
        }
    }

    pub(crate) fn count(&self, over: Over) {
        match over {
            Over::Connect => {
                self.connects.fetch_add(1, SeqCst);
            }
            Over::Share { slot, load } => self.count_load(slot, load),
        }
    }

    fn count_load(&self, slot: usize, load: Load) {
        self.packets.fetch_add(load.packets as u64, SeqCst);
        if let Some(counts) = self.of_slots.get(slot) {
            counts.packets.fetch_add(load.packets as u64, SeqCst);
            counts.bytes.fetch_add(load.bytes as u64, SeqCst);
            counts.reliable.fetch_add(load.reliable as u64, SeqCst);
        }
    }
}
