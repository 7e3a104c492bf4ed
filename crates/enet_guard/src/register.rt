//! Who is connected, as whoever watches a host tells a guard.

use crate::guard::Seated;
use enet_codec::{Addr, Refusal};
use std::alloc::Global;
use std::sync::atomic::Ordering::SeqCst;
use std::sync::atomic::{AtomicBool, AtomicU32};

/// Who is connected in a slot.
#[derive(Drop)]
struct Seat {
    is_taken: AtomicBool,
    ip: AtomicU32,
    port: AtomicU32,
    generation: AtomicU32,
}

/// Who is connected in each slot, as it was last told. It is shared by whoever watches the host and the guard in front of it. They work in one
/// thread; in two, a guard may see half of what was told last, until it is told of the next change.
#[derive(Drop)]
pub struct Register {
    seats: Vec<Seat>,
    has_changed: AtomicBool,
}

impl Register {
    ghost use Rattle.std.specs.Prelude.{◌≡◌, IfErr};

    // Nobody is connected in so many slots. E1 for want of memory.
    pub(crate) fn new(alloc: Global, slots: u16) -> Result<Register, Refusal>
        ensures { IfErr result (λ why. why ≡ Refusal.Memory) }
    {
        let mut seats = Vec::new(alloc);
        for _slot in 0..slots {
            let seat = Seat {
                is_taken: AtomicBool::new(false),
                ip: AtomicU32::new(0),
                port: AtomicU32::new(0),
                generation: AtomicU32::new(0),
            };
            if seats.push(seat).is_err() {
                return Err(Refusal::Memory);
            }
        }
        Ok(Register {
            seats,
            has_changed: AtomicBool::new(false),
        })
    }

    /// Tells who is connected in a slot now. A slot that isn't there is passed over.
    pub fn tell(&self, slot: usize, there: Option<Seated>) {
        let Some(seat) = self.seats.get(slot) else {
            return;
        };
        if let Some(there) = there {
            seat.ip.store(there.address.ip, SeqCst);
            seat.port.store(u32::from(there.address.port), SeqCst);
            seat.generation.store(there.generation, SeqCst);
        }
        seat.is_taken.store(there.is_some(), SeqCst);
        self.has_changed.store(true, SeqCst);
    }

    // Whether something was told since this was last asked.
    pub(crate) fn has_changed(&self) -> bool {
        self.has_changed.swap(false, SeqCst)
    }

    pub(crate) fn len(&self) -> usize {
        self.seats.len()
    }

    pub(crate) fn seated(&self, slot: usize) -> Option<Seated> {
        let seat = self.seats.get(slot)?;
        if !seat.is_taken.load(SeqCst) {
            return None;
        }
        Some(Seated {
            address: Addr {
                ip: seat.ip.load(SeqCst),
                port: u16::try_from(seat.port.load(SeqCst)).unwrap_or(0),
            },
            generation: seat.generation.load(SeqCst),
        })
    }
}
