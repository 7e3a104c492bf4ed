//! What is drawn.
ghost use Rattle.std.specs.Prelude.{◌<◌};

use bytes::Bytes;
use rand_core::{Rng, SeedableRng};
use rand_pcg::Pcg32;
use std::alloc::{AllocError, Global};

/// How many bytes of a body are drawn; a longer one repeats them, each time with a count in front.
const BLOCK: usize = 1000;

/// Draws that a seed fixes.
#[derive(Drop)]
pub struct Draw {
    generator: Pcg32,
}

impl Draw {
    /// The draws that begin at a seed.
    pub fn new(seed: u64) -> Draw {
        Draw {
            generator: Pcg32::seed_from_u64(seed),
        }
    }

    /// A number of 32 bits.
    pub fn word(&mut self) -> u32 {
        self.generator.next_u32()
    }

    /// A number of 16 bits.
    pub fn short(&mut self) -> u16 {
        (self.generator.next_u32() >> 16) as u16
    }

    /// A number below a bound.
    pub fn below(&mut self, bound: u32) -> u32
        requires { 0 < bound }
        ensures { result < bound }
    {
        self.generator.next_u32() % bound
    }

    /// The body of a packet.
    pub fn body(&mut self, alloc: Global, len: usize) -> Result<Bytes, AllocError> {
        let bytes = self.bytes(alloc, len)?;
        Ok(Bytes::from_vec(bytes)?)
    }

    /// So many bytes.
    pub fn bytes(&mut self, alloc: Global, len: usize) -> Result<Vec<u8>, AllocError> {
        let block = self.block(alloc, len.min(BLOCK))?;
        let mut bytes = Vec::with_capacity(alloc, len)?;
        for count in 0..len / BLOCK {
            bytes.extend_from_slice(&(count as u64).to_le_bytes())?;
            bytes.extend_from_slice(&block)?;
        }
        bytes.extend_from_slice(&block)?;
        bytes.truncate(len);
        Ok(bytes)
    }

    fn block(&mut self, alloc: Global, len: usize) -> Result<Vec<u8>, AllocError> {
        let mut block = Vec::with_capacity(alloc, len.saturating_add(3))?;
        for _ in 0..len.div_ceil(4) {
            block.extend_from_slice(&self.word().to_le_bytes())?;
        }
        block.truncate(len);
        Ok(block)
    }
}
