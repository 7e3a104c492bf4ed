//! Which numbers of a block are held.

ghost use Rattle.std.specs.Prelude.{◌≡◌, ℕ, ◌<◌, ◌==◌, ◌&&◌, ◌||◌, not, false, IsTrue, IfOk, replicate, slice_index_or};

use enet_codec::Refusal;
use enet_fragment::Marks;
use enet_packets::look_at;
use std::alloc::Global;
use std::marker::Model;

/// How many numbers a block has.
pub(crate) const NUMBERS: u16 = 4_096;

/// Marks of a block's 4,096 numbers, in 128 words. Contracts see them as a list.
#[derive(Drop)]
pub(crate) struct Block {
    marks: Marks,
    /// How many numbers aren't marked.
    missing: u16,
}

impl Model for Block {
    ghost use Rattle.std.specs.Prelude.{Bool, List};
    ghost use Rattle.enet_receiver.specs.Blocks.{KeepsBlock};

    ghost Value = { List Bool };

    ghost view = { λ b. b.marks };

    ghost invariant = { λ b. KeepsBlock b.marks b.missing };
}

impl Block {
    /// A block of which no number is marked. Answers `Refusal::Memory` where it can't have its words.
    pub(crate) fn new(alloc: Global) -> Result<Block, Refusal>
        ensures { IfOk result (λ block. block ≡ replicate 4096 false) }
    {
        let marks = Marks::new(alloc, u32::from(NUMBERS))?;
        Ok(Block {
            marks,
            missing: NUMBERS,
        })
    }

    /// Whether a number is marked.
    pub(crate) fn has(&self, i: u16) -> bool
        ensures { result ≡ slice_index_or self.now i false }
    {
        self.marks.has(u32::from(i))
    }

    /// Marks a number.
    pub(crate) fn mark(&mut self, i: u16)
        requires { i < 4096 }
        ensures { (k : ℕ) → slice_index_or self.new k false ≡ (k == i || slice_index_or self.old k false) }
    {
        if !self.marks.has(u32::from(i)) {
            self.marks.mark(u32::from(i));
            self.missing -= 1;
        }
    }

    /// Takes the mark of a number back.
    pub(crate) fn unmark(&mut self, i: u16)
        ensures { (k : ℕ) → slice_index_or self.new k false ≡ (not (k == i) && slice_index_or self.old k false) }
    {
        if self.marks.has(u32::from(i)) {
            self.marks.unmark(u32::from(i));
            self.missing += 1;
        }
    }

    /// Whether no number is marked, by the count of the missing ones.
    pub(crate) fn is_clear(&self) -> bool
        ensures { IsTrue result → (k : ℕ) → slice_index_or self.now k false ≡ false }
    {
        look_at(&self.marks);
        self.missing == NUMBERS
    }
}
