//! Marks, one for each number below a count, in words of 32 bits.

ghost use Rattle.std.specs.Prelude.{◌≡◌, ℕ, ◌+◌, ◌*◌, ◌<◌, ◌↔◌, ◌==◌, Bool, true, false, IfOk, IfErr, IfSome, IsSome, length, replicate, slice_set, slice_index_or};
ghost use Rattle.std.specs.Int.{bit_at};
ghost use Rattle.enet_fragment.specs.Memory.{words_of};

use crate::filled::filled;
use enet_codec::Refusal;
use std::alloc::Global;
use std::marker::Model;

/// Marks, one for each number below a count. Contracts see them as a list.
#[derive(Drop)]
pub struct Marks {
    words: Vec<u32>,
    count: u32,
}

impl Model for Marks {
    ghost use Rattle.std.specs.Prelude.{Bool, List};
    ghost use Rattle.enet_fragment.specs.Marks.{marks_in, AreMarks};

    ghost Value = { List Bool };

    ghost view = { λ m. marks_in m.count m.words.items };

    ghost invariant = { λ m. AreMarks m.count m.words.items };
}

impl Marks {
    /// So many marks, none of them set, in exactly the words that they need. Answers `Refusal::Memory` where it can't have them.
    pub fn new(alloc: Global, count: u32) -> Result<Marks, Refusal>
        ensures ok { IfOk result (λ marks. marks ≡ replicate count false) }
        ensures memory { IfErr result (λ why. why ≡ Refusal.Memory) }
    {
        let words = filled(alloc, 0, (count as usize + 31) / 32)?;
        Ok(Marks { words, count })
    }

    /// How many marks there are.
    pub fn len(&self) -> u32
        ensures { result ≡ length self.now }
    {
        self.count
    }

    /// Whether a mark is set; none is past the last one.
    pub fn has(&self, i: u32) -> bool
        ensures { result ≡ slice_index_or self.now i false }
    {
        i < self.count && (self.words[(i / 32) as usize] >> (i % 32)) & 1 == 1
    }

    /// How many bytes its words take.
    pub(crate) fn memory(&self) -> usize
        ensures { result ≡ 4 * words_of (length self.now) }
    {
        4 * self.words.len()
    }

    /// Sets a mark.
    pub fn mark(&mut self, i: u32)
        requires { i < length self.old }
        ensures { self.new ≡ slice_set self.old i true }
    {
        self.words[(i / 32) as usize] |= 1 << (i % 32);
    }

    /// Takes a mark back.
    pub fn unmark(&mut self, i: u32)
        requires { i < length self.old }
        ensures { self.new ≡ slice_set self.old i false }
    {
        self.words[(i / 32) as usize] &= !(1 << (i % 32));
    }

    /// Word j: bit i of it is mark `32 * j + i`, and 0 past the last mark. None past the last word.
    pub fn word(&self, j: u32) -> Option<u32>
        ensures bits { IfSome result (λ w. (i : ℕ) → i < 32 → (bit_at w i == 1) ≡ slice_index_or self.now (32 * j + i) false) }
        ensures there { IsSome result ↔ (32 * j < length self.now) }
    {
        let place = j as usize;
        if place < self.words.len() {
            Some(self.words[place])
        } else {
            None
        }
    }
}
