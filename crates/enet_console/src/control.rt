//! What the operator says on standard input while the server serves: a line each.

ghost use Rattle.std.specs.Prelude.{◌≡◌, ℕ, List, [], ◌∷◌, ◌++◌, IfOk};
ghost use Rattle.enet_console.specs.Inputs.{Begins, meant, Reads, rest};

use crate::input::Input;
use crate::word::{Word, word_of};
use std::alloc::{AllocError, Global};

/// A longer line isn't understood.
const LONGEST: usize = 1_024;

/// What the operator says, line by line.
#[derive(Drop)]
pub struct Control {
    input: Input,
    line: [u8; LONGEST],
    len: usize,
    // The line is too long.
    is_cut: bool,
}

impl Control {
    /// Of which nothing was read yet.
    pub fn new() -> Control
        ensures input { rest result.input ≡ [] }
        ensures line { Begins result [] }
    {
        Control {
            input: Input::new(),
            line: [0; LONGEST],
            len: 0,
            is_cut: false,
        }
    }

    /// What the next line says that is there; None where none is there yet, or where 4,096 bytes more of one were read. An error where there
    /// is no memory for a text.
    pub fn next(&mut self, alloc: Global) -> Option<Result<Word, AllocError>>
        ensures { Reads self.old self.new result }
    {
        'bytes: for _count in 0..4 * LONGEST {
            match self.input.next()? {
                b'\n' => return Some(self.end_line(alloc)),
                byte => self.add(byte),
            }
        }
        None
    }

    // A byte more of the line.
    fn add(&mut self, byte: u8)
        ensures input { self.new.input ≡ self.old.input }
        ensures line { (begun : List ℕ) → Begins self.old begun → Begins self.new (begun ++ (byte ∷ [])) }
    {
        if self.len >= LONGEST {
            self.is_cut = true;
            return;
        }
        self.line[self.len] = byte;
        self.len += 1;
    }

    // What the line says, and another one begins.
    fn end_line(&mut self, alloc: Global) -> Result<Word, AllocError>
        ensures input { self.new.input ≡ self.old.input }
        ensures word { (begun : List ℕ) → Begins self.old begun → IfOk result (λ word. word ≡ meant begun) }
        ensures line { Begins self.new [] }
    {
        let word = if self.is_cut {
            Ok(None)
        } else {
            word_of(alloc, self.line.get(..self.len).unwrap_or(&[]))
        };
        self.len = 0;
        self.is_cut = false;
        Ok(word?.unwrap_or(Word::Unknown))
    }
}
