//! The rule: a client guesses a number, and is told where it is.
ghost use Rattle.std.specs.Prelude.{◌≡◌, ◌+◌, ◌%◌, ◌<◌, ◌≤◌, IfOk};
ghost use Rattle.std.specs.String.{string_bytes};
ghost use Rattle.example_game.specs.Guessing.{IsAnswer};

use std::alloc::{AllocError, Global};
use std::cmp::Ordering;

/// The greatest number that is to be guessed; the least is 1.
const GREATEST: u32 = 1_000;

/// The number that is to be guessed, of a drawn word.
pub fn secret_of(word: u32) -> u32
    ensures drawn { result ≡ word % 1000 + 1 }
    ensures range { (1 ≤ result) × (result ≤ 1000) }
{
    word % GREATEST + 1
}

/// The answer to a guess, where so many guesses were made with it.
pub fn answer(alloc: Global, secret: u32, guess: u32, guesses: u32) -> Result<String, AllocError>
    ensures { IfOk result (λ text. IsAnswer secret guess guesses (string_bytes text)) }
{
    match secret.cmp(&guess) {
        Ordering::Less => String::from_str(alloc, "lower"),
        Ordering::Greater => String::from_str(alloc, "higher"),
        Ordering::Equal => format!(in alloc; "right after {guesses}"),
    }
}
