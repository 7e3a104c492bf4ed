//! Reliable sequence numbers of ENet 1.3: 16-bit numbers that wrap, and the windows in which they are read.
//!
//! Proved: each of the five functions gives what its definition says (`in_window`, `acknowledges`, `ahead`, `after`,
//! `fragment_in_window`); which distances are inside the window and which numbers are acknowledged (`window_reach`); that
//! distances and sums undo one another (`distances_and_sums`); and that a number that goes over the wire modulo 65536 is
//! read as the number that was meant where that is at most 24,576 ahead of the front, and as nothing where it is 1 to 32,768
//! behind (`wire_numbers_as_meant`), and so, a little closer, a fragment's start. No call takes memory.
//! Only tested, in `check_numbers`: that the definitions agree with values worked out by hand.
#![tactic(auto)]

ghost use Rattle.std.specs.Prelude.{◌≡◌};
ghost use Rattle.enet_seq.specs.Windows.{window_of, in_window, acknowledges, ahead, after, fragment_in_window};

mod laws;

pub use laws::{distances_and_sums, window_reach, wire_numbers_as_meant};

/// How many numbers a window has.
const WINDOW_SIZE: u16 = 4096;

/// How many windows the 65,536 numbers are.
const WINDOW_COUNT: u16 = 16;

/// How many windows a receiver looks at: the front's and the next six.
const OPEN_WINDOWS: u16 = 7;

/// The window in which `number` stands, a turn of all windows higher where `number` is below `front`.
/// So it is never below the window of `front`.
fn window_of(front: u16, number: u16) -> u16
    ensures { result ≡ window_of front number }
{
    let window = number / WINDOW_SIZE;
    if number < front {
        window + WINDOW_COUNT
    } else {
        window
    }
}

/// Whether a receiver looks at a command of reliable number `number`, where `front` is the last reliable
/// number that it has dispatched on the channel: the window of `number`, counted a turn of 16 higher where
/// `number` is below `front`, is that of `front` or one of the next six (ENet 1.3).
///
/// So each number up to 24,576 ahead is inside, and none that is over 28,671 ahead (`window_reach`).
pub fn in_window(front: u16, number: u16) -> bool
    ensures { result ≡ in_window front number }
{
    window_of(front, number) < front / WINDOW_SIZE + OPEN_WINDOWS
}

/// Whether a receiver acknowledges a command of reliable number `number`, where `front` is the last
/// reliable number that it had dispatched before: all are, also late and repeated ones, save those whose
/// window is the seventh or the eighth past that of `front`, windows being counted as in `in_window` (ENet 1.3).
/// Of a fragment its own number is meant.
pub fn acknowledges(front: u16, number: u16) -> bool
    ensures { result ≡ acknowledges front number }
{
    let past = window_of(front, number) - front / WINDOW_SIZE;
    past != OPEN_WINDOWS && past != OPEN_WINDOWS + 1
}

/// The distance from `front` up to `number`, modulo 65536: 0 where they are equal.
pub fn ahead(front: u16, number: u16) -> u16
    ensures { result ≡ ahead front number }
{
    number.wrapping_sub(front)
}

/// The number `count` past `number`, modulo 65536.
pub fn after(number: u16, count: u16) -> u16
    ensures { result ≡ after number count }
{
    number.wrapping_add(count)
}

/// Whether a receiver looks at a fragment of a reliable packet: the number `start` of the packet's first
/// piece and the fragment's `own` number are both in the window (`in_window`). That the own number is
/// tested too is our profile: ENet 1.3 tests the start alone, which may be up to 16,383 below.
pub fn fragment_in_window(front: u16, start: u16, own: u16) -> bool
    ensures { result ≡ fragment_in_window front start own }
{
    in_window(front, start) && in_window(front, own)
}
