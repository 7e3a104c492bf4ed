//! What the windows promise of numbers that are counted without wrapping. These functions have no body:
//! their contracts are laws of the definitions that the other functions compute.

ghost use Rattle.std.specs.Prelude.{◌≡◌, ℕ, ◌+◌, ◌%◌, ◌<◌, ◌≤◌, true, Some, None};
ghost use Rattle.enet_seq.specs.Windows.{in_window, acknowledges, ahead, after, fragment_in_window, number_in_window};

/// Which distances ahead of the front are inside the window, and which numbers are acknowledged.
pub fn window_reach()
    ensures near { (front number : ℕ) → front < 65536 → number < 65536
        → ahead front number ≤ 24576 → in_window front number ≡ true }
    ensures far { (front number : ℕ) → front < 65536 → number < 65536
        → in_window front number ≡ true → ahead front number ≤ 28671 }
    ensures inside_acknowledged { (front number : ℕ) → front < 65536 → number < 65536
        → in_window front number ≡ true → acknowledges front number ≡ true }
    // A number that is at most 28,672 behind the front is acknowledged again.
    ensures late_acknowledged { (front number : ℕ) → front < 65536 → number < 65536
        → 36864 ≤ ahead front number → acknowledges front number ≡ true }
{}

/// A distance and a sum undo one another, and a sum of wire numbers is the wire number of the sum.
pub fn distances_and_sums()
    ensures ahead_of_after { (number count : ℕ) → number < 65536 → count < 65536
        → ahead number (after number count) ≡ count }
    ensures after_ahead { (front number : ℕ) → front < 65536 → number < 65536
        → after front (ahead front number) ≡ number }
    ensures true_sum { (number count : ℕ) → after (number % 65536) count ≡ (number + count) % 65536 }
{}

/// A number that goes over the wire modulo 65536 is read as the number that was meant, or as nothing.
pub fn wire_numbers_as_meant()
    // At most 24,576 ahead of the front, it is read as itself.
    ensures ahead { (front number : ℕ) → front ≤ number → number ≤ front + 24576
        → number_in_window front (number % 65536) ≡ Some number }
    // At most 32,768 behind the front, it is read as nothing.
    ensures behind { (front number : ℕ) → number < front → front ≤ number + 32768
        → number_in_window front (number % 65536) ≡ None }
    // The start of a fragmented packet is read as itself where a fragment of it is in the window.
    ensures fragment { (front start own : ℕ) → start ≤ own → own ≤ start + 16383
        → own ≤ front + 24575 → front ≤ own + 32768
        → fragment_in_window (front % 65536) (start % 65536) (own % 65536) ≡ true
        → number_in_window front (start % 65536) ≡ Some start }
{}
