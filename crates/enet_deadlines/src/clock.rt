//! Moments on a clock that does not wrap, over one that counts modulo 2^32.

ghost use Rattle.std.specs.Prelude.{◌≡◌, ◌+◌, ◌%◌, ◌^◌, ◌<◌, ◌≤◌};
ghost use Rattle.enet_deadlines.specs.Clock.{NotesMoments, TellsMoments};

use enet_rtt::elapsed;

/// The first moment from `since` on that the clock of 32 bits shows as `now`.
pub fn moment_at(since: u64, now: u32) -> u64
    requires { since < 2 ^ 63 }
    ensures shown { result % 2 ^ 32 ≡ now }
    ensures later { since ≤ result }
    ensures near { result < since + 2 ^ 32 }
{
    let shown = (since % 4_294_967_296) as u32;
    since + u64::from(elapsed(now, shown))
}

/// A law of the definitions: what is known to happen first after so many milliseconds happens first at a moment, and up to that moment
/// it is known from it in how many milliseconds it happens first.
pub fn moments_are_right()
    ensures noted { NotesMoments }
    ensures told { TellsMoments }
{}
