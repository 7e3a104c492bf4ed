//! Round trips: how long a peer takes to answer, when a command is sent again, and when a peer has timed out.
//!
//! All times are in milliseconds, on a clock of 32 bits that begins again at 0 after 4,294,967,295.
//!
//! Proved: the estimate of a peer's round trip, its timeout, resending, where a timeout backs off in silence only, and the end by
//! timeout, each exactly the formula of docs/PROTOCOL.md on whole numbers, with the stops at 4,294,967,295 and 255 (`Timing::sample`,
//! `Timing::timeout_of`, `expired`, `Transmission`, `earlier`, `elapsed`, `round_trip_sample`); the clock that wraps tells elapsed time
//! and order rightly (`clock_is_right`), and the estimate stays within what bounds it and its samples (`estimate_stays_within`).
//! Only tested, in `check_numbers`: that worked samples, a worked run of resends and worked ends give the numbers that they
//! should. Not claimed: that the estimate is near the network's real delay.
#![tactic(auto)]

mod clock;
mod expiry;
mod send_times;
mod timing;
mod transmission;

pub use clock::{clock_is_right, earlier, elapsed, meant_time, round_trip_sample, told_time};
pub use expiry::{Expiry, Patience, expired};
pub use send_times::SendTimes;
pub use timing::{Timing, estimate_stays_within};
pub use transmission::{Tick, Transmission};
