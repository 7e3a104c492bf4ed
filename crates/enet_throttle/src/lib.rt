//! The packet throttle, the size of a peer's window, and how a host shares its bandwidth.
//!
//! The throttle, 0 to 32, says how many unreliable and unsequenced packets go out, of 32 in a row one more than it says and
//! all from 31 on; the rest is dropped. Its limit also bounds how many bytes of reliable packets are in transit. Times are in
//! milliseconds, sizes in bytes, bandwidths in bytes per second.
//!
//! Proved: each move of the throttle, which packets it admits, the limit, the bytes in transit, windows and shares of
//! bandwidth, each exactly the formula (`Throttle::sample`, `admits`, `configure`, `set_limit`, `transit_limit`,
//! `window_of`, `budget_of`, `limit_of`); the throttle is never above its limit, nor the limit above 32 (`value`); of 32
//! packets in a row `min(throttle + 1, 32)` go out (`throttle_shares_out`).
//! Only tested, in `check_numbers`: worked values by hand.
#![tactic(auto)]

mod bandwidth;
mod throttle;

pub use bandwidth::{budget_of, limit_of, window_of};
pub use throttle::{Lows, Throttle, throttle_shares_out};
