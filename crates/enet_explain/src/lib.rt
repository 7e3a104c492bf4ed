//! What the lab tells of itself where it is to explain: what was expected of a line that can't be read, and how a host and its peers stand.
//!
//! Proved: that it is safe and returns for all bytes. Only tested, by scripts/rows (explained.lab, expected.txt): what it tells.
#![tactic(auto)]

mod expecting;
mod forms;
mod kinds;
mod standing;

pub use expecting::expected;
pub use forms::Made;
pub use standing::{HostReading, PeerReading, gone_line, host_line, peer_line};
