//! Captures in pcapng, the format that Wireshark and tshark write, rewritten as captures in the classic pcap format.
//!
//! Proved: `is_pcapng` tells such a capture, and `rewrite` gives the classic one with its packets, in order, as `specs/Blocks` and
//! `specs/Rewritten` say: times to the billionth of a second, a packet that can't be read as one of no bytes, and an input that is cut short
//! as one that is cut short behind the same packets. Both are safe and return for all bytes, and `rewrite` looks at each block once.
//! Only tested, by scripts/check/check-inspect.sh: that what tshark writes is told as what tcpdump writes of the same datagrams.
#![tactic(auto)]

mod block;
mod interface;
mod number;
mod packet;
mod rewriting;

pub use rewriting::{is_pcapng, rewrite};
