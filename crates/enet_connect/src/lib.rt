//! Connecting: what a client offers, what a server grants, the terms on which both ends then stand, and sessions.
//!
//! A client sends CONNECT with an `Offer`; the server answers VERIFY_CONNECT with a `Verify`. Sizes are in bytes, bandwidths
//! in bytes per second, times in milliseconds.
//!
//! Proved: the terms that a server grants, the VERIFY_CONNECT that it writes, the terms on which the client then stands, and
//! when an offer or an answer is refused, each exactly (`answer`, `verification`, `confirm`, `asked_terms`); a new session
//! is never the one that the slot had (`next_session`); mtu and window of all agreed terms are in range; a client accepts
//! the answer to its own offer, after which both ends have the same channels, mtu, throttle numbers and connect id, and what
//! one sends with, the other takes in (`both_ends_agree`).
//! Only tested, in `check_numbers`: that the worked handshakes' bytes stand for these values.
#![tactic(auto)]

mod client;
mod server;
mod session;
mod terms;

pub use client::{asked_terms, confirm};
pub use enet_codec::{Offer, Verify};
pub use server::{Server, answer, both_ends_agree, verification};
pub use session::next_session;
pub use terms::Terms;
