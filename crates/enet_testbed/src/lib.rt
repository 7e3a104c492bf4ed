//! What the benchmark's jobs stand on, all of it in memory: a server with clients and the line between them ([`World`]), a server whose
//! guests are datagrams that the job itself writes ([`House`]), draws that a seed fixes, and a digest of all that comes of a job.
//!
//! Proved: safety alone.
#![tactic(auto)]

mod client;
mod digest;
mod draw;
mod guests;
mod line;
mod world;

pub use client::{Client, address};
pub use digest::Digest;
pub use draw::Draw;
pub use guests::{Guest, House, rest};
pub use line::{Datagram, Line, Network, Way};
pub use world::{Plan, Rule, World};
