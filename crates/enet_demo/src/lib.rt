//! The demonstration of a server: it and its clients in one process, each client with a service's thread and a game's thread.
//!
//! # What it is for
//!
//! - [`demonstrate`] runs a server of `enet_serve`, unless one is named, and one to eight clients, and tells what came of each.
//!
//! # Proved
//!
//! - Of each client (`Visits`): its service took so many turns, in none of which the wire failed. The turns were given the first part of what
//!   the client asks for: its connection and, over the first that it is told of, three packets of chat. What is told of the client is whether
//!   the turns told its connection, and how many packets they told; so its game thread missed no event and counted none twice.
//! - A number of clients that is out of its range is refused, with a refusal that comes for nothing else.
//!
//! # Only tested, or neither
//!
//! - By scripts/check/check-rows.sh: that what the clients' sockets sent and received is noted ([`Record`]).
//! - By scripts/check/check-rows.sh and scripts/check/check-clients.sh: that each client gets all packets of the others, also of a relay
//!   that was there before, that a port that is taken is a refusal, and that the threads end.
//! - Neither: whose refusal is told of several; when a client sees that the others are there; that a client hands over what it asks for (one
//!   that never does keeps `Visits`, with all of it left).
#![tactic(auto)]

mod client;
mod demonstration;
mod orders;
mod patience;
mod player;
mod record;
mod stage;

pub use demonstration::{Demonstration, demonstrate};
pub use player::Visit;
pub use record::{Heard, Notes, Record};
