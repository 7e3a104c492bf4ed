//! The relay: who is there, to whom a chat packet goes, and the thread that takes events and asks for their orders.
//!
//! # What it is for
//!
//! - [`Relay`] is a thread of its own between a service's two queues. [`LoneRelay`] shares the service's thread: what a turn told is expanded
//!   between two of its phases.
//! - [`Table`] is who is connected, by the events; a [`Gauge`] shows others how far a relay has come.
//! - [`end_of_slow`] ends a client that can't be sent all that is reliable, [`end_of_loud`] one that sends more than its share. The server gives
//!   these as orders of its own, beside the relay's.
//!
//! # Proved
//!
//! - The table after an event, and the orders of an event, exactly. A table has no peer twice, so a chat packet goes once to each other peer
//!   of the table and never back to its sender.
//! - Of the thread that relays (`Relays`): the events that it took are, in order, those that it expanded and those that wait. What was asked
//!   for is, for every receiver and in order, what the expanded ones give for it, so that nothing is lost or doubled; after every refusal,
//!   too.
//! - What had been asked for is submitted before anything else is asked for, and however it ends no order waits (`HasSubmitted`), unless the
//!   queue was found full, in the sense of `enet_bridge`, or the seat submitted as many orders as it may. It tells of a spent seat only then.
//! - It ends well only with no event to take, and with all expanded and submitted, or with orders that wait and the queue found full
//!   (`IsThrough`).
//! - Of the relay in its service's own thread (`Expands`): what it expands are the oldest events, and the orders behind those that waited are
//!   for every receiver and in order what these give. Just these events and orders it counts, up to what 64 bits hold; after a refusal, too.
//!   It ends well only with all expanded or with 256 orders that wait.
//! - How a client that is too slow, or too loud, is ended (`slow_end`, `loud_end`).
//! - The list of its events takes one of the host only if fewer than 256 events and fewer than 1,048,576 bytes of packets wait (`IsPut`).
//!
//! # Only tested, or neither
//!
//! - By `check_queues`: that the calls succeed where there is memory, and that orders of packets that follow one another are grouped by
//!   receiver, in the relay in its service's thread; that a list of events takes what there is room for, and refusals of orders always. By
//!   scripts/check/check-clients.sh, through `enet_relay serve`: that the thread gets on.
//! - Neither: that the bodies of the orders share their bytes, so that no copy is made; that events are kept while the service has orders
//!   left; that the thread goes on until it is told that the service has ended (one that ends where it first finds no event meets the same
//!   contract); which seat and numbers an [`OrderList`] gives its orders; that an [`EventList`] takes an event of the host if it has room,
//!   and none before those are expanded with which it was made; that one [`LoneRelay::expand`] stops at 256 orders (one that takes all
//!   events meets the same contract); what a relay with a thread of its own counts (one that counts nothing meets the same contract); that
//!   a [`Gauge`] shows what its relay counts and a relay counts on from what it shows; that a call with Wait returns.
#![tactic(auto)]

mod batch;
mod gauge;
mod laws;
mod lists;
mod lone;
mod relay;
mod relaying;
mod slow;
mod table;

pub use gauge::Gauge;
pub use laws::each_other_peer_once;
pub use lists::{EventList, OrderList};
pub use lone::LoneRelay;
pub use relay::relay_step;
pub use relaying::{Relay, RelayParts};
pub use slow::{TOO_LOUD, TOO_SLOW, end_of_loud, end_of_slow};
pub use table::Table;
