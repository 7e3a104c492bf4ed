//! The turns of a service: what it does, again and again, with its host, a wire, a source of orders and a sink of events.
//!
//! # What it is for
//!
//! - [`Service::turn`] is one turn, and [`run`] one after another. `enet_service` has the queues and the thread for them.
//! - One thread that does all: [`run`], a turn at a time, or [`Service::receive`], [`Service::apply_orders`] and [`Service::emit`], between
//!   which it makes the orders.
//!
//! # Proved
//!
//! Of every host that says what its calls do ([`Core`]), as `HostCore` says it by its own definitions:
//! - A turn ([`Service::turn`]) is the stated calls in the stated order, on what the source gave and the wire told, and what was sent and put
//!   is what these calls answered. A refused order becomes one event. Orders are taken whether or not an event of the host waits for room; while
//!   a refusal does, none is taken, so that there is a place for each refusal.
//! - E14 comes exactly where the wire failed. Then the host is where the first part of the work left it, and the report counts that part.
//! - A datagram that is lost at its sending doesn't keep the next one: a turn's sending ends where the host has none, at 256, where a send
//!   would block, or after 16 losses.
//! - A turn ends where the calls of source and sink return, since each event that a host tells leaves fewer.
//! - The parts of a turn between which orders are made are those of its phases that they name, up to where the wire fails in one.
//! - A run ([`run`]) is its turns, each after a wait, up to the first fault, and its report their sums.
//! - What a wire keeps (`kept` of `enet_wire`), as a guard keeps its bans, no turn and no run changes.
//!
//! # Only tested, or neither
//!
//! - By `check_service`: turns and runs of a real host over memory, with each call of the wire failing and each send blocking in its turn.
//! - Neither: that a call of a wire, a source or a sink returns, when the source is told to expect orders, what a network gives, and when.
//! - That turns go by what their wire gave is said of each wire that tells its calls. Of a socket two functions are trusted with that
//!   (`enet_wire`).
#![tactic(auto)]

mod emitting;
mod host;
mod hosting;
mod lone;
mod orders;
mod receiving;
mod report;
mod running;
mod service;
mod telling;
mod waiting;

pub use host::Core;
pub use report::{Fault, Report};
pub use running::run;
pub use service::Service;
pub use waiting::Waiting;
