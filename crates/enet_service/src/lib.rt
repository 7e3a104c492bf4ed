//! The service: one thread owns a host and takes its turns; game threads reach it through two queues alone.
//!
//! # What it is for
//!
//! - A service beside a game thread: [`Queues::open`], [`BoundService::open`] and [`beside_turns`], which runs the service beside a function
//!   of the user's; then [`settle`]. [`BoundService::set_send_limit`] bounds what waits for each peer, before the first run.
//! - One thread that does all: by [`run`], or by the parts of a turn, between which it makes the orders (`enet_turn`, of which all is handed
//!   on here).
//!
//! # Proved
//!
//! What a turn is, and a run of them: `enet_turn`. Between the two queues:
//! - New ones have the places that were asked for, and a seat that may submit 4,294,967,295 orders ([`Queues::open`]).
//! - The orders of a run are each seat's next ones, once and in its order, and what was taken begins a history of the queue
//!   ([`run_between_queues`]).
//! - What [`beside_turns`] did (`HasTurned`) is turns of the service, in none of which the wire failed: what they were given is what the drain
//!   took and the wire told, each after a wait, and what they put is what the poster posted, and the report has their sums. They are as many
//!   as were asked for; where a time was, 64 at a time, and no more once 2,147,483,648 orders were taken or events told (`Lasts`). E14 comes
//!   exactly where the wire failed. Then they are the turns until that, no more than these, what they were given and what they put included
//!   (`IsCut`).
//! - Once settled, the only taker took all that was posted, and the orders that the drain didn't take are told in order ([`settle`]).
//!
//! A host that notes who came and went ([`WatchedHost`]) is the host that it holds, in each of its calls, and
//! [`WatchedHost::disconnect_all`] asks each peer that this has to go (`all_names`), slot by slot.
//!
//! # Only tested, or neither
//!
//! - By `check_service`: that a game thread submits and takes while the service is inside its wire; a connection's opening through a socket of
//!   127.0.0.1.
//! - By scripts/check/check-rows.sh and scripts/check/check-clients.sh: that the queues settle (no E16), what is noted and shown to a
//!   [`Watch`], and that turns for a time end once the other thread has left. By scripts/check/check-metrics.sh: how many sends it counts
//!   ([`WatchedHost::sends`]).
//! - Neither: that a wait or a call of a queue returns, that two threads ran; that a run for a time lasts that time; when [`settle`] answers
//!   E16.
#![tactic(auto)]

mod between;
mod bound_service;
mod queues;
mod run_length;
mod sends;
mod settling;
mod turning;
mod watch;
mod watched;

pub use between::run_between_queues;
pub use bound_service::BoundService;
pub use enet_bridge::{
    EventReceiver, MemorySink, MemorySource, OrderSender, Pumped, QueueSink, QueueSource, Sink,
    Source, TakerBell,
};
pub use enet_host::HostCore;
pub use enet_outbox::SendLimit;
pub use enet_turn::{Core, Fault, Report, Service, Waiting, run};
pub use enet_wire::{
    Bell, MOST_LOST_PER_TURN, MOST_PER_TURN, MemoryWire, MioWire, SendOutcome, Step, Told,
    Unopened, Wire, system_secret, system_word,
};
pub use queues::{Ends, Queues};
pub use run_length::{RunLength, TURNS_AT_ONCE, is_over, turns_from};
pub use settling::{Returned, settle};
pub use turning::{Shared, Signals, beside_turns};
pub use watch::{Unwatched, Watch};
pub use watched::{Met, Note, WatchedHost};
