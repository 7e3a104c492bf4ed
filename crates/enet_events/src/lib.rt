//! Events from one poster to 1 to 16 takers, through a bounded queue. Each posted event is taken once.
//!
//! Proved: at every moment, whatever the threads do, what was posted is what was taken and then what is held, numbered from
//! 0 without gaps, and each event that was taken is in the list of one taker, unchanged (`Moment`, in the clauses `moment`
//! of `post` and `take`); a refusal changes nothing and hands the event back; E10 comes exactly once 4,294,967,295 events
//! were posted, with E9 and None come a state of the queue, full or empty, that fits all that the token knows; `settle`
//! answers an account exactly where every token is back and all is taken, and then the takers' lists are the posted list
//! shared out (`IsSharedOut`).
//! Only tested, by `check_queues`: that E9 and None aren't answered needlessly, that threads get on (one poster of 4,000 events
//! and four takers, fifty times), and, by hand, want of memory at each of the five growths of `open`.
//! Neither: who takes which event, that anything is taken, and how long a call takes.
#![tactic(auto)]

mod account;
mod numbered;
mod queue;
mod rule;
mod takers;
mod token;

pub use account::Account;
pub use numbered::Numbered;
pub use queue::EventQueue;
pub use token::{Poster, Taker};
