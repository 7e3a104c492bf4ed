//! Orders from several threads to the one thread that runs the host.
//!
//! A [`SubmitQueue`] is bounded and has 1 to 16 seats. Each thread that orders holds a [`Seat`], the thread that takes holds
//! the [`Drain`]. No lock is held between calls, and no call waits for a free place: it says that there is none. Packets for several peers
//! ([`Broadcast`]) take one place, and are taken as the orders to submit them, one by one.
//!
//! Proved, in any schedule of the threads: what was taken, followed by what the queue holds, is a history in which each
//! seat's orders are just those that it was told Ok, in its order, numbered from 0 without gaps, and no other seat's are
//! there (`IsHistory`, by `submit`'s `pushed`, `take`'s `began` and the law `taken_of_a_seat_comes_first`); Ok adds the
//! order once, and of packets for several peers each order once, in order (`next`); E10 exactly where a seat has used up its count
//! (`spent`); with E9 and None come a state of the queue, full or empty, that fits all that the token knows (`else_full`, `empty`); what is
//! refused comes back equal (`back`); an account exactly where each seat is back and all was taken, and then what was taken of each seat is all that
//! it submitted (`settled`, `all_taken`, `account`).
//! Only tested, by `check_queues`: that E9 and None aren't answered needlessly, that an opening finds memory, and that threads
//! get on: four seats of 1,000 orders, and a seat that ends early, 50 times each.
//! Neither: that a call with Wait returns, order between seats.
#![tactic(auto)]

mod broadcast;
mod laws;
mod opening;
mod order;
mod queue;
pub mod rule;
mod settling;
mod token;

pub use broadcast::Broadcast;
pub use laws::taken_of_a_seat_comes_first;
pub use order::{Account, Order, Submission, Ticket};
pub use queue::SubmitQueue;
pub use token::{Drain, Finished, Seat};
