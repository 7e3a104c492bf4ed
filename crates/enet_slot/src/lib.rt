//! One slot of a host of ENet 1.3, which is free or holds one peer at an address, and what goes over all slots of a host.
//!
//! Proved, each call exactly by small definitions over a slot (`SlotState`): what a user's call does is that call of its peer
//! (`on_peer`), with E2 where the slot is free; `receive` and `emit` are its peer's (`PeerReceives`, `PeerEmits`, `Passes`), and so is `take`
//! (`GivesEvent`). After each of them a slot whose peer is free gives it up: it keeps the sessions of the connection that it had,
//! and has the next generation (`vacated`). `ask` and `answer` give it to a peer (`asking`, `answering`), which begins with what the
//! host's secret draws for it (`drawn`). The tests of `refused_by`, in their order, say which datagrams it takes in, and `is_available`
//! says whether it can be given out. A slot of which `only_waits` answers true has nothing that goes and nothing to tell (`Waits`). `tick`
//! is its peer's (`changed`), which is told whether its address sent too little for another answer, and `due_in` says in how
//! many milliseconds that brings something. `held` is what its peer holds of what the other end sent (`held_in`), within `most_in`. Want of
//! memory changes nothing.
//! Over all slots of a host: `unused_slots` and `joined_slots` make them, `position_of_connection` looks for a connection,
//! `set_bandwidth` (`changed`) and `share_out` (`shared`) are one change on each, and `count_slots` says how many are free and how far the
//! others have come (`Counts`). `count_guests` counts the peers of an IP address that began by a CONNECT (`guests_of`), and `oldest_guest` is
//! the one of them that gives way to another (`oldest_of`). Where an offer is to go is said (`IsSeat`), and found by `enet_sleepers`.
//! Only tested, with the host's calls by `check_hosts`: that calls succeed with ample memory.
#![tactic(auto)]

mod all;
mod calls;
mod counting;
mod drawing;
mod emitting;
mod entering;
mod events;
mod giving;
mod guests;
mod holding;
mod receiving;
mod sharing;
mod slot;
mod yielding;

pub use all::{Seat, joined_slots, position_of_connection, set_bandwidth, share_out, unused_slots};
pub use calls::{Setting, submission_refusal};
pub use counting::{SlotCounts, Standing, count_sent_again, count_slots};
pub use entering::count_entered;
pub use giving::{Question, Start};
pub use guests::{count_guests, oldest_guest};
pub use slot::Slot;
