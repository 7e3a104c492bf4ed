//! Which slots of a host of ENet 1.3 sleep, when time brings them something, and which of them holds a connection.
//!
//! A slot sleeps where it is free, or its peer only waits and time brings it something later; a host passes it over where slots are asked
//! for datagrams and events, and at a tick. It is woken (`wake`) before anything comes to it, and by time at the moment at which it is due
//! (`advance`); it falls asleep where it is looked at and has nothing to do (`rest`, `settle`). Behind a datagram that leaves it nothing to
//! do it sleeps on (`hear`). Times are in milliseconds.
//!
//! Each connection has a place by its address, its connect id and a key that is drawn from the host's secret; there its slot is noted when
//! its peer begins (`Seats`). So an offer is compared with a few slots, whoever sent the others. By the same key each IP address has one of
//! 256 rows, in which are the slots that were given to it last. So only the slots of a row are looked at where an address's peers are counted
//! (`count_guests`), or the one of them that gives way is found (`oldest_guest`).
//!
//! Proved: what is noted of the slots stays true of them at each call, whatever the slots are (`KeepsSleepers`): one that sleeps is free,
//! or has nothing to put out or to tell, and is due first at the moment that is noted. Which slot is awake next is exact (`IsNextFrom`), as
//! are the first slot that can be given out (`first_available`), where an offer is to go, or which slot holds its connection (`IsSeat`), and
//! in how many milliseconds time brings a slot anything, as far as that is within a second (`is_due_soon`). Each peer is found by its
//! connection, and by its IP address, whatever the slots and the key are (`KeepsSeats`); so exact are how many of an address's peers began by
//! a CONNECT (`guests_of`), and which of them gives way (`oldest_of`). E1 only at `new`; no other call takes memory.
//! Neither proved nor tested here: that a slot which has nothing falls asleep, and what a call looks at. `wake` takes a step for each
//! doubling of the slots at most; `advance` that for each slot that is due; `settle` looks at those that are awake alone, `due_in` at these,
//! too; `first_available` at those that are awake or sleep and are free, up to the one that it finds. A look at a slot, as by `hear`, goes
//! over all that its peer has unacknowledged on channel 0xFF; at a host with at most 64 slots `hear` and `rest` have four for each of these
//! between two ticks, on average. An
//! offer is compared with the eight slots at most that are noted at its place, and with those that found no cell at theirs: at a host with
//! 4,095 peers there is one in a few hundred hosts, if nobody can foretell places. In a row are all slots of the address and, on average,
//! one in 256 of the others, if nobody can foretell rows.
#![tactic(auto)]

mod due;
mod guests;
mod key;
mod offers;
mod seats;
mod sleepers;
mod unproved;

pub use key::Key;
pub use offers::seat_for;
pub use seats::Seats;
pub use sleepers::Sleepers;
pub use unproved::Unproved;
