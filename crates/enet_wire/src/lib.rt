//! The network as a service sees it: the trait [`Wire`], a wire in memory, and a UDP socket with a bell that ends its wait; and secrets and
//! connect ids that the system draws.
//!
//! Proved: each wire counts its faults exactly, E14 comes exactly where the count rises, a spent wire does nothing, no call changes what a
//! wire keeps (`kept`), and each wire tells its calls, truly: one in memory in a list, a socket in a [`Journal`], which clauses alone read.
//! No wire gives a datagram from port 0, since nothing can be sent to that port. A socket's journal tells what its wire gave, so of a
//! datagram from there it says nothing. A socket is opened at the address that was asked for. Trusted of the socket are three functions of
//! src/journaled.rt: `bind` asks the system for the address that it notes, and `receive` and `send` alone ask it for datagrams, and note
//! what it answered, with the address that it gave or was given. The wire in memory does what its script says: a call fails where the script
//! has a fault, and else only with the word that memory was wanting ([`MemoryWire::starved`]).
//! Only tested, by `check_queues`: that datagrams pass through the socket, and at the address that was asked for, that its milliseconds add
//! up, and that an address that is taken is E14, with what the system says; by `check_service`, that a wire in memory isn't starved where
//! there is memory; by scripts/check/check-clients.sh: a reception that fails once.
//! Neither: that a bell wakes a thread, whether the service is idle or expects orders, how long a wait takes, when a datagram comes, how
//! many datagrams the system keeps, which of its errors with a number of their own are faults (of the others their kinds decide, `unsent_by`
//! and `is_repeatable`), that `reason` is that of the last fault, and that nobody else knows what [`system_secret`] and [`system_word`] got
//! of the system.
#![tactic(auto)]

mod bell;
mod drawn;
mod journal;
mod journaled;
mod memory;
mod socket;
mod told;
mod wire;

pub use bell::Bell;
pub use drawn::{system_secret, system_word};
pub use journal::{Journal, Note};
pub use memory::MemoryWire;
pub use socket::{MioWire, Unopened};
pub use told::{Step, Told};
pub use wire::{MOST_LOST_PER_TURN, MOST_PER_TURN, SendOutcome, Wire};
