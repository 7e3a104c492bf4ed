//! Who may ask for a connection, and how much a client may send: a wire that passes over datagrams beyond some limits before the host sees
//! them ([`Guarded`]). The limits are how many CONNECTs pass in a second, of an address and in all, how many packets and bytes of packets a
//! client sends in a second ([`Rules`]), and addresses that are banned ([`Guard::ban`], until [`Guard::unban`]). How many peers an address
//! has at once the host limits (`Config::of_address`).
//!
//! Proved: which datagrams ask for a connection, and what a datagram brings to which slot, by the spellings of `enet_codec` ([`asks`],
//! [`carried`]); which CONNECTs pass, by the rules, the time and those that passed before (`Judges`), and that a CONNECT which comes again
//! counts once; which other datagrams pass (`Charges`): all that bring no packet or aren't of the client that is connected in their slot, and
//! of that client as long as it has something left of what two seconds allow ([`Guard::lets_bring`]); that all else passes untouched, and
//! that a guard with no rule and nobody banned lets all pass and notes nothing (`Lets`, `has_no_rule`). A reception takes from the wire
//! inside what it passes over, and then gives just what that gave; it passes over CONNECTs and what brings packets alone, each refused by
//! the guard, and 64 at most (`Receives`). What a guard notes has its room from the start, so that nobody is kept out for want of memory
//! ([`Guard::lets_pass`]). A wait lets the guard's time go on by what it tells, and has it learn who is connected in some slots, and no more
//! (`Waits`). Faults are those of the wire inside. All that a guarded wire tells is what the wire inside told since it is behind the guard,
//! less what was passed over: an invariant, so that nothing has the wire inside take or send a datagram but through the guard
//! (`TellsTheRest`, [`Guarded::wire`]). And a law: while nobody new is told in a slot, fewer packets of the client there pass in T milliseconds
//! than T + 2,000 allow, and those of one datagram; so it is with bytes ([`shares_are_kept`]).
//! Neither: that what the guard learns is what its [`Register`] was told, and when; how much was passed over, and of whom ([`PassedOver`]);
//! that a host keeps a slot for a peer that doesn't answer for 8 seconds at most.
#![tactic(auto)]

mod asking;
mod guard;
mod guarded;
mod law;
mod loads;
mod passed_over;
mod register;
mod share;

pub use asking::asks;
pub use guard::{Asked, Guard, Rules, Seated};
pub use guarded::Guarded;
pub use law::shares_are_kept;
pub use loads::{Load, carried};
pub use passed_over::{Dropped, PassedOver};
pub use register::Register;
pub use share::Spent;
