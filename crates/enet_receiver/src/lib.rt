//! One channel's receiver in ENet 1.3: it dispatches reliable packets in the order of their numbers, each once and whole,
//! and unreliable ones in their places between them.
//!
//! Proved, each exactly by the definitions of specs/Receiver and specs/DataOutcome: `Incoming`'s four receptions (`reliable`,
//! `unreliable`, `fragment`, `unreliable_fragment`: the first outcome that applies, `took`, and the receiver after it,
//! `held`; every other outcome changes nothing, `unchanged`; Memory comes only where the command would be held, `memory`),
//! `foresee`, `foresee_data` (outcome, whether the window lets it be acknowledged, how many packets it dispatches), `take_in` (what
//! was foreseen to be held is, and is not looked at again), `take_in_at_once` (the same, where it hands the one packet out that `take_in`
//! would dispatch), `take_at_once` (the same of a command of which nothing was foreseen), `take_in_instead` and `dispatches_instead` (the
//! same where the unreliable packets that wait are given up for it),
//! `give_way`, `held`, `waiting`, `pop`, `clear`, `open`; and `ArrivingData::of` (which sequenced data command a command is). Laws: as
//! many turns as packets are held are enough to dispatch all that is due (`turns_suffice`), and what was dispatched before makes
//! no difference (`earlier_dispatches_do_not_matter`); what comes in sequence never has the flags 2 of an unsequenced packet
//! (`sequenced_has_other_flags`); a command takes a place and room for its packet at most (`a_command_takes_a_place_at_most`).
//! Inside, by the invariants of `Held` and `Block`: a number is marked exactly where a packet is held under it.
//! Only tested, in `check_numbers` and `check_peer`: that calls succeed with ample memory, and the worked scripts of one
//! channel; in check-memory.sh, that the room to dispatch packets goes back once it is for far more than are held or wait.
//! Neither: that a block's marks go with the last number that is held of it, what look-ups the marks save, and when
//! `take_in_at_once` and `take_at_once` give a packet. They do so, with ample memory, exactly where one comes alone: the next one in
//! order or an unreliable one of the front, whole, while nothing was dispatched and not popped, none is held whole under the next number,
//! and nothing waits for the front, or for the number that it becomes. But no clause says that they ever give one: a body that never
//! does would pass. So would one that gives a packet elsewhere too, as where what waits for the front isn't whole.
#![tactic(auto)]

mod arriving_data;
mod block;
mod foreseeing;
mod held;
mod incoming;
mod laws;
mod marking;
mod releasing;
mod storing;
mod took;

pub use arriving_data::ArrivingData;
pub use incoming::Incoming;
pub use laws::{
    a_command_takes_a_place_at_most, earlier_dispatches_do_not_matter, sequenced_has_other_flags,
    turns_suffice,
};
pub use took::{Foresight, Took};
