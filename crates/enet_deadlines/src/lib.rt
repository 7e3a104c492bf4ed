//! What is due when, and which of many are in a set: numbered places, each with a moment or none ([`Deadlines`]), and sets of places
//! ([`Places`]).
//!
//! Moments are milliseconds on a clock of 64 bits that does not wrap; `moment_at` reads one off the host's clock, which counts modulo 2^32.
//! Only `new` and `grow` take memory: 16 bytes a place for `Deadlines`, a bit and 1/64 for `Places`. To set or clear a moment takes a step
//! for each doubling of the places at most, whatever the order of calls; the least moment is at hand.
//!
//! Proved, each exactly by the definitions of specs/: what each call leaves as the list of moments, or of who is in the set; the least
//! moment, the first place that is due, and the next in the set (specs/Moments, specs/Sets). Law: what is known to happen first after so
//! many milliseconds of the wrapping clock happens first at a moment of this one, and the other way round (`moments_are_right`).
#![tactic(auto)]

mod bits;
mod clock;
mod deadlines;
mod places;
mod tree;

pub use clock::{moment_at, moments_are_right};
pub use deadlines::Deadlines;
pub use places::Places;
