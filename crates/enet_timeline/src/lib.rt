//! What a capture holds, or what was noted in place of one (`enet_captured`), in words, and as a picture (SVG).
//!
//! Proved, by the definitions of specs/: that what is shown of a capture is the summary and the picture of the same parts of it, those that
//! pass a filter (`show`, by `Shows`; which parts these are, and what became of their datagrams, `enet_captured` says); the words of the
//! summary, by `Summarizes`, which tell how much of everything the timeline holds, what is asked for of it, and each connection that is
//! shown; that the picture is one svg element, whose head tells its height and on top of which the summary of the whole stands, line by
//! line (`IsPicture`); how far below the one before it a datagram stands (`step_of`); what of the commands that wait an answer is of, and
//! which is sent again (`answered`, `waiting_place`).
//! Only tested, by scripts/check/check-inspect.sh over 446 captured datagrams, crowds, random datagrams, captures that are cut short, what
//! filters ask for of these, the rows of trials/captured/marks.rows, and scripts of the lab: that the picture is XML, and has an arrow for each
//! datagram, with what it is called and the marks of what became of it. Neither: where in the picture other words stand, and the queue beside the ends.
#![tactic(auto)]

mod drawing;
mod element;
mod labels;
mod legend;
mod places;
mod queue;
mod showing;
mod summary;

pub use showing::{Shown, show};
