//! What whoever runs the program `enet_relay` says to it, and how it says something back: its command line ([`read_task`]), lines of standard
//! input ([`Control`]), and lines of standard output and error that hold up nobody ([`Outlet`]).
//!
//! Proved, by the definitions of specs/: what a line says (`spells`), also one that is too long (`meant`); that of the bytes which come
//! each is of one line, in order, in whatever pieces they come, and that a call gives no line only where nothing that was read is left, or
//! 4,096 bytes had no end of one (`Control::next`, by `Reads`), and that a read which fails isn't its end (`what_came`); that the count of
//! lines which weren't written grows by one, or is told and begins anew (`Outlet::line` by `TakesLine`, `settle` by `Settles`, `miss`), by
//! what the system answers (`counted`, `takes_lines`); which microseconds a time in seconds is (`microseconds_of`); what [`version`] tells
//! (`told`); of the rest that it is safe, and that each call returns.
//! Only tested, by scripts/check/check-rows.sh: command lines and what each is answered; the lines of `serve --control`; that an output
//! which takes nothing holds up nothing. By scripts/check/check-operator.sh: the same of standard error, and what the lines do to clients.
//! Neither: which bytes the system gives, and what it is given: so nor that a line was written where the count says so.
#![tactic(auto)]

mod admission;
mod command_line;
mod control;
mod input;
mod outlet;
mod seconds;
mod versions;
mod word;

pub use admission::Admission;
pub use command_line::{
    Asked, DemoOptions, End, InspectOptions, Length, ServeOptions, ServerThreads, Task, Unread,
    Unsent, read_task,
};
pub use control::Control;
pub use outlet::{Outlet, Stream};
pub use versions::version;
pub use word::Word;
