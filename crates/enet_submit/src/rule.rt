//! The rule of the queue: what holds at every moment of what it holds and of what each thread knows. All of this is for
//! proofs; no value of these types is made.
use crate::order::{Parcel, Submission};
use crossbeam_queue::protocol::{Join, Lesson, Outcome, Protocol, Split};
use std::collections::LinkedList;

/// All that a seat was told Ok.
pub struct SeatLog {
    pub seat: u8,
    pub sent: LinkedList<Submission>,
}

/// What one token knows.
pub enum View {
    /// The drain: how many seats there are, how many of them have been made, what it took, and what the seats that it
    /// took in had submitted.
    Draining {
        seats: u64,
        made: u64,
        taken: LinkedList<Submission>,
        finished: LinkedList<SeatLog>,
    },
    /// A seat, finished or not: its number, how many seats there are, and what it was told Ok.
    Sending {
        seat: u64,
        seats: u64,
        sent: LinkedList<Submission>,
    },
    /// A token that was given up.
    Spent,
}

/// What was taken and what is held make a history.
pub struct InOrder;

impl Protocol<Parcel, View> for InOrder {
    ghost use Rattle.std.specs.Prelude.{[]};
    ghost use Rattle.enet_submit.specs.Rule.{Holds, draining};

    ghost holds = { Holds };

    ghost first = { draining 0 0 [] [] };
}

/// There is to be one more seat.
pub struct Widens;

impl Split<View> for Widens {
    ghost use Rattle.enet_submit.specs.Rule.{widened, spent};

    ghost left = { widened };

    ghost right = { λ view. spent };
}

/// A seat is made.
pub struct Makes;

impl Split<View> for Makes {
    ghost use Rattle.enet_submit.specs.Rule.{made_one, new_seat};

    ghost left = { made_one };

    ghost right = { new_seat };
}

/// The drain takes in a finished seat.
pub struct Finishes;

impl Join<View> for Finishes {
    ghost use Rattle.enet_submit.specs.Rule.{informed, spent};

    ghost both = { informed };

    ghost spent = { spent };
}

/// A push, or a push that finds the queue full.
pub struct Submits;

impl Outcome<Parcel, View> for Submits {
    ghost use Rattle.enet_submit.specs.Rule.{Submitted};

    ghost then = { Submitted };
}

impl Lesson<Parcel, View> for Submits {
    ghost use Rattle.enet_submit.specs.Rule.{ShowsIn};

    ghost fact = { ShowsIn };
}

/// A pop, or a pop that finds the queue empty.
pub struct Takes;

impl Outcome<Parcel, View> for Takes {
    ghost use Rattle.enet_submit.specs.Rule.{Took};

    ghost then = { Took };
}

impl Lesson<Parcel, View> for Takes {
    ghost use Rattle.enet_submit.specs.Rule.{ShowsIn};

    ghost fact = { ShowsIn };
}
