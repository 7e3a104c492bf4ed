//! The rule of the queue: what it holds, and what each pass of it knows. No value of these types is made.

use crate::numbered::Numbered;
use crossbeam_queue::protocol::{Join, Lesson, Outcome, Protocol, Split};
use std::collections::LinkedList;

/// All that a taker took.
pub struct Share {
    pub index: u8,
    pub taken: LinkedList<Numbered>,
}

/// What a pass knows.
pub enum View {
    /// How many takers there are to be and how many were made, what was posted, and what takers took that are back.
    Posting {
        takers: u64,
        made: u64,
        posted: LinkedList<Numbered>,
        known: LinkedList<Share>,
    },
    /// How many takers there are, which of them it is, and what it took.
    Taking {
        takers: u64,
        index: u64,
        taken: LinkedList<Numbered>,
    },
    /// Nothing any more.
    Spent,
}

/// What was posted is what was taken and then what is held, and each event is taken by one.
pub struct Shared;

impl Protocol<Numbered, View> for Shared {
    ghost use Rattle.std.specs.Prelude.{[]};
    ghost use Rattle.enet_events.specs.Rule.{Invariant, posting};

    ghost holds = { λ items views. Invariant items views };

    ghost first = { posting 0 0 [] [] };
}

/// One more taker is to come.
pub struct Widens;

impl Split<View> for Widens {
    ghost use Rattle.enet_events.specs.Rule.{widened, spent};

    ghost left = { widened };

    ghost right = { λ v. spent };
}

/// A taker is made.
pub struct Makes;

impl Split<View> for Makes {
    ghost use Rattle.enet_events.specs.Rule.{made_one, taker_of};

    ghost left = { made_one };

    ghost right = { taker_of };
}

/// The poster is told what a taker took.
pub struct Finishes;

impl Join<View> for Finishes {
    ghost use Rattle.enet_events.specs.Rule.{informed, spent};

    ghost both = { informed };

    ghost spent = { spent };
}

/// A push, or a push that finds the queue full.
pub struct Posts;

impl Outcome<Numbered, View> for Posts {
    ghost use Rattle.enet_events.specs.Rule.{Pushed};

    ghost then = { Pushed };
}

impl Lesson<Numbered, View> for Posts {
    ghost use Rattle.enet_events.specs.Rule.{PosterSees};

    ghost fact = { PosterSees };
}

/// A pop, or a pop that finds the queue empty.
pub struct Takes;

impl Outcome<Numbered, View> for Takes {
    ghost use Rattle.enet_events.specs.Rule.{Popped};

    ghost then = { Popped };
}

impl Lesson<Numbered, View> for Takes {
    ghost use Rattle.enet_events.specs.Rule.{TakerLearns};

    ghost fact = { TakerLearns };
}

/// A look once the takers are back.
pub struct Settles;

impl Lesson<Numbered, View> for Settles {
    ghost use Rattle.enet_events.specs.Rule.{PosterKnows};

    ghost fact = { PosterKnows };
}
