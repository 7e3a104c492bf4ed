//! What posts and what takes. Each has a pass of its queue.

use crate::numbered::Numbered;
use crate::rule::View;
use crossbeam_queue::Pass;
use std::marker::Model;

/// The right to post events to one queue. A contract sees its queue and all that was posted.
#[derive(Drop)]
pub struct Poster {
    pub(crate) takers: u8,
    pub(crate) count: u64,
    pub(crate) pass: Pass<Numbered, View>,
}

impl Model for Poster {
    ghost use Rattle.enet_events.specs.Words.{PosterState};

    ghost Value = { PosterState };

    ghost use Rattle.enet_events.specs.Tokens.{poster_state, IsPoster};

    ghost view = { λ p. poster_state p.pass };

    ghost invariant = { λ p. IsPoster p.takers p.count p.pass };
}

/// The right to take events from one queue, as one of its takers. A contract sees its queue, which taker it is and all
/// that it took.
#[derive(Drop)]
pub struct Taker {
    pub(crate) index: u8,
    pub(crate) takers: u8,
    pub(crate) count: u64,
    pub(crate) pass: Pass<Numbered, View>,
}

impl Model for Taker {
    ghost use Rattle.enet_events.specs.Words.{TakerState};

    ghost Value = { TakerState };

    ghost use Rattle.enet_events.specs.Tokens.{taker_state, IsTaker};

    ghost view = { λ t. taker_state t.pass };

    ghost invariant = { λ t. IsTaker t.takers t.index t.count t.pass };
}

impl Taker {
    ghost use Rattle.std.specs.Prelude.{◌≡◌};

    /// Which of the takers it is, from 0 on: the place of its count in the account.
    pub fn index(&self) -> u8
        ensures { result ≡ self.now.index }
    {
        self.index
    }
}
