//! What the threads hold. Each token has a pass of the queue, which has no bytes and carries what the token knows.
ghost use Rattle.std.specs.Prelude.{◌≡◌, ◌<◌, ◌≤◌, ℕ, [], length, slice_index};
ghost use Rattle.std.specs.Option.{ForSome};
ghost use Rattle.enet_submit.specs.History.{of};
ghost use Rattle.enet_submit.specs.Rule.{sending, draining, seats_in, sent_in, taken_in};
ghost use Rattle.enet_submit.specs.Parcels.{left_of, all_but, EndsWith, AreHistory};
ghost use Rattle.crossbeam_queue.specs.Passes.{view};

use crate::broadcast::Broadcast;
use crate::order::{Parcel, Submission};
use crate::rule::View;
use crossbeam_queue::Pass;
use std::sync::Wait;

/// The right to submit under one seat's number. There is one for each seat, and it can't be copied.
#[derive(Drop)]
pub struct Seat {
    pub(crate) number: u8,
    pub(crate) count: u32,
    pub(crate) pass: Pass<Parcel, View>,
    pub ghost sees: { view pass ≡ sending number (seats_in (view pass)) (sent_in (view pass)) },
    pub ghost counted: { length (sent_in (view pass)) ≡ count },
    pub ghost within: { number < seats_in (view pass) },
    pub ghost at_rest: { pass.me.1 ≡ [] },
}

impl Seat {
    ghost use Rattle.std.specs.Prelude.{◌≡◌};
    ghost use Rattle.enet_submit.specs.Words.{number_of, Ends};

    /// The seat's number, from 0.
    pub fn number(&self) -> u8
        ensures { result ≡ number_of self.now }
    {
        self.number
    }

    /// Gives the seat up: it submits no more, and the queue can be settled once each seat was given up.
    pub fn finish(self) -> Finished
        ensures { Ends self result }
    {
        let Seat {
            number,
            count,
            pass,
        } = self;
        Finished {
            number,
            count,
            pass,
        }
    }
}

/// A seat that was given up.
#[derive(Drop)]
pub struct Finished {
    pub(crate) number: u8,
    pub(crate) count: u32,
    pub(crate) pass: Pass<Parcel, View>,
    pub ghost sees: { view pass ≡ sending number (seats_in (view pass)) (sent_in (view pass)) },
    pub ghost counted: { length (sent_in (view pass)) ≡ count },
    pub ghost within: { number < seats_in (view pass) },
    pub ghost at_rest: { pass.me.1 ≡ [] },
}

/// The right to take. There is one for each queue, and it can't be copied.
#[derive(Drop)]
pub struct Drain {
    // How many orders of each seat were taken.
    pub(crate) counts: [u32; 16],
    pub(crate) pass: Pass<Parcel, View>,
    // Packets for several peers of which some were taken, whose they are, and the number of the next.
    pub(crate) seat: u8,
    pub(crate) number: u32,
    pub(crate) rest: Option<Broadcast>,
    pub ghost sees: { view pass ≡ draining (seats_in (view pass)) (seats_in (view pass)) (taken_in (view pass)) [] },
    pub ghost few: { seats_in (view pass) ≤ 16 },
    pub ghost counted: { (s : ℕ) → s < 16 → slice_index counts s ≡ length (of s (all_but (taken_in (view pass)) (left_of seat number rest))) },
    pub ghost ends: { EndsWith (taken_in (view pass)) (left_of seat number rest) },
    pub ghost some: { ForSome rest (λ orders. 0 < length orders) },
    pub ghost began: { AreHistory (seats_in (view pass)) (taken_in (view pass)) },
    pub ghost at_rest: { pass.me.1 ≡ [] },
}

impl Drain {
    ghost use Rattle.std.specs.Prelude.{◌≡◌, ◌∷◌, ◌++◌, ◌<◌, [], length, List, IfNone, IfSome};
    ghost use Rattle.enet_submit.specs.declared.order.Submission.{Submission as Item};
    ghost use Rattle.enet_submit.specs.History.{of, IsHistory};
    ghost use Rattle.enet_submit.specs.Words.{taken};
    ghost use Rattle.enet_submit.specs.Private.Taking.{left_in};

    /// The next of the packets for several peers of which some are left.
    pub(crate) fn next_left<R: Wait>(&mut self, rt: &R) -> Option<Submission>
        ensures pass { self.new.pass ≡ self.old.pass }
        ensures some { IfSome result (λ item. taken self.new ≡ taken self.old ++ item ∷ []) }
        ensures next { IfSome result (λ item. (item.seat < seats_in (view self.old.pass)) × (item.number ≡ length (of item.seat (taken self.old)))) }
        ensures began { IfSome result (λ item. (held : List Item) × IsHistory (seats_in (view self.old.pass)) (taken self.new ++ held)) }
        ensures none { IfNone result (left_in self.old ≡ []) }
    {
        let rest = self.rest.as_mut()?;
        let order = rest.next(rt)?;
        let number = self.number;
        self.number = number + 1;
        self.counts[self.seat as usize] = self.number;
        let seat = self.seat;
        if rest.is_empty() {
            self.rest = None;
            return Some(Submission {
                seat,
                number,
                order,
            });
        }
        Some(Submission {
            seat,
            number,
            order,
        })
    }
}
