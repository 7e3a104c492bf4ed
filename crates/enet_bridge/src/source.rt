//! Where orders come from.
ghost use Rattle.std.specs.Prelude.{◌≡◌};
ghost use Rattle.enet_submit.specs.Words.{IsDrainOf};

use enet_submit::{Drain, Submission, SubmitQueue};
use enet_wire::{Bell, MOST_PER_TURN};
use std::collections::VecDeque;
use std::marker::Model;
use std::sync::Wait;

/// Gives orders, one by one.
pub trait Source {
    ghost use Rattle.std.specs.Prelude.{Option};
    ghost use Rattle.enet_submit.specs.declared.order.Submission.{Submission as Item};

    /// What a call of `next` may give, between the source before it and the source after it.
    ghost gives: { Self → Option Item → Self → Type 0 };

    /// The next order, or None where there is none at a moment of the call.
    fn next<R: Wait>(&mut self, rt: &R) -> Option<Submission>
        ensures { gives self.old result self.new };

    /// The service calls it where orders are likely to come soon.
    fn expect(&self);
}

/// A list of orders, given from its front. A contract sees those that are left.
#[derive(Drop)]
pub struct MemorySource {
    left: VecDeque<Submission>,
}

impl Model for MemorySource {
    ghost use Rattle.std.specs.Prelude.{List};
    ghost use Rattle.enet_submit.specs.declared.order.Submission.{Submission as Item};

    ghost Value = { List Item };

    ghost view = { λ s. s.left.items };
}

impl MemorySource {
    ghost use Rattle.std.specs.Prelude.{◌≡◌};

    /// A source of these orders.
    pub fn new(left: VecDeque<Submission>) -> MemorySource
        ensures { result ≡ left.items }
    {
        MemorySource { left }
    }
}

impl Source for MemorySource {
    ghost use Rattle.enet_bridge.specs.Memory.{FirstIs};

    ghost gives = { FirstIs };

    fn next<R: Wait>(&mut self, _rt: &R) -> Option<Submission> {
        self.left.pop_front()
    }

    fn expect(&self) {}
}

/// The submit queue with its drain. After 256 orders in a row it rings the bell of the service's wire, so that the rest doesn't
/// wait while the service sleeps.
#[derive(Drop)]
pub struct QueueSource<'a> {
    queue: &'a SubmitQueue,
    drain: Drain,
    bell: &'a Bell,
    in_a_row: u32,
    pub ghost fits: { IsDrainOf queue.now drain },
}

impl<'a> QueueSource<'a> {
    ghost use Rattle.enet_bridge.specs.Serving.{queue_of, drain_of};

    /// A source of this queue, whose service waits on the wire of this bell.
    pub fn new(queue: &'a SubmitQueue, drain: Drain, bell: &'a Bell) -> QueueSource<'a>
        requires { IsDrainOf queue.now drain }
        ensures drain { drain_of result ≡ drain }
        ensures queue { queue_of result ≡ queue.now }
    {
        QueueSource {
            queue,
            drain,
            bell,
            in_a_row: 0,
        }
    }

    /// The drain, by which the queue is settled.
    pub fn into_drain(self) -> Drain
        ensures drain { result ≡ drain_of self.entry }
        ensures fits { IsDrainOf (queue_of self.entry) result }
    {
        self.drain
    }
}

impl<'a> Source for QueueSource<'a> {
    ghost use Rattle.std.specs.Prelude.{◌≡◌};
    ghost use Rattle.enet_bridge.specs.Ends.{DrainGives};
    ghost use Rattle.enet_bridge.specs.Serving.{queue_of, drain_of};

    ghost gives = { λ s x t. (queue_of t ≡ queue_of s) × DrainGives (queue_of s) (drain_of s) x (drain_of t) };

    fn next<R: Wait>(&mut self, rt: &R) -> Option<Submission> {
        let item = self.queue.take(rt, &mut self.drain);
        self.in_a_row = if item.is_some() {
            self.in_a_row.saturating_add(1)
        } else {
            self.bell.set_without_orders(true);
            0
        };
        if self.in_a_row >= MOST_PER_TURN {
            self.in_a_row = 0;
            self.bell.ring();
        }
        item
    }

    fn expect(&self) {
        self.bell.expect();
    }
}
