//! Where events go.
ghost use Rattle.std.specs.Prelude.{◌≡◌};

use crate::event_receiver::TakerBell;
use enet_codec::{Event, Refusal};
use enet_events::{EventQueue, Poster};
use std::alloc::Global;
use std::collections::VecDeque;
use std::marker::Model;
use std::sync::Wait;

/// Takes events, one by one.
pub trait Sink {
    ghost use Rattle.std.specs.Prelude.{◌≡◌, Bool, IfErr, is_ok};
    ghost use Rattle.enet_codec.specs.declared.event.Event.{Event as Told};

    /// What a call of `put` may do with an event, between the sink before it and the sink after it: whether it was taken.
    ghost puts: { Self → Told → Bool → Self → Type 0 };

    /// Takes an event, or hands it back where there is no room for it.
    fn put<R: Wait>(&mut self, rt: &R, event: Event) -> Result<(), Event>
        ensures put { puts self.old event (is_ok result) self.new }
        ensures back { IfErr result (λ back. back ≡ event) };

    /// The service calls it at the end of each turn: whoever takes the events is woken, where some were put or it asked
    /// for that.
    fn announce(&self);
}

/// A list of events, of bounded length. It takes all its memory when it is made.
#[derive(Drop)]
pub struct MemorySink {
    capacity: usize,
    events: VecDeque<Event>,
}

impl Model for MemorySink {
    ghost use Rattle.std.specs.Prelude.{◌≤◌};
    ghost use Rattle.std.specs.VecDeque.{deque_capacity};
    ghost use Rattle.enet_bridge.specs.Memory.{Shelf};

    ghost Value = { Shelf };

    ghost view = { λ s. record { capacity = s.capacity; events = s.events.items } };

    ghost invariant = { λ s. s.capacity ≤ deque_capacity s.events };
}

impl MemorySink {
    ghost use Rattle.std.specs.Prelude.{◌≡◌, ◌++◌, [], None, IfOk, IfErr};
    ghost use Rattle.std.specs.Option.{option_to_list};

    /// An empty list for so many events. E1 where there is no memory for them.
    pub fn new(alloc: Global, capacity: usize) -> Result<MemorySink, Refusal>
        ensures new { IfOk result (λ sink. sink ≡ record { capacity = capacity; events = [] }) }
        ensures memory { IfErr result (λ why. why ≡ Refusal.Memory) }
    {
        match VecDeque::with_capacity(alloc, capacity) {
            Ok(events) => Ok(MemorySink { capacity, events }),
            Err(_) => Err(Refusal::Memory),
        }
    }

    /// The oldest event, which leaves the list, or None where it is empty.
    pub fn take(&mut self) -> Option<Event>
        ensures first { self.old.events ≡ option_to_list result ++ self.new.events }
        ensures none { result ≡ None → self.old.events ≡ [] }
        ensures same { self.new.capacity ≡ self.old.capacity }
    {
        self.events.pop_front()
    }
}

impl Sink for MemorySink {
    ghost use Rattle.enet_bridge.specs.Memory.{ShelfPuts};

    ghost puts = { ShelfPuts };

    fn put<R: Wait>(&mut self, _rt: &R, event: Event) -> Result<(), Event> {
        if self.events.len() >= self.capacity {
            return Err(event);
        }
        self.events.push_back_reserved(event);
        Ok(())
    }

    fn announce(&self) {}
}

/// The event queue with its poster. It wakes the thread that takes at the end of each turn in which it put events or that this thread
/// asked for (`TakerBell::want`), and after each 64 events; and it tells it once where one is held back for want of room.
#[derive(Drop)]
pub struct QueueSink<'a> {
    queue: &'a EventQueue,
    poster: Poster,
    bell: &'a TakerBell,
    holds: bool,
    pub ghost fits: { poster.queue ≡ queue.now.id },
}

impl<'a> QueueSink<'a> {
    ghost use Rattle.enet_bridge.specs.Serving.{sink_queue, poster_of};

    /// A sink of this queue, from which the thread of this bell takes.
    pub fn new(queue: &'a EventQueue, poster: Poster, bell: &'a TakerBell) -> QueueSink<'a>
        requires { poster.queue ≡ queue.now.id }
        ensures poster { poster_of result ≡ poster }
        ensures queue { sink_queue result ≡ queue.now }
    {
        QueueSink {
            queue,
            poster,
            bell,
            holds: false,
        }
    }

    /// The poster, by which the queue is settled.
    pub fn into_poster(self) -> Poster
        ensures poster { result ≡ poster_of self.entry }
        ensures fits { result.queue ≡ (sink_queue self.entry).id }
    {
        self.poster
    }
}

impl<'a> Sink for QueueSink<'a> {
    ghost use Rattle.std.specs.Prelude.{◌≡◌};
    ghost use Rattle.enet_bridge.specs.Ends.{PosterPuts};
    ghost use Rattle.enet_bridge.specs.Serving.{sink_queue, poster_of};

    ghost puts = { λ s event taken t. (sink_queue t ≡ sink_queue s) × PosterPuts (sink_queue s) (poster_of s) event taken (poster_of t) };

    fn put<R: Wait>(&mut self, rt: &R, event: Event) -> Result<(), Event> {
        match self.queue.post(rt, &mut self.poster, event) {
            Ok(_) => {
                if self.holds {
                    self.holds = false;
                    self.bell.let_go();
                }
                self.bell.note();
                Ok(())
            }
            Err((_, event)) => {
                self.holds = true;
                self.bell.hold_back();
                Err(event)
            }
        }
    }

    fn announce(&self) {
        self.bell.tell();
    }
}
