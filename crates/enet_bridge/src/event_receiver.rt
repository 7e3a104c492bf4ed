//! A taker with its queue, and what wakes the thread that takes.
ghost use Rattle.std.specs.Prelude.{◌≡◌, ◌++◌, ◌∷◌, [], IfSome, IfNone};

use enet_events::{EventQueue, Numbered, Taker};
use std::sync::Wait;
use std::sync::atomic::Ordering::SeqCst;
use std::sync::atomic::{AtomicBool, AtomicU32};
use std::thread::Parker;
use std::time::Duration;

/// After so many events the thread that takes them is woken, though the turn goes on.
const MANY: u32 = 64;

/// Wakes the thread that takes events, and tells it that the service holds one back for want of room.
#[derive(Drop)]
pub struct TakerBell {
    parker: Parker,
    held_back: AtomicBool,
    // How many events were put since the thread was last woken for one. Only the service's thread asks.
    put: AtomicU32,
    // The thread that takes wants to be woken at the end of the turn in any case.
    wanted: AtomicBool,
}

impl TakerBell {
    /// A bell that wasn't rung.
    pub fn new() -> TakerBell {
        TakerBell {
            parker: Parker::new(),
            held_back: AtomicBool::new(false),
            put: AtomicU32::new(0),
            wanted: AtomicBool::new(false),
        }
    }

    /// Ends the wait of the thread that takes, or its next one.
    pub fn ring(&self) {
        self.parker.unpark();
    }

    // An event was put. The thread that takes is woken for it by `tell`, or once there are many.
    pub(crate) fn note(&self) {
        if self.put.fetch_add(1, SeqCst) >= MANY - 1 {
            self.tell();
        }
    }

    // Wakes the thread that takes, where an event was put since this was last called, or it asked for that.
    pub(crate) fn tell(&self) {
        let was_wanted = self.wanted.swap(false, SeqCst);
        if self.put.swap(0, SeqCst) > 0 || was_wanted {
            self.parker.unpark();
        }
    }

    /// Asks for the bell to be rung at the end of the service's turn at the latest, also where it puts no event.
    pub fn want(&self) {
        self.wanted.store(true, SeqCst);
    }

    // The service holds an event back for want of room. If it is a refusal, no order is taken until it is put.
    pub(crate) fn hold_back(&self) {
        if !self.held_back.swap(true, SeqCst) {
            self.parker.unpark();
        }
    }

    pub(crate) fn let_go(&self) {
        self.held_back.store(false, SeqCst);
    }

    /// Whether the service holds an event back; if that is a refusal, it takes no orders. It is told once for each time.
    pub fn hears_of_one_held_back(&self) -> bool {
        self.held_back.swap(false, SeqCst)
    }

    /// Waits until the bell is rung.
    pub fn wait<R: Wait>(&self, rt: &R) {
        self.parker.park(rt);
    }

    /// Waits until the bell is rung, or a millisecond has passed.
    pub fn wait_a_moment<R: Wait>(&self, rt: &R) {
        self.parker.park_timeout(rt, Duration::from_millis(1));
    }
}

/// A taker with its queue.
#[derive(Drop)]
pub struct EventReceiver<'a> {
    queue: &'a EventQueue,
    taker: Taker,
    pub ghost fits: { taker.queue ≡ queue.now.id },
}

impl<'a> EventReceiver<'a> {
    ghost use Rattle.enet_bridge.specs.Holding.{receiver_queue, taker_of, received, FoundNone};

    /// An event receiver of this queue.
    pub fn new(queue: &'a EventQueue, taker: Taker) -> EventReceiver<'a>
        requires { taker.queue ≡ queue.now.id }
        ensures taker { taker_of result ≡ taker }
        ensures queue { receiver_queue result ≡ queue.now }
    {
        EventReceiver { queue, taker }
    }

    /// The oldest event of the queue, None where a step of this call found it empty.
    pub fn take<R: Wait>(&mut self, rt: &R) -> Option<Numbered>
        ensures taken { IfSome result (λ x. received self.new ≡ received self.old ++ x ∷ []) }
        ensures none { IfNone result (received self.new ≡ received self.old) }
        ensures empty { IfNone result (FoundNone self.new) }
        ensures queue { receiver_queue self.new ≡ receiver_queue self.old }
        ensures index { (taker_of self.new).index ≡ (taker_of self.old).index }
    {
        self.queue.take(rt, &mut self.taker)
    }

    /// The taker, by which the queue is settled.
    pub fn into_taker(self) -> Taker
        ensures taker { result ≡ taker_of self.entry }
        ensures fits { result.queue ≡ (receiver_queue self.entry).id }
    {
        self.taker
    }
}
