//! A bell by which one thread ends another one's wait.

use mio::{Registry, Token, Waker};
use std::io;
use std::sync::atomic::AtomicBool;
use std::sync::atomic::Ordering::SeqCst;

const WAKER: Token = Token(1);

/// Ends the wait of a socket's wire. Whoever hands work over rings it afterwards; a ring before the wait counts too, so no
/// work is slept over. It also tells whether that thread has orders left, or expects some. Threads share it by reference.
#[derive(Drop)]
pub struct Bell {
    // Rung since this was last asked.
    rung: AtomicBool,
    // The waiting thread sleeps, or is about to.
    asleep: AtomicBool,
    // The waiting thread found no order lately. It may still be true where orders were handed over while it looked.
    without_orders: AtomicBool,
    // Orders are likely to come soon, since this was last asked.
    expects: AtomicBool,
    waker: Waker,
}

impl Bell {
    pub(crate) fn new(registry: &Registry) -> io::Result<Bell> {
        Ok(Bell {
            rung: AtomicBool::new(false),
            asleep: AtomicBool::new(false),
            without_orders: AtomicBool::new(true),
            expects: AtomicBool::new(false),
            waker: Waker::new(registry, WAKER)?,
        })
    }

    /// Call it once what the waiting thread is to see has been done. It never blocks, and it calls the system only where that
    /// thread sleeps.
    pub fn ring(&self) {
        self.rung.store(true, SeqCst);
        if self.asleep.swap(false, SeqCst) {
            let _ = self.waker.wake();
        }
    }

    // Whether it was rung since this was last asked.
    pub(crate) fn was_rung(&self) -> bool {
        self.rung.swap(false, SeqCst)
    }

    // Announces a sleep. True where it was rung before, and then there is to be none.
    pub(crate) fn lie_down(&self) -> bool {
        self.asleep.store(true, SeqCst);
        self.was_rung()
    }

    pub(crate) fn get_up(&self) {
        self.asleep.store(false, SeqCst);
    }

    /// Orders are about to be handed over, or none was found.
    pub fn set_without_orders(&self, without_orders: bool) {
        self.without_orders.store(without_orders, SeqCst);
    }

    /// Orders are likely to come soon.
    pub fn expect(&self) {
        self.expects.store(true, SeqCst);
    }

    /// Whether orders were said to come soon, since this was last asked.
    pub fn hears_of_orders(&self) -> bool {
        self.expects.swap(false, SeqCst)
    }

    /// Whether no order was found lately.
    pub fn is_without_orders(&self) -> bool {
        self.without_orders.load(SeqCst)
    }
}
