//! What a relay shows of itself while it runs.

use std::sync::atomic::Ordering::SeqCst;
use std::sync::atomic::{AtomicU64, AtomicUsize};

/// What a relay shows of itself while it runs. Other threads read it; each number is one that was right a short time before.
#[derive(Drop)]
pub struct Gauge {
    /// How many peers are connected.
    pub peers: AtomicUsize,
    expanded: AtomicU64,
    asked: AtomicU64,
}

impl Gauge {
    /// No peer and no event yet.
    pub fn new() -> Gauge {
        Gauge {
            peers: AtomicUsize::new(0),
            expanded: AtomicU64::new(0),
            asked: AtomicU64::new(0),
        }
    }

    /// How many events were expanded, by all relays that showed themselves here one after another.
    pub fn expanded(&self) -> u64 {
        self.expanded.load(SeqCst)
    }

    /// How many orders these events gave.
    pub fn asked(&self) -> u64 {
        self.asked.load(SeqCst)
    }

    pub(crate) fn show(&self, peers: usize, expanded: u64, asked: u64) {
        self.peers.store(peers, SeqCst);
        self.expanded.store(expanded, SeqCst);
        self.asked.store(asked, SeqCst);
    }
}
