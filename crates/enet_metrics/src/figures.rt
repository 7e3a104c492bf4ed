//! What is known of a service, for two threads.

ghost use Rattle.std.specs.Prelude.{◌≡◌};
ghost use Rattle.enet_metrics.specs.Noting.{age_of};
ghost use Rattle.enet_metrics.specs.Standings.{standing_in};

use crate::reading::{Reading, Standing};
use crate::trips::{BUCKETS, Trips};
use std::alloc::{AllocError, Global};
use std::rt::Clock;
use std::sync::atomic::Ordering::SeqCst;
use std::sync::atomic::{AtomicBool, AtomicU64};
use std::time::Instant;

/// Numbers that one thread stores and others read. Each is one that was right a short time before.
#[derive(Drop)]
pub struct Figures {
    // In the order of `numbers_of`.
    standing: Vec<AtomicU64>,
    // By the number of the reason, from 1 on.
    stops: Vec<AtomicU64>,
    refusals: Vec<AtomicU64>,
    trips: Vec<AtomicU64>,
    trips_sum: AtomicU64,
    // None where the clock can't be read.
    begun: Option<Instant>,
    // Milliseconds from then to the last look.
    looked_at: AtomicU64,
    is_over: AtomicBool,
}

impl Figures {
    /// Nothing was done. An error for want of memory.
    pub fn new<R: Clock>(rt: &R, alloc: Global) -> Result<Figures, AllocError> {
        Ok(Figures {
            standing: zeros(alloc, 24)?,
            stops: zeros(alloc, 13)?,
            refusals: zeros(alloc, 9)?,
            trips: zeros(alloc, BUCKETS)?,
            trips_sum: AtomicU64::new(0),
            begun: Instant::now(rt).ok(),
            looked_at: AtomicU64::new(0),
            is_over: AtomicBool::new(false),
        })
    }

    /// Whoever watches looks now, and has noted this; its age isn't asked for. A look at which the clock can't be read counts as none.
    pub fn look<R: Clock>(&self, rt: &R, noted: &Reading) {
        store_all(&self.standing, &numbers_of(&noted.standing));
        store_all(&self.stops, &noted.stops);
        store_all(&self.refusals, &noted.refusals);
        store_all(&self.trips, &noted.trips.counts);
        self.trips_sum.store(noted.trips.sum, SeqCst);
        if let Some(now) = self.now(rt) {
            self.looked_at.store(now, SeqCst);
        }
    }

    /// The server ends: the pages are to end, too.
    pub fn end(&self) {
        self.is_over.store(true, SeqCst);
    }

    pub(crate) fn is_over(&self) -> bool {
        self.is_over.load(SeqCst)
    }

    // Milliseconds since the start. None where the clock can't be read, or couldn't then.
    fn now<R: Clock>(&self, rt: &R) -> Option<u64> {
        let begun = self.begun.as_ref()?;
        let elapsed = begun.elapsed(rt).ok()?;
        Some(u64::try_from(elapsed.as_millis()).unwrap_or(u64::MAX))
    }

    /// What is told now: what was noted at the last look, and how long ago that was. The start counts as a look.
    pub fn read<R: Clock>(&self, rt: &R) -> Reading {
        let mut numbers = [0; 24];
        let mut stops = [0; 13];
        let mut refusals = [0; 9];
        let mut counts = [0; BUCKETS];
        load_all(&self.standing, &mut numbers);
        load_all(&self.stops, &mut stops);
        load_all(&self.refusals, &mut refusals);
        load_all(&self.trips, &mut counts);
        Reading {
            standing: standing_of(&numbers),
            stops,
            refusals,
            trips: Trips {
                counts,
                sum: self.trips_sum.load(SeqCst),
            },
            age: age_of(self.now(rt), self.looked_at.load(SeqCst)),
        }
    }
}

// How long ago a look was.
fn age_of(now: Option<u64>, looked_at: u64) -> Option<u64>
    ensures { result ≡ age_of now looked_at }
{
    match now {
        Some(now) => Some(now.saturating_sub(looked_at)),
        None => None,
    }
}

// The numbers of a standing in a row.
fn numbers_of(standing: &Standing) -> [u64; 24]
    ensures { standing_in result ≡ standing.now }
{
    [
        standing.peers,
        standing.slots,
        standing.free,
        standing.spent,
        standing.connecting,
        standing.answering,
        standing.connected,
        standing.leaving,
        standing.datagrams_in,
        standing.bytes_in,
        standing.datagrams_out,
        standing.bytes_out,
        standing.sends,
        standing.resends,
        standing.lost,
        standing.passed_over,
        standing.orders,
        standing.events,
        standing.in_transit,
        standing.sent_again,
        standing.queued,
        standing.queued_most,
        standing.dropped,
        standing.beyond_share,
    ]
}

/// The standing of these numbers.
pub(crate) fn standing_of(numbers: &[u64; 24]) -> Standing
    ensures { result ≡ standing_in numbers.now }
{
    Standing {
        peers: numbers[0],
        slots: numbers[1],
        free: numbers[2],
        spent: numbers[3],
        connecting: numbers[4],
        answering: numbers[5],
        connected: numbers[6],
        leaving: numbers[7],
        datagrams_in: numbers[8],
        bytes_in: numbers[9],
        datagrams_out: numbers[10],
        bytes_out: numbers[11],
        sends: numbers[12],
        resends: numbers[13],
        lost: numbers[14],
        passed_over: numbers[15],
        orders: numbers[16],
        events: numbers[17],
        in_transit: numbers[18],
        sent_again: numbers[19],
        queued: numbers[20],
        queued_most: numbers[21],
        dropped: numbers[22],
        beyond_share: numbers[23],
    }
}

// So many zeros.
fn zeros(alloc: Global, count: usize) -> Result<Vec<AtomicU64>, AllocError> {
    let mut zeros = Vec::new(alloc);
    for _zero in 0..count {
        zeros.push(AtomicU64::new(0))?;
    }
    Ok(zeros)
}

fn store_all(counts: &[AtomicU64], numbers: &[u64]) {
    for place in 0..numbers.len() {
        if let Some(cell) = counts.get(place) {
            cell.store(numbers[place], SeqCst);
        }
    }
}

fn load_all(counts: &[AtomicU64], numbers: &mut [u64]) {
    for place in 0..numbers.len() {
        if let Some(cell) = counts.get(place) {
            numbers[place] = cell.load(SeqCst);
        }
    }
}
