//! What a monitor is told of the server.

use enet_host::SlotCounts;
use enet_metrics::{Figures, Reading, Standing};
use enet_serve::{Note, PassedOver, WatchedHost};
use std::alloc::Global;
use std::rt::Clock;
use std::sync::Arc;
use std::time::{Duration, Instant};

/// What goes over all slots or peers is taken once in so many seconds.
const BETWEEN_ROUNDS: u64 = 1;

/// The greatest numbers of a stop and of a host's refusal.
const STOPS: u8 = 13;

const REFUSALS: u8 = 9;

/// What whoever watches has counted itself.
#[derive(Clone, Copy)]
pub struct Counted {
    pub peers: u64,
    /// Datagrams that the socket didn't take.
    pub lost: u64,
    /// Orders and events that wait.
    pub orders: u64,
    pub events: u64,
}

/// Stores how the server stands, for those who ask over HTTP.
#[derive(Drop)]
pub struct Monitor {
    figures: Arc<Figures, Global>,
    passed_over: Arc<PassedOver, Global>,
    reading: Reading,
    // The last round.
    round_at: Option<Instant>,
    slots: SlotCounts,
    in_transit: u64,
    sent_again: u64,
    queued: u64,
    queued_most: u64,
    // Since the start.
    dropped: u64,
}

impl Monitor {
    pub fn new(figures: Arc<Figures, Global>, passed_over: Arc<PassedOver, Global>) -> Monitor {
        Monitor {
            figures,
            passed_over,
            reading: Reading::new(),
            round_at: None,
            slots: SlotCounts {
                free: 0,
                spent: 0,
                connecting: 0,
                answering: 0,
                connected: 0,
                leaving: 0,
            },
            in_transit: 0,
            sent_again: 0,
            queued: 0,
            queued_most: 0,
            dropped: 0,
        }
    }

    /// So it stands now.
    pub fn look<R: Clock>(&mut self, rt: &R, host: &WatchedHost, counted: Counted) {
        for number in 1..=STOPS {
            self.reading.stopped(number, host.stops(number));
        }
        for number in 1..=REFUSALS {
            self.reading.refused(number, host.refusals(number));
        }
        for note in host.notes() {
            if let Note::Lacks { .. } = note {
                self.dropped = self.dropped.saturating_add(1);
            }
        }
        if self.is_time(rt) {
            self.slots = host.host().slot_counts();
            self.sent_again = host.host().sent_again();
            self.take_round(host);
        }
        self.reading.standing = self.standing(host, counted);
        self.figures.look(rt, &self.reading);
    }

    fn standing(&self, host: &WatchedHost, counted: Counted) -> Standing {
        let totals = host.host().totals();
        Standing {
            peers: counted.peers,
            slots: u64::try_from(host.met().len()).unwrap_or(0),
            free: u64::from(self.slots.free),
            spent: u64::from(self.slots.spent),
            connecting: u64::from(self.slots.connecting),
            answering: u64::from(self.slots.answering),
            connected: u64::from(self.slots.connected),
            leaving: u64::from(self.slots.leaving),
            datagrams_in: totals.datagrams_in,
            bytes_in: totals.bytes_in,
            datagrams_out: totals.datagrams_out,
            bytes_out: totals.bytes_out,
            sends: host.sends(),
            resends: host.resends(),
            lost: counted.lost,
            passed_over: self.passed_over.connects(),
            orders: counted.orders,
            events: counted.events,
            in_transit: self.in_transit,
            sent_again: self.sent_again,
            queued: self.queued,
            queued_most: self.queued_most,
            dropped: self.dropped,
            beyond_share: self.passed_over.packets(),
        }
    }

    // Whether a second has passed since it was time. Never where the clock can't be read.
    fn is_time<R: Clock>(&mut self, rt: &R) -> bool {
        let Ok(now) = Instant::now(rt) else {
            return false;
        };
        if let Some(round_at) = self.round_at {
            if now.saturating_duration_since(round_at) < Duration::from_secs(BETWEEN_ROUNDS) {
                return false;
            }
        }
        self.round_at = Some(now);
        true
    }

    // Goes over the connected peers: how long their round trips take, what they have in transit, and what is queued for them.
    fn take_round(&mut self, host: &WatchedHost) {
        self.in_transit = 0;
        self.queued = 0;
        self.queued_most = 0;
        for met in host.met() {
            if let Some(met) = met {
                if let Some(trip) = host.host().round_trip(met.peer) {
                    self.reading.trip(trip.mean);
                }
                let in_transit = host.host().in_transit(met.peer).unwrap_or(0);
                self.in_transit = self.in_transit.saturating_add(u64::from(in_transit));
                let queued = host.host().outstanding(met.peer).map_or(0, |it| it.bytes);
                self.queued = self.queued.saturating_add(queued);
                self.queued_most = self.queued_most.max(queued);
            }
        }
    }
}
