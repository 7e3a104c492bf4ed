//! Who sends more than its share.

use enet_codec::PeerRef;
use enet_serve::{Dropped, Met, PassedOver};
use std::alloc::{AllocError, Global};
use std::rt::Clock;
use std::sync::Arc;
use std::time::{Duration, Instant};

/// What was passed over is looked at once in so many seconds.
const BETWEEN_ROUNDS: u64 = 1;

/// A client is loud in a round if something reliable of it was passed over, or more than its share. It is too loud once so many rounds have
/// passed since it began to be loud.
const MOST_ROUNDS: u32 = 5;

/// It begins anew where it wasn't loud in so many rounds on end: who waits longer and longer to send again isn't loud in each.
const CALM_ROUNDS: u32 = 3;

/// How many packets, or pieces of long ones, and how many bytes of them a client may send in a second.
#[derive(Clone, Copy)]
pub struct Share {
    pub packets: Option<u32>,
    pub bytes: Option<u32>,
}

impl Share {
    // Whether that is more.
    fn is_below(&self, packets: u64, bytes: u64) -> bool {
        is_below(self.packets, packets) || is_below(self.bytes, bytes)
    }
}

fn is_below(limit: Option<u32>, count: u64) -> bool {
    match limit {
        Some(limit) => u64::from(limit) < count,
        None => false,
    }
}

/// A client of which something was passed over.
#[derive(Clone, Copy)]
pub struct Loud {
    pub met: Met,
    /// So many packets, or pieces of long ones, since the last round.
    pub packets: u64,
    /// Whether it is to be ended; true once a client.
    pub is_too_loud: bool,
}

/// What was counted of the client of a slot until the last round.
#[derive(Clone, Copy)]
struct Heard {
    // None where nobody was there.
    peer: Option<PeerRef>,
    dropped: Dropped,
    // Rounds since it began to be loud, that one too, and since it last was.
    rounds: u32,
    calm: u32,
    // It was told as too loud.
    is_told: bool,
}

impl Heard {
    // A client of which so much was passed over before.
    fn begun(peer: Option<PeerRef>, dropped: Dropped) -> Heard {
        Heard {
            peer,
            dropped,
            rounds: 0,
            calm: 0,
            is_told: false,
        }
    }

    // A round more. Whether the client is found to be too loud.
    fn goes_on(&mut self, is_loud: bool) -> bool {
        if is_loud {
            self.calm = 0;
        } else {
            self.calm = self.calm.saturating_add(1);
        }
        if self.calm >= CALM_ROUNDS || (self.rounds == 0 && !is_loud) {
            self.rounds = 0;
            return false;
        }
        self.rounds = self.rounds.saturating_add(1);
        let is_too_loud = is_loud && self.rounds >= MOST_ROUNDS && !self.is_told;
        self.is_told = self.is_told || is_too_loud;
        is_too_loud
    }
}

/// Looks at what the guard passed over of what clients sent, once a second.
#[derive(Drop)]
pub struct Loudness {
    passed_over: Arc<PassedOver, Global>,
    share: Share,
    // By slots.
    heard: Vec<Heard>,
    round_at: Option<Instant>,
}

impl Loudness {
    /// Of a server whose host has so many slots. An error for want of memory.
    pub fn new(
        alloc: Global,
        passed_over: Arc<PassedOver, Global>,
        share: Share,
        slots: u16,
    ) -> Result<Loudness, AllocError> {
        let mut heard = Vec::new(alloc);
        let nothing = Dropped {
            packets: 0,
            bytes: 0,
            reliable: 0,
        };
        let nobody = Heard::begun(None, nothing);
        heard.resize(usize::from(slots), nobody)?;
        Ok(Loudness {
            passed_over,
            share,
            heard,
            round_at: None,
        })
    }

    /// Whether a second has passed since it was time. Never where the clock can't be read.
    pub fn is_time<R: Clock>(&mut self, rt: &R) -> bool {
        let Ok(now) = Instant::now(rt) else {
            return false;
        };
        if let Some(round_at) = self.round_at {
            if now.saturating_duration_since(round_at) < Duration::from_secs(BETWEEN_ROUNDS) {
                return false;
            }
        }
        self.round_at = Some(now);
        true
    }

    /// What was passed over of this client since the last round; None where nothing was.
    pub fn hear(&mut self, met: &Met) -> Option<Loud> {
        let slot = usize::from(met.peer.slot);
        let dropped = self.passed_over.of_slot(slot);
        let share = self.share;
        let heard = self.heard.get_mut(slot)?;
        if heard.peer != Some(met.peer) {
            *heard = Heard::begun(Some(met.peer), dropped);
            return None;
        }
        let packets = dropped.packets.saturating_sub(heard.dropped.packets);
        let bytes = dropped.bytes.saturating_sub(heard.dropped.bytes);
        let reliable = dropped.reliable.saturating_sub(heard.dropped.reliable);
        heard.dropped = dropped;
        let is_loud = reliable > 0 || share.is_below(packets, bytes);
        let is_too_loud = heard.goes_on(is_loud);
        if packets == 0 {
            return None;
        }
        Some(Loud {
            met: *met,
            packets,
            is_too_loud,
        })
    }
}
