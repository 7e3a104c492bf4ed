//! How a command is sent, and sent again, until it is acknowledged.

ghost use Rattle.std.specs.Prelude.{◌≡◌, ℕ};
ghost use Rattle.enet_rtt.specs.Clock.{HappensIn};
ghost use Rattle.enet_rtt.specs.Transmission.{answered_time, begun, again, grown_time, is_heard_since, is_late, ends, marked, went_at};

use crate::clock::elapsed;
use crate::expiry::{Expiry, Patience, expired};

/// To so many milliseconds a timeout doubles where the peer answers.
const ANSWERED_BOUND: u32 = 100;

/// A moment at which what is late becomes due to go again. Times are in milliseconds.
#[derive(Clone, Copy)]
pub struct Tick {
    /// The clock.
    pub now: u32,
    /// When the peer was last heard, by the clock.
    pub heard: u32,
    /// To what a timeout may double where nothing was heard since the last send.
    pub bound: u32,
    /// How long a command that is sent for the first time now waits for its acknowledgement.
    pub present: u32,
}

/// How a command that is not acknowledged yet was sent so far. Times are in milliseconds.
#[derive(Clone, Copy)]
pub struct Transmission {
    /// When it was first sent, by the clock.
    pub first: u32,
    /// When it was last sent, by the clock.
    pub last: u32,
    /// How long to wait for its acknowledgement since it was last sent.
    pub timeout: u32,
    /// How often it was sent, up to 255.
    pub attempts: u8,
    /// Whether it waits to be sent again.
    pub due: bool,
}

impl Transmission {
    /// As it stands after the first send, at the time `now`.
    pub fn begin(now: u32, timeout: u32) -> Self
        ensures { result ≡ begun now timeout }
    {
        Transmission {
            first: now,
            last: now,
            timeout,
            attempts: 1,
            due: false,
        }
    }

    /// It was sent once more, at the time `now`.
    pub fn send_again(&mut self, now: u32)
        ensures { self.new ≡ again now self.old }
    {
        self.last = now;
        self.attempts = self.attempts.saturating_add(1);
        self.due = false;
    }

    /// Whether it was sent at this time of 16 bits, as an acknowledgement repeats one: that of the first send or of the last one, or,
    /// where it went three times or more, any between them, since the others are not kept (our profile).
    #[inline(always)]
    pub fn went_at(&self, time: u16) -> bool
        ensures { result ≡ went_at time self.now }
    {
        let first = (self.first % 65_536) as u16;
        time == first
            || time == (self.last % 65_536) as u16
            || (self.attempts >= 3
                && u32::from(time.wrapping_sub(first)) <= elapsed(self.last, self.first))
    }

    /// Whether it has waited out its timeout at the time `now`, and is not due to go again already (our profile).
    pub fn is_late(&self, now: u32) -> bool
        ensures { result ≡ is_late now self.now }
    {
        !self.due && elapsed(now, self.last) >= self.timeout
    }

    /// In how many milliseconds after the time `now` it is late: 0 where it is; 4,294,967,295 where it is due to go again.
    pub fn next_late(&self, now: u32) -> u32
        ensures { HappensIn (λ (later : ℕ). is_late later self.now) now result }
    {
        if self.due {
            return u32::MAX;
        }
        self.timeout.saturating_sub(elapsed(now, self.last))
    }

    /// Whether it is late at the time `now`, and the peer, heard last at `heard`, has timed out over it by `patience` (our
    /// profile).
    pub fn ends(&self, now: u32, patience: &Patience, heard: u32) -> bool
        ensures { result ≡ ends now patience.now heard self.now }
    {
        let expiry = expired(
            patience,
            now,
            heard,
            self.first,
            self.last,
            self.timeout,
            self.attempts,
        );
        !self.due && expiry == Expiry::End
    }

    /// Whether the peer was heard since it was last sent: in less time than has passed since then (our profile).
    pub fn is_heard_since(&self, tick: Tick) -> bool
        ensures { result ≡ is_heard_since tick self.now }
    {
        elapsed(tick.now, tick.heard) < elapsed(tick.now, self.last)
    }

    /// Where it is late at the moment `tick`, it is due to go again, and its timeout backs off in silence only. Where nothing was heard
    /// since it was last sent, it waits twice as long then, but no longer than `tick.bound`, or as long as it did where that is longer.
    /// Else it waits as long as a first send would, or twice as long as it did, but then no longer than 100 ms (our profile).
    pub fn mark(&mut self, tick: Tick)
        ensures { self.new ≡ marked tick self.old }
    {
        if self.is_late(tick.now) {
            self.timeout = if self.is_heard_since(tick) {
                answered(tick.present, self.timeout)
            } else {
                grown(tick.bound, self.timeout)
            };
            self.due = true;
        }
    }
}

// The next timeout where the peer answers.
fn answered(present: u32, timeout: u32) -> u32
    ensures { result ≡ answered_time present timeout }
{
    present.max(timeout.saturating_mul(2).min(ANSWERED_BOUND))
}

// The next timeout in silence.
fn grown(bound: u32, timeout: u32) -> u32
    ensures { result ≡ grown_time bound timeout }
{
    timeout.max(timeout.saturating_mul(2).min(bound))
}
