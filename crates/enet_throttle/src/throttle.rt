//! The packet throttle of a peer.

ghost use Rattle.std.specs.Prelude.{◌≡◌, ◌≤◌};
ghost use Rattle.enet_throttle.specs.Throttle.{start, after_sample, moved, next_counter, is_admitted, with_interval, limited, transit, SharesOut};

use std::marker::Model;

/// The packet throttle of a peer: of 32 unreliable or unsequenced packets in a row one more than it says goes out, and all
/// from 31 on. Samples of the round trip move it, between 0 and its limit, which is at most 32. It remembers the lowest round
/// trip and the highest variance of an interval.
#[derive(Clone, Copy)]
pub struct Throttle {
    value: u32,
    limit: u32,
    counter: u32,
    interval: u32,
    acceleration: u32,
    deceleration: u32,
    sampled: bool,
    began: u32,
    last_round_trip: u32,
    last_variance: u32,
    lowest_round_trip: u32,
    highest_variance: u32,
}

/// The lowest estimates of the round trip in an interval of the throttle, in milliseconds.
#[derive(Clone, Copy, Debug, PartialEq, Eq)]
pub struct Lows {
    /// Since the running interval began; 500 before the first sample. ENet: lowestRoundTripTime.
    pub running: u32,
    /// In the interval before; 500 before one ended. ENet: lastRoundTripTime.
    pub last: u32,
}

impl Model for Throttle {
    ghost use Rattle.std.specs.Prelude.{◌<◌, ◌≤◌};
    ghost use Rattle.enet_throttle.specs.Throttle.{Throttling};

    ghost Value = { Throttling };

    ghost view = { λ t. record {
      value = t.value;
      limit = t.limit;
      counter = t.counter;
      interval = t.interval;
      acceleration = t.acceleration;
      deceleration = t.deceleration;
      sampled = t.sampled;
      began = t.began;
      last_round_trip = t.last_round_trip;
      last_variance = t.last_variance;
      lowest_round_trip = t.lowest_round_trip;
      highest_variance = t.highest_variance;
    } };

    ghost invariant = { λ t. (t.value ≤ t.limit) × (t.limit ≤ 32) × (t.counter < 32) };

    ghost inverse = { λ t. record {
      value = t.value;
      limit = t.limit;
      counter = t.counter;
      interval = t.interval;
      acceleration = t.acceleration;
      deceleration = t.deceleration;
      sampled = t.sampled;
      began = t.began;
      last_round_trip = t.last_round_trip;
      last_variance = t.last_variance;
      lowest_round_trip = t.lowest_round_trip;
      highest_variance = t.highest_variance;
    } };
}

impl Throttle {
    /// The throttle at which every packet goes out.
    const SCALE: u32 = 32;

    /// The throttle of a new peer: all packets go out, the limit is 32, the interval 5,000 ms, acceleration and
    /// deceleration are 2 (ENet 1.3).
    pub fn new() -> Self
        ensures { result ≡ start }
    {
        Throttle {
            value: Self::SCALE,
            limit: Self::SCALE,
            counter: 0,
            interval: 5_000,
            acceleration: 2,
            deceleration: 2,
            sampled: false,
            began: 0,
            last_round_trip: 500,
            last_variance: 0,
            lowest_round_trip: 500,
            highest_variance: 0,
        }
    }

    /// Takes in a round trip that was measured at the time `now`, with the estimated round trip and variance as they
    /// stand after it. The first sample doesn't move the throttle. Each later one moves it by what was kept of earlier
    /// intervals: to the limit where the variance was as great as the round trip; up by the acceleration, at most to
    /// the limit, where the sample is no longer than that round trip; and down by the deceleration, at most to 0,
    /// where it is longer by more than twice the variance. Then an interval ends with the first sample, and later with
    /// one at least so many milliseconds after the last end: its lowest round trip and its highest variance, at least
    /// 1, are kept (our profile).
    pub fn sample(&mut self, now: u32, measured: u32, round_trip: u32, variance: u32)
        ensures { self.new ≡ after_sample self.old now measured round_trip variance }
    {
        if self.sampled {
            self.value = self.moved_by(measured);
        }
        let lowest = self.lowest_round_trip.min(round_trip);
        let highest = self.highest_variance.max(variance);
        if !self.sampled || now.wrapping_sub(self.began) >= self.interval {
            self.began = now;
            self.last_round_trip = lowest;
            self.last_variance = highest.max(1);
            self.lowest_round_trip = round_trip;
            self.highest_variance = variance;
        } else {
            self.lowest_round_trip = lowest;
            self.highest_variance = highest;
        }
        self.sampled = true;
    }

    // Where a sample moves the throttle.
    fn moved_by(&self, measured: u32) -> u32
        ensures moved { result ≡ moved self.now measured }
        ensures within { result ≤ self.now.limit }
    {
        let slow = self
            .last_variance
            .saturating_mul(2)
            .saturating_add(self.last_round_trip);
        if self.last_round_trip <= self.last_variance {
            self.limit
        } else if measured <= self.last_round_trip {
            self.value.saturating_add(self.acceleration).min(self.limit)
        } else if measured > slow {
            self.value.saturating_sub(self.deceleration)
        } else {
            self.value
        }
    }

    /// Whether the next unreliable or unsequenced packet goes out. A counter, 0 at first, goes on by 7 modulo 32; a packet goes
    /// where the counter isn't above the throttle (our profile).
    pub fn admits(&mut self) -> bool
        ensures answer { result ≡ is_admitted self.old }
        ensures counted { self.new ≡ record self.old { counter = next_counter self.old } }
    {
        self.counter = (self.counter + 7) % Self::SCALE;
        self.counter <= self.value
    }

    /// Sets the interval in milliseconds, the acceleration and the deceleration, and nothing else.
    pub fn configure(&mut self, interval: u32, acceleration: u32, deceleration: u32)
        ensures { self.new ≡ with_interval self.old interval acceleration deceleration }
    {
        self.interval = interval;
        self.acceleration = acceleration;
        self.deceleration = deceleration;
    }

    /// Sets the limit, where more than 32 counts as 32, and cuts the throttle to it.
    pub fn set_limit(&mut self, limit: u32)
        ensures { self.new ≡ limited self.old limit }
    {
        self.limit = limit.min(Self::SCALE);
        self.value = self.value.min(self.limit);
    }

    /// The throttle, 0 to its limit, which is at most 32.
    pub fn value(&self) -> u32
        ensures value { result ≡ self.now.value }
        ensures within { result ≤ self.now.limit }
        ensures scale { self.now.limit ≤ 32 }
    {
        self.value
    }

    /// The lowest estimates of the round trip in the running interval and in the one before.
    pub fn lows(&self) -> Lows
        ensures { result ≡ record { running = self.now.lowest_round_trip; last = self.now.last_round_trip } }
    {
        Lows {
            running: self.lowest_round_trip,
            last: self.last_round_trip,
        }
    }

    /// How many bytes of reliable packets may be in transit: of the window as much as the throttle's limit says, and at
    /// least the mtu. The throttle itself drops unreliable packets, and no more than that (our profile).
    pub fn transit_limit(&self, window: u32, mtu: u32) -> u32
        ensures { result ≡ transit self.now window mtu }
    {
        let share = u64::from(self.limit) * u64::from(window) / 32;
        (share as u32).max(mtu)
    }
}

/// A law of the definitions: while the throttle stands still, of 32 unreliable packets in a row one more goes out than
/// it says, and all from 31 on.
pub fn throttle_shares_out()
    ensures { SharesOut }
{}
