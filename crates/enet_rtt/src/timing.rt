//! The estimate of a peer's round trip.

ghost use Rattle.std.specs.Prelude.{◌≡◌};
ghost use Rattle.enet_rtt.specs.Timing.{fresh, after_sample, timeout, StaysWithin};

use std::marker::Model;

/// The longest that a command waits for its acknowledgement after its first send, in milliseconds.
const LONGEST_TIMEOUT: u32 = 5_000;

/// The estimate of a peer's round trip: its time and its variance, in milliseconds. It begins at 500 and 0.
#[derive(Clone, Copy)]
pub struct Timing {
    round_trip: u32,
    variance: u32,
    sampled: bool,
}

impl Model for Timing {
    ghost use Rattle.enet_rtt.specs.Timing.{Estimate};

    ghost Value = { Estimate };

    ghost view = { λ t. record { round_trip = t.round_trip; variance = t.variance; sampled = t.sampled } };

    ghost inverse = { λ e. record { round_trip = e.round_trip; variance = e.variance; sampled = e.sampled } };
}

impl Timing {
    /// The estimate before any sample: round trip 500, variance 0 (ENet 1.3).
    pub fn new() -> Self
        ensures { result ≡ fresh }
    {
        Timing {
            round_trip: 500,
            variance: 0,
            sampled: false,
        }
    }

    /// Takes in a round trip that was measured. The first one is the round trip, and half of it, rounded up, the
    /// variance. Later the variance gives up a quarter of itself and takes a quarter of how far the sample is off,
    /// and the round trip goes an eighth of the way towards the sample (our profile).
    pub fn sample(&mut self, measured: u32)
        ensures { self.new ≡ after_sample self.old measured }
    {
        if self.sampled {
            let deviation = measured.abs_diff(self.round_trip);
            self.variance = self.variance - self.variance / 4 + deviation / 4;
            if self.round_trip <= measured {
                self.round_trip += deviation / 8;
            } else {
                self.round_trip -= deviation / 8;
            }
        } else {
            self.round_trip = measured;
            self.variance = measured.div_ceil(2);
            self.sampled = true;
        }
    }

    /// The round trip as estimated, in milliseconds.
    pub fn round_trip(&self) -> u32
        ensures { result ≡ self.now.round_trip }
    {
        self.round_trip
    }

    /// Whether a round trip was measured.
    pub fn is_sampled(&self) -> bool
        ensures { result ≡ self.now.sampled }
    {
        self.sampled
    }

    /// The variance of the round trip, in milliseconds.
    pub fn variance(&self) -> u32
        ensures { result ≡ self.now.variance }
    {
        self.variance
    }

    /// After how many milliseconds a command that is sent now is due for resending: the round trip and four times
    /// the variance, but no more than 5,000 (our profile).
    pub fn timeout_of(&self) -> u32
        ensures { result ≡ timeout self.now }
    {
        self.variance
            .saturating_mul(4)
            .saturating_add(self.round_trip)
            .min(LONGEST_TIMEOUT)
    }
}

/// A law of the definitions: round trip and variance stay within what bounds them and the samples.
pub fn estimate_stays_within()
    ensures { StaysWithin }
{}
