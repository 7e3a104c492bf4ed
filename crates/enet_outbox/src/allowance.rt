//! What a peer may have in transit beside its window, by how its line fares.

ghost use Rattle.std.specs.Prelude.{◌≡◌, ◌<◌, ◌^◌};
ghost use Rattle.enet_outbox.specs.Allowance.{new_allowance, growth, limit, share, after_acknowledgement, after_loss, after_sample};

use enet_sender::Acknowledged;
use std::marker::Model;

/// The allowance of a new peer: as wide as the widest window. One so wide limits nothing.
const WIDE: u32 = 65_536;

/// It is never less.
const FEWEST: u32 = 2_800;

/// It is never more.
const GREATEST: u32 = 131_072;

/// While the peer is calm it counts as so much at least.
const CALM_BYTES: u32 = 6_400;

/// What the prices of a peer's data commands in transit may be together, in bytes: the price of one is its payload and 28 bytes. It begins
/// at 65,536 and is never below 2,800 nor above 131,072. It grows with what is acknowledged and shrinks with what was lost while the peer
/// answered. And the least round trip that was measured, in milliseconds.
#[derive(Clone, Copy)]
pub struct Allowance {
    bytes: u32,
    least: u32,
    calm: bool,
}

impl Model for Allowance {
    ghost use Rattle.std.specs.Prelude.{◌≤◌};
    ghost use Rattle.enet_outbox.specs.Allowance.{Allowed, fewest, greatest};

    ghost Value = { Allowed };

    ghost view = { λ a. record { bytes = a.bytes; least = a.least; calm = a.calm } };

    ghost invariant = { λ a. (fewest ≤ a.bytes) × (a.bytes ≤ greatest) };

    ghost inverse = { λ a. record { bytes = a.bytes; least = a.least; calm = a.calm } };
}

impl Allowance {
    /// That of a new peer: 65,536 bytes, no round trip measured.
    pub fn new() -> Self
        ensures { result ≡ new_allowance }
    {
        Allowance {
            bytes: WIDE,
            least: u32::MAX,
            calm: false,
        }
    }

    /// In bytes, 2,800 to 131,072.
    pub fn bytes(&self) -> u32
        ensures { result ≡ self.now.bytes }
    {
        self.bytes
    }

    /// What the prices of what is in transit may be together, the mtu apart: from 65,536 on they have no limit, which the greatest number
    /// stands for; else the allowance, and while the peer is calm 6,400 bytes at least (our profile).
    pub fn limit(&self) -> u32
        ensures { result ≡ limit self.now }
    {
        if self.bytes >= WIDE {
            u32::MAX
        } else if self.calm {
            self.bytes.max(CALM_BYTES)
        } else {
            self.bytes
        }
    }

    /// A command was acknowledged: a quarter of its price is added, and 2,048 times its price divided by the allowance. Where it was due to
    /// go again, just its price instead; and where the acknowledgement repeats another time than that of its last send, its price too,
    /// since then a resend was needless. At most to 131,072 (our profile).
    pub fn acknowledge(&mut self, told: Acknowledged)
        ensures { self.new ≡ after_acknowledgement self.old told }
    {
        if self.bytes < GREATEST {
            let grown = u64::from(self.bytes) + self.growth(told);
            self.bytes = grown.min(u64::from(GREATEST)) as u32;
        }
    }

    // By how much it grows.
    fn growth(&self, told: Acknowledged) -> u64
        ensures grows { result ≡ growth self.now.bytes told }
        ensures small { result < 2 ^ 45 }
    {
        let price = u64::from(told.price);
        if told.due {
            return price;
        }
        let grown = share(price, self.bytes);
        if told.last { grown } else { grown + price }
    }

    /// Commands of so many bytes in price were lost while the peer answered: it shrinks by twice as much, at most to 2,800 (our profile).
    pub fn lose(&mut self, prices: u32)
        ensures { self.new ≡ after_loss self.old prices }
    {
        let left = self.bytes.saturating_sub(prices.saturating_mul(2));
        self.bytes = left.max(FEWEST);
    }

    /// Takes in a round trip that was measured, with the estimated one as it stands after it, in milliseconds: the peer is calm where that
    /// is less than the least measured one and a quarter of it, or 4 ms, more (our profile).
    pub fn sample(&mut self, measured: u32, round_trip: u32)
        ensures { self.new ≡ after_sample self.old measured round_trip }
    {
        let least = self.least.min(measured);
        let calm = u64::from(least) + u64::from((least / 4).max(4));
        self.least = least;
        self.calm = u64::from(round_trip) < calm;
    }
}

// What a price adds to an allowance of so many bytes.
fn share(price: u64, bytes: u32) -> u64
    requires small { price < 2 ^ 32 }
    requires some { 0 < bytes }
    ensures value { result ≡ share bytes price }
    ensures small { result < 2 ^ 44 }
{
    let quotient = 2_048 * price / u64::from(bytes);
    price / 4 + quotient
}
