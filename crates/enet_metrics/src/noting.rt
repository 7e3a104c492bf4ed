//! What whoever watches notes of a service.

ghost use Rattle.std.specs.Prelude.{◌≡◌};
ghost use Rattle.enet_metrics.specs.Noting.{nothing, with_count, with_stops, with_refusals, one_more, with_trip};

use crate::figures::standing_of;
use crate::reading::Reading;
use crate::trips::{Trips, bucket_of};

impl Reading {
    /// Nothing was done yet.
    pub fn new() -> Reading
        ensures { result ≡ nothing }
    {
        Reading {
            standing: standing_of(&[0; 24]),
            stops: [0; 13],
            refusals: [0; 9],
            trips: Trips {
                counts: [0; 13],
                sum: 0,
            },
            age: None,
        }
    }

    /// So many datagrams were stopped for the reason of this number (1 to 13) since the start. Another number is passed over.
    pub fn stopped(&mut self, reason: u8, count: u64)
        ensures { self.new ≡ with_stops reason count self.old }
    {
        note(&mut self.stops, reason, count);
    }

    /// So many orders were refused for the reason of this number (1 to 9) since the start. Another number is passed over.
    pub fn refused(&mut self, reason: u8, count: u64)
        ensures { self.new ≡ with_refusals reason count self.old }
    {
        note(&mut self.refusals, reason, count);
    }

    /// A peer's round trips take so many milliseconds now.
    pub fn trip(&mut self, ms: u32)
        ensures { self.new ≡ with_trip ms self.old }
    {
        add_trip(&mut self.trips, ms);
    }
}

// The reason of this number has this count.
fn note(counts: &mut [u64], reason: u8, count: u64)
    ensures { counts.new ≡ with_count reason count counts.old }
{
    if reason > 0 {
        let place = usize::from(reason) - 1;
        if place < counts.len() {
            counts[place] = count;
        }
    }
}

fn add_trip(trips: &mut Trips, ms: u32)
    ensures { trips.new ≡ one_more ms trips.old }
{
    let bucket = bucket_of(ms);
    trips.counts[bucket] = trips.counts[bucket].saturating_add(1);
    trips.sum = trips.sum.saturating_add(u64::from(ms));
}
