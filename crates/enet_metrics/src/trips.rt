//! How long round trips take.

ghost use Rattle.std.specs.Prelude.{◌≡◌, ◌<◌, ◌≤◌, ◌++◌, length, IfOk, OnOk};
ghost use Rattle.std.specs.String.{string_bytes};
ghost use Rattle.enet_metrics.specs.Trips.{bucket_of, bound_text, bucket_line, buckets_from, total_from, capped, trips_text};
ghost use Rattle.enet_metrics.specs.Private.Trips.{one_above};

use crate::text::{push_head, push_line, push_seconds};
use std::alloc::AllocError;

/// So many buckets there are: one for each bound, and one for what is above all.
pub(crate) const BUCKETS: usize = 13;

/// How many round trips were taken, by their lengths.
#[derive(Clone, Copy)]
pub struct Trips {
    /// In each bucket (`bucket_of`).
    pub counts: [u64; 13],
    /// Their sum, in milliseconds.
    pub sum: u64,
}

/// The bucket of a round trip of so many milliseconds: how many of the bounds 1, 2, 5, 10, 20, 50, 100, 200, 500, 1,000, 2,000 and 5,000 it
/// is above.
pub fn bucket_of(ms: u32) -> usize
    ensures bucket { result ≡ bucket_of ms }
    ensures within { result < 13 }
{
    let low = above(ms, 1) + above(ms, 2) + above(ms, 5) + above(ms, 10);
    let middle = above(ms, 20) + above(ms, 50) + above(ms, 100) + above(ms, 200);
    let high = above(ms, 500) + above(ms, 1_000) + above(ms, 2_000) + above(ms, 5_000);
    low + middle + high
}

// 1 where it is above the bound, else 0.
fn above(ms: u32, bound: u32) -> usize
    ensures value { result ≡ one_above ms bound }
    ensures small { result ≤ 1 }
{
    usize::from(ms > bound)
}

// The greatest length of a bucket, in seconds.
fn bound_text(bucket: usize) -> &'static str
    ensures { result.now ≡ bound_text bucket }
{
    match bucket {
        0 => "0.001",
        1 => "0.002",
        2 => "0.005",
        3 => "0.01",
        4 => "0.02",
        5 => "0.05",
        6 => "0.1",
        7 => "0.2",
        8 => "0.5",
        9 => "1",
        10 => "2",
        11 => "5",
        _ => "+Inf",
    }
}

fn push_bucket(text: &mut String, bound: &str, count: u64) -> Result<(), AllocError>
    ensures { OnOk result (string_bytes text.new ≡ string_bytes text.old ++ bucket_line bound.now count) }
{
    write!(
        text,
        "enet_round_trip_seconds_bucket{{le=\"{bound}\"}} {count}\n"
    )
}

// Each bucket's line has those of the buckets before it, too. How many there are in all.
fn push_buckets(text: &mut String, counts: &[u64]) -> Result<u64, AllocError>
    ensures text { OnOk result (string_bytes text.new ≡ string_bytes text.old ++ buckets_from 0 0 counts.now) }
    ensures total { IfOk result (λ total. total ≡ total_from 0 counts.now) }
{
    let mut total: u64 = 0;
    for bucket in 0..counts.len() {
        total = total.saturating_add(counts[bucket]);
        push_bucket(text, bound_text(bucket), total)?;
    }
    Ok(total)
}

/// The lines of the round trips. An error for want of memory.
pub(crate) fn push_trips(text: &mut String, trips: &Trips) -> Result<(), AllocError>
    ensures { OnOk result (string_bytes text.new ≡ string_bytes text.old ++ trips_text trips.now) }
{
    push_head(
        text,
        "enet_round_trip_seconds",
        "histogram",
        "Estimates of the round trip of each connected peer, taken once a second.",
    )?;
    let total = push_buckets(text, &trips.counts)?;
    push_seconds(text, "enet_round_trip_seconds_sum", trips.sum)?;
    push_line(text, "enet_round_trip_seconds_count", total)?;
    Ok(())
}
