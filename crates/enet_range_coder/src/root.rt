//! The bytes of the empty context, which has them all.

ghost use Rattle.std.specs.Prelude.{◌≡◌, ◌+◌, ◌*◌, ◌≤◌, length, drop, map};
ghost use Rattle.enet_range_coder.specs.Context.{weigh, find, reach};
ghost use Rattle.enet_range_coder.specs.Memory.{all_from};
ghost use Rattle.enet_range_coder.specs.Learning.{root_weighed, halve_weight, is_heavy_root};
ghost use Rattle.enet_range_coder.specs.Private.Meant.{place_meant};

use crate::chain::Place;

/// The sum of the weights, each of which is 1 more than what stands there.
pub(crate) fn weigh_all(weights: &[u8]) -> u32
    requires { length weights.now ≤ 256 }
    ensures weight { result ≡ weigh (all_from 0 weights.now) }
    ensures bound { result ≤ 256 * length weights.now }
{
    let mut sum: u32 = 0;
    for weight in weights {
        sum += *weight as u32 + 1;
    }
    sum
}

/// The place of a byte.
pub(crate) fn find_root(weights: &[u8; 256], byte: u8) -> Option<Place>
    ensures { place_meant result ≡ find (all_from 0 weights.now) byte 0 }
{
    Some(Place {
        below: weigh_all(&weights[..byte as usize]),
        size: weights[byte as usize] as u32 + 1,
    })
}

/// A row of bytes, in which or behind which a byte is looked for.
#[derive(Clone, Copy)]
struct Row {
    /// Its first byte, 256 behind the last row.
    first: u16,
    /// The weights of the bytes before it.
    below: u32,
}

/// How many bytes a row has.
const ROW: u16 = 16;

/// The first row whose weights reach beyond `aim`, or what is behind the last.
fn row_of(weights: &[u8; 256], aim: u32) -> Row
    ensures rest { reach (all_from result.first (drop result.first weights.now)) aim result.below ≡ reach (all_from 0 weights.now) aim 0 }
    ensures bound { result.below ≤ 256 * result.first }
    ensures within { result.first ≤ 256 }
{
    let mut row = Row { first: 0, below: 0 };
    for _ in 0..16u16 {
        let first = row.first as usize;
        let below = row.below + weigh_all(&weights[first..first + ROW as usize]);
        if aim < below {
            return row;
        }
        row = Row {
            first: row.first + ROW,
            below,
        };
    }
    row
}

/// The byte whose weights hold `aim`.
pub(crate) fn reach_root(weights: &[u8; 256], aim: u32) -> Option<u8>
    ensures { result ≡ reach (all_from 0 weights.now) aim 0 }
{
    let row = row_of(weights, aim);
    let mut below = row.below;
    for byte in row.first..256 {
        let after = below + weights[byte as usize] as u32 + 1;
        if aim < after {
            return Some(byte as u8);
        }
        below = after;
    }
    None
}

/// Counts a byte three times more, and halves all that stands there, rounded up, where it had 250 or more.
pub(crate) fn weigh_root(weights: &mut [u8; 256], byte: u8)
    ensures { weights.new ≡ root_weighed weights.old byte }
{
    let had = weights[byte as usize];
    let up = had.saturating_add(3);
    weights[byte as usize] = up;
    if is_heavy_root(had) {
        halve_root(weights);
    }
}

/// Whether all that stands there is halved once what stands here is counted again.
fn is_heavy_root(weight: u8) -> bool
    ensures { result ≡ is_heavy_root weight }
{
    weight >= 250
}

/// Halves all that stands there, rounded up.
fn halve_root(weights: &mut [u8; 256])
    ensures { weights.new ≡ map halve_weight weights.old }
{
    for weight in weights.iter_mut() {
        *weight -= *weight / 2;
    }
}
