//! How a packet is cut into fragments.

ghost use Rattle.std.specs.Prelude.{◌≡◌, ℕ, ◌<◌, ◌≤◌, ◌*◌, [], length, take, drop, slice_index_or, IfSome, IfNone};
ghost use Rattle.std.specs.List.{concat};
ghost use Rattle.enet_fragment.specs.Cutting.{planned, piece_span, piece_length, pieces_of};

use crate::place::{LONGEST_PIECE, SHORTEST_PIECE};
use crate::{FRAGMENT_LIMIT, FRAGMENT_OVERHEAD};
use bytes::Bytes;

/// How many bytes each piece but the last has: `mtu - 28`, where `mtu` is 576 to 4,096 (ENet 1.3). Never below 512 or above
/// 4,068, whatever it is.
pub fn piece_length(mtu: u32) -> u32
    ensures { result ≡ piece_length mtu }
{
    mtu.saturating_sub(FRAGMENT_OVERHEAD)
        .min(LONGEST_PIECE)
        .max(SHORTEST_PIECE)
}

/// How many pieces a packet of so many bytes is cut into: the least number of pieces of at most `mtu - 28` bytes, and 1
/// for an empty packet (ENet 1.3). `mtu` is 576 to 4,096. None exactly where the number is above the limit of 16,384 (our
/// profile).
#[tactic(auto, unfolding(crate::specs::Cutting::planned, crate::specs::Cutting::piece_count))]
pub fn plan(len: usize, mtu: u32) -> Option<u32>
    requires low { 576 ≤ mtu }
    requires high { mtu ≤ 4096 }
    ensures value { result ≡ planned len mtu }
    ensures some { IfSome result (λ count. 1 ≤ count) }
    ensures enough { IfSome result (λ count. len ≤ count * piece_length mtu) }
    ensures least { IfSome result (λ count. (n : ℕ) → 1 ≤ n → len ≤ n * piece_length mtu → count ≤ n) }
    ensures none { IfNone result (16384 * piece_length mtu < len) }
{
    let cut = piece_length(mtu) as usize;
    let count = if len == 0 { 1 } else { (len - 1) / cut + 1 };
    if count <= FRAGMENT_LIMIT as usize {
        Some(count as u32)
    } else {
        None
    }
}

/// Where piece `i` of a body, from 0, begins, and how many bytes it has. The pieces have `mtu - 28` bytes each, and the last
/// one has the rest. `mtu` is 576 to 4,096. None past the last piece, and where `plan` gives none.
#[tactic(auto, unfolding(crate::specs::Cutting::piece_span, crate::specs::Cutting::planned, crate::specs::Cutting::piece_count))]
pub fn piece(body: &Bytes, i: u32, mtu: u32) -> Option<(u32, u32)>
    requires low { 576 ≤ mtu }
    requires high { mtu ≤ 4096 }
    ensures value { result ≡ piece_span (length body.now) mtu i }
    ensures bytes { IfSome result (λ span. take span.1 (drop span.0 body.now)
        ≡ slice_index_or (pieces_of mtu body.now) i []) }
{
    let count = plan(body.len(), mtu)?;
    if i >= count {
        return None;
    }
    let cut = piece_length(mtu);
    let offset = i * cut;
    let rest = body.len() - offset as usize;
    Some((offset, (cut as usize).min(rest) as u32))
}

/// A law of `pieces_of`, by its contract alone: the pieces of a body, one after another, are the body.
pub fn pieces_make_the_body(_body: &Bytes, _mtu: u32)
    requires low { 576 ≤ _mtu }
    requires high { _mtu ≤ 4096 }
    ensures { concat (pieces_of _mtu _body.now) ≡ _body.now }
{}
