//! How many of the commands that are sent and not acknowledged were sent again.

ghost use Rattle.std.specs.Prelude.{◌≡◌, ℕ};
ghost use Rattle.std.specs.List.{count_by};
ghost use Rattle.slab.specs.Slab.{get};
ghost use Rattle.enet_sender.specs.Counting.{added, is_sent_again};
ghost use Rattle.enet_sender.specs.Private.Rounds.{test_at};

use crate::Pending;
use std::collections::VecDeque;

/// So many, and those of a ring's commands that were sent more than once; it stops at the greatest number.
pub(crate) fn count_sent_again(ring: &VecDeque<u32>, pending: &Pending, so_far: u64) -> u64
    ensures { result ≡ added so_far (count_by (λ (key : ℕ). test_at is_sent_again (get pending.now.slab key)) ring.now.items) }
{
    let mut total = so_far;
    for place in 0..ring.len() {
        total = total.saturating_add(pending.sent_again(ring[place]));
    }
    total
}
