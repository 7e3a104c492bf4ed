//! How many events each taker took.

ghost use Rattle.std.specs.Prelude.{◌≡◌, ◌≤◌, MatchOption, IfSome};
ghost use Rattle.enet_events.specs.Words.{taken_by, taken_below, AllBack, AreCounts};

use crate::token::Taker;

/// How many events were taken.
#[derive(Clone, Copy)]
pub struct Account {
    /// By all takers together: as many as were posted.
    pub total: u64,
    /// By the taker of each index, 0 past the last taker.
    pub by_taker: [u64; 16],
}

// The account of so many takers. None where one is missing.
pub(crate) fn account_of(all: &[Taker], takers: u8) -> Option<Account>
    requires { takers ≤ 16 }
    ensures { MatchOption result (¬ (AllBack takers all.now)) (λ a.
        AllBack takers all.now × (a.total ≡ taken_below takers all.now) × AreCounts takers a.by_taker all.now) }
{
    let mut total = 0;
    let mut by_taker = [0; 16];
    for index in 0..takers {
        let taken = taken_of(all, index)?;
        by_taker[index as usize] = taken;
        total += taken;
    }
    Some(Account { total, by_taker })
}

// How many events the taker of this index took. None where it is missing.
fn taken_of(all: &[Taker], index: u8) -> Option<u64>
    ensures value { result ≡ taken_by index all.now }
    ensures limited { IfSome result (λ n. n ≤ 4294967295) }
{
    for taker in all {
        if taker.index == index {
            return Some(taker.count);
        }
    }
    None
}
