//! Slots in turn.

ghost use Rattle.std.specs.Prelude.{◌≡◌, ◌<◌, ◌≤◌, length};
ghost use Rattle.enet_host.specs.Turns.{slot_after, turn_of};
ghost use Rattle.enet_host.specs.Private.Sleeping.{PassesTurns, AwakeAt};

use enet_sleepers::Sleepers;

/// The slot after one of so many; after the last comes slot 0.
pub(crate) fn slot_after(peers: u16, slot: u16) -> u16
    requires { slot < peers }
    ensures after { result ≡ slot_after peers slot }
    ensures within { result < peers }
{
    if slot + 1 < peers { slot + 1 } else { 0 }
}

/// The slot of this turn, where slot `from` has the first turn, 0.
pub(crate) fn slot_of_turn(peers: u16, from: u16, turn: u16) -> u16
    requires { (from < peers) × (turn < peers) }
    ensures place { turn_of peers from result ≡ turn }
    ensures within { result < peers }
{
    let until_the_end = peers - from;
    if turn < until_the_end {
        from + turn
    } else {
        turn - until_the_end
    }
}

/// The first turn from this one on whose slot is awake, where slot `from` has the first turn, 0; the number of slots where there is none.
#[inline(always)]
pub(crate) fn next_turn(sleepers: &Sleepers, peers: u16, from: u16, turn: u16) -> u16
    requires within { (from < peers) × (turn ≤ peers) }
    requires count { length sleepers.now.awake ≡ peers }
    ensures passed { PassesTurns sleepers.now.awake peers from turn result }
    ensures awake { AwakeAt sleepers.now.awake peers from result }
    ensures later { turn ≤ result }
    ensures within { result ≤ peers }
{
    let until_the_end = peers - from;
    if turn < until_the_end {
        if let Some(place) = sleepers.next_awake(usize::from(from + turn)) {
            return place as u16 - from;
        }
    }
    let first = turn.saturating_sub(until_the_end);
    if first >= from {
        return peers;
    }
    match sleepers.next_awake(usize::from(first)) {
        Some(place) if place < usize::from(from) => until_the_end + place as u16,
        _ => peers,
    }
}
