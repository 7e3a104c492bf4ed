//! What is counted of a connection.

ghost use Rattle.std.specs.Prelude.{◌≡◌, ◌+◌, ◌<◌, length, count_by};
ghost use Rattle.enet_codec.specs.declared.stop.Stop.{Stop};
ghost use Rattle.enet_captured.specs.declared.timeline.Mark.{Mark};
ghost use Rattle.enet_captured.specs.declared.timeline.Seen.{Seen};
ghost use Rattle.enet_captured.specs.Commands.{is_same, same_kind, answers};
ghost use Rattle.enet_captured.specs.Counts.{same_way, is_stopped_by};
ghost use Rattle.enet_captured.specs.Gaps.{IsLongest, gap_behind};
ghost use Rattle.enet_captured.specs.Private.Gaps.{longer};

use crate::timeline::{Mark, Seen, Way};
use crate::told::{Detail, Kind, Told};
use enet_codec::Stop;

/// How many commands are of a kind.
pub fn count_of(marks: &[Mark], kind: Kind) -> usize
    ensures { result ≡ count_by (λ (mark : Mark). same_kind mark.told.kind kind) marks.now }
{
    marks.iter().filter(|mark| mark.told.kind.is(kind)).count()
}

/// How many datagrams go one way.
pub fn going(seen: &[Seen], way: Way) -> usize
    ensures { result ≡ count_by (λ (seen : Seen). same_way seen.way way) seen.now }
{
    seen.iter().filter(|seen| seen.way.is(way)).count()
}

/// How many datagrams can't be read to their end for this reason.
pub fn stopped_by(seen: &[Seen], stop: Stop) -> usize
    ensures { result ≡ count_by (λ (seen : Seen). is_stopped_by seen.stop stop) seen.now }
{
    seen.iter()
        .filter(|seen| is_stopped_by(seen.stop, stop))
        .count()
}

fn is_stopped_by(found: Option<Stop>, stop: Stop) -> bool
    ensures { result ≡ is_stopped_by found stop }
{
    match found {
        None => false,
        Some(found) => found.number() == stop.number(),
    }
}

/// Whether two commands that go one way have one number on one channel.
pub fn is_same(one: Told, other: Told) -> bool
    ensures { result ≡ is_same one other }
{
    one.number == other.number && one.channel == other.channel
}

/// Whether a command answers another, which went the other way: it acknowledges its number, or it is the VERIFY_CONNECT to a CONNECT.
pub fn answers(one: Told, other: Told) -> bool
    ensures { result ≡ answers one other }
{
    match one.detail {
        Detail::Received { number, .. } => number == other.number && one.channel == other.channel,
        _ => one.kind.is(Kind::VerifyConnect) && other.kind.is(Kind::Connect),
    }
}

/// The longest time between two datagrams that follow one another, in microseconds, and the number of the later one.
pub fn longest_gap(seen: &[Seen]) -> Option<(u64, u64)>
    ensures { IsLongest seen.now result }
{
    let gaps = seen.len().saturating_sub(1);
    let mut longest: Option<(u64, u64)> = None;
    for place in 0..gaps {
        longest = Some(longer(longest, gap_behind(seen, place)));
    }
    longest
}

// How long after a datagram the next one was captured, and the number of that.
fn gap_behind(seen: &[Seen], place: usize) -> (u64, u64)
    requires { place + 1 < length seen.now }
    ensures { result ≡ gap_behind seen.now place }
{
    let Some(one) = seen.get(place) else {
        return (0, 0);
    };
    let Some(next) = seen.get(place + 1) else {
        return (0, 0);
    };
    (next.at.saturating_sub(one.at), next.number)
}

// The longer of two gaps, the first if they are as long.
fn longer(longest: Option<(u64, u64)>, gap: (u64, u64)) -> (u64, u64)
    ensures { result ≡ longer longest gap }
{
    match longest {
        None => gap,
        Some(longest) => { if longest.0 < gap.0 { gap } else { longest } }
    }
}
