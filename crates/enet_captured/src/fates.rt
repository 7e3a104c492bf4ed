//! What became of the datagrams of a connection, as far as a capture tells.

ghost use Rattle.std.specs.Prelude.{◌≡◌, ◌<◌, ℕ, List, length, map, Some, count_by, IfOk};
ghost use Rattle.std.specs.BTreeMap as tree;
ghost use Rattle.std.specs.Ordering.{nat_cmp};
ghost use Rattle.std.specs.Option.{unwrap_or};
ghost use Rattle.enet_captured.specs.Fates.{fate_at, fate_by, fate_of, has_ended, is_behind, is_verified, join, leads_behind, marked_as, nothing, outcome_of, same_outcome, waits_as, was_early, was_in_vain, was_lost, was_resent};
ghost use Rattle.enet_captured.specs.declared.timeline.Mark.{Mark};
ghost use Rattle.enet_captured.specs.Private.Tables.{AreLinks, item};

use crate::sends::{Links, link_at, links_of};
use crate::timeline::{Mark, Seen, Way};
use crate::told::Kind;
use std::alloc::{AllocError, Global};
use std::collections::BTreeMap;

/// What is true of one of a datagram's commands, at least.
#[derive(Clone, Copy)]
pub struct Fate {
    /// It waits for an acknowledgement: it asks for one, wasn't seen before, and is no CONNECT that was answered.
    pub waits: bool,
    /// An acknowledgement of it was seen.
    pub is_acknowledged: bool,
    /// It waits, and is sent again.
    pub goes_again: bool,
    /// It was sent before.
    pub went_before: bool,
    /// It was sent before, and what it repeats was acknowledged, only behind it: it was sent again too early.
    pub is_early: bool,
    /// It acknowledges what is sent again all the same, behind it.
    pub is_in_vain: bool,
    /// It was seen before: the same datagram stands in the capture twice.
    pub was_seen: bool,
}

/// What a capture says of a datagram.
#[derive(Clone, Copy)]
pub enum Outcome {
    /// Nothing of it waits for an acknowledgement.
    AsksNothing,
    /// One of its commands was acknowledged: it arrived.
    Acknowledged,
    /// No acknowledgement was seen, and it was sent again: it was lost, refused, or its acknowledgement was lost on the far side of the capture.
    NoneSeen,
    /// No acknowledgement was seen, and it wasn't sent again.
    Open,
}

/// A datagram, and what became of it.
#[derive(Clone, Copy)]
pub struct Marked {
    pub seen: Seen,
    pub fate: Fate,
}

/// Nothing is true of a datagram without commands.
const NOTHING: Fate = Fate {
    waits: false,
    is_acknowledged: false,
    goes_again: false,
    went_before: false,
    is_early: false,
    is_in_vain: false,
    was_seen: false,
};

impl Fate {
    /// Which of the four cases it is.
    pub fn outcome(self) -> Outcome
        ensures { result ≡ outcome_of self }
    {
        if self.is_acknowledged {
            return Outcome::Acknowledged;
        }
        if !self.waits {
            return Outcome::AsksNothing;
        }
        if self.goes_again {
            Outcome::NoneSeen
        } else {
            Outcome::Open
        }
    }

    // What is true of one of two.
    fn join(self, other: Fate) -> Fate
        ensures { result ≡ join self other }
    {
        Fate {
            waits: self.waits || other.waits,
            is_acknowledged: self.is_acknowledged || other.is_acknowledged,
            goes_again: self.goes_again || other.goes_again,
            went_before: self.went_before || other.went_before,
            is_early: self.is_early || other.is_early,
            is_in_vain: self.is_in_vain || other.is_in_vain,
            was_seen: self.was_seen || other.was_seen,
        }
    }
}

impl Outcome {
    /// Whether two cases are one.
    pub fn is(self, other: Outcome) -> bool
        ensures { result ≡ same_outcome self other }
    {
        match (self, other) {
            (Outcome::AsksNothing, Outcome::AsksNothing) => true,
            (Outcome::Acknowledged, Outcome::Acknowledged) => true,
            (Outcome::NoneSeen, Outcome::NoneSeen) | (Outcome::Open, Outcome::Open) => true,
            _ => false,
        }
    }
}

impl Marked {
    // Whether it goes one way and is of one case.
    fn has_ended(self, way: Way, outcome: Outcome) -> bool
        ensures { result ≡ has_ended way outcome self }
    {
        self.seen.way.is(way) && self.fate.outcome().is(outcome)
    }

    // Whether it goes one way and has a command that was sent before.
    fn was_resent(self, way: Way) -> bool
        ensures { result ≡ was_resent way self }
    {
        self.seen.way.is(way) && self.fate.went_before
    }

    // Whether it goes one way and was sent again too early.
    fn was_early(self, way: Way) -> bool
        ensures { result ≡ was_early way self }
    {
        self.seen.way.is(way) && self.fate.is_early
    }

    // Whether it goes one way and acknowledges what is sent again all the same.
    fn was_in_vain(self, way: Way) -> bool
        ensures { result ≡ was_in_vain way self }
    {
        self.seen.way.is(way) && self.fate.is_in_vain
    }

    // Whether it goes one way and is known to have never been delivered.
    fn was_lost(self, way: Way) -> bool
        ensures { result ≡ was_lost way self }
    {
        self.seen.way.is(way) && self.seen.is_lost
    }
}

/// How many of these datagrams go one way and are of one case.
pub fn ended(marked: &[Marked], way: Way, outcome: Outcome) -> usize
    ensures { result ≡ count_by (has_ended way outcome) marked.now }
{
    marked
        .iter()
        .filter(|one| one.has_ended(way, outcome))
        .count()
}

/// How many of these go one way and have a command that was sent before.
pub fn resent(marked: &[Marked], way: Way) -> usize
    ensures { result ≡ count_by (was_resent way) marked.now }
{
    marked.iter().filter(|one| one.was_resent(way)).count()
}

/// How many go one way and were sent again too early.
pub fn early(marked: &[Marked], way: Way) -> usize
    ensures { result ≡ count_by (was_early way) marked.now }
{
    marked.iter().filter(|one| one.was_early(way)).count()
}

/// How many go one way and acknowledge what is sent again all the same.
pub fn in_vain(marked: &[Marked], way: Way) -> usize
    ensures { result ≡ count_by (was_in_vain way) marked.now }
{
    marked.iter().filter(|one| one.was_in_vain(way)).count()
}

/// How many go one way of which it is known that they were never delivered.
pub fn lost(marked: &[Marked], way: Way) -> usize
    ensures { result ≡ count_by (was_lost way) marked.now }
{
    marked.iter().filter(|one| one.was_lost(way)).count()
}

/// The datagrams of a connection, in order, with what became of each by their commands, in order. An error where there is no memory for it.
pub fn mark_all(alloc: Global, seen: &[Seen], marks: &[Mark]) -> Result<Vec<Marked>, AllocError>
    ensures { IfOk result (λ found. found.items ≡ map (marked_as marks.now) seen.now) }
{
    let links = links_of(alloc, marks)?;
    mark_by(alloc, seen, marks, &links)
}

/// The same, by what leads from the commands to others of them.
pub(crate) fn mark_by(
    alloc: Global,
    seen: &[Seen],
    marks: &[Mark],
    links: &Links,
) -> Result<Vec<Marked>, AllocError>
    requires { AreLinks marks.now links.now }
    ensures { IfOk result (λ found. found.items ≡ map (marked_as marks.now) seen.now) }
{
    let fates = fates_by(alloc, marks, links)?;
    let mut found = Vec::new(alloc);
    for one in seen {
        found.push(Marked {
            seen: *one,
            fate: fate_in(&fates, one.number),
        })?;
    }
    Ok(found)
}

// The fate of a datagram.
fn fate_in(fates: &BTreeMap<u64, Fate>, datagram: u64) -> Fate
    ensures { result ≡ unwrap_or (tree.get nat_cmp fates.now datagram) nothing }
{
    fates.get(&datagram).copied().unwrap_or(NOTHING)
}

// The fates of all datagrams that have commands.
fn fates_by(alloc: Global, marks: &[Mark], links: &Links) -> Result<BTreeMap<u64, Fate>, AllocError>
    requires { AreLinks marks.now links.now }
    ensures { IfOk result (λ fates. (datagram : ℕ) → unwrap_or (tree.get nat_cmp fates datagram) nothing ≡ fate_of marks.now datagram) }
{
    let mut fates = BTreeMap::new(alloc);
    for place in 0..marks.len() {
        let datagram = marks[place].datagram;
        let fate = fate_in(&fates, datagram).join(fate_at(marks, links, place));
        fates.insert(datagram, fate)?;
    }
    Ok(fates)
}

// What is true of the command at a place.
fn fate_at(marks: &[Mark], links: &Links, place: usize) -> Fate
    requires linked { AreLinks marks.now links.now }
    requires within { place < length marks.now }
    ensures { result ≡ fate_at marks.now place }
{
    let seen = link_at(links.seen_before.as_slice(), place);
    let went = link_at(links.went_before.as_slice(), place);
    let belongs = link_at(links.belongs_to.as_slice(), place);
    let again = link_at(links.goes_again.as_slice(), place);
    let acknowledged = link_at(links.is_acknowledged.as_slice(), place);
    let waits = waits(marks[place], links, seen);
    let early = leads_behind(links.is_acknowledged.as_slice(), place, went);
    let vain = leads_behind(links.goes_again.as_slice(), place, belongs);
    fate_by(waits, seen, went, again, acknowledged, early, vain)
}

// What is true of a command, by what leads from it.
fn fate_by(
    waits: bool,
    seen: Option<usize>,
    went: Option<usize>,
    again: Option<usize>,
    acknowledged: Option<usize>,
    early: bool,
    vain: bool,
) -> Fate
    ensures { result ≡ fate_by waits seen went again acknowledged early vain }
{
    Fate {
        waits,
        is_acknowledged: acknowledged.is_some(),
        goes_again: waits && again.is_some(),
        went_before: went.is_some(),
        is_early: early,
        is_in_vain: vain,
        was_seen: seen.is_some(),
    }
}

// Whether a command waits for an acknowledgement.
fn waits(mark: Mark, links: &Links, seen: Option<usize>) -> bool
    ensures { (marks : List Mark) → AreLinks marks links.now → result ≡ waits_as marks seen (Some mark) }
{
    mark.told.asks && seen.is_none() && !is_verified(mark, links)
}

// Whether it is a CONNECT that was answered.
fn is_verified(mark: Mark, links: &Links) -> bool
    ensures { (marks : List Mark) → AreLinks marks links.now → result ≡ is_verified marks mark }
{
    mark.told.kind.is(Kind::Connect)
        && match mark.way {
            Way::Right => links.is_verified_left,
            Way::Left => links.is_verified_right,
        }
}

// Whether a link leads to one that leads behind a place.
fn leads_behind(links: &[Option<usize>], place: usize, there: Option<usize>) -> bool
    ensures { result ≡ leads_behind (item links.now) place there }
{
    match there {
        None => false,
        Some(there) => is_behind(place, link_at(links, there)),
    }
}

fn is_behind(place: usize, other: Option<usize>) -> bool
    ensures { result ≡ is_behind place other }
{
    match other {
        None => false,
        Some(other) => place < other,
    }
}
