//! What the commands of a connection have to do with one another: which were seen before, which go again, and what acknowledges them.

ghost use Rattle.std.specs.Prelude.{◌≡◌, ◌<◌, length, if◌then◌else◌, map, nat_le, IfOk, OnOk};
ghost use Rattle.std.specs.List.{list_any};
ghost use Rattle.enet_captured.specs.Fates.{verifies};
ghost use Rattle.enet_captured.specs.Sends.{acknowledged_key, asks_on, at, command_key, first_to, is_key, key_at_time, key_of, last_of, near, new_at, seen_before, send_key, turn, unless_seen};
ghost use Rattle.enet_captured.specs.Private.Tables.{AreLinks, IsTable, Leads, Puts, by_way, item, looked_up, turn_at};

use crate::timeline::{Mark, Way};
use crate::told::{Detail, Kind};
use std::alloc::{AllocError, Global};
use std::collections::BTreeMap;

/// Among so many commands of a connection that ask for an acknowledgement and go one way, one is sought that went before.
const REACH: usize = 4096;

/// What a command goes by: the number of its way, its channel, its number, and a time.
type Key = (u8, u8, u16, u16);

/// What leads from the commands of a connection to others of them, by their places.
#[derive(Drop)]
pub(crate) struct Links {
    /// The same send, in the same datagram seen before.
    pub seen_before: Vec<Option<usize>>,
    /// The send that it repeats.
    pub went_before: Vec<Option<usize>>,
    /// The send that it acknowledges.
    pub belongs_to: Vec<Option<usize>>,
    /// The first send that repeats it.
    pub goes_again: Vec<Option<usize>>,
    /// The first that acknowledges it.
    pub is_acknowledged: Vec<Option<usize>>,
    /// Whether a VERIFY_CONNECT goes to the right, and to the left.
    pub is_verified_right: bool,
    pub is_verified_left: bool,
}

/// What leads from the commands of a connection, which stand in order, to others of them. An error where there is no memory for it.
pub(crate) fn links_of(alloc: Global, marks: &[Mark]) -> Result<Links, AllocError>
    ensures { IfOk result (AreLinks marks.now) }
{
    let turns = turns_of(alloc, marks)?;
    let sends = keys_of_sends(alloc, marks)?;
    let seen_before = near_places(alloc, sends.as_slice(), turns.as_slice())?;
    let commands = keys_of_commands(alloc, marks)?;
    let commands = new_keys(alloc, commands.as_slice(), seen_before.as_slice())?;
    let went_before = near_places(alloc, commands.as_slice(), turns.as_slice())?;
    let sends = new_keys(alloc, sends.as_slice(), seen_before.as_slice())?;
    let acknowledged = acknowledged_keys(alloc, marks)?;
    let belongs_to = last_places(alloc, sends.as_slice(), acknowledged.as_slice())?;
    let goes_again = first_places(alloc, went_before.as_slice())?;
    let is_acknowledged = first_places(alloc, belongs_to.as_slice())?;
    Ok(Links {
        seen_before,
        went_before,
        belongs_to,
        goes_again,
        is_acknowledged,
        is_verified_right: is_verified(marks, Way::Right),
        is_verified_left: is_verified(marks, Way::Left),
    })
}

// Whether a VERIFY_CONNECT goes one way.
fn is_verified(marks: &[Mark], way: Way) -> bool
    ensures { result ≡ list_any (verifies way) marks.now }
{
    marks.iter().any(|mark| mark.told.kind.is(Kind::VerifyConnect) && mark.way.is(way))
}

fn keys_of_sends(alloc: Global, marks: &[Mark]) -> Result<Vec<Option<Key>>, AllocError>
    ensures { IfOk result (λ found. found.items ≡ map send_key marks.now) }
{
    marks.iter().map(|mark| send_key(*mark)).collect(alloc)
}

fn keys_of_commands(alloc: Global, marks: &[Mark]) -> Result<Vec<Option<Key>>, AllocError>
    ensures { IfOk result (λ found. found.items ≡ map command_key marks.now) }
{
    marks.iter().map(|mark| command_key(*mark)).collect(alloc)
}

fn acknowledged_keys(alloc: Global, marks: &[Mark]) -> Result<Vec<Option<Key>>, AllocError>
    ensures { IfOk result (λ found. found.items ≡ map acknowledged_key marks.now) }
{
    marks
        .iter()
        .map(|mark| acknowledged_key(*mark))
        .collect(alloc)
}

// What a send goes by.
fn send_key(mark: Mark) -> Option<Key>
    ensures { result ≡ send_key mark }
{
    if !mark.told.asks {
        return None;
    }
    match mark.sent {
        None => None,
        Some(time) => Some((mark.way.number(), mark.told.channel, mark.told.number, time)),
    }
}

// What it goes by at whatever time it is sent.
fn command_key(mark: Mark) -> Option<Key>
    ensures { result ≡ command_key mark }
{
    if !mark.told.asks {
        return None;
    }
    Some((mark.way.number(), mark.told.channel, mark.told.number, 0))
}

// What the send goes by that a command acknowledges.
fn acknowledged_key(mark: Mark) -> Option<Key>
    ensures { result ≡ acknowledged_key mark }
{
    match mark.told.detail {
        Detail::Received { number, time } => Some((
            mark.way.other().number(),
            mark.told.channel,
            number,
            time,
        )),
        Detail::Nothing | Detail::Offered(_) | Detail::Unreliable(_) => None,
        Detail::Group(_) | Detail::Piece { .. } => None,
    }
}

// For each command, how many before it ask for an acknowledgement and go its way.
fn turns_of(alloc: Global, marks: &[Mark]) -> Result<Vec<usize>, AllocError>
    ensures { IfOk result (λ turns. IsTable (turn marks.now) (length marks.now) turns.items) }
{
    let mut turns = Vec::new(alloc);
    let mut right = 0usize;
    let mut left = 0usize;
    for mark in marks {
        turns.push(by_way(mark.way, right, left))?;
        right += counted(*mark, Way::Right);
        left += counted(*mark, Way::Left);
    }
    Ok(turns)
}

// Which of two numbers is of a way.
fn by_way(way: Way, right: usize, left: usize) -> usize
    ensures { result ≡ by_way way right left }
{
    match way {
        Way::Right => right,
        Way::Left => left,
    }
}

// One for a command that asks for an acknowledgement and goes this way.
fn counted(mark: Mark, way: Way) -> usize
    ensures { result ≡ (if asks_on way mark then 1 else 0) }
{
    if mark.told.asks && mark.way.is(way) {
        1
    } else {
        0
    }
}

// The keys of those that weren't seen before.
fn new_keys(
    alloc: Global,
    keys: &[Option<Key>],
    seen: &[Option<usize>],
) -> Result<Vec<Option<Key>>, AllocError>
    ensures { IfOk result (λ found. IsTable (λ place. unless_seen (item seen.now place) (item keys.now place)) (length keys.now) found.items) }
{
    let mut found = Vec::new(alloc);
    for place in 0..keys.len() {
        found.push(match link_at(seen, place) {
            Some(_) => None,
            None => key_at(keys, place),
        })?;
    }
    Ok(found)
}

// For each place, the last one before it with its key, if that is near.
fn near_places(
    alloc: Global,
    keys: &[Option<Key>],
    turns: &[usize],
) -> Result<Vec<Option<usize>>, AllocError>
    ensures { IfOk result (λ found. IsTable (λ place. near (turn_at turns.now) place (last_of (item keys.now) (item keys.now place) place)) (length keys.now) found.items) }
{
    let last = last_places(alloc, keys, keys)?;
    let mut found = Vec::new(alloc);
    for place in 0..last.len() {
        found.push(near_place(turns, place, last[place]))?;
    }
    Ok(found)
}

// A place before another, if it is near.
fn near_place(turns: &[usize], place: usize, before: Option<usize>) -> Option<usize>
    ensures { result ≡ near (turn_at turns.now) place before }
{
    match before {
        None => None,
        Some(before) => {
            if turn_at(turns, place).saturating_sub(turn_at(turns, before)) <= REACH {
                Some(before)
            } else {
                None
            }
        }
    }
}

fn turn_at(turns: &[usize], place: usize) -> usize
    ensures { result ≡ turn_at turns.now place }
{
    turns.get(place).copied().unwrap_or(0)
}

// For each place, the last one before it that has the key which is asked for there.
fn last_places(
    alloc: Global,
    keys: &[Option<Key>],
    asked: &[Option<Key>],
) -> Result<Vec<Option<usize>>, AllocError>
    ensures { IfOk result (λ found. IsTable (λ place. last_of (item keys.now) (item asked.now place) place) (length keys.now) found.items) }
{
    let mut last = BTreeMap::new(alloc);
    let mut found = Vec::new(alloc);
    for place in 0..keys.len() {
        found.push(look_up(&last, key_at(asked, place)))?;
        put(&mut last, key_at(keys, place), place)?;
    }
    Ok(found)
}

fn key_at(keys: &[Option<Key>], place: usize) -> Option<Key>
    ensures { result ≡ item keys.now place }
{
    match keys.get(place) {
        Some(key) => *key,
        None => None,
    }
}

fn look_up(last: &BTreeMap<Key, usize>, key: Option<Key>) -> Option<usize>
    ensures { result ≡ looked_up last.now key }
{
    match key {
        None => None,
        Some(key) => last.get(&key).copied(),
    }
}

fn put(last: &mut BTreeMap<Key, usize>, key: Option<Key>, place: usize) -> Result<(), AllocError>
    ensures { OnOk result (Puts last.old last.new key place) }
{
    if let Some(key) = key {
        last.insert(key, place)?;
    }
    Ok(())
}

// For each place, the first one whose link leads to it.
fn first_places(alloc: Global, links: &[Option<usize>]) -> Result<Vec<Option<usize>>, AllocError>
    ensures { IfOk result (λ found. IsTable (λ place. first_to (item links.now) place (length links.now)) (length links.now) found.items) }
{
    let mut found = vec![in alloc; None; links.len()]?;
    for place in 0..links.len() {
        lead(&mut found, link_at(links, place), place);
    }
    Ok(found)
}

// Notes the place from which a link leads, where none is noted.
fn lead(found: &mut Vec<Option<usize>>, link: Option<usize>, place: usize)
    ensures { Leads found.old.items found.new.items link place }
{
    if let Some(target) = link {
        if target < found.len() && found[target].is_none() {
            found[target] = Some(place);
        }
    }
}

/// The link at a place; none where there is no such place.
pub(crate) fn link_at(links: &[Option<usize>], place: usize) -> Option<usize>
    ensures { result ≡ item links.now place }
{
    match links.get(place) {
        Some(link) => *link,
        None => None,
    }
}
