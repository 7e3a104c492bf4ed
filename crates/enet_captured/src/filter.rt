//! What of a capture is asked for.

ghost use Rattle.std.specs.Prelude.{◌≡◌, ◌++◌, ◌∷◌, [], ◌||◌, ◌&&◌, ◌-◌, if◌then◌else◌, ℕ, IfOk, OnOk, filter};
ghost use Rattle.enet_captured.specs.Filters.{has_channel, is_asked, is_from, is_on, is_up_to, is_within, mark_passes, seen_passes};
ghost use Rattle.enet_captured.specs.Private.Numbers.{AreOn, goes_on, noted};

use crate::timeline::{Mark, Seen};
use std::alloc::{AllocError, Global};
use std::collections::BTreeMap;

/// What is asked for: of what isn't named, all.
#[derive(Clone, Copy)]
pub struct Filter {
    /// The number of a connection.
    pub connection: Option<usize>,
    /// The channel of commands.
    pub channel: Option<u8>,
    /// From so many microseconds after the capture's beginning on.
    pub from: Option<u64>,
    /// Up to so many.
    pub to: Option<u64>,
}

impl Filter {
    /// Whether a connection is asked for.
    pub(crate) fn takes(self, index: usize) -> bool
        ensures { result ≡ is_asked self.connection index }
    {
        match self.connection {
            None => true,
            Some(asked) => index == asked,
        }
    }

    // Whether a channel is asked for.
    fn takes_channel(self, channel: u8) -> bool
        ensures { result ≡ is_asked self.channel channel }
    {
        match self.channel {
            None => true,
            Some(asked) => channel == asked,
        }
    }

    // Whether a time is asked for.
    fn is_within(self, time: u64) -> bool
        ensures { result ≡ is_within self time }
    {
        is_from(self.from, time) && is_up_to(self.to, time)
    }

    // Whether a command passes.
    fn passes(self, begun: u64, mark: Mark) -> bool
        ensures { result ≡ mark_passes self begun mark }
    {
        self.takes_channel(mark.told.channel) && self.is_within(mark.at.saturating_sub(begun))
    }
}

fn is_from(first: Option<u64>, time: u64) -> bool
    ensures { result ≡ is_from first time }
{
    match first {
        None => true,
        Some(first) => first <= time,
    }
}

fn is_up_to(last: Option<u64>, time: u64) -> bool
    ensures { result ≡ is_up_to last time }
{
    match last {
        None => true,
        Some(last) => time <= last,
    }
}

/// The commands that pass, in order. An error where there is no memory for them.
pub(crate) fn marks_passing(
    alloc: Global,
    marks: &[Mark],
    asked: Filter,
    begun: u64,
) -> Result<Vec<Mark>, AllocError>
    ensures { IfOk result (λ found. found.items ≡ filter (mark_passes asked begun) marks.now) }
{
    marks
        .iter()
        .filter(|mark| asked.passes(begun, **mark))
        .copied()
        .collect(alloc)
}

/// The datagrams that pass, in order, by all commands of their connection. An error where there is no memory for them.
pub(crate) fn seen_passing(
    alloc: Global,
    seen: &[Seen],
    marks: &[Mark],
    asked: Filter,
    begun: u64,
) -> Result<Vec<Seen>, AllocError>
    ensures { IfOk result (λ found. found.items ≡ filter (seen_passes asked begun marks.now) seen.now) }
{
    let numbers = numbers_on(alloc, marks, asked.channel)?;
    let mut found = Vec::new(alloc);
    for place in 0..seen.len() {
        let one = seen[place];
        let passes = seen_passes(&numbers, asked, begun, one);
        keep(&mut found, one, passes)?;
    }
    Ok(found)
}

// Whether a datagram passes, where these numbers have the channel that is asked for.
fn seen_passes(numbers: &BTreeMap<u64, bool>, asked: Filter, begun: u64, one: Seen) -> bool
    ensures { result ≡ (is_within asked (one.at - begun) && goes_on numbers.now asked.channel one.number) }
{
    asked.is_within(one.at.saturating_sub(begun)) && goes_on(numbers, asked.channel, one.number)
}

// Puts a datagram behind the others if it passes.
fn keep(found: &mut Vec<Seen>, one: Seen, passes: bool) -> Result<(), AllocError>
    ensures { OnOk result (found.new.items ≡ found.old.items ++ (if passes then one ∷ [] else [])) }
{
    if passes {
        found.push(one)?;
    }
    Ok(())
}

// Whether a datagram has a command of the channel that is asked for.
fn goes_on(numbers: &BTreeMap<u64, bool>, channel: Option<u8>, number: u64) -> bool
    ensures { result ≡ goes_on numbers.now channel number }
{
    match channel {
        None => true,
        Some(_) => numbers.get(&number).copied().unwrap_or(false),
    }
}

// The numbers of the datagrams that have a command of the channel that is asked for, where one is.
fn numbers_on(
    alloc: Global,
    marks: &[Mark],
    channel: Option<u8>,
) -> Result<BTreeMap<u64, bool>, AllocError>
    ensures { IfOk result (λ numbers. (number : ℕ) → goes_on numbers channel number ≡ has_channel channel marks.now number) }
{
    match channel {
        None => Ok(BTreeMap::new(alloc)),
        Some(channel) => numbers_of(alloc, marks, channel),
    }
}

fn numbers_of(alloc: Global, marks: &[Mark], channel: u8) -> Result<BTreeMap<u64, bool>, AllocError>
    ensures { IfOk result (λ numbers. AreOn channel marks.now numbers) }
{
    let mut numbers = BTreeMap::new(alloc);
    for place in 0..marks.len() {
        note(&mut numbers, marks[place], channel)?;
    }
    Ok(numbers)
}

// Notes the datagram of a command of the channel.
fn note(numbers: &mut BTreeMap<u64, bool>, mark: Mark, channel: u8) -> Result<(), AllocError>
    ensures { OnOk result ((number : ℕ) → noted numbers.new number ≡ (noted numbers.old number || is_on channel number mark)) }
{
    if mark.told.channel == channel {
        numbers.insert(mark.datagram, true)?;
    }
    Ok(())
}
