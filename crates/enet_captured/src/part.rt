//! What of a timeline passes a filter, connection by connection.

ghost use Rattle.std.specs.Prelude.{◌≡◌, ◌<◌, ◌++◌, List, length, filter, IfOk, OnOk};
ghost use Rattle.enet_captured.specs.declared.part.Part.{Part};
ghost use Rattle.enet_captured.specs.Filters.{seen_passes};
ghost use Rattle.enet_captured.specs.Parts.{AreParts, IsPart, IsTold, mark_in, seen_in};

use crate::delays::{Delays, delays_to};
use crate::fates::{Marked, mark_by};
use crate::filter::{Filter, marks_passing, seen_passing};
use crate::sends::links_of;
use crate::timeline::{Connection, Mark, Seen, Timeline, Way};
use std::alloc::{AllocError, Global};

/// What of a connection passes a filter.
#[derive(Drop)]
pub struct Part {
    /// Its number.
    pub index: usize,
    pub connection: Connection,
    /// Its datagrams that pass, in order.
    pub seen: Vec<Seen>,
    /// Its commands that pass, in order.
    pub marks: Vec<Mark>,
    /// These datagrams with what became of them, as all commands of the connection tell.
    pub marked: Vec<Marked>,
    /// How soon what goes to the right is acknowledged, as all commands of the connection tell.
    pub right: Delays,
    /// How soon what goes to the left is.
    pub left: Delays,
}

/// What passes a filter of each connection that it asks for and of which a datagram passes, in order. An error where there is no memory for it.
pub fn parts_of(alloc: Global, timeline: &Timeline, asked: Filter) -> Result<Vec<Part>, AllocError>
    ensures { IfOk result (λ parts. AreParts timeline.now asked (length timeline.now.connections.items) parts.items) }
{
    let mut parts = Vec::new(alloc);
    for index in 0..timeline.connections.len() {
        push_part(alloc, &mut parts, timeline, asked, index)?;
    }
    Ok(parts)
}

// Puts what passes of a connection behind the others, where it is shown.
fn push_part(
    alloc: Global,
    parts: &mut Vec<Part>,
    timeline: &Timeline,
    asked: Filter,
    index: usize,
) -> Result<(), AllocError>
    requires { index < length timeline.now.connections.items }
    ensures { OnOk result ((more : List Part) × (parts.new.items ≡ parts.old.items ++ more) × IsTold timeline.now asked index more) }
{
    if !asked.takes(index) {
        return Ok(());
    }
    let part = part_of(alloc, timeline, asked, index)?;
    if part.seen.as_slice().is_empty() {
        return Ok(());
    }
    parts.push(part)?;
    Ok(())
}

// What passes of the connection of this number.
fn part_of(
    alloc: Global,
    timeline: &Timeline,
    asked: Filter,
    index: usize,
) -> Result<Part, AllocError>
    requires { index < length timeline.now.connections.items }
    ensures { IfOk result (IsPart timeline.now asked index) }
{
    let all = marks_of(alloc, timeline.marks.as_slice(), index)?;
    let seen = seen_of(alloc, timeline, asked, index, all.as_slice())?;
    let marks = marks_passing(alloc, all.as_slice(), asked, timeline.begun)?;
    let links = links_of(alloc, all.as_slice())?;
    let marked = mark_by(alloc, seen.as_slice(), all.as_slice(), &links)?;
    let right = delays_to(all.as_slice(), &links, Way::Right);
    let left = delays_to(all.as_slice(), &links, Way::Left);
    let connection = timeline.connections[index];
    Ok(Part {
        index,
        connection,
        seen,
        marks,
        marked,
        right,
        left,
    })
}

// The datagrams of a connection that pass, by all its commands.
fn seen_of(
    alloc: Global,
    timeline: &Timeline,
    asked: Filter,
    index: usize,
    marks: &[Mark],
) -> Result<Vec<Seen>, AllocError>
    ensures { IfOk result (λ found. found.items
        ≡ filter (seen_passes asked timeline.now.begun marks.now) (filter (seen_in index) timeline.now.seen.items)) }
{
    let all = seen_in(alloc, timeline.seen.as_slice(), index)?;
    seen_passing(alloc, all.as_slice(), marks, asked, timeline.begun)
}

fn seen_in(alloc: Global, seen: &[Seen], index: usize) -> Result<Vec<Seen>, AllocError>
    ensures { IfOk result (λ found. found.items ≡ filter (seen_in index) seen.now) }
{
    seen.iter()
        .filter(|seen| seen.connection == index)
        .copied()
        .collect(alloc)
}

fn marks_of(alloc: Global, marks: &[Mark], index: usize) -> Result<Vec<Mark>, AllocError>
    ensures { IfOk result (λ found. found.items ≡ filter (mark_in index) marks.now) }
{
    marks
        .iter()
        .filter(|mark| mark.connection == index)
        .copied()
        .collect(alloc)
}
