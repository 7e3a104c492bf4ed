//! The greatest numbers that an end of a connection has sent, by channel.

ghost use Rattle.std.specs.Prelude.{◌≡◌, ◌+◌, ◌≤◌, ◌<◌, ◌^◌, [], length, map, vec_len, vec_capacity};
ghost use Rattle.law_network.specs.Log.{greatest_at, counted, counted_all, reached};
ghost use Rattle.law_network.specs.Marks.{Counts};
ghost use Rattle.enet_site.specs.Records.{AreBelow};

use crate::marks::read_marks;
use enet_seq::ahead;
use law_network::{Mark, MarkKind};

/// The greatest number sent on a channel.
pub(crate) fn greatest_at(greatest: &[u128], channel: u8) -> u128
    ensures { result ≡ greatest_at greatest.now channel }
{
    match greatest.get(usize::from(channel)) {
        Some(number) => *number,
        None => 0,
    }
}

/// Counts a command that is put out: a number less than 32,768 ahead of the greatest of its channel is sent for the first time,
/// whatever numbers were dropped unsent in between.
fn count(greatest: &mut [u128], mark: Mark)
    requires room { AreBelow (2 ^ 127) greatest.old }
    ensures { greatest.new ≡ counted greatest.old mark }
{
    let i = usize::from(mark.channel);
    if mark.kind == MarkKind::Acknowledgement || i >= greatest.len() {
        return;
    }
    let number = &mut greatest[i];
    let distance = ahead((*number % 65536) as u16, mark.number);
    if distance < 32_768 {
        *number += u128::from(distance);
    }
}

/// Counts the commands of a datagram that is put out.
fn count_all(greatest: &mut [u128], marks: &[Mark])
    requires few { length marks.now ≤ 32 }
    requires room { AreBelow (2 ^ 126) greatest.old }
    ensures { greatest.new ≡ counted_all greatest.old marks.now }
{
    for mark in marks {
        count(greatest, *mark);
    }
}

/// A mark with how far its number's end has come.
fn reached(mark: Mark, own: &[u128], other: &[u128]) -> Mark
    ensures { result ≡ reached own.now other.now mark }
{
    let greatest = match mark.kind {
        MarkKind::Acknowledgement => other,
        MarkKind::Data | MarkKind::Control => own,
    };
    Mark {
        sent_then: greatest_at(greatest, mark.channel),
        ..mark
    }
}

/// Notes in the marks of a datagram how far its numbers have come: at its own end for its commands, and at the other for what
/// it acknowledges.
fn note_reach(marks: &mut [Mark], own: &[u128], other: &[u128])
    ensures { marks.new ≡ map (reached own.now other.now) marks.old }
{
    for mark in marks.iter_mut() {
        *mark = reached(*mark, own, other);
    }
}

/// Counts the commands of a datagram that is put out, and gives their marks, in a vector that has room for them.
pub(crate) fn marks_of(text: &[u8], room: Vec<Mark>, own: &mut [u128], other: &[u128]) -> Vec<Mark>
    requires room { vec_len room + 32 ≤ vec_capacity room }
    requires empty { room.items ≡ [] }
    requires below { AreBelow (2 ^ 126) own.old }
    ensures { Counts text.now own.old own.new other.now result.items }
{
    let mut marks = room;
    read_marks(text, &mut marks);
    marks.shrink_to_fit();
    count_all(own, &marks);
    note_reach(&mut marks, own, other);
    marks
}
