//! What stands at an arrow, and what is told of it where the pointer rests.

ghost use Rattle.std.specs.Prelude.{◌≡◌, ◌++◌, OnOk};
ghost use Rattle.std.specs.String.{string_bytes};
ghost use Rattle.enet_timeline.specs.Summaries.{seconds_text};

use enet_captured::{Detail, Kind, Mark, Seen, Timeline, Told};
use enet_codec::CONTROL_CHANNEL;
use std::alloc::{AllocError, Global};

/// The commands of a datagram have so many letters at most, but for the first.
const WIDTH: usize = 84;

/// So many commands of a datagram are told in full at most.
const COMMANDS: usize = 64;

/// What a datagram is called; nothing where its number does.
pub(crate) fn name_of(timeline: &Timeline, number: u64) -> &str {
    let Ok(place) = usize::try_from(number) else {
        return "";
    };
    match timeline.names.get(place) {
        Some(name) => name.as_str(),
        None => "",
    }
}

/// What a datagram is called, and its commands in short: the first, and of the others those that find room. The rest is counted.
pub(crate) fn label(
    alloc: Global,
    name: &str,
    seen: &Seen,
    marks: &[Mark],
) -> Result<String, AllocError> {
    let mut text = String::new(alloc);
    if !name.is_empty() {
        write!(text, "{name}: ")?;
    }
    let mut before = None;
    let mut left = marks.len();
    for mark in marks {
        let mut more = String::new(alloc);
        push_short(&mut more, before, mark.told)?;
        if before.is_some() && text.len().saturating_add(more.len()) > WIDTH {
            break;
        }
        text.push_str(more.as_str())?;
        before = Some(mark.told.kind);
        left = left.saturating_sub(1);
    }
    if left > 0 {
        write!(text, " +{left}")?;
    }
    if let Some(stop) = seen.stop {
        let label = stop.label();
        write!(text, "; {label}")?;
    }
    Ok(text)
}

// A command in short.
fn push_short(text: &mut String, before: Option<Kind>, told: Told) -> Result<(), AllocError> {
    push_name(text, before, told.kind)?;
    push_channel(text, told.channel)?;
    push_number(text, told)?;
    push_len(text, " (", ")", told.len)
}

// The name of a command, behind the one before it. Of acknowledgements that follow one another it stands once.
fn push_name(text: &mut String, before: Option<Kind>, kind: Kind) -> Result<(), AllocError> {
    let name = short_name(kind);
    match before {
        None => write!(text, "{name} "),
        Some(before) if is_acknowledgement(before) && is_acknowledgement(kind) => {
            text.push_str(" ")?;
            Ok(())
        }
        Some(_) => write!(text, ", {name} "),
    }
}

fn is_acknowledgement(kind: Kind) -> bool {
    matches!(kind, Kind::Acknowledge)
}

fn short_name(kind: Kind) -> &'static str {
    match kind {
        Kind::Acknowledge => "ack",
        Kind::Connect => "CONNECT",
        Kind::VerifyConnect => "VERIFY_CONNECT",
        Kind::Disconnect => "DISCONNECT",
        Kind::Ping => "ping",
        Kind::SendReliable => "reliable",
        Kind::SendUnreliable => "unreliable",
        Kind::SendFragment => "fragment",
        Kind::SendUnsequenced => "unsequenced",
        Kind::BandwidthLimit => "bandwidth",
        Kind::ThrottleConfigure => "throttle",
        Kind::SendUnreliableFragment => "unreliable fragment",
    }
}

// Its number, and what it has beside it.
fn push_number(text: &mut String, told: Told) -> Result<(), AllocError> {
    let number = told.number;
    match told.detail {
        Detail::Received {
            number: received,
            ..
        } => write!(text, "{received}"),
        Detail::Nothing | Detail::Offered(_) => write!(text, "{number}"),
        Detail::Unreliable(place) => write!(text, "{number}.{place}"),
        Detail::Group(group) => write!(text, "g{group}"),
        Detail::Piece {
            number: piece,
            count,
        } => {
            let piece = u64::from(piece) + 1;
            write!(text, "{number} {piece}/{count}")
        }
    }
}

/// A channel before a number: `c` for that of the connection itself.
pub(crate) fn push_channel(text: &mut String, channel: u8) -> Result<(), AllocError> {
    if channel == CONTROL_CHANNEL {
        text.push_str("c:")?;
        return Ok(());
    }
    write!(text, "{channel}:")
}

/// A datagram in full: its number, what it is called, its length, and each command by the name that ENet gives it.
pub(crate) fn title(
    alloc: Global,
    name: &str,
    seen: &Seen,
    marks: &[Mark],
) -> Result<String, AllocError> {
    let mut text = String::new(alloc);
    let number = seen.number;
    let len = seen.len;
    write!(text, "datagram {number}, ")?;
    if !name.is_empty() {
        write!(text, "{name}, ")?;
    }
    write!(text, "{len} bytes")?;
    for mark in marks.iter().take(COMMANDS) {
        text.push_str("\n")?;
        push_long(&mut text, mark.told)?;
    }
    Ok(text)
}

// A command by its name.
fn push_long(text: &mut String, told: Told) -> Result<(), AllocError> {
    let name = told.kind.name();
    let channel = told.channel;
    let number = told.number;
    write!(text, "{name} channel {channel} number {number}")?;
    push_detail(text, told.detail)?;
    push_len(text, " length ", "", told.len)
}

// What a command has beside its number.
fn push_detail(text: &mut String, detail: Detail) -> Result<(), AllocError> {
    match detail {
        Detail::Nothing => Ok(()),
        Detail::Received {
            number: received,
            time,
        } => write!(text, " received_number {received} received_time {time}"),
        Detail::Offered(id) => write!(text, " connect_id {id:08x}"),
        Detail::Unreliable(place) => write!(text, " unreliable {place}"),
        Detail::Group(group) => write!(text, " group {group}"),
        Detail::Piece { number, count } => write!(text, " fragment {number} count {count}"),
    }
}

// How many bytes a command carries, where it carries any.
fn push_len(text: &mut String, before: &str, behind: &str, len: usize) -> Result<(), AllocError> {
    if len == 0 {
        return Ok(());
    }
    write!(text, "{before}{len}{behind}")
}

/// Microseconds as seconds, with six digits behind the point.
pub(crate) fn push_seconds(text: &mut String, microseconds: u64) -> Result<(), AllocError>
    ensures { OnOk result (string_bytes text.new ≡ string_bytes text.old ++ seconds_text microseconds) }
{
    let whole = microseconds / 1_000_000;
    let first = microseconds / 100_000 % 10;
    let second = microseconds / 10_000 % 10;
    let third = microseconds / 1_000 % 10;
    let fourth = microseconds / 100 % 10;
    let fifth = microseconds / 10 % 10;
    let sixth = microseconds % 10;
    write!(text, "{whole}.{first}{second}{third}{fourth}{fifth}{sixth}")
}
