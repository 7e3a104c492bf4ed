//! The marks of a datagram's commands, as its bytes spell them.

ghost use Rattle.std.specs.Prelude.{◌≡◌, ◌+◌, ◌≤◌, ◌<◌, [], ◌++◌, drop, length, option_to_list, vec_len, vec_capacity};
ghost use Rattle.enet_codec.specs.Message.{view};
ghost use Rattle.law_network.specs.Marks.{mark_as, mark_of, MarksOf, MarksIn};

use enet_codec::{Command, read_command, read_header};
use law_network::{Mark, MarkKind};

/// At most so many commands stand in a datagram that is put out, so it has at most so many marks.
pub const MAX_COMMANDS: usize = 32;

/// The mark of a command, before `sent_then` is noted. An unsequenced packet has none.
fn mark_of(command: &Command<'_>) -> Option<Mark>
    ensures { result ≡ mark_of (view command.now) }
{
    match *command {
        Command::Acknowledge {
            head,
            received_number,
            ..
        } => Some(mark_as(MarkKind::Acknowledgement, head.channel, received_number)),
        Command::SendReliable { head, .. }
        | Command::SendUnreliable { head, .. }
        | Command::SendFragment { head, .. }
        | Command::SendUnreliableFragment { head, .. } => {
            Some(mark_as(MarkKind::Data, head.channel, head.number))
        }
        Command::SendUnsequenced { .. } => None,
        Command::Connect { head, .. }
        | Command::VerifyConnect { head, .. }
        | Command::Disconnect { head, .. }
        | Command::Ping { head }
        | Command::BandwidthLimit { head, .. }
        | Command::ThrottleConfigure { head, .. } => {
            Some(mark_as(MarkKind::Control, head.channel, head.number))
        }
    }
}

fn mark_as(kind: MarkKind, channel: u8, number: u16) -> Mark
    ensures { result ≡ mark_as kind channel number }
{
    Mark {
        kind,
        channel,
        number,
        sent_then: 0,
    }
}

/// Adds the mark of a command, if it has one.
fn push_mark(marks: &mut Vec<Mark>, command: &Command<'_>)
    requires { vec_len marks.old < vec_capacity marks.old }
    ensures items { marks.new.items ≡ marks.old.items ++ option_to_list (mark_of (view command.now)) }
    ensures len { vec_len marks.new ≤ vec_len marks.old + 1 }
    ensures capacity { vec_capacity marks.new ≡ vec_capacity marks.old }
{
    if let Some(mark) = mark_of(command) {
        marks.push_reserved(mark);
    }
}

/// The bytes from a place on.
fn bytes_after(bytes: &[u8], place: usize) -> &[u8]
    requires { place ≤ length bytes.now }
    ensures { result.now ≡ drop place bytes.now }
{
    &bytes[place..]
}

/// Reads the marks of commands, for which there is room.
fn read_command_marks(commands: &[u8], marks: &mut Vec<Mark>)
    requires room { vec_len marks.old + 32 ≤ vec_capacity marks.old }
    requires empty { marks.old.items ≡ [] }
    ensures { MarksOf 32 commands.now marks.new.items }
{
    let mut rest = commands;
    for _command in 0..MAX_COMMANDS {
        let Some((command, len)) = read_command(rest) else {
            return;
        };
        push_mark(marks, &command);
        rest = bytes_after(rest, len);
    }
}

/// Reads the marks of a datagram's commands, for which there is room.
pub(crate) fn read_marks(text: &[u8], marks: &mut Vec<Mark>)
    requires room { vec_len marks.old + 32 ≤ vec_capacity marks.old }
    requires empty { marks.old.items ≡ [] }
    ensures { MarksIn text.now marks.new.items }
{
    if let Some((_header, len)) = read_header(text) {
        read_command_marks(bytes_after(text, len), marks);
    }
}
