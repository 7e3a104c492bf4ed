//! Whether a datagram comes too late.

ghost use Rattle.std.specs.Prelude.{◌≡◌};
ghost use Rattle.law_connection.specs.Link.{number_below};
ghost use Rattle.law_network.specs.Lateness.{is_late_command, has_late};
ghost use Rattle.law_network.specs.Log.{greatest_at};
ghost use Rattle.law_network.specs.Network.{numbers_in, end_of};

use crate::end::{End, numbers_of};
use crate::numbers::greatest_at;
use enet_seq::ahead;
use law_network::{Mark, MarkKind};

/// By how many numbers a command may be late.
const LATEST: u128 = 32_768;

/// The greatest number that has this wire number and is at most `sent_then`.
fn number_below(sent_then: u128, wire: u16) -> u128
    ensures { result ≡ number_below sent_then wire }
{
    sent_then.saturating_sub(u128::from(ahead(wire, (sent_then % 65536) as u16)))
}

/// Whether a command of a datagram of the sender is more than 32,768 numbers late at the taker.
fn is_late_command(mark: &Mark, sender: &[u128], taker: &[u128]) -> bool
    ensures { result ≡ is_late_command (greatest_at sender.now) (greatest_at taker.now) mark.now }
{
    let greatest = match mark.kind {
        MarkKind::Acknowledgement => taker,
        MarkKind::Data => sender,
        MarkKind::Control => return false,
    };
    let sent = greatest_at(greatest, mark.channel);
    sent.saturating_sub(number_below(mark.sent_then, mark.number)) > LATEST
}

/// Whether such a command is among those of a datagram. `sender` and `taker` are the greatest numbers that its connection's two
/// ends have sent, by channel.
fn has_late(marks: &[Mark], sender: &[u128], taker: &[u128]) -> bool
    ensures { result ≡ has_late (greatest_at sender.now) (greatest_at taker.now) marks.now }
{
    marks
        .iter()
        .any(|mark| is_late_command(mark, sender, taker))
}

/// Whether a datagram of this connection with these marks comes too late, by the ends of the host that put it out and of the
/// host that takes it in: a command of it is more than 32,768 numbers late.
pub fn comes_late(from: &[End], to: &[End], connection: u64, marks: &[Mark]) -> bool
    ensures { result ≡ has_late (greatest_at (numbers_in (end_of connection from.now))) (greatest_at (numbers_in (end_of connection to.now))) marks.now }
{
    let sender = numbers_of(from, connection);
    let taker = numbers_of(to, connection);
    has_late(marks, sender, taker)
}
