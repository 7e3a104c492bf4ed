//! How a command is written.

ghost use Rattle.std.specs.Prelude.{◌≡◌, ◌+◌, ◌<◌, ◌≤◌, IfSome, IfNone, if◌then◌else◌, length};
ghost use Rattle.enet_codec.specs.Message.{IsMessage, canonical};
ghost use Rattle.enet_codec.specs.Writing.{Puts};
ghost use Rattle.enet_fragment.specs.DataCommand.{message_of};
ghost use Rattle.enet_sender.specs.Sender.{bytes_of, is_more, price_of};
ghost use Rattle.enet_sender.specs.Due.{due_kind};
ghost use Rattle.enet_sender.specs.Private.Invariant.{IsShort};

use crate::Kind;
use enet_codec::{Head, write_command, write_reliable, write_unreliable};
use enet_fragment::DataCommand;

/// Whether a command is a further one of an unreliable packet.
pub(crate) fn is_more(command: &DataCommand) -> bool
    ensures { result ≡ is_more command.now }
{
    match command.fragment {
        None => false,
        Some(fragment) => !command.reliable && fragment.number > 0,
    }
}

/// How a command is carried.
pub(crate) fn due_kind(command: &DataCommand) -> Kind
    ensures { result ≡ due_kind command.now }
{
    if command.reliable {
        Kind::Reliable
    } else if is_more(command) {
        Kind::More
    } else {
        Kind::Begins
    }
}

/// What a datagram takes on the line beside ENet's own bytes: the headers of IP and UDP. A command's price is its payload and these, since it may
/// go alone (our profile).
pub(crate) const COVER: u32 = 28;

/// What a command counts in transit: the bytes of its payload, and its price. One that isn't reliable counts nothing.
pub(crate) fn counted(command: &DataCommand) -> (u32, u32)
    requires { IsShort command.now }
    ensures bytes { result.0 ≡ bytes_of command.now }
    ensures price { result.1 ≡ price_of command.now }
    ensures small { result.1 ≤ 4096 }
    ensures less { result.0 ≤ result.1 }
{
    if command.reliable {
        let bytes = command.body.len() as u32;
        (bytes, bytes + COVER)
    } else {
        (0, 0)
    }
}

/// Writes a command at a place, where it fits; of one that is a whole packet, as most are, no `Command` is made. It stays a function of
/// its own: as part of the loop that packs a channel, each look there prepares what it needs, also where nothing goes.
#[inline(never)]
pub(crate) fn put(buf: &mut [u8], at: usize, channel: u8, command: &DataCommand) -> Option<usize>
    requires { IsShort command.now }
    ensures some { IfSome result (λ past. Puts buf.old at (canonical (message_of channel command.now)) buf.new past) }
    ensures message { IfSome result (λ past. IsMessage (message_of channel command.now)) }
    ensures none { IfNone result (buf.new ≡ buf.old) }
    ensures room { IfNone result (length buf.old < at + length (canonical (message_of channel command.now))) }
{
    if command.fragment.is_some() {
        return write_command(buf, at, &command.command(channel));
    }
    let head = Head {
        acknowledge: command.reliable,
        unsequenced: false,
        channel,
        number: command.number,
    };
    let body = command.body.as_slice();
    if command.reliable {
        write_reliable(buf, at, head, body)
    } else {
        write_unreliable(buf, at, head, command.unreliable, body)
    }
}
