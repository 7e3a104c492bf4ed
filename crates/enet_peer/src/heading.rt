//! What a datagram begins with, and the offer of one who has no peer yet.

ghost use Rattle.std.specs.Prelude.{◌≡◌, ◌≤◌, length, IfOk, IfErr, IfSome, IfNone};
ghost use Rattle.enet_peer.specs.Heading.{is_compressed, IsUnreadable, IsRead, IsOffer, IsNoOffer, offer_in};
ghost use Rattle.enet_codec.specs.Message.{view};

use crate::datagram::bytes_after;
use enet_codec::{Command, Header, Offer, Stop, read_command, read_header};

/// The bit of the first byte that says that the datagram is compressed.
const COMPRESSED: u8 = 0x40;

/// The header of a datagram, and all that stands behind it. S1 where the datagram has fewer than two bytes; S2 where it is
/// compressed; S1 where it tells of a sent time and has fewer than four bytes (ENet 1.3).
pub fn read_heading(bytes: &[u8]) -> Result<(Header, &[u8]), Stop>
    ensures refused { IfErr result (λ why. IsUnreadable bytes.now why) }
    ensures read { IfOk result (λ found. IsRead bytes.now found.0 found.1.now) }
{
    if bytes.len() < 2 {
        return Err(Stop::Short);
    }
    if is_compressed(bytes) {
        return Err(Stop::Compressed);
    }
    let Some((header, len)) = read_header(bytes) else {
        return Err(Stop::Short);
    };
    Ok((header, bytes_after(bytes, len)))
}

/// Whether the first byte says that the datagram is compressed.
fn is_compressed(bytes: &[u8]) -> bool
    requires { 2 ≤ length bytes.now }
    ensures { result ≡ is_compressed bytes.now }
{
    bytes[0] & COMPRESSED != 0
}

/// The offer of a datagram to nobody in particular: all that stands behind its header. None where that is anything but one
/// CONNECT and nothing else.
pub fn read_offer(commands: &[u8]) -> Option<Offer>
    ensures offer { IfSome result (λ o. IsOffer commands.now o) }
    ensures none { IfNone result (IsNoOffer commands.now) }
{
    let Some((command, len)) = read_command(commands) else {
        return None;
    };
    if len != commands.len() {
        return None;
    }
    offer_in(&command)
}

/// The offer of a CONNECT.
fn offer_in(command: &Command<'_>) -> Option<Offer>
    ensures { result ≡ offer_in (view command.now).body }
{
    match *command {
        Command::Connect { offer, .. } => Some(offer),
        _ => None,
    }
}
