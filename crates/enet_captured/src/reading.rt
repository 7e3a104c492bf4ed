//! The commands of a datagram.

ghost use Rattle.std.specs.Prelude.{◌≡◌, ◌≤◌, ◌++◌, List, length, drop, IfOk};
ghost use Rattle.enet_captured.specs.declared.told.Told.{Told};
ghost use Rattle.enet_captured.specs.Private.Readings.{Says, SaysRest, SaysSent};

use crate::told::{Told, told_of};
use enet_codec::{Stop, read_command, read_header};
use enet_text::why_unread;
use std::alloc::AllocError;

/// Puts the commands of a datagram behind those that are there, in order, and gives why what stands behind them can't be read: None where
/// nothing does. An error where there is no memory for them.
pub(crate) fn read_commands(
    told: &mut Vec<Told>,
    datagram: &[u8],
) -> Result<Option<Stop>, AllocError>
    ensures { IfOk result (λ why. (said : List Told) × (told.new.items ≡ told.old.items ++ said) × Says datagram.now said why) }
{
    let Some((header, len)) = read_header(datagram) else {
        return Ok(Some(why_unread(datagram)));
    };
    if header.compressed {
        return Ok(Some(Stop::Compressed));
    }
    read_rest(told, datagram, len)
}

/// The sent time in a datagram's header, if it has one.
pub(crate) fn sent_in(datagram: &[u8]) -> Option<u16>
    ensures { SaysSent datagram.now result }
{
    match read_header(datagram) {
        None => None,
        Some((header, _)) => header.sent,
    }
}

// The commands that stand behind the header, which ends at a place.
fn read_rest(
    told: &mut Vec<Told>,
    datagram: &[u8],
    header: usize,
) -> Result<Option<Stop>, AllocError>
    requires { header ≤ length datagram.now }
    ensures { IfOk result (λ why. (said : List Told) × (told.new.items ≡ told.old.items ++ said) × SaysRest (drop header datagram.now) said why) }
{
    let mut place = header;
    while place < datagram.len() {
        let rest = bytes_after(datagram, place);
        let Some((command, len)) = read_command(rest) else {
            return Ok(Some(Stop::BadCommand));
        };
        told.push(told_of(&command))?;
        place += len;
    }
    Ok(None)
}

// The bytes from a place on.
fn bytes_after(bytes: &[u8], place: usize) -> &[u8]
    requires { place ≤ length bytes.now }
    ensures { result.now ≡ drop place bytes.now }
{
    &bytes[place..]
}
