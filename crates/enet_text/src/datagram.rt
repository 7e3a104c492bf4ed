//! The text of a datagram.

ghost use Rattle.std.specs.Prelude.{◌≡◌, ◌≤◌, ◌++◌, drop, length, List, ℕ, IfOk, OnOk};
ghost use Rattle.std.specs.String.{string_bytes};
ghost use Rattle.enet_text.specs.Described.{Describes, Tells, is_compressed, why_unread};

use crate::body::Bodies;
use crate::texts::{push_command_line, push_header_line, push_stop_line};
use enet_codec::{Stop, read_command, read_header};
use std::alloc::{AllocError, Global};

/// The bit of the first byte that says that the datagram is compressed.
const COMPRESSED: u8 = 0x40;

/// What a datagram says, a line for its header and one for each command, each ended by a line feed. Where the rest can't be read, the
/// last line says why: `S1 Short`, `S2 Compressed` or `S6 BadCommand`, from which byte on, and these bytes in hex. An error where there
/// is no memory for the text.
pub fn describe(alloc: Global, bodies: Bodies, datagram: &[u8]) -> Result<String, AllocError>
    ensures { IfOk result (λ text. Describes bodies datagram.now (string_bytes text)) }
{
    let mut text = String::with_capacity(alloc, datagram.len().saturating_mul(2))?;
    push_description(&mut text, bodies, datagram)?;
    Ok(text)
}

/// What `describe` gives, put behind the text that is there. An error where there is no memory for it.
pub(crate) fn push_description(
    text: &mut String,
    bodies: Bodies,
    datagram: &[u8],
) -> Result<(), AllocError>
    ensures { OnOk result ((told : List ℕ) × (string_bytes text.new ≡ string_bytes text.old ++ told) × Describes bodies datagram.now told) }
{
    let Some((header, len)) = read_header(datagram) else {
        return push_stop_line(text, why_unread(datagram), 0, datagram);
    };
    push_header_line(text, &header)?;
    if header.compressed {
        return push_stop_line(text, Stop::Compressed, len, bytes_after(datagram, len));
    }
    push_commands(text, bodies, datagram, len)
}

/// Why a datagram can't be read at whose front no header stands: `S2 Compressed` where it says that it is compressed, else `S1 Short`.
pub fn why_unread(datagram: &[u8]) -> Stop
    ensures { result ≡ why_unread datagram.now }
{
    if datagram.len() < 2 {
        return Stop::Short;
    }
    if is_compressed(datagram) {
        Stop::Compressed
    } else {
        Stop::Short
    }
}

fn is_compressed(datagram: &[u8]) -> bool
    requires { 2 ≤ length datagram.now }
    ensures { result ≡ is_compressed datagram.now }
{
    datagram[0] & COMPRESSED != 0
}

// The lines of all that stands behind the header, which ends at a place.
fn push_commands(
    text: &mut String,
    bodies: Bodies,
    datagram: &[u8],
    header: usize,
) -> Result<(), AllocError>
    requires { header ≤ length datagram.now }
    ensures { OnOk result ((told : List ℕ) × (string_bytes text.new ≡ string_bytes text.old ++ told)
        × Tells bodies header (drop header datagram.now) told) }
{
    let mut place = header;
    while place < datagram.len() {
        let rest = bytes_after(datagram, place);
        let Some((command, len)) = read_command(rest) else {
            return push_stop_line(text, Stop::BadCommand, place, rest);
        };
        push_command_line(text, bodies, &command)?;
        place += len;
    }
    Ok(())
}

// The bytes from a place on.
fn bytes_after(bytes: &[u8], place: usize) -> &[u8]
    requires { place ≤ length bytes.now }
    ensures { result.now ≡ drop place bytes.now }
{
    &bytes[place..]
}
