//! Text in quotes, as body.rt writes it. A byte from 32 on stands for itself, but for the quote and the backslash. Behind a backslash `t`
//! stands for a tab, `n` for a line feed, `r` for a carriage return, `0` for a zero, a quote or a backslash for itself, and `x` with two hex
//! digits of either case for any byte.

ghost use Rattle.std.specs.Prelude.{◌≡◌, ◌<◌, length, None, IfOk, IfSome};
ghost use Rattle.hex.specs.Hex.{hex_digit_value};
ghost use Rattle.enet_text.specs.Words.{escape_of, unquoted, letter as first, escape as behind_backslash, high as first_digit};
ghost use Rattle.enet_text.specs.Private.Pieces.{LeadsOn, ended};

use bytes::Bytes;
use std::alloc::{AllocError, Global};

/// The bytes that stand in quotes, by what stands behind the quote that begins them; None where that isn't such a text, up to a quote that is
/// the last byte. An error where there is no memory for them.
pub(crate) fn unquoted(alloc: Global, text: &[u8]) -> Result<Option<Bytes>, AllocError>
    ensures { IfOk result (λ read. read ≡ unquoted first text.now) }
{
    let mut bytes = Vec::with_capacity(alloc, text.len())?;
    let mut rest = text;
    while let Some((byte, behind)) = letter(rest) {
        bytes.push(byte)?;
        rest = behind;
    }
    if rest == b"\"".as_slice() {
        Ok(Some(Bytes::from_vec(bytes)?))
    } else {
        Ok(None)
    }
}

// The byte that is spelled first, and what stands behind it.
fn letter(text: &[u8]) -> Option<(u8, &[u8])>
    ensures reads { LeadsOn first text.now (ended text.now) result }
    ensures less { IfSome result (λ read. length read.1.now < length text.now) }
{
    let (first, rest) = text.split_first()?;
    let byte = *first;
    if byte == b'"' {
        return None;
    }
    if byte < b' ' {
        return None;
    }
    if byte == b'\\' {
        return escape(rest);
    }
    Some((byte, rest))
}

// The same behind a backslash.
fn escape(text: &[u8]) -> Option<(u8, &[u8])>
    ensures reads { LeadsOn behind_backslash text.now None result }
    ensures less { IfSome result (λ read. length read.1.now < length text.now) }
{
    let (letter, rest) = text.split_first()?;
    if *letter == b'x' {
        return hex_byte(rest);
    }
    Some((escape_of(*letter)?, rest))
}

// The same behind a backslash and `x`.
fn hex_byte(text: &[u8]) -> Option<(u8, &[u8])>
    ensures reads { LeadsOn first_digit text.now None result }
    ensures less { IfSome result (λ read. length read.1.now < length text.now) }
{
    let (high, rest) = text.split_first()?;
    let (low, rest) = rest.split_first()?;
    let high = hex_digit(*high)?;
    let low = hex_digit(*low)?;
    Some((16 * high + low, rest))
}

fn escape_of(letter: u8) -> Option<u8>
    ensures { result ≡ escape_of letter }
{
    match letter {
        b't' => Some(b'\t'),
        b'n' => Some(b'\n'),
        b'r' => Some(b'\r'),
        b'0' => Some(0),
        b'"' => Some(b'"'),
        b'\\' => Some(b'\\'),
        _ => None,
    }
}

fn hex_digit(letter: u8) -> Option<u8>
    ensures value { result ≡ hex_digit_value letter }
    ensures bound { IfSome result (λ value. value < 16) }
{
    match letter {
        b'0'..=b'9' => Some(letter - b'0'),
        b'a'..=b'f' => Some(letter - b'a' + 10),
        b'A'..=b'F' => Some(letter - b'A' + 10),
        _ => None,
    }
}
