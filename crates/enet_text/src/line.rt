//! The lines of an input in hex.

ghost use Rattle.std.specs.Prelude.{◌≡◌, IfOk};
ghost use Rattle.enet_text.specs.Lines.{line_of};

use crate::{bytes_of, end, first_word};
use bytes::Bytes;
use std::alloc::{AllocError, Global};

/// What a line spells.
#[derive(Drop)]
pub enum Line {
    /// Nothing: it is blank, or begins with `#`.
    PassedOver,
    /// A datagram.
    Datagram(Bytes),
}

/// What a line spells: a datagram as one word of hex of either case, or `-` for none of its bytes, with spaces around it or none.
/// Blank lines and those that begin with `#` are passed over. None where it spells neither; an error where there is no memory for the
/// bytes.
pub fn read_line(alloc: Global, text: &[u8]) -> Result<Option<Line>, AllocError>
    ensures { IfOk result (λ read. read ≡ line_of text.now) }
{
    if text.starts_with(b"#") {
        return Ok(Some(Line::PassedOver));
    }
    let Some((only, rest)) = first_word(text) else {
        return Ok(Some(Line::PassedOver));
    };
    if end(rest).is_none() {
        return Ok(None);
    }
    match bytes_of(alloc, only)? {
        Some(bytes) => Ok(Some(Line::Datagram(bytes))),
        None => Ok(None),
    }
}
