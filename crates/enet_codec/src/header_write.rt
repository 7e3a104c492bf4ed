//! Writing a header.

ghost use Rattle.std.specs.Prelude.{◌≡◌, ℕ, ◌≤◌, ◌+◌, ◌<◌, ◌*◌, ◌^◌, ◌↔◌, ◌++◌, length, IfSome, IfNone, IsSome};
ghost use Rattle.enet_codec.specs.Message.{bit};
ghost use Rattle.enet_codec.specs.Header.{SpellsHeader, header_word, header_text, masked};
ghost use Rattle.enet_codec.specs.Writing.{Puts};

use crate::header::{COMPRESSED, Header, SENT_TIME};
use crate::write::put_u16;

// A mask, or 0.
fn flag(set: bool, mask: u16) -> u16
    ensures { result ≡ mask * bit set }
{
    if set { mask } else { 0 }
}

// The first word.
fn word_of(header: &Header) -> u16
    ensures { result ≡ header_word header.now }
{
    let sent = flag(header.sent.is_some(), SENT_TIME);
    let compressed = flag(header.compressed, COMPRESSED);
    sent | compressed | (header.session as u16 & 3) << 12 | header.peer & 0x0fff
}

// How many bytes the header takes.
fn len_of(header: &Header) -> usize
    ensures { result ≡ length (header_text header.now) }
{
    match header.sent {
        None => 2,
        Some(_) => 4,
    }
}

fn put_header(buf: &mut [u8], at: usize, header: &Header) -> usize
    requires { at + length (header_text header.now) ≤ length buf.old }
    ensures puts { Puts buf.old at (header_text header.now) buf.new result }
    ensures sent { IfSome header.now.sent (λ time. time < 2 ^ 16) }
{
    let at = put_u16(buf, at, word_of(header));
    match header.sent {
        None => at,
        Some(time) => put_u16(buf, at, time),
    }
}

/// Writes the header at a place of the buffer and gives the place after it; no other byte changes. Of the peer id the low
/// twelve bits are written, of the session the low two. None exactly where it doesn't fit, with nothing changed. Takes no
/// memory.
pub fn write_header(buf: &mut [u8], at: usize, header: &Header) -> Option<usize>
    ensures written { IfSome result (λ end. Puts buf.old at (header_text header.now) buf.new end) }
    ensures fits { IsSome result ↔ (at + length (header_text header.now) ≤ length buf.old) }
    ensures unchanged { IfNone result (buf.new ≡ buf.old) }
    ensures spells { IfSome result (λ end. SpellsHeader (header_text header.now) (masked header.now)) }
{
    let len = len_of(header);
    if buf.len() < at || buf.len() - at < len {
        return None;
    }
    Some(put_header(buf, at, header))
}
