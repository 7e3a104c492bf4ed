//! Reading a header.

ghost use Rattle.std.specs.Prelude.{◌≡◌, ℕ, ◌≤◌, ◌+◌, length, take, List, ◌++◌, IfSome, IfNone, IsSomeAnd};
ghost use Rattle.enet_codec.specs.Header.{SpellsHeader, header_at, header_of};
ghost use Rattle.enet_codec.specs.Private.Header.{GivesHeader};

use crate::header::{COMPRESSED, Header, SENT_TIME};
use crate::read::u16_at;

// What the first word says.
fn header_of(word: u16, sent: Option<u16>) -> Header
    ensures { result ≡ header_of word sent }
{
    Header {
        peer: word & 0x0fff,
        session: (word >> 12 & 3) as u8,
        compressed: word & COMPRESSED != 0,
        sent,
    }
}

// The header at the front, and the bytes behind it.
#[tactic(auto, unfolding(crate::specs::Header::header_at))]
fn header_and_rest(bytes: &[u8]) -> Option<(Header, &[u8])>
    ensures { GivesHeader result (header_at bytes.now) }
{
    if bytes.len() < 2 {
        return None;
    }
    let word = u16_at(bytes, 0);
    if word & SENT_TIME == 0 {
        return Some((header_of(word, None), &bytes[2..]));
    }
    if bytes.len() < 4 {
        return None;
    }
    Some((header_of(word, Some(u16_at(bytes, 2))), &bytes[4..]))
}

/// The header at the front of a datagram and its length, 2 or 4. None exactly where it is cut short. Takes no memory.
pub fn read_header(bytes: &[u8]) -> Option<(Header, usize)>
    ensures length { IfSome result (λ found. found.1 ≤ length bytes.now) }
    ensures found { IfSome result (λ found. SpellsHeader (take found.1 bytes.now) found.0) }
    ensures only { (h : Header) (text rest : List ℕ) → bytes.now ≡ text ++ rest → SpellsHeader text h
        → IsSomeAnd result (λ found. (found.0 ≡ h) × (found.1 ≡ length text)) }
    ensures none { IfNone result ((h : Header) (text rest : List ℕ) → bytes.now ≡ text ++ rest → SpellsHeader text h → ⊥) }
{
    let (header, rest) = header_and_rest(bytes)?;
    Some((header, bytes.len() - rest.len()))
}

/// A law, with no code: no spelling of a header begins a spelling of another.
pub fn one_header()
    ensures { (a b x y : List ℕ) (g h : Header) → SpellsHeader a g → SpellsHeader b h → a ++ x ≡ b ++ y → (a ≡ b) × (g ≡ h) }
{}
