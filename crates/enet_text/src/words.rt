//! The words of a line, and what they spell. Functions named for a kind of word take what is left of a line and give what
//! its first word spells, with what is left behind it, or None.

ghost use Rattle.std.specs.Prelude.{◌≡◌, ◌≢◌, ◌==◌, ◌<◌, ◌≤◌, ◌^◌, ◌↔◌, ◌∷◌, [], length, not, position, MatchOption, IfOk, IsSome};
ghost use Rattle.std.specs.Option.{SomeIff};
ghost use Rattle.std.specs.Str.Parse.{IsNumeral, digits_value};
ghost use Rattle.enet_text.specs.Words.{after, separates, spaced, words, line_words, parts, number_below, peer_of, ip_of, bytes_of, id_of, Reads};
ghost use Rattle.enet_text.specs.Private.Pieces.{piece_end};

use crate::quotes::unquoted;
use bytes::Bytes;
use enet_codec::PeerRef;
use hex::{FromHex, FromHexError};
use std::alloc::{AllocError, Global};

const SPACE: u8 = b' ';

const QUOTE: u8 = b'"';

const BACKSLASH: u8 = b'\\';

// Where the first byte stands that is no space.
fn word_start(text: &[u8]) -> Option<usize>
    ensures { result ≡ position (λ byte. not (byte == 32)) text.now }
{
    text.iter().position(|byte| *byte != SPACE)
}

/// Where a byte of a line stands.
#[derive(Clone, Copy)]
pub(crate) enum Quoting {
    /// Not in quotes.
    Outside,
    /// In quotes.
    Inside,
    /// In quotes, behind a backslash.
    Escaped,
}

// Where the byte behind one stands.
fn after(quoting: Quoting, byte: u8) -> Quoting
    ensures { result ≡ after quoting byte }
{
    match quoting {
        Quoting::Outside if byte == QUOTE => Quoting::Inside,
        Quoting::Outside => Quoting::Outside,
        Quoting::Inside if byte == QUOTE => Quoting::Outside,
        Quoting::Inside if byte == BACKSLASH => Quoting::Escaped,
        Quoting::Inside | Quoting::Escaped => Quoting::Inside,
    }
}

// A byte that stands there is a space which separates words.
fn separates(quoting: Quoting, byte: u8) -> bool
    ensures { result ≡ separates quoting byte }
{
    match quoting {
        Quoting::Outside => byte == SPACE,
        Quoting::Inside | Quoting::Escaped => false,
    }
}

// Where the word ends that a text begins with: at a space that is not in quotes, or at its end.
fn word_end(text: &[u8]) -> usize
    ensures end { result ≡ piece_end Quoting.Outside text.now }
    ensures bound { result ≤ length text.now }
{
    let mut quoting = Quoting::Outside;
    'bytes: for i in 0..text.len() {
        let byte = text[i];
        if separates(quoting, byte) {
            return i;
        }
        quoting = after(quoting, byte);
    }
    text.len()
}

// What stands before the first space outside quotes, but for spaces at the front, and what is left behind it.
fn piece(text: &[u8]) -> Option<(&[u8], &[u8])>
    ensures { MatchOption result (spaced text.now ≡ []) (λ read. spaced text.now ≡ read.0.now ∷ spaced read.1.now) }
{
    let text = &text[word_start(text)?..];
    Some(text.split_at(word_end(text)))
}

/// The first word of a line, also one that begins with `#`, and what is left behind it.
pub fn first_word(line: &[u8]) -> Option<(&[u8], &[u8])>
    ensures { MatchOption result (line_words line.now ≡ []) (λ read. line_words line.now ≡ read.0.now ∷ words read.1.now) }
{
    piece(line)
}

/// The first word and what is left behind it. Words are separated by one or more spaces, which may also stand before the
/// first and after the last; a space in quotes separates none. A word that begins with `#` is none: there a comment begins, up to the end.
pub fn word(text: &[u8]) -> Option<(&[u8], &[u8])>
    ensures { MatchOption result (words text.now ≡ []) (λ read. words text.now ≡ read.0.now ∷ words read.1.now) }
{
    let (first, rest) = piece(text)?;
    if first.starts_with(b"#") {
        return None;
    }
    Some((first, rest))
}

/// No word is left.
pub fn end(text: &[u8]) -> Option<()>
    ensures { IsSome result ↔ (words text.now ≡ []) }
{
    match word(text) {
        None => Some(()),
        Some(_) => None,
    }
}

/// The one word that is there.
pub fn one(text: &[u8]) -> Option<&[u8]>
    ensures { MatchOption result (length (words text.now) ≢ 1) (λ only. words text.now ≡ only.now ∷ []) }
{
    let (only, rest) = word(text)?;
    end(rest)?;
    Some(only)
}

/// The two words that are there.
pub fn two(text: &[u8]) -> Option<(&[u8], &[u8])>
    ensures { MatchOption result (length (words text.now) ≢ 2) (λ all. words text.now ≡ all.0.now ∷ all.1.now ∷ []) }
{
    let (first, rest) = word(text)?;
    Some((first, one(rest)?))
}

/// The three words that are there.
pub fn three(text: &[u8]) -> Option<(&[u8], &[u8], &[u8])>
    ensures { MatchOption result (length (words text.now) ≢ 3)
        (λ all. words text.now ≡ all.0.now ∷ all.1.now ∷ all.2.now ∷ []) }
{
    let (first, rest) = word(text)?;
    let (second, third) = two(rest)?;
    Some((first, second, third))
}

/// The four words that are there.
pub fn four(text: &[u8]) -> Option<(&[u8], &[u8], &[u8], &[u8])>
    ensures { MatchOption result (length (words text.now) ≢ 4)
        (λ all. words text.now ≡ all.0.now ∷ all.1.now ∷ all.2.now ∷ all.3.now ∷ []) }
{
    let (first, rest) = word(text)?;
    let (second, third, fourth) = three(rest)?;
    Some((first, second, third, fourth))
}

/// The five words that are there.
pub fn five(text: &[u8]) -> Option<(&[u8], &[u8], &[u8], &[u8], &[u8])>
    ensures { MatchOption result (length (words text.now) ≢ 5)
        (λ all. words text.now ≡ all.0.now ∷ all.1.now ∷ all.2.now ∷ all.3.now ∷ all.4.now ∷ []) }
{
    let (first, rest) = word(text)?;
    let (second, third, fourth, fifth) = four(rest)?;
    Some((first, second, third, fourth, fifth))
}

// The number that decimal digits spell: at least one digit, leading zeros allowed, below 2^64.
fn number(digits: &[u8]) -> Option<u64>
    ensures { SomeIff result (IsNumeral 10 digits.now × (digits_value 10 digits.now < 2 ^ 64))
        (digits_value 10 digits.now) }
{
    if digits.is_empty() {
        return None;
    }
    let mut number = 0u64;
    let mut rest = digits;
    while let Some((digit, others)) = rest.split_first() {
        let value = char::from(*digit).to_digit(10)?;
        number = number.checked_mul(10)?.checked_add(u64::from(value))?;
        rest = others;
    }
    Some(number)
}

/// The number of 8 bits that a word spells: decimal digits, leading zeros allowed.
pub fn u8_of(word: &[u8]) -> Option<u8>
    ensures { result ≡ number_below (2 ^ 8) word.now }
{
    u8::try_from(number(word)?).ok()
}

/// The same of 16 bits.
pub fn u16_of(word: &[u8]) -> Option<u16>
    ensures { result ≡ number_below (2 ^ 16) word.now }
{
    u16::try_from(number(word)?).ok()
}

/// The same of 32 bits.
pub fn u32_of(word: &[u8]) -> Option<u32>
    ensures { result ≡ number_below (2 ^ 32) word.now }
{
    u32::try_from(number(word)?).ok()
}

/// The same of 64 bits.
pub fn u64_of(word: &[u8]) -> Option<u64>
    ensures { result ≡ number_below (2 ^ 64) word.now }
{
    number(word)
}

// Where the first point stands.
fn point_in(word: &[u8]) -> Option<usize>
    ensures { result ≡ position (λ byte. byte == 46) word.now }
{
    word.iter().position(|byte| *byte == b'.')
}

/// The peer that a word spells: its slot and its generation with a point between them.
pub fn peer_of(word: &[u8]) -> Option<PeerRef>
    ensures { result ≡ peer_of word.now }
{
    let point = point_in(word)?;
    let slot = u16_of(&word[..point])?;
    let generation = u32_of(&word[point + 1..])?;
    Some(PeerRef { slot, generation })
}

// What stands before the first point and behind it.
fn at_point(text: &[u8]) -> Option<(&[u8], &[u8])>
    ensures { MatchOption result (parts text.now ≡ text.now ∷ []) (λ read. parts text.now ≡ read.0.now ∷ parts read.1.now) }
{
    let point = point_in(text)?;
    Some((&text[..point], &text[point + 1..]))
}

// The four parts of a word with three points.
fn four_parts(text: &[u8]) -> Option<(&[u8], &[u8], &[u8], &[u8])>
    ensures { MatchOption result (length (parts text.now) ≢ 4)
        (λ all. parts text.now ≡ all.0.now ∷ all.1.now ∷ all.2.now ∷ all.3.now ∷ []) }
{
    let (first, rest) = at_point(text)?;
    let (second, rest) = at_point(rest)?;
    let (third, fourth) = at_point(rest)?;
    match at_point(fourth) {
        None => Some((first, second, third, fourth)),
        Some(_) => None,
    }
}

/// The IPv4 address that a word spells in dotted decimals: four numbers of 8 bits, the first the highest.
pub fn ip_of(word: &[u8]) -> Option<u32>
    ensures { result ≡ ip_of word.now }
{
    let (first, second, third, fourth) = four_parts(word)?;
    let first = u8_of(first)?;
    let second = u8_of(second)?;
    let third = u8_of(third)?;
    let fourth = u8_of(fourth)?;
    Some(u32::from_be_bytes([first, second, third, fourth]))
}

/// The bytes that a word spells: hex of either case, a text in quotes (`quotes.rt`), or `-` for none. An error where there is no memory for
/// them.
pub fn bytes_of(alloc: Global, word: &[u8]) -> Result<Option<Bytes>, AllocError>
    ensures { IfOk result (λ read. read ≡ bytes_of word.now) }
{
    if word == b"-".as_slice() {
        return Ok(Some(Bytes::from_static(&[])));
    }
    if word.starts_with(b"\"") {
        return unquoted(alloc, &word[1..]);
    }
    match hex::decode(alloc, word) {
        Ok(bytes) => Ok(Some(Bytes::from_vec(bytes)?)),
        Err(FromHexError::OutOfMemory) => Err(AllocError),
        Err(FromHexError::OddLength) => Ok(None),
        Err(FromHexError::InvalidStringLength) => Ok(None),
        Err(FromHexError::InvalidHexCharacter { .. }) => Ok(None),
    }
}

/// The number of 32 bits that a word of eight hex digits spells, of either case: a connect id.
pub fn id_of(word: &[u8]) -> Option<u32>
    ensures { result ≡ id_of word.now }
{
    let bytes = <[u8; 4]>::from_hex(word).ok()?;
    Some(u32::from_be_bytes(bytes))
}

/// The number of 8 bits that the first word spells, and what is left behind it; None where it spells none.
pub fn u8_word(text: &[u8]) -> Option<(u8, &[u8])>
    ensures { Reads (number_below (2 ^ 8)) text.now result }
{
    let (digits, rest) = word(text)?;
    Some((u8_of(digits)?, rest))
}

/// The same of 32 bits.
pub fn u32_word(text: &[u8]) -> Option<(u32, &[u8])>
    ensures { Reads (number_below (2 ^ 32)) text.now result }
{
    let (digits, rest) = word(text)?;
    Some((u32_of(digits)?, rest))
}

/// The same of 64 bits.
pub fn u64_word(text: &[u8]) -> Option<(u64, &[u8])>
    ensures { Reads (number_below (2 ^ 64)) text.now result }
{
    let (digits, rest) = word(text)?;
    Some((u64_of(digits)?, rest))
}

/// The peer that the first word spells, and what is left behind it; None where it spells none.
pub fn peer_word(text: &[u8]) -> Option<(PeerRef, &[u8])>
    ensures { Reads peer_of text.now result }
{
    let (name, rest) = word(text)?;
    Some((peer_of(name)?, rest))
}

/// The bytes that the first word spells, and what is left behind it; None where it spells none. An error where there is no memory
/// for them.
pub fn bytes_word(alloc: Global, text: &[u8]) -> Result<Option<(Bytes, &[u8])>, AllocError>
    ensures { IfOk result (λ read. Reads bytes_of text.now read) }
{
    let Some((spelled, rest)) = word(text) else {
        return Ok(None);
    };
    let Some(bytes) = bytes_of(alloc, spelled)? else {
        return Ok(None);
    };
    Ok(Some((bytes, rest)))
}
