//! What a line of the operator says.

ghost use Rattle.std.specs.Prelude.{◌≡◌, ◌≢◌, ◌==◌, ◌+◌, ◌∷◌, [], length, drop, position, bytes_eq, MatchOption, IfOk, option_map};
ghost use Rattle.enet_text.specs.Words.{ip_of, of_one};
ghost use Rattle.enet_console.specs.Words.{pieces, lone, switched, kick_of, say_of, followed, spells};

use bytes::Bytes;
use enet_codec::PeerRef;
use enet_text::{ip_of, peer_of, u32_of};
use std::alloc::{AllocError, Global};

/// What a line says.
#[derive(Drop)]
pub enum Word {
    /// Tell the clients that the server ends, and end.
    Stop,
    /// Tell the totals.
    Totals,
    /// Tell who is connected.
    Peers,
    /// End the connection of this peer, which is told this number.
    Kick { peer: PeerRef, info: u32 },
    /// Let nobody from this address in, and end the connections from there.
    Ban(u32),
    /// Let this address in again.
    Unban(u32),
    /// Send this text to each client.
    Say(Bytes),
    /// Tell each connection and each end of one from now on, or no longer.
    Log(bool),
    /// Nothing that is known.
    Unknown,
}

/// What a line says, without the line feed that ends it; None where it is nothing that is known. An error where there is no memory for a
/// text.
pub(crate) fn word_of(alloc: Global, line: &[u8]) -> Result<Option<Word>, AllocError>
    ensures { IfOk result (λ word. word ≡ spells line.now) }
{
    match at_space(line) {
        None => Ok(lone(line)),
        Some((word, rest)) => followed(alloc, word, rest),
    }
}

// Where the first space stands.
fn space_in(text: &[u8]) -> Option<usize>
    ensures { result ≡ position (λ byte. byte == 32) text.now }
{
    text.iter().position(|byte| *byte == b' ')
}

// What stands before the first space and behind it.
fn at_space(text: &[u8]) -> Option<(&[u8], &[u8])>
    ensures pieces { MatchOption result (pieces text.now ≡ text.now ∷ []) (λ read. pieces text.now ≡ read.0.now ∷ pieces read.1.now) }
    ensures behind { MatchOption result (position (λ byte. byte == 32) text.now ≡ None) (λ read. read.1.now ≡ drop (length read.0.now + 1) text.now) }
{
    let space = space_in(text)?;
    Some((&text[..space], &text[space + 1..]))
}

// The only piece that is there.
fn only(text: &[u8]) -> Option<&[u8]>
    ensures { MatchOption result (length (pieces text.now) ≢ 1) (λ only. pieces text.now ≡ only.now ∷ []) }
{
    match at_space(text) {
        None => Some(text),
        Some(_) => None,
    }
}

// A word is this one.
fn is(word: &[u8], name: &[u8]) -> bool
    ensures { result ≡ bytes_eq word.now name.now }
{
    word == name
}

fn lone(word: &[u8]) -> Option<Word>
    ensures { result ≡ lone word.now }
{
    if is(word, b"stop") {
        return Some(Word::Stop);
    }
    if is(word, b"totals") {
        return Some(Word::Totals);
    }
    if is(word, b"peers") {
        return Some(Word::Peers);
    }
    None
}

// What a word says with these pieces behind it.
fn followed(alloc: Global, word: &[u8], rest: &[u8]) -> Result<Option<Word>, AllocError>
    ensures { IfOk result (λ said. said ≡ followed word.now (pieces rest.now) rest.now) }
{
    if is(word, b"say") {
        return say(alloc, rest);
    }
    if is(word, b"log") {
        return Ok(log(rest));
    }
    if is(word, b"kick") {
        return Ok(kick(rest));
    }
    if is(word, b"ban") {
        return Ok(address(rest).map(Word::Ban));
    }
    if is(word, b"unban") {
        return Ok(address(rest).map(Word::Unban));
    }
    Ok(None)
}

fn say(alloc: Global, text: &[u8]) -> Result<Option<Word>, AllocError>
    ensures { IfOk result (λ said. said ≡ say_of text.now) }
{
    match str::from_utf8(text) {
        Ok(_) => Ok(Some(Word::Say(Bytes::copy_from_slice(alloc, text)?))),
        Err(_) => Ok(None),
    }
}

fn log(text: &[u8]) -> Option<Word>
    ensures { result ≡ of_one switched (pieces text.now) }
{
    let word = only(text)?;
    if is(word, b"on") {
        return Some(Word::Log(true));
    }
    if is(word, b"off") {
        return Some(Word::Log(false));
    }
    None
}

fn address(text: &[u8]) -> Option<u32>
    ensures { result ≡ of_one ip_of (pieces text.now) }
{
    ip_of(only(text)?)
}

// `SLOT.GENERATION`, and a number behind it or none.
fn kick(text: &[u8]) -> Option<Word>
    ensures { result ≡ kick_of (pieces text.now) }
{
    let Some((name, rest)) = at_space(text) else {
        let peer = peer_of(text)?;
        return Some(Word::Kick { peer, info: 0 });
    };
    let info = only(rest)?;
    let peer = peer_of(name)?;
    let info = u32_of(info)?;
    Some(Word::Kick { peer, info })
}
