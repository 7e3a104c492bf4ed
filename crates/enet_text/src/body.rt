//! The bytes of a packet, put behind the text that is there.

ghost use Rattle.std.specs.Prelude.{◌≡◌, ◌++◌, ◌<◌, Some, IfOk, OnOk};
ghost use Rattle.std.specs.List.{flat_map, list_all};
ghost use Rattle.std.specs.String.{string_bytes};
ghost use Rattle.enet_text.specs.Bodies.{are_letters, body_text, escaped, is_letter, is_text, more_text, plain, quoted, told_in, told_text, without_zero};
ghost use Rattle.enet_text.specs.Words.{bytes_of};

use crate::pushing::push_bytes;
use std::alloc::{AllocError, Global};

/// How many bytes of a packet are told.
#[derive(Clone, Copy)]
pub enum Bodies {
    /// The first 32.
    Short,
    /// All.
    Whole,
}

/// So many are told of each packet, where not all are.
const FEW: usize = 32;

/// The bytes of a packet as a text: in quotes if they are letters, else in hex; with points behind them where not all are told. Where all
/// are, `bytes_of` reads them of it. An error where there is no memory for it.
pub fn body_text(alloc: Global, bodies: Bodies, body: &[u8]) -> Result<String, AllocError>
    ensures told { IfOk result (λ text. string_bytes text ≡ body_text bodies body.now) }
    ensures read_back { bodies ≡ Bodies.Whole → IfOk result (λ text. bytes_of (string_bytes text) ≡ Some body.now) }
{
    let mut text = String::new(alloc);
    push_body(&mut text, bodies, body)?;
    Ok(text)
}

/// The bytes of a packet: in quotes if they are text, else in hex; with points behind them where not all are told. An error where there is no
/// memory for them.
pub(crate) fn push_body(text: &mut String, bodies: Bodies, body: &[u8]) -> Result<(), AllocError>
    ensures { OnOk result (string_bytes text.new ≡ string_bytes text.old ++ body_text bodies body.now) }
{
    let told = told_in(bodies, body);
    push_told(text, is_text(body), told)?;
    push_more(text, told.len(), body.len())?;
    Ok(())
}

fn told_in(bodies: Bodies, body: &[u8]) -> &[u8]
    ensures { result.now ≡ told_in bodies body.now }
{
    match bodies {
        Bodies::Short if body.len() > FEW => &body[..FEW],
        Bodies::Short | Bodies::Whole => body,
    }
}

// Whether bytes are text: letters, with a zero behind them or none.
fn is_text(body: &[u8]) -> bool
    ensures { result ≡ is_text body.now }
{
    are_letters(without_zero(body))
}

fn without_zero(body: &[u8]) -> &[u8]
    ensures { result.now ≡ without_zero body.now }
{
    match body.last() {
        Some(0) => &body[..body.len() - 1],
        _ => body,
    }
}

fn are_letters(bytes: &[u8]) -> bool
    ensures { result ≡ are_letters bytes.now }
{
    !bytes.is_empty() && are_all_letters(bytes)
}

fn are_all_letters(bytes: &[u8]) -> bool
    ensures { result ≡ list_all is_letter bytes.now }
{
    bytes.iter().all(|byte| is_letter(*byte))
}

fn is_letter(byte: u8) -> bool
    ensures { result ≡ is_letter byte }
{
    (b' '..=b'~').contains(&byte) || byte == b'\t' || byte == b'\n' || byte == b'\r'
}

fn push_told(text: &mut String, in_quotes: bool, bytes: &[u8]) -> Result<(), AllocError>
    ensures { OnOk result (string_bytes text.new ≡ string_bytes text.old ++ told_text in_quotes bytes.now) }
{
    if in_quotes {
        push_quoted(text, bytes)
    } else {
        push_bytes(text, bytes)
    }
}

fn push_quoted(text: &mut String, bytes: &[u8]) -> Result<(), AllocError>
    ensures { OnOk result (string_bytes text.new ≡ string_bytes text.old ++ quoted bytes.now) }
{
    text.push_str("\"")?;
    push_letters(text, bytes)?;
    text.push_str("\"")?;
    Ok(())
}

fn push_letters(text: &mut String, bytes: &[u8]) -> Result<(), AllocError>
    ensures { OnOk result (string_bytes text.new ≡ string_bytes text.old ++ flat_map escaped bytes.now) }
{
    for byte in bytes {
        push_letter(text, *byte)?;
    }
    Ok(())
}

fn push_letter(text: &mut String, byte: u8) -> Result<(), AllocError>
    ensures { OnOk result (string_bytes text.new ≡ string_bytes text.old ++ escaped byte) }
{
    match byte {
        b'\t' => push_words(text, "\\t"),
        b'\n' => push_words(text, "\\n"),
        b'\r' => push_words(text, "\\r"),
        0 => push_words(text, "\\0"),
        b'"' => push_words(text, "\\\""),
        b'\\' => push_words(text, "\\\\"),
        _ => push_plain(text, byte),
    }
}

// A letter as it is, and any other byte in hex.
fn push_plain(text: &mut String, byte: u8) -> Result<(), AllocError>
    ensures { OnOk result (string_bytes text.new ≡ string_bytes text.old ++ plain byte) }
{
    if (b' '..=b'~').contains(&byte) {
        text.push(char::from(byte))
    } else {
        text.push_str("\\x")?;
        push_bytes(text, &[byte])
    }
}

fn push_words(text: &mut String, words: &str) -> Result<(), AllocError>
    ensures { OnOk result (string_bytes text.new ≡ string_bytes text.old ++ words.now) }
{
    text.push_str(words)?;
    Ok(())
}

fn push_more(text: &mut String, told: usize, all: usize) -> Result<(), AllocError>
    ensures { OnOk result (string_bytes text.new ≡ string_bytes text.old ++ more_text told all) }
{
    if told < all {
        text.push_str("..")?;
    }
    Ok(())
}
