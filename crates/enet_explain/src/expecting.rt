//! What was expected of a line.

use crate::forms::{Made, event_form, making_form};
use crate::kinds::{fits, told};
use enet_text::{Bodies, body_text, first_word, word};
use std::alloc::{AllocError, Global};
use std::str::from_utf8;

/// More words than any form has.
const MOST_WORDS: usize = 8;

/// What was expected of a line that can't be read, by what the lines before it made, without the line feed that ends a line. An error where
/// there is no memory for the text.
pub fn expected(alloc: Global, made: Made, line: &[u8]) -> Result<String, AllocError> {
    let Some((first, rest)) = first_word(line) else {
        return String::from_str(alloc, "nothing more is known");
    };
    if made == Made::Refused {
        return String::from_str(
            alloc,
            "no more lines: the one that makes the hosts was refused",
        );
    }
    if first.starts_with(b"#") {
        return String::from_str(
            alloc,
            "no space before a comment that has its line to itself",
        );
    }
    if has_other_space(first, rest) {
        return String::from_str(
            alloc,
            "spaces between words, and a line feed alone behind them: no tab, no carriage return",
        );
    }
    by_form(alloc, made, first, rest)
}

// Whether a word, if it isn't text in quotes, has a tab or a carriage return. A comment may have both.
fn has_other_space(first: &[u8], rest: &[u8]) -> bool {
    let mut given = first;
    let mut others = rest;
    for _ in 0..MOST_WORDS {
        if !given.starts_with(b"\"") && (given.contains(&b'\r') || given.contains(&b'\t')) {
            return true;
        }
        let Some((next, behind)) = word(others) else {
            return false;
        };
        given = next;
        others = behind;
    }
    false
}

// By the form that the first word names.
fn by_form(alloc: Global, made: Made, first: &[u8], rest: &[u8]) -> Result<String, AllocError> {
    let name = from_utf8(first).unwrap_or("");
    match (made, making_form(name)) {
        (Made::Nothing, None) => String::from_str(
            alloc,
            "first a line that makes the hosts: pair, open or fleet",
        ),
        (Made::Nothing, Some(form)) => by_words(alloc, made, form, rest),
        (_, Some(_)) => String::from_str(alloc, "no second line that makes hosts"),
        (_, None) => match event_form(made, name) {
            Some(form) => by_words(alloc, made, form, rest),
            None => unknown(alloc, made, first),
        },
    }
}

fn unknown(alloc: Global, made: Made, first: &[u8]) -> Result<String, AllocError> {
    let first = body_text(alloc, Bodies::Short, first)?;
    let lines =
        "connect, submit, deliver, turn, tick, take, now, ask, later, give-way, most, of-address, send-limit";
    match made {
        Made::Fleet => format!(in alloc; "{lines} or stranger, and not {first}"),
        _ => format!(in alloc; "{lines}, calm or rounds, and not {first}"),
    }
}

// By the words behind the first, one after another.
fn by_words(
    alloc: Global,
    made: Made,
    form: &'static str,
    words: &[u8],
) -> Result<String, AllocError> {
    let mut names = form.as_bytes();
    if let Some((_, behind)) = word(names) {
        names = behind;
    }
    let mut words = words;
    for _ in 0..MOST_WORDS {
        match (word(names), word(words)) {
            (Some((name, other_names)), Some((given, others))) => {
                let name = from_utf8(name).unwrap_or("");
                if !fits(alloc, made, name, given)? {
                    return unfit(alloc, made, form, name, given);
                }
                names = other_names;
                words = others;
            }
            (Some((name, _)), None) => {
                let name = from_utf8(name).unwrap_or("");
                return missing(alloc, made, form, name);
            }
            (None, Some((given, _))) => return too_much(alloc, form, given),
            (None, None) => break,
        }
    }
    format!(in alloc; "{form}, with numbers in their range")
}

fn unfit(
    alloc: Global,
    made: Made,
    form: &'static str,
    name: &str,
    given: &[u8],
) -> Result<String, AllocError> {
    let given = body_text(alloc, Bodies::Short, given)?;
    let told = told(made, name);
    format!(in alloc; "{form}, where {name} is {told}, and not {given}")
}

fn missing(
    alloc: Global,
    made: Made,
    form: &'static str,
    name: &str,
) -> Result<String, AllocError> {
    let told = told(made, name);
    format!(in alloc; "{form}: {name} is missing, {told}")
}

fn too_much(alloc: Global, form: &'static str, given: &[u8]) -> Result<String, AllocError> {
    let given = body_text(alloc, Bodies::Short, given)?;
    format!(in alloc; "{form}, and nothing behind it: no {given}")
}
