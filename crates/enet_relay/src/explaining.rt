//! What there is to tell of a line of the lab, where it is explained.

use crate::looking::{Seen, look, push_changes, push_line};
use enet_fleet::FleetEvent;
use enet_lab::{Host, Line, Stage, host_text};
use enet_text::{Bodies, body_text, bytes_of, describe, word};
use std::alloc::{AllocError, Global};

/// More words than any answer has that shows bytes.
const MOST_WORDS: u32 = 8;

/// Puts behind the text the datagram of a turn, or the bytes of a packet that is taken, by the line's answer.
pub fn push_shown(alloc: Global, text: &mut Vec<u8>, answer: &[u8]) -> Result<(), AllocError> {
    if answer.starts_with(b"receive ") {
        if let Some(bytes) = bytes_of(alloc, last_word(answer))? {
            push_line(
                text,
                body_text(alloc, Bodies::Short, bytes.as_slice())?.as_bytes(),
            )?;
        }
        return Ok(());
    }
    if answer.contains(&b'#') {
        if let Some(bytes) = bytes_of(alloc, last_word(answer))? {
            text.extend_from_slice(describe(alloc, Bodies::Short, bytes.as_slice())?.as_bytes())?;
        }
    }
    Ok(())
}

fn last_word(answer: &[u8]) -> &[u8] {
    let mut last = answer;
    let mut rest = answer;
    for _ in 0..MOST_WORDS {
        let Some((first, behind)) = word(rest) else {
            break;
        };
        last = first;
        rest = behind;
    }
    last
}

/// Puts behind the text the datagram of a stranger.
pub fn push_stranger(
    alloc: Global,
    text: &mut Vec<u8>,
    line: Option<&Line>,
) -> Result<(), AllocError> {
    if let Some(Line::InFleet(FleetEvent::Stranger { bytes, .. })) = line {
        text.extend_from_slice(describe(alloc, Bodies::Short, bytes.as_slice())?.as_bytes())?;
    }
    Ok(())
}

/// Puts behind the text what changed at a host.
pub fn push_host(
    alloc: Global,
    text: &mut Vec<u8>,
    stage: &Stage,
    host: Option<Host>,
    before: Option<&Seen>,
) -> Result<(), AllocError> {
    let Some(name) = host else {
        return Ok(());
    };
    let name = host_text(alloc, name)?;
    match look(alloc, stage, host)? {
        Some(now) => push_changes(alloc, text, name.as_str(), before, &now),
        None => Ok(()),
    }
}
