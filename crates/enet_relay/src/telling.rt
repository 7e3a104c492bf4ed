//! A script of the lab from standard input, told line by line.

use crate::drawing::draw_all;
use crate::explaining::{push_host, push_shown, push_stranger};
use crate::failure::Failure;
use crate::following::Following;
use crate::looking::{hosts_of, look};
use enet_explain::{Made, expected};
use enet_lab::{LabFault, Line, Script, Stage, calm_text, read_line};
use std::alloc::Global;
use std::io;
use std::io::{ErrorKind, Read, Write};
use std::rt::Files;

/// How often standard input is read at most.
const READS: u32 = 16_777_216;

/// How a script is told.
#[derive(Drop)]
struct Telling {
    /// Whether each line is explained.
    is_explained: bool,
    /// What the hosts have put out, where that is drawn.
    following: Option<Following>,
}

/// Runs a script from standard input and writes the answer of each line. Where lines are explained, each is written behind `> `, and below
/// it its answer and, behind two spaces each, the datagram or the packet that it shows in words, and what changed at its host. What the
/// hosts put out is drawn into the file `picture`, if one is named, up to the line that ends the script. False where a line can't be read
/// that was to be explained: then standard error has the fault, and what was expected in its place.
pub fn tell<R>(rt: &R, is_explained: bool, picture: Option<String>) -> Result<bool, Failure>
where
    R: Files + Input + Print + Eprint + AllocGlobal,
{
    let alloc = rt.alloc();
    let mut script = Script::new(alloc);
    let following = match &picture {
        Some(_) => Some(Following::new(alloc)),
        None => None,
    };
    let mut telling = Telling {
        is_explained,
        following,
    };
    let outcome = tell_script(rt, &mut script, &mut telling);
    let drawn = draw_script(rt, picture, &telling, &script.stage);
    script.close();
    let is_read = outcome?;
    drawn?;
    Ok(is_read)
}

// Draws what was followed, where a file is named for it.
fn draw_script<R>(
    rt: &R,
    picture: Option<String>,
    telling: &Telling,
    stage: &Stage,
) -> Result<(), Failure>
where
    R: Files + AllocGlobal,
{
    let (Some(picture), Some(following)) = (picture, &telling.following) else {
        return Ok(());
    };
    let timeline = following.timeline(stage)?;
    draw_all(rt, picture.as_str(), &timeline, None)
}

// False where a line can't be read.
fn tell_script<R>(rt: &R, script: &mut Script, telling: &mut Telling) -> Result<bool, Failure>
where
    R: Input + Print + Eprint + AllocGlobal,
{
    let mut reader = rt.reader();
    let mut line = Vec::new(rt.alloc());
    let mut buf = [0u8; 4096];
    for _ in 0..READS {
        match reader.read(&mut buf) {
            Ok(0) => return tell_last(rt, script, telling, line.as_slice()),
            Ok(len) => {
                if !take_in(rt, script, telling, &mut line, &buf[..len])? {
                    return Ok(false);
                }
            }
            Err(error) if error.kind() == ErrorKind::Interrupted => {}
            Err(_) => return Err(Failure::Io),
        }
    }
    Err(Failure::Io)
}

// Tells each line that these bytes end, and keeps the one that they begin.
fn take_in<R>(
    rt: &R,
    script: &mut Script,
    telling: &mut Telling,
    line: &mut Vec<u8>,
    bytes: &[u8],
) -> Result<bool, Failure>
where
    R: Print + Eprint + AllocGlobal,
{
    for byte in bytes {
        if *byte != b'\n' {
            line.push(*byte)?;
            continue;
        }
        if !tell_line(rt, script, telling, line.as_slice())? {
            return Ok(false);
        }
        line.clear();
    }
    Ok(true)
}

// What stands behind the last line feed is a line where it is anything.
fn tell_last<R>(
    rt: &R,
    script: &mut Script,
    telling: &mut Telling,
    line: &[u8],
) -> Result<bool, Failure>
where
    R: Print + Eprint + AllocGlobal,
{
    if line.is_empty() {
        return Ok(true);
    }
    tell_line(rt, script, telling, line)
}

fn tell_line<R>(
    rt: &R,
    script: &mut Script,
    telling: &mut Telling,
    line: &[u8],
) -> Result<bool, Failure>
where
    R: Print + Eprint + AllocGlobal,
{
    let alloc = rt.alloc();
    let mut text = Vec::new(alloc);
    if telling.is_explained {
        text.extend_from_slice(b"> ")?;
        text.extend_from_slice(line)?;
        text.push(b'\n')?;
    }
    let fault = run_line(alloc, script, telling, line, &mut text);
    write_text(rt, text.as_slice())?;
    match fault {
        Ok(()) => Ok(true),
        Err(LabFault::BadScript(number)) if telling.is_explained => {
            let hint = expected(alloc, made(&script.stage), line)?;
            eprintln!(rt; "E15 BadScript line {number}").map_err(|_| Failure::Io)?;
            eprintln!(rt; "expected {hint}").map_err(|_| Failure::Io)?;
            Ok(false)
        }
        Err(fault) => Err(Failure::Lab(fault)),
    }
}

fn write_text<R: Print>(rt: &R, text: &[u8]) -> Result<(), Failure> {
    let mut writer = io::writer(rt);
    let written = writer.write_all(text);
    match (written, writer.flush()) {
        (Ok(()), Ok(())) => Ok(()),
        _ => Err(Failure::Io),
    }
}

fn made(stage: &Stage) -> Made {
    match stage {
        Stage::Empty => Made::Nothing,
        Stage::InWorld(_) => Made::World,
        Stage::InFleet(_) => Made::Fleet,
        Stage::Refused => Made::Refused,
    }
}

// Runs a line, and puts behind the text what there is to tell of it.
fn run_line(
    alloc: Global,
    script: &mut Script,
    telling: &mut Telling,
    line: &[u8],
    text: &mut Vec<u8>,
) -> Result<(), LabFault> {
    let spelled = read_line(alloc, line)?;
    let [first, second] = match &spelled {
        Some(spelled) if telling.is_explained => hosts_of(spelled),
        _ => [None, None],
    };
    let first_before = look(alloc, &script.stage, first)?;
    let second_before = look(alloc, &script.stage, second)?;
    let Some(answer) = answer(alloc, script, telling, line, spelled.as_ref())? else {
        return Ok(());
    };
    text.extend_from_slice(answer.as_bytes())?;
    text.push(b'\n')?;
    if !telling.is_explained {
        return Ok(());
    }
    push_shown(alloc, text, answer.as_bytes())?;
    push_stranger(alloc, text, spelled.as_ref())?;
    push_host(alloc, text, &script.stage, first, first_before.as_ref())?;
    push_host(alloc, text, &script.stage, second, second_before.as_ref())?;
    Ok(())
}

// Runs a line that spells this. Its answer; None where it is passed over.
fn answer(
    alloc: Global,
    script: &mut Script,
    telling: &mut Telling,
    line: &[u8],
    spelled: Option<&Line>,
) -> Result<Option<String>, LabFault> {
    let Some(following) = &mut telling.following else {
        return script.run(line);
    };
    if let (Some(Line::Calm { rounds, ms }), Stage::InWorld(_)) = (spelled, &script.stage) {
        script.lines = script.lines.saturating_add(1);
        let told = following.calm(&mut script.stage, *rounds, *ms)?;
        return Ok(Some(calm_text(alloc, told)?));
    }
    let answer = script.run(line)?;
    if let (Some(spelled), Some(answer)) = (spelled, &answer) {
        following.follow(spelled, &script.stage, answer.as_bytes())?;
    }
    Ok(answer)
}
