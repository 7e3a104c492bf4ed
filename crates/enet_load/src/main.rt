//! `enet_load WORD SEED COUNT`: does one of the jobs that users of this software wait for, so many times, on what the seed draws, and
//! prints a digest of all that came of it. bench/workloads.txt has the words; docs/PERF.md says how they are timed.
//!
//! `talk`: clients talk through a server with four channels, COUNT frames; `channels`: the same with 255. `large`: large packets, COUNT
//! times. `bad-line`: COUNT milliseconds of a bad line. `crowd`: a host of 4,095 slots, COUNT steps. `capture`: COUNT captures are told.
//! The server of the first five is asked after each tick when something is due, but for a last word `unasked`.
//! `chat SEED COUNT CLIENTS`: so many clients chat through a server's whole turns, COUNT of them.
//! `worst ROW SEED COUNT SLOTS COMMANDS PACE`: an input that costs most, COUNT times; the rows stand in worst.rt.
//! With no words, a little of each.
//!
//! Proved: safety alone.
#![tactic(auto)]

mod bad_line;
mod capture;
mod chat;
mod crowd;
mod flying;
mod large;
mod resting;
mod talking;
mod worst;

use crate::worst::{Size, run_row};
use anyhow::{Context, Result, bail};
use enet_testbed::{Digest, Plan, World};
use std::alloc::Global;
use std::env::{self, Args};
use std::iter::Skip;
use std::rt::{Clock, Env};
use std::sync::Wait;

fn main(rt: HostRuntime) -> Result<()> {
    let alloc = rt.alloc();
    let mut args = env::args(&rt)?.skip(1);
    match args.next() {
        None => run_all(&rt, alloc),
        Some(word) if word.as_str() == "worst" => run_worst(&rt, alloc, &mut args),
        Some(word) => run_word(&rt, alloc, word.as_str(), &mut args),
    }
}

// The row that the next words name.
fn run_worst<R: Print>(rt: &R, alloc: Global, args: &mut Skip<Args>) -> Result<()> {
    let Some(row) = args.next() else {
        bail!("a row is missing");
    };
    let seed = number(args.next())?;
    let size = size_of(args)?;
    let digest = run_row(alloc, row.as_str(), u64::from(seed), size)?;
    print(rt, row.as_str(), digest)
}

fn size_of(args: &mut Skip<Args>) -> Result<Size> {
    Ok(Size {
        count: number(args.next())?,
        slots: u16::try_from(number(args.next())?)?,
        commands: number(args.next())?,
        pace: number(args.next())?,
    })
}

// The job of this word, as the next words say.
fn run_word<R: Print + Wait + Clock>(
    rt: &R,
    alloc: Global,
    word: &str,
    args: &mut Skip<Args>,
) -> Result<()> {
    let seed = number(args.next())?;
    let count = number(args.next())?;
    let digest = run(rt, alloc, word, u64::from(seed), count, args.next())?;
    print(rt, word, digest)
}

fn number(word: Option<String>) -> Result<u32> {
    let Some(word) = word else {
        bail!("a number is missing");
    };
    word.as_str().parse::<u32>().context("not a number")
}

// The job of this word, and of the one behind its numbers.
fn run<R: Wait + Clock>(
    rt: &R,
    alloc: Global,
    word: &str,
    seed: u64,
    count: u32,
    last: Option<String>,
) -> Result<Digest> {
    if word == "chat" {
        let clients = u16::try_from(number(last)?)?;
        return chat::chat(rt, alloc, seed, count, clients);
    }
    match last {
        None => run_job(alloc, word, seed, count, true),
        Some(last) if last.as_str() == "unasked" => run_job(alloc, word, seed, count, false),
        Some(_) => bail!("a word too many"),
    }
}

fn run_job(alloc: Global, word: &str, seed: u64, count: u32, asks: bool) -> Result<Digest> {
    if word == "capture" {
        return capture::tell(alloc, seed, count);
    }
    let mut world = World::open(alloc, plan_of(word, asks)?, seed)?;
    play(alloc, &mut world, word, count)?;
    Ok(world.digest)
}

// The world of a job.
fn plan_of(word: &str, asks: bool) -> Result<Plan> {
    match word {
        "talk" => Ok(talking::plan(4, asks)),
        "channels" => Ok(talking::plan(255, asks)),
        "large" => Ok(large::plan(asks)),
        "bad-line" => Ok(bad_line::plan(asks)),
        "crowd" => Ok(crowd::plan(asks)),
        _ => bail!("no such word"),
    }
}

// What happens in that world.
fn play(alloc: Global, world: &mut World, word: &str, count: u32) -> Result<()> {
    match word {
        "talk" => talking::talk(alloc, world, count, 4),
        "channels" => talking::talk(alloc, world, count, 255),
        "large" => large::carry(alloc, world, count),
        "bad-line" => bad_line::struggle(alloc, world, count),
        _ => crowd::gather(alloc, world, count),
    }
}

fn print<R: Print>(rt: &R, word: &str, digest: Digest) -> Result<()> {
    let value = digest.value();
    println!(rt; "{word} {value:016x}")?;
    Ok(())
}

/// A little of each.
fn run_all<R: Print + Wait + Clock>(rt: &R, alloc: Global) -> Result<()> {
    for (word, count) in [
        ("talk", 20),
        ("channels", 4),
        ("large", 1),
        ("bad-line", 500),
        ("crowd", 20),
        ("capture", 1),
    ] {
        print(rt, word, run_job(alloc, word, 1, count, true)?)?;
    }
    print(rt, "chat", chat::chat(rt, alloc, 1, 60, 8)?)?;
    run_rows(rt, alloc)
}

fn run_rows<R: Print>(rt: &R, alloc: Global) -> Result<()> {
    for row in [
        "oldest",
        "newest",
        "blocked",
        "woken-by-datagram",
        "woken-by-packet",
        "talkers-behind",
        "due-in",
        "seconds-free",
        "seconds-used",
        "seconds-settings",
        "returning",
    ] {
        let size = Size {
            count: 20,
            slots: 9,
            commands: 8,
            pace: 4,
        };
        print(rt, row, run_row(alloc, row, 1, size)?)?;
    }
    Ok(())
}
