//! The program `enet_relay`. `enet_relay lab` runs a script of what happens to two hosts or to a fleet, `enet_relay inspect` tells in words
//! what datagrams say, `enet_relay serve` relays chat between real ENet clients, and `enet_relay demo` shows a server with clients in one
//! process.
//!
//! Proved: that it is safe; what a run of the server did is said by `enet_serve`, what came of each client of the demonstration by
//! `enet_demo`, how a script of the lab is answered by `enet_lab`, and what is told of a datagram by `enet_text`.
//! Only tested, by scripts/check/check-inspect.sh: what `inspect` writes and its status, and what `lab --timeline` draws. By
//! scripts/check/check-rows.sh: the scripts of scripts/rows, also explained; the command lines `--help`, `--version`, no subcommand, an unknown one, a word too many, and those of `serve` and `demo`
//! with numbers out of range; what both print; the answers to the lines of `serve --control`, and that a standard output that takes nothing
//! holds up nothing; an input that can't be read, an output that can't be written, a port that is taken, an address that isn't there, a
//! system that makes no threads. By scripts/check/check-clients.sh: what clients of the reference library get from `serve`, and those of
//! `demo` from a server of that library, the log, and how a server ends whose relay finds no memory. By scripts/check/check-operator.sh:
//! what each line of `serve --control` does to clients, and that a standard error which nobody reads disturbs none. By
//! scripts/check/check-admission.sh: whom `serve` lets in, by scripts/check/check-metrics.sh: what it tells a monitor. By
//! scripts/check/check-deploy.sh: that clients are told where the server is told to stop. By hand alone: want of memory elsewhere
//! (`E1 Memory`, status 1), and the line of totals of `serve --forever`.
//! Neither: that `serve` ends, since threads may wait.
#![tactic(auto)]

mod demonstrating;
mod desk;
mod drawing;
mod explaining;
mod failure;
mod following;
mod inspecting;
mod looking;
mod loudness;
mod monitor;
mod reading;
mod serving;
mod telling;
mod watching;

use demonstrating::demonstrate;
use drawing::draw_capture;
use enet_console::{InspectOptions, Task, read_task};
use enet_lab::lab;
use failure::Failure;
use inspecting::inspect_input;
use serving::serve;
use std::io;
use std::net::Net;
use std::process::ExitCode;
use std::rt::{Clock, Env, Files};
use std::sync::Wait;
use std::thread::Threads;
use telling::tell;

/// The status where a line of an explained script can't be read.
const UNREADABLE: u8 = 2;

/// The status where a client of the demonstration was late.
const LATE: u8 = 3;

fn run<R>(rt: &R) -> Result<ExitCode, Failure>
where
    R: Env + Files + Input + Print + Eprint + AllocGlobal + Threads + Wait + Net + Clock + Sync,
{
    match read_task(rt)? {
        Task::Nothing => {}
        Task::Lab {
            is_explained: false,
            picture: None,
        } => {
            lab(rt.alloc(), &mut rt.reader(), &mut io::writer(rt)).map_err(Failure::Lab)?;
        }
        Task::Lab {
            is_explained,
            picture,
        } => {
            if !tell(rt, is_explained, picture)? {
                return Ok(ExitCode::from(UNREADABLE));
            }
        }
        Task::Inspect(options) => inspect(rt, options)?,
        Task::Serve(options) => serve(rt, options)?,
        Task::Demo(options) => {
            if !demonstrate(rt, &options)? {
                return Ok(ExitCode::from(LATE));
            }
        }
    }
    Ok(ExitCode::SUCCESS)
}

fn inspect<R>(rt: &R, options: InspectOptions) -> Result<(), Failure>
where
    R: Files + Input + Print + AllocGlobal,
{
    let InspectOptions {
        file,
        picture,
        at,
        asked,
        is_full,
    } = options;
    match picture {
        None => inspect_input(rt, file, is_full),
        Some(picture) => draw_capture(rt, file, picture.as_str(), asked, at),
    }
}

fn main(rt: HostRuntime) -> ExitCode {
    match run(&rt) {
        Ok(status) => status,
        Err(failure) => {
            let _ = eprintln!(rt; "{failure}");
            ExitCode::from(failure.status())
        }
    }
}
