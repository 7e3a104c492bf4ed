//! An echo server and its client over the host, each in one thread, to begin a program of your own with (docs/USING.md).
//!
//! `example_echo serve PORT TURNS` sends each packet back to its sender for so many turns of at most 5 ms; `example_echo visit PORT` has
//! packets of 0 to 20,000 bytes sent back by a server at that port, ours or the reference library's; `example_echo both PORT` does both
//! in one process. All at 127.0.0.1.
//!
//! Proved: that it is safe. Only tested, by its stored run and scripts/check/check-clients.sh: what is said and comes back. Neither: that a
//! visit ends sooner than after its 20,000 turns.
#![tactic(auto)]

mod client;
mod node;
mod server;

use client::Visit;
use enet_codec::{Addr, Refusal};
use node::Node;
use server::Server;
use std::env;
use std::net::Net;
use std::process::ExitCode;
use std::rt::{Clock, Env};
use std::sync::Wait;

/// 127.0.0.1.
const LOCALHOST: u32 = 0x7f00_0001;

/// A visit that takes more turns has failed.
const MOST_TURNS: u32 = 20_000;

/// What the program was told to do.
enum Task {
    Serve { at: Addr, turns: u32 },
    Visit { at: Addr },
    Both { at: Addr },
}

fn task_of<R: Env + AllocGlobal>(rt: &R) -> Option<Task> {
    let words: Vec<String> = env::args(rt).ok()?.collect(rt.alloc()).ok()?;
    task_in(&words)
}

fn task_in(words: &[String]) -> Option<Task> {
    let port = words.get(2)?.parse::<u16>().ok()?;
    let at = Addr {
        ip: LOCALHOST,
        port,
    };
    match words.get(1)?.as_str() {
        "serve" => Some(Task::Serve {
            at,
            turns: words.get(3)?.parse::<u32>().ok()?,
        }),
        "visit" => Some(Task::Visit { at }),
        "both" => Some(Task::Both { at }),
        _ => None,
    }
}

fn serve<R: Net + Wait + Clock + AllocGlobal>(rt: &R, at: Addr, turns: u32) -> Result<(), Refusal> {
    let mut server = Server::open(rt, at)?;
    take_turns(rt, &mut server, turns)
}

fn take_turns<R: Wait + Clock>(rt: &R, server: &mut Server, turns: u32) -> Result<(), Refusal> {
    for _ in 0..turns {
        server.turn(rt)?;
    }
    Ok(())
}

/// Visits the server at this address, beside one of this process where it is given. How many packets came back.
fn visit<R>(rt: &R, at: Addr, server: Option<&mut Server>) -> Result<u32, Refusal>
where
    R: Net + Wait + Clock + AllocGlobal,
{
    let mut visit = Visit::open(rt, at.ip)?;
    go_through(rt, &mut visit, at, server)
}

/// Asks the server at this address for a connection, and takes turns until all came back and the connection ended.
fn go_through<R: Wait + Clock>(
    rt: &R,
    visit: &mut Visit,
    at: Addr,
    mut server: Option<&mut Server>,
) -> Result<u32, Refusal> {
    visit.ask(at)?;
    for _ in 0..MOST_TURNS {
        if let Some(server) = &mut server {
            server.turn(rt)?;
        }
        visit.turn(rt)?;
        if visit.has_ended() {
            break;
        }
    }
    Ok(visit.came_back())
}

fn run<R>(rt: &R, task: Task) -> Result<Option<u32>, Refusal>
where
    R: Net + Wait + Clock + AllocGlobal,
{
    match task {
        Task::Serve { at, turns } => {
            serve(rt, at, turns)?;
            Ok(None)
        }
        Task::Visit { at } => visit(rt, at, None).map(Some),
        Task::Both { at } => {
            let mut server = Server::open(rt, at)?;
            visit(rt, at, Some(&mut server)).map(Some)
        }
    }
}

fn main(rt: HostRuntime) -> ExitCode {
    let Some(task) = task_of(&rt) else {
        let _ = eprintln!(&rt; "serve PORT TURNS, visit PORT or both PORT");
        return ExitCode::from(2);
    };
    match run(&rt, task) {
        Ok(None) => ExitCode::SUCCESS,
        Ok(Some(count)) => {
            let wanted = client::SAID;
            let _ = println!(&rt; "{count} of {wanted} packets came back as they were");
            if count == wanted {
                ExitCode::SUCCESS
            } else {
                ExitCode::FAILURE
            }
        }
        Err(why) => {
            let _ = eprintln!(&rt; "{why}");
            ExitCode::FAILURE
        }
    }
}
