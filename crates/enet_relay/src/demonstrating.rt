//! The demonstration, as it tells of itself.

use crate::drawing::draw_all;
use crate::failure::Failure;
use enet_captured::{HostName, Noted, Source, Way, timeline_of};
use enet_codec::Addr;
use enet_console::DemoOptions;
use enet_demo::{Demonstration, Heard, Record, Visit};
use enet_service::{SendOutcome, system_secret};
use std::alloc::{AllocError, Global};
use std::net::Net;
use std::rt::{Clock, Files};
use std::sync::Wait;
use std::thread::Threads;

/// 127.0.0.1
const HERE: u32 = 0x7f00_0001;

/// The port of a server that is started.
const OWN_PORT: u16 = 47_100;

/// How many packets each client sends.
const SENT: u32 = 3;

/// Says what is shown, runs the demonstration, tells what each client received, and draws what their sockets sent and received, if a file is
/// named for that. False where a client had no connection within the turns.
pub fn demonstrate<R>(rt: &R, options: &DemoOptions) -> Result<bool, Failure>
where
    R: Threads + Wait + Net + Clock + Sync + Files + Print + AllocGlobal,
{
    introduce(rt, options)?;
    let shown = Demonstration {
        clients: options.clients,
        turns: options.turns,
        server: options.port.map(|port| Addr { ip: HERE, port }),
        secret: system_secret(),
    };
    let notebook = match options.picture {
        Some(_) => Record::new(rt),
        None => Record::unused(rt),
    };
    let visits = enet_demo::demonstrate(rt, shown, &notebook)?;
    let in_time = tell_visits(rt, options, visits.as_slice())?;
    if let Some(picture) = &options.picture {
        draw_record(rt, options, picture.as_str(), &notebook)?;
    }
    Ok(in_time)
}

// What each client received.
fn tell_visits<R: Print>(rt: &R, options: &DemoOptions, visits: &[Visit]) -> Result<bool, Failure> {
    let others = SENT * u32::from(options.clients).saturating_sub(1);
    for (client, visit) in visits.iter().enumerate() {
        let received = visit.received;
        println!(rt; "client {client} got {received} packets, the others sent {others}").map_err(
            |_| Failure::Io,
        )?;
    }
    let in_time = visits.iter().all(|visit| visit.connected);
    let word = if in_time { "demo done" } else { "demo late" };
    println!(rt; "{word}").map_err(|_| Failure::Io)?;
    Ok(in_time)
}

// Who sends what to whom.
fn introduce<R: Print>(rt: &R, options: &DemoOptions) -> Result<(), Failure> {
    let clients = options.clients;
    let server = match options.port {
        Some(_) => "a server that is there",
        None => "a server in this process",
    };
    let port = options.port.unwrap_or(OWN_PORT);
    println!(rt; "{clients} clients connect to 127.0.0.1:{port}, {server}").map_err(
        |_| Failure::Io,
    )?;
    println!(rt;
        "each sends {SENT} packets reliably on channel 0, which a chat relay passes on to the others"
    ).map_err(|_| Failure::Io)
}

// Draws what was noted, all of it or nothing.
fn draw_record<R>(
    rt: &R,
    options: &DemoOptions,
    picture: &str,
    record: &Record,
) -> Result<(), Failure>
where
    R: Wait + Files + AllocGlobal,
{
    let alloc = rt.alloc();
    let notes = record.notes.lock(rt);
    if notes.is_short {
        return Err(Failure::Memory);
    }
    let mut noted = Vec::new(alloc);
    for client in 0..options.clients {
        push_client(alloc, &mut noted, notes.heard.as_slice(), client)?;
    }
    let hosts = names_of(alloc, options)?;
    let timeline = timeline_of(alloc, Source::Sockets, hosts, noted.as_slice())?;
    draw_all(rt, picture, &timeline, Some(Way::Left))
}

// What one client has noted.
fn push_client(
    alloc: Global,
    noted: &mut Vec<Noted>,
    heard: &[Heard],
    client: u8,
) -> Result<(), AllocError> {
    for one in heard {
        if one.client == client {
            noted.push(noted_of(alloc, one)?)?;
        }
    }
    Ok(())
}

// What a client's socket didn't take never went.
fn noted_of(alloc: Global, heard: &Heard) -> Result<Noted, AllocError> {
    let client = client_at(heard.client);
    let (from, to) = match heard.sent {
        Some(_) => (client, heard.other),
        None => (heard.other, client),
    };
    Ok(Noted {
        at: heard.at,
        from,
        to,
        bytes: Vec::from_slice(alloc, heard.bytes.as_slice())?,
        name: String::new(alloc),
        is_lost: matches!(heard.sent, Some(SendOutcome::Lost | SendOutcome::Blocked)),
    })
}

// In the place of a client's port, which the system chose, stands its number.
fn client_at(client: u8) -> Addr {
    Addr {
        ip: HERE,
        port: u16::from(client),
    }
}

// What the ends are called.
fn names_of(alloc: Global, options: &DemoOptions) -> Result<Vec<HostName>, AllocError> {
    let mut names = Vec::new(alloc);
    for client in 0..options.clients {
        names.push(HostName {
            at: client_at(client),
            name: format!(in alloc; "client {client}")?,
        })?;
    }
    let port = options.port.unwrap_or(OWN_PORT);
    names.push(HostName {
        at: Addr { ip: HERE, port },
        name: format!(in alloc; "the server at 127.0.0.1:{port}")?,
    })?;
    Ok(names)
}
