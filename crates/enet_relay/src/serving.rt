//! The server, as it tells of itself.

use crate::failure::Failure;
use crate::loudness::{Loudness, Share};
use crate::monitor::Monitor;
use crate::watching::Operator;
use enet_codec::{Refusal, Secret};
use enet_console::{Admission, Length, ServeOptions, ServerThreads, Unsent};
use enet_metrics::{Figures, Pages};
use enet_serve::{ChatServer, Gauge, Rules, RunLength, SendLimit, Settings, Unopened, Watch};
use enet_service::{Report, system_secret};
use std::alloc::Global;
use std::net::{Ipv4Addr, Net, SocketAddr};
use std::rt::Clock;
use std::sync::{Arc, Wait};
use std::thread;
use std::thread::{Threads, join_mut};
use std::time::Duration;

/// A run of `--forever` has so many seconds, a day, unless much is done before.
const DAY: u64 = 86_400;

/// Serves, and tells how much it was.
pub fn serve<R>(rt: &R, options: ServeOptions) -> Result<(), Failure>
where
    R: Threads + Wait + Net + Clock + Sync + Print + Eprint + AllocGlobal,
{
    let mut settings = Settings {
        address: options.address,
        peers: options.peers,
        channels: options.channels,
        queue_capacity: options.queue_capacity,
        mtu: options.admission.mtu,
        max_packet: options.max_packet,
        max_waiting: options.max_waiting,
        send_limit: options.max_unsent.map(limit_of),
        receive_buffer: options.admission.receive_buffer,
        of_address: None,
        rules: rules_of(&options.admission),
        secret: secret_for(options.has_secret)?,
    };
    settings.of_address = address_limit(options.admission.per_address, settings.slots());
    // Where no thread can be made, a join does its parts one after the other: nothing would be relayed until the run is over.
    let wants_thread = options.threads == ServerThreads::Two || options.metrics.is_some();
    if wants_thread && thread::spawn(rt, || ()).is_err() {
        return Err(Failure::NoThread);
    }
    let mut server = ChatServer::open(rt, settings)?;
    tell_start(rt, &server, settings);
    let served = begin(rt, &mut server, &options, settings.slots());
    server.take_leave(rt);
    server.close();
    served
}

// When a client is full.
fn limit_of(unsent: Unsent) -> SendLimit {
    SendLimit {
        bytes: u64::from(unsent.bytes),
        commands: u64::from(unsent.commands),
    }
}

// By what its host draws, if it is to have that.
fn secret_for(has_secret: bool) -> Result<Option<Secret>, Failure> {
    if !has_secret {
        return Ok(None);
    }
    match system_secret() {
        Some(secret) => Ok(Some(secret)),
        None => Err(Failure::NoSecret),
    }
}

// How many clients of one address there are at most, at a host of so many slots.
fn address_limit(per_address: Option<u32>, slots: u16) -> Option<u16> {
    let most = u16::try_from(per_address?).unwrap_or(slots);
    Some(most.min(slots))
}

// Whom it lets in, and how much of each.
fn rules_of(admission: &Admission) -> Rules {
    Rules {
        connects_of_address: admission.connects_per_address,
        connects: admission.connects_per_second,
        packets_of_client: admission.packets_per_client,
        bytes_of_client: admission.bytes_per_client,
    }
}

// How much a client may send.
fn share_of(admission: &Admission) -> Share {
    Share {
        packets: admission.packets_per_client,
        bytes: admission.bytes_per_client,
    }
}

// Where it listens, and with what. A line that can't be written ends nothing.
fn tell_start<R: Eprint>(rt: &R, server: &ChatServer, settings: Settings) {
    let ip = Ipv4Addr::from_bits(settings.address.ip);
    let port = settings.address.port;
    let peers = settings.peers;
    let slots = settings.slots();
    let channels = settings.channels;
    let buffer = server.receive_buffer().unwrap_or(0);
    let _ = eprintln!(rt;
        "listening at {ip}:{port}, {peers} peers, {slots} slots, {channels} channels, receive buffer {buffer} bytes"
    );
}

// Bans whom it was told to, and serves.
fn begin<R>(
    rt: &R,
    server: &mut ChatServer,
    options: &ServeOptions,
    slots: u16,
) -> Result<(), Failure>
where
    R: Threads + Wait + Net + Clock + Sync + Print + Eprint + AllocGlobal,
{
    for address in &options.admission.banned {
        server.ban(*address)?;
    }
    serve_as_asked(rt, server, options, slots)
}

fn serve_as_asked<R>(
    rt: &R,
    server: &mut ChatServer,
    options: &ServeOptions,
    slots: u16,
) -> Result<(), Failure>
where
    R: Threads + Wait + Net + Clock + Sync + Print + Eprint + AllocGlobal,
{
    let gauge = Gauge::new();
    let mut operator = Operator::new(
        rt,
        rt.alloc(),
        &gauge,
        slots,
        options.logs,
        options.is_controlled,
    )?;
    let share = share_of(&options.admission);
    if share.packets.is_some() || share.bytes.is_some() {
        operator.hear(Loudness::new(rt.alloc(), server.passed_over()?, share, slots)?);
    }
    let Some(address) = options.metrics else {
        return serve_watched(rt, server, options, &gauge, &mut operator);
    };
    let figures = shared(Figures::new(rt, rt.alloc())?, rt.alloc())?;
    operator.tell(Monitor::new(another(&figures)?, server.passed_over()?));
    let mut pages = Pages::open(rt, SocketAddr::from(address)).map_err(Failure::Metrics)?;
    let (served, _pages) = join_mut(
        rt,
        &mut || -> Result<(), Failure> {
            let served = serve_watched(rt, server, options, &gauge, &mut operator);
            figures.end();
            served
        },
        &mut || pages.serve(rt, &figures),
    );
    served
}

// Figures that the watch and the pages share.
fn shared(figures: Figures, alloc: Global) -> Result<Arc<Figures, Global>, Refusal> {
    match Arc::new(alloc, figures) {
        Ok(shared) => Ok(shared),
        Err(_) => Err(Refusal::Memory),
    }
}

fn another(figures: &Arc<Figures, Global>) -> Result<Arc<Figures, Global>, Refusal> {
    match Arc::try_clone(figures) {
        Ok(another) => Ok(another),
        Err(_) => Err(Refusal::Memory),
    }
}

fn serve_watched<R>(
    rt: &R,
    server: &mut ChatServer,
    options: &ServeOptions,
    gauge: &Gauge,
    operator: &mut Operator<'_, R>,
) -> Result<(), Failure>
where
    R: Threads + Wait + Clock + Sync + Print + Eprint,
{
    let threads = options.threads;
    match options.length {
        Length::Turns(turns) => serve_turns(rt, server, threads, turns, gauge, operator),
        Length::Forever => serve_on(rt, server, threads, gauge, operator),
    }
}

// A run in so many threads.
fn serve_run<R, W>(
    rt: &R,
    server: &mut ChatServer,
    threads: ServerThreads,
    run_length: RunLength,
    gauge: &Gauge,
    watch: &mut W,
) -> Result<Report, Failure>
where
    R: Threads + Wait + Clock + Sync,
    W: Watch + Send,
{
    let served = match threads {
        ServerThreads::One => server.serve_alone(rt, run_length, gauge, watch),
        ServerThreads::Two => server.serve(rt, run_length, gauge, watch),
    };
    served.map_err(|why| failure(server, why))
}

fn serve_turns<R, W>(
    rt: &R,
    server: &mut ChatServer,
    threads: ServerThreads,
    turns: u32,
    gauge: &Gauge,
    watch: &mut W,
) -> Result<(), Failure>
where
    R: Threads + Wait + Clock + Sync + Print,
    W: Watch + Send,
{
    let run_length = RunLength::Turns(u64::from(turns));
    let report = serve_run(rt, server, threads, run_length, gauge, watch)?;
    let received = report.received;
    let sent = report.sent;
    println!(rt; "served {turns} received {received} sent {sent}").map_err(|_| Failure::Io)
}

// Serves until the process is stopped, or its operator says so. What the operator asks for comes between two runs, and so do the ends of
// clients that are too slow.
fn serve_on<R>(
    rt: &R,
    server: &mut ChatServer,
    threads: ServerThreads,
    gauge: &Gauge,
    operator: &mut Operator<'_, R>,
) -> Result<(), Failure>
where
    R: Threads + Wait + Clock + Sync + Print + Eprint,
{
    for _ in rt.forever() {
        let day = RunLength::Time(Duration::from_secs(DAY));
        serve_run(rt, server, threads, day, gauge, operator)?;
        if operator.hand_over(server)? {
            return Ok(());
        }
    }
    Ok(())
}

// Why a run was refused. Where the wire failed, what the system said of it stands beside that.
fn failure(server: &ChatServer, why: Refusal) -> Failure {
    let reason = if why == Refusal::WireFault {
        server.reason()
    } else {
        None
    };
    Failure::from(Unopened { why, reason })
}
