//! The server and its clients.
ghost use Rattle.std.specs.Thread.{IsSync};
ghost use Rattle.std.specs.Prelude.{◌≡◌, ◌⊎◌, ◌<◌, ◌≤◌, ◌+◌, Err, Ok, IfOk, IfErr, map};
ghost use Rattle.std.specs.List.{Contains};
ghost use Rattle.enet_serve.specs.Serving.{EndsRun, queue_capacity_of};
ghost use Rattle.enet_demo.specs.Visits.{Visits, AreVisits, IsInRange, IsNotShown, beginning, server_of};
ghost use Rattle.enet_demo.specs.Private.Visits.{AreOutcomes};
ghost use Rattle.enet_demo.specs.Private.Playing.{AreGuests};

use crate::client::{Guest, visit};
use crate::orders::{CHANNELS, Plan};
use crate::player::{Company, Visit};
use crate::record::Record;
use enet_codec::{Addr, Refusal, Secret};
use enet_serve::{ChatServer, Gauge, Rules, Settings, Unwatched};
use enet_service::{Report, RunLength};
use std::alloc::Global;
use std::net::Net;
use std::rt::Clock;
use std::sync::Wait;
use std::sync::atomic::AtomicUsize;
use std::thread;
use std::thread::Threads;

/// 127.0.0.1
const HERE: u32 = 0x7f00_0001;

/// The server's port.
const PORT: u16 = 47_100;

/// In place of a client's port: the system chooses one.
const ANY_PORT: u16 = 0;

/// The most clients.
const MOST: u8 = 8;

/// How many places each queue of the server has.
const QUEUE_CAPACITY: u32 = 1_024;

/// And how many bytes its datagrams have at most.
const MTU: u32 = 1_392;

/// And how many bytes a packet has at most, and a client's packets at which no further one begins.
const MOST_BYTES: u32 = 33_554_432;

/// What is shown.
#[derive(Clone, Copy)]
pub struct Demonstration {
    /// How many clients there are: 1 to 8.
    pub clients: u8,
    /// How many turns each service takes, the server's and each client's.
    pub turns: u32,
    /// The server that the clients visit; None where one is to be started, at port 47100 of 127.0.0.1.
    pub server: Option<Addr>,
    /// By what the hosts and the clients' connect ids are drawn. What comes of the clients doesn't hang on it.
    pub secret: Option<Secret>,
}

/// Runs a server, unless one is named, and clients at 127.0.0.1, whose ports the system chooses, in threads of this process, and tells
/// what came of each client, from client 0 on.
///
/// Each client connects; it sends three packets `c<i> 0` to `c<i> 2` on channel 0, reliably, once all clients are there; and it counts what
/// comes until its service has taken its turns and no event is left. All are there once a server that was started here has them for peers.
/// A server that was there before doesn't tell that: there, they are once each has had its connection for a hundred rests of its game
/// thread, a tenth of a second. So where the turns suffice, each client gets of a server that was started here the three packets of each
/// other one, whichever connected first; so it does of a relay that was there, unless that takes over a tenth of a second to note a peer.
/// Where the turns end early, it gets fewer; where one client has no connection, none chats. What the clients' wires sent and received is
/// noted in `notebook` when they have ended, unless it is unused.
///
/// E8 where `clients` is out of its range; E14 where the server's port or one for a client can't be had, before anything is sent; then
/// E14 where a wire fails, E1 for want of memory, E10 where the server's run is so long that its relay has submitted as many orders as it
/// may, E16 where threads ended and a queue isn't empty. The server's refusal is told before a client's, and that of a client before
/// that of a later one.
pub fn demonstrate<R>(
    rt: &R,
    shown: Demonstration,
    notebook: &Record,
) -> Result<Vec<Visit>, Refusal>
where
    R: Threads + Wait + Net + Clock + Sync + AllocGlobal,
    ensures range { ¬ (IsInRange shown) → result ≡ Err Refusal.BadConfig }
    ensures refused { IfErr result (IsNotShown shown) }
    ensures visits { IfOk result (λ visits. AreVisits shown visits.items) }
{
    if shown.clients == 0 || shown.clients > MOST {
        return Err(Refusal::BadConfig);
    }
    if shown.server.is_some() {
        return visit_server(rt, shown, notebook);
    }
    let settings = Settings {
        address: address(PORT),
        peers: u16::from(shown.clients),
        channels: CHANNELS,
        queue_capacity: QUEUE_CAPACITY,
        mtu: MTU,
        max_packet: MOST_BYTES,
        max_waiting: MOST_BYTES,
        send_limit: None,
        receive_buffer: None,
        of_address: None,
        rules: Rules::none(),
        secret: shown.secret,
    };
    // The server first: the system might choose its port for a client.
    let mut server = match ChatServer::open(rt, settings) {
        Ok(server) => server,
        Err(unopened) => return Err(unopened.why),
    };
    let visits = match open_guests(rt, shown) {
        Ok(guests) => run_all(rt, rt.alloc(), &mut server, guests, shown, notebook),
        Err(why) => Err(why),
    };
    server.close();
    visits
}

// The clients of a server that is there.
fn visit_server<R>(rt: &R, shown: Demonstration, notebook: &Record) -> Result<Vec<Visit>, Refusal>
where
    R: Threads + Wait + Net + Clock + Sync + AllocGlobal,
    requires { shown.clients ≤ 8 }
    ensures visits { IfOk result (λ visits. AreVisits shown visits.items) }
    ensures refused { IfErr result EndsRun }
{
    let guests = open_guests(rt, shown)?;
    let present = AtomicUsize::new(0);
    let outcomes = visit_all(rt, guests, shown, &present, notebook)?;
    first_fault_or_all(rt.alloc(), outcomes.as_slice())
}

// The server that the clients visit.
fn server_of(shown: Demonstration) -> Addr
    ensures { result ≡ server_of shown }
{
    match shown.server {
        Some(server) => server,
        None => address(PORT),
    }
}

// The clients, each at a port of its own. E14 where none can be had, E1 for want of memory.
fn open_guests<R: Net + AllocGlobal>(rt: &R, shown: Demonstration) -> Result<Vec<Guest>, Refusal>
    requires { shown.clients ≤ 8 }
    ensures guests { IfOk result (λ guests. AreGuests shown guests.items) }
    ensures refused { IfErr result EndsRun }
{
    let mut guests = Vec::new(rt.alloc());
    for number in 0..shown.clients {
        let plan = Plan {
            number,
            server: server_of(shown),
            secret: shown.secret,
        };
        let guest = Guest::open(rt, address(ANY_PORT), plan, u64::from(shown.turns))?;
        if guests.push(guest).is_err() {
            return Err(Refusal::Memory);
        }
    }
    Ok(guests)
}

// The server and the clients, until all have ended.
fn run_all<R: Threads + Wait + Clock + Sync>(
    rt: &R,
    alloc: Global,
    server: &mut ChatServer,
    guests: Vec<Guest>,
    shown: Demonstration,
    notebook: &Record,
) -> Result<Vec<Visit>, Refusal>
    requires guests { AreGuests shown guests.items × (shown.clients ≤ 8) }
    requires capacity { queue_capacity_of server.old ≡ 1024 }
    ensures visits { IfOk result (λ visits. AreVisits shown visits.items) }
    ensures refused { IfErr result EndsRun }
{
    let gauge = Gauge::new();
    let gauge = &gauge;
    let (outcomes, served) = thread::join(
        rt,
        move || -> Result<Vec<Result<Visit, Refusal>>, Refusal>
            requires { IsSync R.row × AreGuests shown guests.items × (shown.clients ≤ 8) }
            ensures { IfOk result (λ outcomes. AreOutcomes shown outcomes.items) × IfErr result (λ why. why ≡ Refusal.Memory) }
        { visit_all(rt, guests, shown, &gauge.peers, notebook) },
        move || -> Result<Report, Refusal>
            requires { IsSync R.row × (queue_capacity_of server.now ≡ 1024) }
            ensures { IfErr result EndsRun }
        {
            server.serve(
                rt,
                RunLength::Turns(u64::from(shown.turns)),
                gauge,
                &mut Unwatched,
            )
        },
    );
    served?;
    first_fault_or_all(alloc, outcomes?.as_slice())
}

// All clients, side by side.
fn visit_all<R: Threads + Wait + Clock + Sync>(
    rt: &R,
    guests: Vec<Guest>,
    shown: Demonstration,
    present: &AtomicUsize,
    notebook: &Record,
) -> Result<Vec<Result<Visit, Refusal>>, Refusal>
    requires { AreGuests shown guests.items × (shown.clients ≤ 8) }
    ensures outcomes { IfOk result (λ outcomes. AreOutcomes shown outcomes.items) }
    ensures memory { IfErr result (λ why. why ≡ Refusal.Memory) }
{
    let all = usize::from(shown.clients);
    let counts_itself = shown.server.is_some();
    let outcomes = thread::map_vec(
        rt,
        guests,
        &|guest: Guest| -> Result<Visit, Refusal>
            requires { IsSync R.row × (guest.part.plan.number < 10) }
            ensures { IfOk result (Visits (beginning guest.part.plan.secret) guest.part.plan guest.part.turns) × IfErr result EndsRun }
        {
            visit(
                rt,
                guest,
                Company {
                    present,
                    all,
                    counts_itself,
                    notebook: Some(notebook),
                },
            )
        },
    );
    match outcomes {
        Ok(outcomes) => Ok(outcomes),
        Err(_) => Err(Refusal::Memory),
    }
}

// The clients' visits, or the refusal of the first that has one.
fn first_fault_or_all(
    alloc: Global,
    outcomes: &[Result<Visit, Refusal>],
) -> Result<Vec<Visit>, Refusal>
    ensures all { IfOk result (λ visits. map Ok visits.items ≡ outcomes.now) }
    ensures fault { IfErr result (λ why. (why ≡ Refusal.Memory) ⊎ Contains outcomes.now (Err why)) }
{
    let mut visits = Vec::new(alloc);
    for outcome in outcomes {
        let visit = (*outcome)?;
        if visits.push(visit).is_err() {
            return Err(Refusal::Memory);
        }
    }
    Ok(visits)
}

// This port of 127.0.0.1.
fn address(port: u16) -> Addr
    ensures { result ≡ record { ip = 0x7f000001; port = port } }
{
    Addr { ip: HERE, port }
}
