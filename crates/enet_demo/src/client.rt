//! A client: its service's thread, and its game thread.
ghost use Rattle.std.specs.Prelude.{◌≡◌, ◌<◌, OnOk, IfOk, IfErr};
ghost use Rattle.enet_service.specs.ServiceRuns.{AreNew, CanSettle, IsNotSettled};
ghost use Rattle.enet_serve.specs.Serving.{EndsRun};
ghost use Rattle.enet_demo.specs.Visits.{Visits, beginning};
ghost use Rattle.enet_demo.specs.Private.Playing.{HasPlayed, IsFresh, IsGuest, IsSame, IsSettled, returned};

use crate::orders::{CHANNELS, Plan};
use crate::player::{Company, Played, Player, Visit};
use crate::record::TappedWire;
use enet_codec::{Addr, Config, Refusal};
use enet_events::Poster;
use enet_service::{
    BoundService, Ends, EventReceiver, MioWire, OrderSender, QueueSink, QueueSource, Queues,
    Returned, RunLength, Shared, Signals, Unwatched, beside_turns, settle,
};
use enet_submit::Drain;
use std::alloc::Global;
use std::net::Net;
use std::rt::Clock;
use std::sync::Wait;
use std::thread::Threads;

/// How many places each queue of a client has.
const QUEUE_CAPACITY: u32 = 1_024;

/// How a client takes part: by this plan, for so many turns of its service.
#[derive(Clone, Copy)]
pub(crate) struct Part {
    alloc: Global,
    pub(crate) plan: Plan,
    pub(crate) turns: u64,
}

/// A client before it begins: it has its address, and no host yet.
#[derive(Drop)]
pub(crate) struct Guest {
    pub(crate) part: Part,
    wire: TappedWire,
}

impl Guest {
    /// A client at this address, whose service takes so many turns. E14 where the address can't be had, E1 for want of memory.
    pub(crate) fn open<R: Net + AllocGlobal>(
        rt: &R,
        address: Addr,
        plan: Plan,
        turns: u64,
    ) -> Result<Guest, Refusal>
        ensures guest { IfOk result (IsGuest plan turns) }
        ensures refused { IfErr result EndsRun }
    {
        let alloc = rt.alloc();
        let wire = TappedWire::new(alloc, plan.number, MioWire::bind(rt, address)?);
        Ok(Guest {
            part: Part { alloc, plan, turns },
            wire,
        })
    }
}

/// A client, until its service has taken its turns and no event is left. E14 where the wire fails, E1 for want of memory, E16 where its
/// threads ended and a queue isn't empty.
pub(crate) fn visit<R>(rt: &R, guest: Guest, company: Company<'_>) -> Result<Visit, Refusal>
where
    R: Threads + Wait + Clock + Sync,
    requires { guest.part.plan.number < 10 }
    ensures visits { IfOk result (Visits (beginning guest.part.plan.secret) guest.part.plan guest.part.turns) }
    ensures refused { IfErr result EndsRun }
{
    let Guest { part, mut wire } = guest;
    let bell = wire.wire.bell()?;
    wire.begin(rt, company.notebook);
    let Queues {
        orders,
        events,
        ends,
    } = Queues::open(part.alloc, QUEUE_CAPACITY)?;
    let shared = Shared {
        queue: &orders,
        events: &events,
        bell: &bell,
        signals: &Signals::new(),
    };
    let mut config = Config::standard(1, CHANNELS);
    config.generations = u32::MAX;
    config.secret = part.plan.secret;
    let mut bound = BoundService::open(part.alloc, wire, config)?;
    let visit = run_client(rt, &mut bound, shared, ends, part, company);
    bound.wire.hand_over(rt, company.notebook);
    bound.close();
    visit
}

// A client between these queues.
fn run_client<R: Threads + Wait + Clock + Sync>(
    rt: &R,
    bound: &mut BoundService<TappedWire>,
    shared: Shared<'_>,
    ends: Ends,
    part: Part,
    company: Company<'_>,
) -> Result<Visit, Refusal>
    requires new { AreNew shared.queue.now shared.events.now ends }
    requires digit { part.plan.number < 10 }
    ensures visits { IfOk result (Visits bound.old.service part.plan part.turns) }
    ensures refused { IfErr result EndsRun }
{
    let Shared {
        queue,
        events,
        bell,
        signals,
    } = shared;
    let Company {
        present,
        all,
        counts_itself,
        notebook: _,
    } = company;
    let sender = OrderSender::new(part.alloc, queue, ends.seat, bell);
    let receiver = EventReceiver::new(events, ends.taker);
    let mut player = Player::new(part.alloc, part.plan, sender, receiver);
    let mut source = QueueSource::new(queue, ends.drain, bell);
    let mut sink = QueueSink::new(events, ends.poster, &signals.bell);
    let (played, report) = beside_turns(
        rt,
        bound,
        &mut source,
        &mut sink,
        RunLength::Turns(part.turns),
        signals,
        &mut Unwatched,
        &mut || -> Result<(), Refusal>
            requires { IsFresh player }
            ensures played { OnOk result (HasPlayed player.exit) }
            ensures same { IsSame player.entry player.exit }
            ensures memory { IfErr result (λ why. why ≡ Refusal.Memory) }
        {
            player.run(
                rt,
                &signals.bell,
                &signals.ended,
                Company {
                    present,
                    all,
                    counts_itself,
                    notebook: None,
                },
            )
        },
    );
    report?;
    played?;
    after_visit(
        rt,
        part.alloc,
        shared,
        player.into_played(),
        source.into_drain(),
        sink.into_poster(),
    )
}

// Settles both queues: all that the service told was counted, and what was asked for was handed to it or is dropped.
fn after_visit<R: Wait>(
    rt: &R,
    alloc: Global,
    shared: Shared<'_>,
    played: Played,
    drain: Drain,
    poster: Poster,
) -> Result<Visit, Refusal>
    requires { CanSettle shared.queue.now shared.events.now (returned played drain poster) }
    ensures settled { IfOk result (IsSettled played drain poster) }
    ensures refused { IfErr result IsNotSettled }
{
    let Played { visit, seat, taker } = played;
    let back = Returned {
        drain,
        poster,
        seat,
        taker,
    };
    settle(rt, alloc, shared.queue, shared.events, back)?;
    Ok(visit)
}
