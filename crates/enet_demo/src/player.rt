//! The game thread of a client.
ghost use Rattle.std.specs.Prelude.{◌≡◌, ◌+◌, ◌∷◌, []};
ghost use Rattle.enet_turn.specs.Counts.{stopped};
ghost use Rattle.enet_demo.specs.Visits.{packets};

use crate::orders::{Plan, chat_orders, connect_order};
use crate::patience::Patience;
use crate::record::Record;
use crate::stage::Stage;
use enet_codec::{Event, Refusal};
use enet_events::Taker;
use enet_service::{EventReceiver, OrderSender, TakerBell};
use enet_submit::Finished;
use std::alloc::Global;
use std::sync::Wait;
use std::sync::atomic::Ordering::SeqCst;
use std::sync::atomic::{AtomicBool, AtomicUsize};

/// What came of a client.
#[derive(Clone, Copy)]
pub struct Visit {
    /// It had its connection.
    pub connected: bool,
    /// How many packets it received; it stops at 4,294,967,295.
    pub received: u32,
}

/// The company that a client waits for before it chats.
#[derive(Clone, Copy)]
pub(crate) struct Company<'a> {
    /// How many clients are there at the moment.
    pub(crate) present: &'a AtomicUsize,
    /// How many there are to be.
    pub(crate) all: usize,
    /// Each client counts itself; where it doesn't, the server counts its peers.
    pub(crate) counts_itself: bool,
    /// Where it notes what its wire sends and receives.
    pub(crate) notebook: Option<&'a Record>,
}

/// The game thread of a client: it connects, chats once, and counts what comes.
#[derive(Drop)]
pub(crate) struct Player<'a> {
    alloc: Global,
    plan: Plan,
    sender: OrderSender<'a>,
    receiver: EventReceiver<'a>,
    stage: Stage,
    patience: Patience,
    received: u32,
}

/// What a player leaves.
#[derive(Drop)]
pub(crate) struct Played {
    pub(crate) visit: Visit,
    pub(crate) seat: Finished,
    pub(crate) taker: Taker,
}

impl<'a> Player<'a> {
    ghost use Rattle.std.specs.Prelude.{◌≡◌, ◌<◌, [], OnOk, IfErr};
    ghost use Rattle.enet_bridge.specs.Holding.{asked, received, sender_queue, receiver_queue};
    ghost use Rattle.enet_demo.specs.Private.Playing.{IsFresh, IsSame, HasPlayed, HasVisited, told};

    /// A player who has asked for nothing yet.
    pub(crate) fn new(
        alloc: Global,
        plan: Plan,
        sender: OrderSender<'a>,
        receiver: EventReceiver<'a>,
    ) -> Player<'a>
        requires digit { plan.number < 10 }
        requires sender { asked sender ≡ [] }
        requires receiver { received receiver ≡ [] }
        ensures fresh { IsFresh result }
        ensures same { (result.plan ≡ plan) × (result.sender ≡ sender.entry) × (result.receiver ≡ receiver.entry) }
    {
        Player {
            alloc,
            plan,
            sender,
            receiver,
            stage: Stage::Alone,
            patience: Patience::new(),
            received: 0,
        }
    }

    /// Asks for the connection, takes events, and chats once it is connected and the company is there, until the service has ended
    /// and no event is left. E1 for want of memory.
    pub(crate) fn run<R: Wait>(
        &mut self,
        rt: &R,
        bell: &TakerBell,
        ended: &AtomicBool,
        company: Company<'_>,
    ) -> Result<(), Refusal>
        requires { IsFresh self.old }
        ensures played { OnOk result (HasPlayed self.new) }
        ensures same { IsSame self.old self.new }
        ensures memory { IfErr result (λ why. why ≡ Refusal.Memory) }
    {
        self.sender.ask(connect_order(self.plan))?;
        for _ in rt.forever() {
            if self.round(rt, bell, ended, company)? {
                return Ok(());
            }
        }
        unreachable!()
    }

    // Submits what waits, and takes an event or rests. True where the service has ended and no event is left.
    fn round<R: Wait>(
        &mut self,
        rt: &R,
        bell: &TakerBell,
        ended: &AtomicBool,
        company: Company<'_>,
    ) -> Result<bool, Refusal>
        requires { HasPlayed self.old }
        ensures played { HasPlayed self.new }
        ensures same { IsSame self.old self.new }
        ensures memory { IfErr result (λ why. why ≡ Refusal.Memory) }
    {
        let over = ended.load(SeqCst);
        if company.present.load(SeqCst) >= company.all {
            self.chat()?;
        }
        self.submit(rt);
        if self.take(rt) {
            return Ok(false);
        }
        if !over {
            bell.wait_a_moment(rt);
            self.note_rest(company);
        }
        Ok(over)
    }

    // Counts a rest, where it has its connection, and itself in time, where the clients do that.
    fn note_rest(&mut self, company: Company<'_>)
        requires { HasPlayed self.old }
        ensures played { HasPlayed self.new }
        ensures same { IsSame self.old self.new }
    {
        if company.counts_itself && self.stage.is_connected() && self.patience.rest() {
            company.present.fetch_add(1, SeqCst);
        }
    }

    // Hands what waits to the service, and wakes it where something did.
    fn submit<R: Wait>(&mut self, rt: &R)
        requires { HasPlayed self.old }
        ensures played { HasPlayed self.new }
        ensures same { IsSame self.old self.new }
        ensures events { told self.new ≡ told self.old }
    {
        if !self.sender.is_empty() {
            let _ = self.sender.submit(rt);
            self.sender.ring();
        }
    }

    // Takes an event, if there is one.
    fn take<R: Wait>(&mut self, rt: &R) -> bool
        requires { HasPlayed self.old }
        ensures played { HasPlayed self.new }
        ensures same { IsSame self.old self.new }
    {
        let Some(numbered) = self.receiver.take(rt) else {
            return false;
        };
        self.stage = self.stage.after(&numbered.event);
        self.received = received_after(self.received, &numbered.event);
        true
    }

    // Asks for the chat packets, once, where it is connected.
    fn chat(&mut self) -> Result<(), Refusal>
        requires { HasPlayed self.old }
        ensures played { HasPlayed self.new }
        ensures same { IsSame self.old self.new }
        ensures memory { IfErr result (λ why. why ≡ Refusal.Memory) }
    {
        let Stage::Connected(peer) = self.stage else {
            return Ok(());
        };
        let orders = chat_orders(self.alloc, self.plan.number, peer)?;
        self.sender.ask_all(orders)?;
        self.stage = Stage::Chatted(peer);
        Ok(())
    }

    /// What came of it, and the ends of the queues.
    pub(crate) fn into_played(self) -> Played
        requires { HasPlayed self }
        ensures { HasVisited (sender_queue self.entry.sender) (receiver_queue self.entry.receiver).id self.entry.plan result }
    {
        let (seat, _) = self.sender.into_parts();
        Played {
            visit: Visit {
                connected: self.stage.is_connected(),
                received: self.received,
            },
            seat,
            taker: self.receiver.into_taker(),
        }
    }
}

// How many packets were received after an event.
fn received_after(before: u32, event: &Event) -> u32
    ensures { result ≡ stopped (before + packets (event.now ∷ [])) }
{
    match event {
        Event::Receive { .. } => before.saturating_add(1),
        _ => before,
    }
}
