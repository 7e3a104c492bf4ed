//! The thread that takes the service's events and asks for what they give.
use crate::batch::{MOST_EVENTS, batch_orders, broadcast_of, drop_first, packets_first};
use crate::gauge::Gauge;
use crate::relay::relay_step;
use crate::table::Table;
use enet_bridge::{EventReceiver, OrderSender, Pumped, TakerBell};
use enet_codec::{Event, Refusal};
use enet_events::Taker;
use enet_submit::{Finished, Order};
use enet_wire::MOST_PER_TURN;
use std::alloc::Global;
use std::collections::VecDeque;
use std::sync::Wait;
use std::sync::atomic::AtomicBool;
use std::sync::atomic::Ordering::SeqCst;
use std::thread;

/// With more than so many peers, an event gives so many orders that few events make a turn of the service. While it has orders left, events
/// are then kept until there are `ENOUGH`: the more of them are expanded together, the fewer are the datagrams in which a receiver gets
/// what they give.
const MANY_PEERS: usize = 16;

/// So many kept events are enough to be expanded together.
const ENOUGH: usize = 32;

/// So many orders at most are submitted in one place of the queue, where they are more than one event gives.
const MOST_TOGETHER: usize = 4_096;

/// With so many events expanded since the last rest, and some kept, it pays to look a few times before the next: the service is at work,
/// and its turn is soon over. Where no event is kept a sleep costs less.
const BUSY: u64 = 4;

const LOOKS: u32 = 5;

/// While it doesn't rest it shows itself once in so many expanded events.
const BETWEEN_SHOWS: u64 = 32;

/// The connected peers, the events that were taken and not yet expanded into orders, and the orders that wait for room.
///
/// An event is expanded once no order waits; with many peers it may be kept until the service has no orders left. So what is kept while
/// the service takes no orders is events, of which a chat packet is one, whatever the number of its receivers. Chat packets that follow
/// one another are expanded together, up to a bound: their orders are asked for receiver by receiver, so that the host sends a receiver
/// what is for it in few datagrams.
#[derive(Drop)]
pub struct Relay<'a> {
    alloc: Global,
    table: Table,
    sender: OrderSender<'a>,
    receiver: EventReceiver<'a>,
    backlog: VecDeque<Event>,
    tally: Tally,
}

/// What a relay counts.
#[derive(Drop)]
struct Tally {
    // Orders submitted since the service was last told.
    untold: usize,
    // Events expanded and orders asked for, by it and those that showed themselves at the same gauge before.
    expanded: u64,
    orders: u64,
}

impl Tally {
    fn add(&mut self, events: usize, orders: usize) {
        self.expanded = self.expanded.saturating_add(events as u64);
        self.orders = self.orders.saturating_add(orders as u64);
    }
}

/// What a relay leaves.
#[derive(Drop)]
pub struct RelayParts {
    /// The peers that are connected.
    pub table: Table,
    /// The events that were taken and not expanded.
    pub backlog: VecDeque<Event>,
    /// The orders that found no room.
    pub orders: VecDeque<Order>,
    /// The seat, given up.
    pub seat: Finished,
    /// The taker, with all that it took.
    pub taker: Taker,
}

/// What a step of the relay found to do.
#[derive(Clone, Copy)]
enum Found {
    /// An event was taken or expanded.
    Work,
    /// Orders wait for room, and the service holds no event back.
    NoRoom,
    /// Events are kept until there are more of them, or the service has no orders left.
    Kept,
    /// No event is there.
    Nothing,
}

impl<'a> Relay<'a> {
    ghost use Rattle.std.specs.Prelude.{◌≡◌, ◌≢◌, ◌⊎◌, ◌<◌, ◌≤◌, ◌++◌, [], true, false, length, take, OnOk, OnErr, IfOk, IfErr};
    ghost use Rattle.enet_submit.specs.Words.{IsFinishedOf, all_sent};
    ghost use Rattle.enet_bridge.specs.Ends.{orders};
    ghost use Rattle.enet_bridge.specs.Holding.{asked, waiting_at, submitted_at, received, sender_queue, receiver_queue, FoundFull, FoundNone};
    ghost use Rattle.enet_chat.specs.Relaying.{peers_of, backlog_of, sender_of, receiver_of, Relays, IsThrough, IsSpent, IsHeldUp, HasSubmitted};
    ghost use Rattle.enet_chat.specs.Private.Relaying.{SubmitsFirst, SubmitsOn, ArePackets};

    /// A relay that goes on from these peers and these events.
    pub fn new(
        alloc: Global,
        table: Table,
        sender: OrderSender<'a>,
        receiver: EventReceiver<'a>,
        backlog: VecDeque<Event>,
    ) -> Relay<'a>
        ensures peers { peers_of result ≡ table }
        ensures sender { sender_of result ≡ sender.entry }
        ensures receiver { receiver_of result ≡ receiver.entry }
        ensures backlog { backlog_of result ≡ backlog.items }
    {
        Relay {
            alloc,
            table,
            sender,
            receiver,
            backlog,
            tally: Tally {
                untold: 0,
                expanded: 0,
                orders: 0,
            },
        }
    }

    /// Gives seat and taker up, with the peers, the events that were not expanded and the orders that found no room.
    pub fn into_parts(self) -> RelayParts
        ensures peers { result.table ≡ peers_of self.entry }
        ensures backlog { result.backlog.items ≡ backlog_of self.entry }
        ensures waits { result.orders.items ≡ waiting_at (sender_of self.entry) }
        ensures orders { asked (sender_of self.entry) ≡ orders (all_sent result.seat) ++ result.orders.items }
        ensures taken { result.taker.taken ≡ received (receiver_of self.entry) }
        ensures fits { IsFinishedOf (sender_queue (sender_of self.entry)) result.seat × (result.taker.queue ≡ (receiver_queue (receiver_of self.entry)).id) }
    {
        let (seat, orders) = self.sender.into_parts();
        RelayParts {
            table: self.table,
            backlog: self.backlog,
            orders,
            seat,
            taker: self.receiver.into_taker(),
        }
    }

    /// Takes events, expands them by the rule of the relay and submits their orders, for every peer in the order of the events,
    /// until the service has ended and no event is left; those that it took are expanded then, unless orders wait for room. It never
    /// waits for room while the service holds an event back. Meanwhile `gauge` shows how many peers are connected, and how far it
    /// has come.
    ///
    /// E1 for want of memory, E10 where the seat has submitted as many orders as it may; the relay is then as after all that it
    /// did before. However it ends, orders wait only where there was no room for them, or by E10.
    pub fn run<R: Wait>(
        &mut self,
        rt: &R,
        bell: &TakerBell,
        ended: &AtomicBool,
        gauge: &Gauge,
    ) -> Result<(), Refusal>
        ensures relays { Relays self.old self.new }
        ensures none_left { OnOk result (FoundNone (receiver_of self.new)) }
        ensures through { OnOk result (IsThrough self.new) }
        ensures submitted { HasSubmitted self.new }
        ensures why { IfErr result (λ why. (why ≡ Refusal.Memory) ⊎ (why ≡ Refusal.SeatSpent)) }
        ensures spent { IfErr result (λ why. why ≡ Refusal.SeatSpent → IsSpent self.new) }
    {
        let mut pace = Pace::new();
        self.tally.expanded = gauge.expanded();
        self.tally.orders = gauge.asked();
        self.show(gauge);
        for _ in rt.forever() {
            if self.round(rt, bell, ended, &mut pace, gauge)? {
                return Ok(());
            }
        }
        unreachable!()
    }

    // Takes a step, and rests where there is nothing to do. True where the service has ended and no event is left.
    fn round<R: Wait>(
        &mut self,
        rt: &R,
        bell: &TakerBell,
        ended: &AtomicBool,
        pace: &mut Pace,
        gauge: &Gauge,
    ) -> Result<bool, Refusal>
        ensures relays { Relays self.old self.new }
        ensures none { IfOk result (λ over. over ≡ true → FoundNone (receiver_of self.new)) }
        ensures through { IfOk result (λ over. over ≡ true → IsThrough self.new) }
        ensures submits { SubmitsFirst self.old self.new }
        ensures submitted { OnErr result (HasSubmitted self.new) }
        ensures why { IfErr result (λ why. (why ≡ Refusal.Memory) ⊎ (why ≡ Refusal.SeatSpent)) }
        ensures spent { IfErr result (λ why. why ≡ Refusal.SeatSpent → IsSpent self.new) }
    {
        let over = ended.load(SeqCst);
        let before = self.tally.expanded;
        match self.step(rt, bell, over)? {
            Found::Work => {
                if pace.work(self.tally.expanded.saturating_sub(before)) {
                    self.show(gauge);
                }
                Ok(false)
            }
            Found::NoRoom => {
                self.show(gauge);
                bell.wait_a_moment(rt);
                Ok(false)
            }
            Found::Kept => {
                self.show(gauge);
                self.rest_with_some(rt, bell, pace);
                Ok(false)
            }
            Found::Nothing if over => {
                self.show(gauge);
                Ok(true)
            }
            Found::Nothing => {
                self.tell_new(bell);
                self.show(gauge);
                pace.rest(rt, bell);
                Ok(false)
            }
        }
    }

    // Rests with some events kept, until more come or the service's turn is over.
    fn rest_with_some<R: Wait>(&mut self, rt: &R, bell: &TakerBell, pace: &mut Pace)
        ensures relays { Relays self.old self.new }
        ensures same { sender_of self.new ≡ sender_of self.old }
    {
        self.tell_new(bell);
        bell.want();
        if !self.sender.is_service_without_orders() && !pace.looks_again() {
            pace.rest(rt, bell);
        }
    }

    // Submits what waits, and then expands events or takes some.
    fn step<R: Wait>(&mut self, rt: &R, bell: &TakerBell, over: bool) -> Result<Found, Refusal>
        ensures relays { Relays self.old self.new }
        ensures none { IfOk result (λ found. found ≡ Found.Nothing → FoundNone (receiver_of self.new)) }
        ensures through { IfOk result (λ found. found ≡ Found.Nothing → IsThrough self.new) }
        ensures submits { SubmitsFirst self.old self.new }
        ensures submitted { OnErr result (HasSubmitted self.new) }
        ensures why { IfErr result (λ why. (why ≡ Refusal.Memory) ⊎ (why ≡ Refusal.SeatSpent)) }
        ensures spent { IfErr result (λ why. why ≡ Refusal.SeatSpent → IsSpent self.new) }
    {
        match self.submit(rt) {
            Pumped::Spent => Err(Refusal::SeatSpent),
            Pumped::Full => self.step_without_room(rt, bell, over),
            Pumped::All => self.step_on(rt, over),
        }
    }

    // Takes events though orders wait for room, where the service holds one back or has ended.
    fn step_without_room<R: Wait>(
        &mut self,
        rt: &R,
        bell: &TakerBell,
        over: bool,
    ) -> Result<Found, Refusal>
        ensures relays { Relays self.old self.new }
        ensures none { IfOk result (λ found. found ≡ Found.Nothing → FoundNone (receiver_of self.new)) }
        ensures sender { sender_of self.new ≡ sender_of self.old }
        ensures why { IfErr result (λ why. why ≡ Refusal.Memory) }
    {
        if !over && !bell.hears_of_one_held_back() {
            return Ok(Found::NoRoom);
        }
        self.take_some(rt)
    }

    // Expands events or takes some, where no order waits.
    fn step_on<R: Wait>(&mut self, rt: &R, over: bool) -> Result<Found, Refusal>
        requires { waiting_at (sender_of self.old) ≡ [] }
        ensures relays { Relays self.old self.new }
        ensures none { IfOk result (λ found. found ≡ Found.Nothing → FoundNone (receiver_of self.new)) }
        ensures all { IfOk result (λ found. found ≡ Found.Nothing → (backlog_of self.new ≡ []) × (waiting_at (sender_of self.new) ≡ [])) }
        ensures submitted { SubmitsOn self.old self.new }
        ensures queue { sender_queue (sender_of self.new) ≡ sender_queue (sender_of self.old) }
        ensures stays { OnErr result (waiting_at (sender_of self.new) ≡ []) }
        ensures why { IfErr result (λ why. why ≡ Refusal.Memory) }
    {
        if self.keeps(over) {
            return self.take_more(rt);
        }
        if self.broadcast(rt) {
            return Ok(Found::Work);
        }
        if self.expand()? {
            return Ok(Found::Work);
        }
        self.take_some(rt)
    }

    // Submits what the oldest events give in one place of the queue, where they are chat packets that follow one another. False where they
    // aren't, or where there is no memory or no room for it: then nothing was asked for.
    fn broadcast<R: Wait>(&mut self, rt: &R) -> bool
        requires { waiting_at (sender_of self.old) ≡ [] }
        ensures relays { Relays self.old self.new }
        ensures waits { waiting_at (sender_of self.new) ≡ [] }
        ensures submitted { SubmitsOn self.old self.new }
        ensures queue { sender_queue (sender_of self.new) ≡ sender_queue (sender_of self.old) }
    {
        let count = packets_first(&self.backlog, self.most_packets());
        if count < 2 {
            return false;
        }
        self.broadcast_packets(rt, count)
    }

    // How many packets are submitted in one place at most.
    fn most_packets(&self) -> usize {
        let most = MOST_TOGETHER / self.table.len().max(1);
        most.min(MOST_EVENTS)
    }

    // Submits what so many chat packets give in one place of the queue, the oldest events that were taken and weren't expanded yet.
    fn broadcast_packets<R: Wait>(&mut self, rt: &R, count: usize) -> bool
        requires within { count ≤ length (backlog_of self.old) }
        requires packets { ArePackets (take count (backlog_of self.old)) }
        requires none { waiting_at (sender_of self.old) ≡ [] }
        ensures relays { Relays self.old self.new }
        ensures waits { waiting_at (sender_of self.new) ≡ [] }
        ensures submitted { SubmitsOn self.old self.new }
        ensures queue { sender_queue (sender_of self.new) ≡ sender_queue (sender_of self.old) }
    {
        let Some(broadcast) = broadcast_of(self.alloc, &self.table, &self.backlog, count) else {
            return false;
        };
        let asked = broadcast.len() as usize;
        if let Err(_) = self.sender.submit_behind(rt, broadcast) {
            return false;
        }
        drop_first(&mut self.backlog, count);
        self.tally.untold = self.tally.untold.saturating_add(asked);
        self.tally.add(count, asked);
        true
    }

    // Whether the events that were taken are kept for a while: they are few, each gives many orders, and the service has some left.
    fn keeps(&self, over: bool) -> bool {
        let few = !self.backlog.is_empty() && self.backlog.len() < ENOUGH;
        few && self.table.len() > MANY_PEERS && !over && !self.sender.is_service_without_orders()
    }

    // Takes some events beside those that are kept.
    fn take_more<R: Wait>(&mut self, rt: &R) -> Result<Found, Refusal>
        ensures relays { Relays self.old self.new }
        ensures sender { sender_of self.new ≡ sender_of self.old }
        ensures kept { IfOk result (λ found. found ≢ Found.Nothing) }
        ensures why { IfErr result (λ why. why ≡ Refusal.Memory) }
    {
        match self.take_some(rt)? {
            Found::Work => Ok(Found::Work),
            _ => Ok(Found::Kept),
        }
    }

    // Submits what waits, and tells the service where there is no room or much was submitted.
    fn submit<R: Wait>(&mut self, rt: &R) -> Pumped
        ensures relays { Relays self.old self.new }
        ensures kept { asked (sender_of self.new) ≡ asked (sender_of self.old) }
        ensures all { result ≡ Pumped.All → waiting_at (sender_of self.new) ≡ [] }
        ensures full { result ≡ Pumped.Full → (0 < length (waiting_at (sender_of self.new))) × FoundFull (sender_of self.new) }
        ensures spent { result ≡ Pumped.Spent → IsSpent self.new }
    {
        let before = self.sender.len();
        let pumped = self.sender.submit(rt);
        let submitted = before.saturating_sub(self.sender.len());
        self.tally.untold = self.tally.untold.saturating_add(submitted);
        if pumped == Pumped::Full || self.tally.untold >= MOST_PER_TURN as usize {
            self.tell();
            return pumped;
        }
        pumped
    }

    // Takes events while there are some, but not too many.
    fn take_some<R: Wait>(&mut self, rt: &R) -> Result<Found, Refusal>
        ensures relays { Relays self.old self.new }
        ensures none { IfOk result (λ found. found ≡ Found.Nothing → FoundNone (receiver_of self.new)) }
        ensures backlog { IfOk result (λ found. found ≡ Found.Nothing → backlog_of self.new ≡ backlog_of self.old) }
        ensures sender { sender_of self.new ≡ sender_of self.old }
        ensures why { IfErr result (λ why. why ≡ Refusal.Memory) }
    {
        if let Found::Nothing = self.take(rt)? {
            return Ok(Found::Nothing);
        }
        for _ in 1..MOST_EVENTS {
            if let Found::Nothing = self.take(rt)? {
                break;
            }
        }
        Ok(Found::Work)
    }

    // Takes an event.
    fn take<R: Wait>(&mut self, rt: &R) -> Result<Found, Refusal>
        ensures relays { Relays self.old self.new }
        ensures none { IfOk result (λ found. found ≡ Found.Nothing → FoundNone (receiver_of self.new)) }
        ensures backlog { IfOk result (λ found. found ≡ Found.Nothing → backlog_of self.new ≡ backlog_of self.old) }
        ensures sender { sender_of self.new ≡ sender_of self.old }
        ensures why { IfErr result (λ why. why ≡ Refusal.Memory) }
    {
        if self.backlog.reserve(1).is_err() {
            return Err(Refusal::Memory);
        }
        match self.receiver.take(rt) {
            Some(numbered) => {
                self.backlog.push_back_reserved(numbered.event);
                Ok(Found::Work)
            }
            None => Ok(Found::Nothing),
        }
    }

    // Expands the oldest events that were taken and weren't yet, if there are some: chat packets that follow one another
    // together, and any other event alone.
    fn expand(&mut self) -> Result<bool, Refusal>
        ensures relays { Relays self.old self.new }
        ensures none { IfOk result (λ found. found ≡ false → (backlog_of self.new ≡ []) × (sender_of self.new ≡ sender_of self.old)) }
        ensures submitted { submitted_at (sender_of self.new) ≡ submitted_at (sender_of self.old) }
        ensures stays { OnErr result (waiting_at (sender_of self.new) ≡ waiting_at (sender_of self.old)) }
        ensures why { IfErr result (λ why. why ≡ Refusal.Memory) }
    {
        let count = packets_first(&self.backlog, MOST_EVENTS);
        if count < 2 {
            return self.expand_one();
        }
        self.expand_packets(count)?;
        Ok(true)
    }

    // Expands so many chat packets, the oldest events that were taken and weren't expanded yet.
    fn expand_packets(&mut self, count: usize) -> Result<(), Refusal>
        requires within { count ≤ length (backlog_of self.old) }
        requires packets { ArePackets (take count (backlog_of self.old)) }
        ensures relays { Relays self.old self.new }
        ensures submitted { submitted_at (sender_of self.new) ≡ submitted_at (sender_of self.old) }
        ensures stays { OnErr result (waiting_at (sender_of self.new) ≡ waiting_at (sender_of self.old)) }
        ensures why { IfErr result (λ why. why ≡ Refusal.Memory) }
    {
        let orders = batch_orders(self.alloc, &self.table, &self.backlog, count)?;
        let asked = orders.len();
        self.sender.ask_all(orders)?;
        drop_first(&mut self.backlog, count);
        self.tally.add(count, asked);
        Ok(())
    }

    // Expands the oldest event that was taken and wasn't yet, if there is one.
    fn expand_one(&mut self) -> Result<bool, Refusal>
        ensures relays { Relays self.old self.new }
        ensures none { IfOk result (λ found. found ≡ false → (backlog_of self.new ≡ []) × (sender_of self.new ≡ sender_of self.old)) }
        ensures submitted { submitted_at (sender_of self.new) ≡ submitted_at (sender_of self.old) }
        ensures stays { OnErr result (waiting_at (sender_of self.new) ≡ waiting_at (sender_of self.old)) }
        ensures why { IfErr result (λ why. why ≡ Refusal.Memory) }
    {
        let Some(event) = self.backlog.front() else {
            return Ok(false);
        };
        let orders = relay_step(self.alloc, &self.table, event)?;
        let asked = orders.len();
        self.sender.ask_all(VecDeque::from_vec(orders))?;
        self.table.note(event)?;
        let _ = self.backlog.pop_front();
        self.tally.add(1, asked);
        Ok(true)
    }

    fn show(&self, gauge: &Gauge) {
        gauge.show(self.table.len(), self.tally.expanded, self.tally.orders);
    }

    // Tells the service of the orders that were submitted since it was last told, if there are some, or that there is room for the event
    // that it holds back: each ring gives it a turn.
    fn tell_new(&mut self, bell: &TakerBell)
        ensures relays { Relays self.old self.new }
        ensures same { sender_of self.new ≡ sender_of self.old }
    {
        if self.tally.untold > 0 || bell.hears_of_one_held_back() {
            self.tell();
        }
    }

    // Tells the service that there are orders.
    fn tell(&mut self)
        ensures relays { Relays self.old self.new }
        ensures same { sender_of self.new ≡ sender_of self.old }
    {
        self.tally.untold = 0;
        self.sender.ring();
    }
}

/// What was done since the thread last rested.
#[derive(Drop)]
struct Pace {
    // Events expanded since then.
    done: u64,
    // Looks since the last of them.
    looks: u32,
}

impl Pace {
    fn new() -> Pace {
        Pace { done: 0, looks: 0 }
    }

    // True once in `BETWEEN_SHOWS` events.
    fn work(&mut self, events: u64) -> bool {
        let before = self.done / BETWEEN_SHOWS;
        self.done = self.done.saturating_add(events);
        self.looks = 0;
        self.done / BETWEEN_SHOWS != before
    }

    // True where it pays to look again, after other threads had a moment.
    fn looks_again(&mut self) -> bool {
        let again = self.done >= BUSY && self.looks < LOOKS;
        if again {
            self.looks += 1;
            thread::yield_now();
        }
        again
    }

    fn rest<R: Wait>(&mut self, rt: &R, bell: &TakerBell) {
        *self = Pace::new();
        bell.wait(rt);
    }
}
