//! The relay's side of a run.
ghost use Rattle.std.specs.Prelude.{◌≡◌, ◌⊎◌, None, OnOk, IfOk, IfErr};
ghost use Rattle.enet_chat.specs.Relaying.{Relays, IsThrough};
ghost use Rattle.enet_serve.specs.Private.Alone.{IsOf};
ghost use Rattle.enet_serve.specs.Private.Threads.{IsBegun, IsNothing};

use enet_chat::{Gauge, LoneRelay, Relay, Table};
use enet_codec::{Event, Refusal};
use enet_service::{EventReceiver, OrderSender, Signals};
use enet_submit::Order;
use std::alloc::Global;
use std::collections::VecDeque;
use std::sync::Wait;

/// What the relay keeps from one run to the next: the peers, the events not expanded yet, and the orders not carried out; and why it is
/// nothing, where the queues of a run weren't settled.
#[derive(Drop)]
pub(crate) struct Carryover {
    pub(crate) table: Table,
    pub(crate) backlog: VecDeque<Event>,
    pub(crate) orders: VecDeque<Order>,
    pub(crate) unsettled: Option<Refusal>,
}

impl Carryover {
    ghost use Rattle.std.specs.Prelude.{◌≡◌, [], None};

    /// Nothing is kept.
    pub(crate) fn new(alloc: Global) -> Carryover
        ensures { (result.table ≡ []) × (result.backlog.items ≡ []) × (result.orders.items ≡ []) × (result.unsettled ≡ None) }
    {
        Carryover {
            table: Table::open(alloc),
            backlog: VecDeque::new(alloc),
            orders: VecDeque::new(alloc),
            unsettled: None,
        }
    }
}

/// What is kept of a run that was cut off: what was left, or nothing where that couldn't be settled.
pub(crate) fn left_or_nothing(alloc: Global, left: Result<Carryover, Refusal>) -> Carryover
    ensures left { IfOk left (λ kept. result ≡ kept) }
    ensures nothing { IfErr left (IsNothing result) }
{
    match left {
        Ok(kept) => kept,
        Err(why) => {
            let mut kept = Carryover::new(alloc);
            kept.unsettled = Some(why);
            kept
        }
    }
}

/// The relay of a run: the orders that were kept are asked for first.
pub(crate) fn begin_relay<'a>(
    alloc: Global,
    kept: Carryover,
    sender: OrderSender<'a>,
    receiver: EventReceiver<'a>,
) -> Result<Relay<'a>, Refusal>
    ensures begun { IfOk result (IsBegun kept sender.entry receiver.entry) }
    ensures memory { IfErr result (λ why. why ≡ Refusal.Memory) }
{
    let mut sender = sender;
    sender.ask_all(kept.orders)?;
    Ok(Relay::new(alloc, kept.table, sender, receiver, kept.backlog))
}

/// Relays until the service has ended. Where the relay ends before, the service's thread is told.
pub(crate) fn relay_on<R: Wait>(
    rt: &R,
    relay: &mut Relay<'_>,
    signals: &Signals,
    gauge: &Gauge,
) -> Result<(), Refusal>
    ensures relays { Relays relay.old relay.new }
    ensures through { OnOk result (IsThrough relay.new) }
    ensures why { IfErr result (λ why. (why ≡ Refusal.Memory) ⊎ (why ≡ Refusal.SeatSpent)) }
{
    let relayed = relay.run(rt, &signals.bell, &signals.ended, gauge);
    signals.leave();
    relayed
}

/// The relay of a run in its service's thread.
pub(crate) fn begin_alone(alloc: Global, kept: Carryover, gauge: &Gauge) -> LoneRelay
    ensures { IsOf kept result }
{
    LoneRelay::new(alloc, kept.table, kept.backlog, kept.orders, gauge)
}

/// What it leaves.
pub(crate) fn end_alone(relay: LoneRelay) -> Carryover
    ensures left { IsOf result relay }
    ensures settled { result.unsettled ≡ None }
{
    let (table, backlog, orders) = relay.into_parts();
    Carryover {
        table,
        backlog,
        orders,
        unsettled: None,
    }
}
