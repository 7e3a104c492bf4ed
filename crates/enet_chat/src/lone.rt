//! A relay that shares its service's thread.
use crate::batch::{MOST_EVENTS, packets_first};
use crate::gauge::Gauge;
use crate::lists::{EventList, OrderList};
use crate::relay::relay_step;
use crate::table::Table;
use enet_codec::{Event, Refusal};
use enet_submit::Order;
use enet_wire::MOST_PER_TURN;
use std::alloc::Global;
use std::collections::VecDeque;

/// The connected peers, the events that a service told and that aren't expanded yet, and the orders that they gave, which wait for its turns.
/// Between two turns the service's thread expands events, as a `Relay` does in a thread of its own: chat packets that follow one another
/// together, with their orders receiver by receiver.
#[derive(Drop)]
pub struct LoneRelay {
    alloc: Global,
    pub table: Table,
    pub events: EventList,
    pub orders: OrderList,
    // Events expanded and orders asked for, by it and those that showed themselves at the same gauge before.
    expanded: u64,
    asked: u64,
}

impl LoneRelay {
    ghost use Rattle.std.specs.Prelude.{◌≡◌, ◌≤◌, ◌<◌, [], true, false, length, take, drop, OnOk, IfOk, IfErr};
    ghost use Rattle.enet_chat.specs.Lone.{Expands, counted_on};
    ghost use Rattle.enet_chat.specs.Relaying.{AreBehind, AreFarBehind};
    ghost use Rattle.enet_chat.specs.Private.Relaying.{ArePackets};

    /// A relay that goes on from these peers, these events and these orders, and counts on from what `gauge` shows.
    pub fn new(
        alloc: Global,
        table: Table,
        events: VecDeque<Event>,
        orders: VecDeque<Order>,
        gauge: &Gauge,
    ) -> LoneRelay
        ensures peers { result.table ≡ table }
        ensures events { result.events ≡ events.items }
        ensures orders { result.orders ≡ orders.items }
    {
        LoneRelay {
            alloc,
            table,
            events: EventList::new(events),
            orders: OrderList::new(orders),
            expanded: gauge.expanded(),
            asked: gauge.asked(),
        }
    }

    /// Expands the oldest events by the rule of the relay until none is left or 256 orders wait, as many as a turn takes.
    ///
    /// E1 for want of memory; the relay is then as after all that it did before.
    pub fn expand(&mut self) -> Result<(), Refusal>
        ensures expands { Expands self.old self.new }
        ensures behind { OnOk result (AreBehind self.new.events self.new.orders) }
        ensures far_behind { OnOk result (AreFarBehind 256 self.new.events self.new.orders) }
        ensures memory { IfErr result (λ why. why ≡ Refusal.Memory) }
    {
        while self.orders.len() < MOST_PER_TURN as usize {
            if !self.expand_some()? {
                break;
            }
        }
        Ok(())
    }

    // Expands the oldest events, if there are some: chat packets that follow one another together, and any other event alone.
    fn expand_some(&mut self) -> Result<bool, Refusal>
        ensures expands { Expands self.old self.new }
        ensures none { IfOk result (λ found. found ≡ false → self.new.events ≡ []) }
        ensures fewer { IfOk result (λ found. found ≡ true → length self.new.events < length self.old.events) }
        ensures memory { IfErr result (λ why. why ≡ Refusal.Memory) }
    {
        let count = packets_first(self.events.as_deque(), MOST_EVENTS);
        if count < 2 {
            return self.expand_one();
        }
        self.expand_packets(count)?;
        Ok(true)
    }

    // Expands so many chat packets, the oldest events.
    fn expand_packets(&mut self, count: usize) -> Result<(), Refusal>
        requires within { count ≤ length self.old.events }
        requires packets { ArePackets (take count self.old.events) }
        ensures expands { Expands self.old self.new }
        ensures rest { OnOk result (self.new.events ≡ drop count self.old.events) }
        ensures memory { IfErr result (λ why. why ≡ Refusal.Memory) }
    {
        let before = self.orders.len();
        self.orders
            .add_grouped(self.table.as_slice(), self.events.as_deque(), count)?;
        let asked = self.orders.len() - before;
        self.events.drop_first(count);
        self.count(count, asked);
        Ok(())
    }

    // Expands the oldest event, if there is one.
    fn expand_one(&mut self) -> Result<bool, Refusal>
        ensures expands { Expands self.old self.new }
        ensures none { IfOk result (λ found. found ≡ false → self.new.events ≡ []) }
        ensures fewer { IfOk result (λ found. found ≡ true → length self.new.events < length self.old.events) }
        ensures memory { IfErr result (λ why. why ≡ Refusal.Memory) }
    {
        let Some(event) = self.events.first() else {
            return Ok(false);
        };
        let orders = relay_step(self.alloc, &self.table, event)?;
        let asked = orders.len();
        self.orders.add(VecDeque::from_vec(orders))?;
        self.table.note(event)?;
        self.events.drop_first(1);
        self.count(1, asked);
        Ok(true)
    }

    fn count(&mut self, events: usize, orders: usize)
        ensures same { (self.new.table ≡ self.old.table) × (self.new.events ≡ self.old.events) × (self.new.orders ≡ self.old.orders) }
        ensures expanded { self.new.expanded ≡ counted_on self.old.expanded events }
        ensures asked { self.new.asked ≡ counted_on self.old.asked orders }
    {
        self.expanded = self.expanded.saturating_add(events as u64);
        self.asked = self.asked.saturating_add(orders as u64);
    }

    /// Gives up the peers, the events and the orders.
    pub fn into_parts(self) -> (Table, VecDeque<Event>, VecDeque<Order>)
        ensures peers { result.0 ≡ self.table }
        ensures events { result.1.items ≡ self.events }
        ensures orders { result.2.items ≡ self.orders }
    {
        (
            self.table,
            self.events.into_events(),
            self.orders.into_orders(),
        )
    }

    /// Shows at `gauge` how many peers are connected, and how far it has come.
    pub fn show(&self, gauge: &Gauge) {
        gauge.show(self.table.len(), self.expanded, self.asked);
    }
}
