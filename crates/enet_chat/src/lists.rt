//! The two lists between a service and a relay that share a thread.
ghost use Rattle.std.specs.Prelude.{◌≡◌};
ghost use Rattle.enet_chat.specs.Lists.{is_refused, length_of};

use crate::batch::{drop_first, put_grouped};
use enet_bridge::{Sink, Source};
use enet_codec::{Event, PeerRef, Refusal};
use enet_submit::{Order, Submission};
use std::collections::VecDeque;
use std::marker::Model;
use std::sync::Wait;

/// Orders that wait for a service, given from the front as those of seat 0. They are numbered from 0 on, modulo 4,294,967,296. A contract
/// sees those that wait.
#[derive(Drop)]
pub struct OrderList {
    orders: VecDeque<Order>,
    given: u32,
}

impl Model for OrderList {
    ghost use Rattle.std.specs.Prelude.{List};
    ghost use Rattle.enet_submit.specs.declared.order.Order.{Order as Asked};

    ghost Value = { List Asked };

    ghost view = { λ l. l.orders.items };
}

impl OrderList {
    ghost use Rattle.std.specs.Prelude.{◌≡◌, ◌≤◌, ◌++◌, ◌↔◌, [], IsTrue, length, take, OnOk, OnErr, IfErr};
    ghost use Rattle.enet_chat.specs.Private.Grouping.{grouped};

    /// These orders, of which none was given yet.
    pub fn new(orders: VecDeque<Order>) -> OrderList
        ensures { result ≡ orders.items }
    {
        OrderList { orders, given: 0 }
    }

    /// How many orders wait.
    pub fn len(&self) -> usize
        ensures { result ≡ length self.now }
    {
        self.orders.len()
    }

    /// No order waits.
    pub fn is_empty(&self) -> bool
        ensures { IsTrue result ↔ (self.now ≡ []) }
    {
        self.orders.is_empty()
    }

    /// Adds orders behind those that wait: all of them, or for want of memory (E1) none.
    pub(crate) fn add(&mut self, orders: VecDeque<Order>) -> Result<(), Refusal>
        ensures added { OnOk result (self.new ≡ self.old ++ orders.items) }
        ensures same { OnErr result (self.new ≡ self.old) }
        ensures memory { IfErr result (λ why. why ≡ Refusal.Memory) }
    {
        if self.orders.is_empty() {
            self.orders = orders;
            return Ok(());
        }
        let mut orders = orders;
        match self.orders.append(&mut orders) {
            Ok(()) => Ok(()),
            Err(_) => Err(Refusal::Memory),
        }
    }

    /// Adds what the first events give behind those that wait, receiver by receiver: all of it, or for want of memory (E1) nothing.
    pub(crate) fn add_grouped(
        &mut self,
        peers: &[PeerRef],
        events: &VecDeque<Event>,
        count: usize,
    ) -> Result<(), Refusal>
        requires { count ≤ length events.now.items }
        ensures added { OnOk result (self.new ≡ self.old ++ grouped peers.now (take count events.now.items)) }
        ensures same { OnErr result (self.new ≡ self.old) }
        ensures memory { IfErr result (λ why. why ≡ Refusal.Memory) }
    {
        let waiting = self.orders.len();
        if let Err(why) = put_grouped(&mut self.orders, peers, events, count) {
            self.orders.truncate(waiting);
            return Err(why);
        }
        Ok(())
    }

    /// The orders that wait.
    pub fn into_orders(self) -> VecDeque<Order>
        ensures { result.items ≡ self }
    {
        self.orders
    }
}

impl Source for OrderList {
    ghost use Rattle.enet_chat.specs.Lists.{IsGiven};

    ghost gives = { IsGiven };

    fn next<R: Wait>(&mut self, _rt: &R) -> Option<Submission> {
        let order = self.orders.pop_front()?;
        let number = self.given;
        self.given = number.wrapping_add(1);
        Some(Submission {
            seat: 0,
            number,
            order,
        })
    }

    fn expect(&self) {}
}

/// So many events wait at most before the host is asked for no more of them.
const MOST_WAITING: usize = 256;

/// As soon as so many bytes of packets wait, the host is asked for no more events.
const MOST_BYTES: u64 = 1_048_576;

/// Events that a service told, oldest first. A contract sees them.
///
/// It takes an event of the host only if fewer than 256 events and fewer than 1,048,576 bytes of packets wait. So what isn't expanded yet stays
/// in the host, which bounds what it keeps of each peer. What tells of a refused order is taken whatever waits, since the orders wait for it.
#[derive(Drop)]
pub struct EventList {
    events: VecDeque<Event>,
    // At least as many bytes as wait, or so many that no event of the host is taken. It is 0 again as soon as no event waits.
    bytes: u64,
}

impl Model for EventList {
    ghost use Rattle.std.specs.Prelude.{List};
    ghost use Rattle.enet_codec.specs.declared.event.Event.{Event as Told};
    ghost use Rattle.enet_chat.specs.Private.Room.{CountsBytes};

    ghost Value = { List Told };

    ghost view = { λ l. l.events.items };

    ghost invariant = { λ l. CountsBytes l.bytes l.events.items };
}

impl EventList {
    ghost use Rattle.std.specs.Prelude.{◌≡◌, ◌≤◌, ◌∷◌, [], length, drop, false, IfNone, IfSome};
    ghost use Rattle.enet_chat.specs.Lists.{HasRoom};

    /// These events. If there are some, no event of the host is taken before all of them are expanded.
    pub fn new(events: VecDeque<Event>) -> EventList
        ensures { result ≡ events.items }
    {
        let bytes = if events.is_empty() { 0 } else { MOST_BYTES };
        EventList { events, bytes }
    }

    /// Whether so much waits that no event of the host is taken.
    pub fn is_full(&self) -> bool
        ensures room { result ≡ false → HasRoom self.now }
    {
        self.events.len() >= MOST_WAITING || self.bytes >= MOST_BYTES
    }

    /// The oldest event.
    pub(crate) fn first(&self) -> Option<&Event>
        ensures none { IfNone result (self.now ≡ []) }
        ensures first { IfSome result (λ event. self.now ≡ event.now ∷ drop 1 self.now) }
    {
        self.events.front()
    }

    /// The events, as they are kept.
    pub(crate) fn as_deque(&self) -> &VecDeque<Event>
        ensures { result.now.items ≡ self.now }
    {
        &self.events
    }

    /// Drops so many of the oldest events.
    pub(crate) fn drop_first(&mut self, count: usize)
        requires { count ≤ length self.old }
        ensures { self.new ≡ drop count self.old }
    {
        drop_first(&mut self.events, count);
        if self.events.is_empty() {
            self.bytes = 0;
        }
    }

    /// The events.
    pub fn into_events(self) -> VecDeque<Event>
        ensures { result.items ≡ self }
    {
        self.events
    }
}

impl Sink for EventList {
    ghost use Rattle.enet_chat.specs.Lists.{IsPut};

    ghost puts = { IsPut };

    /// Hands the event back if it is the host's and there is no room for it ([`EventList::is_full`]), or for want of memory.
    fn put<R: Wait>(&mut self, _rt: &R, event: Event) -> Result<(), Event> {
        if self.is_full() && !is_refusal(&event) {
            return Err(event);
        }
        let more = bytes_of(&event);
        match self.events.push_back(event) {
            Ok(()) => {
                self.bytes = self.bytes.saturating_add(more);
                Ok(())
            }
            Err(back) => Err(back.value),
        }
    }

    fn announce(&self) {}
}

// Whether the event tells of a refused order.
fn is_refusal(event: &Event) -> bool
    ensures { result ≡ is_refused event.now }
{
    matches!(event, Event::Refused { .. })
}

// How many bytes of a packet the event brings.
fn bytes_of(event: &Event) -> u64
    ensures { result ≡ length_of event.now }
{
    match event {
        Event::Receive { packet, .. } => packet.body.len() as u64,
        _ => 0,
    }
}
