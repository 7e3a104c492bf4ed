//! A seat with the orders that wait for room, and the bell that tells the service of what was submitted.
ghost use Rattle.std.specs.Prelude.{◌≡◌, ◌+◌, ◌++◌, ◌∷◌, [], ◌⊎◌, OnOk, OnErr, IfErr, IsOk, IsTrue, ◌↔◌, ◌<◌, length};
ghost use Rattle.enet_submit.specs.Words.{IsSeatOf, IsFinishedOf, sent, all_sent, limit_of};
ghost use Rattle.enet_bridge.specs.Ends.{orders};

use crate::waiting::{Pumped, pump};
use enet_codec::Refusal;
use enet_submit::{Broadcast, Finished, Order, Seat, SubmitQueue};
use enet_wire::Bell;
use std::alloc::Global;
use std::collections::VecDeque;
use std::sync::Wait;

/// A seat, and the orders that wait for room in its queue. What was asked of it is, in order, what the seat submitted and what
/// waits.
#[derive(Drop)]
pub struct OrderSender<'a> {
    queue: &'a SubmitQueue,
    seat: Seat,
    waiting: VecDeque<Order>,
    bell: &'a Bell,
    pub ghost fits: { IsSeatOf queue.now seat },
}

impl<'a> OrderSender<'a> {
    ghost use Rattle.enet_bridge.specs.Holding.{asked, waiting_at, submitted_at, sender_queue, FoundFull};

    /// An order sender at which nothing waits. The bell is that of the wire on which the service waits.
    pub fn new(alloc: Global, queue: &'a SubmitQueue, seat: Seat, bell: &'a Bell) -> OrderSender<'a>
        requires { IsSeatOf queue.now seat }
        ensures asked { asked result ≡ orders (sent seat) }
        ensures none { waiting_at result ≡ [] }
        ensures queue { sender_queue result ≡ queue.now }
    {
        OrderSender {
            queue,
            seat,
            waiting: VecDeque::new(alloc),
            bell,
        }
    }

    /// Adds an order behind those that wait. E1 where there is no memory for it; the order is dropped then, and those that wait
    /// stay.
    pub fn ask(&mut self, order: Order) -> Result<(), Refusal>
        ensures added { OnOk result (asked self.new ≡ asked self.old ++ order ∷ []) }
        ensures same { OnErr result (asked self.new ≡ asked self.old) }
        ensures memory { IfErr result (λ why. why ≡ Refusal.Memory) }
        ensures queue { sender_queue self.new ≡ sender_queue self.old }
    {
        match self.waiting.push_back(order) {
            Ok(()) => Ok(()),
            Err(_) => Err(Refusal::Memory),
        }
    }

    /// Adds orders behind those that wait, in their order: all of them, or for want of memory (E1) none. Where none waits it is
    /// never refused. It submits none.
    pub fn ask_all(&mut self, orders: VecDeque<Order>) -> Result<(), Refusal>
        ensures added { OnOk result (asked self.new ≡ asked self.old ++ orders.items) }
        ensures same { OnErr result (asked self.new ≡ asked self.old) }
        ensures memory { IfErr result (λ why. why ≡ Refusal.Memory) }
        ensures in_place { waiting_at self.old ≡ [] → IsOk result }
        ensures submitted { submitted_at self.new ≡ submitted_at self.old }
        ensures waits { OnOk result (waiting_at self.new ≡ waiting_at self.old ++ orders.items) }
        ensures stays { OnErr result (waiting_at self.new ≡ waiting_at self.old) }
        ensures queue { sender_queue self.new ≡ sender_queue self.old }
    {
        if self.waiting.is_empty() {
            self.waiting = orders;
            return Ok(());
        }
        let mut orders = orders;
        match self.waiting.append(&mut orders) {
            Ok(()) => Ok(()),
            Err(_) => Err(Refusal::Memory),
        }
    }

    /// Submits what waits, oldest first, as far as there is room. What was asked stays the same. It never waits for room; where a
    /// step of this call found the queue full an order waits on.
    pub fn submit<R: Wait>(&mut self, rt: &R) -> Pumped
        ensures kept { asked self.new ≡ asked self.old }
        ensures all { result ≡ Pumped.All → waiting_at self.new ≡ [] }
        ensures full { result ≡ Pumped.Full → 0 < length (waiting_at self.new) }
        ensures held { result ≡ Pumped.Full → FoundFull self.new }
        ensures spent { result ≡ Pumped.Spent → length (submitted_at self.new) ≡ limit_of (sender_queue self.new) }
        ensures left { result ≡ Pumped.Spent → 0 < length (waiting_at self.new) }
        ensures queue { sender_queue self.new ≡ sender_queue self.old }
    {
        if !self.waiting.is_empty() {
            self.bell.set_without_orders(false);
        }
        pump(rt, self.queue, &mut self.seat, &mut self.waiting)
    }

    /// Submits what waits, and behind it packets for several peers: the orders for which they stand, which take one place of the queue
    /// together. Nothing waits then.
    ///
    /// E9 where a step of this call found the queue full, E10 where the seat may not submit so many orders any more. The packets then come
    /// back as they were, and what was asked stays the same.
    pub fn submit_each<R: Wait>(
        &mut self,
        rt: &R,
        broadcast: Broadcast,
    ) -> Result<(), (Refusal, Broadcast)>
        ensures added { OnOk result (asked self.new ≡ asked self.old ++ broadcast) }
        ensures none { OnOk result (waiting_at self.new ≡ []) }
        ensures back { IfErr result (λ e. (e.1 ≡ broadcast) × (asked self.new ≡ asked self.old)) }
        ensures why { IfErr result (λ e. (e.0 ≡ Refusal.Full) ⊎ (e.0 ≡ Refusal.SeatSpent)) }
        ensures full { IfErr result (λ e. e.0 ≡ Refusal.Full → FoundFull self.new) }
        ensures spent { IfErr result (λ e. e.0 ≡ Refusal.SeatSpent → limit_of (sender_queue self.new) < length (asked self.new) + length broadcast) }
        ensures queue { sender_queue self.new ≡ sender_queue self.old }
    {
        match self.submit(rt) {
            Pumped::All => self.submit_behind(rt, broadcast),
            Pumped::Full => Err((Refusal::Full, broadcast)),
            Pumped::Spent => Err((Refusal::SeatSpent, broadcast)),
        }
    }

    /// Submits packets for several peers, where nothing waits: as [`OrderSender::submit_each`].
    pub fn submit_behind<R: Wait>(
        &mut self,
        rt: &R,
        broadcast: Broadcast,
    ) -> Result<(), (Refusal, Broadcast)>
        requires { waiting_at self.old ≡ [] }
        ensures added { OnOk result (asked self.new ≡ asked self.old ++ broadcast) }
        ensures none { waiting_at self.new ≡ [] }
        ensures back { IfErr result (λ e. (e.1 ≡ broadcast) × (asked self.new ≡ asked self.old)) }
        ensures why { IfErr result (λ e. (e.0 ≡ Refusal.Full) ⊎ (e.0 ≡ Refusal.SeatSpent)) }
        ensures full { IfErr result (λ e. e.0 ≡ Refusal.Full → FoundFull self.new) }
        ensures spent { IfErr result (λ e. e.0 ≡ Refusal.SeatSpent → limit_of (sender_queue self.new) < length (asked self.new) + length broadcast) }
        ensures queue { sender_queue self.new ≡ sender_queue self.old }
    {
        self.bell.set_without_orders(false);
        match self.queue.submit_each(rt, &mut self.seat, broadcast) {
            Ok(_ticket) => Ok(()),
            Err(back) => Err(back),
        }
    }

    /// Whether the service has lately found no order. It may answer true though an order has just been submitted, until the next
    /// `submit`; with a new bell it answers true.
    pub fn is_service_without_orders(&self) -> bool {
        self.bell.is_without_orders()
    }

    /// Tells the service that there are orders: it ends the wait of its wire.
    pub fn ring(&self) {
        self.bell.ring();
    }

    /// How many orders wait.
    pub fn len(&self) -> usize
        ensures { result ≡ length (waiting_at self.now) }
    {
        self.waiting.len()
    }

    /// No order waits.
    pub fn is_empty(&self) -> bool
        ensures { IsTrue result ↔ (waiting_at self.now ≡ []) }
    {
        self.waiting.is_empty()
    }

    /// Gives the seat up, with what still waits.
    pub fn into_parts(self) -> (Finished, VecDeque<Order>)
        ensures fits { IsFinishedOf (sender_queue self.entry) result.0 }
        ensures waits { result.1.items ≡ waiting_at self.entry }
        ensures all { asked self.entry ≡ orders (all_sent result.0) ++ result.1.items }
    {
        (self.seat.finish(), self.waiting)
    }
}
