//! The queue and its calls.
ghost use Rattle.std.specs.Prelude.{◌≤◌};

use crate::broadcast::Broadcast;
use crate::opening::{is_in_range, opened};
use crate::order::{Account, Order, Parcel, Request, Submission, Ticket};
use crate::rule::{InOrder, Submits, Takes, View};
use crate::settling::{all_back, take_in, total_of};
use crate::token::{Drain, Finished, Seat};
use crossbeam_queue::RuledArrayQueue;
use enet_codec::Refusal;
use std::alloc::Global;
use std::sync::Wait;

pub(crate) type Ring = RuledArrayQueue<Parcel, View, InOrder>;

/// A bounded queue of orders, for 1 to 16 seats and one drain, shared by reference among threads.
///
/// What was taken, followed by what the queue holds, is its history. At every moment each seat's orders in it are those
/// that the seat was told Ok, in its order, numbered from 0 without gaps, and it has no others.
#[derive(Drop)]
pub struct SubmitQueue {
    pub(crate) ring: Ring,
    pub(crate) seats: u8,
    pub(crate) per_seat: u32,
    pub ghost few: { seats ≤ 16 },
}

impl SubmitQueue {
    ghost use Rattle.std.specs.Prelude.{◌≡◌, ◌+◌, ◌<◌, ◌≤◌, ◌↔◌, ◌⊎◌, [], ◌∷◌, ◌++◌, length, IfOk, OnOk, IfErr, OnErr, IfSome, OnSome, IfNone, IsOk, IsErrAnd, IsErrOf};
    ghost use Rattle.std.specs.List.{All};
    ghost use Rattle.crossbeam_queue.specs.Fifo.{Held};
    ghost use Rattle.enet_submit.specs.History.{of};
    ghost use Rattle.enet_submit.specs.Parcels.{numbered};
    ghost use Rattle.enet_submit.specs.Requests.{orders_of};
    ghost use Rattle.enet_submit.specs.Words.{capacity_of, limit_of, number_of, sent, taken, seat_of, all_sent, IsSeatOf, IsDrainOf, IsFinishedOf, IsInRange, IsOpened, submission, IsNext, AreNext, SeatSeesIn, StoodLast, AllStoodLast, DrainSees, BeganHistory, IsNextOfSeat, AllBack, Counts};

    /// A queue of so many places with its seats, in the order of their numbers, and its drain.
    ///
    /// E8 for a capacity outside 1 to 65,536, seats outside 1 to 16, or a `per_seat`, the number of orders that a seat may
    /// submit, of 0. E1 for want of memory; no other call of the queue takes any.
    pub fn open(
        alloc: Global,
        capacity: u32,
        seats: u32,
        per_seat: u32,
    ) -> Result<(SubmitQueue, Vec<Seat>, Drain), Refusal>
        ensures ok { IfOk result (λ r. IsOpened (record { capacity = capacity; seats = seats; per_seat = per_seat }) r.0 r.1.items r.2) }
        ensures bad_config { IsErrOf result Refusal.BadConfig ↔ ¬ (IsInRange capacity seats per_seat) }
        ensures else_memory { IfErr result (λ e. (e ≡ Refusal.BadConfig) ⊎ (e ≡ Refusal.Memory)) }
    {
        if !is_in_range(capacity, seats, per_seat) {
            return Err(Refusal::BadConfig);
        }
        match opened(alloc, capacity as usize, seats as u8, per_seat) {
            Ok(all) => Ok(all),
            Err(_) => Err(Refusal::Memory),
        }
    }

    /// Hands an order over, under the seat's next number.
    ///
    /// E10 where the seat has submitted as many orders as it may, else E9 where a step of this call found the queue full.
    /// The order then comes back as it was, and nothing has changed.
    pub fn submit<R: Wait>(
        &self,
        rt: &R,
        seat: &mut Seat,
        order: Order,
    ) -> Result<Ticket, (Refusal, Order)>
        requires { IsSeatOf self.now seat.old }
        ensures same { IsSeatOf self.now seat.new × (number_of seat.new ≡ number_of seat.old) }

        ensures next { IfOk result (λ ticket. IsNext seat.old order seat.new ticket) }
        ensures pushed { OnOk result (StoodLast self.now seat.new (submission (number_of seat.old) (length (sent seat.old)) order)) }

        ensures back { IfErr result (λ e. (e.1 ≡ order) × (sent seat.new ≡ sent seat.old)) }
        ensures spent { IsErrAnd result (λ e. e.0 ≡ Refusal.SeatSpent) ↔ (length (sent seat.old) ≡ limit_of self.now) }
        ensures else_full { IfErr result (λ e. (e.0 ≡ Refusal.SeatSpent) ⊎ ((e.0 ≡ Refusal.Full) × Held (capacity_of self.now) (SeatSeesIn self.now seat.old))) }
    {
        if seat.count == self.per_seat {
            return Err((Refusal::SeatSpent, order));
        }
        match self.push(rt, seat, Request::One(order), 1) {
            Ok(ticket) => Ok(ticket),
            Err(Request::One(order)) => Err((Refusal::Full, order)),
            Err(Request::Each(_)) => unreachable!(),
        }
    }

    /// Hands packets for several peers over, which take one place: the orders for which they stand, under the seat's next numbers. The
    /// ticket says the first of these. Where no order is left of them, nothing is handed over.
    ///
    /// E10 where the seat may not submit so many orders any more, else E9 where a step of this call found the queue full. They then
    /// come back as they were, and nothing has changed.
    pub fn submit_each<R: Wait>(
        &self,
        rt: &R,
        seat: &mut Seat,
        broadcast: Broadcast,
    ) -> Result<Ticket, (Refusal, Broadcast)>
        requires { IsSeatOf self.now seat.old }
        ensures same { IsSeatOf self.now seat.new × (number_of seat.new ≡ number_of seat.old) }

        ensures next { IfOk result (λ ticket. AreNext seat.old broadcast seat.new ticket) }
        ensures pushed { 0 < length broadcast → OnOk result (AllStoodLast self.now seat.new (numbered (number_of seat.old) (length (sent seat.old)) broadcast)) }

        ensures back { IfErr result (λ e. (e.1 ≡ broadcast) × (sent seat.new ≡ sent seat.old)) }
        ensures spent { IsErrAnd result (λ e. e.0 ≡ Refusal.SeatSpent) ↔ (limit_of self.now < length (sent seat.old) + length broadcast) }
        ensures else_full { IfErr result (λ e. (e.0 ≡ Refusal.SeatSpent) ⊎ ((e.0 ≡ Refusal.Full) × Held (capacity_of self.now) (SeatSeesIn self.now seat.old))) }
    {
        let count = broadcast.len();
        if count > self.per_seat - seat.count {
            return Err((Refusal::SeatSpent, broadcast));
        }
        if count == 0 {
            return Ok(Ticket {
                seat: seat.number,
                number: seat.count,
            });
        }
        match self.push(rt, seat, Request::Each(broadcast), count) {
            Ok(ticket) => Ok(ticket),
            Err(Request::Each(broadcast)) => Err((Refusal::Full, broadcast)),
            Err(Request::One(_)) => unreachable!(),
        }
    }

    // Hands over what is asked for at once, so many orders.
    #[inline(always)]
    fn push<R: Wait>(
        &self,
        rt: &R,
        seat: &mut Seat,
        request: Request,
        count: u32,
    ) -> Result<Ticket, Request>
        requires seat { IsSeatOf self.now seat.old }
        requires counted { (length (orders_of request) ≡ count) × (0 < count) }
        requires room { length (sent seat.old) + count ≤ limit_of self.now }
        ensures same { IsSeatOf self.now seat.new × (number_of seat.new ≡ number_of seat.old) }

        ensures next { IfOk result (λ ticket. AreNext seat.old (orders_of request) seat.new ticket) }
        ensures pushed { OnOk result (AllStoodLast self.now seat.new (numbered (number_of seat.old) (length (sent seat.old)) (orders_of request))) }

        ensures back { IfErr result (λ back. (back ≡ request) × (sent seat.new ≡ sent seat.old)) }
        ensures full { OnErr result (Held (capacity_of self.now) (SeatSeesIn self.now seat.old)) }
    {
        let number = seat.count;
        let parcel = Parcel {
            seat: seat.number,
            number,
            request,
        };
        if let Err(back) = self.ring.try_push_as::<Submits>(&mut seat.pass, parcel) {
            return self.push_again(rt, seat, back.request, count);
        }
        seat.count = number + count;
        Ok(Ticket {
            seat: seat.number,
            number,
        })
    }

    // The same where the first attempt failed: the queue is full, or another thread is in the way.
    #[cold]
    #[inline(never)]
    fn push_again<R: Wait>(
        &self,
        rt: &R,
        seat: &mut Seat,
        request: Request,
        count: u32,
    ) -> Result<Ticket, Request>
        requires seat { IsSeatOf self.now seat.old }
        requires counted { (length (orders_of request) ≡ count) × (0 < count) }
        requires room { length (sent seat.old) + count ≤ limit_of self.now }
        ensures same { IsSeatOf self.now seat.new × (number_of seat.new ≡ number_of seat.old) }

        ensures next { IfOk result (λ ticket. AreNext seat.old (orders_of request) seat.new ticket) }
        ensures pushed { OnOk result (AllStoodLast self.now seat.new (numbered (number_of seat.old) (length (sent seat.old)) (orders_of request))) }

        ensures back { IfErr result (λ back. (back ≡ request) × (sent seat.new ≡ sent seat.old)) }
        ensures full { OnErr result (Held (capacity_of self.now) (SeatSeesIn self.now seat.old)) }
    {
        let number = seat.count;
        let parcel = Parcel {
            seat: seat.number,
            number,
            request,
        };
        match self.ring.push_as::<Submits, R>(rt, &mut seat.pass, parcel) {
            Ok(()) => {
                seat.count = number + count;
                Ok(Ticket {
                    seat: seat.number,
                    number,
                })
            }
            Err(back) => Err(back.request),
        }
    }

    /// The oldest order that the queue holds; None where a step of this call found it empty, and then nothing has changed.
    #[inline(always)]
    pub fn take<R: Wait>(&self, rt: &R, drain: &mut Drain) -> Option<Submission>
        requires { IsDrainOf self.now drain.old }
        ensures same { IsDrainOf self.now drain.new }

        ensures some { IfSome result (λ item. taken drain.new ≡ taken drain.old ++ item ∷ []) }
        ensures next { IfSome result (IsNextOfSeat self.now drain.old) }
        ensures began { OnSome result (BeganHistory self.now drain.new) }

        ensures none { IfNone result (taken drain.new ≡ taken drain.old) }
        ensures empty { IfNone result (Held 0 (DrainSees self.now drain.old)) }
    {
        if drain.rest.is_some() {
            return drain.next_left(rt);
        }
        let Parcel {
            seat,
            number,
            request,
        } = self.ring.pop_as::<Takes, R>(rt, &mut drain.pass)?;
        match request {
            Request::One(order) => {
                drain.counts[seat as usize] = number + 1;
                Some(Submission {
                    seat,
                    number,
                    order,
                })
            }
            Request::Each(broadcast) => {
                drain.seat = seat;
                drain.number = number;
                drain.rest = Some(broadcast);
                drain.next_left(rt)
            }
        }
    }

    /// Ends the queue's use: how many orders went through it, once each seat is back and all that they submitted was taken.
    ///
    /// E16 where a seat is missing or an order is not yet taken: drain and seats come back as they were, and once the rest
    /// is taken and the missing seats are back the call can be repeated.
    pub fn settle(
        &self,
        drain: Drain,
        finished: Vec<Finished>,
    ) -> Result<Account, (Refusal, Drain, Vec<Finished>)>
        requires drain { IsDrainOf self.now drain }
        requires seats { All (IsFinishedOf self.now) finished.items }
        ensures settled { IsOk result ↔ AllBack self.now drain finished.items }

        ensures account { IfOk result (Counts drain) }
        ensures all_taken { OnOk result (All (λ f. of (seat_of f) (taken drain) ≡ all_sent f) finished.items) }
        ensures empty { OnOk result (Held 0 (DrainSees self.now drain)) }

        ensures back { IfErr result (λ e. (e.0 ≡ Refusal.StillHeld) × (e.1 ≡ drain) × (e.2.items ≡ finished.items)) }
    {
        if !all_back(self, &drain, finished.as_slice()) {
            return Err((Refusal::StillHeld, drain, finished));
        }
        let Drain { counts, pass, .. } = drain;
        let mut pass = take_in(self, pass, finished);
        self.ring.learn_as::<Takes>(&mut pass);
        Ok(Account {
            total: total_of(&counts),
            by_seat: counts,
        })
    }
}
