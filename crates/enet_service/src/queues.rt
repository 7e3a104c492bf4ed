//! The two queues between a service and one game thread.
ghost use Rattle.std.specs.Prelude.{◌≡◌, [], IfSome};
ghost use Rattle.std.specs.List.{All};
ghost use Rattle.enet_submit.specs.Words.{EachFrom, IsNew, IsSeatOf, sent};

use enet_codec::Refusal;
use enet_events::{EventQueue, Poster, Taker};
use enet_submit::{Drain, Seat, SubmitQueue};
use std::alloc::Global;

/// Both queues with their ends.
#[derive(Drop)]
pub struct Queues {
    pub orders: SubmitQueue,
    pub events: EventQueue,
    pub ends: Ends,
}

/// The ends of both queues: the service's thread has drain and poster, the other one seat and taker.
#[derive(Drop)]
pub struct Ends {
    pub drain: Drain,
    pub poster: Poster,
    pub seat: Seat,
    pub taker: Taker,
}

impl Queues {
    ghost use Rattle.std.specs.Prelude.{◌≡◌, IfOk, IfErr, OnOk, Err};
    ghost use Rattle.enet_submit.specs.Words.{capacity_of, limit_of};
    ghost use Rattle.enet_service.specs.ServiceRuns.{AreNew, IsCapacity, AreNotOpened};

    /// Queues of so many places each, in which nothing was put. The seat may submit 4,294,967,295 orders.
    ///
    /// E8 where the places are out of 1 to 65,536, E1 for want of memory.
    pub fn open(alloc: Global, capacity: u32) -> Result<Queues, Refusal>
        ensures new { IfOk result (λ queues. AreNew queues.orders queues.events queues.ends) }
        ensures places { IfOk result (λ queues. (capacity_of queues.orders ≡ capacity) × (queues.events.capacity ≡ capacity)) }
        ensures limit { IfOk result (λ queues. limit_of queues.orders ≡ 4294967295) }
        ensures range { OnOk result (IsCapacity capacity) }
        ensures out_of_range { ¬ (IsCapacity capacity) → result ≡ Err Refusal.BadConfig }
        ensures refused { IfErr result (AreNotOpened capacity) }
    {
        let (orders, seats, drain) = SubmitQueue::open(alloc, capacity, 1, u32::MAX)?;
        let (events, poster, mut takers) = EventQueue::open(alloc, capacity, 1)?;
        let (Some(seat), Some(taker)) = (only_seat(&orders, seats), takers.pop()) else {
            return Err(Refusal::Memory);
        };
        let ends = Ends {
            drain,
            poster,
            seat,
            taker,
        };
        Ok(Queues {
            orders,
            events,
            ends,
        })
    }
}

fn only_seat(queue: &SubmitQueue, mut seats: Vec<Seat>) -> Option<Seat>
    requires of_queue { All (IsSeatOf queue.now) seats.items }
    requires new { EachFrom 0 IsNew seats.items }
    ensures of_queue { IfSome result (IsSeatOf queue.now) }
    ensures new { IfSome result (λ seat. sent seat ≡ []) }
{
    seats.pop()
}
