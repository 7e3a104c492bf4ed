//! How a queue is opened: its seats are counted, and then made one by one.
ghost use Rattle.std.specs.Prelude.{◌≡◌, ◌↔◌, ◌<◌, ◌≤◌, [], length, IsTrue, IfOk};
ghost use Rattle.std.specs.Vec.{vec_capacity};
ghost use Rattle.crossbeam_queue.specs.Passes.{view, IsPassOf};
ghost use Rattle.enet_submit.specs.Rule.{draining, sending, seats_in};
ghost use Rattle.enet_submit.specs.Words.{seats_of, taken, IsInRange, IsOpened, IsSeatOf, IsNew, EachFrom};

use crate::order::Parcel;
use crate::queue::{Ring, SubmitQueue};
use crate::rule::{Makes, View, Widens};
use crate::token::{Drain, Seat};
use crossbeam_queue::Pass;
use std::alloc::{AllocError, Global};

const MAX_CAPACITY: u32 = 65_536;

const MAX_SEATS: u32 = 16;

pub(crate) fn is_in_range(capacity: u32, seats: u32, per_seat: u32) -> bool
    ensures { IsTrue result ↔ IsInRange capacity seats per_seat }
{
    1 <= capacity && capacity <= MAX_CAPACITY && 1 <= seats && seats <= MAX_SEATS && 1 <= per_seat
}

// All growths come first.
pub(crate) fn opened(
    alloc: Global,
    capacity: usize,
    seats: u8,
    per_seat: u32,
) -> Result<(SubmitQueue, Vec<Seat>, Drain), AllocError>
    requires { IsInRange capacity seats per_seat }
    ensures { IfOk result (λ r. IsOpened (record { capacity = capacity; seats = seats; per_seat = per_seat }) r.0 r.1.items r.2) }
{
    let all = Vec::with_capacity(alloc, usize::from(seats))?;
    let (ring, mut pass) = Ring::ruled(alloc, capacity)?;
    let queue = SubmitQueue {
        ring,
        seats,
        per_seat,
    };
    widen(&queue, &mut pass);
    let all = make_seats(&queue, &mut pass, all);
    Ok((queue, all, new_drain(pass)))
}

fn new_drain(pass: Pass<Parcel, View>) -> Drain
    requires few { seats_in (view pass) ≤ 16 }
    requires pass { (pass.me.1 ≡ []) × (view pass ≡ draining (seats_in (view pass)) (seats_in (view pass)) [] []) }
    ensures { (result.pass ≡ pass) × (taken result ≡ []) }
{
    Drain {
        counts: [0; 16],
        pass,
        seat: 0,
        number: 0,
        rest: None,
    }
}

// Tells the drain how many seats there are to be, before the first is made.
fn widen(queue: &SubmitQueue, pass: &mut Pass<Parcel, View>)
    requires { IsPassOf queue.now.ring pass.old × (view pass.old ≡ draining 0 0 [] []) }
    ensures { IsPassOf queue.now.ring pass.new × (view pass.new ≡ draining (seats_of queue.now) 0 [] []) }
{
    for _seat in 0..queue.seats {
        let _spent = queue.ring.another::<Widens>(pass);
    }
}

fn make_seats(queue: &SubmitQueue, pass: &mut Pass<Parcel, View>, mut all: Vec<Seat>) -> Vec<Seat>
    requires pass { IsPassOf queue.now.ring pass.old × (view pass.old ≡ draining (seats_of queue.now) 0 [] []) }
    requires room { (all.items ≡ []) × (vec_capacity all ≡ seats_of queue.now) }
    ensures pass { IsPassOf queue.now.ring pass.new × (view pass.new ≡ draining (seats_of queue.now) (seats_of queue.now) [] []) }
    ensures seats { (length result.items ≡ seats_of queue.now) × EachFrom 0 (λ k s. IsSeatOf queue.now s × IsNew k s) result.items }
{
    for number in 0..queue.seats {
        let theirs = queue.ring.another::<Makes>(pass);
        all.push_reserved(new_seat(number, theirs));
    }
    all
}

fn new_seat(number: u8, pass: Pass<Parcel, View>) -> Seat
    requires { (pass.me.1 ≡ []) × (view pass ≡ sending number (seats_in (view pass)) []) × (number < seats_in (view pass)) }
    ensures { (result.pass ≡ pass) × IsNew number result }
{
    Seat {
        number,
        count: 0,
        pass,
    }
}
