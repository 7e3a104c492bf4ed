//! What is left of a run, once both its threads have ended.
ghost use Rattle.std.specs.Prelude.{◌≡◌, List, [], ◌∷◌, ◌++◌, OnOk, IfOk, IfErr};
ghost use Rattle.enet_submit.specs.declared.order.Submission.{Submission};
ghost use Rattle.enet_submit.specs.History.{of, IsHistory};
ghost use Rattle.enet_submit.specs.Words.{IsDrainOf, IsFinishedOf, AllBack, seats_of, taken, all_sent};
ghost use Rattle.enet_events.specs.Words.{IsAllTaken, TakerFits};
ghost use Rattle.enet_bridge.specs.Ends.{orders};
ghost use Rattle.enet_service.specs.ServiceRuns.{CanSettle, AreSettled, IsNotSettled};

use enet_codec::Refusal;
use enet_events::{EventQueue, Poster, Taker};
use enet_submit::{Drain, Finished, Order, SubmitQueue};
use std::alloc::Global;
use std::collections::VecDeque;
use std::sync::Wait;

/// What the two threads hand back of their queues.
#[derive(Drop)]
pub struct Returned {
    pub drain: Drain,
    pub poster: Poster,
    pub seat: Finished,
    pub taker: Taker,
}

/// Settles both queues: their only taker took all that was posted. Answers the orders that the only seat submitted and the drain didn't
/// take, in order: with what the drain took they are all that the seat submitted, numbered without gaps.
///
/// E16 where the only taker didn't take all events, or where the drain, once the queue is empty, hasn't just the orders of the only seat; E1
/// for want of memory.
pub fn settle<R: Wait>(
    rt: &R,
    alloc: Global,
    queue: &SubmitQueue,
    events: &EventQueue,
    back: Returned,
) -> Result<VecDeque<Order>, Refusal>
    requires { CanSettle queue.now events.now back }
    ensures taken { OnOk result (back.taker.taken ≡ back.poster.posted) }
    ensures settled { IfOk result (λ rest. AreSettled back rest.items) }
    ensures rest { IfOk result (λ rest. orders (all_sent back.seat) ≡ orders (taken back.drain) ++ rest.items) }
    ensures refused { IfErr result IsNotSettled }
{
    let Returned {
        drain,
        poster,
        seat,
        taker,
    } = back;
    settle_events(alloc, events, poster, taker)?;
    untaken(rt, alloc, queue, drain, seat)
}

// Settles the event queue: its only taker took all that was posted. E16 where it didn't, E1 for want of memory.
fn settle_events(
    alloc: Global,
    events: &EventQueue,
    poster: Poster,
    taker: Taker,
) -> Result<(), Refusal>
    requires poster { poster.queue ≡ events.now.id }
    requires taker { taker.queue ≡ events.now.id }
    requires one { events.now.id.takers ≡ 1 }
    ensures taken { OnOk result (taker.taken ≡ poster.posted) }
    ensures fits { OnOk result (TakerFits taker poster.posted []) }
    ensures first { OnOk result (taker.index ≡ 0) }
    ensures refused { IfErr result IsNotSettled }
    ensures held { IfErr result (λ why. why ≡ Refusal.StillHeld → ¬ (IsAllTaken poster (taker ∷ []))) }
{
    let Ok(takers) = Vec::from_array(alloc, [taker]) else {
        return Err(Refusal::Memory);
    };
    match events.settle(poster, takers) {
        Ok(_) => Ok(()),
        Err((why, _, _)) => Err(why),
    }
}

// The orders that the only seat submitted and the drain didn't take, in order. E16 where the drain then hasn't just that seat's orders, E1 for
// want of memory.
fn untaken<R: Wait>(
    rt: &R,
    alloc: Global,
    queue: &SubmitQueue,
    drain: Drain,
    seat: Finished,
) -> Result<VecDeque<Order>, Refusal>
    requires drain { IsDrainOf queue.now drain }
    requires seat { IsFinishedOf queue.now seat }
    requires one { seats_of queue.now ≡ 1 }
    ensures rest { IfOk result (λ rest. orders (all_sent seat) ≡ orders (taken drain) ++ rest.items) }
    ensures history { IfOk result (λ rest. (held : List Submission) × (orders held ≡ rest.items) × IsHistory 1 (taken drain ++ held) × (of 0 (taken drain ++ held) ≡ all_sent seat)) }
    ensures refused { IfErr result IsNotSettled }
{
    let (drain, rest) = take_rest(rt, alloc, queue, drain)?;
    settle_orders(alloc, queue, drain, seat)?;
    Ok(rest)
}

// What the queue still holds.
fn take_rest<R: Wait>(
    rt: &R,
    alloc: Global,
    queue: &SubmitQueue,
    drain: Drain,
) -> Result<(Drain, VecDeque<Order>), Refusal>
    requires { IsDrainOf queue.now drain }
    ensures fits { IfOk result (λ r. IsDrainOf queue.now r.0) }
    ensures rest { IfOk result (λ r. (held : List Submission) × (taken r.0 ≡ taken drain ++ held) × (orders held ≡ r.1.items)) }
    ensures memory { IfErr result (λ why. why ≡ Refusal.Memory) }
{
    let mut drain = drain;
    let mut rest = VecDeque::new(alloc);
    for _ in rt.forever() {
        let Some(submission) = queue.take(rt, &mut drain) else {
            break;
        };
        if rest.push_back(submission.order).is_err() {
            return Err(Refusal::Memory);
        }
    }
    Ok((drain, rest))
}

// The drain took all that the only seat submitted, or E16.
fn settle_orders(
    alloc: Global,
    queue: &SubmitQueue,
    drain: Drain,
    seat: Finished,
) -> Result<(), Refusal>
    requires drain { IsDrainOf queue.now drain }
    requires seat { IsFinishedOf queue.now seat }
    requires one { seats_of queue.now ≡ 1 }
    ensures taken { OnOk result (taken drain ≡ all_sent seat) }
    ensures history { OnOk result (IsHistory 1 (taken drain)) }
    ensures refused { IfErr result IsNotSettled }
    ensures held { IfErr result (λ why. why ≡ Refusal.StillHeld → ¬ (AllBack queue.now drain (seat ∷ []))) }
{
    let Ok(seats) = Vec::from_array(alloc, [seat]) else {
        return Err(Refusal::Memory);
    };
    match queue.settle(drain, seats) {
        Ok(_) => Ok(()),
        Err((why, _, _)) => Err(why),
    }
}
