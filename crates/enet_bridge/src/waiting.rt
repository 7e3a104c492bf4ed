//! Orders that wait for room in the submit queue.
ghost use Rattle.std.specs.Prelude.{◌≡◌, ◌<◌, ◌++◌, [], length};
ghost use Rattle.crossbeam_queue.specs.Fifo.{Held};
ghost use Rattle.enet_submit.specs.Words.{IsSeatOf, sent, limit_of, capacity_of, SeatSeesIn};
ghost use Rattle.enet_bridge.specs.Ends.{orders};

use enet_codec::Refusal;
use enet_submit::{Order, Seat, SubmitQueue};
use std::collections::VecDeque;
use std::sync::Wait;

/// How far the orders that wait went.
#[derive(Clone, Copy, PartialEq, Eq)]
pub enum Pumped {
    /// All were submitted.
    All,
    /// The queue was full at some moment.
    Full,
    /// The seat has submitted as many as it may.
    Spent,
}

/// Submits what waits, oldest first, until none is left or the queue answers that it has no room. It never tries an order
/// again in the same call, so its caller goes on to take events whatever the queue answers: a relay that tried again in place
/// would never end once both queues are full.
///
/// What the seat submitted and what waits behind it are together the same as before: none is lost, doubled or moved.
pub(crate) fn pump<R: Wait>(
    rt: &R,
    queue: &SubmitQueue,
    seat: &mut Seat,
    waiting: &mut VecDeque<Order>,
) -> Pumped
    requires { IsSeatOf queue.now seat.old }
    ensures same { IsSeatOf queue.now seat.new }
    ensures kept { orders (sent seat.new) ++ waiting.new.items ≡ orders (sent seat.old) ++ waiting.old.items }
    ensures all { result ≡ Pumped.All → waiting.new.items ≡ [] }
    ensures spent { result ≡ Pumped.Spent → length (sent seat.new) ≡ limit_of queue.now }
    ensures waits { result ≡ Pumped.Full → 0 < length waiting.new.items }
    ensures left { result ≡ Pumped.Spent → 0 < length waiting.new.items }
    ensures full { result ≡ Pumped.Full → Held (capacity_of queue.now) (SeatSeesIn queue.now seat.new) }
{
    while let Some(order) = waiting.pop_front() {
        match queue.submit(rt, seat, order) {
            Ok(_) => {}
            Err((why, order)) => {
                waiting.push_front_reserved(order);
                return match why {
                    Refusal::Full => Pumped::Full,
                    _ => Pumped::Spent,
                };
            }
        }
    }
    Pumped::All
}
