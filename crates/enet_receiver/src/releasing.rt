//! What is dispatched once a piece was taken in.

ghost use Rattle.std.specs.Prelude.{◌≡◌, ◌+◌, ◌≤◌, true, IsTrue, IfSome, IfNone, OnSome};
ghost use Rattle.std.specs.FinMap.{get, remove, len};
ghost use Rattle.std.specs.VecDeque.{deque_len, deque_capacity};
ghost use Rattle.enet_seq.specs.Windows.{after};
ghost use Rattle.enet_seq.specs.Numbering.{wire};
ghost use Rattle.enet_fragment.specs.Whole.{is_whole};
ghost use Rattle.enet_packets.specs.Packets.{packets_in};
ghost use Rattle.enet_receiver.specs.Receiver.{without, next_whole, with_dispatched, all_released};
ghost use Rattle.enet_receiver.specs.Laws.{HavePieces};
ghost use Rattle.enet_receiver.specs.ReceiverParts.{receiver_of};

use crate::held::Held;
use enet_packets::{Dispatched, IncomingPacket, Waiting};
use enet_seq::after;
use std::collections::VecDeque;

/// Takes the packet of this number away, if it is whole.
fn take_whole(held: &mut Held, number: u16) -> Option<IncomingPacket>
    ensures value { result ≡ next_whole (get held.old number) }
    ensures some { OnSome result (held.new ≡ remove held.old number) }
    ensures none { IfNone result (held.new ≡ held.old) }
    ensures whole { IfSome result (λ coming. is_whole coming.making ≡ true) }
{
    let is_whole = match held.get(number) {
        None => false,
        Some(coming) => coming.making.is_whole(),
    };
    if is_whole { held.remove(number) } else { None }
}

/// The number so many past the front, where the front goes: what is held for the numbers up to there goes, and what waits for
/// a number before that.
fn pass(front: u16, held: &mut Held, waiting: &mut Waiting, count: u32) -> u16
    ensures front { result ≡ after front count }
    ensures held { held.new ≡ without wire held.old (after front 1) count }
    ensures waiting { waiting.new ≡ without wire waiting.old front count }
    ensures fewer { packets_in waiting.new ≤ packets_in waiting.old }
{
    let mut last = front;
    for _passed in 0..count {
        waiting.forget(last);
        last = after(last, 1);
        let _ = held.remove(last);
    }
    last
}

/// Dispatches a whole packet that stood just past the front, with the unreliable ones that waited for it. It makes
/// room for none of them.
fn dispatch_next(
    front: &mut u16,
    unreliable: &mut u16,
    held: &mut Held,
    waiting: &mut Waiting,
    dispatched: &mut VecDeque<Dispatched>,
    coming: IncomingPacket,
)
    requires whole { IsTrue (is_whole coming.making) }
    requires room { deque_len dispatched.old + (packets_in waiting.old + 1) ≤ deque_capacity dispatched.old }
    ensures is { receiver_of front.new unreliable.new held.new waiting.new dispatched.new.items
        ≡ with_dispatched wire (receiver_of front.old unreliable.old held.old waiting.old dispatched.old.items) coming }
    ensures fewer { len held.new ≤ len held.old }
    ensures room { deque_len dispatched.new + packets_in waiting.new ≤ deque_len dispatched.old + (packets_in waiting.old + 1) }
    ensures capacity { deque_capacity dispatched.new ≡ deque_capacity dispatched.old }
{
    *front = pass(*front, held, waiting, coming.making.count());
    *unreliable = 0;
    dispatched.push_back_reserved(coming.handed_out());
    waiting.flush(*front, 0, unreliable, dispatched);
}

/// Dispatches the whole packets just past the front, each with the unreliable ones that waited for it, and at last those of
/// the front past the last unreliable number.
pub(crate) fn release(
    front: &mut u16,
    unreliable: &mut u16,
    held: &mut Held,
    waiting: &mut Waiting,
    dispatched: &mut VecDeque<Dispatched>,
)
    requires room { deque_len dispatched.old + (len held.old + packets_in waiting.old) ≤ deque_capacity dispatched.old }
    requires pieces { HavePieces (receiver_of front.old unreliable.old held.old waiting.old dispatched.old.items) }
    ensures { receiver_of front.new unreliable.new held.new waiting.new dispatched.new.items
        ≡ all_released wire (receiver_of front.old unreliable.old held.old waiting.old dispatched.old.items) }
{
    while let Some(coming) = take_whole(held, after(*front, 1)) {
        dispatch_next(front, unreliable, held, waiting, dispatched, coming);
    }
    let first = u32::from(*unreliable) + 1;
    waiting.flush(*front, first, unreliable, dispatched);
}
