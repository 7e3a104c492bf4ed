//! How many packets a command would dispatch.

ghost use Rattle.std.specs.Prelude.{◌≡◌, ◌≤◌, []};
ghost use Rattle.enet_receiver.specs.ReceiverParts.{receiver_of};
ghost use Rattle.enet_receiver.specs.Private.Walk.{pieces_at, is_fresh, fresh_at, walk, walked};

use crate::held::Held;
use enet_packets::Waiting;
use enet_seq::after;

/// How many packets are held at most, and so in how many turns they are dispatched.
const MOST_TURNS: u32 = 65_534;

/// The packet that a command would make whole.
#[derive(Clone, Copy)]
pub(crate) struct Completed {
    /// Whether it is held, and else waits.
    pub reliable: bool,
    /// The number under which it is held, or for which it waits.
    pub place: u16,
    /// Its unreliable number.
    pub unreliable: u16,
    /// How many pieces it has.
    pub pieces: u32,
}

/// How many pieces the packet of this number has, if it is whole.
fn pieces_at(completed: Option<Completed>, held: &Held, number: u16) -> Option<u32>
    ensures { result ≡ pieces_at completed held.now number }
{
    if let Some(packet) = completed
        && packet.reliable
        && packet.place == number
    {
        return Some(packet.pieces);
    }
    let coming = held.get(number)?;
    if coming.making.is_whole() {
        Some(coming.making.count())
    } else {
        None
    }
}

/// Whether the packet that is made whole goes with this number, and is not before the first that is dispatched.
fn is_fresh(completed: Option<Completed>, number: u16, first: u32) -> bool
    ensures { result ≡ is_fresh completed number first }
{
    match completed {
        None => false,
        Some(packet) => {
            !packet.reliable && packet.place == number && first <= u32::from(packet.unreliable)
        }
    }
}

/// How many unreliable packets go with this number, from the first unreliable number on.
fn fresh_at(completed: Option<Completed>, waiting: &Waiting, number: u16, first: u32) -> u32
    ensures count { result ≡ fresh_at completed waiting.now number first }
    ensures few { result ≤ 65537 }
{
    waiting.fresh_count(number, first) + u32::from(is_fresh(completed, number, first))
}

/// How many packets the whole ones just past the front are, with the unreliable ones that go with them.
fn chain_count(completed: Option<Completed>, held: &Held, waiting: &Waiting, front: u16) -> u32
    ensures { result ≡ walk MOST_TURNS completed held.now waiting.now front }
{
    let mut count = 0;
    let mut last = front;
    for _turn in 0..MOST_TURNS {
        let Some(pieces) = pieces_at(completed, held, after(last, 1)) else {
            return count;
        };
        last = after(last, (pieces % 65_536) as u16);
        count += 1 + fresh_at(completed, waiting, last, 0);
    }
    count
}

/// How many packets are dispatched, once one is made whole.
pub(crate) fn dispatches(
    completed: Option<Completed>,
    held: &Held,
    waiting: &Waiting,
    front: u16,
    unreliable: u16,
) -> u32
    ensures { result ≡ walked MOST_TURNS completed (receiver_of front unreliable held.now waiting.now []) }
{
    let chain = chain_count(completed, held, waiting, front);
    if chain > 0 {
        chain
    } else {
        fresh_at(completed, waiting, front, u32::from(unreliable) + 1)
    }
}
