//! A peer's receivers, by channel.

ghost use Rattle.std.specs.Prelude.{◌≡◌, ◌+◌, ◌^◌, ◌<◌, ◌≤◌, IsTrue, length, map, take};
ghost use Rattle.std.specs.Vec.{vec_capacity};
ghost use Rattle.enet_inbox.specs.Made.{all_receivers};
ghost use Rattle.enet_inbox.specs.Inbox.{cleared_receiver, given_way_receiver};
ghost use Rattle.enet_inbox.specs.Invariant.{packets_in};
ghost use Rattle.enet_inbox.specs.Private.Invariant.{held_in, waiting_in, waiting_packets_in};
ghost use Rattle.enet_inbox.specs.Private.InboxParts.{given_way_but};

use enet_receiver::Incoming;
use std::alloc::Global;

/// Makes room for so many receivers, of so many channels: where there is none, for twice as many as there were. False where memory is
/// refused.
fn make_room(receivers: &mut Vec<Incoming>, count: usize, channels: u8) -> bool
    requires more { length receivers.old.items < count }
    requires within { count ≤ channels }
    ensures items { receivers.new.items ≡ receivers.old.items }
    ensures room { IsTrue result → count ≤ vec_capacity receivers.new }
{
    if count <= receivers.capacity() {
        return true;
    }
    let made = receivers.len();
    let room = count.max(2 * made).min(usize::from(channels));
    receivers.reserve_exact(room - made).is_ok()
}

/// Makes the receivers up to that of a channel, of so many channels; nothing came to them. False where memory is refused. It stays a
/// function of its own, since few commands come to it.
#[inline(never)]
pub(crate) fn make_up_to(
    receivers: &mut Vec<Incoming>,
    alloc: Global,
    channel: u8,
    channels: u8,
    max_packet: u32,
) -> bool
    requires behind { length receivers.old.items ≤ channel }
    requires there { channel < channels }
    ensures made { receivers.new.items ≡ all_receivers max_packet (length receivers.new.items) receivers.old.items }
    ensures within { length receivers.new.items ≤ channels }
{
    let made = receivers.len();
    let count = usize::from(channel) + 1;
    if !make_room(receivers, count, channels) {
        return false;
    }
    for next in made..count {
        let Ok(receiver) = Incoming::open(alloc, next as u8, max_packet) else {
            unreachable!()
        };
        receivers.push_reserved(receiver);
    }
    true
}

/// The bytes that are held or wait at receivers.
pub(crate) fn held_in(receivers: &[Incoming]) -> u128
    requires { held_in receivers.now < 2 ^ 128 }
    ensures { result ≡ held_in receivers.now }
{
    let mut held = 0;
    for receiver in receivers {
        held += u128::from(receiver.held());
    }
    held
}

/// The bytes of the unreliable packets that wait at receivers.
pub(crate) fn waiting_in(receivers: &[Incoming]) -> u128
    requires { waiting_in receivers.now < 2 ^ 128 }
    ensures { result ≡ waiting_in receivers.now }
{
    let mut waiting = 0;
    for receiver in receivers {
        waiting += u128::from(receiver.waiting());
    }
    waiting
}

/// How many packets are held, wait or are in the making at receivers.
pub(crate) fn packets_in(receivers: &[Incoming]) -> usize
    requires { packets_in receivers.now < 2 ^ 64 }
    ensures { result ≡ packets_in receivers.now }
{
    let mut packets = 0;
    for receiver in receivers {
        packets += receiver.packets();
    }
    packets
}

/// How many of those are unreliable.
pub(crate) fn waiting_packets_in(receivers: &[Incoming]) -> usize
    requires { waiting_packets_in receivers.now < 2 ^ 64 }
    ensures { result ≡ waiting_packets_in receivers.now }
{
    let mut waiting = 0;
    for receiver in receivers {
        waiting += receiver.waiting_packets();
    }
    waiting
}

/// Gives the unreliable packets up that wait.
pub(crate) fn give_way(receivers: &mut Vec<Incoming>)
    ensures { receivers.new.items ≡ map given_way_receiver receivers.old.items }
{
    for channel in 0..receivers.len() {
        let receiver = &mut receivers[channel];
        receiver.give_way();
    }
}

/// Gives those of a receiver up, unless it is this channel's.
fn give_way_unless(receiver: &mut Incoming, own: u8)
    ensures { receiver.new ≡ given_way_but own receiver.old }
{
    if receiver.channel() != own {
        receiver.give_way();
    }
}

/// Gives those up on all channels but this one.
pub(crate) fn give_way_but(receivers: &mut Vec<Incoming>, own: u8)
    ensures { receivers.new.items ≡ map (given_way_but own) receivers.old.items }
{
    for channel in 0..receivers.len() {
        let receiver = &mut receivers[channel];
        give_way_unless(receiver, own);
    }
}

/// Lets all go that is held or waits.
pub(crate) fn clear_all(receivers: &mut Vec<Incoming>)
    ensures { receivers.new.items ≡ map cleared_receiver receivers.old.items }
{
    for channel in 0..receivers.len() {
        let receiver = &mut receivers[channel];
        receiver.clear();
    }
}

/// Keeps so many receivers, the first ones, and room for no more.
pub(crate) fn keep_first(receivers: &mut Vec<Incoming>, count: usize)
    ensures { receivers.new.items ≡ take count receivers.old.items }
{
    receivers.truncate(count);
    receivers.shrink_to_fit();
}
