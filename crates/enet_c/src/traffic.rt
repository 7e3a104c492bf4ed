//! Connections, packets, datagrams and time.

ghost use Rattle.std.specs.Prelude.{◌≡◌, None, map, IfNone};
ghost use Rattle.enet_host.specs.Ticking.{ticked};
ghost use Rattle.enet_c.specs.Border.{closed, Crosses, Asks, Broadcasts, BroadcastsEach, PutsOut, Stages, SubmitsStaged, SubmitsTo, TakesIn};
ghost use Rattle.enet_c.specs.Shapes.{address_meant, name_meant};

use crate::numbers::{CLOSED, OK, number_of};
use crate::own::Handle;
use crate::shapes::{CoreAddress, CoreDatagram, CorePeer, CoreReceived};
use bytes::Bytes;
use enet_host::Refusal;
use std::alloc::Global;

/// Asks the host at this address for a connection, and names its peer where the answer is 0. E8 for no channels, E7 where no
/// slot is free that has a generation left, E1.
#[unsafe(no_mangle)]
pub extern "C" fn gofnjerta_core_connect(
    alloc: Global,
    handle: &mut Handle,
    to: &CoreAddress,
    channels: u8,
    info: u32,
    word: u32,
    peer: &mut CorePeer,
) -> u32
    ensures asks { Crosses (Asks (record { address = address_meant to.now; channels = channels; info = info; word = word }) peer.old peer.new) handle.old.own.value result handle.new.own.value }
    ensures closed { IfNone handle.old.own.value (peer.new ≡ peer.old) }
{
    let Some(mut held) = handle.take(alloc) else {
        return CLOSED;
    };
    let number = held.connect(to.into_address(), channels, info, word, peer);
    handle.put(held);
    number
}

/// Submits a packet: E2, E3, E4, E5 or E9 as the host's `submit`, and E1 where memory for the copy or the packet is refused.
#[unsafe(no_mangle)]
pub extern "C" fn gofnjerta_core_submit(
    alloc: Global,
    handle: &mut Handle,
    peer: &CorePeer,
    channel: u8,
    flags: u8,
    body: &[u8],
) -> u32
    ensures { Crosses (SubmitsTo (name_meant peer.now) channel (record { flags = flags; body = body.now })) handle.old.own.value result handle.new.own.value }
{
    let Some(mut held) = handle.take(alloc) else {
        return CLOSED;
    };
    let number = held.submit(alloc, peer.into_name(), channel, flags, body);
    handle.put(held);
    number
}

/// Copies a body that `gofnjerta_core_submit_staged` submits, in place of the one that was staged before. E1 leaves that one.
#[unsafe(no_mangle)]
pub extern "C" fn gofnjerta_core_stage(alloc: Global, handle: &mut Handle, body: &[u8]) -> u32
    ensures { Crosses (Stages body.now) handle.old.own.value result handle.new.own.value }
{
    let Some(mut held) = handle.take(alloc) else {
        return CLOSED;
    };
    let number = match Bytes::copy_from_slice(alloc, body) {
        Ok(body) => {
            held.staged = Some(body);
            OK
        }
        Err(_) => number_of(Refusal::Memory),
    };
    handle.put(held);
    number
}

/// Submits a packet with the body that is staged, which is shared and not copied. 35 where none is staged.
#[unsafe(no_mangle)]
pub extern "C" fn gofnjerta_core_submit_staged(
    alloc: Global,
    handle: &mut Handle,
    peer: &CorePeer,
    channel: u8,
    flags: u8,
) -> u32
    ensures { Crosses (SubmitsStaged (name_meant peer.now) channel flags) handle.old.own.value result handle.new.own.value }
{
    let Some(mut held) = handle.take(alloc) else {
        return CLOSED;
    };
    let number = held.submit_staged(peer.into_name(), channel, flags);
    handle.put(held);
    number
}

/// Submits a packet to each of these peers, which share one copy of its body. Peers that have gone or aren't connected are passed by; else
/// the answer is the first refusal, E4, E5, E9 or E1, and the other peers get it. E1 without any submission where the copy finds no memory.
#[unsafe(no_mangle)]
pub extern "C" fn gofnjerta_core_broadcast(
    alloc: Global,
    handle: &mut Handle,
    peers: &[CorePeer],
    channel: u8,
    flags: u8,
    body: &[u8],
) -> u32
    ensures { Crosses (Broadcasts (map name_meant peers.now) (record { except = None; channel = channel; flags = flags; body = body.now })) handle.old.own.value result handle.new.own.value }
{
    let Some(mut held) = handle.take(alloc) else {
        return CLOSED;
    };
    let number = held.broadcast(alloc, peers, channel, flags, body);
    handle.put(held);
    number
}

/// Submits a packet to each of these peers, which share one copy of its body, and writes to `answers` what each submission answered, in the
/// order of the peers: 0, E2, E3, E4, E5, E9 or E1. 34 where it has fewer places than there are peers, E1 where the copy finds no memory:
/// then nothing is submitted, and nothing written.
#[unsafe(no_mangle)]
pub extern "C" fn gofnjerta_core_broadcast_each(
    alloc: Global,
    handle: &mut Handle,
    peers: &[CorePeer],
    channel: u8,
    flags: u8,
    body: &[u8],
    answers: &mut [u32],
) -> u32
    ensures answers { Crosses (BroadcastsEach (map name_meant peers.now) channel (record { flags = flags; body = body.now }) answers.old answers.new) handle.old.own.value result handle.new.own.value }
    ensures closed { IfNone handle.old.own.value (answers.new ≡ answers.old) }
{
    let Some(mut held) = handle.take(alloc) else {
        return CLOSED;
    };
    let number = held.broadcast_each(alloc, peers, channel, flags, body, answers);
    handle.put(held);
    number
}

/// A datagram comes from an address.
#[unsafe(no_mangle)]
pub extern "C" fn gofnjerta_core_receive(
    alloc: Global,
    handle: &mut Handle,
    from: &CoreAddress,
    datagram: &[u8],
) -> CoreReceived
    ensures takes_in { Crosses (TakesIn (address_meant from.now) datagram.now result) handle.old.own.value result.status handle.new.own.value }
    ensures closed { IfNone handle.old.own.value (result ≡ record { status = closed; handled = 0; stop = 0 }) }
{
    let Some(mut held) = handle.take(alloc) else {
        return CoreReceived {
            status: CLOSED,
            handled: 0,
            stop: 0,
        };
    };
    let received = held.host.receive(from.into_address(), datagram);
    handle.put(held);
    CoreReceived::of(received)
}

/// Puts out the next datagram, into the first 4,096 bytes of a buffer; 34 where it is shorter.
#[unsafe(no_mangle)]
pub extern "C" fn gofnjerta_core_service(
    alloc: Global,
    handle: &mut Handle,
    buffer: &mut [u8],
    datagram: &mut CoreDatagram,
) -> u32
    ensures puts_out { Crosses (PutsOut buffer.old buffer.new datagram.new) handle.old.own.value result handle.new.own.value }
    ensures closed { IfNone handle.old.own.value ((buffer.new ≡ buffer.old) × (datagram.new ≡ datagram.old)) }
{
    let Some(mut held) = handle.take(alloc) else {
        return CLOSED;
    };
    let number = held.service(buffer, datagram);
    handle.put(held);
    number
}

/// The clock goes on by so many milliseconds, by a minute at most.
#[unsafe(no_mangle)]
pub extern "C" fn gofnjerta_core_tick(alloc: Global, handle: &mut Handle, ms: u32) -> u32
    ensures { Crosses (λ c. (c.number ≡ 0) × (c.after ≡ record c.before { host = ticked c.before.host ms })) handle.old.own.value result handle.new.own.value }
{
    let Some(mut held) = handle.take(alloc) else {
        return CLOSED;
    };
    held.host.tick(ms);
    handle.put(held);
    OK
}
