//! Connections end, and what can be set.

ghost use Rattle.std.specs.Prelude.{◌≡◌, IfSome, true};
ghost use Rattle.enet_codec.specs.declared.config.Admission.TheVariants.{GiveWay, Most};
ghost use Rattle.enet_codec.specs.declared.event.DisconnectMode.TheVariants.{Ask, Later, Now};
ghost use Rattle.enet_slot.specs.Calls.{leaving, pinging, throttling, waiting};
ghost use Rattle.enet_slot.specs.Sharing.{wants_room_in};
ghost use Rattle.enet_host.specs.Calls.{on_named};
ghost use Rattle.enet_host.specs.Host.{named};
ghost use Rattle.enet_c.specs.Border.{Crosses, Settles, SettlesWithMemory, SetsAdmission, SetsBandwidth, SetsSecret, SetsSendLimit};
ghost use Rattle.enet_c.specs.Shapes.{name_meant, secret_meant};

use crate::numbers::{CLOSED, OK, answer};
use crate::own::Handle;
use crate::shapes::{CorePeer, CoreSecret};
use enet_codec::Admission;
use std::alloc::Global;

/// Disconnects: what is queued is dropped, and the event comes once the other end has acknowledged.
#[unsafe(no_mangle)]
pub extern "C" fn gofnjerta_core_disconnect(
    alloc: Global,
    handle: &mut Handle,
    peer: &CorePeer,
    info: u32,
) -> u32
    ensures { Crosses (Settles (λ slots. on_named slots (name_meant peer.now) (leaving Ask info))) handle.old.own.value result handle.new.own.value }
{
    let Some(mut held) = handle.take(alloc) else {
        return CLOSED;
    };
    let done = held.host.disconnect(peer.into_name(), info);
    handle.put(held);
    answer(done)
}

/// Ends the connection at once: the other end is told once, and no event comes here.
#[unsafe(no_mangle)]
pub extern "C" fn gofnjerta_core_disconnect_now(
    alloc: Global,
    handle: &mut Handle,
    peer: &CorePeer,
    info: u32,
) -> u32
    ensures { Crosses (Settles (λ slots. on_named slots (name_meant peer.now) (leaving Now info))) handle.old.own.value result handle.new.own.value }
{
    let Some(mut held) = handle.take(alloc) else {
        return CLOSED;
    };
    let done = held.host.disconnect_now(peer.into_name(), info);
    handle.put(held);
    answer(done)
}

/// Disconnects once all that is queued has gone and each reliable command is acknowledged.
#[unsafe(no_mangle)]
pub extern "C" fn gofnjerta_core_disconnect_later(
    alloc: Global,
    handle: &mut Handle,
    peer: &CorePeer,
    info: u32,
) -> u32
    ensures { Crosses (Settles (λ slots. on_named slots (name_meant peer.now) (leaving Later info))) handle.old.own.value result handle.new.own.value }
{
    let Some(mut held) = handle.take(alloc) else {
        return CLOSED;
    };
    let done = held.host.disconnect_later(peer.into_name(), info);
    handle.put(held);
    answer(done)
}

/// Sets the host's bandwidths, in bytes per second; 0 says that no limit is known.
#[unsafe(no_mangle)]
pub extern "C" fn gofnjerta_core_set_bandwidth(
    alloc: Global,
    handle: &mut Handle,
    incoming: u32,
    outgoing: u32,
) -> u32
    ensures { Crosses (SetsBandwidth incoming outgoing) handle.old.own.value result handle.new.own.value }
{
    let Some(mut held) = handle.take(alloc) else {
        return CLOSED;
    };
    let done = held.host.set_bandwidth(incoming, outgoing);
    handle.put(held);
    answer(done)
}

/// Sets at how many bytes of payload or commands, queued or sent and not acknowledged, a peer takes no further packet (E9).
#[unsafe(no_mangle)]
pub extern "C" fn gofnjerta_core_set_send_limit(
    alloc: Global,
    handle: &mut Handle,
    bytes: u64,
    commands: u64,
) -> u32
    ensures { Crosses (SetsSendLimit (record { bytes = bytes; commands = commands })) handle.old.own.value result handle.new.own.value }
{
    let Some(mut held) = handle.take(alloc) else {
        return CLOSED;
    };
    held.host.set_send_limit(bytes, commands);
    handle.put(held);
    OK
}

/// Sets the secret by which peers that begin from now on draw.
#[unsafe(no_mangle)]
pub extern "C" fn gofnjerta_core_set_secret(
    alloc: Global,
    handle: &mut Handle,
    secret: &CoreSecret,
) -> u32
    ensures { Crosses (SetsSecret (secret_meant secret.now)) handle.old.own.value result handle.new.own.value }
{
    let Some(mut held) = handle.take(alloc) else {
        return CLOSED;
    };
    held.host.set_secret(secret.into_secret());
    handle.put(held);
    OK
}

/// From now on the peer which has been waiting longest for its client gives way to a CONNECT that finds no free slot.
#[unsafe(no_mangle)]
pub extern "C" fn gofnjerta_core_give_way(alloc: Global, handle: &mut Handle) -> u32
    ensures { Crosses (SetsAdmission GiveWay) handle.old.own.value result handle.new.own.value }
{
    let Some(mut held) = handle.take(alloc) else {
        return CLOSED;
    };
    let done = held.host.admit(Admission::GiveWay);
    handle.put(held);
    answer(done)
}

/// Sets how many peers that began by a CONNECT may be connected or leaving at once: 1 to the number of slots.
#[unsafe(no_mangle)]
pub extern "C" fn gofnjerta_core_set_most(alloc: Global, handle: &mut Handle, peers: u16) -> u32
    ensures { Crosses (SetsAdmission (Most peers)) handle.old.own.value result handle.new.own.value }
{
    let Some(mut held) = handle.take(alloc) else {
        return CLOSED;
    };
    let done = held.host.admit(Admission::Most { peers });
    handle.put(held);
    answer(done)
}

/// Sets the throttle's interval in milliseconds, and its acceleration and deceleration in parts of 32.
#[unsafe(no_mangle)]
pub extern "C" fn gofnjerta_core_throttle_configure(
    alloc: Global,
    handle: &mut Handle,
    peer: &CorePeer,
    interval: u32,
    acceleration: u32,
    deceleration: u32,
) -> u32
    ensures configures { Crosses (SettlesWithMemory (λ slots. on_named slots (name_meant peer.now) (throttling interval acceleration deceleration))) handle.old.own.value result handle.new.own.value }
    ensures wanted { IfSome handle.old.own.value (λ held. result ≡ 1 → wants_room_in (named held.host.slots (name_meant peer.now)) ≡ true) }
{
    let Some(mut held) = handle.take(alloc) else {
        return CLOSED;
    };
    let done = held
        .host
        .throttle_configure(peer.into_name(), interval, acceleration, deceleration);
    handle.put(held);
    answer(done)
}

/// Sets after how many milliseconds a peer that was not heard is pinged; 0 stands for 500.
#[unsafe(no_mangle)]
pub extern "C" fn gofnjerta_core_set_ping_interval(
    alloc: Global,
    handle: &mut Handle,
    peer: &CorePeer,
    ms: u32,
) -> u32
    ensures { Crosses (Settles (λ slots. on_named slots (name_meant peer.now) (pinging ms))) handle.old.own.value result handle.new.own.value }
{
    let Some(mut held) = handle.take(alloc) else {
        return CLOSED;
    };
    let done = held.host.set_ping_interval(peer.into_name(), ms);
    handle.put(held);
    answer(done)
}

/// Sets how long the other end may leave a command unacknowledged; a 0 stands for the standard number.
#[unsafe(no_mangle)]
pub extern "C" fn gofnjerta_core_set_timeout(
    alloc: Global,
    handle: &mut Handle,
    peer: &CorePeer,
    limit: u32,
    minimum: u32,
    maximum: u32,
) -> u32
    ensures { Crosses (Settles (λ slots. on_named slots (name_meant peer.now) (waiting limit minimum maximum))) handle.old.own.value result handle.new.own.value }
{
    let Some(mut held) = handle.take(alloc) else {
        return CLOSED;
    };
    let done = held
        .host
        .set_timeout(peer.into_name(), limit, minimum, maximum);
    handle.put(held);
    answer(done)
}
