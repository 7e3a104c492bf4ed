//! What can be read of a host and its peers.

ghost use Rattle.std.specs.Prelude.{◌≡◌, ◌≤◌, IfNone, IfSome};
ghost use Rattle.enet_sender.specs.Counting.{added};
ghost use Rattle.enet_slot.specs.Counting.{Counts, count_sent_again};
ghost use Rattle.enet_host.specs.Ticking.{IsDueIn};
ghost use Rattle.enet_c.specs.Border.{Crosses, Reads, ReadsAllowance, ReadsLine, ReadsPeer, ReadsTraffic};
ghost use Rattle.enet_c.specs.Shapes.{name_meant, ending_told, totals_shown, held_shown, slots_meant};

use crate::numbers::{CLOSED, OK, number_of};
use crate::own::Handle;
use crate::shapes::{
    CoreHeld, CoreLine, CorePeer, CoreReading, CoreSlots, CoreTotals, CoreTraffic, ending_number,
};
use enet_host::Refusal;
use std::alloc::Global;

/// Reads what there is of a peer. E2 where there is none of this name; then nothing is written.
#[unsafe(no_mangle)]
pub extern "C" fn gofnjerta_core_peer(
    alloc: Global,
    handle: &mut Handle,
    peer: &CorePeer,
    reading: &mut CoreReading,
) -> u32
    ensures reads { Crosses (ReadsPeer (name_meant peer.now) reading.old reading.new) handle.old.own.value result handle.new.own.value }
    ensures closed { IfNone handle.old.own.value (reading.new ≡ reading.old) }
{
    let Some(held) = handle.take(alloc) else {
        return CLOSED;
    };
    let found = held.reading(peer.into_name());
    handle.put(held);
    match found {
        Some(found) => {
            *reading = found;
            OK
        }
        None => number_of(Refusal::NoSuchPeer),
    }
}

/// Reads a peer's allowance, in bytes. E2 where there is none of this name; then nothing is written.
#[unsafe(no_mangle)]
pub extern "C" fn gofnjerta_core_allowance(
    alloc: Global,
    handle: &mut Handle,
    peer: &CorePeer,
    bytes: &mut u32,
) -> u32
    ensures reads { Crosses (ReadsAllowance (name_meant peer.now) bytes.old bytes.new) handle.old.own.value result handle.new.own.value }
    ensures closed { IfNone handle.old.own.value (bytes.new ≡ bytes.old) }
{
    let Some(held) = handle.take(alloc) else {
        return CLOSED;
    };
    let found = held.host.allowance(peer.into_name());
    handle.put(held);
    match found {
        Some(found) => {
            *bytes = found;
            OK
        }
        None => number_of(Refusal::NoSuchPeer),
    }
}

/// Reads how the line to a peer is. E2 where there is none of this name; then nothing is written.
#[unsafe(no_mangle)]
pub extern "C" fn gofnjerta_core_line(
    alloc: Global,
    handle: &mut Handle,
    peer: &CorePeer,
    line: &mut CoreLine,
) -> u32
    ensures reads { Crosses (ReadsLine (name_meant peer.now) line.old line.new) handle.old.own.value result handle.new.own.value }
    ensures closed { IfNone handle.old.own.value (line.new ≡ line.old) }
{
    let Some(held) = handle.take(alloc) else {
        return CLOSED;
    };
    let found = held.line(peer.into_name());
    handle.put(held);
    match found {
        Some(found) => {
            *line = found;
            OK
        }
        None => number_of(Refusal::NoSuchPeer),
    }
}

/// Reads how many commands with data went to a peer and were acknowledged. E2 where there is none of this name; then nothing is written.
#[unsafe(no_mangle)]
pub extern "C" fn gofnjerta_core_traffic(
    alloc: Global,
    handle: &mut Handle,
    peer: &CorePeer,
    traffic: &mut CoreTraffic,
) -> u32
    ensures reads { Crosses (ReadsTraffic (name_meant peer.now) traffic.old traffic.new) handle.old.own.value result handle.new.own.value }
    ensures closed { IfNone handle.old.own.value (traffic.new ≡ traffic.old) }
{
    let Some(held) = handle.take(alloc) else {
        return CLOSED;
    };
    let found = held.traffic(peer.into_name());
    handle.put(held);
    match found {
        Some(found) => {
            *traffic = found;
            OK
        }
        None => number_of(Refusal::NoSuchPeer),
    }
}

/// Why a peer's connection ended: 1 this end asked, 2 the other end did, 3 it timed out, 4 it was never answered, 5 the answer didn't fit;
/// 0 where nothing is known of it, as of one that is there, of one that ended without a Disconnect event, or too long ago.
#[unsafe(no_mangle)]
pub extern "C" fn gofnjerta_core_ending(
    alloc: Global,
    handle: &mut Handle,
    peer: &CorePeer,
    why: &mut u32,
) -> u32
    ensures reads { Crosses Reads handle.old.own.value result handle.new.own.value }
    ensures ending { IfSome handle.old.own.value (λ held. why.new ≡ ending_told held.host.slots (name_meant peer.now)) }
    ensures closed { IfNone handle.old.own.value (why.new ≡ why.old) }
{
    let Some(held) = handle.take(alloc) else {
        return CLOSED;
    };
    let found = held.host.ending(peer.into_name());
    handle.put(held);
    *why = ending_number(found);
    OK
}

/// How much went through the host.
#[unsafe(no_mangle)]
pub extern "C" fn gofnjerta_core_totals_of(
    alloc: Global,
    handle: &mut Handle,
    totals: &mut CoreTotals,
) -> u32
    ensures reads { Crosses Reads handle.old.own.value result handle.new.own.value }
    ensures totals { IfSome handle.old.own.value (λ held. totals.new ≡ totals_shown held.host.totals) }
    ensures closed { IfNone handle.old.own.value (totals.new ≡ totals.old) }
{
    let Some(held) = handle.take(alloc) else {
        return CLOSED;
    };
    let found = held.host.totals();
    handle.put(held);
    *totals = CoreTotals {
        datagrams_in: found.datagrams_in,
        bytes_in: found.bytes_in,
        datagrams_out: found.datagrams_out,
        bytes_out: found.bytes_out,
    };
    OK
}

/// In how many milliseconds time brings the host anything, at most 1,000; a tick of fewer changes nothing but its clock.
#[unsafe(no_mangle)]
pub extern "C" fn gofnjerta_core_due_in(alloc: Global, handle: &mut Handle, ms: &mut u32) -> u32
    ensures reads { Crosses Reads handle.old.own.value result handle.new.own.value }
    ensures due { IfSome handle.old.own.value (λ held. IsDueIn held.host ms.new) }
    ensures closed { IfNone handle.old.own.value (ms.new ≡ ms.old) }
{
    let Some(held) = handle.take(alloc) else {
        return CLOSED;
    };
    let due = held.host.due_in();
    handle.put(held);
    *ms = due;
    OK
}

/// How much the host holds of what others sent, and the memory that this takes.
#[unsafe(no_mangle)]
pub extern "C" fn gofnjerta_core_held(
    alloc: Global,
    handle: &mut Handle,
    told: &mut CoreHeld,
) -> u32
    ensures reads { Crosses Reads handle.old.own.value result handle.new.own.value }
    ensures held { IfSome handle.old.own.value (λ held. told.new ≡ held_shown held.host) }
    ensures bound { IfSome handle.old.own.value (λ held. told.new.memory ≤ told.new.most_memory) }
    ensures closed { IfNone handle.old.own.value (told.new ≡ told.old) }
{
    let Some(held) = handle.take(alloc) else {
        return CLOSED;
    };
    let found = CoreHeld::of(&held.host);
    handle.put(held);
    *told = found;
    OK
}

/// How many of the host's slots are free, and how far the connections of the others have come.
#[unsafe(no_mangle)]
pub extern "C" fn gofnjerta_core_slots(
    alloc: Global,
    handle: &mut Handle,
    slots: &mut CoreSlots,
) -> u32
    ensures reads { Crosses Reads handle.old.own.value result handle.new.own.value }
    ensures counts { IfSome handle.old.own.value (λ held. Counts held.host.config.generations held.host.slots (slots_meant slots.new)) }
    ensures closed { IfNone handle.old.own.value (slots.new ≡ slots.old) }
{
    let Some(held) = handle.take(alloc) else {
        return CLOSED;
    };
    let found = held.host.slot_counts();
    handle.put(held);
    *slots = CoreSlots::of(found);
    OK
}

/// How many commands of all peers are sent, not acknowledged, and were sent more than once. All that is sent is looked at.
#[unsafe(no_mangle)]
pub extern "C" fn gofnjerta_core_sent_again(
    alloc: Global,
    handle: &mut Handle,
    count: &mut u64,
) -> u32
    ensures reads { Crosses Reads handle.old.own.value result handle.new.own.value }
    ensures count { IfSome handle.old.own.value (λ held. count.new ≡ added 0 (count_sent_again held.host.slots)) }
    ensures closed { IfNone handle.old.own.value (count.new ≡ count.old) }
{
    let Some(held) = handle.take(alloc) else {
        return CLOSED;
    };
    let found = held.host.sent_again();
    handle.put(held);
    *count = found;
    OK
}
