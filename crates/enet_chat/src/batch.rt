//! The orders of several chat packets, receiver by receiver.
ghost use Rattle.std.specs.Prelude.{◌≡◌, ◌≤◌, ◌++◌, [], ◌∷◌, length, take, drop, true, IfErr, IfOk, IfSome, OnErr, OnOk, option_to_list};
ghost use Rattle.enet_chat.specs.Chat.{relayed};
ghost use Rattle.enet_chat.specs.Relaying.{SameForEach, relayed_all};
ghost use Rattle.enet_chat.specs.Private.Relaying.{IsPacket, ArePackets};
ghost use Rattle.enet_chat.specs.Private.Grouping.{relayed_to, grouped, outward, outwards};

use crate::table::Table;
use enet_codec::{Event, Outward, PeerRef, RELIABLE, Refusal};
use enet_submit::{Broadcast, Order};
use std::alloc::Global;
use std::collections::VecDeque;

// So many events at most are taken one after another, and so many chat packets expanded together.
pub(crate) const MOST_EVENTS: usize = 64;

// How many chat packets come first in the backlog, at most so many.
pub(crate) fn packets_first(backlog: &VecDeque<Event>, most: usize) -> usize
    ensures within { result ≤ length backlog.now.items }
    ensures packets { ArePackets (take result backlog.now.items) }
{
    let mut count = 0;
    while count < most && count < backlog.len() {
        if !is_packet(&backlog[count]) {
            break;
        }
        count += 1;
    }
    count
}

fn is_packet(event: &Event) -> bool
    ensures { result ≡ true → IsPacket event.now }
{
    matches!(event, Event::Receive { .. })
}

// What the first events of the backlog give, which are chat packets.
pub(crate) fn batch_orders(
    alloc: Global,
    table: &Table,
    backlog: &VecDeque<Event>,
    count: usize,
) -> Result<VecDeque<Order>, Refusal>
    requires within { count ≤ length backlog.now.items }
    requires packets { ArePackets (take count backlog.now.items) }
    ensures orders { IfOk result (λ orders. SameForEach orders.items (relayed_all table.now (take count backlog.now.items))) }
    ensures memory { IfErr result (λ why. why ≡ Refusal.Memory) }
{
    let mut orders = VecDeque::new(alloc);
    put_grouped(&mut orders, table.peers.as_slice(), backlog, count)?;
    Ok(orders)
}

// The same as packets for several peers, which have the receivers one after another; None for want of memory, or where they are too many
// orders for a seat.
pub(crate) fn broadcast_of(
    alloc: Global,
    table: &Table,
    backlog: &VecDeque<Event>,
    count: usize,
) -> Option<Broadcast>
    requires within { count ≤ length backlog.now.items }
    requires packets { ArePackets (take count backlog.now.items) }
    ensures orders { IfSome result (λ broadcast. SameForEach broadcast (relayed_all table.now (take count backlog.now.items))) }
{
    let Ok(peers) = Vec::from_slice(alloc, table.as_slice()) else {
        return None;
    };
    let packets = packets_of(alloc, backlog, count)?;
    match Broadcast::new(peers, packets) {
        Ok(broadcast) => Some(broadcast),
        Err(_) => None,
    }
}

// The packets of the first events, each for all but the peer from which it came. None for want of memory.
fn packets_of(alloc: Global, backlog: &VecDeque<Event>, count: usize) -> Option<Vec<Outward>>
    requires { count ≤ length backlog.now.items }
    ensures { IfSome result (λ packets. packets.items ≡ outwards (take count backlog.now.items)) }
{
    let mut packets = Vec::new(alloc);
    for at in 0..count {
        if !put_packet(&mut packets, &backlog[at]) {
            return None;
        }
    }
    Some(packets)
}

// Puts the packet of an event behind these; false for want of memory.
fn put_packet(packets: &mut Vec<Outward>, event: &Event) -> bool
    ensures { result ≡ true → packets.new.items ≡ packets.old.items ++ outward event.now }
{
    let Event::Receive { peer, packet } = event else {
        return true;
    };
    let flags = match packet.channel {
        0 => RELIABLE,
        1 => 0,
        _ => return true,
    };
    let Ok(body) = packet.body.clone() else {
        return false;
    };
    let outward = Outward {
        except: Some(*peer),
        channel: packet.channel,
        flags,
        body,
    };
    packets.push(outward).is_ok()
}

// Puts what the first events of the backlog give behind these orders, receiver by receiver. For want of memory it may put some of it.
pub(crate) fn put_grouped(
    orders: &mut VecDeque<Order>,
    peers: &[PeerRef],
    backlog: &VecDeque<Event>,
    count: usize,
) -> Result<(), Refusal>
    requires { count ≤ length backlog.now.items }
    ensures put { OnOk result (orders.new.items ≡ orders.old.items ++ grouped peers.now (take count backlog.now.items)) }
    ensures kept { OnErr result (take (length orders.old.items) orders.new.items ≡ orders.old.items) }
    ensures memory { IfErr result (λ why. why ≡ Refusal.Memory) }
{
    if orders.reserve(peers.len().saturating_mul(count)).is_err() {
        return Err(Refusal::Memory);
    }
    for peer in peers {
        put_all_for(orders, *peer, backlog, count)?;
    }
    Ok(())
}

// Puts what the first events of the backlog give for one peer behind these orders, or for want of memory some of it.
fn put_all_for(
    orders: &mut VecDeque<Order>,
    peer: PeerRef,
    backlog: &VecDeque<Event>,
    count: usize,
) -> Result<(), Refusal>
    requires { count ≤ length backlog.now.items }
    ensures put { OnOk result (orders.new.items ≡ orders.old.items ++ relayed_to peer (take count backlog.now.items)) }
    ensures kept { OnErr result (take (length orders.old.items) orders.new.items ≡ orders.old.items) }
    ensures memory { IfErr result (λ why. why ≡ Refusal.Memory) }
{
    for at in 0..count {
        put_for(orders, peer, &backlog[at])?;
    }
    Ok(())
}

// Puts what an event gives for one peer behind these orders.
fn put_for(orders: &mut VecDeque<Order>, peer: PeerRef, event: &Event) -> Result<(), Refusal>
    ensures put { OnOk result (orders.new.items ≡ orders.old.items ++ relayed (peer ∷ []) event.now) }
    ensures same { OnErr result (orders.new.items ≡ orders.old.items) }
    ensures memory { IfErr result (λ why. why ≡ Refusal.Memory) }
{
    match order_for(peer, event)? {
        Some(order) => orders.push_back(order).map_err(|_| Refusal::Memory),
        None => Ok(()),
    }
}

// The order that an event gives for one peer.
#[inline(always)]
fn order_for(peer: PeerRef, event: &Event) -> Result<Option<Order>, Refusal>
    ensures order { IfOk result (λ order. option_to_list order ≡ relayed (peer ∷ []) event.now) }
    ensures memory { IfErr result (λ why. why ≡ Refusal.Memory) }
{
    let Event::Receive { peer: from, packet } = event else {
        return Ok(None);
    };
    let flags = match packet.channel {
        0 => RELIABLE,
        1 => 0,
        _ => return Ok(None),
    };
    if *from == peer {
        return Ok(None);
    }
    let Ok(body) = packet.body.clone() else {
        return Err(Refusal::Memory);
    };
    Ok(Some(Order::Submit {
        peer,
        channel: packet.channel,
        flags,
        body,
    }))
}

// Drops the first events of the backlog.
pub(crate) fn drop_first(backlog: &mut VecDeque<Event>, count: usize)
    requires { count ≤ length backlog.old.items }
    ensures { backlog.new.items ≡ drop count backlog.old.items }
{
    let _ = backlog.drain(..count);
}
