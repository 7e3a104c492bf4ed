//! What the relay makes of an event.
ghost use Rattle.std.specs.Prelude.{◌≡◌, ◌++◌, [], ◌∷◌, IfOk, OnOk, IfErr};
ghost use Rattle.enet_chat.specs.Peers.{others};
ghost use Rattle.enet_chat.specs.Chat.{relayed, to_each};

use crate::table::Table;
use bytes::Bytes;
use enet_codec::{Event, PeerRef, RELIABLE, Refusal};
use enet_submit::Order;
use std::alloc::Global;

/// The orders that an event gives, over the table as it is.
///
/// A packet received on channel 0 goes to every other peer of the table, in its order, on channel 0 with the packet flag
/// RELIABLE (1); one received on channel 1 goes the same way on channel 1 with no flags. Its bytes are the same. Every other
/// event gives none.
///
/// E1 for want of memory.
pub fn relay_step(alloc: Global, table: &Table, event: &Event) -> Result<Vec<Order>, Refusal>
    ensures orders { IfOk result (λ orders. orders.items ≡ relayed table.now event.now) }
    ensures memory { IfErr result (λ why. why ≡ Refusal.Memory) }
{
    let Event::Receive { peer, packet } = event else {
        return Ok(Vec::new(alloc));
    };
    let flags = match packet.channel {
        0 => RELIABLE,
        1 => 0,
        _ => return Ok(Vec::new(alloc)),
    };
    let peers = table.peers.as_slice();
    to_others(alloc, peers, *peer, packet.channel, flags, &packet.body)
}

// One packet to every peer but this one.
fn to_others(
    alloc: Global,
    peers: &[PeerRef],
    from: PeerRef,
    channel: u8,
    flags: u8,
    body: &Bytes,
) -> Result<Vec<Order>, Refusal>
    ensures orders { IfOk result (λ orders. orders.items ≡ to_each (others peers.now from) channel flags body.now) }
    ensures memory { IfErr result (λ why. why ≡ Refusal.Memory) }
{
    let mut orders = Vec::new(alloc);
    for peer in peers {
        if *peer != from {
            push_order(&mut orders, *peer, channel, flags, body)?;
        }
    }
    Ok(orders)
}

fn push_order(
    orders: &mut Vec<Order>,
    peer: PeerRef,
    channel: u8,
    flags: u8,
    body: &Bytes,
) -> Result<(), Refusal>
    ensures pushed { OnOk result (orders.new.items ≡ orders.old.items ++ to_each (peer ∷ []) channel flags body.now) }
    ensures memory { IfErr result (λ why. why ≡ Refusal.Memory) }
{
    let Ok(body) = body.clone() else {
        return Err(Refusal::Memory);
    };
    let order = Order::Submit {
        peer,
        channel,
        flags,
        body,
    };
    orders.push(order).map_err(|_| Refusal::Memory)
}
