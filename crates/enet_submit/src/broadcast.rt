//! Packets for several peers.
ghost use Rattle.std.specs.Prelude.{◌≡◌, ◌<◌, ◌+◌, ◌∷◌, [], length, drop, IfNone, IfSome};
ghost use Rattle.enet_codec.specs.Outward.{errands, errands_for};
ghost use Rattle.enet_submit.specs.Broadcast.{errand, errands_from, order_of};

use crate::order::Order;
use bytes::Bytes;
use enet_codec::{Outward, PeerRef, Refusal};
use std::marker::Model;
use std::sync::Wait;

/// Packets that go to several peers. It stands for the orders to submit them one by one: all packets to the first peer, then all to the
/// second, and so on, each to the peers that it doesn't except. A contract sees those that are left of these orders.
#[derive(Drop)]
pub struct Broadcast {
    peers: Vec<PeerRef>,
    packets: Vec<Outward>,
    // The first packet that is left for the first peer that is left.
    peer: usize,
    packet: usize,
    left: u32,
}

impl Model for Broadcast {
    ghost use Rattle.std.specs.Prelude.{◌≡◌, List, length, drop, map};
    ghost use Rattle.enet_submit.specs.Broadcast.{errands_from, order_of};
    ghost use Rattle.enet_submit.specs.declared.order.Order.{Order as Asked};

    ghost Value = { List Asked };

    ghost view = { λ b. map order_of (errands_from (drop b.peer b.peers.items) b.packets.items b.packet) };

    ghost invariant = { λ b. length (errands_from (drop b.peer b.peers.items) b.packets.items b.packet) ≡ b.left };
}

impl Broadcast {
    ghost use Rattle.std.specs.Prelude.{◌≡◌, ◌↔◌, ◌<◌, ◌∷◌, List, [], length, map, IfOk, IfErr, IfNone, IfSome, IsTrue};
    ghost use Rattle.enet_codec.specs.Outward.{errands};
    ghost use Rattle.enet_submit.specs.Broadcast.{order_of};
    ghost use Rattle.enet_submit.specs.declared.order.Order.{Order as Asked};

    /// These packets for these peers.
    ///
    /// E10 where they are more than 4,294,967,295 orders, more than a seat may submit.
    pub fn new(peers: Vec<PeerRef>, packets: Vec<Outward>) -> Result<Broadcast, Refusal>
        ensures orders { IfOk result (λ broadcast. broadcast ≡ map order_of (errands peers.items packets.items)) }
        ensures spent { IfErr result (λ why. (why ≡ Refusal.SeatSpent) × (4294967295 < length (errands peers.items packets.items))) }
    {
        let Some(left) = count(peers.as_slice(), packets.as_slice()) else {
            return Err(Refusal::SeatSpent);
        };
        Ok(Broadcast {
            peers,
            packets,
            peer: 0,
            packet: 0,
            left,
        })
    }

    /// How many orders are left.
    pub fn len(&self) -> u32
        ensures { result ≡ length self.now }
    {
        self.left
    }

    /// No order is left.
    pub fn is_empty(&self) -> bool
        ensures { IsTrue result ↔ (self.now ≡ []) }
    {
        self.left == 0
    }

    /// The next order, which isn't left then. It shares its packet's bytes.
    pub(crate) fn next<R: Wait>(&mut self, rt: &R) -> Option<Order>
        ensures none { IfNone result ((self.old ≡ []) × (self.new ≡ [])) }
        ensures some { IfSome result (λ order. self.old ≡ order ∷ self.new) }
    {
        let (peer, name, packet, outward) = next_place(
            self.peers.as_slice(),
            self.packets.as_slice(),
            self.peer,
            self.packet,
        )?;
        let order = order(rt, name, outward);
        self.peer = peer;
        self.packet = packet + 1;
        self.left -= 1;
        Some(order)
    }
}

// The next peer and the next packet that goes to it, each with its place, from these places on: None where there is none.
fn next_place<'a>(
    peers: &[PeerRef],
    packets: &'a [Outward],
    peer: usize,
    packet: usize,
) -> Option<(usize, PeerRef, usize, &'a Outward)>
    ensures none { IfNone result (errands_from (drop peer peers.now) packets.now packet ≡ []) }
    ensures within { IfSome result (λ r. r.2 < length packets.now) }
    ensures some { IfSome result (λ r. errands_from (drop peer peers.now) packets.now packet
        ≡ errand r.1 r.3.now ∷ errands_from (drop r.0 peers.now) packets.now (r.2 + 1)) }
{
    let mut at = peer;
    let mut from = packet;
    while at < peers.len() {
        let name = peers[at];
        if let Some((place, outward)) = first_for(packets, from, name) {
            return Some((at, name, place, outward));
        }
        at += 1;
        from = 0;
    }
    None
}

// The first packet from this place on that goes to a peer, with its place: None where there is none.
fn first_for(packets: &[Outward], from: usize, peer: PeerRef) -> Option<(usize, &Outward)>
    ensures none { IfNone result (errands_for (drop from packets.now) peer ≡ []) }
    ensures within { IfSome result (λ r. r.0 < length packets.now) }
    ensures some { IfSome result (λ r. errands_for (drop from packets.now) peer ≡ errand peer r.1.now ∷ errands_for (drop (r.0 + 1) packets.now) peer) }
{
    let mut at = from;
    while at < packets.len() {
        let packet = &packets[at];
        if packet.goes_to(peer) {
            return Some((at, packet));
        }
        at += 1;
    }
    None
}

// How many orders packets for these peers are; None where they are more than 4,294,967,295.
fn count(peers: &[PeerRef], packets: &[Outward]) -> Option<u32>
    ensures some { IfSome result (λ n. n ≡ length (errands peers.now packets.now)) }
    ensures none { IfNone result (4294967295 < length (errands peers.now packets.now)) }
{
    let mut all = 0u32;
    for peer in peers {
        let Some(more) = count_for(packets, *peer, all) else {
            return None;
        };
        all = more;
    }
    Some(all)
}

// So many, and those of the packets that go to a peer.
fn count_for(packets: &[Outward], peer: PeerRef, before: u32) -> Option<u32>
    ensures some { IfSome result (λ n. n ≡ before + length (errands_for packets.now peer)) }
    ensures none { IfNone result (4294967295 < before + length (errands_for packets.now peer)) }
{
    let mut all = before;
    for packet in packets {
        if packet.goes_to(peer) {
            if all == u32::MAX {
                return None;
            }
            all += 1;
        }
    }
    Some(all)
}

// The order to submit a packet to a peer.
fn order<R: Wait>(rt: &R, peer: PeerRef, packet: &Outward) -> Order
    ensures { result ≡ order_of (errand peer packet.now) }
{
    Order::Submit {
        peer,
        channel: packet.channel,
        flags: packet.flags,
        body: shared(rt, &packet.body),
    }
}

// These bytes, of which there is one more owner. No memory is asked for: where so many own them that no more can be counted, it waits for
// one of them to go.
fn shared<R: Wait>(rt: &R, body: &Bytes) -> Bytes
    ensures { result ≡ body.now }
{
    for _ in rt.forever() {
        if let Ok(body) = body.clone() {
            return body;
        }
    }
    unreachable!()
}
