//! The slots of a host: how they begin, whether one holds a connection, and what the host's bandwidths do to them.

ghost use Rattle.std.specs.Prelude.{◌≡◌, ◌≤◌, true, map, replicate, length, All, OnOk, OnErr, IfOk, IfErr};
ghost use Rattle.std.specs.List.{count_by, list_any, position};
ghost use Rattle.enet_codec.specs.Config.{is_in_range};
ghost use Rattle.enet_peer.specs.Peering.{Peering};
ghost use Rattle.enet_peer.specs.Calls as peers;
ghost use Rattle.enet_slot.specs.Slot.{changed};
ghost use Rattle.enet_slot.specs.Giving.{unused_slot, joined_slots};
ghost use Rattle.enet_slot.specs.Receiving.{is_connection};
ghost use Rattle.enet_slot.specs.Sharing.{is_standing, wants_room, shared};
ghost use Rattle.enet_slot.specs.Slotted.{shown, all_shown};
ghost use Rattle.enet_slot.specs.Private.Slotted.{HasRoom};

use crate::Slot;
use enet_codec::{Addr, Config, Refusal};
use std::alloc::Global;

/// So many slots that held no peer yet. E1 where memory is refused.
pub fn unused_slots(alloc: Global, count: u16) -> Result<Vec<Slot>, Refusal>
    ensures slots { IfOk result (λ slots. all_shown slots.items ≡ replicate count unused_slot) }
    ensures memory { IfErr result (λ why. why ≡ Refusal.Memory) }
{
    let Ok(mut slots) = Vec::with_capacity(alloc, usize::from(count)) else {
        return Err(Refusal::Memory);
    };
    for _slot in 0..count {
        slots.push_reserved(Slot::unused());
    }
    Ok(slots)
}

/// As many slots as the settings say, of which the first is given to a peer at this address that is connected from the start. E1
/// where memory is refused.
pub fn joined_slots(alloc: Global, config: &Config, address: Addr) -> Result<Vec<Slot>, Refusal>
    requires { is_in_range config.now ≡ true }
    ensures slots { IfOk result (λ slots. all_shown slots.items ≡ joined_slots config.now address) }
    ensures memory { IfErr result (λ why. why ≡ Refusal.Memory) }
{
    let mut slots = unused_slots(alloc, config.peers)?;
    slots[0].join(alloc, config, address)?;
    Ok(slots)
}

fn position_in(slots: &[Slot], from: Addr, connect_id: u32) -> Option<usize>
    ensures { result ≡ position (λ (s : Slot). is_connection from connect_id (shown s)) slots.now }
{
    slots
        .iter()
        .position(|slot| slot.is_connection(from, connect_id))
}

/// The first slot that holds a connection with this address and connect id, which takes something in.
pub fn position_of_connection(slots: &[Slot], from: Addr, connect_id: u32) -> Option<usize>
    ensures { result ≡ position (is_connection from connect_id) (all_shown slots.now) }
{
    position_in(slots, from, connect_id)
}

/// What a host finds among its slots for an offer.
#[derive(Clone, Copy)]
pub enum Seat {
    /// This one holds the offer's connection already.
    Known(usize),
    /// Else this is the first that is free and has a generation left.
    At(usize),
    /// Else there is none.
    Full,
}

/// How many connections stand.
fn count_standing(slots: &[Slot]) -> u32
    requires { length slots.now ≤ 4095 }
    ensures { result ≡ count_by is_standing (all_shown slots.now) }
{
    let mut count: u32 = 0;
    for slot in slots {
        count += u32::from(slot.is_standing());
    }
    count
}

/// Limits each connected peer's throttle to its share of the host's outgoing bandwidth.
fn share_all(slots: &mut Vec<Slot>, outgoing: u32, standing: u32)
    ensures slots { all_shown slots.new.items ≡ map (shared outgoing standing) (all_shown slots.old.items) }
    ensures count { length slots.new.items ≡ length slots.old.items }
{
    for place in 0..slots.len() {
        slots[place].share(outgoing, standing);
    }
}

/// Shares the host's outgoing bandwidth, in bytes per second, out among its connected peers. A host has at most 4,095 slots.
pub fn share_out(slots: &mut Vec<Slot>, outgoing: u32)
    requires { length slots.old.items ≤ 4095 }
    ensures slots { all_shown slots.new.items ≡ map (shared outgoing (count_by is_standing (all_shown slots.old.items))) (all_shown slots.old.items) }
    ensures count { length slots.new.items ≡ length slots.old.items }
{
    let standing = count_standing(slots);
    share_all(slots, outgoing, standing);
}

/// Makes room for one command of channel 0xFF of each connected peer. E1 where memory is refused, so never where no connected
/// peer has such a command queued or unacknowledged.
fn reserve_all(slots: &mut Vec<Slot>) -> Result<(), Refusal>
    ensures unchanged { all_shown slots.new.items ≡ all_shown slots.old.items }
    ensures count { length slots.new.items ≡ length slots.old.items }
    ensures room { OnOk result (All HasRoom slots.new.items) }
    ensures memory { IfErr result (λ why. why ≡ Refusal.Memory) }
    ensures wanted { OnErr result (list_any wants_room (all_shown slots.old.items) ≡ true) }
{
    for place in 0..slots.len() {
        slots[place].reserve()?;
    }
    Ok(())
}

/// Sets each peer's bandwidths; the connected ones are told, for which there must be room.
fn set_all(slots: &mut Vec<Slot>, incoming: u32, outgoing: u32)
    requires { All HasRoom slots.old.items }
    ensures slots { all_shown slots.new.items ≡ map (changed (λ (p : Peering). peers.with_bandwidth p incoming outgoing)) (all_shown slots.old.items) }
    ensures count { length slots.new.items ≡ length slots.old.items }
{
    for place in 0..slots.len() {
        slots[place].set_bandwidth(incoming, outgoing);
    }
}

/// Sets the bandwidths of each peer, in bytes per second, of which the connected ones are told. E1 where memory for that is
/// refused, with nothing changed; never where no connected peer has a command of channel 0xFF queued or unacknowledged.
pub fn set_bandwidth(slots: &mut Vec<Slot>, incoming: u32, outgoing: u32) -> Result<(), Refusal>
    ensures set { OnOk result (all_shown slots.new.items ≡ map (changed (λ (p : Peering). peers.with_bandwidth p incoming outgoing)) (all_shown slots.old.items)) }
    ensures count { length slots.new.items ≡ length slots.old.items }
    ensures unchanged { OnErr result (all_shown slots.new.items ≡ all_shown slots.old.items) }
    ensures memory { IfErr result (λ why. why ≡ Refusal.Memory) }
    ensures wanted { OnErr result (list_any wants_room (all_shown slots.old.items) ≡ true) }
{
    reserve_all(slots)?;
    set_all(slots, incoming, outgoing);
    Ok(())
}
