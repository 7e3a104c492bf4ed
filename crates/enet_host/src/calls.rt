//! Calls on the slot that a name means.

ghost use Rattle.std.specs.Prelude.{◌≡◌, ◌<◌, length, is_some, true, IsTrue, IfSome, IfNone, IfErr, OnOk, None, Some, []};
ghost use Rattle.std.specs.Option.{option_copied};
ghost use Rattle.enet_peer.specs.Calls.{handed_back};
ghost use Rattle.enet_slot.specs.Calls.{Submits, Does, DoesWithMemory, submission, unless_full, leaving, throttling, set_by};
ghost use Rattle.enet_slot.specs.Sharing.{wants_room_in};
ghost use Rattle.enet_slot.specs.Slotted.{peer_shown, all_shown};
ghost use Rattle.enet_host.specs.Calls.{address_named, on_named};
ghost use Rattle.enet_host.specs.Host.{named, slot_named};

use bytes::Bytes;
use enet_codec::{Addr, DisconnectMode, PeerRef, Refusal};
use enet_outbox::SendLimit;
use enet_peer::Peer;
use enet_slot::{Setting, Slot};

/// The place of the slot of this name, where it has this generation.
fn position_of(slots: &[Slot], name: PeerRef) -> Option<usize>
    ensures place { IfSome result (λ i. (i ≡ name.slot) × (i < length slots.now)) }
    ensures found { IfSome result (λ i. IsTrue (is_some (slot_named (all_shown slots.now) name))) }
    ensures none { IfNone result (slot_named (all_shown slots.now) name ≡ None) }
{
    let place = usize::from(name.slot);
    match slots.get(place) {
        Some(slot) if slot.generation() == name.generation => Some(place),
        _ => None,
    }
}

/// The peer of this name.
pub(crate) fn peer_of(slots: &[Slot], name: PeerRef) -> Option<&Peer>
    ensures { peer_shown (option_copied result) ≡ named (all_shown slots.now) name }
{
    let place = position_of(slots, name)?;
    slots[place].peer()
}

/// Submits a packet to the peer of this name: its body is taken, and an empty one left, unless it is refused.
pub(crate) fn submit(
    slots: &mut Vec<Slot>,
    limit: Option<SendLimit>,
    name: PeerRef,
    channel: u8,
    flags: u8,
    body: &mut Bytes,
) -> Result<(), Refusal>
    ensures does { Submits (handed_back result body.new) (record { flags = flags; body = body.old }) (on_named (all_shown slots.old.items) name (unless_full limit (submission channel (record { flags = flags; body = body.old })))) (all_shown slots.old.items) (all_shown slots.new.items) }
    ensures taken { OnOk result (body.new ≡ []) }
    ensures count { length slots.new.items ≡ length slots.old.items }
{
    let Some(place) = position_of(slots, name) else {
        return Err(Refusal::NoSuchPeer);
    };
    slots[place].submit(limit, channel, flags, body)
}

/// Ends the connection of the peer of this name in this way.
pub(crate) fn disconnect(
    slots: &mut Vec<Slot>,
    name: PeerRef,
    mode: DisconnectMode,
    info: u32,
) -> Result<(), Refusal>
    ensures does { Does result (on_named (all_shown slots.old.items) name (leaving mode info)) (all_shown slots.old.items) (all_shown slots.new.items) }
    ensures count { length slots.new.items ≡ length slots.old.items }
{
    let Some(place) = position_of(slots, name) else {
        return Err(Refusal::NoSuchPeer);
    };
    slots[place].disconnect(mode, info)
}

/// Sets the throttle of the peer of this name, of which the other end is told. E1 only where an earlier command of channel 0xFF
/// is queued or unacknowledged there.
pub(crate) fn throttle_configure(
    slots: &mut Vec<Slot>,
    name: PeerRef,
    interval: u32,
    acceleration: u32,
    deceleration: u32,
) -> Result<(), Refusal>
    ensures does { DoesWithMemory result (on_named (all_shown slots.old.items) name (throttling interval acceleration deceleration)) (all_shown slots.old.items) (all_shown slots.new.items) }
    ensures wanted { IfErr result (λ why. why ≡ Refusal.Memory → wants_room_in (named (all_shown slots.old.items) name) ≡ true) }
    ensures count { length slots.new.items ≡ length slots.old.items }
{
    let Some(place) = position_of(slots, name) else {
        return Err(Refusal::NoSuchPeer);
    };
    slots[place].throttle_configure(interval, acceleration, deceleration)
}

/// Sets something of the peer of this name.
pub(crate) fn set(slots: &mut Vec<Slot>, name: PeerRef, setting: Setting) -> Result<(), Refusal>
    ensures does { Does result (on_named (all_shown slots.old.items) name (set_by setting)) (all_shown slots.old.items) (all_shown slots.new.items) }
    ensures count { length slots.new.items ≡ length slots.old.items }
{
    let Some(place) = position_of(slots, name) else {
        return Err(Refusal::NoSuchPeer);
    };
    slots[place].set(setting)
}

/// Where the peer of this name is.
pub(crate) fn address_of(slots: &[Slot], name: PeerRef) -> Option<Addr>
    ensures { result ≡ address_named (all_shown slots.now) name }
{
    peer_of(slots, name)?;
    Some(slots[usize::from(name.slot)].address())
}
