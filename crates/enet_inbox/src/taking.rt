//! How what comes is put to the packets that wait to be taken.

ghost use Rattle.std.specs.Prelude.{◌≡◌, ◌+◌, ◌++◌, ◌≤◌, [], ◌∷◌, All, Bool, IsTrue, IfSome, IfNone, Some, false, length, map};
ghost use Rattle.std.specs.VecDeque.{deque_len, deque_capacity};
ghost use Rattle.enet_codec.specs.declared.packet.Packet.{Packet};
ghost use Rattle.enet_seq.specs.Windows.{acknowledges};
ghost use Rattle.enet_receiver.specs.ArrivingData.{data_command};
ghost use Rattle.enet_receiver.specs.declared.took.Took.TheVariants.{Held};
ghost use Rattle.enet_receiver.specs.Foresight.{outcome_for, after_command, alone, foreseen, WouldBeHeld};
ghost use Rattle.enet_receiver.specs.Receiver.{held_bytes, held_packets};
ghost use Rattle.enet_inbox.specs.DataEffect.{packet_of, emptied};
ghost use Rattle.enet_inbox.specs.Invariant.{IsShort};
ghost use Rattle.enet_inbox.specs.Private.Invariant.{bytes_in};

use enet_codec::{Packet, UNSEQUENCED};
use enet_packets::Bodies;
use enet_receiver::{ArrivingData, Incoming};
use std::alloc::Global;
use std::collections::VecDeque;

/// Hands over all that a receiver dispatched, and answers how many bytes it has.
fn hand_over(receiver: &mut Incoming, untaken: &mut VecDeque<Packet>) -> u128
    requires room { deque_len untaken.old + length receiver.old.receiver.dispatched ≤ deque_capacity untaken.old }
    requires short { All IsShort untaken.old.items }
    ensures receiver { receiver.new ≡ emptied receiver.old }
    ensures untaken { untaken.new.items ≡ untaken.old.items ++ map (packet_of receiver.old.channel) receiver.old.receiver.dispatched }
    ensures bytes { bytes_in untaken.new.items ≡ bytes_in untaken.old.items + result }
    ensures short { All IsShort untaken.new.items }
{
    let mut bytes = 0;
    while let Some(packet) = receiver.pop() {
        bytes += packet.body.len() as u128;
        untaken.push_back_reserved(packet);
    }
    bytes
}

/// Takes a command in that the receiver would take in, and hands over what that dispatches, so many packets. Answers how many
/// bytes they have; None, with nothing changed, where memory is refused.
pub(crate) fn take_in(
    receiver: &mut Incoming,
    untaken: &mut VecDeque<Packet>,
    arriving: ArrivingData<'_>,
    full: bool,
    dispatches: u32,
) -> Option<u128>
    requires held { outcome_for receiver.old (Some (data_command arriving)) full ≡ Held }
    requires dispatches { dispatches ≡ (foreseen receiver.old (Some (data_command arriving)) full).dispatches }
    requires none_left { receiver.old.receiver.dispatched ≡ [] }
    requires short { All IsShort untaken.old.items }
    ensures receiver { IfSome result (λ _. receiver.new ≡ emptied (after_command receiver.old (Some (data_command arriving.entry)) full)) }
    ensures untaken { IfSome result (λ _. untaken.new.items
        ≡ untaken.old.items ++ map (packet_of receiver.old.channel) (after_command receiver.old (Some (data_command arriving.entry)) full).receiver.dispatched) }
    ensures bytes { IfSome result (λ bytes. bytes_in untaken.new.items ≡ bytes_in untaken.old.items + bytes) }
    ensures short { All IsShort untaken.new.items }
    ensures same_receiver { IfNone result (receiver.new ≡ receiver.old) }
    ensures same_untaken { IfNone result (untaken.new.items ≡ untaken.old.items) }
{
    if untaken.reserve(dispatches as usize).is_err() {
        return None;
    }
    if !receiver.take_in(arriving) {
        return None;
    }
    Some(hand_over(receiver, untaken))
}

/// Takes a command in that the receiver would take in if the unreliable packets that wait there were given up; they are. Answers
/// how many bytes what it dispatches has; None, with nothing changed, where memory is refused.
pub(crate) fn take_in_instead(
    receiver: &mut Incoming,
    untaken: &mut VecDeque<Packet>,
    arriving: ArrivingData<'_>,
) -> Option<u128>
    requires held { outcome_for (alone receiver.old) (Some (data_command arriving)) false ≡ Held }
    requires none_left { receiver.old.receiver.dispatched ≡ [] }
    requires short { All IsShort untaken.old.items }
    ensures receiver { IfSome result (λ _. receiver.new ≡ emptied (after_command (alone receiver.old) (Some (data_command arriving.entry)) false)) }
    ensures untaken { IfSome result (λ _. untaken.new.items
        ≡ untaken.old.items ++ map (packet_of receiver.old.channel) (after_command (alone receiver.old) (Some (data_command arriving.entry)) false).receiver.dispatched) }
    ensures bytes { IfSome result (λ bytes. bytes_in untaken.new.items ≡ bytes_in untaken.old.items + bytes) }
    ensures short { All IsShort untaken.new.items }
    ensures same_receiver { IfNone result (receiver.new ≡ receiver.old) }
    ensures same_untaken { IfNone result (untaken.new.items ≡ untaken.old.items) }
{
    let dispatches = receiver.dispatches_instead(arriving);
    if untaken.reserve(dispatches as usize).is_err() {
        return None;
    }
    if !receiver.take_in_instead(arriving) {
        return None;
    }
    Some(hand_over(receiver, untaken))
}

/// Takes a command in that the receiver would take in, where its packet comes alone, and puts that to the untaken ones at once.
/// Answers how many bytes it has; None, with nothing changed, where it doesn't come alone or memory is refused.
pub(crate) fn take_in_at_once(
    receiver: &mut Incoming,
    untaken: &mut VecDeque<Packet>,
    arriving: ArrivingData<'_>,
    bodies: &mut Bodies,
) -> Option<u128>
    requires held { WouldBeHeld receiver.old (Some (data_command arriving)) }
    requires short { All IsShort untaken.old.items }
    ensures receiver { IfSome result (λ _. (full : Bool) → outcome_for receiver.old (Some (data_command arriving.entry)) full ≡ Held
        → receiver.new ≡ emptied (after_command receiver.old (Some (data_command arriving.entry)) full)) }
    ensures untaken { IfSome result (λ _. (full : Bool) → outcome_for receiver.old (Some (data_command arriving.entry)) full ≡ Held
        → untaken.new.items ≡ untaken.old.items ++ map (packet_of receiver.old.channel) (after_command receiver.old (Some (data_command arriving.entry)) full).receiver.dispatched) }
    ensures bytes { IfSome result (λ bytes. bytes_in untaken.new.items ≡ bytes_in untaken.old.items + bytes) }
    ensures short { All IsShort untaken.new.items }
    ensures as_much_held { held_bytes receiver.new.receiver ≡ held_bytes receiver.old.receiver }
    ensures as_many_held { held_packets receiver.new.receiver ≡ held_packets receiver.old.receiver }
    ensures same_receiver { IfNone result (receiver.new ≡ receiver.old) }
    ensures same_untaken { IfNone result (untaken.new.items ≡ untaken.old.items) }
{
    if untaken.len() == untaken.capacity() && untaken.reserve(1).is_err() {
        return None;
    }
    let Some(packet) = receiver.take_in_at_once(arriving, bodies) else {
        return None;
    };
    let bytes = packet.body.len() as u128;
    untaken.push_back_reserved(packet);
    Some(bytes)
}

/// Takes a command in that the receiver would take in while the inbox has room, where its packet comes alone, and puts that to the
/// untaken ones at once. Answers how many bytes it has; None, with nothing changed, where it wouldn't, its packet doesn't come alone
/// or memory is refused.
#[inline(always)]
pub(crate) fn take_at_once(
    receiver: &mut Incoming,
    untaken: &mut VecDeque<Packet>,
    arriving: ArrivingData<'_>,
    bodies: &mut Bodies,
) -> Option<u128>
    requires short { All IsShort untaken.old.items }
    ensures held { IfSome result (λ _. outcome_for receiver.old (Some (data_command arriving.entry)) false ≡ Held) }
    ensures acknowledged { IfSome result (λ _. IsTrue (acknowledges receiver.old.receiver.front arriving.entry.head.number)) }
    ensures receiver { IfSome result (λ _. receiver.new ≡ emptied (after_command receiver.old (Some (data_command arriving.entry)) false)) }
    ensures untaken { IfSome result (λ _. untaken.new.items
        ≡ untaken.old.items ++ map (packet_of receiver.old.channel) (after_command receiver.old (Some (data_command arriving.entry)) false).receiver.dispatched) }
    ensures bytes { IfSome result (λ bytes. bytes_in untaken.new.items ≡ bytes_in untaken.old.items + bytes) }
    ensures short { All IsShort untaken.new.items }
    ensures as_much_held { held_bytes receiver.new.receiver ≡ held_bytes receiver.old.receiver }
    ensures as_many_held { held_packets receiver.new.receiver ≡ held_packets receiver.old.receiver }
    ensures same_receiver { IfNone result (receiver.new ≡ receiver.old) }
    ensures same_untaken { IfNone result (untaken.new.items ≡ untaken.old.items) }
{
    if untaken.len() == untaken.capacity() && untaken.reserve(1).is_err() {
        return None;
    }
    let Some(packet) = receiver.take_at_once(arriving, bodies) else {
        return None;
    };
    let bytes = packet.body.len() as u128;
    untaken.push_back_reserved(packet);
    Some(bytes)
}

/// Adds an unsequenced packet, where memory is not refused.
pub(crate) fn append(
    alloc: Global,
    untaken: &mut VecDeque<Packet>,
    channel: u8,
    payload: &[u8],
    bodies: &mut Bodies,
) -> bool
    ensures added { IsTrue result → untaken.new.items ≡ untaken.old.items ++ (record { channel = channel; flags = 2; body = payload.now }) ∷ [] }
    ensures unchanged { result ≡ false → untaken.new.items ≡ untaken.old.items }
{
    if untaken.reserve(1).is_err() {
        return false;
    }
    let Ok(body) = bodies.body(alloc, payload) else {
        return false;
    };
    untaken.push_back_reserved(Packet {
        channel,
        flags: UNSEQUENCED,
        body,
    });
    true
}
