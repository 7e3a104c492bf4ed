//! A datagram comes to a host.

ghost use Rattle.std.specs.Prelude.{◌≡◌, ◌<◌, ◌≤◌, if◌then◌else◌, slice_get, Some, None, length, IfSome, IfNone};
ghost use Rattle.enet_host.specs.Opening.{available, is_most, or_oldest, seat};
ghost use Rattle.enet_slot.specs.Giving.{basis_of};
ghost use Rattle.enet_slot.specs.Receiving.{stopped};
ghost use Rattle.enet_host.specs.Receiving.{refuses_at, refused_by, offer_refused, Offers, Arrives, Credits};
ghost use Rattle.enet_host.specs.Crediting.{with_came};
ghost use Rattle.enet_slot.specs.Entering.{entered};
ghost use Rattle.enet_slot.specs.Yielding.{guests_of};
ghost use Rattle.enet_slot.specs.Slot.{SlotState};
ghost use Rattle.enet_host.specs.Private.Receiving.{is_heard, placed, ComesAsAt, IsSeatOf, OfferCredits};
ghost use Rattle.enet_sleepers.specs.Seating.{KeepsSeats};
ghost use Rattle.enet_sleepers.specs.Sleeping.{KeepsSleepers};
ghost use Rattle.enet_sleepers.specs.Unproved.{KeepsUnproved};
ghost use Rattle.enet_slot.specs.Slotted.{all_shown};

use crate::credits::{Credit, count_came, count_offer};
use enet_codec::{Addr, Header, MAX_CHANNELS, NO_PEER, Received, Stop};
use enet_connect::Offer;
use enet_peer::{read_heading, read_offer};
use enet_sleepers::{Seats, Sleepers, Unproved, seat_for};
use enet_slot::{Seat, Slot, Start, count_entered};

/// The answer to a datagram of which nothing was looked at.
const fn stopped(why: Stop) -> Received
    ensures { result ≡ stopped why }
{
    Received {
        handled: 0,
        stop: Some(why),
    }
}

/// The answer to an offer that was taken.
const HANDLED_ONE: Received = Received {
    handled: 1,
    stop: None,
};

/// Why a datagram with this header isn't taken in by the slot that it names.
fn refused_by(slots: &[Slot], from: Addr, header: &Header) -> Option<Stop>
    ensures stop { result ≡ refused_by (all_shown slots.now) from header.now }
    ensures within { IfNone result (header.now.peer < length slots.now) }
{
    match slots.get(usize::from(header.peer)) {
        Some(slot) => slot.refused_by(from, header.session),
        None => Some(Stop::UnknownPeer),
    }
}

/// Whether a slot that refuses a datagram so, or takes it in, holds a peer at the datagram's address that takes datagrams in.
fn is_heard(refusal: Option<Stop>) -> bool
    ensures { result ≡ is_heard refusal }
{
    match refusal {
        Some(why) => is_past_address(why),
        None => true,
    }
}

/// Whether a refusal is of those that come after the test of the address.
fn is_past_address(why: Stop) -> bool
    ensures { result ≡ is_heard (Some why) }
{
    matches!(why, Stop::WrongSession)
}

/// A datagram of so many bytes came to the slot of this number, which refuses it so or takes it in: it counts if it came from the address of
/// a peer that takes datagrams in.
fn count_heard(credits: &mut Vec<Credit>, number: usize, refusal: Option<Stop>, len: usize)
    ensures { credits.new.items ≡ (if is_heard refusal then with_came credits.old.items number len else credits.old.items) }
{
    if is_heard(refusal) {
        count_came(credits, number, len);
    }
}

/// Why an offer is not answered, before slots are looked at: S6 where it names no slot, S8 where it asks for no channel or for
/// more than 255.
fn offer_refused(offer: &Offer) -> Option<Stop>
    ensures { result ≡ offer_refused offer.now }
{
    if offer.outgoing_peer >= NO_PEER {
        return Some(Stop::BadCommand);
    }
    if offer.channels < 1 || offer.channels > MAX_CHANNELS {
        return Some(Stop::BadChannel);
    }
    None
}

/// The slot whose peer gives way to an offer, if the host lets peers give way and one can.
fn oldest_seat(slots: &[Slot], unproved: &mut Unproved, start: &Start) -> Option<usize>
    requires { KeepsUnproved start.now.clock start.now.config.generations unproved.old (all_shown slots.now) }
    ensures seat { result ≡ or_oldest (basis_of start.now) (all_shown slots.now) None }
    ensures within { IfSome result (λ i. i < length slots.now) }
    ensures kept { KeepsUnproved start.now.clock start.now.config.generations unproved.new (all_shown slots.now) }
{
    if start.config.gives_way {
        unproved.oldest(slots, start.config.generations)
    } else {
        None
    }
}

/// Whether as many peers of this IP address are there as may be.
fn is_address_full(slots: &[Slot], seats: &Seats, most: Option<u16>, ip: u32) -> bool
    requires { KeepsSeats seats.now (all_shown slots.now) }
    ensures { result ≡ is_most most (guests_of ip (all_shown slots.now)) }
{
    match most {
        Some(most) => seats.count_guests(slots, ip) >= u32::from(most),
        None => false,
    }
}

/// The slot that an offer from this address gets, if it is of no connection that is there; `free` is the first that is free and has a
/// generation left.
pub(crate) fn seat(
    slots: &[Slot],
    seats: &Seats,
    unproved: &mut Unproved,
    start: &Start,
    from: Addr,
    free: Option<usize>,
) -> Option<usize>
    requires seats { KeepsSeats seats.now (all_shown slots.now) }
    requires free { free ≡ available start.now.config (all_shown slots.now) }
    requires within { IfSome free (λ i. i < length slots.now) }
    requires unproved { KeepsUnproved start.now.clock start.now.config.generations unproved.old (all_shown slots.now) }
    ensures seat { result ≡ seat (basis_of start.now) from (all_shown slots.now) }
    ensures within { IfSome result (λ i. i < length slots.now) }
    ensures kept { KeepsUnproved start.now.clock start.now.config.generations unproved.new (all_shown slots.now) }
{
    if is_address_full(slots, seats, start.config.of_address, from.ip) {
        return seats.oldest_guest(slots, from.ip, start.clock, start.config.generations);
    }
    match free {
        Some(place) => Some(place),
        None => oldest_seat(slots, unproved, start),
    }
}

/// Where an offer of no connection that is there goes, if it gets this slot.
const fn placed(place: Option<usize>) -> Seat
    ensures { result ≡ placed place }
{
    match place {
        Some(place) => Seat::At(place),
        None => Seat::Full,
    }
}

/// Where an offer from this address with this connect id is to go.
fn find_seat(
    slots: &[Slot],
    sleepers: &Sleepers,
    seats: &Seats,
    unproved: &mut Unproved,
    start: &Start,
    from: Addr,
    connect_id: u32,
) -> Seat
    requires sleepers { KeepsSleepers start.now.clock sleepers.now (all_shown slots.now) }
    requires seats { KeepsSeats seats.now (all_shown slots.now) }
    requires unproved { KeepsUnproved start.now.clock start.now.config.generations unproved.old (all_shown slots.now) }
    ensures seat { IsSeatOf (basis_of start.now) from connect_id (all_shown slots.now) result }
    ensures unproved { KeepsUnproved start.now.clock start.now.config.generations unproved.new (all_shown slots.now) }
{
    let generations = start.config.generations;
    match seat_for(slots, sleepers, seats, from, connect_id, generations) {
        Seat::Known(place) => Seat::Known(place),
        Seat::At(place) => placed(seat(slots, seats, unproved, start, from, Some(place))),
        Seat::Full => placed(seat(slots, seats, unproved, start, from, None)),
    }
}

/// An offer comes.
fn take_offer(
    slots: &mut Vec<Slot>,
    sleepers: &mut Sleepers,
    seats: &mut Seats,
    unproved: &mut Unproved,
    credits: &mut Vec<Credit>,
    start: &Start,
    from: Addr,
    offer: Offer,
    len: usize,
) -> Received
    requires many { length slots.old.items ≤ 4095 }
    requires all { length slots.old.items ≡ start.now.config.peers }
    requires sleepers { KeepsSleepers start.now.clock sleepers.old (all_shown slots.old.items) }
    requires seats { KeepsSeats seats.old (all_shown slots.old.items) }
    requires unproved { KeepsUnproved start.now.clock start.now.config.generations unproved.old (all_shown slots.old.items) }
    ensures count { length slots.new.items ≡ length slots.old.items }
    ensures sleepers { KeepsSleepers start.now.clock sleepers.new (all_shown slots.new.items) }
    ensures seats { KeepsSeats seats.new (all_shown slots.new.items) }
    ensures unproved { KeepsUnproved start.now.clock start.now.config.generations unproved.new (all_shown slots.new.items) }
    ensures offers { Offers (record { basis = basis_of start.now; slots = all_shown slots.old.items }) from offer result (all_shown slots.new.items) }
    ensures credits { OfferCredits (record { basis = basis_of start.now; slots = all_shown slots.old.items }) from offer len result credits.old.items credits.new.items }
{
    if let Some(why) = offer_refused(&offer) {
        return stopped(why);
    }
    let word = offer.connect_id;
    let place = match find_seat(slots, sleepers, seats, unproved, start, from, word) {
        Seat::Known(place) => {
            count_offer(credits, place, true, len);
            return HANDLED_ONE;
        }
        Seat::At(place) => place,
        Seat::Full => {
            return stopped(Stop::NoSlot);
        }
    };
    sleepers.wake(place);
    let slot = &mut slots[place];
    match slot.answer(start, place as u16, from, offer) {
        Ok(()) => {
            unproved.note(place);
            seats.enter(place, from, word);
            count_offer(credits, place, false, len);
            HANDLED_ONE
        }
        Err(_) => stopped(Stop::Memory),
    }
}

/// Whether as many peers that began by a CONNECT have a client that confirmed as may be there. Each slot is looked at, if that is bounded.
fn is_full(slots: &[Slot], most: Option<u16>) -> bool
    requires { length slots.now ≤ 4095 }
    ensures { result ≡ is_most most (entered (all_shown slots.now)) }
{
    match most {
        Some(most) => count_entered(slots) >= u32::from(most),
        None => false,
    }
}

/// Whether the host refuses who confirms at the slot of this number.
fn refuses_at(slots: &[Slot], start: &Start, number: usize) -> bool
    requires many { length slots.now ≤ 4095 }
    requires within { number < length slots.now }
    ensures { (s : SlotState) → slice_get (all_shown slots.now) number ≡ Some s → result ≡ refuses_at (record { basis = basis_of start.now; slots = all_shown slots.now }) s }
{
    slots[number].awaits() && is_full(slots, start.config.most)
}

/// The same where these commands come to the slot. Where by none of them a client could confirm, they come alike to it, and the slots
/// aren't counted: else who forges datagrams could have that done for each.
fn refuses_by(slots: &[Slot], start: &Start, number: usize, commands: &[u8]) -> bool
    requires many { length slots.now ≤ 4095 }
    requires within { number < length slots.now }
    ensures { (s : SlotState) → slice_get (all_shown slots.now) number ≡ Some s
        → ComesAsAt commands.now s result (refuses_at (record { basis = basis_of start.now; slots = all_shown slots.now }) s) }
{
    if start.config.most.is_none() {
        return false;
    }
    if !slots[number].may_confirm(commands) {
        return false;
    }
    refuses_at(slots, start, number)
}

/// A datagram comes to the slot that it names, or is one of a stranger, who may offer a connection.
pub(crate) fn receive(
    slots: &mut Vec<Slot>,
    sleepers: &mut Sleepers,
    seats: &mut Seats,
    unproved: &mut Unproved,
    credits: &mut Vec<Credit>,
    start: &Start,
    from: Addr,
    bytes: &[u8],
) -> Received
    requires many { length slots.old.items ≤ 4095 }
    requires all { length slots.old.items ≡ start.now.config.peers }
    requires sleepers { KeepsSleepers start.now.clock sleepers.old (all_shown slots.old.items) }
    requires seats { KeepsSeats seats.old (all_shown slots.old.items) }
    requires unproved { KeepsUnproved start.now.clock start.now.config.generations unproved.old (all_shown slots.old.items) }
    ensures count { length slots.new.items ≡ length slots.old.items }
    ensures sleepers { KeepsSleepers start.now.clock sleepers.new (all_shown slots.new.items) }
    ensures seats { KeepsSeats seats.new (all_shown slots.new.items) }
    ensures unproved { KeepsUnproved start.now.clock start.now.config.generations unproved.new (all_shown slots.new.items) }
    ensures arrives { Arrives (record { basis = basis_of start.now; slots = all_shown slots.old.items }) from bytes.now result (all_shown slots.new.items) }
    ensures credits { Credits (record { basis = basis_of start.now; slots = all_shown slots.old.items }) from bytes.now result credits.old.items credits.new.items }
{
    let (header, commands) = match read_heading(bytes) {
        Ok(found) => found,
        Err(why) => return stopped(why),
    };
    if header.peer == NO_PEER {
        return match read_offer(commands) {
            Some(offer) => take_offer(
                slots,
                sleepers,
                seats,
                unproved,
                credits,
                start,
                from,
                offer,
                bytes.len(),
            ),
            None => stopped(Stop::UnknownPeer),
        };
    }
    let number = usize::from(header.peer);
    let refusal = refused_by(slots, from, &header);
    count_heard(credits, number, refusal, bytes.len());
    if let Some(why) = refusal {
        return stopped(why);
    }
    let full = refuses_by(slots, start, number, commands);
    let answer = slots[number].receive(start.clock, header.sent, full, commands);
    sleepers.hear(slots, number, start.clock);
    answer
}
