//! Which slot an offer is to go to.

ghost use Rattle.std.specs.Prelude.{◌≡◌, ℕ, ◌<◌, ◌≤◌, true, length, get_or, IfSome};
ghost use Rattle.std.specs.List.{position};
ghost use Rattle.enet_slot.specs.Giving.{unused_slot, is_available};
ghost use Rattle.enet_slot.specs.Seating.{IsSeat};
ghost use Rattle.enet_slot.specs.Slotted.{all_shown};
ghost use Rattle.enet_sleepers.specs.Sleeping.{KeepsSleepers};
ghost use Rattle.enet_sleepers.specs.Seating.{KeepsSeats};
ghost use Rattle.enet_sleepers.specs.Private.Sleepers.{NoneOf};

use crate::seats::Seats;
use crate::sleepers::Sleepers;
use enet_codec::Addr;
use enet_slot::{Seat, Slot};

impl Sleepers {
    /// The first slot that is free and has a generation left of so many. Of those that sleep the free ones alone are looked at, up to it.
    pub fn first_available(&self, slots: &[Slot], generations: u32) -> Option<usize>
        requires { (now : ℕ) × KeepsSleepers now self.now (all_shown slots.now) }
        ensures first { result ≡ position (is_available generations) (all_shown slots.now) }
        ensures within { IfSome result (λ i. i < length slots.now) }
    {
        let last = self.first_free(slots, generations);
        let first = self.first_awake(slots, last, generations);
        if first < slots.len() {
            Some(first)
        } else {
            None
        }
    }

    /// The first of those that sleep and are free that has a generation left of so many; the number of slots where there is none.
    fn first_free(&self, slots: &[Slot], generations: u32) -> usize
        requires { (now : ℕ) × KeepsSleepers now self.now (all_shown slots.now) }
        ensures before { NoneOf generations (all_shown slots.now) self.now.free result }
        ensures within { result ≤ length slots.now }
        ensures here { result < length slots.now → is_available generations (get_or (all_shown slots.now) result unused_slot) ≡ true }
    {
        let mut from = 0;
        while from < slots.len() {
            let Some(place) = self.free.next_from(from) else {
                return slots.len();
            };
            if slots[place].is_available(generations) {
                return place;
            }
            from = place + 1;
        }
        slots.len()
    }

    /// The first of those before slot `last` that are awake that is free and has a generation left of so many; `last` where there is none.
    fn first_awake(&self, slots: &[Slot], last: usize, generations: u32) -> usize
        requires kept { (now : ℕ) × KeepsSleepers now self.now (all_shown slots.now) }
        requires within { last ≤ length slots.now }
        ensures before { NoneOf generations (all_shown slots.now) self.now.awake result }
        ensures within { result ≤ last }
        ensures here { result < last → is_available generations (get_or (all_shown slots.now) result unused_slot) ≡ true }
    {
        let mut from = 0;
        while from < last {
            let place = match self.next_awake(from) {
                Some(place) if place < last => place,
                _ => return last,
            };
            if slots[place].is_available(generations) {
                return place;
            }
            from = place + 1;
        }
        last
    }
}

/// Where an offer from this address with this connect id is to go, if so many generations are allowed.
pub fn seat_for(
    slots: &[Slot],
    sleepers: &Sleepers,
    seats: &Seats,
    from: Addr,
    connect_id: u32,
    generations: u32,
) -> Seat
    requires sleepers { (now : ℕ) × KeepsSleepers now sleepers.now (all_shown slots.now) }
    requires seats { KeepsSeats seats.now (all_shown slots.now) }
    ensures { IsSeat from connect_id generations (all_shown slots.now) result }
{
    if let Some(place) = seats.known_at(slots, from, connect_id) {
        return Seat::Known(place);
    }
    match sleepers.first_available(slots, generations) {
        Some(place) => Seat::At(place),
        None => Seat::Full,
    }
}
