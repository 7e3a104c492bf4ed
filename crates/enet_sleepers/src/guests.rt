//! The peers of an IP address that began by a CONNECT.

ghost use Rattle.std.specs.Prelude.{◌≡◌, ℕ, ◌+◌, ◌<◌, ◌≤◌, Bool, length, get_or, IfSome};
ghost use Rattle.enet_slot.specs.Slotted.{all_shown};
ghost use Rattle.enet_slot.specs.Yielding.{age, guests_of, oldest_of, yields_to};
ghost use Rattle.enet_sleepers.specs.Seating.{KeepsSeats};
ghost use Rattle.enet_sleepers.specs.Private.Guests.{IsOldestBefore, Passes};

use crate::key::row_of;
use crate::seats::{Seats, first_of_row};
use enet_deadlines::Places;
use enet_rtt::elapsed;
use enet_slot::Slot;

impl Seats {
    /// How many peers of this IP address began by a CONNECT. The slots in the address's row are looked at.
    pub fn count_guests(&self, slots: &[Slot], ip: u32) -> u32
        requires { KeepsSeats self.now (all_shown slots.now) }
        ensures { result ≡ guests_of ip (all_shown slots.now) }
    {
        let first = first_of_row(row_of(self.key, ip), self.others.len());
        let mut count: u32 = 0;
        let mut number = next_in_row(&self.rows, first, slots.len(), 0);
        while number < slots.len() {
            count += u32::from(slots[number].is_guest_of(ip));
            number = next_in_row(&self.rows, first, slots.len(), number + 1);
        }
        count
    }

    /// The first slot whose peer yields to another one of its IP address and has been there longest, at this time. The slots in the address's
    /// row are looked at.
    pub fn oldest_guest(&self, slots: &[Slot], ip: u32, now: u32, generations: u32) -> Option<usize>
        requires { KeepsSeats self.now (all_shown slots.now) }
        ensures oldest { result ≡ oldest_of (yields_to ip generations) now (all_shown slots.now) }
        ensures within { IfSome result (λ i. i < length slots.now) }
    {
        let first = first_of_row(row_of(self.key, ip), self.others.len());
        let mut oldest: Option<(usize, u32)> = None;
        let mut number = next_in_row(&self.rows, first, slots.len(), 0);
        while number < slots.len() {
            let slot = &slots[number];
            oldest = older(
                oldest,
                number,
                slot.yields_to(ip, generations),
                age(slot, now),
            );
            number = next_in_row(&self.rows, first, slots.len(), number + 1);
        }
        match oldest {
            Some((place, _long)) => Some(place),
            None => None,
        }
    }
}

/// For how many milliseconds its peer has been there; 0 where it is free.
fn age(slot: &Slot, now: u32) -> u32
    ensures { result ≡ age now slot.now.slot }
{
    match slot.made() {
        Some(made) => elapsed(now, made),
        None => 0,
    }
}

/// The first slot from `from` on that is in the row with this first place; the number of slots where there is none.
fn next_in_row(rows: &Places, first: usize, slots: usize, from: usize) -> usize
    requires low { first ≤ 16711425 }
    requires few { slots ≤ 65535 }
    requires within { from ≤ slots }
    ensures { Passes rows.now first slots from result }
{
    match rows.next_from(first + from) {
        Some(place) => slots.min(place - first),
        None => slots,
    }
}

/// Of the slots that yield the first of those whose peers have been there longest, and for how long: one of those so far, or this one behind
/// them.
fn older(
    oldest: Option<(usize, u32)>,
    number: usize,
    yields: bool,
    long: u32,
) -> Option<(usize, u32)>
    ensures { (waits : ℕ → Bool) (ages : ℕ → ℕ) → waits number ≡ yields → ages number ≡ long → IsOldestBefore waits ages number oldest
        → IsOldestBefore waits ages (number + 1) result }
{
    if !yields {
        return oldest;
    }
    match oldest {
        None => Some((number, long)),
        Some(found) => Some(if found.1 < long {
            (number, long)
        } else {
            found
        }),
    }
}
