//! The peers of one IP address that began by a CONNECT.

ghost use Rattle.std.specs.Prelude.{◌≡◌, ◌<◌, ◌≤◌, ◌&&◌, nat_le, if◌then◌else◌, length, IfSome};
ghost use Rattle.std.specs.List.{position};
ghost use Rattle.enet_slot.specs.Slotted.{shown, all_shown};
ghost use Rattle.enet_slot.specs.Yielding.{age, guests_of, is_guest_of, longest_of, oldest_of, readied, yields_to};

use crate::Slot;
use enet_rtt::elapsed;

impl Slot {
    /// Whether its peer is at this IP address, whatever its port, and began by a CONNECT.
    pub fn is_guest_of(&self, ip: u32) -> bool
        ensures { result ≡ is_guest_of ip self.now.slot }
    {
        match &self.peer {
            Some(peer) => peer.is_server() && self.address.ip == ip,
            None => false,
        }
    }

    /// Whether it yields to another peer of this IP address, if it has so many generations.
    pub fn yields_to(&self, ip: u32, generations: u32) -> bool
        ensures { result ≡ yields_to ip generations self.now.slot }
    {
        self.is_guest_of(ip) && self.yields(generations)
    }

    /// For how many milliseconds its peer has been there; 0 where it is free.
    fn age(&self, now: u32) -> u32
        ensures { result ≡ age now self.now.slot }
    {
        match &self.peer {
            Some(peer) => elapsed(now, peer.made()),
            None => 0,
        }
    }

    /// For how many milliseconds its peer has been there, if it yields to another one of this IP address; 0 where it doesn't.
    fn age_to(&self, ip: u32, now: u32, generations: u32) -> u32
        ensures { result ≡ (if yields_to ip generations self.now.slot then age now self.now.slot else 0) }
    {
        if self.yields_to(ip, generations) {
            self.age(now)
        } else {
            0
        }
    }

    /// Whether it yields to one, and its peer has been there so long.
    fn is_as_old(&self, ip: u32, now: u32, generations: u32, longest: u32) -> bool
        ensures { result ≡ (yields_to ip generations self.now.slot && nat_le longest (age now self.now.slot)) }
    {
        self.yields_to(ip, generations) && longest <= self.age(now)
    }

    /// The generation of the peer that it would be given to next, though it held one.
    pub fn next_generation(&self) -> u32
        ensures { result ≡ (readied self.now.slot).generation }
    {
        match &self.peer {
            Some(_peer) => self.generation.saturating_add(1),
            None => self.generation,
        }
    }
}

/// How many peers of this IP address began by a CONNECT. Each slot is looked at. A host has at most 4,095 slots.
pub fn count_guests(slots: &[Slot], ip: u32) -> u32
    requires { length slots.now ≤ 4095 }
    ensures { result ≡ guests_of ip (all_shown slots.now) }
{
    let mut count: u32 = 0;
    for slot in slots {
        count += u32::from(slot.is_guest_of(ip));
    }
    count
}

/// For how many milliseconds the one of them has been there that yields and has been there longest; 0 where none yields.
fn longest_guest(slots: &[Slot], ip: u32, now: u32, generations: u32) -> u32
    ensures { result ≡ longest_of (yields_to ip generations) now (all_shown slots.now) }
{
    let mut longest: u32 = 0;
    for slot in slots {
        longest = longest.max(slot.age_to(ip, now, generations));
    }
    longest
}

/// The first that yields and has been there as long.
fn guest_as_old(slots: &[Slot], ip: u32, now: u32, generations: u32, longest: u32) -> Option<usize>
    ensures { result ≡ position (λ (s : Slot). yields_to ip generations (shown s) && nat_le longest (age now (shown s))) slots.now }
{
    slots
        .iter()
        .position(|slot| slot.is_as_old(ip, now, generations, longest))
}

/// The first slot whose peer yields to another one of its IP address and has been there longest, at this time. Each slot is looked at.
pub fn oldest_guest(slots: &[Slot], ip: u32, now: u32, generations: u32) -> Option<usize>
    ensures oldest { result ≡ oldest_of (yields_to ip generations) now (all_shown slots.now) }
    ensures within { IfSome result (λ i. i < length slots.now) }
{
    let longest = longest_guest(slots, ip, now, generations);
    guest_as_old(slots, ip, now, generations, longest)
}
