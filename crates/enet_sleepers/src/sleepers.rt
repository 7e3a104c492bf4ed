//! Which slots of a host sleep, and when time brings them something.

ghost use Rattle.std.specs.Prelude.{◌≡◌, ℕ, ◌^◌, ◌<◌, ◌≤◌, List, length, slice_get, Some, IfOk, IfErr, IsTrue, false, ◌≢◌};
ghost use Rattle.enet_deadlines.specs.Moments.{IsAt};
ghost use Rattle.enet_deadlines.specs.Sets.{IsIn, IsOut, IsNextFrom};
ghost use Rattle.enet_slot.specs.Slot.{SlotState};
ghost use Rattle.enet_slot.specs.Slotted.{all_shown};
ghost use Rattle.enet_sleepers.specs.Sleeping.{KeepsSleepers, KeepsOthers, woken, Wakes};
ghost use Rattle.enet_sleepers.specs.Private.Sleepers.{AllIn};

use enet_codec::Refusal;
use enet_deadlines::{Deadlines, Places, moment_at, moments_are_right};
use enet_slot::Slot;
use std::alloc::Global;
use std::marker::Model;

/// Where the clock stands from which on it begins anew, in milliseconds; it takes 146 million years to get there.
const LAST_CLOCK: u64 = 1 << 62;

/// For each slot of a host with few slots so many naps begin between two ticks at most: at full load its peers stay awake, and a look at
/// all that are awake takes no more than some naps.
const NAPS: u32 = 4;

/// A host has few slots if it has no more than this.
const FEW: usize = 64;

/// Which slots of a host sleep. They are free, or their peer is connected, asks for a connection or for its end, or has answered, and
/// has nothing to tell and nothing that goes, though what was sent may be unacknowledged; and time brings it something later. Where slots
/// are asked in turn, and at a tick, these are passed over. A slot falls asleep where it is looked at (`settle`), and is woken before
/// anything comes to it; behind a datagram it may sleep on (`hear`). Contracts see what is noted of the slots.
#[derive(Drop)]
pub struct Sleepers {
    /// The slots that are awake.
    pub(crate) awake: Places,
    /// Those that sleep and are free.
    pub(crate) free: Places,
    /// When time brings the others something.
    pub(crate) due: Deadlines,
    /// The host's clock as it was last told, on a clock that doesn't wrap.
    pub(crate) clock: u64,
    /// How often slots may still fall asleep by `rest`, or sleep on by `hear`, before the clock goes on.
    naps: u32,
}

impl Model for Sleepers {
    ghost use Rattle.enet_sleepers.specs.Sleeping.{Noted, IsWhole};

    ghost Value = { Noted };

    ghost view = { λ s. record { awake = s.awake; free = s.free; due = s.due; clock = s.clock } };

    ghost invariant = { λ s. IsWhole (record { awake = s.awake; free = s.free; due = s.due; clock = s.clock }) };
}

/// From now on all places are in the set.
fn insert_all(set: &mut Places)
    ensures all { AllIn set.new }
    ensures count { length set.new ≡ length set.old }
{
    for place in 0..set.len() {
        set.insert(place);
    }
}

/// How many naps begin between two ticks at most, at a host with so many slots.
const fn naps_of(slots: usize) -> u32 {
    if slots > FEW {
        u32::MAX
    } else {
        slots as u32 * NAPS
    }
}

impl Sleepers {
    /// So many slots of a host whose clock shows `now`, in milliseconds; all of them are awake. E1 where memory is refused.
    pub fn new(alloc: Global, peers: u16, now: u32) -> Result<Sleepers, Refusal>
        ensures kept { IfOk result (λ sleepers. (slots : List SlotState) → length slots ≡ peers → KeepsSleepers now sleepers slots) }
        ensures memory { IfErr result (λ why. why ≡ Refusal.Memory) }
    {
        let Ok(mut awake) = Places::new(alloc, u32::from(peers)) else {
            return Err(Refusal::Memory);
        };
        let Ok(free) = Places::new(alloc, u32::from(peers)) else {
            return Err(Refusal::Memory);
        };
        let Ok(due) = Deadlines::new(alloc, u32::from(peers)) else {
            return Err(Refusal::Memory);
        };
        insert_all(&mut awake);
        Ok(Sleepers {
            awake,
            free,
            due,
            clock: u64::from(now),
            naps: 0,
        })
    }

    /// The first slot from this one on that is awake.
    pub fn next_awake(&self, from: usize) -> Option<usize>
        ensures { IsNextFrom from self.now.awake result }
    {
        self.awake.next_from(from)
    }

    /// Something comes to the slot of this number, if there is one: it is awake from now on.
    #[inline(always)]
    pub fn wake(&mut self, number: usize)
        ensures kept { (now : ℕ) (slots : List SlotState) → KeepsSleepers now self.old slots → KeepsSleepers now self.new slots }
        ensures awake { number < length self.old.awake → IsIn self.new.awake number }
        ensures wakes { Wakes self.old number self.new }
    {
        if number < self.awake.len() && !self.awake.contains(number) {
            self.rise(number);
        }
    }

    /// Something came to the slot of this number, which may have slept: it sleeps on if it has nothing to do, and when time brings it something
    /// is noted anew; else it is awake from now on. So it is with a datagram that only acknowledges. At a host with at most 64 slots these
    /// sleep on, or fall asleep by `rest`, four times each between two ticks at most, on average.
    #[inline(always)]
    pub fn hear(&mut self, slots: &[Slot], number: usize, now: u32)
        requires within { number < length slots.now }
        requires others { KeepsOthers now number self.old (all_shown slots.now) }
        ensures { KeepsSleepers now self.new (all_shown slots.now) }
    {
        if self.awake.contains(number) {
            return;
        }
        if !self.sleeps_on(slots, number, now) {
            self.rise(number);
        }
    }

    /// The slot of this number, which slept, sleeps on if it has nothing to do; whether it does. Nothing has changed where it doesn't.
    fn sleeps_on(&mut self, slots: &[Slot], number: usize, now: u32) -> bool
        requires within { number < length slots.now }
        requires others { KeepsOthers now number self.old (all_shown slots.now) }
        requires asleep { IsOut self.old.awake number }
        ensures slept { IsTrue result → KeepsSleepers now self.new (all_shown slots.now) }
        ensures same { result ≡ false → self.new ≡ self.old }
    {
        let slot = &slots[number];
        if self.naps == 0 || self.free.contains(number) || slot.is_vacant() {
            return false;
        }
        if !slot.only_waits() {
            return false;
        }
        moments_are_right();
        let wait = slot.due_in(now);
        if wait == 0 || wait == u32::MAX {
            return false;
        }
        let moment = self.clock + u64::from(wait);
        self.naps -= 1;
        self.due.set(number, moment);
        true
    }

    /// The slot of this number is awake from now on.
    fn rise(&mut self, number: usize)
        requires { number < length self.old.awake }
        ensures { self.new ≡ woken self.old number }
    {
        self.awake.insert(number);
        self.free.remove(number);
        self.due.clear(number);
    }

    /// All slots are awake from now on.
    fn wake_all(&mut self)
        ensures kept { (now : ℕ) (slots : List SlotState) → KeepsSleepers now self.old slots → KeepsSleepers now self.new slots }
        ensures awake { AllIn self.new.awake }
    {
        for number in 0..self.awake.len() {
            self.wake(number);
        }
    }

    /// Something comes to each slot that holds a peer: of those that sleep only the free ones do so from now on.
    pub fn wake_held(&mut self)
        ensures kept { (now : ℕ) (slots : List SlotState) → KeepsSleepers now self.old slots → KeepsSleepers now self.new slots }
        ensures free { (i : ℕ) → i < length self.new.awake → IsOut self.new.awake i → IsIn self.new.free i }
    {
        for number in 0..self.awake.len() {
            if !self.free.contains(number) {
                self.wake(number);
            }
        }
    }

    /// The host's clock shows `now` from now on, in milliseconds: those to which that brings something are awake. It takes steps for each
    /// of these alone.
    pub fn advance(&mut self, now: u32)
        ensures { (was : ℕ) (slots : List SlotState) → KeepsSleepers was self.old slots → KeepsSleepers now self.new slots }
    {
        self.go_on(now);
        self.naps = naps_of(self.awake.len());
    }

    /// The clock goes on, and those to which that brings something are awake.
    #[inline(always)]
    fn go_on(&mut self, now: u32)
        ensures { (was : ℕ) (slots : List SlotState) → KeepsSleepers was self.old slots → KeepsSleepers now self.new slots }
    {
        if self.clock >= LAST_CLOCK {
            self.wake_all();
            self.clock = u64::from(now);
            return;
        }
        let clock = moment_at(self.clock, now);
        self.wake_due(clock);
        self.clock = clock;
    }

    /// Those that are due at this moment are awake from now on.
    fn wake_due(&mut self, moment: u64)
        ensures kept { (now : ℕ) (slots : List SlotState) → KeepsSleepers now self.old slots → KeepsSleepers now self.new slots }
        ensures ahead { (i due : ℕ) → IsAt self.new.due i due → moment < due }
        ensures clock { self.new.clock ≡ self.old.clock }
    {
        let mut from = 0;
        while from < self.due.len() {
            let Some(place) = self.due.next_due(from, moment) else {
                return;
            };
            self.rise(place);
            from = place + 1;
        }
    }

    /// Looks at each slot that is awake, at the moment `now` that the host's clock shows: those that have nothing to do fall asleep.
    pub fn settle(&mut self, slots: &[Slot], now: u32)
        requires { KeepsSleepers now self.old (all_shown slots.now) }
        ensures { KeepsSleepers now self.new (all_shown slots.now) }
    {
        let mut from = 0;
        while from < slots.len() {
            let Some(number) = self.awake.next_from(from) else {
                return;
            };
            self.look_at(slots, number, now);
            from = number + 1;
        }
    }

    /// The slot of this number, which is awake and was asked for a datagram, falls asleep if it has nothing to do. Where the slots of a host
    /// with at most 64 are woken and asked again and again without a tick between, they stay awake from their fifth time on, on average.
    #[inline(always)]
    pub fn rest(&mut self, slots: &[Slot], number: usize, now: u32)
        requires kept { KeepsSleepers now self.old (all_shown slots.now) }
        requires awake { IsIn self.old.awake number }
        ensures { KeepsSleepers now self.new (all_shown slots.now) }
    {
        if self.naps > 0 {
            self.naps -= 1;
            self.look_at(slots, number, now);
        }
    }

    /// The slot of this number, which is awake, falls asleep if it has nothing to do.
    fn look_at(&mut self, slots: &[Slot], number: usize, now: u32)
        requires kept { KeepsSleepers now self.old (all_shown slots.now) }
        requires awake { IsIn self.old.awake number }
        ensures { KeepsSleepers now self.new (all_shown slots.now) }
    {
        if slots[number].is_vacant() {
            self.awake.remove(number);
            self.free.insert(number);
            return;
        }
        if !slots[number].only_waits() {
            return;
        }
        moments_are_right();
        let wait = slots[number].due_in(now);
        if wait > 0 && wait < u32::MAX {
            self.due.set(number, self.clock + u64::from(wait));
            self.awake.remove(number);
        }
    }
}
