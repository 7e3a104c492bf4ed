//! Which of the peers that wait for their clients has waited longest.

ghost use Rattle.std.specs.Prelude.{◌≡◌, ℕ, ◌^◌, ◌<◌, ◌≤◌, None, Some, List, false, get_or, length, slice_get, slice_set, IfOk, IfErr, IfNone, IfSome};
ghost use Rattle.enet_peer.specs.Peering.{Peering};
ghost use Rattle.enet_slot.specs.Slot.{SlotState};
ghost use Rattle.enet_slot.specs.Slotted.{all_shown};
ghost use Rattle.enet_slot.specs.Yielding.{oldest};
ghost use Rattle.enet_sleepers.specs.Unproved.{KeepsUnproved, YieldNowhere, noted};
ghost use Rattle.enet_sleepers.specs.Private.Unproved.{IsFirstNoted, IsNear, moment_made};

use enet_codec::Refusal;
use enet_deadlines::{Deadlines, moment_at};
use enet_rtt::elapsed;
use enet_slot::Slot;
use std::alloc::Global;
use std::marker::Model;

/// Where the clock stands from which on it begins anew, in milliseconds.
const LAST_CLOCK: u64 = 1 << 62;

/// How many milliseconds the host's clock tells apart.
const TURN: u64 = 1 << 32;

/// Since when the peers of a host's slots have been waiting for their clients to confirm an answer, so that the one that has waited longest
/// is found without a look at each slot. Contracts see what is noted.
#[derive(Drop)]
pub struct Unproved {
    /// When the peers were made, on a clock that doesn't wrap. Of a slot whose peer doesn't wait, whatever was noted last.
    pub(crate) since: Deadlines,
    /// The host's clock as it was last told, on that clock.
    pub(crate) clock: u64,
}

impl Model for Unproved {
    ghost use Rattle.enet_sleepers.specs.Unproved.{Waiting, AreFew};

    ghost Value = { Waiting };

    ghost view = { λ u. record { since = u.since; clock = u.clock } };

    ghost invariant = { λ u. AreFew (record { since = u.since; clock = u.clock }) };
}

impl Unproved {
    /// So many slots, none of which yields, of a host whose clock shows `now`, in milliseconds. E1 where memory is refused.
    pub fn new(alloc: Global, peers: u16, now: u32) -> Result<Unproved, Refusal>
        ensures kept { IfOk result (λ unproved. (generations : ℕ) (slots : List SlotState) → length slots ≡ peers → YieldNowhere generations slots → KeepsUnproved now generations unproved slots) }
        ensures memory { IfErr result (λ why. why ≡ Refusal.Memory) }
    {
        let Ok(since) = Deadlines::new(alloc, u32::from(peers)) else {
            return Err(Refusal::Memory);
        };
        Ok(Unproved {
            since,
            clock: TURN + u64::from(now),
        })
    }

    /// The slot of this number was given to a peer that waits for its client. It is noted that it does so since now.
    pub fn note(&mut self, number: usize)
        requires { number < length self.old.since }
        ensures { self.new ≡ noted self.old number }
    {
        self.since.set(number, self.clock);
    }

    /// Time has come to `now`, which the host's clock shows.
    pub fn advance(&mut self, slots: &[Slot], now: u32)
        requires { (was : ℕ) × (generations : ℕ) × KeepsUnproved was generations self.old (all_shown slots.now) }
        ensures { (was generations : ℕ) → KeepsUnproved was generations self.old (all_shown slots.now) → KeepsUnproved now generations self.new (all_shown slots.now) }
    {
        let clock = moment_at(self.clock, now);
        if self.is_far(clock) {
            self.note_all(slots, now);
        } else {
            self.clock = clock;
        }
    }

    /// Whether the clock, which is to show this, is to begin anew, or something was noted so long ago that the host's clock has come round
    /// since.
    fn is_far(&self, clock: u64) -> bool
        ensures { result ≡ false → IsNear clock self.now.since }
    {
        if clock >= LAST_CLOCK {
            return true;
        }
        let Some(first) = self.since.least() else {
            return false;
        };
        clock.saturating_sub(first) >= TURN
    }

    /// The clock begins anew, and of each slot it is noted anew when its peer was made.
    fn note_all(&mut self, slots: &[Slot], now: u32)
        requires { length self.old.since ≡ length slots.now }
        ensures { (generations : ℕ) → KeepsUnproved now generations self.new (all_shown slots.now) }
    {
        self.clock = TURN + u64::from(now);
        for number in 0..slots.len() {
            self.note_made(slots, number, now);
        }
    }

    /// When the peer of the slot of this number was made is noted anew, if it holds one.
    fn note_made(&mut self, slots: &[Slot], number: usize, now: u32)
        requires within { number < length slots.now }
        requires noted { number < length self.old.since }
        requires late { 4294967296 ≤ self.old.clock }
        ensures anew { (s : SlotState) → slice_get (all_shown slots.now) number ≡ Some s
            → self.new ≡ record self.old { since = slice_set self.old.since number (moment_made self.old.clock now s.peer) } }
        ensures low { (s : SlotState) (p : Peering) → slice_get (all_shown slots.now) number ≡ Some s → s.peer ≡ Some p → p.made < 2 ^ 32 }
    {
        match slots[number].made() {
            Some(made) => self
                .since
                .set(number, self.clock - u64::from(elapsed(now, made))),
            None => self.since.clear(number),
        }
    }

    /// The first of the slots whose peer has been waiting longest for its client, of those that have another generation left of so many. What
    /// is noted of others is forgotten where it is met.
    pub fn oldest(&mut self, slots: &[Slot], generations: u32) -> Option<usize>
        requires { (now : ℕ) × KeepsUnproved now generations self.old (all_shown slots.now) }
        ensures oldest { (now : ℕ) → KeepsUnproved now generations self.old (all_shown slots.now) → result ≡ oldest now generations (all_shown slots.now) }
        ensures within { IfSome result (λ i. i < length slots.now) }
        ensures kept { (now : ℕ) → KeepsUnproved now generations self.old (all_shown slots.now) → KeepsUnproved now generations self.new (all_shown slots.now) }
    {
        while let Some(place) = self.first() {
            if slots[place].yields(generations) {
                return Some(place);
            }
            self.since.clear(place);
        }
        None
    }

    /// The first of those of which the earliest moment is noted.
    fn first(&self) -> Option<usize>
        ensures found { IfSome result (λ i. IsFirstNoted self.now.since i) }
        ensures none { IfNone result ((i : ℕ) → get_or self.now.since i None ≡ None) }
    {
        let first = self.since.least()?;
        self.since.next_due(0, first)
    }
}
