//! When time brings the slots of a host something.

ghost use Rattle.std.specs.Prelude.{◌≡◌, ℕ, ◌<◌, Bool, List, length};
ghost use Rattle.std.specs.List.{list_any};
ghost use Rattle.enet_deadlines.specs.Sets.{IsOut};
ghost use Rattle.enet_rtt.specs.Clock.{HappensIn};
ghost use Rattle.enet_slot.specs.Slot.{SlotState};
ghost use Rattle.enet_slot.specs.Slotted.{all_shown};
ghost use Rattle.enet_sleepers.specs.Sleeping.{KeepsSleepers};
ghost use Rattle.enet_sleepers.specs.Soon.{is_due_soon};
ghost use Rattle.enet_sleepers.specs.Private.Soon.{HappensSoon, KnowsDue};

use crate::sleepers::Sleepers;
use enet_deadlines::moments_are_right;
use enet_slot::Slot;

/// How many milliseconds ahead it is foretold that time brings something.
const FORESIGHT: u32 = 1000;

/// A wait of so many milliseconds, or the greatest number where it isn't foretold.
fn foretold(wait: u32) -> u32
    ensures { (now : ℕ) (happens : ℕ → Bool) → HappensIn happens now wait → HappensSoon happens now result }
{
    if wait > FORESIGHT { u32::MAX } else { wait }
}

impl Sleepers {
    /// In how many milliseconds after the moment `now`, which the host's clock shows, time brings the peers of the slots anything first,
    /// where that is within a second; else 4,294,967,295. Of those that sleep it is at hand.
    pub fn due_in(&self, slots: &[Slot], now: u32) -> u32
        requires { KeepsSleepers now self.now (all_shown slots.now) }
        ensures { HappensIn (λ (later : ℕ). list_any (is_due_soon now later) (all_shown slots.now)) now result }
    {
        let mut wait = self.sleepers_due_in();
        let mut from = 0;
        while from < slots.len() {
            let Some(number) = self.next_awake(from) else {
                return wait;
            };
            wait = wait.min(foretold(slots[number].due_in(now)));
            from = number + 1;
        }
        wait
    }

    /// The same of the slots that sleep.
    fn sleepers_due_in(&self) -> u32
        ensures { (now : ℕ) (slots : List SlotState) → KeepsSleepers now self.now slots → KnowsDue now slots (λ i. IsOut self.now.awake i) result }
    {
        moments_are_right();
        let Some(moment) = self.due.least() else {
            return u32::MAX;
        };
        let wait = moment.saturating_sub(self.clock);
        if wait > u64::from(FORESIGHT) {
            u32::MAX
        } else {
            wait as u32
        }
    }
}
