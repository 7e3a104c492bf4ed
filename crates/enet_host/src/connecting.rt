//! A host asks for a connection.

ghost use Rattle.std.specs.Prelude.{◌≡◌, ◌≤◌, length};
ghost use Rattle.enet_host.specs.Opening.{Connects};
ghost use Rattle.enet_sleepers.specs.Seating.{KeepsSeats};
ghost use Rattle.enet_sleepers.specs.Sleeping.{KeepsSleepers};
ghost use Rattle.enet_slot.specs.Giving.{basis_of};
ghost use Rattle.enet_slot.specs.Slotted.{all_shown};

use enet_codec::{PeerRef, Refusal};
use enet_sleepers::{Seats, Sleepers};
use enet_slot::{Question, Slot, Start};

/// The lowest available slot asks for a connection. E8 for no channels, E7 where no slot is available, E1
/// where memory is refused; after each of them nothing has changed.
pub(crate) fn connect(
    slots: &mut Vec<Slot>,
    sleepers: &mut Sleepers,
    seats: &mut Seats,
    start: &Start,
    question: Question,
) -> Result<PeerRef, Refusal>
    requires many { length slots.old.items ≤ 4095 }
    requires sleepers { KeepsSleepers start.now.clock sleepers.old (all_shown slots.old.items) }
    requires seats { KeepsSeats seats.old (all_shown slots.old.items) }
    ensures count { length slots.new.items ≡ length slots.old.items }
    ensures sleepers { KeepsSleepers start.now.clock sleepers.new (all_shown slots.new.items) }
    ensures seats { KeepsSeats seats.new (all_shown slots.new.items) }
    ensures connects { Connects (basis_of start.now) (all_shown slots.old.items) question result (all_shown slots.new.items) }
{
    if question.channels == 0 {
        return Err(Refusal::BadConfig);
    }
    let Some(place) = sleepers.first_available(slots, start.config.generations) else {
        return Err(Refusal::NoSlot);
    };
    sleepers.wake(place);
    // If memory is refused, the slot is noted, but free.
    seats.enter(place, question.address, question.word);
    let slot = &mut slots[place];
    slot.ask(start, place as u16, question)
}
