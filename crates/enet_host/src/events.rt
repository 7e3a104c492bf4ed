//! What a host tells its user.

ghost use Rattle.std.specs.Prelude.{◌≡◌, ℕ, ◌<◌, ◌≤◌, length, IfSome, IfNone};
ghost use Rattle.std.specs.Option.{option_copied};
ghost use Rattle.enet_slot.specs.Calls.{tells};
ghost use Rattle.enet_sleepers.specs.Sleeping.{KeepsSleepers};
ghost use Rattle.enet_host.specs.Turns.{IsFirst, HoldsNowhere};
ghost use Rattle.enet_slot.specs.Slotted.{all_shown};
ghost use Rattle.enet_host.specs.Private.Shown.{SlotGivesEvent, SlotIsMute, SlotIsNamed, SlotShows};

use crate::turns::{next_turn, slot_of_turn};
use enet_codec::{Event, Packet, PeerRef};
use enet_sleepers::Sleepers;
use enet_slot::Slot;

/// The first slot in turn that has an event. The one whose turn it is is asked first, since a host of one slot has no other.
pub(crate) fn teller(slots: &[Slot], sleepers: &Sleepers, peers: u16, from: u16) -> Option<u16>
    requires within { from < peers }
    requires all { peers ≡ length slots.now }
    requires sleepers { (now : ℕ) × KeepsSleepers now sleepers.now (all_shown slots.now) }
    ensures first { IfSome result (λ i. IsFirst tells (all_shown slots.now) from i) }
    ensures none { IfNone result (HoldsNowhere tells (all_shown slots.now)) }
    ensures within { IfSome result (λ i. i < peers) }
{
    if slots[usize::from(from)].tells() {
        return Some(from);
    }
    first_telling(slots, sleepers, peers, from)
}

/// The first slot in turn that has an event. Those that sleep have none.
fn first_telling(slots: &[Slot], sleepers: &Sleepers, peers: u16, from: u16) -> Option<u16>
    requires within { from < peers }
    requires all { peers ≡ length slots.now }
    requires sleepers { (now : ℕ) × KeepsSleepers now sleepers.now (all_shown slots.now) }
    ensures first { IfSome result (λ i. IsFirst tells (all_shown slots.now) from i) }
    ensures none { IfNone result (HoldsNowhere tells (all_shown slots.now)) }
    ensures within { IfSome result (λ i. i < peers) }
{
    let mut turn = next_turn(sleepers, peers, from, 0);
    while turn < peers {
        let number = slot_of_turn(peers, from, turn);
        if slots[usize::from(number)].tells() {
            return Some(number);
        }
        turn = next_turn(sleepers, peers, from, turn + 1);
    }
    None
}

/// The next event of a slot.
pub(crate) fn take_from(slots: &mut Vec<Slot>, number: u16) -> Option<Event>
    requires { number < length slots.old.items }
    ensures gives { IfSome result (λ event. SlotGivesEvent (all_shown slots.old.items) number event (all_shown slots.new.items)) }
    ensures none { IfNone result (SlotIsMute (all_shown slots.old.items) number) }
    ensures count { length slots.new.items ≡ length slots.old.items }
{
    let slot = &mut slots[usize::from(number)];
    slot.take(number)
}

/// The packet that a slot's next event hands out.
pub(crate) fn packet_of(slots: &[Slot], number: u16) -> Option<&Packet>
    requires { number < length slots.now }
    ensures { SlotShows (all_shown slots.now) number (option_copied result) }
{
    slots[usize::from(number)].next_packet()
}

/// The name of a slot's peer, or of its next one.
pub(crate) fn name_at(slots: &[Slot], number: u16) -> PeerRef
    requires { number < length slots.now }
    ensures { SlotIsNamed (all_shown slots.now) number result }
{
    PeerRef {
        slot: number,
        generation: slots[usize::from(number)].generation(),
    }
}
