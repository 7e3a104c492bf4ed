//! A host puts out a datagram.

ghost use Rattle.std.specs.Prelude.{◌≡◌, ◌<◌, ◌≤◌, length, IfSome, IfNone};
ghost use Rattle.enet_host.specs.Serving.{served_of, EmitsInTurn, AllPass};
ghost use Rattle.enet_sleepers.specs.Sleeping.{KeepsSleepers};
ghost use Rattle.enet_slot.specs.Slotted.{all_shown};
ghost use Rattle.enet_host.specs.Private.Shown.{SlotEmits, SlotPasses};

use crate::turns::{next_turn, slot_of_turn};
use enet_codec::{Addr, PeerRef};
use enet_sleepers::Sleepers;
use enet_slot::Slot;

/// Asks a slot for a datagram at the time `now`: the slot's peer as it was named before, where it goes, and its length.
fn emit_from(
    slots: &mut Vec<Slot>,
    number: u16,
    now: u32,
    buf: &mut [u8; 4096],
) -> Option<(PeerRef, Addr, usize)>
    requires { number < length slots.old.items }
    ensures gives { IfSome result (λ gave. SlotEmits now (all_shown slots.old.items) number (served_of gave buf.new) (all_shown slots.new.items)) }
    ensures passes { IfNone result (SlotPasses now (all_shown slots.old.items) number (all_shown slots.new.items)) }
    ensures fits { IfSome result (λ gave. gave.2 ≤ 4096) }
    ensures count { length slots.new.items ≡ length slots.old.items }
{
    let slot = &mut slots[usize::from(number)];
    let name = PeerRef {
        slot: number,
        generation: slot.generation(),
    };
    let address = slot.address();
    let Some(len) = slot.emit(now, buf) else {
        return None;
    };
    Some((name, address, len))
}

/// Asks one slot after another for a datagram at the time `now`, up to the first that has one. Those that sleep have none; each
/// that was asked may fall asleep, if it has nothing more to do.
pub(crate) fn emit(
    slots: &mut Vec<Slot>,
    sleepers: &mut Sleepers,
    peers: u16,
    from: u16,
    now: u32,
    buf: &mut [u8; 4096],
) -> Option<(PeerRef, Addr, usize)>
    requires within { from < peers }
    requires all { length slots.old.items ≡ peers }
    requires sleepers { KeepsSleepers now sleepers.old (all_shown slots.old.items) }
    ensures gives { IfSome result (λ gave. EmitsInTurn now from (all_shown slots.old.items) (served_of gave buf.new) (all_shown slots.new.items)) }
    ensures passes { IfNone result (AllPass now (all_shown slots.old.items) (all_shown slots.new.items)) }
    ensures within { IfSome result (λ gave. gave.0.slot < peers) }
    ensures fits { IfSome result (λ gave. gave.2 ≤ 4096) }
    ensures count { length slots.new.items ≡ length slots.old.items }
    ensures sleepers { KeepsSleepers now sleepers.new (all_shown slots.new.items) }
{
    let mut turn = next_turn(sleepers, peers, from, 0);
    while turn < peers {
        let number = slot_of_turn(peers, from, turn);
        if let Some(sent) = emit_from(slots, number, now, buf) {
            sleepers.rest(slots, usize::from(number), now);
            return Some(sent);
        }
        sleepers.rest(slots, usize::from(number), now);
        turn = next_turn(sleepers, peers, from, turn + 1);
    }
    None
}
