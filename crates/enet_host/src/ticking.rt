//! Time goes on at a host.

ghost use Rattle.std.specs.Prelude.{◌≡◌, ℕ, ◌≤◌, nat_le, if◌then◌else◌, length, map};
ghost use Rattle.std.specs.List.{count_by};
ghost use Rattle.enet_rtt.specs.Clock.{elapsed_time};
ghost use Rattle.enet_slot.specs.Sharing.{is_standing, shared};
ghost use Rattle.enet_slot.specs.Slotted.{all_shown};
ghost use Rattle.enet_sleepers.specs.Sleeping.{Noted, KeepsSleepers};
ghost use Rattle.enet_host.specs.Private.Ticking.{all_ticked};

use crate::credits::{Credit, is_short_at};
use enet_rtt::elapsed;
use enet_sleepers::Sleepers;
use enet_slot::{Slot, Start, share_out};

/// How many milliseconds pass at least between two moments at which the bandwidth is shared out (our profile).
pub(crate) const SHARING_INTERVAL: u32 = 1000;

/// Shares the outgoing bandwidth out among the connected peers where a second or more has passed since it was last shared out; when
/// that is from then on.
fn share_if_due(slots: &mut Vec<Slot>, start: &Start, shared_at: u32) -> u32
    requires { length slots.old.items ≤ 4095 }
    ensures sleepers { (sleepers : Noted) → KeepsSleepers start.now.clock sleepers (all_shown slots.old.items) → KeepsSleepers start.now.clock sleepers (all_shown slots.new.items) }
    ensures moment { result ≡ (if nat_le 1000 (elapsed_time start.now.clock shared_at) then start.now.clock else shared_at) }
    ensures slots { all_shown slots.new.items ≡ (if nat_le 1000 (elapsed_time start.now.clock shared_at)
        then map (shared start.now.config.outgoing (count_by is_standing (all_shown slots.old.items))) (all_shown slots.old.items)
        else all_shown slots.old.items) }
    ensures count { length slots.new.items ≡ length slots.old.items }
{
    if elapsed(start.clock, shared_at) < SHARING_INTERVAL {
        return shared_at;
    }
    share_out(slots, start.config.outgoing);
    start.clock
}

/// Time has come to `now`, which the host's clock shows, at each slot. It brings those that sleep nothing, so that it goes to the others alone.
fn tick_awake(slots: &mut Vec<Slot>, sleepers: &Sleepers, credits: &[Credit], now: u32)
    requires { KeepsSleepers now sleepers.now (all_shown slots.old.items) }
    ensures slots { all_shown slots.new.items ≡ all_ticked now credits.now (all_shown slots.old.items) }
    ensures count { length slots.new.items ≡ length slots.old.items }
    ensures sleepers { KeepsSleepers now sleepers.now (all_shown slots.new.items) }
{
    let mut from = 0;
    while from < slots.len() {
        let Some(number) = sleepers.next_awake(from) else {
            return;
        };
        slots[number].tick(now, is_short_at(credits, number));
        from = number + 1;
    }
}

/// Time has come to the host's clock at each slot. Where a second or more has passed since the bandwidth was last shared out, it is
/// shared out among the connected peers; when that is from then on. Those that sleep cost nothing but where that is done, and where
/// time brings one of them something: then that one is woken.
pub(crate) fn pass_time(
    slots: &mut Vec<Slot>,
    sleepers: &mut Sleepers,
    credits: &[Credit],
    start: &Start,
    shared_at: u32,
) -> u32
    requires many { length slots.old.items ≤ 4095 }
    requires sleepers { (was : ℕ) × KeepsSleepers was sleepers.old (all_shown slots.old.items) }
    ensures moment { result ≡ (if nat_le 1000 (elapsed_time start.now.clock shared_at) then start.now.clock else shared_at) }
    ensures slots { all_shown slots.new.items ≡ (if nat_le 1000 (elapsed_time start.now.clock shared_at)
        then map (shared start.now.config.outgoing (count_by is_standing (all_ticked start.now.clock credits.now (all_shown slots.old.items)))) (all_ticked start.now.clock credits.now (all_shown slots.old.items))
        else all_ticked start.now.clock credits.now (all_shown slots.old.items)) }
    ensures count { length slots.new.items ≡ length slots.old.items }
    ensures sleepers { KeepsSleepers start.now.clock sleepers.new (all_shown slots.new.items) }
{
    sleepers.advance(start.clock);
    tick_awake(slots, sleepers, credits, start.clock);
    let shared_at = share_if_due(slots, start, shared_at);
    sleepers.settle(slots, start.clock);
    shared_at
}
