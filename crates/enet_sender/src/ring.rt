//! A ring of the keys of what is sent.

ghost use Rattle.std.specs.Prelude.{◌≡◌, ◌≢◌, ℕ, ◌+◌, ◌-◌, ◌<◌, ◌≤◌, Option, Some, None, IsTrue, IfSome, IfNone, true, false, slice_get, slice_set};
ghost use Rattle.std.specs.List.{list_any};
ghost use Rattle.std.specs.VecDeque.{deque_len, deque_capacity};
ghost use Rattle.enet_rtt.specs.Clock.{HappensIn};
ghost use Rattle.enet_seq.specs.Windows.{ahead};
ghost use Rattle.enet_sender.specs.declared.sent.Sent.{Sent};
ghost use Rattle.enet_sender.specs.Pending.{vacant, most_unused, times};
ghost use Rattle.enet_sender.specs.Private.Rounds.{marked_at, taken_at, test_at};
ghost use Rattle.enet_sender.specs.Sender.{ends, is_late};
ghost use Rattle.slab.specs.Slab.{get};
ghost use Rattle.enet_sender.specs.Rings.{at_place, is_due, NoneDue};
ghost use Rattle.enet_sender.specs.Private.Trims.{Trims};

use crate::Pending;
use crate::pending::VACANT;
use crate::timed::MOST_UNUSED;
use enet_rtt::{Patience, Tick};
use enet_seq::ahead;
use std::collections::VecDeque;

/// The first key of a ring.
pub(crate) fn first(ring: &VecDeque<u32>) -> Option<u32>
    ensures { result ≡ slice_get ring.now.items 0 }
{
    ring.front().copied()
}

/// The place that belongs to a number, `passed` being the number of the last place.
pub(crate) fn place_of(sent: &VecDeque<u32>, passed: u16, number: u16) -> Option<usize>
    ensures some { IfSome result (λ place. place + (ahead number passed + 1) ≡ deque_len sent.now) }
    ensures none { IfNone result (deque_len sent.now ≤ ahead number passed) }
{
    let back = usize::from(ahead(number, passed));
    let len = sent.len();
    if back < len {
        Some(len - 1 - back)
    } else {
        None
    }
}

/// The first place from `from` on whose command is due to go again.
pub(crate) fn first_due(sent: &VecDeque<u32>, from: usize, pending: &Pending) -> Option<usize>
    ensures inside { IfSome result (λ place. place < deque_len sent.now) }
    ensures due { IfSome result (λ place. is_due (at_place (get pending.now.slab) sent.now.items place) ≡ true) }
    ensures before { IfSome result (λ place. NoneDue (get pending.now.slab) sent.now.items from place) }
    ensures none { IfNone result (NoneDue (get pending.now.slab) sent.now.items from (deque_len sent.now)) }
{
    for place in from..sent.len() {
        if pending.is_due(sent[place]) {
            return Some(place);
        }
    }
    None
}

/// Whether the first place is vacant.
fn begins_vacant(sent: &VecDeque<u32>) -> bool
    ensures some { IsTrue result → slice_get sent.now.items 0 ≡ Some vacant }
    ensures none { result ≡ false → (key : ℕ) → slice_get sent.now.items 0 ≡ Some key → key ≢ vacant }
{
    match sent.front() {
        None => false,
        Some(key) => *key == VACANT,
    }
}

/// Takes away the vacant places before the first command.
fn trim(sent: &mut VecDeque<u32>, due_from: &mut usize)
    ensures trims { (at : ℕ → Option Sent) → Trims at sent.old.items due_from.old sent.new.items due_from.new }
    ensures first { (key : ℕ) → slice_get sent.new.items 0 ≡ Some key → key ≢ vacant }
    ensures len { deque_len sent.new ≤ deque_len sent.old }
    ensures capacity { deque_capacity sent.new ≡ deque_capacity sent.old }
{
    while begins_vacant(sent) {
        let _ = sent.pop_front();
        *due_from = due_from.saturating_sub(1);
    }
}

/// A place falls vacant. The first one is taken away, and so are the vacant places before the first command.
pub(crate) fn vacate(sent: &mut VecDeque<u32>, due_from: &mut usize, place: usize)
    requires { place < deque_len sent.old }
    ensures trims { (at : ℕ → Option Sent) → Trims at (slice_set sent.old.items place vacant) due_from.old sent.new.items due_from.new }
    ensures first { (key : ℕ) → slice_get sent.new.items 0 ≡ Some key → key ≢ vacant }
    ensures len { deque_len sent.new ≤ deque_len sent.old }
    ensures capacity { deque_capacity sent.new ≡ deque_capacity sent.old }
{
    if place == 0 {
        let _ = sent.pop_front();
        *due_from = due_from.saturating_sub(1);
    } else {
        sent[place] = VACANT;
    }
    trim(sent, due_from);
}

/// Gives most of the room of both rings back, where nothing is in them.
#[inline(always)]
pub(crate) fn give_back(queued: &mut VecDeque<u32>, sent: &mut VecDeque<u32>)
    ensures queued { queued.new.items ≡ queued.old.items }
    ensures sent { sent.new.items ≡ sent.old.items }
    ensures places { deque_len sent.old + deque_len queued.old ≤ deque_capacity sent.old → deque_len sent.new + deque_len queued.new ≤ deque_capacity sent.new }
    ensures room { deque_len queued.new ≡ 0 → deque_len sent.new ≡ 0 → (deque_capacity queued.new ≤ most_unused) × (deque_capacity sent.new ≤ most_unused) }
{
    if sent.is_empty() && queued.is_empty() {
        if sent.capacity() > MOST_UNUSED {
            sent.shrink_to_fit();
        }
        if queued.capacity() > MOST_UNUSED {
            queued.shrink_to_fit();
        }
    }
}

/// Whether the peer, heard last at `heard`, has timed out over a command of a ring.
pub(crate) fn any_ends(
    ring: &VecDeque<u32>,
    pending: &Pending,
    now: u32,
    patience: &Patience,
    heard: u32,
) -> bool
    ensures { result ≡ list_any (λ (key : ℕ). test_at (ends now patience.now heard) (get pending.now.slab key)) ring.now.items }
{
    ring.iter()
        .any(|key| pending.ends(*key, now, patience, heard))
}

/// Whether a command of a ring is late.
pub(crate) fn any_late(ring: &VecDeque<u32>, pending: &Pending, now: u32) -> bool
    ensures { result ≡ list_any (λ (key : ℕ). test_at (is_late now) (get pending.now.slab key)) ring.now.items }
{
    ring.iter().any(|key| pending.is_late(*key, now))
}

/// In how many milliseconds after the moment `now` a command of a ring is late first: 0 where one is.
pub(crate) fn next_late(ring: &VecDeque<u32>, pending: &Pending, now: u32) -> u32
    ensures { HappensIn (λ (later : ℕ). list_any (λ (key : ℕ). test_at (is_late later) (get pending.now.slab key)) ring.now.items) now result }
{
    let mut wait = u32::MAX;
    for place in 0..ring.len() {
        let key = ring[place];
        wait = wait.min(pending.next_late(key, now));
    }
    wait
}

/// Marks what is late of a ring's commands as due to go again.
pub(crate) fn mark_all(ring: &VecDeque<u32>, pending: &mut Pending, tick: Tick)
    ensures { (key : ℕ) → get pending.new.slab key ≡ marked_at tick (times key ring.now.items) (get pending.old.slab key) }
{
    for place in 0..ring.len() {
        let key = ring[place];
        pending.mark(key, tick);
    }
}

/// Takes a ring's commands out.
pub(crate) fn take_all(ring: &VecDeque<u32>, pending: &mut Pending)
    ensures { (key : ℕ) → get pending.new.slab key ≡ taken_at (times key ring.now.items) (get pending.old.slab key) }
{
    for place in 0..ring.len() {
        let key = ring[place];
        let _ = pending.take(key);
    }
}
