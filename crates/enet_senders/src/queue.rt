//! What is queued and what is sent.

ghost use Rattle.std.specs.Prelude.{◌≡◌, ℕ, ◌+◌, ◌<◌, ◌≤◌, List, ◌∷◌, [], ◌++◌, IsTrue, IfSome, IfNone, false, if◌then◌else◌, length, drop, slice_get, slice_set, Some, map};
ghost use Rattle.std.specs.List.{position, count_by, list_any};
ghost use Rattle.std.specs.VecDeque.{deque_len, deque_capacity};
ghost use Rattle.enet_codec.specs.Message.{IsMessage, canonical};
ghost use Rattle.enet_codec.specs.Writing.{Puts};
ghost use Rattle.enet_rtt.specs.Clock.{HappensIn};
ghost use Rattle.enet_senders.specs.declared.control.Numbered.{Numbered};
ghost use Rattle.enet_senders.specs.declared.control.SentControl.{SentControl};
ghost use Rattle.enet_senders.specs.Controlling.{Commands, again, begun, ends, has_waited, held_back, is_in_span, is_late, is_reliable, lateness, marked, message_of, position_of};
ghost use Rattle.enet_sender.specs.Counting.{added};
ghost use Rattle.enet_senders.specs.Counting.{is_sent_again};
ghost use Rattle.enet_senders.specs.Invariant.{KeepsRoom, room_of};

use crate::{Numbered, SentControl};
use enet_codec::write_command;
use enet_rtt::{Expiry, Patience, SendTimes, Tick, Transmission, elapsed};
use enet_seq::ahead;
use std::collections::VecDeque;

/// How many numbers may be unacknowledged at a time (our profile).
const SPAN: u16 = 8192;

/// Makes room for one command more; whether there is. What has to grow doubles.
pub fn make_room(queued: &mut VecDeque<Numbered>, sent: &mut VecDeque<SentControl>) -> bool
    requires { KeepsRoom (deque_len queued.old) (deque_capacity queued.old) (deque_len sent.old) (deque_capacity sent.old) }
    ensures kept { KeepsRoom (deque_len queued.new) (deque_capacity queued.new) (deque_len sent.new) (deque_capacity sent.new) }
    ensures queued { queued.new.items ≡ queued.old.items }
    ensures sent { sent.new.items ≡ sent.old.items }
    ensures room { IsTrue result → 1 ≤ room_of (deque_len queued.new) (deque_capacity queued.new) (deque_len sent.new) (deque_capacity sent.new) }
    ensures refused { result ≡ false → room_of (deque_len queued.new) (deque_capacity queued.new) (deque_len sent.new) (deque_capacity sent.new)
        ≡ room_of (deque_len queued.old) (deque_capacity queued.old) (deque_len sent.old) (deque_capacity sent.old) }
    ensures full { result ≡ false → room_of (deque_len queued.old) (deque_capacity queued.old) (deque_len sent.old) (deque_capacity sent.old) ≡ 0 }
    ensures grows { room_of (deque_len queued.old) (deque_capacity queued.old) (deque_len sent.old) (deque_capacity sent.old)
        ≤ room_of (deque_len queued.new) (deque_capacity queued.new) (deque_len sent.new) (deque_capacity sent.new) }
    ensures idle { 1 ≤ room_of (deque_len queued.old) (deque_capacity queued.old) (deque_len sent.old) (deque_capacity sent.old)
        → room_of (deque_len queued.new) (deque_capacity queued.new) (deque_len sent.new) (deque_capacity sent.new)
        ≡ room_of (deque_len queued.old) (deque_capacity queued.old) (deque_len sent.old) (deque_capacity sent.old) }
{
    let more = queued.len() + 1;
    let is_sent_full = sent.capacity() - sent.len() < more;
    if is_sent_full && sent.reserve_exact(sent.len() + more).is_err() {
        return false;
    }
    let is_queue_full = queued.capacity() == queued.len();
    !is_queue_full || queued.reserve_exact(more).is_ok()
}

/// The first sent command that is due to go again.
pub fn position_of_due(sent: &VecDeque<SentControl>) -> Option<usize>
    ensures place { result ≡ position (λ (p : SentControl). p.transmission.due) sent.now.items }
    ensures bound { IfSome result (λ place. place < deque_len sent.now) }
{
    sent.iter().position(|sent| sent.transmission.due)
}

/// Where the sent command of this number stands.
pub fn position_of(sent: &VecDeque<SentControl>, number: u16) -> Option<usize>
    ensures { result ≡ position_of number sent.now.items }
{
    sent.iter().position(|sent| sent.command.number == number)
}

/// Whether the span lets a command of this number go for the first time.
pub fn is_in_span(sent: &VecDeque<SentControl>, number: u16) -> bool
    ensures { result ≡ is_in_span sent.now.items number }
{
    match sent.front() {
        None => true,
        Some(oldest) => ahead(oldest.command.number, number) < SPAN,
    }
}

/// Writes a command at a place, where it fits.
pub fn put(buf: &mut [u8], at: usize, command: &Numbered) -> Option<usize>
    ensures some { IfSome result (λ past. Puts buf.old at (canonical (message_of command.now)) buf.new past) }
    ensures message { IfSome result (λ past. IsMessage (message_of command.now)) }
    ensures none { IfNone result (buf.new ≡ buf.old) }
    ensures room { IfNone result (length buf.old < at + length (canonical (message_of command.now))) }
{
    write_command(buf, at, &command.command())
}

/// The command at this place goes once more.
pub fn send_again(sent: &mut VecDeque<SentControl>, place: usize, now: u32)
    requires { place < deque_len sent.old }
    ensures sent { (p : SentControl) → slice_get sent.old.items place ≡ Some p → sent.new.items ≡ slice_set sent.old.items place (again now p) }
    ensures len { deque_len sent.new ≡ deque_len sent.old }
    ensures capacity { deque_capacity sent.new ≡ deque_capacity sent.old }
{
    let sent = &mut sent[place];
    sent.transmission.send_again(now);
    sent.times.add(now);
}

/// The head of the queue goes for the first time, and is kept where it is acknowledged.
pub fn send_head(
    queued: &mut VecDeque<Numbered>,
    sent: &mut VecDeque<SentControl>,
    now: u32,
    timeout: u32,
)
    requires some { 0 < deque_len queued.old }
    requires kept { KeepsRoom (deque_len queued.old) (deque_capacity queued.old) (deque_len sent.old) (deque_capacity sent.old) }
    ensures kept { KeepsRoom (deque_len queued.new) (deque_capacity queued.new) (deque_len sent.new) (deque_capacity sent.new) }
    ensures queued { queued.new.items ≡ drop 1 queued.old.items }
    ensures sent { (n : Numbered) (rest : List Numbered) → queued.old.items ≡ n ∷ rest
        → sent.new.items ≡ (if is_reliable n.control then sent.old.items ++ begun now timeout n ∷ [] else sent.old.items) }
    ensures room { room_of (deque_len queued.old) (deque_capacity queued.old) (deque_len sent.old) (deque_capacity sent.old)
        ≤ room_of (deque_len queued.new) (deque_capacity queued.new) (deque_len sent.new) (deque_capacity sent.new) }
{
    let Some(command) = queued.pop_front() else {
        unreachable!()
    };
    if command.control.is_reliable() {
        sent.push_back_reserved(SentControl {
            command,
            transmission: Transmission::begin(now, timeout),
            times: SendTimes::begin(now),
        });
    }
}

/// The first sent command over which the peer, heard last at `heard`, has timed out.
fn place_of_end(
    sent: &VecDeque<SentControl>,
    now: u32,
    patience: &Patience,
    heard: u32,
) -> Option<usize>
    ensures { result ≡ position (ends now patience.now heard) sent.now.items }
{
    sent.iter()
        .position(|sent| sent.transmission.ends(now, patience, heard))
}

/// The first sent command that is late.
fn place_of_late(sent: &VecDeque<SentControl>, now: u32) -> Option<usize>
    ensures { result ≡ position (is_late now) sent.now.items }
{
    sent.iter().position(|sent| sent.transmission.is_late(now))
}

/// Whether the peer, heard last at `heard`, has timed out over a sent command.
pub fn any_ends(sent: &VecDeque<SentControl>, now: u32, patience: &Patience, heard: u32) -> bool
    ensures { result ≡ list_any (ends now patience.now heard) sent.now.items }
{
    sent.iter()
        .any(|sent| sent.transmission.ends(now, patience, heard))
}

/// Whether a sent command is late.
pub fn any_late(sent: &VecDeque<SentControl>, now: u32) -> bool
    ensures { result ≡ list_any (is_late now) sent.now.items }
{
    sent.iter().any(|sent| sent.transmission.is_late(now))
}

/// In how many milliseconds after the moment `now` a sent command is late first: 0 where one is.
pub fn next_late(sent: &VecDeque<SentControl>, now: u32) -> u32
    ensures { HappensIn (λ (later : ℕ). list_any (is_late later) sent.now.items) now result }
{
    let mut wait = u32::MAX;
    for place in 0..sent.len() {
        let command = &sent[place];
        wait = wait.min(command.transmission.next_late(now));
    }
    wait
}

/// 1 where a command was sent more than once, and else 0.
fn sent_again(command: &SentControl) -> u64
    ensures { result ≡ (if is_sent_again command.now then 1 else 0) }
{
    u64::from(command.transmission.attempts > 1)
}

/// So many, and the sent commands that were sent more than once; it stops at the greatest number.
pub fn count_sent_again(sent: &VecDeque<SentControl>, so_far: u64) -> u64
    ensures { result ≡ added so_far (count_by is_sent_again sent.now.items) }
{
    let mut total = so_far;
    for place in 0..sent.len() {
        let command = &sent[place];
        total = total.saturating_add(sent_again(command));
    }
    total
}

/// Marks all that is late as due to go again.
#[tactic(auto, using(crate::proofs::Marking::map_marked))]
pub fn mark(sent: &mut VecDeque<SentControl>, tick: Tick)
    ensures sent { sent.new.items ≡ map (marked tick) sent.old.items }
    ensures len { deque_len sent.new ≡ deque_len sent.old }
    ensures capacity { deque_capacity sent.new ≡ deque_capacity sent.old }
{
    for place in 0..sent.len() {
        sent[place].transmission.mark(tick);
    }
}

/// A command that is late counts as tried, though it doesn't go.
fn hold_back_one(sent: &mut SentControl, tick: Tick)
    ensures { sent.new ≡ held_back tick sent.old }
{
    if sent.transmission.is_late(tick.now) {
        sent.transmission.mark(tick);
        sent.transmission.send_again(tick.now);
    }
}

/// All that is late counts as tried, though nothing goes.
#[tactic(auto, using(crate::proofs::Marking::map_held_back))]
pub fn hold_back(sent: &mut VecDeque<SentControl>, tick: Tick)
    ensures sent { sent.new.items ≡ map (held_back tick) sent.old.items }
    ensures len { deque_len sent.new ≡ deque_len sent.old }
    ensures capacity { deque_capacity sent.new ≡ deque_capacity sent.old }
{
    for place in 0..sent.len() {
        hold_back_one(&mut sent[place], tick);
    }
}

/// Whether so many milliseconds have passed since a sent command first went.
pub fn any_waited(sent: &VecDeque<SentControl>, now: u32, ms: u32) -> bool
    ensures { result ≡ list_any (has_waited ms now) sent.now.items }
{
    sent.iter()
        .any(|sent| elapsed(now, sent.transmission.first) >= ms)
}

/// In how many milliseconds after the moment `now` so many have passed since a sent command first went: 0 where they have.
pub fn next_waited(sent: &VecDeque<SentControl>, now: u32, ms: u32) -> u32
    ensures { HappensIn (λ (later : ℕ). list_any (has_waited ms later) sent.now.items) now result }
{
    let mut wait = u32::MAX;
    for place in 0..sent.len() {
        let command = &sent[place];
        wait = wait.min(ms.saturating_sub(elapsed(now, command.transmission.first)));
    }
    wait
}

/// What a moment brings, the peer having been heard last at `heard`.
pub fn lateness(sent: &VecDeque<SentControl>, now: u32, patience: &Patience, heard: u32) -> Expiry
    ensures { (c : Commands) → c.sent ≡ sent.now.items → result ≡ lateness now patience.now heard c }
{
    if place_of_end(sent, now, patience, heard).is_some() {
        return Expiry::End;
    }
    if place_of_late(sent, now).is_some() {
        Expiry::Resend
    } else {
        Expiry::No
    }
}
