//! What an outbox's lists do.

ghost use Rattle.std.specs.Prelude.{◌≡◌, ℕ, ◌+◌, ◌-◌, ◌≤◌, ◌<◌, ◌⊎◌, ◌↔◌, Some, IsErrAnd, IsTrue, IfErr, OnOk, OnErr, false, [], length, map, slice_get, slice_set};
ghost use Rattle.std.specs.VecDeque.{deque_len, deque_capacity};
ghost use Rattle.enet_sender.specs.Due.{SendingEnd, with_submitted};
ghost use Rattle.enet_sender.specs.CommandChoice.{fragment_limit};
ghost use Rattle.enet_fragment.specs.Cutting.{piece_count};
ghost use Rattle.enet_outbox.specs.Outbox.{cleared_sender, marked_sender, prices_lost, released, still_kept, told_on};
ghost use Rattle.enet_outbox.specs.Invariant.{KeepsOutbox, with_accepted};

use crate::Acknowledgement;
use bytes::Bytes;
use enet_codec::Refusal;
use enet_rtt::Tick;
use enet_sender::Acknowledged;
use enet_senders::Senders;
use std::collections::VecDeque;

/// Makes room for one acknowledgement more; whether there is. A full list doubles. Where memory is refused, nothing
/// changes.
pub fn make_room(waiting: &mut VecDeque<Acknowledgement>) -> bool
    ensures items { waiting.new.items ≡ waiting.old.items }
    ensures len { deque_len waiting.new ≡ deque_len waiting.old }
    ensures room { IsTrue result → 1 ≤ deque_capacity waiting.new - deque_len waiting.new }
    ensures grows { deque_capacity waiting.old ≤ deque_capacity waiting.new }
    ensures refused { result ≡ false → deque_capacity waiting.new ≡ deque_capacity waiting.old }
    ensures idle { deque_len waiting.old < deque_capacity waiting.old → deque_capacity waiting.new ≡ deque_capacity waiting.old }
    ensures full { result ≡ false → deque_capacity waiting.old ≡ deque_len waiting.old }
{
    let is_full = waiting.capacity() == waiting.len();
    !is_full || waiting.reserve_exact(waiting.len() + 1).is_ok()
}

/// Submits a packet on a channel, as `Senders::submit` does. Where it is refused, nothing changes and the body is still there.
pub fn submit_on(
    senders: &mut Senders,
    channel: u8,
    flags: u8,
    body: &mut Bytes,
    mtu: u32,
) -> Result<(), Refusal>
    requires mtu { (576 ≤ mtu) × (mtu ≤ 4096) }
    requires inside { channel < length senders.old }
    ensures queued { (s : SendingEnd) → slice_get senders.old channel ≡ Some s
        → OnOk result (senders.new ≡ slice_set senders.old channel (with_submitted mtu s flags body.old)) }
    ensures too_large { IsErrAnd result (λ why. why ≡ Refusal.TooLarge) ↔ (fragment_limit < piece_count (length body.old) mtu) }
    ensures refused { OnErr result ((senders.new ≡ senders.old) × (body.new ≡ body.old)) }
    ensures taken { OnOk result (body.new ≡ []) }
    ensures only { IfErr result (λ why. (why ≡ Refusal.TooLarge) ⊎ (why ≡ Refusal.Memory)) }
    ensures kept { (transit prices : ℕ) → KeepsOutbox transit prices senders.old → KeepsOutbox transit prices senders.new }
{
    senders.submit(channel, flags, body, mtu)
}

/// An acknowledgement of a channel's command comes: the command that it matches goes, and is no longer in transit. The answer is what is
/// told of it.
pub fn acknowledge_on(
    senders: &mut Senders,
    transit: &mut u32,
    prices: &mut u32,
    channel: u8,
    number: u16,
    time: u16,
) -> Option<Acknowledged>
    requires { KeepsOutbox transit.old prices.old senders.old }
    ensures told { result ≡ told_on (slice_get senders.old channel) number time }
    ensures accepted { senders.new ≡ with_accepted senders.old channel number time (slice_get senders.old channel) }
    ensures kept { KeepsOutbox transit.new prices.new senders.new }
{
    let place = usize::from(channel);
    if place >= senders.len() {
        return None;
    }
    let told = senders.acknowledge(channel, number, time)?;
    if !told.due {
        *transit -= told.bytes;
        *prices -= told.price;
    }
    Some(told)
}

/// For which channel the room is kept, once it is kept for this one no longer.
pub fn released(kept: Option<u8>, channel: u8) -> Option<u8>
    ensures { result ≡ released kept channel }
{
    match kept {
        None => None,
        Some(owner) => { if owner == channel { None } else { kept } }
    }
}

/// For which channel the room is kept once a command of this channel was acknowledged: for this one no longer, where nothing of it may wait
/// for room.
pub fn still_kept(senders: &Senders, kept: Option<u8>, channel: u8) -> Option<u8>
    ensures { (s : SendingEnd) → slice_get senders.now channel ≡ Some s → result ≡ still_kept kept channel s.sender }
{
    let Some(owner) = kept else {
        return None;
    };
    if owner != channel || usize::from(channel) >= senders.len() || senders.awaits_room(channel) {
        return kept;
    }
    None
}

/// What is in transit once what is late left it.
#[derive(Clone, Copy)]
pub struct Remains {
    /// Its payload bytes.
    pub bytes: u32,
    /// Its prices.
    pub prices: u32,
    /// The prices of what was lost.
    pub lost: u32,
}

/// Marks all that is late as due to go again: it is no longer in transit.
pub fn mark(senders: &mut Senders, transit: u32, prices: u32, tick: Tick) -> Remains
    requires { KeepsOutbox transit prices senders.old }
    ensures lost { result.lost ≡ prices_lost tick senders.old }
    ensures senders { senders.new ≡ map (marked_sender tick) senders.old }
    ensures kept { KeepsOutbox result.bytes result.prices senders.new }
{
    let late = senders.mark(tick);
    let bytes = transit - late.bytes;
    let left = prices - late.prices;
    Remains {
        bytes,
        prices: left,
        lost: late.lost,
    }
}

/// Drops all that is queued or sent on the channels.
pub fn clear(senders: &mut Senders)
    ensures senders { senders.new ≡ map cleared_sender senders.old }
    ensures kept { (transit prices : ℕ) → KeepsOutbox transit prices senders.old → KeepsOutbox 0 0 senders.new }
{
    senders.clear();
}
