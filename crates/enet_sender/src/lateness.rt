//! Which commands are late, by the moments that are noted for them.
//!
//! A moment is as early as its command's timeout has passed, and stays where 2^32 milliseconds have passed since the command went, so that
//! the clock doesn't show it any more: so what is due by its moment is asked itself whether it is late. Whenever all is asked, such a moment
//! is noted anew. So none is past after that (`NonePast`), and a reading finds one only where nobody asked for nearly 2^32 milliseconds.

ghost use Rattle.std.specs.Prelude.{◌≡◌, ◌≢◌, ℕ, ◌+◌, ◌-◌, ◌%◌, ◌<◌, ◌≤◌, ◌^◌, None, Some, true, false, IsTrue, IfNone, IfSome, length, slice_index_or};
ghost use Rattle.slab.specs.Slab.{get, Updates};
ghost use Rattle.std.specs.Option.{option_map};
ghost use Rattle.enet_rtt.specs.Clock.{elapsed_time};
ghost use Rattle.enet_sender.specs.declared.sent.Sent.{Sent};
ghost use Rattle.enet_sender.specs.Foretold.{AreForetold, IsLateIn, KeepsTime, NonePasses, SomePasses};
ghost use Rattle.enet_sender.specs.Late.{IsLate};
ghost use Rattle.enet_sender.specs.Pending.{vacant};
ghost use Rattle.enet_sender.specs.Private.Late.{IsLateOne, late_with};
ghost use Rattle.enet_deadlines.specs.Moments.{IsNotDue};
ghost use Rattle.enet_sender.specs.Private.Foretold.{IsLateAt, IsOvertaken, NonePast};
ghost use Rattle.enet_sender.specs.Private.Rounds.{test_at};
ghost use Rattle.enet_sender.specs.Sender.{ends, is_late, marked};

use crate::Sent;
use crate::writing::COVER;
use enet_deadlines::{Deadlines, moment_at};
use enet_rtt::{Patience, Tick, Transmission, elapsed};
use slab::Slab;

/// The clock that does not wrap is set back to its beginning once it is so far. No host runs so long.
const FAR: u64 = 1 << 62;

/// The clock that does not wrap begins with so many milliseconds, so that all times of the other one lie behind it.
pub(crate) const BEGINNING: u64 = 4_294_967_296;

/// What became due to go again at a moment. Each number is at most 4,294,967,295, and stops there.
#[derive(Clone, Copy)]
pub struct Late {
    /// The bytes of its payloads.
    pub bytes: u32,
    /// Its prices: the payload of each command and 28 bytes.
    pub prices: u32,
    /// The prices of those commands since whose last send the peer was heard.
    pub lost: u32,
}

/// Whether the command under a key is late at the time `now`.
fn is_late(slab: &Slab<Sent>, key: usize, now: u32) -> bool
    ensures { result ≡ test_at (is_late now) (get slab.now key) }
{
    match slab.get(key) {
        Some(sent) => sent.transmission.is_late(now),
        None => false,
    }
}

/// Whether the peer, heard last at `heard`, has timed out over the command under a key.
fn is_end(slab: &Slab<Sent>, key: usize, now: u32, patience: &Patience, heard: u32) -> bool
    ensures { result ≡ test_at (ends now patience.now heard) (get slab.now key) }
{
    match slab.get(key) {
        Some(sent) => sent.transmission.ends(now, patience, heard),
        None => false,
    }
}

/// The moment at which a command is late; the clock shows `now` at `clock`.
pub(crate) fn moment_of(transmission: Transmission, clock: u64, now: u32) -> u64
    requires begun { 2 ^ 32 ≤ clock }
    requires small { clock < 2 ^ 63 }
    ensures is { result + elapsed_time now transmission.last ≡ clock + transmission.timeout }
    ensures fits { transmission.timeout < 2 ^ 32 }
    ensures low { transmission.last < 2 ^ 32 }
{
    let passed = elapsed(now, transmission.last);
    clock - u64::from(passed) + u64::from(transmission.timeout)
}

/// The moment at which the command under a key is late, where it waits for that; the clock shows `now` at `clock`.
fn moment_under(slab: &Slab<Sent>, key: usize, clock: u64, now: u32) -> Option<u64>
    requires begun { 2 ^ 32 ≤ clock }
    requires small { clock < 2 ^ 63 }
    ensures some { IfSome result (IsLateAt (get slab.now) key clock now) }
    ensures low { IfSome result (λ moment. moment < 2 ^ 64 - 1) }
    ensures none { IfNone result ((p : Sent) → get slab.now key ≡ Some p → p.transmission.due ≡ true) }
{
    match slab.get(key) {
        Some(sent) if !sent.transmission.due => Some(moment_of(sent.transmission, clock, now)),
        _ => None,
    }
}

/// The clock goes on to `now`, and what it is then is the answer.
pub(crate) fn advance(clock: u64, slab: &Slab<Sent>, deadlines: &mut Deadlines, now: u32) -> u64
    requires { KeepsTime slab.now deadlines.old clock }
    ensures kept { KeepsTime slab.now deadlines.new result }
    ensures shown { result % 2 ^ 32 ≡ now }
    ensures len { length deadlines.new ≡ length deadlines.old }
{
    let next = moment_at(clock, now);
    if next < FAR {
        return next;
    }
    let anew = BEGINNING + u64::from(now);
    for key in 0..deadlines.len() {
        if let Some(moment) = moment_under(slab, key, anew, now) {
            deadlines.set(key, moment);
        }
    }
    anew
}

/// The moment under a key is noted anew, where it is past and the command isn't late.
fn note_anew(slab: &Slab<Sent>, deadlines: &mut Deadlines, key: usize, clock: u64, now: u32)
    requires begun { 2 ^ 32 ≤ clock }
    requires small { clock < 2 ^ 63 }
    requires shown { clock % 2 ^ 32 ≡ now }
    requires within { key < length deadlines.old }
    requires waits { test_at (is_late now) (get slab.now key) ≡ false }
    requires foretold { AreForetold clock (get slab.now) deadlines.old }
    ensures ahead { IsNotDue clock deadlines.new key }
    ensures others { (k : ℕ) → k ≢ key → slice_index_or deadlines.new k None ≡ slice_index_or deadlines.old k None }
    ensures foretold { AreForetold clock (get slab.now) deadlines.new }
    ensures len { length deadlines.new ≡ length deadlines.old }
{
    if let Some(moment) = moment_under(slab, key, clock, now) {
        deadlines.set(key, moment);
    }
}

/// Whether a command is late. Where the moment of one is past and it isn't, its moment is noted anew.
pub(crate) fn any_late(slab: &Slab<Sent>, deadlines: &mut Deadlines, clock: u64, now: u32) -> bool
    requires begun { 2 ^ 32 ≤ clock }
    requires small { clock < 2 ^ 63 }
    requires shown { clock % 2 ^ 32 ≡ now }
    requires few { length deadlines.old ≤ vacant }
    requires foretold { AreForetold clock (get slab.now) deadlines.old }
    ensures some { IsTrue result → SomePasses (is_late now) (get slab.now) }
    ensures none { result ≡ false → NonePasses (is_late now) (get slab.now) }
    ensures ahead { result ≡ false → NonePast clock deadlines.new }
    ensures foretold { AreForetold clock (get slab.now) deadlines.new }
    ensures len { length deadlines.new ≡ length deadlines.old }
{
    let mut from = 0;
    'due: while let Some(key) = deadlines.next_due(from, clock) {
        if is_late(slab, key, now) {
            return true;
        }
        note_anew(slab, deadlines, key, clock, now);
        from = key + 1;
    }
    false
}

/// Whether the peer, heard last at `heard`, has timed out over a command.
pub(crate) fn any_ends(
    slab: &Slab<Sent>,
    deadlines: &Deadlines,
    clock: u64,
    now: u32,
    patience: &Patience,
    heard: u32,
) -> bool
    requires shown { clock % 2 ^ 32 ≡ now }
    requires few { length deadlines.now ≤ vacant }
    requires foretold { AreForetold clock (get slab.now) deadlines.now }
    ensures some { IsTrue result → SomePasses (ends now patience.now heard) (get slab.now) }
    ensures none { result ≡ false → NonePasses (ends now patience.now heard) (get slab.now) }
{
    let mut from = 0;
    'due: while let Some(key) = deadlines.next_due(from, clock) {
        if is_end(slab, key, now, patience, heard) {
            return true;
        }
        from = key + 1;
    }
    false
}

/// In how many milliseconds after the time `now` a command is late first, 4,294,967,295 where none waits. None where a moment is past and its
/// command isn't late: only where that went 2^32 milliseconds ago or more.
pub(crate) fn first_late(
    slab: &Slab<Sent>,
    deadlines: &Deadlines,
    clock: u64,
    now: u32,
) -> Option<u32>
    requires shown { clock % 2 ^ 32 ≡ now }
    requires few { length deadlines.now ≤ vacant }
    requires foretold { AreForetold clock (get slab.now) deadlines.now }
    ensures some { IfSome result (IsLateIn (get slab.now) now) }
    ensures none { IfNone result (IsOvertaken clock (get slab.now) deadlines.now) }
{
    let Some(moment) = deadlines.least() else {
        return Some(u32::MAX);
    };
    if clock < moment {
        let wait = moment - clock;
        return Some(wait as u32);
    }
    let key = deadlines.first_due(clock)?;
    if is_late(slab, key, now) {
        Some(0)
    } else {
        None
    }
}

/// Marks the command under a key as due to go again, where it is late; whether it is.
pub(crate) fn mark_under(slab: &mut Slab<Sent>, key: usize, tick: Tick) -> bool
    ensures updates { Updates slab.old slab.new key (option_map (marked tick) (get slab.old key)) }
    ensures late { result ≡ test_at (is_late tick.now) (get slab.old key) }
    ensures capacity { slab.new.capacity ≡ slab.old.capacity }
{
    match slab.get_mut(key) {
        Some(sent) => {
            let late = sent.transmission.is_late(tick.now);
            sent.transmission.mark(tick);
            late
        }
        None => false,
    }
}

/// What the command under a key is of what is late.
fn late_under(slab: &Slab<Sent>, key: usize, tick: Tick) -> Late
    ensures { IsLateOne tick (get slab.now key) result }
{
    let Some(sent) = slab.get(key) else {
        return Late::NOTHING;
    };
    if !sent.command.reliable || !sent.transmission.is_late(tick.now) {
        return Late::NOTHING;
    }
    let bytes = sent.command.body.len().min(u32::MAX as usize) as u32;
    let prices = bytes.saturating_add(COVER);
    Late {
        bytes,
        prices,
        lost: if sent.transmission.is_heard_since(tick) {
            prices
        } else {
            0
        },
    }
}

impl Late {
    /// Nothing is late.
    const NOTHING: Late = Late {
        bytes: 0,
        prices: 0,
        lost: 0,
    };

    /// The same with one command more.
    fn with(self, one: Late) -> Late
        ensures { result ≡ late_with self one }
    {
        Late {
            bytes: self.bytes.saturating_add(one.bytes),
            prices: self.prices.saturating_add(one.prices),
            lost: self.lost.saturating_add(one.lost),
        }
    }
}

/// Marks all that is late as due to go again, and tells what it is together. Where the moment of a command is past and it isn't late, its
/// moment is noted anew.
pub(crate) fn mark_all(
    slab: &mut Slab<Sent>,
    deadlines: &mut Deadlines,
    clock: u64,
    tick: Tick,
) -> Late
    requires begun { 2 ^ 32 ≤ clock }
    requires small { clock < 2 ^ 63 }
    requires shown { clock % 2 ^ 32 ≡ tick.now }
    requires few { length deadlines.old ≤ vacant }
    requires foretold { AreForetold clock (get slab.old) deadlines.old }
    ensures marked { (key : ℕ) → get slab.new key ≡ option_map (marked tick) (get slab.old key) }
    ensures late { IsLate tick slab.old.slots result }
    ensures ahead { NonePast clock deadlines.new }
    ensures foretold { AreForetold clock (get slab.new) deadlines.new }
    ensures len { length deadlines.new ≡ length deadlines.old }
{
    let mut late = Late::NOTHING;
    let mut from = 0;
    'due: while let Some(key) = deadlines.next_due(from, clock) {
        late = late.with(late_under(slab, key, tick));
        if mark_under(slab, key, tick) {
            deadlines.clear(key);
        } else {
            note_anew(slab, deadlines, key, clock, tick.now);
        }
        from = key + 1;
    }
    late
}
