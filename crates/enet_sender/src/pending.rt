//! The commands of a peer, each under a key.

ghost use Rattle.std.specs.Prelude.{◌≡◌, ℕ, ◌+◌, ◌<◌, ◌≤◌, Some, None, [], true, false, if◌then◌else◌, IsOk, IfOk, IfSome, IfNone, IsTrue, option_copied};
ghost use Rattle.std.specs.Option.{option_map};
ghost use Rattle.enet_rtt.specs.Clock.{HappensIn};
ghost use Rattle.enet_rtt.specs.Transmission.{went_at};
ghost use Rattle.slab.specs.Slab.{get, slab_len, Updates, SameValues, HasRoomFor};
ghost use Rattle.enet_sender.specs.Late.{IsLate};
ghost use Rattle.enet_sender.specs.Outstanding.{outstanding_at};
ghost use Rattle.enet_sender.specs.Pending.{vacant, most_unused};
ghost use Rattle.enet_sender.specs.Private.Invariant.{IsShort};
ghost use Rattle.enet_sender.specs.Private.Pending.{queued};
ghost use Rattle.enet_sender.specs.Private.Rounds.{test_at};
ghost use Rattle.enet_sender.specs.declared.sent.Sent.{Sent};
ghost use Rattle.enet_sender.specs.Foretold.{IsLateIn, NonePasses, SomePasses};
ghost use Rattle.enet_sender.specs.Counting.{is_sent_again};
ghost use Rattle.enet_sender.specs.Sender.{again, begun, ends, is_late, marked};
ghost use Rattle.enet_sender.specs.Rings.{is_due, IsEmpty};

use crate::timed::TimedSlab;
use crate::{Late, Outstanding, Sent};
use enet_codec::Refusal;
use enet_fragment::DataCommand;
use enet_rtt::{Patience, Tick};
use std::alloc::Global;

/// In a ring, the place of a command that was acknowledged.
pub(crate) const VACANT: u32 = u32::MAX;

/// All commands of a peer that are queued, or sent and not acknowledged, each under a key. It knows when each of them is late first: to send
/// one or to take one out costs a step more for each doubling of their number at most, and to ask what is late costs what is late.
#[derive(Drop)]
pub struct Pending {
    slab: TimedSlab,
}

impl Pending {
    /// No commands. It takes no memory, so it never answers E1.
    pub fn open(alloc: Global) -> Result<Pending, Refusal>
        ensures empty { IfOk result IsEmpty }
        ensures never { IsOk result }
    {
        Ok(Pending {
            slab: TimedSlab::new(alloc),
        })
    }

    /// Makes room for so many commands more, and for their keys; whether there is. No command changes.
    #[inline(always)]
    pub(crate) fn reserve(&mut self, more: usize) -> bool
        ensures same { self.new.slab.slots ≡ self.old.slab.slots }
        ensures room { IsTrue result → HasRoomFor self.new.slab more }
        ensures keys { IsTrue result → self.new.slab.capacity ≤ vacant }
    {
        self.slab.reserve(more)
    }

    /// Keeps a command under a key of its own. There must be room for both.
    pub(crate) fn insert(&mut self, command: DataCommand) -> u32
        requires room { HasRoomFor self.old.slab 1 }
        requires keys { self.old.slab.capacity ≤ vacant }
        requires short { IsShort command }
        ensures low { result < vacant }
        ensures none { get self.old.slab result ≡ None }
        ensures updates { Updates self.old.slab self.new.slab result (Some (queued command)) }
        ensures len { slab_len self.new.slab ≡ slab_len self.old.slab + 1 }
        ensures capacity { self.new.slab.capacity ≡ self.old.slab.capacity }
    {
        self.slab.insert(command)
    }

    /// The command under a key.
    pub(crate) fn get(&self, key: u32) -> Option<&Sent>
        ensures { option_copied result ≡ get self.now.slab key }
    {
        self.slab.get(key)
    }

    /// Whether the command under a key is due to go again.
    pub(crate) fn is_due(&self, key: u32) -> bool
        ensures { result ≡ is_due (get self.now.slab key) }
    {
        match self.slab.get(key) {
            Some(sent) => sent.transmission.due,
            None => false,
        }
    }

    /// Whether the command under a key is late at the time `now`.
    pub(crate) fn is_late(&self, key: u32, now: u32) -> bool
        ensures { result ≡ test_at (is_late now) (get self.now.slab key) }
    {
        match self.slab.get(key) {
            Some(sent) => sent.transmission.is_late(now),
            None => false,
        }
    }

    /// 1 where the command under a key was sent more than once, and else 0.
    pub(crate) fn sent_again(&self, key: u32) -> u64
        ensures { result ≡ (if test_at is_sent_again (get self.now.slab key) then 1 else 0) }
    {
        match self.slab.get(key) {
            Some(sent) => u64::from(sent.transmission.attempts > 1),
            None => 0,
        }
    }

    /// In how many milliseconds after the moment `now` the command under a key is late: 0 where it is.
    pub(crate) fn next_late(&self, key: u32, now: u32) -> u32
        ensures { HappensIn (λ (later : ℕ). test_at (is_late later) (get self.now.slab key)) now result }
    {
        match self.slab.get(key) {
            Some(sent) => sent.transmission.next_late(now),
            None => u32::MAX,
        }
    }

    /// Whether the peer, heard last at `heard`, has timed out over the command under a key.
    pub(crate) fn ends(&self, key: u32, now: u32, patience: &Patience, heard: u32) -> bool
        ensures { result ≡ test_at (ends now patience.now heard) (get self.now.slab key) }
    {
        match self.slab.get(key) {
            Some(sent) => sent.transmission.ends(now, patience, heard),
            None => false,
        }
    }

    /// Marks the command under a key as due to go again, where it is late.
    pub(crate) fn mark(&mut self, key: u32, tick: Tick)
        ensures { Updates self.old.slab self.new.slab key (option_map (marked tick) (get self.old.slab key)) }
    {
        self.slab.mark(key, tick);
    }

    /// Whether the command under a key was sent at this time, in milliseconds modulo 65,536.
    #[inline(always)]
    pub(crate) fn went_at(&self, key: u32, time: u16) -> bool
        ensures { result ≡ test_at (λ (p : Sent). went_at time p.transmission) (get self.now.slab key) }
    {
        match self.slab.get(key) {
            Some(sent) => sent.transmission.went_at(time),
            None => false,
        }
    }

    /// Takes the command under a key out.
    #[inline(always)]
    pub(crate) fn take(&mut self, key: u32) -> Option<Sent>
        ensures value { result ≡ get self.old.slab key }
        ensures updates { Updates self.old.slab self.new.slab key None }
        ensures absent { IfNone result (self.new.slab ≡ self.old.slab) }
    {
        self.slab.take(key)
    }

    /// Gives most of the room back, where there is no command.
    #[inline(always)]
    pub(crate) fn give_unused_back(&mut self)
        ensures same { SameValues self.old.slab self.new.slab }
        ensures room { slab_len self.new.slab ≡ 0 → self.new.slab.capacity ≤ most_unused }
    {
        self.slab.give_unused_back();
    }

    /// The command under a key goes once more.
    pub(crate) fn send_again(&mut self, key: u32, now: u32)
        ensures { (p : Sent) → get self.old.slab key ≡ Some p → Updates self.old.slab self.new.slab key (Some (again now p)) }
    {
        self.slab.send_again(key, now);
    }

    /// The command under a key goes for the first time.
    pub(crate) fn begin(&mut self, key: u32, now: u32, timeout: u32)
        ensures { (p : Sent) → get self.old.slab key ≡ Some p → Updates self.old.slab self.new.slab key (Some (begun now timeout p.command)) }
    {
        self.slab.begin(key, now, timeout);
    }

    /// How many commands there are, queued or sent and not acknowledged, on all channels, and the bytes of their payloads. It looks at
    /// none.
    #[inline(always)]
    pub fn outstanding(&self) -> Outstanding
        ensures value { result ≡ outstanding_at self.now.slab }
        ensures low { (key : ℕ) (p : Sent) → get self.now.slab key ≡ Some p → key < vacant }
    {
        self.slab.outstanding()
    }

    /// Whether at the moment `now`, in milliseconds, a command of any channel has waited out its timeout, and is not due to go again
    /// already. It looks only at those whose timeout has passed.
    pub fn any_late(&mut self, now: u32) -> bool
        ensures some { IsTrue result → SomePasses (is_late now) (get self.old.slab) }
        ensures none { result ≡ false → NonePasses (is_late now) (get self.old.slab) }
        ensures same { self.new.slab ≡ self.old.slab }
    {
        self.slab.any_late(now)
    }

    /// Whether at the moment `now`, in milliseconds, a command of any channel has waited out its timeout, and its peer, heard last at
    /// `heard`, has timed out over it by `patience`. It looks only at those whose timeout has passed.
    pub fn any_ends(&self, now: u32, patience: &Patience, heard: u32) -> bool
        ensures some { IsTrue result → SomePasses (ends now patience.now heard) (get self.now.slab) }
        ensures none { result ≡ false → NonePasses (ends now patience.now heard) (get self.now.slab) }
    {
        self.slab.any_ends(now, patience, heard)
    }

    /// In how many milliseconds after the moment `now` a command of any channel has waited out its timeout first, of those that are not due
    /// to go again already: 0 where one has, and 4,294,967,295 where none waits. It is a reading. None where that doesn't tell: only where
    /// one went 2^32 milliseconds ago or more, and since then neither `any_late` answered false nor `mark_all` was called.
    pub fn first_late(&self, now: u32) -> Option<u32>
        ensures { IfSome result (IsLateIn (get self.now.slab) now) }
    {
        self.slab.first_late(now)
    }

    /// All that is late at the moment `tick`, on any channel, is due to go again, and has its next timeout (`Transmission::mark`); tells what
    /// it is together. Each channel is to seek what is due anew (`Outgoing::seek_anew`). It looks only at what is late.
    pub fn mark_all(&mut self, tick: Tick) -> Late
        ensures marked { (key : ℕ) → get self.new.slab key ≡ option_map (marked tick) (get self.old.slab key) }
        ensures late { IsLate tick self.old.slab.slots result }
        ensures low { (key : ℕ) (p : Sent) → get self.old.slab key ≡ Some p → key < vacant }
    {
        self.slab.mark_all(tick)
    }
}
