//! The commands of a peer under their keys, and when each that waits for its acknowledgement is late.

ghost use Rattle.std.specs.Prelude.{◌≡◌, ℕ, ◌+◌, ◌<◌, ◌≤◌, ◌^◌, ◌++◌, Some, None, [], false, length, replicate, IsTrue, IfNone, IfSome, option_copied};
ghost use Rattle.slab.specs.Slab.{Slab, get, slab_len, Updates, SameValues, HasRoomFor};
ghost use Rattle.std.specs.Option.{option_map};
ghost use Rattle.enet_sender.specs.declared.sent.Sent.{Sent};
ghost use Rattle.enet_sender.specs.Foretold.{IsLateIn, NonePasses, SomePasses};
ghost use Rattle.enet_sender.specs.Late.{IsLate};
ghost use Rattle.enet_sender.specs.Outstanding.{outstanding_at};
ghost use Rattle.enet_sender.specs.Pending.{vacant, most_unused};
ghost use Rattle.enet_sender.specs.Private.Invariant.{IsShort};
ghost use Rattle.enet_sender.specs.Private.Pending.{queued};
ghost use Rattle.enet_sender.specs.Sender.{again, begun, ends, is_late, marked};

use crate::lateness::{
    BEGINNING, advance, any_ends, any_late, first_late, mark_all, mark_under, moment_of,
};
use crate::{Late, Outstanding, Sent};
use enet_deadlines::{Deadlines, moment_at};
use enet_fragment::DataCommand;
use enet_rtt::{Patience, Tick, Transmission};
use slab::Slab;
use std::alloc::Global;
use std::marker::Model;

/// For so many commands room is made at least.
const FEWEST: usize = 4;

/// For no more than so many commands room is kept where there are none.
pub(crate) const MOST_UNUSED: usize = 64;

/// The commands of a peer, each under a key, and of each that is sent and not due to go again the moment at which it is late. Contracts
/// see the commands alone, with room for as many as have a place for their moment. Their bytes are counted.
#[derive(Drop)]
pub(crate) struct TimedSlab {
    slab: Slab<Sent>,
    /// By key, when a command is late.
    deadlines: Deadlines,
    /// The time that was last told, on a clock that does not wrap.
    clock: u64,
    /// The bytes of all their bodies.
    bytes: u64,
    alloc: Global,
}

impl Model for TimedSlab {
    ghost use Rattle.slab.specs.Slab.{Slab};
    ghost use Rattle.enet_sender.specs.declared.sent.Sent.{Sent};
    ghost use Rattle.enet_sender.specs.Foretold.{KeepsTime, timed};
    ghost use Rattle.enet_sender.specs.Private.Outstanding.{KeepsBytes};

    ghost Value = { Slab Sent };

    ghost view = { λ t. timed t.slab t.deadlines };

    ghost invariant = { λ t. KeepsTime t.slab t.deadlines t.clock × KeepsBytes t.slab t.bytes };
}

/// For how many commands room is made where so many need it, there is room for `room`, and `places` have places for their moments: for
/// twice as many as before at least, but for no more than have places where all that need it do.
fn room_for(needed: usize, room: usize, places: usize) -> usize
    ensures enough { needed ≤ result }
    ensures placed { needed ≤ places → result ≤ places }
{
    let wished = needed.max(room.saturating_mul(2)).max(FEWEST);
    if needed <= places {
        wished.min(places)
    } else {
        wished
    }
}

/// Makes places for so many moments, where there are fewer; whether there are. Where memory is refused all stays as it was.
fn make_places(alloc: Global, deadlines: &mut Deadlines, count: usize) -> bool
    requires { length deadlines.old ≤ vacant }
    ensures enough { IsTrue result → count ≤ length deadlines.new }
    ensures few { length deadlines.new ≤ vacant }
    ensures same { count ≤ length deadlines.old → deadlines.new ≡ deadlines.old }
    ensures grown { (more : ℕ) × (deadlines.new ≡ deadlines.old ++ replicate more None) }
{
    if count <= deadlines.len() {
        return true;
    }
    let Ok(places) = u32::try_from(count) else {
        return false;
    };
    deadlines.grow(alloc, places).is_ok()
}

impl TimedSlab {
    /// No commands. It takes no memory.
    pub(crate) fn new(alloc: Global) -> TimedSlab
        ensures { result.slots ≡ [] }
    {
        TimedSlab {
            slab: Slab::new(alloc),
            deadlines: Deadlines::none(alloc),
            clock: BEGINNING,
            bytes: 0,
            alloc,
        }
    }

    /// Makes room for so many commands more, and for their moments; whether there is. No command changes.
    #[inline(always)]
    pub(crate) fn reserve(&mut self, more: usize) -> bool
        ensures same { self.new.slots ≡ self.old.slots }
        ensures room { IsTrue result → HasRoomFor self.new more }
        ensures keys { IsTrue result → self.new.capacity ≤ vacant }
    {
        let room = self.slab.capacity();
        if more <= room - self.slab.len() && room <= self.deadlines.len() {
            return true;
        }
        self.grow(more)
    }

    /// The same where there is too little. Places come first, so that there is never more room than places: each of the two takes memory
    /// only where its own doesn't suffice, also once the other was refused.
    fn grow(&mut self, more: usize) -> bool
        ensures same { self.new.slots ≡ self.old.slots }
        ensures room { IsTrue result → HasRoomFor self.new more }
        ensures keys { IsTrue result → self.new.capacity ≤ vacant }
    {
        let count = self.slab.len();
        let needed = count.saturating_add(more);
        let room = room_for(needed, self.slab.capacity(), self.deadlines.len());
        if !make_places(self.alloc, &mut self.deadlines, room)
            || self.slab.reserve_exact(room - count).is_err()
        {
            return false;
        }
        make_places(self.alloc, &mut self.deadlines, self.slab.capacity())
    }

    /// Keeps a command that is queued under a key of its own.
    pub(crate) fn insert(&mut self, command: DataCommand) -> u32
        requires room { HasRoomFor self.old 1 }
        requires short { IsShort command }
        ensures low { result < vacant }
        ensures none { get self.old result ≡ None }
        ensures updates { Updates self.old self.new result (Some (queued command)) }
        ensures len { slab_len self.new ≡ slab_len self.old + 1 }
        ensures capacity { self.new.capacity ≡ self.old.capacity }
    {
        let mut transmission = Transmission::begin(0, 0);
        transmission.due = true;
        self.bytes += command.body.len() as u64;
        self.slab.insert_reserved(Sent {
            command,
            transmission,
        }) as u32
    }

    /// The command under a key.
    pub(crate) fn get(&self, key: u32) -> Option<&Sent>
        ensures { option_copied result ≡ get self.now key }
    {
        self.slab.get(key as usize)
    }

    /// How many commands there are, and the bytes of their bodies.
    #[inline(always)]
    pub(crate) fn outstanding(&self) -> Outstanding
        ensures value { result ≡ outstanding_at self.now }
        ensures low { (key : ℕ) (p : Sent) → get self.now key ≡ Some p → key < vacant }
    {
        Outstanding {
            commands: self.slab.len() as u64,
            bytes: self.bytes,
        }
    }

    /// Gives most of the room back, where there is no command.
    #[inline(always)]
    pub(crate) fn give_unused_back(&mut self)
        ensures same { SameValues self.old self.new }
        ensures room { slab_len self.new ≡ 0 → self.new.capacity ≤ most_unused }
    {
        if self.slab.is_empty() && self.slab.capacity() > MOST_UNUSED {
            self.give_back();
        }
    }

    /// Takes the command under a key out.
    #[inline(always)]
    pub(crate) fn take(&mut self, key: u32) -> Option<Sent>
        ensures value { result ≡ get self.old key }
        ensures updates { Updates self.old self.new key None }
        ensures absent { IfNone result (self.new ≡ self.old) }
    {
        let sent = self.slab.try_remove(key as usize)?;
        self.bytes -= sent.command.body.len() as u64;
        if !sent.transmission.due {
            self.deadlines.clear(key as usize);
        }
        Some(sent)
    }

    /// Gives its room back; there must be no command.
    #[inline(never)]
    fn give_back(&mut self)
        requires { slab_len self.old ≡ 0 }
        ensures same { SameValues self.old self.new }
        ensures room { self.new.capacity ≡ 0 }
    {
        self.slab = Slab::new(self.alloc);
        self.deadlines = Deadlines::none(self.alloc);
        self.bytes = 0;
    }

    /// The command under a key goes for the first time.
    pub(crate) fn begin(&mut self, key: u32, now: u32, timeout: u32)
        ensures { (p : Sent) → get self.old key ≡ Some p → Updates self.old self.new key (Some (begun now timeout p.command)) }
    {
        self.clock = advance(self.clock, &self.slab, &mut self.deadlines, now);
        if let Some(sent) = self.slab.get_mut(key as usize) {
            sent.transmission = Transmission::begin(now, timeout);
            self.deadlines
                .set(key as usize, self.clock + u64::from(timeout));
        }
    }

    /// The command under a key goes once more.
    pub(crate) fn send_again(&mut self, key: u32, now: u32)
        ensures { (p : Sent) → get self.old key ≡ Some p → Updates self.old self.new key (Some (again now p)) }
    {
        self.clock = advance(self.clock, &self.slab, &mut self.deadlines, now);
        if let Some(sent) = self.slab.get_mut(key as usize) {
            sent.transmission.send_again(now);
            let moment = moment_of(sent.transmission, self.clock, now);
            self.deadlines.set(key as usize, moment);
        }
    }

    /// Marks the command under a key as due to go again, where it is late.
    pub(crate) fn mark(&mut self, key: u32, tick: Tick)
        ensures { Updates self.old self.new key (option_map (marked tick) (get self.old key)) }
    {
        if mark_under(&mut self.slab, key as usize, tick) {
            self.deadlines.clear(key as usize);
        }
    }

    /// Marks all that is late as due to go again, and tells what it is together.
    pub(crate) fn mark_all(&mut self, tick: Tick) -> Late
        ensures marked { (key : ℕ) → get self.new key ≡ option_map (marked tick) (get self.old key) }
        ensures late { IsLate tick self.old.slots result }
        ensures low { (key : ℕ) (p : Sent) → get self.old key ≡ Some p → key < vacant }
    {
        self.clock = advance(self.clock, &self.slab, &mut self.deadlines, tick.now);
        mark_all(&mut self.slab, &mut self.deadlines, self.clock, tick)
    }

    /// Whether a command is late at the time `now`.
    pub(crate) fn any_late(&mut self, now: u32) -> bool
        ensures some { IsTrue result → SomePasses (is_late now) (get self.old) }
        ensures none { result ≡ false → NonePasses (is_late now) (get self.old) }
        ensures same { self.new ≡ self.old }
    {
        self.clock = advance(self.clock, &self.slab, &mut self.deadlines, now);
        any_late(&self.slab, &mut self.deadlines, self.clock, now)
    }

    /// Whether the peer, heard last at `heard`, has timed out over a command.
    pub(crate) fn any_ends(&self, now: u32, patience: &Patience, heard: u32) -> bool
        ensures some { IsTrue result → SomePasses (ends now patience.now heard) (get self.now) }
        ensures none { result ≡ false → NonePasses (ends now patience.now heard) (get self.now) }
    {
        let clock = moment_at(self.clock, now);
        any_ends(&self.slab, &self.deadlines, clock, now, patience, heard)
    }

    /// In how many milliseconds after the time `now` a command is late first, if that can be read off.
    pub(crate) fn first_late(&self, now: u32) -> Option<u32>
        ensures { IfSome result (IsLateIn (get self.now) now) }
    {
        let clock = moment_at(self.clock, now);
        first_late(&self.slab, &self.deadlines, clock, now)
    }
}
