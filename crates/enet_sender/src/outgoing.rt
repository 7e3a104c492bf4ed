//! One channel's sender over the commands of its peer.

ghost use Rattle.std.specs.Prelude.{◌≡◌, ℕ, ◌+◌, ◌<◌, ◌≤◌, ◌∷◌, ◌++◌, [], if◌then◌else◌, IsTrue, IsOk, IfOk, OnOk, OnErr, IfErr, IsErrAnd, ◌⊎◌, ◌↔◌, ◌&&◌, not, List, Option, Some, None, IfSome, IfNone, length, map, take, drop, slice_get, true, false, All};
ghost use Rattle.std.specs.VecDeque.{deque_len, deque_capacity};
ghost use Rattle.slab.specs.Slab.{get, slab_len, SameValues, HasRoomFor};
ghost use Rattle.enet_rtt.specs.Clock.{HappensIn};
ghost use Rattle.enet_seq.specs.Numbering.{wire};
ghost use Rattle.enet_seq.specs.Windows.{after as number_after};
ghost use Rattle.enet_fragment.specs.declared.data.DataCommand.{DataCommand};
ghost use Rattle.enet_sender.specs.declared.pending.Pending.{Pending};
ghost use Rattle.enet_sender.specs.declared.sent.Sent.{Sent};
ghost use Rattle.enet_sender.specs.Sender.{acknowledged, awaits_room, begins_reliable, due_lacks, has_room, head_lacks, may_begin, wants_room, with_marked, lateness, after_lateness, ends, is_late, cleared, after_match, next, next_queued, next_resent, first_sent, may_go, piece_of_body, is_more, skipped, told_of, with_skipped, left};
ghost use Rattle.enet_sender.specs.Due.{Did, new_end, with_submitted};
ghost use Rattle.enet_sender.specs.Waiting.{Waits};
ghost use Rattle.enet_fragment.specs.Cutting.{piece_length, piece_count};
ghost use Rattle.enet_sender.specs.CommandChoice.{fragment_limit};
ghost use Rattle.enet_sender.specs.Private.Invariant.{IsShort};
ghost use Rattle.enet_sender.specs.Counting.{added, count_sent_again};
ghost use Rattle.enet_sender.specs.Course.{IsCourse};
ghost use Rattle.std.specs.List.{range_with_len, list_any};
ghost use Rattle.enet_sender.specs.Private.Queues.{Queues};
ghost use Rattle.enet_sender.specs.Pending.{vacant, named};
ghost use Rattle.enet_sender.specs.Rings.{Keeps, KeepsIn, PassesIn, HasRoom, no_rings, rings_of, sender_in, end_in, commands_at, NoneDue};
ghost use Rattle.enet_sender.specs.Private.Rings.{IsFirstDue};

use crate::Sent;
use crate::course::{Course, cut};
use crate::pending::Pending;
use crate::ring::{
    any_ends, any_late, first, first_due, give_back, mark_all, next_late, place_of, take_all,
    vacate,
};
use crate::tally::count_sent_again;
use crate::writing::{counted, due_kind, is_more, put};
use bytes::Bytes;
use enet_codec::Refusal;
use enet_fragment::{DataCommand, piece_length};
use enet_rtt::{Expiry, Patience, Tick};
use std::alloc::Global;
use std::collections::VecDeque;
use std::mem;

/// How many numbers may be unacknowledged at a time (our profile).
const SPAN: usize = 8192;

/// How a written command is carried.
#[derive(Clone, Copy)]
pub enum Kind {
    /// A reliable command.
    Reliable,
    /// The first command of an unreliable packet.
    Begins,
    /// A further command of an unreliable packet.
    More,
}

/// What a sender is told when it is asked what is due.
#[derive(Clone, Copy)]
pub struct Occasion {
    /// The clock, in milliseconds.
    pub now: u32,
    /// How long a command that is sent for the first time waits for its acknowledgement, in milliseconds.
    pub timeout: u32,
    /// The payload bytes of the peer's data commands in transit: sent, not acknowledged and not due to go again.
    pub transit: u32,
    /// How many of them there may be.
    pub most: u32,
    /// The prices of the same commands: the payload of each and 28 bytes.
    pub prices: u32,
    /// How much they may be together.
    pub dearest: u32,
    /// Whether the room is kept for another channel.
    pub barred: bool,
}

/// What `next_due` did.
#[derive(Clone, Copy)]
pub enum Due {
    /// A command was written, which ends before `past` and is carried as `kind` says; `added` payload bytes are new in
    /// transit, and so is its `price`, 0 of an unreliable one. `again` says whether it went before.
    Sent {
        past: usize,
        added: u32,
        price: u32,
        kind: Kind,
        again: bool,
    },
    /// A command may go, and does not fit.
    NoRoom,
    /// No command may go, and the room is to be kept for this channel: what is next finds no room, and it is due to go again, or nothing of
    /// the channel is sent and unacknowledged.
    Full,
    /// No command may go.
    Nothing,
}

/// What is told of a command that an acknowledgement matches.
#[derive(Clone, Copy)]
pub struct Acknowledged {
    /// The bytes of its payload.
    pub bytes: u32,
    /// Its price: these and 28 bytes.
    pub price: u32,
    /// Whether it was due to go again, and so not in transit.
    pub due: bool,
    /// Whether the time that the acknowledgement repeats is that of its last send.
    pub last: bool,
}

/// What a sender still has.
#[derive(Clone, Copy)]
pub struct Left {
    /// Whether a packet is queued.
    pub packets: bool,
    /// Whether a reliable command is queued or unacknowledged.
    pub reliable: bool,
}

/// One channel's sender: the keys of its commands, which stand in its peer's `Pending`. Each call is handed that one, and
/// leaves what other channels have there.
#[derive(Drop)]
pub struct Outgoing {
    channel: u8,
    /// The last reliable number given, and the last unreliable number given since.
    number: u16,
    unreliable: u16,
    /// What is queued, in the order of submission.
    queued: VecDeque<u32>,
    /// What is sent: a place for each number up to `passed`, vacant once it is acknowledged. The first place is not vacant.
    sent: VecDeque<u32>,
    /// The last reliable number that went for the first time.
    passed: u16,
    /// How many reliable commands are queued.
    reliable_queued: usize,
    /// No place of `sent` before this one is due to go again.
    due_from: usize,
}

impl Outgoing {
    /// Takes out the one sent command of this number, where it was sent at this time, in milliseconds modulo 65,536, and tells of it. None,
    /// with nothing changed, where no sent command has the number, or that one wasn't sent at the time (our profile).
    pub fn acknowledge(
        &mut self,
        pending: &mut Pending,
        number: u16,
        time: u16,
    ) -> Option<Acknowledged>
        requires { KeepsIn pending.old self.old }
        ensures told { result ≡ acknowledged (sender_in pending.old self.old) number time }
        ensures removed { end_in pending.new self.new ≡ record (end_in pending.old self.old) { sender = after_match (sender_in pending.old self.old) number result } }
        ensures kept { KeepsIn pending.new self.new }
        ensures passes { PassesIn pending.old self.old pending.new self.new }
        ensures room { HasRoom self.old → HasRoom self.new }
    {
        let told = self.take_acknowledged(pending, number, time)?;
        let _ = self.next_resend(pending);
        self.give_unused_back(pending);
        Some(told)
    }

    /// The same with all room.
    #[inline(always)]
    fn take_acknowledged(
        &mut self,
        pending: &mut Pending,
        number: u16,
        time: u16,
    ) -> Option<Acknowledged>
        requires { KeepsIn pending.old self.old }
        ensures told { result ≡ acknowledged (sender_in pending.old self.old) number time }
        ensures removed { end_in pending.new self.new ≡ record (end_in pending.old self.old) { sender = after_match (sender_in pending.old self.old) number result } }
        ensures kept { KeepsIn pending.new self.new }
        ensures passes { PassesIn pending.old self.old pending.new self.new }
        ensures room { HasRoom self.old → HasRoom self.new }
    {
        let place = place_of(&self.sent, self.passed, number)?;
        let key = self.sent[place];
        if !pending.went_at(key, time) {
            return None;
        }
        let sent = pending.take(key)?;
        vacate(&mut self.sent, &mut self.due_from, place);
        Some(told_of(&sent, time))
    }

    /// Gives most room of the rings back, where nothing is in them, and most of the commands' where there is none.
    #[inline(always)]
    fn give_unused_back(&mut self, pending: &mut Pending)
        ensures end { end_in pending.new self.new ≡ end_in pending.old self.old }
        ensures commands { SameValues pending.old.slab pending.new.slab }
        ensures rings { rings_of self.new ≡ rings_of self.old }
        ensures channel { self.new.channel ≡ self.old.channel }
        ensures room { HasRoom self.old → HasRoom self.new }
    {
        if self.sent.is_empty() {
            give_back(&mut self.queued, &mut self.sent);
            pending.give_unused_back();
        }
    }

    /// Writes the next command at `at`, where one may go, and keeps it as sent if it is reliable: the first sent one that is
    /// due to go again, else the head of the queue where it may go.
    ///
    /// A reliable command goes, for the first time or again, where the bytes in transit of the peer and its own are together at most
    /// `most`, and the prices of what is in transit and its own at most `dearest`; for the first time only where its number is less than
    /// 8,192 past the oldest unacknowledged one, too, and the room is kept for no other channel (our profile). Where it may not, nothing
    /// else of the channel goes. A resend keeps its number. Where no command may go, the answer is `Full` or `Nothing`; where one may and
    /// does not fit, `NoRoom`. None of these changes anything, and the buffer stays. It takes no memory.
    pub fn next_due(
        &mut self,
        pending: &mut Pending,
        occasion: Occasion,
        buf: &mut [u8],
        at: usize,
    ) -> Due
        requires kept { KeepsIn pending.old self.old }
        requires room { HasRoom self.old }
        ensures did { Did (next wire occasion
            (sender_in pending.old self.old)) (wants_room occasion (sender_in pending.old self.old)) result (end_in pending.old self.old) (end_in pending.new self.new) (record { old = buf.old; at = at; new = buf.new }) }
        ensures kept { KeepsIn pending.new self.new }
        ensures passes { PassesIn pending.old self.old pending.new self.new }
        ensures room { HasRoom self.new }
    {
        match self.next_resend(pending) {
            Some(place) => self.resend(pending, place, occasion, buf, at),
            None => self.send_first(pending, occasion, buf, at),
        }
    }

    /// Whether the channel surely has to wait: what is next there may not go yet, and no room is to be kept for it. Where it answers true,
    /// `next_due` answers `Nothing`; it may also answer false where nothing may go.
    pub fn has_to_wait(&self, pending: &Pending, occasion: Occasion) -> bool
        requires { KeepsIn pending.now self.now }
        ensures { IsTrue result → Waits occasion (sender_in pending.now self.now) }
    {
        if self.due_from < self.sent.len() {
            self.resend_has_to_wait(pending, occasion)
        } else {
            self.head_has_to_wait(pending, occasion)
        }
    }

    /// The same where something that is sent may be due to go again. It looks at the first such place alone.
    fn resend_has_to_wait(&self, pending: &Pending, occasion: Occasion) -> bool
        requires kept { KeepsIn pending.now self.now }
        requires inside { self.now.due_from < length self.now.sent.items }
        ensures { IsTrue result → Waits occasion (sender_in pending.now self.now) }
    {
        if !occasion.barred {
            return false;
        }
        let key = self.sent[self.due_from];
        let Some(sent) = pending.get(key) else {
            return false;
        };
        if !sent.transmission.due {
            return false;
        }
        !has_room(&sent.command, occasion)
    }

    /// The same where nothing that is sent is due to go again.
    fn head_has_to_wait(&self, pending: &Pending, occasion: Occasion) -> bool
        requires kept { KeepsIn pending.now self.now }
        requires none { NoneDue (get pending.now.slab) self.now.sent.items 0 (length self.now.sent.items) }
        ensures { IsTrue result → Waits occasion (sender_in pending.now self.now) }
    {
        if self.sent.is_empty() && !occasion.barred {
            return false;
        }
        let Some(key) = first(&self.queued) else {
            return false;
        };
        let Some(head) = pending.get(key) else {
            return false;
        };
        !self.may_go(&head.command, occasion)
    }

    /// Whether room may be kept for the channel: something that is sent is due to go again; or nothing is sent, and the queue begins with a
    /// reliable command.
    pub fn awaits_room(&self, pending: &Pending) -> bool
        requires { KeepsIn pending.now self.now }
        ensures { result ≡ awaits_room (sender_in pending.now self.now) }
    {
        if self.sent.is_empty() {
            return self.begins_reliable(pending);
        }
        self.find_due(pending).is_some()
    }

    /// Whether the queue begins with a reliable command.
    fn begins_reliable(&self, pending: &Pending) -> bool
        requires { KeepsIn pending.now self.now }
        ensures { result ≡ begins_reliable (sender_in pending.now self.now).queued }
    {
        let Some(key) = first(&self.queued) else {
            return false;
        };
        let Some(head) = pending.get(key) else {
            unreachable!()
        };
        head.command.reliable
    }

    /// The place of the first sent command that is due to go again.
    fn find_due(&self, pending: &Pending) -> Option<usize>
        requires { KeepsIn pending.now self.now }
        ensures some { IfSome result (λ place. IsFirstDue (get pending.now.slab) self.now.sent.items place) }
        ensures none { IfNone result (NoneDue (get pending.now.slab) self.now.sent.items 0 (length self.now.sent.items)) }
    {
        first_due(&self.sent, self.due_from, pending)
    }

    /// The same, with the places before it noted as not due.
    fn next_resend(&mut self, pending: &Pending) -> Option<usize>
        requires { KeepsIn pending.now self.old }
        ensures some { IfSome result (λ place. IsFirstDue (get pending.now.slab) self.old.sent.items place) }
        ensures none { IfNone result (NoneDue (get pending.now.slab) self.old.sent.items 0 (length self.old.sent.items)) }
        ensures rings { self.new ≡ record self.old { due_from = self.new.due_from } }
        ensures kept { KeepsIn pending.now self.new }
    {
        match self.find_due(pending) {
            Some(place) => {
                self.due_from = place;
                Some(place)
            }
            None => {
                self.due_from = self.sent.len();
                None
            }
        }
    }

    /// Whether something that is sent may be due to go again.
    pub fn may_be_due(&self, _pending: &Pending) -> bool
        requires { KeepsIn _pending.now self.now }
        ensures { result ≡ false → All (λ (p : Sent). p.transmission.due ≡ false) (sender_in _pending.now self.now).sent }
    {
        self.due_from < self.sent.len()
    }

    /// Writes the sent command of a place once more, where there is room for it and it fits.
    fn resend(
        &mut self,
        pending: &mut Pending,
        place: usize,
        occasion: Occasion,
        buf: &mut [u8],
        at: usize,
    ) -> Due
        requires kept { KeepsIn pending.old self.old }
        requires first { IsFirstDue (get pending.old.slab) self.old.sent.items place }
        ensures did { Did (next_resent occasion (sender_in pending.old self.old) (length (named (get pending.old.slab) (take place self.old.sent.items)))
            (slice_get (named (get pending.old.slab) self.old.sent.items) (length (named (get pending.old.slab) (take place self.old.sent.items)))))
            (due_lacks occasion (slice_get (named (get pending.old.slab) self.old.sent.items) (length (named (get pending.old.slab) (take place self.old.sent.items))))) result
            (end_in pending.old self.old) (end_in pending.new self.new) (record { old = buf.old; at = at; new = buf.new }) }
        ensures rings { self.new ≡ record self.old { due_from = self.new.due_from } }
        ensures kept { KeepsIn pending.new self.new }
        ensures passes { PassesIn pending.old self.old pending.new self.new }
    {
        let key = self.sent[place];
        let Some(sent) = pending.get(key) else {
            unreachable!()
        };
        if !has_room(&sent.command, occasion) {
            return stopped(true, occasion);
        }
        let kind = due_kind(&sent.command);
        let (added, price) = counted(&sent.command);
        let Some(past) = put(buf, at, self.channel, &sent.command) else {
            return Due::NoRoom;
        };
        pending.send_again(key, occasion.now);
        self.due_from = place + 1;
        Due::Sent {
            past,
            added,
            price,
            kind,
            again: true,
        }
    }

    /// Whether the head of the queue may go for the first time. Its number is the one after `passed` if it is reliable, so
    /// the span is kept where the places of what is sent are fewer.
    fn may_go(&self, command: &DataCommand, occasion: Occasion) -> bool
        requires short { IsShort command.now }
        requires few { length self.now.sent.items ≤ 8192 }
        ensures reliable { result ≡ true → command.now.reliable ≡ true → length self.now.sent.items < 8192 }
        ensures value { (at : ℕ → Option Sent) → Keeps at (rings_of self.now) → (command.now.reliable ≡ true → command.now.number ≡ number_after self.now.passed 1)
            → result ≡ may_go wire (named at self.now.sent.items) occasion command.now }
    {
        !command.reliable || (self.sent.len() < SPAN && may_begin(command, occasion))
    }

    /// Writes the head of the queue, where it may go and fits; nothing that is sent may be due to go again.
    fn send_first(
        &mut self,
        pending: &mut Pending,
        occasion: Occasion,
        buf: &mut [u8],
        at: usize,
    ) -> Due
        requires kept { KeepsIn pending.old self.old }
        requires room { HasRoom self.old }
        requires none { NoneDue (get pending.old.slab) self.old.sent.items 0 (length self.old.sent.items) }
        ensures did { Did (next_queued wire occasion
            (sender_in pending.old self.old) (sender_in pending.old self.old).queued)
            (head_lacks occasion (sender_in pending.old self.old).sent (sender_in pending.old self.old).queued) result
            (end_in pending.old self.old) (end_in pending.new self.new) (record { old = buf.old; at = at; new = buf.new }) }
        ensures kept { KeepsIn pending.new self.new }
        ensures passes { PassesIn pending.old self.old pending.new self.new }
        ensures room { HasRoom self.new }
    {
        let Some(key) = first(&self.queued) else {
            self.give_unused_back(pending);
            return Due::Nothing;
        };
        let Some(head) = pending.get(key) else {
            unreachable!()
        };
        let command = &head.command;
        if !self.may_go(command, occasion) {
            return stopped(self.sent.is_empty(), occasion);
        }
        let kind = due_kind(command);
        let (added, price) = counted(command);
        let (reliable, number) = (command.reliable, command.number);
        let Some(past) = put(buf, at, self.channel, command) else {
            return Due::NoRoom;
        };
        if reliable {
            self.begin(pending, key, number, occasion.now, occasion.timeout);
        } else {
            self.leave(pending, key);
        }
        Due::Sent {
            past,
            added,
            price,
            kind,
            again: false,
        }
    }

    /// Drops the rest of the unreliable packet whose first command was written last: its further commands at the head of the
    /// queue. No other command goes; the numbers stay used.
    pub fn skip(&mut self, pending: &mut Pending)
        requires { KeepsIn pending.old self.old }
        ensures skipped { end_in pending.new self.new ≡ record (end_in pending.old self.old) { sender = with_skipped (sender_in pending.old self.old) } }
        ensures kept { KeepsIn pending.new self.new }
        ensures passes { PassesIn pending.old self.old pending.new self.new }
        ensures room { HasRoom self.old → HasRoom self.new }
    {
        'further: while let Some(key) = self.more_at_head(pending) {
            self.leave(pending, key);
        }
    }

    /// The key of the head of the queue, if that is a further command of an unreliable packet.
    fn more_at_head(&self, pending: &Pending) -> Option<u32>
        requires { KeepsIn pending.now self.now }
        ensures head { IfSome result (λ key. slice_get self.now.queued.items 0 ≡ Some key) }
        ensures more { IfSome result (λ key. IfSome (get pending.now.slab key) (λ p. is_more p.command ≡ true)) }
        ensures none { IfNone result (skipped (commands_at (get pending.now.slab) self.now.queued.items) ≡ commands_at (get pending.now.slab) self.now.queued.items) }
    {
        let key = first(&self.queued)?;
        let Some(head) = pending.get(key) else {
            unreachable!()
        };
        if is_more(&head.command) {
            Some(key)
        } else {
            None
        }
    }

    /// What the moment `tick` brings: `End` where a sent command has waited out its timeout and its peer, heard last at
    /// `tick.heard`, has timed out over it by `patience`, which changes nothing; else `Resend` where a sent command has waited out
    /// its timeout: each such one is then due to go again, and has its next timeout (`Transmission::mark`); else `No` (our profile).
    pub fn late(&mut self, pending: &mut Pending, tick: Tick, patience: &Patience) -> Expiry
        requires { KeepsIn pending.old self.old }
        ensures found { result ≡ lateness tick.now patience.now tick.heard (sender_in pending.old self.old) }
        ensures after { end_in pending.new self.new ≡ record (end_in pending.old self.old) { sender = after_lateness result tick (sender_in pending.old self.old) } }
        ensures kept { KeepsIn pending.new self.new }
        ensures passes { PassesIn pending.old self.old pending.new self.new }
        ensures room { HasRoom self.old → HasRoom self.new }
    {
        let expiry = self.lateness(pending, tick.now, patience, tick.heard);
        if expiry == Expiry::Resend {
            self.mark(pending, tick);
        }
        expiry
    }

    /// What a moment brings. A command over which the peer has timed out is late too.
    fn lateness(&self, pending: &Pending, now: u32, patience: &Patience, heard: u32) -> Expiry
        ensures { result ≡ lateness now patience.now heard (sender_in pending.now self.now) }
    {
        if !self.is_late(pending, now) {
            return Expiry::No;
        }
        if self.ends(pending, now, patience, heard) {
            Expiry::End
        } else {
            Expiry::Resend
        }
    }

    /// Whether at the moment `now` a sent command has waited out its timeout, and its peer, heard last at `heard`, has timed
    /// out over it by `patience` (our profile).
    pub fn ends(&self, pending: &Pending, now: u32, patience: &Patience, heard: u32) -> bool
        ensures { result ≡ list_any (ends now patience.now heard) (sender_in pending.now self.now).sent }
    {
        any_ends(&self.sent, pending, now, patience, heard)
    }

    /// Whether at the moment `now` a sent command has waited out its timeout, and is not due to go again already.
    pub fn is_late(&self, pending: &Pending, now: u32) -> bool
        ensures { result ≡ list_any (is_late now) (sender_in pending.now self.now).sent }
    {
        any_late(&self.sent, pending, now)
    }

    /// In how many milliseconds after the moment `now` a sent command is late first: 0 where one is, and 4,294,967,295 where
    /// none waits for its timeout.
    pub fn next_late(&self, pending: &Pending, now: u32) -> u32
        ensures { HappensIn (λ (later : ℕ). list_any (is_late later) (sender_in pending.now self.now).sent) now result }
    {
        next_late(&self.sent, pending, now)
    }

    /// So many, and those of the channel's commands that are sent, not acknowledged, and were sent more than once; it stops at 2^64 - 1. It
    /// looks at all that is sent.
    pub fn count_sent_again(&self, pending: &Pending, so_far: u64) -> u64
        ensures { result ≡ added so_far (count_sent_again (sender_in pending.now self.now)) }
    {
        count_sent_again(&self.sent, pending, so_far)
    }

    /// Each sent command that has waited out its timeout at the moment `tick` is due to go again, and has its next timeout
    /// (`Transmission::mark`).
    pub fn mark(&mut self, pending: &mut Pending, tick: Tick)
        requires { KeepsIn pending.old self.old }
        ensures marked { end_in pending.new self.new ≡ record (end_in pending.old self.old) { sender = with_marked tick (sender_in pending.old self.old) } }
        ensures kept { KeepsIn pending.new self.new }
        ensures passes { PassesIn pending.old self.old pending.new self.new }
        ensures room { HasRoom self.old → HasRoom self.new }
    {
        mark_all(&self.sent, pending, tick);
        self.due_from = 0;
    }

    /// What is sent may be due to go again at any place from now on, after `Pending::mark_all`.
    pub fn seek_anew(&mut self)
        ensures { self.new ≡ record self.old { due_from = 0 } }
    {
        self.due_from = 0;
    }

    /// Drops all that is queued or sent. The numbers go on from where they stand.
    pub fn clear(&mut self, pending: &mut Pending)
        requires { KeepsIn pending.old self.old }
        ensures cleared { end_in pending.new self.new ≡ record (end_in pending.old self.old) { sender = cleared (sender_in pending.old self.old) } }
        ensures kept { KeepsIn pending.new self.new }
        ensures passes { PassesIn pending.old self.old pending.new self.new }
        ensures room { HasRoom self.new }
    {
        take_all(&self.queued, pending);
        take_all(&self.sent, pending);
        self.queued.clear();
        self.sent.clear();
        self.passed = self.number;
        self.reliable_queued = 0;
        self.due_from = 0;
    }

    /// Whether a packet is queued, and whether a reliable command is queued or unacknowledged.
    pub fn left(&self, _pending: &Pending) -> Left
        requires { KeepsIn _pending.now self.now }
        ensures { result ≡ left (sender_in _pending.now self.now) }
    {
        Left {
            packets: self.queued.len() > 0,
            reliable: self.reliable_queued > 0 || self.sent.len() > 0,
        }
    }

    /// The reliable head of the queue was written, and is sent.
    fn begin(&mut self, pending: &mut Pending, key: u32, number: u16, now: u32, timeout: u32)
        requires kept { KeepsIn pending.old self.old }
        requires room { HasRoom self.old }
        requires head { self.old.queued.items ≡ key ∷ drop 1 self.old.queued.items }
        requires reliable { IfSome (get pending.old.slab key) (λ p. (p.command.reliable ≡ true) × (p.command.number ≡ number)) }
        requires few { length self.old.sent.items < 8192 }
        requires none { NoneDue (get pending.old.slab) self.old.sent.items 0 (length self.old.sent.items) }
        ensures sends { (p : Sent) (rest : List DataCommand) → get pending.old.slab key ≡ Some p → commands_at (get pending.old.slab) self.old.queued.items ≡ p.command ∷ rest
            → end_in pending.new self.new ≡ record (end_in pending.old self.old) { sender = (first_sent now timeout (sender_in pending.old self.old) p.command rest).sender } }
        ensures kept { KeepsIn pending.new self.new }
        ensures passes { PassesIn pending.old self.old pending.new self.new }
        ensures room { HasRoom self.new }
    {
        let _ = self.queued.pop_front();
        pending.begin(key, now, timeout);
        self.sent.push_back_reserved(key);
        self.due_from = self.sent.len();
        self.passed = number;
        self.reliable_queued -= 1;
    }

    /// The unreliable head of the queue was written, and goes.
    fn leave(&mut self, pending: &mut Pending, key: u32)
        requires kept { KeepsIn pending.old self.old }
        requires head { self.old.queued.items ≡ key ∷ drop 1 self.old.queued.items }
        requires unreliable { IfSome (get pending.old.slab key) (λ p. p.command.reliable ≡ false) }
        ensures sends { (now timeout : ℕ) (p : Sent) (rest : List DataCommand) → get pending.old.slab key ≡ Some p → commands_at (get pending.old.slab) self.old.queued.items ≡ p.command ∷ rest
            → end_in pending.new self.new ≡ record (end_in pending.old self.old) { sender = (first_sent now timeout (sender_in pending.old self.old) p.command rest).sender } }
        ensures kept { KeepsIn pending.new self.new }
        ensures passes { PassesIn pending.old self.old pending.new self.new }
        ensures room { HasRoom self.old → HasRoom self.new }
        ensures less { deque_len self.new.queued < deque_len self.old.queued }
    {
        let _ = self.queued.pop_front();
        let _ = pending.take(key);
    }

    /// Queues a command, numbered; there must be room for it.
    #[inline(always)]
    fn queue(&mut self, pending: &mut Pending, command: DataCommand)
        requires kept { KeepsIn pending.old self.old }
        requires room { HasRoomFor pending.old.slab 1 }
        requires keys { pending.old.slab.capacity ≤ vacant }
        requires place { deque_len self.old.queued < deque_capacity self.old.queued }
        requires sent_place { deque_len self.old.sent + (deque_len self.old.queued + 1) ≤ deque_capacity self.old.sent }
        requires short { IsShort command }
        requires next { command.reliable ≡ true → command.number ≡ number_after self.old.number 1 }
        ensures queued { end_in pending.new self.new ≡ record (end_in pending.old self.old) {
          sender = record (sender_in pending.old self.old) {
            number = (if command.reliable then command.number else self.old.number);
            queued = commands_at (get pending.old.slab) self.old.queued.items ++ command ∷ [];
          };
        } }
        ensures kept { KeepsIn pending.new self.new }
        ensures passes { PassesIn pending.old self.old pending.new self.new }
        ensures room { HasRoom self.new }
        ensures slab_room { slab_len pending.new.slab ≡ slab_len pending.old.slab + 1 }
        ensures slab_capacity { pending.new.slab.capacity ≡ pending.old.slab.capacity }
        ensures places { deque_len self.new.queued ≡ deque_len self.old.queued + 1 }
        ensures capacity { deque_capacity self.new.queued ≡ deque_capacity self.old.queued }
        ensures sent { self.new.sent ≡ self.old.sent }
    {
        let (reliable, number) = (command.reliable, command.number);
        let key = pending.insert(command);
        self.queued.push_back_reserved(key);
        if reliable {
            self.number = number;
            self.reliable_queued += 1;
        }
    }

    /// Makes room for so many commands more, and for all that is queued then to be sent; whether there is.
    #[inline(always)]
    fn make_room(&mut self, pending: &mut Pending, more: usize) -> bool
        requires { more ≤ 16384 }
        ensures rings { rings_of self.new ≡ rings_of self.old }
        ensures channel { self.new.channel ≡ self.old.channel }
        ensures slots { pending.new.slab.slots ≡ pending.old.slab.slots }
        ensures room { HasRoom self.old → HasRoom self.new }
        ensures slab_room { IsTrue result → HasRoomFor pending.new.slab more }
        ensures keys { IsTrue result → pending.new.slab.capacity ≤ vacant }
        ensures place { IsTrue result → deque_len self.new.queued + more ≤ deque_capacity self.new.queued }
        ensures sent_place { IsTrue result → deque_len self.new.sent + (deque_len self.new.queued + more) ≤ deque_capacity self.new.sent }
    {
        if !pending.reserve(more) {
            return false;
        }
        let queued = self.queued.len() + more;
        if self.queued.capacity() < queued && self.queued.reserve(more).is_err() {
            return false;
        }
        queued <= self.sent.capacity() - self.sent.len() || self.sent.reserve(queued).is_ok()
    }

    /// A sender of `channel` to which nothing was submitted. It takes no memory, so it never answers E1.
    pub fn open(alloc: Global, channel: u8) -> Result<Outgoing, Refusal>
        ensures never { IsOk result }
        ensures end { IfOk result (λ o. (p : Pending) → end_in p o ≡ new_end channel) }
        ensures rings { IfOk result (λ o. rings_of o ≡ no_rings) }
        ensures room { IfOk result (λ o. HasRoom o) }
    {
        Ok(Outgoing::new(alloc, channel))
    }

    /// A sender to which nothing was submitted.
    pub(crate) fn new(alloc: Global, channel: u8) -> Outgoing
        ensures channel { result.channel ≡ channel }
        ensures rings { rings_of result ≡ no_rings }
        ensures room { HasRoom result }
    {
        Outgoing {
            channel,
            number: 0,
            unreliable: 0,
            queued: VecDeque::new(alloc),
            sent: VecDeque::new(alloc),
            passed: 0,
            reliable_queued: 0,
            due_from: 0,
        }
    }

    /// Queues the command of a packet of at most `mtu - 28` bytes.
    fn submit_short(
        &mut self,
        pending: &mut Pending,
        flags: u8,
        body: &mut Bytes,
        mtu: u32,
    ) -> Result<(), Refusal>
        requires low { 576 ≤ mtu }
        requires high { mtu ≤ 4096 }
        requires short { length body.old ≤ piece_length mtu }
        requires kept { KeepsIn pending.old self.old }
        requires room { HasRoom self.old }
        ensures queued { OnOk result (end_in pending.new self.new ≡ with_submitted mtu (end_in pending.old self.old) flags body.old) }
        ensures refused { OnErr result ((end_in pending.new self.new ≡ end_in pending.old self.old) × (body.new ≡ body.old)) }
        ensures taken { OnOk result (body.new ≡ []) }
        ensures too_large { IsErrAnd result (λ why. why ≡ Refusal.TooLarge) ↔ (fragment_limit < piece_count (length body.old) mtu) }
        ensures only { IfErr result (λ why. why ≡ Refusal.Memory) }
        ensures kept { KeepsIn pending.new self.new }
        ensures passes { PassesIn pending.old self.old pending.new self.new }
        ensures room { HasRoom self.new }
    {
        let course = Course::whole(flags, body, mtu, self.number, self.unreliable);
        if !self.make_room(pending, 1) {
            return Err(Refusal::Memory);
        }
        let body = mem::replace(body, Bytes::new());
        self.queue(pending, course.command(0, body));
        self.unreliable = course.unreliable_number();
        Ok(())
    }

    /// Queues the pieces of a long packet in their order; there must be room for them.
    fn queue_pieces(
        &mut self,
        pending: &mut Pending,
        course: Course,
        _body: &Bytes,
        mut pieces: VecDeque<Bytes>,
    )
        requires course { IsCourse course }
        requires kept { KeepsIn pending.old self.old }
        requires slab_room { HasRoomFor pending.old.slab course.pieces }
        requires keys { pending.old.slab.capacity ≤ vacant }
        requires place { deque_len self.old.queued + course.pieces ≤ deque_capacity self.old.queued }
        requires sent_place { deque_len self.old.sent + (deque_len self.old.queued + course.pieces) ≤ deque_capacity self.old.sent }
        requires number { course.number ≡ self.old.number }
        requires pieces { pieces.items ≡ map (piece_of_body (piece_length course.mtu) _body.now) (range_with_len 0 course.pieces) }
        ensures queues { Queues course _body.now course.pieces (record { outgoing = self.old; at = get pending.old.slab })
            (record { outgoing = self.new; at = get pending.new.slab }) }
        ensures room { HasRoom self.new }
    {
        for i in 0..course.pieces {
            let Some(piece) = pieces.pop_front() else {
                unreachable!()
            };
            self.queue(pending, course.command(i, piece));
        }
    }

    /// Queues the commands of a packet, numbered; `flags` are its flags (RELIABLE 1, UNRELIABLE_FRAGMENT 8; others are
    /// ignored, so a short packet that is to go unsequenced is not for this call), and `mtu` is the peer's, in bytes. A
    /// packet of more than `mtu - 28` bytes is cut into fragments. It goes reliable where it asks for it, where the
    /// unreliable numbers are used up, and where it is long and does not ask for unreliable fragments (ENet 1.3).
    ///
    /// The body is taken, and an empty one left. E5 exactly where it would be cut into more than 16,384 pieces (our profile), then
    /// E1 where memory is refused. After either nothing has changed, and the body is still there.
    pub fn submit(
        &mut self,
        pending: &mut Pending,
        flags: u8,
        body: &mut Bytes,
        mtu: u32,
    ) -> Result<(), Refusal>
        requires low { 576 ≤ mtu }
        requires high { mtu ≤ 4096 }
        requires kept { KeepsIn pending.old self.old }
        requires room { HasRoom self.old }
        ensures queued { OnOk result (end_in pending.new self.new ≡ with_submitted mtu (end_in pending.old self.old) flags body.old) }
        ensures too_large { IsErrAnd result (λ why. why ≡ Refusal.TooLarge) ↔ (fragment_limit < piece_count (length body.old) mtu) }
        ensures refused { OnErr result ((end_in pending.new self.new ≡ end_in pending.old self.old) × (body.new ≡ body.old)) }
        ensures taken { OnOk result (body.new ≡ []) }
        ensures only { IfErr result (λ why. (why ≡ Refusal.TooLarge) ⊎ (why ≡ Refusal.Memory)) }
        ensures kept { KeepsIn pending.new self.new }
        ensures passes { PassesIn pending.old self.old pending.new self.new }
        ensures room { HasRoom self.new }
    {
        if body.len() > piece_length(mtu) as usize {
            return self.submit_long(pending, flags, body, mtu);
        }
        self.submit_short(pending, flags, body, mtu)
    }

    /// Queues the commands of a packet that is cut into pieces.
    fn submit_long(
        &mut self,
        pending: &mut Pending,
        flags: u8,
        body: &mut Bytes,
        mtu: u32,
    ) -> Result<(), Refusal>
        requires low { 576 ≤ mtu }
        requires high { mtu ≤ 4096 }
        requires kept { KeepsIn pending.old self.old }
        requires room { HasRoom self.old }
        ensures queued { OnOk result (end_in pending.new self.new ≡ with_submitted mtu (end_in pending.old self.old) flags body.old) }
        ensures too_large { IsErrAnd result (λ why. why ≡ Refusal.TooLarge) ↔ (fragment_limit < piece_count (length body.old) mtu) }
        ensures refused { OnErr result ((end_in pending.new self.new ≡ end_in pending.old self.old) × (body.new ≡ body.old)) }
        ensures taken { OnOk result (body.new ≡ []) }
        ensures only { IfErr result (λ why. (why ≡ Refusal.TooLarge) ⊎ (why ≡ Refusal.Memory)) }
        ensures kept { KeepsIn pending.new self.new }
        ensures passes { PassesIn pending.old self.old pending.new self.new }
        ensures room { HasRoom self.new }
    {
        let Some(course) = Course::plan(flags, body, mtu, self.number, self.unreliable) else {
            return Err(Refusal::TooLarge);
        };
        if !self.make_room(pending, course.pieces as usize) {
            return Err(Refusal::Memory);
        }
        let Some(pieces) = cut_all(*self.queued.allocator(), body, course) else {
            return Err(Refusal::Memory);
        };
        self.queue_pieces(pending, course, body, pieces);
        self.unreliable = course.unreliable_number();
        *body = Bytes::new();
        Ok(())
    }
}

/// Whether there is room for a reliable command.
fn has_room(command: &DataCommand, occasion: Occasion) -> bool
    requires { IsShort command.now }
    ensures { result ≡ has_room occasion command.now }
{
    let (bytes, price) = counted(command);
    u64::from(occasion.transit) + u64::from(bytes) <= u64::from(occasion.most)
        && u64::from(occasion.prices) + u64::from(price) <= u64::from(occasion.dearest)
}

/// Whether a reliable command may go for the first time, the span apart.
fn may_begin(command: &DataCommand, occasion: Occasion) -> bool
    requires { IsShort command.now }
    ensures { result ≡ may_begin occasion command.now }
{
    !occasion.barred && has_room(command, occasion)
}

/// What is answered where a command may not go, by whether room may be kept for it.
fn stopped(may_be_kept: bool, occasion: Occasion) -> Due
    ensures { result ≡ (if may_be_kept && not occasion.barred then Due.Full else Due.Nothing) }
{
    if may_be_kept && !occasion.barred {
        Due::Full
    } else {
        Due::Nothing
    }
}

/// What is told of a command whose acknowledgement repeats this time.
fn told_of(sent: &Sent, time: u16) -> Acknowledged
    requires { IsShort sent.now.command }
    ensures { result ≡ told_of time sent.now }
{
    let (bytes, price) = counted(&sent.command);
    Acknowledged {
        bytes,
        price,
        due: sent.transmission.due,
        last: time == (sent.transmission.last % 65_536) as u16,
    }
}

/// All pieces of a body, each sharing its bytes; None for want of memory.
fn cut_all(alloc: Global, body: &Bytes, course: Course) -> Option<VecDeque<Bytes>>
    requires { IsCourse course }
    ensures { IfSome result (λ pieces. pieces.items ≡ map (piece_of_body (piece_length course.mtu) body.now) (range_with_len 0 course.pieces)) }
{
    let mut pieces = VecDeque::with_capacity(alloc, course.pieces as usize).ok()?;
    for i in 0..course.pieces {
        pieces.push_back_reserved(cut(body, i, course.mtu)?);
    }
    Some(pieces)
}
