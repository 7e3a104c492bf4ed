//! The sender of channel 0xFF.

ghost use Rattle.std.specs.Prelude.{◌≡◌, ℕ, ◌+◌, ◌<◌, ◌≤◌, nat_lt, false, IsTrue, IfOk, IfErr, IfNone, OnOk, OnErr, length, slice_get};
ghost use Rattle.std.specs.List.{list_any};
ghost use Rattle.enet_rtt.specs.Clock.{HappensIn};
ghost use Rattle.enet_sender.specs.Counting.{added};
ghost use Rattle.enet_senders.specs.Counting.{count_control};
ghost use Rattle.enet_senders.specs.Controlling.{after_match, acknowledged_control, after_lateness, cleared, Did, is_idle, is_at_rest, lateness, next, next_queued, next_resent, nothing_controlled, ends, has_waited, is_late, with_held_back, with_marked, with_queued};

use crate::queue::{
    any_ends, any_late, any_waited, count_sent_again, hold_back, is_in_span, lateness, make_room,
    mark, next_late, next_waited, position_of, position_of_due, put, send_again, send_head,
};
use crate::{Control, Numbered, SentControl};
use enet_codec::Refusal;
use enet_rtt::{Expiry, Patience, Tick};
use enet_seq::after;
use std::alloc::Global;
use std::collections::VecDeque;
use std::marker::Model;

/// What `next_due` did.
#[derive(Clone, Copy)]
pub enum Written {
    /// A command was written, which ends before `past`.
    Sent { past: usize },
    /// A command may go, and does not fit.
    NoRoom,
    /// No command may go.
    Nothing,
}

/// The sender of channel 0xFF: it numbers commands in the order in which they are queued, modulo 65536, and keeps each that
/// is acknowledged until it is. A channel without commands has room for one, so that one command can always be queued there
/// without memory.
#[derive(Drop)]
pub struct ControlChannel {
    number: u16,
    queued: VecDeque<Numbered>,
    sent: VecDeque<SentControl>,
}

impl Model for ControlChannel {
    ghost use Rattle.enet_senders.specs.Controlling.{Controlling};

    ghost Value = { Controlling };

    ghost use Rattle.std.specs.VecDeque.{deque_len, deque_capacity};
    ghost use Rattle.enet_senders.specs.Invariant.{KeepsRoom, room_of};

    ghost view = { λ c. record {
      commands = record { number = c.number; queued = c.queued.items; sent = c.sent.items };
      room = room_of (deque_len c.queued) (deque_capacity c.queued) (deque_len c.sent) (deque_capacity c.sent);
    } };

    ghost invariant = { λ c. KeepsRoom (deque_len c.queued) (deque_capacity c.queued) (deque_len c.sent) (deque_capacity c.sent) };
}

impl ControlChannel {
    /// A sender to which nothing was queued, where `number` is the last number given before: 0 for a new connection, whose
    /// first command then has number 1. It has room for one command; E1 where memory for that is refused.
    pub fn open(alloc: Global, number: u16) -> Result<ControlChannel, Refusal>
        ensures commands { IfOk result (λ c. c.commands ≡ nothing_controlled number) }
        ensures room { IfOk result (λ c. 1 ≤ c.room) }
        ensures memory { IfErr result (λ why. why ≡ Refusal.Memory) }
    {
        let Ok(queued) = VecDeque::with_capacity(alloc, 1) else {
            return Err(Refusal::Memory);
        };
        let Ok(sent) = VecDeque::with_capacity(alloc, 1) else {
            return Err(Refusal::Memory);
        };
        Ok(ControlChannel {
            number,
            queued,
            sent,
        })
    }

    /// Makes room for one command more. Where there is some, it takes no memory; else E1 where memory is refused, with
    /// nothing changed. So E1 comes only where a command is queued or unacknowledged.
    pub fn reserve(&mut self) -> Result<(), Refusal>
        ensures commands { self.new.commands ≡ self.old.commands }
        ensures room { OnOk result (1 ≤ self.new.room) }
        ensures grows { self.old.room ≤ self.new.room }
        ensures refused { OnErr result (self.new ≡ self.old) }
        ensures idle { 1 ≤ self.old.room → self.new ≡ self.old }
        ensures full { OnErr result (self.old.room ≡ 0) }
        ensures busy { OnErr result (is_idle self.old.commands ≡ false) }
        ensures memory { IfErr result (λ why. why ≡ Refusal.Memory) }
    {
        if make_room(&mut self.queued, &mut self.sent) {
            Ok(())
        } else {
            Err(Refusal::Memory)
        }
    }

    /// Queues a command with the next number. There must be room for it, so it takes no memory.
    pub fn queue(&mut self, control: Control)
        requires { 1 ≤ self.old.room }
        ensures commands { self.new.commands ≡ with_queued self.old.commands control }
        ensures room { self.old.room ≤ self.new.room + 1 }
    {
        let number = after(self.number, 1);
        self.number = number;
        self.queued.push_back_reserved(Numbered { number, control });
    }

    /// Writes the next command at `at`, where one may go: the first sent one that is due to go again, else the head of the
    /// queue where it may go. A command that is acknowledged is kept as sent; an unsequenced one is not.
    ///
    /// A command goes for the first time where its number is less than 8,192 past the oldest unacknowledged one (our
    /// profile). Where it may not, nothing behind it goes. A resend keeps its number and is not tested. Where no command
    /// may go, the answer is `Nothing`; where one may and does not fit, `NoRoom`. Neither changes anything, and the buffer
    /// stays.
    ///
    /// `now` is the clock and `timeout` how long to wait for the acknowledgement, in milliseconds. It takes no memory.
    pub fn next_due(&mut self, now: u32, timeout: u32, buf: &mut [u8], at: usize) -> Written
        ensures written { Did (next now timeout self.old.commands) result self.old.commands self.new.commands
            (record { old = buf.old; at = at; new = buf.new }) }
        ensures room { self.old.room ≤ self.new.room }
        ensures no_room { result ≡ Written.NoRoom → self.new ≡ self.old }
        ensures nothing { result ≡ Written.Nothing → self.new ≡ self.old }
    {
        match position_of_due(&self.sent) {
            Some(place) => self.resend(place, now, buf, at),
            None => self.send_first(now, timeout, buf, at),
        }
    }

    /// Writes the sent command at a place once more, where it fits.
    fn resend(&mut self, place: usize, now: u32, buf: &mut [u8], at: usize) -> Written
        requires { place < length self.old.commands.sent }
        ensures written { Did (next_resent now self.old.commands place (slice_get self.old.commands.sent place)) result self.old.commands self.new.commands
            (record { old = buf.old; at = at; new = buf.new }) }
        ensures room { self.old.room ≤ self.new.room }
        ensures no_room { result ≡ Written.NoRoom → self.new ≡ self.old }
        ensures nothing { result ≡ Written.Nothing → self.new ≡ self.old }
    {
        let Some(sent) = self.sent.get(place) else {
            unreachable!()
        };
        let Some(past) = put(buf, at, &sent.command) else {
            return Written::NoRoom;
        };
        send_again(&mut self.sent, place, now);
        Written::Sent { past }
    }

    /// Writes the head of the queue, where it may go and fits.
    fn send_first(&mut self, now: u32, timeout: u32, buf: &mut [u8], at: usize) -> Written
        ensures written { Did (next_queued now timeout self.old.commands self.old.commands.queued) result self.old.commands self.new.commands
            (record { old = buf.old; at = at; new = buf.new }) }
        ensures room { self.old.room ≤ self.new.room }
        ensures no_room { result ≡ Written.NoRoom → self.new ≡ self.old }
        ensures nothing { result ≡ Written.Nothing → self.new ≡ self.old }
    {
        let Some(head) = self.queued.front() else {
            return Written::Nothing;
        };
        if !is_in_span(&self.sent, head.number) {
            return Written::Nothing;
        }
        let Some(past) = put(buf, at, head) else {
            return Written::NoRoom;
        };
        send_head(&mut self.queued, &mut self.sent, now, timeout);
        Written::Sent { past }
    }

    /// Takes out the one sent command of this number, where it was sent at this time, in milliseconds modulo 65,536, and answers what
    /// it was. None, with nothing changed, where no sent command has the number, or that one wasn't sent at the time (our profile).
    pub fn acknowledge(&mut self, number: u16, time: u16) -> Option<Control>
        ensures control { result ≡ acknowledged_control self.old.commands number time }
        ensures removed { self.new.commands ≡ after_match self.old.commands number result }
        ensures room { self.old.room ≤ self.new.room }
        ensures none { IfNone result (self.new ≡ self.old) }
    {
        let place = position_of(&self.sent, number)?;
        if !self.sent[place].went_at(time) {
            return None;
        }
        let sent = self.sent.remove(place)?;
        Some(sent.command.control)
    }

    /// What the one sent command of this number is, where it was sent at this time, in milliseconds modulo 65,536. None where no sent command
    /// has the number, or that one wasn't sent at the time.
    pub fn matching(&self, number: u16, time: u16) -> Option<Control>
        ensures { result ≡ acknowledged_control self.now.commands number time }
    {
        let place = position_of(&self.sent, number)?;
        if self.sent[place].went_at(time) {
            Some(self.sent[place].command.control)
        } else {
            None
        }
    }

    /// What the moment `tick` brings: `End` where a sent command has waited out its timeout and its peer, heard last at
    /// `tick.heard`, has timed out over it by `patience`, which changes nothing; else `Resend` where a sent command has waited out
    /// its timeout: each such one is then due to go again, and has its next timeout (`Transmission::mark`); else `No` (our profile).
    pub fn late(&mut self, tick: Tick, patience: &Patience) -> Expiry
        ensures found { result ≡ lateness tick.now patience.now tick.heard self.old.commands }
        ensures after { self.new.commands ≡ after_lateness result tick self.old.commands }
        ensures room { self.new.room ≡ self.old.room }
    {
        let expiry = lateness(&self.sent, tick.now, patience, tick.heard);
        if expiry == Expiry::Resend {
            mark(&mut self.sent, tick);
        }
        expiry
    }

    /// Whether at the moment `now` a sent command has waited out its timeout, and its peer, heard last at `heard`, has timed
    /// out over it by `patience` (our profile).
    pub fn ends(&self, now: u32, patience: &Patience, heard: u32) -> bool
        ensures { result ≡ list_any (ends now patience.now heard) self.now.commands.sent }
    {
        any_ends(&self.sent, now, patience, heard)
    }

    /// Whether at the moment `now` a sent command has waited out its timeout, and is not due to go again already.
    pub fn is_late(&self, now: u32) -> bool
        ensures { result ≡ list_any (is_late now) self.now.commands.sent }
    {
        any_late(&self.sent, now)
    }

    /// In how many milliseconds after the moment `now` a sent command has waited out its timeout first, of those that are not
    /// due to go again already: 0 where one has, and 4,294,967,295 where none waits.
    pub fn next_late(&self, now: u32) -> u32
        ensures { HappensIn (λ (later : ℕ). list_any (is_late later) self.now.commands.sent) now result }
    {
        next_late(&self.sent, now)
    }

    /// So many, and the commands that are sent, not acknowledged, and were sent more than once; it stops at 2^64 - 1.
    pub fn count_sent_again(&self, so_far: u64) -> u64
        ensures { result ≡ added so_far (count_control self.now.commands) }
    {
        count_sent_again(&self.sent, so_far)
    }

    /// Each sent command that has waited out its timeout at the moment `tick` is due to go again, and has its next timeout
    /// (`Transmission::mark`).
    pub fn mark(&mut self, tick: Tick)
        ensures commands { self.new.commands ≡ with_marked tick self.old.commands }
        ensures room { self.new.room ≡ self.old.room }
    {
        mark(&mut self.sent, tick);
    }

    /// Each sent command that has waited out its timeout at the moment `tick` counts as tried once more, though it doesn't go: it has its
    /// next timeout (`Transmission::mark`), from then on. No acknowledgement matches it by that moment.
    pub fn hold_back(&mut self, tick: Tick)
        ensures commands { self.new.commands ≡ with_held_back tick self.old.commands }
        ensures room { self.new.room ≡ self.old.room }
    {
        hold_back(&mut self.sent, tick);
    }

    /// Whether at the moment `now` so many milliseconds have passed since a sent command first went.
    pub fn has_waited(&self, now: u32, ms: u32) -> bool
        ensures { result ≡ list_any (has_waited ms now) self.now.commands.sent }
    {
        any_waited(&self.sent, now, ms)
    }

    /// In how many milliseconds after the moment `now` so many have passed since a sent command first went: 0 where they have, and
    /// 4,294,967,295 where nothing is sent.
    pub fn next_waited(&self, now: u32, ms: u32) -> u32
        ensures { HappensIn (λ (later : ℕ). list_any (has_waited ms later) self.now.commands.sent) now result }
    {
        next_waited(&self.sent, now, ms)
    }

    /// Drops all that is queued or sent. The numbers go on from where they stand. Then there is room for one command.
    pub fn clear(&mut self)
        ensures commands { self.new.commands ≡ cleared self.old.commands }
        ensures room { 1 ≤ self.new.room }
    {
        self.queued.clear();
        self.sent.clear();
    }

    /// Whether a command is queued.
    pub fn has_queued(&self) -> bool
        ensures { result ≡ nat_lt 0 (length self.now.commands.queued) }
    {
        !self.queued.is_empty()
    }

    /// Whether nothing goes before a call or a moment brings it something: nothing is queued, and nothing that was sent is due to
    /// go again. What was sent may be unacknowledged.
    pub fn is_at_rest(&self) -> bool
        ensures { result ≡ is_at_rest self.now.commands }
    {
        self.queued.is_empty() && position_of_due(&self.sent).is_none()
    }

    /// Whether nothing is queued or unacknowledged. Then there is room for one command.
    pub fn is_idle(&self) -> bool
        ensures idle { result ≡ is_idle self.now.commands }
        ensures room { IsTrue result → 1 ≤ self.now.room }
    {
        self.queued.is_empty() && self.sent.is_empty()
    }
}
