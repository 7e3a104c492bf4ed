//! What a moment brings.

ghost use Rattle.std.specs.Prelude.{◌≡◌, ℕ, ◌≤◌, ◌<◌, ◌^◌, ◌&&◌, nat_le, Bool, IsTrue};
ghost use Rattle.enet_rtt.specs.Clock.{elapsed_time, HappensIn};
ghost use Rattle.enet_outbox.specs.Outbox.{has_nothing_reliable};
ghost use Rattle.enet_peer.specs.Endings.{cut_off, silence_ending};
ghost use Rattle.enet_peer.specs.Calls.{answering_time, expiry_of, growth_bound, has_stayed, is_answering, is_connected, is_due, is_over, is_pinged, is_welcome, moved, pinged, tick_of};
ghost use Rattle.enet_peer.specs.Private.Time.{expired, timed_out};

use crate::{Ending, Peer, PeerState};
use enet_rtt::{Expiry, Tick, elapsed};
use enet_senders::Control;

/// How long a client that was answered is waited for, in milliseconds since the answer first went (our profile).
fn answering_time() -> u32
    ensures { result ≡ answering_time }
{
    7_500
}

/// Why the connection of a peer in this state ends once its patience is over.
fn silence_ending(state: PeerState) -> Ending
    ensures { result ≡ silence_ending state }
{
    match state {
        PeerState::Connecting => Ending::NeverAnswered,
        PeerState::Disconnecting => Ending::AskedHere,
        PeerState::AckDisconnect => Ending::AskedThere,
        _ => Ending::TimedOut,
    }
}

impl Peer {
    /// Time has come to `now`, in milliseconds. Where a sent command has waited out its timeout it is due to go again, unless
    /// the peer's patience is over: then the connection has ended, with the word 0. A server that waits for its client is free without an
    /// event once its patience is over, or 7,500 ms have passed since its answer first went, or, if its client was refused, since it was
    /// made. `short` says that the client's address has
    /// sent too little for another answer: then that one doesn't become due, but counts as tried, and is looked at again once it has
    /// waited out its timeout from now on. A connected peer that has no reliable command on the way and was not heard for the ping
    /// interval is pinged (our profile).
    pub fn tick(&mut self, now: u32, short: bool)
        ensures { self.new.peer ≡ moved short self.old.peer now }
    {
        self.time_out(now, short);
        self.ping(now);
    }

    /// In how many milliseconds after the moment `now` time brings the peer anything: a sent command that has waited out its
    /// timeout, the end of its wait for a client, or a ping. A tick before that changes nothing. 0 where a tick at `now` brings
    /// something, and 4,294,967,295 where time alone brings nothing.
    pub fn due_in(&self, now: u32) -> u32
        ensures due { HappensIn (is_due self.now.peer) now result }
        ensures calm { (later : ℕ) (short : Bool) → later < 2 ^ 32 → elapsed_time later now < result → moved short self.now.peer later ≡ self.now.peer }
    {
        let late = self.over_in(now).min(self.outbox.next_late(now));
        if late <= self.silent_in(now) {
            return late;
        }
        late.min(self.pinged_in(now))
    }

    /// In how many milliseconds after the moment `now` the wait for a client is over; 4,294,967,295 where none is waited for.
    fn over_in(&self, now: u32) -> u32
        ensures { HappensIn (is_over self.now.peer) now result }
    {
        if self.state == PeerState::Answering {
            return self.stayed_in(now);
        }
        u32::MAX
    }

    /// In how many milliseconds after the moment `now` a client was waited for as long as may be, or one that was refused has been there so
    /// long.
    fn stayed_in(&self, now: u32) -> u32
        ensures { HappensIn (has_stayed self.now.peer) now result }
    {
        if self.refused {
            return self.aged_in(now);
        }
        self.outbox.next_waited(now, answering_time())
    }

    /// In how many milliseconds after the moment `now` the peer has been there for so long.
    fn aged_in(&self, now: u32) -> u32
        ensures { HappensIn (λ (later : ℕ). nat_le answering_time (elapsed_time later self.now.peer.made)) now result }
    {
        answering_time().saturating_sub(elapsed(now, self.made))
    }

    /// In how many milliseconds after the moment `now` nothing was heard for the ping interval, if nothing comes before that.
    fn silent_in(&self, now: u32) -> u32
        ensures { HappensIn (λ (later : ℕ). nat_le self.now.peer.ping_interval (elapsed_time later self.now.peer.heard)) now result }
    {
        self.ping_interval.saturating_sub(elapsed(now, self.heard))
    }

    /// In how many milliseconds after the moment `now` a PING is wanted, if nothing comes before that.
    fn pinged_in(&self, now: u32) -> u32
        ensures { HappensIn (is_pinged self.now.peer) now result }
    {
        if self.awaits_ping() {
            return self.silent_in(now);
        }
        u32::MAX
    }

    /// Marks what waited out its timeout, holds it back, or ends a peer whose patience is over.
    fn time_out(&mut self, now: u32, short: bool)
        ensures { self.new.peer ≡ timed_out short self.old.peer now }
    {
        if self.expire(now, short) == Expiry::End {
            self.cut_off();
        }
    }

    /// What a moment brings. What waited out its timeout is marked or held back.
    fn expire(&mut self, now: u32, short: bool) -> Expiry
        ensures found { result ≡ expiry_of self.old.peer now }
        ensures after { self.new.peer ≡ expired short self.old.peer now }
    {
        if self.is_over(now) {
            return Expiry::End;
        }
        let tick = self.tick_at(now);
        if self.may_not_answer(short) {
            self.outbox.hold_back(tick, &self.patience)
        } else {
            self.outbox.late(tick, &self.patience)
        }
    }

    /// Whether the wait for a client is over.
    fn is_over(&self, now: u32) -> bool
        ensures { result ≡ is_over self.now.peer now }
    {
        self.state == PeerState::Answering && self.has_stayed(now)
    }

    /// Whether a client was waited for as long as may be, or one that was refused has been there so long.
    fn has_stayed(&self, now: u32) -> bool
        ensures { result ≡ has_stayed self.now.peer now }
    {
        if self.refused {
            elapsed(now, self.made) >= answering_time()
        } else {
            self.outbox.has_waited(now, answering_time())
        }
    }

    /// Whether an answer may not go again, by whether the client's address has sent too little for one.
    fn may_not_answer(&self, short: bool) -> bool
        ensures { result ≡ (short && is_answering self.now.peer.state) }
    {
        short && self.state == PeerState::Answering
    }

    /// The moment `now`, for what is late by then.
    fn tick_at(&self, now: u32) -> Tick
        ensures { result ≡ tick_of self.now.peer now }
    {
        Tick {
            now,
            heard: self.heard,
            bound: self.growth_bound(),
            present: self.timing.timeout_of(),
        }
    }

    /// Whether it is a client that was answered: who asked has an offer of some channels.
    fn is_welcome(&self) -> bool
        ensures { result ≡ is_welcome self.now.peer }
    {
        self.offer.channels > 0 && self.state != PeerState::Connecting
    }

    /// How far a timeout grows in silence, in milliseconds: to a second once a round trip was measured, at a server that answers, and at a
    /// client that was answered; else as far as 32 bits tell (our profile).
    fn growth_bound(&self) -> u32
        ensures { result ≡ growth_bound self.now.peer }
    {
        if self.timing.is_sampled() || self.state == PeerState::Answering || self.is_welcome() {
            1_000
        } else {
            u32::MAX
        }
    }

    /// Ends a peer whose patience is over.
    fn cut_off(&mut self)
        ensures { self.new.peer ≡ cut_off self.old.peer }
    {
        match self.state {
            PeerState::Answering => self.free(),
            state => self.end(silence_ending(state), 0),
        }
    }

    /// Queues a PING where one is wanted.
    fn ping(&mut self, now: u32)
        ensures { self.new.peer ≡ pinged self.old.peer now }
    {
        if self.is_pinged(now) {
            self.outbox.queue_control(Control::Ping);
        }
    }

    /// Whether a PING is wanted. Then there is room for it.
    fn is_pinged(&self, now: u32) -> bool
        ensures pinged { result ≡ is_pinged self.now.peer now }
        ensures room { IsTrue result → 1 ≤ self.now.room }
    {
        self.ping_interval <= elapsed(now, self.heard) && self.awaits_ping()
    }

    /// Whether a PING is wanted once nothing was heard for the ping interval. Then there is room for it.
    fn awaits_ping(&self) -> bool
        ensures awaits { result ≡ (is_connected self.now.peer.state && has_nothing_reliable self.now.peer.outbox) }
        ensures room { IsTrue result → 1 ≤ self.now.room }
    {
        self.is_connected() && self.outbox.has_nothing_reliable()
    }
}
