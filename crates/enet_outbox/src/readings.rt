//! What can be read of what a peer has to send.

ghost use Rattle.std.specs.Prelude.{◌≡◌, ℕ};
ghost use Rattle.std.specs.List.{list_any};
ghost use Rattle.enet_rtt.specs.Clock.{HappensIn};
ghost use Rattle.enet_sender.specs.Counting.{added};
ghost use Rattle.enet_sender.specs.Due.{SendingEnd};
ghost use Rattle.enet_sender.specs.Sender.{is_late};
ghost use Rattle.enet_sender.specs.declared.outstanding.Outstanding.{Outstanding};
ghost use Rattle.enet_outbox.specs.Counting.{count_in};
ghost use Rattle.enet_outbox.specs.Outbox.{has_late, transit_of};
ghost use Rattle.enet_outbox.specs.Outstanding.{capped, is_full, outstanding_of, reaches};

use crate::{Outbox, SendLimit, Traffic};
use enet_sender::Outstanding;
use enet_throttle::Lows;

/// Whether so much is as much as a limit says.
fn reaches(limit: SendLimit, there: Outstanding) -> bool
    ensures { result ≡ reaches limit there }
{
    there.commands > 0 && (there.bytes >= limit.bytes || there.commands >= limit.commands)
}

/// Whether what is told as so much is as much as a limit says: its numbers stopped at the greatest one, and so does a limit.
fn meets(bytes: u64, commands: u64, there: Outstanding) -> bool
    ensures { (full : Outstanding) → there ≡ capped full → result ≡ reaches (record { bytes = bytes; commands = commands }) full }
{
    reaches(SendLimit { bytes, commands }, there)
}

impl Outbox {
    /// How many payload bytes of reliable packets are in transit: sent, not acknowledged and not due to go again.
    pub fn in_transit(&self) -> u32
        ensures { result ≡ transit_of self.now.outbox }
    {
        self.transit
    }

    /// The allowance in bytes, 2,800 to 131,072: what the prices of what is in transit may be together.
    pub fn allowance(&self) -> u32
        ensures { result ≡ self.now.outbox.allowance.bytes }
    {
        self.allowance.bytes()
    }

    /// The throttle, 0 to 32: of 32 unreliable or unsequenced packets in a row one more than it says goes, and all from 31 on.
    pub fn throttle(&self) -> u32
        ensures { result ≡ self.now.outbox.throttle.value }
    {
        self.throttle.value()
    }

    /// The lowest estimates of the round trip in the throttle's running interval and in the one before, in milliseconds.
    pub fn lows(&self) -> Lows
        ensures { result ≡ record { running = self.now.outbox.throttle.lowest_round_trip; last = self.now.outbox.throttle.last_round_trip } }
    {
        self.throttle.lows()
    }

    /// How often data commands that ask for an acknowledgement went so far, first or again, and how many were acknowledged, each modulo 2^64.
    /// `clear` and `narrow` leave the counts.
    pub fn traffic(&self) -> Traffic
        ensures { result ≡ self.now.outbox.traffic }
    {
        self.traffic
    }

    /// How many commands are queued, or sent and not acknowledged, and the bytes of their payloads, those of unsequenced packets that wait
    /// among them; commands of channel 0xFF and acknowledgements are not. Each number stops at 2^64 - 1. It looks at none of them.
    #[inline(always)]
    pub fn outstanding(&self) -> Outstanding
        ensures { result ≡ capped (outstanding_of self.now.outbox) }
    {
        let on_channels = self.senders.outstanding();
        Outstanding {
            commands: on_channels
                .commands
                .saturating_add(self.unsequenced.len() as u64),
            bytes: on_channels.bytes.saturating_add(self.unsequenced.bytes()),
        }
    }

    /// Whether it is as much as this limit says, in bytes or in commands. Where nothing is queued or unacknowledged it isn't, whatever the
    /// limit.
    pub fn is_full(&self, limit: Option<SendLimit>) -> bool
        ensures { result ≡ is_full limit self.now.outbox }
    {
        match limit {
            None => false,
            Some(limit) => meets(limit.bytes, limit.commands, self.outstanding()),
        }
    }

    /// So many, and the commands of all channels that are sent, not acknowledged, and were sent more than once; it stops at 2^64 - 1. It
    /// looks at all that is sent.
    pub fn count_sent_again(&self, so_far: u64) -> u64
        ensures { result ≡ added so_far (count_in self.now.outbox) }
    {
        let control = self.control.count_sent_again(so_far);
        self.senders.count_sent_again(control)
    }

    /// In how many milliseconds after the moment `now` a sent command of any channel has waited out its timeout first, of those
    /// that are not due to go again already: 0 where one has, and 4,294,967,295 where none waits.
    pub fn next_late(&self, now: u32) -> u32
        ensures { HappensIn (λ (later : ℕ). has_late self.now.outbox later) now result }
    {
        let control = self.control.next_late(now);
        control.min(self.next_late_of_channels(now))
    }

    /// The same of the channels but 0xFF.
    fn next_late_of_channels(&self, now: u32) -> u32
        ensures { HappensIn (λ (later : ℕ). list_any (λ (s : SendingEnd). list_any (is_late later) s.sender.sent) self.now.outbox.senders) now result }
    {
        if self.idle {
            return u32::MAX;
        }
        self.senders.next_late(now)
    }
}
