//! What can be read of a peer without changing it.

ghost use Rattle.std.specs.Prelude.{◌≡◌, is_some, IsTrue};
ghost use Rattle.enet_outbox.specs.Outbox.{transit_of};
ghost use Rattle.enet_outbox.specs.Outstanding.{capped, is_full, outstanding_of};
ghost use Rattle.enet_sender.specs.Counting.{added};
ghost use Rattle.enet_peer.specs.Calls.{next_event};
ghost use Rattle.enet_peer.specs.Counting.{count_by_peer};
ghost use Rattle.enet_peer.specs.Waiting.{is_steady, Waits};

use crate::{Peer, PeerState};
use enet_outbox::{SendLimit, Traffic};
use enet_sender::Outstanding;
use enet_throttle::Lows;

/// How long a peer's acknowledgements take, in milliseconds.
#[derive(Clone, Copy, Debug, PartialEq, Eq)]
pub struct RoundTrip {
    /// The mean, 500 before the first acknowledgement.
    pub mean: u32,
    /// The mean deviation from it.
    pub variance: u32,
}

impl Peer {
    /// How long acknowledgements take, as it is estimated.
    pub fn round_trip(&self) -> RoundTrip
        ensures mean { result.mean ≡ self.now.peer.estimate.round_trip }
        ensures variance { result.variance ≡ self.now.peer.estimate.variance }
    {
        RoundTrip {
            mean: self.timing.round_trip(),
            variance: self.timing.variance(),
        }
    }

    /// The lowest estimates of the round trip in the throttle's running interval and in the one before, in milliseconds.
    pub fn lows(&self) -> Lows
        ensures { result ≡ record { running = self.now.peer.outbox.throttle.lowest_round_trip; last = self.now.peer.outbox.throttle.last_round_trip } }
    {
        self.outbox.lows()
    }

    /// How many payload bytes of reliable packets are in transit: sent, not acknowledged and not due to go again.
    pub fn in_transit(&self) -> u32
        ensures { result ≡ transit_of self.now.peer.outbox }
    {
        self.outbox.in_transit()
    }

    /// The allowance in bytes, 2,800 to 131,072: what the prices of what is in transit may be together.
    pub fn allowance(&self) -> u32
        ensures { result ≡ self.now.peer.outbox.allowance.bytes }
    {
        self.outbox.allowance()
    }

    /// How often data commands that ask for an acknowledgement went so far, first or again, and how many were acknowledged, each modulo 2^64.
    /// The end of the connection leaves the counts.
    pub fn traffic(&self) -> Traffic
        ensures { result ≡ self.now.peer.outbox.traffic }
    {
        self.outbox.traffic()
    }

    /// How many commands are queued, or sent and not acknowledged, and the bytes of their payloads, those of unsequenced packets that wait
    /// among them; commands of channel 0xFF and acknowledgements are not. Each number stops at 2^64 - 1. It looks at none of them.
    pub fn outstanding(&self) -> Outstanding
        ensures { result ≡ capped (outstanding_of self.now.peer.outbox) }
    {
        self.outbox.outstanding()
    }

    /// Whether that is as much as this limit says, in bytes or in commands. Where nothing is queued or unacknowledged it isn't, whatever
    /// the limit.
    pub fn is_full(&self, limit: Option<SendLimit>) -> bool
        ensures { result ≡ is_full limit self.now.peer.outbox }
    {
        self.outbox.is_full(limit)
    }

    /// So many, and its commands on all channels that are sent, not acknowledged, and were sent more than once; it stops at 2^64 - 1. It
    /// looks at all that is sent.
    pub fn count_sent_again(&self, so_far: u64) -> u64
        ensures { result ≡ added so_far (count_by_peer self.now.peer) }
    {
        self.outbox.count_sent_again(so_far)
    }

    /// The throttle, 0 to 32: of 32 unreliable or unsequenced packets in a row one more than it says goes, and all from 31 on.
    pub fn throttle(&self) -> u32
        ensures { result ≡ self.now.peer.outbox.throttle.value }
    {
        self.outbox.throttle()
    }

    /// Whether `next_event` would give an event.
    pub fn has_event(&self) -> bool
        ensures { result ≡ is_some (next_event self.now.peer) }
    {
        self.greeting.is_some() || self.inbox.next().is_some() || self.state == PeerState::Ended
    }

    /// Whether it is connected, asks for a connection or for its end, or has answered, and has surely nothing to tell and nothing that
    /// goes, though what was sent may be unacknowledged. Until a call, a command or a moment brings it something, `emit` and
    /// `next_event` then give nothing and change nothing.
    pub fn only_waits(&self) -> bool
        ensures { IsTrue result → Waits self.now.peer }
    {
        self.is_steady() && !self.has_event() && self.outbox.is_at_rest()
    }

    /// Whether it is connected, asks for a connection or for its end, or has answered: no datagram of its own changes such a state.
    fn is_steady(&self) -> bool
        ensures { result ≡ is_steady self.now.peer.state }
    {
        matches!(
            self.state,
            PeerState::Connecting
                | PeerState::Answering
                | PeerState::Connected
                | PeerState::Disconnecting
        )
    }
}
