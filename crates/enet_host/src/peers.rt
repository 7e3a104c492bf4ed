//! What a user does with one peer of a host. Each call names the peer; it answers E2, or None, where there is no such peer: the
//! slot is out of range or free, or has another generation.

ghost use Rattle.std.specs.Prelude.{◌≡◌, true, length, IfErr};
ghost use Rattle.std.specs.Option.{option_map};
ghost use Rattle.enet_codec.specs.declared.event.DisconnectMode.TheVariants.{Now, Ask, Later};
ghost use Rattle.enet_outbox.specs.Outbox.{transit_of};
ghost use Rattle.enet_outbox.specs.Outstanding.{capped, outstanding_of};
ghost use Rattle.enet_sender.specs.CommandChoice.{Packet};
ghost use Rattle.enet_host.specs.Host.{KeepsRest, name_in, named};
ghost use Rattle.enet_host.specs.Foretelling.{submission_refusal, refusal_of};
ghost use Rattle.enet_slot.specs.Calls.{Submits, Does, DoesWithMemory, submission, unless_full, leaving, throttling, pinging, waiting};
ghost use Rattle.enet_slot.specs.Sharing.{wants_room_in};
ghost use Rattle.enet_host.specs.Calls.{address_named, ending_named, on_named};

use crate::calls;
use crate::host::HostCore;
use bytes::Bytes;
use enet_codec::{Addr, DisconnectMode, PeerRef, Refusal};
use enet_connect::Terms;
use enet_outbox::Traffic;
use enet_peer::{Ending, PeerState, RoundTrip};
use enet_sender::Outstanding;
use enet_slot::{Setting, submission_refusal};
use enet_throttle::Lows;

impl HostCore {
    /// Submits a packet to a peer on a channel; `flags` are its flags (RELIABLE 1, UNSEQUENCED 2, UNRELIABLE_FRAGMENT 8, others
    /// are ignored).
    ///
    /// A refusal is the first that applies: E2; E3 where the peer is not connected; E4 where there is no such channel; E5 where the body is
    /// longer than the settings allow, or would be cut into more than 16,384 pieces; E9 where what is queued or unacknowledged for the peer
    /// is at the limit of `set_send_limit` already; E1 where memory is refused. After it nothing has changed, and the body comes back.
    pub fn submit(
        &mut self,
        peer: PeerRef,
        channel: u8,
        flags: u8,
        mut body: Bytes,
    ) -> Result<(), (Refusal, Bytes)>
        ensures submits { Submits result (record { flags = flags; body = body }) (on_named self.old.slots peer (unless_full self.old.send_limit (submission channel (record { flags = flags; body = body })))) self.old.slots self.new.slots }
        ensures rest { KeepsRest self.old self.new }
    {
        self.sleepers.wake(usize::from(peer.slot));
        // The sender of the channel takes the body out of this place, once nothing can be refused any more: handed down by value and back
        // by a refusal, it would be copied at each step between.
        let (slots, limit) = (&mut self.slots, self.send_limit);
        match calls::submit(slots, limit, peer, channel, flags, &mut body) {
            Ok(()) => Ok(()),
            Err(why) => Err((why, body)),
        }
    }

    /// The first refusal but want of memory that a packet of so many bytes meets on a channel of this peer: E2, E3, E4, E5 or E9;
    /// None where there is none.
    pub fn submission_refusal(&self, peer: PeerRef, channel: u8, len: usize) -> Option<Refusal>
        ensures refusal { result ≡ submission_refusal self.now.send_limit self.now.slots peer channel len }
        ensures agrees { (q : Packet) → length q.body ≡ len → result ≡ refusal_of (on_named self.now.slots peer (unless_full self.now.send_limit (submission channel q))) }
    {
        let Some(peer) = calls::peer_of(&self.slots, peer) else {
            return Some(Refusal::NoSuchPeer);
        };
        submission_refusal(peer, self.send_limit, channel, len)
    }

    /// Disconnects with a word for the other end's user: all that is held, queued or unacknowledged is dropped, and a reliable
    /// DISCONNECT goes; the event, with 0 where this end asked, comes once it is acknowledged. A slot that still connects is
    /// free at once; one that still answers sends one unsequenced DISCONNECT. E2; E3 where it ends already: nothing changes.
    pub fn disconnect(&mut self, peer: PeerRef, info: u32) -> Result<(), Refusal>
        ensures disconnects { Does result (on_named self.old.slots peer (leaving Ask info)) self.old.slots self.new.slots }
        ensures rest { KeepsRest self.old self.new }
    {
        self.sleepers.wake(usize::from(peer.slot));
        calls::disconnect(&mut self.slots, peer, DisconnectMode::Ask, info)
    }

    /// Ends the connection for the user at once: all is dropped, events too, and one unsequenced DISCONNECT with this word
    /// goes, with which the slot is free. Where the peer still connects, its slot is free at once. E2; E3 where its connection
    /// ends already: then nothing has changed.
    pub fn disconnect_now(&mut self, peer: PeerRef, info: u32) -> Result<(), Refusal>
        ensures disconnects { Does result (on_named self.old.slots peer (leaving Now info)) self.old.slots self.new.slots }
        ensures rest { KeepsRest self.old self.new }
    {
        self.sleepers.wake(usize::from(peer.slot));
        calls::disconnect(&mut self.slots, peer, DisconnectMode::Now, info)
    }

    /// Disconnects with this word once all that is queued has gone and each reliable command is acknowledged; data that comes
    /// meanwhile is dropped. Where the peer still connects or answers, it goes as by `disconnect`. E2; E3 where its connection
    /// ends already or is to end later: then nothing has changed.
    pub fn disconnect_later(&mut self, peer: PeerRef, info: u32) -> Result<(), Refusal>
        ensures disconnects { Does result (on_named self.old.slots peer (leaving Later info)) self.old.slots self.new.slots }
        ensures rest { KeepsRest self.old self.new }
    {
        self.sleepers.wake(usize::from(peer.slot));
        calls::disconnect(&mut self.slots, peer, DisconnectMode::Later, info)
    }

    /// Sets the throttle's interval in milliseconds, and its acceleration and deceleration in parts of 32, of which the other
    /// end is told (ENet 1.3). E2; E3 where the peer is not connected; E1, only where an earlier command of channel 0xFF is
    /// queued or unacknowledged: then nothing has changed.
    pub fn throttle_configure(
        &mut self,
        peer: PeerRef,
        interval: u32,
        acceleration: u32,
        deceleration: u32,
    ) -> Result<(), Refusal>
        ensures configures { DoesWithMemory result (on_named self.old.slots peer (throttling interval acceleration deceleration)) self.old.slots self.new.slots }
        ensures wanted { IfErr result (λ why. why ≡ Refusal.Memory → wants_room_in (named self.old.slots peer) ≡ true) }
        ensures rest { KeepsRest self.old self.new }
    {
        self.sleepers.wake(usize::from(peer.slot));
        calls::throttle_configure(&mut self.slots, peer, interval, acceleration, deceleration)
    }

    /// Sets after how many milliseconds a peer that was not heard is pinged; 0 stands for the default of 500. E2.
    pub fn set_ping_interval(&mut self, peer: PeerRef, ms: u32) -> Result<(), Refusal>
        ensures sets { Does result (on_named self.old.slots peer (pinging ms)) self.old.slots self.new.slots }
        ensures rest { KeepsRest self.old self.new }
    {
        self.sleepers.wake(usize::from(peer.slot));
        calls::set(&mut self.slots, peer, Setting::PingInterval { ms })
    }

    /// Sets how long the other end may leave a command unacknowledged. The connection ends when a try fails `maximum` milliseconds or more
    /// (30,000 by the standard) after the command was first sent; or when one fails that was made `minimum` milliseconds (5,000) plus its own
    /// timeout after that and after the last acknowledgement of any command, if 2^(sends - 1) is at least `limit` (32). A 0 stands for the
    /// standard number. E2 where there is no such peer.
    pub fn set_timeout(
        &mut self,
        peer: PeerRef,
        limit: u32,
        minimum: u32,
        maximum: u32,
    ) -> Result<(), Refusal>
        ensures sets { Does result (on_named self.old.slots peer (waiting limit minimum maximum)) self.old.slots self.new.slots }
        ensures rest { KeepsRest self.old self.new }
    {
        let setting = Setting::Timeout {
            limit,
            minimum,
            maximum,
        };
        self.sleepers.wake(usize::from(peer.slot));
        calls::set(&mut self.slots, peer, setting)
    }

    /// How many slots the host has, free or not.
    pub fn slot_count(&self) -> u16
        ensures { result ≡ length self.now.slots }
    {
        self.start.config.peers
    }

    /// The name of the peer that the slot of this number holds; None where it is free, or there is no such slot.
    pub fn name_in(&self, slot: u16) -> Option<PeerRef>
        ensures { result ≡ name_in self.now.slots slot }
    {
        let held = self.slots.get(usize::from(slot))?;
        held.peer()?;
        Some(PeerRef {
            slot,
            generation: held.generation(),
        })
    }

    /// How far the peer's connection has come; None where there is no such peer.
    pub fn state(&self, peer: PeerRef) -> Option<PeerState>
        ensures { result ≡ option_map (λ p. p.state) (named self.now.slots peer) }
    {
        Some(calls::peer_of(&self.slots, peer)?.state())
    }

    /// The terms on which this end of the connection stands; while it still connects, those that it asked for, with slot
    /// 0xFFF. None where there is no such peer.
    pub fn terms(&self, peer: PeerRef) -> Option<Terms>
        ensures { result ≡ option_map (λ p. p.terms) (named self.now.slots peer) }
    {
        Some(calls::peer_of(&self.slots, peer)?.terms())
    }

    /// How long the peer's acknowledgements take, as it is estimated, in milliseconds; None where there is no such peer.
    pub fn round_trip(&self, peer: PeerRef) -> Option<RoundTrip>
        ensures { result ≡ option_map (λ p. record { mean = p.estimate.round_trip; variance = p.estimate.variance }) (named self.now.slots peer) }
    {
        Some(calls::peer_of(&self.slots, peer)?.round_trip())
    }

    /// How many payload bytes of reliable packets are in transit to the peer: sent, not acknowledged and not due to go again. None if there
    /// is no such peer.
    pub fn in_transit(&self, peer: PeerRef) -> Option<u32>
        ensures { result ≡ option_map (λ p. transit_of p.outbox) (named self.now.slots peer) }
    {
        Some(calls::peer_of(&self.slots, peer)?.in_transit())
    }

    /// The peer's allowance in bytes, 2,800 to 131,072: so much may be in transit to it, each command with 28 bytes more than its payload.
    /// From 65,536 on it limits nothing. None if there is no such peer.
    pub fn allowance(&self, peer: PeerRef) -> Option<u32>
        ensures { result ≡ option_map (λ p. p.outbox.allowance.bytes) (named self.now.slots peer) }
    {
        Some(calls::peer_of(&self.slots, peer)?.allowance())
    }

    /// How many commands are queued for the peer, or sent and not acknowledged, and the bytes of their payloads: what `set_send_limit`
    /// limits. Neither acknowledgements nor commands of channel 0xFF count. Each number stops at 2^64 - 1. None if there is no such peer.
    pub fn outstanding(&self, peer: PeerRef) -> Option<Outstanding>
        ensures { result ≡ option_map (λ p. capped (outstanding_of p.outbox)) (named self.now.slots peer) }
    {
        Some(calls::peer_of(&self.slots, peer)?.outstanding())
    }

    /// How many of the peer's commands that ask for an acknowledgement went so far, how many of them again, and how many were acknowledged:
    /// reliable packets, a packet that is cut as many as it has pieces. The counts begin at 0 with the peer, also stand once its connection
    /// has ended, and are modulo 2^64. What the host itself sends, as pings, doesn't count. None if there is no such peer.
    pub fn traffic(&self, peer: PeerRef) -> Option<Traffic>
        ensures { result ≡ option_map (λ p. p.outbox.traffic) (named self.now.slots peer) }
    {
        Some(calls::peer_of(&self.slots, peer)?.traffic())
    }

    /// The lowest estimates of the peer's round trip in the throttle's running interval and in the one before, in milliseconds. None if
    /// there is no such peer.
    pub fn lows(&self, peer: PeerRef) -> Option<Lows>
        ensures { result ≡ option_map (λ p. record { running = p.outbox.throttle.lowest_round_trip; last = p.outbox.throttle.last_round_trip }) (named self.now.slots peer) }
    {
        Some(calls::peer_of(&self.slots, peer)?.lows())
    }

    /// Why the peer's connection ended. It is told from then on, also once the Disconnect event is taken, until the next peer of its slot,
    /// whether it ever was connected or not, is gone: ask when the event is taken. None if the connection hasn't ended, if it ended without
    /// a Disconnect event, or if that was too long ago.
    pub fn ending(&self, peer: PeerRef) -> Option<Ending>
        ensures { result ≡ ending_named self.now.slots peer }
    {
        self.slots
            .get(usize::from(peer.slot))?
            .ending_of(peer.generation)
    }

    /// How much of the peer's unreliable packets goes, in parts of 32; None where there is no such peer.
    pub fn throttle(&self, peer: PeerRef) -> Option<u32>
        ensures { result ≡ option_map (λ p. p.outbox.throttle.value) (named self.now.slots peer) }
    {
        Some(calls::peer_of(&self.slots, peer)?.throttle())
    }

    /// Where the peer is; None where there is no such peer.
    pub fn address(&self, peer: PeerRef) -> Option<Addr>
        ensures { result ≡ address_named self.now.slots peer }
    {
        calls::address_of(&self.slots, peer)
    }
}
