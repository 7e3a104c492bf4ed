//! A user's calls on a slot. Each answers E2, with nothing changed, where the slot is free.

ghost use Rattle.std.specs.Prelude.{◌≡◌, true, [], length, Option, IfErr, OnOk};
ghost use Rattle.enet_peer.specs.Calls.{handed_back, submission_refusal};
ghost use Rattle.enet_slot.specs.Sharing.{wants_room};
ghost use Rattle.enet_outbox.specs.declared.parts.SendLimit.{SendLimit};
ghost use Rattle.enet_outbox.specs.Outstanding.{is_full};
ghost use Rattle.enet_sender.specs.CommandChoice.{Packet};
ghost use Rattle.enet_slot.specs.Calls.{on_peer, or_else_full, IsRefusedBy, Submits, Does, DoesWithMemory, submission, unless_full, leaving, throttling, set_by};

use crate::Slot;
use bytes::Bytes;
use enet_codec::{DisconnectMode, Refusal};
use enet_outbox::SendLimit;
use enet_peer::{Peer, PeerState};

/// What a user may set of a peer in any state. Times are in milliseconds.
#[derive(Clone, Copy)]
pub enum Setting {
    PingInterval {
        ms: u32,
    },
    Timeout {
        limit: u32,
        minimum: u32,
        maximum: u32,
    },
}

/// Why a full peer takes no packet of so many bytes: what else refuses it comes first.
fn refusal_of_full(peer: &Peer, channel: u8, len: usize) -> Refusal
    ensures { (limit : Option SendLimit) (q : Packet) → length q.body ≡ len → is_full limit peer.now.peer.outbox ≡ true → IsRefusedBy result (unless_full limit (submission channel q) peer.now.peer) }
{
    peer.submission_refusal(channel, len)
        .unwrap_or(Refusal::Full)
}

/// The first refusal but want of memory that a packet of so many bytes meets on a channel of a peer, if there is one: E3, E4, E5 or E9.
pub fn submission_refusal(
    peer: &Peer,
    limit: Option<SendLimit>,
    channel: u8,
    len: usize,
) -> Option<Refusal>
    ensures { result ≡ or_else_full (is_full limit peer.now.peer.outbox) (submission_refusal peer.now.peer channel len) }
{
    match peer.submission_refusal(channel, len) {
        Some(why) => Some(why),
        None => {
            if peer.is_full(limit) {
                Some(Refusal::Full)
            } else {
                None
            }
        }
    }
}

impl Slot {
    /// Submits a packet to its peer on a channel. A refusal is the first that applies: E2, E3, E4, E5; E9 where what is queued or
    /// unacknowledged for the peer is at the limit already; E1. After it nothing has changed, and the body is still there; else it is
    /// taken, and an empty one left.
    pub fn submit(
        &mut self,
        limit: Option<SendLimit>,
        channel: u8,
        flags: u8,
        body: &mut Bytes,
    ) -> Result<(), Refusal>
        ensures submits { Submits (handed_back result body.new) (record { flags = flags; body = body.old }) (on_peer self.old.slot (unless_full limit (submission channel (record { flags = flags; body = body.old })))) self.old.slot self.new.slot }
        ensures taken { OnOk result (body.new ≡ []) }
    {
        let Some(peer) = &mut self.peer else {
            return Err(Refusal::NoSuchPeer);
        };
        if peer.is_full(limit) {
            return Err(refusal_of_full(peer, channel, body.len()));
        }
        peer.submit(channel, flags, body)?;
        self.let_go();
        Ok(())
    }

    /// Ends the connection in this way, with a word for the other end's user. E2; E3 where it ends already: then nothing has
    /// changed.
    pub fn disconnect(&mut self, mode: DisconnectMode, info: u32) -> Result<(), Refusal>
        ensures { Does result (on_peer self.old.slot (leaving mode info)) self.old.slot self.new.slot }
    {
        let Some(peer) = &mut self.peer else {
            return Err(Refusal::NoSuchPeer);
        };
        match mode {
            DisconnectMode::Now => peer.disconnect_now(info)?,
            DisconnectMode::Ask => peer.disconnect(info)?,
            DisconnectMode::Later => peer.disconnect_later(info)?,
        }
        self.let_go();
        Ok(())
    }

    /// Sets its peer's throttle: the interval in milliseconds, acceleration and deceleration in parts of 32. E2; E3 where the
    /// peer is not connected; E1, only where a command of channel 0xFF is queued or unacknowledged: then nothing has changed.
    pub fn throttle_configure(
        &mut self,
        interval: u32,
        acceleration: u32,
        deceleration: u32,
    ) -> Result<(), Refusal>
        ensures does { DoesWithMemory result (on_peer self.old.slot (throttling interval acceleration deceleration)) self.old.slot self.new.slot }
        ensures wanted { IfErr result (λ why. why ≡ Refusal.Memory → wants_room self.old.slot ≡ true) }
    {
        let Some(peer) = &mut self.peer else {
            return Err(Refusal::NoSuchPeer);
        };
        if peer.state() != PeerState::Connected {
            return Err(Refusal::NotConnected);
        }
        peer.reserve()?;
        peer.throttle_configure(interval, acceleration, deceleration);
        self.let_go();
        Ok(())
    }

    /// Sets something of its peer. E2.
    pub fn set(&mut self, setting: Setting) -> Result<(), Refusal>
        ensures { Does result (on_peer self.old.slot (set_by setting)) self.old.slot self.new.slot }
    {
        let Some(peer) = &mut self.peer else {
            return Err(Refusal::NoSuchPeer);
        };
        match setting {
            Setting::PingInterval { ms } => peer.ping_interval(ms),
            Setting::Timeout {
                limit,
                minimum,
                maximum,
            } => peer.timeout(limit, minimum, maximum),
        }
        self.let_go();
        Ok(())
    }
}
