//! Packets of one command that a peer takes in with one look.

ghost use Rattle.std.specs.Prelude.{◌≡◌, ℕ, ◌≤◌, Bool, true, false, IsTrue, Option, None, is_some};
ghost use Rattle.enet_codec.specs.Frequent.{whole_packet};
ghost use Rattle.enet_outbox.specs.Outbox.{is_crowded};
ghost use Rattle.enet_receiver.specs.ArrivingData.{data_command};
ghost use Rattle.enet_inbox.specs.DataEffect.{sequenced, handled};
ghost use Rattle.enet_peer.specs.declared.parts.PeerState.TheVariants.{Connected};
ghost use Rattle.enet_peer.specs.CommandEffect.{obeyed, answered};
ghost use Rattle.enet_peer.specs.Private.AtOnce.{data_in};

use crate::{Peer, PeerState};
use enet_codec::WholePacket;
use enet_outbox::Acknowledgement;
use enet_receiver::ArrivingData;

/// The packet as its channel takes it in.
#[inline(always)]
fn arriving(found: WholePacket<'_>) -> ArrivingData<'_>
    ensures data { data_command result ≡ data_in found.entry }
    ensures head { result.head ≡ found.entry.head }
{
    ArrivingData {
        head: found.head,
        reliable: found.reliable,
        unreliable: found.unreliable,
        fragment: None,
        payload: found.payload,
    }
}

impl Peer {
    /// Takes a packet in at once, as `command` does with its command where nothing stops that: where the peer is connected, there is room
    /// for its acknowledgement, if it asks for one, and its channel hands it out as it comes. False, with nothing changed, where it isn't
    /// so, or memory is refused: then its command is to go to `command`. The contract says what holds where it is true, not when it must be.
    #[inline(always)]
    pub(crate) fn takes_packet(&mut self, sent: Option<u16>, found: WholePacket<'_>) -> bool
        requires number { found.reliable ≡ true → found.unreliable ≡ 0 }
        ensures done { IsTrue result → (now : ℕ) → obeyed self.old.peer now sent (whole_packet found.entry) ≡ record { stop = None; after = self.new.peer } }
        ensures same { result ≡ false → self.new.peer ≡ self.old.peer }
    {
        let arriving = arriving(found);
        // Most others are told apart by their numbers, before anything is made room for.
        if !self.is_connected()
            || !self.inbox.is_in_place(arriving)
            || !self.may_acknowledge(found.head.acknowledge, sent)
        {
            return false;
        }
        if !self.inbox.take_at_once(arriving) {
            return false;
        }
        self.acknowledge_packet(sent, found);
        true
    }

    /// Whether the peer is connected, and can queue the acknowledgement of a command, where it asks for one, in a datagram that tells this
    /// sent time or none.
    #[inline(always)]
    fn may_acknowledge(&mut self, asks: bool, sent: Option<u16>) -> bool
        ensures peer { self.new.peer ≡ self.old.peer }
        ensures state { IsTrue result → self.old.peer.state ≡ Connected }
        ensures few { IsTrue result → is_crowded self.old.peer.outbox ≡ false }
        ensures sent { IsTrue result → asks ≡ true → is_some sent ≡ true }
        ensures room { IsTrue result → asks ≡ true → 1 ≤ self.new.acknowledgement_room }
    {
        if self.state != PeerState::Connected || self.outbox.is_crowded() {
            return false;
        }
        !asks || (sent.is_some() && self.outbox.reserve_acknowledgement().is_ok())
    }

    /// Queues the acknowledgement of a packet that took effect, where it asks for one.
    #[inline(always)]
    fn acknowledge_packet(&mut self, sent: Option<u16>, found: WholePacket<'_>)
        requires state { self.old.peer.state ≡ Connected }
        requires few { is_crowded self.old.peer.outbox ≡ false }
        requires sent { found.head.acknowledge ≡ true → is_some sent ≡ true }
        requires room { found.head.acknowledge ≡ true → 1 ≤ self.old.acknowledgement_room }
        ensures { answered self.old.peer (whole_packet found.entry) sent true ≡ record { stop = None; after = self.new.peer } }
    {
        if !found.head.acknowledge {
            return;
        }
        if let Some(time) = sent {
            self.outbox.queue_acknowledgement(Acknowledgement {
                channel: found.head.channel,
                number: found.head.number,
                time,
            });
        }
    }
}
