//! A datagram comes to a slot.

ghost use Rattle.std.specs.Prelude.{◌≡◌, true, false};
ghost use Rattle.enet_slot.specs.Giving.{is_vacant};
ghost use Rattle.enet_slot.specs.Receiving.{is_deaf, stopped, refused_by_slot, is_connection, IsHeardAlike, PeerReceives};

use crate::Slot;
use enet_codec::{Addr, NO_PEER, Received, Stop};
use enet_peer::{PeerState, may_confirm, receive};

/// Whether a peer in this state takes no datagram in.
fn is_deaf(state: PeerState) -> bool
    ensures { result ≡ is_deaf state }
{
    matches!(
        state,
        PeerState::Free | PeerState::Ended | PeerState::Parting
    )
}

impl Slot {
    /// Whether it holds a connection with this address and connect id, which takes something in.
    pub fn is_connection(&self, from: Addr, connect_id: u32) -> bool
        ensures { result ≡ is_connection from connect_id self.now.slot }
    {
        if from != self.address {
            return false;
        }
        let Some(peer) = &self.peer else {
            return false;
        };
        !is_deaf(peer.state()) && peer.terms().connect_id == connect_id
    }

    /// Why it takes a datagram of this session from an address not in: S3 where it is free or its peer takes nothing in, S4
    /// where the peer is at another address, S5 where its session is another; that isn't tested
    /// before the other end's slot is known.
    pub fn refused_by(&self, from: Addr, session: u8) -> Option<Stop>
        ensures { result ≡ refused_by_slot from session (Some self.now.slot) }
    {
        let Some(peer) = &self.peer else {
            return Some(Stop::UnknownPeer);
        };
        if is_deaf(peer.state()) {
            return Some(Stop::UnknownPeer);
        }
        if self.address != from {
            return Some(Stop::WrongAddress);
        }
        let terms = peer.terms();
        if terms.slot != NO_PEER && session != terms.incoming_session {
            return Some(Stop::WrongSession);
        }
        None
    }

    /// Whether the client of its peer could confirm by these commands. Where it answers false they come alike to the peer, whether or not the
    /// host is full.
    pub fn may_confirm(&self, commands: &[u8]) -> bool
        ensures { result ≡ false → IsHeardAlike commands.now self.now.slot }
    {
        match &self.peer {
            Some(peer) => may_confirm(peer, commands),
            None => false,
        }
    }

    /// The commands of a datagram come to its peer at the time `now`, in milliseconds; `sent` is the time that the datagram
    /// bears, and `full` says that the host is full, and refuses who confirms. A peer that was refused stops the datagram by S7, and is
    /// told so again if that bears a time. It answers how many took effect, and the stop of the first that the peer stops; S3, with nothing
    /// changed, where the slot is free.
    pub fn receive(&mut self, now: u32, sent: Option<u16>, full: bool, commands: &[u8]) -> Received
        ensures receives { is_vacant self.old.slot.peer ≡ false → PeerReceives (record { now = now; sent = sent; full = full }) commands.now self.old.slot result self.new.slot }
        ensures vacant { is_vacant self.old.slot.peer ≡ true → (result ≡ stopped Stop.UnknownPeer) × (self.new.slot ≡ self.old.slot) }
    {
        let Some(peer) = &mut self.peer else {
            return Received {
                handled: 0,
                stop: Some(Stop::UnknownPeer),
            };
        };
        let answer = receive(peer, now, sent, full, commands);
        self.let_go();
        answer
    }
}
