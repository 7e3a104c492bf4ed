//! A slot, which holds a peer or is free.

ghost use Rattle.std.specs.Prelude.{◌≡◌, ◌+◌, min, None};
ghost use Rattle.std.specs.Option.{option_copied};
ghost use Rattle.enet_slot.specs.Slot.{changed, ending_of, greatest};
ghost use Rattle.enet_slot.specs.Giving.{unused_slot, is_vacant, is_available};
ghost use Rattle.enet_slot.specs.Slotted.{peer_shown};

use enet_codec::Addr;
use enet_peer::{Ending, Peer, PeerState};
use std::marker::Model;

/// A slot of a host, which holds a peer or is free. Contracts see it as a `Slotted`: what it is, and for how many more
/// commands of channel 0xFF its peer has room.
#[derive(Drop)]
pub struct Slot {
    /// That of its peer; of a free slot that of its next peer.
    pub(crate) generation: u32,
    /// Where its peer is, or the last one that it held.
    pub(crate) address: Addr,
    /// The sessions of the last connection that it held to its end, 0xFF before there was one.
    pub(crate) incoming_session: u8,
    pub(crate) outgoing_session: u8,
    /// Bytes that its peer put out since the bandwidth was last shared out; it stops at its greatest value.
    pub(crate) emitted: u32,
    /// Why the connection of the last peer that left it ended, if its user was told of it.
    pub(crate) ending: Option<Ending>,
    pub(crate) peer: Option<Peer>,
}

impl Model for Slot {
    ghost use Rattle.std.specs.Coded.{codes};
    ghost use Rattle.enet_inbox.specs.Codes.{inbox_code};
    ghost use Rattle.enet_slot.specs.Slotted.{Slotted, peer_shown, room_of};

    ghost Value = { Slotted };

    ghost coded = { Prim.hlevel (codes, inbox_code) };

    ghost view = { λ s. record {
      slot = record {
        generation = s.generation;
        address = s.address;
        incoming_session = s.incoming_session;
        outgoing_session = s.outgoing_session;
        emitted = s.emitted;
        ending = s.ending;
        peer = peer_shown s.peer;
      };
      room = room_of s.peer;
    } };
}

/// What stands for an address that is not known.
const NO_ADDRESS: Addr = Addr { ip: 0, port: 0 };

impl Slot {
    /// A slot that held no peer yet.
    pub(crate) fn unused() -> Slot
        ensures { result.slot ≡ unused_slot }
    {
        Slot {
            generation: 0,
            address: NO_ADDRESS,
            incoming_session: 0xFF,
            outgoing_session: 0xFF,
            emitted: 0,
            ending: None,
            peer: None,
        }
    }

    /// The generation of its peer; of a free slot that of its next peer.
    pub fn generation(&self) -> u32
        ensures { result ≡ self.now.slot.generation }
    {
        self.generation
    }

    /// Where its peer is, or the last one that it held.
    pub fn address(&self) -> Addr
        ensures { result ≡ self.now.slot.address }
    {
        self.address
    }

    /// Why the connection of the peer that had this generation ended: of its peer, if that has the generation, else of the last one that
    /// left it, if that had it. None if neither has, if the connection hasn't ended, or ended without a Disconnect event.
    pub fn ending_of(&self, generation: u32) -> Option<Ending>
        ensures { result ≡ ending_of self.now.slot generation }
    {
        if self.generation == generation {
            return self.peer()?.ending();
        }
        if self.generation > generation && self.generation - generation == 1 {
            self.ending
        } else {
            None
        }
    }

    /// Its peer; None where it is free.
    pub fn peer(&self) -> Option<&Peer>
        ensures { peer_shown (option_copied result) ≡ self.now.slot.peer }
    {
        match &self.peer {
            Some(peer) => Some(peer),
            None => None,
        }
    }

    /// Whether it is free.
    pub fn is_vacant(&self) -> bool
        ensures { result ≡ is_vacant self.now.slot.peer }
    {
        self.peer.is_none()
    }

    /// Whether it is free and has a generation left of so many.
    pub fn is_available(&self, generations: u32) -> bool
        ensures { result ≡ is_available generations self.now.slot }
    {
        self.is_vacant() && self.generation < generations
    }

    /// Frees the slot where its peer is free. It keeps the sessions of the connection that it had, and its next peer has the
    /// next generation.
    pub(crate) fn let_go(&mut self)
        ensures { self.new.slot ≡ changed (λ p. p) self.old.slot }
    {
        let Some(peer) = &self.peer else {
            return;
        };
        if peer.state() != PeerState::Free {
            return;
        }
        let (terms, ending) = (peer.terms(), peer.ending());
        self.vacate(terms.incoming_session, terms.outgoing_session, ending);
    }

    /// From now on it is free, after a connection that had these sessions and ended so. It stays a function of its own: where it is part of
    /// those that are called for each packet, each call of them clears room for a peer.
    #[inline(never)]
    fn vacate(&mut self, incoming_session: u8, outgoing_session: u8, ending: Option<Ending>)
        ensures { self.new.slot ≡ record self.old.slot {
          generation = min (self.old.slot.generation + 1) greatest;
          incoming_session = incoming_session;
          outgoing_session = outgoing_session;
          ending = ending;
          peer = None;
        } }
    {
        self.generation = self.generation.saturating_add(1);
        self.incoming_session = incoming_session;
        self.outgoing_session = outgoing_session;
        self.ending = ending;
        self.hold(None);
    }

    /// From now on it holds this peer, or none.
    pub(crate) fn hold(&mut self, peer: Option<Peer>)
        ensures { self.new.slot ≡ record self.old.slot { peer = peer_shown peer } }
    {
        self.peer = peer;
    }
}
