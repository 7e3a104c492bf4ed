//! What a host does, or what comes to it.

use crate::draw::{Draw, Way};
use crate::peers::Peers;
use crate::setting::Setting;
use enet_codec::{DisconnectMode, Packet, PeerRef};
use std::alloc::{AllocError, Global};

/// What is known of a host.
#[derive(Clone, Copy)]
pub struct Known {
    /// Its peers, by what it told.
    pub peers: Peers,
    /// From how many slots its peers are drawn.
    pub slots: u16,
    /// The datagrams that come to it.
    pub way: Way,
}

/// What a host does, or what comes to it.
#[derive(Drop)]
pub enum Doing {
    /// Its user asks for a connection with so many channels, with a connect id.
    Connect { channels: u8, word: u32 },
    /// Its user submits a packet to a peer.
    Submit { peer: PeerRef, packet: Packet },
    /// A datagram of its way comes.
    Deliver { number: u64 },
    /// Its clock goes on by so many milliseconds.
    Tick { ms: u32 },
    /// Its user takes an event.
    Take,
    /// It may put out a datagram.
    Turn,
    /// Its user ends a connection.
    Disconnect { peer: PeerRef, how: DisconnectMode },
}

impl Draw {
    /// What a host of which so much is known connects with.
    pub fn connecting(&mut self) -> Doing {
        let channels = self.channels();
        let word = self.word();
        Doing::Connect { channels, word }
    }

    /// What a host does, of which so much is known, or what comes to it. Once a list is calm it connects, disconnects and submits
    /// nothing more.
    pub fn doing(
        &mut self,
        alloc: Global,
        setting: Setting,
        known: Known,
        is_calm: bool,
    ) -> Result<Doing, AllocError> {
        match self.below(512) {
            0..6 if !is_calm => Ok(self.connecting()),
            6..10 if !is_calm => {
                let peer = self.peer(known.peers, known.slots);
                let how = self.mode();
                Ok(Doing::Disconnect { peer, how })
            }
            10..140 if !is_calm => self.submitting(alloc, setting, known),
            140..300 => Ok(self.delivering(known.way)),
            300..315 => {
                let ms = self.below(2001);
                Ok(Doing::Tick { ms })
            }
            315..415 => Ok(Doing::Take),
            _ => Ok(Doing::Turn),
        }
    }

    /// A packet is submitted. Where no peer stands the host mostly has its turn instead.
    fn submitting(
        &mut self,
        alloc: Global,
        setting: Setting,
        known: Known,
    ) -> Result<Doing, AllocError> {
        if !known.peers.stands && self.below(8) != 0 {
            return Ok(Doing::Turn);
        }
        let peer = self.peer(known.peers, known.slots);
        let packet = self.packet(alloc, setting)?;
        Ok(Doing::Submit { peer, packet })
    }

    /// A datagram comes. Where none is on its way the host mostly has its turn instead.
    fn delivering(&mut self, way: Way) -> Doing {
        match self.number(way) {
            Some(number) => Doing::Deliver { number },
            None => Doing::Turn,
        }
    }
}
