//! A generator, and what is drawn of it.

ghost use Rattle.std.specs.Prelude.{◌<◌, ◌≤◌};

use crate::peers::Peers;
use crate::setting::Setting;
use bytes::Bytes;
use enet_codec::{DisconnectMode, Packet, PeerRef};
use rand_core::{Rng, SeedableRng};
use rand_pcg::Pcg32;
use std::alloc::{AllocError, Global};

/// How many channels a connection has at most.
pub const CHANNELS: u8 = 3;

/// What a datagram needs in bytes beside a piece of a packet.
const OVERHEAD: u32 = 28;

/// The flags that are drawn: RELIABLE 1, UNSEQUENCED 2, UNRELIABLE_FRAGMENT 8.
const FLAGS: [u8; 8] = [1, 1, 1, 0, 0, 2, 8, 11];

/// How far the datagrams have come that a host put out to another, numbered from 0.
#[derive(Clone, Copy)]
pub struct Way {
    /// How many were put out.
    pub sent: u64,
    /// The first after all those that came.
    pub first: u64,
}

impl Way {
    /// None was put out.
    pub fn nothing() -> Way {
        Way { sent: 0, first: 0 }
    }

    /// Datagram `number` comes, if it was put out.
    pub fn comes(&mut self, number: u64) {
        if number < self.sent {
            self.first = self.first.max(number.saturating_add(1));
        }
    }
}

/// A generator, and how many packets were drawn of the list that is being drawn.
#[derive(Drop)]
pub struct Draw {
    generator: Pcg32,
    packets: u8,
}

impl Draw {
    /// The draws that begin at a seed.
    pub fn new(seed: u64) -> Draw {
        Draw {
            generator: Pcg32::seed_from_u64(seed),
            packets: 0,
        }
    }

    /// A number of 32 bits.
    pub fn word(&mut self) -> u32 {
        self.generator.next_u32()
    }

    /// A number below a bound.
    pub fn below(&mut self, bound: u32) -> u32
        requires { 0 < bound }
        ensures { result < bound }
    {
        self.generator.next_u32() % bound
    }

    /// What the hosts of the next list have in common.
    pub fn setting(&mut self) -> Setting {
        self.packets = 0;
        let channels = self.channels();
        let mtu = self.mtu();
        let outgoing = if self.below(4) == 0 { 65536 } else { 0 };
        let max_waiting = if self.below(4) == 0 { 3000 } else { 33_554_432 };
        Setting {
            channels,
            mtu,
            outgoing,
            max_waiting,
            clock: self.generator.next_u32(),
        }
    }

    fn mtu(&mut self) -> u32
        ensures least { 576 ≤ result }
        ensures most { result ≤ 4096 }
    {
        match self.below(4) {
            0 => 1392,
            1 => 600,
            _ => 576,
        }
    }

    /// How many channels a connection has.
    pub(crate) fn channels(&mut self) -> u8 {
        (1 + self.below(u32::from(CHANNELS))) as u8
    }

    /// How a connection ends.
    pub(crate) fn mode(&mut self) -> DisconnectMode {
        match self.below(3) {
            0 => DisconnectMode::Now,
            1 => DisconnectMode::Ask,
            _ => DisconnectMode::Later,
        }
    }

    /// A peer of a host with so many slots: mostly the one that connected last, else the last of a slot or the one before. There
    /// may be none of that name.
    pub(crate) fn peer(&mut self, peers: Peers, slots: u16) -> PeerRef {
        match self.below(16) {
            0..10 => peers.connected,
            10..15 => peers.last_peer(self.below(u32::from(slots.max(1))) as u16),
            _ => PeerRef {
                generation: peers.connected.generation.saturating_sub(1),
                ..peers.connected
            },
        }
    }

    /// A datagram that comes: mostly the first after all those that came, else the one after that, one of the last four, or any. It
    /// may be one that wasn't put out. None where the draw is for one that is on its way, and none is.
    pub(crate) fn number(&mut self, way: Way) -> Option<u64> {
        match self.below(16) {
            0 => Some(self.back(way.sent, 1000)),
            1 => Some(self.back(way.sent, 4)),
            2 => Some(way.first.saturating_add(1)),
            _ if way.first < way.sent => Some(way.first),
            _ => None,
        }
    }

    /// The number of one of the last few of so many datagrams.
    pub fn back(&mut self, sent: u64, few: u64) -> u64 {
        let among = sent.min(few).clamp(1, 1000) as u32;
        let back = self.below(among);
        sent.saturating_sub(1).saturating_sub(u64::from(back))
    }

    /// A packet for a connection of a list.
    pub(crate) fn packet(&mut self, alloc: Global, setting: Setting) -> Result<Packet, AllocError> {
        let channel = (self.below(255) % u32::from(setting.channels.max(1))) as u8;
        let flags = FLAGS[self.below(8) as usize];
        let len = self.length(setting.mtu - OVERHEAD);
        self.packets = self.packets.wrapping_add(1);
        Ok(Packet {
            channel,
            flags,
            body: body(alloc, self.packets, len)?,
        })
    }

    /// The length of a body, where a piece has so many bytes: empty, short, just cut or not, or cut into two to four pieces.
    fn length(&mut self, piece: u32) -> u32
        requires least { 0 < piece }
        requires most { piece ≤ 4096 }
    {
        match self.below(8) {
            0 => 0,
            1 => 1 + self.below(3),
            2..6 => 4 + self.below(60),
            6 => piece + self.below(2),
            _ => piece + 1 + self.below(3 * piece),
        }
    }
}

/// A body whose bytes count up from `first`. Two of one list that aren't empty differ in their first byte.
fn body(alloc: Global, first: u8, len: u32) -> Result<Bytes, AllocError> {
    let mut bytes = Vec::with_capacity(alloc, len as usize)?;
    let mut next = first;
    for _ in 0..len {
        bytes.push(next)?;
        next = next.wrapping_add(1);
    }
    Ok(Bytes::from_vec(bytes)?)
}
