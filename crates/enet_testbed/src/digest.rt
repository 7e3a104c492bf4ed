//! What a run came to, in 64 bits.

use enet_codec::{Addr, Event, PeerRef, Received};
use std::io::{Result, Write};

const ODD: u64 = 0x9e37_79b9_7f4a_7c15;

/// A digest of numbers and bytes, in their order. It also takes what is written to it.
#[derive(Clone, Copy, Drop)]
pub struct Digest {
    state: u64,
}

impl Digest {
    /// Of nothing.
    pub fn new() -> Digest {
        Digest { state: 0 }
    }

    /// What it came to.
    pub fn value(self) -> u64 {
        self.state
    }

    /// A number comes.
    pub fn number(&mut self, number: u64) {
        self.state = mixed(self.state, number);
    }

    /// Bytes come: 32 at a time, in four lanes, and then the rest.
    pub fn bytes(&mut self, bytes: &[u8]) {
        self.number(bytes.len() as u64);
        let mut lanes = Lanes {
            first: 0,
            second: 1,
            third: 2,
            fourth: 3,
        };
        let (blocks, rest) = bytes.as_chunks::<32>();
        for block in blocks {
            lanes = lanes.mixed(block);
        }
        self.number(lanes.first);
        self.number(lanes.second);
        self.number(lanes.third);
        self.number(lanes.fourth);
        self.words(rest);
    }

    // A few bytes come: eight at a time, and the last ones alone.
    fn words(&mut self, bytes: &[u8]) {
        let (words, rest) = bytes.as_chunks::<8>();
        for word in words {
            self.number(u64::from_le_bytes(*word));
        }
        let mut last = 0;
        for byte in rest {
            last = (last << 8) | u64::from(*byte);
        }
        self.number(last);
    }

    /// A host's answer to a datagram comes.
    pub fn received(&mut self, received: Received) {
        self.number(u64::from(received.handled));
        self.number(match received.stop {
            Some(stop) => u64::from(stop.number()),
            None => 0,
        });
    }

    /// A datagram that a host puts out comes, whole.
    pub fn sent(&mut self, to: Addr, bytes: &[u8]) {
        self.number(u64::from(to.ip));
        self.number(u64::from(to.port));
        self.bytes(bytes);
    }

    /// An event comes, of its kind.
    pub fn event(&mut self, event: &Event) {
        match event {
            Event::Connect { peer, info } => {
                self.number(1);
                self.peer(*peer);
                self.number(u64::from(*info));
            }
            Event::Receive { peer, packet } => {
                self.number(2);
                self.peer(*peer);
                self.number(u64::from(packet.channel));
                self.number(u64::from(packet.flags));
                self.bytes(packet.body.as_slice());
            }
            Event::Disconnect { peer, info } => {
                self.number(3);
                self.peer(*peer);
                self.number(u64::from(*info));
            }
            Event::Refused { seat, number, why } => {
                self.number(4);
                self.number(u64::from(*seat));
                self.number(u64::from(*number));
                self.bytes(why.label().as_bytes());
            }
        }
    }

    fn peer(&mut self, peer: PeerRef) {
        self.number(u64::from(peer.slot));
        self.number(u64::from(peer.generation));
    }
}

impl Write for Digest {
    fn write(&mut self, buf: &[u8]) -> Result<usize> {
        self.bytes(buf);
        Ok(buf.len())
    }

    fn flush(&mut self) -> Result<()> {
        Ok(())
    }
}

fn mixed(state: u64, number: u64) -> u64 {
    (state ^ number).rotate_left(23).wrapping_mul(ODD)
}

/// Four digests side by side.
#[derive(Clone, Copy)]
struct Lanes {
    first: u64,
    second: u64,
    third: u64,
    fourth: u64,
}

impl Lanes {
    // 32 bytes go in.
    fn mixed(self, block: &[u8; 32]) -> Lanes {
        let (words, _) = block.as_chunks::<8>();
        let [first, second, third, fourth] = words else {
            return self;
        };
        Lanes {
            first: mixed(self.first, u64::from_le_bytes(*first)),
            second: mixed(self.second, u64::from_le_bytes(*second)),
            third: mixed(self.third, u64::from_le_bytes(*third)),
            fourth: mixed(self.fourth, u64::from_le_bytes(*fourth)),
        }
    }
}
