//! What the hosts of a list have in common.

ghost use Rattle.std.specs.Prelude.{◌≤◌};

use enet_codec::Config;

/// What the hosts of a list have in common.
#[derive(Clone, Copy)]
pub struct Setting {
    /// How many channels a host grants.
    pub channels: u8,
    /// Bytes of a datagram, at most.
    pub mtu: u32,
    /// Bytes per second that each host sends; 0 says that there is no limit.
    pub outgoing: u32,
    /// Bytes of a peer's packets at which no further packet begins.
    pub max_waiting: u32,
    /// The clock at the beginning, in milliseconds.
    pub clock: u32,
    ghost least: { 576 ≤ mtu },
    ghost most: { mtu ≤ 4096 },
}

impl Setting {
    /// The settings of a host with so many slots.
    pub fn config(&self, peers: u16) -> Config {
        Config {
            mtu: self.mtu,
            outgoing: self.outgoing,
            max_waiting: self.max_waiting,
            clock: self.clock,
            ..Config::standard(peers, self.channels)
        }
    }
}
