//! What users submit and receive.

ghost use Rattle.std.specs.Prelude.{◌≡◌, ◌↔◌, IsTrue, length};
ghost use Rattle.enet_codec.specs.Packet.{IsSamePacket};

use bytes::Bytes;

/// In the flags of a packet: it is carried reliably.
pub const RELIABLE: u8 = 1;

/// In the flags of a packet: it is carried in no order.
pub const UNSEQUENCED: u8 = 2;

/// In the flags of a packet: where it is too long for one datagram its fragments are carried unreliably.
pub const UNRELIABLE_FRAGMENT: u8 = 8;

/// A packet: what a user submits and what the other end's user receives.
#[derive(Debug, Drop)]
pub struct Packet {
    /// Its channel: 0 to 254.
    pub channel: u8,
    /// How it is to be carried: [`RELIABLE`], [`UNSEQUENCED`], [`UNRELIABLE_FRAGMENT`], other bits ignored (our profile). On a
    /// received packet how it was carried: 1 by command 6 or 8, 0 by command 7, 2 by command 9, 8 by command 12.
    pub flags: u8,
    /// Its bytes.
    pub body: Bytes,
}

impl Packet {
    /// How many bytes it has.
    pub fn len(&self) -> usize
        ensures { result ≡ length self.now.body }
    {
        self.body.len()
    }

    /// It has no bytes. Such a packet is sent and received like any other.
    pub fn is_empty(&self) -> bool
        ensures { IsTrue result ↔ (length self.now.body ≡ 0) }
    {
        self.body.is_empty()
    }

    /// Channel and bytes are the same. Flags don't count, since those of a received packet tell how it was carried.
    pub fn is_same(&self, other: &Packet) -> bool
        ensures { IsTrue result ↔ IsSamePacket self.now other.now }
    {
        self.channel == other.channel && self.body == other.body
    }
}
