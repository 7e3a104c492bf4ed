//! One packet on its way to the user.

ghost use Rattle.std.specs.Prelude.{◌≡◌, IsTrue};
ghost use Rattle.enet_fragment.specs.Whole.{is_whole};

use bytes::Bytes;
use enet_fragment::PartialPacket;

/// A packet that came or is coming.
#[derive(Drop)]
pub struct IncomingPacket {
    /// How it is carried: 1 reliable, 0 unreliable, 8 in unreliable fragments.
    pub flags: u8,
    /// Its pieces that came.
    pub making: PartialPacket,
}

/// A packet as it is handed out.
#[derive(Drop)]
pub struct Dispatched {
    /// How it was carried: 1 reliable, 0 unreliable, 8 in unreliable fragments.
    pub flags: u8,
    /// Its bytes.
    pub body: Bytes,
}

impl IncomingPacket {
    ghost use Rattle.enet_packets.specs.Packets.{handed_out};

    /// The packet as it is handed out. It takes no memory.
    pub fn handed_out(self) -> Dispatched
        requires { IsTrue (is_whole self.making) }
        ensures { result ≡ handed_out self }
    {
        let IncomingPacket { flags, making } = self;
        Dispatched {
            flags,
            body: making.into_body(),
        }
    }
}
