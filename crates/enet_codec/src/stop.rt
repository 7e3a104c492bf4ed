//! Why a datagram wasn't looked at to its end.

ghost use Rattle.std.specs.Prelude.{◌≡◌};
ghost use Rattle.enet_codec.specs.Stop.{stop_label, stop_number};

use thiserror::Error;

/// Why the rest of a datagram was not looked at. The commands before it stand; the stopped one has no effect, save by
/// `NoSentTime`.
#[derive(Clone, Copy, Debug, PartialEq, Eq, Error)]
pub enum Stop {
    /// The header is cut short.
    #[error("S1 Short")]
    Short,
    /// The datagram is compressed.
    #[error("S2 Compressed")]
    Compressed,
    /// The slot is out of range or holds no peer that listens, or the datagram names no peer and isn't one CONNECT alone.
    #[error("S3 UnknownPeer")]
    UnknownPeer,
    /// It didn't come from the peer's address.
    #[error("S4 WrongAddress")]
    WrongAddress,
    /// The session isn't the peer's.
    #[error("S5 WrongSession")]
    WrongSession,
    /// The command is cut short, unknown, or a CONNECT that isn't allowed there.
    #[error("S6 BadCommand")]
    BadCommand,
    /// The peer's state doesn't allow the command.
    #[error("S7 NotConnected")]
    NotConnected,
    /// A data command's channel isn't below the channel count, or the channel count of CONNECT isn't 1 to 255.
    #[error("S8 BadChannel")]
    BadChannel,
    /// The fields of a fragment don't fit together or to its packet, or a payload is above the maximum packet size.
    #[error("S9 BadFragment")]
    BadFragment,
    /// The command begins a packet while the bytes or the packets that wait are at their limit, or it asks for an acknowledgement while
    /// 8,192 of them wait to go.
    #[error("S10 Waiting")]
    Waiting,
    /// There is no memory for the command (our profile).
    #[error("S11 Memory")]
    Memory,
    /// The command took effect and asks for an acknowledgement, but the datagram doesn't tell its time (our profile).
    #[error("S12 NoSentTime")]
    NoSentTime,
    /// There is no free slot for a CONNECT.
    #[error("S13 NoSlot")]
    NoSlot,
}

impl Stop {
    /// Its number: 1 to 13.
    pub fn number(&self) -> u8
        ensures { result ≡ stop_number self.now }
    {
        match self {
            Stop::Short => 1,
            Stop::Compressed => 2,
            Stop::UnknownPeer => 3,
            Stop::WrongAddress => 4,
            Stop::WrongSession => 5,
            Stop::BadCommand => 6,
            Stop::NotConnected => 7,
            Stop::BadChannel => 8,
            Stop::BadFragment => 9,
            Stop::Waiting => 10,
            Stop::Memory => 11,
            Stop::NoSentTime => 12,
            Stop::NoSlot => 13,
        }
    }

    /// Its number and its name, as `S6 BadCommand`.
    pub fn label(&self) -> &'static str
        ensures { result.now ≡ stop_label self.now }
    {
        match self {
            Stop::Short => "S1 Short",
            Stop::Compressed => "S2 Compressed",
            Stop::UnknownPeer => "S3 UnknownPeer",
            Stop::WrongAddress => "S4 WrongAddress",
            Stop::WrongSession => "S5 WrongSession",
            Stop::BadCommand => "S6 BadCommand",
            Stop::NotConnected => "S7 NotConnected",
            Stop::BadChannel => "S8 BadChannel",
            Stop::BadFragment => "S9 BadFragment",
            Stop::Waiting => "S10 Waiting",
            Stop::Memory => "S11 Memory",
            Stop::NoSentTime => "S12 NoSentTime",
            Stop::NoSlot => "S13 NoSlot",
        }
    }
}
