//! Why a call was refused.

ghost use Rattle.std.specs.Prelude.{◌≡◌};
ghost use Rattle.enet_codec.specs.Refusal.{label_of};

use thiserror::Error;

/// Why a call was refused. A refused call has changed nothing, save by `WireFault`, whose report says what was done.
#[derive(Clone, Copy, Debug, PartialEq, Eq, Error)]
pub enum Refusal {
    /// A growth was refused: there is no memory for it. It comes last in every order of tests.
    #[error("E1 Memory")]
    Memory,
    /// The slot is out of range or free, or has another generation.
    #[error("E2 NoSuchPeer")]
    NoSuchPeer,
    /// The peer's state doesn't allow the call.
    #[error("E3 NotConnected")]
    NotConnected,
    /// The channel isn't below the peer's channel count.
    #[error("E4 NoSuchChannel")]
    NoSuchChannel,
    /// The packet is above the maximum packet size, or has more fragments than the limit.
    #[error("E5 TooLarge")]
    TooLarge,
    /// A number that no call answers: reliable numbers wrap.
    #[error("E6 WindowEnd")]
    WindowEnd,
    /// No free slot has a generation left.
    #[error("E7 NoSlot")]
    NoSlot,
    /// A number of a configuration is out of its range.
    #[error("E8 BadConfig")]
    BadConfig,
    /// The queue was full at some moment in the call.
    #[error("E9 Full")]
    Full,
    /// The seat or poster has used up its count.
    #[error("E10 SeatSpent")]
    SeatSpent,
    /// A world's or a fleet's: a command of the datagram is more than 32,768 numbers late.
    #[error("E11 Late")]
    Late,
    /// A world's or a fleet's: the datagram is of an earlier connection.
    #[error("E12 Earlier")]
    Earlier,
    /// A world's or a fleet's: no datagram has that number; in a fleet, none that went to that host.
    #[error("E13 NoSuchDatagram")]
    NoSuchDatagram,
    /// The wire failed during the call.
    #[error("E14 WireFault")]
    WireFault,
    /// This line of a script, counted from 1, can't be read.
    #[error("E15 BadScript line {0}")]
    BadScript(u32),
    /// The queue was settled before it was empty, or before each token came back.
    #[error("E16 StillHeld")]
    StillHeld,
    /// A fleet's: a host isn't there, or a stranger's address is a host's. It comes first in every order of tests.
    #[error("E17 NoSuchHost")]
    NoSuchHost,
}

impl Refusal {
    /// Its number and its name, as `E5 TooLarge`. Of `BadScript` the line is left out.
    pub fn label(&self) -> &'static str
        ensures { result.now ≡ label_of self.now }
    {
        match self {
            Refusal::Memory => "E1 Memory",
            Refusal::NoSuchPeer => "E2 NoSuchPeer",
            Refusal::NotConnected => "E3 NotConnected",
            Refusal::NoSuchChannel => "E4 NoSuchChannel",
            Refusal::TooLarge => "E5 TooLarge",
            Refusal::WindowEnd => "E6 WindowEnd",
            Refusal::NoSlot => "E7 NoSlot",
            Refusal::BadConfig => "E8 BadConfig",
            Refusal::Full => "E9 Full",
            Refusal::SeatSpent => "E10 SeatSpent",
            Refusal::Late => "E11 Late",
            Refusal::Earlier => "E12 Earlier",
            Refusal::NoSuchDatagram => "E13 NoSuchDatagram",
            Refusal::WireFault => "E14 WireFault",
            Refusal::BadScript(_) => "E15 BadScript",
            Refusal::StillHeld => "E16 StillHeld",
            Refusal::NoSuchHost => "E17 NoSuchHost",
        }
    }
}
