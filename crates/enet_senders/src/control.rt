//! The commands of channel 0xFF.

ghost use Rattle.std.specs.Prelude.{◌≡◌, []};
ghost use Rattle.enet_codec.specs.Message.{view, payload_of};
ghost use Rattle.enet_senders.specs.Controlling.{is_reliable, message_of, went_at};

use enet_codec::{CONTROL_CHANNEL, Command, Head, Offer, Verify};
use enet_rtt::{SendTimes, Transmission};

/// What one end tells the other of the connection itself.
#[derive(Clone, Copy)]
pub enum Control {
    /// A client asks for a connection.
    Connect(Offer),
    /// A server answers that.
    VerifyConnect(Verify),
    /// The end of the connection, with a word for the other end's user.
    Disconnect {
        info: u32,
    },
    /// The same, unsequenced: it goes once, and nobody acknowledges it.
    DisconnectNow {
        info: u32,
    },
    /// Asks for nothing but its acknowledgement.
    Ping,
    /// The sender's bandwidths, in bytes per second; 0 says that no limit is known.
    BandwidthLimit {
        incoming: u32,
        outgoing: u32,
    },
    /// The throttle's interval in milliseconds, and by how much it rises and falls in one move, of 32.
    ThrottleConfigure {
        interval: u32,
        acceleration: u32,
        deceleration: u32,
    },
}

/// A command with its number.
#[derive(Clone, Copy)]
pub struct Numbered {
    /// Its number on channel 0xFF, modulo 65536.
    pub number: u16,
    /// What it tells.
    pub control: Control,
}

/// A command that was sent and is not acknowledged yet.
#[derive(Clone, Copy)]
pub struct SentControl {
    /// The command, which keeps its number however often it is sent.
    pub command: Numbered,
    /// How it was sent so far.
    pub transmission: Transmission,
    /// When it was sent.
    pub times: SendTimes,
}

impl Control {
    /// Whether it is acknowledged; the other ones go unsequenced.
    pub(crate) fn is_reliable(&self) -> bool
        ensures { result ≡ is_reliable self.now }
    {
        match self {
            Control::DisconnectNow { .. } => false,
            Control::Connect(_)
            | Control::VerifyConnect(_)
            | Control::Disconnect { .. }
            | Control::Ping
            | Control::BandwidthLimit { .. }
            | Control::ThrottleConfigure { .. } => true,
        }
    }
}

impl SentControl {
    /// Whether it was sent at this time of 16 bits, as an acknowledgement repeats one. Of VERIFY_CONNECT each send counts by itself (our
    /// profile).
    pub(crate) fn went_at(&self, time: u16) -> bool
        ensures { result ≡ went_at time self.now }
    {
        match self.command.control {
            Control::VerifyConnect(_) => self.times.contains(time),
            Control::Connect(_)
            | Control::Disconnect { .. }
            | Control::DisconnectNow { .. }
            | Control::Ping
            | Control::BandwidthLimit { .. }
            | Control::ThrottleConfigure { .. } => self.transmission.went_at(time),
        }
    }
}

impl Numbered {
    /// The command on the wire, on channel 0xFF (ENet 1.3).
    pub(crate) fn command(&self) -> Command<'_>
        ensures message { view result ≡ message_of self.now }
        ensures payload { payload_of (message_of self.now).body ≡ [] }
    {
        let is_reliable = self.control.is_reliable();
        let head = Head {
            acknowledge: is_reliable,
            unsequenced: !is_reliable,
            channel: CONTROL_CHANNEL,
            number: self.number,
        };
        match self.control {
            Control::Connect(offer) => Command::Connect { head, offer },
            Control::VerifyConnect(verify) => Command::VerifyConnect { head, verify },
            Control::Disconnect { info } => Command::Disconnect { head, info },
            Control::DisconnectNow { info } => Command::Disconnect { head, info },
            Control::Ping => Command::Ping { head },
            Control::BandwidthLimit { incoming, outgoing } => Command::BandwidthLimit {
                head,
                incoming,
                outgoing,
            },
            Control::ThrottleConfigure {
                interval,
                acceleration,
                deceleration,
            } => Command::ThrottleConfigure {
                head,
                interval,
                acceleration,
                deceleration,
            },
        }
    }
}
