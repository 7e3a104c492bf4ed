//! What a command says, as far as it is drawn.

ghost use Rattle.std.specs.Prelude.{◌≡◌};
ghost use Rattle.enet_codec.specs.Message.{view};
ghost use Rattle.enet_captured.specs.Commands.{name_of, number_of, same_kind};
ghost use Rattle.enet_captured.specs.Private.Commands.{told_of};

use enet_codec::{Command, Fragment};

/// The twelve commands of ENet 1.3.
#[derive(Clone, Copy)]
pub enum Kind {
    Acknowledge,
    Connect,
    VerifyConnect,
    Disconnect,
    Ping,
    SendReliable,
    SendUnreliable,
    SendFragment,
    SendUnsequenced,
    BandwidthLimit,
    ThrottleConfigure,
    SendUnreliableFragment,
}

/// What a command has beside its number.
#[derive(Clone, Copy)]
pub enum Detail {
    Nothing,
    /// The reliable number that is acknowledged, and the sent time of the datagram that had it.
    Received { number: u16, time: u16 },
    /// The connect id that is offered.
    Offered(u32),
    /// Its place among the unreliable packets of a reliable number.
    Unreliable(u16),
    /// Its number among the unsequenced packets.
    Group(u16),
    /// Which fragment of how many, counted from 0.
    Piece { number: u32, count: u32 },
}

/// A command.
#[derive(Clone, Copy)]
pub struct Told {
    pub kind: Kind,
    pub channel: u8,
    /// The reliable number of its head.
    pub number: u16,
    /// Whether it asks for an acknowledgement.
    pub asks: bool,
    pub detail: Detail,
    /// How many bytes of a packet it carries.
    pub len: usize,
}

impl Kind {
    /// The name that ENet 1.3 gives it.
    pub fn name(self) -> &'static str
        ensures { result.now ≡ name_of self }
    {
        match self {
            Kind::Acknowledge => "ACKNOWLEDGE",
            Kind::Connect => "CONNECT",
            Kind::VerifyConnect => "VERIFY_CONNECT",
            Kind::Disconnect => "DISCONNECT",
            Kind::Ping => "PING",
            Kind::SendReliable => "SEND_RELIABLE",
            Kind::SendUnreliable => "SEND_UNRELIABLE",
            Kind::SendFragment => "SEND_FRAGMENT",
            Kind::SendUnsequenced => "SEND_UNSEQUENCED",
            Kind::BandwidthLimit => "BANDWIDTH_LIMIT",
            Kind::ThrottleConfigure => "THROTTLE_CONFIGURE",
            Kind::SendUnreliableFragment => "SEND_UNRELIABLE_FRAGMENT",
        }
    }
}

impl Kind {
    /// Whether two kinds are one.
    pub fn is(self, other: Kind) -> bool
        ensures { result ≡ same_kind self other }
    {
        self.number() == other.number()
    }

    /// Its number on the wire.
    pub fn number(self) -> u8
        ensures { result ≡ number_of self }
    {
        match self {
            Kind::Acknowledge => 1,
            Kind::Connect => 2,
            Kind::VerifyConnect => 3,
            Kind::Disconnect => 4,
            Kind::Ping => 5,
            Kind::SendReliable => 6,
            Kind::SendUnreliable => 7,
            Kind::SendFragment => 8,
            Kind::SendUnsequenced => 9,
            Kind::BandwidthLimit => 10,
            Kind::ThrottleConfigure => 11,
            Kind::SendUnreliableFragment => 12,
        }
    }
}

/// What is drawn of a command.
pub(crate) fn told_of(command: &Command<'_>) -> Told
    ensures { result ≡ told_of (view command.now) }
{
    let (kind, head, detail, len) = match *command {
        Command::Acknowledge {
            head,
            received_number,
            received_time,
        } => (
            Kind::Acknowledge,
            head,
            Detail::Received {
                number: received_number,
                time: received_time,
            },
            0,
        ),
        Command::Connect { head, offer } => (
            Kind::Connect,
            head,
            Detail::Offered(offer.connect_id),
            0,
        ),
        Command::VerifyConnect { head, .. } => (Kind::VerifyConnect, head, Detail::Nothing, 0),
        Command::Disconnect { head, .. } => (Kind::Disconnect, head, Detail::Nothing, 0),
        Command::Ping { head } => (Kind::Ping, head, Detail::Nothing, 0),
        Command::SendReliable { head, payload } => (
            Kind::SendReliable,
            head,
            Detail::Nothing,
            payload.len(),
        ),
        Command::SendUnreliable {
            head,
            unreliable,
            payload,
        } => (
            Kind::SendUnreliable,
            head,
            Detail::Unreliable(unreliable),
            payload.len(),
        ),
        Command::SendFragment {
            head,
            fragment,
            payload,
        } => (Kind::SendFragment, head, piece_of(fragment), payload.len()),
        Command::SendUnsequenced {
            head,
            group,
            payload,
        } => (
            Kind::SendUnsequenced,
            head,
            Detail::Group(group),
            payload.len(),
        ),
        Command::BandwidthLimit { head, .. } => (Kind::BandwidthLimit, head, Detail::Nothing, 0),
        Command::ThrottleConfigure { head, .. } => (
            Kind::ThrottleConfigure,
            head,
            Detail::Nothing,
            0,
        ),
        Command::SendUnreliableFragment {
            head,
            fragment,
            payload,
        } => (
            Kind::SendUnreliableFragment,
            head,
            piece_of(fragment),
            payload.len(),
        ),
    };
    Told {
        kind,
        channel: head.channel,
        number: head.number,
        asks: head.acknowledge,
        detail,
        len,
    }
}

// Which fragment it is.
fn piece_of(fragment: Fragment) -> Detail
    ensures { result ≡ Detail.Piece fragment.number fragment.count }
{
    Detail::Piece {
        number: fragment.number,
        count: fragment.count,
    }
}
