//! What a line makes happen at a host, of whichever kind of network it is.

ghost use Rattle.std.specs.Prelude.{◌≡◌};
ghost use Rattle.enet_lab.specs.EnetLines.{admit_at, send_limit_at, connect_at, submit_at, turn_at, tick_at, take_at, disconnect_at};

use crate::host::Host;
use crate::line::Line;
use bytes::Bytes;
use enet_codec::{Admission, DisconnectMode, PeerRef};
use enet_fleet::{FleetEvent, Node};
use law_network::WorldEvent;

impl Host {
    /// Its user asks for a connection; None for a server, which doesn't.
    pub(crate) fn connect(self, channels: u8, info: u32, word: u32) -> Option<Line>
        ensures { result ≡ connect_at self channels info word }
    {
        match self {
            Host::OfWorld(side) => Some(Line::InWorld(WorldEvent::Connect {
                side,
                channels,
                info,
                word,
            })),
            Host::OfFleet(Node::Server) => None,
            Host::OfFleet(Node::Client(client)) => Some(Line::InFleet(FleetEvent::Connect {
                client,
                channels,
                info,
                word,
            })),
        }
    }

    /// Its user submits a packet.
    pub(crate) fn submit(self, peer: PeerRef, channel: u8, flags: u8, body: Bytes) -> Line
        ensures { result ≡ submit_at self peer channel flags body }
    {
        match self {
            Host::OfWorld(side) => Line::InWorld(WorldEvent::Submit {
                side,
                peer,
                channel,
                flags,
                body,
            }),
            Host::OfFleet(node) => Line::InFleet(FleetEvent::Submit {
                node,
                peer,
                channel,
                flags,
                body,
            }),
        }
    }

    /// It may put out a datagram.
    pub(crate) fn turn(self) -> Line
        ensures { result ≡ turn_at self }
    {
        match self {
            Host::OfWorld(side) => Line::InWorld(WorldEvent::Turn { side }),
            Host::OfFleet(node) => Line::InFleet(FleetEvent::Turn { node }),
        }
    }

    /// Its clock goes on.
    pub(crate) fn tick(self, ms: u32) -> Line
        ensures { result ≡ tick_at self ms }
    {
        match self {
            Host::OfWorld(side) => Line::InWorld(WorldEvent::Tick { side, ms }),
            Host::OfFleet(node) => Line::InFleet(FleetEvent::Tick { node, ms }),
        }
    }

    /// Its user takes the next event.
    pub(crate) fn take(self) -> Line
        ensures { result ≡ take_at self }
    {
        match self {
            Host::OfWorld(side) => Line::InWorld(WorldEvent::Take { side }),
            Host::OfFleet(node) => Line::InFleet(FleetEvent::Take { node }),
        }
    }

    /// Its user sets whom it lets in.
    pub(crate) fn admit(self, what: Admission) -> Line
        ensures { result ≡ admit_at self what }
    {
        match self {
            Host::OfWorld(side) => Line::InWorld(WorldEvent::Admit { side, what }),
            Host::OfFleet(node) => Line::InFleet(FleetEvent::Admit { node, what }),
        }
    }

    /// Its user sets how much may be queued or unacknowledged for a peer when another packet is submitted to it.
    pub(crate) fn set_send_limit(self, bytes: u64, commands: u64) -> Line
        ensures { result ≡ send_limit_at self bytes commands }
    {
        match self {
            Host::OfWorld(side) => Line::InWorld(WorldEvent::SetSendLimit {
                side,
                bytes,
                commands,
            }),
            Host::OfFleet(node) => Line::InFleet(FleetEvent::SetSendLimit {
                node,
                bytes,
                commands,
            }),
        }
    }

    /// Its user ends a connection.
    pub(crate) fn disconnect(self, peer: PeerRef, how: DisconnectMode, info: u32) -> Line
        ensures { result ≡ disconnect_at self peer how info }
    {
        match self {
            Host::OfWorld(side) => Line::InWorld(WorldEvent::Disconnect {
                side,
                peer,
                how,
                info,
            }),
            Host::OfFleet(node) => Line::InFleet(FleetEvent::Disconnect {
                node,
                peer,
                how,
                info,
            }),
        }
    }
}
