//! What a peer tells its user.

ghost use Rattle.std.specs.Prelude.{◌≡◌};
ghost use Rattle.std.specs.Option.{option_copied};
ghost use Rattle.enet_peer.specs.Calls.{next_event, next_body, Takes};
ghost use Rattle.enet_peer.specs.Next.{next_packet};

use crate::{Peer, PeerEvent, PeerState};
use bytes::Bytes;
use enet_codec::Packet;

impl Peer {
    /// The next event: Connect first, then the packets in the order of dispatch, then Disconnect, with which the peer is free.
    /// None, with nothing changed, where there is none. It takes no memory.
    pub fn next_event(&mut self) -> Option<PeerEvent>
        ensures { Takes result (next_event self.old.peer) self.old.peer self.new.peer }
    {
        if let Some(info) = self.greeting {
            self.greeting = None;
            return Some(PeerEvent::Connect { info });
        }
        if let Some(packet) = self.inbox.take() {
            return Some(PeerEvent::Receive { packet });
        }
        if let PeerState::Ended = self.state {
            self.state = PeerState::Free;
            return Some(PeerEvent::Disconnect { info: self.info });
        }
        None
    }

    /// The body of the packet that the next event hands out; None where that is no packet.
    pub fn next_body(&self) -> Option<&Bytes>
        ensures { option_copied result ≡ next_body self.now.peer }
    {
        if self.greeting.is_some() {
            return None;
        }
        let packet = self.inbox.next()?;
        Some(&packet.body)
    }

    /// The packet that the next event hands out; None where that is no packet.
    pub fn next_packet(&self) -> Option<&Packet>
        ensures { option_copied result ≡ next_packet self.now.peer }
    {
        if self.greeting.is_some() {
            return None;
        }
        self.inbox.next()
    }
}
