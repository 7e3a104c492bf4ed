//! What a slot's peer tells the user.

ghost use Rattle.std.specs.Prelude.{◌≡◌, false, IfSome, IfNone};
ghost use Rattle.std.specs.Option.{option_copied};
ghost use Rattle.enet_slot.specs.Calls.{tells, event_of, peer_packet, GivesEvent};

use crate::Slot;
use enet_codec::{Event, Packet, PeerRef};
use enet_peer::PeerEvent;

/// An event of a peer, as the host tells it.
fn event_of(peer: PeerRef, event: PeerEvent) -> Event
    ensures { result ≡ event_of peer event }
{
    match event {
        PeerEvent::Connect { info } => Event::Connect { peer, info },
        PeerEvent::Receive { packet } => Event::Receive { peer, packet },
        PeerEvent::Disconnect { info } => Event::Disconnect { peer, info },
    }
}

impl Slot {
    /// Whether its peer has an event.
    pub fn tells(&self) -> bool
        ensures { result ≡ tells self.now.slot }
    {
        match &self.peer {
            Some(peer) => peer.has_event(),
            None => false,
        }
    }

    /// The next event of the peer of the slot of this number, as its host tells it. None, with nothing changed, where there is
    /// none. It takes no memory.
    pub fn take(&mut self, number: u16) -> Option<Event>
        ensures gives { IfSome result (λ event. GivesEvent number event self.old.slot self.new.slot) }
        ensures none { IfNone result ((tells self.old.slot ≡ false) × (self.new.slot ≡ self.old.slot)) }
    {
        let name = PeerRef {
            slot: number,
            generation: self.generation,
        };
        let Some(peer) = &mut self.peer else {
            return None;
        };
        let Some(event) = peer.next_event() else {
            return None;
        };
        self.let_go();
        Some(event_of(name, event))
    }

    /// The packet that its peer's next event hands out; None where that is no packet.
    pub fn next_packet(&self) -> Option<&Packet>
        ensures { option_copied result ≡ peer_packet self.now.slot.peer }
    {
        match &self.peer {
            Some(peer) => peer.next_packet(),
            None => None,
        }
    }
}
