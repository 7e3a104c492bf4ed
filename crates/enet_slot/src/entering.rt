//! Which peers count as let in.

ghost use Rattle.std.specs.Prelude.{◌≡◌, ◌≤◌, length};
ghost use Rattle.enet_slot.specs.Entering.{awaits, entered, has_entered, is_past_answering};
ghost use Rattle.enet_slot.specs.Slotted.{all_shown};

use crate::Slot;
use enet_peer::PeerState;

/// Whether the client of a server's peer in this state confirmed.
fn is_past_answering(state: PeerState) -> bool
    ensures { result ≡ is_past_answering state }
{
    matches!(
        state,
        PeerState::Connected
            | PeerState::DisconnectLater
            | PeerState::Disconnecting
            | PeerState::AckDisconnect
            | PeerState::Ended
    )
}

impl Slot {
    /// Whether its peer began by a CONNECT, and its client confirmed: up to the event that tells of its end.
    pub fn has_entered(&self) -> bool
        ensures { result ≡ has_entered self.now.slot }
    {
        match &self.peer {
            Some(peer) => peer.is_server() && is_past_answering(peer.state()),
            None => false,
        }
    }

    /// Whether its peer waits for its client to confirm, and wasn't refused.
    pub fn awaits(&self) -> bool
        ensures { result ≡ awaits self.now.slot }
    {
        match &self.peer {
            Some(peer) => peer.is_answering() && !peer.is_refused(),
            None => false,
        }
    }
}

/// How many peers that began by a CONNECT have a client that confirmed. Each slot is looked at. A host has at most 4,095 slots.
pub fn count_entered(slots: &[Slot]) -> u32
    requires { length slots.now ≤ 4095 }
    ensures { result ≡ entered (all_shown slots.now) }
{
    let mut count: u32 = 0;
    for slot in slots {
        count += u32::from(slot.has_entered());
    }
    count
}
