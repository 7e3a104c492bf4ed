//! How many slots of a host are free, how far the connections of the others have come, and how much of what these sent went again.

ghost use Rattle.std.specs.Prelude.{◌≡◌, ◌<◌, ◌≤◌, length};
ghost use Rattle.enet_sender.specs.Counting.{added};
ghost use Rattle.enet_slot.specs.Counting.{standing_in, standing_of, Counts, count_at, count_sent_again};
ghost use Rattle.enet_slot.specs.Private.Counting.{with_one, none_counted, counted};
ghost use Rattle.enet_slot.specs.Slotted.{all_shown};

use crate::Slot;
use enet_peer::PeerState;

/// What a slot is: free, or how far the connection of its peer has come.
#[derive(Clone, Copy, Debug, PartialEq, Eq)]
pub enum Standing {
    /// It is free, and has a generation left.
    Free,
    /// It is free, and has no generation left: it is never given out again.
    Spent,
    /// Its peer has asked for a connection, and waits for the server's answer.
    Connecting,
    /// Its peer has answered, and waits for the client's acknowledgement.
    Answering,
    /// Its connection stands.
    Connected,
    /// Its connection is to end, ends, or has ended and the user hasn't been told yet.
    Leaving,
}

/// How many slots are free, and how far the connections of the others have come. Each slot is in one of these counts.
#[derive(Clone, Copy, Debug, PartialEq, Eq)]
pub struct SlotCounts {
    /// Those that are free and have a generation left.
    pub free: u16,
    /// Those that are free and have none left.
    pub spent: u16,
    /// Those whose peer has asked for a connection, and waits for the server's answer.
    pub connecting: u16,
    /// Those whose peer has answered, and waits for the client's acknowledgement.
    pub answering: u16,
    /// Those whose connection stands.
    pub connected: u16,
    /// Those whose connection is to end, ends, or has ended and the user hasn't been told yet.
    pub leaving: u16,
}

impl SlotCounts {
    /// No slot was counted.
    fn none() -> SlotCounts
        ensures { result ≡ none_counted }
    {
        SlotCounts {
            free: 0,
            spent: 0,
            connecting: 0,
            answering: 0,
            connected: 0,
            leaving: 0,
        }
    }

    /// With a slot more that is so.
    fn with(self, standing: Standing) -> SlotCounts
        requires { counted self < 65535 }
        ensures { result ≡ with_one self standing }
    {
        match standing {
            Standing::Free => SlotCounts {
                free: self.free + 1,
                ..self
            },
            Standing::Spent => SlotCounts {
                spent: self.spent + 1,
                ..self
            },
            Standing::Connecting => SlotCounts {
                connecting: self.connecting + 1,
                ..self
            },
            Standing::Answering => SlotCounts {
                answering: self.answering + 1,
                ..self
            },
            Standing::Connected => SlotCounts {
                connected: self.connected + 1,
                ..self
            },
            Standing::Leaving => SlotCounts {
                leaving: self.leaving + 1,
                ..self
            },
        }
    }
}

/// How far a connection in this state has come.
fn standing_in(state: PeerState) -> Standing
    ensures { result ≡ standing_in state }
{
    match state {
        PeerState::Connecting => Standing::Connecting,
        PeerState::Answering => Standing::Answering,
        PeerState::Connected => Standing::Connected,
        PeerState::Free
        | PeerState::DisconnectLater
        | PeerState::Disconnecting
        | PeerState::AckDisconnect
        | PeerState::Ended
        | PeerState::Parting => Standing::Leaving,
    }
}

impl Slot {
    /// What it is, if it has so many generations.
    pub fn standing(&self, generations: u32) -> Standing
        ensures { result ≡ standing_of generations self.now.slot }
    {
        match &self.peer {
            Some(peer) => standing_in(peer.state()),
            None if self.generation < generations => Standing::Free,
            None => Standing::Spent,
        }
    }

    /// So many, and the commands of its peer that are sent, not acknowledged, and were sent more than once; it stops at 2^64 - 1. It looks at
    /// all that is sent.
    pub fn count_sent_again(&self, so_far: u64) -> u64
        ensures { result ≡ added so_far (count_at self.now.slot) }
    {
        match &self.peer {
            Some(peer) => peer.count_sent_again(so_far),
            None => so_far,
        }
    }
}

/// How many of the slots are free, if each has so many generations, and how far the others have come. Each slot is looked at. A host has at
/// most 4,095 slots.
pub fn count_slots(slots: &[Slot], generations: u32) -> SlotCounts
    requires { length slots.now ≤ 4095 }
    ensures { Counts generations (all_shown slots.now) result }
{
    let mut counts = SlotCounts::none();
    for slot in slots {
        counts = counts.with(slot.standing(generations));
    }
    counts
}

/// How many commands of all slots' peers are sent, not acknowledged, and were sent more than once; it stops at 2^64 - 1. It looks at all that
/// is sent.
pub fn count_sent_again(slots: &[Slot]) -> u64
    ensures { result ≡ added 0 (count_sent_again (all_shown slots.now)) }
{
    let mut total = 0;
    for slot in slots {
        total = slot.count_sent_again(total);
    }
    total
}
