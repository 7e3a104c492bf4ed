//! Whether what a user was told of a connection is one life.

ghost use Rattle.std.specs.Prelude.{◌↔◌, IsTrue};
ghost use Rattle.check_outcome.specs.Life.{IsSomeLife};
ghost use Rattle.check_outcome.specs.Private.Life.{AreLastOf};

use enet_codec::{Event, PeerRef};

/// Whether these are packets of a peer, and then at most one Disconnect of it.
fn are_last_of(name: PeerRef, events: &[Event]) -> bool
    ensures { IsTrue result ↔ AreLastOf name events.now }
{
    let Some((first, rest)) = events.split_first() else {
        return true;
    };
    match first {
        Event::Receive { peer, .. } => *peer == name && are_last_of(name, rest),
        Event::Disconnect { peer, .. } => *peer == name && rest.is_empty(),
        Event::Connect { .. } | Event::Refused { .. } => false,
    }
}

/// Whether the events that a user took of a connection are one life's, all of one peer: at most one Connect, and only first; packets
/// only after it; at most one Disconnect, and only last.
pub fn is_life(events: &[Event]) -> bool
    ensures { IsTrue result ↔ IsSomeLife events.now }
{
    let Some((first, rest)) = events.split_first() else {
        return true;
    };
    match first {
        Event::Connect { peer, .. } => are_last_of(*peer, rest),
        Event::Disconnect { .. } => rest.is_empty(),
        Event::Receive { .. } | Event::Refused { .. } => false,
    }
}
