//! How far a client has come.

use enet_codec::{Event, PeerRef};

/// How far a client has come.
#[derive(Clone, Copy)]
pub(crate) enum Stage {
    /// It has no connection yet.
    Alone,
    /// It has its connection.
    Connected(PeerRef),
    /// It has asked for its chat over its connection.
    Chatted(PeerRef),
}

impl Stage {
    ghost use Rattle.std.specs.Prelude.{◌≡◌, ◌∷◌, [], is_some};
    ghost use Rattle.std.specs.Option.{option_or};
    ghost use Rattle.enet_demo.specs.declared.orders.Plan.{Plan as AnyPlan};
    ghost use Rattle.enet_demo.specs.Plans.{asks};
    ghost use Rattle.enet_demo.specs.Visits.{first_peer, peer_of};

    /// How far it has come after an event. The first connection is its own.
    pub(crate) fn after(self, event: &Event) -> Stage
        ensures peer { peer_of result ≡ option_or (peer_of self) (first_peer (event.now ∷ [])) }
        ensures asks { (plan : AnyPlan) → asks plan result ≡ asks plan self }
    {
        match self {
            Stage::Alone => match event {
                Event::Connect { peer, .. } => Stage::Connected(*peer),
                _ => self,
            },
            _ => self,
        }
    }

    /// It has its connection.
    pub(crate) fn is_connected(self) -> bool
        ensures { result ≡ is_some (peer_of self) }
    {
        !matches!(self, Stage::Alone)
    }
}
