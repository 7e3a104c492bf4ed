//! What waits for room in the sink.

use enet_codec::Event;

/// What waits for room in the sink. While an event of the host does, the host isn't asked for its next one, and orders are taken. While a
/// refusal does, no order is taken, since the next one might be refused, too: so there is a place for each refusal.
#[derive(Drop)]
pub struct Waiting {
    /// An event that the host told.
    pub event: Option<Event>,
    /// An event that says that an order was refused.
    pub refusal: Option<Event>,
}

impl Waiting {
    ghost use Rattle.std.specs.Prelude.{◌≡◌, ◌||◌, is_some};
    ghost use Rattle.enet_turn.specs.Phases.{nothing_waits};

    /// Nothing waits.
    pub fn nothing() -> Waiting
        ensures { result ≡ nothing_waits }
    {
        Waiting {
            event: None,
            refusal: None,
        }
    }

    /// Whether something waits.
    pub fn is_some(&self) -> bool
        ensures { result ≡ (is_some self.now.event || is_some self.now.refusal) }
    {
        self.event.is_some() || self.refusal.is_some()
    }
}
