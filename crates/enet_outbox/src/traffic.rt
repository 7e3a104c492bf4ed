//! How a peer's line fares, in counts.

ghost use Rattle.std.specs.Prelude.{◌≡◌};
ghost use Rattle.enet_outbox.specs.Traffic.{no_traffic, with_acknowledged, with_one_sent};

/// How many of a peer's data commands that ask for an acknowledgement went, and how many came to their acknowledgement: reliable packets'
/// commands on channels 0 to 254, each piece of a packet that is cut. Commands of channel 0xFF don't count. The counts begin at 0 with the
/// peer, go on to its end, and wrap: each is modulo 2^64.
#[derive(Clone, Copy, Debug, PartialEq, Eq)]
pub struct Traffic {
    /// How often such a command went, for the first time or again.
    pub sent: u64,
    /// How often one went again.
    pub again: u64,
    /// How many were acknowledged, each once.
    pub acknowledged: u64,
}

impl Traffic {
    /// Nothing went yet.
    pub(crate) fn new() -> Self
        ensures { result ≡ no_traffic }
    {
        Traffic {
            sent: 0,
            again: 0,
            acknowledged: 0,
        }
    }

    /// The counts once a command went, for the first time or again.
    pub(crate) fn with_one_sent(self, again: bool) -> Self
        ensures { result ≡ with_one_sent self again }
    {
        Traffic {
            sent: self.sent.wrapping_add(1),
            again: self.again.wrapping_add(u64::from(again)),
            ..self
        }
    }

    /// The counts once a command was acknowledged.
    pub(crate) fn with_acknowledged(self) -> Self
        ensures { result ≡ with_acknowledged self }
    {
        Traffic {
            acknowledged: self.acknowledged.wrapping_add(1),
            ..self
        }
    }
}
