//! What a turn or a run did.

use enet_codec::Refusal;

/// What was done: in a turn, or in all turns of a run. Each count stops at 4,294,967,295.
#[derive(Clone, Copy, Debug, PartialEq, Eq)]
pub struct Report {
    /// Orders taken from the source, refused ones too.
    pub orders: u32,
    /// Datagrams received.
    pub received: u32,
    /// Datagrams sent.
    pub sent: u32,
    /// Datagrams that were lost: their destination can't be reached, they were too long, their send would have blocked, or the wire
    /// failed.
    pub lost: u32,
    /// Events that the sink took.
    pub events: u32,
}

/// Turns ended early, after this work was done.
#[derive(Clone, Copy, Debug, PartialEq, Eq)]
pub struct Fault {
    /// Why. Of [`Service::turn`](crate::Service::turn) and [`run`](crate::run) it is E14.
    pub why: Refusal,
    pub report: Report,
}

impl Report {
    ghost use Rattle.std.specs.Prelude.{◌≡◌, ◌+◌};
    ghost use Rattle.enet_turn.specs.Counts.{stopped};

    /// Nothing was done.
    pub fn nothing() -> Report
        ensures { result ≡ record { orders = 0; received = 0; sent = 0; lost = 0; events = 0 } }
    {
        Report {
            orders: 0,
            received: 0,
            sent: 0,
            lost: 0,
            events: 0,
        }
    }

    /// What both did together.
    pub fn and(self, other: Report) -> Report
        ensures { result ≡ record { orders = stopped (self.orders + other.orders); received = stopped (self.received + other.received); sent = stopped (self.sent + other.sent); lost = stopped (self.lost + other.lost); events = stopped (self.events + other.events) } }
    {
        Report {
            orders: self.orders.saturating_add(other.orders),
            received: self.received.saturating_add(other.received),
            sent: self.sent.saturating_add(other.sent),
            lost: self.lost.saturating_add(other.lost),
            events: self.events.saturating_add(other.events),
        }
    }
}
