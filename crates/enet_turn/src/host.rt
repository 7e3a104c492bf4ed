//! What a turn does with a host.
ghost use Rattle.std.specs.Prelude.{ℕ, ◌<◌, ◌≤◌, IfSome, take};
ghost use Rattle.std.specs.Option.{option_map};

use enet_codec::{Addr, Event, Refusal};
use enet_submit::Order;

/// The calls of a host that a turn makes. Each says by a relation what it may do.
pub trait Core {
    ghost use Rattle.enet_turn.specs.Calls.{Calls, why_of};

    /// What each call may do.
    ghost calls: { Calls Self };

    /// How many events it has that it hasn't told.
    ghost untold: { Self → ℕ };

    /// The clock goes on by so many milliseconds.
    fn tick(&mut self, ms: u32)
        ensures { calls.ticks self.old ms self.new };

    /// Carries an order out, or refuses it.
    fn apply_order(&mut self, order: Order) -> Result<(), Refusal>
        ensures { calls.applies self.old order (why_of result) self.new };

    /// A datagram comes from an address.
    fn receive(&mut self, from: Addr, bytes: &[u8])
        ensures { calls.receives self.old (from, bytes.now) self.new };

    /// Where the next datagram goes, and how many bytes of the buffer it is; None where the host has none.
    fn emit(&mut self, buf: &mut [u8; 4096]) -> Option<(Addr, usize)>
        ensures given { calls.emits self.old (option_map (λ d. (d.0, take d.1 buf.new)) result) self.new }
        ensures len { IfSome result (λ d. d.1 ≤ 4096) };

    /// The next event, which the host has told then; None where it has none.
    fn next_event(&mut self) -> Option<Event>
        ensures told { calls.gives_event self.old result self.new }
        ensures fewer { IfSome result (λ event. untold self.new < untold self.old) };
}
