//! Turns between the two queues.
ghost use Rattle.std.specs.Prelude.{◌≡◌, ◌+◌, List, is_err};
ghost use Rattle.enet_wire.specs.Wires.{also, unless_spent};
ghost use Rattle.enet_turn.specs.Turn.{Round};
ghost use Rattle.enet_turn.specs.Run.{Rounds, Ends, all_gave, all_told, all_puts};
ghost use Rattle.enet_service.specs.Queues.{given, accepted, DrainsOn, PostsOn};
ghost use Rattle.enet_bridge.specs.Serving.{queue_of, drain_of, poster_of};
ghost use Rattle.enet_turn.specs.Counts.{count_of};

use enet_bridge::{QueueSink, QueueSource};
use enet_turn::{Core, Fault, Report, Service, run};
use enet_wire::Wire;
use std::sync::Wait;
use std::time::Clock;

/// [`run`] between the submit queue and the event queue. What the turns were given is what the drain took: each seat's orders
/// once and in the order in which it submitted them, so that they are a prefix of the queue's history. The events of the turns
/// that were taken are what the poster posted, in order.
pub fn run_between_queues<H: Core, W: Wire, R: Wait + Clock>(
    rt: &R,
    service: &mut Service<H>,
    wire: &mut W,
    source: &mut QueueSource,
    sink: &mut QueueSink,
    turns: u64,
) -> Result<Report, Fault>
    ensures run { (rounds : List Round)
        × Rounds H.calls service.old rounds service.new
        × (queue_of source.new ≡ queue_of source.old)
        × DrainsOn (queue_of source.old) (drain_of source.old) (given (all_gave rounds)) (drain_of source.new)
        × PostsOn (poster_of sink.old) (accepted (all_puts rounds)) (poster_of sink.new)
        × (W.told wire.new ≡ also (W.told wire.old) (unless_spent (W.faults wire.old) (all_told rounds)))
        × Ends turns rounds result }
    ensures faults { W.faults wire.new ≡ W.faults wire.old + count_of (is_err result) }
    ensures kept { W.kept wire.new ≡ W.kept wire.old }
{
    run(rt, service, wire, source, sink, turns)
}
