//! Turns one after another.
ghost use Rattle.std.specs.Prelude.{◌≡◌, ◌+◌, List, is_err};
ghost use Rattle.enet_wire.specs.Wires.{also, unless_spent};
ghost use Rattle.enet_turn.specs.Phases.{Chain};
ghost use Rattle.enet_turn.specs.Turn.{Round};
ghost use Rattle.enet_turn.specs.Run.{Rounds, Ends, all_gave, all_told, all_puts};
ghost use Rattle.enet_turn.specs.Counts.{count_of};

use crate::host::Core;
use crate::report::{Fault, Report};
use crate::service::Service;
use enet_bridge::{Sink, Source};
use enet_wire::Wire;
use std::sync::Wait;
use std::time::Clock;

/// Takes so many turns: before each the wire waits, and the turn goes on by the milliseconds that the wait gave. Answers the
/// sums of the turns' reports.
///
/// E14 where the wire fails: the run ends there. The report is then that of the turn that failed; where a wait failed, nothing
/// was done since the turn before it.
pub fn run<H: Core, W: Wire, S: Source, K: Sink, R: Wait + Clock>(
    rt: &R,
    service: &mut Service<H>,
    wire: &mut W,
    source: &mut S,
    sink: &mut K,
    turns: u64,
) -> Result<Report, Fault>
    ensures run { (rounds : List Round)
        × Rounds H.calls service.old rounds service.new
        × Chain S.gives source.old (all_gave rounds) source.new
        × Chain (λ s x t. K.puts s x.0 x.1 t) sink.old (all_puts rounds) sink.new
        × (W.told wire.new ≡ also (W.told wire.old) (unless_spent (W.faults wire.old) (all_told rounds)))
        × Ends turns rounds result }
    ensures faults { W.faults wire.new ≡ W.faults wire.old + count_of (is_err result) }
    ensures kept { W.kept wire.new ≡ W.kept wire.old }
{
    let mut buf = [0u8; 4096];
    let mut total = Report::nothing();
    for _turn in 0..turns {
        let ms = match wire.wait(rt) {
            Ok(ms) => ms,
            Err(why) => {
                return Err(Fault {
                    why,
                    report: Report::nothing(),
                });
            }
        };
        let report = service.turn_through(rt, wire, source, sink, ms, &mut buf)?;
        total = total.and(report);
    }
    Ok(total)
}
