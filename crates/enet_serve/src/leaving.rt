//! How the clients of a server are told that it ends.
ghost use Rattle.std.specs.Prelude.{◌≡◌};
ghost use Rattle.enet_serve.specs.Leaving.{TakesLeave, over};
ghost use Rattle.enet_serve.specs.Private.SeeingOff.{HasSeenOff, Idles};

use enet_codec::{DisconnectMode, Event};
use enet_service::{BoundService, MemorySource, Sink, Wire, run};
use std::alloc::Global;
use std::collections::VecDeque;
use std::io;
use std::rt::Clock;
use std::sync::Wait;
use std::time::{Duration, Instant};

/// So many milliseconds the clients have for their acknowledgements.
const MOMENT: u64 = 1_000;

/// Ends each connection behind all that was sent over it, and takes turns until all have ended, for a second at most. Who isn't gone by
/// then is sent one DISCONNECT that wants no answer. Where the wire fails it ends.
pub(crate) fn take_leave<R: Wait + Clock, N: Wire + Drop>(
    rt: &R,
    alloc: Global,
    bound: &mut BoundService<N>,
)
    ensures leaves { TakesLeave (over bound.old.service (N.told bound.old.wire) (N.faults bound.old.wire)) (over bound.new.service (N.told bound.new.wire) (N.faults bound.new.wire)) }
    ensures kept { N.kept bound.new.wire ≡ N.kept bound.old.wire }
{
    if see_off(rt, alloc, bound) {
        return;
    }
    if bound.service.host.disconnect_all(DisconnectMode::Now) > 0 {
        let _ = take_turn(rt, alloc, bound);
    }
}

// Takes turns until no peer is left, or the moment is over. Who connects meanwhile is asked to go, too. Whether the wire failed.
fn see_off<R: Wait + Clock, N: Wire + Drop>(
    rt: &R,
    alloc: Global,
    bound: &mut BoundService<N>,
) -> bool
    ensures seen_off { HasSeenOff (over bound.old.service (N.told bound.old.wire) (N.faults bound.old.wire)) (over bound.new.service (N.told bound.new.wire) (N.faults bound.new.wire)) result }
    ensures kept { N.kept bound.new.wire ≡ N.kept bound.old.wire }
{
    let start = Instant::now(rt);
    for _ in rt.forever() {
        let peers = bound.service.host.disconnect_all(DisconnectMode::Later);
        if take_turn(rt, alloc, bound) {
            return true;
        }
        if peers == 0 || is_over(rt, &start) {
            return false;
        }
    }
    unreachable!()
}

// Where the clock can't be read, it is over.
fn is_over<R: Clock>(rt: &R, start: &io::Result<Instant>) -> bool {
    let Ok(start) = start else {
        return true;
    };
    match start.elapsed(rt) {
        Ok(elapsed) => elapsed >= Duration::from_millis(MOMENT),
        Err(_) => true,
    }
}

/// Takes each event, and drops it.
#[derive(Drop)]
struct Nobody;

impl Sink for Nobody {
    ghost use Rattle.std.specs.Prelude.{◌≡◌, true};

    ghost puts = { λ s event taken t. taken ≡ true };

    fn put<R: Wait>(&mut self, _rt: &R, event: Event) -> Result<(), Event> {
        drop(event);
        Ok(())
    }

    fn announce(&self) {}
}

// A turn without orders, whose events nobody takes. Whether the wire failed.
fn take_turn<R: Wait + Clock, N: Wire + Drop>(
    rt: &R,
    alloc: Global,
    bound: &mut BoundService<N>,
) -> bool
    ensures idles { Idles (over bound.old.service (N.told bound.old.wire) (N.faults bound.old.wire)) (over bound.new.service (N.told bound.new.wire) (N.faults bound.new.wire)) result }
    ensures kept { N.kept bound.new.wire ≡ N.kept bound.old.wire }
{
    let mut source = MemorySource::new(VecDeque::new(alloc));
    let BoundService { wire, service } = bound;
    run(rt, service, wire, &mut source, &mut Nobody, 1).is_err()
}
