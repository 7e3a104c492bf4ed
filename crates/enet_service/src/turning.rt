//! The service's thread of a run.
ghost use Rattle.std.specs.Prelude.{◌≡◌, ◌+◌, IfOk, IfErr, is_err};
ghost use Rattle.enet_turn.specs.Counts.{count_of};
ghost use Rattle.enet_bridge.specs.Serving.{queue_of, poster_of};
ghost use Rattle.enet_service.specs.ServiceRuns.{HasTurned, IsCut, standing};

use crate::bound_service::BoundService;
use crate::run_length::{RunLength, take_turns};
use crate::watch::Watch;
use crate::{Bell, QueueSink, QueueSource, Report, TakerBell, Wire};
use enet_codec::Refusal;
use enet_events::EventQueue;
use enet_submit::SubmitQueue;
use std::rt::Clock;
use std::sync::Wait;
use std::sync::atomic::AtomicBool;
use std::sync::atomic::Ordering::SeqCst;
use std::thread::{Threads, join_mut};

/// What the service's thread and the other one share.
#[derive(Clone, Copy)]
pub struct Shared<'a> {
    /// The queue of orders.
    pub queue: &'a SubmitQueue,
    /// The queue of events.
    pub events: &'a EventQueue,
    /// Wakes the service's thread.
    pub bell: &'a Bell,
    /// What the two threads tell each other.
    pub signals: &'a Signals,
}

/// What the two threads tell each other.
#[derive(Drop)]
pub struct Signals {
    /// Wakes the other thread.
    pub bell: TakerBell,
    /// The service's thread has ended.
    pub ended: AtomicBool,
    // The other thread has left.
    left: AtomicBool,
}

impl Signals {
    /// Nothing was told.
    pub fn new() -> Signals {
        Signals {
            bell: TakerBell::new(),
            ended: AtomicBool::new(false),
            left: AtomicBool::new(false),
        }
    }

    /// The other thread calls it where it ends: a run for a time ends soon then, since nobody takes what its turns tell.
    pub fn leave(&self) {
        self.left.store(true, SeqCst);
    }

    pub(crate) fn has_left(&self) -> bool {
        self.left.load(SeqCst)
    }

    fn end(&self) {
        self.ended.store(true, SeqCst);
        self.bell.ring();
    }
}

// Takes the turns of a run, and then tells the other thread that the service has ended. E14 where the wire fails; the other thread
// is told of the end then, too.
fn serve_turns<R: Wait + Clock, N: Wire, W: Watch>(
    rt: &R,
    bound: &mut BoundService<N>,
    source: &mut QueueSource<'_>,
    sink: &mut QueueSink<'_>,
    run_length: RunLength,
    signals: &Signals,
    watch: &mut W,
) -> Result<Report, Refusal>
    ensures queue { queue_of source.new ≡ queue_of source.old }
    ensures poster { (poster_of sink.new).queue ≡ (poster_of sink.old).queue }
    ensures turned { IfOk result (HasTurned run_length (standing bound.old.service source.old sink.old (N.told bound.old.wire) (N.faults bound.old.wire)) (standing bound.new.service source.new sink.new (N.told bound.new.wire) (N.faults bound.new.wire))) }
    ensures cut { IfErr result (λ why. IsCut run_length (standing bound.old.service source.old sink.old (N.told bound.old.wire) (N.faults bound.old.wire)) (standing bound.new.service source.new sink.new (N.told bound.new.wire) (N.faults bound.new.wire))) }
    ensures fault { IfErr result (λ why. why ≡ Refusal.WireFault) }
    ensures faults { N.faults bound.new.wire ≡ N.faults bound.old.wire + count_of (is_err result) }
    ensures kept { N.kept bound.new.wire ≡ N.kept bound.old.wire }
{
    let report = take_turns(
        rt,
        &mut bound.service,
        &mut bound.wire,
        source,
        sink,
        run_length,
        signals,
        watch,
    );
    signals.end();
    report
}

/// Does `other` in one thread, and takes the turns of a run in another, until both have ended. `other` is what takes events and submits
/// orders: it goes on until it is told that the service has ended, and where it ends before, it says so ([`Signals::leave`]). It begins only
/// once the service has ended where no second thread can be made. `watch` is told of the turns.
///
/// E14 where the wire fails: the service's thread ends then, and its turns until then are as those of a run that returned.
pub fn beside_turns<R, N, W, F, T>(
    rt: &R,
    bound: &mut BoundService<N>,
    source: &mut QueueSource<'_>,
    sink: &mut QueueSink<'_>,
    run_length: RunLength,
    signals: &Signals,
    watch: &mut W,
    other: &mut F,
) -> (T, Result<Report, Refusal>)
where
    R: Threads + Wait + Clock + Sync,
    N: Wire + Send,
    W: Watch + Send,
    F: FnMut() -> T + Send,
    T: Send,
    requires other { F.pre other.old }
    ensures other { F.step other.old result.0 other.new }
    ensures queue { queue_of source.new ≡ queue_of source.old }
    ensures poster { (poster_of sink.new).queue ≡ (poster_of sink.old).queue }
    ensures turned { IfOk result.1 (HasTurned run_length (standing bound.old.service source.old sink.old (N.told bound.old.wire) (N.faults bound.old.wire)) (standing bound.new.service source.new sink.new (N.told bound.new.wire) (N.faults bound.new.wire))) }
    ensures cut { IfErr result.1 (λ why. IsCut run_length (standing bound.old.service source.old sink.old (N.told bound.old.wire) (N.faults bound.old.wire)) (standing bound.new.service source.new sink.new (N.told bound.new.wire) (N.faults bound.new.wire))) }
    ensures fault { IfErr result.1 (λ why. why ≡ Refusal.WireFault) }
    ensures faults { N.faults bound.new.wire ≡ N.faults bound.old.wire + count_of (is_err result.1) }
    ensures kept { N.kept bound.new.wire ≡ N.kept bound.old.wire }
{
    join_mut(
        rt,
        other,
        &mut || -> Result<Report, Refusal>
            ensures queue { queue_of source.exit.now ≡ queue_of source.entry.now }
            ensures poster { (poster_of sink.exit.now).queue ≡ (poster_of sink.entry.now).queue }
            ensures turned { IfOk result (HasTurned run_length (standing bound.entry.now.service source.entry.now sink.entry.now (N.told bound.entry.now.wire) (N.faults bound.entry.now.wire)) (standing bound.exit.now.service source.exit.now sink.exit.now (N.told bound.exit.now.wire) (N.faults bound.exit.now.wire))) }
            ensures cut { IfErr result (λ why. IsCut run_length (standing bound.entry.now.service source.entry.now sink.entry.now (N.told bound.entry.now.wire) (N.faults bound.entry.now.wire)) (standing bound.exit.now.service source.exit.now sink.exit.now (N.told bound.exit.now.wire) (N.faults bound.exit.now.wire))) }
            ensures fault { IfErr result (λ why. why ≡ Refusal.WireFault) }
            ensures faults { N.faults bound.exit.now.wire ≡ N.faults bound.entry.now.wire + count_of (is_err result) }
            ensures kept { N.kept bound.exit.now.wire ≡ N.kept bound.entry.now.wire }
        { serve_turns(rt, bound, source, sink, run_length, signals, watch) },
    )
}
