//! How long a service takes turns.
ghost use Rattle.std.specs.Prelude.{◌≡◌, ◌+◌, ◌≤◌, true, false, List, length, IfOk, IfErr, is_err};
ghost use Rattle.enet_turn.specs.Turn.{Round as OneTurn};
ghost use Rattle.enet_bridge.specs.Serving.{queue_of, poster_of};
ghost use Rattle.enet_turn.specs.Counts.{count_of};
ghost use Rattle.enet_service.specs.ServiceRuns.{Lasts, LastsForTime, AreFew, Spell, IsCut, next_turns, standing};
ghost use Rattle.enet_service.specs.declared.run_length.RunLength.TheVariants as lengths;

use crate::turning::Signals;
use crate::watch::Watch;
use crate::watched::WatchedHost;
use crate::{QueueSink, QueueSource, Report, Service, Wire, run_between_queues};
use enet_codec::Refusal;
use std::io;
use std::rt::Clock;
use std::sync::Wait;
use std::time::{Duration, Instant};

/// A run for a time takes so many turns at once at most; then whoever watches looks ([`Watch::look`]).
pub const TURNS_AT_ONCE: u64 = 64;

/// If turns that were taken at once took longer, in milliseconds, the next one is taken alone.
const LONG: u64 = 400;

/// After so many orders or events a run for a time ends: its queues count 4,294,967,295 of each at most.
const MANY: u32 = 2_147_483_648;

/// How long a service takes turns.
#[derive(Clone, Copy)]
pub enum RunLength {
    /// So many turns.
    Turns(u64),
    /// As many turns as it takes until so much time has passed, the other thread, if there is one, has left, whoever watches wants the end
    /// ([`Watch::wants_end`]), or 2,147,483,648 orders were taken or events told. Where the clock can't be read only the last three end it.
    Time(Duration),
}

/// The turns of a run, and the sums of their reports. E14 where the wire fails.
pub(crate) fn take_turns<R: Wait + Clock, N: Wire, W: Watch>(
    rt: &R,
    service: &mut Service<WatchedHost>,
    wire: &mut N,
    source: &mut QueueSource<'_>,
    sink: &mut QueueSink<'_>,
    run_length: RunLength,
    signals: &Signals,
    watch: &mut W,
) -> Result<Report, Refusal>
    ensures queue { queue_of source.new ≡ queue_of source.old }
    ensures poster { (poster_of sink.new).queue ≡ (poster_of sink.old).queue }
    ensures turns { IfOk result (λ report. (rounds : List OneTurn) × Lasts run_length rounds
        × Spell (standing service.old source.old sink.old (N.told wire.old) (N.faults wire.old)) rounds (standing service.new source.new sink.new (N.told wire.new) (N.faults wire.new)) report) }
    ensures cut { IfErr result (λ why. IsCut run_length (standing service.old source.old sink.old (N.told wire.old) (N.faults wire.old)) (standing service.new source.new sink.new (N.told wire.new) (N.faults wire.new))) }
    ensures fault { IfErr result (λ why. why ≡ Refusal.WireFault) }
    ensures faults { N.faults wire.new ≡ N.faults wire.old + count_of (is_err result) }
    ensures kept { N.kept wire.new ≡ N.kept wire.old }
{
    match run_length {
        RunLength::Turns(turns) => turns_of(rt, service, wire, source, sink, turns, watch),
        RunLength::Time(time) => turns_for(rt, service, wire, source, sink, time, signals, watch),
    }
}

// So many turns.
fn turns_of<R: Wait + Clock, N: Wire, W: Watch>(
    rt: &R,
    service: &mut Service<WatchedHost>,
    wire: &mut N,
    source: &mut QueueSource<'_>,
    sink: &mut QueueSink<'_>,
    turns: u64,
    watch: &mut W,
) -> Result<Report, Refusal>
    ensures queue { queue_of source.new ≡ queue_of source.old }
    ensures poster { (poster_of sink.new).queue ≡ (poster_of sink.old).queue }
    ensures turns { IfOk result (λ report. (rounds : List OneTurn) × (length rounds ≡ turns)
        × Spell (standing service.old source.old sink.old (N.told wire.old) (N.faults wire.old)) rounds (standing service.new source.new sink.new (N.told wire.new) (N.faults wire.new)) report) }
    ensures cut { IfErr result (λ why. IsCut (lengths.Turns turns) (standing service.old source.old sink.old (N.told wire.old) (N.faults wire.old)) (standing service.new source.new sink.new (N.told wire.new) (N.faults wire.new))) }
    ensures fault { IfErr result (λ why. why ≡ Refusal.WireFault) }
    ensures faults { N.faults wire.new ≡ N.faults wire.old + count_of (is_err result) }
    ensures kept { N.kept wire.new ≡ N.kept wire.old }
{
    match run_between_queues(rt, service, wire, source, sink, turns) {
        Ok(report) => {
            show(&mut service.host, report, watch);
            Ok(report)
        }
        Err(fault) => {
            show(&mut service.host, fault.report, watch);
            Err(fault.why)
        }
    }
}

// Shows what turns did, once.
pub(crate) fn show<W: Watch>(host: &mut WatchedHost, report: Report, watch: &mut W)
    ensures { host.new ≡ host.old }
{
    watch.look(host, report);
    host.forget();
}

// Turns until so much time has passed, the other thread has left, whoever watches wants the end, or much was done.
fn turns_for<R: Wait + Clock, N: Wire, W: Watch>(
    rt: &R,
    service: &mut Service<WatchedHost>,
    wire: &mut N,
    source: &mut QueueSource<'_>,
    sink: &mut QueueSink<'_>,
    time: Duration,
    signals: &Signals,
    watch: &mut W,
) -> Result<Report, Refusal>
    ensures queue { queue_of source.new ≡ queue_of source.old }
    ensures poster { (poster_of sink.new).queue ≡ (poster_of sink.old).queue }
    ensures turns { IfOk result (λ report. (rounds : List OneTurn) × LastsForTime rounds
        × Spell (standing service.old source.old sink.old (N.told wire.old) (N.faults wire.old)) rounds (standing service.new source.new sink.new (N.told wire.new) (N.faults wire.new)) report) }
    ensures cut { IfErr result (λ why. IsCut (lengths.Time time) (standing service.old source.old sink.old (N.told wire.old) (N.faults wire.old)) (standing service.new source.new sink.new (N.told wire.new) (N.faults wire.new))) }
    ensures fault { IfErr result (λ why. why ≡ Refusal.WireFault) }
    ensures faults { N.faults wire.new ≡ N.faults wire.old + count_of (is_err result) }
    ensures kept { N.kept wire.new ≡ N.kept wire.old }
{
    let start = Instant::now(rt);
    let mut total = Report::nothing();
    let mut turns = TURNS_AT_ONCE;
    for _ in rt.forever() {
        let begun = Instant::now(rt);
        let report = turns_of(rt, service, wire, source, sink, turns, watch)?;
        total = total.and(report);
        if signals.has_left() || watch.wants_end() || is_over(rt, total, &start, time) {
            return Ok(total);
        }
        turns = turns_from(rt, turns, &begun);
    }
    unreachable!()
}

/// How many turns a run for a time takes at once, after the last so many were begun then: twice as many, 64 at most, or one if they took over
/// 400 ms. So whoever watches looks often enough to tell a service that is slow from one that hangs. Where the clock can't be read, they took
/// no time.
pub fn turns_from<R: Clock>(rt: &R, turns: u64, begun: &io::Result<Instant>) -> u64
    ensures some { 1 ≤ turns → 1 ≤ result }
    ensures most { result ≤ 64 }
    ensures no_clock { IfErr begun.now (λ e. result ≡ next_turns turns 0) }
{
    let Ok(begun) = begun else {
        return next_turns(turns, 0);
    };
    match begun.elapsed(rt) {
        Ok(elapsed) => next_turns(
            turns,
            u64::try_from(elapsed.as_millis()).unwrap_or(u64::MAX),
        ),
        Err(_) => next_turns(turns, 0),
    }
}

fn next_turns(turns: u64, ms: u64) -> u64
    ensures next { result ≡ next_turns turns ms }
    ensures some { 1 ≤ turns → 1 ≤ result }
    ensures most { result ≤ 64 }
{
    if ms > LONG {
        1
    } else {
        turns.saturating_mul(2).min(TURNS_AT_ONCE)
    }
}

/// Whether a run for this time that began at `start`, with these sums so far, is over: 2,147,483,648 orders were taken or events told, or the
/// time has passed. Where the clock can't be read, no time passes.
pub fn is_over<R: Clock>(rt: &R, total: Report, start: &io::Result<Instant>, time: Duration) -> bool
    ensures few { result ≡ false → AreFew total }
    ensures no_clock { IfErr start.now (λ e. AreFew total → result ≡ false) }
{
    total.orders >= MANY || total.events >= MANY || has_passed(rt, start, time)
}

fn has_passed<R: Clock>(rt: &R, start: &io::Result<Instant>, time: Duration) -> bool
    ensures no_clock { IfErr start.now (λ e. result ≡ false) }
{
    let Ok(start) = start else {
        return false;
    };
    match start.elapsed(rt) {
        Ok(elapsed) => elapsed >= time,
        Err(_) => false,
    }
}
