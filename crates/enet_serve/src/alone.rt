//! A run whose relay shares its service's thread.
use crate::lone_turn::lone_turn;
use enet_chat::{Gauge, LoneRelay};
use enet_codec::Refusal;
use enet_guard::Guarded;
use enet_service::{
    Bell, BoundService, Fault, MioWire, Report, RunLength, TURNS_AT_ONCE, Watch, is_over,
    turns_from,
};
use std::alloc::Global;
use std::rt::Clock;
use std::sync::{Arc, Wait};
use std::time::{Duration, Instant};

/// The relay of a run in one thread, with what shows how far it has come, and what keeps the service awake while orders wait.
#[derive(Drop)]
pub(crate) struct Alone<'a> {
    pub(crate) relay: LoneRelay,
    pub(crate) bell: Arc<Bell, Global>,
    pub(crate) gauge: &'a Gauge,
}

impl Alone<'_> {
    ghost use Rattle.std.specs.Prelude.{◌≡◌, ◌≢◌, ◌+◌, ◌≤◌, ◌⊎◌, List, length, OnOk, IfOk, IfErr};
    ghost use Rattle.enet_wire.specs.Socket.{failures_of};
    ghost use Rattle.enet_guard.specs.Guarding.{ruling};
    ghost use Rattle.enet_guard.specs.Journals.{told_of};
    ghost use Rattle.enet_chat.specs.Relaying.{AreBehind, AreFarBehind};
    ghost use Rattle.enet_turn.specs.Turn.{Round};
    ghost use Rattle.enet_turn.specs.Run.{total};
    ghost use Rattle.enet_service.specs.ServiceRuns.{Lasts, LastsForTime, LastsAtMost, LastsForTimeAtMost};
    ghost use Rattle.enet_serve.specs.Private.Alone.{Goes, GoesOff, pair};

    /// Takes the turns of a run, each of which expands what it tells. `watch` is told of the turns.
    ///
    /// E14 where the wire fails, E1 for want of memory.
    pub(crate) fn run<R: Wait + Clock, W: Watch>(
        &mut self,
        rt: &R,
        bound: &mut BoundService<Guarded<MioWire>>,
        run_length: RunLength,
        watch: &mut W,
    ) -> Result<Report, Refusal>
        requires behind { AreBehind self.old.relay.events self.old.relay.orders }
        requires far_behind { AreFarBehind 256 self.old.relay.events self.old.relay.orders }
        ensures goes { IfOk result (λ report. (rounds : List Round) × Lasts run_length rounds × (report ≡ total rounds)
            × Goes (pair bound.old.service self.old.relay (told_of bound.old.wire) (failures_of bound.old.wire.wire)) rounds (pair bound.new.service self.new.relay (told_of bound.new.wire) (failures_of bound.new.wire.wire))) }
        ensures goes_off { IfErr result (λ why. why ≡ Refusal.WireFault → (rounds : List Round) × LastsAtMost run_length rounds × GoesOff (pair bound.old.service self.old.relay (told_of bound.old.wire) (failures_of bound.old.wire.wire)) rounds (pair bound.new.service self.new.relay (told_of bound.new.wire) (failures_of bound.new.wire.wire))) }
        ensures why { IfErr result (λ why. (why ≡ Refusal.WireFault) ⊎ (why ≡ Refusal.Memory)) }
        ensures sound { OnOk result (failures_of bound.new.wire.wire ≡ failures_of bound.old.wire.wire) }
        ensures failed { IfErr result (λ why. why ≡ Refusal.WireFault → failures_of bound.new.wire.wire ≡ failures_of bound.old.wire.wire + 1) }
        ensures other { IfErr result (λ why. why ≢ Refusal.WireFault → failures_of bound.new.wire.wire ≡ failures_of bound.old.wire.wire) }
        ensures kept { ruling bound.new.wire.guard ≡ ruling bound.old.wire.guard }
    {
        match run_length {
            RunLength::Turns(turns) => self.run_for_turns(rt, bound, turns, watch),
            RunLength::Time(time) => self.run_for_time(rt, bound, time, watch),
        }
    }

    // Takes turns until so much time has passed, whoever watches wants the end, or much was done.
    fn run_for_time<R: Wait + Clock, W: Watch>(
        &mut self,
        rt: &R,
        bound: &mut BoundService<Guarded<MioWire>>,
        time: Duration,
        watch: &mut W,
    ) -> Result<Report, Refusal>
        requires behind { AreBehind self.old.relay.events self.old.relay.orders }
        requires far_behind { AreFarBehind 256 self.old.relay.events self.old.relay.orders }
        ensures goes { IfOk result (λ report. (rounds : List Round) × LastsForTime rounds × (report ≡ total rounds)
            × Goes (pair bound.old.service self.old.relay (told_of bound.old.wire) (failures_of bound.old.wire.wire)) rounds (pair bound.new.service self.new.relay (told_of bound.new.wire) (failures_of bound.new.wire.wire))) }
        ensures goes_off { IfErr result (λ why. why ≡ Refusal.WireFault → (rounds : List Round) × LastsForTimeAtMost rounds × GoesOff (pair bound.old.service self.old.relay (told_of bound.old.wire) (failures_of bound.old.wire.wire)) rounds (pair bound.new.service self.new.relay (told_of bound.new.wire) (failures_of bound.new.wire.wire))) }
        ensures why { IfErr result (λ why. (why ≡ Refusal.WireFault) ⊎ (why ≡ Refusal.Memory)) }
        ensures sound { OnOk result (failures_of bound.new.wire.wire ≡ failures_of bound.old.wire.wire) }
        ensures failed { IfErr result (λ why. why ≡ Refusal.WireFault → failures_of bound.new.wire.wire ≡ failures_of bound.old.wire.wire + 1) }
        ensures other { IfErr result (λ why. why ≢ Refusal.WireFault → failures_of bound.new.wire.wire ≡ failures_of bound.old.wire.wire) }
        ensures kept { ruling bound.new.wire.guard ≡ ruling bound.old.wire.guard }
    {
        let start = Instant::now(rt);
        let mut total = Report::nothing();
        let mut turns = TURNS_AT_ONCE;
        for _ in rt.forever() {
            let begun = Instant::now(rt);
            let report = self.run_for_turns(rt, bound, turns, watch)?;
            total = total.and(report);
            if watch.wants_end() || is_over(rt, total, &start, time) {
                return Ok(total);
            }
            turns = turns_from(rt, turns, &begun);
        }
        unreachable!()
    }

    // Takes so many turns, and shows them.
    fn run_for_turns<R: Wait + Clock, W: Watch>(
        &mut self,
        rt: &R,
        bound: &mut BoundService<Guarded<MioWire>>,
        turns: u64,
        watch: &mut W,
    ) -> Result<Report, Refusal>
        requires behind { AreBehind self.old.relay.events self.old.relay.orders }
        requires far_behind { AreFarBehind 256 self.old.relay.events self.old.relay.orders }
        ensures goes { IfOk result (λ report. (rounds : List Round) × (length rounds ≡ turns) × (report ≡ total rounds)
            × Goes (pair bound.old.service self.old.relay (told_of bound.old.wire) (failures_of bound.old.wire.wire)) rounds (pair bound.new.service self.new.relay (told_of bound.new.wire) (failures_of bound.new.wire.wire))) }
        ensures goes_off { IfErr result (λ why. why ≡ Refusal.WireFault → (rounds : List Round) × (length rounds ≤ turns) × GoesOff (pair bound.old.service self.old.relay (told_of bound.old.wire) (failures_of bound.old.wire.wire)) rounds (pair bound.new.service self.new.relay (told_of bound.new.wire) (failures_of bound.new.wire.wire))) }
        ensures why { IfErr result (λ why. (why ≡ Refusal.WireFault) ⊎ (why ≡ Refusal.Memory)) }
        ensures sound { OnOk result (failures_of bound.new.wire.wire ≡ failures_of bound.old.wire.wire) }
        ensures failed { IfErr result (λ why. why ≡ Refusal.WireFault → failures_of bound.new.wire.wire ≡ failures_of bound.old.wire.wire + 1) }
        ensures other { IfErr result (λ why. why ≢ Refusal.WireFault → failures_of bound.new.wire.wire ≡ failures_of bound.old.wire.wire) }
        ensures kept { ruling bound.new.wire.guard ≡ ruling bound.old.wire.guard }
    {
        match self.turn_by_turn(rt, bound, turns) {
            Ok(report) => {
                bound.show(report, watch);
                Ok(report)
            }
            Err(fault) => {
                bound.show(fault.report, watch);
                Err(fault.why)
            }
        }
    }

    // Takes so many turns, whose datagrams pass through one buffer. Where they fail, the report has all that was done.
    fn turn_by_turn<R: Wait + Clock>(
        &mut self,
        rt: &R,
        bound: &mut BoundService<Guarded<MioWire>>,
        turns: u64,
    ) -> Result<Report, Fault>
        requires behind { AreBehind self.old.relay.events self.old.relay.orders }
        requires far_behind { AreFarBehind 256 self.old.relay.events self.old.relay.orders }
        ensures goes { IfOk result (λ report. (rounds : List Round) × (length rounds ≡ turns) × (report ≡ total rounds)
            × Goes (pair bound.old.service self.old.relay (told_of bound.old.wire) (failures_of bound.old.wire.wire)) rounds (pair bound.new.service self.new.relay (told_of bound.new.wire) (failures_of bound.new.wire.wire))) }
        ensures goes_off { IfErr result (λ fault. fault.why ≡ Refusal.WireFault → (rounds : List Round) × (length rounds ≤ turns) × GoesOff (pair bound.old.service self.old.relay (told_of bound.old.wire) (failures_of bound.old.wire.wire)) rounds (pair bound.new.service self.new.relay (told_of bound.new.wire) (failures_of bound.new.wire.wire))) }
        ensures why { IfErr result (λ fault. (fault.why ≡ Refusal.WireFault) ⊎ (fault.why ≡ Refusal.Memory)) }
        ensures sound { OnOk result (failures_of bound.new.wire.wire ≡ failures_of bound.old.wire.wire) }
        ensures failed { IfErr result (λ fault. fault.why ≡ Refusal.WireFault → failures_of bound.new.wire.wire ≡ failures_of bound.old.wire.wire + 1) }
        ensures other { IfErr result (λ fault. fault.why ≢ Refusal.WireFault → failures_of bound.new.wire.wire ≡ failures_of bound.old.wire.wire) }
        ensures kept { ruling bound.new.wire.guard ≡ ruling bound.old.wire.guard }
    {
        let mut buf = [0u8; 4096];
        let mut total = Report::nothing();
        for _turn in 0..turns {
            match self.take_turn(rt, bound, &mut buf) {
                Ok(report) => total = total.and(report),
                Err(Fault { why, report }) => {
                    return Err(Fault {
                        why,
                        report: total.and(report),
                    });
                }
            }
        }
        Ok(total)
    }

    // Takes a turn. While orders wait, or an event for room, the service doesn't sleep.
    fn take_turn<R: Wait + Clock>(
        &mut self,
        rt: &R,
        bound: &mut BoundService<Guarded<MioWire>>,
        buf: &mut [u8; 4096],
    ) -> Result<Report, Fault>
        ensures goes { IfOk result (λ report. (rounds : List Round) × (length rounds ≡ 1) × (report ≡ total rounds)
            × Goes (pair bound.old.service self.old.relay (told_of bound.old.wire) (failures_of bound.old.wire.wire)) rounds (pair bound.new.service self.new.relay (told_of bound.new.wire) (failures_of bound.new.wire.wire))) }
        ensures goes_off { IfErr result (λ fault. fault.why ≡ Refusal.WireFault → (rounds : List Round) × (length rounds ≤ 1) × GoesOff (pair bound.old.service self.old.relay (told_of bound.old.wire) (failures_of bound.old.wire.wire)) rounds (pair bound.new.service self.new.relay (told_of bound.new.wire) (failures_of bound.new.wire.wire))) }
        ensures why { IfErr result (λ fault. (fault.why ≡ Refusal.WireFault) ⊎ (fault.why ≡ Refusal.Memory)) }
        ensures sound { OnOk result (failures_of bound.new.wire.wire ≡ failures_of bound.old.wire.wire) }
        ensures failed { IfErr result (λ fault. fault.why ≡ Refusal.WireFault → failures_of bound.new.wire.wire ≡ failures_of bound.old.wire.wire + 1) }
        ensures other { IfErr result (λ fault. fault.why ≢ Refusal.WireFault → failures_of bound.new.wire.wire ≡ failures_of bound.old.wire.wire) }
        ensures kept { ruling bound.new.wire.guard ≡ ruling bound.old.wire.guard }
    {
        let Alone { relay, bell, gauge } = self;
        let BoundService { wire, service } = bound;
        if !relay.orders.is_empty() || service.waiting.is_some() {
            bell.ring();
        }
        let report = lone_turn(rt, service, wire, relay, buf)?;
        relay.show(gauge);
        Ok(report)
    }
}
