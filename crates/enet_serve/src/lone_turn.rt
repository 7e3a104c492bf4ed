//! A turn of a service whose relay shares its thread.
ghost use Rattle.std.specs.Prelude.{◌≡◌, ◌≢◌, ◌+◌, ◌≤◌, ◌⊎◌, List, ◌∷◌, length, false, OnOk, IfOk, IfErr};
ghost use Rattle.enet_chat.specs.Relaying.{AreBehind, AreFarBehind};
ghost use Rattle.enet_turn.specs.LoneTurn.{LoneTurn, lone, RoundsOf, Applied, AppliesAll, gave_in, puts_in};
ghost use Rattle.enet_turn.specs.Run.{AreCut, all_gave, all_told, all_puts};
ghost use Rattle.enet_turn.specs.Turn.{Round};
ghost use Rattle.enet_turn.specs.Counts.{given_in, taken_in, stopped};
ghost use Rattle.enet_wire.specs.declared.told.Told.TheVariants.{Waited};
ghost use Rattle.enet_wire.specs.Wires.{also, unless_spent};
ghost use Rattle.enet_chat.specs.Lone.{Expands};
ghost use Rattle.enet_serve.specs.Private.Passing.{Passes};

use enet_chat::LoneRelay;
use enet_codec::Refusal;
use enet_service::{Core, Fault, Report, Service, Wire};
use std::rt::Clock;
use std::sync::Wait;

/// So many times a turn expands events and takes orders before it sends.
const MOST_ROUNDS: u32 = 64;

/// Takes a turn after a wait: what comes, the events of it, expanded and their orders carried out until none is left or much was done, and
/// then what goes. So an acknowledgement and the packets that the same datagram gave leave together.
///
/// E14 where the wire fails: what was done until then stands. E1 for want of memory, where an event found none, too.
pub(crate) fn lone_turn<H: Core, W: Wire, R: Wait + Clock>(
    rt: &R,
    service: &mut Service<H>,
    wire: &mut W,
    relay: &mut LoneRelay,
    buf: &mut [u8; 4096],
) -> Result<Report, Fault>
    ensures turn { IfOk result (λ report. (round : Round) × (round.report ≡ report) × LoneTurn H.calls service.old round service.new
        × Passes relay.old round.gave round.puts relay.new
        × (W.told wire.new ≡ also (W.told wire.old) (unless_spent (W.faults wire.old) (Waited round.ms ∷ round.told))) × (round.failed ≡ false)) }
    ensures cut { IfErr result (λ fault. fault.why ≡ Refusal.WireFault → (rounds : List Round) × AreCut rounds × RoundsOf lone H.calls service.old rounds service.new
        × Passes relay.old (all_gave rounds) (all_puts rounds) relay.new
        × (W.told wire.new ≡ also (W.told wire.old) (unless_spent (W.faults wire.old) (all_told rounds)))
        × (length rounds ≤ 1)) }
    ensures behind { OnOk result (AreBehind relay.new.events relay.new.orders) }
    ensures far_behind { OnOk result (AreFarBehind 256 relay.new.events relay.new.orders) }
    ensures why { IfErr result (λ fault. (fault.why ≡ Refusal.WireFault) ⊎ (fault.why ≡ Refusal.Memory)) }
    ensures sound { OnOk result (W.faults wire.new ≡ W.faults wire.old) }
    ensures failed { IfErr result (λ fault. fault.why ≡ Refusal.WireFault → W.faults wire.new ≡ W.faults wire.old + 1) }
    ensures other { IfErr result (λ fault. fault.why ≢ Refusal.WireFault → W.faults wire.new ≡ W.faults wire.old) }
    ensures kept { W.kept wire.new ≡ W.kept wire.old }
{
    let ms = match wire.wait(rt) {
        Ok(ms) => ms,
        Err(why) => {
            return Err(Fault {
                why,
                report: Report::nothing(),
            });
        }
    };
    let heard = service.receive(rt, wire, &mut relay.events, ms, buf)?;
    let applied = match apply_all(rt, service, relay) {
        Ok(report) => heard.and(report),
        Err(Fault { why, report }) => {
            return Err(Fault {
                why,
                report: heard.and(report),
            });
        }
    };
    match service.emit(wire, buf) {
        Ok(report) => Ok(applied.and(report)),
        Err(Fault { why, report }) => Err(Fault {
            why,
            report: applied.and(report),
        }),
    }
}

// Expands what was told and has the orders carried out, and again, until no order waits or much was done.
fn apply_all<H: Core, R: Wait>(
    rt: &R,
    service: &mut Service<H>,
    relay: &mut LoneRelay,
) -> Result<Report, Fault>
    ensures applies { IfOk result (λ report. (applied : List Applied) × AppliesAll H.calls service.old applied service.new
        × Passes relay.old (gave_in applied) (puts_in applied) relay.new
        × (report ≡ record { orders = stopped (given_in (gave_in applied)); received = 0; sent = 0; lost = 0; events = stopped (taken_in (puts_in applied)) })) }
    ensures behind { OnOk result (AreBehind relay.new.events relay.new.orders) }
    ensures far_behind { OnOk result (AreFarBehind 256 relay.new.events relay.new.orders) }
    ensures memory { IfErr result (λ fault. fault.why ≡ Refusal.Memory) }
{
    let mut report = Report::nothing();
    if let Err(why) = expand_told(service, relay) {
        return Err(Fault { why, report });
    }
    for _round in 0..MOST_ROUNDS {
        if relay.orders.is_empty() {
            return Ok(report);
        }
        let orders = service.apply_orders(rt, &mut relay.orders, &mut relay.events);
        report = report.and(orders);
        if let Err(why) = expand(service, relay) {
            return Err(Fault { why, report });
        }
    }
    Ok(report)
}

// Expands what was told just before. An event of the host that the list refused, though it isn't full, ends the run, since memory is wanting.
fn expand_told<H: Core>(service: &Service<H>, relay: &mut LoneRelay) -> Result<(), Refusal>
    ensures expands { OnOk result (Expands relay.old relay.new) }
    ensures behind { OnOk result (AreBehind relay.new.events relay.new.orders) }
    ensures far_behind { OnOk result (AreFarBehind 256 relay.new.events relay.new.orders) }
    ensures memory { IfErr result (λ why. why ≡ Refusal.Memory) }
{
    if service.waiting.event.is_some() && !relay.events.is_full() {
        return Err(Refusal::Memory);
    }
    expand(service, relay)
}

// Expands what the list has. A refusal that the list refused ends the run, since memory is wanting: the list takes refusals whatever waits, and
// while one waited no order would be taken.
fn expand<H: Core>(service: &Service<H>, relay: &mut LoneRelay) -> Result<(), Refusal>
    ensures expands { OnOk result (Expands relay.old relay.new) }
    ensures behind { OnOk result (AreBehind relay.new.events relay.new.orders) }
    ensures far_behind { OnOk result (AreFarBehind 256 relay.new.events relay.new.orders) }
    ensures memory { IfErr result (λ why. why ≡ Refusal.Memory) }
{
    if service.waiting.refusal.is_some() {
        return Err(Refusal::Memory);
    }
    relay.expand()
}
