//! The service and its turns.
ghost use Rattle.std.specs.Prelude.{◌≡◌, ◌+◌, is_err};
ghost use Rattle.enet_wire.specs.Wires.{also, unless_spent};
ghost use Rattle.enet_turn.specs.Phases.{Chain, nothing_waits};
ghost use Rattle.enet_turn.specs.Turn.{Round, Turn, Reports};
ghost use Rattle.enet_turn.specs.Counts.{count_of};

use crate::emitting::emit_all;
use crate::host::Core;
use crate::orders::take_orders;
use crate::receiving::receive_all;
use crate::report::{Fault, Report};
use crate::telling::{offer_again, tell_all};
use crate::waiting::Waiting;
use enet_bridge::{Sink, Source};
use enet_codec::Refusal;
use enet_wire::Wire;
use std::sync::Wait;

/// Where events come as seldom as this, in milliseconds, whoever takes them has little else to do, and their orders are worth a wait.
const SELDOM: u32 = 2;

/// A host, and what waits for room in the sink.
#[derive(Drop)]
pub struct Service<H> {
    pub host: H,
    pub waiting: Waiting,
}

impl<H: Core> Service<H> {
    /// A service of this host, with nothing waiting.
    pub fn new(host: H) -> Service<H>
        ensures { (result.host ≡ host) × (result.waiting ≡ nothing_waits) }
    {
        Service {
            host,
            waiting: Waiting::nothing(),
        }
    }

    /// One turn: the tick; one offer of what waits, the refusal first; while no refusal waits, at most 256 orders; at most 256 datagrams
    /// in; at most 256 datagrams out, and none after 16 that were lost or one whose send would block; and while no event of it waits,
    /// the host's events. Where it told some after 2 ms or more, it tells the source that orders are likely to come soon.
    ///
    /// E14 where the wire fails: the turn ends there, and the report says what was done before.
    pub fn turn<W: Wire, S: Source, K: Sink, R: Wait>(
        &mut self,
        rt: &R,
        wire: &mut W,
        source: &mut S,
        sink: &mut K,
        ms: u32,
    ) -> Result<Report, Fault>
        ensures turn { (round : Round) × (round.ms ≡ ms) × (round.failed ≡ is_err result)
            × Chain S.gives source.old round.gave source.new
            × (W.told wire.new ≡ also (W.told wire.old) (unless_spent (W.faults wire.old) round.told))
            × Chain (λ s x t. K.puts s x.0 x.1 t) sink.old round.puts sink.new
            × Turn H.calls self.old round self.new × Reports result round.report }
        ensures faults { W.faults wire.new ≡ W.faults wire.old + count_of (is_err result) }
        ensures kept { W.kept wire.new ≡ W.kept wire.old }
    {
        self.turn_through(rt, wire, source, sink, ms, &mut [0u8; 4096])
    }

    /// A turn, as [`Service::turn`] takes it, whose datagrams pass through this buffer: so turns need not clear one each.
    pub(crate) fn turn_through<W: Wire, S: Source, K: Sink, R: Wait>(
        &mut self,
        rt: &R,
        wire: &mut W,
        source: &mut S,
        sink: &mut K,
        ms: u32,
        buf: &mut [u8; 4096],
    ) -> Result<Report, Fault>
        ensures turn { (round : Round) × (round.ms ≡ ms) × (round.failed ≡ is_err result)
            × Chain S.gives source.old round.gave source.new
            × (W.told wire.new ≡ also (W.told wire.old) (unless_spent (W.faults wire.old) round.told))
            × Chain (λ s x t. K.puts s x.0 x.1 t) sink.old round.puts sink.new
            × Turn H.calls self.old round self.new × Reports result round.report }
        ensures faults { W.faults wire.new ≡ W.faults wire.old + count_of (is_err result) }
        ensures kept { W.kept wire.new ≡ W.kept wire.old }
    {
        self.host.tick(ms);
        let again = offer_again(rt, sink, &mut self.waiting);
        let (orders, told) = take_orders(rt, &mut self.host, &mut self.waiting, source, sink);
        let before = again.saturating_add(told);
        let heard = receive_all(&mut self.host, wire, buf);
        if heard.failed {
            sink.announce();
            return Err(fault(report_of(orders, heard.received, 0, 0, before)));
        }
        let sent = emit_all(&mut self.host, wire, buf);
        if sent.failed {
            let report = report_of(orders, heard.received, sent.sent, sent.lost, before);
            sink.announce();
            return Err(fault(report));
        }
        let after = tell_all(rt, &mut self.host, &mut self.waiting, sink);
        sink.announce();
        if ms >= SELDOM && after > 0 {
            source.expect();
        }
        let events = before.saturating_add(after);
        Ok(report_of(orders, heard.received, sent.sent, sent.lost, events))
    }
}

pub(crate) fn report_of(orders: u32, received: u32, sent: u32, lost: u32, events: u32) -> Report
    ensures { result ≡ record { orders = orders; received = received; sent = sent; lost = lost; events = events } }
{
    Report {
        orders,
        received,
        sent,
        lost,
        events,
    }
}

pub(crate) fn fault(report: Report) -> Fault
    ensures { result ≡ record { why = Refusal.WireFault; report = report } }
{
    Fault {
        why: Refusal::WireFault,
        report,
    }
}
