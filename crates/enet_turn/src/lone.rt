//! The parts of a turn between which the service's own thread makes the orders.
ghost use Rattle.std.specs.Prelude.{◌≡◌, ◌+◌, List, Bool, Option, true, false, IfOk, IfErr, is_err};
ghost use Rattle.enet_codec.specs.declared.event.Event.{Event as Offered};
ghost use Rattle.enet_submit.specs.declared.order.Submission.{Submission as Item};
ghost use Rattle.enet_wire.specs.declared.told.Told.{Told as Call};
ghost use Rattle.enet_wire.specs.Wires.{also, unless_spent};
ghost use Rattle.enet_turn.specs.Phases.{Chain, Orders, EmitsAll};
ghost use Rattle.enet_turn.specs.LoneTurn.{Begins};
ghost use Rattle.enet_turn.specs.Counts.{count_of, given_in, came_in, went_in, lost_in, taken_in, stopped};

use crate::emitting::emit_all;
use crate::host::Core;
use crate::orders::take_orders;
use crate::receiving::receive_all;
use crate::report::{Fault, Report};
use crate::service::{Service, fault, report_of};
use crate::telling::{offer_again, tell_all};
use enet_bridge::{Sink, Source};
use enet_codec::Refusal;
use enet_wire::Wire;
use std::sync::Wait;

impl<H: Core> Service<H> {
    /// The first part of such a turn, and more than a reception: the tick; one offer of what waits, the refusal first; at most 256 datagrams in,
    /// through this buffer; and while no event of it waits, the host's events, of which this thread then makes the orders.
    ///
    /// E14 where the wire fails: no event is told then but what waited.
    pub fn receive<W: Wire, K: Sink, R: Wait>(
        &mut self,
        rt: &R,
        wire: &mut W,
        sink: &mut K,
        ms: u32,
        buf: &mut [u8; 4096],
    ) -> Result<Report, Fault>
        ensures begins { IfOk result (λ report. (came : List Call) × (puts : List (Offered × Bool))
            × Begins H.calls self.old ms came puts self.new false
            × (W.told wire.new ≡ also (W.told wire.old) (unless_spent (W.faults wire.old) came))
            × Chain (λ s x t. K.puts s x.0 x.1 t) sink.old puts sink.new
            × (report ≡ record { orders = 0; received = came_in came; sent = 0; lost = 0; events = stopped (taken_in puts) })) }
        ensures fails { IfErr result (λ fault. (came : List Call) × (puts : List (Offered × Bool))
            × Begins H.calls self.old ms came puts self.new true
            × (W.told wire.new ≡ also (W.told wire.old) (unless_spent (W.faults wire.old) came))
            × Chain (λ s x t. K.puts s x.0 x.1 t) sink.old puts sink.new
            × (fault.report ≡ record { orders = 0; received = came_in came; sent = 0; lost = 0; events = taken_in puts })) }
        ensures why { IfErr result (λ fault. fault.why ≡ Refusal.WireFault) }
        ensures faults { W.faults wire.new ≡ W.faults wire.old + count_of (is_err result) }
        ensures kept { W.kept wire.new ≡ W.kept wire.old }
    {
        self.host.tick(ms);
        let again = offer_again(rt, sink, &mut self.waiting);
        let heard = receive_all(&mut self.host, wire, buf);
        if heard.failed {
            return Err(fault(report_of(0, heard.received, 0, 0, again)));
        }
        let told = tell_all(rt, &mut self.host, &mut self.waiting, sink);
        let events = again.saturating_add(told);
        Ok(report_of(0, heard.received, 0, 0, events))
    }

    /// The second part, once or more often: while no refusal waits, at most 256 orders.
    pub fn apply_orders<S: Source, K: Sink, R: Wait>(
        &mut self,
        rt: &R,
        source: &mut S,
        sink: &mut K,
    ) -> Report
        ensures applies { (gave : List (Option Item)) × (puts : List (Offered × Bool))
            × Chain S.gives source.old gave source.new
            × Chain (λ s x t. K.puts s x.0 x.1 t) sink.old puts sink.new
            × Orders H.calls 256 self.old gave (record { service = self.new; puts = puts })
            × (result ≡ record { orders = given_in gave; received = 0; sent = 0; lost = 0; events = taken_in puts }) }
    {
        let (orders, events) = take_orders(rt, &mut self.host, &mut self.waiting, source, sink);
        report_of(orders, 0, 0, 0, events)
    }

    /// The last part: at most 256 datagrams out, through this buffer, and none after 16 that were lost or one whose send would block.
    ///
    /// E14 where the wire fails: the datagrams before went.
    pub fn emit<W: Wire>(&mut self, wire: &mut W, buf: &mut [u8; 4096]) -> Result<Report, Fault>
        ensures sends { IfOk result (λ report. (went : List Call)
            × EmitsAll H.calls 256 16 self.old.host went (record { host = self.new.host; failed = false })
            × (W.told wire.new ≡ also (W.told wire.old) (unless_spent (W.faults wire.old) went))
            × (report ≡ record { orders = 0; received = 0; sent = went_in went; lost = lost_in went; events = 0 })) }
        ensures fails { IfErr result (λ fault. (went : List Call)
            × EmitsAll H.calls 256 16 self.old.host went (record { host = self.new.host; failed = true })
            × (W.told wire.new ≡ also (W.told wire.old) (unless_spent (W.faults wire.old) went))
            × (fault.report ≡ record { orders = 0; received = 0; sent = went_in went; lost = lost_in went + 1; events = 0 })) }
        ensures waits { self.new.waiting ≡ self.old.waiting }
        ensures why { IfErr result (λ fault. fault.why ≡ Refusal.WireFault) }
        ensures faults { W.faults wire.new ≡ W.faults wire.old + count_of (is_err result) }
        ensures kept { W.kept wire.new ≡ W.kept wire.old }
    {
        let sent = emit_all(&mut self.host, wire, buf);
        let report = report_of(0, 0, sent.sent, sent.lost, 0);
        if sent.failed {
            return Err(fault(report));
        }
        Ok(report)
    }
}
