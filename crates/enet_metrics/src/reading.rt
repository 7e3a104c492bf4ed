//! What is told of a service.

ghost use Rattle.std.specs.Prelude.{◌≡◌, ◌++◌, IfOk, OnOk};
ghost use Rattle.std.specs.String.{string_bytes};
ghost use Rattle.enet_metrics.specs.Readings.{peers_text, queued_text, slots_text, states_text, waiting_text, datagrams_text, bytes_text, sends_text, traffic_text, stops_text, refusals_text, age_text, known_age_text, reading_text, is_alive};

use crate::text::{push_figure, push_head, push_line, push_reasons, push_seconds};
use crate::trips::{Trips, push_trips};
use std::alloc::{AllocError, Global};

/// So many milliseconds after its last look a service counts as hung.
const HUNG: u64 = 1_000;

/// How a service stands. Counts are since its start.
#[derive(Clone, Copy)]
pub struct Standing {
    /// How many peers are connected.
    pub peers: u64,
    /// How many slots it has, and how many of them are free with a generation left, free with none, with a peer that waits for the other
    /// end's answer, with one that waits for the acknowledgement of its own, with one that is connected, with one that leaves.
    pub slots: u64,
    pub free: u64,
    pub spent: u64,
    pub connecting: u64,
    pub answering: u64,
    pub connected: u64,
    pub leaving: u64,
    /// Datagrams that came, and that the host put out, and their bytes.
    pub datagrams_in: u64,
    pub bytes_in: u64,
    pub datagrams_out: u64,
    pub bytes_out: u64,
    /// Data commands that ask for an acknowledgement, each time that one went; and those times that it had gone before.
    pub sends: u64,
    pub resends: u64,
    /// Datagrams that the socket didn't take.
    pub lost: u64,
    /// CONNECTs that the guard passed over.
    pub passed_over: u64,
    /// Orders and events that wait.
    pub orders: u64,
    pub events: u64,
    /// Bytes of reliable packets that were sent, aren't acknowledged and aren't due to be sent again.
    pub in_transit: u64,
    /// Commands that aren't acknowledged and were sent more than once.
    pub sent_again: u64,
    /// Bytes of packets that are queued for peers, or sent and not acknowledged, and those of the peer that has the most.
    pub queued: u64,
    pub queued_most: u64,
    /// Peers that were full when a reliable packet came for them, and were disconnected.
    pub dropped: u64,
    /// Packets, or pieces of long ones, that the guard passed over, since their clients had sent too much.
    pub beyond_share: u64,
}

/// All that is told of a service.
#[derive(Clone, Copy)]
pub struct Reading {
    pub standing: Standing,
    /// How many datagrams were stopped, for the reasons S1 to S13.
    pub stops: [u64; 13],
    /// How many orders were refused, for the reasons E1 to E9.
    pub refusals: [u64; 9],
    pub trips: Trips,
    /// How many milliseconds ago the service last looked; None where the clock can't be read.
    pub age: Option<u64>,
}

impl Reading {
    /// Whether the last look was less than a second ago. Where the clock can't be read nobody knows: then it is told as hung.
    pub fn is_alive(&self) -> bool
        ensures { result ≡ is_alive self.now }
    {
        match self.age {
            Some(age) => age < HUNG,
            None => false,
        }
    }

    /// In the text format of Prometheus. An error for want of memory.
    pub fn text(&self, alloc: Global) -> Result<String, AllocError>
        ensures { IfOk result (λ text. string_bytes text ≡ reading_text self.now) }
    {
        let mut text = String::new(alloc);
        push_reading(&mut text, self)?;
        Ok(text)
    }
}

// Puts all that is told behind the text that is there. An error for want of memory, as by all that follow.
fn push_reading(text: &mut String, reading: &Reading) -> Result<(), AllocError>
    ensures { OnOk result (string_bytes text.new ≡ string_bytes text.old ++ reading_text reading.now) }
{
    push_standing(text, &reading.standing)?;
    push_stops(text, reading)?;
    push_refusals(text, reading)?;
    push_trips(text, &reading.trips)?;
    push_age(text, reading.age)?;
    Ok(())
}

fn push_standing(text: &mut String, standing: &Standing) -> Result<(), AllocError>
    ensures { OnOk result (string_bytes text.new ≡ string_bytes text.old
        ++ (peers_text standing.now ++ queued_text standing.now ++ slots_text standing.now ++ waiting_text standing.now ++ traffic_text standing.now)) }
{
    push_peers(text, standing)?;
    push_queued(text, standing)?;
    push_slots(text, standing)?;
    push_waiting(text, standing)?;
    push_traffic(text, standing)?;
    Ok(())
}

fn push_peers(text: &mut String, standing: &Standing) -> Result<(), AllocError>
    ensures { OnOk result (string_bytes text.new ≡ string_bytes text.old ++ peers_text standing.now) }
{
    push_figure(
        text,
        "enet_peers",
        "gauge",
        "How many peers are connected.",
        standing.peers,
    )?;
    push_figure(
        text,
        "enet_in_transit_bytes",
        "gauge",
        "Bytes of reliable packets that were sent, are not acknowledged and are not due to be sent again.",
        standing.in_transit,
    )?;
    push_figure(
        text,
        "enet_sent_again",
        "gauge",
        "Commands that are not acknowledged and were sent more than once.",
        standing.sent_again,
    )?;
    push_figure(
        text,
        "enet_connects_passed_over_total",
        "counter",
        "CONNECTs that the guard kept from the host.",
        standing.passed_over,
    )?;
    Ok(())
}

fn push_queued(text: &mut String, standing: &Standing) -> Result<(), AllocError>
    ensures { OnOk result (string_bytes text.new ≡ string_bytes text.old ++ queued_text standing.now) }
{
    push_figure(
        text,
        "enet_queued_bytes",
        "gauge",
        "Bytes of packets that are queued for peers, or sent and not acknowledged.",
        standing.queued,
    )?;
    push_figure(
        text,
        "enet_queued_bytes_most",
        "gauge",
        "Those of the peer that has the most.",
        standing.queued_most,
    )?;
    push_figure(
        text,
        "enet_receivers_dropped_total",
        "counter",
        "Peers that were full when a reliable packet came for them, and were disconnected.",
        standing.dropped,
    )?;
    push_figure(
        text,
        "enet_packets_dropped_total",
        "counter",
        "Packets, or pieces of long ones, that the guard kept from the host, since their clients had sent too much.",
        standing.beyond_share,
    )?;
    Ok(())
}

fn push_slots(text: &mut String, standing: &Standing) -> Result<(), AllocError>
    ensures { OnOk result (string_bytes text.new ≡ string_bytes text.old ++ slots_text standing.now) }
{
    push_figure(
        text,
        "enet_slots",
        "gauge",
        "How many peers there is room for.",
        standing.slots,
    )?;
    push_head(
        text,
        "enet_slots_by_state",
        "gauge",
        "What the slots are, as they were at most a second before the last look.",
    )?;
    push_states(text, standing)?;
    Ok(())
}

fn push_states(text: &mut String, standing: &Standing) -> Result<(), AllocError>
    ensures { OnOk result (string_bytes text.new ≡ string_bytes text.old ++ states_text standing.now) }
{
    push_line(text, "enet_slots_by_state{state=\"free\"}", standing.free)?;
    push_line(text, "enet_slots_by_state{state=\"spent\"}", standing.spent)?;
    push_line(
        text,
        "enet_slots_by_state{state=\"connecting\"}",
        standing.connecting,
    )?;
    push_line(
        text,
        "enet_slots_by_state{state=\"answering\"}",
        standing.answering,
    )?;
    push_line(
        text,
        "enet_slots_by_state{state=\"connected\"}",
        standing.connected,
    )?;
    push_line(
        text,
        "enet_slots_by_state{state=\"leaving\"}",
        standing.leaving,
    )?;
    Ok(())
}

fn push_waiting(text: &mut String, standing: &Standing) -> Result<(), AllocError>
    ensures { OnOk result (string_bytes text.new ≡ string_bytes text.old ++ waiting_text standing.now) }
{
    push_head(
        text,
        "enet_waiting",
        "gauge",
        "Orders and events that wait between relay and service.",
    )?;
    push_line(text, "enet_waiting{what=\"orders\"}", standing.orders)?;
    push_line(text, "enet_waiting{what=\"events\"}", standing.events)?;
    Ok(())
}

fn push_traffic(text: &mut String, standing: &Standing) -> Result<(), AllocError>
    ensures { OnOk result (string_bytes text.new ≡ string_bytes text.old ++ traffic_text standing.now) }
{
    push_datagrams(text, standing)?;
    push_bytes(text, standing)?;
    push_sends(text, standing)?;
    push_figure(
        text,
        "enet_datagrams_lost_total",
        "counter",
        "Datagrams that the socket did not take.",
        standing.lost,
    )?;
    Ok(())
}

fn push_datagrams(text: &mut String, standing: &Standing) -> Result<(), AllocError>
    ensures { OnOk result (string_bytes text.new ≡ string_bytes text.old ++ datagrams_text standing.now) }
{
    push_head(
        text,
        "enet_datagrams_total",
        "counter",
        "Datagrams that came, and that the host put out.",
    )?;
    push_line(
        text,
        "enet_datagrams_total{way=\"in\"}",
        standing.datagrams_in,
    )?;
    push_line(
        text,
        "enet_datagrams_total{way=\"out\"}",
        standing.datagrams_out,
    )?;
    Ok(())
}

fn push_bytes(text: &mut String, standing: &Standing) -> Result<(), AllocError>
    ensures { OnOk result (string_bytes text.new ≡ string_bytes text.old ++ bytes_text standing.now) }
{
    push_head(text, "enet_bytes_total", "counter", "Their bytes.")?;
    push_line(text, "enet_bytes_total{way=\"in\"}", standing.bytes_in)?;
    push_line(text, "enet_bytes_total{way=\"out\"}", standing.bytes_out)?;
    Ok(())
}

fn push_sends(text: &mut String, standing: &Standing) -> Result<(), AllocError>
    ensures { OnOk result (string_bytes text.new ≡ string_bytes text.old ++ sends_text standing.now) }
{
    push_figure(
        text,
        "enet_sends_total",
        "counter",
        "Commands with data that went and ask for an acknowledgement, resent ones included.",
        standing.sends,
    )?;
    push_figure(
        text,
        "enet_resends_total",
        "counter",
        "Those of them that had gone before.",
        standing.resends,
    )?;
    Ok(())
}

fn push_stops(text: &mut String, reading: &Reading) -> Result<(), AllocError>
    ensures { OnOk result (string_bytes text.new ≡ string_bytes text.old ++ stops_text reading.now) }
{
    push_head(
        text,
        "enet_datagrams_stopped_total",
        "counter",
        "Datagrams that were not read to their end, by the reason.",
    )?;
    push_reasons(text, "enet_datagrams_stopped_total", "S", &reading.stops)?;
    Ok(())
}

fn push_refusals(text: &mut String, reading: &Reading) -> Result<(), AllocError>
    ensures { OnOk result (string_bytes text.new ≡ string_bytes text.old ++ refusals_text reading.now) }
{
    push_head(
        text,
        "enet_orders_refused_total",
        "counter",
        "Orders that the host refused, by the reason.",
    )?;
    push_reasons(text, "enet_orders_refused_total", "E", &reading.refusals)?;
    Ok(())
}

// Nothing where it isn't known.
fn push_age(text: &mut String, age: Option<u64>) -> Result<(), AllocError>
    ensures { OnOk result (string_bytes text.new ≡ string_bytes text.old ++ age_text age) }
{
    match age {
        Some(age) => push_known_age(text, age),
        None => Ok(()),
    }
}

fn push_known_age(text: &mut String, age: u64) -> Result<(), AllocError>
    ensures { OnOk result (string_bytes text.new ≡ string_bytes text.old ++ known_age_text age) }
{
    push_head(
        text,
        "enet_look_age_seconds",
        "gauge",
        "How long ago the service last looked.",
    )?;
    push_seconds(text, "enet_look_age_seconds", age)?;
    Ok(())
}
