//! What the server's operator is told while it serves.

use crate::desk::Desk;
use crate::loudness::{Loud, Loudness};
use crate::monitor::{Counted, Monitor};
use enet_codec::{PeerRef, Refusal};
use enet_console::{Outlet, Stream, Word};
use enet_peer::Ending;
use enet_serve::{ChatServer, Gauge, Met, Note, TOO_LOUD, TOO_SLOW, Watch, WatchedHost};
use enet_service::Report;
use std::alloc::{AllocError, Global};
use std::net::Ipv4Addr;
use std::rt::Clock;
use std::sync::atomic::Ordering::SeqCst;
use std::time::{Duration, Instant};

/// Totals are told once in so many seconds.
const BETWEEN_TOTALS: u64 = 60;

/// Refused orders are told once in so many seconds.
const BETWEEN_REFUSALS: u64 = 1;

/// At one look so many lines of the operator are obeyed at most.
const MOST_LINES: u32 = 16;

/// Tells the server's operator on standard error: its totals each minute and, if that is asked, each connection, each client that is too
/// slow or too loud, each end of one and, once a second, how many orders were refused and whose packets were passed over; and does what the
/// operator says. A line that can't be written, or not at once, ends nothing and holds up nothing.
#[derive(Drop)]
pub struct Operator<'a, R> {
    rt: &'a R,
    alloc: Global,
    gauge: &'a Gauge,
    logs: bool,
    errors: Outlet,
    desk: Desk,
    monitor: Option<Monitor>,
    loudness: Option<Loudness>,
    told_at: Option<Instant>,
    lost: u64,
    refused: u64,
    // How many refused orders the log has still to tell, and to whom the last one was and why it was refused.
    untold: u64,
    last_refused: Option<(Option<PeerRef>, Refusal)>,
    // When it last told some.
    refusals_at: Option<Instant>,
    // Orders taken and events told by the service.
    orders: u64,
    events: u64,
}

impl<'a, R> Operator<'a, R> {
    /// For a server whose host has so many slots. Where it is controlled, standard input is read.
    pub fn new(
        rt: &'a R,
        alloc: Global,
        gauge: &'a Gauge,
        slots: u16,
        logs: bool,
        is_controlled: bool,
    ) -> Result<Operator<'a, R>, AllocError> {
        Ok(Operator {
            rt,
            alloc,
            gauge,
            logs,
            errors: Outlet::new(Stream::Error),
            desk: Desk::new(alloc, slots, is_controlled)?,
            monitor: None,
            loudness: None,
            told_at: None,
            lost: 0,
            refused: 0,
            untold: 0,
            last_refused: None,
            refusals_at: None,
            orders: 0,
            events: 0,
        })
    }

    /// Has a monitor told, too.
    pub fn tell(&mut self, monitor: Monitor) {
        self.monitor = Some(monitor);
    }

    /// Has those ended, too, who send more than their share for long.
    pub fn hear(&mut self, loudness: Loudness) {
        self.loudness = Some(loudness);
    }

    /// Hands to the server what its operator asked for. True where nothing was, and it is to end: so what was said before comes before
    /// the end. E1 for want of memory.
    pub fn hand_over(&mut self, server: &mut ChatServer) -> Result<bool, Refusal> {
        self.desk.hand_over(server)
    }
}

impl<R: Clock + Print + Eprint> Watch for Operator<'_, R> {
    fn look(&mut self, host: &WatchedHost, report: Report) {
        self.lost = self.lost.saturating_add(u64::from(report.lost));
        self.orders = self.orders.saturating_add(u64::from(report.orders));
        self.events = self.events.saturating_add(u64::from(report.events));
        self.refused = self.refused.saturating_add(host.refused());
        let counted = self.counted();
        if let Some(monitor) = &mut self.monitor {
            monitor.look(self.rt, host, counted);
        }
        if self.logs {
            self.log_all(host);
        }
        if self.is_time() {
            let totals = self.totals(host);
            self.errors.line(self.rt, totals);
        }
        self.errors.settle(self.rt);
        self.desk.note(self.rt, host);
        self.listen(host);
        self.obey(host);
    }

    fn wants_end(&self) -> bool {
        self.desk.is_waiting()
    }
}

impl<R: Clock + Print + Eprint> Operator<'_, R> {
    // Whether a minute has passed since it was time, first since it was asked. Never where the clock can't be read.
    fn is_time(&mut self) -> bool {
        let Ok(now) = Instant::now(self.rt) else {
            return false;
        };
        let Some(told_at) = self.told_at else {
            self.told_at = Some(now);
            return false;
        };
        if now.saturating_duration_since(told_at) < Duration::from_secs(BETWEEN_TOTALS) {
            return false;
        }
        self.told_at = Some(now);
        true
    }

    // Whether a second has passed since refused orders were last told. True if none were, or the clock can't be read.
    fn is_time_for_refusals(&mut self) -> bool {
        let now = Instant::now(self.rt).ok();
        if let (Some(now), Some(told_at)) = (now, self.refusals_at) {
            if now.saturating_duration_since(told_at) < Duration::from_secs(BETWEEN_REFUSALS) {
                return false;
            }
        }
        self.refusals_at = now;
        true
    }

    // What waits is in the queues and beside them.
    fn counted(&self) -> Counted {
        Counted {
            peers: u64::try_from(self.gauge.peers.load(SeqCst)).unwrap_or(u64::MAX),
            lost: self.lost,
            orders: self.gauge.asked().saturating_sub(self.orders),
            events: self.events.saturating_sub(self.gauge.expanded()),
        }
    }

    // `out` counts what the host put out; `lost` says how many of those didn't leave.
    fn totals(&self, host: &WatchedHost) -> Result<String, AllocError> {
        let alloc = self.alloc;
        let Counted {
            peers,
            lost,
            orders,
            events,
        } = self.counted();
        let totals = host.host().totals();
        let came = totals.datagrams_in;
        let bytes_in = totals.bytes_in;
        let went = totals.datagrams_out;
        let bytes_out = totals.bytes_out;
        let refused = self.refused;
        format!(in alloc;
            "peers {peers} in {came} bytes {bytes_in} out {went} bytes {bytes_out} lost {lost} refused {refused} waiting orders {orders} events {events}\n"
        )
    }

    // Does what the operator says now.
    fn obey(&mut self, host: &WatchedHost) {
        for _line in 0..MOST_LINES {
            match self.desk.next(self.alloc) {
                None => return,
                Some(Ok(word)) => self.carry_out(host, word),
                Some(Err(_)) => self.answer("no memory"),
            }
        }
    }

    fn answer(&mut self, words: &str) {
        let line = format!(in self.alloc; "{words}\n");
        self.desk.answer(self.rt, line);
    }

    fn carry_out(&mut self, host: &WatchedHost, word: Word) {
        let (rt, alloc) = (self.rt, self.alloc);
        match word {
            Word::Totals => {
                let totals = self.totals(host);
                self.desk.answer(rt, totals);
            }
            Word::Log(logs) => {
                self.logs = logs;
                let told = if logs { "on" } else { "off" };
                self.desk.answer(rt, format!(in alloc; "log {told}\n"));
            }
            Word::Peers => self.desk.tell_peers(rt, alloc, host),
            Word::Stop => self.desk.stop(rt, alloc),
            Word::Kick { peer, info } => self.desk.kick(rt, alloc, host, peer, info),
            Word::Ban(ip) => self.desk.ban(rt, alloc, host, ip),
            Word::Unban(ip) => self.desk.unban(rt, alloc, ip),
            Word::Say(text) => self.desk.say(rt, alloc, host, text),
            Word::Unknown => self.answer("not understood"),
        }
    }

    // Who came and went first, so that no line of refused orders takes the place of one of these.
    fn log_all(&mut self, host: &WatchedHost) {
        for note in host.notes() {
            if let Note::Refused { peer, why } = note {
                self.last_refused = Some((*peer, *why));
            }
            if let Some(line) = logged(self.alloc, note) {
                self.errors.line(self.rt, line);
            }
        }
        self.errors.miss(host.missed());
        self.untold = self.untold.saturating_add(host.refused());
        self.log_refusals();
    }

    // Once a second, what was passed over of what clients sent.
    fn listen(&mut self, host: &WatchedHost) {
        let Some(mut loudness) = self.loudness.take() else {
            return;
        };
        if loudness.is_time(self.rt) {
            for met in host.met() {
                if let Some(met) = met {
                    if let Some(loud) = loudness.hear(met) {
                        self.note_loud(&loud);
                    }
                }
            }
        }
        self.loudness = Some(loudness);
    }

    // Has a client end that is too loud, and tells of what was passed over of it, if that is asked.
    fn note_loud(&mut self, loud: &Loud) {
        if loud.is_too_loud {
            self.desk.end_loud(loud.met.peer);
        }
        if !self.logs {
            return;
        }
        self.errors.line(self.rt, logged_loud(self.alloc, loud));
        if loud.is_too_loud {
            let line = logged_met(self.alloc, "too loud", &loud.met, TOO_LOUD, "");
            self.errors.line(self.rt, line);
        }
    }

    fn log_refusals(&mut self) {
        let Some((peer, why)) = self.last_refused else {
            return;
        };
        if self.untold > 0 && self.is_time_for_refusals() {
            let line = logged_refusals(self.alloc, self.untold, peer, why);
            self.errors.line(self.rt, line);
            self.untold = 0;
        }
    }
}

fn logged_loud(alloc: Global, loud: &Loud) -> Result<String, AllocError> {
    let slot = loud.met.peer.slot;
    let generation = loud.met.peer.generation;
    let ip = Ipv4Addr::from_bits(loud.met.address.ip);
    let port = loud.met.address.port;
    let packets = loud.packets;
    format!(in alloc; "beyond its share {slot}.{generation} at {ip}:{port} packets {packets}\n")
}

// A server that only relays gives no order to connect: of such a one nothing is told. Refused orders are counted.
fn logged(alloc: Global, note: &Note) -> Option<Result<String, AllocError>> {
    match note {
        Note::Asked { .. } | Note::Refused { .. } => None,
        Note::Came { met, info } => Some(logged_met(alloc, "connect", met, *info, "")),
        Note::Went { met, info, why } => {
            Some(logged_met(alloc, "disconnect", met, *info, told_of(*why)))
        }
        Note::Lacks { met } => Some(logged_met(alloc, "too slow", met, TOO_SLOW, "")),
    }
}

// Why a connection ended.
fn told_of(ending: Option<Ending>) -> &'static str {
    match ending {
        Some(Ending::AskedHere) => ": asked here",
        Some(Ending::AskedThere) => ": asked there",
        Some(Ending::TimedOut) => ": timed out",
        Some(Ending::NeverAnswered) => ": never answered",
        Some(Ending::BadAnswer) => ": bad answer",
        None => "",
    }
}

// So many orders were refused, the last one to this peer, or to connect.
fn logged_refusals(
    alloc: Global,
    count: u64,
    peer: Option<PeerRef>,
    why: Refusal,
) -> Result<String, AllocError> {
    let Some(peer) = peer else {
        return format!(in alloc; "orders refused {count}, the last to connect: {why}\n");
    };
    let slot = peer.slot;
    let generation = peer.generation;
    format!(in alloc; "orders refused {count}, the last to {slot}.{generation}: {why}\n")
}

fn logged_met(
    alloc: Global,
    what: &str,
    met: &Met,
    info: u32,
    why: &str,
) -> Result<String, AllocError> {
    let slot = met.peer.slot;
    let generation = met.peer.generation;
    let ip = Ipv4Addr::from_bits(met.address.ip);
    let port = met.address.port;
    format!(in alloc; "{what} {slot}.{generation} at {ip}:{port} info {info}{why}\n")
}
