//! What the server does at its operator's word, and about clients that are too slow or too loud.

use bytes::Bytes;
use enet_codec::{DisconnectMode, PeerRef, Refusal};
use enet_console::{Control, Outlet, Stream, Word};
use enet_serve::{ChatServer, Met, Note, WatchedHost, end_of_loud, end_of_slow};
use enet_submit::Order;
use std::alloc::{AllocError, Global};
use std::collections::VecDeque;
use std::net::Ipv4Addr;
use std::rt::Clock;
use std::time::Instant;

/// The channel and the flags of what the operator says: reliable, where chat is.
const CHAT: u8 = 0;

const RELIABLE: u8 = 1;

/// What becomes of an address.
#[derive(Clone, Copy)]
enum Ban {
    Banned(u32),
    Unbanned(u32),
}

/// Where the operator is heard and answered.
#[derive(Drop)]
pub struct Desk {
    // Where there is none, nobody is heard.
    control: Option<Control>,
    answers: Outlet,
    // When the peer of each slot connected.
    since: Vec<Option<Instant>>,
    // What the server is to be asked for.
    orders: VecDeque<Order>,
    bans: VecDeque<Ban>,
    // Whether it is to end.
    stops: bool,
    // Whether there was no memory for an end of a client.
    lacks_memory: bool,
}

impl Desk {
    /// Of a server whose host has so many slots.
    pub fn new(alloc: Global, slots: u16, is_controlled: bool) -> Result<Desk, AllocError> {
        let mut since = Vec::new(alloc);
        let mut control = None;
        if is_controlled {
            since.resize(usize::from(slots), None)?;
            control = Some(Control::new());
        }
        Ok(Desk {
            control,
            answers: Outlet::new(Stream::Output),
            since,
            orders: VecDeque::new(alloc),
            bans: VecDeque::new(alloc),
            stops: false,
            lacks_memory: false,
        })
    }

    /// Whether the server is to be asked for something, or to end.
    pub fn is_waiting(&self) -> bool {
        self.stops || self.lacks_memory || !self.orders.is_empty() || !self.bans.is_empty()
    }

    /// Hands to the server what it is asked for. True where that was nothing, and it is to end. E1 for want of memory, also where that kept
    /// a client from its end.
    pub fn hand_over(&mut self, server: &mut ChatServer) -> Result<bool, Refusal> {
        if self.lacks_memory {
            return Err(Refusal::Memory);
        }
        let is_done = self.stops && self.orders.is_empty() && self.bans.is_empty();
        for _ban in 0..self.bans.len() {
            match self.bans.pop_front() {
                Some(Ban::Banned(ip)) => server.ban(ip)?,
                Some(Ban::Unbanned(ip)) => server.unban(ip),
                None => {}
            }
        }
        server.order(&mut self.orders)?;
        Ok(is_done)
    }

    /// What the operator says next, if it is there. An error where there is no memory for a text.
    pub fn next(&mut self, alloc: Global) -> Option<Result<Word, AllocError>> {
        self.control.as_mut()?.next(alloc)
    }

    /// Answers on standard output.
    pub fn answer<R: Print + Eprint>(&mut self, rt: &R, line: Result<String, AllocError>) {
        self.answers.line(rt, line);
    }

    /// Notes when peers connect, and has those end that are too slow.
    pub fn note<R: Clock>(&mut self, rt: &R, host: &WatchedHost) {
        for note in host.notes() {
            match note {
                Note::Came { met, .. } => self.note_met(rt, met.peer),
                Note::Lacks { met } => self.end(end_of_slow(met.peer)),
                _ => {}
            }
        }
    }

    /// Has the connection of a peer end that has sent more than its share for long.
    pub fn end_loud(&mut self, peer: PeerRef) {
        self.end(end_of_loud(peer));
    }

    // Has a connection end by this order.
    fn end(&mut self, order: Order) {
        if self.orders.push_back(order).is_err() {
            self.lacks_memory = true;
        }
    }

    fn note_met<R: Clock>(&mut self, rt: &R, peer: PeerRef) {
        if let Some(since) = self.since.get_mut(usize::from(peer.slot)) {
            *since = Instant::now(rt).ok();
        }
    }

    /// Who is connected: a line each, and then how many there are.
    pub fn tell_peers<R: Clock + Print + Eprint>(
        &mut self,
        rt: &R,
        alloc: Global,
        host: &WatchedHost,
    ) {
        let mut peers = 0u32;
        for met in host.met() {
            if let Some(met) = met {
                let line = self.peer_line(rt, alloc, host, met);
                self.answer(rt, line);
                peers = peers.saturating_add(1);
            }
        }
        self.answer(rt, format!(in alloc; "peers {peers}\n"));
    }

    fn peer_line<R: Clock>(
        &self,
        rt: &R,
        alloc: Global,
        host: &WatchedHost,
        met: &Met,
    ) -> Result<String, AllocError> {
        let peer = met.peer;
        let slot = peer.slot;
        let generation = peer.generation;
        let ip = Ipv4Addr::from_bits(met.address.ip);
        let port = met.address.port;
        let seconds = self.seconds(rt, peer);
        let trip = host.host().round_trip(peer).map_or(0, |trip| trip.mean);
        let throttle = host.host().throttle(peer).unwrap_or(0);
        let transit = host.host().in_transit(peer).unwrap_or(0);
        let allowance = host.host().allowance(peer).unwrap_or(0);
        let waiting = host.host().outstanding(peer).map_or(0, |it| it.bytes);
        let (sent, again) = host
            .host()
            .traffic(peer)
            .map_or((0, 0), |it| (it.sent, it.again));
        format!(in alloc;
            "peer {slot}.{generation} at {ip}:{port} for {seconds} s round trip {trip} ms throttle {throttle} in transit {transit} bytes allowance {allowance} waiting {waiting} bytes sent {sent} resent {again}\n"
        )
    }

    // For how long a peer is connected; 0 where that isn't known.
    fn seconds<R: Clock>(&self, rt: &R, peer: PeerRef) -> u64 {
        match self.since.get(usize::from(peer.slot)) {
            Some(Some(since)) => match since.elapsed(rt) {
                Ok(elapsed) => elapsed.as_secs(),
                Err(_) => 0,
            },
            _ => 0,
        }
    }

    /// Has the server end.
    pub fn stop<R: Print + Eprint>(&mut self, rt: &R, alloc: Global) {
        self.stops = true;
        self.answer(rt, format!(in alloc; "stopping\n"));
    }

    /// Has the connection of this peer end.
    pub fn kick<R: Print + Eprint>(
        &mut self,
        rt: &R,
        alloc: Global,
        host: &WatchedHost,
        peer: PeerRef,
        info: u32,
    ) {
        let slot = peer.slot;
        let generation = peer.generation;
        let is_there = match host.met().get(usize::from(slot)) {
            Some(Some(met)) => met.peer == peer,
            _ => false,
        };
        let order = Order::Disconnect {
            peer,
            how: DisconnectMode::Ask,
            info,
        };
        let line = if !is_there {
            format!(in alloc; "no peer {slot}.{generation}\n")
        } else if self.orders.push_back(order).is_err() {
            format!(in alloc; "no memory\n")
        } else {
            format!(in alloc; "kicked {slot}.{generation}\n")
        };
        self.answer(rt, line);
    }

    /// Has nobody from this address let in, and the connections from there end.
    pub fn ban<R: Print + Eprint>(&mut self, rt: &R, alloc: Global, host: &WatchedHost, ip: u32) {
        if self.bans.push_back(Ban::Banned(ip)).is_err() {
            self.answer(rt, format!(in alloc; "no memory\n"));
            return;
        }
        let mut kicked = 0u32;
        for met in host.met() {
            if let Some(met) = met {
                if met.address.ip == ip && self.part_from(met.peer) {
                    kicked = kicked.saturating_add(1);
                }
            }
        }
        let address = Ipv4Addr::from_bits(ip);
        self.answer(rt, format!(in alloc; "banned {address} kicked {kicked}\n"));
    }

    // False where there is no memory.
    fn part_from(&mut self, peer: PeerRef) -> bool {
        let order = Order::Disconnect {
            peer,
            how: DisconnectMode::Ask,
            info: 0,
        };
        self.orders.push_back(order).is_ok()
    }

    /// Has this address let in again.
    pub fn unban<R: Print + Eprint>(&mut self, rt: &R, alloc: Global, ip: u32) {
        let address = Ipv4Addr::from_bits(ip);
        let line = if self.bans.push_back(Ban::Unbanned(ip)).is_err() {
            format!(in alloc; "no memory\n")
        } else {
            format!(in alloc; "unbanned {address}\n")
        };
        self.answer(rt, line);
    }

    /// Has this text sent to each client, reliably on channel 0.
    pub fn say<R: Print + Eprint>(
        &mut self,
        rt: &R,
        alloc: Global,
        host: &WatchedHost,
        text: Bytes,
    ) {
        let mut clients = 0u32;
        for met in host.met() {
            if let Some(met) = met {
                if self.say_to(met.peer, &text) {
                    clients = clients.saturating_add(1);
                }
            }
        }
        self.answer(rt, format!(in alloc; "said to {clients}\n"));
    }

    // False where there is no memory.
    fn say_to(&mut self, peer: PeerRef, text: &Bytes) -> bool {
        let Ok(body) = text.clone() else {
            return false;
        };
        let order = Order::Submit {
            peer,
            channel: CHAT,
            flags: RELIABLE,
            body,
        };
        self.orders.push_back(order).is_ok()
    }
}
