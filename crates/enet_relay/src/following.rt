//! What the hosts of a script put out, line by line, and whether it was delivered.

use enet_captured::{HostName, Noted, Source, Timeline, timeline_of};
use enet_codec::Addr;
use enet_fleet::{FIRST_CLIENT, FleetEvent, Node, SERVER};
use enet_lab::{Host, Line, Recipient, Stage, host_text};
use enet_text::address_text;
use enet_world::{Calm, Share, Side, World, WorldEvent};
use std::alloc::{AllocError, Global};
use std::collections::BTreeMap;

/// A line moves a clock so many milliseconds at most.
const LONGEST_TICK: u32 = 60_000;

/// A millisecond in microseconds.
const MILLISECOND: u64 = 1_000;

/// A host puts out so many datagrams in a line at most, and in a round.
const MOST: u32 = 65_536;

/// A host, by its number among those of its script.
#[derive(Clone, Copy)]
struct Followed {
    /// By how many milliseconds its clock has gone on.
    clock: u64,
    /// How many datagrams it has put out.
    sent: u64,
}

/// What the hosts of a script have put out so far.
#[derive(Drop)]
pub struct Following {
    alloc: Global,
    hosts: BTreeMap<u32, Followed>,
    /// By how many milliseconds the clock has gone on that has gone on furthest.
    latest: u64,
    noted: Vec<Noted>,
    /// Where a datagram stands among these, by its host and its number there.
    places: BTreeMap<(u32, u64), usize>,
}

impl Following {
    /// Of no line.
    pub fn new(alloc: Global) -> Following {
        Following {
            alloc,
            hosts: BTreeMap::new(alloc),
            latest: 0,
            noted: Vec::new(alloc),
            places: BTreeMap::new(alloc),
        }
    }

    /// Follows a line that was answered so, and after which the hosts stand so. An error where there is no memory for it.
    pub fn follow(&mut self, line: &Line, stage: &Stage, answer: &[u8]) -> Result<(), AllocError> {
        match line {
            Line::InWorld(event) => self.follow_world(event, stage, answer),
            Line::InFleet(event) => self.follow_fleet(event, stage, answer),
            Line::DeliverLast { side } => {
                let from = Host::OfWorld(other(*side));
                self.deliver(from, self.newest(from), answer)
            }
            Line::DeliverLastFrom { from, .. } => {
                let from = Host::OfFleet(*from);
                self.deliver(from, self.newest(from), answer)
            }
            _ => Ok(()),
        }
    }

    fn follow_world(
        &mut self,
        event: &WorldEvent,
        stage: &Stage,
        answer: &[u8],
    ) -> Result<(), AllocError> {
        match event {
            WorldEvent::Tick { side, ms } => self.tick(Host::OfWorld(*side), *ms),
            WorldEvent::Turn { side } => self.note_new(stage, Host::OfWorld(*side), true),
            WorldEvent::Deliver { side, k } => self.deliver(
                Host::OfWorld(other(*side)),
                *k,
                answer,
            ),
            _ => Ok(()),
        }
    }

    fn follow_fleet(
        &mut self,
        event: &FleetEvent,
        stage: &Stage,
        answer: &[u8],
    ) -> Result<(), AllocError> {
        match event {
            FleetEvent::Tick { node, ms } if answer == b"ok".as_slice() => {
                self.tick(Host::OfFleet(*node), *ms)
            }
            FleetEvent::Turn { node } => self.note_new(stage, Host::OfFleet(*node), true),
            FleetEvent::Deliver { from, k, .. } => self.deliver(Host::OfFleet(*from), *k, answer),
            FleetEvent::Stranger { to, addr, bytes } if is_handled(answer) => {
                self.note_stranger(*addr, *to, bytes.as_slice())
            }
            _ => Ok(()),
        }
    }

    // A host as it is followed.
    fn host(&self, host: Host) -> Followed {
        match self.hosts.get(&number_of(host)) {
            Some(followed) => *followed,
            None => Followed { clock: 0, sent: 0 },
        }
    }

    fn newest(&self, host: Host) -> u64 {
        self.host(host).sent.saturating_sub(1)
    }

    fn tick(&mut self, host: Host, ms: u32) -> Result<(), AllocError> {
        let mut followed = self.host(host);
        followed.clock = followed
            .clock
            .saturating_add(u64::from(ms.min(LONGEST_TICK)));
        self.latest = self.latest.max(followed.clock);
        self.hosts.insert(number_of(host), followed)?;
        Ok(())
    }

    fn now(&self) -> u64 {
        self.latest.saturating_mul(MILLISECOND)
    }

    // Notes what a host has put out and wasn't noted yet. What may be lost is, until it is delivered.
    fn note_new(&mut self, stage: &Stage, host: Host, may_be_lost: bool) -> Result<(), AllocError> {
        for _ in 0..MOST {
            let k = self.host(host).sent;
            let Some((to, bytes)) = datagram(stage, host, k) else {
                return Ok(());
            };
            let is_lost = may_be_lost && is_host(stage, to);
            self.note(host, k, to, bytes, is_lost)?;
        }
        Ok(())
    }

    fn note(
        &mut self,
        host: Host,
        k: u64,
        to: Addr,
        bytes: &[u8],
        is_lost: bool,
    ) -> Result<(), AllocError> {
        let name = host_text(self.alloc, host)?;
        let name = name.as_str();
        let noted = Noted {
            at: self.now(),
            from: address_of(host),
            to,
            bytes: Vec::from_slice(self.alloc, bytes)?,
            name: format!(in self.alloc; "{name}#{k}")?,
            is_lost,
        };
        self.places.insert((number_of(host), k), self.noted.len())?;
        self.noted.push(noted)?;
        let mut followed = self.host(host);
        followed.sent = k.saturating_add(1);
        self.hosts.insert(number_of(host), followed)?;
        Ok(())
    }

    // A stranger's datagram has no name, and comes as soon as it is put out.
    fn note_stranger(&mut self, from: Addr, to: Node, bytes: &[u8]) -> Result<(), AllocError> {
        let noted = Noted {
            at: self.now(),
            from,
            to: address_of(Host::OfFleet(to)),
            bytes: Vec::from_slice(self.alloc, bytes)?,
            name: String::new(self.alloc),
            is_lost: false,
        };
        self.noted.push(noted)?;
        Ok(())
    }

    // A datagram comes, where it was taken in.
    fn deliver(&mut self, from: Host, k: u64, answer: &[u8]) -> Result<(), AllocError> {
        if !is_handled(answer) {
            return Ok(());
        }
        let Some(place) = self.places.get(&(number_of(from), k)).copied() else {
            return Ok(());
        };
        if let Some(noted) = self.noted.get_mut(place) {
            noted.is_lost = false;
        }
        Ok(())
    }

    /// Makes so many rounds without losses happen in a script's world, one by one, and follows each. What came of all. An error where there is no
    /// memory for it.
    pub fn calm(&mut self, stage: &mut Stage, rounds: u64, ms: u32) -> Result<Calm, AllocError> {
        let mut told = Calm {
            a: NOTHING,
            b: NOTHING,
        };
        for _ in 0..rounds {
            let Stage::InWorld(world) = stage else {
                return Ok(told);
            };
            told = sums(told, play_round(world, ms));
            self.tick(Host::OfWorld(Side::A), ms)?;
            self.tick(Host::OfWorld(Side::B), ms)?;
            self.note_new(stage, Host::OfWorld(Side::A), false)?;
            self.note_new(stage, Host::OfWorld(Side::B), false)?;
        }
        Ok(told)
    }

    /// The timeline of what was put out, between hosts that stand so.
    pub fn timeline(&self, stage: &Stage) -> Result<Timeline, AllocError> {
        let hosts = names_of(self.alloc, stage)?;
        timeline_of(self.alloc, Source::Script, hosts, self.noted.as_slice())
    }
}

fn play_round(world: &mut World, ms: u32) -> Calm {
    world.calm(1, ms)
}

/// What a side does in no round.
const NOTHING: Share = Share {
    sent: 0,
    refused: 0,
    stopped: 0,
    taken: 0,
    cut_short: 0,
};

fn sums(told: Calm, more: Calm) -> Calm {
    Calm {
        a: sum(told.a, more.a),
        b: sum(told.b, more.b),
    }
}

fn sum(told: Share, more: Share) -> Share {
    Share {
        sent: told.sent.saturating_add(more.sent),
        refused: told.refused.saturating_add(more.refused),
        stopped: told.stopped.saturating_add(more.stopped),
        taken: told.taken.saturating_add(more.taken),
        cut_short: told.cut_short.saturating_add(more.cut_short),
    }
}

fn is_handled(answer: &[u8]) -> bool {
    answer.starts_with(b"handled ")
}

fn other(side: Side) -> Side {
    match side {
        Side::A => Side::B,
        Side::B => Side::A,
    }
}

// The number of a host among those of its script.
fn number_of(host: Host) -> u32 {
    match host {
        Host::OfWorld(Side::A) | Host::OfFleet(Node::Server) => 0,
        Host::OfWorld(Side::B) => 1,
        Host::OfFleet(Node::Client(i)) => u32::from(i) + 1,
    }
}

// The hosts of a world are where a server and its first client are.
fn address_of(host: Host) -> Addr {
    match host {
        Host::OfWorld(Side::A) | Host::OfFleet(Node::Server) => SERVER,
        Host::OfWorld(Side::B) => FIRST_CLIENT,
        Host::OfFleet(Node::Client(i)) => Addr {
            ip: FIRST_CLIENT.ip,
            port: FIRST_CLIENT.port.saturating_add(i),
        },
    }
}

// Whether a host of the script is at an address.
fn is_host(stage: &Stage, at: Addr) -> bool {
    match stage {
        Stage::InFleet(fleet) => matches!(Recipient::at(fleet.clients(), at), Recipient::Host(_)),
        _ => true,
    }
}

// Where a datagram of a host went, and its bytes.
fn datagram(stage: &Stage, host: Host, k: u64) -> Option<(Addr, &[u8])> {
    match (stage, host) {
        (Stage::InWorld(world), Host::OfWorld(side)) => {
            let bytes = world.datagram(side, k)?;
            Some((address_of(Host::OfWorld(other(side))), bytes))
        }
        (Stage::InFleet(fleet), Host::OfFleet(node)) => fleet.datagram(node, k),
        _ => None,
    }
}

// What the hosts are called.
fn names_of(alloc: Global, stage: &Stage) -> Result<Vec<HostName>, AllocError> {
    let mut names = Vec::new(alloc);
    match stage {
        Stage::InWorld(_) => {
            push_name(alloc, &mut names, Host::OfWorld(Side::A))?;
            push_name(alloc, &mut names, Host::OfWorld(Side::B))?;
        }
        Stage::InFleet(fleet) => push_fleet(alloc, &mut names, fleet.clients())?,
        Stage::Empty | Stage::Refused => {}
    }
    Ok(names)
}

// The server, and so many clients.
fn push_fleet(alloc: Global, names: &mut Vec<HostName>, clients: usize) -> Result<(), AllocError> {
    push_name(alloc, names, Host::OfFleet(Node::Server))?;
    let clients = u16::try_from(clients).unwrap_or(u16::MAX);
    for i in 0..clients {
        push_name(alloc, names, Host::OfFleet(Node::Client(i)))?;
    }
    Ok(())
}

fn push_name(alloc: Global, names: &mut Vec<HostName>, host: Host) -> Result<(), AllocError> {
    let at = address_of(host);
    let name = host_text(alloc, host)?;
    let address = address_text(alloc, at)?;
    let (name, address) = (name.as_str(), address.as_str());
    names.push(HostName {
        at,
        name: format!(in alloc; "{name} at {address}")?,
    })?;
    Ok(())
}
