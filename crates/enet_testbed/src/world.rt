//! A server, its clients and the network between them.

use crate::client::{CLIENTS, Client, MOST, address, note_answer, reliable};
use crate::digest::Digest;
use crate::draw::Draw;
use crate::line::{Datagram, Line, Network, Way};
use anyhow::{Result, bail};
use bytes::Bytes;
use enet_codec::{Addr, Config, Event, Packet, PeerRef};
use enet_host::HostCore;
use std::alloc::Global;

/// What the server does with a packet that comes.
#[derive(Clone, Copy, PartialEq, Eq)]
pub enum Rule {
    /// Nothing.
    Keep,
    /// It goes to all others.
    All,
    /// It goes to so many of its peers, but for its sender.
    Next(usize),
}

/// What a world is made of.
#[derive(Clone, Copy)]
pub struct Plan {
    pub slots: u16,
    pub channels: u8,
    pub line: Line,
    pub rule: Rule,
    /// How many milliseconds a step has.
    pub ms: u32,
    /// In how many steps each client is looked at once.
    pub every: u16,
    /// Whether the server is asked after each tick when something is due.
    pub asks: bool,
}

/// A server, its clients and the network between them, as the benchmark runs them: nothing is kept of them, where the `World` of
/// `enet_world` keeps what the law speaks of.
#[derive(Drop)]
pub struct World {
    alloc: Global,
    plan: Plan,
    server: HostCore,
    clients: Vec<Client>,
    /// The server's peers, in the order in which they connected.
    peers: Vec<PeerRef>,
    network: Network,
    buf: [u8; 4096],
    turn: u16,
    /// How many reliable packets were taken, of all hosts.
    taken: u64,
    pub draw: Draw,
    pub digest: Digest,
}

impl World {
    /// A server with no client.
    pub fn open(alloc: Global, plan: Plan, seed: u64) -> Result<World> {
        let network = Network::new(alloc, plan.line, seed.wrapping_add(1))?;
        let mut config = Config::standard(plan.slots, plan.channels);
        config.clock = 5;
        let server = HostCore::open(alloc, config)?;
        Ok(World {
            alloc,
            plan,
            server,
            clients: Vec::new(alloc),
            peers: Vec::new(alloc),
            network,
            buf: [0; 4096],
            turn: 0,
            taken: 0,
            draw: Draw::new(seed),
            digest: Digest::new(),
        })
    }

    /// A client more, which asks for a connection with so many channels.
    pub fn join(&mut self, channels: u8) -> Result<()> {
        let word = self.draw.word();
        self.clients
            .push(Client::join(self.alloc, channels, word)?)?;
        Ok(())
    }

    /// How many reliable packets were taken, of all hosts.
    pub fn taken(&self) -> u64 {
        self.taken
    }

    /// The client of this number submits a packet, if it is connected.
    pub fn say(&mut self, client: usize, channel: u8, flags: u8, body: Bytes) -> Result<()> {
        match self.clients.get_mut(client) {
            Some(client) => client.say(&mut self.digest, channel, flags, body),
            None => Ok(()),
        }
    }

    /// The server submits a packet to the peer at this place, if there is one.
    pub fn tell(&mut self, place: usize, channel: u8, flags: u8, body: Bytes) -> Result<()> {
        let Some(peer) = self.peers.get(place) else {
            return Ok(());
        };
        let answer = self.server.submit(*peer, channel, flags, body);
        note_answer(&mut self.digest, answer)
    }

    /// A datagram comes to the server.
    pub fn hear(&mut self, from: Addr, bytes: &[u8]) {
        let received = self.server.receive(from, bytes);
        self.digest.received(received);
    }

    /// A step goes by: datagrams come, events are taken, the server's rule is kept, what is due goes, and so does time.
    pub fn step(&mut self) -> Result<()> {
        for datagram in self.network.step() {
            self.deliver(&datagram);
        }
        self.turn = self.turn.wrapping_add(1);
        self.serve()?;
        self.play()
    }

    fn deliver(&mut self, datagram: &Datagram) {
        let bytes = datagram.bytes.as_slice();
        match datagram.way {
            Way::Up(client) => self.hear(address(client.wrapping_add(1)), bytes),
            Way::Down(client) => {
                if let Some(client) = self.clients.get_mut(usize::from(client)) {
                    client.hear(&mut self.digest, bytes);
                }
            }
        }
    }

    // The server's turn.
    fn serve(&mut self) -> Result<()> {
        for _ in 0..MOST {
            let Some(event) = self.server.next_event() else {
                break;
            };
            self.digest.event(&event);
            self.heed(event)?;
        }
        self.put_out()?;
        self.server.tick(self.plan.ms);
        if self.plan.asks {
            self.digest.number(u64::from(self.server.due_in()));
        }
        Ok(())
    }

    fn heed(&mut self, event: Event) -> Result<()> {
        match event {
            Event::Connect { peer, .. } => self.peers.push(peer)?,
            Event::Receive { peer, packet } => {
                self.taken = self.taken.wrapping_add(reliable(&packet));
                self.hand_on(peer, &packet)?;
            }
            Event::Disconnect { peer, .. } => self.peers.retain(|other| *other != peer),
            Event::Refused { .. } => bail!("a host refuses no order"),
        }
        Ok(())
    }

    fn hand_on(&mut self, from: PeerRef, packet: &Packet) -> Result<()> {
        let most = match self.plan.rule {
            Rule::Keep => return Ok(()),
            Rule::All => self.peers.len(),
            Rule::Next(most) => most,
        };
        // Those behind some place, which hangs on the sender; past the last one comes the first.
        let place = usize::from(from.slot) % self.peers.len().max(1);
        let after = self.peers.iter().skip(place);
        for to in after.chain(self.peers.iter().take(place)).take(most) {
            if *to == from {
                continue;
            }
            let body = packet.body.clone()?;
            let answer = self.server.submit(*to, packet.channel, packet.flags, body);
            note_answer(&mut self.digest, answer)?;
        }
        Ok(())
    }

    fn put_out(&mut self) -> Result<()> {
        for _ in 0..MOST {
            let Some((_, to, len)) = self.server.service(&mut self.buf) else {
                break;
            };
            let bytes = &self.buf[..len];
            self.digest.sent(to, bytes);
            if to.ip == CLIENTS {
                let client = to.port.wrapping_sub(1);
                self.network.send(Way::Down(client), bytes)?;
            }
        }
        Ok(())
    }

    // The turns of those clients that are looked at in this step.
    fn play(&mut self) -> Result<()> {
        let every = self.plan.every.max(1);
        let ms = self.plan.ms.saturating_mul(u32::from(every));
        let first = usize::from(self.turn % every);
        let numbers = (0u16..u16::MAX).skip(first).step_by(usize::from(every));
        for number in numbers {
            let Some(client) = self.clients.get_mut(usize::from(number)) else {
                break;
            };
            let taken = client.play(
                &mut self.digest,
                &mut self.network,
                number,
                &mut self.buf,
                ms,
            )?;
            self.taken = self.taken.wrapping_add(taken);
        }
        Ok(())
    }
}
