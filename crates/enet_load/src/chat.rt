//! A server's whole turns: its service and its relay in one thread, over a wire in memory, with clients that are hosts, too.

use anyhow::{Result, bail};
use bytes::Bytes;
use enet_chat::{Gauge, LoneRelay, Table};
use enet_codec::{Config, RELIABLE};
use enet_service::{BoundService, MemoryWire, Report, Step, Told, Unwatched, Wire};
use enet_testbed::{Client, Datagram, Digest, Draw, Line, Network, Way, address};
use std::alloc::Global;
use std::collections::VecDeque;
use std::rt::Clock;
use std::sync::Wait;

/// How many milliseconds a turn has.
const MS: u32 = 4;

/// How often events are expanded and orders taken in a turn, at most.
const MOST_ROUNDS: u32 = 64;

/// After how many turns the server is shown.
const SHOWN: u32 = 64;

/// The line: 20 ms each way, 8 ms more at most, now and then a datagram lost.
const LINE: Line = Line {
    lost: 2,
    repeated: 0,
    least: 5,
    spread: 2,
};

/// For so many turns of 4 ms clients chat through a server of 40 slots, each 40 times a second: half of it reliably, on channel 0, half
/// on channel 1. A turn is what a server in one thread does: what comes, the orders that its relay makes of it, and what goes.
pub fn chat<R: Wait + Clock>(
    rt: &R,
    alloc: Global,
    seed: u64,
    turns: u32,
    clients: u16,
) -> Result<Digest> {
    let wire = MemoryWire::new(alloc, VecDeque::new(alloc));
    let mut bound = BoundService::open(alloc, wire, Config::standard(40, 2))?;
    let digest = take_turns(rt, alloc, &mut bound, seed, turns, clients);
    bound.close();
    digest
}

fn take_turns<R: Wait + Clock>(
    rt: &R,
    alloc: Global,
    bound: &mut BoundService<MemoryWire>,
    seed: u64,
    turns: u32,
    clients: u16,
) -> Result<Digest> {
    let mut room = Room::open(alloc, seed)?;
    for _ in 0..clients {
        room.join()?;
    }
    take_turns_in(rt, &mut room, bound, turns)?;
    Ok(room.digest)
}

fn take_turns_in<R: Wait + Clock>(
    rt: &R,
    room: &mut Room,
    bound: &mut BoundService<MemoryWire>,
    turns: u32,
) -> Result<()> {
    for turn in 0..turns {
        room.speak()?;
        room.turn(rt, bound)?;
        room.play()?;
        if turn % SHOWN == SHOWN - 1 {
            bound.show(Report::nothing(), &mut Unwatched);
        }
    }
    Ok(())
}

/// The relay, the clients and the network between them and the service.
#[derive(Drop)]
struct Room {
    alloc: Global,
    relay: LoneRelay,
    gauge: Gauge,
    clients: Vec<Client>,
    network: Network,
    buf: [u8; 4096],
    draw: Draw,
    digest: Digest,
}

impl Room {
    fn open(alloc: Global, seed: u64) -> Result<Room> {
        let network = Network::new(alloc, LINE, seed.wrapping_add(1))?;
        let gauge = Gauge::new();
        let relay = LoneRelay::new(
            alloc,
            Table::open(alloc),
            VecDeque::new(alloc),
            VecDeque::new(alloc),
            &gauge,
        );
        Ok(Room {
            alloc,
            relay,
            gauge,
            clients: Vec::new(alloc),
            network,
            buf: [0; 4096],
            draw: Draw::new(seed),
            digest: Digest::new(),
        })
    }

    // A client more.
    fn join(&mut self) -> Result<()> {
        let word = self.draw.word();
        self.clients.push(Client::join(self.alloc, 2, word)?)?;
        Ok(())
    }

    // Each client says something in one of six turns or so.
    fn speak(&mut self) -> Result<()> {
        for client in &mut self.clients {
            if self.draw.below(100) < 16 {
                let (channel, flags) = match self.draw.below(2) {
                    0 => (0, RELIABLE),
                    _ => (1, 0),
                };
                let len = self.draw.below(49) as usize + 12;
                let body = self.draw.body(self.alloc, len)?;
                client.say(&mut self.digest, channel, flags, body)?;
            }
        }
        Ok(())
    }

    // The server's turn.
    fn turn<R: Wait + Clock>(
        &mut self,
        rt: &R,
        bound: &mut BoundService<MemoryWire>,
    ) -> Result<()> {
        let mut script = VecDeque::new(self.alloc);
        script.push_back(Step::Wait { ms: MS })?;
        for datagram in self.network.step() {
            self.deliver(&mut script, datagram)?;
        }
        bound.wire = MemoryWire::new(self.alloc, script);
        let report = self.serve(rt, bound)?;
        self.relay.show(&self.gauge);
        self.digest.number(u64::from(report.orders));
        self.digest.number(u64::from(report.events));
        self.send_all(bound.wire.told())
    }

    // What comes, the orders of it, and what goes.
    fn serve<R: Wait + Clock>(
        &mut self,
        rt: &R,
        bound: &mut BoundService<MemoryWire>,
    ) -> Result<Report> {
        let BoundService { wire, service } = bound;
        let LoneRelay { events, .. } = &mut self.relay;
        let ms = wire.wait(rt)?;
        let Ok(heard) = service.receive(rt, wire, events, ms, &mut self.buf) else {
            bail!("a turn failed");
        };
        let mut report = heard;
        self.relay.expand()?;
        for _ in 0..MOST_ROUNDS {
            let LoneRelay { orders, events, .. } = &mut self.relay;
            if orders.is_empty() {
                break;
            }
            report = report.and(service.apply_orders(rt, orders, events));
            self.relay.expand()?;
        }
        match service.emit(wire, &mut self.buf) {
            Ok(sent) => Ok(report.and(sent)),
            Err(_) => bail!("a turn failed"),
        }
    }

    // What comes to the server goes into its wire's script, what comes to a client to that one.
    fn deliver(&mut self, script: &mut VecDeque<Step>, datagram: Datagram) -> Result<()> {
        match datagram.way {
            Way::Up(client) => {
                let from = address(client.wrapping_add(1));
                let bytes = Bytes::from_vec(datagram.bytes)?;
                script.push_back(Step::Datagram { from, bytes })?;
            }
            Way::Down(client) => {
                if let Some(client) = self.clients.get_mut(usize::from(client)) {
                    client.hear(&mut self.digest, datagram.bytes.as_slice());
                }
            }
        }
        Ok(())
    }

    // What the server sent in its turn goes on its way.
    fn send_all(&mut self, told: &[Told]) -> Result<()> {
        for call in told {
            if let Told::Went { to, bytes } = call {
                let client = to.port.wrapping_sub(1);
                self.digest.sent(*to, bytes.as_slice());
                self.network.send(Way::Down(client), bytes.as_slice())?;
            }
        }
        Ok(())
    }

    // The clients' turns.
    fn play(&mut self) -> Result<()> {
        for (client, number) in self.clients.iter_mut().zip(0u16..) {
            client.play(
                &mut self.digest,
                &mut self.network,
                number,
                &mut self.buf,
                MS,
            )?;
        }
        Ok(())
    }
}
