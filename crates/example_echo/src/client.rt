//! The client: it says something and counts what comes back.

use crate::node::Node;
use bytes::Bytes;
use enet_codec::{Addr, Event, PeerRef, RELIABLE, Refusal};
use enet_host::Config;
use enet_wire::system_word;
use std::alloc::Global;
use std::net::Net;
use std::rt::Clock;
use std::sync::Wait;

const CHANNELS: u8 = 2;

/// The lengths of the packets that are said: short ones, those at the border where a packet goes in pieces, and a long one.
const LENGTHS: [usize; 7] = [0, 1, 100, 1_363, 1_364, 1_365, 20_000];

/// How many packets are said.
pub const SAID: u32 = 7;

/// A client of one connection.
#[derive(Drop)]
pub struct Visit {
    alloc: Global,
    node: Node,
    came_back: u32,
    ended: bool,
}

impl Visit {
    /// A client at this address of the machine that has asked for nothing yet. E14 where there is no socket, E1 for want of memory.
    pub fn open<R: Net + AllocGlobal>(rt: &R, ip: u32) -> Result<Visit, Refusal> {
        let node = Node::open(rt, Addr { ip, port: 0 }, Config::standard(1, CHANNELS))?;
        Ok(Visit {
            alloc: rt.alloc(),
            node,
            came_back: 0,
            ended: false,
        })
    }

    /// Asks the server at this address for a connection. E1 for want of memory.
    pub fn ask(&mut self, server: Addr) -> Result<(), Refusal> {
        self.node.host.connect(server, CHANNELS, 0, connect_id())?;
        Ok(())
    }

    /// How many packets came back as they were said, in order.
    pub fn came_back(&self) -> u32 {
        self.came_back
    }

    /// The connection has ended.
    pub fn has_ended(&self) -> bool {
        self.ended
    }

    /// Takes in what came, goes on by it, and sends.
    pub fn turn<R: Wait + Clock>(&mut self, rt: &R) -> Result<(), Refusal> {
        self.node.take_in(rt)?;
        for _ in 0..=SAID {
            let Some(event) = self.node.host.next_event() else {
                break;
            };
            self.go_on(event)?;
        }
        self.node.put_out()
    }

    fn go_on(&mut self, event: Event) -> Result<(), Refusal> {
        match event {
            Event::Connect { peer, .. } => self.say_all(peer),
            Event::Receive { peer, packet } => self.hear(peer, &packet.body),
            Event::Disconnect { .. } => {
                self.ended = true;
                Ok(())
            }
            Event::Refused { .. } => Ok(()),
        }
    }

    fn say_all(&mut self, peer: PeerRef) -> Result<(), Refusal> {
        for length in LENGTHS {
            let body = words(self.alloc, length)?;
            if let Err((why, _)) = self.node.host.submit(peer, 0, RELIABLE, body) {
                return Err(why);
            }
        }
        Ok(())
    }

    // Counts the next packet that came back; after the last one it leaves, once all that it has to send is acknowledged.
    fn hear(&mut self, peer: PeerRef, body: &Bytes) -> Result<(), Refusal> {
        let Some(length) = LENGTHS.get(self.came_back as usize) else {
            return Ok(());
        };
        if *body == words(self.alloc, *length)? {
            self.came_back = self.came_back.saturating_add(1);
        }
        if self.came_back == SAID {
            return self.node.host.disconnect_later(peer, 0);
        }
        Ok(())
    }
}

// So many bytes, none like its neighbours.
fn words(alloc: Global, length: usize) -> Result<Bytes, Refusal> {
    let mut bytes = Vec::new(alloc);
    for i in 0..length {
        if bytes.push((i % 251) as u8).is_err() {
            return Err(Refusal::Memory);
        }
    }
    Bytes::from_vec(bytes).map_err(|_| Refusal::Memory)
}

// A number by which both ends know this connection. The system draws it, so that no stranger can guess it; where it gives none, 1 has to do.
fn connect_id() -> u32 {
    system_word().unwrap_or(1)
}
