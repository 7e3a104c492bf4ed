//! The server: what a client says comes back to it.

use crate::node::Node;
use enet_codec::{Addr, Event, Refusal};
use enet_host::Config;
use enet_wire::system_secret;
use std::net::Net;
use std::rt::Clock;
use std::sync::Wait;

const CLIENTS: u16 = 32;

const CHANNELS: u8 = 2;

/// So many events are answered in one turn at most.
const MOST_EVENTS: u32 = 1_024;

/// A server at its address.
#[derive(Drop)]
pub struct Server {
    node: Node,
}

impl Server {
    /// A server for 32 clients, who may have two channels each. E14 where the address can't be had, E1 for want of memory.
    pub fn open<R: Net + AllocGlobal>(rt: &R, at: Addr) -> Result<Server, Refusal> {
        let mut config = Config::standard(CLIENTS, CHANNELS);
        config.generations = u32::MAX;
        // By it nobody can connect in another's name without seeing the answers. Where the system gives none, the server goes without.
        config.secret = system_secret();
        let node = Node::open(rt, at, config)?;
        Ok(Server { node })
    }

    /// Takes in what came, answers it, and sends.
    pub fn turn<R: Wait + Clock>(&mut self, rt: &R) -> Result<(), Refusal> {
        self.node.take_in(rt)?;
        for _ in 0..MOST_EVENTS {
            let Some(event) = self.node.host.next_event() else {
                break;
            };
            self.answer(event);
        }
        self.node.put_out()
    }

    // A packet goes back to its sender, on its channel and as it came. Of a packet that isn't taken, as when its sender is leaving,
    // nothing more is to be done.
    fn answer(&mut self, event: Event) {
        if let Event::Receive { peer, packet } = event {
            let _ = self
                .node
                .host
                .submit(peer, packet.channel, packet.flags, packet.body);
        }
    }
}
