//! A host with the socket at which it is reached.

use enet_codec::{Addr, Refusal};
use enet_host::{Config, HostCore};
use enet_wire::{MioWire, SendOutcome, Wire};
use std::net::Net;
use std::rt::Clock;
use std::sync::Wait;

/// So many datagrams are taken in and put out in one turn at most, so that neither keeps the other from its turn.
const MOST_DATAGRAMS: u32 = 256;

/// A host with the socket at which it is reached.
#[derive(Drop)]
pub struct Node {
    pub host: HostCore,
    wire: MioWire,
}

impl Node {
    /// Listens at this address; at port 0, at a port that the system chooses. E14 where the address can't be had, E8 where a number of the
    /// settings is out of its range, E1 for want of memory.
    pub fn open<R: Net + AllocGlobal>(rt: &R, at: Addr, config: Config) -> Result<Node, Refusal> {
        let wire = MioWire::bind(rt, at)?;
        let host = HostCore::open(rt.alloc(), config)?;
        Ok(Node { host, wire })
    }

    /// Sleeps until a datagram comes, at most 5 ms, tells the host how much time passed, and hands it what came.
    pub fn take_in<R: Wait + Clock>(&mut self, rt: &R) -> Result<(), Refusal> {
        let passed = self.wire.wait(rt)?;
        self.host.tick(passed);
        let mut buffer = [0; 4096];
        for _ in 0..MOST_DATAGRAMS {
            let Some((from, length)) = self.wire.recv(&mut buffer)? else {
                break;
            };
            if let Some(datagram) = buffer.get(..length) {
                self.host.receive(from, datagram);
            }
        }
        Ok(())
    }

    /// Sends what the host has to send, until the socket has no room. The datagram for which it has none is lost, as in a network, and so is
    /// one whose destination can't be reached; the host sends again what has to come.
    pub fn put_out(&mut self) -> Result<(), Refusal> {
        let mut buffer = [0; 4096];
        for _ in 0..MOST_DATAGRAMS {
            let Some((_, to, length)) = self.host.service(&mut buffer) else {
                break;
            };
            let Some(datagram) = buffer.get(..length) else {
                break;
            };
            if self.wire.send(to, datagram)? == SendOutcome::Blocked {
                break;
            }
        }
        Ok(())
    }
}
