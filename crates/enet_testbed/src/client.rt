//! A client of a server: a host with one slot.

use crate::digest::Digest;
use crate::line::{Network, Way};
use anyhow::{Result, bail};
use bytes::Bytes;
use enet_codec::{Addr, Config, Event, Packet, PeerRef, RELIABLE, Refusal};
use enet_host::HostCore;
use std::alloc::Global;

/// The most datagrams or events that one host gives in a step.
pub const MOST: u32 = 1_000_000;

/// The name that the server has at each client's first connection.
const SERVER: u16 = 0;

/// The address that all clients have, each with a port of its own.
pub const CLIENTS: u32 = 0x0a00_0001;

/// The address of the server, 0, or of a client, from 1 on.
pub fn address(port: u16) -> Addr {
    Addr { ip: CLIENTS, port }
}

/// A client, and its name for the server.
#[derive(Drop)]
pub struct Client {
    host: HostCore,
    server: PeerRef,
    channels: u8,
    connected: bool,
}

impl Client {
    /// A client that asks for a connection with so many channels; `word` is its connect id.
    pub fn join(alloc: Global, channels: u8, word: u32) -> Result<Client> {
        let config = Config::standard(1, channels);
        let mut host = HostCore::open(alloc, config)?;
        let server = host.connect(address(SERVER), channels, 0, word)?;
        Ok(Client {
            host,
            server,
            channels,
            connected: false,
        })
    }

    /// It submits a packet, if it is connected.
    pub fn say(&mut self, digest: &mut Digest, channel: u8, flags: u8, body: Bytes) -> Result<()> {
        if !self.connected {
            return Ok(());
        }
        let answer = self.host.submit(self.server, channel, flags, body);
        note_answer(digest, answer)
    }

    /// A datagram of the server comes.
    pub fn hear(&mut self, digest: &mut Digest, bytes: &[u8]) {
        let received = self.host.receive(address(SERVER), bytes);
        digest.received(received);
    }

    /// Its turn, as the client of this number: it takes its events and sends all that it has, and its clock goes on. How many reliable
    /// packets there were.
    pub fn play(
        &mut self,
        digest: &mut Digest,
        network: &mut Network,
        number: u16,
        buf: &mut [u8; 4096],
        ms: u32,
    ) -> Result<u64> {
        let taken = self.take_events(digest)?;
        self.send_all(digest, network, number, buf)?;
        self.host.tick(ms);
        Ok(taken)
    }

    // It takes its events; where its connection ended it asks for another. How many reliable packets there were.
    fn take_events(&mut self, digest: &mut Digest) -> Result<u64> {
        let mut taken: u64 = 0;
        for _ in 0..MOST {
            let Some(event) = self.host.next_event() else {
                break;
            };
            digest.event(&event);
            match event {
                Event::Connect { .. } => self.connected = true,
                Event::Disconnect { .. } => {
                    self.connected = false;
                    self.server = self.host.connect(address(SERVER), self.channels, 0, 7)?;
                }
                Event::Receive { packet, .. } => taken = taken.wrapping_add(reliable(&packet)),
                Event::Refused { .. } => {}
            }
        }
        Ok(taken)
    }

    fn send_all(
        &mut self,
        digest: &mut Digest,
        network: &mut Network,
        number: u16,
        buf: &mut [u8; 4096],
    ) -> Result<()> {
        for _ in 0..MOST {
            let Some((_, to, len)) = self.host.service(buf) else {
                break;
            };
            digest.sent(to, &buf[..len]);
            network.send(Way::Up(number), &buf[..len])?;
        }
        Ok(())
    }
}

/// The answer to a submission comes. An error for want of memory.
pub fn note_answer(digest: &mut Digest, answer: Result<(), (Refusal, Bytes)>) -> Result<()> {
    match answer {
        Ok(()) => digest.number(1),
        Err((Refusal::Memory, _)) => bail!("no memory"),
        Err((why, _)) => digest.bytes(why.label().as_bytes()),
    }
    Ok(())
}

/// A reliable packet counts.
pub fn reliable(packet: &Packet) -> u64 {
    u64::from(packet.flags == RELIABLE)
}
