//! A server, and guests of it whose datagrams are written command by command: they acknowledge what they want, when they want.

use crate::client::address;
use crate::digest::Digest;
use crate::draw::Draw;
use anyhow::{Result, bail};
use bytes::Bytes;
use enet_codec::{
    Addr, Command, Config, Event, Head, Header, PeerRef, RELIABLE, read_header, write_command,
    write_header,
};
use enet_host::HostCore;
use std::alloc::Global;

/// The server's clock at its opening, in milliseconds.
const OPENING: u32 = 100_000;

/// The most datagrams or events that the server gives at once.
const MOST: u32 = 10_000_000;

/// After how many milliseconds a guest that was not heard is pinged.
const NEVER: u32 = 1_000_000_000;

/// A server, and those who are connected to it.
#[derive(Drop)]
pub struct House {
    alloc: Global,
    pub server: HostCore,
    guests: Vec<Guest>,
    /// The server's clock.
    pub clock: u32,
    buf: [u8; 4096],
    draw: Draw,
    pub digest: Digest,
}

/// One who is connected.
#[derive(Clone, Copy)]
pub struct Guest {
    pub peer: PeerRef,
    address: Addr,
    /// The server's slot and the session, as they stand in the headers of its datagrams.
    slot: u16,
    session: u8,
}

impl House {
    /// A server with so many slots, all of them free.
    pub fn open(alloc: Global, seed: u64, slots: u16, channels: u8) -> Result<House> {
        let mut config = Config::standard(slots, channels);
        config.clock = OPENING;
        Ok(House {
            alloc,
            server: HostCore::open(alloc, config)?,
            guests: Vec::new(alloc),
            clock: OPENING,
            buf: [0; 4096],
            draw: Draw::new(seed),
            digest: Digest::new(),
        })
    }

    /// So many guests come, 16 in 5 ms.
    pub fn invite(&mut self, guests: u16, channels: u8) -> Result<()> {
        for number in 0..guests {
            let guest = self.let_in(address(number.wrapping_add(1)), channels)?;
            self.guests.push(guest)?;
            if number % 16 == 15 {
                self.tick(5);
            }
        }
        Ok(())
    }

    /// How many guests there are.
    pub fn len(&self) -> usize {
        self.guests.len()
    }

    /// The guest of this number.
    pub fn guest(&self, number: usize) -> Result<Guest> {
        match self.guests.get(number) {
            Some(guest) => Ok(*guest),
            None => bail!("no such guest"),
        }
    }

    /// The guest of this number is let go, and comes again at once from its address.
    pub fn come_again(&mut self, number: usize, channels: u8) -> Result<()> {
        let guest = self.guest(number)?;
        self.server.disconnect_now(guest.peer, 1)?;
        self.send_all();
        let again = self.let_in(guest.address, channels)?;
        if let Some(place) = self.guests.get_mut(number) {
            *place = again;
        }
        Ok(())
    }

    // A host asks the server at this address for a connection; it is forgotten once the server tells that it is connected.
    fn let_in(&mut self, from: Addr, channels: u8) -> Result<Guest> {
        let mut host = HostCore::open(self.alloc, Config::standard(1, channels))?;
        self.connect(&mut host, from, channels)
    }

    fn connect(&mut self, host: &mut HostCore, from: Addr, channels: u8) -> Result<Guest> {
        let header = self.shake_hands(host, from, channels)?;
        let peer = self.who_connected()?;
        self.server.set_ping_interval(peer, NEVER)?;
        Ok(Guest {
            peer,
            address: from,
            slot: header.peer,
            session: header.session,
        })
    }

    // The host asks, is answered, and acknowledges that. The header of its acknowledgement.
    fn shake_hands(&mut self, host: &mut HostCore, from: Addr, channels: u8) -> Result<Header> {
        let word = self.draw.word();
        host.connect(address(0), channels, 0, word)?;
        self.bring(host, from)?;
        self.give(host, from);
        self.bring(host, from)
    }

    // The peer of which the server tells that it is connected.
    fn who_connected(&mut self) -> Result<PeerRef> {
        let Some(event) = self.server.next_event() else {
            bail!("nobody is connected");
        };
        self.digest.event(&event);
        match event {
            Event::Connect { peer, .. } => Ok(peer),
            _ => bail!("not a connection"),
        }
    }

    // The host's datagram goes to the server. Its header.
    fn bring(&mut self, host: &mut HostCore, from: Addr) -> Result<Header> {
        let Some((_, _, len)) = host.service(&mut self.buf) else {
            bail!("no datagram goes");
        };
        let bytes = &self.buf[..len];
        let Some((header, _)) = read_header(bytes) else {
            bail!("a datagram has no header");
        };
        let received = self.server.receive(from, bytes);
        self.digest.received(received);
        Ok(header)
    }

    // What the server has for this address goes to the host.
    fn give(&mut self, host: &mut HostCore, from: Addr) {
        for _ in 0..MOST {
            let Some((_, to, len)) = self.server.service(&mut self.buf) else {
                break;
            };
            let bytes = &self.buf[..len];
            self.digest.sent(to, bytes);
            if to == from {
                let received = host.receive(address(0), bytes);
                self.digest.received(received);
            }
        }
    }

    /// All that the server has to send goes.
    pub fn send_all(&mut self) {
        for _ in 0..MOST {
            let Some((_, to, len)) = self.server.service(&mut self.buf) else {
                break;
            };
            self.digest.sent(to, &self.buf[..len]);
        }
    }

    /// The server's events are taken.
    pub fn take_all(&mut self) {
        for _ in 0..MOST {
            let Some(event) = self.server.next_event() else {
                break;
            };
            self.digest.event(&event);
        }
    }

    /// The server's clock goes on.
    pub fn tick(&mut self, ms: u32) {
        self.server.tick(ms);
        self.clock = self.clock.wrapping_add(ms);
    }

    /// The server submits a packet to a guest: so many bytes of zeros.
    pub fn tell(&mut self, guest: Guest, channel: u8, flags: u8, len: usize) -> Result<()> {
        let body = Bytes::from_vec(vec![in self.alloc; 0; len]?)?;
        match self.server.submit(guest.peer, channel, flags, body) {
            Ok(()) => Ok(()),
            Err((why, _)) => bail!(why),
        }
    }

    /// A guest says that this reliable command of the server came, which had gone at this time.
    pub fn acknowledge(&mut self, guest: Guest, channel: u8, number: u16, sent: u32) -> Result<()> {
        let head = Head {
            acknowledge: false,
            unsequenced: false,
            channel,
            number: 0,
        };
        let mut buf = [0; 64];
        let start = self.begin(guest, &mut buf)?;
        let command = Command::Acknowledge {
            head,
            received_number: number,
            received_time: low(sent),
        };
        let Some(end) = write_command(&mut buf, start, &command) else {
            bail!("a command is too long");
        };
        self.arrive(guest, &buf[..end.min(64)])
    }

    /// A guest sends a reliable packet of 12 bytes on channel 0.
    pub fn say(&mut self, guest: Guest, number: u16) -> Result<()> {
        let head = Head {
            acknowledge: true,
            unsequenced: false,
            channel: 0,
            number,
        };
        let mut buf = [0; 64];
        let start = self.begin(guest, &mut buf)?;
        let command = Command::SendReliable {
            head,
            payload: &[7; 12],
        };
        let Some(end) = write_command(&mut buf, start, &command) else {
            bail!("a command is too long");
        };
        self.arrive(guest, &buf[..end.min(64)])
    }

    /// A guest's datagram comes that has no command.
    pub fn knock(&mut self, guest: Guest) -> Result<()> {
        let mut buf = [0; 64];
        let end = self.begin(guest, &mut buf)?;
        self.arrive(guest, &buf[..end.min(64)])
    }

    // The header of a guest's datagram. Where it ends.
    fn begin(&self, guest: Guest, buf: &mut [u8; 64]) -> Result<usize> {
        let header = Header {
            peer: guest.slot,
            session: guest.session,
            compressed: false,
            sent: Some(low(self.clock)),
        };
        match write_header(buf, 0, &header) {
            Some(end) => Ok(end),
            None => bail!("a header is too long"),
        }
    }

    fn arrive(&mut self, guest: Guest, bytes: &[u8]) -> Result<()> {
        let received = self.server.receive(guest.address, bytes);
        self.digest.received(received);
        match received.stop {
            Some(_) => bail!("a datagram isn't taken"),
            None => Ok(()),
        }
    }

    /// Each guest gets a packet on each channel, and acknowledges it after five seconds, 16 in 5 ms: what goes to it next isn't late soon.
    pub fn delay(&mut self, channels: u8) -> Result<()> {
        let sent = self.clock;
        for number in 0..self.len() {
            let guest = self.guest(number)?;
            self.tell_each(guest, channels)?;
            self.send_all();
        }
        self.tick(5000);
        self.acknowledge_all(channels, sent)
    }

    fn acknowledge_all(&mut self, channels: u8, sent: u32) -> Result<()> {
        for number in 0..self.len() {
            let guest = self.guest(number)?;
            self.acknowledge_each(guest, channels, sent)?;
            if number % 16 == 15 {
                self.tick(5);
            }
        }
        Ok(())
    }

    fn tell_each(&mut self, guest: Guest, channels: u8) -> Result<()> {
        for channel in 0..channels {
            self.tell(guest, channel, RELIABLE, 0)?;
        }
        Ok(())
    }

    fn acknowledge_each(&mut self, guest: Guest, channels: u8, sent: u32) -> Result<()> {
        for channel in 0..channels {
            self.acknowledge(guest, channel, 1, sent)?;
        }
        Ok(())
    }
}

/// So many milliseconds go by, in each of which all goes that the server has to send.
pub fn rest(house: &mut House, ms: u32) {
    for _ in 0..ms {
        house.tick(1);
        house.send_all();
    }
}

fn low(time: u32) -> u16 {
    (time % 65_536) as u16
}
