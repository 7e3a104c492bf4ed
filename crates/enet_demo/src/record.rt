//! What the clients' wires sent and received.

ghost use Rattle.std.specs.Prelude.{◌≡◌, Some};
ghost use Rattle.enet_wire.specs.Socket.{failures_of, told_of};

use enet_codec::{Addr, Refusal};
use enet_service::MioWire;
use enet_wire::{SendOutcome, Wire};
use std::alloc::Global;
use std::sync::{Mutex, Wait};
use std::time::{Clock, Instant};

/// A datagram that a client's wire sent or received.
#[derive(Drop)]
pub struct Heard {
    /// The client's number.
    pub client: u8,
    /// When the client's turn began in which that was, in microseconds since the record was begun.
    pub at: u64,
    /// What became of it, where the client sent it; None where it came to the client.
    pub sent: Option<SendOutcome>,
    /// Who is at the other end.
    pub other: Addr,
    pub bytes: Vec<u8>,
}

/// What was noted.
#[derive(Drop)]
pub struct Notes {
    /// By client, and of each in order.
    pub heard: Vec<Heard>,
    /// Whether something wasn't noted for want of memory.
    pub is_short: bool,
}

/// Where all clients note what their wires sent and received. No clause says what is noted.
#[derive(Drop)]
pub struct Record {
    begun: Option<Instant>,
    pub notes: Mutex<Notes>,
}

impl Record {
    /// A record that begins now, with nothing in it. It stays empty if the system doesn't tell the time.
    pub fn new<R: Clock + AllocGlobal>(rt: &R) -> Record {
        Record {
            begun: Instant::now(rt).ok(),
            notes: Mutex::new(no_notes(rt.alloc())),
        }
    }

    /// One in which nothing is noted.
    pub fn unused<R: AllocGlobal>(rt: &R) -> Record {
        Record {
            begun: None,
            notes: Mutex::new(no_notes(rt.alloc())),
        }
    }
}

// Notes of nothing.
fn no_notes(alloc: Global) -> Notes {
    Notes {
        heard: Vec::new(alloc),
        is_short: false,
    }
}

/// What one client has noted.
#[derive(Drop)]
struct Tap {
    alloc: Global,
    client: u8,
    /// When the record was begun, where it is to be noted.
    begun: Option<Instant>,
    at: u64,
    notes: Notes,
}

impl Tap {
    /// The client's turn begins.
    fn begin<R: Clock>(&mut self, rt: &R) {
        let Some(begun) = self.begun else {
            return;
        };
        if let Ok(elapsed) = begun.elapsed(rt) {
            self.at = u64::try_from(elapsed.as_micros()).unwrap_or(u64::MAX);
        }
    }

    // Notes a datagram, where there is memory for it.
    fn note(&mut self, other: Addr, sent: Option<SendOutcome>, bytes: &[u8]) {
        if self.begun.is_none() {
            return;
        }
        let Ok(bytes) = Vec::from_slice(self.alloc, bytes) else {
            self.notes.is_short = true;
            return;
        };
        let heard = Heard {
            client: self.client,
            at: self.at,
            sent,
            other,
            bytes,
        };
        if self.notes.heard.push(heard).is_err() {
            self.notes.is_short = true;
        }
    }
}

/// A client's socket, which notes what it sends and receives where a record is begun. As a wire it does and tells what the socket does.
#[derive(Drop)]
pub(crate) struct TappedWire {
    pub(crate) wire: MioWire,
    tap: Tap,
}

impl TappedWire {
    /// The socket of this client, of which nothing is noted.
    pub(crate) fn new(alloc: Global, client: u8, wire: MioWire) -> TappedWire
        ensures { result.wire ≡ wire }
    {
        TappedWire {
            wire,
            tap: Tap {
                alloc,
                client,
                begun: None,
                at: 0,
                notes: no_notes(alloc),
            },
        }
    }

    /// Begins to note, where there is a record.
    pub(crate) fn begin<R: Clock>(&mut self, rt: &R, record: Option<&Record>)
        ensures { self.new.wire ≡ self.old.wire }
    {
        if let Some(record) = record {
            self.tap.begun = record.begun;
            self.tap.begin(rt);
        }
    }

    /// Hands over what was noted, where there is a record.
    pub(crate) fn hand_over<R: Wait>(&mut self, rt: &R, record: Option<&Record>) {
        let Some(record) = record else {
            return;
        };
        let mut kept = record.notes.lock(rt);
        if self.tap.notes.is_short || kept.heard.append(&mut self.tap.notes.heard).is_err() {
            kept.is_short = true;
        }
    }
}

impl Wire for TappedWire {
    ghost told = { λ w. Some (told_of w.wire) };

    ghost faults = { λ w. failures_of w.wire };

    ghost kept = { λ w. tt };

    fn recv(&mut self, buf: &mut [u8; 4096]) -> Result<Option<(Addr, usize)>, Refusal> {
        let given = self.wire.recv(buf)?;
        if let Some((from, len)) = given {
            self.tap.note(from, None, &buf[..len]);
        }
        Ok(given)
    }

    fn send(&mut self, to: Addr, bytes: &[u8]) -> Result<SendOutcome, Refusal> {
        let became = self.wire.send(to, bytes)?;
        self.tap.note(to, Some(became), bytes);
        Ok(became)
    }

    fn wait<R: Wait + Clock>(&mut self, rt: &R) -> Result<u32, Refusal> {
        let ms = self.wire.wait(rt)?;
        self.tap.begin(rt);
        Ok(ms)
    }

    fn failures(&self) -> u64 {
        self.wire.failures()
    }
}
