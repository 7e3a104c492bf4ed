//! Somebody who asks for a page.

use crate::answering::answer;
use crate::asking::{Question, asked};
use crate::figures::Figures;
use mio::net::TcpStream;
use std::alloc::Global;
use std::io;
use std::io::{ErrorKind, Read, Write};
use std::net::{Shutdown, SocketAddr};
use std::rt::Clock;
use std::time::{Duration, Instant};

/// A request's head has so many bytes at most.
const LONGEST: usize = 2_048;

/// At once it is read in so many pieces at most, and as many are written.
const PIECES: u32 = 16;

/// An exchange has so many seconds.
const PATIENCE: u64 = 5;

/// How far somebody is who asks for a page.
#[derive(Clone, Copy, Debug, PartialEq, Eq)]
pub(crate) enum Stage {
    /// Its request isn't whole yet.
    Asks,
    /// It has asked: it is sent the answer, or was sent it and hasn't left yet.
    IsTold,
    /// It is to be let go: it is gone, or late.
    Ends,
}

/// Somebody who asks for a page, is sent it, and is let go.
#[derive(Drop)]
pub(crate) struct Client {
    stream: TcpStream,
    /// The IPv4 address that it comes from.
    pub(crate) from: u32,
    begun: Option<Instant>,
    head: [u8; LONGEST],
    len: usize,
    answer: Option<String>,
    sent: usize,
    // It has its answer. What still comes is read and passed over: a connection that is closed before may take the answer along.
    is_answered: bool,
}

impl Client {
    pub(crate) fn new<R: Clock>(rt: &R, stream: TcpStream, from: SocketAddr) -> Client {
        Client {
            stream,
            from: ip_of(from),
            begun: Instant::now(rt).ok(),
            head: [0; LONGEST],
            len: 0,
            answer: None,
            sent: 0,
            is_answered: false,
        }
    }

    /// Goes on as far as it can without a wait.
    pub(crate) fn advance<R: Clock>(&mut self, rt: &R, alloc: Global, figures: &Figures) -> Stage {
        if self.is_late(rt) {
            return Stage::Ends;
        }
        if self.is_answered {
            return self.wait_for_end();
        }
        if self.answer.is_none() {
            match self.read_on() {
                Ok(None) => return Stage::Asks,
                Ok(Some(question)) => self.answer = answer(alloc, question, &figures.read(rt)).ok(),
                Err(_) => return Stage::Ends,
            }
        }
        match self.write_on() {
            Ok(true) => self.end_answer(),
            Ok(false) => Stage::IsTold,
            Err(_) => Stage::Ends,
        }
    }

    // Tells it that no more comes.
    fn end_answer(&mut self) -> Stage {
        if self.answer.is_none() || self.stream.shutdown(Shutdown::Write).is_err() {
            return Stage::Ends;
        }
        self.is_answered = true;
        self.wait_for_end()
    }

    // It is to be let go once it has closed the connection, too.
    fn wait_for_end(&mut self) -> Stage {
        for _ in 0..PIECES {
            match self.stream.read(&mut self.head[..]) {
                Ok(0) => return Stage::Ends,
                Ok(_) => {}
                Err(why) if why.kind() == ErrorKind::WouldBlock => return Stage::IsTold,
                Err(_) => return Stage::Ends,
            }
        }
        Stage::IsTold
    }

    // Nobody is where the clock can't be read: he may stay until another takes his place.
    fn is_late<R: Clock>(&self, rt: &R) -> bool {
        let Some(begun) = &self.begun else {
            return false;
        };
        match begun.elapsed(rt) {
            Ok(elapsed) => elapsed >= Duration::from_secs(PATIENCE),
            Err(_) => false,
        }
    }

    // Reads what is there; None where the question isn't whole.
    fn read_on(&mut self) -> io::Result<Option<Question>> {
        for _ in 0..PIECES {
            if self.len >= LONGEST {
                return Ok(Some(Question::Unreadable));
            }
            match self.stream.read(&mut self.head[self.len..]) {
                Ok(0) => return Err(ErrorKind::UnexpectedEof.into()),
                Ok(read) => self.len += read,
                Err(why) if why.kind() == ErrorKind::WouldBlock => return Ok(None),
                Err(why) => return Err(why),
            }
            if let Some(question) = asked(self.head.get(..self.len).unwrap_or(&[])) {
                return Ok(Some(question));
            }
        }
        Ok(None)
    }

    // Writes what is taken. True once all was; where there is no answer, none was made for want of memory.
    fn write_on(&mut self) -> io::Result<bool> {
        let Some(answer) = &self.answer else {
            return Ok(true);
        };
        for _ in 0..PIECES {
            let rest = answer.as_bytes().get(self.sent..).unwrap_or(&[]);
            if rest.is_empty() {
                return Ok(true);
            }
            match self.stream.write(rest) {
                Ok(0) => return Ok(true),
                Ok(written) => self.sent = self.sent.saturating_add(written),
                Err(why) if why.kind() == ErrorKind::WouldBlock => return Ok(false),
                Err(why) => return Err(why),
            }
        }
        Ok(false)
    }
}

// The pages are at an IPv4 address, so all come from one.
fn ip_of(from: SocketAddr) -> u32 {
    match from {
        SocketAddr::V4(from) => from.ip().to_bits(),
        SocketAddr::V6(_) => 0,
    }
}
