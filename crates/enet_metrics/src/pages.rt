//! The pages over HTTP.

use crate::client::{Client, Stage};
use crate::crowds::gives_way;
use crate::figures::Figures;
use mio::net::{TcpListener, TcpStream};
use mio::{Events, Interest, Poll, Token};
use std::alloc::Global;
use std::collections::VecDeque;
use std::net::{Net, SocketAddr};
use std::rt::Clock;
use std::sync::Wait;
use std::time::Duration;
use std::{io, thread};

/// So many clients are there at most whose request isn't whole yet.
const MOST_ASKING: usize = 64;

/// So many that have asked are there at most. Who asks then takes the place of the one who asked first.
const MOST_TOLD: usize = 16;

/// So many are taken in at once.
const MOST_AT_ONCE: usize = 16;

/// The longest wait between two looks at whether the server ends, in milliseconds.
const PAUSE: u64 = 100;

/// Answers whoever asks for `/metrics` and `/healthz`, each connection one request, in one thread. Nobody is waited for: a client has five
/// seconds for its exchange (no bound where the clock can't be read).
///
/// A client is answered once its request is whole, at once if it came with the connection. Until then it has one of 64 places; if these are
/// taken, whoever comes takes that of the one whom [`gives_way`] names. So connections from fewer than 63 addresses, whether they ask or not,
/// keep nobody out who comes from another address, as long as they are accepted as fast as they come; nor does it matter who holds the 16
/// places of those who have asked.
#[derive(Drop)]
pub struct Pages {
    alloc: Global,
    listener: TcpListener,
    poll: Poll,
    events: Events,
    // In the order in which they came.
    asking: VecDeque<Client>,
    // In the order in which they asked.
    told: VecDeque<Client>,
}

impl Pages {
    /// Listens at this address. An error where it can't be had, with what the system says, or memory is wanting.
    pub fn open<R: Net + AllocGlobal>(rt: &R, address: SocketAddr) -> io::Result<Pages> {
        let alloc = rt.alloc();
        let mut listener = TcpListener::bind(rt, address)?;
        let poll = Poll::new(rt)?;
        poll.registry()
            .register(&mut listener, Token(0), Interest::READABLE)?;
        Ok(Pages {
            alloc,
            listener,
            poll,
            events: Events::with_capacity(alloc, 64)?,
            asking: VecDeque::new(alloc),
            told: VecDeque::new(alloc),
        })
    }

    /// Answers until the figures say that the server ends.
    pub fn serve<R: Wait + Clock>(&mut self, rt: &R, figures: &Figures) {
        let mut pause = 0;
        for _ in rt.forever() {
            if figures.is_over() {
                return;
            }
            if self
                .poll
                .poll(&mut self.events, Some(Duration::from_millis(pause)))
                .is_err()
            {
                thread::sleep(rt, Duration::from_millis(PAUSE));
            }
            pause = if self.accept_all(rt, figures) {
                0
            } else {
                PAUSE
            };
            self.hear_all(rt, figures);
            let alloc = self.alloc;
            self.told
                .retain_mut(|client| client.advance(rt, alloc, figures) != Stage::Ends);
        }
    }

    // Takes in who waits. True where others may wait still: a poll tells of them no more.
    fn accept_all<R: Clock>(&mut self, rt: &R, figures: &Figures) -> bool {
        for _ in 0..MOST_AT_ONCE {
            match self.listener.accept() {
                Ok((stream, from)) => self.add(rt, figures, stream, from),
                Err(_) => return false,
            }
        }
        true
    }

    // Where it can't be watched it is let go.
    fn add<R: Clock>(&mut self, rt: &R, figures: &Figures, stream: TcpStream, from: SocketAddr) {
        let mut stream = stream;
        let both = Interest::READABLE | Interest::WRITABLE;
        if self
            .poll
            .registry()
            .register(&mut stream, Token(1), both)
            .is_ok()
        {
            self.hear(rt, figures, Client::new(rt, stream, from));
        }
    }

    // Goes on with each that hasn't asked. They stay in their order.
    fn hear_all<R: Clock>(&mut self, rt: &R, figures: &Figures) {
        for _ in 0..self.asking.len() {
            if let Some(client) = self.asking.pop_front() {
                self.hear(rt, figures, client);
            }
        }
    }

    // Hears a client, which takes its place behind the others. Where there is no memory for it, it is let go.
    fn hear<R: Clock>(&mut self, rt: &R, figures: &Figures, client: Client) {
        let mut client = client;
        match client.advance(rt, self.alloc, figures) {
            Stage::Asks => {
                make_room(&mut self.asking);
                let _ = self.asking.push_back(client);
            }
            Stage::IsTold => {
                if self.told.len() >= MOST_TOLD {
                    let _ = self.told.pop_front();
                }
                let _ = self.told.push_back(client);
            }
            Stage::Ends => {}
        }
    }
}

// Lets one go where all places of those that ask are taken.
fn make_room(asking: &mut VecDeque<Client>) {
    if asking.len() < MOST_ASKING {
        return;
    }
    let mut addresses = [0; MOST_ASKING];
    for place in 0..MOST_ASKING {
        if let Some(client) = asking.get(place) {
            addresses[place] = client.from;
        }
    }
    if let Some(place) = gives_way(&addresses) {
        let _ = asking.remove(place);
    }
}
