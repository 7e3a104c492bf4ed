//! A UDP socket as a wire.
ghost use Rattle.std.specs.Prelude.{◌≡◌, [], ◌⊎◌, ◌↔◌, ◌+◌, ◌<◌, Err, IfOk, IfErr, IsSome, None, Some};
ghost use Rattle.enet_wire.specs.Private.Noted.{noted_at};
ghost use Rattle.enet_wire.specs.Private.Refusals.{is_repeatable, unsent_by};
ghost use Rattle.enet_wire.specs.Socket.{address_of, bell_of, failures_of, reason_of, told_of};
ghost use Rattle.std.specs.Arc.{arc_value};

use crate::bell::Bell;
use crate::journaled::JournaledSocket;
use crate::wire::{MOST_LOST_PER_TURN, MOST_PER_TURN, SendOutcome, Wire};
use enet_codec::{Addr, Refusal};
use mio::{Events, Poll, Token};
use std::alloc::Global;
use std::io::ErrorKind;
use std::net::Net;
use std::sync::{Arc, Wait};
use std::time::{Clock, Duration, Instant};
use std::{io, thread};

const SOCKET: Token = Token(0);

/// The longest wait, in milliseconds.
const LONGEST: u64 = 5;

/// The longest wait while a datagram would have blocked, in milliseconds.
const LONGEST_BLOCKED: u64 = 1;

/// After so many microseconds, or so many looks, the wire no longer waits for orders that are expected, but sleeps: a thread that sleeps
/// has to be woken. Where other work fills the processors a look may take longer, as that goes first.
const MOMENT: u64 = 200;

const LOOKS: u32 = 1000;

/// Why there is no socket.
#[derive(Clone, Copy)]
pub struct Unopened {
    /// E14 or E1.
    pub why: Refusal,
    /// What the system said, where it is the system that refused.
    pub reason: Option<io::Error>,
}

impl From<Refusal> for Unopened {
    ghost use Rattle.std.specs.Prelude.{◌≡◌, None};

    ghost from_gives = { λ why unopened. unopened ≡ record { why = why; reason = None } };

    fn from(why: Refusal) -> Unopened {
        Unopened { why, reason: None }
    }
}

/// A UDP socket, whose wait other threads can end. It tells what its calls did, in a list that clauses alone read.
#[derive(Drop)]
pub struct MioWire {
    socket: JournaledSocket,
    poll: Poll,
    events: Events,
    bell: Arc<Bell, Global>,
    // The moment up to which milliseconds were told.
    told_to: Option<Instant>,
    failures: u64,
    // What the system said of the last failure.
    reason: Option<io::Error>,
    // Since the last datagram the socket was seen empty, or a reception failed that can be repeated. The system tells readiness
    // once, where it changes.
    drained: bool,
    // A send would have blocked since the last wait.
    blocked: bool,
    // Datagrams that an error of their destination or of their length lost since the last wait, and datagrams sent.
    lost: u32,
    sent: u32,
    // The last reception found the socket empty.
    empty: bool,
    // And the last sleep was told of no datagram: the next reception needn't be tried.
    quiet: bool,
}

impl MioWire {
    /// A socket at this address, at port 0 at one that the system chooses, with a receive buffer and a send buffer of 4 MB each where the
    /// system grants that.
    ///
    /// E14 where the address can't be had, or the system grants nothing to wait by; else E1 for want of memory.
    pub fn bind<R: Net + AllocGlobal>(rt: &R, addr: Addr) -> Result<MioWire, Refusal>
        ensures new { IfOk result (λ wire. failures_of wire ≡ 0) }
        ensures there { IfOk result (λ wire. address_of wire ≡ addr) }
        ensures silent { IfOk result (λ wire. reason_of wire ≡ None) }
        ensures untold { IfOk result (λ wire. told_of wire ≡ []) }
        ensures refused { IfErr result (λ why. (why ≡ Refusal.WireFault) ⊎ (why ≡ Refusal.Memory)) }
    {
        match MioWire::open(rt, addr) {
            Ok(wire) => Ok(wire),
            Err(unopened) => Err(unopened.why),
        }
    }

    /// As [`MioWire::bind`], and beside E14 what the system said.
    pub fn open<R: Net + AllocGlobal>(rt: &R, addr: Addr) -> Result<MioWire, Unopened>
        ensures new { IfOk result (λ wire. failures_of wire ≡ 0) }
        ensures there { IfOk result (λ wire. address_of wire ≡ addr) }
        ensures silent { IfOk result (λ wire. reason_of wire ≡ None) }
        ensures untold { IfOk result (λ wire. told_of wire ≡ []) }
        ensures refused { IfErr result (λ unopened. (unopened.why ≡ Refusal.WireFault) ⊎ (unopened.why ≡ Refusal.Memory)) }
        ensures said { IfErr result (λ unopened. (unopened.why ≡ Refusal.WireFault) ↔ IsSome unopened.reason) }
    {
        let (socket, poll, bell) = match opened(rt, addr) {
            Ok(opened) => opened,
            Err(reason) => {
                return Err(Unopened {
                    why: Refusal::WireFault,
                    reason: Some(reason),
                });
            }
        };
        let (Ok(events), Ok(bell)) = (
            Events::with_capacity(rt.alloc(), 4),
            Arc::new(rt.alloc(), bell),
        ) else {
            return Err(Unopened::from(Refusal::Memory));
        };
        Ok(MioWire {
            socket,
            poll,
            events,
            bell,
            told_to: None,
            failures: 0,
            reason: None,
            drained: true,
            blocked: false,
            lost: 0,
            sent: 0,
            empty: false,
            quiet: false,
        })
    }

    /// The bell that ends this wire's wait. E1 where so many of its bells are held that no more can be counted.
    pub fn bell(&self) -> Result<Arc<Bell, Global>, Refusal>
        ensures own { IfOk result (λ bell. arc_value bell ≡ bell_of self.now) }
        ensures memory { IfErr result (λ why. why ≡ Refusal.Memory) }
    {
        match Arc::try_clone(&self.bell) {
            Ok(bell) => Ok(bell),
            Err(_) => Err(Refusal::Memory),
        }
    }

    /// How many bytes of datagrams the system keeps until they are received, as it tells: Linux tells twice as many as it granted,
    /// for what it needs beside them. None where it doesn't tell.
    pub fn receive_buffer(&self) -> Option<u32> {
        self.socket.receive_buffer()
    }

    /// Asks the system to keep so many bytes of datagrams until they are received, in place of 4 MB. It may keep fewer
    /// ([`MioWire::receive_buffer`] tells), which is no fault.
    pub fn set_receive_buffer(&self, bytes: u32) {
        self.socket.set_receive_buffer(bytes);
    }

    /// What the system said at the last call that answered E14.
    pub fn reason(&self) -> Option<io::Error>
        ensures { result ≡ reason_of self.now }
    {
        self.reason
    }

    fn fault<T>(&mut self, reason: io::Error) -> Result<T, Refusal>
        requires { failures_of self.old < 18446744073709551615 }
        ensures answer { result ≡ Err Refusal.WireFault }
        ensures count { failures_of self.new ≡ failures_of self.old + 1 }
        ensures reason { reason_of self.new ≡ Some reason }
        ensures told { told_of self.new ≡ told_of self.old }
    {
        self.reason = Some(reason);
        self.failures += 1;
        Err(Refusal::WireFault)
    }

    // Whether there is to be no sleep: something is known to be left, or the bell was rung.
    fn is_wanted(&mut self) -> bool
        ensures failures { failures_of self.new ≡ failures_of self.old }
        ensures told { told_of self.new ≡ told_of self.old }
    {
        let more = !self.drained
            || self.lost >= MOST_LOST_PER_TURN
            || self.sent.saturating_add(self.lost) >= MOST_PER_TURN;
        self.lost = 0;
        self.sent = 0;
        more || self.bell.was_rung()
    }

    // Sleeps until a datagram comes, the bell is rung or the time is over. An error where the system can't wait.
    fn sleep(&mut self) -> io::Result<()>
        ensures failures { failures_of self.new ≡ failures_of self.old }
        ensures told { told_of self.new ≡ told_of self.old }
    {
        let longest = if self.blocked {
            LONGEST_BLOCKED
        } else {
            LONGEST
        };
        self.blocked = false;
        let limit = if self.bell.lie_down() { 0 } else { longest };
        let limit = Some(Duration::from_millis(limit));
        let polled = self.poll.poll(&mut self.events, limit);
        self.bell.get_up();
        match polled {
            Err(why) if why.kind() == ErrorKind::Interrupted => Ok(()),
            Err(why) => Err(why),
            Ok(()) => {
                self.quiet = self.empty && !self.is_told_of_datagrams();
                Ok(())
            }
        }
    }

    // Whether the last sleep was told that there may be a datagram.
    fn is_told_of_datagrams(&self) -> bool {
        for event in self.events.iter() {
            if event.token() == SOCKET {
                return true;
            }
        }
        false
    }

    // Whether the bell is rung within a moment, in which other threads go first.
    fn hears_soon<R: Wait + Clock>(&self, rt: &R) -> bool {
        let Ok(start) = Instant::now(rt) else {
            return false;
        };
        for _ in 0..LOOKS {
            thread::yield_now();
            if self.bell.was_rung() {
                return true;
            }
            match start.elapsed(rt) {
                Ok(elapsed) if elapsed < Duration::from_micros(MOMENT) => {}
                _ => return false,
            }
        }
        false
    }

    // Whole milliseconds since those that were told before; the rest counts for the next time.
    fn passed<R: Clock>(&mut self, rt: &R) -> u32
        ensures failures { failures_of self.new ≡ failures_of self.old }
        ensures told { told_of self.new ≡ told_of self.old }
    {
        let Ok(now) = Instant::now(rt) else {
            return 0;
        };
        let Some(told_to) = self.told_to else {
            self.told_to = Some(now);
            return 0;
        };
        let ms = now.saturating_duration_since(told_to).as_millis();
        let ms = u32::try_from(ms).unwrap_or(u32::MAX);
        let next = told_to.checked_add(Duration::from_millis(u64::from(ms)));
        self.told_to = Some(next.unwrap_or(now));
        ms
    }
}

fn opened<R: Net>(rt: &R, addr: Addr) -> io::Result<(JournaledSocket, Poll, Bell)>
    ensures untold { IfOk result (λ opened. noted_at opened.0 ≡ []) }
    ensures there { IfOk result (λ opened. opened.0.address ≡ addr) }
{
    let poll = Poll::new(rt)?;
    let socket = JournaledSocket::bind(rt, addr, poll.registry(), SOCKET)?;
    let bell = Bell::new(poll.registry())?;
    Ok((socket, poll, bell))
}

// Why a datagram didn't leave.
#[derive(Clone, Copy)]
enum Unsent {
    // An error of its destination or of its length lost it.
    Lost,
    // There is no room at the moment.
    Blocked,
    // The socket is of no use.
    Failed,
}

/// EMSGSIZE of Linux.
const TOO_LONG: i32 = 90;

/// ENOBUFS of Linux.
const NO_BUFFERS: i32 = 105;

/// ENONET, EPROTO, ENOPROTOOPT and EHOSTDOWN of Linux, which it makes of the network's words on a datagram that was sent.
const NO_NETWORK: i32 = 64;

const BAD_PROTOCOL: i32 = 71;

const NO_SUCH_PROTOCOL: i32 = 92;

const HOST_DOWN: i32 = 112;

fn why_unsent(why: &io::Error) -> Unsent {
    match why.raw_os_error() {
        Some(TOO_LONG) => Unsent::Lost,
        Some(NO_BUFFERS) => Unsent::Blocked,
        _ => unsent_by(why.kind()),
    }
}

// By the kind of an error that has no rule of its own.
fn unsent_by(kind: ErrorKind) -> Unsent
    ensures { result ≡ unsent_by kind }
{
    match kind {
        ErrorKind::WouldBlock | ErrorKind::Interrupted | ErrorKind::OutOfMemory => {
            Unsent::Blocked
        }
        ErrorKind::InvalidInput
        | ErrorKind::PermissionDenied
        | ErrorKind::AddrNotAvailable
        | ErrorKind::ConnectionRefused
        | ErrorKind::HostUnreachable
        | ErrorKind::NetworkUnreachable
        | ErrorKind::NetworkDown => Unsent::Lost,
        _ => Unsent::Failed,
    }
}

// Whether a reception that failed so need not fail again: it was interrupted, memory was wanting, or the network said that a
// datagram that was sent before didn't arrive.
fn can_be_repeated(why: &io::Error) -> bool {
    if let Some(
        TOO_LONG | NO_BUFFERS | NO_NETWORK | BAD_PROTOCOL | NO_SUCH_PROTOCOL | HOST_DOWN,
    ) = why.raw_os_error()
    {
        return true;
    }
    is_repeatable(why.kind())
}

fn is_repeatable(kind: ErrorKind) -> bool
    ensures { result ≡ is_repeatable kind }
{
    matches!(
        kind,
        ErrorKind::WouldBlock
            | ErrorKind::Interrupted
            | ErrorKind::OutOfMemory
            | ErrorKind::TimedOut
            | ErrorKind::ConnectionRefused
            | ErrorKind::ConnectionReset
            | ErrorKind::ConnectionAborted
            | ErrorKind::HostUnreachable
            | ErrorKind::NetworkUnreachable
            | ErrorKind::NetworkDown
    )
}

impl Wire for MioWire {
    ghost told = { λ w. Some (told_of w) };

    ghost faults = { λ w. failures_of w };

    ghost kept = { λ w. tt };

    /// None, too, where 64 datagrams came that can't be answered, and where the reception failed in a way that need not come again: that is
    /// no fault. The next wait sleeps then as after an empty socket, so that it isn't tried without a pause. The system isn't asked where
    /// the last call found the socket empty and a sleep since then was told of no datagram.
    fn recv(&mut self, buf: &mut [u8; 4096]) -> Result<Option<(Addr, usize)>, Refusal> {
        if self.failures == u64::MAX {
            return Ok(None);
        }
        if self.quiet {
            self.quiet = false;
            self.socket.note_nothing();
            return Ok(None);
        }
        match self.socket.receive_answerable(buf) {
            Ok(given) => {
                self.drained = false;
                self.empty = false;
                Ok(given)
            }
            Err(why) if can_be_repeated(&why) => {
                self.drained = true;
                self.empty = why.kind() == ErrorKind::WouldBlock;
                self.socket.note_nothing();
                Ok(None)
            }
            Err(why) => {
                self.empty = false;
                self.fault(why)
            }
        }
    }

    /// An error of the destination or of the datagram's length loses the datagram: that is no fault. The next wait doesn't sleep where
    /// so many were lost that a turn sends no more.
    fn send(&mut self, to: Addr, bytes: &[u8]) -> Result<SendOutcome, Refusal> {
        if self.failures == u64::MAX {
            return Ok(SendOutcome::Blocked);
        }
        let why = match self.socket.send(to, bytes) {
            Ok(()) => {
                self.sent = self.sent.saturating_add(1);
                return Ok(SendOutcome::Sent);
            }
            Err(why) => why,
        };
        match why_unsent(&why) {
            Unsent::Lost => {
                self.lost = self.lost.saturating_add(1);
                self.socket.note_lost(to, bytes);
                Ok(SendOutcome::Lost)
            }
            Unsent::Blocked => {
                self.blocked = true;
                self.socket.note_blocked(to, bytes);
                Ok(SendOutcome::Blocked)
            }
            Unsent::Failed => self.fault(why),
        }
    }

    fn wait<R: Wait + Clock>(&mut self, rt: &R) -> Result<u32, Refusal> {
        if self.failures == u64::MAX {
            return Ok(0);
        }
        let expects = self.bell.hears_of_orders();
        if !self.is_wanted() && !(expects && self.hears_soon(rt)) {
            if let Err(why) = self.sleep() {
                return self.fault(why);
            }
        }
        let ms = self.passed(rt);
        self.socket.note_wait(ms);
        Ok(ms)
    }

    fn failures(&self) -> u64 {
        self.failures
    }
}
