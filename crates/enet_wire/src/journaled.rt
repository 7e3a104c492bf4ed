//! A socket that keeps a journal: all that asks the system for datagrams, or about the socket.
ghost use Rattle.std.specs.Prelude.{◌≡◌, ◌++◌, [], ◌<◌, ◌≤◌, true, Some, None, Ok, IfOk, IfErr, IfSome};
ghost use Rattle.enet_wire.specs.Journals.{is_answerable, plain, sender};
ghost use Rattle.enet_wire.specs.Private.Noted.{gave, noted_at};
ghost use Rattle.enet_wire.specs.Wires.{came, went, waited};

use crate::journal::{Journal, Note};
use crate::wire::SendOutcome;
use enet_codec::Addr;
use libc::net as c;
use mio::net::UdpSocket;
use mio::{Interest, Registry, Token};
use std::io;
use std::net::{IpAddr, Ipv4Addr, Net, SocketAddr};
use std::os::fd::{AsRawFd, RawFd};

/// In a call so many datagrams that can't be answered are passed over at most, so that they don't keep a turn from its other work.
const MOST_PASSED_OVER: u32 = 64;

/// How many bytes of datagrams the system is asked to keep until they are received, and as many until they are sent.
const BUFFER: u32 = 4_194_304;

/// A UDP socket with a journal, to which nobody else has the socket. That a datagram came or went is noted by [`receive`] and [`send`]
/// alone, with what the system answered, and at which address the system was asked to put it by [`bind`]: what these three functions note
/// of it is trusted.
#[derive(Drop)]
pub(crate) struct JournaledSocket {
    socket: UdpSocket,
    address: Addr,
    journal: Journal,
}

impl JournaledSocket {
    /// A socket at this address, at port 0 at one that the system chooses, with buffers of 4 MB where the system grants that. The registry
    /// tells by this token that a datagram came. Of the socket nothing is noted but this address.
    pub(crate) fn bind<R: Net>(
        rt: &R,
        addr: Addr,
        registry: &Registry,
        token: Token,
    ) -> io::Result<JournaledSocket>
        ensures untold { IfOk result (λ socket. noted_at socket ≡ []) }
        ensures there { IfOk result (λ socket. socket.address ≡ addr) }
    {
        let mut socket = UdpSocket::bind(rt, socket_addr(addr))?;
        widen(socket.as_raw_fd());
        registry.register(&mut socket, token, Interest::READABLE)?;
        Ok(JournaledSocket {
            socket,
            address: addr,
            journal: Journal::new(),
        })
    }

    /// How many bytes of datagrams the system keeps until they are received, as it tells. None where it doesn't tell.
    pub(crate) fn receive_buffer(&self) -> Option<u32> {
        let mut value = [0u8; 16];
        let mut len = 4u32;
        let fd = self.socket.as_raw_fd();
        let told = unsafe { c::getsockopt(fd, c::SOL_SOCKET, c::SO_RCVBUF, &mut value, &mut len) };
        if told != 0 {
            return None;
        }
        Some(u32::from_ne_bytes([value[0], value[1], value[2], value[3]]))
    }

    /// Asks the system to keep so many bytes of datagrams until they are received. It may keep fewer, which is no fault.
    pub(crate) fn set_receive_buffer(&self, bytes: u32) {
        widen_incoming(self.socket.as_raw_fd(), bytes);
    }

    /// Has the system give the next datagram that can be answered. Others are passed over, and not noted. None where 64 were passed over,
    /// which is noted. What the system answers else is handed on, and nothing is noted.
    pub(crate) fn receive_answerable(
        &mut self,
        buf: &mut [u8; 4096],
    ) -> io::Result<Option<(Addr, usize)>>
        ensures noted { IfOk result (λ given. noted_at self.new ≡ noted_at self.old ++ came (Ok given) buf.new) }
        ensures silent { IfErr result (λ why. noted_at self.new ≡ noted_at self.old) }
        ensures len { IfOk result (λ given. IfSome given (λ d. d.1 ≤ 4096)) }
        ensures answerable { IfOk result (λ given. IfSome given (λ d. 0 < d.0.port)) }
    {
        for _over in 0..MOST_PASSED_OVER {
            if let Some(given) = self.receive(buf)? {
                return Ok(Some(given));
            }
        }
        self.note_nothing();
        Ok(None)
    }

    /// Has the system give the next datagram. None where it can't be answered, since it comes from port 0, or from an address of another
    /// kind: then nothing is noted. What the system answers else is handed on, and nothing is noted.
    fn receive(&mut self, buf: &mut [u8; 4096]) -> io::Result<Option<(Addr, usize)>>
        ensures noted { IfOk result (λ given. noted_at self.new ≡ noted_at self.old ++ gave given buf.new) }
        ensures silent { IfErr result (λ why. noted_at self.new ≡ noted_at self.old) }
        ensures len { IfOk result (λ given. IfSome given (λ d. d.1 ≤ 4096)) }
        ensures answerable { IfOk result (λ given. IfSome given (λ d. 0 < d.0.port)) }
    {
        let (len, from) = self.socket.recv_from(buf)?;
        let bytes = &buf[..len];
        self.journal = self.journal.and(&Note::Came { from, bytes });
        Ok(sender(from).map(|from| (from, len)))
    }

    /// Hands the datagram to the system. What the system answers else is handed on, and nothing is noted.
    pub(crate) fn send(&mut self, to: Addr, bytes: &[u8]) -> io::Result<()>
        ensures noted { IfOk result (λ sent. noted_at self.new ≡ noted_at self.old ++ went to bytes.now (Ok SendOutcome.Sent)) }
        ensures silent { IfErr result (λ why. noted_at self.new ≡ noted_at self.old) }
    {
        let to = socket_addr(to);
        self.socket.send_to(bytes, to)?;
        self.journal = self.journal.and(&Note::Went { to, bytes });
        Ok(())
    }

    /// Notes that no datagram came.
    pub(crate) fn note_nothing(&mut self)
        ensures { noted_at self.new ≡ noted_at self.old ++ came (Ok None) [] }
    {
        self.journal = self.journal.and(&Note::NothingCame);
    }

    /// Notes that a datagram is lost.
    pub(crate) fn note_lost(&mut self, to: Addr, bytes: &[u8])
        ensures { noted_at self.new ≡ noted_at self.old ++ went to bytes.now (Ok SendOutcome.Lost) }
    {
        self.journal = self.journal.and(&Note::Lost { to, bytes });
    }

    /// Notes that a datagram didn't go, since that would have blocked.
    pub(crate) fn note_blocked(&mut self, to: Addr, bytes: &[u8])
        ensures { noted_at self.new ≡ noted_at self.old ++ went to bytes.now (Ok SendOutcome.Blocked) }
    {
        self.journal = self.journal.and(&Note::Blocked { to, bytes });
    }

    /// Notes what a wait gave.
    pub(crate) fn note_wait(&mut self, ms: u32)
        ensures { noted_at self.new ≡ noted_at self.old ++ waited (Ok ms) }
    {
        self.journal = self.journal.and(&Note::Waited { ms });
    }
}

// Asks the system to keep more datagrams that weren't received yet, or didn't leave yet. It may keep fewer, which is no fault.
fn widen(fd: RawFd) {
    widen_incoming(fd, BUFFER);
    let value = option_value(BUFFER);
    let _ = unsafe { c::setsockopt(fd, c::SOL_SOCKET, c::SO_SNDBUF, &value, 4) };
}

// Asks it to keep so many bytes that weren't received yet.
fn widen_incoming(fd: RawFd, bytes: u32) {
    let value = option_value(bytes);
    let _ = unsafe { c::setsockopt(fd, c::SOL_SOCKET, c::SO_RCVBUF, &value, 4) };
}

// A number as an option of a socket has it.
fn option_value(number: u32) -> [u8; 16] {
    let mut value = [0u8; 16];
    value[..4].copy_from_slice(&number.to_ne_bytes());
    value
}

// An address as the system has it.
fn socket_addr(addr: Addr) -> SocketAddr
    ensures { plain result ≡ Some addr }
{
    SocketAddr::from((Ipv4Addr::from_bits(addr.ip), addr.port))
}

/// Whether something can be sent to a port.
pub(crate) fn is_answerable(port: u16) -> bool
    ensures answerable { result ≡ is_answerable port }
    ensures number { result ≡ true → 0 < port }
{
    port != 0
}

// Who sent a datagram, if it can be answered: None for port 0, and for an address of another kind.
fn sender(addr: SocketAddr) -> Option<Addr>
    ensures sender { result ≡ sender addr }
    ensures answerable { IfSome result (λ from. 0 < from.port) }
{
    if !is_answerable(addr.port()) {
        return None;
    }
    match addr.ip() {
        IpAddr::V4(ip) => Some(Addr {
            ip: ip.to_bits(),
            port: addr.port(),
        }),
        IpAddr::V6(_) => None,
    }
}
