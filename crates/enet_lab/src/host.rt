//! The hosts that a script names.

ghost use Rattle.std.specs.Prelude.{◌≡◌, bytes_eq, IfOk};
ghost use Rattle.std.specs.String.{string_bytes};
ghost use Rattle.enet_lab.specs.Hosts.{side_named, client_named, node_named, host_named, node_text, host_text, recipient_at, recipient_text, address_to};

use enet_codec::Addr;
use enet_fleet::{FIRST_CLIENT, Node, SERVER};
use enet_text::{address_text, u16_of};
use law_network::Side;
use std::alloc::{AllocError, Global};

/// A host, whose name tells of which kind of network it is.
#[derive(Clone, Copy)]
pub enum Host {
    /// A side of a world: `A` or `B`.
    OfWorld(Side),
    /// A host of a fleet: `S`, or `C` and the client's number.
    OfFleet(Node),
}

/// Whom a datagram of a fleet goes to.
#[derive(Clone, Copy)]
pub enum Recipient {
    /// A host of the fleet.
    Host(Node),
    /// A stranger at this address.
    Stranger(Addr),
}

impl Recipient {
    /// Whom a datagram to this address goes to, in a fleet of so many clients: the host that is there, or else a stranger.
    pub fn at(clients: usize, addr: Addr) -> Recipient
        ensures recipient { result ≡ recipient_at clients addr }
        ensures there { address_to result ≡ addr }
    {
        if addr == SERVER {
            return Recipient::Host(Node::Server);
        }
        match addr.port.checked_sub(FIRST_CLIENT.port) {
            Some(client) if addr.ip == FIRST_CLIENT.ip && usize::from(client) < clients => {
                Recipient::Host(Node::Client(client))
            }
            _ => Recipient::Stranger(addr),
        }
    }
}

/// The host of this name.
pub(crate) fn host_named(word: &[u8]) -> Option<Host>
    ensures { result ≡ host_named word.now }
{
    match side_named(word) {
        Some(side) => Some(Host::OfWorld(side)),
        None => Some(Host::OfFleet(node_named(word)?)),
    }
}

/// A side of a world: `A` or `B`.
pub(crate) fn side_named(word: &[u8]) -> Option<Side>
    ensures { result ≡ side_named word.now }
{
    if is(word, b"A") {
        return Some(Side::A);
    }
    if is(word, b"B") {
        return Some(Side::B);
    }
    None
}

/// A host of a fleet: `S`, or a client.
pub(crate) fn node_named(word: &[u8]) -> Option<Node>
    ensures { result ≡ node_named word.now }
{
    if is(word, b"S") {
        return Some(Node::Server);
    }
    Some(Node::Client(client_named(word)?))
}

// A client of a fleet: `C` and its number.
fn client_named(word: &[u8]) -> Option<u16>
    ensures { result ≡ client_named word.now }
{
    let (letter, digits) = word.split_first()?;
    if *letter != b'C' {
        return None;
    }
    u16_of(digits)
}

/// A word is this one.
pub(crate) fn is(word: &[u8], name: &[u8]) -> bool
    ensures { result ≡ bytes_eq word.now name.now }
{
    word == name
}

/// The name of a host. An error where there is no memory for the text.
pub fn host_text(alloc: Global, host: Host) -> Result<String, AllocError>
    ensures { IfOk result (λ text. string_bytes text ≡ host_text host) }
{
    match host {
        Host::OfWorld(Side::A) => String::from_str(alloc, "A"),
        Host::OfWorld(Side::B) => String::from_str(alloc, "B"),
        Host::OfFleet(node) => node_text(alloc, node),
    }
}

fn node_text(alloc: Global, node: Node) -> Result<String, AllocError>
    ensures { IfOk result (λ text. string_bytes text ≡ node_text node) }
{
    match node {
        Node::Server => String::from_str(alloc, "S"),
        Node::Client(i) => format!(in alloc; "C{i}"),
    }
}

/// The name of a host of a fleet, or a stranger's address. An error where there is no memory for the text.
pub(crate) fn recipient_text(alloc: Global, recipient: Recipient) -> Result<String, AllocError>
    ensures { IfOk result (λ text. string_bytes text ≡ recipient_text recipient) }
{
    match recipient {
        Recipient::Host(node) => node_text(alloc, node),
        Recipient::Stranger(addr) => address_text(alloc, addr),
    }
}
