//! The hosts of a fleet, and the client of each connection.

ghost use Rattle.std.specs.Prelude.{◌≡◌, ◌≤◌, ◌<◌, ◌&&◌, nat_le, nat_lt, true, length, is_some, Some, None, IfOk, IfErr, slice_get};
ghost use Rattle.std.specs.Borrow.{sem};
ghost use Rattle.std.specs.List.{list_all};
ghost use Rattle.std.specs.Option.{option_copied, option_copied_mut, option_map};
ghost use Rattle.enet_codec.specs.Config.{is_in_range};
ghost use Rattle.law_headline.specs.declared.node.Node.TheVariants as node;
ghost use Rattle.enet_fleet.specs.Fleets.{place_of, address_of, is_host, client_in, open_fleet, sent_by};
ghost use Rattle.enet_fleet.specs.Headline.{place_at};
ghost use Rattle.enet_fleet.specs.Private.Lending.{LendsPlace};
ghost use Rattle.enet_fleet.specs.Private.Places.{is_host_by};

use crate::event::End;
use enet_codec::{Addr, Config, Refusal};
use enet_site::{Place, Sent, close_all, open_clients};
use law_headline::Node;
use std::alloc::Global;
use std::marker::Model;

/// Where the server of a fleet is.
pub const SERVER: Addr = Addr {
    ip: 0x0A00_0001,
    port: 7001,
};

/// Where the first client of a fleet is. The others are at the ports after it.
pub const FIRST_CLIENT: Addr = Addr {
    ip: 0x0A00_0002,
    port: 7002,
};

/// The hosts of a fleet, each with what is kept of it.
#[derive(Drop)]
pub(crate) struct Hosts {
    pub server: Place,
    pub clients: Vec<Place>,
    /// The client that asked for each connection.
    pub asked: Vec<u16>,
}

impl Model for Hosts {
    ghost use Rattle.enet_fleet.specs.Fleets.{Fleet};
    ghost use Rattle.std.specs.Coded.{codes};
    ghost use Rattle.enet_inbox.specs.Codes.{inbox_code};

    ghost Value = { Fleet };

    ghost coded = { Prim.hlevel (codes, inbox_code) };

    ghost view = { λ h. record { server = h.server; clients = h.clients.items; asked = h.asked.items } };
}

/// Where a client is.
pub(crate) fn client_address(client: u16) -> Addr
    requires { client < 4095 }
    ensures { result ≡ address_of (node.Client client) }
{
    Addr {
        ip: FIRST_CLIENT.ip,
        port: FIRST_CLIENT.port + client,
    }
}

/// Whether a host of a fleet of so many clients is at an address.
pub(crate) fn is_host(clients: usize, address: Addr) -> bool
    ensures { result ≡ is_host clients address }
{
    is_host_by(clients, address)
}

/// The same, by the address's numbers.
fn is_host_by(clients: usize, address: Addr) -> bool
    ensures { result ≡ is_host_by clients address }
{
    if address.ip == FIRST_CLIENT.ip {
        return address.port >= FIRST_CLIENT.port
            && usize::from(address.port - FIRST_CLIENT.port) < clients;
    }
    address.ip == SERVER.ip && address.port == SERVER.port
}

/// The client that asked for a connection.
pub(crate) fn client_of<'a>(
    clients: &'a [Place],
    asked: &[u16],
    connection: u64,
) -> Option<&'a Place>
    ensures { option_copied result ≡ client_in clients.now (slice_get asked.now connection) }
{
    let client = *asked.get(connection as usize)?;
    clients.get(usize::from(client))
}

/// Where to datagram `k` of a host went, and its bytes; None where it has put out fewer.
pub(crate) fn sent_by(place: &Place, k: u64) -> Option<(Addr, &[u8])>
    ensures { option_map (λ d. (d.0, d.1.now)) result ≡ sent_by (Some place.now) k }
{
    match place.sent.get(k as usize)? {
        Sent::Of(n) => {
            let to = place.site.destination(*n)?;
            let text = place.site.datagram(*n)?;
            Some((to, text))
        }
        Sent::Away { to, text } => Some((*to, &text.bytes)),
    }
}

impl Hosts {
    /// A server and clients whose slots are all free. E1 where memory is refused.
    pub fn open(alloc: Global, server: Config, clients: &[Config]) -> Result<Hosts, Refusal>
        requires server { is_in_range server ≡ true }
        requires clients { list_all is_in_range clients.now ≡ true }
        requires few { length clients.now ≤ 4095 }
        ensures memory { IfErr result (λ why. why ≡ Refusal.Memory) }
        ensures fresh { IfOk result (λ h. h ≡ open_fleet server clients.now) }
    {
        let server = Place::open(alloc, SERVER, server)?;
        match open_clients(alloc, clients, FIRST_CLIENT.ip, FIRST_CLIENT.port) {
            Ok(clients) => Ok(Hosts {
                server,
                clients,
                asked: Vec::new(alloc),
            }),
            Err(why) => {
                server.close();
                Err(why)
            }
        }
    }

    /// How many clients there are.
    pub fn clients(&self) -> usize
        ensures { result ≡ length self.now.clients }
    {
        self.clients.len()
    }

    /// Lets the hosts go.
    pub fn close(self) {
        self.server.close();
        close_all(self.clients);
    }

    /// A host, if it is there.
    pub fn place(&self, node: Node) -> Option<&Place>
        ensures { option_copied result ≡ place_of self.now node }
    {
        match node {
            Node::Server => Some(&self.server),
            Node::Client(i) => self.clients.get(usize::from(i)),
        }
    }

    /// The host that has this end of a connection, if there is such a connection.
    pub fn place_at(&self, connection: u64, end: End) -> Option<&Place>
        ensures { option_copied result ≡ place_at self.now connection end }
    {
        match end {
            End::Client => client_of(&self.clients, &self.asked, connection),
            End::Server => Some(&self.server),
        }
    }

    /// A host, if it is there, to change.
    pub fn place_mut(&mut self, node: Node) -> Option<&mut Place>
        ensures* lends { sem 𝓛 (LendsPlace self.entry node result) }
        ensures there { option_copied_mut result ≡ place_of self.old node }
    {
        match node {
            Node::Server => Some(&mut self.server),
            Node::Client(i) => self.clients.get_mut(usize::from(i)),
        }
    }
}
