//! The network brings a host a datagram of another.

ghost use Rattle.std.specs.Prelude.{◌≡◌, ℕ, Some, IfOk, IfErr, OnErr};
ghost use Rattle.law_network.specs.Steps.{Delivers, Happens};
ghost use Rattle.law_network.specs.World.{IsRefusedFor};
ghost use Rattle.enet_fleet.specs.declared.event.FleetEvent.TheVariants as happen;
ghost use Rattle.law_headline.specs.declared.node.Node.TheVariants as node;
ghost use Rattle.enet_fleet.specs.Fleets.{Steps, Refuses, logged_to, refused_there};
ghost use Rattle.enet_fleet.specs.Private.Reached.{IsReached};

use crate::answer::Answer;
use crate::hosts::{Hosts, SERVER, client_address};
use enet_codec::{Addr, Received, Refusal};
use enet_site::{Place, Sent, Site};
use law_headline::Node;
use std::alloc::Global;

/// Which datagram of a host's log is its datagram `k`, where that went to this address.
fn logged_to(from: &Place, to: Addr, k: u64) -> Option<u64>
    ensures { result ≡ logged_to to from.now k }
{
    let Some(Sent::Of(n)) = from.sent.get(k as usize) else {
        return None;
    };
    let went = from.site.destination(*n)?;
    if went.ip == to.ip && went.port == to.port {
        Some(*n)
    } else {
        None
    }
}

/// The network brings the host at an address datagram `k` of another.
fn bring(
    here: &mut Site,
    address: Addr,
    from: &Place,
    alloc: Global,
    k: u64,
) -> Result<Received, Refusal>
    ensures refused { IfErr result (λ why. IsRefusedFor why (refused_there from.now.site here.old (logged_to address from.now k))) }
    ensures unchanged { OnErr result (here.new ≡ here.old) }
    ensures brings { IfOk result (λ answer. (n : ℕ) × (logged_to address from.now k ≡ Some n) × ((next : ℕ) → Happens next from.now.site (Delivers n answer) here.old here.new)) }
{
    let Some(n) = logged_to(from, address, k) else {
        return Err(Refusal::NoSuchDatagram);
    };
    here.deliver(alloc, &from.site, n)
}

/// The network brings the server a client's datagram `k`.
fn deliver_to_server(
    hosts: &mut Hosts,
    alloc: Global,
    client: u16,
    k: u64,
) -> Result<Answer, Refusal>
    ensures { Steps hosts.old (happen.Deliver node.Server (node.Client client) k) result hosts.new }
{
    let Some(from) = hosts.clients.get(usize::from(client)) else {
        return Err(Refusal::NoSuchHost);
    };
    let received = bring(&mut hosts.server.site, SERVER, from, alloc, k)?;
    Ok(Answer::Received(received))
}

/// The network brings a client the server's datagram `k`.
fn deliver_to_client(
    hosts: &mut Hosts,
    alloc: Global,
    client: u16,
    k: u64,
) -> Result<Answer, Refusal>
    requires { IsReached hosts.old }
    ensures { Steps hosts.old (happen.Deliver (node.Client client) node.Server k) result hosts.new }
{
    let i = usize::from(client);
    if i >= hosts.clients.len() {
        return Err(Refusal::NoSuchHost);
    }
    let here = &mut hosts.clients[i].site;
    let address = client_address(client);
    let received = bring(here, address, &hosts.server, alloc, k)?;
    Ok(Answer::Received(received))
}

/// Why no datagram comes from a client to a client: one isn't there, or none was put out for it.
fn refusal_between(hosts: &Hosts, to: u16, from: u16) -> Refusal
    requires { IsReached hosts.now }
    ensures { (k : ℕ) → Refuses hosts.now (happen.Deliver (node.Client to) (node.Client from) k) result }
{
    let Some(_at) = hosts.place(Node::Client(to)) else {
        return Refusal::NoSuchHost;
    };
    let Some(_sender) = hosts.place(Node::Client(from)) else {
        return Refusal::NoSuchHost;
    };
    Refusal::NoSuchDatagram
}

/// The network brings a host datagram `k` of another. No client puts out one for a client, nor the server one for itself.
pub(crate) fn deliver(
    hosts: &mut Hosts,
    alloc: Global,
    to: Node,
    from: Node,
    k: u64,
) -> Result<Answer, Refusal>
    requires { IsReached hosts.old }
    ensures { Steps hosts.old (happen.Deliver to from k) result hosts.new }
{
    match (to, from) {
        (Node::Server, Node::Client(i)) => deliver_to_server(hosts, alloc, i, k),
        (Node::Client(i), Node::Server) => deliver_to_client(hosts, alloc, i, k),
        (Node::Server, Node::Server) => Err(Refusal::NoSuchDatagram),
        (Node::Client(i), Node::Client(j)) => Err(refusal_between(hosts, i, j)),
    }
}
