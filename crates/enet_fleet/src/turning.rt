//! A host may put out a datagram.

ghost use Rattle.std.specs.Prelude.{◌≡◌, IfOk, IfErr, OnErr};
ghost use Rattle.law_network.specs.Headline.{AreEnds};
ghost use Rattle.enet_fleet.specs.declared.event.FleetEvent.TheVariants as happen;
ghost use Rattle.law_headline.specs.declared.node.Node.TheVariants as node;
ghost use Rattle.enet_fleet.specs.Fleets.{Steps};
ghost use Rattle.enet_fleet.specs.Private.Reached.{IsReached};
ghost use Rattle.enet_fleet.specs.Private.Turning.{PutsOutByTurn, sent_of};

use crate::answer::Answer;
use crate::around::{AroundClient, AroundServer};
use crate::hosts::Hosts;
use enet_codec::Refusal;
use enet_site::{Around, Place, Sent, Turned};
use law_headline::Node;
use std::alloc::Global;

/// What a turn put out, as it is kept.
fn sent_of(turned: Turned) -> Sent
    ensures { result ≡ sent_of turned }
{
    match turned {
        Turned::Sent(n) => Sent::Of(n),
        Turned::Away { to, text } => Sent::Away { to, text },
    }
}

/// A host with these around it may put out a datagram, which gets its next number.
fn put_out<A: Around>(here: &mut Place, alloc: Global, around: &A) -> Result<Option<u64>, Refusal>
    requires { AreEnds (A.hosts around.now) here.old.site }
    ensures memory { IfErr result (λ why. why ≡ Refusal.Memory) }
    ensures unchanged { OnErr result (here.new ≡ here.old) }
    ensures puts { IfOk result (λ k. PutsOutByTurn (A.hosts around.now) (A.numbers around.now) k here.old here.new) }
{
    let sent = &mut here.sent;
    if sent.reserve(1).is_err() {
        return Err(Refusal::Memory);
    }
    let Some(turned) = here.site.turn(alloc, around)? else {
        return Ok(None);
    };
    let number = sent.len() as u64;
    sent.push_reserved(sent_of(turned));
    Ok(Some(number))
}

fn turn_server(hosts: &mut Hosts, alloc: Global) -> Result<Answer, Refusal>
    requires { IsReached hosts.old }
    ensures { Steps hosts.old (happen.Turn node.Server) result hosts.new }
{
    let around = AroundServer {
        clients: &hosts.clients,
        asked: &hosts.asked,
    };
    let sent = put_out(&mut hosts.server, alloc, &around)?;
    Ok(Answer::Sent(sent))
}

fn turn_client(hosts: &mut Hosts, alloc: Global, client: u16) -> Result<Answer, Refusal>
    requires { IsReached hosts.old }
    ensures { Steps hosts.old (happen.Turn (node.Client client)) result hosts.new }
{
    let i = usize::from(client);
    let clients = hosts.clients.len();
    if i >= clients {
        return Err(Refusal::NoSuchHost);
    }
    let server = &hosts.server.site;
    let around = AroundClient { server, clients };
    let sent = put_out(&mut hosts.clients[i], alloc, &around)?;
    Ok(Answer::Sent(sent))
}

/// A host may put out a datagram.
pub(crate) fn turn(hosts: &mut Hosts, alloc: Global, node: Node) -> Result<Answer, Refusal>
    requires { IsReached hosts.old }
    ensures { Steps hosts.old (happen.Turn node) result hosts.new }
{
    match node {
        Node::Server => turn_server(hosts, alloc),
        Node::Client(client) => turn_client(hosts, alloc, client),
    }
}
