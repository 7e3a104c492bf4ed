//! A client asks the server for a connection.

ghost use Rattle.std.specs.Prelude.{◌≡◌, ℕ, ◌++◌, ◌∷◌, [], length, Ok, Err, IfOk, IfErr, OnErr};
ghost use Rattle.enet_codec.specs.declared.address.Addr.{Addr};
ghost use Rattle.law_network.specs.Calls as call;
ghost use Rattle.law_network.specs.Steps.{Calls, Happens};
ghost use Rattle.law_network.specs.World.{RefusesCall};
ghost use Rattle.enet_fleet.specs.declared.event.FleetEvent.TheVariants as happen;
ghost use Rattle.enet_fleet.specs.Fleets.{Steps};
ghost use Rattle.enet_fleet.specs.Private.Reached.{IsReached};

use crate::answer::Answer;
use crate::hosts::Hosts;
use enet_codec::{PeerRef, Refusal};
use enet_site::Site;
use std::alloc::Global;

/// Why a client's question for so many channels is refused where there is no memory to note it.
fn refusal_without_memory(here: &Site, channels: u8) -> Refusal
    ensures { (address : Addr) (info word : ℕ) → RefusesCall (call.Connect address channels info word (Err result)) here.now }
{
    match here.connect_refusal(channels) {
        Some(why) => why,
        None => Refusal::Memory,
    }
}

/// The user of this client asks the server for a connection, the next one, which is noted as the client's.
fn ask(
    here: &mut Site,
    server: &Site,
    asked: &mut Vec<u16>,
    alloc: Global,
    client: u16,
    channels: u8,
    info: u32,
    word: u32,
) -> Result<PeerRef, Refusal>
    ensures refused { IfErr result (λ why. RefusesCall (call.Connect server.now.address channels info word (Err why)) here.old) }
    ensures unchanged { OnErr result (here.new ≡ here.old) }
    ensures asked { OnErr result (asked.new.items ≡ asked.old.items) }
    ensures connects { IfOk result (λ name. Happens (length asked.old.items) server.now (Calls (call.Connect server.now.address channels info word (Ok name))) here.old here.new) }
    ensures noted { IfOk result (λ name. asked.new.items ≡ asked.old.items ++ client ∷ []) }
{
    if asked.reserve(1).is_err() {
        return Err(refusal_without_memory(here, channels));
    }
    let next = asked.len() as u64;
    let name = here.connect(alloc, server, next, channels, info, word)?;
    asked.push_reserved(client);
    Ok(name)
}

/// The user of a client asks the server for a connection, which gets the next number.
pub(crate) fn connect(
    hosts: &mut Hosts,
    alloc: Global,
    client: u16,
    channels: u8,
    info: u32,
    word: u32,
) -> Result<Answer, Refusal>
    requires { IsReached hosts.old }
    ensures { Steps hosts.old (happen.Connect client channels info word) result hosts.new }
{
    let i = usize::from(client);
    if i >= hosts.clients.len() {
        return Err(Refusal::NoSuchHost);
    }
    let here = &mut hosts.clients[i].site;
    let server = &hosts.server.site;
    let asked = &mut hosts.asked;
    let name = ask(here, server, asked, alloc, client, channels, info, word)?;
    Ok(Answer::Peer(name))
}
