//! The network brings a datagram.

ghost use Rattle.std.specs.Prelude.{◌≡◌, ℕ, ◌==◌, List, [], Some, IfSome, IfNone, IfOk, IfErr, OnErr, slice_get};
ghost use Rattle.enet_codec.specs.declared.address.Addr.{Addr};
ghost use Rattle.enet_codec.specs.declared.event.Received.{Received};
ghost use Rattle.enet_codec.specs.declared.header.Header.{Header};
ghost use Rattle.enet_peer.specs.Heading.{IsRead};
ghost use Rattle.enet_host.specs.Host.{Host, Keeps};
ghost use Rattle.enet_host.specs.Foretelling.{guest_name};
ghost use Rattle.enet_host.specs.Opening.{host_basis};
ghost use Rattle.enet_slot.specs.Receiving.{no_peer};
ghost use Rattle.law_network.specs.Calls.{Acts};
ghost use Rattle.law_network.specs.Calls as call;
ghost use Rattle.law_network.specs.Network.{delivery_refusal};
ghost use Rattle.law_network.specs.Steps.{BringsOne, Brought, begun};
ghost use Rattle.law_network.specs.World.{IsRefusedFor};
ghost use Rattle.enet_site.specs.Sites.{site};
ghost use Rattle.enet_site.specs.Private.Sites.{IsWhole, begun_if};

use crate::delivery::refused_delivery;
use crate::{Datagram, Records, fresh_end};
use enet_codec::{Addr, NO_PEER, PeerRef, Received, Refusal};
use enet_host::HostCore;
use enet_peer::read_heading;
use std::alloc::Global;

/// Whether the header of a datagram names no peer, as that of a CONNECT alone does.
fn names_nobody(text: &[u8]) -> bool
    ensures { (header : Header) (commands : List ℕ) → IsRead text.now header commands → result ≡ (header.peer == no_peer) }
{
    match read_heading(text) {
        Ok((header, _commands)) => header.peer == NO_PEER,
        Err(_) => false,
    }
}

/// The name of the peer that would answer this datagram of an address, if any does.
fn answering_peer(host: &mut HostCore, from: Addr, text: &[u8]) -> Option<PeerRef>
    requires { Keeps host.old }
    ensures next { IfSome result (λ name. guest_name (host_basis host.old) from host.old.slots ≡ Some name) }
    ensures none { IfNone result ((x : ℕ) (answer : Received) (after : Host) → Acts (call.Receive from text.now answer) host.old after → begun x from host.old after ≡ []) }
    ensures same { host.new ≡ host.old }
{
    if !names_nobody(text) {
        return None;
    }
    host.next_guest(from)
}

/// A datagram comes from an address, and whether the peer that has this name next answers it.
fn receive(host: &mut HostCore, name: PeerRef, from: Addr, text: &[u8]) -> (Received, bool)
    requires { guest_name (host_basis host.old) from host.old.slots ≡ Some name }
    ensures receives { Acts (call.Receive from text.now result.0) host.old host.new }
    ensures begins { (x : ℕ) → begun x from host.old host.new ≡ begun_if result.1 x name }
{
    let answer = host.receive(from, text);
    let begins = host.state(name).is_some();
    (answer, begins)
}

/// A datagram comes from an address. Where it is answered by a new peer, the end of its connection begins. E1 where memory is
/// refused for that end, with nothing changed.
fn receive_datagram(
    host: &mut HostCore,
    own: &mut Records,
    alloc: Global,
    from: Addr,
    datagram: &Datagram,
) -> Result<Received, Refusal>
    requires { IsWhole host.old own.old.ends }
    ensures memory { IfErr result (λ why. why ≡ Refusal.Memory) }
    ensures host { OnErr result (host.new ≡ host.old) }
    ensures unchanged { OnErr result (own.new ≡ own.old) }
    ensures brings { IfOk result (λ answer. (address : Addr) → Brought from datagram.now answer (site address host.old own.old) (site address host.new own.new)) }
{
    let Some(name) = answering_peer(host, from, &datagram.text) else {
        return Ok(host.receive(from, &datagram.text));
    };
    let end = fresh_end(alloc, datagram.connection, name)?;
    let ends = &mut own.ends;
    if ends.reserve(1).is_err() {
        return Err(Refusal::Memory);
    }
    let (answer, begins) = receive(host, name, from, &datagram.text);
    if !begins {
        return Ok(answer);
    }
    ends.push_reserved(end);
    Ok(answer)
}

/// The network brings datagram `k` of the host at an address, of which `far` is kept. E13, E12, E11 and E1 with nothing
/// changed.
pub(crate) fn deliver(
    host: &mut HostCore,
    own: &mut Records,
    alloc: Global,
    from: Addr,
    far: &Records,
    k: u64,
) -> Result<Received, Refusal>
    requires { IsWhole host.old own.old.ends }
    ensures refused { IfErr result (λ why. (address : Addr) (g : Host) → IsRefusedFor why (delivery_refusal (site from g far.now) (site address host.old own.old) (slice_get far.now.log k))) }
    ensures host { OnErr result (host.new ≡ host.old) }
    ensures unchanged { OnErr result (own.new ≡ own.old) }
    ensures delivers { IfOk result (λ answer. (address : Addr) (g : Host) → BringsOne (site from g far.now) (slice_get far.now.log k) answer (site address host.old own.old) (site address host.new own.new)) }
{
    if let Some(why) = refused_delivery(host, own, from, far, k) {
        return Err(why);
    }
    let Some(datagram) = far.logged(k) else {
        return Err(Refusal::NoSuchDatagram);
    };
    receive_datagram(host, own, alloc, from, datagram)
}
