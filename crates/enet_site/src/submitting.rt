//! A user submits a packet.

ghost use Rattle.std.specs.Prelude.{◌≡◌, ◌<◌, true, is_ok, length, Ok, Err, IfOk, IfErr, OnErr};
ghost use Rattle.law_connection.specs.Law.{mtu_in};
ghost use Rattle.enet_host.specs.Host.{named};
ghost use Rattle.enet_slot.specs.Calls.{submission, unless_full};
ghost use Rattle.enet_host.specs.Calls.{on_named};
ghost use Rattle.law_network.specs.Calls.{Acts};
ghost use Rattle.law_network.specs.Calls as call;
ghost use Rattle.law_network.specs.Steps.{with_packet};
ghost use Rattle.enet_site.specs.Private.Sites.{IsWhole, CallsOn};

use crate::{End, Records, position_of};
use bytes::Bytes;
use enet_codec::{Packet, PeerRef, Refusal};
use enet_host::HostCore;

/// The mtu of the peer of this name, in bytes; 0 where there is none.
fn mtu_of(host: &HostCore, peer: PeerRef) -> u32
    ensures { result ≡ mtu_in (named host.now.slots peer) }
{
    match host.terms(peer) {
        Some(terms) => terms.mtu,
        None => 0,
    }
}

/// Submits a packet, which nothing but want of memory refuses, to the peer of an end, and keeps it there with this mtu.
fn submit_to(host: &mut HostCore, end: &mut End, packet: Packet, mtu: u32) -> Result<(), Refusal>
    requires channel { packet.channel < length end.old.channels }
    requires open { is_ok (on_named host.old.slots end.old.name (unless_full host.old.send_limit (submission packet.channel (record { flags = packet.flags; body = packet.body })))) ≡ true }
    ensures refused { IfErr result (λ why. Acts (call.Submit end.old.name packet.channel (record { flags = packet.flags; body = packet.body }) (Err (why, packet.body))) host.old host.old) }
    ensures host { OnErr result (host.new ≡ host.old) }
    ensures unchanged { OnErr result (end.new ≡ end.old) }
    ensures submits { IfOk result (λ done. Acts (call.Submit end.old.name packet.channel (record { flags = packet.flags; body = packet.body }) (Ok tt)) host.old host.new) }
    ensures keeps { IfOk result (λ done. end.new ≡ with_packet mtu packet end.old) }
{
    let Ok(body) = packet.body.clone() else {
        return Err(Refusal::Memory);
    };
    let name = end.name;
    let kept = &mut end.channels[usize::from(packet.channel)];
    if kept.submitted.reserve(1).is_err() {
        return Err(Refusal::Memory);
    }
    if let Err((why, _body)) = host.submit(name, packet.channel, packet.flags, body) {
        return Err(why);
    }
    kept.submitted.push_reserved(packet);
    end.mtu = mtu;
    Ok(())
}

/// Submits a packet to the peer of this name, which no end has: nothing is kept of it.
fn submit_apart(
    host: &mut HostCore,
    peer: PeerRef,
    channel: u8,
    flags: u8,
    body: Bytes,
) -> Result<(), Refusal>
    ensures refused { IfErr result (λ why. Acts (call.Submit peer channel (record { flags = flags; body = body }) (Err (why, body))) host.old host.old) }
    ensures host { OnErr result (host.new ≡ host.old) }
    ensures submits { IfOk result (λ done. Acts (call.Submit peer channel (record { flags = flags; body = body }) (Ok tt)) host.old host.new) }
{
    match host.submit(peer, channel, flags, body) {
        Ok(()) => Ok(()),
        Err((why, _body)) => Err(why),
    }
}

/// Submits a packet to the peer of this name, and keeps it at its end, if there is one. E2, E3, E4, E5, E9 and E1 as by the host, with
/// nothing changed.
pub(crate) fn submit(
    host: &mut HostCore,
    own: &mut Records,
    peer: PeerRef,
    channel: u8,
    flags: u8,
    body: &Bytes,
) -> Result<(), Refusal>
    requires { IsWhole host.old own.old.ends }
    ensures refused { IfErr result (λ why. Acts (call.Submit peer channel (record { flags = flags; body = body.now }) (Err (why, body.now))) host.old host.old) }
    ensures host { OnErr result (host.new ≡ host.old) }
    ensures unchanged { OnErr result (own.new ≡ own.old) }
    ensures submits { IfOk result (λ done. CallsOn 0 (call.Submit peer channel (record { flags = flags; body = body.now }) (Ok tt)) (record { host = host.old; records = own.old }) (record { host = host.new; records = own.new })) }
{
    if let Some(why) = host.submission_refusal(peer, channel, body.len()) {
        return Err(why);
    }
    let mtu = mtu_of(host, peer);
    let Ok(body) = body.clone() else {
        return Err(Refusal::Memory);
    };
    let Some(place) = position_of(&own.ends, peer) else {
        return submit_apart(host, peer, channel, flags, body);
    };
    let packet = Packet {
        channel,
        flags,
        body,
    };
    let end = &mut own.ends[place];
    submit_to(host, end, packet, mtu)
}
