//! Why a datagram that the network brings is refused.

ghost use Rattle.std.specs.Prelude.{◌≡◌, slice_get};
ghost use Rattle.enet_codec.specs.declared.address.Addr.{Addr};
ghost use Rattle.enet_host.specs.Host.{Host, named};
ghost use Rattle.enet_slot.specs.Receiving.{is_deaf};
ghost use Rattle.law_network.specs.Network.{is_at, is_over, has_ended, holds_another, is_earlier, delivery_refusal};
ghost use Rattle.enet_site.specs.Sites.{site};
ghost use Rattle.enet_site.specs.Private.Sites.{with_ends, unread};

use crate::{End, Records, comes_late};
use enet_codec::{Addr, NO_PEER, PeerRef, Refusal};
use enet_host::{HostCore, PeerState};

/// Whether a peer in this state takes no datagram in.
fn is_deaf(state: PeerState) -> bool
    ensures { result ≡ is_deaf state }
{
    matches!(
        state,
        PeerState::Free | PeerState::Ended | PeerState::Parting
    )
}

/// Whether the peer of this name has ended its connection, or is gone.
fn is_over(host: &HostCore, name: PeerRef) -> bool
    ensures { result ≡ is_over (named host.now.slots name) }
{
    match host.state(name) {
        Some(state) => is_deaf(state),
        None => true,
    }
}

/// Whether a peer stands there, at this address.
fn is_at(from: Addr, address: Option<Addr>) -> bool
    ensures { result ≡ is_at from address }
{
    match address {
        Some(there) => there.ip == from.ip && there.port == from.port,
        None => false,
    }
}

/// Whether a host with these ends has ended this connection.
fn has_ended(host: &HostCore, ends: &[End], connection: u64) -> bool
    ensures { result ≡ has_ended (with_ends host.now ends.now) connection }
{
    ends.iter()
        .any(|end| end.is_of(connection) && is_over(host, end.name))
}

/// Whether a slot of a host with these ends holds another connection than this with the host at an address.
fn holds_another(host: &HostCore, ends: &[End], from: Addr, slot: u16, connection: u64) -> bool
    ensures { result ≡ holds_another (with_ends host.now ends.now) from slot connection }
{
    ends.iter().any(|end| {
        end.name.slot == slot && !end.is_of(connection) && is_at(from, host.address(end.name))
    })
}

/// Whether a datagram of this connection, to this peer id, that the host at an address put out is of an earlier connection.
fn is_earlier(host: &HostCore, ends: &[End], from: Addr, peer: u16, connection: u64) -> bool
    ensures { result ≡ is_earlier (with_ends host.now ends.now) from (unread connection from peer) }
{
    if peer == NO_PEER {
        has_ended(host, ends, connection)
    } else {
        holds_another(host, ends, from, peer, connection)
    }
}

/// The first refusal but want of memory that datagram `k` of the host at an address meets at this one.
pub(crate) fn refused_delivery(
    host: &HostCore,
    own: &Records,
    from: Addr,
    far: &Records,
    k: u64,
) -> Option<Refusal>
    ensures { (address : Addr) (g : Host) → result ≡ delivery_refusal (site from g far.now) (site address host.now own.now) (slice_get far.now.log k) }
{
    let Some(datagram) = far.logged(k) else {
        return Some(Refusal::NoSuchDatagram);
    };
    if is_earlier(host, &own.ends, from, datagram.peer, datagram.connection) {
        return Some(Refusal::Earlier);
    }
    if comes_late(&far.ends, &own.ends, datagram.connection, &datagram.marks) {
        return Some(Refusal::Late);
    }
    None
}
