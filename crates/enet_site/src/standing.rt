//! How far a connection has come.

ghost use Rattle.std.specs.Prelude.{◌≡◌};
ghost use Rattle.enet_site.specs.Standing.{state_in};

use crate::{End, peer_of};
use enet_host::{HostCore, PeerState};

/// How far a connection has come at this host; None where it has no end of it, or the end's peer is gone.
pub fn state(host: &HostCore, ends: &[End], connection: u64) -> Option<PeerState>
    ensures { result ≡ state_in host.now.slots ends.now connection }
{
    let peer = peer_of(ends, connection)?;
    host.state(peer)
}
