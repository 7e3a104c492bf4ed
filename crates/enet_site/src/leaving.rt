//! A user ends a connection.

ghost use Rattle.law_network.specs.Calls.{Acts};
ghost use Rattle.law_network.specs.Calls as call;

use enet_codec::{DisconnectMode, PeerRef, Refusal};
use enet_host::HostCore;

/// Ends the connection of the peer of this name in this way.
pub(crate) fn disconnect(
    host: &mut HostCore,
    peer: PeerRef,
    how: DisconnectMode,
    info: u32,
) -> Result<(), Refusal>
    ensures { Acts (call.Disconnect how peer info result) host.old host.new }
{
    match how {
        DisconnectMode::Now => host.disconnect_now(peer, info),
        DisconnectMode::Ask => host.disconnect(peer, info),
        DisconnectMode::Later => host.disconnect_later(peer, info),
    }
}
