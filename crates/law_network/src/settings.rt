//! What a user sets at a host, as the law has it. Each function makes the host's call of its name, whose contract is thus what
//! the law says of that call; of the other calls the crates above say so where they make them.

ghost use Rattle.law_network.specs.Calls.{Acts, SetBandwidth, ConfigureThrottle, SetPingInterval, SetTimeout};

use enet_codec::{PeerRef, Refusal};
use enet_host::HostCore;

/// Sets the host's bandwidths, in bytes per second, as `HostCore::set_bandwidth`. E1 where memory is refused, with nothing
/// changed; only where some connected peer has a command of channel 0xFF queued or unacknowledged.
pub fn set_bandwidth(host: &mut HostCore, incoming: u32, outgoing: u32) -> Result<(), Refusal>
    ensures { Acts (SetBandwidth incoming outgoing result) host.old host.new }
{
    host.set_bandwidth(incoming, outgoing)
}

/// Sets the throttle of a peer, as `HostCore::throttle_configure`. E2; E3 where the peer is not connected; E1, only where it has a
/// command of channel 0xFF queued or unacknowledged: then nothing has changed.
pub fn throttle_configure(
    host: &mut HostCore,
    peer: PeerRef,
    interval: u32,
    acceleration: u32,
    deceleration: u32,
) -> Result<(), Refusal>
    ensures { Acts (ConfigureThrottle peer interval acceleration deceleration result) host.old host.new }
{
    host.throttle_configure(peer, interval, acceleration, deceleration)
}

/// Sets after how many milliseconds a peer that was not heard is pinged, as `HostCore::set_ping_interval`. E2, with nothing
/// changed.
pub fn set_ping_interval(host: &mut HostCore, peer: PeerRef, ms: u32) -> Result<(), Refusal>
    ensures { Acts (SetPingInterval peer ms result) host.old host.new }
{
    host.set_ping_interval(peer, ms)
}

/// Sets how long the other end may leave a command unacknowledged, as `HostCore::set_timeout`. E2, with nothing changed.
pub fn set_timeout(
    host: &mut HostCore,
    peer: PeerRef,
    limit: u32,
    minimum: u32,
    maximum: u32,
) -> Result<(), Refusal>
    ensures { Acts (SetTimeout peer limit minimum maximum result) host.old host.new }
{
    host.set_timeout(peer, limit, minimum, maximum)
}
