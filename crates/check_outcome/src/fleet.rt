//! What is tested once a list has happened in a fleet.

ghost use Rattle.std.specs.Prelude.{◌<◌, ◌≤◌, ◌↔◌, ℕ, IsTrue};
ghost use Rattle.enet_fleet.specs.Headline.{end_at, far_end};
ghost use Rattle.check_outcome.specs.Sound.{IsFollowed, IsSoundAt, IsFleetSound};

use crate::life::is_life;
use crate::sound::are_in_order;
use enet_fleet::{End, Fleet};

/// Whether what the user of an end submitted on so many channels of a connection is followed.
fn is_in_order(fleet: &Fleet, mtu: u32, channels: u8, connection: u64, end: End) -> bool
    requires { 576 ≤ mtu }
    ensures { IsTrue result ↔ ((channel : ℕ) → channel < channels → IsFollowed mtu (end_at fleet.now connection end) (end_at fleet.now connection (far_end end)) channel) }
{
    for channel in 0..channels {
        let submitted = fleet.submitted(connection, end, channel);
        let taken = fleet.dispatched(connection, end, channel);
        if !are_in_order(mtu, channel, submitted, taken) {
            return false;
        }
    }
    true
}

/// Tests an end of a connection: what the other user took follows what this one submitted on each of so many channels, and this
/// user's events are one life.
pub fn is_end_sound(fleet: &Fleet, mtu: u32, channels: u8, connection: u64, end: End) -> bool
    requires { 576 ≤ mtu }
    ensures { IsTrue result ↔ IsSoundAt fleet.now mtu channels connection end }
{
    is_in_order(fleet, mtu, channels, connection, end) && is_life(fleet.events(connection, end))
}

/// Tests all that happened in a fleet, of so many connections whose packets go by this mtu, in bytes, and of so many channels: for
/// each connection, end and channel what the other user took follows what the user submitted, and each user's events of a
/// connection are one life.
pub fn is_fleet_sound(fleet: &Fleet, mtu: u32, channels: u8, connections: u64) -> bool
    requires { 576 ≤ mtu }
    ensures { IsTrue result ↔ IsFleetSound fleet.now mtu channels connections }
{
    for connection in 0..connections {
        if !is_end_sound(fleet, mtu, channels, connection, End::Client)
            || !is_end_sound(fleet, mtu, channels, connection, End::Server)
        {
            return false;
        }
    }
    true
}
