//! What is tested once a list has happened in a world of two hosts.

ghost use Rattle.std.specs.Prelude.{◌<◌, ◌≤◌, ◌↔◌, ℕ, IsTrue};
ghost use Rattle.law_network.specs.Headline.{AreOn, end_at};
ghost use Rattle.law_network.specs.World.{other};
ghost use Rattle.check_outcome.specs.Sound.{AreInOrder, IsFollowed, IsSideSound, IsSound};

use crate::following::follows;
use crate::life::is_life;
use enet_codec::Packet;
use enet_world::{Side, World};

/// Whether all packets are of this channel.
fn are_on(channel: u8, packets: &[Packet]) -> bool
    ensures { IsTrue result ↔ AreOn channel packets.now }
{
    match packets.split_first() {
        None => true,
        Some((first, rest)) => first.channel == channel && are_on(channel, rest),
    }
}

/// Whether what was taken of a channel follows what was submitted on it, and both lists have packets of that channel alone.
pub(crate) fn are_in_order(mtu: u32, channel: u8, submitted: &[Packet], taken: &[Packet]) -> bool
    requires { 576 ≤ mtu }
    ensures { IsTrue result ↔ AreInOrder mtu channel submitted.now taken.now }
{
    are_on(channel, submitted)
        && are_on(channel, taken)
        && follows(mtu, channel, 0, submitted, taken)
}

/// Whether what a side submitted on so many channels of a connection is followed.
fn is_in_order(world: &World, mtu: u32, channels: u8, connection: u64, side: Side) -> bool
    requires { 576 ≤ mtu }
    ensures { IsTrue result ↔ ((channel : ℕ) → channel < channels → IsFollowed mtu (end_at world.now.world connection side) (end_at world.now.world connection (other side)) channel) }
{
    for channel in 0..channels {
        let submitted = world.submitted(connection, side, channel);
        let taken = world.dispatched(connection, side, channel);
        if !are_in_order(mtu, channel, submitted, taken) {
            return false;
        }
    }
    true
}

/// Tests a side of a connection: what the other side took follows what this one submitted on each of so many channels, and this
/// side's events are one life.
pub fn is_side_sound(world: &World, mtu: u32, channels: u8, connection: u64, side: Side) -> bool
    requires { 576 ≤ mtu }
    ensures { IsTrue result ↔ IsSideSound world.now.world mtu channels connection side }
{
    is_in_order(world, mtu, channels, connection, side) && is_life(world.events(connection, side))
}

/// Tests all that happened in a world that was opened, of so many connections whose packets go by this mtu, in bytes, and of so many
/// channels: for each connection, side and channel what the other side took follows what the side submitted, and each side's events
/// of a connection are one life.
pub fn is_sound(world: &World, mtu: u32, channels: u8, connections: u64) -> bool
    requires { 576 ≤ mtu }
    ensures { IsTrue result ↔ IsSound world.now.world mtu channels connections }
{
    for connection in 0..connections {
        if !is_side_sound(world, mtu, channels, connection, Side::A)
            || !is_side_sound(world, mtu, channels, connection, Side::B)
        {
            return false;
        }
    }
    true
}
