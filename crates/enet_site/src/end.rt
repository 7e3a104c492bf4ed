//! One end of a connection, as its host's side keeps it.

ghost use Rattle.std.specs.Prelude.{◌≡◌, ◌==◌, ◌<◌, length, IfSome};
ghost use Rattle.std.specs.Option.{option_copied, option_map};
ghost use Rattle.std.specs.List.{position};
ghost use Rattle.law_network.specs.Log.{packets_at};
ghost use Rattle.law_network.specs.Network.{HostEnd, is_same_name, end_of, numbers_in};
ghost use Rattle.law_network.specs.Headline.{submitted_at, taken_at, events_at};

use enet_codec::{Event, Packet, PeerRef};
use std::marker::Model;

/// What is kept of a channel at one end of a connection.
#[derive(Drop)]
pub struct Channel {
    /// What its user submitted.
    pub submitted: Vec<Packet>,
    /// What its user took.
    pub taken: Vec<Packet>,
}

impl Model for Channel {
    ghost use Rattle.law_network.specs.Log.{ChannelPackets};

    ghost Value = { ChannelPackets };

    ghost view = { λ k. record { submitted = k.submitted.items; taken = k.taken.items } };
}

/// One end of a connection.
#[derive(Drop)]
pub struct End {
    /// The connection's number.
    pub connection: u64,
    /// What the host calls its peer.
    pub name: PeerRef,
    /// The mtu of its peer when its user last submitted a packet, in bytes; 0 before.
    pub mtu: u32,
    /// The greatest reliable number sent on each of the 256 channel numbers. A datagram raises it by less than 2 ^ 20, so it
    /// stays far below its limit.
    pub greatest: Vec<u128>,
    /// What is kept of each of the 256 channel numbers.
    pub channels: Vec<Channel>,
    /// What its user took.
    pub events: Vec<Event>,
}

impl Model for End {
    ghost use Rattle.law_network.specs.Network.{HostEnd};

    ghost Value = { HostEnd };

    ghost view = { λ e. record { connection = e.connection; name = e.name; mtu = e.mtu; greatest = e.greatest.items; channels = e.channels.items; events = e.events.items } };
}

impl End {
    /// Whether its host's peer has this name.
    fn is_named(&self, name: PeerRef) -> bool
        ensures { result ≡ is_same_name self.now.name name }
    {
        self.name.slot == name.slot && self.name.generation == name.generation
    }

    /// Whether it is of this connection.
    pub fn is_of(&self, connection: u64) -> bool
        ensures { result ≡ (self.now.connection == connection) }
    {
        self.connection == connection
    }

    /// What its user submitted on a channel.
    fn submitted(&self, channel: u8) -> &[Packet]
        ensures { result.now ≡ (packets_at self.now.channels channel).submitted }
    {
        match self.channels.get(usize::from(channel)) {
            Some(kept) => &kept.submitted,
            None => &[],
        }
    }

    /// What its user took of a channel.
    fn taken(&self, channel: u8) -> &[Packet]
        ensures { result.now ≡ (packets_at self.now.channels channel).taken }
    {
        match self.channels.get(usize::from(channel)) {
            Some(kept) => &kept.taken,
            None => &[],
        }
    }
}

/// The place of the first end of this name; None where there is none.
pub fn position_of(ends: &[End], name: PeerRef) -> Option<usize>
    ensures first { result ≡ position (λ (e : HostEnd). is_same_name e.name name) ends.now }
    ensures within { IfSome result (λ i. i < length ends.now) }
{
    ends.iter().position(|end| end.is_named(name))
}

/// The place of the end of this connection.
fn place_of_connection(ends: &[End], connection: u64) -> Option<usize>
    ensures first { result ≡ position (λ (e : HostEnd). e.connection == connection) ends.now }
    ensures within { IfSome result (λ i. i < length ends.now) }
{
    ends.iter().position(|end| end.is_of(connection))
}

/// The end of this connection, if there is one.
fn end_of(ends: &[End], connection: u64) -> Option<&End>
    ensures { option_copied result ≡ end_of connection ends.now }
{
    let place = place_of_connection(ends, connection)?;
    Some(&ends[place])
}

/// What the host calls the peer of the end of this connection; None where there is no such end.
pub fn peer_of(ends: &[End], connection: u64) -> Option<PeerRef>
    ensures { result ≡ option_map (λ e. e.name) (end_of connection ends.now) }
{
    Some(end_of(ends, connection)?.name)
}

/// The greatest numbers that were sent at the end of this connection, by channel; empty where there is no such end.
pub fn numbers_of(ends: &[End], connection: u64) -> &[u128]
    ensures { result.now ≡ numbers_in (end_of connection ends.now) }
{
    match end_of(ends, connection) {
        Some(end) => &end.greatest,
        None => &[],
    }
}

/// What the user of the end of this connection submitted on a channel, in order; empty where there is no such end or channel.
pub fn submitted(ends: &[End], connection: u64, channel: u8) -> &[Packet]
    ensures { result.now ≡ submitted_at channel (end_of connection ends.now) }
{
    match end_of(ends, connection) {
        Some(end) => end.submitted(channel),
        None => &[],
    }
}

/// What the user of the end of this connection took of a channel, in order; empty where there is no such end or channel.
pub fn taken(ends: &[End], connection: u64, channel: u8) -> &[Packet]
    ensures { result.now ≡ taken_at channel (end_of connection ends.now) }
{
    match end_of(ends, connection) {
        Some(end) => end.taken(channel),
        None => &[],
    }
}

/// The events that the user of the end of this connection took, in order; none where there is no such end.
pub fn events(ends: &[End], connection: u64) -> &[Event]
    ensures { result.now ≡ events_at (end_of connection ends.now) }
{
    match end_of(ends, connection) {
        Some(end) => &end.events,
        None => &[],
    }
}
