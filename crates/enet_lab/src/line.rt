//! What the lines of a script spell.

ghost use Rattle.std.specs.Prelude.{◌≡◌, ◌∷◌, IfOk};
ghost use Rattle.enet_text.specs.Words.{words};
ghost use Rattle.enet_lab.specs.EnetLines.{mode_named, pair_of, open_of, fleet_of, calm_of, rounds_of, connect_of, submit_of, deliver_of, deliver_at, deliver_side_of, deliver_from_at, deliver_from_of, stranger_of, turn_of, tick_of, take_of, give_way_of, most_of, of_address_of, send_limit_of, disconnect_of, event_of, line_of, spells};

use crate::host::{host_named, is, node_named, side_named};
use enet_codec::{Addr, Admission, DisconnectMode};
use enet_fleet::{FleetEvent, Node};
use enet_text::{
    bytes_of, first_word, five, four, id_of, ip_of, one, peer_of, three, two, u8_of, u16_of,
    u32_of, u64_of,
};
use law_network::{Side, WorldEvent};
use std::alloc::{AllocError, Global};

/// How many rounds a line makes happen at most, so that each line ends within some minutes: a round takes some microseconds at least.
const MOST_ROUNDS: u64 = 16_777_216;

/// What a line spells.
#[derive(Drop)]
pub enum Line {
    /// Nothing: the line is empty, or has spaces alone, or begins with `#`. Behind other words `#` begins a comment.
    PassedOver,
    /// Two hosts with so many channels are connected from the start, with one slot each.
    Pair {
        /// How many channels both hosts have.
        channels: u8,
    },
    /// Two hosts are opened that know nothing of each other.
    Open {
        /// How many slots A has.
        peers_a: u16,
        /// How many channels A grants.
        channels_a: u8,
        /// How many slots B has.
        peers_b: u16,
        /// How many channels B grants.
        channels_b: u8,
    },
    /// A server and its clients are opened that know nothing of each other, with one slot for each client.
    Fleet {
        /// How many clients there are.
        clients: u16,
        /// How many slots the server has.
        peers: u16,
        /// How many channels each host has.
        channels: u8,
    },
    /// Something happens in a world of two hosts.
    InWorld(WorldEvent),
    /// So many rounds happen in it in which the network loses nothing.
    Calm {
        /// How many rounds, at most 16,777,216.
        rounds: u64,
        /// By how many milliseconds both clocks go on in each.
        ms: u32,
    },
    /// It is told how many rounds are enough for a connection of it.
    RoundsNeeded {
        /// The number of the connection.
        connection: u64,
        /// By how many milliseconds both clocks go on in each.
        ms: u32,
    },
    /// Something happens in a fleet.
    InFleet(FleetEvent),
    /// The newest datagram of the other side comes to a side of a world.
    DeliverLast {
        /// The side to which it comes.
        side: Side,
    },
    /// The newest datagram of a host comes to another host of a fleet.
    DeliverLastFrom {
        /// The host to which it comes.
        to: Node,
        /// The host that put it out.
        from: Node,
    },
}

/// What a line spells, without the line feed that ends it; None where it can't be read. An error where there is no memory for
/// the bytes of a packet.
pub fn read_line(alloc: Global, line: &[u8]) -> Result<Option<Line>, AllocError>
    ensures { IfOk result (λ read. read ≡ spells line.now) }
{
    if line.starts_with(b"#") {
        return Ok(Some(Line::PassedOver));
    }
    match first_word(line) {
        None => Ok(Some(Line::PassedOver)),
        Some((form, rest)) => read_form(alloc, form, rest),
    }
}

// What a line spells that has this form and these words behind it.
fn read_form(alloc: Global, form: &[u8], rest: &[u8]) -> Result<Option<Line>, AllocError>
    ensures { IfOk result (λ read. read ≡ line_of (form.now ∷ words rest.now)) }
{
    if is(form, b"pair") {
        return Ok(pair(rest));
    }
    if is(form, b"open") {
        return Ok(open(rest));
    }
    if is(form, b"fleet") {
        return Ok(fleet(rest));
    }
    if is(form, b"calm") {
        return Ok(calm(rest));
    }
    if is(form, b"rounds") {
        return Ok(rounds(rest));
    }
    read_event(alloc, form, rest)
}

fn pair(text: &[u8]) -> Option<Line>
    ensures { result ≡ pair_of (words text.now) }
{
    let channels = one(text)?;
    let channels = u8_of(channels)?;
    Some(Line::Pair { channels })
}

fn open(text: &[u8]) -> Option<Line>
    ensures { result ≡ open_of (words text.now) }
{
    let (peers_a, channels_a, peers_b, channels_b) = four(text)?;
    let peers_a = u16_of(peers_a)?;
    let channels_a = u8_of(channels_a)?;
    let peers_b = u16_of(peers_b)?;
    let channels_b = u8_of(channels_b)?;
    Some(Line::Open {
        peers_a,
        channels_a,
        peers_b,
        channels_b,
    })
}

fn fleet(text: &[u8]) -> Option<Line>
    ensures { result ≡ fleet_of (words text.now) }
{
    let (clients, peers, channels) = three(text)?;
    let clients = u16_of(clients)?;
    let peers = u16_of(peers)?;
    let channels = u8_of(channels)?;
    Some(Line::Fleet {
        clients,
        peers,
        channels,
    })
}

fn calm(text: &[u8]) -> Option<Line>
    ensures { result ≡ calm_of (words text.now) }
{
    let (rounds, ms) = two(text)?;
    let rounds = u64_of(rounds)?;
    let ms = u32_of(ms)?;
    if rounds > MOST_ROUNDS {
        return None;
    }
    Some(Line::Calm { rounds, ms })
}

fn rounds(text: &[u8]) -> Option<Line>
    ensures { result ≡ rounds_of (words text.now) }
{
    let (connection, ms) = two(text)?;
    let connection = u64_of(connection)?;
    let ms = u32_of(ms)?;
    Some(Line::RoundsNeeded { connection, ms })
}

// How a network goes on that a line of this form spells with these words behind it.
fn read_event(alloc: Global, form: &[u8], rest: &[u8]) -> Result<Option<Line>, AllocError>
    ensures { IfOk result (λ read. read ≡ event_of form.now (words rest.now)) }
{
    if is(form, b"connect") {
        return Ok(connect(rest));
    }
    if is(form, b"submit") {
        return submit(alloc, rest);
    }
    if is(form, b"deliver") {
        return Ok(deliver(rest));
    }
    if is(form, b"stranger") {
        return stranger(alloc, rest);
    }
    if is(form, b"turn") {
        return Ok(turn(rest));
    }
    if is(form, b"tick") {
        return Ok(tick(rest));
    }
    if is(form, b"take") {
        return Ok(take(rest));
    }
    if is(form, b"give-way") {
        return Ok(give_way(rest));
    }
    if is(form, b"most") {
        return Ok(most(rest));
    }
    if is(form, b"send-limit") {
        return Ok(send_limit(rest));
    }
    if is(form, b"of-address") {
        return Ok(of_address(rest));
    }
    Ok(disconnect(form, rest))
}

fn connect(text: &[u8]) -> Option<Line>
    ensures { result ≡ connect_of (words text.now) }
{
    let (host, channels, info, word) = four(text)?;
    let host = host_named(host)?;
    let channels = u8_of(channels)?;
    let info = u32_of(info)?;
    let word = id_of(word)?;
    host.connect(channels, info, word)
}

fn submit(alloc: Global, text: &[u8]) -> Result<Option<Line>, AllocError>
    ensures { IfOk result (λ read. read ≡ submit_of (words text.now)) }
{
    let Some((host, peer, channel, flags, body)) = five(text) else {
        return Ok(None);
    };
    let Some(host) = host_named(host) else {
        return Ok(None);
    };
    let Some(peer) = peer_of(peer) else {
        return Ok(None);
    };
    let Some(channel) = u8_of(channel) else {
        return Ok(None);
    };
    let Some(flags) = u8_of(flags) else {
        return Ok(None);
    };
    let Some(body) = bytes_of(alloc, body)? else {
        return Ok(None);
    };
    Ok(Some(host.submit(peer, channel, flags, body)))
}

fn deliver(text: &[u8]) -> Option<Line>
    ensures { result ≡ deliver_of (words text.now) }
{
    match deliver_side(text) {
        Some(line) => Some(line),
        None => deliver_from(text),
    }
}

// In a world: the datagram is of the other side.
fn deliver_side(text: &[u8]) -> Option<Line>
    ensures { result ≡ deliver_side_of (words text.now) }
{
    let (side, k) = two(text)?;
    let side = side_named(side)?;
    deliver_at(side, k)
}

fn deliver_at(side: Side, k: &[u8]) -> Option<Line>
    ensures { result ≡ deliver_at side k.now }
{
    if is(k, b"last") {
        return Some(Line::DeliverLast { side });
    }
    let k = u64_of(k)?;
    Some(Line::InWorld(WorldEvent::Deliver { side, k }))
}

// In a fleet.
fn deliver_from(text: &[u8]) -> Option<Line>
    ensures { result ≡ deliver_from_of (words text.now) }
{
    let (to, from, k) = three(text)?;
    let to = node_named(to)?;
    let from = node_named(from)?;
    deliver_from_at(to, from, k)
}

fn deliver_from_at(to: Node, from: Node, k: &[u8]) -> Option<Line>
    ensures { result ≡ deliver_from_at to from k.now }
{
    if is(k, b"last") {
        return Some(Line::DeliverLastFrom { to, from });
    }
    let k = u64_of(k)?;
    Some(Line::InFleet(FleetEvent::Deliver { to, from, k }))
}

fn stranger(alloc: Global, text: &[u8]) -> Result<Option<Line>, AllocError>
    ensures { IfOk result (λ read. read ≡ stranger_of (words text.now)) }
{
    let Some((to, ip, port, bytes)) = four(text) else {
        return Ok(None);
    };
    let Some(to) = node_named(to) else {
        return Ok(None);
    };
    let Some(ip) = ip_of(ip) else {
        return Ok(None);
    };
    let Some(port) = u16_of(port) else {
        return Ok(None);
    };
    let Some(bytes) = bytes_of(alloc, bytes)? else {
        return Ok(None);
    };
    let addr = Addr { ip, port };
    Ok(Some(Line::InFleet(FleetEvent::Stranger { to, addr, bytes })))
}

fn turn(text: &[u8]) -> Option<Line>
    ensures { result ≡ turn_of (words text.now) }
{
    let host = one(text)?;
    let host = host_named(host)?;
    Some(host.turn())
}

fn tick(text: &[u8]) -> Option<Line>
    ensures { result ≡ tick_of (words text.now) }
{
    let (host, ms) = two(text)?;
    let host = host_named(host)?;
    let ms = u32_of(ms)?;
    Some(host.tick(ms))
}

fn take(text: &[u8]) -> Option<Line>
    ensures { result ≡ take_of (words text.now) }
{
    let host = one(text)?;
    let host = host_named(host)?;
    Some(host.take())
}

fn give_way(text: &[u8]) -> Option<Line>
    ensures { result ≡ give_way_of (words text.now) }
{
    let host = one(text)?;
    let host = host_named(host)?;
    Some(host.admit(Admission::GiveWay))
}

fn most(text: &[u8]) -> Option<Line>
    ensures { result ≡ most_of (words text.now) }
{
    let (host, peers) = two(text)?;
    let host = host_named(host)?;
    let peers = u16_of(peers)?;
    Some(host.admit(Admission::Most { peers }))
}

fn send_limit(text: &[u8]) -> Option<Line>
    ensures { result ≡ send_limit_of (words text.now) }
{
    let (host, bytes, commands) = three(text)?;
    let host = host_named(host)?;
    let bytes = u64_of(bytes)?;
    let commands = u64_of(commands)?;
    Some(host.set_send_limit(bytes, commands))
}

fn of_address(text: &[u8]) -> Option<Line>
    ensures { result ≡ of_address_of (words text.now) }
{
    let (host, peers) = two(text)?;
    let host = host_named(host)?;
    let peers = u16_of(peers)?;
    Some(host.admit(Admission::OfAddress { peers }))
}

fn disconnect(form: &[u8], text: &[u8]) -> Option<Line>
    ensures { result ≡ disconnect_of form.now (words text.now) }
{
    let (host, peer, info) = three(text)?;
    let how = mode_named(form)?;
    let host = host_named(host)?;
    let peer = peer_of(peer)?;
    let info = u32_of(info)?;
    Some(host.disconnect(peer, how, info))
}

// How a connection is ended: `now`, `ask` or `later`.
fn mode_named(word: &[u8]) -> Option<DisconnectMode>
    ensures { result ≡ mode_named word.now }
{
    if is(word, b"now") {
        return Some(DisconnectMode::Now);
    }
    if is(word, b"ask") {
        return Some(DisconnectMode::Ask);
    }
    if is(word, b"later") {
        return Some(DisconnectMode::Later);
    }
    None
}
