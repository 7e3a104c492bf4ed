//! What is kept of a host: the datagrams that it put out, and its ends of connections.

ghost use Rattle.std.specs.Prelude.{◌≡◌, ℕ, ◌+◌, ◌<◌, ◌≤◌, ◌^◌, List, [], length, slice_get, vec_len, vec_capacity};
ghost use Rattle.std.specs.Option.{option_copied};
ghost use Rattle.enet_codec.specs.declared.header.Header.{Header};
ghost use Rattle.enet_peer.specs.Heading.{IsRead};
ghost use Rattle.law_connection.specs.LinkSteps.{Has};
ghost use Rattle.law_network.specs.Network.{HostEnd};
ghost use Rattle.enet_site.specs.Records.{AreBelow, AreApart, HasEnd, Notes};

use crate::around::Around;
use crate::end::{End, position_of};
use crate::numbers::marks_of;
use enet_codec::{Addr, PeerRef};
use enet_peer::read_heading;
use law_network::Mark;
use std::marker::Model;

/// A datagram that was put out.
#[derive(Drop)]
pub struct Datagram {
    /// The number of the connection that it is of.
    pub connection: u64,
    /// Where it went to.
    pub to: Addr,
    /// The peer id that its header names: a slot of the taking host, or 0xFFF, which a CONNECT names alone.
    pub peer: u16,
    /// Its bytes.
    pub text: Vec<u8>,
    /// The marks of its commands.
    pub marks: Vec<Mark>,
}

impl Model for Datagram {
    ghost use Rattle.law_network.specs.Log.{Logged};

    ghost Value = { Logged };

    ghost view = { λ d. record { connection = d.connection; to = d.to; peer = d.peer; text = d.text.items; marks = d.marks.items } };
}

/// What is kept of a host. Of its lists `AreKept` holds at any time.
#[derive(Drop)]
pub struct Records {
    /// All that it put out, in order.
    pub log: Vec<Datagram>,
    /// Its ends of connections, the earliest first.
    pub ends: Vec<End>,
}

impl Model for Records {
    ghost use Rattle.enet_site.specs.Records.{Records};
    ghost use Rattle.enet_site.specs.RecordsPrivate.Records.{AreKept};

    ghost Value = { Records };

    ghost view = { λ r. record { log = r.log.items; ends = r.ends.items } };

    ghost invariant = { λ r. AreKept r.log.items r.ends.items };
}

impl Records {
    /// The datagram of this number, from 0; None where fewer were put out.
    pub fn logged(&self, k: u64) -> Option<&Datagram>
        ensures { option_copied result ≡ slice_get self.now.log k }
    {
        self.log.get(k as usize)
    }

    /// How many ends are kept: fewer than 2^63, since a vector has no more bytes.
    pub fn connections(&self) -> usize
        ensures count { result ≡ length self.now.ends }
        ensures few { result < 2 ^ 63 }
    {
        self.ends.len()
    }
}

/// The datagram of these bytes that the end of this name put out to an address. Its commands are counted there, and marked in
/// a vector that has room for 32.
pub fn note<A: Around>(
    ends: &mut [End],
    around: &A,
    name: PeerRef,
    to: Addr,
    text: Vec<u8>,
    room: Vec<Mark>,
) -> Datagram
    requires room { vec_len room + 32 ≤ vec_capacity room }
    requires empty { room.items ≡ [] }
    requires there { HasEnd ends.old name }
    requires apart { AreApart ends.old }
    requires below { (e : HostEnd) → Has ends.old e → AreBelow (2 ^ 126) e.greatest }
    requires read { (header : Header) × (commands : List ℕ) × IsRead text.items header commands }
    ensures { Notes (A.numbers around.now) (record { name = name; to = to; text = text.items }) ends.old ends.new result }
{
    let place = position_of(ends, name).unwrap_or(0);
    let own = &mut ends[place];
    let peer = peer_in(&text);
    let numbers = around.numbers(own.connection);
    let marks = marks_of(&text, room, &mut own.greatest, numbers);
    Datagram {
        connection: own.connection,
        to,
        peer,
        text,
        marks,
    }
}

/// The peer id that the header of a datagram names.
fn peer_in(text: &[u8]) -> u16
    requires read { (header : Header) × (commands : List ℕ) × IsRead text.now header commands }
    ensures { (header : Header) (commands : List ℕ) → IsRead text.now header commands → result ≡ header.peer }
{
    match read_heading(text) {
        Ok((header, _commands)) => header.peer,
        Err(_) => 0,
    }
}
