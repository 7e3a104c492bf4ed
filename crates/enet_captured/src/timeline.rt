//! What a capture holds.

ghost use Rattle.std.specs.Prelude.{◌≡◌, ◌++◌, map, OnOk};
ghost use Rattle.enet_captured.specs.Counts.{same_way};
ghost use Rattle.enet_captured.specs.Sends.{other_way, way_number};
ghost use Rattle.enet_captured.specs.Private.Timelines.{mark_of, moment_of};

use crate::connections::{Belonging, connection_for};
use crate::fault::TimelineFault;
use crate::reading::{read_commands, sent_in};
use crate::told::{Detail, Kind, Told};
use enet_codec::{Addr, Stop};
use enet_text::{Captured, Datagram, Format, datagram_in, is_capture, read_format, read_packet};
use std::alloc::{AllocError, Global};

/// Whither a datagram went.
#[derive(Clone, Copy)]
pub enum Way {
    /// To the right end: it came from the left one.
    Right,
    /// To the left end.
    Left,
}

impl Way {
    /// Whether two ways are one.
    pub fn is(self, other: Way) -> bool
        ensures { result ≡ same_way self other }
    {
        match (self, other) {
            (Way::Right, Way::Right) | (Way::Left, Way::Left) => true,
            (Way::Right, Way::Left) | (Way::Left, Way::Right) => false,
        }
    }
}

impl Way {
    /// The other way.
    pub fn other(self) -> Way
        ensures { result ≡ other_way self }
    {
        match self {
            Way::Right => Way::Left,
            Way::Left => Way::Right,
        }
    }

    /// Its number in a key.
    pub(crate) fn number(self) -> u8
        ensures { result ≡ way_number self }
    {
        match self {
            Way::Right => 0,
            Way::Left => 1,
        }
    }
}

/// A connection: what went between two addresses from a CONNECT on, up to the next one with another connect id. Without one, what went
/// between two addresses.
#[derive(Clone, Copy)]
pub struct Connection {
    /// Whence its first datagram came: mostly the client.
    pub left: Addr,
    pub right: Addr,
    /// The connect id of the CONNECT that began it.
    pub id: Option<u32>,
}

/// A datagram.
#[derive(Clone, Copy)]
pub struct Seen {
    /// Its number among all datagrams of the capture, counted from 0.
    pub number: u64,
    /// The number of its connection.
    pub connection: usize,
    pub way: Way,
    /// When it was captured, in microseconds.
    pub at: u64,
    /// How many bytes it has.
    pub len: usize,
    /// Why what stands behind its last command can't be read.
    pub stop: Option<Stop>,
    /// Whether it is known that it was never delivered, which no capture tells.
    pub is_lost: bool,
}

/// A command of a datagram.
#[derive(Clone, Copy)]
pub struct Mark {
    /// The number of its datagram.
    pub datagram: u64,
    /// The number of its connection.
    pub connection: usize,
    pub way: Way,
    /// When its datagram was captured, in microseconds.
    pub at: u64,
    /// When its datagram was sent, by the low 16 bits of its sender's clock in milliseconds, if that says so.
    pub sent: Option<u16>,
    pub told: Told,
}

/// Whence a timeline is.
#[derive(Clone, Copy, PartialEq, Eq)]
pub enum Source {
    /// A capture.
    Capture,
    /// A script of the lab, whose network says what was delivered.
    Script,
    /// The sockets of a demonstration's clients.
    Sockets,
}

/// What the host at an address is called, where it is drawn.
#[derive(Drop)]
pub struct HostName {
    pub at: Addr,
    pub name: String,
}

/// What a capture holds, or datagrams that were noted in place of one.
#[derive(Drop)]
pub struct Timeline {
    /// Whence it is.
    pub source: Source,
    /// The connections, in the order of their first datagrams.
    pub connections: Vec<Connection>,
    /// The datagrams of these, in order.
    pub seen: Vec<Seen>,
    /// The commands of these datagrams, in order.
    pub marks: Vec<Mark>,
    /// When its first packet was captured, in microseconds; 0 without packets.
    pub begun: u64,
    /// How many datagrams there are, those of connections that aren't kept among them.
    pub datagrams: u64,
    /// How many datagrams are of connections that aren't kept.
    pub unkept: u64,
    /// How many packets are no whole UDP datagrams over IPv4.
    pub others: u64,
    /// Whether the last packet is cut short.
    pub is_cut: bool,
    /// What its hosts are called; none of a capture's is.
    pub hosts: Vec<HostName>,
    /// What its datagrams are called, by their numbers; none of a capture's is.
    pub names: Vec<String>,
}

/// Reads a capture in the classic pcap format, to its end or to a packet that is cut short. NoCapture where the input isn't one, Unread
/// where its beginning is cut short or has a link type that isn't read, Memory where a growth was refused.
pub fn read_timeline(alloc: Global, input: &[u8]) -> Result<Timeline, TimelineFault> {
    if !is_capture(input) {
        return Err(TimelineFault::NoCapture);
    }
    match read_format(input) {
        Ok((format, packets)) => Ok(read_packets(alloc, format, packets)?),
        Err(fault) => Err(TimelineFault::Unread(fault)),
    }
}

// Reads the packets of a capture.
fn read_packets(alloc: Global, format: Format, packets: &[u8]) -> Result<Timeline, AllocError> {
    let mut timeline = empty(alloc, Source::Capture);
    timeline.begun = begun_at(format, packets);
    let mut told = Vec::new(alloc);
    let mut rest = packets;
    'packets: while !rest.is_empty() {
        let Some((captured, behind)) = read_packet(format, rest) else {
            timeline.is_cut = true;
            return Ok(timeline);
        };
        rest = behind;
        match datagram_in(format, captured.bytes) {
            Some(datagram) => {
                note(
                    &mut timeline,
                    &mut told,
                    moment_of(captured, format.nanoseconds),
                    datagram,
                    false,
                )?;
            }
            None => timeline.others = timeline.others.saturating_add(1),
        }
    }
    Ok(timeline)
}

/// A timeline of nothing, which begins at 0.
pub(crate) fn empty(alloc: Global, source: Source) -> Timeline {
    Timeline {
        source,
        connections: Vec::new(alloc),
        seen: Vec::new(alloc),
        marks: Vec::new(alloc),
        begun: 0,
        datagrams: 0,
        unkept: 0,
        others: 0,
        is_cut: false,
        hosts: Vec::new(alloc),
        names: Vec::new(alloc),
    }
}

// When the first packet was captured.
fn begun_at(format: Format, packets: &[u8]) -> u64 {
    match read_packet(format, packets) {
        None => 0,
        Some((captured, _)) => moment_of(captured, format.nanoseconds),
    }
}

// When a packet was captured, in microseconds.
fn moment_of(captured: Captured<'_>, nanoseconds: bool) -> u64
    ensures { result ≡ moment_of captured.entry nanoseconds }
{
    let parts = u64::from(captured.parts);
    u64::from(captured.seconds) * 1_000_000 + if nanoseconds { parts / 1_000 } else { parts }
}

/// Takes a datagram in, of which it may be known that it was never delivered.
pub(crate) fn note(
    timeline: &mut Timeline,
    told: &mut Vec<Told>,
    at: u64,
    datagram: Datagram<'_>,
    is_lost: bool,
) -> Result<(), AllocError> {
    let number = timeline.datagrams;
    timeline.datagrams = number.saturating_add(1);
    told.clear();
    let stop = read_commands(told, datagram.payload)?;
    let id = offered_in(told.as_slice());
    match connection_for(&mut timeline.connections, datagram.from, datagram.to, id)? {
        None => timeline.unkept = timeline.unkept.saturating_add(1),
        Some(Belonging { connection, way }) => {
            let len = datagram.payload.len();
            timeline.seen.push(Seen {
                number,
                connection,
                way,
                at,
                len,
                stop,
                is_lost,
            })?;
            push_marks(
                &mut timeline.marks,
                number,
                connection,
                way,
                at,
                sent_in(datagram.payload),
                told.as_slice(),
            )?;
        }
    }
    Ok(())
}

// The connect id of the first CONNECT.
fn offered_in(told: &[Told]) -> Option<u32> {
    for one in told {
        if let Detail::Offered(id) = one.detail {
            return Some(id);
        }
    }
    None
}

// Puts the commands of a datagram behind those that are there.
fn push_marks(
    marks: &mut Vec<Mark>,
    datagram: u64,
    connection: usize,
    way: Way,
    at: u64,
    sent: Option<u16>,
    told: &[Told],
) -> Result<(), AllocError>
    ensures { OnOk result (marks.new.items ≡ marks.old.items ++ map (mark_of datagram connection way at sent) told.now) }
{
    for one in told {
        marks.push(Mark {
            datagram,
            connection,
            way,
            at,
            sent,
            told: *one,
        })?;
    }
    Ok(())
}
