//! Captures in the classic pcap format: its packets, and the UDP datagrams over IPv4 in them.

ghost use Rattle.std.specs.Prelude.{◌≡◌, ◌⊎◌, ◌≤◌, ◌<◌, ◌+◌, ℕ, length, drop, is_some, IfOk, IfErr, IfSome, IfNone, MatchOption};
ghost use Rattle.enet_text.specs.Captures.{IsCapture, IsCutShort, IsPacket, IsWithin, begun_of, link_of, magic_of, moment, number_of, parts_of_second};

use crate::fault::InspectFault;
use enet_codec::Addr;

/// The order of the bytes of a capture's numbers.
#[derive(Clone, Copy, PartialEq, Eq)]
enum Order {
    Big,
    Little,
}

/// How the packets of a capture are kept.
#[derive(Clone, Copy)]
pub struct Format {
    order: Order,
    /// Whether the second part of a time counts nanoseconds; else microseconds.
    pub nanoseconds: bool,
    link: Link,
}

/// What a packet begins with.
#[derive(Clone, Copy)]
enum Link {
    Ethernet,
    RawIp,
    LinuxCooked,
    LinuxCookedTwo,
    Loopback,
}

/// A packet of a capture: when it was captured, in seconds and parts of one, and the bytes of it that were kept.
#[derive(Clone, Copy)]
pub struct Captured<'a> {
    pub seconds: u32,
    pub parts: u32,
    pub bytes: &'a [u8],
}

/// A UDP datagram, and between whom it went.
#[derive(Clone, Copy)]
pub struct Datagram<'a> {
    pub from: Addr,
    pub to: Addr,
    pub payload: &'a [u8],
}

/// Whether the input is a capture, by its first four bytes.
pub fn is_capture(input: &[u8]) -> bool
    ensures { result ≡ is_some (magic_of input.now) }
{
    magic(input).is_some()
}

// The order of the bytes of its numbers, and whether its times count nanoseconds.
fn magic(input: &[u8]) -> Option<(Order, bool)>
    ensures { result ≡ magic_of input.now }
{
    let (first, _) = input.split_at_checked(4)?;
    match u32_of(first, Order::Big)? {
        0xa1b2_c3d4 => Some((Order::Big, false)),
        0xa1b2_3c4d => Some((Order::Big, true)),
        0xd4c3_b2a1 => Some((Order::Little, false)),
        0x4d3c_b2a1 => Some((Order::Little, true)),
        _ => None,
    }
}

/// The format that the 24 bytes at the beginning of a capture tell, and what is left behind them. CutShort where there are fewer,
/// LinkType where the link type isn't one that is read.
pub fn read_format(input: &[u8]) -> Result<(Format, &[u8]), InspectFault>
    ensures format { IfOk result (λ read. IsCapture input.now read.0 read.1.now) }
    ensures refused { IfErr result (λ fault. (fault ≡ InspectFault.CutShort 0) ⊎ ((number : ℕ) × (fault ≡ InspectFault.LinkType number))) }
{
    let Some((order, nanoseconds)) = magic(input) else {
        return Err(InspectFault::CutShort(0));
    };
    let Some((beginning, rest)) = input.split_at_checked(24) else {
        return Err(InspectFault::CutShort(0));
    };
    let number = u32_at(beginning, 20, order).unwrap_or(0) & 0x0fff_ffff;
    let Some(link) = link_of(number) else {
        return Err(InspectFault::LinkType(number));
    };
    let format = Format {
        order,
        nanoseconds,
        link,
    };
    Ok((format, rest))
}

/// When the first of a capture's packets was captured, in billionths or millionths of a second. None where there is none.
pub(crate) fn begun_at(format: Format, packets: &[u8]) -> Option<u64>
    ensures { result ≡ begun_of format packets.now }
{
    let parts = u32_at(packets, 4, format.order)?;
    let seconds = u32_at(packets, 0, format.order)?;
    Some(moment(seconds, parts, format.nanoseconds))
}

/// A time in billionths or millionths of a second.
pub(crate) fn moment(seconds: u32, parts: u32, nanoseconds: bool) -> u64
    ensures { result ≡ moment seconds parts nanoseconds }
{
    u64::from(seconds) * parts_of_second(nanoseconds) + u64::from(parts)
}

/// How many of these are a second.
pub(crate) fn parts_of_second(nanoseconds: bool) -> u64
    ensures parts { result ≡ parts_of_second nanoseconds }
    ensures most { result ≤ 1000000000 }
    ensures some { 0 < result }
{
    if nanoseconds {
        1_000_000_000
    } else {
        1_000_000
    }
}

fn link_of(number: u32) -> Option<Link>
    ensures { result ≡ link_of number }
{
    match number {
        0 => Some(Link::Loopback),
        1 => Some(Link::Ethernet),
        12 | 101 | 228 => Some(Link::RawIp),
        113 => Some(Link::LinuxCooked),
        276 => Some(Link::LinuxCookedTwo),
        _ => None,
    }
}

/// The packet at the front, and what is left behind it. None where it is cut short.
pub fn read_packet<'a>(format: Format, rest: &'a [u8]) -> Option<(Captured<'a>, &'a [u8])>
    ensures packet { IfSome result (λ read. IsPacket format.order rest.now read.0 read.1.now) }
    ensures cut_short { IfNone result (IsCutShort format.order rest.now) }
{
    let (head, rest) = rest.split_at_checked(16)?;
    let kept = usize::try_from(u32_at(head, 8, format.order)?).ok()?;
    let (bytes, rest) = rest.split_at_checked(kept)?;
    let captured = Captured {
        seconds: u32_at(head, 0, format.order)?,
        parts: u32_at(head, 4, format.order)?,
        bytes,
    };
    Some((captured, rest))
}

/// The datagram of a packet that is UDP over IPv4. None where it is another, a fragment of one, or wasn't kept whole.
pub fn datagram_in<'a>(format: Format, packet: &'a [u8]) -> Option<Datagram<'a>>
    ensures { IfSome result (λ datagram. IsWithin datagram.payload.now packet.now) }
{
    udp_in(ipv4_in(format.link, packet)?)
}

// What stands behind the link's header, where that says IPv4.
fn ipv4_in(link: Link, packet: &[u8]) -> Option<&[u8]>
    ensures { IfSome result (λ inside. IsWithin inside.now packet.now) }
{
    match link {
        Link::RawIp => Some(packet),
        Link::Ethernet => typed(packet, 12),
        Link::LinuxCooked => typed(packet, 14),
        Link::LinuxCookedTwo => cooked_in(packet),
        Link::Loopback => {
            let (family, rest) = packet.split_at_checked(4)?;
            let big = u32_of(family, Order::Big)?;
            let little = u32_of(family, Order::Little)?;
            if big == 2 || little == 2 {
                Some(rest)
            } else {
                None
            }
        }
    }
}

// What stands behind a header of 20 bytes that begins with the type of the payload, where that is IPv4's.
fn cooked_in(packet: &[u8]) -> Option<&[u8]>
    ensures { IfSome result (λ inside. IsWithin inside.now packet.now) }
{
    let (header, rest) = packet.split_at_checked(20)?;
    if u16_at(header, 0)? == 0x0800 {
        Some(rest)
    } else {
        None
    }
}

// What stands behind the type of the payload at a place, where that is IPv4's.
fn typed(packet: &[u8], place: usize) -> Option<&[u8]>
    ensures { IfSome result (λ inside. IsWithin inside.now packet.now) }
{
    let (_, rest) = packet.split_at_checked(place)?;
    let (kind, rest) = rest.split_at_checked(2)?;
    if u16_at(kind, 0)? == 0x0800 {
        Some(rest)
    } else {
        None
    }
}

// The datagram of an IPv4 packet. What stands behind its length fills up the frame.
fn udp_in(packet: &[u8]) -> Option<Datagram<'_>>
    ensures { IfSome result (λ datagram. IsWithin datagram.payload.now packet.now) }
{
    let first = *packet.first()?;
    let header = usize::from(first & 0x0f) * 4;
    let (packet, _) = packet.split_at_checked(usize::from(u16_at(packet, 2)?))?;
    let fragment = u16_at(packet, 6)? & 0x3fff;
    if first >> 4 != 4 || header < 20 || fragment != 0 || *packet.get(9)? != 17 {
        return None;
    }
    let (header, udp) = packet.split_at_checked(header)?;
    let (ports, _) = udp.split_at_checked(8)?;
    let (udp, _) = udp.split_at_checked(usize::from(u16_at(ports, 4)?))?;
    let (_, payload) = udp.split_at_checked(8)?;
    Some(Datagram {
        from: Addr {
            ip: u32_at(header, 12, Order::Big)?,
            port: u16_at(ports, 0)?,
        },
        to: Addr {
            ip: u32_at(header, 16, Order::Big)?,
            port: u16_at(ports, 2)?,
        },
        payload,
    })
}

// The number of two bytes at a place, the first the highest.
fn u16_at(bytes: &[u8], place: usize) -> Option<u16> {
    let (_, rest) = bytes.split_at_checked(place)?;
    Some(u16::from_be_bytes([*rest.first()?, *rest.get(1)?]))
}

// The number of four bytes at a place.
fn u32_at(bytes: &[u8], place: usize, order: Order) -> Option<u32>
    ensures { MatchOption result (length bytes.now < place + 4) (λ number. (place + 4 ≤ length bytes.now) × (number ≡ number_of order (drop place bytes.now))) }
{
    let (_, rest) = bytes.split_at_checked(place)?;
    u32_of(rest, order)
}

// The number of the first four bytes.
fn u32_of(bytes: &[u8], order: Order) -> Option<u32>
    ensures { MatchOption result (length bytes.now < 4) (λ number. (4 ≤ length bytes.now) × (number ≡ number_of order bytes.now)) }
{
    let four = [
        *bytes.first()?,
        *bytes.get(1)?,
        *bytes.get(2)?,
        *bytes.get(3)?,
    ];
    match order {
        Order::Big => Some(u32::from_be_bytes(four)),
        Order::Little => Some(u32::from_le_bytes(four)),
    }
}
