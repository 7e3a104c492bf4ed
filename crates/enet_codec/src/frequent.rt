//! The commands that come most often, each read without the enum of all.

ghost use Rattle.std.specs.Prelude.{◌≡◌, ℕ, ◌≤◌, ◌%◌, length, drop, take, slice_index, true, false, Some, IfSome};
ghost use Rattle.enet_codec.specs.Message.{Spells};
ghost use Rattle.enet_codec.specs.Frequent.{acknowledgement, whole_packet};
ghost use Rattle.enet_codec.specs.Private.Reading.{message_at};

use crate::command::Head;
use crate::read::{head_at, u16_at};

/// An ACKNOWLEDGE that asks for no acknowledgement itself.
#[derive(Clone, Copy)]
pub struct Acknowledged {
    /// What the command begins with: its channel is that of the command that is acknowledged.
    pub head: Head,
    /// The reliable number of the command that is acknowledged.
    pub received_number: u16,
    /// The sent time of the datagram that had the command, in milliseconds, modulo 65536.
    pub received_time: u16,
}

/// A packet that one command carries: of SEND_RELIABLE or SEND_UNRELIABLE.
#[derive(Clone, Copy)]
pub struct WholePacket<'a> {
    /// What the command begins with.
    pub head: Head,
    /// Whether the packet is reliable.
    pub reliable: bool,
    /// The unreliable number of an unreliable packet, modulo 65536; 0 of a reliable one.
    pub unreliable: u16,
    /// The packet's bytes.
    pub payload: &'a [u8],
}

/// Reads an ACKNOWLEDGE, 8 bytes, at the front, where its first byte is exactly 1: no flag is set, and no ignored bit. The contract says
/// what stands there where it answers, and not when it must: where it answers None, `read_command` still tells whether a command stands
/// there. Takes no memory.
#[inline(always)]
pub fn read_acknowledged(bytes: &[u8]) -> Option<Acknowledged>
    ensures length { IfSome result (λ _. 8 ≤ length bytes.now) }
    ensures found { IfSome result (λ found. Spells (take 8 bytes.now) (acknowledgement found)) }
    ensures plain { IfSome result (λ found. found.head.acknowledge ≡ false) }
{
    if bytes.len() < 8 || bytes[0] != 1 {
        return None;
    }
    Some(Acknowledged {
        head: Head {
            acknowledge: false,
            unsequenced: false,
            channel: bytes[1],
            number: u16_at(bytes, 2),
        },
        received_number: u16_at(bytes, 4),
        received_time: u16_at(bytes, 6),
    })
}

/// Reads a SEND_RELIABLE or SEND_UNRELIABLE at the front, and its length. The contract says what stands there where it answers, and not
/// when it must: where it answers None, `read_command` still tells whether a command stands there. Takes no memory.
#[inline(always)]
pub fn read_whole_packet(bytes: &[u8]) -> Option<(WholePacket<'_>, usize)>
    ensures length { IfSome result (λ found. (1 ≤ found.1) × (found.1 ≤ length bytes.now)) }
    ensures found { IfSome result (λ found. Spells (take found.1 bytes.now) (whole_packet found.0)) }
    ensures number { IfSome result (λ found. found.0.reliable ≡ true → found.0.unreliable ≡ 0) }
{
    if bytes.len() < 8 {
        return None;
    }
    match bytes[0] & 0x0f {
        6 => reliable_packet(bytes),
        7 => unreliable_packet(bytes),
        _ => None,
    }
}

// SEND_RELIABLE at the front, whose number was read.
#[inline(always)]
fn reliable_packet(bytes: &[u8]) -> Option<(WholePacket<'_>, usize)>
    requires whole { 8 ≤ length bytes.now }
    requires kind { slice_index bytes.now 0 % 16 ≡ 6 }
    ensures length { IfSome result (λ found. (1 ≤ found.1) × (found.1 ≤ length bytes.now)) }
    ensures found { IfSome result (λ found. message_at bytes.now ≡ Some (whole_packet found.0, drop found.1 bytes.now)) }
    ensures number { IfSome result (λ found. found.0.unreliable ≡ 0) }
{
    let end = 6 + usize::from(u16_at(bytes, 4));
    if bytes.len() < end {
        return None;
    }
    let packet = WholePacket {
        head: head_at(bytes),
        reliable: true,
        unreliable: 0,
        payload: &bytes[6..end],
    };
    Some((packet, end))
}

// SEND_UNRELIABLE at the front, whose number was read.
#[inline(always)]
fn unreliable_packet(bytes: &[u8]) -> Option<(WholePacket<'_>, usize)>
    requires whole { 8 ≤ length bytes.now }
    requires kind { slice_index bytes.now 0 % 16 ≡ 7 }
    ensures length { IfSome result (λ found. (1 ≤ found.1) × (found.1 ≤ length bytes.now)) }
    ensures found { IfSome result (λ found. message_at bytes.now ≡ Some (whole_packet found.0, drop found.1 bytes.now)) }
    ensures unreliable { IfSome result (λ found. found.0.reliable ≡ false) }
{
    let end = 8 + usize::from(u16_at(bytes, 6));
    if bytes.len() < end {
        return None;
    }
    let packet = WholePacket {
        head: head_at(bytes),
        reliable: false,
        unreliable: u16_at(bytes, 4),
        payload: &bytes[8..end],
    };
    Some((packet, end))
}
