//! Reading a command.

ghost use Rattle.std.specs.Prelude.{◌≡◌, ℕ, ◌≤◌, ◌+◌, ◌<◌, length, drop, take, slice_index, List, [], ◌++◌, true, IfSome, IfNone, IsSomeAnd};
ghost use Rattle.enet_codec.specs.Message.{Message, Spells, view};
ghost use Rattle.std.specs.Int.{w8, w16, w32, from_be_bytes};
ghost use Rattle.enet_codec.specs.Private.Reading.{command_at, head_at, is_kind, layout, message_at, message_of, numbers_at, size_of, offer_of, verify_of, fragment_of, Gives};

use crate::command::{ACKNOWLEDGE, Command, Fragment, Head, Offer, UNSEQUENCED, Verify};
use crate::table::row_of;

// The byte at a place.
fn u8_at(bytes: &[u8], at: usize) -> u8
    requires { at < length bytes.now }
    ensures { result ≡ from_be_bytes w8 (drop at bytes.now) }
{
    bytes[at]
}

/// The big-endian number of two bytes at a place.
pub(crate) fn u16_at(bytes: &[u8], at: usize) -> u16
    requires { at + 2 ≤ length bytes.now }
    ensures { result ≡ from_be_bytes w16 (drop at bytes.now) }
{
    u16::from_be_bytes([bytes[at], bytes[at + 1]])
}

// The big-endian number of four bytes at a place.
fn u32_at(bytes: &[u8], at: usize) -> u32
    requires { at + 4 ≤ length bytes.now }
    ensures { result ≡ from_be_bytes w32 (drop at bytes.now) }
{
    u32::from_be_bytes([bytes[at], bytes[at + 1], bytes[at + 2], bytes[at + 3]])
}

fn offer_at(fields: &[u8]) -> Offer
    requires { 44 ≤ length fields.now }
    ensures { result ≡ offer_of (numbers_at (layout 2) 0 fields.now) }
{
    Offer {
        outgoing_peer: u16_at(fields, 0),
        incoming_session: u8_at(fields, 2),
        outgoing_session: u8_at(fields, 3),
        mtu: u32_at(fields, 4),
        window: u32_at(fields, 8),
        channels: u32_at(fields, 12),
        incoming_bandwidth: u32_at(fields, 16),
        outgoing_bandwidth: u32_at(fields, 20),
        throttle_interval: u32_at(fields, 24),
        acceleration: u32_at(fields, 28),
        deceleration: u32_at(fields, 32),
        connect_id: u32_at(fields, 36),
        info: u32_at(fields, 40),
    }
}

fn verify_at(fields: &[u8]) -> Verify
    requires { 40 ≤ length fields.now }
    ensures { result ≡ verify_of (numbers_at (layout 3) 0 fields.now) }
{
    Verify {
        outgoing_peer: u16_at(fields, 0),
        incoming_session: u8_at(fields, 2),
        outgoing_session: u8_at(fields, 3),
        mtu: u32_at(fields, 4),
        window: u32_at(fields, 8),
        channels: u32_at(fields, 12),
        incoming_bandwidth: u32_at(fields, 16),
        outgoing_bandwidth: u32_at(fields, 20),
        throttle_interval: u32_at(fields, 24),
        acceleration: u32_at(fields, 28),
        deceleration: u32_at(fields, 32),
        connect_id: u32_at(fields, 36),
    }
}

fn fragment_at(fields: &[u8]) -> Fragment
    requires { 20 ≤ length fields.now }
    ensures { result ≡ fragment_of (numbers_at (layout 8) 0 fields.now) }
{
    Fragment {
        start: u16_at(fields, 0),
        count: u32_at(fields, 4),
        number: u32_at(fields, 8),
        total: u32_at(fields, 12),
        offset: u32_at(fields, 16),
    }
}

fn acknowledge(head: Head, fields: &[u8]) -> Command<'static>
    requires { 4 ≤ length fields.now }
    ensures { view result ≡ message_of 1 head fields.now [] }
{
    Command::Acknowledge {
        head,
        received_number: u16_at(fields, 0),
        received_time: u16_at(fields, 2),
    }
}

fn send_unreliable<'a>(head: Head, fields: &[u8], payload: &'a [u8]) -> Command<'a>
    requires { 4 ≤ length fields.now }
    ensures { view result ≡ message_of 7 head fields.now payload.now }
{
    Command::SendUnreliable {
        head,
        unreliable: u16_at(fields, 0),
        payload,
    }
}

fn send_unsequenced<'a>(head: Head, fields: &[u8], payload: &'a [u8]) -> Command<'a>
    requires { 4 ≤ length fields.now }
    ensures { view result ≡ message_of 9 head fields.now payload.now }
{
    Command::SendUnsequenced {
        head,
        group: u16_at(fields, 0),
        payload,
    }
}

fn bandwidth_limit(head: Head, fields: &[u8]) -> Command<'static>
    requires { 8 ≤ length fields.now }
    ensures { view result ≡ message_of 10 head fields.now [] }
{
    Command::BandwidthLimit {
        head,
        incoming: u32_at(fields, 0),
        outgoing: u32_at(fields, 4),
    }
}

fn throttle_configure(head: Head, fields: &[u8]) -> Command<'static>
    requires { 12 ≤ length fields.now }
    ensures { view result ≡ message_of 11 head fields.now [] }
{
    Command::ThrottleConfigure {
        head,
        interval: u32_at(fields, 0),
        acceleration: u32_at(fields, 4),
        deceleration: u32_at(fields, 8),
    }
}

// The command of this number, by the fields at the front of the bytes, and its payload.
fn command<'a>(kind: u8, head: Head, fields: &[u8], payload: &'a [u8]) -> Command<'a>
    requires known { is_kind kind ≡ true }
    requires whole { size_of (layout kind) ≤ length fields.now }
    ensures { view result ≡ message_of kind head fields.now payload.now }
{
    match kind {
        1 => acknowledge(head, fields),
        2 => Command::Connect {
            head,
            offer: offer_at(fields),
        },
        3 => Command::VerifyConnect {
            head,
            verify: verify_at(fields),
        },
        4 => Command::Disconnect {
            head,
            info: u32_at(fields, 0),
        },
        5 => Command::Ping { head },
        6 => Command::SendReliable { head, payload },
        7 => send_unreliable(head, fields, payload),
        8 => Command::SendFragment {
            head,
            fragment: fragment_at(fields),
            payload,
        },
        9 => send_unsequenced(head, fields, payload),
        10 => bandwidth_limit(head, fields),
        11 => throttle_configure(head, fields),
        12 => Command::SendUnreliableFragment {
            head,
            fragment: fragment_at(fields),
            payload,
        },
        _ => unreachable!(),
    }
}

/// The first four bytes. Bits 4 and 5 of the first are ignored (our profile).
pub(crate) fn head_at(bytes: &[u8]) -> Head
    requires { 4 ≤ length bytes.now }
    ensures { result ≡ head_at bytes.now }
{
    Head {
        acknowledge: bytes[0] & ACKNOWLEDGE != 0,
        unsequenced: bytes[0] & UNSEQUENCED != 0,
        channel: bytes[1],
        number: u16_at(bytes, 2),
    }
}

// ACKNOWLEDGE, whose head was read, and the bytes behind it.
fn acknowledge_after(head: Head, bytes: &[u8]) -> Option<(Command<'_>, &[u8])>
    ensures { Gives result (command_at 1 head bytes.now) }
{
    if bytes.len() < 4 {
        return None;
    }
    Some((acknowledge(head, bytes), &bytes[4..]))
}

// SEND_RELIABLE, whose head was read, and the bytes behind it.
fn reliable_after(head: Head, bytes: &[u8]) -> Option<(Command<'_>, &[u8])>
    ensures { Gives result (command_at 6 head bytes.now) }
{
    if bytes.len() < 2 {
        return None;
    }
    let (payload, rest) = bytes[2..].split_at_checked(usize::from(u16_at(bytes, 0)))?;
    Some((Command::SendReliable { head, payload }, rest))
}

// SEND_UNRELIABLE, whose head was read, and the bytes behind it.
fn unreliable_after(head: Head, bytes: &[u8]) -> Option<(Command<'_>, &[u8])>
    ensures { Gives result (command_at 7 head bytes.now) }
{
    if bytes.len() < 4 {
        return None;
    }
    let (payload, rest) = bytes[4..].split_at_checked(usize::from(u16_at(bytes, 2)))?;
    Some((send_unreliable(head, bytes, payload), rest))
}

// The command of this number, by the table, whose head was read, and the bytes behind it.
fn any_after(kind: u8, head: Head, bytes: &[u8]) -> Option<(Command<'_>, &[u8])>
    ensures { Gives result (command_at kind head bytes.now) }
{
    let row = row_of(kind)?;
    if bytes.len() < row.fields {
        return None;
    }
    let (payload, rest) = bytes[row.fields..].split_at_checked(row.payload_len(bytes))?;
    Some((command(kind, head, bytes, payload), rest))
}

// The command of this number, the low four bits of the first byte, whose head was read, and the bytes behind it.
fn after_head(kind: u8, head: Head, bytes: &[u8]) -> Option<(Command<'_>, &[u8])>
    ensures { Gives result (command_at kind head bytes.now) }
{
    match kind {
        1 => acknowledge_after(head, bytes),
        6 => reliable_after(head, bytes),
        7 => unreliable_after(head, bytes),
        _ => any_after(kind, head, bytes),
    }
}

// The command at the front, and the bytes behind it.
#[tactic(auto, unfolding(crate::specs::Private::Reading::message_at))]
fn read(bytes: &[u8]) -> Option<(Command<'_>, &[u8])>
    ensures { Gives result (message_at bytes.now) }
{
    if bytes.len() < 4 {
        return None;
    }
    after_head(bytes[0] & 0x0f, head_at(bytes), &bytes[4..])
}

/// The command at the front of the bytes and its length, at least 4. Whatever follows it plays no part. None exactly where
/// no command of ENet 1.3 stands there: it is cut short, or its number is 0 or 13 to 15. Takes no memory.
pub fn read_command(bytes: &[u8]) -> Option<(Command<'_>, usize)>
    ensures length { IfSome result (λ found. (4 ≤ found.1) × (found.1 ≤ length bytes.now)) }
    ensures found { IfSome result (λ found. Spells (take found.1 bytes.now) (view found.0)) }
    ensures only { (m : Message) (text rest : List ℕ) → bytes.now ≡ text ++ rest → Spells text m
        → IsSomeAnd result (λ found. (view found.0 ≡ m) × (found.1 ≡ length text)) }
    ensures none { IfNone result ((m : Message) (text rest : List ℕ) → bytes.now ≡ text ++ rest → Spells text m → ⊥) }
{
    let (command, rest) = read(bytes)?;
    Some((command, bytes.len() - rest.len()))
}

/// A law, with no code: no spelling of a command begins a spelling of another. So what was written is read again, whatever
/// follows it.
pub fn one_spelling()
    ensures { (a b x y : List ℕ) (m n : Message) → Spells a m → Spells b n → a ++ x ≡ b ++ y → (a ≡ b) × (m ≡ n) }
{}
