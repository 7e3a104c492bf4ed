//! Writing a command.

ghost use Rattle.std.specs.Prelude.{◌≡◌, ℕ, ◌≤◌, ◌+◌, ◌*◌, ◌<◌, ◌^◌, ◌↔◌, length, IfSome, IfNone, IsSome, IsTrue, false, ◌∷◌, []};
ghost use Rattle.std.specs.List.{AllByRecursion};
ghost use Rattle.std.specs.Int.{w8, w16, w32, to_be_bytes};
ghost use Rattle.enet_codec.specs.Message.{Message, Spells, acknowledge, send_reliable, send_unreliable, IsMessage, Fits, connect, verify_connect, fields_of, fragment_fields, kind_of, text, view, canonical, payload_of, bit};
ghost use Rattle.enet_codec.specs.Writing.{overwrite, Puts};

use crate::command::{ACKNOWLEDGE, Command, Fragment, Head, Offer, UNSEQUENCED, Verify};
use crate::table::row_of;

// Writes bytes at a place, and gives the place after them. So do all functions here named `put_..`.
fn put(buf: &mut [u8], at: usize, bytes: &[u8]) -> usize
    requires { at + length bytes.now ≤ length buf.old }
    ensures { Puts buf.old at bytes.now buf.new result }
{
    let end = at + bytes.len();
    buf[at..end].copy_from_slice(bytes);
    end
}

fn put_u8(buf: &mut [u8], at: usize, n: u8) -> usize
    requires { at + 1 ≤ length buf.old }
    ensures puts { Puts buf.old at (to_be_bytes w8 n) buf.new result }
    ensures fits { n < 2 ^ 8 }
{
    put(buf, at, &n.to_be_bytes())
}

/// Writes a number as two bytes, the higher first, and gives the place after it.
pub(crate) fn put_u16(buf: &mut [u8], at: usize, n: u16) -> usize
    requires { at + 2 ≤ length buf.old }
    ensures puts { Puts buf.old at (to_be_bytes w16 n) buf.new result }
    ensures fits { n < 2 ^ 16 }
{
    put(buf, at, &n.to_be_bytes())
}

fn put_u32(buf: &mut [u8], at: usize, n: u32) -> usize
    requires { at + 4 ≤ length buf.old }
    ensures puts { Puts buf.old at (to_be_bytes w32 n) buf.new result }
    ensures fits { n < 2 ^ 32 }
{
    put(buf, at, &n.to_be_bytes())
}

// Flags and kind. Bits 4 and 5 are written as 0 (our profile).
fn first_byte(kind: u8, head: Head) -> u8
    requires { kind < 16 }
    ensures { result ≡ kind + 64 * bit head.unsequenced + 128 * bit head.acknowledge }
{
    let acknowledge = if head.acknowledge { ACKNOWLEDGE } else { 0 };
    let unsequenced = if head.unsequenced { UNSEQUENCED } else { 0 };
    acknowledge | unsequenced | kind
}

fn put_head(buf: &mut [u8], at: usize, kind: u8, head: Head) -> usize
    requires known { kind < 16 }
    requires room { at + 4 ≤ length buf.old }
    ensures puts { Puts buf.old at ((kind + 64 * bit head.unsequenced + 128 * bit head.acknowledge) ∷ head.channel ∷ to_be_bytes w16 head.number) buf.new result }
    ensures fits { (head.channel < 2 ^ 8) × (head.number < 2 ^ 16) }
{
    let at = put(buf, at, &[first_byte(kind, head), head.channel]);
    put_u16(buf, at, head.number)
}

fn put_offer(buf: &mut [u8], at: usize, offer: &Offer) -> usize
    requires { at + 44 ≤ length buf.old }
    ensures puts { Puts buf.old at (text (fields_of (connect offer.now))) buf.new result }
    ensures fits { AllByRecursion Fits (fields_of (connect offer.now)) }
{
    let at = put_u16(buf, at, offer.outgoing_peer);
    let at = put_u8(buf, at, offer.incoming_session);
    let at = put_u8(buf, at, offer.outgoing_session);
    let at = put_u32(buf, at, offer.mtu);
    let at = put_u32(buf, at, offer.window);
    let at = put_u32(buf, at, offer.channels);
    let at = put_u32(buf, at, offer.incoming_bandwidth);
    let at = put_u32(buf, at, offer.outgoing_bandwidth);
    let at = put_u32(buf, at, offer.throttle_interval);
    let at = put_u32(buf, at, offer.acceleration);
    let at = put_u32(buf, at, offer.deceleration);
    let at = put_u32(buf, at, offer.connect_id);
    put_u32(buf, at, offer.info)
}

fn put_verify(buf: &mut [u8], at: usize, verify: &Verify) -> usize
    requires { at + 40 ≤ length buf.old }
    ensures puts { Puts buf.old at (text (fields_of (verify_connect verify.now))) buf.new result }
    ensures fits { AllByRecursion Fits (fields_of (verify_connect verify.now)) }
{
    let at = put_u16(buf, at, verify.outgoing_peer);
    let at = put_u8(buf, at, verify.incoming_session);
    let at = put_u8(buf, at, verify.outgoing_session);
    let at = put_u32(buf, at, verify.mtu);
    let at = put_u32(buf, at, verify.window);
    let at = put_u32(buf, at, verify.channels);
    let at = put_u32(buf, at, verify.incoming_bandwidth);
    let at = put_u32(buf, at, verify.outgoing_bandwidth);
    let at = put_u32(buf, at, verify.throttle_interval);
    let at = put_u32(buf, at, verify.acceleration);
    let at = put_u32(buf, at, verify.deceleration);
    put_u32(buf, at, verify.connect_id)
}

fn put_fragment(buf: &mut [u8], at: usize, fragment: &Fragment, len: u16) -> usize
    requires { at + 20 ≤ length buf.old }
    ensures puts { Puts buf.old at (text (fragment_fields fragment.now len)) buf.new result }
    ensures fits { AllByRecursion Fits (fragment_fields fragment.now len) }
{
    let at = put_u16(buf, at, fragment.start);
    let at = put_u16(buf, at, len);
    let at = put_u32(buf, at, fragment.count);
    let at = put_u32(buf, at, fragment.number);
    let at = put_u32(buf, at, fragment.total);
    put_u32(buf, at, fragment.offset)
}

fn put_two_u16(buf: &mut [u8], at: usize, first: u16, second: u16) -> usize
    requires { at + 4 ≤ length buf.old }
    ensures puts { Puts buf.old at (text ((w16, first) ∷ (w16, second) ∷ [])) buf.new result }
    ensures fits { AllByRecursion Fits ((w16, first) ∷ (w16, second) ∷ []) }
{
    let at = put_u16(buf, at, first);
    put_u16(buf, at, second)
}

fn put_two_u32(buf: &mut [u8], at: usize, first: u32, second: u32) -> usize
    requires { at + 8 ≤ length buf.old }
    ensures puts { Puts buf.old at (text ((w32, first) ∷ (w32, second) ∷ [])) buf.new result }
    ensures fits { AllByRecursion Fits ((w32, first) ∷ (w32, second) ∷ []) }
{
    let at = put_u32(buf, at, first);
    put_u32(buf, at, second)
}

fn put_three_u32(buf: &mut [u8], at: usize, first: u32, second: u32, third: u32) -> usize
    requires { at + 12 ≤ length buf.old }
    ensures puts { Puts buf.old at (text ((w32, first) ∷ (w32, second) ∷ (w32, third) ∷ [])) buf.new result }
    ensures fits { AllByRecursion Fits ((w32, first) ∷ (w32, second) ∷ (w32, third) ∷ []) }
{
    let at = put_two_u32(buf, at, first, second);
    put_u32(buf, at, third)
}

fn kind_of(command: &Command<'_>) -> u8
    ensures { result ≡ kind_of (view command.now).body }
{
    match command {
        Command::Acknowledge { .. } => 1,
        Command::Connect { .. } => 2,
        Command::VerifyConnect { .. } => 3,
        Command::Disconnect { .. } => 4,
        Command::Ping { .. } => 5,
        Command::SendReliable { .. } => 6,
        Command::SendUnreliable { .. } => 7,
        Command::SendFragment { .. } => 8,
        Command::SendUnsequenced { .. } => 9,
        Command::BandwidthLimit { .. } => 10,
        Command::ThrottleConfigure { .. } => 11,
        Command::SendUnreliableFragment { .. } => 12,
    }
}

fn head_of(command: &Command<'_>) -> Head
    ensures { result ≡ (view command.now).head }
{
    match command {
        Command::Acknowledge { head, .. }
        | Command::Connect { head, .. }
        | Command::VerifyConnect { head, .. }
        | Command::Disconnect { head, .. }
        | Command::Ping { head }
        | Command::SendReliable { head, .. }
        | Command::SendUnreliable { head, .. }
        | Command::SendFragment { head, .. }
        | Command::SendUnsequenced { head, .. }
        | Command::BandwidthLimit { head, .. }
        | Command::ThrottleConfigure { head, .. }
        | Command::SendUnreliableFragment { head, .. } => *head,
    }
}

fn payload_of<'a>(command: &Command<'a>) -> &'a [u8]
    ensures { result.now ≡ payload_of (view command.now).body }
{
    match command {
        Command::SendReliable { payload, .. }
        | Command::SendUnreliable { payload, .. }
        | Command::SendFragment { payload, .. }
        | Command::SendUnsequenced { payload, .. }
        | Command::SendUnreliableFragment { payload, .. } => payload,
        _ => &[],
    }
}

// The fields after the head; `len` is the payload's length.
fn put_fields(buf: &mut [u8], at: usize, command: &Command<'_>, len: u16) -> usize
    requires payload { len ≡ length (payload_of (view command.now).body) }
    requires room { at + length (text (fields_of (view command.now).body)) ≤ length buf.old }
    ensures puts { Puts buf.old at (text (fields_of (view command.now).body)) buf.new result }
    ensures fits { AllByRecursion Fits (fields_of (view command.now).body) }
{
    match command {
        Command::Acknowledge {
            received_number,
            received_time,
            ..
        } => put_two_u16(buf, at, *received_number, *received_time),
        Command::Connect { offer, .. } => put_offer(buf, at, offer),
        Command::VerifyConnect { verify, .. } => put_verify(buf, at, verify),
        Command::Disconnect { info, .. } => put_u32(buf, at, *info),
        Command::Ping { .. } => at,
        Command::SendReliable { .. } => put_u16(buf, at, len),
        Command::SendUnreliable { unreliable, .. } => put_two_u16(buf, at, *unreliable, len),
        Command::SendFragment { fragment, .. } => put_fragment(buf, at, fragment, len),
        Command::SendUnsequenced { group, .. } => put_two_u16(buf, at, *group, len),
        Command::BandwidthLimit {
            incoming,
            outgoing,
            ..
        } => put_two_u32(buf, at, *incoming, *outgoing),
        Command::ThrottleConfigure {
            interval,
            acceleration,
            deceleration,
            ..
        } => put_three_u32(buf, at, *interval, *acceleration, *deceleration),
        Command::SendUnreliableFragment { fragment, .. } => put_fragment(buf, at, fragment, len),
    }
}

// How many bytes the command takes.
fn len_of(command: &Command<'_>) -> usize
    requires { length (payload_of (view command.now).body) < 2 ^ 16 }
    ensures { result ≡ length (canonical (view command.now)) }
{
    let Some(row) = row_of(kind_of(command)) else {
        unreachable!()
    };
    4 + row.fields + payload_of(command).len()
}

fn put_command(buf: &mut [u8], at: usize, command: &Command<'_>) -> usize
    requires payload { length (payload_of (view command.now).body) < 2 ^ 16 }
    requires room { at + length (canonical (view command.now)) ≤ length buf.old }
    ensures puts { Puts buf.old at (canonical (view command.now)) buf.new result }
    ensures message { IsMessage (view command.now) }
{
    let payload = payload_of(command);
    let at = put_head(buf, at, kind_of(command), head_of(command));
    let at = put_fields(buf, at, command, payload.len() as u16);
    put(buf, at, payload)
}

// Whether so many bytes fit at a place.
fn has_room(buf: &[u8], at: usize, len: usize) -> bool
    ensures room { IsTrue result → at + len ≤ length buf.now }
    ensures full { result ≡ false → length buf.now < at + len }
{
    at <= buf.len() && len <= buf.len() - at
}

/// Writes ACKNOWLEDGE, of which no `Command` need be made, as [`write_command`] does. Takes no memory.
pub fn write_acknowledge(
    buf: &mut [u8],
    at: usize,
    head: Head,
    received_number: u16,
    received_time: u16,
) -> Option<usize>
    ensures written { IfSome result (λ end. Puts buf.old at (canonical (record { head = head; body = acknowledge received_number received_time })) buf.new end) }
    ensures fits { IsSome result ↔ (at + length (canonical (record { head = head; body = acknowledge received_number received_time })) ≤ length buf.old) }
    ensures unchanged { IfNone result (buf.new ≡ buf.old) }
    ensures spells { IfSome result (λ end. Spells (canonical (record { head = head; body = acknowledge received_number received_time })) (record { head = head; body = acknowledge received_number received_time })) }
{
    if !has_room(buf, at, 8) {
        return None;
    }
    let at = put_head(buf, at, 1, head);
    Some(put_two_u16(buf, at, received_number, received_time))
}

/// Writes SEND_RELIABLE, of which no `Command` need be made, as [`write_command`] does. A payload has at most 65,535 bytes:
/// that is the caller's to see to. Takes no memory.
pub fn write_reliable(buf: &mut [u8], at: usize, head: Head, payload: &[u8]) -> Option<usize>
    requires { length payload.now < 2 ^ 16 }
    ensures written { IfSome result (λ end. Puts buf.old at (canonical (record { head = head; body = send_reliable payload.now })) buf.new end) }
    ensures fits { IsSome result ↔ (at + length (canonical (record { head = head; body = send_reliable payload.now })) ≤ length buf.old) }
    ensures unchanged { IfNone result (buf.new ≡ buf.old) }
    ensures spells { IfSome result (λ end. Spells (canonical (record { head = head; body = send_reliable payload.now })) (record { head = head; body = send_reliable payload.now })) }
{
    if !has_room(buf, at, 6 + payload.len()) {
        return None;
    }
    let at = put_head(buf, at, 6, head);
    let at = put_u16(buf, at, payload.len() as u16);
    Some(put(buf, at, payload))
}

/// Writes SEND_UNRELIABLE, of which no `Command` need be made, as [`write_command`] does. A payload has at most 65,535 bytes:
/// that is the caller's to see to. Takes no memory.
pub fn write_unreliable(
    buf: &mut [u8],
    at: usize,
    head: Head,
    unreliable: u16,
    payload: &[u8],
) -> Option<usize>
    requires { length payload.now < 2 ^ 16 }
    ensures written { IfSome result (λ end. Puts buf.old at (canonical (record { head = head; body = send_unreliable unreliable payload.now })) buf.new end) }
    ensures fits { IsSome result ↔ (at + length (canonical (record { head = head; body = send_unreliable unreliable payload.now })) ≤ length buf.old) }
    ensures unchanged { IfNone result (buf.new ≡ buf.old) }
    ensures spells { IfSome result (λ end. Spells (canonical (record { head = head; body = send_unreliable unreliable payload.now })) (record { head = head; body = send_unreliable unreliable payload.now })) }
{
    if !has_room(buf, at, 8 + payload.len()) {
        return None;
    }
    let at = put_head(buf, at, 7, head);
    let at = put_two_u16(buf, at, unreliable, payload.len() as u16);
    Some(put(buf, at, payload))
}

/// Writes the command at a place of the buffer and gives the place after it; no other byte changes. A payload has at most
/// 65,535 bytes: that is the caller's to see to. None exactly where the command doesn't fit, with nothing changed. Takes no
/// memory.
pub fn write_command(buf: &mut [u8], at: usize, command: &Command<'_>) -> Option<usize>
    requires { length (payload_of (view command.now).body) < 2 ^ 16 }
    ensures written { IfSome result (λ end. Puts buf.old at (canonical (view command.now)) buf.new end) }
    ensures fits { IsSome result ↔ (at + length (canonical (view command.now)) ≤ length buf.old) }
    ensures unchanged { IfNone result (buf.new ≡ buf.old) }
    ensures spells { IfSome result (λ end. Spells (canonical (view command.now)) (view command.now)) }
{
    if !has_room(buf, at, len_of(command)) {
        return None;
    }
    Some(put_command(buf, at, command))
}
