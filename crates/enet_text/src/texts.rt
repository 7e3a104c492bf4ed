//! The lines that tell a header, a command and a stop, each put behind the text that is there.

ghost use Rattle.std.specs.Prelude.{◌≡◌, ◌++◌, codes, if◌then◌else◌, [], OnOk};
ghost use Rattle.std.specs.Fmt.{decimal};
ghost use Rattle.std.specs.String.{string_bytes};
ghost use Rattle.enet_codec.specs.Message.{view};
ghost use Rattle.enet_text.specs.InspectTexts.{command_line, fields_text, flag_text, fragment_text, head_text, header_line, id_text, limits_text, name_of, offer_text, payload_text, peer_text, sent_text, sessions_text, sizes_text, stop_line, throttle_text, verify_text};

use crate::body::{Bodies, push_body};
use crate::pushing::{push_bytes, push_number};
use enet_codec::{Command, Fragment, Head, Header, NO_PEER, Offer, Stop, Verify};
use std::alloc::AllocError;

/// The line of a header. An error where there is no memory for it.
pub(crate) fn push_header_line(text: &mut String, header: &Header) -> Result<(), AllocError>
    ensures { OnOk result (string_bytes text.new ≡ string_bytes text.old ++ header_line header.now) }
{
    text.push_str("  peer ")?;
    push_peer(text, header.peer)?;
    push_number(text, " session ", header.session)?;
    push_flag(text, " compressed", header.compressed)?;
    push_sent(text, header.sent)?;
    text.push_str("\n")?;
    Ok(())
}

fn push_peer(text: &mut String, peer: u16) -> Result<(), AllocError>
    ensures { OnOk result (string_bytes text.new ≡ string_bytes text.old ++ peer_text peer) }
{
    if peer == NO_PEER {
        text.push_str("none")?;
    } else {
        push_number(text, "", peer)?;
    }
    Ok(())
}

fn push_sent(text: &mut String, sent: Option<u16>) -> Result<(), AllocError>
    ensures { OnOk result (string_bytes text.new ≡ string_bytes text.old ++ sent_text sent) }
{
    match sent {
        None => Ok(()),
        Some(time) => push_number(text, " sent ", time),
    }
}

/// The line of a stop: its number and name, the place in the datagram, and the bytes from there on. An error where there is
/// no memory for it.
pub(crate) fn push_stop_line(
    text: &mut String,
    stop: Stop,
    place: usize,
    rest: &[u8],
) -> Result<(), AllocError>
    ensures { OnOk result (string_bytes text.new ≡ string_bytes text.old ++ stop_line stop place rest.now) }
{
    text.push_str("  ")?;
    text.push_str(stop.label())?;
    push_number(text, " at byte ", place)?;
    text.push_str(": ")?;
    push_bytes(text, rest)?;
    text.push_str("\n")?;
    Ok(())
}

/// The line of a command. An error where there is no memory for it.
pub(crate) fn push_command_line(
    text: &mut String,
    bodies: Bodies,
    command: &Command<'_>,
) -> Result<(), AllocError>
    ensures { OnOk result (string_bytes text.new ≡ string_bytes text.old ++ command_line bodies (view command.now)) }
{
    let (name, head) = named(command);
    text.push_str("  ")?;
    text.push_str(name)?;
    push_head(text, head)?;
    push_fields(text, bodies, command)?;
    text.push_str("\n")?;
    Ok(())
}

// The name of a command, and its head.
fn named(command: &Command<'_>) -> (&'static str, Head)
    ensures name { result.0.now ≡ name_of (view command.now).body }
    ensures head { result.1 ≡ (view command.now).head }
{
    match *command {
        Command::Acknowledge { head, .. } => ("ACKNOWLEDGE", head),
        Command::Connect { head, .. } => ("CONNECT", head),
        Command::VerifyConnect { head, .. } => ("VERIFY_CONNECT", head),
        Command::Disconnect { head, .. } => ("DISCONNECT", head),
        Command::Ping { head } => ("PING", head),
        Command::SendReliable { head, .. } => ("SEND_RELIABLE", head),
        Command::SendUnreliable { head, .. } => ("SEND_UNRELIABLE", head),
        Command::SendFragment { head, .. } => ("SEND_FRAGMENT", head),
        Command::SendUnsequenced { head, .. } => ("SEND_UNSEQUENCED", head),
        Command::BandwidthLimit { head, .. } => ("BANDWIDTH_LIMIT", head),
        Command::ThrottleConfigure { head, .. } => ("THROTTLE_CONFIGURE", head),
        Command::SendUnreliableFragment { head, .. } => ("SEND_UNRELIABLE_FRAGMENT", head),
    }
}

fn push_flag(text: &mut String, name: &str, set: bool) -> Result<(), AllocError>
    ensures { OnOk result (string_bytes text.new ≡ string_bytes text.old ++ flag_text name.now set) }
{
    if set {
        text.push_str(name)?;
    }
    Ok(())
}

fn push_head(text: &mut String, head: Head) -> Result<(), AllocError>
    ensures { OnOk result (string_bytes text.new ≡ string_bytes text.old ++ head_text head) }
{
    push_number(text, " channel ", head.channel)?;
    push_number(text, " number ", head.number)?;
    push_flag(text, " acknowledge", head.acknowledge)?;
    push_flag(text, " unsequenced", head.unsequenced)?;
    Ok(())
}

// The fields of a command, its payload among them.
fn push_fields(text: &mut String, bodies: Bodies, command: &Command<'_>) -> Result<(), AllocError>
    ensures { OnOk result (string_bytes text.new ≡ string_bytes text.old ++ fields_text bodies (view command.now).body) }
{
    match *command {
        Command::Acknowledge {
            received_number,
            received_time,
            ..
        } => push_received(text, received_number, received_time),
        Command::Connect { offer, .. } => push_offer(text, offer),
        Command::VerifyConnect { verify, .. } => push_verify(text, verify),
        Command::Disconnect { info, .. } => push_number(text, " info ", info),
        Command::Ping { .. } => Ok(()),
        Command::SendReliable { payload, .. } => push_payload(text, bodies, payload),
        Command::SendUnreliable {
            unreliable,
            payload,
            ..
        } => push_numbered(text, bodies, " unreliable ", unreliable, payload),
        Command::SendFragment {
            fragment,
            payload,
            ..
        } => push_fragment(text, bodies, fragment, payload),
        Command::SendUnsequenced { group, payload, .. } => {
            push_numbered(text, bodies, " group ", group, payload)
        }
        Command::BandwidthLimit {
            incoming,
            outgoing,
            ..
        } => push_limits(text, incoming, outgoing),
        Command::ThrottleConfigure {
            interval,
            acceleration,
            deceleration,
            ..
        } => push_throttle(text, interval, acceleration, deceleration),
        Command::SendUnreliableFragment {
            fragment,
            payload,
            ..
        } => push_fragment(text, bodies, fragment, payload),
    }
}

// What an acknowledgement acknowledges.
fn push_received(text: &mut String, number: u16, time: u16) -> Result<(), AllocError>
    ensures { OnOk result (string_bytes text.new
        ≡ string_bytes text.old ++ (codes " received_number " ++ decimal number ++ codes " received_time " ++ decimal time)) }
{
    push_number(text, " received_number ", number)?;
    push_number(text, " received_time ", time)?;
    Ok(())
}

fn push_payload(text: &mut String, bodies: Bodies, payload: &[u8]) -> Result<(), AllocError>
    ensures { OnOk result (string_bytes text.new ≡ string_bytes text.old ++ payload_text bodies payload.now) }
{
    push_number(text, " length ", payload.len())?;
    text.push_str(" payload ")?;
    push_body(text, bodies, payload)?;
    Ok(())
}

// A number of the packet, by its name, and the payload.
fn push_numbered(
    text: &mut String,
    bodies: Bodies,
    name: &str,
    number: u16,
    payload: &[u8],
) -> Result<(), AllocError>
    ensures { OnOk result (string_bytes text.new
        ≡ string_bytes text.old ++ (name.now ++ decimal number ++ payload_text bodies payload.now)) }
{
    push_number(text, name, number)?;
    push_payload(text, bodies, payload)?;
    Ok(())
}

fn push_fragment(
    text: &mut String,
    bodies: Bodies,
    fragment: Fragment,
    payload: &[u8],
) -> Result<(), AllocError>
    ensures { OnOk result (string_bytes text.new ≡ string_bytes text.old ++ fragment_text bodies fragment payload.now) }
{
    push_number(text, " start ", fragment.start)?;
    push_number(text, " fragment ", fragment.number)?;
    push_number(text, " count ", fragment.count)?;
    push_number(text, " offset ", fragment.offset)?;
    push_number(text, " total ", fragment.total)?;
    push_payload(text, bodies, payload)?;
    Ok(())
}

fn push_offer(text: &mut String, offer: Offer) -> Result<(), AllocError>
    ensures { OnOk result (string_bytes text.new ≡ string_bytes text.old ++ offer_text offer) }
{
    push_sessions(
        text,
        offer.outgoing_peer,
        offer.incoming_session,
        offer.outgoing_session,
    )?;
    push_sizes(text, offer.mtu, offer.window, offer.channels)?;
    push_limits(text, offer.incoming_bandwidth, offer.outgoing_bandwidth)?;
    push_throttle(
        text,
        offer.throttle_interval,
        offer.acceleration,
        offer.deceleration,
    )?;
    push_id(text, offer.connect_id)?;
    push_number(text, " info ", offer.info)?;
    Ok(())
}

fn push_verify(text: &mut String, verify: Verify) -> Result<(), AllocError>
    ensures { OnOk result (string_bytes text.new ≡ string_bytes text.old ++ verify_text verify) }
{
    push_sessions(
        text,
        verify.outgoing_peer,
        verify.incoming_session,
        verify.outgoing_session,
    )?;
    push_sizes(text, verify.mtu, verify.window, verify.channels)?;
    push_limits(text, verify.incoming_bandwidth, verify.outgoing_bandwidth)?;
    push_throttle(
        text,
        verify.throttle_interval,
        verify.acceleration,
        verify.deceleration,
    )?;
    push_id(text, verify.connect_id)?;
    Ok(())
}

fn push_sessions(text: &mut String, peer: u16, incoming: u8, outgoing: u8) -> Result<(), AllocError>
    ensures { OnOk result (string_bytes text.new ≡ string_bytes text.old ++ sessions_text peer incoming outgoing) }
{
    push_number(text, " outgoing_peer ", peer)?;
    push_number(text, " incoming_session ", incoming)?;
    push_number(text, " outgoing_session ", outgoing)?;
    Ok(())
}

fn push_sizes(text: &mut String, mtu: u32, window: u32, channels: u32) -> Result<(), AllocError>
    ensures { OnOk result (string_bytes text.new ≡ string_bytes text.old ++ sizes_text mtu window channels) }
{
    push_number(text, " mtu ", mtu)?;
    push_number(text, " window ", window)?;
    push_number(text, " channels ", channels)?;
    Ok(())
}

fn push_limits(text: &mut String, incoming: u32, outgoing: u32) -> Result<(), AllocError>
    ensures { OnOk result (string_bytes text.new ≡ string_bytes text.old ++ limits_text incoming outgoing) }
{
    push_number(text, " incoming_bandwidth ", incoming)?;
    push_number(text, " outgoing_bandwidth ", outgoing)?;
    Ok(())
}

fn push_throttle(
    text: &mut String,
    interval: u32,
    acceleration: u32,
    deceleration: u32,
) -> Result<(), AllocError>
    ensures { OnOk result (string_bytes text.new
        ≡ string_bytes text.old ++ throttle_text interval acceleration deceleration) }
{
    push_number(text, " throttle_interval ", interval)?;
    push_number(text, " acceleration ", acceleration)?;
    push_number(text, " deceleration ", deceleration)?;
    Ok(())
}

// A connect id, as eight hex digits.
fn push_id(text: &mut String, id: u32) -> Result<(), AllocError>
    ensures { OnOk result (string_bytes text.new ≡ string_bytes text.old ++ id_text id) }
{
    text.push_str(" connect_id ")?;
    push_bytes(text, &id.to_be_bytes())?;
    Ok(())
}
