//! The texts of answers, without the line feed that ends a line.

ghost use Rattle.std.specs.Prelude.{◌≡◌, ◌++◌, codes, IfOk, OnOk};
ghost use Rattle.std.specs.Fmt.{decimal};
ghost use Rattle.std.specs.String.{string_bytes};
ghost use Rattle.enet_codec.specs.Refusal.{label_of};
ghost use Rattle.enet_text.specs.Texts.{address_text, bytes_text, event_text, peer_text, received_text};

use crate::pushing::{push_bytes, push_number};
use enet_codec::{Addr, Event, Packet, PeerRef, Received, Refusal};
use std::alloc::{AllocError, Global};

/// So few bytes are sooner written in hex digit by digit than all at once.
const FEW: usize = 24;

/// A refusal: its number and its name. An error where there is no memory for the text.
pub fn refusal_text(alloc: Global, refusal: Refusal) -> Result<String, AllocError>
    ensures { IfOk result (λ text. string_bytes text ≡ label_of refusal) }
{
    String::from_str(alloc, refusal.label())
}

/// A peer as `slot.generation`. An error where there is no memory for the text.
pub fn peer_text(alloc: Global, peer: PeerRef) -> Result<String, AllocError>
    ensures { IfOk result (λ text. string_bytes text ≡ peer_text peer) }
{
    let PeerRef { slot, generation } = peer;
    format!(in alloc; "{slot}.{generation}")
}

/// An address in dotted decimals, and its port behind a colon. An error where there is no memory for the text.
pub fn address_text(alloc: Global, addr: Addr) -> Result<String, AllocError>
    ensures { IfOk result (λ text. string_bytes text ≡ address_text addr) }
{
    let mut text = String::new(alloc);
    push_address(&mut text, addr)?;
    Ok(text)
}

/// What `address_text` gives, put behind the text that is there. An error where there is no memory for it.
pub(crate) fn push_address(text: &mut String, addr: Addr) -> Result<(), AllocError>
    ensures { OnOk result (string_bytes text.new ≡ string_bytes text.old ++ address_text addr) }
{
    let [first, second, third, fourth] = addr.ip.to_be_bytes();
    push_number(text, "", first)?;
    push_number(text, ".", second)?;
    push_number(text, ".", third)?;
    push_number(text, ".", fourth)?;
    push_number(text, ":", addr.port)?;
    Ok(())
}

/// What came of a datagram: how many commands were handled, and the number of the stop, if there was one. An error
/// where there is no memory for the text.
pub fn received_text(alloc: Global, received: Received) -> Result<String, AllocError>
    ensures { IfOk result (λ text. string_bytes text ≡ received_text received) }
{
    let handled = received.handled;
    match received.stop {
        None => format!(in alloc; "handled {handled}"),
        Some(stop) => {
            let number = stop.number();
            format!(in alloc; "handled {handled} stop S{number}")
        }
    }
}

/// An event that was taken. An error where there is no memory for the text.
pub fn event_text(alloc: Global, event: &Event) -> Result<String, AllocError>
    ensures { IfOk result (λ text. string_bytes text ≡ event_text event.now) }
{
    match event {
        Event::Connect { peer, info } => connection_text(alloc, "connect", *peer, *info),
        Event::Receive { peer, packet } => receive_text(alloc, *peer, packet),
        Event::Disconnect { peer, info } => connection_text(alloc, "disconnect", *peer, *info),
        Event::Refused { why, .. } => refusal_text(alloc, *why),
    }
}

fn connection_text(
    alloc: Global,
    name: &str,
    peer: PeerRef,
    info: u32,
) -> Result<String, AllocError>
    ensures { IfOk result (λ text. string_bytes text
        ≡ name.now ++ codes " " ++ peer_text peer ++ codes " data " ++ decimal info) }
{
    let PeerRef { slot, generation } = peer;
    format!(in alloc; "{name} {slot}.{generation} data {info}")
}

fn receive_text(alloc: Global, peer: PeerRef, packet: &Packet) -> Result<String, AllocError>
    ensures { IfOk result (λ text. string_bytes text
        ≡ codes "receive " ++ peer_text peer ++ codes " ch " ++ decimal packet.now.channel ++ codes " flags "
        ++ decimal packet.now.flags ++ codes " " ++ bytes_text packet.now.body) }
{
    let PeerRef { slot, generation } = peer;
    let channel = packet.channel;
    let flags = packet.flags;
    let body = bytes_text(alloc, packet.body.as_slice())?;
    format!(in alloc; "receive {slot}.{generation} ch {channel} flags {flags} {body}")
}

/// Bytes in hex of lower case, or `-` for none. An error where there is no memory for the text.
pub fn bytes_text(alloc: Global, bytes: &[u8]) -> Result<String, AllocError>
    ensures { IfOk result (λ text. string_bytes text ≡ bytes_text bytes.now) }
{
    if (1..=FEW).contains(&bytes.len()) {
        return hex::encode(alloc, bytes);
    }
    let mut text = String::with_capacity(alloc, bytes.len().saturating_mul(2))?;
    push_bytes(&mut text, bytes)?;
    Ok(text)
}
