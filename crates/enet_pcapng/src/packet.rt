//! The packets of a section.

ghost use Rattle.std.specs.Prelude.{◌≡◌, ◌≢◌, ◌+◌, ◌*◌, ◌/◌, ◌%◌, ◌++◌, min, IfSome, IfNone, OnOk};
ghost use Rattle.enet_pcapng.specs.Rewritten.{IsPacket, IsUnreadable, packet_text};

use crate::block::Order;
use crate::interface::Interface;
use crate::number::u32_at;
use std::alloc::AllocError;

/// A section: the order of its numbers, and its interfaces so far. The link type is the one of the capture's first interface.
#[derive(Drop)]
pub(crate) struct Section {
    pub order: Order,
    pub interfaces: Vec<Interface>,
    pub link: Option<u16>,
}

/// A packet: when it was captured, in seconds and billionths of one, and the bytes of it that were kept, with their number.
#[derive(Clone, Copy)]
pub(crate) struct Packet<'a> {
    pub seconds: u32,
    pub parts: u32,
    pub kept: u32,
    pub bytes: &'a [u8],
}

/// The packet in the body of a block. None if it isn't whole, or if its interface isn't there, is of another link type than the first one or
/// has finer times than are read.
pub(crate) fn packet_in<'a>(section: &Section, body: &'a [u8]) -> Option<Packet<'a>>
    ensures packet { IfSome result (λ packet. IsPacket section.now body.now packet) }
    ensures unreadable { IfNone result (IsUnreadable section.now body.now) }
{
    let (_, data) = body.split_at_checked(20)?;
    let index = usize::try_from(u32_at(body, 0, section.order)?).ok()?;
    let interface = *section.interfaces.get(index)?;
    let link = section.link?;
    if interface.units == 0 || link != interface.link {
        return None;
    }
    let high = u32_at(body, 4, section.order)?;
    let low = u32_at(body, 8, section.order)?;
    let kept = u32_at(body, 12, section.order)?;
    let (bytes, _) = data.split_at_checked(usize::try_from(kept).ok()?)?;
    let moment = u64::from(high) * 4_294_967_296 + u64::from(low);
    Some(Packet {
        seconds: seconds_of(moment, interface.units),
        parts: parts_of(moment, interface.units),
        kept,
        bytes,
    })
}

// The whole seconds of a moment, at most as many as 32 bits tell.
fn seconds_of(moment: u64, units: u64) -> u32
    requires { units ≢ 0 }
    ensures { result ≡ min (moment / units) 4294967295 }
{
    u32::try_from(moment / units).unwrap_or(u32::MAX)
}

// The billionths of a second behind them.
fn parts_of(moment: u64, units: u64) -> u32
    requires known { units ≢ 0 }
    ensures { result ≡ min (moment % units * (1000000000 / units)) 4294967295 }
{
    let parts = (moment % units).saturating_mul(1_000_000_000 / units);
    u32::try_from(parts).unwrap_or(u32::MAX)
}

/// Puts a packet behind what is there, as a classic capture has it. An error where there is no memory for it.
pub(crate) fn push_packet(packets: &mut Vec<u8>, packet: Packet<'_>) -> Result<(), AllocError>
    ensures { OnOk result (packets.new.items ≡ packets.old.items ++ packet_text packet.entry) }
{
    let kept = packet.kept.to_be_bytes();
    packets.extend_from_slice(&packet.seconds.to_be_bytes())?;
    packets.extend_from_slice(&packet.parts.to_be_bytes())?;
    packets.extend_from_slice(&kept)?;
    packets.extend_from_slice(&kept)?;
    packets.extend_from_slice(packet.bytes)?;
    Ok(())
}
