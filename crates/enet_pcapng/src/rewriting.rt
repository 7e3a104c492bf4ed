//! A capture is rewritten, block by block.

ghost use Rattle.std.specs.Prelude.{◌≡◌, ◌++◌, ◌∷◌, [], List, ℕ, IfOk, OnOk};
ghost use Rattle.enet_pcapng.specs.Rewritten.{IsRewritten, Takes, first_link, head_text, is_pcapng, no_packet};
ghost use Rattle.enet_pcapng.specs.Interfaces.{IsInterface};
ghost use Rattle.enet_pcapng.specs.declared.interface.Interface.{Interface};

use crate::block::{Block, Order, SECTION, read_block};
use crate::interface::interface_in;
use crate::number::u32_at;
use crate::packet::{Section, packet_in, push_packet};
use std::alloc::{AllocError, Global};

/// The kinds of blocks that are read.
const INTERFACE: u32 = 1;

const PACKET: u32 = 6;

/// Blocks with a packet that aren't read: the first form of a packet, and the one without a time.
const OLD_PACKET: u32 = 2;

const SIMPLE_PACKET: u32 = 3;

/// The link type of raw IP.
const RAW_IP: u16 = 101;

/// Whether an input is a capture in pcapng, by its first four bytes.
pub fn is_pcapng(input: &[u8]) -> bool
    ensures { result ≡ is_pcapng input.now }
{
    match u32_at(input, 0, Order::Big) {
        Some(first) => first == SECTION,
        None => false,
    }
}

/// The classic capture with the packets of one in pcapng, in order, with times in billionths of a second and the link type of the first
/// interface. A packet is one of no bytes there if it isn't whole, has no time, or if its interface isn't there, has another link type or finer
/// times. Where the input is cut short, the classic capture is cut short behind the same packets. An error if there is no memory for it.
pub fn rewrite(alloc: Global, input: &[u8]) -> Result<Vec<u8>, AllocError>
    ensures { IfOk result (λ classic. IsRewritten input.now classic.items) }
{
    let mut section = Section {
        order: Order::Big,
        interfaces: Vec::new(alloc),
        link: None,
    };
    let mut packets = Vec::new(alloc);
    let mut rest = input;
    'blocks: while !rest.is_empty() {
        let Some((block, behind)) = read_block(section.order, rest) else {
            packets.push(0)?;
            return with_head(alloc, section.link, packets.as_slice());
        };
        take_block(&mut section, &mut packets, block)?;
        rest = behind;
    }
    with_head(alloc, section.link, packets.as_slice())
}

// The packets behind the head of a classic capture.
fn with_head(alloc: Global, link: Option<u16>, packets: &[u8]) -> Result<Vec<u8>, AllocError>
    ensures { IfOk result (λ classic. classic.items ≡ head_text link ++ packets.now) }
{
    let mut classic = Vec::new(alloc);
    classic.extend_from_slice(&0xa1b2_3c4du32.to_be_bytes())?;
    classic.extend_from_slice(&0x0002_0004u32.to_be_bytes())?;
    classic.extend_from_slice(&[0; 8])?;
    classic.extend_from_slice(&0x0004_0000u32.to_be_bytes())?;
    classic.extend_from_slice(&u32::from(link.unwrap_or(RAW_IP)).to_be_bytes())?;
    classic.extend_from_slice(packets)?;
    Ok(classic)
}

// What a block does.
fn take_block(
    section: &mut Section,
    packets: &mut Vec<u8>,
    block: Block<'_>,
) -> Result<(), AllocError>
    ensures { OnOk result ((more : List ℕ) × Takes section.old section.new block.entry more × (packets.new.items ≡ packets.old.items ++ more)) }
{
    match block.kind {
        SECTION => {
            section.order = block.order;
            section.interfaces.clear();
            Ok(())
        }
        INTERFACE => note_interface(section, block.body),
        PACKET => match packet_in(section, block.body) {
            Some(packet) => push_packet(packets, packet),
            None => push_nothing(packets),
        },
        OLD_PACKET | SIMPLE_PACKET => push_nothing(packets),
        _ => Ok(()),
    }
}

// A section has another interface.
fn note_interface(section: &mut Section, body: &[u8]) -> Result<(), AllocError>
    ensures { OnOk result ((interface : Interface) × IsInterface section.old.order body.now interface × (section.new.order ≡ section.old.order)
        × (section.new.interfaces.items ≡ section.old.interfaces.items ++ (interface ∷ [])) × (section.new.link ≡ first_link section.old.link interface.link)) }
{
    let interface = interface_in(section.order, body);
    section.link = Some(section.link.unwrap_or(interface.link));
    section.interfaces.push(interface)?;
    Ok(())
}

// A packet of no bytes.
fn push_nothing(packets: &mut Vec<u8>) -> Result<(), AllocError>
    ensures { OnOk result (packets.new.items ≡ packets.old.items ++ no_packet) }
{
    packets.extend_from_slice(&[0; 16])
}
