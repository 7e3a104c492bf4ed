//! Captures, of which it is told what they say.

ghost use Rattle.std.specs.Prelude.{◌<◌, ◌^◌, length};
ghost use Rattle.enet_codec.specs.Message.{payload_of, view};

use anyhow::{Result, bail};
use enet_codec::{Command, Fragment, Head, Header, write_command, write_header};
use enet_testbed::{Digest, Draw};
use enet_text::{Bodies, inspect};
use std::alloc::Global;

/// The bytes of a capture, about.
const LENGTH: usize = 1_000_000;

/// The bytes of a large piece.
const PIECE: usize = 1364;

/// The most packets of one capture.
const PACKETS: u32 = 100_000;

/// Where a capture's packets begin: pcap, of raw IP.
const BEGINNING: [u8; 24] = [
    0xd4, 0xc3, 0xb2, 0xa1, 2, 0, 4, 0, 0, 0, 0, 0, 0, 0, 0, 0, 0, 0, 4, 0, 101, 0, 0, 0,
];

/// So many captures of 1 MB are told: small datagrams with many commands, some with large pieces, some that can't be read.
pub fn tell(alloc: Global, seed: u64, captures: u32) -> Result<Digest> {
    let mut draw = Draw::new(seed);
    let mut digest = Digest::new();
    for _ in 0..captures {
        let capture = capture(alloc, &mut draw)?;
        let mut bytes = capture.as_slice();
        inspect(alloc, Bodies::Short, &mut bytes, &mut digest)?;
    }
    Ok(digest)
}

fn capture(alloc: Global, draw: &mut Draw) -> Result<Vec<u8>> {
    let mut capture = Vec::with_capacity(alloc, LENGTH)?;
    capture.extend_from_slice(&BEGINNING)?;
    let mut payload = [0; PIECE];
    for byte in &mut payload {
        *byte = draw.below(256) as u8;
    }
    let mut buf = [0; 1400];
    for number in 0..PACKETS {
        if capture.len() >= LENGTH {
            break;
        }
        let len = datagram(draw, &payload, &mut buf);
        put_packet(&mut capture, &buf[..len.min(1400)], number)?;
    }
    Ok(capture)
}

// A datagram; of 40 one has a byte changed.
fn datagram(draw: &mut Draw, payload: &[u8; PIECE], buf: &mut [u8; 1400]) -> usize {
    let header = Header {
        peer: draw.below(40) as u16,
        session: draw.below(4) as u8,
        compressed: false,
        sent: Some(draw.short()),
    };
    let Some(start) = write_header(buf, 0, &header) else {
        return 0;
    };
    let mut at = start;
    for _ in 0..draw.below(10) + 1 {
        let command = command(draw, payload);
        match write_command(buf, at, &command) {
            Some(end) => at = end,
            None => break,
        }
    }
    if draw.below(40) == 0 {
        let place = draw.below(64) as usize;
        buf[place] = draw.below(256) as u8;
    }
    at
}

fn command<'a>(draw: &mut Draw, payload: &'a [u8; PIECE]) -> Command<'a>
    ensures { length (payload_of (view result).body) < 2 ^ 16 }
{
    let head = Head {
        acknowledge: draw.below(2) == 0,
        unsequenced: false,
        channel: draw.below(4) as u8,
        number: draw.short(),
    };
    let small = &payload[..draw.below(49) as usize + 12];
    match draw.below(24) {
        0 => Command::SendFragment {
            head,
            fragment: piece(draw),
            payload,
        },
        1 => Command::Ping { head },
        2..=4 => Command::SendUnsequenced {
            head,
            group: draw.short(),
            payload: small,
        },
        5..=9 => Command::SendUnreliable {
            head,
            unreliable: draw.short(),
            payload: small,
        },
        10..=16 => Command::SendReliable {
            head,
            payload: small,
        },
        _ => Command::Acknowledge {
            head,
            received_number: draw.short(),
            received_time: draw.short(),
        },
    }
}

fn piece(draw: &mut Draw) -> Fragment {
    Fragment {
        start: draw.short(),
        count: 1000,
        number: draw.below(1000),
        total: 1_364_000,
        offset: draw.below(1000) * 1364,
    }
}

// A packet of a capture: its times and lengths, IPv4, UDP and the datagram.
fn put_packet(capture: &mut Vec<u8>, datagram: &[u8], number: u32) -> Result<()> {
    let Ok(len) = u16::try_from(datagram.len()) else {
        bail!("a datagram is too long");
    };
    let kept = u32::from(len) + 28;
    capture.extend_from_slice(&(number / 1000).to_le_bytes())?;
    capture.extend_from_slice(&(number % 1000 * 1000).to_le_bytes())?;
    capture.extend_from_slice(&kept.to_le_bytes())?;
    capture.extend_from_slice(&kept.to_le_bytes())?;
    capture.extend_from_slice(&[0x45, 0])?;
    capture.extend_from_slice(&len.wrapping_add(28).to_be_bytes())?;
    capture.extend_from_slice(&[0, 0, 0, 0, 64, 17, 0, 0, 10, 0, 0, 1, 10, 0, 0, 2])?;
    capture.extend_from_slice(&[0x30, 0x39, 0xb7, 0x99])?;
    capture.extend_from_slice(&len.wrapping_add(8).to_be_bytes())?;
    capture.extend_from_slice(&[0, 0])?;
    capture.extend_from_slice(datagram)?;
    Ok(())
}
