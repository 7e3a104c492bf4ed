//! Clients that talk, and a server that hands each of their packets to others: small packets in real proportions.

use anyhow::Result;
use enet_codec::{RELIABLE, UNSEQUENCED};
use enet_testbed::{Line, Plan, Rule, World};
use std::alloc::Global;

/// How many clients there are.
const CLIENTS: u8 = 32;

/// How many channels they use, of those that are open.
const USED: u8 = 4;

/// How many steps of 4 ms a frame of the clients' game has.
const STEPS: u32 = 4;

/// The line: 20 ms each way, 8 ms more at most, now and then a datagram lost.
const LINE: Line = Line {
    lost: 2,
    repeated: 0,
    least: 5,
    spread: 2,
};

/// A server of 40 slots that hands each packet to all others.
pub fn plan(channels: u8, asks: bool) -> Plan {
    Plan {
        slots: 40,
        channels,
        line: LINE,
        rule: Rule::All,
        ms: 4,
        every: 1,
        asks,
    }
}

/// 32 clients come and talk for so many frames of 16 ms, over so many open channels, of which four are used: each submits a packet 40
/// times a second, of 12 to 60 bytes, or of 1,000, and all others get it.
pub fn talk(alloc: Global, world: &mut World, frames: u32, channels: u8) -> Result<()> {
    for _ in 0..CLIENTS {
        world.join(channels)?;
        world.step()?;
    }
    for _ in 0..20 {
        world.step()?;
    }
    for _ in 0..frames {
        frame(alloc, world, channels)?;
    }
    Ok(())
}

fn frame(alloc: Global, world: &mut World, channels: u8) -> Result<()> {
    for client in 0..CLIENTS {
        if world.draw.below(100) < 64 {
            say(alloc, world, usize::from(client), channels)?;
        }
    }
    for _ in 0..STEPS {
        world.step()?;
    }
    Ok(())
}

// Half of the packets are reliable, a third plain, the rest unsequenced.
fn say(alloc: Global, world: &mut World, client: usize, channels: u8) -> Result<()> {
    let flags = match world.draw.below(6) {
        0 | 1 | 2 => RELIABLE,
        3 | 4 => 0,
        _ => UNSEQUENCED,
    };
    let len = match world.draw.below(40) {
        0 => 1000,
        _ => world.draw.below(49) as usize + 12,
    };
    let place = world.draw.below(u32::from(USED)) as u8;
    let step = (channels / USED).max(1);
    let channel = place.wrapping_mul(step) % channels.max(1);
    let body = world.draw.body(alloc, len)?;
    world.say(client, channel, flags, body)
}
