//! Large packets: maps to those who join, saves and patches, with others beside them.

use anyhow::{Result, bail};
use enet_codec::{RELIABLE, UNRELIABLE_FRAGMENT};
use enet_testbed::{Line, Plan, Rule, World};
use std::alloc::Global;

/// How many clients there are.
const CLIENTS: u8 = 6;

/// In how many steps all must have come.
const MOST_STEPS: u32 = 100_000;

/// The line: 6 ms each way, and no loss.
const LINE: Line = Line {
    lost: 0,
    repeated: 0,
    least: 3,
    spread: 0,
};

/// A server of 16 slots that keeps what comes.
pub fn plan(asks: bool) -> Plan {
    Plan {
        slots: 16,
        channels: 4,
        line: LINE,
        rule: Rule::Keep,
        ms: 2,
        every: 1,
        asks,
    }
}

/// Six clients come. So many times each gets a reliable packet of 20,000 bytes to 4 MB, and one of them sends such a packet; beside it the
/// server sends unreliable ones of 5,000 bytes.
pub fn carry(alloc: Global, world: &mut World, times: u32) -> Result<()> {
    for _ in 0..CLIENTS {
        world.join(4)?;
    }
    for _ in 0..20 {
        world.step()?;
    }
    for _ in 0..times {
        give(alloc, world)?;
    }
    Ok(())
}

// A length of 20,000 bytes to 4 MB, short ones more often.
fn drawn_len(world: &mut World) -> u32 {
    let most = match world.draw.below(4) {
        0 => 4_000_000,
        1 => 1_000_000,
        _ => 200_000,
    };
    20_000 + world.draw.below(most)
}

fn give(alloc: Global, world: &mut World) -> Result<()> {
    let len = drawn_len(world);
    let body = world.draw.body(alloc, len as usize)?;
    for place in 0..usize::from(CLIENTS) {
        world.tell(place, 0, RELIABLE, body.clone()?)?;
    }
    let client = world.draw.below(u32::from(CLIENTS)) as usize;
    let upload = world.draw.body(alloc, (len / 2) as usize)?;
    world.say(client, 1, RELIABLE, upload)?;
    let all = world.taken().wrapping_add(u64::from(CLIENTS) + 1);
    for step in 0..MOST_STEPS {
        if world.taken() == all {
            return Ok(());
        }
        if step % 16 == 0 {
            show(alloc, world)?;
        }
        world.step()?;
    }
    bail!("not all came")
}

fn show(alloc: Global, world: &mut World) -> Result<()> {
    let body = world.draw.body(alloc, 5000)?;
    let place = world.draw.below(u32::from(CLIENTS)) as usize;
    world.tell(place, 2, UNRELIABLE_FRAGMENT, body)
}
