//! A bad line: loss, repeats, datagrams out of order, long ways, and much in flight.

use anyhow::Result;
use enet_codec::{RELIABLE, UNRELIABLE_FRAGMENT, UNSEQUENCED};
use enet_testbed::{Line, Plan, Rule, World};
use std::alloc::Global;

/// How many clients there are.
const CLIENTS: u8 = 12;

/// How many channels a client asks for, by its place.
const CHANNELS: [u8; 4] = [2, 4, 16, 255];

/// The line: 5 % lost, 3 % repeated, 40 to 150 ms each way.
const LINE: Line = Line {
    lost: 50,
    repeated: 30,
    least: 40,
    spread: 110,
};

/// A server of 20 slots and 255 channels that keeps what comes.
pub fn plan(asks: bool) -> Plan {
    Plan {
        slots: 20,
        channels: 255,
        line: LINE,
        rule: Rule::Keep,
        ms: 1,
        every: 1,
        asks,
    }
}

/// 12 clients come and talk for so many steps of 1 ms over a bad line, some with 255 channels. The server tells each of them where all
/// things are, and of many things at once that have changed.
pub fn struggle(alloc: Global, world: &mut World, steps: u32) -> Result<()> {
    for client in 0..CLIENTS {
        world.join(CHANNELS[usize::from(client % 4)])?;
    }
    for step in 0..steps {
        happen(alloc, world, step)?;
        world.step()?;
    }
    Ok(())
}

// What is submitted in a step: every 33 ms a client's inputs and the server's view of the world, and every four seconds
// hundreds of small things to one of the clients, now and then thousands.
fn happen(alloc: Global, world: &mut World, step: u32) -> Result<()> {
    let place = (step % 33) as usize;
    if place < usize::from(CLIENTS) {
        let flags = if world.draw.below(2) == 0 {
            RELIABLE
        } else {
            0
        };
        let len = world.draw.below(40) as usize + 12;
        let body = world.draw.body(alloc, len)?;
        let channel = world.draw.below(2) as u8;
        world.say(place, channel, flags, body)?;
        view(alloc, world, place)?;
    }
    if step % 333 == 100 {
        let client = world.draw.below(u32::from(CLIENTS)) as usize;
        let count = match world.draw.below(8) {
            0 => 4000,
            _ => world.draw.below(500) + 100,
        };
        change(alloc, world, client, count)?;
    }
    Ok(())
}

fn view(alloc: Global, world: &mut World, place: usize) -> Result<()> {
    let (flags, len) = match world.draw.below(12) {
        0 => (UNRELIABLE_FRAGMENT, 5000),
        1 => (UNSEQUENCED, 100),
        _ => (0, world.draw.below(500) as usize + 60),
    };
    let body = world.draw.body(alloc, len)?;
    world.tell(place, 0, flags, body)
}

fn change(alloc: Global, world: &mut World, place: usize, count: u32) -> Result<()> {
    for _ in 0..count {
        let len = world.draw.below(40) as usize + 20;
        let body = world.draw.body(alloc, len)?;
        let channel = world.draw.below(2) as u8;
        world.tell(place, channel, RELIABLE, body)?;
    }
    Ok(())
}
