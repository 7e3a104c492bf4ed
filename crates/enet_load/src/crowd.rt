//! Many slots: a rush of joins at a host of 4,095, some hundreds of peers that talk now and then, and strangers.

use anyhow::Result;
use enet_codec::{Addr, Config, RELIABLE};
use enet_host::HostCore;
use enet_testbed::{Line, Plan, Rule, World, address};
use std::alloc::Global;

/// How many clients there are in the end.
const CLIENTS: u32 = 3500;

/// How many of them talk.
const TALKERS: u32 = 300;

/// The line: 20 to 60 ms each way, in steps of 10 ms.
const LINE: Line = Line {
    lost: 5,
    repeated: 2,
    least: 2,
    spread: 4,
};

/// A host of 4,095 slots that hands each packet to eight others.
pub fn plan(asks: bool) -> Plan {
    Plan {
        slots: 4095,
        channels: 2,
        line: LINE,
        rule: Rule::Next(8),
        ms: 10,
        every: 16,
        asks,
    }
}

/// For so many steps of 10 ms clients come, 40 a step until there are 3,500. 300 of them talk, each to eight others; strangers ask for
/// connections and send what nobody can read.
pub fn gather(alloc: Global, world: &mut World, steps: u32) -> Result<()> {
    for step in 0..steps {
        if step < CLIENTS / 40 {
            join_some(world)?;
        }
        speak(alloc, world)?;
        intrude(alloc, world, step)?;
        world.step()?;
    }
    Ok(())
}

// 40 clients more.
fn join_some(world: &mut World) -> Result<()> {
    for _ in 0..40 {
        world.join(2)?;
    }
    Ok(())
}

// Some of those who talk do.
fn speak(alloc: Global, world: &mut World) -> Result<()> {
    for _ in 0..12 {
        let client = world.draw.below(TALKERS) as usize;
        let flags = if world.draw.below(2) == 0 {
            RELIABLE
        } else {
            0
        };
        let len = world.draw.below(49) as usize + 12;
        let body = world.draw.body(alloc, len)?;
        world.say(client, 0, flags, body)?;
    }
    Ok(())
}

// Strangers: four ask for connections, two send junk, one of them in a client's name.
fn intrude(alloc: Global, world: &mut World, step: u32) -> Result<()> {
    for _ in 0..4 {
        ask(alloc, world)?;
    }
    let len = world.draw.below(200) as usize + 1;
    let junk = world.draw.bytes(alloc, len)?;
    let from = stranger(world.draw.word());
    world.hear(from, junk.as_slice());
    let client = (step % 3500) as u16;
    world.hear(address(client.wrapping_add(1)), junk.as_slice());
    Ok(())
}

fn ask(alloc: Global, world: &mut World) -> Result<()> {
    let mut host = HostCore::open(alloc, Config::standard(1, 2))?;
    ask_as(&mut host, world)
}

fn ask_as(host: &mut HostCore, world: &mut World) -> Result<()> {
    let word = world.draw.word();
    let from = stranger(world.draw.word());
    host.connect(address(0), 2, 0, word)?;
    let mut buf = [0; 4096];
    if let Some((_, _, len)) = host.service(&mut buf) {
        world.hear(from, &buf[..len]);
    }
    Ok(())
}

fn stranger(word: u32) -> Addr {
    Addr {
        ip: 0x0b00_0000 + word % 0x10_0000,
        port: (word >> 16) as u16,
    }
}
