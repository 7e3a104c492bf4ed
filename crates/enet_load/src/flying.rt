//! Rows with much in flight, of which something is acknowledged.

use crate::worst::Size;
use anyhow::Result;
use enet_codec::RELIABLE;
use enet_testbed::{Digest, House, rest};
use std::alloc::Global;

/// Over how many channels what is in flight is spread.
const CHANNELS: u8 = 4;

/// The channels of a peer that has all of them.
const ALL: u8 = 255;

/// So many packets of 500 bytes a window of 65,536 lets go at once.
const AT_ONCE: u32 = 131;

/// Each peer has so many commands in flight on four channels, and acknowledges the oldest one every PACE milliseconds, for COUNT
/// milliseconds of 1 ms. Nobody asks when something is due.
pub fn take_oldest(alloc: Global, seed: u64, size: Size) -> Result<Digest> {
    let mut house = fill(alloc, seed, size)?;
    take_oldest_in(&mut house, size)?;
    Ok(house.digest)
}

fn take_oldest_in(house: &mut House, size: Size) -> Result<()> {
    let sent = house.clock;
    for ms in 0..size.count {
        house.tick(1);
        if ms % size.pace.max(1) == 0 {
            acknowledge_all(house, ms / size.pace.max(1), sent)?;
        }
        house.send_all();
    }
    Ok(())
}

/// The same with the newest one, COUNT times: every PACE milliseconds, or where PACE is 0 with no time between.
pub fn take_newest(alloc: Global, seed: u64, size: Size) -> Result<Digest> {
    let mut house = fill(alloc, seed, size)?;
    take_newest_in(&mut house, size)?;
    Ok(house.digest)
}

fn take_newest_in(house: &mut House, size: Size) -> Result<()> {
    let sent = house.clock;
    for round in 0..size.count {
        let place = size.commands.saturating_sub(1).saturating_sub(round);
        acknowledge_all(house, place, sent)?;
        house.send_all();
        rest(house, size.pace);
    }
    Ok(())
}

// All slots have a peer with so many commands in flight.
fn fill(alloc: Global, seed: u64, size: Size) -> Result<House> {
    let mut house = House::open(alloc, seed, size.slots, CHANNELS)?;
    fill_all(&mut house, size)?;
    Ok(house)
}

fn fill_all(house: &mut House, size: Size) -> Result<()> {
    house.invite(size.slots, CHANNELS)?;
    house.delay(CHANNELS)?;
    for number in 0..house.len() {
        tell_many(house, number, size.commands)?;
    }
    house.send_all();
    Ok(())
}

fn tell_many(house: &mut House, number: usize, commands: u32) -> Result<()> {
    let guest = house.guest(number)?;
    for command in 0..commands {
        house.tell(guest, channel_of(command), RELIABLE, 0)?;
    }
    Ok(())
}

// Each peer acknowledges the command at this place among those that went in order. Number 1 of each channel had gone before.
fn acknowledge_all(house: &mut House, place: u32, sent: u32) -> Result<()> {
    let number = (place / u32::from(CHANNELS) % 65_536) as u16;
    for guest in 0..house.len() {
        let guest = house.guest(guest)?;
        house.acknowledge(guest, channel_of(place), number.wrapping_add(2), sent)?;
    }
    Ok(())
}

fn channel_of(command: u32) -> u8 {
    (command % u32::from(CHANNELS)) as u8
}

/// Each peer has 255 channels with so many packets of 500 bytes each, more than its window lets go. The oldest one in flight is
/// acknowledged every PACE milliseconds, for COUNT milliseconds of 1 ms.
pub fn block(alloc: Global, seed: u64, size: Size) -> Result<Digest> {
    let mut house = House::open(alloc, seed, size.slots, ALL)?;
    fill_channels(&mut house, size)?;
    release_by_turns(&mut house, size)?;
    Ok(house.digest)
}

fn fill_channels(house: &mut House, size: Size) -> Result<()> {
    house.invite(size.slots, ALL)?;
    house.delay(ALL)?;
    for round in 0..size.commands.saturating_mul(u32::from(ALL)) {
        tell_each(house, (round % u32::from(ALL)) as u8)?;
    }
    house.send_all();
    Ok(())
}

fn release_by_turns(house: &mut House, size: Size) -> Result<()> {
    let began = house.clock;
    let pace = size.pace.max(1);
    for ms in 0..size.count {
        house.tick(1);
        if ms % pace == 0 {
            release(house, ms / pace, sent_at(began, ms / pace, pace))?;
        }
        house.send_all();
    }
    Ok(())
}

// When the packet at this place went: the first ones at the beginning, and each other as the one that stands AT_ONCE before it was released.
fn sent_at(began: u32, place: u32, pace: u32) -> u32 {
    if place < AT_ONCE {
        return began;
    }
    let behind = (place - AT_ONCE).wrapping_mul(pace);
    began.wrapping_add(behind).wrapping_add(1)
}

fn tell_each(house: &mut House, channel: u8) -> Result<()> {
    for number in 0..house.len() {
        let guest = house.guest(number)?;
        house.tell(guest, channel, RELIABLE, 500)?;
    }
    Ok(())
}

// Each peer acknowledges the packet that went at this place, and at that time. The channels' turns go round, and number 1 of each had gone
// before.
fn release(house: &mut House, place: u32, sent: u32) -> Result<()> {
    let channel = (place % u32::from(ALL)) as u8;
    let number = (place / u32::from(ALL) % 65_536) as u16;
    for guest in 0..house.len() {
        let guest = house.guest(guest)?;
        house.acknowledge(guest, channel, number.wrapping_add(2), sent)?;
    }
    Ok(())
}
