//! Rows with slots that rest, of which some are woken.

use crate::worst::{Seconds, Size, Waking};
use anyhow::Result;
use enet_codec::RELIABLE;
use enet_testbed::{Digest, House, rest};
use std::alloc::Global;

/// How many peers talk in the last slots.
const TALKERS: u16 = 8;

/// All slots have something in flight and rest; then each is woken, the highest first. COUNT times.
pub fn wake(alloc: Global, seed: u64, size: Size, waking: Waking) -> Result<Digest> {
    let mut house = House::open(alloc, seed, size.slots, 2)?;
    wake_in(&mut house, size, waking)?;
    Ok(house.digest)
}

fn wake_in(house: &mut House, size: Size, waking: Waking) -> Result<()> {
    house.invite(size.slots, 2)?;
    house.delay(1)?;
    tell_all(house)?;
    for _ in 0..size.count {
        rest(house, 3);
        wake_all(house, waking)?;
        house.send_all();
    }
    Ok(())
}

fn tell_all(house: &mut House) -> Result<()> {
    for number in 0..house.len() {
        let guest = house.guest(number)?;
        house.tell(guest, 0, RELIABLE, 12)?;
    }
    house.send_all();
    Ok(())
}

fn wake_all(house: &mut House, waking: Waking) -> Result<()> {
    for number in (0..house.len()).rev() {
        let guest = house.guest(number)?;
        match waking {
            Waking::Datagram => house.knock(guest)?,
            Waking::Packet => house.tell(guest, 1, 0, 12)?,
        }
    }
    Ok(())
}

/// All slots have something in flight and rest; then so many empty datagrams come to each, before any is asked. COUNT times.
pub fn knock_often(alloc: Global, seed: u64, size: Size) -> Result<Digest> {
    let mut house = House::open(alloc, seed, size.slots, 2)?;
    knock_often_in(&mut house, size)?;
    Ok(house.digest)
}

fn knock_often_in(house: &mut House, size: Size) -> Result<()> {
    house.invite(size.slots, 2)?;
    house.delay(1)?;
    tell_all(house)?;
    for _ in 0..size.count {
        rest(house, 3);
        knock_all(house, size.commands)?;
        house.send_all();
    }
    Ok(())
}

fn knock_all(house: &mut House, times: u32) -> Result<()> {
    for number in 0..house.len() {
        knock(house, number, times)?;
    }
    Ok(())
}

fn knock(house: &mut House, number: usize, times: u32) -> Result<()> {
    let guest = house.guest(number)?;
    for _ in 0..times {
        house.knock(guest)?;
    }
    Ok(())
}

/// Every PACE milliseconds each peer acknowledges what it was told, and is told something again before its slot is asked. COUNT times.
pub fn answer_often(alloc: Global, seed: u64, size: Size) -> Result<Digest> {
    let mut house = House::open(alloc, seed, size.slots, 2)?;
    answer_often_in(&mut house, size)?;
    Ok(house.digest)
}

fn answer_often_in(house: &mut House, size: Size) -> Result<()> {
    house.invite(size.slots, 2)?;
    for round in 0..size.count {
        house.tick(size.pace);
        answer_all(house, round, size.pace)?;
        house.send_all();
    }
    Ok(())
}

fn answer_all(house: &mut House, round: u32, pace: u32) -> Result<()> {
    for number in 0..house.len() {
        let guest = house.guest(number)?;
        if round > 0 {
            let number = (round % 65_536) as u16;
            house.acknowledge(guest, 0, number, house.clock.wrapping_sub(pace))?;
        }
        house.tell(guest, 0, RELIABLE, 12)?;
    }
    Ok(())
}

/// All slots have something in flight, the first one since longest. That one is woken, and it is asked COUNT times when something is due.
pub fn ask(alloc: Global, seed: u64, size: Size) -> Result<Digest> {
    let mut house = House::open(alloc, seed, size.slots, 2)?;
    wake_first(&mut house, size)?;
    for _ in 0..size.count {
        house.digest.number(u64::from(house.server.due_in()));
    }
    Ok(house.digest)
}

fn wake_first(house: &mut House, size: Size) -> Result<()> {
    house.invite(size.slots, 2)?;
    house.delay(1)?;
    let first = house.guest(0)?;
    house.tell(first, 0, RELIABLE, 12)?;
    house.send_all();
    house.tick(10);
    tell_all(house)?;
    rest(house, 4);
    house.knock(first)
}

/// The last eight slots talk, and all others are free again: each talker says something every 16 ms and gets an answer, for COUNT ms.
/// Nobody asks when something is due.
pub fn talk_behind(alloc: Global, seed: u64, size: Size) -> Result<Digest> {
    let mut house = House::open(alloc, seed, size.slots, 2)?;
    house.invite(size.slots, 2)?;
    let first = size.slots.saturating_sub(TALKERS);
    let_go(&mut house, first)?;
    speak_by_turns(&mut house, first, size.count)?;
    Ok(house.digest)
}

// The guests of so many slots are let go.
fn let_go(house: &mut House, slots: u16) -> Result<()> {
    for number in 0..slots {
        let guest = house.guest(usize::from(number))?;
        house.server.disconnect_now(guest.peer, 0)?;
    }
    house.send_all();
    Ok(())
}

fn speak_by_turns(house: &mut House, first: u16, count: u32) -> Result<()> {
    for ms in 0..count {
        house.tick(1);
        if ms % 2 == 0 {
            let talker = (ms / 2 % u32::from(TALKERS)) as u16;
            speak(house, first.wrapping_add(talker), ms / 16)?;
        }
        house.send_all();
    }
    Ok(())
}

// The talker of this number says something; it acknowledges what it got for the last one, and gets an answer.
fn speak(house: &mut House, talker: u16, round: u32) -> Result<()> {
    let guest = house.guest(usize::from(talker))?;
    let number = (round % 65_536) as u16;
    if round > 0 {
        house.acknowledge(guest, 0, number, house.clock.wrapping_sub(16))?;
    }
    house.say(guest, number.wrapping_add(1))?;
    house.take_all();
    house.tell(guest, 0, RELIABLE, 12)
}

/// COUNT seconds go by, in each of which all slots are looked at.
pub fn share_out(alloc: Global, seed: u64, size: Size, seconds: Seconds) -> Result<Digest> {
    let mut house = House::open(alloc, seed, size.slots, 2)?;
    go_by(&mut house, size, seconds)?;
    house.digest.number(u64::from(house.server.due_in()));
    Ok(house.digest)
}

fn go_by(house: &mut House, size: Size, seconds: Seconds) -> Result<()> {
    match seconds {
        Seconds::Free => {}
        Seconds::Used | Seconds::AfterSettings => house.invite(size.slots, 2)?,
    }
    for second in 0..size.count {
        if let Seconds::AfterSettings = seconds {
            limit(house, second)?;
        }
        house.tick(1000);
        house.send_all();
    }
    Ok(())
}

// The server's bandwidth is set anew, and each guest acknowledges that. Command 1 of channel 0xFF let it in.
fn limit(house: &mut House, second: u32) -> Result<()> {
    house.server.set_bandwidth(0, 1_000_000 + second % 1000)?;
    house.send_all();
    let number = (second % 65_000) as u16 + 2;
    for guest in 0..house.len() {
        let guest = house.guest(guest)?;
        house.acknowledge(guest, 0xff, number, house.clock)?;
    }
    Ok(())
}
