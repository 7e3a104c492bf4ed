//! Inputs that cost most.

use crate::flying::{block, take_newest, take_oldest};
use crate::resting::{answer_often, ask, knock_often, share_out, talk_behind, wake};
use anyhow::{Result, bail};
use enet_testbed::{Digest, House};
use std::alloc::Global;

/// How much of a row is done.
#[derive(Clone, Copy)]
pub struct Size {
    /// How often, or for how many milliseconds.
    pub count: u32,
    /// The slots of the server, all of them used at first.
    pub slots: u16,
    /// The commands in flight at each peer, the packets queued on each channel, or the datagrams that come to each slot.
    pub commands: u32,
    /// Every how many milliseconds something comes.
    pub pace: u32,
}

/// Which slots are looked at once a second.
#[derive(Clone, Copy)]
pub enum Seconds {
    Free,
    Used,
    AfterSettings,
}

/// What wakes a slot.
#[derive(Clone, Copy)]
pub enum Waking {
    Datagram,
    Packet,
}

/// A row of this name.
pub fn run_row(alloc: Global, row: &str, seed: u64, size: Size) -> Result<Digest> {
    match row {
        "oldest" => take_oldest(alloc, seed, size),
        "newest" => take_newest(alloc, seed, size),
        "blocked" => block(alloc, seed, size),
        "woken-by-datagram" => wake(alloc, seed, size, Waking::Datagram),
        "woken-by-packet" => wake(alloc, seed, size, Waking::Packet),
        "knocked" => knock_often(alloc, seed, size),
        "answered" => answer_often(alloc, seed, size),
        "talkers-behind" => talk_behind(alloc, seed, size),
        "due-in" => ask(alloc, seed, size),
        "seconds-free" => share_out(alloc, seed, size, Seconds::Free),
        "seconds-used" => share_out(alloc, seed, size, Seconds::Used),
        "seconds-settings" => share_out(alloc, seed, size, Seconds::AfterSettings),
        "returning" => come_back(alloc, seed, size),
        _ => bail!("no such row"),
    }
}

// A peer that is let go comes back from its address at once: COUNT times, one in each millisecond.
fn come_back(alloc: Global, seed: u64, size: Size) -> Result<Digest> {
    let mut house = House::open(alloc, seed, size.slots, 2)?;
    come_back_in(&mut house, size)?;
    Ok(house.digest)
}

fn come_back_in(house: &mut House, size: Size) -> Result<()> {
    house.invite(size.slots, 2)?;
    house.tick(20);
    for round in 0..size.count {
        let number = round as usize % house.len().max(1);
        house.come_again(number, 2)?;
        house.tick(1);
    }
    Ok(())
}
