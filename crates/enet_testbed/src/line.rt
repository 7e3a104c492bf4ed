//! The network between hosts, in memory.

use crate::draw::Draw;
use std::alloc::{AllocError, Global};
use std::mem;

/// How many steps a datagram is under way, at most.
const STEPS: u8 = 255;

/// Between which two hosts a datagram goes.
#[derive(Clone, Copy)]
pub enum Way {
    /// From the client of this number, or a stranger's datagram, to the server.
    Up(u16),
    /// From the server to the client of this number.
    Down(u16),
}

/// A datagram on its way.
#[derive(Drop)]
pub struct Datagram {
    pub way: Way,
    pub bytes: Vec<u8>,
}

/// What a network does to datagrams.
#[derive(Clone, Copy)]
pub struct Line {
    /// How many of a thousand are lost.
    pub lost: u32,
    /// How many of a thousand come twice.
    pub repeated: u32,
    /// After how many steps one comes at the earliest.
    pub least: u8,
    /// And by how many more at the latest.
    pub spread: u8,
}

/// The datagrams that are under way, by the step in which they come.
#[derive(Drop)]
pub struct Network {
    alloc: Global,
    line: Line,
    draw: Draw,
    coming: Vec<Vec<Datagram>>,
    now: u8,
}

impl Network {
    /// Nothing is under way.
    pub fn new(alloc: Global, line: Line, seed: u64) -> Result<Network, AllocError> {
        let mut coming = Vec::new(alloc);
        for _ in 0..=STEPS {
            coming.push(Vec::new(alloc))?;
        }
        Ok(Network {
            alloc,
            line,
            draw: Draw::new(seed),
            coming,
            now: 0,
        })
    }

    /// A host sends a datagram.
    pub fn send(&mut self, way: Way, bytes: &[u8]) -> Result<(), AllocError> {
        if self.draw.below(1000) < self.line.lost {
            return Ok(());
        }
        self.carry(way, bytes)?;
        if self.draw.below(1000) < self.line.repeated {
            self.carry(way, bytes)?;
        }
        Ok(())
    }

    fn carry(&mut self, way: Way, bytes: &[u8]) -> Result<(), AllocError> {
        let more = self.draw.below(u32::from(self.line.spread) + 1) as u8;
        let step = self.now.wrapping_add(self.line.least).wrapping_add(more);
        let bytes = Vec::from_slice(self.alloc, bytes)?;
        if let Some(coming) = self.coming.get_mut(usize::from(step)) {
            coming.push(Datagram { way, bytes })?;
        }
        Ok(())
    }

    /// The next step begins: what comes in it.
    pub fn step(&mut self) -> Vec<Datagram> {
        self.now = self.now.wrapping_add(1);
        let none = Vec::new(self.alloc);
        match self.coming.get_mut(usize::from(self.now)) {
            Some(coming) => mem::replace(coming, none),
            None => none,
        }
    }
}
