//! How a context shares out an interval.

ghost use Rattle.std.specs.Prelude.{◌≡◌, ◌+◌, ◌-◌, ◌≤◌, ◌&&◌, IfSome, nat_lt, nat_le};
ghost use Rattle.enet_range_coder.specs.Context.{total, weigh, find, reach, share_of, aim_at};
ghost use Rattle.enet_range_coder.specs.Memory.{context_at};
ghost use Rattle.enet_range_coder.specs.Private.Meant.{cut_meant, place_meant, share_meant, aim_meant};

use crate::chain::{BYTES, Place, find, reach, weigh};
use crate::coder::Coder;
use crate::root::{find_root, reach_root, weigh_all};

/// The highest total of the weights of a context.
const HIGHEST: u32 = 65_536;

/// A part of an interval: `size` shares from `start` on, of `total`.
#[derive(Clone, Copy)]
pub(crate) struct Part {
    pub(crate) start: u32,
    pub(crate) size: u32,
    pub(crate) total: u32,
}

/// What a context has for a byte.
#[derive(Clone, Copy)]
pub(crate) enum Share {
    /// Nothing: it hasn't any byte.
    Nothing,
    /// The part of all bytes that it hasn't.
    Escape(Part),
    /// The byte's part.
    Found(Part),
}

/// What a code aims at in a context.
#[derive(Clone, Copy)]
pub(crate) enum Aim {
    /// Nothing: it hasn't any byte.
    Pass,
    /// The part of all bytes that it hasn't.
    Leave(Part),
    /// This byte.
    At(u8),
}

/// The weights of a context.
#[derive(Clone, Copy)]
pub(crate) struct Weights {
    /// That of all bytes that it hasn't.
    pub(crate) unseen: u32,
    /// That, and those of its bytes.
    pub(crate) total: u32,
}

impl Weights {
    /// Whether a part may be taken.
    pub(crate) fn serves(self) -> bool
        ensures { result ≡ (nat_lt 0 self.unseen && nat_le self.total 65536) }
    {
        self.unseen > 0 && self.total <= HIGHEST
    }

    /// The part of all bytes that a context hasn't.
    fn escape(self) -> Part
        ensures { cut_meant result ≡ record { start = 0; size = self.unseen; total = self.total } }
    {
        Part {
            start: 0,
            size: self.unseen,
            total: self.total,
        }
    }

    /// How many of so many shares lie above the part of all bytes that a context hasn't.
    fn above_escape(self, aim: u32) -> u32
        requires { self.unseen ≤ aim }
        ensures { result ≡ aim - self.unseen }
    {
        aim - self.unseen
    }
}

impl Coder {
    /// The weights of a context.
    pub(crate) fn weights_of(&self, context: u16) -> Weights
        ensures unseen { result.unseen ≡ (context_at self.now context).unseen }
        ensures total { result.total ≡ total (context_at self.now context) }
        ensures bound { result.unseen ≤ 65535 }
    {
        if context == 0 {
            return Weights {
                unseen: 1,
                total: 1 + weigh_all(&self.weights),
            };
        }
        let cell = self.at(context);
        let unseen = cell.unseen as u32;
        Weights {
            unseen,
            total: unseen + weigh(&self.cells, cell.first, BYTES, 0),
        }
    }

    /// The place of a byte in a context.
    fn place_of(&self, context: u16, byte: u8) -> Option<Place>
        ensures place { place_meant result ≡ find (context_at self.now context).bytes byte 0 }
        ensures bound { IfSome result (λ p. p.below + p.size ≤ weigh (context_at self.now context).bytes) }
    {
        if context == 0 {
            return find_root(&self.weights, byte);
        }
        find(&self.cells, self.at(context).first, BYTES, 0, byte)
    }

    /// The byte of a context whose weights hold `aim`.
    fn reached(&self, context: u16, aim: u32) -> Option<u8>
        ensures { result ≡ reach (context_at self.now context).bytes aim 0 }
    {
        if context == 0 {
            return reach_root(&self.weights, aim);
        }
        reach(&self.cells, self.at(context).first, BYTES, 0, aim)
    }

    /// What a context has for this byte.
    pub(crate) fn share_of(&self, context: u16, byte: u8) -> Share
        ensures { share_meant result ≡ share_of (context_at self.now context) byte }
    {
        let weights = self.weights_of(context);
        if !weights.serves() {
            return Share::Nothing;
        }
        match self.place_of(context, byte) {
            None => Share::Escape(weights.escape()),
            Some(place) => Share::Found(Part {
                start: weights.unseen + place.below,
                size: place.size,
                total: weights.total,
            }),
        }
    }

    /// What a code that lies above so many shares aims at in a context of these weights.
    pub(crate) fn aim_at(&self, context: u16, weights: Weights, aim: u32) -> Aim
        requires unseen { weights.unseen ≡ (context_at self.now context).unseen }
        requires total { weights.total ≡ total (context_at self.now context) }
        ensures { aim_meant result ≡ aim_at (context_at self.now context) aim }
    {
        if !weights.serves() {
            return Aim::Pass;
        }
        if aim < weights.unseen {
            return Aim::Leave(weights.escape());
        }
        match self.reached(context, weights.above_escape(aim)) {
            None => Aim::Leave(weights.escape()),
            Some(byte) => Aim::At(byte),
        }
    }
}
