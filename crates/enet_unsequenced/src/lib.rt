//! Unsequenced packets of ENet 1.3: each of their groups is dispatched at most once.
//!
//! Proved: `Groups::new`, `check` and `mark` are exact by the definitions of a base and a set of marks; over whole runs of
//! groups numbered without bound, each is dispatched at most once where none comes over 32,768 late, and groups that come in
//! order, each at most 31,744 past the one before, are all dispatched (`runs_of_groups`). No call takes memory.
//! Only tested, in `check_numbers`: that the definitions agree with values worked out by hand. Not promised: any order of
//! unsequenced packets.
#![tactic(auto)]

ghost use Rattle.std.specs.Prelude.{◌≡◌, ℕ, ◌+◌, ◌%◌, ◌<◌, ◌≤◌, ◌≢◌, IsTrue, List, ◌∷◌, length, All, AllPairs, slice_set, true};
ghost use Rattle.std.specs.List.{AllAdjacentBelow};
ghost use Rattle.std.specs.FinSet as set;
ghost use Rattle.enet_unsequenced.specs.Groups.{nothing_seen, dispatches, mark, dispatched};
ghost use Rattle.enet_unsequenced.specs.Marks.{mark_in, marks_in};

use std::marker::Model;

/// How many groups a block has.
const BLOCK_SIZE: u16 = 1024;

/// How many groups a word tells of.
const WORD: u16 = 64;

/// How far past the base a group may lie.
const REACH: u16 = 32_768;

/// The groups of unsequenced packets that a receiver has dispatched: 1,024 marks for the groups from its
/// base on, which is a multiple of 1,024 and 0 at first (ENet 1.3). No call takes memory.
#[derive(Drop)]
pub struct Groups {
    base: u16,
    // Group `base + i` is marked where bit `i % 64` of word `i / 64` is set.
    words: [u64; 16],
}

impl Model for Groups {
    ghost use Rattle.std.specs.Prelude.{◌≡◌, ◌%◌};
    ghost use Rattle.enet_unsequenced.specs.Groups.{Seen, seen_code};
    ghost use Rattle.enet_unsequenced.specs.Marks.{marked_from, marks_in};

    ghost Value = { Seen };

    ghost coded = { seen_code };

    ghost view = { λ g. record { base = g.base; marks = marked_from g.base (marks_in 1024 g.words) } };

    ghost invariant = { λ g. g.base % 1024 ≡ 0 };
}

impl Groups {
    /// What a receiver has seen at first: nothing.
    pub fn new() -> Self
        ensures { result ≡ nothing_seen }
    {
        Self::unmarked(0)
    }

    /// No group of the block that begins at `base` has been dispatched.
    fn unmarked(base: u16) -> Self
        requires { base % 1024 ≡ 0 }
        ensures { result ≡ record { base = base; marks = set.empty } }
    {
        Self {
            base,
            words: no_marks(),
        }
    }

    /// Whether a packet of this group would be dispatched: the group lies less than 32,768 past the base,
    /// modulo 65536, and isn't marked (ENet 1.3).
    pub fn check(&self, group: u16) -> bool
        ensures { result ≡ dispatches self.now group }
    {
        let past_base = group.wrapping_sub(self.base);
        past_base < REACH && !(past_base < BLOCK_SIZE && is_marked(&self.words, past_base))
    }

    /// Marks a group that is dispatched, so one that passes `check`. A group of another block of 1,024 moves
    /// the base to its block and clears the marks of the block before (ENet 1.3).
    pub fn mark(&mut self, group: u16)
        requires { IsTrue (dispatches self.old group) }
        ensures { self.new ≡ mark self.old group }
    {
        let place = group % BLOCK_SIZE;
        if group - place != self.base {
            *self = Self::unmarked(group - place);
        }
        set_mark(&mut self.words, place);
    }
}

/// A block's marks, none of them set.
fn no_marks() -> [u64; 16]
    ensures { All (λ word. word ≡ 0) result }
{
    [0; 16]
}

/// Whether the mark at this place of a block is set.
fn is_marked(words: &[u64; 16], place: u16) -> bool
    requires { place < 1024 }
    ensures { result ≡ mark_in words.now place }
{
    (words[usize::from(place / WORD)] >> (place % WORD)) & 1 == 1
}

/// Sets the mark at this place of a block.
fn set_mark(words: &mut [u64; 16], place: u16)
    requires { place < 1024 }
    ensures { (count : ℕ) → marks_in count words.new ≡ slice_set (marks_in count words.old) place true }
{
    words[usize::from(place / WORD)] |= 1 << (place % WORD);
}

/// What the definitions that `check` and `mark` compute give for a whole run of groups, numbered without
/// bound.
pub fn runs_of_groups()
    // Where no group comes over 32,768 below one that came before it, each is dispatched at most once.
    ensures at_most_once { (groups : List ℕ) → AllPairs (λ earlier later. earlier ≤ later + 32768) groups
        → AllPairs (λ earlier later. earlier ≢ later) (dispatched nothing_seen groups) }
    // Where they come in order, each at most 31,744 above the one before it, all are dispatched.
    ensures in_order { (groups : List ℕ)
        → AllAdjacentBelow (λ before next. (before < next) × (next ≤ before + 31744)) (0 ∷ groups) (length groups + 1)
        → dispatched nothing_seen groups ≡ groups }
{}
