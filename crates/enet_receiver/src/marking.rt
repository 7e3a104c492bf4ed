//! Marks of numbers, in blocks that are there as long as one of their numbers is marked.

ghost use Rattle.std.specs.Prelude.{◌≡◌, ◌≤◌, ◌<◌, ◌/◌, ◌==◌, ◌&&◌, ◌||◌, ℕ, true, false, not, None, IsTrue, is_some, slice_index_or};
ghost use Rattle.std.specs.Vec.{vec_len};
ghost use Rattle.enet_receiver.specs.Blocks.{marked_in};

use crate::block::{Block, NUMBERS};
use std::alloc::Global;

/// How many blocks all numbers make.
const BLOCKS: usize = 16;

/// Whether a number is marked.
pub(crate) fn is_marked(blocks: &Vec<Option<Block>>, number: u16) -> bool
    ensures { result ≡ marked_in blocks.now.items number }
{
    let place = usize::from(number / NUMBERS);
    if place >= blocks.len() {
        return false;
    }
    match &blocks[place] {
        Some(block) => block.has(number % NUMBERS),
        None => false,
    }
}

/// Makes the table of the blocks, of which none is there, where that isn't made yet.
fn make_table(blocks: &mut Vec<Option<Block>>) -> bool
    ensures same { (n : ℕ) → marked_in blocks.new.items n ≡ marked_in blocks.old.items n }
    ensures room { IsTrue result → 16 ≤ vec_len blocks.new }
{
    while blocks.len() < BLOCKS {
        if blocks.push(None).is_err() {
            return false;
        }
    }
    true
}

/// Makes a block, where it isn't there.
fn make_block(alloc: Global, blocks: &mut Vec<Option<Block>>, place: usize) -> bool
    requires { place < vec_len blocks.old }
    ensures same { (n : ℕ) → marked_in blocks.new.items n ≡ marked_in blocks.old.items n }
    ensures there { IsTrue result → is_some (slice_index_or blocks.new.items place None) ≡ true }
    ensures len { vec_len blocks.new ≡ vec_len blocks.old }
{
    if blocks[place].is_some() {
        return true;
    }
    let Ok(block) = Block::new(alloc) else {
        return false;
    };
    blocks[place] = Some(block);
    true
}

/// Marks a number whose block is there.
fn mark_in(blocks: &mut Vec<Option<Block>>, number: u16)
    requires inside { number / 4096 < vec_len blocks.old }
    requires there { is_some (slice_index_or blocks.old.items (number / 4096) None) ≡ true }
    ensures { (n : ℕ) → marked_in blocks.new.items n ≡ (n == number || marked_in blocks.old.items n) }
{
    if let Some(block) = &mut blocks[usize::from(number / NUMBERS)] {
        block.mark(number % NUMBERS);
    }
}

/// Marks a number. Where memory is refused it answers false, and no mark changes.
pub(crate) fn mark(alloc: Global, blocks: &mut Vec<Option<Block>>, number: u16) -> bool
    ensures marked { IsTrue result → (n : ℕ) → marked_in blocks.new.items n ≡ (n == number || marked_in blocks.old.items n) }
    ensures unchanged { result ≡ false → (n : ℕ) → marked_in blocks.new.items n ≡ marked_in blocks.old.items n }
{
    if !make_table(blocks) || !make_block(alloc, blocks, usize::from(number / NUMBERS)) {
        return false;
    }
    mark_in(blocks, number);
    true
}

/// Takes the mark of a number back, whose block stays.
fn clear(blocks: &mut Vec<Option<Block>>, number: u16)
    requires { number / 4096 < vec_len blocks.old }
    ensures marks { (n : ℕ) → marked_in blocks.new.items n ≡ (not (n == number) && marked_in blocks.old.items n) }
    ensures len { vec_len blocks.new ≡ vec_len blocks.old }
{
    if let Some(block) = &mut blocks[usize::from(number / NUMBERS)] {
        block.unmark(number % NUMBERS);
    }
}

/// Gives a block up of which no number is marked.
fn give_up(blocks: &mut Vec<Option<Block>>, place: usize)
    requires { place < vec_len blocks.old }
    ensures { (n : ℕ) → marked_in blocks.new.items n ≡ marked_in blocks.old.items n }
{
    let is_clear = match &blocks[place] {
        Some(block) => block.is_clear(),
        None => false,
    };
    if is_clear {
        blocks[place] = None;
    }
}

/// Takes the mark of a number back, and gives its block up where that was the last one.
pub(crate) fn unmark(blocks: &mut Vec<Option<Block>>, number: u16)
    ensures { (n : ℕ) → marked_in blocks.new.items n ≡ (not (n == number) && marked_in blocks.old.items n) }
{
    let place = usize::from(number / NUMBERS);
    if place < blocks.len() {
        clear(blocks, number);
        give_up(blocks, place);
    }
}
