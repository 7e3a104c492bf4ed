//! The bytes that a context has, each cell leading to the next.

ghost use Rattle.std.specs.Prelude.{◌≡◌, ◌+◌, ◌*◌, ◌<◌, ◌≤◌};
ghost use Rattle.enet_range_coder.specs.Context.{weigh, find, reach};
ghost use Rattle.enet_range_coder.specs.Memory.{chain};
ghost use Rattle.enet_range_coder.specs.Learning.{last_below, halve};
ghost use Rattle.enet_range_coder.specs.Private.Meant.{place_meant};

use crate::cell::{CELLS, Cell, cell_at, put_cell};

/// How many bytes a context has at most.
pub(crate) const BYTES: u16 = 256;

/// Where a byte lies among those of its context.
#[derive(Clone, Copy)]
pub(crate) struct Place {
    /// The weights of the bytes before it.
    pub(crate) below: u32,
    /// Its own weight.
    pub(crate) size: u32,
}

/// `sum` and the weights of the chain from `place` on, of at most `left` cells.
pub(crate) fn weigh(cells: &[Cell; CELLS], place: u16, left: u16, sum: u32) -> u32
    requires { sum + 255 * left ≤ 65536 }
    ensures weight { result ≡ sum + weigh (chain left cells.now place) }
    ensures bound { result ≤ sum + 255 * left }
{
    if left == 0 || place == 0 {
        return sum;
    }
    let cell = cell_at(cells, place);
    weigh(cells, cell.next, left - 1, sum + cell.size())
}

/// The place of a byte in the chain, where `below` lies before it.
pub(crate) fn find(
    cells: &[Cell; CELLS],
    place: u16,
    left: u16,
    below: u32,
    byte: u8,
) -> Option<Place>
    requires { below + 255 * left ≤ 65536 }
    ensures { place_meant result ≡ find (chain left cells.now place) byte below }
{
    if left == 0 || place == 0 {
        return None;
    }
    let cell = cell_at(cells, place);
    let size = cell.size();
    if cell.byte == byte {
        return Some(Place { below, size });
    }
    find(cells, cell.next, left - 1, below + size, byte)
}

/// The byte of the chain whose weights hold `aim`, where `below` lies before them.
pub(crate) fn reach(
    cells: &[Cell; CELLS],
    place: u16,
    left: u16,
    below: u32,
    aim: u32,
) -> Option<u8>
    requires { below + 255 * left ≤ 65536 }
    ensures { result ≡ reach (chain left cells.now place) aim below }
{
    if left == 0 || place == 0 {
        return None;
    }
    let cell = cell_at(cells, place);
    let after = below + cell.size();
    if aim < after {
        return Some(cell.byte);
    }
    reach(cells, cell.next, left - 1, after, aim)
}

/// The last cell of the chain with a smaller byte, `before` where there is none.
pub(crate) fn last_below(cells: &[Cell; CELLS], place: u16, left: u16, before: u16, byte: u8) -> u16
    ensures { result ≡ last_below left cells.now place before byte }
{
    if left == 0 || place == 0 {
        return before;
    }
    let cell = cell_at(cells, place);
    if byte <= cell.byte {
        return before;
    }
    last_below(cells, cell.next, left - 1, place, byte)
}

/// Halves the weights of the chain, rounded up.
pub(crate) fn halve(cells: &mut [Cell; CELLS], place: u16, left: u16)
    ensures { cells.new ≡ halve left cells.old place }
{
    if left == 0 || place == 0 {
        return;
    }
    let cell = cell_at(cells, place);
    put_cell(cells, place, cell.halved());
    halve(cells, cell.next, left - 1)
}
