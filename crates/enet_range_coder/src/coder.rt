//! What a coder has learned.

ghost use Rattle.std.specs.Prelude.{◌≡◌};
ghost use Rattle.enet_range_coder.specs.Memory.{cell_at};
ghost use Rattle.enet_range_coder.specs.Learning.{nothing_learned, put};

use crate::cell::{CELLS, Cell, cell_at, put_cell};

/// What a coder has learned of the bytes of one body. Each call begins anew, so what lies in it doesn't matter.
#[repr(C)]
#[derive(Drop)]
pub struct Coder {
    /// The bytes that were seen in contexts, and those contexts.
    pub(crate) cells: [Cell; CELLS],
    /// The weights of all bytes in the empty context, each less 1.
    pub(crate) weights: [u8; 256],
    /// Their cells there, 0 for those that weren't seen.
    pub(crate) roots: [u16; 256],
    /// How many cells are used.
    pub(crate) used: u16,
    /// The longest current context.
    pub(crate) here: u16,
    /// Its length.
    pub(crate) length: u16,
}

impl Coder {
    /// A coder that has learned nothing.
    pub fn new() -> Coder
        ensures { result ≡ nothing_learned }
    {
        Coder {
            cells: [Cell::fresh(0, 0, 0); CELLS],
            weights: [0; 256],
            roots: [0; 256],
            used: 1,
            here: 0,
            length: 0,
        }
    }

    /// Forgets all.
    pub(crate) fn clear(&mut self)
        ensures { self.new ≡ nothing_learned }
    {
        self.cells = [Cell::fresh(0, 0, 0); CELLS];
        self.weights = [0; 256];
        self.roots = [0; 256];
        self.used = 1;
        self.here = 0;
        self.length = 0;
    }

    /// The cell with this number.
    pub(crate) fn at(&self, place: u16) -> Cell
        ensures { result ≡ cell_at self.now.cells place }
    {
        cell_at(&self.cells, place)
    }

    /// Writes the cell with this number.
    pub(crate) fn put(&mut self, place: u16, cell: Cell)
        ensures { self.new ≡ put self.old place cell }
    {
        put_cell(&mut self.cells, place, cell);
    }
}
