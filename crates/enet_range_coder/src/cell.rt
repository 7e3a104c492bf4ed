//! The cells of a coder's memory.

ghost use Rattle.std.specs.Prelude.{◌≡◌, ◌%◌, max, slice_set};
ghost use Rattle.enet_range_coder.specs.Memory.{cell_at};
ghost use Rattle.enet_range_coder.specs.Learning.{fresh, halved_cell, grown_cell, weighed_cell, halved_unseen, is_heavy};

/// How many cells there are; the first stands for the empty context.
pub(crate) const CELLS: usize = 4096;

/// A byte that was seen in some context, and the context that ends in it.
#[repr(C)]
#[derive(Clone, Copy)]
pub struct Cell {
    /// The byte.
    pub(crate) byte: u8,
    /// Its weight in its context; 0 counts as 1.
    pub(crate) weight: u8,
    /// The next larger byte of its context, 0 for none.
    pub(crate) next: u16,
    /// As a context: its smallest byte, 0 for none.
    pub(crate) first: u16,
    /// As a context: the weight of all bytes that it hasn't.
    pub(crate) unseen: u16,
    /// As a context: the one that is shorter by the oldest byte.
    pub(crate) shorter: u16,
}

impl Cell {
    /// A byte that is seen for the first time in its context, before the cell `next`.
    pub(crate) fn fresh(byte: u8, weight: u8, next: u16) -> Cell
        ensures { result ≡ fresh byte weight next }
    {
        Cell {
            byte,
            weight,
            next,
            first: 0,
            unseen: 0,
            shorter: 0,
        }
    }

    /// Its weight, at least 1.
    pub(crate) fn size(self) -> u32
        ensures { result ≡ max self.weight 1 }
    {
        self.weight.max(1) as u32
    }

    /// Whether its context is halved once it is counted again.
    pub(crate) fn is_heavy(self) -> bool
        ensures { result ≡ is_heavy self.weight }
    {
        self.weight > 251
    }

    /// The cell, counted twice more.
    pub(crate) fn weighed(self) -> Cell
        ensures { result ≡ weighed_cell self }
    {
        let weight = self.weight.saturating_add(2);
        Cell { weight, ..self }
    }

    /// The cell with half its weight, rounded up.
    pub(crate) fn halved(self) -> Cell
        ensures { result ≡ halved_cell self }
    {
        let weight = self.weight - self.weight / 2;
        Cell { weight, ..self }
    }

    /// As a context: the cell with a byte more.
    pub(crate) fn grown(self) -> Cell
        ensures { result ≡ grown_cell self }
    {
        let unseen = self.unseen.saturating_add(5);
        Cell { unseen, ..self }
    }

    /// As a context: the cell with half the weight of all bytes that it hasn't, rounded up.
    pub(crate) fn unseen_halved(self) -> Cell
        ensures { result ≡ halved_unseen self }
    {
        let unseen = self.unseen - self.unseen / 2;
        Cell { unseen, ..self }
    }
}

/// The cell with this number, counted modulo `CELLS`.
pub(crate) fn cell_at(cells: &[Cell; CELLS], place: u16) -> Cell
    ensures { result ≡ cell_at cells.now place }
{
    cells[place as usize % CELLS]
}

/// Writes the cell with this number, counted modulo `CELLS`.
pub(crate) fn put_cell(cells: &mut [Cell; CELLS], place: u16, cell: Cell)
    ensures { cells.new ≡ slice_set cells.old (place % 4096) cell }
{
    cells[place as usize % CELLS] = cell;
}
