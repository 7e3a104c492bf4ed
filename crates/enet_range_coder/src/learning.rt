//! What a coder learns of a byte.

ghost use Rattle.std.specs.Prelude.{◌≡◌, ◌+◌, ◌==◌, ◌<◌, if◌then◌else◌};
ghost use Rattle.enet_range_coder.specs.Memory.{cell_at};
ghost use Rattle.enet_range_coder.specs.Learning.{add, with_shorter, with_next, with_first, grown, weighed, halved_in, counted, led, planted, before_in, place_in, has, noted_in, noted_root, noted, linked, goes_on, learned_from, is_full, is_longest, stepped, learned};

use crate::cell::Cell;
use crate::chain::{BYTES, halve, last_below};
use crate::coder::Coder;
use crate::coding::CONTEXTS;
use crate::root::weigh_root;

/// So many cells are too many to go on with.
const FULL: u16 = 4094;

/// Where a byte stands in a context now.
#[derive(Clone, Copy)]
struct Noted {
    cell: u16,
    is_new: bool,
}

impl Noted {
    /// Whether the byte is learned in the next shorter context, too: one that had it ends that, and the empty one has none.
    fn goes_on(self, context: u16) -> bool
        ensures { result ≡ goes_on self.is_new context }
    {
        self.is_new && context != 0
    }
}

/// Whether so many cells are too many to go on with.
fn is_full(used: u16) -> bool
    ensures { result ≡ is_full used }
{
    used >= FULL
}

/// Whether no context has more bytes.
fn is_longest(length: u16) -> bool
    ensures { result ≡ is_longest length }
{
    length >= 2
}

impl Coder {
    /// Learns a byte in each current context up to the first that had it, and goes on to the contexts that end in it.
    pub(crate) fn learn(&mut self, byte: u8)
        ensures { self.new ≡ learned self.old byte }
    {
        self.learn_from(self.here, 0, byte, CONTEXTS);
        self.step();
    }

    /// Goes on to the contexts that end in the byte that was learned. A memory that is full is cleared.
    fn step(&mut self)
        ensures { self.new ≡ stepped self.old }
    {
        if is_full(self.used) {
            self.clear();
        } else if is_longest(self.length) {
            self.here = self.at(self.here).shorter;
        } else {
            self.length += 1;
        }
    }

    /// Learns it from a context on, of at most `left`; `longer` is its cell in the context before, 0 for the first.
    fn learn_from(&mut self, context: u16, longer: u16, byte: u8, left: u8)
        ensures { self.new ≡ learned_from left self.old context longer byte }
    {
        if left == 0 {
            return;
        }
        let noted = self.note(context, byte);
        self.link(longer, noted.cell);
        if noted.goes_on(context) {
            let shorter = self.at(context).shorter;
            self.learn_from(shorter, noted.cell, byte, left - 1);
        }
    }

    /// The cell of a byte leads from its cell in the context before; if there is none, the coder stands there.
    fn link(&mut self, longer: u16, cell: u16)
        ensures { self.new ≡ linked self.old longer cell }
    {
        if longer == 0 {
            self.here = cell;
        } else {
            let before = self.at(longer);
            self.put(
                longer,
                Cell {
                    shorter: cell,
                    ..before
                },
            );
        }
    }

    /// Counts a byte in a context.
    fn note(&mut self, context: u16, byte: u8) -> Noted
        ensures memory { self.new ≡ (noted self.old context byte).memory }
        ensures cell { result.cell ≡ (noted self.old context byte).cell }
        ensures is_new { result.is_new ≡ (noted self.old context byte).is_new }
    {
        if context == 0 {
            self.note_root(byte)
        } else {
            self.note_in(context, byte)
        }
    }

    /// Counts a byte in the empty context.
    fn note_root(&mut self, byte: u8) -> Noted
        ensures memory { self.new ≡ (noted_root self.old byte).memory }
        ensures cell { result.cell ≡ (noted_root self.old byte).cell }
        ensures is_new { result.is_new ≡ (noted_root self.old byte).is_new }
    {
        weigh_root(&mut self.weights, byte);
        let cell = self.roots[byte as usize];
        if cell != 0 {
            return Noted {
                cell,
                is_new: false,
            };
        }
        let cell = self.add(Cell::fresh(byte, 3, 0));
        self.roots[byte as usize] = cell;
        Noted { cell, is_new: true }
    }

    /// Counts a byte in another context.
    fn note_in(&mut self, context: u16, byte: u8) -> Noted
        ensures memory { self.new ≡ (noted_in self.old context byte).memory }
        ensures cell { result.cell ≡ (noted_in self.old context byte).cell }
        ensures is_new { result.is_new ≡ (noted_in self.old context byte).is_new }
    {
        let before = self.before(context, byte);
        let place = self.behind(context, before);
        if self.has(place, byte) {
            self.count(context, place);
            return Noted {
                cell: place,
                is_new: false,
            };
        }
        let cell = self.plant(context, before, place, byte);
        Noted { cell, is_new: true }
    }

    /// The last cell of a context with a smaller byte, 0 for none.
    fn before(&self, context: u16, byte: u8) -> u16
        ensures { result ≡ before_in self.now context byte }
    {
        last_below(&self.cells, self.at(context).first, BYTES, 0, byte)
    }

    /// The cell of a context behind `before`, the first where that is 0.
    fn behind(&self, context: u16, before: u16) -> u16
        ensures { result ≡ (if before == 0 then (cell_at self.now.cells context).first else (cell_at self.now.cells before).next) }
    {
        if before == 0 {
            self.at(context).first
        } else {
            self.at(before).next
        }
    }

    /// Whether there is a cell, with this byte.
    fn has(&self, place: u16, byte: u8) -> bool
        ensures { result ≡ has self.now place byte }
    {
        place != 0 && self.at(place).byte == byte
    }

    /// Counts a byte that a context has.
    fn count(&mut self, context: u16, place: u16)
        ensures { self.new ≡ counted self.old context place }
    {
        let heavy = self.at(place).is_heavy();
        self.weigh(place);
        if heavy {
            self.halve_in(context);
        }
    }

    /// Counts a cell's byte twice more.
    fn weigh(&mut self, place: u16)
        ensures { self.new ≡ weighed self.old place }
    {
        let cell = self.at(place);
        self.put(place, cell.weighed());
    }

    /// Puts a byte that a context hasn't behind the cell `before`, 0 for none, and before the cell `place`.
    fn plant(&mut self, context: u16, before: u16, place: u16, byte: u8) -> u16
        ensures memory { self.new ≡ planted self.old context before place byte }
        ensures cell { result ≡ self.old.used }
    {
        let cell = self.add(Cell::fresh(byte, 2, place));
        self.lead(context, before, cell);
        self.grow(context);
        cell
    }

    /// A new cell stands behind the cell `before` of a context, or is its first where that is 0.
    fn lead(&mut self, context: u16, before: u16, cell: u16)
        ensures { self.new ≡ led self.old context before cell }
    {
        if before == 0 {
            self.set_first(context, cell);
        } else {
            self.set_next(before, cell);
        }
    }

    /// A cell more.
    fn add(&mut self, cell: Cell) -> u16
        ensures memory { self.new ≡ add self.old cell }
        ensures cell { result ≡ self.old.used }
    {
        let place = self.used;
        self.put(place, cell);
        self.used = place.saturating_add(1);
        place
    }

    /// The smallest byte of a context is in another cell.
    fn set_first(&mut self, context: u16, first: u16)
        ensures { self.new ≡ with_first self.old context first }
    {
        let cell = self.at(context);
        self.put(context, Cell { first, ..cell });
    }

    /// Another cell follows.
    fn set_next(&mut self, place: u16, next: u16)
        ensures { self.new ≡ with_next self.old place next }
    {
        let cell = self.at(place);
        self.put(place, Cell { next, ..cell });
    }

    /// A context has a byte more.
    fn grow(&mut self, context: u16)
        ensures { self.new ≡ grown self.old context }
    {
        let cell = self.at(context);
        self.put(context, cell.grown());
    }

    /// Halves the weights of a context, rounded up.
    fn halve_in(&mut self, context: u16)
        ensures { self.new ≡ halved_in self.old context }
    {
        let cell = self.at(context);
        self.put(context, cell.unseen_halved());
        halve(&mut self.cells, cell.first, BYTES);
    }
}
