//! Which slot holds a connection.

ghost use Rattle.std.specs.Prelude.{◌≡◌, ◌≢◌, ℕ, ◌+◌, ◌*◌, ◌<◌, ◌≤◌, List, length, get_or, slice_get, slice_set, Some, IfOk, IfErr, IfSome, IfNone, false};
ghost use Rattle.std.specs.List.{list_any};
ghost use Rattle.enet_deadlines.specs.Sets.{IsIn};
ghost use Rattle.enet_codec.specs.declared.address.Addr.{Addr};
ghost use Rattle.enet_peer.specs.Peering.{Peering};
ghost use Rattle.enet_slot.specs.Giving.{unused_slot};
ghost use Rattle.enet_slot.specs.Receiving.{is_connection};
ghost use Rattle.enet_slot.specs.Slot.{SlotState};
ghost use Rattle.enet_slot.specs.Slotted.{all_shown};
ghost use Rattle.enet_sleepers.specs.Places.{first_cell};
ghost use Rattle.enet_sleepers.specs.Seating.{KeepsSeats, HoldNobody, IsFound, Enters};
ghost use Rattle.enet_sleepers.specs.Private.Seating.{Leaves, Moves, KnownAt, KnownInNone, KnownNowhere};

use crate::key::{CELLS, Key, first_cell, key_of, row_of};
use enet_codec::{Addr, Refusal, Secret};
use enet_deadlines::Places;
use enet_slot::Slot;
use std::alloc::Global;
use std::marker::Model;

/// What a cell has in which no slot is noted.
const NOBODY: u16 = u16::MAX;

/// How many rows there are.
const ROWS: u32 = 256;

/// At which slot each connection may be found, by its address and connect id, and at which the peers of an IP address. Contracts see what is
/// noted.
#[derive(Drop)]
pub struct Seats {
    /// By what connections are spread over the cells.
    pub(crate) key: Key,
    /// Slots, each in one of the cells of its connection's place.
    pub(crate) cells: Vec<u16>,
    /// Those that found no cell there.
    pub(crate) others: Places,
    /// By slot, the cell that it took last.
    taken: Vec<u32>,
    /// Rows of as many places as there are slots: in the row of an IP address are the slots that were given to it.
    pub(crate) rows: Places,
    /// By slot, the row in which it is.
    row: Vec<u8>,
}

impl Model for Seats {
    ghost use Rattle.enet_sleepers.specs.Seating.{Seating, HasFew};

    ghost Value = { Seating };

    ghost view = { λ s. record { key = s.key; cells = s.cells.items; others = s.others; rows = s.rows } };

    ghost invariant = { λ s. HasFew (record { key = s.key; cells = s.cells.items; others = s.others; rows = s.rows }) };
}

impl Seats {
    /// So many slots, none of which holds a peer, of a host with this secret. E1 where memory is refused.
    pub fn new(alloc: Global, peers: u16, secret: Option<Secret>) -> Result<Seats, Refusal>
        ensures kept { IfOk result (λ seats. (slots : List SlotState) → length slots ≡ peers → HoldNobody slots → KeepsSeats seats slots) }
        ensures count { IfOk result (λ seats. length seats.others ≡ peers) }
        ensures memory { IfErr result (λ why. why ≡ Refusal.Memory) }
    {
        let Ok(cells) = vec![in alloc; NOBODY; usize::from(peers) * CELLS] else {
            return Err(Refusal::Memory);
        };
        let Ok(taken) = vec![in alloc; u32::MAX; usize::from(peers)] else {
            return Err(Refusal::Memory);
        };
        let Ok(others) = Places::new(alloc, u32::from(peers)) else {
            return Err(Refusal::Memory);
        };
        let Ok(rows) = Places::new(alloc, u32::from(peers) * ROWS) else {
            return Err(Refusal::Memory);
        };
        let Ok(row) = vec![in alloc; 0u8; usize::from(peers)] else {
            return Err(Refusal::Memory);
        };
        Ok(Seats {
            key: key_of(secret),
            cells,
            others,
            taken,
            rows,
            row,
        })
    }

    /// The slot of this number was given to a peer with this connection.
    pub fn enter(&mut self, number: usize, from: Addr, connect_id: u32)
        requires { number < length self.old.others }
        ensures { Enters self.old number from connect_id self.new }
    {
        self.move_to_row(number, from.ip);
        self.leave(number);
        let first = first_cell(self.key, self.cells.len(), from, connect_id);
        match empty_cell(&self.cells, first) {
            Some(cell) => self.take(cell, number),
            None => {
                self.others.insert(number);
            }
        }
    }

    /// The slot of this number leaves its row for that of an IP address.
    fn move_to_row(&mut self, number: usize, ip: u32)
        requires { number < length self.old.others }
        ensures { Moves self.old number ip self.new }
    {
        let slots = self.others.len();
        let row = row_of(self.key, ip);
        let left = self.row_noted(number);
        note_row(&mut self.row, number, row);
        self.rows.remove(first_of_row(left, slots) + number);
        self.rows.insert(first_of_row(row, slots) + number);
    }

    /// The row in which the slot of this number is.
    fn row_noted(&self, number: usize) -> u8 {
        match self.row.get(number) {
            Some(row) => *row,
            None => 0,
        }
    }

    /// The slot of this number takes a cell.
    fn take(&mut self, cell: usize, number: usize)
        requires cell { cell < length self.old.cells }
        requires number { number < length self.old.others }
        ensures { self.new ≡ record self.old { cells = slice_set self.old.cells cell number } }
    {
        if let Some(taken) = self.taken.get_mut(number) {
            *taken = u32::try_from(cell).unwrap_or(u32::MAX);
        }
        self.cells[cell] = number as u16;
    }

    /// The slot of this number leaves its cell.
    fn leave(&mut self, number: usize)
        requires { number < length self.old.others }
        ensures { Leaves self.old number self.new }
    {
        self.others.remove(number);
        let cell = self.cell_of(number);
        if cell < self.cells.len() && usize::from(self.cells[cell]) == number {
            self.cells[cell] = NOBODY;
        }
    }

    /// The cell that the slot of this number took last.
    fn cell_of(&self, number: usize) -> usize {
        match self.taken.get(number) {
            Some(cell) => *cell as usize,
            None => usize::MAX,
        }
    }

    /// The slot that holds a connection with this address and connect id, which takes something in.
    pub(crate) fn known_at(&self, slots: &[Slot], from: Addr, connect_id: u32) -> Option<usize>
        requires { KeepsSeats self.now (all_shown slots.now) }
        ensures found { IfSome result (λ i. KnownAt from connect_id (all_shown slots.now) i) }
        ensures none { IfNone result (list_any (is_connection from connect_id) (all_shown slots.now) ≡ false) }
    {
        let first = first_cell(self.key, self.cells.len(), from, connect_id);
        match known_among(slots, &self.cells, first, from, connect_id) {
            Some(number) => Some(number),
            None => known_in(slots, &self.others, from, connect_id),
        }
    }

    /// The host has this secret from now on: where each of its connections may be found is noted anew.
    pub fn rekey(&mut self, slots: &[Slot], secret: Secret)
        requires { KeepsSeats self.old (all_shown slots.now) }
        ensures { KeepsSeats self.new (all_shown slots.now) }
    {
        self.key = key_of(Some(secret));
        for number in 0..slots.len() {
            self.enter_held(slots, number);
        }
    }

    /// The slot of this number is noted anew, if it holds a peer.
    fn enter_held(&mut self, slots: &[Slot], number: usize)
        requires within { number < length slots.now }
        requires count { length self.old.others ≡ length (all_shown slots.now) }
        ensures count { length self.new.others ≡ length self.old.others }
        ensures here { (s : SlotState) (p : Peering) → slice_get (all_shown slots.now) number ≡ Some s → s.peer ≡ Some p → IsFound self.new number s.address p.terms.connect_id }
        ensures others { (i : ℕ) (b : Addr) (id : ℕ) → i < length self.old.others → i ≢ number → IsFound self.old i b id → IsFound self.new i b id }
    {
        if let Some(peer) = slots[number].peer() {
            self.enter(number, slots[number].address(), peer.terms().connect_id);
        }
    }
}

/// It is noted in which row the slot of this number is.
fn note_row(rows: &mut Vec<u8>, number: usize, row: u8) {
    if let Some(noted) = rows.get_mut(number) {
        *noted = row;
    }
}

/// The first place of a row, where it has as many places as there are slots.
pub(crate) fn first_of_row(row: u8, slots: usize) -> usize
    requires { slots ≤ 65535 }
    ensures is { result ≡ row * slots }
    ensures low { result ≤ 16711425 }
{
    usize::from(row) * slots
}

/// What a cell has.
fn cell_at(cells: &[u16], cell: usize) -> u16
    ensures { result ≡ get_or cells.now cell 65535 }
{
    match cells.get(cell) {
        Some(number) => *number,
        None => NOBODY,
    }
}

/// An empty cell of the place with this first one.
fn empty_cell(cells: &[u16], first: usize) -> Option<usize>
    requires { first < 34359738368 }
    ensures place { IfSome result (λ cell. (first ≤ cell) × (cell < first + 8)) }
    ensures empty { IfSome result (λ cell. (cell < length cells.now) × (get_or cells.now cell 65535 ≡ 65535)) }
{
    for cell in first..first + CELLS {
        if cell < cells.len() && cells[cell] == NOBODY {
            return Some(cell);
        }
    }
    None
}

/// Which of the slots in the cells of the place with this first one holds a connection with this address and connect id, which takes something
/// in.
fn known_among(
    slots: &[Slot],
    cells: &[u16],
    first: usize,
    from: Addr,
    connect_id: u32,
) -> Option<usize>
    requires { first < 34359738368 }
    ensures found { IfSome result (λ i. KnownAt from connect_id (all_shown slots.now) i) }
    ensures none { IfNone result (KnownInNone from connect_id (all_shown slots.now) cells.now first (first + 8)) }
{
    for cell in first..first + CELLS {
        let number = usize::from(cell_at(cells, cell));
        if slot_knows(slots, number, from, connect_id) {
            return Some(number);
        }
    }
    None
}

/// Which of the slots of a set does.
fn known_in(slots: &[Slot], set: &Places, from: Addr, connect_id: u32) -> Option<usize>
    requires { length set.now ≡ length slots.now }
    ensures found { IfSome result (λ i. KnownAt from connect_id (all_shown slots.now) i) }
    ensures none { IfNone result (KnownNowhere from connect_id (all_shown slots.now) set.now) }
{
    let mut place = 0;
    while place < slots.len() {
        let number = set.next_from(place)?;
        if slots[number].is_connection(from, connect_id) {
            return Some(number);
        }
        place = number + 1;
    }
    None
}

/// Whether the slot of this number, if there is one, holds that connection.
fn slot_knows(slots: &[Slot], number: usize, from: Addr, connect_id: u32) -> bool
    ensures { result ≡ is_connection from connect_id (get_or (all_shown slots.now) number unused_slot) }
{
    match slots.get(number) {
        Some(slot) => slot.is_connection(from, connect_id),
        None => false,
    }
}
