//! The pieces of a packet that have come, and which ones are missing.

ghost use Rattle.std.specs.Prelude.{◌≡◌, ◌≤◌, ◌<◌, ◌+◌, ◌*◌, ◌==◌, ◌^◌, None, false, IsTrue, IsOk, IfOk, IfErr, IfSome, IsSome, OnOk, OnErr, ◌↔◌, ℕ, is_some, length, take};
ghost use Rattle.std.specs.Int.{bit_at};
ghost use Rattle.std.specs.Vec.{vec_capacity};
ghost use Rattle.enet_fragment.specs.Private.Assembly.{filled_up};
ghost use Rattle.enet_fragment.specs.Place.{told_piece_len};
ghost use Rattle.enet_fragment.specs.PartialPacket.{nothing_yet, put_outcome, belongs, is_of_size, piece_at, with_piece, without_piece, count_of, is_same_cut, IsWhole, joined};
ghost use Rattle.enet_fragment.specs.Memory.{memory_bound};
ghost use Rattle.enet_fragment.specs.Stored.{stored, IsStored, IsFrugal};
ghost use Rattle.enet_fragment.specs.Whole.{whole_of};

use crate::buffer::{cut_or_fill, write_at};
use crate::collected::Collected;
use crate::{Marks, Place, Put};
use bytes::Bytes;
use enet_codec::Refusal;
use std::alloc::Global;

/// The pieces of a packet that have come. What they stand for is `stored`.
#[derive(Drop)]
pub(crate) struct PieceStore {
    /// Their bytes.
    pub(crate) bytes: Collected,
    /// How many bytes the packet has.
    pub(crate) total: u32,
    /// How many pieces have not come.
    pub(crate) missing: u32,
    /// One mark a piece: whether it has come.
    pub(crate) came: Marks,
    /// The length of each piece but the last, once one has told it.
    pub(crate) cut: Option<usize>,
}

impl PieceStore {
    /// A packet of `total` bytes in `count` pieces, of which none has come. It takes one mark a piece.
    pub(crate) fn new(alloc: Global, count: u32, total: u32) -> Result<PieceStore, Refusal>
        requires { 1 ≤ count }
        ensures stored { IfOk result IsStored }
        ensures frugal { IfOk result IsFrugal }
        ensures ok { IfOk result (λ made. stored made ≡ nothing_yet count total) }
        ensures memory { IfErr result (λ why. why ≡ Refusal.Memory) }
    {
        let came = Marks::new(alloc, count)?;
        Ok(PieceStore {
            bytes: Collected::new(alloc),
            total,
            missing: count,
            came,
            cut: None,
        })
    }

    /// What becomes of a piece with this place.
    #[tactic(auto, unfolding(crate::specs::PartialPacket::put_outcome))]
    pub(crate) fn foresee(&self, place: Place) -> Put
        requires { IsStored self.now }
        ensures { result ≡ put_outcome (stored self.now) place }
    {
        if !self.belongs(place) {
            return Put::Bad;
        }
        if self.came.has(place.number) {
            Put::Again
        } else if self.missing == 1 {
            Put::Whole
        } else {
            Put::New
        }
    }

    /// Whether a piece with this place can be one of this packet's.
    #[tactic(auto, unfolding(crate::specs::PartialPacket::belongs))]
    pub(crate) fn belongs(&self, place: Place) -> bool
        requires { IsStored self.now }
        ensures { result ≡ belongs (stored self.now) place }
    {
        if !place.is_sound() || !self.is_of_size(place) {
            return false;
        }
        has_same_cut(self.cut, place.told_piece_len())
    }

    /// Whether a piece with this place speaks of a packet of this size.
    fn is_of_size(&self, place: Place) -> bool
        requires { IsStored self.now }
        ensures { result ≡ is_of_size (stored self.now) place }
    {
        place.is_of_size(self.came.len() as usize, self.total as usize)
    }

    /// Whether the piece of this number has come.
    pub(crate) fn has(&self, number: u32) -> bool
        ensures { result ≡ is_some (piece_at (stored self.now) number) }
    {
        self.came.has(number)
    }

    /// Word j of the marks of the pieces that have come, 32 marks to a word.
    pub(crate) fn word(&self, j: u32) -> Option<u32>
        ensures bits { IfSome result (λ w. (i : ℕ) → i < 32 → (bit_at w i == 1) ≡ is_some (piece_at (stored self.now) (32 * j + i))) }
        ensures there { IsSome result ↔ (32 * j < count_of (stored self.now)) }
    {
        self.came.word(j)
    }

    /// How many pieces the packet has.
    pub(crate) fn count(&self) -> u32
        requires { IsStored self.now }
        ensures value { result ≡ count_of (stored self.now) }
        ensures some { 1 ≤ result }
    {
        self.came.len()
    }

    /// How many bytes the packet has.
    pub(crate) fn total(&self) -> u32
        requires { IsStored self.now }
        ensures { result ≡ (stored self.now).total }
    {
        self.total
    }

    /// Whether every piece has come.
    pub(crate) fn is_whole(&self) -> bool
        requires { IsStored self.now }
        ensures { IsTrue result ↔ IsWhole (stored self.now) }
    {
        self.missing == 0
    }

    /// Whether every piece has come but one.
    pub(crate) fn misses_one(&self) -> bool
        ensures { result ≡ (self.now.missing == 1) }
    {
        self.missing == 1
    }

    /// Adds a piece that belongs to the packet and has not come. Where the memory for it can't be had, it answers
    /// `Refusal::Memory`, and the packet is as it was.
    pub(crate) fn add(&mut self, place: Place, bytes: &[u8]) -> Result<(), Refusal>
        requires stored { IsStored self.old }
        requires fits { place.len ≡ length bytes.now }
        requires belongs { IsTrue (belongs (stored self.old) place) }
        requires missing { piece_at (stored self.old) place.number ≡ None }
        ensures stored { IsStored self.new }
        ensures frugal { IsFrugal self.old → IsFrugal self.new }
        ensures ok { OnOk result (stored self.new ≡ with_piece (stored self.old) place bytes.now) }
        ensures err { OnErr result (stored self.new ≡ stored self.old) }
        ensures memory { IfErr result (λ why. why ≡ Refusal.Memory) }
    {
        let cut = place.told_piece_len();
        if !self.bytes.put(self.total, place.offset, bytes) {
            return Err(Refusal::Memory);
        }
        self.came.mark(place.number);
        self.missing -= 1;
        self.cut = Some(cut);
        Ok(())
    }

    /// Takes the mark of one piece back, as if it had not come; where it hasn't, nothing changes. Its bytes stay where they
    /// are until the piece comes again.
    pub(crate) fn unmark(&mut self, number: u32)
        requires { IsStored self.old }
        ensures stored { IsStored self.new }
        ensures ok { stored self.new ≡ without_piece (stored self.old) number }
    {
        if self.came.has(number) {
            self.came.unmark(number);
            self.missing += 1;
        }
    }

    /// The bytes of the packet, every piece of which has come.
    pub(crate) fn body(&self) -> Result<Bytes, Refusal>
        requires stored { IsStored self.now }
        requires whole { IsWhole (stored self.now) }
        ensures ok { IfOk result (λ body. body ≡ joined (stored self.now).pieces) }
        ensures whole { IfOk result (λ body. whole_of body (count_of (stored self.now)) self.now.cut ≡ stored self.now) }
        ensures len { IfOk result (λ body. length body ≡ self.now.total) }
        ensures memory { IfErr result (λ why. why ≡ Refusal.Memory) }
        ensures empty { self.now.total ≡ 0 → IsOk result }
    {
        let all = self.bytes.together(self.total)?;
        finished(all, self.total)
    }

    /// The bytes of the packet, every piece of which has come but this one. Where this one is its end, the room that the pieces
    /// lie in is handed on; else each byte is copied once more. For want of memory, and for that alone, it answers
    /// `Refusal::Memory`, and the packet is as it was.
    pub(crate) fn body_with(&mut self, place: Place, bytes: &[u8]) -> Result<Bytes, Refusal>
        requires stored { IsStored self.old }
        requires fits { place.len ≡ length bytes.now }
        requires belongs { IsTrue (belongs (stored self.old) place) }
        requires missing { piece_at (stored self.old) place.number ≡ None }
        requires last { self.old.missing ≡ 1 }
        ensures ok { IfOk result (λ body. whole_of body (count_of (stored self.old)) (Some (told_piece_len place)) ≡ with_piece (stored self.old) place bytes.now) }
        ensures len { IfOk result (λ body. length body ≡ self.old.total) }
        ensures stored { OnErr result (IsStored self.new) }
        ensures frugal { OnErr result (IsFrugal self.old → IsFrugal self.new) }
        ensures err { OnErr result (stored self.new ≡ stored self.old) }
        ensures memory { IfErr result (λ why. why ≡ Refusal.Memory) }
    {
        if self.bytes.is_end(self.total, place.offset, bytes) {
            return self.bytes.hand_on(self.total, bytes);
        }
        let mut all = self.bytes.together(self.total)?;
        write_at(&mut all, place.offset as usize, bytes);
        finished(all, self.total)
    }

    /// How many bytes of memory it has taken.
    pub(crate) fn memory(&self) -> u64
        requires stored { IsStored self.now }
        requires frugal { IsFrugal self.now }
        ensures { result ≤ memory_bound (stored self.now) }
    {
        (self.bytes.memory() + self.came.memory()) as u64
    }
}

/// Whether this length of the pieces is the one that earlier ones told, if any has.
pub(crate) fn has_same_cut(known: Option<usize>, cut: usize) -> bool
    ensures { result ≡ is_same_cut known cut }
{
    match known {
        None => true,
        Some(known) => known == cut,
    }
}

/// So many bytes, of which all but zeros at the end are there.
fn finished(mut all: Vec<u8>, total: u32) -> Result<Bytes, Refusal>
    requires room { total ≤ vec_capacity all }
    ensures ok { IfOk result (λ body. body ≡ take total (filled_up total all.items)) }
    ensures memory { IfErr result (λ why. why ≡ Refusal.Memory) }
    ensures empty { total ≡ 0 → IsOk result }
{
    cut_or_fill(&mut all, total as usize);
    match Bytes::from_vec(all) {
        Ok(body) => Ok(body),
        Err(_) => Err(Refusal::Memory),
    }
}
