//! A packet that is put together from its fragments.

ghost use Rattle.std.specs.Prelude.{ℕ, ◌<◌, ◌*◌, ◌==◌, IfSome, IsSome, ◌≡◌, ◌≤◌, ◌+◌, ◌↔◌, IsTrue, IsOk, IfOk, IfErr, OnOk, OnErr, is_some, length};
ghost use Rattle.std.specs.Int.{bit_at};

use crate::Place;
use crate::piece_store::PieceStore;
use bytes::Bytes;
use enet_codec::Refusal;
use std::alloc::Global;
use std::marker::Model;

/// What became of a piece.
#[derive(Clone, Copy, PartialEq, Eq)]
pub enum Put {
    /// It is in the packet, and another one is still missing.
    New,
    /// It had come before; nothing has changed.
    Again,
    /// It was the last one that was missing.
    Whole,
    /// It can't be a piece of this packet; nothing has changed.
    Bad,
}

/// A packet in pieces. Contracts see it as a `PartialPacket`: its length, the length of its pieces once one of them has told
/// it, and the bytes of the pieces that have come, by their numbers. It holds what came, and once that is half of the packet,
/// room for the rest.
#[derive(Drop)]
pub struct Assembly {
    store: PieceStore,
}

impl Model for Assembly {
    ghost use Rattle.enet_fragment.specs.PartialPacket.{PartialPacket, partial_packet_code};

    ghost Value = { PartialPacket };

    ghost coded = { partial_packet_code };

    ghost use Rattle.enet_fragment.specs.Stored.{stored, IsStored};

    ghost view = { λ a. stored a.store };

    ghost invariant = { λ a. IsStored a.store };
}

impl Assembly {
    ghost use Rattle.enet_fragment.specs.PartialPacket.{nothing_yet, put_outcome, after_put, without_piece, joined, IsWhole, piece_at, count_of};
    ghost use Rattle.enet_fragment.specs.Place.{place_of};
    ghost use Rattle.enet_fragment.specs.Whole.{whole_of};

    /// A packet of `total` bytes in `count` pieces, of which none has come. It takes one mark a piece, and no room for the
    /// bytes. Answers `Refusal::Memory` where it can't have the marks.
    pub fn new(alloc: Global, count: u32, total: u32) -> Result<Assembly, Refusal>
        requires { 1 ≤ count }
        ensures ok { IfOk result (λ made. made ≡ nothing_yet count total) }
        ensures memory { IfErr result (λ why. why ≡ Refusal.Memory) }
    {
        let store = PieceStore::new(alloc, count, total)?;
        Ok(Assembly { store })
    }

    /// What `put` would answer for a piece with this place: Bad where the piece can't be one of this packet's, else Again
    /// where it has come, else Whole where every other piece has come, else New. It takes the time of a few tests,
    /// however large the packet is.
    pub fn foresee(&self, place: Place) -> Put
        ensures { result ≡ put_outcome self.now place }
    {
        self.store.foresee(place)
    }

    /// Puts a piece into the packet, if it is New or Whole (see `foresee`). Again and Bad change nothing. The piece tells
    /// its cut to all that come later. It copies the piece's bytes and walks over nothing else, but for the piece with which
    /// half of the packet has come: that takes one copy more of those before it. Answers `Refusal::Memory` where it can't have
    /// memory for the piece, and has then changed nothing.
    pub fn put(
        &mut self,
        number: u32,
        count: u32,
        total: u32,
        offset: u32,
        bytes: &[u8],
    ) -> Result<Put, Refusal>
        ensures outcome { IfOk result (λ outcome. outcome ≡ put_outcome self.old (place_of number count total offset bytes.now)) }
        ensures after { OnOk result (self.new ≡ after_put self.old (place_of number count total offset bytes.now) bytes.now) }
        ensures err { OnErr result (self.new ≡ self.old) }
        ensures again { put_outcome self.old (place_of number count total offset bytes.now) ≡ Put.Again → IsOk result }
        ensures bad { put_outcome self.old (place_of number count total offset bytes.now) ≡ Put.Bad → IsOk result }
        ensures memory { IfErr result (λ why. why ≡ Refusal.Memory) }
    {
        let place = Place {
            number,
            count,
            total,
            offset,
            len: bytes.len(),
        };
        let outcome = self.foresee(place);
        match outcome {
            Put::New | Put::Whole => self.store.add(place, bytes)?,
            Put::Bad | Put::Again => {}
        }
        Ok(outcome)
    }

    /// Takes the mark of one piece back, as if it had not come; where it hasn't, nothing changes. The cut stays. The piece's
    /// bytes stay in memory, too.
    pub fn unmark(&mut self, number: u32)
        ensures { self.new ≡ without_piece self.old number }
    {
        self.store.unmark(number);
    }

    /// Word j of the marks of the pieces that have come: mark i is bit `i % 32` of word `i / 32`, and bits past the last piece
    /// are 0. None past the last word.
    pub fn word(&self, j: u32) -> Option<u32>
        ensures bits { IfSome result (λ w. (i : ℕ) → i < 32 → (bit_at w i == 1) ≡ is_some (piece_at self.now (32 * j + i))) }
        ensures there { IsSome result ↔ (32 * j < count_of self.now) }
    {
        self.store.word(j)
    }

    /// Whether every piece has come.
    pub fn is_whole(&self) -> bool
        ensures { IsTrue result ↔ IsWhole self.now }
    {
        self.store.is_whole()
    }

    /// The pieces' bytes, each as it was last put, in the order of their numbers. It copies each once more. For want of
    /// memory, and for that alone, it hands the assembly back as it was.
    pub fn finish(self) -> Result<Bytes, Assembly>
        requires { IsWhole self }
        ensures ok { IfOk result (λ body. body ≡ joined self.pieces) }
        ensures whole { IfOk result (λ body. whole_of body (count_of self) self.cut ≡ self) }
        ensures len { IfOk result (λ body. length body ≡ self.total) }
        ensures memory { IfErr result (λ kept. kept ≡ self) }
        ensures empty { self.total ≡ 0 → IsOk result }
    {
        match self.store.body() {
            Ok(body) => Ok(body),
            Err(_) => Err(self),
        }
    }
}
