//! The bytes of the pieces that have come, as they are kept until the last one is there.

ghost use Rattle.std.specs.Prelude.{◌≡◌, ℕ, ◌≤◌, ◌<◌, ◌+◌, ◌*◌, ◌^◌, ◌++◌, [], ◌∷◌, false, None, IsTrue, IsOk, IfOk, IfErr, IfSome, OnErr, length, max, replicate};
ghost use Rattle.std.specs.Vec.{vec_len, vec_capacity};
ghost use Rattle.enet_fragment.specs.Memory.{words_of};
ghost use Rattle.enet_fragment.specs.Collected.{contents, laid, written_at, taken_by, IsCollected, IsThrifty, AddsPiece, AreWithin};
ghost use Rattle.enet_fragment.specs.Private.Assembly.{filled_up};

use crate::buffer::{append, write_at};
use crate::filled::room_for;
use bytes::Bytes;
use enet_codec::Refusal;
use std::alloc::Global;
use std::mem;

/// A piece that came before half of the packet had come.
#[derive(Drop)]
pub(crate) struct EarlyPiece {
    /// Where in the packet it begins, in bytes.
    pub(crate) offset: u32,
    /// Its bytes.
    pub(crate) body: Vec<u8>,
}

/// How many bytes the place of an early piece takes.
const EARLY_PLACE: usize = 32;

const _: () = prove!(mem::size_of::<EarlyPiece>() == EARLY_PLACE);

/// The bytes of the pieces that have come. Until half of the packet has come each piece is kept as it is, since room for the
/// whole packet would be more than twice what came. From then on all lie at their places in room for the whole packet.
#[derive(Drop)]
pub(crate) struct Collected {
    /// The packet's bytes as far as the farthest piece reaches, once half of them have come.
    pub(crate) front: Vec<u8>,
    /// For how many bytes the front has taken room.
    pub(crate) front_room: usize,
    /// The pieces that came before half of the packet had come, in the order in which they came.
    pub(crate) early: Vec<EarlyPiece>,
    /// How many bytes these have.
    pub(crate) early_bytes: usize,
}

impl Collected {
    /// Nothing; it takes no memory.
    pub(crate) fn new(alloc: Global) -> Collected
        ensures front { result.front.items ≡ [] }
        ensures room { result.front_room ≡ 0 }
        ensures early { result.early.items ≡ [] }
        ensures places { vec_capacity result.early ≡ 0 }
        ensures bytes { result.early_bytes ≡ 0 }
    {
        Collected {
            front: Vec::new(alloc),
            front_room: 0,
            early: Vec::new(alloc),
            early_bytes: 0,
        }
    }

    /// Puts the bytes of a piece of a packet of `total` bytes where they belong, over bytes that were put there before. It takes
    /// memory for the piece, or for the whole packet where half of it has come with this piece; where it can't have it, it
    /// answers false and changes nothing.
    pub(crate) fn put(&mut self, total: u32, offset: u32, bytes: &[u8]) -> bool
        requires fits { offset + length bytes.now ≤ total }
        requires collected { IsCollected total self.old }
        ensures collected { IsCollected total self.new }
        ensures written { IsTrue result → contents total self.new ≡ written_at offset bytes.now (contents total self.old) }
        ensures same { result ≡ false → contents total self.new ≡ contents total self.old }
        ensures thrifty { (came pieces : ℕ) → IsThrifty came pieces self.old → IsTrue result → IsThrifty (came + length bytes.now) (pieces + 1) self.new }
        ensures refused { (came pieces : ℕ) → IsThrifty came pieces self.old → result ≡ false → IsThrifty came pieces self.new }
    {
        if !self.front.is_empty() {
            write_at(&mut self.front, offset as usize, bytes);
            return true;
        }
        let come = self.early_bytes.saturating_add(bytes.len());
        if come < (total as usize + 1) / 2 {
            let is_kept = keep(&mut self.early, offset, bytes);
            if is_kept {
                self.early_bytes = come;
            }
            return is_kept;
        }
        self.gather(total, offset, bytes)
    }

    /// Puts all pieces and this one into room for the whole packet, of which half has come with it. Where the room can't be
    /// had, it answers false and changes nothing.
    fn gather(&mut self, total: u32, offset: u32, bytes: &[u8]) -> bool
        requires fits { offset + length bytes.now ≤ total }
        requires collected { IsCollected total self.old }
        requires half { total ≤ 2 * (self.old.early_bytes + length bytes.now) }
        ensures collected { IsCollected total self.new }
        ensures written { IsTrue result → contents total self.new ≡ written_at offset bytes.now (contents total self.old) }
        ensures same { result ≡ false → contents total self.new ≡ contents total self.old }
        ensures thrifty { (came pieces : ℕ) → IsThrifty came pieces self.old → IsTrue result → IsThrifty (came + length bytes.now) (pieces + 1) self.new }
        ensures refused { (came pieces : ℕ) → IsThrifty came pieces self.old → result ≡ false → IsThrifty came pieces self.new }
    {
        let Ok(mut all) = room_for(*self.front.allocator(), total as usize) else {
            return false;
        };
        let room = all.capacity();
        self.lay_all(&mut all, total);
        write_at(&mut all, offset as usize, bytes);
        self.early = Vec::new(*all.allocator());
        self.early_bytes = 0;
        self.front = all;
        self.front_room = room;
        true
    }

    /// All bytes that were put, each at its place, with room for `total` bytes. It copies each once. It answers
    /// `Refusal::Memory` where it can't have that room.
    pub(crate) fn together(&self, total: u32) -> Result<Vec<u8>, Refusal>
        requires { IsCollected total self.now }
        ensures bytes { IfOk result (λ all. filled_up total all.items ≡ contents total self.now) }
        ensures len { IfOk result (λ all. vec_len all ≤ total) }
        ensures room { IfOk result (λ all. total ≤ vec_capacity all) }
        ensures memory { IfErr result (λ why. why ≡ Refusal.Memory) }
        ensures empty { total ≡ 0 → IsOk result }
    {
        let mut all = room_for(*self.front.allocator(), total as usize)?;
        self.lay_all(&mut all, total);
        Ok(all)
    }

    /// Lays all bytes that were put into room for `total`, each at its place.
    fn lay_all(&self, all: &mut Vec<u8>, total: u32)
        requires collected { IsCollected total self.now }
        requires empty { all.old.items ≡ [] }
        requires room { total ≤ vec_capacity all.old }
        ensures bytes { filled_up total all.new.items ≡ contents total self.now }
        ensures len { vec_len all.new ≤ total }
        ensures room { total ≤ vec_capacity all.new }
    {
        lay(all, &self.early, total);
        write_at(all, 0, &self.front);
    }

    /// Whether a piece is the end of a packet of `total` bytes, and the front has all that is before it.
    pub(crate) fn is_end(&self, total: u32, offset: u32, bytes: &[u8]) -> bool
        requires { offset + length bytes.now ≤ total }
        ensures order { IsTrue result → length self.now.front.items ≡ offset }
        ensures end { IsTrue result → offset + length bytes.now ≡ total }
        ensures room { IsTrue result → total ≤ self.now.front_room }
    {
        let all = total as usize;
        self.front.len() == offset as usize
            && offset as usize + bytes.len() == all
            && self.front_room >= all
    }

    /// The front, with the end of the packet behind it, becomes the packet's body. No byte of the front is copied. Where the
    /// memory for the count of the body's owners can't be had, it answers `Refusal::Memory` and leaves the bytes as they were.
    pub(crate) fn hand_on(&mut self, total: u32, bytes: &[u8]) -> Result<Bytes, Refusal>
        requires collected { IsCollected total self.old }
        requires end { length self.old.front.items + length bytes.now ≡ total }
        requires room { total ≤ self.old.front_room }
        ensures ok { IfOk result (λ body. body ≡ self.old.front.items ++ bytes.now) }
        ensures collected { OnErr result (IsCollected total self.new) }
        ensures same { OnErr result (contents total self.new ≡ contents total self.old) }
        ensures thrifty { OnErr result ((came pieces : ℕ) → IsThrifty came pieces self.old → IsThrifty came pieces self.new) }
        ensures memory { IfErr result (λ why. why ≡ Refusal.Memory) }
    {
        match body_of(&mut self.front, bytes) {
            Some(body) => Ok(body),
            None => {
                self.front_room = total as usize;
                Err(Refusal::Memory)
            }
        }
    }

    /// How many bytes of memory it has taken.
    pub(crate) fn memory(&self) -> usize
        requires { taken_by self.now < 2 ^ 64 }
        ensures { result ≡ taken_by self.now }
    {
        self.front_room + self.early_bytes + EARLY_PLACE * self.early.capacity()
    }
}

/// These bytes, with others behind them for which there is room, become a body. Where the memory for its owners' count can't
/// be had, they stay as they were.
fn body_of(front: &mut Vec<u8>, bytes: &[u8]) -> Option<Bytes>
    requires { vec_len front.old + length bytes.now ≤ vec_capacity front.old }
    ensures some { IfSome result (λ body. body ≡ front.old.items ++ bytes.now) }
    ensures none { result ≡ None → front.new.items ≡ front.old.items }
    ensures room { result ≡ None → vec_len front.old + length bytes.now ≤ vec_capacity front.new }
{
    let len = front.len();
    append(front, bytes);
    let nothing = Vec::new(*front.allocator());
    match Bytes::from_vec(mem::replace(front, nothing)) {
        Ok(body) => Some(body),
        Err(refused) => {
            *front = refused.value;
            front.truncate(len);
            None
        }
    }
}

/// Keeps a piece as it is. Answers whether there was memory for it; where there was none, the pieces stay as they are.
fn keep(early: &mut Vec<EarlyPiece>, offset: u32, bytes: &[u8]) -> bool
    ensures kept { IsTrue result → AddsPiece early.old.items offset bytes.now early.new.items }
    ensures same { result ≡ false → early.new.items ≡ early.old.items }
    ensures places { 2 * vec_capacity early.old ≤ 3 * vec_len early.old + 8 → 2 * vec_capacity early.new ≤ 3 * vec_len early.new + 8 }
{
    let Ok(body) = Vec::from_slice(*early.allocator(), bytes) else {
        return false;
    };
    if !make_place(early) {
        return false;
    }
    early.push_reserved(EarlyPiece { offset, body });
    true
}

/// Makes room for one early piece more, and for half as many again.
fn make_place(early: &mut Vec<EarlyPiece>) -> bool
    ensures items { early.new.items ≡ early.old.items }
    ensures room { IsTrue result → vec_len early.new < vec_capacity early.new }
    ensures places { 2 * vec_capacity early.old ≤ 3 * vec_len early.old + 8 → 2 * vec_capacity early.new ≤ 3 * vec_len early.new + 8 }
{
    let len = early.len();
    len < early.capacity() || early.reserve_exact(len / 2 + 4).is_ok()
}

/// Writes early pieces at their places, for which there is room, in the order in which they came.
fn lay(buffer: &mut Vec<u8>, early: &[EarlyPiece], total: u32)
    requires within { AreWithin total early.now }
    requires room { total ≤ vec_capacity buffer.old }
    requires len { vec_len buffer.old ≤ total }
    ensures bytes { filled_up total buffer.new.items ≡ laid (filled_up total buffer.old.items) early.now }
    ensures len { vec_len buffer.new ≤ total }
    ensures room { total ≤ vec_capacity buffer.new }
{
    for piece in early {
        write_at(buffer, piece.offset as usize, &piece.body);
    }
}
