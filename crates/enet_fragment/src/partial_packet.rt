//! A packet that came or is coming.

ghost use Rattle.std.specs.Prelude.{◌≡◌, ◌≤◌, ◌<◌, ◌^◌, None, IsTrue, IfOk, IfErr, OnOk, OnErr, is_some, length};
ghost use Rattle.enet_fragment.specs.PartialPacket.{nothing_yet, put_outcome, belongs, piece_at, with_piece, count_of, joined};
ghost use Rattle.enet_fragment.specs.Memory.{memory_bound};
ghost use Rattle.enet_fragment.specs.Stored.{stored, IsStored, IsFrugal};
ghost use Rattle.enet_fragment.specs.Place.{is_sound};
ghost use Rattle.enet_fragment.specs.Whole.{is_whole, single_of};
ghost use Rattle.enet_fragment.specs.Gathered.{gathered, IsKept};

use crate::piece_store::{PieceStore, has_same_cut};
use crate::{Place, Put};
use bytes::Bytes;
use enet_codec::Refusal;
use std::alloc::Global;
use std::marker::Model;
use std::mem;

/// A packet that came or is coming: the pieces that are here. Once the last one has come it is one body. Contracts see it
/// as a `PartialPacket`, like an `Assembly`.
#[derive(Drop)]
pub struct PartialPacket {
    state: State,
}

/// The pieces so far, or the whole.
#[derive(Drop)]
enum State {
    Missing(PieceStore),
    Whole {
        body: Bytes,
        count: u32,
        cut: Option<usize>,
    },
}

impl Model for PartialPacket {
    ghost use Rattle.enet_fragment.specs.PartialPacket.{PartialPacket, partial_packet_code};

    ghost Value = { PartialPacket };

    ghost coded = { partial_packet_code };

    ghost use Rattle.enet_fragment.specs.Gathered.{gathered, IsKept};

    ghost view = { λ g. gathered g.state };

    ghost invariant = { λ g. IsKept g.state };
}

impl PartialPacket {
    /// A packet that is its only piece, as a command without a fragment brings it.
    pub fn single(body: Bytes) -> PartialPacket
        requires { length body < 2 ^ 32 }
        ensures { result ≡ single_of body }
    {
        PartialPacket {
            state: State::Whole {
                body,
                count: 1,
                cut: Some(0),
            },
        }
    }

    /// The packet of which this is the first piece that came. It takes the piece's bytes and one mark a piece. Answers
    /// `Refusal::Memory` where it can't have them.
    pub fn first(alloc: Global, place: Place, bytes: &[u8]) -> Result<PartialPacket, Refusal>
        requires sound { IsTrue (is_sound place) }
        requires fits { place.len ≡ length bytes.now }
        ensures ok { IfOk result (λ g. g ≡ with_piece (nothing_yet place.count place.total) place bytes.now) }
        ensures memory { IfErr result (λ why. why ≡ Refusal.Memory) }
    {
        if place.count == 1 {
            return match Bytes::copy_from_slice(alloc, bytes) {
                Ok(body) => Ok(PartialPacket::single(body)),
                Err(_) => Err(Refusal::Memory),
            };
        }
        let mut store = PieceStore::new(alloc, place.count, place.total)?;
        store.add(place, bytes)?;
        Ok(PartialPacket {
            state: State::Missing(store),
        })
    }

    /// What becomes of a piece with this place: Bad where the piece can't be one of this packet's, else Again where it has
    /// come, else Whole where every other piece has come, else New. It takes the time of a few tests.
    pub fn foresee(&self, place: Place) -> Put
        ensures { result ≡ put_outcome self.now place }
    {
        match &self.state {
            State::Missing(store) => store.foresee(place),
            State::Whole { .. } => {
                if self.belongs(place) {
                    Put::Again
                } else {
                    Put::Bad
                }
            }
        }
    }

    /// Whether a piece with this place can be one of this packet's: it is sound, it speaks of a packet of this size, and it
    /// tells the cut that earlier pieces told.
    pub fn belongs(&self, place: Place) -> bool
        ensures { result ≡ belongs self.now place }
    {
        match &self.state {
            State::Missing(store) => store.belongs(place),
            State::Whole { body, count, cut } => {
                place.is_sound()
                    && place.is_of_size(*count as usize, body.len())
                    && has_same_cut(*cut, place.told_piece_len())
            }
        }
    }

    /// Whether the piece of this number has come.
    pub fn has(&self, number: u32) -> bool
        ensures { result ≡ is_some (piece_at self.now number) }
    {
        match &self.state {
            State::Missing(store) => store.has(number),
            State::Whole { count, .. } => number < *count,
        }
    }

    /// Adds a piece that belongs to the packet and has not come. The last piece makes the packet one body. Answers
    /// `Refusal::Memory` where that can't have the memory it takes, and has then changed nothing.
    pub fn add(&mut self, place: Place, bytes: &[u8]) -> Result<(), Refusal>
        requires fits { place.len ≡ length bytes.now }
        requires belongs { IsTrue (belongs self.old place) }
        requires missing { piece_at self.old place.number ≡ None }
        ensures ok { OnOk result (self.new ≡ with_piece self.old place bytes.now) }
        ensures err { OnErr result (self.new ≡ self.old) }
        ensures memory { IfErr result (λ why. why ≡ Refusal.Memory) }
    {
        let nothing = State::Whole {
            body: Bytes::new(),
            count: 1,
            cut: None,
        };
        match mem::replace(&mut self.state, nothing) {
            State::Missing(store) => match grown(store, place, bytes) {
                Ok(state) => {
                    self.state = state;
                    Ok(())
                }
                Err(kept) => {
                    self.state = State::Missing(kept);
                    Err(Refusal::Memory)
                }
            },
            State::Whole { .. } => unreachable!(),
        }
    }

    /// Whether every piece has come.
    pub fn is_whole(&self) -> bool
        ensures { result ≡ is_whole self.now }
    {
        match &self.state {
            State::Missing(_) => false,
            State::Whole { .. } => true,
        }
    }

    /// How many pieces the packet has, at least 1.
    pub fn count(&self) -> u32
        ensures value { result ≡ count_of self.now }
        ensures some { 1 ≤ result }
    {
        match &self.state {
            State::Missing(store) => store.count(),
            State::Whole { count, .. } => *count,
        }
    }

    /// How many bytes the packet has, with those that have not come.
    pub fn total(&self) -> u32
        ensures { result ≡ self.now.total }
    {
        match &self.state {
            State::Missing(store) => store.total(),
            State::Whole { body, .. } => body.len() as u32,
        }
    }

    /// How many bytes of memory it has taken for its pieces: at most twice their bytes, 64 for each of them, a bit for each
    /// piece of the packet, and 512 bytes.
    pub fn memory(&self) -> u64
        ensures { result ≤ memory_bound self.now }
    {
        match &self.state {
            State::Missing(store) => store.memory(),
            State::Whole { body, .. } => body.len() as u64,
        }
    }

    /// The bytes of a whole packet. It takes no memory.
    pub fn into_body(self) -> Bytes
        requires { IsTrue (is_whole self) }
        ensures { result ≡ joined self.pieces }
    {
        let PartialPacket { state } = self;
        match state {
            State::Missing(_) => unreachable!(),
            State::Whole { body, .. } => body,
        }
    }
}

/// The pieces with one that belongs to them and has not come; one body if it was the last. For want of memory it hands the
/// pieces back as they were.
fn grown(mut store: PieceStore, place: Place, bytes: &[u8]) -> Result<State, PieceStore>
    requires stored { IsStored store × IsFrugal store }
    requires fits { place.len ≡ length bytes.now }
    requires belongs { IsTrue (belongs (stored store) place) }
    requires missing { piece_at (stored store) place.number ≡ None }
    ensures ok { IfOk result (λ state. gathered state ≡ with_piece (stored store) place bytes.now) }
    ensures kept { IfOk result IsKept }
    ensures memory { IfErr result (λ kept. stored kept ≡ stored store) }
    ensures handed_back { IfErr result (λ kept. IsKept (State.Missing kept)) }
{
    if store.misses_one() {
        return match store.body_with(place, bytes) {
            Ok(body) => Ok(State::Whole {
                body,
                count: place.count,
                cut: Some(place.told_piece_len()),
            }),
            Err(_) => Err(store),
        };
    }
    match store.add(place, bytes) {
        Ok(()) => Ok(State::Missing(store)),
        Err(_) => Err(store),
    }
}
