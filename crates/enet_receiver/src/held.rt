//! Reliable packets that are held.

ghost use Rattle.std.specs.Prelude.{◌≡◌, ◌≤◌, ◌<◌, ◌^◌, IsTrue, OnOk, OnErr, IfErr, Some, None, length};
ghost use Rattle.std.specs.Option.{IsSomeAnd, option_copied};
ghost use Rattle.std.specs.FinMap as map;
ghost use Rattle.enet_fragment.specs.PartialPacket.{belongs, piece_at, with_piece};
ghost use Rattle.enet_packets.specs.Packets.{bytes_of};
ghost use Rattle.enet_packets.specs.declared.incoming_packet.IncomingPacket.{IncomingPacket};

use crate::block::Block;
use crate::marking::{is_marked, mark, unmark};
use enet_codec::Refusal;
use enet_fragment::Place;
use enet_packets::{IncomingPacket, Packets};
use std::alloc::Global;
use std::marker::Model;

/// Packets by the numbers of their first pieces, with a mark for each number that has one: where a number isn't marked, no map is
/// looked into. The marks of a block of 4,096 numbers are made when the first of them is held, and given up with the last.
/// Contracts see it as a finite map.
#[derive(Drop)]
pub(crate) struct Held {
    alloc: Global,
    packets: Packets,
    blocks: Vec<Option<Block>>,
}

impl Model for Held {
    ghost use Rattle.std.specs.Ordering.{nat_cmp};
    ghost use Rattle.std.specs.FinMap.{FinMap};
    ghost use Rattle.enet_packets.specs.Codes.{packets_code};
    ghost use Rattle.enet_packets.specs.declared.incoming_packet.IncomingPacket.{IncomingPacket};
    ghost use Rattle.enet_receiver.specs.Blocks.{AreMarked};

    ghost Value = { FinMap nat_cmp IncomingPacket };

    ghost coded = { packets_code };

    ghost view = { λ h. h.packets };

    ghost invariant = { λ h. AreMarked h.blocks.items h.packets };
}

impl Held {
    /// No packets. It takes no memory.
    pub(crate) fn new(alloc: Global) -> Held
        ensures { result ≡ map.empty }
    {
        Held {
            alloc,
            packets: Packets::new(alloc),
            blocks: Vec::new(alloc),
        }
    }

    /// How many packets there are.
    pub(crate) fn len(&self) -> usize
        ensures len { result ≡ map.len self.now }
        ensures small { result ≤ 65536 }
    {
        self.packets.len()
    }

    /// The packets' bytes; each counts whole from its first piece on (ENet 1.3).
    pub(crate) fn bytes(&self) -> u64
        ensures bytes { result ≡ bytes_of self.now }
        ensures small { result < 2 ^ 48 }
    {
        self.packets.bytes()
    }

    /// The packet of this number, if there is one.
    pub(crate) fn get(&self, number: u16) -> Option<&IncomingPacket>
        ensures { option_copied result ≡ map.get self.now number }
    {
        if is_marked(&self.blocks, number) {
            self.packets.get(number)
        } else {
            None
        }
    }

    /// Adds a packet under a number that has none. `Refusal::Memory` changes nothing.
    pub(crate) fn insert(&mut self, number: u16, coming: IncomingPacket) -> Result<(), Refusal>
        requires absent { map.get self.old number ≡ None }
        ensures ok { OnOk result (self.new ≡ map.insert self.old number coming) }
        ensures err { OnErr result (self.new ≡ self.old) }
        ensures memory { IfErr result (λ why. why ≡ Refusal.Memory) }
    {
        if !mark(self.alloc, &mut self.blocks, number) {
            return Err(Refusal::Memory);
        }
        let put = self.packets.insert(number, coming);
        if put.is_err() {
            unmark(&mut self.blocks, number);
        }
        put
    }

    /// Adds a piece to the packet of this number, to which it belongs and in which it is missing. `Refusal::Memory` changes
    /// nothing.
    pub(crate) fn add(&mut self, number: u16, place: Place, bytes: &[u8]) -> Result<(), Refusal>
        requires fits { place.len ≡ length bytes.now }
        requires there { IsSomeAnd (map.get self.old number) (λ c. IsTrue (belongs c.making place) × (piece_at c.making place.number ≡ None)) }
        ensures ok { OnOk result ((c : IncomingPacket) → map.get self.old number ≡ Some c
            → self.new ≡ map.insert self.old number (record { flags = c.flags; making = with_piece c.making place bytes.now })) }
        ensures err { OnErr result (self.new ≡ self.old) }
        ensures memory { IfErr result (λ why. why ≡ Refusal.Memory) }
    {
        self.packets.add(number, place, bytes)
    }

    /// Takes the packet of this number out. None, with nothing changed, where there is none.
    pub(crate) fn remove(&mut self, number: u16) -> Option<IncomingPacket>
        ensures value { result ≡ map.get self.old number }
        ensures rest { self.new ≡ map.remove self.old number }
    {
        if !is_marked(&self.blocks, number) {
            return None;
        }
        unmark(&mut self.blocks, number);
        self.packets.remove(number)
    }

    /// Takes all packets out.
    pub(crate) fn clear(&mut self)
        ensures { self.new ≡ map.empty }
    {
        self.packets.clear();
        self.blocks.clear();
    }
}
