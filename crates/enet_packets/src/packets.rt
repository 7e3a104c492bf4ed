//! Packets by their numbers.

ghost use Rattle.std.specs.Prelude.{◌≡◌, ℕ, ◌+◌, ◌^◌, ◌≤◌, ◌<◌, ◌++◌, [], ◌∷◌, false, length, ◌&&◌, nat_lt, nat_le, if◌then◌else◌, IsTrue, OnOk, OnErr, IfErr, Some, None, All};
ghost use Rattle.std.specs.Option.{IsSomeAnd, IfSome, IfNone, option_copied};
ghost use Rattle.std.specs.Ordering.{nat_cmp};
ghost use Rattle.std.specs.BTreeMap as tree;
ghost use Rattle.std.specs.FinMap as map;
ghost use Rattle.std.specs.Map.{set_value};
ghost use Rattle.std.specs.VecDeque.{deque_len, deque_capacity};
ghost use Rattle.enet_fragment.specs.PartialPacket.{belongs, piece_at, with_piece};
ghost use Rattle.enet_fragment.specs.Whole.{is_whole};

use crate::boxed_packet::BoxedPacket;
use crate::look::look_at;
use crate::{Dispatched, IncomingPacket};
use enet_codec::Refusal;
use enet_fragment::Place;
use std::alloc::Global;
use std::collections::{BTreeMap, VecDeque};
use std::marker::Model;

/// Packets by their numbers. Contracts see it as a finite map.
#[derive(Drop)]
pub struct Packets {
    alloc: Global,
    packets: BTreeMap<u16, BoxedPacket>,
    bytes: u64,
    /// No whole packet has a number above this one, so those past it are in the making and need not be looked at.
    last_whole: u16,
}

impl Model for Packets {
    ghost use Rattle.std.specs.Ordering.{nat_cmp};
    ghost use Rattle.std.specs.FinMap.{FinMap, from_entries};
    ghost use Rattle.enet_packets.specs.Codes.{packets_code};
    ghost use Rattle.enet_packets.specs.Invariant.{KeepsPackets};
    ghost use Rattle.enet_packets.specs.declared.incoming_packet.IncomingPacket.{IncomingPacket};

    ghost Value = { FinMap nat_cmp IncomingPacket };

    ghost coded = { packets_code };

    ghost view = { λ p. from_entries p.packets.entries };

    ghost invariant = { λ p. KeepsPackets p.packets.entries p.bytes p.last_whole };
}

ghost use Rattle.enet_packets.specs.declared.incoming_packet.IncomingPacket.{IncomingPacket};
ghost use Rattle.enet_packets.specs.Invariant.{KeepsPackets};
ghost use Rattle.enet_packets.specs.Private.Invariant.{most_if, most_with};
ghost use Rattle.enet_packets.specs.Packets.{bytes_of, fresh, last_fresh, still_ahead, handed_out};

/// Adds a packet, where memory is not refused.
fn put(
    packets: &mut BTreeMap<u16, BoxedPacket>,
    alloc: Global,
    number: u16,
    coming: IncomingPacket,
) -> bool
    ensures added { IsTrue result → packets.new.entries ≡ tree.insert_entry nat_cmp packets.old.entries number coming }
    ensures refused { result ≡ false → packets.new.entries ≡ packets.old.entries }
    ensures ordered { IsTrue result → tree.IsOrdered nat_cmp packets.new }
{
    let Some(boxed) = BoxedPacket::new(alloc, coming) else {
        return false;
    };
    match packets.insert(number, boxed) {
        Ok(_) => true,
        Err(_) => false,
    }
}

/// Adds a piece to the packet of this number. Answers whether that is whole then.
fn add_piece(
    packets: &mut BTreeMap<u16, BoxedPacket>,
    number: u16,
    place: Place,
    bytes: &[u8],
) -> Result<bool, Refusal>
    requires fits { place.len ≡ length bytes.now }
    requires there { IsSomeAnd (tree.get nat_cmp packets.old number) (λ c. IsTrue (belongs c.making place) × (piece_at c.making place.number ≡ None)) }
    ensures ok { OnOk result ((c : IncomingPacket) → tree.get nat_cmp packets.old number ≡ Some c
        → packets.new.entries ≡ set_value (tree.is_at (nat_cmp number)) packets.old.entries (record { flags = c.flags; making = with_piece c.making place bytes.now })) }
    ensures err { OnErr result (packets.new.entries ≡ packets.old.entries) }
    ensures memory { IfErr result (λ why. why ≡ Refusal.Memory) }
    ensures kept { (bytes most : ℕ) → KeepsPackets packets.old.entries bytes most → KeepsPackets packets.new.entries bytes (most_with result most number) }
{
    match packets.get_mut(&number) {
        Some(coming) => coming.add(place, bytes),
        None => Ok(false),
    }
}

/// The number past which no packet is whole, once the one of this number came or grew.
fn whole_up_to(last_whole: u16, number: u16, is_whole: bool) -> u16
    ensures { result ≡ most_if is_whole last_whole number }
{
    if is_whole {
        last_whole.max(number)
    } else {
        last_whole
    }
}

/// Whether a packet is whole and its number above `last`.
fn is_newer(number: u16, coming: &BoxedPacket, last: u16) -> bool
    ensures { result ≡ (is_whole coming.now.making && nat_lt last number) }
{
    coming.packet().making.is_whole() && last < number
}

/// Whether a packet is handed out where those from `first` on are.
fn is_fresh(number: u16, coming: &BoxedPacket, first: u32) -> bool
    ensures { result ≡ (is_whole coming.now.making && nat_le first number) }
{
    coming.packet().making.is_whole() && first <= u32::from(number)
}

/// Takes the first packet out, if its number is at most `until`.
fn pop_up_to(packets: &mut BTreeMap<u16, BoxedPacket>, until: u16) -> Option<(u16, BoxedPacket)>
    ensures some { IfSome result (λ e. packets.old.entries ≡ e ∷ packets.new.entries) }
    ensures low { IfSome result (λ e. e.0 ≤ until) }
    ensures none { IfNone result (packets.new.entries ≡ packets.old.entries) }
    ensures past { IfNone result (All (λ k. until < k) (tree.keys packets.old)) }
{
    let (number, _) = packets.first_key_value()?;
    if *number > until {
        return None;
    }
    packets.pop_first()
}

/// Hands a packet out if it is whole and its number at least `first`.
fn hand_out(number: u16, coming: BoxedPacket, first: u32, dispatched: &mut VecDeque<Dispatched>)
    requires { deque_len dispatched.old < deque_capacity dispatched.old }
    ensures items { dispatched.new.items ≡ (if is_whole coming.making && nat_le first number then dispatched.old.items ++ handed_out coming ∷ [] else dispatched.old.items) }
    ensures room { deque_len dispatched.new ≤ deque_len dispatched.old + 1 }
    ensures capacity { deque_capacity dispatched.new ≡ deque_capacity dispatched.old }
{
    if is_fresh(number, &coming, first) {
        dispatched.push_back_reserved(coming.into_packet().handed_out());
    }
}

impl Packets {
    /// No packets.
    pub fn new(alloc: Global) -> Packets
        ensures { result ≡ map.empty }
    {
        Packets {
            alloc,
            packets: BTreeMap::new(alloc),
            bytes: 0,
            last_whole: 0,
        }
    }

    /// How many packets there are.
    pub fn len(&self) -> usize
        ensures len { result ≡ map.len self.now }
        ensures small { result ≤ 65536 }
    {
        self.packets.len()
    }

    /// The packets' bytes; each counts whole from its first piece on (ENet 1.3).
    pub fn bytes(&self) -> u64
        ensures bytes { result ≡ bytes_of self.now }
        ensures small { result < 2 ^ 48 }
    {
        look_at(&self.packets);
        self.bytes
    }

    /// The packet of this number, if there is one.
    pub fn get(&self, number: u16) -> Option<&IncomingPacket>
        ensures { option_copied result ≡ map.get self.now number }
    {
        match self.packets.get(&number) {
            Some(coming) => Some(coming.packet()),
            None => None,
        }
    }

    /// Adds a packet under a number that has none. `Refusal::Memory` changes nothing.
    pub fn insert(&mut self, number: u16, coming: IncomingPacket) -> Result<(), Refusal>
        requires absent { map.get self.old number ≡ None }
        ensures ok { OnOk result (self.new ≡ map.insert self.old number coming) }
        ensures err { OnErr result (self.new ≡ self.old) }
        ensures memory { IfErr result (λ why. why ≡ Refusal.Memory) }
        ensures few { map.len self.new ≤ 65536 }
        ensures light { bytes_of self.new < 2 ^ 48 }
    {
        let total = u64::from(coming.making.total());
        let is_whole = coming.making.is_whole();
        if !put(&mut self.packets, self.alloc, number, coming) {
            return Err(Refusal::Memory);
        }
        self.bytes += total;
        self.last_whole = whole_up_to(self.last_whole, number, is_whole);
        Ok(())
    }

    /// Adds a piece to the packet of this number, to which it belongs and in which it is missing. `Refusal::Memory` changes
    /// nothing.
    pub fn add(&mut self, number: u16, place: Place, bytes: &[u8]) -> Result<(), Refusal>
        requires fits { place.len ≡ length bytes.now }
        requires there { IsSomeAnd (map.get self.old number) (λ c. IsTrue (belongs c.making place) × (piece_at c.making place.number ≡ None)) }
        ensures ok { OnOk result ((c : IncomingPacket) → map.get self.old number ≡ Some c
            → self.new ≡ map.insert self.old number (record { flags = c.flags; making = with_piece c.making place bytes.now })) }
        ensures err { OnErr result (self.new ≡ self.old) }
        ensures memory { IfErr result (λ why. why ≡ Refusal.Memory) }
    {
        let is_whole = add_piece(&mut self.packets, number, place, bytes)?;
        self.last_whole = whole_up_to(self.last_whole, number, is_whole);
        Ok(())
    }

    /// Takes the packet of this number out. None, with nothing changed, where there is none.
    pub fn remove(&mut self, number: u16) -> Option<IncomingPacket>
        ensures value { result ≡ map.get self.old number }
        ensures rest { self.new ≡ map.remove self.old number }
    {
        let coming = self.packets.remove(&number)?;
        self.bytes -= u64::from(coming.packet().making.total());
        Some(coming.into_packet())
    }

    /// Takes all packets out.
    pub fn clear(&mut self)
        ensures { self.new ≡ map.empty }
    {
        self.packets.clear();
        self.bytes = 0;
        self.last_whole = 0;
    }

    /// The number of the last whole packet, where that is above `last`, and else `last`. It looks at no packet that `dispatch`
    /// would leave.
    pub fn last_fresh(&self, last: u16) -> u16
        ensures { result ≡ last_fresh last (map.entries self.now) }
    {
        let mut newest = last;
        for (number, coming) in &self.packets {
            if *number > self.last_whole {
                return newest;
            }
            if is_newer(*number, coming, newest) {
                newest = *number;
            }
        }
        newest
    }

    /// How many packets `dispatch` would hand out. It looks at no packet that it would leave.
    pub fn fresh_count(&self, first: u32) -> u32
        ensures count { result ≡ length (fresh first (map.entries self.now)) }
        ensures few { result ≤ 65536 }
    {
        let mut count = 0;
        for (number, coming) in &self.packets {
            if *number > self.last_whole {
                return count;
            }
            if is_fresh(*number, coming, first) {
                count += 1;
            }
        }
        count
    }

    /// Hands the whole packets from number `first` on out, by rising numbers, and moves `last` up to the last whole one. The
    /// packets up to there have fallen behind and go (ENet 1.3), incomplete ones too (our profile); those above it stay. It
    /// takes no memory.
    pub fn dispatch(&mut self, first: u32, last: &mut u16, dispatched: &mut VecDeque<Dispatched>)
        requires room { deque_len dispatched.old + map.len self.old ≤ deque_capacity dispatched.old }
        ensures items { dispatched.new.items ≡ dispatched.old.items ++ fresh first (map.entries self.old) }
        ensures last { last.new ≡ last_fresh last.old (map.entries self.old) }
        ensures rest { self.new ≡ still_ahead self.old (last_fresh last.old (map.entries self.old)) }
        ensures room { deque_len dispatched.new + map.len self.new ≤ deque_len dispatched.old + map.len self.old }
        ensures capacity { deque_capacity dispatched.new ≡ deque_capacity dispatched.old }
    {
        let until = self.last_fresh(*last);
        while let Some((number, coming)) = pop_up_to(&mut self.packets, until) {
            self.bytes -= u64::from(coming.packet().making.total());
            hand_out(number, coming, first, dispatched);
        }
        *last = until;
    }
}
