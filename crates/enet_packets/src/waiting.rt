//! Unreliable packets that wait for their reliable number.

ghost use Rattle.std.specs.Prelude.{◌≡◌, ℕ, ◌+◌, ◌≤◌, ◌++◌, ◌↔◌, length, IsTrue, IsSome, OnOk, OnErr, IfErr, Some, None};
ghost use Rattle.std.specs.Option.{IsSomeAnd, is_some, option_copied};
ghost use Rattle.std.specs.Ordering.{nat_cmp};
ghost use Rattle.std.specs.BTreeMap as tree;
ghost use Rattle.std.specs.FinMap as map;
ghost use Rattle.std.specs.Map.{remove_entry};
ghost use Rattle.std.specs.VecDeque.{deque_len, deque_capacity};
ghost use Rattle.enet_fragment.specs.PartialPacket.{belongs, piece_at, with_piece};

use crate::look::look_at;
use crate::{Dispatched, IncomingPacket, Packets};
use enet_codec::Refusal;
use enet_fragment::Place;
use std::alloc::Global;
use std::collections::{BTreeMap, VecDeque};
use std::marker::Model;

/// Unreliable packets in lines: each line has those of one reliable number, by their unreliable numbers. A line goes once it
/// is empty. Contracts see it as a finite map of finite maps.
#[derive(Drop)]
pub struct Waiting {
    alloc: Global,
    lines: BTreeMap<u16, Packets>,
    packets: usize,
    bytes: u64,
}

impl Model for Waiting {
    ghost use Rattle.std.specs.Ordering.{nat_cmp};
    ghost use Rattle.std.specs.FinMap.{FinMap, from_entries};
    ghost use Rattle.enet_packets.specs.Codes.{waiting_code};
    ghost use Rattle.enet_packets.specs.Invariant.{KeepsWaiting};
    ghost use Rattle.enet_packets.specs.declared.incoming_packet.IncomingPacket.{IncomingPacket};

    ghost Value = { FinMap nat_cmp (FinMap nat_cmp IncomingPacket) };

    ghost coded = { waiting_code };

    ghost view = { λ w. from_entries w.lines.entries };

    ghost invariant = { λ w. KeepsWaiting w.lines.entries w.packets w.bytes };
}

ghost use Rattle.enet_packets.specs.declared.incoming_packet.IncomingPacket.{IncomingPacket};
ghost use Rattle.enet_packets.specs.Invariant.{KeepsLines, KeepsLine, KeepsWaiting};
ghost use Rattle.enet_packets.specs.Private.Invariant.{Settles, line_in};
ghost use Rattle.enet_packets.specs.Packets.{bytes_of, bytes_in, packets_in, fresh, last_fresh, still_ahead, line_at, with_line};

/// How much a line has.
#[derive(Clone, Copy)]
struct Size {
    packets: usize,
    bytes: u64,
}

/// How much the line of a number has, which is nothing where there is no line.
fn size_at(lines: &BTreeMap<u16, Packets>, number: u16) -> Size
    ensures packets { result.packets ≡ map.len (line_in lines.now.entries number) }
    ensures bytes { result.bytes ≡ bytes_of (line_in lines.now.entries number) }
    ensures kept { KeepsLine (line_in lines.now.entries number) }
{
    match lines.get(&number) {
        Some(line) => Size {
            packets: line.len(),
            bytes: line.bytes(),
        },
        None => Size {
            packets: 0,
            bytes: 0,
        },
    }
}

/// Adds a packet to a line that is there.
fn insert_into(
    lines: &mut BTreeMap<u16, Packets>,
    number: u16,
    count: u16,
    coming: IncomingPacket,
) -> Result<(), Refusal>
    requires there { IsSome (tree.get nat_cmp lines.old number) }
    requires absent { map.get (line_in lines.old.entries number) count ≡ None }
    ensures ok { OnOk result (lines.new.entries ≡ tree.insert_entry nat_cmp lines.old.entries number (map.insert (line_in lines.old.entries number) count coming)) }
    ensures err { OnErr result (lines.new.entries ≡ lines.old.entries) }
    ensures memory { IfErr result (λ why. why ≡ Refusal.Memory) }
    ensures kept { OnOk result (KeepsLine (map.insert (line_in lines.old.entries number) count coming)) }
    ensures ordered { tree.IsOrdered nat_cmp lines.new }
{
    match lines.get_mut(&number) {
        Some(line) => line.insert(count, coming),
        None => Ok(()),
    }
}

/// Begins a line with a packet.
fn begin(
    lines: &mut BTreeMap<u16, Packets>,
    alloc: Global,
    number: u16,
    count: u16,
    coming: IncomingPacket,
) -> Result<(), Refusal>
    requires absent { tree.get nat_cmp lines.old number ≡ None }
    ensures ok { OnOk result (lines.new.entries ≡ tree.insert_entry nat_cmp lines.old.entries number (map.insert map.empty count coming)) }
    ensures err { OnErr result (lines.new.entries ≡ lines.old.entries) }
    ensures memory { IfErr result (λ why. why ≡ Refusal.Memory) }
    ensures kept { OnOk result (KeepsLine (map.insert map.empty count coming)) }
    ensures ordered { OnOk result (tree.IsOrdered nat_cmp lines.new) }
{
    let mut line = Packets::new(alloc);
    line.insert(count, coming)?;
    match lines.insert(number, line) {
        Ok(_) => Ok(()),
        Err(_) => Err(Refusal::Memory),
    }
}

/// Adds a packet to the line of a number, which is begun where there is none.
fn insert_at(
    lines: &mut BTreeMap<u16, Packets>,
    alloc: Global,
    number: u16,
    count: u16,
    coming: IncomingPacket,
) -> Result<(), Refusal>
    requires absent { map.get (line_in lines.old.entries number) count ≡ None }
    ensures ok { OnOk result (lines.new.entries ≡ tree.insert_entry nat_cmp lines.old.entries number (map.insert (line_in lines.old.entries number) count coming)) }
    ensures err { OnErr result (lines.new.entries ≡ lines.old.entries) }
    ensures memory { IfErr result (λ why. why ≡ Refusal.Memory) }
    ensures kept { OnOk result (KeepsLine (map.insert (line_in lines.old.entries number) count coming)) }
    ensures ordered { OnOk result (tree.IsOrdered nat_cmp lines.new) }
{
    if lines.contains_key(&number) {
        insert_into(lines, number, count, coming)
    } else {
        begin(lines, alloc, number, count, coming)
    }
}

/// Adds a piece to a packet in the line of a number.
fn add_piece(
    lines: &mut BTreeMap<u16, Packets>,
    number: u16,
    count: u16,
    place: Place,
    bytes: &[u8],
) -> Result<(), Refusal>
    requires fits { place.len ≡ length bytes.now }
    requires there { IsSomeAnd (map.get (line_in lines.old.entries number) count) (λ c. IsTrue (belongs c.making place) × (piece_at c.making place.number ≡ None)) }
    ensures ok { OnOk result ((c : IncomingPacket) → map.get (line_in lines.old.entries number) count ≡ Some c
        → lines.new.entries ≡ tree.insert_entry nat_cmp lines.old.entries number (map.insert (line_in lines.old.entries number) count (record { flags = c.flags; making = with_piece c.making place bytes.now }))) }
    ensures err { OnErr result (lines.new.entries ≡ lines.old.entries) }
    ensures memory { IfErr result (λ why. why ≡ Refusal.Memory) }
    ensures kept { (packets bytes : ℕ) → KeepsWaiting lines.old.entries packets bytes → KeepsWaiting lines.new.entries packets bytes }
{
    match lines.get_mut(&number) {
        Some(line) => line.add(count, place, bytes),
        None => Ok(()),
    }
}

/// Dispatches a line that is there. It may leave it empty.
fn dispatch_line(
    lines: &mut BTreeMap<u16, Packets>,
    number: u16,
    first: u32,
    last: &mut u16,
    dispatched: &mut VecDeque<Dispatched>,
)
    requires there { IsSome (tree.get nat_cmp lines.old number) }
    requires room { deque_len dispatched.old + map.len (line_in lines.old.entries number) ≤ deque_capacity dispatched.old }
    ensures items { dispatched.new.items ≡ dispatched.old.items ++ fresh first (map.entries (line_in lines.old.entries number)) }
    ensures last { last.new ≡ last_fresh last.old (map.entries (line_in lines.old.entries number)) }
    ensures rest { lines.new.entries ≡ tree.insert_entry nat_cmp lines.old.entries number (still_ahead (line_in lines.old.entries number) last.new) }
    ensures room { deque_len dispatched.new + map.len (still_ahead (line_in lines.old.entries number) last.new) ≤ deque_len dispatched.old + map.len (line_in lines.old.entries number) }
    ensures capacity { deque_capacity dispatched.new ≡ deque_capacity dispatched.old }
    ensures ordered { tree.IsOrdered nat_cmp lines.new }
{
    if let Some(line) = lines.get_mut(&number) {
        line.dispatch(first, last, dispatched);
    }
}

/// Takes a line out.
fn take_out(lines: &mut BTreeMap<u16, Packets>, number: u16)
    ensures entries { lines.new.entries ≡ remove_entry (tree.is_at (nat_cmp number)) lines.old.entries }
    ensures updates { tree.Updates nat_cmp lines.old lines.new number None }
    ensures ordered { tree.IsOrdered nat_cmp lines.new }
{
    lines.remove(&number);
}

/// Dispatches a line that is there, and takes it out once it is empty. Answers how much is left of it.
fn flush_line(
    lines: &mut BTreeMap<u16, Packets>,
    number: u16,
    first: u32,
    last: &mut u16,
    dispatched: &mut VecDeque<Dispatched>,
) -> Size
    requires there { IsSome (tree.get nat_cmp lines.old number) }
    requires room { deque_len dispatched.old + map.len (line_in lines.old.entries number) ≤ deque_capacity dispatched.old }
    ensures items { dispatched.new.items ≡ dispatched.old.items ++ fresh first (map.entries (line_in lines.old.entries number)) }
    ensures last { last.new ≡ last_fresh last.old (map.entries (line_in lines.old.entries number)) }
    ensures rest { KeepsLines lines.old.entries → Settles lines.old.entries lines.new.entries number (still_ahead (line_in lines.old.entries number) last.new) }
    ensures packets { result.packets ≡ map.len (still_ahead (line_in lines.old.entries number) last.new) }
    ensures bytes { result.bytes ≡ bytes_of (still_ahead (line_in lines.old.entries number) last.new) }
    ensures room { deque_len dispatched.new + result.packets ≤ deque_len dispatched.old + map.len (line_in lines.old.entries number) }
    ensures capacity { deque_capacity dispatched.new ≡ deque_capacity dispatched.old }
{
    dispatch_line(lines, number, first, last, dispatched);
    let left = size_at(lines, number);
    if left.packets == 0 {
        take_out(lines, number);
    }
    left
}

impl Waiting {
    /// No packets.
    pub fn new(alloc: Global) -> Waiting
        ensures { result ≡ map.empty }
    {
        Waiting {
            alloc,
            lines: BTreeMap::new(alloc),
            packets: 0,
            bytes: 0,
        }
    }

    /// Whether there is no line, and so no packet.
    pub fn is_empty(&self) -> bool
        ensures { IsTrue result ↔ (map.len self.now ≡ 0) }
    {
        self.lines.is_empty()
    }

    /// Whether a packet waits for this reliable number: lines have one at least.
    pub fn has_line(&self, number: u16) -> bool
        ensures { result ≡ is_some (map.get self.now number) }
    {
        self.lines.contains_key(&number)
    }

    /// How many packets there are in all lines.
    pub fn packets(&self) -> usize
        ensures { result ≡ packets_in self.now }
    {
        look_at(&self.lines);
        self.packets
    }

    /// The packets' bytes; each counts whole from its first piece on (ENet 1.3).
    pub fn bytes(&self) -> u64
        ensures { result ≡ bytes_in self.now }
    {
        look_at(&self.lines);
        self.bytes
    }

    /// The packet of unreliable number `count` in the line of `number`, if there is one.
    pub fn get(&self, number: u16, count: u16) -> Option<&IncomingPacket>
        ensures { option_copied result ≡ map.get (line_at self.now number) count }
    {
        match self.lines.get(&number) {
            Some(line) => line.get(count),
            None => None,
        }
    }

    /// Adds a packet to the line of `number`, which has none of unreliable number `count`. `Refusal::Memory` changes nothing.
    pub fn insert(&mut self, number: u16, count: u16, coming: IncomingPacket) -> Result<(), Refusal>
        requires absent { map.get (line_at self.old number) count ≡ None }
        ensures ok { OnOk result (self.new ≡ with_line self.old number (map.insert (line_at self.old number) count coming)) }
        ensures one_more { OnOk result (packets_in self.new ≡ packets_in self.old + 1) }
        ensures err { OnErr result (self.new ≡ self.old) }
        ensures memory { IfErr result (λ why. why ≡ Refusal.Memory) }
    {
        let total = u64::from(coming.making.total());
        insert_at(&mut self.lines, self.alloc, number, count, coming)?;
        self.packets += 1;
        self.bytes += total;
        Ok(())
    }

    /// Adds a piece to the packet of unreliable number `count` in the line of `number`. The piece belongs to the packet, which
    /// is there, and is missing in it. `Refusal::Memory` changes nothing.
    pub fn add(
        &mut self,
        number: u16,
        count: u16,
        place: Place,
        bytes: &[u8],
    ) -> Result<(), Refusal>
        requires fits { place.len ≡ length bytes.now }
        requires there { IsSomeAnd (map.get (line_at self.old number) count) (λ c. IsTrue (belongs c.making place) × (piece_at c.making place.number ≡ None)) }
        ensures ok { OnOk result ((c : IncomingPacket) → map.get (line_at self.old number) count ≡ Some c
            → self.new ≡ with_line self.old number (map.insert (line_at self.old number) count (record { flags = c.flags; making = with_piece c.making place bytes.now }))) }
        ensures packets { packets_in self.new ≡ packets_in self.old }
        ensures err { OnErr result (self.new ≡ self.old) }
        ensures memory { IfErr result (λ why. why ≡ Refusal.Memory) }
    {
        add_piece(&mut self.lines, number, count, place, bytes)
    }

    /// Takes the line of a number out, with all its packets; where there is none, nothing changes.
    pub fn forget(&mut self, number: u16)
        ensures rest { self.new ≡ map.remove self.old number }
        ensures fewer { packets_in self.new ≤ packets_in self.old }
    {
        if let Some(line) = self.lines.remove(&number) {
            self.packets -= line.len();
            self.bytes -= line.bytes();
        }
    }

    /// How many packets `flush` would hand out.
    pub fn fresh_count(&self, number: u16, first: u32) -> u32
        ensures count { result ≡ length (fresh first (map.entries (line_at self.now number))) }
        ensures few { result ≤ 65536 }
    {
        match self.lines.get(&number) {
            Some(line) => line.fresh_count(first),
            None => 0,
        }
    }

    /// Dispatches the line of a number: its whole packets with unreliable numbers from `first` on are handed out, by rising
    /// numbers, and `last` moves up to the last whole one. The packets up to there have fallen behind and go (ENet 1.3),
    /// incomplete ones too (our profile); those above it stay. It takes no memory.
    pub fn flush(
        &mut self,
        number: u16,
        first: u32,
        last: &mut u16,
        dispatched: &mut VecDeque<Dispatched>,
    )
        requires room { deque_len dispatched.old + packets_in self.old ≤ deque_capacity dispatched.old }
        ensures items { dispatched.new.items ≡ dispatched.old.items ++ fresh first (map.entries (line_at self.old number)) }
        ensures last { last.new ≡ last_fresh last.old (map.entries (line_at self.old number)) }
        ensures rest { self.new ≡ with_line self.old number (still_ahead (line_at self.old number) last.new) }
        ensures room { deque_len dispatched.new + packets_in self.new ≤ deque_len dispatched.old + packets_in self.old }
        ensures capacity { deque_capacity dispatched.new ≡ deque_capacity dispatched.old }
    {
        if !self.lines.contains_key(&number) {
            return;
        }
        let was = size_at(&self.lines, number);
        let left = flush_line(&mut self.lines, number, first, last, dispatched);
        self.packets = self.packets - was.packets + left.packets;
        self.bytes = self.bytes - was.bytes + left.bytes;
    }

    /// Takes all lines out.
    pub fn clear(&mut self)
        ensures { self.new ≡ map.empty }
    {
        self.lines.clear();
        self.packets = 0;
        self.bytes = 0;
    }
}
