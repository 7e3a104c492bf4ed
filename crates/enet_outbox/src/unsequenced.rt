//! The unsequenced packets that wait to be put out.

ghost use Rattle.std.specs.Prelude.{◌≡◌, ◌+◌, ◌-◌, ◌<◌, ◌≤◌, ◌==◌, ◌↔◌, ◌∷◌, ◌++◌, [], false, length, drop, IsTrue, IsSome, IfSome, slice_index_or};
ghost use Rattle.std.specs.VecDeque.{deque_len, deque_capacity};
ghost use Rattle.enet_outbox.specs.Outstanding.{bytes_waiting};
ghost use Rattle.enet_outbox.specs.Private.Packing.{most_unused};

use crate::Unsequenced;
use bytes::Bytes;
use std::alloc::Global;
use std::collections::VecDeque;
use std::marker::Model;
use std::mem;

/// For no more than so many packets room is kept where none waits.
const MOST_UNUSED: usize = 8;

/// The unsequenced packets of a peer that wait to be put out, in the order of their submission; contracts see their list. Their bytes are
/// counted.
#[derive(Drop)]
pub(crate) struct UnsequencedQueue {
    packets: VecDeque<Unsequenced>,
    bytes: u64,
}

impl Model for UnsequencedQueue {
    ghost use Rattle.std.specs.Prelude.{◌≡◌, List};
    ghost use Rattle.enet_outbox.specs.declared.parts.Unsequenced.{Unsequenced};
    ghost use Rattle.enet_outbox.specs.Outstanding.{bytes_waiting};

    ghost Value = { List Unsequenced };

    ghost view = { λ q. q.packets.items };

    ghost invariant = { λ q. q.bytes ≡ bytes_waiting q.packets.items };
}

/// Gives most of the room back of a list in which nothing is.
#[inline(always)]
fn give_unused_back(packets: &mut VecDeque<Unsequenced>)
    ensures same { packets.new.items ≡ packets.old.items }
    ensures room { deque_len packets.new ≡ 0 → deque_capacity packets.new ≤ most_unused }
{
    if packets.is_empty() && packets.capacity() > MOST_UNUSED {
        packets.shrink_to_fit();
    }
}

impl UnsequencedQueue {
    /// No packet. It takes no memory.
    pub(crate) fn new(alloc: Global) -> UnsequencedQueue
        ensures { result ≡ [] }
    {
        UnsequencedQueue {
            packets: VecDeque::new(alloc),
            bytes: 0,
        }
    }

    /// Queues a packet: its body is taken, and an empty one left. False where memory is refused, or 64 bits don't count all bytes: then
    /// nothing has changed, and the body is still there.
    pub(crate) fn push(&mut self, channel: u8, group: u16, body: &mut Bytes) -> bool
        ensures queued { IsTrue result → self.new ≡ self.old ++ (record { channel = channel; group = group; body = body.old }) ∷ [] }
        ensures taken { IsTrue result → body.new ≡ [] }
        ensures same { result ≡ false → self.new ≡ self.old }
        ensures left { result ≡ false → body.new ≡ body.old }
    {
        let Some(bytes) = self.bytes.checked_add(body.len() as u64) else {
            return false;
        };
        if self.packets.reserve(1).is_err() {
            return false;
        }
        self.bytes = bytes;
        self.packets.push_back_reserved(Unsequenced {
            channel,
            group,
            body: mem::replace(body, Bytes::new()),
        });
        true
    }

    /// How many packets wait.
    pub(crate) fn len(&self) -> usize
        ensures { result ≡ length self.now }
    {
        self.packets.len()
    }

    /// Whether none waits.
    pub(crate) fn is_empty(&self) -> bool
        ensures { result ≡ (length self.now == 0) }
    {
        self.packets.is_empty()
    }

    /// The bytes of all of them.
    pub(crate) fn bytes(&self) -> u64
        ensures { result ≡ bytes_waiting self.now }
    {
        let _ = &self.packets;
        self.bytes
    }

    /// The packet that waits longest.
    pub(crate) fn front(&self) -> Option<&Unsequenced>
        ensures variant { IsSome result ↔ (0 < length self.now) }
        ensures lookup { IfSome result (λ packet. packet.now ≡ slice_index_or self.now 0 packet.now) }
    {
        self.packets.front()
    }

    /// That one goes, if there is one.
    pub(crate) fn drop_first(&mut self)
        ensures rest { self.new ≡ drop 1 self.old }
        ensures less { length self.new ≡ length self.old - 1 }
    {
        if let Some(packet) = self.packets.pop_front() {
            self.bytes -= packet.body.len() as u64;
        }
    }

    /// All go.
    pub(crate) fn clear(&mut self)
        ensures { self.new ≡ [] }
    {
        self.packets.clear();
        self.bytes = 0;
    }

    /// Gives most of the room back where none waits.
    #[inline(always)]
    pub(crate) fn give_unused_back(&mut self)
        ensures { self.new ≡ self.old }
    {
        give_unused_back(&mut self.packets);
    }
}
