//! How many bytes a host holds, and how many at most.

ghost use Rattle.std.specs.Prelude.{◌≡◌, ℕ, ◌+◌, ◌*◌, ◌<◌, ◌≤◌, ◌^◌, length};
ghost use Rattle.enet_peer.specs.Held.{most_of, IsLittle};
ghost use Rattle.enet_host.specs.Held.{held_by, most_held};
ghost use Rattle.enet_host.specs.Memory.{memory_bound, memory_of, memory_of_held, memory_with, own_in};
ghost use Rattle.enet_host.specs.Private.Held.{IsLittleBy};

use crate::host::HostCore;
use enet_peer::Held;

/// What a host takes beside its slots, in bytes.
const HOST: u64 = 4_096;

/// What a slot takes, free or not.
const SLOT: u64 = 9_216;

/// What a channel takes on which packets come.
const CHANNEL: u64 = 9_216;

/// What a channel takes on which others are sent to.
const SENDER: u64 = 672;

/// What a packet takes that came, beside its bytes.
const PACKET: u64 = 192;

/// What one that wasn't dispatched takes beside that.
const UNDISPATCHED: u64 = 2_816;

/// What a byte takes of a packet that came: the room of a packet whose pieces are coming may be twice what is in it.
const BYTE: u64 = 2;

/// What an acknowledgement takes that waits.
const ACKNOWLEDGEMENT: u64 = 16;

/// How many bytes this takes.
fn memory_of_held(held: Held) -> u64
    requires { IsLittleBy 4095 held }
    ensures value { result ≡ memory_of_held held }
    ensures small { (peers : ℕ) → IsLittleBy peers held → result ≤ peers * 2 ^ 44 }
{
    held.channels * CHANNEL
        + held.senders * SENDER
        + held.packets * PACKET
        + held.undispatched * UNDISPATCHED
        + held.bytes * BYTE
        + held.acknowledgements * ACKNOWLEDGEMENT
}

/// What a peer holds at most which takes packets of at most so many bytes, and of which so many bytes may wait.
fn most_of(max_packet: u32, max_waiting: u32) -> Held
    ensures value { result ≡ most_of max_packet max_waiting }
    ensures little { IsLittleBy 1 result }
{
    let places = u64::from((max_waiting / 128).max(1_024));
    Held {
        channels: 255,
        senders: 255,
        packets: 2 * places + 255,
        undispatched: places + 255,
        bytes: 2 * u64::from(max_waiting) + 257 * u64::from(max_packet),
        acknowledgements: 8_192,
    }
}

impl HostCore {
    /// How many bytes it holds at most, but for what is queued or unacknowledged: each thing counts as many as one of its kind takes
    /// (specs/Memory). Whatever datagrams came, from whomever and in whatever order, and whether or not the user takes, that is no more
    /// than the settings allow; and all that the host holds is no more than that and what is queued or unacknowledged. Lists may have more
    /// room than what is in them needs, for as much as ever was in them at once; of what was submitted, until none of it is left. Each slot
    /// is looked at.
    pub fn memory_held(&self) -> u64
        ensures value { result ≡ memory_with (length self.now.slots) (held_by self.now.slots) }
        ensures most { result ≤ memory_with self.now.config.peers (most_held self.now.config) }
        ensures bound { memory_of self.now ≤ memory_bound self.now.config (own_in self.now.slots) }
    {
        HOST + self.slots.len() as u64 * SLOT + memory_of_held(self.held_in_all())
    }

    /// How many bytes `memory_held` tells at most, by the settings alone. It looks at no slot.
    pub fn most_memory_held(&self) -> u64
        ensures { result ≡ memory_with self.now.config.peers (most_held self.now.config) }
    {
        let config = &self.start.config;
        let most = most_of(config.max_packet, config.max_waiting);
        HOST + u64::from(config.peers) * (SLOT + memory_of_held(most))
    }
}
