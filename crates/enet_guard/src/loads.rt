//! What a datagram brings.
ghost use Rattle.std.specs.Prelude.{◌≡◌, ℕ, ◌+◌, ◌<◌, ◌≤◌, ◌^◌, length, drop, IfSome, IfNone};
ghost use Rattle.enet_codec.specs.Message.{view};
ghost use Rattle.enet_guard.specs.Loads.{nothing, load_of, both, Brings, Carries};

use enet_codec::{Command, read_command, read_header};

/// How much a datagram brings.
#[derive(Clone, Copy, Debug, PartialEq, Eq)]
pub struct Load {
    /// So many packets, or pieces of long ones.
    pub packets: usize,
    /// So many bytes of them.
    pub bytes: usize,
    /// How many of the packets and pieces are reliable.
    pub reliable: usize,
}

/// The slot that a datagram names, and what its commands bring, as far as they can be read. None where it ends within its header. Takes no
/// memory.
pub fn carried(bytes: &[u8]) -> Option<(u16, Load)>
    ensures carries { IfSome result (λ found. Carries bytes.now found.0 found.1) }
    ensures none { IfNone result ((slot : ℕ) (load : Load) → Carries bytes.now slot load → ⊥) }
{
    let (header, len) = read_header(bytes)?;
    Some((header.peer, brought(bytes_after(bytes, len))))
}

// What these commands bring, as far as they can be read.
fn brought(bytes: &[u8]) -> Load
    ensures { Brings bytes.now result }
{
    let mut load = Load {
        packets: 0,
        bytes: 0,
        reliable: 0,
    };
    let mut rest = bytes;
    while let Some((command, len)) = read_command(rest) {
        load = both(load, load_of(command));
        rest = bytes_after(rest, len);
    }
    load
}

fn bytes_after(bytes: &[u8], place: usize) -> &[u8]
    requires { place ≤ length bytes.now }
    ensures { result.now ≡ drop place bytes.now }
{
    &bytes[place..]
}

fn both(one: Load, other: Load) -> Load
    requires packets { one.packets + other.packets < 2 ^ 64 }
    requires bytes { one.bytes + other.bytes < 2 ^ 64 }
    requires reliable { one.reliable + other.reliable < 2 ^ 64 }
    ensures { result ≡ both one other }
{
    Load {
        packets: one.packets + other.packets,
        bytes: one.bytes + other.bytes,
        reliable: one.reliable + other.reliable,
    }
}

fn load_of(command: Command<'_>) -> Load
    ensures { result ≡ load_of (view command.entry).body }
{
    match command {
        Command::SendReliable { payload, .. } => packet(payload.len(), 1),
        Command::SendFragment { payload, .. } => packet(payload.len(), 1),
        Command::SendUnreliable { payload, .. } => packet(payload.len(), 0),
        Command::SendUnsequenced { payload, .. } => packet(payload.len(), 0),
        Command::SendUnreliableFragment { payload, .. } => packet(payload.len(), 0),
        _ => Load {
            packets: 0,
            bytes: 0,
            reliable: 0,
        },
    }
}

// A packet, or a piece of one, of so many bytes.
fn packet(bytes: usize, reliable: usize) -> Load
    ensures { result ≡ record { packets = 1; bytes = bytes; reliable = reliable } }
{
    Load {
        packets: 1,
        bytes,
        reliable,
    }
}
