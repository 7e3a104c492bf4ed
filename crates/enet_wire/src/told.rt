//! What a wire tells of its calls, and what a wire in memory is to do.

use bytes::Bytes;
use enet_codec::Addr;

/// What one call of a wire did. A call that failed isn't told; the wire counts it.
#[derive(Drop)]
pub enum Told {
    /// `recv` gave a datagram.
    Came { from: Addr, bytes: Bytes },
    /// `recv` found none.
    NothingCame,
    /// `send` took a datagram.
    Went { to: Addr, bytes: Bytes },
    /// `send` lost a datagram: its destination can't be reached, or it is too long.
    Lost { to: Addr, bytes: Bytes },
    /// `send` didn't take a datagram, since that would have blocked.
    Blocked { to: Addr, bytes: Bytes },
    /// `wait` gave these milliseconds.
    Waited { ms: u32 },
}

/// One step of the script of a wire in memory. Each waits for the call that it is meant for.
#[derive(Drop)]
pub enum Step {
    /// `recv` gives this datagram; of a longer one its first 4,096 bytes. One from port 0 it passes over, and gives none.
    Datagram { from: Addr, bytes: Bytes },
    /// A send loses its datagram.
    Lose,
    /// A send would block.
    Block,
    /// A wait gives these milliseconds.
    Wait { ms: u32 },
    /// The next call fails.
    Fault,
}
