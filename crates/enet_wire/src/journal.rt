//! What a wire tells of its calls, for clauses alone.
ghost use Rattle.std.specs.Prelude.{◌≡◌, List, [], ◌++◌};
ghost use Rattle.std.specs.Borrow.{ftrue};
ghost use Rattle.enet_wire.specs.declared.told.Told.{Told};

use enet_codec::Addr;
use std::marker::Model;
use std::net::SocketAddr;

/// What the calls of a wire did, in order, as far as it was noted. It has no bytes: only clauses read it, as `told`.
#[derive(Drop)]
pub struct Journal {
    pub ghost told: { List Told },
}

impl Model for Journal {
    ghost also_owns = { λ _. ftrue };
}

// It owns nothing.
unsafe impl Send for Journal {}

unsafe impl Sync for Journal {}

/// What one call did, as it is noted.
#[derive(Clone, Copy)]
pub enum Note<'a> {
    /// The system gave a datagram.
    Came { from: SocketAddr, bytes: &'a [u8] },
    /// The system took a datagram.
    Went { to: SocketAddr, bytes: &'a [u8] },
    /// A wire handed on a datagram that another one gave.
    GaveOn { from: Addr, bytes: &'a [u8] },
    /// A wire handed a datagram to another one, which took it.
    TookOn { to: Addr, bytes: &'a [u8] },
    /// No datagram came.
    NothingCame,
    /// A datagram is lost.
    Lost { to: Addr, bytes: &'a [u8] },
    /// A datagram didn't go, since that would have blocked.
    Blocked { to: Addr, bytes: &'a [u8] },
    /// So many milliseconds are over.
    Waited { ms: u32 },
}

impl Journal {
    ghost use Rattle.enet_wire.specs.Journals.{told_by};

    /// A journal in which nothing is noted.
    pub fn new() -> Journal
        ensures { result.told ≡ [] }
    {
        Journal {}
    }

    /// The journal with one call more, as a wire tells it.
    pub fn and(&self, _note: &Note<'_>) -> Journal
        ensures { result.told ≡ self.now.told ++ told_by _note.now }
    {
        Journal {}
    }
}
