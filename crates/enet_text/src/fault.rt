//! Why the input wasn't read to its end.

ghost use Rattle.std.specs.Prelude.{◌≡◌};
ghost use Rattle.enet_text.specs.Faults.{is_unreadable};
ghost use Rattle.enet_text.specs.declared.fault.InspectFault.TheVariants.{Memory};

use std::alloc::{AllocError, AllocFailed};
use thiserror::Error;

/// Why the input wasn't read to its end. What was told before is written, unless a write or the flush failed.
#[derive(Clone, Copy, Debug, PartialEq, Eq, Error)]
pub enum InspectFault {
    /// This line, counted from 1, can't be read.
    #[error("E15 BadScript line {0}")]
    BadLine(u64),
    /// The capture has packets of a link type other than Ethernet 1, raw IP 12, 101 or 228, Linux cooked 113 or 276, or BSD
    /// loopback 0.
    #[error("link type {0} can't be read")]
    LinkType(u32),
    /// The capture is cut short behind so many packets.
    #[error("capture cut short after {0} packets")]
    CutShort(u64),
    /// There was no memory for the input or for a text.
    #[error("E1 Memory")]
    Memory,
    /// A read, a write or the flush failed.
    #[error("input or output failed")]
    Io,
}

impl InspectFault {
    /// Whether what was given can't be read: a bad line, an unknown link type or a capture cut short.
    pub fn is_unreadable(self) -> bool
        ensures { result ≡ is_unreadable self }
    {
        match self {
            InspectFault::BadLine(_) | InspectFault::LinkType(_) | InspectFault::CutShort(_) =>
                true,
            InspectFault::Memory | InspectFault::Io => false,
        }
    }
}

impl From<AllocError> for InspectFault {
    ghost from_gives = { λ _ fault. fault ≡ Memory };

    fn from(_error: AllocError) -> InspectFault {
        InspectFault::Memory
    }
}

impl<T: Drop> From<AllocFailed<T>> for InspectFault {
    ghost from_gives = { λ _ fault. fault ≡ Memory };

    fn from(_error: AllocFailed<T>) -> InspectFault {
        InspectFault::Memory
    }
}
