//! Why no timeline was made.

ghost use Rattle.std.specs.Prelude.{◌≡◌};
ghost use Rattle.enet_captured.specs.Unread.{is_unread};
ghost use Rattle.enet_captured.specs.declared.fault.TimelineFault.TheVariants.{Memory};

use enet_text::InspectFault;
use std::alloc::AllocError;
use thiserror::Error;

/// Why an input has no timeline.
#[derive(Clone, Copy, Debug, PartialEq, Eq, Error)]
pub enum TimelineFault {
    /// It isn't a capture in the classic pcap format, as which one in pcapng is rewritten before: lines in hex don't tell when and between whom
    /// a datagram went.
    #[error("a timeline is drawn of a capture in pcap or pcapng format alone; editcap -F pcap IN OUT makes one")]
    NoCapture,
    /// The beginning of the capture can't be read.
    #[error("{0}")]
    Unread(InspectFault),
    /// There was no memory.
    #[error("E1 Memory")]
    Memory,
}

impl TimelineFault {
    /// Whether what was given can't be read.
    pub fn is_unreadable(self) -> bool
        ensures { result ≡ is_unread self }
    {
        match self {
            TimelineFault::NoCapture => true,
            TimelineFault::Unread(fault) => fault.is_unreadable(),
            TimelineFault::Memory => false,
        }
    }
}

impl From<AllocError> for TimelineFault {
    ghost from_gives = { λ _ fault. fault ≡ Memory };

    fn from(_error: AllocError) -> TimelineFault {
        TimelineFault::Memory
    }
}
