//! Why the lab ended before the end of its script.

ghost use Rattle.std.specs.Prelude.{◌≡◌};
ghost use Rattle.enet_lab.specs.declared.fault.LabFault.TheVariants.{Memory};

use std::alloc::{AllocError, AllocFailed};
use thiserror::Error;

/// Why the lab ended before the end of its script. The answers so far are written, unless a write or the flush failed.
#[derive(Clone, Copy, Debug, PartialEq, Eq, Error)]
pub enum LabFault {
    /// This line, counted from 1, can't be read after those before it. The count stops at 4,294,967,295.
    #[error("E15 BadScript line {0}")]
    BadScript(u32),
    /// A growth of the lab itself was refused. A network that is out of memory is no fault: its answer is `E1 Memory`.
    #[error("E1 Memory")]
    Memory,
    /// A read, a write or the flush failed, or the script took more than 16,777,216 reads.
    #[error("input or output failed")]
    Io,
}

impl From<AllocError> for LabFault {
    ghost from_gives = { λ _ fault. fault ≡ Memory };

    fn from(_error: AllocError) -> LabFault {
        LabFault::Memory
    }
}

impl<T: Drop> From<AllocFailed<T>> for LabFault {
    ghost from_gives = { λ _ fault. fault ≡ Memory };

    fn from(_error: AllocFailed<T>) -> LabFault {
        LabFault::Memory
    }
}
