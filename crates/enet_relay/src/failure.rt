//! Why the program ends with a status other than 0.

use enet_captured::TimelineFault;
use enet_codec::Refusal;
use enet_console::Unread;
use enet_lab::LabFault;
use enet_serve::Unopened;
use enet_text::InspectFault;
use std::alloc::{AllocError, AllocFailed};
use std::io;
use thiserror::Error;

/// Why the program ends with a status other than 0. The text goes to standard error.
#[derive(Clone, Copy, Debug, Error)]
pub enum Failure {
    /// The command line was refused.
    #[error("bad command line")]
    CommandLine,
    /// It was, since too little may wait for a client.
    #[error("bad command line: --max-unsent is below twice --max-packet")]
    TooFewUnsent,
    /// There was no memory to read the command line.
    #[error("E1 Memory")]
    Memory,
    /// What was to be told couldn't be written.
    #[error("input or output failed")]
    Io,
    /// The lab ended before the end of its script.
    #[error("{0}")]
    Lab(LabFault),
    /// The input of `inspect` wasn't read to its end.
    #[error("{0}")]
    Inspect(InspectFault),
    /// The input has no timeline.
    #[error("{0}")]
    Timeline(TimelineFault),
    /// The file to inspect can't be opened, and this is what the system says of it.
    #[error("{0}")]
    File(io::Error),
    /// The system gives no secret to serve with.
    #[error("the system gives no secret (getentropy failed); --no-secret serves without one")]
    NoSecret,
    /// The system makes no second thread.
    #[error("no second thread can be made")]
    NoThread,
    /// Nobody can be told figures at that address, and this is what the system says of it.
    #[error("metrics: {0}")]
    Metrics(io::Error),
    /// The server failed.
    #[error("{0}")]
    Service(Refusal),
    /// The server's socket failed, and this is what the system says of it.
    #[error("{0}: {1}")]
    Socket(Refusal, io::Error),
}

impl Failure {
    /// 2 where what the program was given can't be read, else 1.
    pub fn status(self) -> u8 {
        match self {
            Failure::CommandLine | Failure::TooFewUnsent => 2,
            Failure::Lab(LabFault::BadScript(_)) => 2,
            Failure::Inspect(fault) if fault.is_unreadable() => 2,
            Failure::Timeline(fault) if fault.is_unreadable() => 2,
            _ => 1,
        }
    }
}

impl From<Unread> for Failure {
    fn from(why: Unread) -> Failure {
        match why {
            Unread::Refused => Failure::CommandLine,
            Unread::TooFewUnsent => Failure::TooFewUnsent,
            Unread::Memory => Failure::Memory,
            Unread::Io => Failure::Io,
        }
    }
}

impl From<AllocError> for Failure {
    fn from(_error: AllocError) -> Failure {
        Failure::Memory
    }
}

impl<T: Drop> From<AllocFailed<T>> for Failure {
    fn from(_error: AllocFailed<T>) -> Failure {
        Failure::Memory
    }
}

impl From<Refusal> for Failure {
    fn from(why: Refusal) -> Failure {
        Failure::Service(why)
    }
}

impl From<Unopened> for Failure {
    fn from(unopened: Unopened) -> Failure {
        match unopened.reason {
            Some(reason) => Failure::Socket(unopened.why, reason),
            None => Failure::Service(unopened.why),
        }
    }
}
