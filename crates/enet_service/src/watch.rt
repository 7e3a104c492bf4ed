//! Who is told of a service's turns while they are taken.

use crate::Report;
use crate::watched::WatchedHost;

/// Is told of a service's turns while they are taken, by the thread that takes them.
pub trait Watch {
    /// These turns are over (64 at most where a run is for a time): the sums of their reports, and the host with what it noted in them.
    fn look(&mut self, host: &WatchedHost, report: Report);

    /// Whether a run for a time is to end; it is asked after each look.
    fn wants_end(&self) -> bool {
        false
    }
}

/// Nobody is told.
#[derive(Drop)]
pub struct Unwatched;

impl Watch for Unwatched {
    fn look(&mut self, _host: &WatchedHost, _report: Report) {}
}
