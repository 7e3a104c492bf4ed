//! How much went through a host, what its slots are, and how much is under way again.

ghost use Rattle.std.specs.Prelude.{◌≡◌};
ghost use Rattle.enet_sender.specs.Counting.{added};
ghost use Rattle.enet_slot.specs.Counting.{Counts, count_sent_again};
ghost use Rattle.enet_host.specs.Opening.{no_totals};
ghost use Rattle.enet_host.specs.Receiving.{with_datagram_in};
ghost use Rattle.enet_host.specs.Serving.{with_datagram_out};

use crate::host::HostCore;
use enet_slot::{SlotCounts, count_sent_again, count_slots};

/// How many datagrams and bytes came to a host and went out. Each number stops at its greatest value.
#[derive(Clone, Copy, PartialEq, Eq)]
pub struct Totals {
    /// Datagrams that came, the refused ones too.
    pub datagrams_in: u64,
    /// Their bytes.
    pub bytes_in: u64,
    /// Datagrams that were put out.
    pub datagrams_out: u64,
    /// Their bytes.
    pub bytes_out: u64,
}

impl Totals {
    /// Nothing came and nothing went.
    pub(crate) fn none() -> Totals
        ensures { result ≡ no_totals }
    {
        Totals {
            datagrams_in: 0,
            bytes_in: 0,
            datagrams_out: 0,
            bytes_out: 0,
        }
    }

    /// A datagram of so many bytes came.
    pub(crate) fn with_datagram_in(self, len: usize) -> Totals
        ensures { result ≡ with_datagram_in self len }
    {
        Totals {
            datagrams_in: self.datagrams_in.saturating_add(1),
            bytes_in: self.bytes_in.saturating_add(len as u64),
            ..self
        }
    }

    /// A datagram of so many bytes was put out.
    pub(crate) fn with_datagram_out(self, len: usize) -> Totals
        ensures { result ≡ with_datagram_out self len }
    {
        Totals {
            datagrams_out: self.datagrams_out.saturating_add(1),
            bytes_out: self.bytes_out.saturating_add(len as u64),
            ..self
        }
    }
}

impl HostCore {
    /// How much went through the host.
    pub fn totals(&self) -> Totals
        ensures { result ≡ self.now.totals }
    {
        self.totals
    }

    /// How many of its slots are free, and how far the connections of the others have come. Each slot is looked at.
    pub fn slot_counts(&self) -> SlotCounts
        ensures { Counts self.now.config.generations self.now.slots result }
    {
        count_slots(&self.slots, self.start.config.generations)
    }

    /// How many commands of all peers are sent, not acknowledged, and were sent more than once; it stops at 2^64 - 1. All that is sent is
    /// looked at.
    pub fn sent_again(&self) -> u64
        ensures { result ≡ added 0 (count_sent_again self.now.slots) }
    {
        count_sent_again(&self.slots)
    }
}
