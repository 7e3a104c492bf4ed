//! What a client may send.
ghost use Rattle.std.specs.Prelude.{◌≡◌, slice_get};
ghost use Rattle.enet_guard.specs.Shares.{drained, has_left, with_more, is_client};

use crate::guard::Seated;
use crate::loads::Load;
use enet_codec::Addr;

/// What counts of a packet or a byte; in a millisecond as many of these are taken off as a second allows packets or bytes.
const WHOLE: u64 = 1_000;

/// A client has as much as it may send in so many milliseconds before something of it is passed over.
const BURST: u64 = 2_000;

/// What a client has sent that counts still, in thousandths.
#[derive(Clone, Copy)]
pub struct Spent {
    /// Of packets.
    pub packets: u64,
    /// Of bytes.
    pub bytes: u64,
    /// At this moment.
    pub at: u64,
}

impl Spent {
    ghost use Rattle.std.specs.Prelude.{◌≡◌};
    ghost use Rattle.enet_guard.specs.Shares.{unspent, spent_at, spent_more};

    /// Nothing, at this moment.
    pub(crate) fn nothing(clock: u64) -> Spent
        ensures { result ≡ unspent clock }
    {
        Spent {
            packets: 0,
            bytes: 0,
            at: clock,
        }
    }

    /// What counts still at this moment, where a second allows so many packets and so many bytes.
    pub(crate) fn at(self, packets: Option<u32>, bytes: Option<u32>, clock: u64) -> Spent
        ensures { result ≡ spent_at self packets bytes clock }
    {
        let ms = clock.saturating_sub(self.at);
        Spent {
            packets: drained(self.packets, packets, ms),
            bytes: drained(self.bytes, bytes, ms),
            at: clock,
        }
    }

    /// With this beside it.
    pub(crate) fn and(self, load: Load) -> Spent
        ensures { result ≡ spent_more self load }
    {
        Spent {
            packets: with_more(self.packets, load.packets),
            bytes: with_more(self.bytes, load.bytes),
            at: self.at,
        }
    }
}

// What counts still after so many milliseconds.
fn drained(spent: u64, rate: Option<u32>, ms: u64) -> u64
    ensures { result ≡ drained spent rate ms }
{
    match rate {
        None => 0,
        Some(rate) => spent.saturating_sub(u64::from(rate).saturating_mul(ms)),
    }
}

/// Whether less counts than two seconds allow.
pub(crate) fn has_left(spent: u64, rate: Option<u32>) -> bool
    ensures { result ≡ has_left spent rate }
{
    match rate {
        None => true,
        Some(rate) => spent < BURST * u64::from(rate),
    }
}

// With so many packets or bytes more.
fn with_more(spent: u64, more: usize) -> u64
    ensures { result ≡ with_more spent more }
{
    spent.saturating_add(WHOLE.saturating_mul(more as u64))
}

/// Whether this address is connected in a slot, as that was told.
pub(crate) fn is_client(seats: &[Option<Seated>], slot: usize, from: Addr) -> bool
    ensures { result ≡ is_client (slice_get seats.now slot) from }
{
    match seats.get(slot) {
        Some(Some(seated)) => seated.address.ip == from.ip && seated.address.port == from.port,
        _ => false,
    }
}
