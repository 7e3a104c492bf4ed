//! Numbers of two and of four bytes.

ghost use Rattle.std.specs.Prelude.{◌≡◌, ◌<◌, ◌≤◌, ◌+◌, length, drop, MatchOption};
ghost use Rattle.enet_pcapng.specs.Blocks.{number_of, short_of};

use crate::block::Order;

/// The number of four bytes at a place. None if there are fewer.
pub(crate) fn u32_at(bytes: &[u8], place: usize, order: Order) -> Option<u32>
    ensures { MatchOption result (length bytes.now < place + 4) (λ number. (place + 4 ≤ length bytes.now) × (number ≡ number_of order (drop place bytes.now))) }
{
    let (_, rest) = bytes.split_at_checked(place)?;
    first_u32(rest, order)
}

// The number of the first four bytes.
fn first_u32(bytes: &[u8], order: Order) -> Option<u32>
    ensures { MatchOption result (length bytes.now < 4) (λ number. (4 ≤ length bytes.now) × (number ≡ number_of order bytes.now)) }
{
    let four = [
        *bytes.first()?,
        *bytes.get(1)?,
        *bytes.get(2)?,
        *bytes.get(3)?,
    ];
    match order {
        Order::Big => Some(u32::from_be_bytes(four)),
        Order::Little => Some(u32::from_le_bytes(four)),
    }
}

/// The number of two bytes at a place. None if there are fewer.
pub(crate) fn u16_at(bytes: &[u8], place: usize, order: Order) -> Option<u16>
    ensures { MatchOption result (length bytes.now < place + 2) (λ number. (place + 2 ≤ length bytes.now) × (number ≡ short_of order (drop place bytes.now))) }
{
    let (_, rest) = bytes.split_at_checked(place)?;
    first_u16(rest, order)
}

// The number of the first two bytes.
fn first_u16(bytes: &[u8], order: Order) -> Option<u16>
    ensures { MatchOption result (length bytes.now < 2) (λ number. (2 ≤ length bytes.now) × (number ≡ short_of order bytes.now)) }
{
    let two = [*bytes.first()?, *bytes.get(1)?];
    match order {
        Order::Big => Some(u16::from_be_bytes(two)),
        Order::Little => Some(u16::from_le_bytes(two)),
    }
}
