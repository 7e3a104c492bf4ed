//! The interfaces of a section.

ghost use Rattle.std.specs.Prelude.{◌≡◌, ◌<◌, length, IfSome, IfNone};
ghost use Rattle.enet_pcapng.specs.Interfaces.{Finds, IsInterface, IsNoOption, IsOption, units_of};

use crate::block::Order;
use crate::number::u16_at;

/// The option that ends the options.
const END: u16 = 0;

/// The option that tells the unit of times.
const UNIT: u16 = 9;

/// An interface: what its packets begin with, and how many units of its times a second has, 0 if that can't be told.
#[derive(Clone, Copy)]
pub(crate) struct Interface {
    pub link: u16,
    pub units: u64,
}

/// The interface that the body of a block tells.
pub(crate) fn interface_in(order: Order, body: &[u8]) -> Interface
    ensures { IsInterface order body.now result }
{
    let unread = Interface { link: 0, units: 0 };
    let Some((_, options)) = body.split_at_checked(8) else {
        return unread;
    };
    let Some(link) = u16_at(body, 0, order) else {
        return unread;
    };
    let units = units_of(exponent_in(order, options));
    Interface { link, units }
}

// The exponent that tells the unit of times, in the option for that.
fn exponent_in(order: Order, options: &[u8]) -> Option<u8>
    ensures { Finds order options.now result }
{
    let mut rest = options;
    'options: while let Some((code, value, behind)) = read_option(order, rest) {
        if code == END {
            return None;
        }
        if code == UNIT {
            return value.first().copied();
        }
        rest = behind;
    }
    None
}

// The option at the front, and what stands behind it: its code, its length, and its value, filled up to four bytes.
fn read_option<'a>(order: Order, rest: &'a [u8]) -> Option<(u16, &'a [u8], &'a [u8])>
    ensures option { IfSome result (λ read. IsOption order rest.now read.0 read.1.now read.2.now) }
    ensures none { IfNone result (IsNoOption order rest.now) }
{
    let code = u16_at(rest, 0, order)?;
    let len = usize::from(u16_at(rest, 2, order)?);
    let (_, inside) = rest.split_at_checked(4)?;
    let (_, behind) = inside.split_at_checked((len + 3) / 4 * 4)?;
    let (value, _) = inside.split_at_checked(len)?;
    Some((code, value, behind))
}

// How many units a second has: a million, or ten to the power that is told, up to a billion.
fn units_of(exponent: Option<u8>) -> u64
    ensures { result ≡ units_of exponent }
{
    match exponent {
        Some(0) => 1,
        Some(1) => 10,
        Some(2) => 100,
        Some(3) => 1_000,
        Some(4) => 10_000,
        Some(5) => 100_000,
        None | Some(6) => 1_000_000,
        Some(7) => 10_000_000,
        Some(8) => 100_000_000,
        Some(9) => 1_000_000_000,
        Some(_) => 0,
    }
}
