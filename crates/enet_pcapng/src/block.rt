//! The blocks of a capture.

ghost use Rattle.std.specs.Prelude.{◌≡◌, ◌+◌, ◌≤◌, length, take, drop, IfSome, IfNone};
ghost use Rattle.enet_pcapng.specs.Blocks.{IsBlock, IsNoBlock, order_of, sign_of};

use crate::number::u32_at;

/// The kind of the block that begins a section, in either order.
pub(crate) const SECTION: u32 = 0x0a0d_0d0a;

/// The order of the bytes of a section's numbers.
#[derive(Clone, Copy, PartialEq, Eq)]
pub enum Order {
    Big,
    Little,
}

/// A block: what it is, and the bytes between its head and its tail.
#[derive(Clone, Copy)]
pub(crate) struct Block<'a> {
    pub kind: u32,
    /// The order of its numbers.
    pub order: Order,
    pub body: &'a [u8],
}

/// The block at the front, in a section whose numbers have this order, and what stands behind it. None if it isn't whole, or begins a
/// section without telling the order of its numbers.
pub(crate) fn read_block<'a>(order: Order, rest: &'a [u8]) -> Option<(Block<'a>, &'a [u8])>
    ensures block { IfSome result (λ read. IsBlock order rest.now read.0 read.1.now) }
    ensures none { IfNone result (IsNoBlock order rest.now) }
{
    let kind = u32_at(rest, 0, order)?;
    let order = order_in(kind, order, rest)?;
    let len = usize::try_from(u32_at(rest, 4, order)?).ok()?;
    let (_, inside) = rest.split_at_checked(8)?;
    let (body, behind) = inside.split_at_checked(len.checked_sub(12)?)?;
    let (_, behind) = behind.split_at_checked(4)?;
    Some((Block { kind, order, body }, behind))
}

// The order of the numbers of the block at the front.
fn order_in(kind: u32, order: Order, rest: &[u8]) -> Option<Order>
    ensures { result ≡ order_of kind order rest.now }
{
    if kind != SECTION {
        return Some(order);
    }
    sign(u32_at(rest, 8, Order::Big)?)
}

// The order that the first number of a section tells.
fn sign(number: u32) -> Option<Order>
    ensures { result ≡ sign_of number }
{
    match number {
        0x1a2b_3c4d => Some(Order::Big),
        0x4d3c_2b1a => Some(Order::Little),
        _ => None,
    }
}
