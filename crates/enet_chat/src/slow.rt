//! How a client that is too slow, or too loud, is ended.
ghost use Rattle.std.specs.Prelude.{◌≡◌};
ghost use Rattle.enet_chat.specs.Slow.{slow_end, loud_end, end_told};

use enet_codec::{DisconnectMode, PeerRef};
use enet_submit::Order;

/// The word that is told to a client that is ended because it was too slow.
pub const TOO_SLOW: u32 = 4_294_967_294;

/// The order that ends a client to which a reliable packet was refused because so much waited for it (E9): that one can't be left out of a
/// reliable stream. All that waits for the client is dropped, and it is told [`TOO_SLOW`] until it acknowledges that or times out; then its
/// Disconnect event takes it out of the table.
pub fn end_of_slow(peer: PeerRef) -> Order
    ensures { result ≡ slow_end peer }
{
    end_told(peer, TOO_SLOW)
}

/// The word that is told to a client that is ended because it sent more than its share for too long.
pub const TOO_LOUD: u32 = 4_294_967_293;

/// The order that ends a client which sends more than its share, and goes on with it. It is ended as one that is too slow, with [`TOO_LOUD`].
pub fn end_of_loud(peer: PeerRef) -> Order
    ensures { result ≡ loud_end peer }
{
    end_told(peer, TOO_LOUD)
}

// The order that ends a client with this word.
fn end_told(peer: PeerRef, info: u32) -> Order
    ensures { result ≡ end_told peer info }
{
    Order::Disconnect {
        peer,
        how: DisconnectMode::Ask,
        info,
    }
}
