//! What follows of the rule.
ghost use Rattle.std.specs.Prelude.{◌≡◌, ◌&&◌, not, if◌then◌else◌};
ghost use Rattle.enet_chat.specs.Peers.{has, is_same, count, others};

use crate::table::Table;
use enet_codec::PeerRef;

/// A law: among those to whom a packet of `from` goes, each other peer of the table is once, and no one else is: neither
/// `from` itself nor a peer that the table doesn't have. It does nothing.
pub fn each_other_peer_once(table: &Table, from: PeerRef, peer: PeerRef)
    ensures { count (others table.now from) peer ≡ (if has table.now peer && not (is_same peer from) then 1 else 0) }
{
    let _peers = &table.peers;
}
