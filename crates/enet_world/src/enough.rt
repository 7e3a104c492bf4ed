//! How many rounds are enough.

ghost use Rattle.std.specs.Prelude.{◌≡◌, ◌≤◌, ◌<◌, ◌+◌, ◌*◌, min, IfSome};
ghost use Rattle.law_network.specs.World.{site_of};
ghost use Rattle.enet_site.specs.Standing.{state_at};
ghost use Rattle.enet_world.specs.Needed.{held, is_connected, pieces_below, pieces_of, rounds_needed, rounds_of_a_wait};
ghost use Rattle.enet_world.specs.Progress.{AreEnough};

use crate::world::World;
use enet_codec::Packet;
use enet_host::PeerState;
use law_network::Side;

/// No command waits for its acknowledgement for longer than so many milliseconds: a timeout is 5,000 at most at a first send, and later at most
/// twice what passed since then, which is less than 30,000.
const LONGEST_WAIT: u32 = 60_000;

/// How many channels have sequenced data.
const CHANNELS: u8 = 255;

/// How many bytes of a packet a command has that goes in a datagram of 576 bytes, the least that there are.
const PIECE: usize = 548;

/// How many commands packets are cut into, in such datagrams; the count stops at 2^64 - 1.
fn pieces_of(packets: &[Packet]) -> u64
    ensures { result ≡ min (pieces_of packets.now) 18446744073709551615 }
{
    let mut pieces: u64 = 0;
    for packet in packets {
        let more = packet.body.len().saturating_sub(1) / PIECE + 1;
        pieces = pieces.saturating_add(more as u64);
    }
    pieces
}

/// In how many rounds of so many milliseconds the longest wait is over.
pub(crate) fn rounds_of_a_wait(ms: u32) -> u64
    requires { 0 < ms }
    ensures exact { result ≡ rounds_of_a_wait ms }
    ensures long { 60000 ≤ result * min ms 60000 }
    ensures brief { result * min ms 60000 ≤ 120000 }
{
    u64::from(LONGEST_WAIT / ms.min(60_000) + 1)
}

/// How many rounds are enough where so many are there to wait, and so many commands are outstanding at A and at B; None where 64 bits don't
/// hold it.
fn rounds_for(waits: u64, of_a: u64, of_b: u64) -> Option<u64>
    ensures { result ≡ held (waits + 2 * (of_a + of_b)) }
{
    of_a.checked_add(of_b)?.checked_mul(2)?.checked_add(waits)
}

impl World {
    /// How many rounds are enough for a connection, each of so many milliseconds: as many as bring all through by `progress` of `calm`, where
    /// nothing stands in the way and the connection stands. There may be fewer that are enough.
    ///
    /// `exact`: as many as take longer than 60,000 ms, the longest timeout that there is, and two for each command of what both users have
    /// submitted so far, taken or not, cut as in datagrams of 576 bytes. None where the connection isn't one whose peers are connected at both
    /// sides, `ms` is 0, both clocks together have gone on by 4,294,500,000 ms (49 days) since the world's beginning, or 64 bits don't hold the
    /// number. `enough`: these are enough.
    pub fn rounds_needed(&self, conn: u64, ms: u32) -> Option<u64>
        ensures exact { result ≡ rounds_needed ms self.now conn }
        ensures enough { IfSome result (λ rounds. AreEnough ms rounds self.now.world conn) }
    {
        self.is_reached();
        let at_a = self.is_connected(conn, Side::A);
        let at_b = self.is_connected(conn, Side::B);
        if !at_a || !at_b {
            return None;
        }
        let waits = self.over_in(ms)?;
        let of_a = self.pieces(conn, Side::A);
        let of_b = self.pieces(conn, Side::B);
        rounds_for(waits, of_a, of_b)
    }

    /// Whether the peer of a connection is connected at a side.
    fn is_connected(&self, conn: u64, side: Side) -> bool
        ensures { result ≡ is_connected (state_at (site_of self.now.world side) conn) }
    {
        matches!(self.state(conn, side), Some(PeerState::Connected))
    }

    /// How many commands the packets are cut into that a side's user submitted on a connection, where datagrams have 576 bytes; the count stops
    /// at 2^64 - 1.
    fn pieces(&self, conn: u64, side: Side) -> u64
        ensures { result ≡ min (pieces_below self.now.world conn side 255) 18446744073709551615 }
    {
        let mut pieces: u64 = 0;
        let mut channel = 0;
        'channels: while channel < CHANNELS {
            let more = pieces_of(self.submitted(conn, side, channel));
            pieces = pieces.saturating_add(more);
            channel += 1;
        }
        pieces
    }
}
