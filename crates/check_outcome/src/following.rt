//! Whether what a user took of a channel follows what the other user submitted on it.

ghost use Rattle.std.specs.Prelude.{◌≡◌, ◌≤◌, ◌↔◌, IsTrue};
ghost use Rattle.enet_sender.specs.CommandChoice.{is_long, goes_reliable};
ghost use Rattle.check_outcome.specs.Following.{FollowsFrom};
ghost use Rattle.check_outcome.specs.Private.Following.{submission, goes_in_sequence, came_in_sequence};

use enet_codec::{Packet, RELIABLE, UNRELIABLE_FRAGMENT, UNSEQUENCED};
use enet_fragment::piece_length;

/// The greatest number of an unreliable packet.
const LAST_UNRELIABLE: u32 = 65535;

/// Whether a packet is cut into pieces.
fn is_long(mtu: u32, packet: &Packet) -> bool
    requires { 576 ≤ mtu }
    ensures { result ≡ is_long mtu (submission packet.now) }
{
    packet.body.len() > piece_length(mtu) as usize
}

/// Whether a submitted packet goes by this channel and in sequence.
fn goes_in_sequence(mtu: u32, channel: u8, packet: &Packet) -> bool
    requires { 576 ≤ mtu }
    ensures { result ≡ goes_in_sequence mtu channel packet.now }
{
    let asks_for_unsequenced = packet.flags & UNSEQUENCED != 0;
    let asks_for_reliable = packet.flags & RELIABLE != 0;
    let is_unsequenced = asks_for_unsequenced && !asks_for_reliable && !is_long(mtu, packet);
    packet.channel == channel && !is_unsequenced
}

/// Whether a submitted packet that goes in sequence goes by reliable commands, so many unreliable ones having been submitted since
/// the last that did.
fn goes_reliable(mtu: u32, unreliable: u32, packet: &Packet) -> bool
    requires { 576 ≤ mtu }
    ensures { result ≡ goes_reliable mtu unreliable (submission packet.now) }
{
    let asks_for_reliable = packet.flags & RELIABLE != 0;
    let asks_for_unreliable_fragments = packet.flags & UNRELIABLE_FRAGMENT != 0;
    asks_for_reliable
        || unreliable == LAST_UNRELIABLE
        || (is_long(mtu, packet) && !asks_for_unreliable_fragments)
}

/// Whether a packet that was taken is of this channel and came in sequence.
fn came_in_sequence(channel: u8, packet: &Packet) -> bool
    ensures { result ≡ came_in_sequence channel packet.now }
{
    packet.channel == channel && packet.flags != UNSEQUENCED
}

/// Whether what was taken of a channel, unsequenced packets apart, follows what was submitted on it by this mtu, in bytes: a
/// subsequence, each packet whole and once, which leaves out no reliable packet before its last. `unreliable` packets were
/// submitted before since the last reliable one.
///
/// An unreliable packet with the bytes of the next one that was taken may be that one or have been left out: both are tried. In the
/// lists that are drawn only empty packets are alike, so that this stays cheap.
pub fn follows(
    mtu: u32,
    channel: u8,
    unreliable: u32,
    submitted: &[Packet],
    taken: &[Packet],
) -> bool
    requires mtu { 576 ≤ mtu }
    requires unreliable { unreliable ≤ 65535 }
    ensures { IsTrue result ↔ FollowsFrom mtu channel unreliable submitted.now taken.now }
{
    let Some((next, later)) = taken.split_first() else {
        return true;
    };
    if !came_in_sequence(channel, next) {
        return follows(mtu, channel, unreliable, submitted, later);
    }
    let Some((packet, rest)) = submitted.split_first() else {
        return false;
    };
    if !goes_in_sequence(mtu, channel, packet) {
        return follows(mtu, channel, unreliable, rest, taken);
    }
    let reliable = goes_reliable(mtu, unreliable, packet);
    let since = if reliable { 0 } else { unreliable + 1 };
    if packet.body == next.body && follows(mtu, channel, since, rest, later) {
        return true;
    }
    !reliable && follows(mtu, channel, since, rest, taken)
}
