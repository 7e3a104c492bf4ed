//! The place of one fragment in its packet.

ghost use Rattle.std.specs.Prelude.{◌≡◌, ◌<◌, ◌≤◌, ◌^◌, ◌+◌, ◌==◌, ◌&&◌, IsTrue, nat_le};

use crate::FRAGMENT_LIMIT;

/// The most bytes that a piece has: the greatest mtu, 4,096, less what stands before a piece.
pub(crate) const LONGEST_PIECE: u32 = 4_068;

/// The fewest bytes that each piece but the last has, where there are several: no mtu cuts shorter, since the least, 576,
/// leaves a piece 548.
pub(crate) const SHORTEST_PIECE: u32 = 512;

/// The place that a fragment claims to have in its packet.
#[derive(Clone, Copy)]
pub struct Place {
    /// Which piece it is, from 0.
    pub number: u32,
    /// How many pieces the packet has.
    pub count: u32,
    /// How many bytes the packet has.
    pub total: u32,
    /// Where in the packet the piece begins, in bytes.
    pub offset: u32,
    /// How many bytes the piece has.
    pub len: usize,
}

impl Place {
    ghost use Rattle.enet_fragment.specs.Place.{is_sound, is_even, is_of_piece_length, told_piece_len};

    /// Whether some packet that is cut evenly has this piece: its number is below the count, the piece ends within the packet
    /// (ENet 1.3), the count is at most the limit of 16,384, and the cut that it tells has it (our profile). A packet is cut
    /// evenly where all pieces but the last have one length, and the last one has the rest. Of several pieces, its length and
    /// the one that it tells must be ones that a datagram allows: at most 4,068, and the one that it tells at least 512.
    #[tactic(auto, unfolding(crate::specs::Place::is_sound))]
    pub fn is_sound(self) -> bool
        ensures value { result ≡ is_sound self }
        ensures numbered { IsTrue result → self.number < self.count }
    {
        self.number < self.count
            && self.count <= FRAGMENT_LIMIT
            && self.ends_within()
            && self.is_even(self.told_piece_len())
            && self.is_of_piece_length()
    }

    /// Whether, of several pieces, it and those that it tells of have lengths that a datagram allows.
    #[tactic(auto, unfolding(crate::specs::Place::is_of_piece_length))]
    fn is_of_piece_length(self) -> bool
        requires { self.number < self.count }
        ensures { result ≡ is_of_piece_length self }
    {
        if self.count == 1 {
            return true;
        }
        are_piece_lengths(self.told_piece_len(), self.len)
    }

    /// Whether the piece ends where the packet does, or before.
    fn ends_within(self) -> bool
        ensures value { result ≡ nat_le (self.offset + self.len) self.total }
        ensures small { IsTrue result → told_piece_len self < 2 ^ 32 }
    {
        let total = self.total as usize;
        self.len <= total && self.offset as usize <= total - self.len
    }

    /// The length of every piece but the last, as this one tells it.
    #[tactic(auto, unfolding(crate::specs::Place::told_piece_len))]
    pub(crate) fn told_piece_len(self) -> usize
        requires { self.number < self.count }
        ensures { result ≡ told_piece_len self }
    {
        if self.number + 1 == self.count {
            self.offset.checked_div(self.count - 1).unwrap_or(0) as usize
        } else {
            self.len
        }
    }

    /// Whether the piece speaks of a packet of so many pieces and bytes.
    pub(crate) fn is_of_size(self, count: usize, total: usize) -> bool
        ensures { result ≡ ((self.count == count) && (self.total == total)) }
    {
        self.count as usize == count && self.total as usize == total
    }

    /// Whether a packet whose pieces have this length has the piece at this place.
    #[tactic(auto, unfolding(crate::specs::Place::is_even))]
    fn is_even(self, cut: usize) -> bool
        requires number { self.number < self.count }
        requires count { self.count ≤ FRAGMENT_LIMIT }
        requires cut { cut < 2 ^ 32 }
        requires offset { self.offset ≤ self.total }
        ensures { result ≡ is_even cut self }
    {
        let len = if self.number + 1 == self.count {
            (self.total - self.offset) as usize
        } else {
            cut
        };
        self.offset as usize == self.number as usize * cut
            && self.len == len
            && (self.count - 1) as usize * cut <= self.total as usize
    }
}

/// Whether a datagram allows the length of every piece but the last, and that of this one.
fn are_piece_lengths(cut: usize, len: usize) -> bool
    ensures { result ≡ (nat_le 512 cut && nat_le cut 4068 && nat_le len 4068) }
{
    let most = LONGEST_PIECE as usize;
    SHORTEST_PIECE as usize <= cut && cut <= most && len <= most
}
