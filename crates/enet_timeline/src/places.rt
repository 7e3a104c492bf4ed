//! Where things stand in the picture, in its units: a letter is some 6 wide.

ghost use Rattle.std.specs.Prelude.{◌≡◌, ◌≤◌};
ghost use Rattle.enet_timeline.specs.Private.Places.{step_of};

/// The width of the picture.
pub(crate) const PAGE: u64 = 1180;

/// The line of the left end.
pub(crate) const LEFT: u64 = 310;

/// The line of the right end.
pub(crate) const RIGHT: u64 = 930;

/// How many numbers that wait for their acknowledgement are drawn beside one another.
pub(crate) const LANES: usize = 12;

/// The distance of these.
const LANE: u64 = 14;

/// Two datagrams are at least so far apart.
const ROW: u64 = 19;

/// Two datagrams are at most so much farther apart.
const MOST: u64 = 50;

/// So many microseconds move a datagram down by one.
const MICROSECONDS: u64 = 4_000;

/// How far below the one before it a datagram stands: by the time between them, but for what is long.
pub(crate) fn step_of(gap: u64) -> u64
    ensures { result ≡ step_of gap }
{
    ROW + (gap / MICROSECONDS).min(MOST)
}

/// Whether the time between two datagrams is longer than the picture shows.
pub(crate) fn is_long(gap: u64) -> bool {
    gap / MICROSECONDS > MOST
}

/// A name of so many letters, written down along its bar, reaches so far.
pub(crate) fn reach_of(letters: usize) -> u64 {
    (letters as u64).saturating_mul(5).saturating_add(6)
}

/// The heads of the columns stand at most so far apart.
pub(crate) const PAGE_LENGTH: u64 = 900;

/// Where the lane of a number stands that goes to the right: beside the left end.
pub(crate) fn left_lane(lane: usize) -> u64
    requires { lane ≤ 12 }
{
    LEFT - 14 - LANE * lane as u64
}

/// The same of one that goes to the left.
pub(crate) fn right_lane(lane: usize) -> u64
    requires { lane ≤ 12 }
{
    RIGHT + 14 + LANE * lane as u64
}
