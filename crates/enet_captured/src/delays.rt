//! How soon what goes each way is acknowledged, and what that says of the end at which a capture was made.

ghost use Rattle.std.specs.Prelude.{◌≡◌, ◌<◌, length, slice_get};
ghost use Rattle.enet_captured.specs.Delays.{at_least, at_most, delay_to, delays_to, goes, is_far, is_near, made_at, shorter, taken, time_of, with_delay};
ghost use Rattle.enet_captured.specs.Private.Tables.{AreLinks};

use crate::sends::{Links, link_at};
use crate::timeline::{Mark, Way};

/// So many sends have to be acknowledged each way.
const ENOUGH: usize = 10;

/// An end is near if one of its acknowledgements took so many microseconds at most.
const NEAR: u64 = 2_000;

/// It is far if none took less than this.
const FAR: u64 = 20_000;

/// How soon the sends that go one way were acknowledged.
#[derive(Clone, Copy)]
pub struct Delays {
    /// How many were acknowledged.
    pub count: usize,
    /// The shortest time from one to its first acknowledgement, in microseconds, where there is one.
    pub shortest: Option<u64>,
}

/// Before the first command.
const NOTHING: Delays = Delays {
    count: 0,
    shortest: None,
};

impl Delays {
    // One send more, where one took this time.
    fn with(self, delay: Option<u64>) -> Delays
        requires { self.count < 18446744073709551615 }
        ensures { result ≡ with_delay self delay }
    {
        match delay {
            None => self,
            Some(took) => Delays {
                count: self.count + 1,
                shortest: Some(shorter(self.shortest, took)),
            },
        }
    }

    // Whether the end that acknowledges is near the point at which the capture was made.
    fn is_near(self) -> bool
        ensures { result ≡ is_near self }
    {
        self.count >= ENOUGH && at_most(self.shortest, NEAR)
    }

    // Whether it is far from there.
    fn is_far(self) -> bool
        ensures { result ≡ is_far self }
    {
        self.count >= ENOUGH && at_least(self.shortest, FAR)
    }
}

fn shorter(known: Option<u64>, took: u64) -> u64
    ensures { result ≡ shorter known took }
{
    match known {
        None => took,
        Some(known) => { if took < known { took } else { known } }
    }
}

fn at_most(shortest: Option<u64>, most: u64) -> bool
    ensures { result ≡ at_most shortest most }
{
    match shortest {
        None => false,
        Some(time) => time <= most,
    }
}

fn at_least(shortest: Option<u64>, least: u64) -> bool
    ensures { result ≡ at_least shortest least }
{
    match shortest {
        None => false,
        Some(time) => least <= time,
    }
}

/// The way that leads to the end at which a capture seems to have been made, by how soon what goes to the right and to the left is
/// acknowledged: the end that is near if the other one is far. None where it can't be told.
pub fn made_at(right: Delays, left: Delays) -> Option<Way>
    ensures { result ≡ made_at right left }
{
    if left.is_near() && right.is_far() {
        return Some(Way::Left);
    }
    if right.is_near() && left.is_far() {
        return Some(Way::Right);
    }
    None
}

/// How soon those of a connection's commands were acknowledged that go one way.
pub(crate) fn delays_to(marks: &[Mark], links: &Links, way: Way) -> Delays
    requires { AreLinks marks.now links.now }
    ensures { result ≡ delays_to marks.now way (length marks.now) }
{
    let mut delays = NOTHING;
    for place in 0..marks.len() {
        delays = delays.with(delay_to(marks, links, way, place));
    }
    delays
}

// How long the command at a place took to be acknowledged, if it was and goes this way.
fn delay_to(marks: &[Mark], links: &Links, way: Way, place: usize) -> Option<u64>
    requires linked { AreLinks marks.now links.now }
    requires within { place < length marks.now }
    ensures { result ≡ delay_to marks.now way place }
{
    if goes(marks, way, place) {
        taken(
            marks,
            place,
            link_at(links.is_acknowledged.as_slice(), place),
        )
    } else {
        None
    }
}

// Whether the command at a place goes one way.
fn goes(marks: &[Mark], way: Way, place: usize) -> bool
    ensures { result ≡ goes way (slice_get marks.now place) }
{
    match marks.get(place) {
        None => false,
        Some(mark) => mark.way.is(way),
    }
}

// How long after a command the one was captured that a link leads to.
fn taken(marks: &[Mark], place: usize, link: Option<usize>) -> Option<u64>
    ensures { result ≡ taken marks.now place link }
{
    match link {
        None => None,
        Some(there) => Some(time_at(marks, there).saturating_sub(time_at(marks, place))),
    }
}

fn time_at(marks: &[Mark], place: usize) -> u64
    ensures { result ≡ time_of (slice_get marks.now place) }
{
    match marks.get(place) {
        None => 0,
        Some(mark) => mark.at,
    }
}
