//! The clock, on which a moment is earlier or later than another.

ghost use Rattle.std.specs.Prelude.{◌≡◌, ◌↔◌, IsTrue};
ghost use Rattle.enet_rtt.specs.Clock.{elapsed_time, IsEarlier, sample_of, told_time, meant_time, ShowsElapsedTime, TellsEarlier, ShowsToldTime};

/// The milliseconds from the moment `since` until `now`, modulo 2^32.
pub fn elapsed(now: u32, since: u32) -> u32
    ensures { result ≡ elapsed_time now since }
{
    now.wrapping_sub(since)
}

/// Whether moment `a` is earlier than moment `b` on a clock that wraps: where `a - b`, modulo 2^32, is a day
/// (86,400,000 ms) or more. Moments less than a day apart are told apart rightly (our profile).
pub fn earlier(a: u32, b: u32) -> bool
    ensures { IsTrue result ↔ IsEarlier a b }
{
    elapsed(a, b) >= 86_400_000
}

/// The round trip, 1 to 65,535 ms, that an acknowledgement shows: from the sent time that it repeats, which is the
/// low 16 bits of this end's clock at that time, until `now`; at least 1 (our profile).
pub fn round_trip_sample(now: u32, sent: u16) -> u32
    ensures { result ≡ sample_of now sent }
{
    let low = (now % 65_536) as u16;
    u32::from(low.wrapping_sub(sent)).max(1)
}

/// The sent time that a datagram tells at the moment `now`, of a peer that adds `offset` to its times, modulo 65,536 (our profile).
#[inline(always)]
pub fn told_time(now: u32, offset: u16) -> u16
    ensures { result ≡ told_time now offset }
{
    ((now % 65_536) as u16).wrapping_add(offset)
}

/// The time of 16 bits that a told one stands for, of a peer that adds `offset` to its times (our profile).
#[inline(always)]
pub fn meant_time(told: u16, offset: u16) -> u16
    ensures { result ≡ meant_time told offset }
{
    told.wrapping_sub(offset)
}

/// A law of the definitions, over times that don't wrap and of which the clock shows the remainders modulo 2^32: it shows
/// rightly how much time has passed, where that is less than 2^32 ms, and which of two moments is earlier, where they
/// are less than a day apart. And a told time stands for the moment at which it was told.
pub fn clock_is_right()
    ensures elapsed { ShowsElapsedTime }
    ensures earlier { TellsEarlier }
    ensures told { ShowsToldTime }
{}
