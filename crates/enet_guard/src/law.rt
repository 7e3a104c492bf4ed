//! What a client's share comes to.
ghost use Rattle.enet_guard.specs.Allowing.{KeepsPackets, KeepsBytes};

/// Between two tellings of who is connected in a slot, whatever the guard judges beside, of the client there fewer packets pass in T
/// milliseconds than T + 2,000 of them allow, and beyond these only those of one datagram, the last that passed; and so it is with bytes.
/// Of a datagram of at most 4,096 bytes, as a wire gives them.
pub fn shares_are_kept()
    ensures packets { KeepsPackets }
    ensures bytes { KeepsBytes }
{}
