//! Who gives way where there is no more room.

ghost use Rattle.std.specs.Prelude.{◌≡◌};
ghost use Rattle.enet_metrics.specs.Crowds.{from_there, has_most, gives_way};

/// Which of those that wait gives way to one who comes then: of the address from which the most of them come the one that waits longest; of
/// several such addresses the one of whom somebody waits longest. They are told by their addresses, in the order in which they came. None
/// where nobody waits.
///
/// So whoever is alone at its address gives way only where each of them is, however many come from elsewhere.
pub fn gives_way(addresses: &[u32]) -> Option<usize>
    ensures { result ≡ gives_way addresses.now }
{
    addresses
        .iter()
        .position(|address| has_most(addresses, *address))
}

// Whether from no other address more of them come.
fn has_most(addresses: &[u32], address: u32) -> bool
    ensures { result ≡ has_most addresses.now address }
{
    let count = from_there(addresses, address);
    addresses
        .iter()
        .all(|other| from_there(addresses, *other) <= count)
}

// How many of them come from there.
fn from_there(addresses: &[u32], address: u32) -> usize
    ensures { result ≡ from_there addresses.now address }
{
    addresses.iter().filter(|other| **other == address).count()
}
