//! How long a client waits until it counts itself, at a server that doesn't tell how many peers it has.

ghost use Rattle.std.specs.Prelude.{◌≡◌};
ghost use Rattle.enet_demo.specs.Private.Resting.{rested, is_last};

/// A client counts itself after so many rests, each of a millisecond at most, in which it has its connection.
const RESTS: u32 = 100;

/// The rests that a client has had since its connection.
#[derive(Clone, Copy)]
pub(crate) struct Patience {
    rests: u32,
}

impl Patience {
    /// None yet.
    pub(crate) fn new() -> Patience
        ensures { result ≡ record { rests = 0 } }
    {
        Patience { rests: 0 }
    }

    /// One more. True where it is the last one that is waited for, so once. No more than 4,294,967,295 are counted.
    pub(crate) fn rest(&mut self) -> bool
        ensures rested { self.new ≡ rested self.old }
        ensures last { result ≡ is_last self.new }
    {
        self.rests = self.rests.saturating_add(1);
        self.rests == RESTS
    }
}
