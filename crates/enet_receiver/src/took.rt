//! What a receiver answers.

/// What became of a command: the first that applies of `Bad`, `Outside`, `Again`, `Waiting`, `Memory` and `Held`. All but `Held`
/// leave the receiver as it was.
#[derive(Clone, Copy, PartialEq, Eq)]
pub enum Took {
    /// It was taken in, and what it completed was dispatched.
    Held,
    /// It came before, its place is taken, its number is the front's, or it has fallen behind.
    Again,
    /// Its number is outside the window; of a reliable fragment, its own or that of its packet's first piece.
    Outside,
    /// It can't be a piece of its packet, its packet is above the maximum packet size, or it is not a command of the call
    /// that was made.
    Bad,
    /// It begins a packet while its caller tells that too much waits.
    Waiting,
    /// Memory was refused.
    Memory,
}

/// What a command would do, with ample memory.
#[derive(Clone, Copy, PartialEq, Eq)]
pub struct Foresight {
    /// Its outcome.
    pub took: Took,
    /// Whether its outcome and the window let it be acknowledged; its own flag is not asked.
    pub acknowledged: bool,
    /// How many packets it would dispatch.
    pub dispatches: u32,
}
