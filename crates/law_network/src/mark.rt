//! What is kept of the commands of a datagram that was put out, to tell later whether one of them is late.

/// What a command is to the test for lateness.
#[derive(Clone, Copy)]
pub enum MarkKind {
    /// Sequenced data.
    Data,
    /// An acknowledgement: the other end gave the number.
    Acknowledgement,
    /// A command of channel 0xFF, which is counted and never late.
    Control,
}

/// A command that has a number: each but unsequenced data.
#[derive(Clone, Copy)]
pub struct Mark {
    /// What the command is.
    pub kind: MarkKind,
    /// Its channel, or that of the command that it acknowledges.
    pub channel: u8,
    /// The reliable number on the wire.
    pub number: u16,
    /// The greatest number that the end which gave it had sent on the channel, just after the datagram was put out.
    pub sent_then: u128,
}
