//! How much is queued or unacknowledged.

/// How much is queued, or sent and not acknowledged.
#[derive(Clone, Copy, Debug, PartialEq, Eq)]
pub struct Outstanding {
    /// How many commands: a packet that is cut counts as many as it has pieces.
    pub commands: u64,
    /// The bytes of their payloads.
    pub bytes: u64,
}
