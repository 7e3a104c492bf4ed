//! A command of a channel, queued or sent.

use enet_fragment::DataCommand;
use enet_rtt::Transmission;

/// A command of a channel, and how it was sent so far; one that is only queued stands as if it had been sent at 0, and
/// were due to go again.
#[derive(Drop)]
pub struct Sent {
    /// The command, with its payload.
    pub command: DataCommand,
    /// How it was sent so far.
    pub transmission: Transmission,
}
