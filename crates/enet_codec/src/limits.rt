//! Numbers of ENet 1.3 that several crates use.

/// The most slots of a host.
pub const MAX_PEERS: u16 = 4095;

/// The slot that a header names where its sender doesn't know the receiver's yet.
pub const NO_PEER: u16 = 0xFFF;

/// The most channels of a connection.
pub const MAX_CHANNELS: u32 = 255;

/// The channel of the commands that concern the connection itself.
pub const CONTROL_CHANNEL: u8 = 0xFF;
