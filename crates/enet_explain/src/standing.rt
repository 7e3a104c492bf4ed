//! How a host and its peers stand.

use enet_codec::PeerRef;
use std::alloc::{AllocError, Global};

/// How a host stands.
#[derive(Clone, Copy, PartialEq, Eq)]
pub struct HostReading {
    /// In how many milliseconds time brings it something, at most 1,000.
    pub due_in: u32,
    /// How many acknowledgements wait to be put out.
    pub acknowledgements: u64,
    /// How many packets wait for an earlier one, or for pieces.
    pub waiting: u64,
    /// Whether there is an event to take.
    pub has_event: bool,
}

/// How a connection stands at its host.
#[derive(Clone, Copy, PartialEq, Eq)]
pub struct PeerReading {
    /// The peer's name.
    pub name: PeerRef,
    /// How far the connection has come, in a word.
    pub state: &'static str,
    /// How many commands are queued for it, or sent and not acknowledged.
    pub commands: u64,
    /// The bytes of their packets.
    pub bytes: u64,
    /// How many bytes of reliable packets are in transit to it.
    pub in_transit: u32,
    /// How many may be.
    pub allowance: u32,
}

/// How a host of this name stands. An error where there is no memory for the text.
pub fn host_line(alloc: Global, host: &str, reading: HostReading) -> Result<String, AllocError> {
    let HostReading {
        due_in,
        acknowledgements,
        waiting,
        has_event,
    } = reading;
    let mut text = format!(in alloc; "{host}: something is due in {due_in} ms")?;
    if acknowledgements > 0 {
        write!(text, ", {acknowledgements} to acknowledge in its next turn")?;
    }
    if waiting > 0 {
        write!(text, ", {waiting} held until what is missing comes")?;
    }
    if has_event {
        text.push_str(", an event to take")?;
    }
    Ok(text)
}

/// How a peer of a host of this name stands. An error where there is no memory for the text.
pub fn peer_line(alloc: Global, host: &str, peer: &PeerReading) -> Result<String, AllocError> {
    let PeerReading {
        name,
        state,
        commands,
        bytes,
        in_transit,
        allowance,
    } = *peer;
    let PeerRef { slot, generation } = name;
    if commands == 0 {
        return format!(in alloc;
            "{host}: peer {slot}.{generation} {state}, no packet unsent or unacknowledged"
        );
    }
    let word = if commands == 1 { "command" } else { "commands" };
    format!(in alloc;
        "{host}: peer {slot}.{generation} {state}, {commands} {word} with {bytes} bytes unsent or unacknowledged, {in_transit} of {allowance} bytes on their way"
    )
}

/// A peer of a host of this name is no more. An error where there is no memory for the text.
pub fn gone_line(alloc: Global, host: &str, peer: PeerRef) -> Result<String, AllocError> {
    let PeerRef { slot, generation } = peer;
    format!(in alloc; "{host}: peer {slot}.{generation} is gone")
}
