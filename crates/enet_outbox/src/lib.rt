//! All that a peer has to send in ENet 1.3: acknowledgements, the commands of channel 0xFF, unsequenced packets, and its
//! channels' senders; and how they are packed into datagrams.
//!
//! Proved, exactly by specs/Outbox and specs/Emission: `emit` puts out the datagram that the definitions say (acknowledgements in the order
//! of arrival, channel 0xFF, unsequenced packets, then the channels in turn; the throttle is asked of the first command of an unreliable
//! packet that fits; at most 32 commands and the mtu; the sent time exactly where a command asks for an acknowledgement), byte for byte at
//! the front of the buffer, and leaves what they say; `submit`, `acknowledge` (what an acknowledgement takes out), `late` (which asks the
//! channels for an end only where one of their commands is late), `has_nothing_reliable`, `is_done`, `clear`, `narrow` and the rest; where
//! `has_nothing` answers true, nothing is queued or unacknowledged. By specs/Allowance: how much may be in transit beside the window, and
//! how that grows with what is acknowledged and shrinks with what was lost while the peer answered (`Allowance`). By specs/Room: the room
//! in transit is kept for a channel only while something of it may wait for room (`room_is_kept_for_something`). By specs/Outstanding:
//! `outstanding`, how many commands are queued or unacknowledged and their bytes, which are counted as they come and go; and `is_full`,
//! whether that is as much as a limit says. Where nothing is, no limit is reached (`one_always_goes`). By specs/Traffic: `traffic`, how
//! often reliable data commands went, first or again, and how many were acknowledged. What later calls need has its room before, told as a
//! number: `acknowledge` and `queue_control` ask for room, and `narrow` that nothing is in transit. Laws: the bytes of a datagram spell its
//! header and its commands, in their order, and nothing else (`what_goes_is_spelled`); the acknowledgement that waits longest goes first
//! (`oldest_goes_first`). Only tested, by `check_peer`: that calls succeed with ample memory, and worked datagrams byte for byte.
#![tactic(auto)]

mod allowance;
mod laws;
mod lists;
mod outbox;
mod packing;
mod parts;
mod readings;
mod traffic;
mod unsequenced;

pub use laws::{
    oldest_goes_first, one_always_goes, room_is_kept_for_something, what_goes_is_spelled,
};
pub use outbox::Outbox;
pub use parts::{Acknowledgement, Destination, Matched, Pace, SendLimit, Unsequenced};
pub use traffic::Traffic;
