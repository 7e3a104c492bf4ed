//! The machine of one peer in ENet 1.3: what each command, datagram ([`receive`]), moment and call makes of it.
//!
//! # Proved
//!
//! Each exactly by the definitions of specs/ (Peering, CommandEffect, Endings, Calls, Next):
//! - `command` makes of the peer what the rules say of that command in that state, and no other change. The stop is the first that
//!   applies, an acknowledgement is queued exactly where they say so, and want of memory changes nothing and comes only where no earlier
//!   test stops the command (`Obeys`, `obeyed`).
//! - `emit` puts out what the outbox's definition says and then goes on (`PutsOut`, `gone_on`).
//! - `tick` (`moved`), the three disconnects (`Leaves`, `left`), `submit` (`Submits`: the first of E3, E4, E5, else E1, with nothing
//!   changed and the body handed back), `submission_refusal`.
//! - `next_event` (`Takes`), `next_body`, `next_packet`; the makers `joined`, `connecting`, `answering`; and what the user sets
//!   (`bandwidth`, `throttle_configure`, `throttle_limit`, `ping_interval`, `timeout`, `reserve`).
//! - A peer of which `only_waits` answers true has nothing that goes and nothing to tell (`Waits`).
//! - `held` tells how much a peer holds of what the other end sent: no more than the limits with which it began allow (specs/Held).
//!
//! `bandwidth` and `throttle_configure` ask for room for a command of channel 0xFF, which `reserve` makes; the second also for a connected
//! peer. What has no answer for want of memory does the same whatever memory is left. S11 comes only where something of a command is kept
//! or one acknowledgement more waits, and for an ACKNOWLEDGE that asks to be acknowledged.
//!
//! Laws:
//! - What every peer keeps (`reachable_stays`, specs/Reachable): once the connection has ended for this end no packet is queued and
//!   nothing is sent and unacknowledged, an acknowledgement waits in AckDisconnect, one unsequenced DISCONNECT in Parting, nothing in
//!   Ended and Free; a sender's channel is its place; no receiver keeps what it dispatched.
//! - A DISCONNECT that can be acknowledged is, by the first command of the datagram that ends the connection (`disconnect_is_answered`).
//! - No acknowledgement shows a round trip that is longer than the time since the first send of what it matches (`sample_is_no_longer`).
//!
//! # Only tested
//!
//! By `check_peer`: that calls succeed with ample memory, and worked trials with their bytes; through hosts, by `check_hosts`: captures.
#![tactic(auto)]

mod at_once;
mod datagram;
mod effects;
mod endings;
mod events;
mod heading;
mod held;
mod laws;
mod leaving;
mod opening;
mod parts;
mod peer;
mod readings;
mod refusing;
mod sending;
mod settings;
mod time;

pub use datagram::{may_confirm, receive, what_was_put_out_comes};
pub use heading::{read_heading, read_offer};
pub use held::Held;
pub use laws::{disconnect_is_answered, reachable_stays, sample_is_no_longer};
pub use parts::{Ending, Limits, Offsets, PeerEvent, PeerState};
pub use peer::Peer;
pub use readings::RoundTrip;
