//! One channel's sender in ENet 1.3: it numbers the commands of each packet, sends them in their order, sends reliable ones
//! again, and keeps them until they are acknowledged. All commands of a peer stand in one slab, `Pending`, and a channel has
//! rings of their keys: of what is queued, and of what is sent, with a place for each number up to the last that went.
//!
//! # Proved
//!
//! Each exactly by the definitions of specs/Sender and specs/CommandChoice:
//! - `Outgoing::submit`: how a packet goes, its commands and their numbers, all or none; E5 exactly above 16,384 pieces (`too_large`);
//!   a refused body is still there and nothing has changed (`refused`).
//! - `next_due`: the first due resend, where there is room in transit for it, and where none is due the head of the queue, where the
//!   sender's span and the room let it go (`has_room`), written where it fits; NoRoom and Nothing change nothing. Where `has_to_wait`
//!   answers true, nothing goes (`Waits`, specs/Waiting).
//! - `skip`, `acknowledge`, `late`, `ends`, `is_late`, `mark`, `clear`, `left`; and `next_late`, in how many milliseconds something is
//!   late first.
//! - Of all channels at once, by specs/Foretold and specs/Late: `Pending::any_late`, `any_ends`, `first_late` and `mark_all`, which also
//!   sums up what became late and what of it was lost. They look only at commands whose timeout has passed, since when each is late is
//!   noted by its key from its sending until it is acknowledged or found late (`KeepsTime`, which no contract shows).
//! - Of all channels at once, by specs/Outstanding: `Pending::outstanding`, how many commands are queued or unacknowledged, and their
//!   bytes, which are counted as commands come and go (`KeepsBytes`).
//! - An acknowledgement after which a channel has nothing unacknowledged gives room back, and so does a call of `next_due` that finds nothing
//!   queued or unacknowledged: of the channel's rings, and of the commands, if there is none. Room for 64 stays at most (`most_unused`).
//!
//! Where it matters each asks that rings and slab fit (`KeepsIn`, specs/Rings), and leaves that so, and what stands under other keys
//! (`PassesIn`; specs/Pending). They fit if:
//! - each key of the rings is in the slab, once in the rings, and nothing under the mark of a vacant place; bodies are short;
//! - what is sent stands in the place of its number, of at most 8,192 the first of which isn't vacant, and none is due to go again before
//!   the place where the search for one begins;
//! - the reliable numbers of the queue go on, one by one, from the last that went to the last that was given, and are counted.
//!
//! Laws: how the bytes and prices in transit change (`transit_follows`, `prices_follow`) and what stays left (`reliable_stays_left`).
//!
//! # Only tested
//!
//! By `check_peer`: that calls succeed with ample memory, and worked rows.
#![tactic(auto)]

mod course;
mod lateness;
mod laws;
mod outgoing;
mod outstanding;
mod pending;
mod ring;
mod sent;
mod tally;
mod timed;
mod writing;

pub use lateness::Late;
pub use laws::{prices_follow, reliable_stays_left, transit_follows};
pub use outgoing::{Acknowledged, Due, Kind, Left, Occasion, Outgoing};
pub use outstanding::Outstanding;
pub use pending::Pending;
pub use sent::Sent;
