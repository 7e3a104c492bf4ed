//! What a capture of ENet 1.3 holds: which connections there are, what went between their ends and when, what went again, and what answers it.
//!
//! Proved, by the definitions of specs/: what of a capture passes a filter, connection by connection (`parts_of`, by `AreParts`); what
//! became of each of a connection's datagrams by all its commands, those that don't pass, too (`mark_all`, by `fate_of`): which commands
//! are one send, which repeat one, which send an acknowledgement belongs to (specs/Sends), and which datagrams were acknowledged, sent
//! again without that, too early, or all the same (specs/Fates, `outcome`); how many these are (`ended`, `resent`, `early`, `in_vain`);
//! how soon what goes each way is acknowledged (`IsPart`, by `delays_to`), and at which end the capture seems to have been made by that
//! (`made_at`); what answers a command (`answers`); how many commands are of a kind, and how many datagrams go one way or can't be read (`count_of`,
//! `going`, `stopped_by`); the longest gap (`longest_gap`, by `IsLongest`). Of the steps of `read_timeline`, by those of specs/Private:
//! which commands a datagram says, and why the rest can't be read (`read_commands`, by `Says`), and its sent time (`sent_in`); what is kept
//! of a command (`told_of`), and that those of a datagram stand behind one another (`push_marks`); when it was captured (`moment_of`);
//! between which connections' ends it goes, which is the last such connection, and whether it goes on with that (`way_in`, `last_between`,
//! `goes_on`).
//! Only tested, by scripts/check/check-inspect.sh over 446 captured datagrams, crowds, random datagrams, captures that are cut short, the
//! rows of trials/captured/marks.rows, and scripts of the lab: that a datagram is put into the connection that was found (`connection_for`,
//! `note`), that the capture begins with its first packet (`begun_at`), and that datagrams which were noted in place of a capture are taken in
//! (`timeline_of`).
#![tactic(auto)]

mod connections;
mod counting;
mod delays;
mod fates;
mod fault;
mod filter;
mod noted;
mod part;
mod reading;
mod sends;
mod timeline;
mod told;

pub use counting::{answers, count_of, going, is_same, longest_gap, stopped_by};
pub use delays::{Delays, made_at};
pub use fates::{Fate, Marked, Outcome, early, ended, in_vain, lost, mark_all, resent};
pub use fault::TimelineFault;
pub use filter::Filter;
pub use noted::{Noted, timeline_of};
pub use part::{Part, parts_of};
pub use timeline::{Connection, HostName, Mark, Seen, Source, Timeline, Way, read_timeline};
pub use told::{Detail, Kind, Told};
