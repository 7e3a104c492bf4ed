//! What a peer of ENet 1.3 sends reliably or in order: the senders of all its channels, with their commands in one slab ([`Senders`]), and
//! channel 0xFF, the commands that concern the connection itself ([`Control`]).
//!
//! Contracts see the list of the channels' ends, as if each had lists of its own. A channel's sender is made once a packet is submitted
//! there, with those of the channels before it (`MadeSenders`, specs/Made). Proved, each exactly by the definitions of `enet_sender`: `Senders::submit`, `next_due`, `skip` and `acknowledge` do what that call does on their channel, and leave
//! every other as it was; `any_ends`, `any_late`, `have_no_packet` and `have_no_reliable` ask all channels; `count_sent_again` counts over
//! all, also those of channel 0xFF; `mark` and `clear` do their work on each, and `mark` sums up what became late (`IsLateOver`); `narrow`
//! keeps the first ones. That each key stands in one ring once is an invariant, so no call asks it of its caller. `any_late`, `any_ends` and `mark` look only at commands whose timeout has passed, and `next_late` reads when
//! the first one's has (`Pending` of `enet_sender`). Two sets of channels are kept, of those that may have something to put out
//! and of those that may have something sent: `have_no_packet` and `have_no_reliable` look at these alone.
//! `next_ready` promises of each channel that it passes over that it has nothing queued, and nothing that is due to go again; where
//! `has_to_wait` answers true, `next_due` has nothing to write on that channel.
//! `next_late` says when something is late first. Of channel 0xFF, exactly by specs/Controlling: `queue`, `next_due`, `acknowledge`,
//! `late`, `next_late`, `clear`, `is_idle`, `is_at_rest`, `reserve`, `open` and the calls that only test or only mark (`ends`, `is_late`, `mark`,
//! `has_queued`); a list without commands has room for one.
//! Only tested, by `check_peer`: that calls succeed with ample memory, the bytes of each command of channel 0xFF, and worked rows.
#![tactic(auto)]

mod channel_set;
mod channels;
mod control;
mod outgoing;
mod queue;
mod senders;

pub use channels::Senders;
pub use control::{Control, Numbered, SentControl};
pub use outgoing::{ControlChannel, Written};
