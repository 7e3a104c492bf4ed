//! All that comes to a peer in ENet 1.3: its channels' receivers, the unsequenced groups that came, and the packets that the
//! user hasn't taken.
//!
//! Proved, exactly by specs/Inbox and specs/DataEffect: `foresee` (why a data command stops its datagram, in the order of the
//! tests, or whether it may be acknowledged and whether something of it is kept), `take_in` (the inbox after such a command; for which
//! the unreliable packets that wait give way; want of memory changes nothing), `take_at_once` (the inbox after a sequenced command of
//! which nothing was foreseen, where it takes that in), `pass_over`, `take`, `next`, `clear`, `forget`, `narrow`,
//! `open`; the bytes and the packets that wait are kept by counters (`bytes`, `places`, `undispatched`), and have a bound, whatever comes and
//! whether or not the user takes (specs/Bounds, an invariant of `Inbox`). A channel's receiver is made once something of the channel is
//! kept, with those of the channels before it; to one that isn't made nothing came (specs/Made). Law: a data command that stops its
//! datagram changes nothing, nor does one of which nothing is kept (`a_stop_changes_nothing`).
//! Only tested, in `check_numbers` and `check_peer`: that calls succeed with ample memory, and worked rows.
//! Neither: when `take_at_once` takes a command in. A body that never does would pass.
#![tactic(auto)]

mod arriving;
mod inbox;
mod laws;
mod receivers;
mod taking;

pub use arriving::Foreseen;
pub use inbox::Inbox;
pub use laws::a_stop_changes_nothing;
