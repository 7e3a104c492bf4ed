//! Whether what happened in a world of two hosts, or in a fleet, is what the headline promises: tests whose contracts are built of the
//! network's own definitions, for a given mtu, over the lists that the world or the fleet lends. By these drawn lists are judged. And what
//! such lists are drawn of: settings, packets, peers and datagrams, by a generator whose draws are the same in each run. `check_lists`
//! draws lists of two hosts by it, `check_fleets` those of a fleet.
//!
//! Proved: `follows` is true exactly where the packets that were taken of a channel follow those that were submitted on it
//! (`FollowsFrom`, which from the first packet on is `Follows`), `is_life` exactly where a user's events are one life of some peer
//! (`IsSomeLife`), and `is_sound` exactly where both hold at each connection, side and channel (`IsSound`), as does `is_fleet_sound` of a
//! fleet's connections and ends (`IsFleetSound`).
//! Only tested, by `check_lists`: that worked cases are judged as by hand. Neither: what is drawn, and whether events of a fleet and their
//! answers are judged as the page has it (`Page`).
#![tactic(auto)]

mod doing;
mod draw;
mod fleet;
mod following;
mod life;
mod lives;
mod page;
mod peers;
mod setting;
mod sound;

pub use doing::{Doing, Known};
pub use draw::{CHANNELS, Draw, Way};
pub use fleet::{is_end_sound, is_fleet_sound};
pub use following::follows;
pub use life::is_life;
pub use lives::{Lives, Told};
pub use page::{Page, peer_of};
pub use peers::{Peers, SLOTS};
pub use setting::Setting;
pub use sound::{is_side_sound, is_sound};
