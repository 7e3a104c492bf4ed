//! A world of two hosts and the network between them, which loses, repeats and reorders datagrams as the events say. Each host sees
//! of the other only the bytes of datagrams. The definitions are those of `law_network`.
//!
//! Proved, without a premise: `World::open` and `World::joined` give the stated first world, and refuse as stated. `step` is one event
//! by the network's definition (`Steps`): a refusal is the first that applies and changes nothing, and any other event makes its one
//! host call on its side, with what that adds to what is kept. `run` is its steps in order (`Runs`). After each the headline holds
//! of every connection, end and channel, whatever was connected before, at the same time or after, slots used again included
//! (`HasHeadline`), and what a host has nothing left to send of was delivered at the other (`HasDelivered`). `calm` is the stated rounds of
//! such events in which the network loses nothing (`Rounds`), counted. Where nothing stood in the way, enough of them bring all that was
//! submitted reliably, of a connection that stands before and after them (`GetsThrough`), and no connection is lost on which nothing had waited
//! long (`BothStand`). Who was connected is so still, or its user is told, then or in one more round (`TellsEnds`): so an end is told, or both
//! stand and all comes (`ComesOrEnds`). Who is connected while the other side's peer has ended or is gone is told within 91 seconds and
//! five rounds, and 90 seconds more for each data command that is queued there (`TellsAlone`). `rounds_needed` tells how many are enough
//! (`AreEnough`): the stated number, where it is stated to tell one (specs/Needed), which needn't be the least.
//! Only tested, by scripts/rows, `check_lists` and check-memory.sh: that calls succeed with ample memory, worked runs with their
//! answers and bytes, and that a call which was refused for want of memory is answered as wanted when it is made again.
//! Neither: that a datagram arrives, or that memory is there.
#![tactic(auto)]

mod calm;
mod enough;
mod happening;
mod hosts;
mod world;

pub use calm::{Calm, Share};
pub use enet_host::PeerState;
pub use happening::side_of;
pub use law_network::{Answer, Side, WorldEvent};
pub use world::World;
