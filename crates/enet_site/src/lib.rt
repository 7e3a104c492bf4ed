//! What is kept of a host in a network ([`Records`]), and the host with it ([`Site`]): at its address, the datagrams of connections that it
//! put out, each with its connection and the marks of its commands, and its ends of connections, each with what its user submitted and
//! took and how far its numbers have come. Around it are other hosts (the trait [`Around`]), and strangers. The definitions are those of
//! `law_network`. A [`Place`] is a site with all that it put out, to strangers too; `open_clients` opens many of them. Want of memory
//! changes nothing.
//!
//! Proved of records, without a premise but those that are named: `Records::open`, `Records::joined` and `fresh_end` give the stated first
//! states. `note` counts the commands of a datagram at its end and marks them as its bytes spell them (`Notes`).
//! `End::keep_packet` keeps a packet that is taken as the network's definition says (`with_event`). `comes_late` is the network's
//! test for lateness. What was submitted and taken, events, numbers and names are lent by connection and channel as they are. Of all that
//! is kept `AreKept` holds: an end has 256 channels and numbers, which stay far below 128 bits, and no two ends have one name.
//!
//! Proved of sites, without a premise but the one that is named: `open` and `joined` give the stated first state, and refuse as stated. Each
//! call is one thing that happens at the host by the network's definition, or is refused as the network's events are, with nothing
//! changed: `connect`, `submit`, `deliver`, `receive`, `turn`, `tick`, `take` and `disconnect`. `turn` supposes that each peer at a
//! host's address is that of an end (`AreEnds`), which the network's headline says of every run. `delivery_refusal` is the network's
//! definition of that name: E13, then E12, then E11, each exactly where it is the first that applies; `connect_refusal` foretells E8
//! and E7. The lists, datagrams and states are told as they are. Of every site `IsWhole` holds: each end's peer stands, or its name is never
//! given again.
//!
//! Only tested, by scripts/rows and `check_lists`, through `enet_world`: that calls succeed with ample memory.
#![tactic(auto)]

mod around;
mod arriving;
mod connecting;
mod delivery;
mod end;
mod keeping;
mod lateness;
mod leaving;
mod marks;
mod numbers;
mod opening;
mod place;
mod places;
mod put_out;
mod records;
mod site;
mod standing;
mod submitting;
mod taking;
mod turn;

pub use around::Around;
pub use end::{Channel, End, events, numbers_of, peer_of, position_of, submitted, taken};
pub use lateness::comes_late;
pub use law_network::{Sent, Text};
pub use marks::MAX_COMMANDS;
pub use opening::fresh_end;
pub use place::Place;
pub use places::{close_all, open_clients};
pub use put_out::Turned;
pub use records::{Datagram, Records, note};
pub use site::Site;
