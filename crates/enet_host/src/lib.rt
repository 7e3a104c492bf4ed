//! A host of ENet 1.3 without a socket: datagrams, calls and time go in, datagrams and events come out.
//!
//! A host has a fixed number of slots (`enet_slot`), each of which is free or holds one peer. Times are in milliseconds,
//! bandwidths in bytes per second.
//!
//! # Proved
//!
//! Each call exactly, by small definitions over the slots:
//! - One that names a peer is that peer's call on the one slot of that number and generation (`on_named`), with E2 where there is none,
//!   and leaves all else as it was (`rest`). `submission_refusal` is the refusal of `submit` but E1.
//! - `receive` is `Arrives`: the tests of a datagram in their order; a stranger's offer, which takes the lowest slot that is free and has a
//!   generation left; or the commands of a datagram at the one slot that its header names. If no slot is free and the host lets peers give
//!   way, an offer takes the slot of the peer that has waited longest for its client, and if as many peers of its IP address are there as
//!   may be, that of the one of them that has (`seat`): so no more are there than may be, if no more were before (`few` of `Receives`). If
//!   as many are connected or leaving as may be, a client that confirms is told so, and isn't connected (`refuses_at`). `admit` sets all
//!   three (`with_admission`). `next_peer` is the name that a connection of our own gets, `next_guest` the one that the peer of an address's
//!   next offer gets.
//! - `service` asks slot after slot, beginning after the one served last, up to the first that gives a datagram, and names its peer as it
//!   was before (`EmitsInTurn`).
//! - `next_event` goes by the first slot in turn that has an event (`IsFirst`). `next_event_of`, `next_packet` and `next_body` say of the
//!   event that it gives whose it is and what it hands out (`Foretells`).
//! - `submit_each` is the submissions of its errands, peer by peer and one after another, and answers the first refusal but E2 and E3
//!   (`SubmitsEach`).
//! - `tick` and `set_bandwidth` are one change on each slot; once a second the outgoing bandwidth is shared out among the connected
//!   peers. `due_in` is in how many milliseconds time brings something: a tick of fewer changes the clock alone (`IsDueIn`).
//! - What came from the address of a slot's peer, and what went there, is counted: each datagram that comes for that peer from its address,
//!   whether or not it is stopped, each CONNECT of it (`Counts`), and each datagram that `service` gives (`with_went`), with the headers of
//!   IP and UDP (`size_of`). At a tick a client that was answered is not answered again where that would bring what went above three times
//!   what came (`is_short`, and `moved` of `enet_peer`).
//! - A peer begins with what its host's secret draws for it (`drawn` of `enet_slot`), as by the settings, or as by `set_secret` since
//!   (`with_secret`).
//! - `slot_counts` counts the slots that are free, with a generation left or without, and of the others how far their connections have
//!   come (`Counts`).
//! - `sent_again` counts the commands of all peers that are unacknowledged and were sent more than once. `traffic` is a peer's own count:
//!   how often its reliable data commands went since it began, how often again, and how many were acknowledged (specs/Traffic of
//!   `enet_outbox`).
//! - `held` counts what the host holds of what others sent (`held_by`). Whatever datagrams come, and whether or not its user takes, that is
//!   no more than `most_held` of its settings: each peer has their limits (`AreLimited`, by the invariant of `HostCore`).
//! - `memory_held` tells how many bytes that takes, with the slots, as one of each kind takes so many (`memory_with`, specs/Memory), and
//!   `most_memory_held` how many it is at most. All that a host holds, `memory_of`, is within `memory_bound` of its settings and of what is
//!   queued or unacknowledged.
//!
//! Of every host: no slot holds a peer that is free (`HostCore::keeps`). By the invariant of `HostCore` a slot that sleeps has nothing to
//! put out or to tell, and it is noted when time brings it something (`KeepsSleepers` of `enet_sleepers`); each peer is found by its
//! address and connect id (`KeepsSeats`). Want of memory, of which no
//! clause can say when it comes, changes nothing.
//!
//! # Only tested
//!
//! By `check_hosts`: that calls succeed with ample memory, worked scripts, captured files; by check-strangers.sh: foreign bytes; by
//! check-memory.sh: that a thing takes no more memory than specs/Memory says.
//!
//! # Neither
//!
//! - That a slot which has nothing falls asleep.
//! - That those asleep, free ones and those whose peer only waits, are looked at by no call of `service` or of those that tell events, by
//!   `due_in` not at all, and by `tick` only where bandwidth is shared out or time brings that slot something.
//! - That an offer is compared with a few slots, those that are noted at its connection's place, and looks at no other that sleeps but the
//!   free ones up to the one that it gets.
//! - That an offer finds the peer that gives way without a look at each slot, and where a limit for an address is set looks at that address's
//!   slots and a few others.
#![tactic(auto)]

mod broadcast;
mod calls;
mod connecting;
mod credits;
mod emitting;
mod events;
mod foretelling;
mod held;
mod host;
mod memory;
mod peers;
mod receiving;
mod ticking;
mod totals;
mod turns;

pub use credits::Credit;
pub use enet_codec::{
    Addr, Config, DisconnectMode, Event, Outward, Packet, PeerRef, Received, Refusal, Secret, Stop,
};
pub use enet_connect::Terms;
pub use enet_peer::{Held, PeerState, RoundTrip};
pub use enet_slot::SlotCounts;
pub use host::HostCore;
pub use totals::Totals;
