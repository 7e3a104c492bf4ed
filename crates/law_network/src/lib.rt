//! The law of isolation of the peers of one host (`isolation`), and hosts with a network between them: the definitions that say what
//! happens there, and laws. No code but the types of events and the calls that `settings` ties to isolation.
//!
//! specs/Network has what is kept of a host: all that it put out, each datagram with its connection and with the marks of its
//! commands, and its ends of connections, each with the name of its peer, how far its numbers have come, what its user
//! submitted and took. It has when a datagram is of an earlier connection or late. specs/Steps has what one host call adds to
//! all that where a host is among others and strangers (`HappensAmong`), specs/World the events of a world of two hosts with the
//! refusals that each meets; there is no stranger there.
//!
//! specs/Headline has the headline at a host and between the two ends of a connection, of the lists that are kept, and specs/Numbers
//! what the peers of the two ends agree on.
//!
//! Proved, of these definitions, which the calls of `enet_site` and `enet_world` meet: what happens at a host is events of each of its
//! connections (`each_thing_is_events`, `each_thing_at`); over every run of two hosts the law of one connection holds of each
//! (`one_world`), and with it the headline (`each_connection_in_order`); each host is where its own calls lead, so isolation speaks of
//! its peers (`each_host_by_its_calls`). Such runs do happen (`runs_happen`).
#![tactic(auto)]

ghost use Rattle.std.specs.Prelude.{true, false};
ghost use Rattle.law_network.specs.Law.{OneThing, GoOnAt, Asked, Answered, AreLawful, OfEachRun, OfEachJoinedRun, OfEachList, OfEachJoinedList};
ghost use Rattle.law_network.specs.Telling.{Turns, Rests, Brings, PassesOver, Times, TakesOne};
ghost use Rattle.law_network.specs.Alone.{EachAlone, EachAloneAmong};
ghost use Rattle.law_network.specs.Headline.{HasHeadline};
ghost use Rattle.law_network.specs.Examples.{IsInRange, CrossesOpened, CrossesJoined};

use enet_host::HostCore;

mod apart;
mod event;
mod mark;
mod put_out;
mod settings;

pub use apart::{isolation, isolation_of};
pub use event::{Answer, Side, WorldEvent};
pub use mark::{Mark, MarkKind};
pub use put_out::{Sent, Text};
pub use settings::{set_bandwidth, set_ping_interval, set_timeout, throttle_configure};

/// What happens at a host is, for each of its connections, a number of events of the law of one connection.
///
/// `goes_on`: each call of a host, each datagram that the network brings it of another host and that is neither of an earlier
/// connection nor late, and each that a stranger sends. An end that the host shows (its peer, its datagrams with their marks, how
/// far its numbers have come, what its user submitted and took, its events) is there afterwards, and is where the law's events
/// at that end lead, while the host from which a datagram comes shows the other end, or isn't at the address of the end's peer, and
/// no stranger is. So nothing but these events happens to a connection, whatever other connections the host has, and whatever
/// other hosts and strangers send it; slots that are given out again included, since a datagram of another connection
/// than that of the slot which it addresses is refused.
///
/// `asked`: where a Connect is accepted, an end begins that is the first of the law's asking pair, with this connect id. It adds to its sent
/// times what the host's secret draws for it, and nothing if there is no secret.
///
/// `answered`: where the network brings a datagram of a connection of which the host has no end, and an end begins, that is
/// the law's answer to a CONNECT which the other end put out. It may have the slot of a peer that was let go for it.
pub fn each_thing_is_events()
    ensures goes_on { OneThing }
    ensures asked { Asked }
    ensures answered { Answered }
{}

/// Which events these are: each end that a host shows is shown afterwards, and by these very events it has come to where it is then.
///
/// `turns`: a turn by which the host puts a datagram out to another host. An end put it out, with just the commands that its log has more,
/// in order; or it was asked in vain, or not asked, and nothing of its connection went. `rests`: a turn by which the host puts nothing out
/// asks each end in vain. `brings`: of a datagram of the end's own connection that the network brings to its slot, and that no command
/// stops, all commands come, in order. `passes_over`: one of another connection is nothing to it, unless its peer, who waits for its client,
/// is let go for another. `times`: where time goes on at the host it does at the end, whose throttle may be limited then. `takes_one`:
/// where the host's user takes, the end gives an event, or none.
pub fn which_events_these_are()
    ensures turns { Turns }
    ensures rests { Rests }
    ensures brings { Brings }
    ensures passes_over { PassesOver }
    ensures times { Times }
    ensures takes_one { TakesOne }
{}

/// The law of a host that there is: what happens at it is events of each of its connections, as `goes_on` says, with no premise on
/// its number of generations. It does nothing.
pub fn each_thing_at(host: &HostCore)
    ensures { GoOnAt host.now }
{
    host.keeps();
}

/// A world of two hosts, over every list of calls of either (a Connect goes to the other's address) and of datagrams of the other
/// that the network brings, none of them of an earlier connection or late.
///
/// `opened`: where all slots are free at first, both hosts show of each connection two ends of which the law of one connection
/// holds: what the user of one took of a channel follows what the user of the other submitted on it, each unsequenced packet
/// that was taken was submitted, and each user's events are one life. Connections may stand one after another, at once, and in slots that are used again, and connect ids may be
/// given again.
///
/// `joined`: so it is where both hosts have connection 0 from the start.
///
/// `events_opened`, `events_joined`: so it is of every list of a world's events, whatever is answered to them; one that is
/// refused, a datagram that is late or of an earlier connection too, changes nothing.
pub fn one_world()
    ensures opened { OfEachRun (AreLawful false) }
    ensures joined { OfEachJoinedRun (AreLawful true) }
    ensures events_opened { OfEachList (AreLawful false) }
    ensures events_joined { OfEachJoinedList (AreLawful true) }
{}

/// The headline over the same worlds, of the lists that are kept of each connection, end and channel, whatever the network
/// lost, repeated or brought out of order: what the user of one end took of a channel, unsequenced packets apart, is a
/// subsequence of what the user of the other submitted on it, each packet whole and once, that leaves out no reliable packet
/// before its last; each unsequenced packet that it took was submitted there to go so; each user takes at most one Connect, before all else, and nothing after a Disconnect, all of the end's own
/// peer, and the packets that are kept are those of these events. Each peer of a host is that of an end, so what is submitted or
/// taken is kept; no two ends of a host share a connection or a name; the mtu by which an end's packets go is its peer's.
///
/// As long as the peers of both ends of a connection stand, they agree on the numbers of each channel that has sequenced data:
/// an acknowledgement removes a command only if the receiver holds or dispatched it, or no longer dispatches; the front is at
/// most 16,384 numbers behind the oldest that wasn't acknowledged; and a wire number that comes in time is read as the number
/// that was meant, or as nothing.
///
/// The clauses are those of `one_world`, from which it comes.
pub fn each_connection_in_order()
    ensures opened { OfEachRun (HasHeadline false) }
    ensures joined { OfEachJoinedRun (HasHeadline true) }
    ensures events_opened { OfEachList (HasHeadline false) }
    ensures events_joined { OfEachJoinedList (HasHeadline true) }
{}

/// Each host of a run is where its own calls lead: so the law of isolation speaks of it, and each of its peers is where one peer alone
/// would be, since it began.
///
/// `events`: the calls are those that the events name, one an event at most, with what was answered (`calls_at`).
///
/// `calls`: so it is of every list of calls of either and of datagrams that the network brings (`calls_among`).
pub fn each_host_by_its_calls()
    ensures events { EachAlone }
    ensures calls { EachAloneAmong }
{}

/// Lists of a world's events that do happen, so that the laws above speak of something: a host asks the other for a connection
/// and both users are told, a packet is submitted, put out, comes and is taken (`opened`); so it is between two hosts that are
/// connected from the start (`joined`). The settings are in their ranges (`in_range`).
pub fn runs_happen()
    ensures in_range { IsInRange }
    ensures opened { CrossesOpened }
    ensures joined { CrossesJoined }
{}
