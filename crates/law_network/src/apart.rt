//! The law of isolation: the peers of one host share what is listed here (`Common`), and nothing else.
//!
//! It speaks of the definitions that the contracts of `enet_host::HostCore` and `enet_peer::Peer` name. The only code is that of the
//! calls that no crate above makes (`settings`), which ties them to these definitions.
//!
//! Proved over every list of calls, with no premise on other connections: the peer of each name is where one peer alone would be after
//! what fell to it, and answered what one peer alone answers (`isolation`), and so it is at any host that there is (`isolation_of`).

ghost use Rattle.law_network.specs.Ends.{Matches};
ghost use Rattle.law_network.specs.Alike.{OneAnswer, OneWay, Alike};
ghost use Rattle.law_network.specs.Own.{OfTheHost};
ghost use Rattle.law_network.specs.Beginnings.{Beginnings};
ghost use Rattle.law_network.specs.IsolationLaw.{OneCall, EachKeeps, Isolation, AreIsolated};

use enet_host::HostCore;

/// What calls of a host make of one of its connections.
///
/// `one_call`: each call does to each slot one of four things (`Fares`). Its peer, if it has one, stays as it was: what fell to it, if
/// anything, was refused or had no effect (an acknowledgement that matches nothing, a tick by which nothing was due, an emission of
/// nothing). Or its peer does alone what fell to it: commands that came, submissions, disconnects, emissions with the very datagram that
/// they gave, those that gave nothing too, takes, ticks, settings, throttle limits, each with what it answers, also where it refuses, stops
/// or wants memory (`Deed`); and where that leaves the peer free, so is the slot, with the next generation, the connection's sessions and
/// why it ended. Or a connection begins in it, for which the user asks or a CONNECT: the user's in the lowest slot that is free and has a
/// generation left, that of a CONNECT whose connection isn't there yet in the same one, if there is one and fewer peers of its address are
/// there than may be. Or such a CONNECT gets the slot of the peer which has waited longest for its client: of those of its address where as
/// many of them are there as may be, and else, where no slot is free and the host gives way, of all. That peer is let go, and the connection
/// begins in its slot. A refused `set_bandwidth` falls to no peer: the memory that was wanting may have been for another. Each time it is
/// said, too, how many bytes the slot counts for its next share of bandwidth. Of the host this sees what its connections share alone
/// (`Common`): settings and clock, the turn order of slots, when the bandwidth is shared out and among how many connected peers, whether the
/// address of a slot's peer sent too little for another answer, where connections begin, those of an address too, whether as many clients
/// are let in as may be, the test of a CONNECT's address and connect id, and the limit of what a peer may have queued or unacknowledged.
/// `of_the_host`: of these no connection changes the settings, the clock, the limit, and when the bandwidth is shared out: `set_bandwidth`,
/// `admit`, `set_send_limit` and `tick` do, by their arguments and by these alone.
///
/// `one_answer`: a peer alone answers in one way, and goes on in one way, want of memory apart. So whether a submission is refused, by E9
/// too, goes by that peer and the limit alone. `one_way`: so a slot fares in one way by a call with its answers, whatever else the host
/// holds. `alike`: so two hosts that hold the same in a slot leave it alike, where they agree on what the call looks at there (`Agree`). Of
/// a slot with a peer that is nothing where a peer is asked or told something by the user; the clock where a datagram comes, and, only if
/// the peer waits for its client to confirm, whether the host is full and which slot a CONNECT of that address gets; the clock and whose
/// turn is first where one is asked for; the turn where an event is; and of a tick the clock, whether its own peer's address sent too little
/// for another answer, whether the bandwidth is shared out, and then how much among how many. A free slot sees besides what decides whether
/// and how a connection begins there. So what other slots hold makes no other difference. What is answered of a datagram tells how many of
/// its commands reached the peer by a count, which stops at 4,294,967,295: for these two it has no more bytes than that.
///
/// `keeps`: from its opening on a host holds no peer that is free, whatever is called.
///
/// `calls`: so over every list of calls the peer of a connection is where one peer alone would be after the deeds that fell to its
/// slot, in order, with memory refused at the same places. Once the connection is over nobody has its name again.
///
/// `beginnings`: from a host's opening on each peer has lived so since it began by one of the calls, as `connecting` or `answering` of
/// `enet_peer` with the sessions of its slot and what the host's secret draws for it, or, in a host that is joined from the start, as
/// `joined`. A slot's sessions are those with which the peer before ended, 0xFF where there was none; and why a connection ended is told of
/// the peer before, or of none.
///
/// `events`: each deed that takes effect is the event of that name at one end of a connection, as the law of one connection has it,
/// where a command that comes is one of the other end's log and in time; the others leave the peer as it was. So a connection of two
/// hosts is two such lists of deeds.
pub fn isolation()
    ensures one_call { OneCall }
    ensures keeps { EachKeeps }
    ensures one_answer { OneAnswer }
    ensures one_way { OneWay }
    ensures alike { Alike }
    ensures of_the_host { OfTheHost }
    ensures calls { Isolation }
    ensures beginnings { Beginnings }
    ensures events { Matches }
{}

/// The law of a host that there is, with no premise: whatever is called on it, the peer of each of its names is where one peer
/// alone would be. It does nothing.
pub fn isolation_of(host: &HostCore)
    ensures { AreIsolated host.now }
{
    host.keeps();
}
