//! Laws of one channel from a sender to a receiver (`link`), and of one connection between two peers, whatever the network loses, repeats or
//! reorders. No code but the laws.
//!
//! They speak of the definitions that the contracts of `enet_peer::Peer` name. A connection is two ends, each with its peer,
//! all that it put out, what its user submitted and what its user took; specs/Steps has its events, specs/Law what holds.
//!
//! Proved over every list of events in which nothing on a channel below 255 comes more than 32,768 late: each channel's order both
//! ways, and one life of events at each end (`one_connection`); what the two ends know of each other's numbers
//! (`ends_agree_on_numbers`); the invariant behind both, one event at a time (`each_event_keeps`). Such runs do happen (`runs_happen`).
#![tactic(auto)]

ghost use Rattle.std.specs.Prelude.{ℕ, ◌≤◌, Bool, true, false};
ghost use Rattle.enet_codec.specs.declared.command.Offer.{Offer};
ghost use Rattle.enet_peer.specs.declared.parts.Limits.{Limits};
ghost use Rattle.law_connection.specs.Connection.{Connection};
ghost use Rattle.law_connection.specs.Steps.{Side, Event, HappensAt, JoinedEnd, joined_pair, asking_pair};
ghost use Rattle.law_connection.specs.Law.{IsLawful, OfEachJoined, OfEachAsking, JoinedLaw, AskingLaw};
ghost use Rattle.law_connection.specs.Invariant.{Invariant};
ghost use Rattle.law_connection.specs.Numbers.{Agree};
ghost use Rattle.law_connection.specs.Examples.{OfSomeJoined, OfSomeAsking, HasTaken, HasOneMark, HasConnected};

mod link;

pub use link::{greatest_sent, one_link, wire_receiver, wire_sender};

/// One connection, over every list of events at either end: submissions, datagrams put out, commands of the other end's log
/// that come at any later time, any number of times and in any order, or never, moments that pass, events that the user takes,
/// disconnects of each kind, settings. On the channels below 255, which have the packets, no command and no acknowledgement
/// comes more than 32,768 numbers late.
///
/// `joined`: of two peers that are connected from the start, with mtus from 576 bytes on and at most 255 channels each, what
/// the user of one took of a channel follows what the user of the other submitted on it, each packet whole, and no reliable
/// packet before the last is left out. Each user takes packets and then at most one Disconnect.
///
/// `asking`: of a client that asks and a host that answers a CONNECT of its log, this holds too, and each user takes at most
/// one Connect, before all packets.
pub fn one_connection()
    ensures joined { JoinedLaw }
    ensures asking { AskingLaw }
{}

/// What the law rests on, over the same lists of events, on each channel below 255 and both ways: an acknowledgement removes a
/// command at its sender only if the receiver has dispatched or holds it, or no longer dispatches; the receiver's front is
/// at most 16,384 numbers behind the oldest that was not acknowledged; what comes in time lies at most 24,575 numbers ahead
/// of the front or 32,768 behind it, and its wire number is read as the number that was meant, or as nothing.
pub fn ends_agree_on_numbers()
    ensures joined { OfEachJoined Agree }
    ensures asking { OfEachAsking Agree }
{}

/// The law one event at a time, for those who show that their steps are a connection's events: `Invariant` holds of both pairs at
/// first (`joined`, `asking`), one event at either side keeps it (`event`), and from it the law comes (`lawful`, `agree`).
pub fn each_event_keeps()
    ensures joined { (one two : JoinedEnd) → 576 ≤ one.terms.mtu → 576 ≤ two.terms.mtu → one.terms.channels ≤ 255 → two.terms.channels ≤ 255
        → Invariant true (joined_pair one two) }
    ensures asking { (now offset : ℕ) (offer : Offer) (limits : Limits) → Invariant false (asking_pair now offset offer limits) }
    ensures event { (joined : Bool) (side : Side) (event : Event) (c d : Connection) → HappensAt side event c d → Invariant joined c → Invariant joined d }
    ensures lawful { (joined : Bool) (c : Connection) → Invariant joined c → IsLawful joined c }
    ensures agree { (joined : Bool) (c : Connection) → Invariant joined c → Agree c }
{}

/// Runs that do happen, so that the laws above speak of something: a packet is submitted, put out, comes and is taken
/// (`taken`); two commands go in one datagram and have one mark (`one_mark`); a client asks, a host answers, and both stand
/// connected (`connected`).
pub fn runs_happen()
    ensures taken { OfSomeJoined HasTaken }
    ensures one_mark { OfSomeJoined HasOneMark }
    ensures connected { OfSomeAsking HasConnected }
{}
