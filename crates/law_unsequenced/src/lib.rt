//! The law of the unsequenced packets of one connection between two peers, whatever the network loses, repeats or reorders. No code but
//! the law.
//!
//! It speaks of the runs of `law_connection`, whose laws leave unsequenced packets out: of two peers and any list of events at either.
//! Proved: each unsequenced packet that is taken was submitted, and is taken at most once where none comes over 32,768 late
//! (`each_was_submitted`); a run in which one is taken does happen (`runs_happen`). Of hosts `law_network` says the former, and of a
//! fleet's `Fleet::play` of `enet_fleet` the latter. Not promised: any order of these packets, or that one comes.
#![tactic(auto)]

ghost use Rattle.law_connection.specs.Examples.{OfSomeJoined};
ghost use Rattle.law_unsequenced.specs.Law.{JoinedLaw, AskingLaw};
ghost use Rattle.law_unsequenced.specs.Examples.{HasTaken};

/// One connection, over every list of events at either end, as in `law_connection::one_connection`.
///
/// Each packet of flags 2 that the user of one end took was submitted by the user of the other, on that channel, to go unsequenced, with
/// just these bytes. Count the packets that were submitted so, on all channels, from 1 on: where none comes whose number is more than
/// 32,768 below that of one which came before it, no packet is taken twice.
///
/// `joined`: so it is of two peers that are connected from the start, with mtus from 576 bytes on and at most 255 channels each.
/// `asking`: so it is of a client that asks and a host that answers a CONNECT of its log.
pub fn each_was_submitted()
    ensures joined { JoinedLaw }
    ensures asking { AskingLaw }
{}

/// A run that does happen, so that the law above speaks of something: an unsequenced packet is submitted, put out, comes and is taken.
pub fn runs_happen()
    ensures { OfSomeJoined HasTaken }
{}
