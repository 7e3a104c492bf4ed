//! The headline on one page (specs/Page), of what users submitted and took and of nothing else; and what it rests on: what is kept of
//! an end of a connection (specs/Kept), and a server and its clients at any addresses, with strangers around them (specs/Nets), between
//! whom what was acknowledged was delivered, too (specs/Delivered). No code but the name of a host.
//!
//! Proved, of these definitions: what is kept of an end is what the calls of its host add up to, by the end's name
//! (`what_is_kept`); the headline holds of each connection of a server and its clients, wherever they are, and what an end has nothing
//! left to send of was dispatched at the other (`each_net`). The headline also holds of users that submitted more than was taken in yet,
//! or took less than was dispatched (`headline_of_less`).
#![tactic(auto)]

ghost use Rattle.law_headline.specs.Delivered.{HasDelivered};
ghost use Rattle.law_headline.specs.Kept.{StaysRecorded, StaysCovered};
ghost use Rattle.law_headline.specs.Law.{OfEachNet, HasHeadline};
ghost use Rattle.law_headline.specs.Page.{HoldsBehind};

mod node;

pub use node::Node;

/// Of each connection of a server and its clients, wherever they are, whatever happens there: the headline, and acknowledged means
/// delivered.
pub fn each_net()
    ensures headline { OfEachNet HasHeadline }
    ensures delivered { OfEachNet (λ at. HasDelivered) }
{}

/// What is kept of an end of a connection, of submissions and of events, is what the calls of its host add up to, by the end's
/// name (`recorded`). As long as no stranger's datagram is taken in, whoever was named is an end's peer (`covered`).
pub fn what_is_kept()
    ensures recorded { StaysRecorded }
    ensures covered { StaysCovered }
{}

/// The headline holds of users that submitted more than their host was given yet, and took less than it gave out.
pub fn headline_of_less()
    ensures { HoldsBehind }
{}
