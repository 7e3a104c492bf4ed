//! One event of a network, or rounds without losses, and the text of the answer.

ghost use Rattle.std.specs.Prelude.{◌≡◌, IfOk, IfSome};
ghost use Rattle.std.specs.Option.{option_map};
ghost use Rattle.law_network.specs.World.{other};
ghost use Rattle.std.specs.String.{string_bytes};
ghost use Rattle.enet_lab.specs.Lines.{FleetSteps, IsNewest, StaysCalm, StepsTo, TellsRounds, WorldSteps, bytes_shown, fleet_text, has_sent, has_sent_from, is_in_fleet, is_in_world, may_be, sent_shown, world_text};

use crate::answer::outcome_shown;
use crate::{Host, Recipient, calm_text, outcome_text, rounds_text};
use enet_codec::{Addr, Admission, Refusal};
use enet_fleet::{Fleet, FleetEvent, Node, node_of};
use enet_world::{World, side_of};
use law_network::{Answer, Side, WorldEvent};
use std::alloc::{AllocError, Global};

/// Whether so many peers may be connected or leaving, or be of one address, at a host of so many slots.
fn may_be(what: Admission, slots: u16) -> bool
    ensures { result ≡ may_be what slots }
{
    match what {
        Admission::GiveWay => true,
        Admission::Most { peers } => (1..=slots).contains(&peers),
        Admission::OfAddress { peers } => (1..=slots).contains(&peers),
    }
}

/// Whether what an event sets is in the range of the world's host.
pub(crate) fn is_in_world(world: &World, event: &WorldEvent) -> bool
    ensures { result ≡ is_in_world world.now event.now }
{
    match *event {
        WorldEvent::Admit { side, what } => may_be(what, world.slots(side)),
        _ => true,
    }
}

/// Whether what an event sets is in the range of the fleet's host; one that isn't there is refused by the fleet.
pub(crate) fn is_in_fleet(fleet: &Fleet, event: &FleetEvent) -> bool
    ensures { result ≡ is_in_fleet fleet.now event.now }
{
    match *event {
        FleetEvent::Admit { node, what } => match fleet.slots(node) {
            Some(slots) => may_be(what, slots),
            None => true,
        },
        _ => true,
    }
}

/// Makes one event happen in a world, and gives the text of its answer.
pub(crate) fn world_step(
    alloc: Global,
    world: &mut World,
    event: WorldEvent,
) -> Result<String, AllocError>
    ensures { IfOk result (λ text. StepsTo (WorldSteps world.old event) (world_text event) (string_bytes text) world.new) }
{
    let side = side_of(&event);
    let outcome = world.step(event);
    let bytes = bytes_shown(world, side, &outcome);
    outcome_text(alloc, Host::OfWorld(side), None, bytes, &outcome)
}

/// The bytes of the datagram that an answer shows; none where it shows none.
fn bytes_shown<'a>(world: &'a World, side: Side, outcome: &Result<Answer, Refusal>) -> &'a [u8]
    ensures { result.now ≡ bytes_shown world.now.world side outcome.now }
{
    match outcome {
        Ok(Answer::Sent(Some(k))) => world.datagram(side, *k).unwrap_or(&[]),
        _ => &[],
    }
}

/// Whether a side has put out a datagram of this number.
fn has_sent(world: &World, side: Side, k: u64) -> bool
    ensures { result ≡ has_sent world.now.world side k }
{
    match world.datagram(side, k) {
        Some(_) => true,
        None => false,
    }
}

/// Whether a host of a fleet has.
fn has_sent_from(fleet: &Fleet, from: Node, k: u64) -> bool
    ensures { result ≡ has_sent_from fleet.now from k }
{
    match fleet.datagram(from, k) {
        Some(_) => true,
        None => false,
    }
}

/// The number of the newest datagram of a side; None where it has put out 2^64 - 1.
pub(crate) fn newest(world: &World, side: Side) -> Option<u64>
    ensures { IfSome result (IsNewest (has_sent world.now.world side)) }
{
    for k in 0..u64::MAX {
        if !has_sent(world, side, k + 1) {
            return Some(k);
        }
    }
    None
}

/// The same of a host of a fleet.
pub(crate) fn newest_from(fleet: &Fleet, from: Node) -> Option<u64>
    ensures { IfSome result (IsNewest (has_sent_from fleet.now from)) }
{
    for k in 0..u64::MAX {
        if !has_sent_from(fleet, from, k + 1) {
            return Some(k);
        }
    }
    None
}

/// The other side.
pub(crate) fn other(side: Side) -> Side
    ensures { result ≡ other side }
{
    match side {
        Side::A => Side::B,
        Side::B => Side::A,
    }
}

/// Makes rounds without losses happen in a world, and gives the text of what came of them.
pub(crate) fn world_calm(
    alloc: Global,
    world: &mut World,
    rounds: u64,
    ms: u32,
) -> Result<String, AllocError>
    ensures { IfOk result (λ text. StaysCalm world.old rounds ms (string_bytes text) world.new) }
{
    let told = world.calm(rounds, ms);
    calm_text(alloc, told)
}

/// Tells how many rounds are enough for a connection of a world.
pub(crate) fn world_rounds(
    alloc: Global,
    world: &World,
    connection: u64,
    ms: u32,
) -> Result<String, AllocError>
    ensures { IfOk result (λ text. TellsRounds world.now connection ms (string_bytes text)) }
{
    let needed = world.rounds_needed(connection, ms);
    rounds_text(alloc, needed)
}

/// Makes one event happen in a fleet, and gives the text of its answer.
pub(crate) fn fleet_step(
    alloc: Global,
    fleet: &mut Fleet,
    event: FleetEvent,
) -> Result<String, AllocError>
    ensures { IfOk result (λ text. StepsTo (FleetSteps fleet.old event) (fleet_text event) (string_bytes text) fleet.new) }
{
    let node = node_of(&event);
    let outcome = outcome_shown(fleet.step(event));
    let host = Host::OfFleet(node);
    match sent_shown(fleet, node, &outcome) {
        Some((addr, bytes)) => {
            let to = Recipient::at(fleet.clients(), addr);
            outcome_text(alloc, host, Some(to), bytes, &outcome)
        }
        None => outcome_text(alloc, host, None, &[], &outcome),
    }
}

/// Where the datagram went that an answer shows, and its bytes.
fn sent_shown<'a>(
    fleet: &'a Fleet,
    node: Node,
    outcome: &Result<Answer, Refusal>,
) -> Option<(Addr, &'a [u8])>
    ensures { option_map (λ sent. (sent.0, sent.1.now)) result ≡ sent_shown fleet.now node outcome.now }
{
    match outcome {
        Ok(Answer::Sent(Some(k))) => fleet.datagram(node, *k),
        _ => None,
    }
}
