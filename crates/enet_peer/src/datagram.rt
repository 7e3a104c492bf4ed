//! A datagram of ENet 1.3: its header, and its commands, as they come to a peer one after another.
//!
//! Proved: `receive` is exact by the relation `Hears`, and of a peer that wasn't refused by `Handles` over the bytes: command after
//! command as the bytes spell them, each as `heeded` says, until none is left, none stands at the front (S6) or one stops the
//! datagram; how many were handled, that of S12 among them. `read_heading` and `read_offer` read the header and a stranger's offer
//! exactly. Law `what_was_put_out_comes`: of bytes that spell a list of commands, just these come to the peer.
//! Only tested, by `check_peer`: that commands find memory, and worked datagrams.

ghost use Rattle.std.specs.Prelude.{◌≡◌, ℕ, ◌≤◌, true, List, Option, IfSome, IfNone, false, drop, length};
ghost use Rattle.enet_codec.specs.declared.event.Received.{Received};
ghost use Rattle.enet_codec.specs.Message.{Message, view};
ghost use Rattle.enet_codec.specs.Datagram.{SpellsAll};
ghost use Rattle.enet_peer.specs.Peering.{Peering};
ghost use Rattle.enet_peer.specs.Handling.{Arrival, SoFar, Handles, HandlesEach, Hears, IsHeardAlike, counted};
ghost use Rattle.enet_peer.specs.Refusing.{turned_away};
ghost use Rattle.enet_peer.specs.Private.Handling.{Advances, AdvancesPlainly, ConfirmsBy, GoesOnPlainly, NoneConfirms, is_passed};

use crate::Peer;
use enet_codec::{Command, Received, Stop, read_acknowledged, read_command, read_whole_packet};

/// The commands of a datagram come to a peer at the time `now`, in milliseconds, one after another, until none is left or
/// one stops the datagram. `sent` is the sent time that the datagram's header tells, and `commands` is all that stands behind
/// the header; `full` says that the host is full: then it refuses a client that confirms its answer.
/// A peer that was refused stops the datagram by S7, and is told again that the host is full if the datagram tells a sent time.
///
/// S6 where no command stands at the front of what is left, else the stop of the peer's call. The commands before a stop have
/// taken effect, and none after it is looked at. `handled` counts the commands that took effect or were passed over, and that
/// of S12, which took effect too; it stops at 4,294,967,295.
pub fn receive(
    peer: &mut Peer,
    now: u32,
    sent: Option<u16>,
    full: bool,
    commands: &[u8],
) -> Received
    ensures { Hears (record { now = now; sent = sent; full = full }) commands.now peer.old.peer result peer.new.peer }
{
    if peer.is_refused() {
        peer.remind(sent);
        return Received {
            handled: 0,
            stop: Some(Stop::NotConnected),
        };
    }
    handle(peer, now, sent, full, commands)
}

/// Whether the client of a peer could confirm its answer by these commands. Where it answers false they come alike to the peer, whether or
/// not the host is full: so who asks first needn't find out. It looks no further than the peer would.
pub fn may_confirm(peer: &Peer, commands: &[u8]) -> bool
    ensures { result ≡ false → IsHeardAlike commands.now peer.now.peer }
{
    if !peer.is_answering() {
        return false;
    }
    if peer.is_refused() {
        return false;
    }
    let mut rest = commands;
    while let Some((command, len)) = read_command(rest) {
        if peer.matches_control(&command) {
            return true;
        }
        if !is_passed(&command) {
            return false;
        }
        rest = bytes_after(rest, len);
    }
    false
}

/// Whether a peer that waits for its client may still wait for it behind a command.
fn is_passed(command: &Command<'_>) -> bool
    ensures { result ≡ is_passed (view command.now).body }
{
    matches!(
        command,
        Command::Acknowledge { .. } | Command::VerifyConnect { .. }
    )
}

/// The same of a peer that wasn't refused before.
fn handle(peer: &mut Peer, now: u32, sent: Option<u16>, full: bool, commands: &[u8]) -> Received
    ensures { Handles (record { now = now; sent = sent; full = full }) (record { handled = 0; peer = peer.old.peer }) commands.now result peer.new.peer }
{
    let mut handled: u32 = 0;
    let mut rest = commands;
    while !rest.is_empty() {
        match next(peer, now, sent, full, rest) {
            Ok(len) => {
                rest = bytes_after(rest, len);
                handled = handled.saturating_add(1);
            }
            Err(stop) => {
                return Received {
                    handled: counted(handled, stop),
                    stop: Some(stop),
                };
            }
        }
    }
    Received {
        handled,
        stop: None,
    }
}

/// The command at the front of bytes comes to the peer: how many bytes it has, or why it stops the datagram.
#[inline(always)]
fn next(
    peer: &mut Peer,
    now: u32,
    sent: Option<u16>,
    full: bool,
    bytes: &[u8],
) -> Result<usize, Stop>
    requires some { 1 ≤ length bytes.now }
    ensures { Advances (record { now = now; sent = sent; full = full }) bytes.now peer.old.peer peer.new.peer result }
{
    if full {
        if let Some(len) = refuse(peer, bytes) {
            return Ok(len);
        }
    }
    next_plainly(peer, now, sent, bytes)
}

/// At a host that is full, a client that confirms its answer by the command at the front is refused: how many bytes that has. None, with
/// nothing changed, if it doesn't confirm by it.
#[inline(never)]
fn refuse(peer: &mut Peer, bytes: &[u8]) -> Option<usize>
    ensures confirmed { IfSome result (ConfirmsBy bytes.now peer.old.peer) }
    ensures refused { IfSome result (λ len. peer.new.peer ≡ turned_away peer.old.peer) }
    ensures none { IfNone result (NoneConfirms bytes.now peer.old.peer) }
    ensures same { IfNone result (peer.new.peer ≡ peer.old.peer) }
{
    let len = confirmation(peer, bytes)?;
    peer.turn_away();
    Some(len)
}

/// How many bytes the command at the front has, if the peer's client confirms its answer by it.
fn confirmation(peer: &Peer, bytes: &[u8]) -> Option<usize>
    ensures found { IfSome result (λ len. ConfirmsBy bytes.now peer.now.peer len) }
    ensures none { IfNone result (NoneConfirms bytes.now peer.now.peer) }
{
    let Some((command, len)) = read_command(bytes) else {
        return None;
    };
    if peer.confirms(&command) {
        Some(len)
    } else {
        None
    }
}

/// The same of a command by which no client confirms, or which comes to a host that isn't full.
#[inline(always)]
fn next_plainly(peer: &mut Peer, now: u32, sent: Option<u16>, bytes: &[u8]) -> Result<usize, Stop>
    requires some { 1 ≤ length bytes.now }
    ensures { AdvancesPlainly now sent bytes.now peer.old.peer peer.new.peer result }
{
    if let Some(len) = next_frequent(peer, now, sent, bytes) {
        return Ok(len);
    }
    next_of_any(peer, now, sent, bytes)
}

/// The same where the command is of those that come most often, which are read without the enum of all. None, with nothing changed, where
/// it is to be read as any other.
#[inline(always)]
fn next_frequent(peer: &mut Peer, now: u32, sent: Option<u16>, bytes: &[u8]) -> Option<usize>
    ensures taken { IfSome result (GoesOnPlainly now sent bytes.now peer.old.peer peer.new.peer) }
    ensures same { IfNone result (peer.new.peer ≡ peer.old.peer) }
{
    if let Some(found) = read_acknowledged(bytes) {
        return peer.takes_acknowledged(now, found).then_some(8);
    }
    if let Some((packet, len)) = read_whole_packet(bytes) {
        return peer.takes_packet(sent, packet).then_some(len);
    }
    None
}

/// The same of any command.
#[inline(always)]
fn next_of_any(peer: &mut Peer, now: u32, sent: Option<u16>, bytes: &[u8]) -> Result<usize, Stop>
    requires some { 1 ≤ length bytes.now }
    ensures { AdvancesPlainly now sent bytes.now peer.old.peer peer.new.peer result }
{
    let Some((command, len)) = read_command(bytes) else {
        return Err(Stop::BadCommand);
    };
    if let Err(stop) = peer.command(now, sent, &command) {
        return Err(stop);
    }
    Ok(len)
}

/// A law, with no code: where bytes spell a list of commands, just these come to the peer, in their order.
pub fn what_was_put_out_comes()
    ensures { (arrival : Arrival) (old : SoFar) (bytes : List ℕ) (ms : List Message) (answer : Received) (q : Peering)
        → SpellsAll bytes ms → Handles arrival old bytes answer q → HandlesEach arrival old ms answer q }
{}

/// How many commands count once one has stopped the datagram: that of S12 took effect.
fn counted(handled: u32, stop: Stop) -> u32
    ensures { result ≡ counted handled stop }
{
    match stop {
        Stop::NoSentTime => handled.saturating_add(1),
        _ => handled,
    }
}

/// The bytes from a place on.
pub(crate) fn bytes_after(bytes: &[u8], place: usize) -> &[u8]
    requires { place ≤ length bytes.now }
    ensures { result.now ≡ drop place bytes.now }
{
    &bytes[place..]
}
