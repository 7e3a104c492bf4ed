//! Datagrams that go.
ghost use Rattle.std.specs.Prelude.{◌≡◌, ◌+◌, List, false};
ghost use Rattle.enet_wire.specs.declared.told.Told.{Told as Call};
ghost use Rattle.enet_wire.specs.Wires.{also, unless_spent};
ghost use Rattle.enet_turn.specs.Phases.{EmitsAll};
ghost use Rattle.enet_turn.specs.Counts.{went_in, lost_in, count_of};
ghost use Rattle.enet_turn.specs.Private.Ending.{ends_sending, lost_by, sent_by};

use crate::host::Core;
use enet_wire::{MOST_LOST_PER_TURN, MOST_PER_TURN, SendOutcome, Wire};

/// How many datagrams were sent and lost, and whether the wire failed then.
#[derive(Clone, Copy)]
pub(crate) struct Sent {
    pub sent: u32,
    pub lost: u32,
    pub failed: bool,
}

/// Sends until the host has no datagram, a send would block or the wire fails, at most 256 datagrams. One that is lost doesn't end it, but
/// 16 do: so a peer that can't be reached doesn't keep the others from theirs. The datagrams pass through the buffer.
pub(crate) fn emit_all<H: Core, W: Wire>(host: &mut H, wire: &mut W, buf: &mut [u8; 4096]) -> Sent
    ensures { (told : List Call) × (W.told wire.new ≡ also (W.told wire.old) (unless_spent (W.faults wire.old) told))
        × EmitsAll H.calls 256 16 host.old told (record { host = host.new; failed = result.failed }) × (result.sent ≡ went_in told)
        × (result.lost ≡ lost_in told + count_of result.failed)
        × (W.faults wire.new ≡ W.faults wire.old + count_of result.failed) × (W.kept wire.new ≡ W.kept wire.old) }
{
    let mut sent = 0u32;
    let mut lost = 0u32;
    for _datagram in 0..MOST_PER_TURN {
        let Some((to, len)) = host.emit(buf) else {
            return ended(sent, lost);
        };
        match wire.send(to, &buf[..len]) {
            Ok(became) => {
                let (went, stayed) = counts(became);
                sent += went;
                lost += stayed;
                if ends_sending(became, lost) {
                    return ended(sent, lost);
                }
            }
            Err(_) => {
                return Sent {
                    sent,
                    lost: lost + 1,
                    failed: true,
                };
            }
        }
    }
    ended(sent, lost)
}

// How many datagrams were sent, and lost, by one of which this became.
fn counts(became: SendOutcome) -> (u32, u32)
    ensures sent { result.0 ≡ sent_by became }
    ensures lost { result.1 ≡ lost_by became }
    ensures one { result.0 + result.1 ≡ 1 }
{
    match became {
        SendOutcome::Sent => (1, 0),
        SendOutcome::Lost | SendOutcome::Blocked => (0, 1),
    }
}

// Whether a turn sends no more after a datagram of which this became, with so many lost in that turn.
fn ends_sending(became: SendOutcome, lost: u32) -> bool
    ensures { result ≡ ends_sending became lost }
{
    match became {
        SendOutcome::Sent => false,
        SendOutcome::Lost => lost >= MOST_LOST_PER_TURN,
        SendOutcome::Blocked => true,
    }
}

fn ended(sent: u32, lost: u32) -> Sent
    ensures { result ≡ record { sent = sent; lost = lost; failed = false } }
{
    Sent {
        sent,
        lost,
        failed: false,
    }
}
