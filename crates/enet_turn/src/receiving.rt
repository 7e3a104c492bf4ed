//! Datagrams that come.
ghost use Rattle.std.specs.Prelude.{◌≡◌, ◌+◌, List};
ghost use Rattle.enet_wire.specs.declared.told.Told.{Told as Call};
ghost use Rattle.enet_wire.specs.Wires.{also, unless_spent};
ghost use Rattle.enet_turn.specs.Phases.{ReceivesAll};
ghost use Rattle.enet_turn.specs.Counts.{came_in, count_of};

use crate::host::Core;
use enet_wire::{MOST_PER_TURN, Wire};

/// How many datagrams came, and whether the wire failed then.
#[derive(Clone, Copy)]
pub(crate) struct Heard {
    pub received: u32,
    pub failed: bool,
}

/// Receives until the wire gives none or fails, at most 256 datagrams. They pass through the buffer.
pub(crate) fn receive_all<H: Core, W: Wire>(
    host: &mut H,
    wire: &mut W,
    buf: &mut [u8; 4096],
) -> Heard
    ensures { (told : List Call) × (W.told wire.new ≡ also (W.told wire.old) (unless_spent (W.faults wire.old) told))
        × ReceivesAll H.calls 256 host.old told (record { host = host.new; failed = result.failed }) × (result.received ≡ came_in told)
        × (W.faults wire.new ≡ W.faults wire.old + count_of result.failed) × (W.kept wire.new ≡ W.kept wire.old) }
{
    let mut received = 0u32;
    for _datagram in 0..MOST_PER_TURN {
        match wire.recv(buf) {
            Ok(Some((from, len))) => {
                host.receive(from, &buf[..len]);
                received += 1;
            }
            Ok(None) => {
                return Heard {
                    received,
                    failed: false,
                };
            }
            Err(_) => {
                return Heard {
                    received,
                    failed: true,
                };
            }
        }
    }
    Heard {
        received,
        failed: false,
    }
}
