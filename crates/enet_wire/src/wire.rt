//! Datagrams in and out.
ghost use Rattle.std.specs.Prelude.{◌≡◌, ℕ, ◌<◌, ◌≤◌, List, Option, None, IfOk, IfSome, IfErr, Ok};
ghost use Rattle.enet_wire.specs.Wires.{also, came, went, waited, unless_spent, faults_after, last_fault};

use enet_codec::{Addr, Refusal};
use std::sync::Wait;
use std::time::Clock;

/// How many orders, datagrams in and datagrams out a turn of the service takes at most of each.
pub const MOST_PER_TURN: u32 = 256;

/// After so many lost sends a turn of the service sends no more. A send that loses its datagram costs as much as another one, so that
/// destinations that can't be reached take a sixteenth of a turn's sends from the others at most; and where the whole network is down,
/// a turn loses so many datagrams and not 256.
pub const MOST_LOST_PER_TURN: u32 = 16;

/// What became of a datagram that was handed to a wire.
#[derive(Clone, Copy, Debug, PartialEq, Eq)]
pub enum SendOutcome {
    /// It was sent.
    Sent,
    /// It is lost: its destination can't be reached, or it is too long. A datagram to another destination may go.
    Lost,
    /// It wasn't sent, since that would block, as the next one would now.
    Blocked,
}

/// Datagrams in and out, and the wait between two turns.
///
/// A call that fails answers E14 and tells nothing; `failures` rises by one, and the call can be repeated. Once `failures` is
/// 18,446,744,073,709,551,615 the wire is spent: its calls do nothing and answer None, `Blocked` and 0.
pub trait Wire {
    ghost use Rattle.enet_wire.specs.declared.told.Told.{Told as Call};

    /// What the calls did so far, in order, if the wire tells.
    ghost told: { Self → Option (List Call) };

    /// How often a call failed so far.
    ghost faults: { Self → ℕ };

    /// What no call changes, as the address of a socket.
    ghost Kept: { Type 0 } = { Unit {0} };

    ghost kept: { Self → Self.Kept };

    /// The next datagram: who sent it, and how many bytes of the buffer it is. Of a longer one these are the first 4,096. None
    /// where nothing is there. A datagram from port 0 is passed over, and not told: nothing can be sent to that port, so a host
    /// would keep a peer that it can't answer.
    fn recv(&mut self, buf: &mut [u8; 4096]) -> Result<Option<(Addr, usize)>, Refusal>
        ensures told { told self.new ≡ also (told self.old) (unless_spent (faults self.old) (came result buf.new)) }
        ensures len { IfOk result (λ given. IfSome given (λ d. d.1 ≤ 4096)) }
        ensures answerable { IfOk result (λ given. IfSome given (λ d. 0 < d.0.port)) }
        ensures fault { IfErr result (λ why. why ≡ Refusal.WireFault) }
        ensures faults { faults self.new ≡ faults_after (faults self.old) result }
        ensures spent { faults self.old ≡ last_fault → result ≡ Ok None }
        ensures kept { kept self.new ≡ kept self.old };

    /// Hands a datagram over for this address, and tells what became of it.
    fn send(&mut self, to: Addr, bytes: &[u8]) -> Result<SendOutcome, Refusal>
        ensures told { told self.new ≡ also (told self.old) (unless_spent (faults self.old) (went to bytes.now result)) }
        ensures fault { IfErr result (λ why. why ≡ Refusal.WireFault) }
        ensures faults { faults self.new ≡ faults_after (faults self.old) result }
        ensures spent { faults self.old ≡ last_fault → result ≡ Ok SendOutcome.Blocked }
        ensures kept { kept self.new ≡ kept self.old };

    /// Waits until there is work, or not at all, and tells the milliseconds for the next turn.
    fn wait<R: Wait + Clock>(&mut self, rt: &R) -> Result<u32, Refusal>
        ensures told { told self.new ≡ also (told self.old) (unless_spent (faults self.old) (waited result)) }
        ensures fault { IfErr result (λ why. why ≡ Refusal.WireFault) }
        ensures faults { faults self.new ≡ faults_after (faults self.old) result }
        ensures spent { faults self.old ≡ last_fault → result ≡ Ok 0 }
        ensures kept { kept self.new ≡ kept self.old };

    /// How many of its calls answered E14.
    fn failures(&self) -> u64
        ensures { result ≡ faults self.now };
}
