//! A slot puts out a datagram.

ghost use Rattle.std.specs.Prelude.{◌≤◌, IfSome, IfNone, IsTrue};
ghost use Rattle.enet_slot.specs.Emitting.{PeerEmits, Passes};
ghost use Rattle.enet_slot.specs.Waiting.{Waits};

use crate::Slot;

impl Slot {
    /// Asks its peer, if there is one, for a datagram at the time `now`, in milliseconds: how many bytes of the buffer it has.
    /// None where there is nothing to send. It takes no memory.
    pub fn emit(&mut self, now: u32, buf: &mut [u8; 4096]) -> Option<usize>
        ensures gives { IfSome result (λ len. PeerEmits now len buf.new self.old.slot self.new.slot) }
        ensures passes { IfNone result (Passes now self.old.slot self.new.slot) }
        ensures fits { IfSome result (λ len. len ≤ 4096) }
    {
        let Some(peer) = &mut self.peer else {
            return None;
        };
        let Some(len) = peer.emit(now, buf) else {
            self.let_go();
            return None;
        };
        self.emitted = self.emitted.saturating_add(len as u32);
        self.let_go();
        Some(len)
    }

    /// Whether it is free, or its peer is connected, asks for a connection or for its end, or has answered, and has surely nothing to
    /// tell and nothing that goes, though what was sent may be unacknowledged. Until a call, a datagram or a moment brings it
    /// something, `emit` and `take` then give nothing and change nothing.
    pub fn only_waits(&self) -> bool
        ensures { IsTrue result → Waits self.now.slot }
    {
        match &self.peer {
            Some(peer) => peer.only_waits(),
            None => true,
        }
    }
}
