//! What the definition of an emission promises. These functions have no body: their contracts are laws.

ghost use Rattle.std.specs.Prelude.{◌≡◌, ℕ, ◌+◌, ◌<◌, ◌≤◌, false, Option, Some, List, ◌∷◌, length, take};
ghost use Rattle.enet_codec.specs.Header.{masked};
ghost use Rattle.enet_codec.specs.Message.{Message};
ghost use Rattle.enet_codec.specs.Datagram.{SpellsDatagram};
ghost use Rattle.enet_outbox.specs.declared.parts.Acknowledgement.{Acknowledgement};
ghost use Rattle.enet_outbox.specs.declared.parts.Destination.{Destination};
ghost use Rattle.enet_outbox.specs.declared.parts.Pace.{Pace};
ghost use Rattle.enet_outbox.specs.declared.parts.SendLimit.{SendLimit};
ghost use Rattle.enet_outbox.specs.Outbox.{Outbox, after_acknowledgement, cleared, empty_outbox, marked, narrowed, submitted};
ghost use Rattle.enet_outbox.specs.Outstanding.{is_full, outstanding_of};
ghost use Rattle.enet_outbox.specs.Room.{RoomIsAwaited};
ghost use Rattle.enet_fragment.specs.Cutting.{piece_count};
ghost use Rattle.enet_rtt.specs.declared.transmission.Tick.{Tick};
ghost use Rattle.enet_sender.specs.CommandChoice.{Packet};
ghost use Rattle.enet_throttle.specs.Throttle.{Throttling};
ghost use Rattle.enet_outbox.specs.Emission.{HasDatagram, acknowledgement_of, filled, header_for};

/// What is put out spells its header and its commands, in their order, and nothing else. So a receiver reads just these.
pub fn what_goes_is_spelled()
    ensures { (now : ℕ) (to : Destination) (messages : List Message) (len : ℕ) (buf : List ℕ) → HasDatagram now to messages len buf
        → SpellsDatagram (take len buf) (masked (header_for now to messages)) messages }
{}

/// Where an acknowledgement waits and the mtu is at least 12 bytes, the next datagram begins with the one that waits longest.
pub fn oldest_goes_first()
    ensures { (pace : Pace) (o : Outbox) (a : Acknowledgement) (rest : List Acknowledgement) → 12 ≤ pace.mtu → o.acknowledgements ≡ a ∷ rest
        → (more : List Message) × ((filled pace o).messages ≡ acknowledgement_of a ∷ more) }
{}

/// Where the room in transit is kept for a channel, something of it may wait for room: something is due to go again, or nothing is sent and the
/// queue begins with a reliable command. And all that is sent is reliable. So it is of an empty outbox, and whatever is called leaves it so:
/// the room is never kept for nothing.
pub fn room_is_kept_for_something()
    ensures opened { (channels number : ℕ) (t : Throttling) → RoomIsAwaited (empty_outbox channels number t) }
    ensures submitted { (o : Outbox) (mtu channel : ℕ) (q : Packet) → RoomIsAwaited o → RoomIsAwaited (submitted o mtu channel q) }
    ensures acknowledged { (o : Outbox) (channel number : ℕ) → RoomIsAwaited o → RoomIsAwaited (after_acknowledgement o channel number) }
    ensures marked { (o : Outbox) (tick : Tick) → RoomIsAwaited o → RoomIsAwaited (marked o tick) }
    ensures filled { (pace : Pace) (o : Outbox) → RoomIsAwaited o → RoomIsAwaited (filled pace o).outbox }
    ensures cleared { (o : Outbox) → RoomIsAwaited (cleared o) }
    ensures narrowed { (o : Outbox) (channels : ℕ) → RoomIsAwaited o → RoomIsAwaited (narrowed o channels) }
{}

/// Where nothing is queued or unacknowledged, a packet goes whatever the limit is. Each packet adds its bytes to what is, and a command for
/// each of its pieces. So once a packet was submitted to a peer that wasn't full, what is queued or unacknowledged is within the limit and
/// that packet.
pub fn one_always_goes()
    ensures empty { (limit : Option SendLimit) (o : Outbox) → (outstanding_of o).commands ≡ 0 → is_full limit o ≡ false }
    ensures bytes { (o : Outbox) (mtu channel : ℕ) (q : Packet) → 28 < mtu → channel < length o.senders
        → (outstanding_of (submitted o mtu channel q)).bytes ≡ (outstanding_of o).bytes + length q.body }
    ensures commands { (o : Outbox) (mtu channel : ℕ) (q : Packet) → 28 < mtu → channel < length o.senders
        → (outstanding_of (submitted o mtu channel q)).commands ≡ (outstanding_of o).commands + piece_count (length q.body) mtu }
    ensures within { (limit : SendLimit) (o : Outbox) (mtu channel : ℕ) (q : Packet) → 28 < mtu → channel < length o.senders → is_full (Some limit) o ≡ false
        → ((outstanding_of (submitted o mtu channel q)).bytes ≤ limit.bytes + length q.body)
        × ((outstanding_of (submitted o mtu channel q)).commands ≤ limit.commands + piece_count (length q.body) mtu) }
{}
