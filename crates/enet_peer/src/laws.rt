//! What the definitions of a peer promise. These functions have no body: their contracts are laws.

ghost use Rattle.std.specs.Prelude.{◌≡◌, ℕ, ◌<◌, ◌^◌, ◌⊎◌, Bool, List, Option, Some, Result, true};
ghost use Rattle.enet_codec.specs.Message.{Message, disconnect};
ghost use Rattle.enet_codec.specs.declared.command.Head.{Head};
ghost use Rattle.enet_codec.specs.declared.command.Offer.{Offer};
ghost use Rattle.enet_codec.specs.declared.refusal.Refusal.{Refusal};
ghost use Rattle.enet_codec.specs.declared.stop.Stop.{Stop};
ghost use Rattle.enet_rtt.specs.declared.transmission.Tick.{Tick};
ghost use Rattle.enet_connect.specs.declared.server.Server.{Server};
ghost use Rattle.enet_connect.specs.declared.terms.Terms.{Terms};
ghost use Rattle.enet_senders.specs.declared.control.Control.{Control};
ghost use Rattle.enet_senders.specs.declared.control.Numbered.{Numbered};
ghost use Rattle.enet_senders.specs.declared.control.SentControl.{SentControl};
ghost use Rattle.enet_senders.specs.Controlling as controlling;
ghost use Rattle.enet_sender.specs.CommandChoice.{Packet};
ghost use Rattle.enet_sender.specs.declared.sent.Sent.{Sent};
ghost use Rattle.enet_outbox.specs.declared.parts.Acknowledgement.{Acknowledgement};
ghost use Rattle.enet_outbox.specs.declared.parts.Matched.TheVariants as matched;
ghost use Rattle.enet_outbox.specs.Outbox.{Outbox, matched_by};
ghost use Rattle.enet_peer.specs.declared.parts.Limits.{Limits};
ghost use Rattle.enet_peer.specs.declared.parts.Offsets.{Offsets};
ghost use Rattle.enet_peer.specs.declared.parts.PeerEvent.{PeerEvent};
ghost use Rattle.enet_peer.specs.declared.parts.PeerState.TheVariants.{Connected, DisconnectLater};
ghost use Rattle.enet_peer.specs.Peering.{Peering, answering, connecting, joined};
ghost use Rattle.enet_peer.specs.CommandEffect.{Obeys, obeyed, wants_memory};
ghost use Rattle.enet_peer.specs.Calls.{Leave, Leaves, PutsOut, Submits, Takes, is_connected, left, moved, next_event, with_bandwidth, with_ping_interval, with_throttle, with_throttle_limit, with_timeout};
ghost use Rattle.enet_peer.specs.Refusing.{heeded, is_turned_away, told_again};
ghost use Rattle.enet_peer.specs.Reachable.{Answers, IsAnswering, IsReachable, answer_to};
ghost use Rattle.enet_peer.specs.Sampling.{HasTimes, IsPast, ShowsNoMore, control_on, data_on};

/// What every peer keeps: each that a call makes has it, and each call that changes a peer leaves it so. In Free, Ended and
/// Parting, and in AckDisconnect too, no packet is queued and nothing is sent and unacknowledged. In AckDisconnect at least the
/// acknowledgement of the DISCONNECT waits to be put out, in Parting one unsequenced DISCONNECT, in Free and Ended nothing. The
/// sender at a place is that of the channel of this number. No receiver keeps what it has dispatched.
pub fn reachable_stays()
    ensures joined { (now : ℕ) (terms : Terms) (limits : Limits) → IsReachable (joined now terms limits) }
    ensures connecting { (now offset : ℕ) (offer : Offer) (limits : Limits) → IsReachable (connecting now offset offer limits) }
    ensures answering { (now : ℕ) (offsets : Offsets) (offer : Offer) (server : Server) (limits : Limits) → IsReachable (answering now offsets offer server limits) }
    ensures submitted { (r : Result (Unit {0}) (Refusal × List ℕ)) (p q : Peering) (channel : ℕ) (packet : Packet) → IsReachable p → Submits r p q channel packet → IsReachable q }
    ensures put_out { (now : ℕ) (len : Option ℕ) (p q : Peering) (buf : List ℕ) → IsReachable p → PutsOut now len p q buf → IsReachable q }
    ensures heeded { (r : Result (Unit {0}) Stop) (full : Bool) (p q : Peering) (now : ℕ) (sent : Option ℕ) (m : Message) → IsReachable p → Obeys r (wants_memory p now sent m) (heeded full p now sent m) p q → IsReachable q }
    ensures told_again { (p : Peering) → IsReachable p → is_turned_away p ≡ true → IsReachable (told_again p) }
    ensures moved { (short : Bool) (p : Peering) (now : ℕ) → IsReachable p → IsReachable (moved short p now) }
    ensures left { (r : Result (Unit {0}) Refusal) (how : Leave) (p q : Peering) (info : ℕ) → IsReachable p → Leaves r (left how p info) p q → IsReachable q }
    ensures taken { (e : Option PeerEvent) (p q : Peering) → IsReachable p → Takes e (next_event p) p q → IsReachable q }
    ensures bandwidth { (p : Peering) (incoming outgoing : ℕ) → IsReachable p → IsReachable (with_bandwidth p incoming outgoing) }
    ensures throttle { (p : Peering) (interval acceleration deceleration : ℕ) → IsReachable p → is_connected p.state ≡ true → IsReachable (with_throttle p interval acceleration deceleration) }
    ensures throttle_limit { (p : Peering) (limit : ℕ) → IsReachable p → IsReachable (with_throttle_limit p limit) }
    ensures ping_interval { (p : Peering) (ms : ℕ) → IsReachable p → IsReachable (with_ping_interval p ms) }
    ensures timeout { (p : Peering) (limit minimum maximum : ℕ) → IsReachable p → IsReachable (with_timeout p limit minimum maximum) }
{}

/// A DISCONNECT that asks for an acknowledgement, and comes in a datagram that tells its sent time where the connection stands,
/// is answered: its acknowledgement waits before all others, whatever command comes and however long that takes, and the next
/// datagram begins with it and ends the connection.
pub fn disconnect_is_answered()
    ensures waits { (p : Peering) (now time info : ℕ) (h : Head) → h.acknowledge ≡ true → (p.state ≡ Connected) ⊎ (p.state ≡ DisconnectLater)
        → IsAnswering (answer_to h time) (obeyed p now (Some time) (record { head = h; body = disconnect info })).after }
    ensures heeded { (r : Result (Unit {0}) Stop) (full : Bool) (a : Acknowledgement) (p q : Peering) (now : ℕ) (sent : Option ℕ) (m : Message) → IsAnswering a p → Obeys r (wants_memory p now sent m) (heeded full p now sent m) p q → IsAnswering a q }
    ensures moved { (a : Acknowledgement) (short : Bool) (p : Peering) (now : ℕ) → IsReachable p → IsAnswering a p → IsAnswering a (moved short p now) }
    ensures goes { (a : Acknowledgement) (now : ℕ) (len : Option ℕ) (p q : Peering) (buf : List ℕ) → IsAnswering a p → PutsOut now len p q buf → Answers a now len p q }
{}

/// The sample that is taken of an acknowledgement is no longer than the command that it matches has been under way: at most the time from
/// that command's first send until `now`, or 1 ms where that is 0, if its last send isn't after `now`. A forged acknowledgement can show a
/// shorter round trip, and never a longer one. Of a server's answer that holds where each time that is kept of it is one from its first
/// send to its last: that is so after its first send, and stays so when it goes again, is due to go again or is held back.
pub fn sample_is_no_longer()
    ensures data { (o : Outbox) (now channel number time : ℕ) → matched_by o channel number time ≡ matched.Data
        → (p : Sent) × (data_on o channel number ≡ Some p) × (IsPast now p.transmission → ShowsNoMore now time p.transmission) }
    ensures control { (o : Outbox) (now channel number time : ℕ) (what : Control) → matched_by o channel number time ≡ matched.Control what
        → (p : SentControl) × (control_on o number ≡ Some p) × (p.command.control ≡ what) × (HasTimes p → IsPast now p.transmission → ShowsNoMore now time p.transmission) }
    ensures begun { (now timeout : ℕ) (n : Numbered) → now < 2 ^ 32 → HasTimes (controlling.begun now timeout n) }
    ensures again { (now : ℕ) (p : SentControl) → now < 2 ^ 32 → IsPast now p.transmission → HasTimes p → HasTimes (controlling.again now p) }
    ensures marked { (tick : Tick) (p : SentControl) → HasTimes p → HasTimes (controlling.marked tick p) }
    ensures held_back { (tick : Tick) (p : SentControl) → IsPast tick.now p.transmission → HasTimes p → HasTimes (controlling.held_back tick p) }
{}
