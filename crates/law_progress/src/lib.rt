//! Laws of progress: where the network stops losing, what is reliable arrives; and no attempt to connect or to disconnect lasts for ever,
//! whatever the network does. No code but the laws.
//!
//! They speak of the links of `law_connection`, which are one channel from a sender to a receiver and the acknowledgements back, of its
//! connections, and of the definitions that the contracts of `enet_outbox::Outbox` and `enet_peer::Peer` name. Proved: a command that waits
//! for its acknowledgement is acknowledged wherever it comes while there is room, and from each reached link an exchange without losses
//! leads to where all reliable packets were dispatched (`everything_can_arrive`), as do any rounds without losses, by so many as commands
//! were queued or waited, once the timeouts of what waited are over (`rounds_get_through`); rounds of two connected peers make fewer the commands
//! that are outstanding on all channels of both, or time alone passes, and so come to where nothing is (`both_get_through`), also where
//! neither has a second turn in a round (`rounds_in_turn_get_through`); nothing holds back for good what an outbox has to send, and once
//! nothing goes any more, all has gone, or something waits for its acknowledgement (`nothing_is_held_back`); a peer answers what its sender
//! waits for, the answer takes it away, and no command of another kind is stopped where there is room, for it and for the acknowledgement
//! that it asks for (`what_waits_is_answered`, `the_last_send_counts`, `each_trip_takes_one_away`); what was acknowledged was delivered
//! (`acknowledged_was_delivered`); an attempt ends within a stated time (`every_attempt_ends`), and so does each wait for an
//! acknowledgement (`no_wait_is_endless`); all that a peer has to send fits its datagrams (`all_that_waits_fits`); a peer that is to
//! disconnect later comes to do so (`no_leave_is_put_off`). That two hosts make such rounds `enet_world` says (`World::calm`). Not proved:
//! that no datagram is stopped at one command, which brings none of those behind it, nor that the patience of both outlasts the rounds.
#![tactic(auto)]

ghost use Rattle.std.specs.Prelude.{◌≡◌, ℕ, ◌+◌, ◌*◌, ◌%◌, ◌^◌, ◌<◌, ◌≤◌, Bool, Option, Some, None, map, slice_get, true, false, List, [], ◌∷◌, ◌++◌, length, ◌⊎◌};
ghost use Rattle.enet_codec.specs.declared.command.Offer.{Offer};
ghost use Rattle.enet_codec.specs.Message.{Message, acknowledge};
ghost use Rattle.enet_seq.specs.Numbering.{wire};
ghost use Rattle.enet_rtt.specs.Clock.{meant_time};
ghost use Rattle.enet_rtt.specs.Timing.{timeout};
ghost use Rattle.enet_rtt.specs.declared.transmission.Tick.{Tick};
ghost use Rattle.enet_fragment.specs.declared.data.DataCommand.{DataCommand};
ghost use Rattle.enet_connect.specs.declared.server.Server.{Server};
ghost use Rattle.enet_receiver.specs.DataOutcome.{outcome, is_handled, acknowledged};
ghost use Rattle.enet_receiver.specs.Members.{Has};
ghost use Rattle.enet_sender.specs.CommandChoice.{carried};
ghost use Rattle.enet_sender.specs.Sender.{left};
ghost use Rattle.enet_sender.specs.Due.{SendingEnd};
ghost use Rattle.enet_sender.specs.declared.sent.Sent.{Sent};
ghost use Rattle.enet_senders.specs.Controlling.{again, begun, held_back, message_of as control_message};
ghost use Rattle.enet_senders.specs.declared.control.Numbered.{Numbered};
ghost use Rattle.enet_senders.specs.declared.control.SentControl.{SentControl};
ghost use Rattle.enet_outbox.specs.declared.parts.Pace.{Pace};
ghost use Rattle.enet_outbox.specs.declared.parts.Acknowledgement.{Acknowledgement};
ghost use Rattle.enet_outbox.specs.Outbox.{Outbox, is_done};
ghost use Rattle.enet_outbox.specs.Emission.{filled, acknowledgement_of, unsequenced_of};
ghost use Rattle.enet_outbox.specs.declared.parts.Unsequenced.{Unsequenced};
ghost use Rattle.enet_peer.specs.declared.parts.Limits.{Limits};
ghost use Rattle.enet_peer.specs.declared.parts.Offsets.{Offsets};
ghost use Rattle.enet_peer.specs.declared.parts.PeerState.TheVariants as state;
ghost use Rattle.enet_connect.specs.declared.terms.Terms.{Terms};
ghost use Rattle.enet_peer.specs.Peering.{Peering, joined, connecting, answering};
ghost use Rattle.enet_peer.specs.Endings.{disconnecting, parting};
ghost use Rattle.enet_peer.specs.CommandEffect.{obeyed};
ghost use Rattle.law_connection.specs.Link.{PutOut, is_late};
ghost use Rattle.law_connection.specs.LinkSteps.{Event, Runs, fresh_link, bodies_of};
ghost use Rattle.law_connection.specs.WireLink.{WireLink};
ghost use Rattle.law_connection.specs.Connection.{Put, End, Connection};
ghost use Rattle.law_connection.specs.Invariant.{Invariant};
ghost use Rattle.law_progress.specs.Links.{Waits, AreShort, AllDispatched, IsUp, AreTimed, GetsThrough, outstanding};
ghost use Rattle.law_progress.specs.Outboxes.{AllFit, NothingMayGo, WaitsForSome, GoOrStay, IsPutOut, AreQuiet, HasNew, AreSome, IsSpent, ready};
ghost use Rattle.law_progress.specs.Peers.{Awaits, Comes, IsAnswered, IsRemoved, IsHeard, IsTakenAway, TakesIn, WentThen, ControlWentThen};
ghost use Rattle.law_progress.specs.Counts.{LastCounts, CountsAsBefore};
ghost use Rattle.law_progress.specs.Settled.{IsSettled};
ghost use Rattle.law_progress.specs.Delivered.{IsDelivered};
ghost use Rattle.law_progress.specs.Attempts.{LastsAtMost, LastsFor, LastsOnceMade, LastsUnrefused, TellsWhenLeft};
ghost use Rattle.law_progress.specs.Waits.{NoneWaitsLonger};
ghost use Rattle.law_progress.specs.Fits.{StaysFit};
ghost use Rattle.law_progress.specs.Later.{DisconnectsLater, LeavesOrTells};
ghost use Rattle.law_progress.specs.Exchanges.{IsOpen, RoundOfBoth, ProgressesBoth, AllAcknowledged, AllOver, RoundsOfBoth, outstanding_over, BothThrough, SomeRound};
ghost use Rattle.law_progress.specs.InTurn.{RoundInTurn, RoundsInTurn};
ghost use Rattle.law_progress.specs.Rounds.{Round, Rounds, Progresses, AreOver, HasAllThrough, HasARound};

/// One channel of one connection, after any list of events, whatever was lost, repeated, reordered or late by then, while both ends go on.
///
/// `answered`: a reliable command that waits for its acknowledgement is acknowledged wherever it comes, not over 32,768 numbers late, by a
/// receiver that has room and takes in packets of the lengths that were submitted: it is never refused as a bad piece, and never outside
/// the windows that are acknowledged. `handled`: no command that comes so, reliable or not, is refused. `complete`: where no reliable
/// command is queued or unacknowledged, each reliable packet that was submitted was dispatched. `no_dead_end`: a list of events in which
/// nothing is lost leads there, if timeouts are within the clock's 32 bits.
pub fn everything_can_arrive()
    ensures answered { (mtu most : ℕ) (events : List Event) (v : WireLink) → 28 < mtu → Runs mtu events fresh_link v → v.is_sending ≡ true → v.is_open ≡ true
        → AreShort most v.submitted → (e : PutOut) → Waits v e → acknowledged wire most v.incoming e.command false ≡ true }
    ensures handled { (mtu most : ℕ) (events : List Event) (v : WireLink) → 28 < mtu → Runs mtu events fresh_link v → v.is_open ≡ true → AreShort most v.submitted
        → (e : PutOut) → Has v.commands e → is_late v.greatest e.sent_then e.command.number ≡ false → is_handled (outcome wire most v.incoming e.command false) ≡ true }
    ensures complete { (mtu : ℕ) (events : List Event) (v : WireLink) → 28 < mtu → Runs mtu events fresh_link v → v.is_sending ≡ true → v.is_open ≡ true
        → (left v.outgoing).reliable ≡ false → AllDispatched (carried mtu v.submitted) (bodies_of v.incoming.dispatched) }
    ensures no_dead_end { (mtu most : ℕ) (events : List Event) (v : WireLink) → 28 < mtu → Runs mtu events fresh_link v → IsUp v
        → AreShort most v.submitted → AreTimed v.outgoing.sent → GetsThrough mtu most v }
{}

/// One channel of one connection, after any list of events, whatever was lost, repeated, reordered or late by then, and then rounds in which
/// nothing is lost, while both ends go on. In each the clock goes on to any moment, the sending end puts out all that it may, whatever the
/// throttle drops of it, each datagram comes at once to a receiver that has room and takes in packets of the lengths that were submitted,
/// and all acknowledgements that wait go back.
///
/// `progresses`: whatever goes in a round is acknowledged in it. So each command that still waits has waited before: it is unchanged, and its
/// timeout isn't over; or it is due to go again, but what may be in transit left no room for it. The queue gets no longer, and gets shorter
/// where nothing waited; fewer commands are outstanding, queued or waiting, where all that waited was due or late. `through`: so where there
/// is a round by which each timeout of what waited is over, and with it as many rounds as commands were outstanding, nothing is outstanding
/// any more, and each reliable packet that was submitted was dispatched. (What is late no longer goes again at once, however much it is: a
/// round for each that waited is one more for each past the first than where it does.) `happens`: there is a round from each such link.
pub fn rounds_get_through()
    ensures progresses { (mtu most : ℕ) (tick : Tick) (events : List Event) (v w : WireLink) → 28 < mtu → Runs mtu events fresh_link v → IsUp v → AreShort most v.submitted
        → Round mtu most tick v w → Progresses mtu tick v w }
    ensures through { (mtu most : ℕ) (events : List Event) (v w : WireLink) (before after : List Tick) (tick : Tick) → 28 < mtu → Runs mtu events fresh_link v → IsUp v
        → AreShort most v.submitted → AreOver tick.now v.outgoing.sent → outstanding v ≤ length (tick ∷ after)
        → Rounds mtu most (before ++ tick ∷ after) v w → HasAllThrough mtu v w }
    ensures happens { (mtu most : ℕ) (tick : Tick) (v : WireLink) → IsUp v → HasARound mtu most tick v }
{}

/// All that a peer sends, whatever its throttle, windows and transit limit are.
///
/// `data`: where a reliable command is queued on some channel and nothing waits for its acknowledgement on any, the next datagram has a
/// command, if each that is queued fits a datagram, and the room in transit is kept for no channel of which nothing may wait for it, as
/// `all_that_waits_fits` has it of each peer. `acknowledgements`: the one that has waited longest goes with the next datagram, and no
/// new one comes to wait. `ends`: a datagram with a command leaves less that is ready to go, so putting out all at one moment comes to an
/// end. `spent`: then no acknowledgement waits, and no command of channel 0xFF is due or may go. `rests`: nor on any channel, once the
/// datagram was asked for that had no command, which may drop unreliable packets, and no unsequenced packet waits, if all fits datagrams.
/// `left`: so then nothing is left to send, or a command that was sent waits for its acknowledgement, and isn't due to go again. `kept`: no
/// reliable command is lost on its way into a datagram: each that was queued still is, or is put in, and each that was sent is as before, or
/// is put in again. `all`: so putting out all comes to where nothing may go, by at most one datagram more than there was ready, and all
/// acknowledgements that waited and reliable commands that were due to go again were put out; but a data command may be due still, as it
/// was, while others are in transit.
pub fn nothing_is_held_back()
    ensures data { (pace : Pace) (o : Outbox) (channel : ℕ) → AllFit pace o → AreQuiet o.senders → HasNew o.senders channel → AreSome (filled pace o).messages }
    ensures acknowledgements { (pace : Pace) (o : Outbox) (a : Acknowledgement) (rest : List Acknowledgement) → 576 ≤ pace.mtu → o.acknowledgements ≡ a ∷ rest
        → Has (filled pace o).messages (acknowledgement_of a) × (length (filled pace o).outbox.acknowledgements ≤ length rest) }
    ensures ends { (pace : Pace) (o : Outbox) → AreSome (filled pace o).messages → ready (filled pace o).outbox < ready o }
    ensures spent { (pace : Pace) (o : Outbox) → 576 ≤ pace.mtu → (filled pace o).messages ≡ [] → IsSpent pace o }
    ensures rests { (pace : Pace) (o : Outbox) → AllFit pace o → (filled pace o).messages ≡ [] → NothingMayGo pace (filled pace o).outbox }
    ensures kept { (pace : Pace) (o : Outbox) → GoOrStay o (filled pace o) }
    ensures all { (pace : Pace) (o : Outbox) → AllFit pace o → (n : ℕ) × (n ≤ ready o + 1) × IsPutOut pace o n }
    ensures left { (pace : Pace) (o : Outbox) → AllFit pace o → (filled pace o).messages ≡ [] → (is_done (filled pace o).outbox ≡ true) ⊎ WaitsForSome (filled pace o).outbox }
{}

/// A connected peer, in every reached connection, on a channel below 255.
///
/// `forth`, `back`: a reliable data command that the other end waits for, and that comes in time while there is room, is taken in without a
/// stop, and its acknowledgement waits to go: from the first end to the second and back. There is room where the reliable packets that are
/// held and the packets that the user hasn't taken are below the limits, for the next packet in order where the latter are, and where fewer
/// than 8,192 acknowledgements wait to go. `removed`: an acknowledgement that comes takes the sent command of its number away, and no
/// other, where that went at the time that it repeats, less what the peer adds to the times that it tells. `unreliable_forth`,
/// `unreliable_back`: an unreliable data command that comes in time is taken in, too, without a stop while there is room, however many
/// acknowledgements wait. `controls`: each reliable command of channel 0xFF but CONNECT, and but VERIFY_CONNECT at a peer that answered a
/// CONNECT itself, is acknowledged while fewer than 8,192 acknowledgements wait to go, and DISCONNECT, which drops those that wait, always.
/// `unsequenced`: an unsequenced packet is taken in without a stop where there is room for it, however many wait. `controls_removed`: the
/// acknowledgement that comes takes the sent command of channel 0xFF of its number away, and no other, where that went at the time that it
/// repeats, less as much; of VERIFY_CONNECT each send counts by itself.
pub fn what_waits_is_answered()
    ensures forth { (joined : Bool) (d : Connection) (p q : Peering) (put : Put) (channel : ℕ) (c : DataCommand) (now time : ℕ) → Invariant joined d → channel < 255
        → Awaits d.one d.two p q put channel c → IsAnswered q channel time c (obeyed q now (Some time) put.message) }
    ensures back { (joined : Bool) (d : Connection) (p q : Peering) (put : Put) (channel : ℕ) (c : DataCommand) (now time : ℕ) → Invariant joined d → channel < 255
        → Awaits d.two d.one p q put channel c → IsAnswered q channel time c (obeyed q now (Some time) put.message) }
    ensures removed { (p : Peering) (now : ℕ) (sent : Option ℕ) (m : Message) (number told : ℕ) (s : SendingEnd) → p.state ≡ state.Connected → m.head.acknowledge ≡ false
        → m.body ≡ acknowledge number told → m.head.channel < 255 → slice_get p.outbox.senders m.head.channel ≡ Some s → Has (map (λ (x : Sent). x.command.number) s.sender.sent) number
        → WentThen s.sender.sent number (meant_time told (p.offset % 2 ^ 16)) → IsRemoved p m.head.channel number s (obeyed p now sent m) }
    ensures unreliable_forth { (joined : Bool) (d : Connection) (q : Peering) (put : Put) (channel : ℕ) (c : DataCommand) (now : ℕ) (sent : Option ℕ) → Invariant joined d → channel < 255
        → Comes d.one d.two q put channel c → (obeyed q now sent put.message).stop ≡ None }
    ensures unreliable_back { (joined : Bool) (d : Connection) (q : Peering) (put : Put) (channel : ℕ) (c : DataCommand) (now : ℕ) (sent : Option ℕ) → Invariant joined d → channel < 255
        → Comes d.two d.one q put channel c → (obeyed q now sent put.message).stop ≡ None }
    ensures controls { (q : Peering) (n : Numbered) (now time : ℕ) → q.state ≡ state.Connected → IsHeard q n time (obeyed q now (Some time) (control_message n)) }
    ensures controls_removed { (p : Peering) (now : ℕ) (sent : Option ℕ) (number told : ℕ) → p.state ≡ state.Connected → Has (map (λ (t : SentControl). t.command.number) p.outbox.control.sent) number
        → ControlWentThen p.outbox.control.sent number (meant_time told (p.offset % 2 ^ 16)) → IsTakenAway p number (obeyed p now sent (acknowledgement_of (record { channel = 0xFF; number = number; time = told }))) }
    ensures unsequenced { (q : Peering) (u : Unsequenced) (now : ℕ) (sent : Option ℕ) → TakesIn q u → (obeyed q now sent (unsequenced_of u)).stop ≡ None }
{}

/// Each command of channel 0xFF that asks for its acknowledgement, whatever its peer adds to the times that it tells.
///
/// `first`: once it was sent, an acknowledgement counts that repeats the time which its datagram told, so that it takes the command away
/// (`controls_removed` of `what_waits_is_answered`). `again`: so it is where the command is sent once more, however often it was sent before:
/// by `first` and `again` it always has places for the times of eight sends. So the last send of VERIFY_CONNECT counts, too. `held`: where
/// VERIFY_CONNECT is held back, each of its sends counts as before, and nothing new does, since nothing went.
pub fn the_last_send_counts()
    ensures first { (now offset timeout : ℕ) (n : Numbered) → LastCounts now offset (begun now timeout n) }
    ensures again { (now offset : ℕ) (t : SentControl) → length t.times.times ≡ 8 → LastCounts now offset (again now t) }
    ensures held { (tick : Tick) (t : SentControl) → CountsAsBefore t (held_back tick t) }
{}

/// Two connected peers, in every reached connection, on a channel below 255, where all that the receiving one has to send fits datagrams.
///
/// Where a reliable data command that the one end waits for comes to the other in time, and there is room, and fewer than 8,192
/// acknowledgements wait to go there, its acknowledgement is in one of the datagrams that this end puts out next, at most one more than it
/// has commands ready to go; and where that acknowledgement comes back, and the command went at the time that it repeats, less what the
/// first end adds to the times that it tells, as in each datagram that tells its sent time, it takes the command away, and no other: from
/// the first end to the second (`forth`) and back (`back`).
pub fn each_trip_takes_one_away()
    ensures forth { (joined : Bool) (d : Connection) (p q : Peering) (put : Put) (channel : ℕ) (c : DataCommand) (now time : ℕ) (pace : Pace) → Invariant joined d → channel < 255
        → Awaits d.one d.two p q put channel c → p.state ≡ state.Connected → AllFit pace q.outbox → IsSettled pace p channel time c (obeyed q now (Some time) put.message) }
    ensures back { (joined : Bool) (d : Connection) (p q : Peering) (put : Put) (channel : ℕ) (c : DataCommand) (now time : ℕ) (pace : Pace) → Invariant joined d → channel < 255
        → Awaits d.two d.one p q put channel c → p.state ≡ state.Connected → AllFit pace q.outbox → IsSettled pace p channel time c (obeyed q now (Some time) put.message) }
{}

/// Acknowledged means delivered, in every reached connection, on a channel below 255, from the first end to the second (`forth`) and back
/// (`back`): where an end has no reliable command of the channel queued or unacknowledged, each reliable packet that its user submitted on
/// it was dispatched at the other end, taken or not, if that still dispatches.
pub fn acknowledged_was_delivered()
    ensures forth { (joined : Bool) (d : Connection) (channel : ℕ) → Invariant joined d → channel < 255 → IsDelivered d.one d.two channel }
    ensures back { (joined : Bool) (d : Connection) (channel : ℕ) → Invariant joined d → channel < 255 → IsDelivered d.two d.one channel }
{}

/// One peer, whatever comes to it: commands of any kind, at any time, from anyone, or none, and whatever it adds to its times and numbers.
/// Its clock goes on by any steps of less than some 49 days, whether or not its address has sent enough for another answer, and at each
/// moment all is put out that may go. Times are in milliseconds.
///
/// `connecting`, `unrefused`: a client that asks stays so for 60,500 at most, from the first moment at which it puts something out, with
/// ENet's default patience, and a server that has answered for 7,500, if its host doesn't refuse the client meanwhile. `answering`: nor
/// longer if it does, where the peer's clock doesn't come round from when the peer was made on. `disconnecting`: so does a peer that has
/// asked for the end, for at most its first timeout and twice the greatest patience that was set; `acknowledging`, `parting`: one that has
/// to acknowledge the other's DISCONNECT, and one that leaves by one DISCONNECT which asks for no acknowledgement, no longer than its first
/// turn. `asked`: where the clock goes on by one millisecond at once, the client stays so for less than 31,500; for each millisecond more
/// at once, by 5 longer. `answered`: the server does for less than 7,500, however far its clock goes on at once. `told`: a client that
/// asks, a server that has answered and a peer that has asked for the end cease to be so only so that the user has an event to take, or the
/// peer is free.
pub fn every_attempt_ends()
    ensures connecting { (start offset : ℕ) (offer : Offer) (limits : Limits) → LastsAtMost state.Connecting (connecting start offset offer limits) 60500 }
    ensures answering { (offsets : Offsets) (offer : Offer) (server : Server) (limits : Limits) → LastsOnceMade state.Answering (λ start. answering start offsets offer server limits) 7500 }
    ensures unrefused { (start : ℕ) (offsets : Offsets) (offer : Offer) (server : Server) (limits : Limits) → LastsUnrefused state.Answering (answering start offsets offer server limits) 7500 }
    ensures disconnecting { (p : Peering) (info : ℕ) → LastsAtMost state.Disconnecting (disconnecting p info) (timeout p.estimate + 2 * p.patience.maximum) }
    ensures acknowledging { (p : Peering) → LastsAtMost state.AckDisconnect p 0 }
    ensures parting { (p : Peering) (info : ℕ) → LastsAtMost state.Parting (parting p info) 0 }
    ensures asked { (offset : ℕ) (offer : Offer) (limits : Limits) → LastsFor state.Connecting (λ start. connecting start offset offer limits) 31500 5 }
    ensures answered { (offsets : Offsets) (offer : Offer) (server : Server) (limits : Limits) → LastsFor state.Answering (λ start. answering start offsets offer server limits) 7500 0 }
    ensures told { TellsWhenLeft state.Connecting × TellsWhenLeft state.Answering × TellsWhenLeft state.Disconnecting }
{}

/// One peer, whatever comes to it, whatever its user submits and takes, and however it disconnects. Its clock goes on by any steps of less
/// than some 49 days, the patience stays as it is at first, and at the end of each moment nothing is due to go again: all that was due had
/// room, and went. (On a line that has too little, what is due waits for room until other commands are acknowledged or late, and there this
/// says nothing.)
///
/// No command waits for its acknowledgement longer than its timeout and the greatest patience together, whichever state the peer is in: by
/// then it is acknowledged, or the peer has ended. So of a peer that is connected from the start (`joined`), of a client that asks
/// (`connecting`) and of a server that has answered (`answering`).
pub fn no_wait_is_endless()
    ensures joined { (start : ℕ) (terms : Terms) (limits : Limits) → NoneWaitsLonger (joined start terms limits) }
    ensures connecting { (start offset : ℕ) (offer : Offer) (limits : Limits) → NoneWaitsLonger (connecting start offset offer limits) }
    ensures answering { (start : ℕ) (offsets : Offsets) (offer : Offer) (server : Server) (limits : Limits) → NoneWaitsLonger (answering start offsets offer server limits) }
{}

/// One peer, whatever comes to it, whatever its user submits and takes, and however it disconnects: each packet that waits fits a datagram,
/// and so does each command that was sent and may have to go again, as `nothing_is_held_back` asks for it. So of a peer that is connected
/// from the start (`joined`), of a client that asks (`connecting`), each with an mtu of at most 4,096, and of a server that has answered
/// (`answering`).
pub fn all_that_waits_fits()
    ensures joined { (start : ℕ) (terms : Terms) (limits : Limits) → terms.mtu ≤ 4096 → StaysFit (joined start terms limits) }
    ensures connecting { (start offset : ℕ) (offer : Offer) (limits : Limits) → offer.mtu ≤ 4096 → StaysFit (connecting start offset offer limits) }
    ensures answering { (start : ℕ) (offsets : Offsets) (offer : Offer) (server : Server) (limits : Limits) → StaysFit (answering start offsets offer server limits) }
{}

/// One peer that is to disconnect later, whatever comes to it: as in `every_attempt_ends`, at each moment all is put out that may go.
///
/// It stays so for no longer than its timeouts, the greatest patience and the gap between two moments of its clock allow: 5 seconds, twice
/// that patience and the gap, for each command that was still to go for the first time, for each that was still to be acknowledged, of
/// these and of those that were sent, and once more. (What is due to go again waits for room, in which others may be acknowledged: each time
/// that one goes or is acknowledged it may wait as long.) Then it was done and asked for the end, which `every_attempt_ends` bounds, or the
/// other end did, or its patience was over. So of a peer that was connected from the start (`joined`), of a client that asked
/// (`connecting`), each with an mtu of at most 4,096, and of a server that answered (`answering`), whatever came and whatever its user did
/// before, settings apart, and however long what was due waited for room: if all that, and once more, is over less than some 49 days after
/// the peer's first moment, or after any before which nothing was ever due at the end of a moment (`RoomyBefore`).
/// `told`: it ceases to be so only where it has asked for the end, or has to acknowledge that the other end did, or its user has an event to
/// take, or it is free.
pub fn no_leave_is_put_off()
    ensures joined { (start : ℕ) (terms : Terms) (limits : Limits) → terms.mtu ≤ 4096 → DisconnectsLater (joined start terms limits) }
    ensures connecting { (start offset : ℕ) (offer : Offer) (limits : Limits) → offer.mtu ≤ 4096 → DisconnectsLater (connecting start offset offer limits) }
    ensures answering { (start : ℕ) (offsets : Offsets) (offer : Offer) (server : Server) (limits : Limits) → DisconnectsLater (answering start offsets offer server limits) }
    ensures told { LeavesOrTells }
{}

/// Two connected peers, in every reached connection, over all their channels and both ways, whatever was lost, repeated, reordered or late by
/// then, and then rounds in which nothing is lost. In each both clocks go on to any moments by which neither's patience is over; the one end
/// puts out all that it may, the other does, and the one does again; each command comes at once to the other end, which doesn't stop at it,
/// or has its channel and room for it and for its acknowledgement and takes in packets of the lengths that were submitted; by none a peer
/// ceases to be connected; and after each datagram the user there takes what it likes.
///
/// `progresses`: a round makes fewer the commands that are outstanding at the two together, on all channels; or nothing went on any channel
/// before the one end's second turn, and time alone passed: what is outstanding is as it was, but that what had waited out its timeout is
/// due to go again, and if anything is outstanding at an end, something is in transit there, and its timeout isn't over. `acknowledged`:
/// whatever goes before that turn is acknowledged in the round: what still waits has waited before, as it is, and its timeout isn't over; or
/// it is due to go again, and there was no room for it. `through`: so a round by which all timeouts of what
/// waited are over, and after it as many rounds as commands were outstanding, whatever their moments, bring all through: nothing is
/// outstanding, and each reliable packet that either user submitted was dispatched at the other end, in order, taken or not. `happens`: there
/// is a round in which a reliable packet goes and is acknowledged, so this speaks of something.
/// `either`: what is asked of a reached connection holds of it with its ends exchanged, too, so either end may begin.
pub fn both_get_through()
    ensures progresses { (joined : Bool) (now there : ℕ) (c d : Connection) (p q : Peering) → Invariant joined c → IsOpen c.one p → IsOpen c.two q → (r : RoundOfBoth now there c d) → ProgressesBoth now there p q r }
    ensures acknowledged { (joined : Bool) (now there : ℕ) (c d : Connection) (p q : Peering) → Invariant joined c → IsOpen c.one p → IsOpen c.two q → (r : RoundOfBoth now there c d) → AllAcknowledged now there p q r }
    ensures through { (joined : Bool) (now there : ℕ) (moments : List (ℕ × ℕ)) (c b d : Connection) (p q : Peering) → Invariant joined c → IsOpen c.one p → IsOpen c.two q → AllOver now p → AllOver there q
        → RoundOfBoth now there c b → RoundsOfBoth moments b d → outstanding_over p.outbox.senders + outstanding_over q.outbox.senders ≤ length moments → BothThrough d }
    ensures happens { SomeRound }
    ensures either { (joined : Bool) (a b : End) → Invariant joined (record { one = a; two = b }) → Invariant joined (record { one = b; two = a }) }
{}

/// Two connected peers, as in `both_get_through`, and rounds without losses as two hosts have them, where neither has a second turn: both
/// clocks go on, and either host may limit its peer's throttle then; the one end puts out all that it may, and then the other does; and then
/// both users take what they like.
///
/// `through`: any rounds, then one by which all timeouts of what waited at first are over, and after it twice as many rounds as commands were
/// outstanding at first, whatever their moments, bring all through: nothing is outstanding, and each reliable packet that either user
/// submitted was dispatched at the other end, in order, taken or not. What goes at the one end is acknowledged in its round, and what goes at
/// the other in the round after it, before that end is asked again. `begins`: each round of `both_get_through` begins with one like this, so
/// this speaks of something.
pub fn rounds_in_turn_get_through()
    ensures through { (joined : Bool) (earlier : List (ℕ × ℕ)) (now there : ℕ) (later : List (ℕ × ℕ)) (c d : Connection) (p q : Peering) → Invariant joined c → c.one.peer ≡ Some p → c.two.peer ≡ Some q → AllOver now p → AllOver there q
        → RoundsInTurn (earlier ++ (now, there) ∷ later) c d → 2 * (outstanding_over p.outbox.senders + outstanding_over q.outbox.senders) ≤ length later → BothThrough d }
    ensures begins { (now there : ℕ) (c d : Connection) → RoundOfBoth now there c d → (b : Connection) × RoundInTurn now there c b }
{}
