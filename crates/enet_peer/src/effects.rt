//! The commands that come to a peer.

ghost use Rattle.std.specs.Prelude.{◌≡◌, ℕ, ◌≤◌, ◌%◌, ◌^◌, ◌&&◌, false, IsTrue, OnOk, OnErr, IfOk, IfErr, Ok, Option, Some, None, is_some, true};
ghost use Rattle.enet_codec.specs.Message.{view};
ghost use Rattle.enet_codec.specs.Frequent.{acknowledgement};
ghost use Rattle.enet_rtt.specs.Clock.{meant_time};
ghost use Rattle.enet_inbox.specs.InboxParts.{told};
ghost use Rattle.enet_inbox.specs.InboxParts as coming;
ghost use Rattle.enet_peer.specs.Acting.{foreseen, foreseen_data};
ghost use Rattle.enet_peer.specs.Private.Acting.{taken_in, acted, may_be_answered, wants_place, is_welcomed_by, may_clear, Replies};
ghost use Rattle.enet_peer.specs.Private.Peered.{places_of};
ghost use Rattle.enet_outbox.specs.Outbox.{is_crowded};
ghost use Rattle.enet_peer.specs.CommandEffect.{obeyed, wants_memory, is_kept, is_crowded_out, is_unasked, drops_acknowledgements, Obeys, answered, is_allowed, is_answered_in, accepted, on_acknowledge, on_verify_in, on_disconnect_in, on_bandwidth, on_throttle, sampled, unwelcomed, with_answer};

use crate::{Ending, Peer, PeerState};
use enet_codec::{Acknowledged, Command, Head, Stop, Verify};
use enet_connect::confirm;
use enet_inbox::Foreseen;
use enet_outbox::{Acknowledgement, Matched};
use enet_rtt::{meant_time, round_trip_sample};
use enet_senders::Control;
use enet_throttle::window_of;

/// What becomes of a command that is no data: it may be acknowledged, and the inbox keeps nothing of it.
const NOTHING_KEPT: Foreseen = Foreseen {
    acknowledged: true,
    kept: false,
    makes_room: false,
    dispatches: 0,
};

/// Whether a peer in this state takes this command in; a CONNECT is refused before.
fn is_allowed(state: PeerState, command: &Command<'_>) -> bool
    ensures { result ≡ is_allowed state (view command.now).body }
{
    match state {
        PeerState::Connected | PeerState::DisconnectLater => true,
        PeerState::Connecting
        | PeerState::Answering
        | PeerState::Disconnecting
        | PeerState::AckDisconnect => matches!(
            command,
            Command::Acknowledge { .. } | Command::VerifyConnect { .. } | Command::Disconnect { .. }
        ),
        PeerState::Free | PeerState::Ended | PeerState::Parting => false,
    }
}

/// Whether a command is acknowledged that left the peer in this state.
fn is_answered_in(state: PeerState, command: &Command<'_>) -> bool
    ensures { result ≡ is_answered_in state (view command.now).body }
{
    match state {
        PeerState::Connected | PeerState::DisconnectLater => true,
        PeerState::AckDisconnect => matches!(command, Command::Disconnect { .. }),
        _ => false,
    }
}

/// Whether a command that comes to a peer in this state drops all acknowledgements that wait.
fn drops_acknowledgements(state: PeerState, command: &Command<'_>) -> bool
    ensures { result ≡ drops_acknowledgements state (view command.now).body }
{
    match state {
        PeerState::Connected | PeerState::DisconnectLater => {
            matches!(command, Command::Disconnect { .. })
        }
        _ => false,
    }
}

/// What a command begins with.
fn head_of(command: &Command<'_>) -> Head
    ensures { result ≡ (view command.now).head }
{
    match *command {
        Command::Acknowledge { head, .. }
        | Command::Connect { head, .. }
        | Command::VerifyConnect { head, .. }
        | Command::Disconnect { head, .. }
        | Command::Ping { head }
        | Command::SendReliable { head, .. }
        | Command::SendUnreliable { head, .. }
        | Command::SendFragment { head, .. }
        | Command::SendUnsequenced { head, .. }
        | Command::BandwidthLimit { head, .. }
        | Command::ThrottleConfigure { head, .. }
        | Command::SendUnreliableFragment { head, .. } => head,
    }
}

impl Peer {
    /// Takes a command in that came at the time `now`, in milliseconds, in a datagram that tells this sent time or none.
    /// Where it asks for an acknowledgement and may have one, that waits from then on to be put out.
    ///
    /// A stop is the first that applies: S6 for a CONNECT; S7 where the peer's state does not allow the command, and for a VERIFY_CONNECT where this end answered a
    /// CONNECT itself; S10 where it asks for
    /// an acknowledgement and 8,192 wait already, unless it is a DISCONNECT that drops these (our profile); for a data command S8 where there is no such channel, S9 where its payload is too long or its fragment is bad, and S10 where it
    /// begins a packet and finds no room, as `Inbox::foresee` says (not where the peer is to disconnect later); S11 where memory is refused (our
    /// profile). After these nothing has changed. S12 comes last, where the command is to be acknowledged and the datagram tells
    /// no sent time: it took effect (our profile).
    pub fn command(
        &mut self,
        now: u32,
        sent: Option<u16>,
        command: &Command<'_>,
    ) -> Result<(), Stop>
        ensures { Obeys result (wants_memory self.old.peer now sent (view command.now)) (obeyed self.old.peer now sent (view command.now)) self.old.peer self.new.peer }
    {
        let foreseen = self.foresee(command)?;
        let head = head_of(command);
        self.make_room(sent, head, command, foreseen.acknowledged)?;
        self.on_command(now, sent.is_some(), command, foreseen)?;
        self.answer(sent, head, command, foreseen.acknowledged)
    }

    /// Why a command stops its datagram before it has an effect, or what becomes of it.
    fn foresee(&self, command: &Command<'_>) -> Result<Foreseen, Stop>
        ensures answer { told result ≡ foreseen self.now.peer (view command.now) }
        ensures kept { IfOk result (λ what. what.kept ≡ is_kept self.now.peer (view command.now)) }
        ensures value { IfOk result (λ what. IsTrue what.kept → coming.foreseen self.now.peer.inbox (view command.now) ≡ Ok what) }
    {
        if let Command::Connect { .. } = command {
            return Err(Stop::BadCommand);
        }
        if !is_allowed(self.state, command) {
            return Err(Stop::NotConnected);
        }
        if self.is_unasked(command) {
            return Err(Stop::NotConnected);
        }
        if self.is_crowded_out(command) {
            return Err(Stop::Waiting);
        }
        match command {
            Command::SendReliable { .. }
            | Command::SendUnreliable { .. }
            | Command::SendFragment { .. }
            | Command::SendUnsequenced { .. }
            | Command::SendUnreliableFragment { .. } => self.foresee_data(command),
            _ => Ok(NOTHING_KEPT),
        }
    }

    /// Whether a command is a server's answer, and this end is the server itself: only who asked is answered.
    fn is_unasked(&self, command: &Command<'_>) -> bool
        ensures { result ≡ is_unasked self.now.peer (view command.now).body }
    {
        match command {
            Command::VerifyConnect { .. } => self.is_server,
            _ => false,
        }
    }

    /// Whether a command asks for an acknowledgement where as many wait to go as may, and it does not drop them.
    fn is_crowded_out(&self, command: &Command<'_>) -> bool
        ensures { result ≡ is_crowded_out self.now.peer (view command.now) }
    {
        self.outbox.is_crowded()
            && head_of(command).acknowledge
            && !drops_acknowledgements(self.state, command)
    }

    /// The same of a data command. A peer that is to disconnect later passes it over.
    fn foresee_data(&self, command: &Command<'_>) -> Result<Foreseen, Stop>
        ensures answer { told result ≡ foreseen_data self.now.peer (view command.now) }
        ensures kept { IfOk result (λ what. what.kept ≡ is_kept self.now.peer (view command.now)) }
        ensures value { IfOk result (λ what. IsTrue what.kept → coming.foreseen self.now.peer.inbox (view command.now) ≡ Ok what) }
    {
        if self.state == PeerState::DisconnectLater {
            let acknowledged = self.inbox.pass_over(command)?;
            return Ok(Foreseen {
                acknowledged,
                ..NOTHING_KEPT
            });
        }
        self.inbox.foresee(command)
    }

    /// Makes room for the acknowledgement of a command that asks for one and may have it, where it may need a place of its
    /// own. S11 where memory is refused, with nothing changed.
    fn make_room(
        &mut self,
        sent: Option<u16>,
        head: Head,
        command: &Command<'_>,
        may: bool,
    ) -> Result<(), Stop>
        requires { head ≡ (view command.now).head }
        ensures peer { self.new.peer ≡ self.old.peer }
        ensures room { OnOk result (IsTrue (may_be_answered sent (view command.now) may && wants_place self.old.peer (view command.now).body) → 1 ≤ self.new.acknowledgement_room) }
        ensures grows { self.old.acknowledgement_room ≤ self.new.acknowledgement_room }
        ensures memory { IfErr result (λ why. why ≡ Stop.Memory) }
        ensures wanted { IfErr result (λ _. IsTrue (may_be_answered sent (view command.now) may && wants_place self.old.peer (view command.now).body)) }
    {
        let may_be_answered = head.acknowledge && sent.is_some() && may;
        if may_be_answered
            && self.wants_place(command)
            && self.outbox.reserve_acknowledgement().is_err()
        {
            return Err(Stop::Memory);
        }
        Ok(())
    }

    /// Whether the acknowledgement of a command may need a place beside those that wait: not where the command leaves a state
    /// in which none is given, nor where it takes all that wait away.
    fn wants_place(&self, command: &Command<'_>) -> bool
        ensures { result ≡ wants_place self.now.peer (view command.now).body }
    {
        match self.state {
            PeerState::Connected | PeerState::DisconnectLater => {
                !matches!(command, Command::Disconnect { .. })
                    || !self.outbox.has_acknowledgements()
            }
            PeerState::Connecting => {
                self.is_welcomed_by(command) && !self.outbox.has_acknowledgements()
            }
            PeerState::Answering => matches!(command, Command::Acknowledge { .. }),
            PeerState::AckDisconnect => matches!(command, Command::Disconnect { .. }),
            PeerState::Disconnecting | PeerState::Free | PeerState::Ended | PeerState::Parting =>
                false,
        }
    }

    /// Whether a command is a server's answer that stands by what was asked for.
    fn is_welcomed_by(&self, command: &Command<'_>) -> bool
        ensures { result ≡ is_welcomed_by self.now.peer (view command.now).body }
    {
        match command {
            Command::VerifyConnect { verify, .. } => confirm(&self.offer, verify).is_some(),
            _ => false,
        }
    }

    /// Does what a command asks for, all but its acknowledgement. S11 where memory is refused, with nothing changed.
    fn on_command(
        &mut self,
        now: u32,
        tells: bool,
        command: &Command<'_>,
        what: Foreseen,
    ) -> Result<(), Stop>
        requires kept { what.kept ≡ is_kept self.old.peer (view command.now) }
        requires value { IsTrue what.kept → coming.foreseen self.old.peer.inbox (view command.now) ≡ Ok what }
        ensures done { OnOk result (self.new.peer ≡ acted self.old.peer now tells (view command.now)) }
        ensures refused { OnErr result (self.new.peer ≡ self.old.peer) }
        ensures memory { IfErr result (λ why. why ≡ Stop.Memory) }
        ensures kept { IfErr result (λ _. is_kept self.old.peer (view command.now) ≡ true) }
        ensures acknowledgement_room { self.old.acknowledgement_room ≤ self.new.acknowledgement_room }
        ensures places { IsTrue (may_clear (view command.now).body) → places_of self.old ≤ places_of self.new }
    {
        match *command {
            Command::Acknowledge {
                head,
                received_number,
                received_time,
            } => self.on_acknowledge(now, head.channel, received_number, received_time),
            Command::VerifyConnect { verify, .. } => self.on_verify(&verify),
            Command::Disconnect { head, info } => {
                self.on_disconnect(head.acknowledge && tells, info)
            }
            Command::BandwidthLimit { incoming, .. } => self.on_bandwidth(incoming),
            Command::ThrottleConfigure {
                interval,
                acceleration,
                deceleration,
                ..
            } => self.on_throttle(interval, acceleration, deceleration),
            Command::Connect { .. } | Command::Ping { .. } => {}
            Command::SendReliable { .. }
            | Command::SendUnreliable { .. }
            | Command::SendFragment { .. }
            | Command::SendUnsequenced { .. }
            | Command::SendUnreliableFragment { .. } => return self.on_data(command, what),
        }
        Ok(())
    }

    /// Queues the acknowledgement of a command that took effect, where it asks for one and may have it. S12 where the
    /// datagram tells no sent time.
    fn answer(
        &mut self,
        sent: Option<u16>,
        head: Head,
        command: &Command<'_>,
        may: bool,
    ) -> Result<(), Stop>
        requires head { head ≡ (view command.now).head }
        requires room { IsTrue (may_be_answered sent (view command.now) may && is_answered_in self.old.peer.state (view command.now).body) → 1 ≤ self.old.acknowledgement_room }
        requires few { IsTrue (may_be_answered sent (view command.now) may && is_answered_in self.old.peer.state (view command.now).body) → is_crowded self.old.peer.outbox ≡ false }
        ensures { Replies result (answered self.old.peer (view command.now) sent may) self.new.peer }
    {
        if !(head.acknowledge && may && is_answered_in(self.state, command)) {
            return Ok(());
        }
        let Some(time) = sent else {
            return Err(Stop::NoSentTime);
        };
        self.outbox.queue_acknowledgement(Acknowledgement {
            channel: head.channel,
            number: head.number,
            time,
        });
        Ok(())
    }

    /// Takes an ACKNOWLEDGE in that came at the time `now` and asks for none itself, as `command` does: whether the peer's state allows it.
    /// Where it doesn't nothing has changed.
    #[inline(always)]
    pub(crate) fn takes_acknowledged(&mut self, now: u32, found: Acknowledged) -> bool
        requires plain { found.head.acknowledge ≡ false }
        ensures done { IsTrue result → (sent : Option ℕ) → obeyed self.old.peer now sent (acknowledgement found) ≡ record { stop = None; after = self.new.peer } }
        ensures same { result ≡ false → self.new.peer ≡ self.old.peer }
    {
        if matches!(
            self.state,
            PeerState::Free | PeerState::Ended | PeerState::Parting
        ) {
            return false;
        }
        self.on_acknowledge(
            now,
            found.head.channel,
            found.received_number,
            found.received_time,
        );
        true
    }

    /// An acknowledgement comes. At a client that waits for its server's answer none has an effect: the answer alone stands for
    /// the acknowledgement of CONNECT.
    #[inline(always)]
    fn on_acknowledge(&mut self, now: u32, channel: u8, number: u16, told: u16)
        ensures peer { self.new.peer ≡ on_acknowledge self.old.peer now channel number told }
        ensures acknowledgement_room { self.old.acknowledgement_room ≤ self.new.acknowledgement_room }
    {
        if self.state == PeerState::Connecting {
            return;
        }
        let time = self.meant(told);
        self.acknowledge(now, channel, number, time);
    }

    /// What a told time stands for on the clock of this peer, which adds its offset to what it tells.
    pub(crate) fn meant(&self, told: u16) -> u16
        ensures { result ≡ meant_time told (self.now.peer.offset % 2 ^ 16) }
    {
        meant_time(told, self.offset)
    }

    /// An acknowledgement takes away what it matches: the command of its number, where that was sent at the time that it repeats. One
    /// that matches nothing has no effect.
    fn acknowledge(&mut self, now: u32, channel: u8, number: u16, time: u16)
        ensures peer { self.new.peer ≡ accepted self.old.peer now channel number time }
        ensures acknowledgement_room { self.old.acknowledgement_room ≤ self.new.acknowledgement_room }
    {
        match self.outbox.acknowledge(channel, number, time) {
            Matched::Nothing => {}
            Matched::Data => {
                self.sample(now, time);
                self.settle();
            }
            Matched::Control(what) => {
                self.sample(now, time);
                self.with_answer(what);
                self.settle();
            }
        }
    }

    /// A round trip was measured, by the time at which what is acknowledged was sent.
    #[inline(always)]
    fn sample(&mut self, now: u32, time: u16)
        ensures peer { self.new.peer ≡ sampled self.old.peer now time }
        ensures acknowledgement_room { self.new.acknowledgement_room ≡ self.old.acknowledgement_room }
    {
        let measured = round_trip_sample(now, time);
        self.timing.sample(measured);
        self.heard = now;
        self.outbox.sample(
            now,
            measured,
            self.timing.round_trip(),
            self.timing.variance(),
        );
    }

    /// An acknowledged command of channel 0xFF: VERIFY_CONNECT completes a server's connection, DISCONNECT ends one.
    fn with_answer(&mut self, what: Control)
        ensures peer { self.new.peer ≡ with_answer self.old.peer.state what self.old.peer }
        ensures acknowledgement_room { self.old.acknowledgement_room ≤ self.new.acknowledgement_room }
    {
        match (self.state, what) {
            (PeerState::Answering, Control::VerifyConnect(_)) => {
                self.state = PeerState::Connected;
                self.greeting = Some(self.info);
            }
            (PeerState::Disconnecting, Control::Disconnect { .. }) => {
                self.end(Ending::AskedHere, 0);
            }
            _ => {}
        }
    }

    /// A server's answer comes: a client's connection stands, or it has ended where the answer is not what was asked for. One with
    /// another connect id can't be this server's, and has no effect.
    fn on_verify(&mut self, verify: &Verify)
        ensures peer { self.new.peer ≡ on_verify_in self.old.peer.state self.old.peer verify.now }
        ensures acknowledgement_room { self.old.acknowledgement_room ≤ self.new.acknowledgement_room }
        ensures places { places_of self.old ≤ places_of self.new }
    {
        if self.state != PeerState::Connecting {
            return;
        }
        let Some(terms) = confirm(&self.offer, verify) else {
            self.turn_down(verify);
            return;
        };
        self.state = PeerState::Connected;
        self.terms = terms;
        self.other_incoming = verify.incoming_bandwidth;
        self.greeting = Some(0);
        self.inbox.narrow(terms.channels);
        self.outbox.clear();
        self.outbox.narrow(terms.channels);
    }

    /// A server's answer isn't what was asked for: the connection has ended, unless the answer has another connect id.
    fn turn_down(&mut self, verify: &Verify)
        ensures peer { self.new.peer ≡ unwelcomed self.old.peer verify.now }
        ensures acknowledgement_room { self.old.acknowledgement_room ≤ self.new.acknowledgement_room }
        ensures places { places_of self.old ≤ places_of self.new }
    {
        if verify.connect_id == self.offer.connect_id {
            self.end(Ending::BadAnswer, 0);
        }
    }

    /// DISCONNECT comes. Where it can be acknowledged, its acknowledgement is to be sent yet; else the connection has ended.
    fn on_disconnect(&mut self, answerable: bool, info: u32)
        ensures peer { self.new.peer ≡ on_disconnect_in self.old.peer.state self.old.peer answerable info }
        ensures acknowledgement_room { self.old.acknowledgement_room ≤ self.new.acknowledgement_room }
        ensures places { places_of self.old ≤ places_of self.new }
    {
        match self.state {
            PeerState::Connected | PeerState::DisconnectLater => {
                if answerable {
                    self.drop_all();
                    self.state = PeerState::AckDisconnect;
                    self.info = info;
                } else {
                    self.end(Ending::AskedThere, info);
                }
            }
            PeerState::Connecting | PeerState::Disconnecting => {
                self.end(Ending::AskedThere, info);
            }
            PeerState::Answering => self.free(),
            _ => {}
        }
    }

    /// The other end tells its incoming bandwidth, in bytes per second.
    fn on_bandwidth(&mut self, incoming: u32)
        ensures peer { self.new.peer ≡ on_bandwidth self.old.peer incoming }
        ensures acknowledgement_room { self.new.acknowledgement_room ≡ self.old.acknowledgement_room }
    {
        self.other_incoming = incoming;
        self.terms.window = window_of(self.limits.outgoing, incoming);
    }

    /// The other end sets the throttle's numbers.
    fn on_throttle(&mut self, interval: u32, acceleration: u32, deceleration: u32)
        ensures peer { self.new.peer ≡ on_throttle self.old.peer interval acceleration deceleration }
        ensures acknowledgement_room { self.new.acknowledgement_room ≡ self.old.acknowledgement_room }
    {
        self.outbox
            .throttle_configure(interval, acceleration, deceleration);
    }

    /// Takes a data command in that nothing stops, where something of it is kept. S11 where memory is refused, with nothing
    /// changed.
    fn on_data(&mut self, command: &Command<'_>, what: Foreseen) -> Result<(), Stop>
        requires kept { what.kept ≡ is_kept self.old.peer (view command.now) }
        requires value { IsTrue what.kept → coming.foreseen self.old.peer.inbox (view command.now) ≡ Ok what }
        ensures done { OnOk result (self.new.peer ≡ taken_in self.old.peer (view command.now)) }
        ensures refused { OnErr result (self.new.peer ≡ self.old.peer) }
        ensures memory { IfErr result (λ why. why ≡ Stop.Memory) }
        ensures kept { IfErr result (λ _. is_kept self.old.peer (view command.now) ≡ true) }
        ensures acknowledgement_room { self.new.acknowledgement_room ≡ self.old.acknowledgement_room }
    {
        if !what.kept {
            return Ok(());
        }
        self.inbox.take_in(command, what)
    }
}
