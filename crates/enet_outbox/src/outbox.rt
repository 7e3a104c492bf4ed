//! All that a peer has to send.

ghost use Rattle.std.specs.Prelude.{◌≡◌, ◌+◌, ◌/◌, ◌%◌, ◌≤◌, ◌<◌, ◌⊎◌, ◌↔◌, ◌&&◌, ◌==◌, not, nat_lt, false, [], length, IsTrue, OnOk, OnErr, IfOk, IfErr, IsErrAnd};
ghost use Rattle.enet_rtt.specs.Clock.{HappensIn};
ghost use Rattle.enet_throttle.specs.Throttle.{with_interval, limited};
ghost use Rattle.enet_sender.specs.CommandChoice.{fragment_limit};
ghost use Rattle.std.specs.List.{list_any};
ghost use Rattle.enet_fragment.specs.Cutting.{piece_length, piece_count};
ghost use Rattle.enet_sender.specs.Due.{SendingEnd};
ghost use Rattle.enet_sender.specs.Sender as sender;
ghost use Rattle.enet_senders.specs.Controlling.{is_idle};
ghost use Rattle.enet_outbox.specs.Outbox.{acknowledgement_limit, acknowledging, after_holding, after_lateness, after_match, as_control, cleared, empty_outbox, is_answer, is_control, is_crowded, is_done, has_nothing_reliable, has_waited, lateness, marked, matched_by, narrowed, prices_of, sampled, submitted, transit_of, with_control, with_unsequenced, without_controls};

use crate::allowance::Allowance;
use crate::traffic::Traffic;
use crate::unsequenced::UnsequencedQueue;
use crate::{Acknowledgement, Matched, lists};
use bytes::Bytes;
use enet_codec::{CONTROL_CHANNEL, RELIABLE, Refusal, UNSEQUENCED};
use enet_fragment::piece_length;
use enet_rtt::{Expiry, Patience, Tick};
use enet_senders::{Control, ControlChannel, Senders};
use enet_seq::after;
use enet_throttle::Throttle;
use std::alloc::Global;
use std::collections::VecDeque;
use std::marker::Model;

/// How many acknowledgements of a peer wait to be put out at most (our profile): as many as a turn of a service can take in, 256 datagrams
/// of 32 commands, and can put out.
const ACKNOWLEDGEMENT_LIMIT: usize = 8_192;

/// Whether what was sent is a server's answer to a CONNECT.
fn is_verify_connect(sent: Option<Control>) -> bool
    ensures { result ≡ is_answer (as_control sent) }
{
    match sent {
        Some(Control::VerifyConnect(_)) => true,
        _ => false,
    }
}

/// All that a peer has to send: acknowledgements, the commands of channel 0xFF, unsequenced packets, and its channels'
/// senders, with the throttle that drops unreliable and unsequenced packets. Contracts see it as a `Sending`: all that it
/// has, and for how many more acknowledgements and commands of channel 0xFF there is room.
#[derive(Drop)]
pub struct Outbox {
    pub(crate) acknowledgements: VecDeque<Acknowledgement>,
    pub(crate) control: ControlChannel,
    pub(crate) unsequenced: UnsequencedQueue,
    pub(crate) group: u16,
    pub(crate) senders: Senders,
    pub(crate) throttle: Throttle,
    pub(crate) last: Option<u8>,
    /// The payload bytes of what is in transit: sent, not acknowledged and not due to go again.
    pub(crate) transit: u32,
    /// Its prices.
    pub(crate) prices: u32,
    pub(crate) allowance: Allowance,
    /// The channel that the room in transit is kept for.
    pub(crate) kept: Option<u8>,
    /// What went and was acknowledged so far.
    pub(crate) traffic: Traffic,
    /// Whether the channels were seen to have nothing queued or unacknowledged, and nothing was submitted on one since.
    pub(crate) idle: bool,
}

impl Model for Outbox {
    ghost use Rattle.enet_outbox.specs.Outbox.{Sending};

    ghost Value = { Sending };

    ghost use Rattle.std.specs.Prelude.{◌-◌};
    ghost use Rattle.std.specs.VecDeque.{deque_len, deque_capacity};
    ghost use Rattle.std.specs.Prelude.{◌≤◌, length};
    ghost use Rattle.enet_outbox.specs.Outbox.{acknowledgement_limit};
    ghost use Rattle.enet_outbox.specs.Invariant.{KeepsOutbox, KeepsIdle};

    ghost view = { λ o. record {
      outbox = record {
        acknowledgements = o.acknowledgements.items;
        control = o.control.commands;
        unsequenced = o.unsequenced;
        group = o.group;
        senders = o.senders;
        throttle = o.throttle;
        last = o.last;
        allowance = o.allowance;
        kept = o.kept;
        traffic = o.traffic;
      };
      acknowledgement_room = deque_capacity o.acknowledgements - deque_len o.acknowledgements;
      control_room = o.control.room;
    } };

    ghost invariant = { λ o. KeepsOutbox o.transit o.prices o.senders × KeepsIdle o.idle o.senders × (length o.acknowledgements.items ≤ acknowledgement_limit) };
}

impl Outbox {
    /// So many channels with nothing to send, where `number` is the last number given before on channel 0xFF: 0 for a new
    /// connection. There is room for one command of channel 0xFF. E1 where memory is refused.
    pub fn open(
        alloc: Global,
        channels: u8,
        number: u16,
        throttle: Throttle,
    ) -> Result<Outbox, Refusal>
        ensures outbox { IfOk result (λ o. o.outbox ≡ empty_outbox channels number throttle) }
        ensures control_room { IfOk result (λ o. 1 ≤ o.control_room) }
        ensures memory { IfErr result (λ why. why ≡ Refusal.Memory) }
    {
        let control = ControlChannel::open(alloc, number)?;
        let senders = Senders::open(alloc, channels)?;
        Ok(Outbox {
            acknowledgements: VecDeque::new(alloc),
            control,
            unsequenced: UnsequencedQueue::new(alloc),
            group: 0,
            senders,
            throttle,
            last: None,
            transit: 0,
            prices: 0,
            allowance: Allowance::new(),
            kept: None,
            traffic: Traffic::new(),
            idle: false,
        })
    }

    /// How many channels there are, at most 255.
    pub fn channels(&self) -> usize
        ensures count { result ≡ length self.now.outbox.senders }
        ensures few { result ≤ 255 }
    {
        self.senders.len()
    }

    /// Submits a packet on a channel; `flags` are its flags (RELIABLE 1, UNSEQUENCED 2, UNRELIABLE_FRAGMENT 8, others are
    /// ignored) and `mtu` is the peer's, in bytes. It goes unsequenced where it asks for that, does not ask to be reliable,
    /// and has at most `mtu - 28` bytes: then it takes the next group, modulo 65536. Else it is the channel's (ENet 1.3).
    ///
    /// The body is taken, and an empty one left. E5 exactly where it would be cut into more than 16,384 pieces (our profile), then
    /// E1 where memory is refused. After either nothing has changed, and the body is still there.
    pub fn submit(
        &mut self,
        mtu: u32,
        channel: u8,
        flags: u8,
        body: &mut Bytes,
    ) -> Result<(), Refusal>
        requires mtu { (576 ≤ mtu) × (mtu ≤ 4096) }
        requires channel { channel < length self.old.outbox.senders }
        ensures submitted { OnOk result (self.new.outbox ≡ submitted self.old.outbox mtu channel (record { flags = flags; body = body.old })) }
        ensures too_large { IsErrAnd result (λ why. why ≡ Refusal.TooLarge) ↔ (fragment_limit < piece_count (length body.old) mtu) }
        ensures refused { OnErr result ((self.new ≡ self.old) × (body.new ≡ body.old)) }
        ensures taken { OnOk result (body.new ≡ []) }
        ensures only { IfErr result (λ why. (why ≡ Refusal.TooLarge) ⊎ (why ≡ Refusal.Memory)) }
        ensures acknowledgement_room { self.new.acknowledgement_room ≡ self.old.acknowledgement_room }
        ensures control_room { self.new.control_room ≡ self.old.control_room }
    {
        if !is_unsequenced(flags, body.len(), mtu) {
            self.idle = false;
            return lists::submit_on(&mut self.senders, channel, flags, body, mtu);
        }
        self.submit_unsequenced(channel, body)
    }

    /// Queues an unsequenced packet with the next group. E1 where memory is refused: nothing has changed then, and the body is
    /// still there.
    fn submit_unsequenced(&mut self, channel: u8, body: &mut Bytes) -> Result<(), Refusal>
        ensures queued { OnOk result (self.new.outbox ≡ with_unsequenced self.old.outbox channel (record { flags = 2; body = body.old })) }
        ensures refused { OnErr result ((self.new ≡ self.old) × (body.new ≡ body.old)) }
        ensures taken { OnOk result (body.new ≡ []) }
        ensures memory { IfErr result (λ why. why ≡ Refusal.Memory) }
        ensures acknowledgement_room { self.new.acknowledgement_room ≡ self.old.acknowledgement_room }
        ensures control_room { self.new.control_room ≡ self.old.control_room }
    {
        let group = after(self.group, 1);
        if !self.unsequenced.push(channel, group, body) {
            return Err(Refusal::Memory);
        }
        self.group = group;
        Ok(())
    }

    /// Makes room for one acknowledgement more. Where there is some, it takes no memory; else E1 where memory is refused, with
    /// nothing changed.
    pub fn reserve_acknowledgement(&mut self) -> Result<(), Refusal>
        ensures outbox { self.new.outbox ≡ self.old.outbox }
        ensures room { OnOk result (1 ≤ self.new.acknowledgement_room) }
        ensures grows { self.old.acknowledgement_room ≤ self.new.acknowledgement_room }
        ensures idle { 1 ≤ self.old.acknowledgement_room → self.new ≡ self.old }
        ensures full { OnErr result (self.old.acknowledgement_room ≡ 0) }
        ensures control_room { self.new.control_room ≡ self.old.control_room }
        ensures refused { OnErr result (self.new ≡ self.old) }
        ensures memory { IfErr result (λ why. why ≡ Refusal.Memory) }
    {
        if lists::make_room(&mut self.acknowledgements) {
            Ok(())
        } else {
            Err(Refusal::Memory)
        }
    }

    /// Queues an acknowledgement behind those that wait. Where as many wait as may, 8,192, it is passed over, and nothing changes (our
    /// profile). There must be room for it, so it takes no memory.
    pub fn queue_acknowledgement(&mut self, what: Acknowledgement)
        requires room { 1 ≤ self.old.acknowledgement_room }
        ensures outbox { self.new.outbox ≡ acknowledging self.old.outbox what }
        ensures room { self.old.acknowledgement_room ≤ self.new.acknowledgement_room + 1 }
        ensures control_room { self.new.control_room ≡ self.old.control_room }
    {
        if !self.is_crowded() {
            self.acknowledgements.push_back_reserved(what);
        }
    }

    /// Makes room for one command more of channel 0xFF. Where there is some, it takes no memory; else E1 where memory is
    /// refused, with nothing changed. So E1 comes only where a command of that channel is queued or unacknowledged.
    pub fn reserve_control(&mut self) -> Result<(), Refusal>
        ensures outbox { self.new.outbox ≡ self.old.outbox }
        ensures room { OnOk result (1 ≤ self.new.control_room) }
        ensures grows { self.old.control_room ≤ self.new.control_room }
        ensures idle { 1 ≤ self.old.control_room → self.new ≡ self.old }
        ensures full { OnErr result (self.old.control_room ≡ 0) }
        ensures busy { OnErr result (is_idle self.old.outbox.control ≡ false) }
        ensures acknowledgement_room { self.new.acknowledgement_room ≡ self.old.acknowledgement_room }
        ensures refused { OnErr result (self.new ≡ self.old) }
        ensures memory { IfErr result (λ why. why ≡ Refusal.Memory) }
    {
        self.control.reserve()
    }

    /// Queues a command of channel 0xFF with the next number. There must be room for it, so it takes no memory.
    pub fn queue_control(&mut self, what: Control)
        requires { 1 ≤ self.old.control_room }
        ensures outbox { self.new.outbox ≡ with_control self.old.outbox what }
        ensures room { self.old.control_room ≤ self.new.control_room + 1 }
        ensures acknowledgement_room { self.new.acknowledgement_room ≡ self.old.acknowledgement_room }
    {
        self.control.queue(what);
    }

    /// An acknowledgement comes that repeats a sent time, in milliseconds modulo 65,536: the one sent command of this channel and number
    /// goes, where it was sent at that time, and the answer says what it was. `Nothing`, with all as it was, where no sent command has
    /// them, or that one wasn't sent at the time (our profile).
    pub fn acknowledge(&mut self, channel: u8, number: u16, time: u16) -> Matched
        ensures found { result ≡ matched_by self.old.outbox channel number time }
        ensures outbox { self.new.outbox ≡ after_match result self.old.outbox channel number time }
        ensures acknowledgement_room { self.new.acknowledgement_room ≡ self.old.acknowledgement_room }
        ensures control_room { self.old.control_room ≤ self.new.control_room }
    {
        if channel != CONTROL_CHANNEL {
            return self.acknowledge_data(channel, number, time);
        }
        match self.control.acknowledge(number, time) {
            None => Matched::Nothing,
            Some(what) => Matched::Control(what),
        }
    }

    /// Whether an acknowledgement that repeats this sent time, in milliseconds modulo 65,536, matches a server's answer to a CONNECT.
    pub fn is_answer(&self, channel: u8, number: u16, time: u16) -> bool
        ensures { result ≡ is_answer (matched_by self.now.outbox channel number time) }
    {
        if channel != CONTROL_CHANNEL {
            return false;
        }
        is_verify_connect(self.control.matching(number, time))
    }

    /// Whether it matches any command of channel 0xFF.
    pub fn matches_control(&self, channel: u8, number: u16, time: u16) -> bool
        ensures { result ≡ is_control (matched_by self.now.outbox channel number time) }
    {
        if channel != CONTROL_CHANNEL {
            return false;
        }
        self.control.matching(number, time).is_some()
    }

    /// Drops the commands of channel 0xFF that are queued or sent. Then there is room for one.
    pub fn drop_controls(&mut self)
        ensures outbox { self.new.outbox ≡ without_controls self.old.outbox }
        ensures acknowledgement_room { self.new.acknowledgement_room ≡ self.old.acknowledgement_room }
        ensures control_room { 1 ≤ self.new.control_room }
    {
        self.control.clear();
    }

    /// The same of a data command. The allowance grows by what is acknowledged, which is counted, and the room is kept for its channel no
    /// longer where nothing of it may wait for room.
    fn acknowledge_data(&mut self, channel: u8, number: u16, time: u16) -> Matched
        requires { channel < 255 }
        ensures found { result ≡ matched_by self.old.outbox channel number time }
        ensures outbox { self.new.outbox ≡ after_match result self.old.outbox channel number time }
        ensures acknowledgement_room { self.new.acknowledgement_room ≡ self.old.acknowledgement_room }
        ensures control_room { self.new.control_room ≡ self.old.control_room }
    {
        self.idle = false;
        let (transit, prices) = (&mut self.transit, &mut self.prices);
        match lists::acknowledge_on(&mut self.senders, transit, prices, channel, number, time) {
            None => Matched::Nothing,
            Some(told) => {
                self.allowance.acknowledge(told);
                self.kept = lists::still_kept(&self.senders, self.kept, channel);
                self.traffic = self.traffic.with_acknowledged();
                Matched::Data
            }
        }
    }

    /// Takes a measured round trip into the throttle and into the allowance: `measured` at the time `now`, with the estimated round trip
    /// and its variance as they stand after it, in milliseconds.
    pub fn sample(&mut self, now: u32, measured: u32, round_trip: u32, variance: u32)
        ensures outbox { self.new.outbox ≡ sampled self.old.outbox now measured round_trip variance }
        ensures acknowledgement_room { self.new.acknowledgement_room ≡ self.old.acknowledgement_room }
        ensures control_room { self.new.control_room ≡ self.old.control_room }
    {
        self.throttle.sample(now, measured, round_trip, variance);
        self.allowance.sample(measured, round_trip);
    }

    /// Sets the throttle's interval in milliseconds, its acceleration and its deceleration, and nothing else.
    pub fn throttle_configure(&mut self, interval: u32, acceleration: u32, deceleration: u32)
        ensures outbox { self.new.outbox ≡ record self.old.outbox { throttle = with_interval self.old.outbox.throttle interval acceleration deceleration } }
        ensures acknowledgement_room { self.new.acknowledgement_room ≡ self.old.acknowledgement_room }
        ensures control_room { self.new.control_room ≡ self.old.control_room }
    {
        self.throttle
            .configure(interval, acceleration, deceleration);
    }

    /// Sets the throttle's limit, where more than 32 counts as 32, and cuts the throttle to it.
    pub fn throttle_limit(&mut self, limit: u32)
        ensures outbox { self.new.outbox ≡ record self.old.outbox { throttle = limited self.old.outbox.throttle limit } }
        ensures acknowledgement_room { self.new.acknowledgement_room ≡ self.old.acknowledgement_room }
        ensures control_room { self.new.control_room ≡ self.old.control_room }
    {
        self.throttle.set_limit(limit);
    }

    /// What the moment `tick` brings: `End` where a sent command of any channel has waited out its timeout and its peer, heard
    /// last at `tick.heard`, has timed out over it by `patience`, which changes nothing; else `Resend` where a sent command has
    /// waited out its timeout: each such one is then due to go again, and has its next timeout (`Transmission::mark`), and the allowance
    /// shrinks by twice the price of those data commands since whose last send the peer was heard; else `No` (our profile).
    pub fn late(&mut self, tick: Tick, patience: &Patience) -> Expiry
        ensures found { result ≡ lateness self.old.outbox tick.now patience.now tick.heard }
        ensures after { self.new.outbox ≡ after_lateness result self.old.outbox tick }
        ensures acknowledgement_room { self.new.acknowledgement_room ≡ self.old.acknowledgement_room }
        ensures control_room { self.new.control_room ≡ self.old.control_room }
    {
        let expiry = self.lateness(tick.now, patience, tick.heard);
        if expiry == Expiry::Resend {
            self.mark(tick);
        }
        expiry
    }

    /// What the moment `tick` brings, as `late` has it, to a peer that may put nothing out: where a sent command has waited out its
    /// timeout, those of channel 0xFF count as tried, though they don't go, and wait longer from then on (our profile).
    pub fn hold_back(&mut self, tick: Tick, patience: &Patience) -> Expiry
        ensures found { result ≡ lateness self.old.outbox tick.now patience.now tick.heard }
        ensures after { self.new.outbox ≡ after_holding result self.old.outbox tick }
        ensures acknowledgement_room { self.new.acknowledgement_room ≡ self.old.acknowledgement_room }
        ensures control_room { self.new.control_room ≡ self.old.control_room }
    {
        let expiry = self.lateness(tick.now, patience, tick.heard);
        if expiry == Expiry::Resend {
            self.control.hold_back(tick);
        }
        expiry
    }

    /// Whether at the moment `now` so many milliseconds have passed since a sent command of channel 0xFF first went.
    pub fn has_waited(&self, now: u32, ms: u32) -> bool
        ensures { result ≡ has_waited self.now.outbox ms now }
    {
        self.control.has_waited(now, ms)
    }

    /// In how many milliseconds after the moment `now` so many have passed since a sent command of channel 0xFF first went: 0 where they
    /// have, and 4,294,967,295 where nothing is sent there.
    pub fn next_waited(&self, now: u32, ms: u32) -> u32
        ensures { HappensIn (has_waited self.now.outbox ms) now result }
    {
        self.control.next_waited(now, ms)
    }

    /// What a moment brings. The channels are asked for an end only where one of their commands is late.
    fn lateness(&mut self, now: u32, patience: &Patience, heard: u32) -> Expiry
        ensures found { result ≡ lateness self.old.outbox now patience.now heard }
        ensures same { self.new ≡ self.old }
    {
        let late = self.any_late(now);
        if self.control.ends(now, patience, heard)
            || (late && self.any_ends(now, patience, heard))
        {
            return Expiry::End;
        }
        if late || self.control.is_late(now) {
            Expiry::Resend
        } else {
            Expiry::No
        }
    }

    /// Whether the peer, heard last at `heard`, has timed out over a sent command of a channel.
    fn any_ends(&self, now: u32, patience: &Patience, heard: u32) -> bool
        ensures { result ≡ list_any (λ (s : SendingEnd). list_any (sender.ends now patience.now heard) s.sender.sent) self.now.outbox.senders }
    {
        !self.idle && self.senders.any_ends(now, patience, heard)
    }

    /// Whether a sent command of a channel is late.
    fn any_late(&mut self, now: u32) -> bool
        ensures found { result ≡ list_any (λ (s : SendingEnd). list_any (sender.is_late now) s.sender.sent) self.old.outbox.senders }
        ensures same { self.new ≡ self.old }
    {
        !self.idle && self.senders.any_late(now)
    }

    /// Marks all that is late as due to go again.
    fn mark(&mut self, tick: Tick)
        ensures outbox { self.new.outbox ≡ marked self.old.outbox tick }
        ensures acknowledgement_room { self.new.acknowledgement_room ≡ self.old.acknowledgement_room }
        ensures control_room { self.new.control_room ≡ self.old.control_room }
    {
        self.control.mark(tick);
        self.idle = false;
        let remains = lists::mark(&mut self.senders, self.transit, self.prices, tick);
        self.transit = remains.bytes;
        self.prices = remains.prices;
        self.allowance.lose(remains.lost);
    }

    /// Whether no reliable command is queued or unacknowledged, on any channel. Then there is room for one command of
    /// channel 0xFF.
    pub fn has_nothing_reliable(&self) -> bool
        ensures reliable { result ≡ has_nothing_reliable self.now.outbox }
        ensures room { IsTrue result → 1 ≤ self.now.control_room }
    {
        self.control.is_idle() && (self.idle || self.senders.have_no_reliable())
    }

    /// Whether no reliable command is queued or unacknowledged, and no packet is queued. Then there is room for one command
    /// of channel 0xFF.
    pub fn is_done(&self) -> bool
        ensures done { result ≡ is_done self.now.outbox }
        ensures room { IsTrue result → 1 ≤ self.now.control_room }
    {
        self.has_nothing_reliable() && self.senders.have_no_packet() && self.unsequenced.is_empty()
    }

    /// Whether an acknowledgement waits to be put out.
    pub fn has_acknowledgements(&self) -> bool
        ensures { result ≡ nat_lt 0 (length self.now.outbox.acknowledgements) }
    {
        !self.acknowledgements.is_empty()
    }

    /// Whether as many acknowledgements wait to be put out as may: 8,192. More never wait (our profile).
    pub fn is_crowded(&self) -> bool
        ensures crowded { result ≡ is_crowded self.now.outbox }
        ensures few { length self.now.outbox.acknowledgements ≤ acknowledgement_limit }
    {
        self.acknowledgements.len() >= ACKNOWLEDGEMENT_LIMIT
    }

    /// How many acknowledgements wait to be put out, at most 8,192 (our profile).
    pub fn acknowledgements(&self) -> usize
        ensures count { result ≡ length self.now.outbox.acknowledgements }
        ensures few { result ≤ acknowledgement_limit }
    {
        self.acknowledgements.len()
    }

    /// Whether a command of channel 0xFF is queued.
    pub fn has_controls(&self) -> bool
        ensures { result ≡ nat_lt 0 (length self.now.outbox.control.queued) }
    {
        self.control.has_queued()
    }

    /// Drops all that is queued or sent, acknowledgements too. Numbers and groups go on from where they stand. Then nothing
    /// is in transit, and there is room for one command of channel 0xFF.
    pub fn clear(&mut self)
        ensures outbox { self.new.outbox ≡ cleared self.old.outbox }
        ensures transit { transit_of self.new.outbox ≡ 0 }
        ensures prices { prices_of self.new.outbox ≡ 0 }
        ensures acknowledgement_room { self.old.acknowledgement_room + length self.old.outbox.acknowledgements ≤ self.new.acknowledgement_room }
        ensures control_room { 1 ≤ self.new.control_room }
    {
        self.acknowledgements.clear();
        self.control.clear();
        self.unsequenced.clear();
        self.idle = false;
        lists::clear(&mut self.senders);
        self.transit = 0;
        self.prices = 0;
        self.kept = None;
    }

    /// Keeps so many channels, the first ones; nothing may be in transit. The room is kept for none then.
    pub fn narrow(&mut self, channels: u8)
        requires { prices_of self.old.outbox ≡ 0 }
        ensures outbox { self.new.outbox ≡ narrowed self.old.outbox channels }
        ensures acknowledgement_room { self.new.acknowledgement_room ≡ self.old.acknowledgement_room }
        ensures control_room { self.new.control_room ≡ self.old.control_room }
    {
        self.idle = false;
        self.kept = None;
        self.senders.narrow(usize::from(channels));
    }
}

/// Whether a packet of these flags and so many bytes goes unsequenced.
fn is_unsequenced(flags: u8, len: usize, mtu: u32) -> bool
    requires { 576 ≤ mtu }
    ensures { result ≡ (flags / 2 % 2 == 1 && not (flags % 2 == 1) && not (nat_lt (piece_length mtu) len)) }
{
    let asks_for_unsequenced = flags & UNSEQUENCED != 0;
    let asks_for_reliable = flags & RELIABLE != 0;
    let is_long = len > piece_length(mtu) as usize;
    asks_for_unsequenced && !asks_for_reliable && !is_long
}
