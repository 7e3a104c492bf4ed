//! What a peer has to send is packed into a datagram, source by source: acknowledgements, the commands of channel 0xFF,
//! unsequenced packets, and the channels (our profile). The commands stand in the buffer from 4 on, and the header is
//! written before them in the end.
//!
//! A label names its loop for the proofs, here and in the other crates: its goals are called by it (`turns-preserved`), also
//! if no `break` or `continue` names it.

ghost use Rattle.std.specs.Prelude.{◌≡◌, ℕ, true, ◌||◌, IsTrue, ◌≤◌, ◌+◌, ◌-◌, ◌%◌, ◌<◌, ◌^◌, ◌++◌, length, take, slice_get, slice_set, Some, slice_range, unwrap_or};
ghost use Rattle.std.specs.Option.{option_map};
ghost use Rattle.std.specs.VecDeque.{deque_len, deque_capacity};
ghost use Rattle.enet_codec.specs.Header.{header_text};
ghost use Rattle.enet_sender.specs.Due.{SendingEnd};
ghost use Rattle.enet_codec.specs.Message.{view, payload_of};
ghost use Rattle.enet_outbox.specs.Emission.{acknowledgement_of, is_barred, unsequenced_of, filled, Emits};
ghost use Rattle.enet_outbox.specs.Invariant.{HasNothing};
ghost use Rattle.enet_outbox.specs.Resting.{IsAtRest};
ghost use Rattle.enet_senders.specs.Senders.{IsStill};
ghost use Rattle.enet_outbox.specs.Private.Packing.{counted_by, header_asking, is_reliable, kept_after, Leads, taken_in, place_in, asked_for, refuses, told, GoesIn, PacksAcknowledgements, PacksControls, PacksUnsequenced, PacksChannel, PacksChannels};

use crate::unsequenced::UnsequencedQueue;
use crate::{Acknowledgement, Destination, Outbox, Pace, Traffic, Unsequenced, lists};
use enet_codec::{Command, Head, Header, NO_PEER, write_acknowledge, write_command, write_header};
use enet_rtt::told_time;
use enet_sender::{Due, Kind, Occasion};
use enet_senders::{ControlChannel, Senders, Written};
use enet_throttle::Throttle;
use std::collections::VecDeque;

/// Where a datagram stands that is being filled.
#[derive(Clone, Copy)]
pub struct Progress {
    /// Where the next command goes.
    pub at: usize,
    /// How many more commands the datagram takes.
    pub commands: usize,
    /// Whether a command did not fit.
    pub closed: bool,
    /// Whether a command asks for an acknowledgement.
    pub asks: bool,
}

/// A turn of a channel.
#[derive(Clone, Copy)]
struct Turn {
    /// How many turns there were before it.
    turn: usize,
    /// Whose turn it is.
    channel: usize,
}

/// What the channels share.
#[derive(Clone, Copy)]
pub struct Flow {
    pub throttle: Throttle,
    /// The payload bytes of what is in transit.
    pub transit: u32,
    /// Its prices.
    pub prices: u32,
    /// How much these may be together, the mtu apart.
    pub dearest: u32,
    /// The channel that the room in transit is kept for.
    pub kept: Option<u8>,
    /// The channel of the last data command that a datagram had.
    pub last: Option<u8>,
    /// What went so far.
    pub traffic: Traffic,
}

impl Progress {
    /// Where the next command goes. Where the datagram takes no more, it is the end of the buffer, where none fits.
    fn place(self, buf: &[u8]) -> usize
        ensures { result ≡ place_in self buf.now }
    {
        if self.commands == 0 {
            buf.len()
        } else {
            self.at
        }
    }

    /// The same datagram, into which a command did not fit.
    fn shut(self) -> Progress
        ensures { result ≡ record self { closed = true } }
    {
        Progress {
            closed: true,
            ..self
        }
    }

    /// Writes a command where the datagram takes it; None where it does not, with nothing changed.
    fn put(self, buf: &mut [u8], command: &Command<'_>) -> Option<Progress>
        requires { length (payload_of (view command.now).body) < 2 ^ 16 }
        ensures { GoesIn (view command.now) self result buf.old buf.new }
    {
        if self.commands == 0 {
            return None;
        }
        let past = write_command(buf, self.at, command)?;
        Some(self.with(buf, past))
    }

    /// Writes an acknowledgement (ENet 1.3) where the datagram takes it; None where it does not, with nothing changed.
    fn put_acknowledgement(self, buf: &mut [u8], what: Acknowledgement) -> Option<Progress>
        ensures { GoesIn (acknowledgement_of what) self result buf.old buf.new }
    {
        if self.commands == 0 {
            return None;
        }
        let head = Head {
            acknowledge: false,
            unsequenced: false,
            channel: what.channel,
            number: what.number,
        };
        let past = write_acknowledge(buf, self.at, head, what.number, what.time)?;
        Some(self.with(buf, past))
    }

    /// The datagram with the command that was written up to `past`. The first bit of a command asks for an acknowledgement.
    fn with(self, buf: &[u8], past: usize) -> Progress
        requires within { self.at < length buf.now }
        requires more { 0 < self.commands }
        ensures { result ≡ taken_in self past buf.now }
    {
        Progress {
            at: past,
            commands: self.commands - 1,
            closed: false,
            asks: self.asks || buf[self.at] >= 0x80,
        }
    }
}

impl Unsequenced {
    /// The command on the wire (ENet 1.3).
    fn command(&self) -> Command<'_>
        ensures { view result ≡ unsequenced_of self.now }
    {
        let head = Head {
            acknowledge: false,
            unsequenced: true,
            channel: self.channel,
            number: 0,
        };
        Command::SendUnsequenced {
            head,
            group: self.group,
            payload: self.body.as_slice(),
        }
    }
}

fn first(acknowledgements: &VecDeque<Acknowledgement>) -> Option<Acknowledgement>
    ensures { result ≡ slice_get acknowledgements.now.items 0 }
{
    acknowledgements.front().copied()
}

/// Puts the acknowledgements into the datagram in the order of their arrival, as far as they fit.
pub(crate) fn pack_acknowledgements(
    acknowledgements: &mut VecDeque<Acknowledgement>,
    buf: &mut [u8],
    from: Progress,
) -> Progress
    ensures packs { PacksAcknowledgements acknowledgements.old.items acknowledgements.new.items (record { progress = from; buf = buf.old }) (record { progress = result; buf = buf.new }) }
    ensures room { deque_capacity acknowledgements.old - deque_len acknowledgements.old ≤ deque_capacity acknowledgements.new - deque_len acknowledgements.new }
    ensures fewer { length acknowledgements.new.items ≤ length acknowledgements.old.items }
{
    let mut progress = from;
    'acknowledgements: while let Some(acknowledgement) = first(acknowledgements) {
        let Some(next) = progress.put_acknowledgement(buf, acknowledgement) else {
            return progress.shut();
        };
        progress = next;
        let _ = acknowledgements.pop_front();
    }
    progress
}

/// Writes an unsequenced packet where the datagram takes it; None where it does not, with nothing changed.
fn put_packet(packet: &Unsequenced, buf: &mut [u8], from: Progress) -> Option<Progress>
    requires { length buf.old ≤ 4096 }
    ensures { GoesIn (unsequenced_of packet.now) from result buf.old buf.new }
{
    if buf.len() < packet.body.len() {
        return None;
    }
    from.put(buf, &packet.command())
}

/// Puts the commands of channel 0xFF into the datagram that are due to go again or queued, as far as they fit. A closed
/// datagram stays as it is.
pub(crate) fn pack_controls(
    control: &mut ControlChannel,
    pace: Pace,
    buf: &mut [u8],
    from: Progress,
) -> Progress
    ensures packs { PacksControls pace control.old.commands control.new.commands (record { progress = from; buf = buf.old }) (record { progress = result; buf = buf.new }) }
    ensures room { control.old.room ≤ control.new.room }
{
    if from.closed {
        return from;
    }
    let mut progress = from;
    'commands: loop {
        let place = progress.place(buf);
        match control.next_due(pace.now, pace.timeout, buf, place) {
            Written::Sent { past } => progress = progress.with(buf, past),
            Written::NoRoom => return progress.shut(),
            Written::Nothing => return progress,
        }
    }
}

/// Puts the unsequenced packets into the datagram in the order of their submission, as far as they fit, and tells the channel
/// of the last one. The throttle is asked of each that fits, and may drop it. A closed datagram stays as it is.
pub(crate) fn pack_unsequenced(
    unsequenced: &mut UnsequencedQueue,
    throttle: &mut Throttle,
    last: &mut Option<u8>,
    buf: &mut [u8],
    from: Progress,
) -> Progress
    requires { length buf.old ≤ 4096 }
    ensures { PacksUnsequenced (record { packets = unsequenced.old; throttle = throttle.old; last = last.old })
        (record { packets = unsequenced.new; throttle = throttle.new; last = last.new }) (record { progress = from; buf = buf.old }) (record { progress = result; buf = buf.new }) }
{
    if from.closed {
        return from;
    }
    let mut progress = from;
    'packets: while let Some(packet) = unsequenced.front() {
        let Some(next) = put_packet(packet, buf, progress) else {
            return progress.shut();
        };
        if throttle.admits() {
            *last = Some(packet.channel);
            progress = next;
        }
        unsequenced.drop_first();
    }
    unsequenced.give_unused_back();
    progress
}

/// Asks the throttle of the first command of an unreliable packet, and says whether the packet is dropped.
fn refuses(throttle: &mut Throttle, kind: Kind) -> bool
    ensures answer { result ≡ refuses kind throttle.old }
    ensures asked { throttle.new ≡ asked_for kind throttle.old }
{
    match kind {
        Kind::Begins => !throttle.admits(),
        Kind::Reliable | Kind::More => false,
    }
}

/// Whether the room in transit is kept for another channel.
fn is_barred(kept: Option<u8>, channel: u8) -> bool
    ensures { result ≡ is_barred kept channel }
{
    match kept {
        None => false,
        Some(owner) => owner != channel,
    }
}

/// For which channel the room is kept after a turn of this one: if a reliable command of it went, for this one no longer; else for this one,
/// if it wants the room.
fn kept_after(went: bool, wants: bool, kept: Option<u8>, channel: u8) -> Option<u8>
    ensures { result ≡ kept_after went wants kept channel }
{
    if went {
        lists::released(kept, channel)
    } else if wants {
        Some(channel)
    } else {
        kept
    }
}

/// Whether a reliable command of a channel went in its turn, once one more of it goes.
fn went_with(kind: Kind, went: bool) -> bool
    ensures { result ≡ (is_reliable kind || went) }
{
    match kind {
        Kind::Reliable => true,
        Kind::Begins | Kind::More => went,
    }
}

/// The counts once a command went, which count those that are reliable.
fn traffic_with(traffic: Traffic, kind: Kind, again: bool) -> Traffic
    ensures { result ≡ counted_by kind traffic again }
{
    match kind {
        Kind::Reliable => traffic.with_one_sent(again),
        Kind::Begins | Kind::More => traffic,
    }
}

/// What the sender of a channel is told when it is asked what is due.
fn occasion_of(flow: &Flow, channel: u8, pace: Pace) -> Occasion
    ensures { result ≡ told pace channel flow.now }
{
    Occasion {
        now: pace.now,
        timeout: pace.timeout,
        transit: flow.transit,
        most: flow.throttle.transit_limit(pace.window, pace.mtu),
        prices: flow.prices,
        dearest: flow.dearest.max(pace.mtu),
        barred: is_barred(flow.kept, channel),
    }
}

/// Puts what is due on a channel into the datagram, as far as it fits. The throttle is asked of the first command of each
/// unreliable packet that fits, and may drop the packet. Where the channel wants the room in transit and nothing reliable of it went, the
/// room is kept for it; once something reliable of it goes, no longer (our profile).
fn pack_channel(
    senders: &mut Senders,
    flow: &mut Flow,
    channel: u8,
    pace: Pace,
    buf: &mut [u8],
    from: Progress,
) -> Progress
    requires { channel < length senders.old }
    ensures { (s : SendingEnd) → slice_get senders.old channel ≡ Some s → (t : SendingEnd) × ((senders.new ≡ slice_set senders.old channel t)
        × PacksChannel pace (record { channel = channel; sender = s; flow = flow.old }) (record { channel = channel; sender = t; flow = flow.new })
        (record { progress = from; buf = buf.old }) (record { progress = result; buf = buf.new })) }
{
    let mut progress = from;
    let mut went = false;
    'commands: loop {
        let place = progress.place(buf);
        let occasion = occasion_of(flow, channel, pace);
        match senders.next_due(channel, occasion, buf, place) {
            Due::Sent {
                past,
                added,
                price,
                kind,
                again,
            } => {
                if refuses(&mut flow.throttle, kind) {
                    senders.skip(channel);
                } else {
                    flow.transit += added;
                    flow.prices += price;
                    flow.last = Some(channel);
                    flow.traffic = traffic_with(flow.traffic, kind, again);
                    went = went_with(kind, went);
                    progress = progress.with(buf, past);
                }
            }
            Due::NoRoom => {
                flow.kept = kept_after(went, false, flow.kept, channel);
                return progress.shut();
            }
            Due::Full => {
                flow.kept = kept_after(went, true, flow.kept, channel);
                return progress;
            }
            Due::Nothing => {
                flow.kept = kept_after(went, false, flow.kept, channel);
                return progress;
            }
        }
    }
}

/// Whether what is in transit is so much that a command of the mtu may find no room.
fn is_nearly_full(occasion: Occasion, mtu: u32) -> bool {
    u64::from(occasion.transit) + u64::from(mtu) > u64::from(occasion.most)
        || u64::from(occasion.prices) + u64::from(mtu) > u64::from(occasion.dearest)
}

/// Puts what is due on a channel into the datagram as `pack_channel` does. Where what is in transit is nearly as much as it may be, a channel
/// that surely has to wait is passed over.
fn pack_turn(
    senders: &mut Senders,
    flow: &mut Flow,
    channel: u8,
    pace: Pace,
    buf: &mut [u8],
    progress: &mut Progress,
)
    requires { channel < length senders.old }
    ensures { (s : SendingEnd) → slice_get senders.old channel ≡ Some s → (t : SendingEnd) × ((senders.new ≡ slice_set senders.old channel t)
        × PacksChannel pace (record { channel = channel; sender = s; flow = flow.old }) (record { channel = channel; sender = t; flow = flow.new })
        (record { progress = progress.old; buf = buf.old }) (record { progress = progress.new; buf = buf.new })) }
{
    let occasion = occasion_of(flow, channel, pace);
    if is_nearly_full(occasion, pace.mtu) && senders.has_to_wait(channel, occasion) {
        return;
    }
    *progress = pack_channel(senders, flow, channel, pace, buf, *progress);
}

/// The first turn from this one on whose channel may have something that goes, where the channel `first` has turn 0; where there is
/// none, one past the last.
fn next_turn(senders: &Senders, first: usize, turn: usize) -> Turn
    requires first { first ≤ 256 }
    requires turn { turn ≤ length senders.now }
    requires few { length senders.now ≤ 255 }
    ensures later { turn ≤ result.turn }
    ensures within { result.turn ≤ length senders.now }
    ensures channel { result.turn < length senders.now → result.channel ≡ (first + result.turn) % length senders.now }
    ensures low { result.channel ≤ 255 }
    ensures still { (k : ℕ) (e : SendingEnd) → turn ≤ k → k < result.turn → slice_get senders.now ((first + k) % length senders.now) ≡ Some e → IsStill e.sender }
{
    let channels = senders.len();
    let mut next = turn;
    'turns: while next < channels {
        let channel = (first + next) % channels;
        let ready = senders.next_ready(channel).min(channels);
        if ready == channel {
            return Turn {
                turn: next,
                channel,
            };
        }
        next = channels.min(next + (ready - channel));
    }
    Turn {
        turn: next,
        channel: 0,
    }
}

/// Puts what is due on the channels into the datagram, cyclically from the channel `first` on, as far as it fits. A closed
/// datagram stays as it is. Channels that surely have nothing are passed over.
pub(crate) fn pack_channels(
    senders: &mut Senders,
    flow: &mut Flow,
    first: usize,
    pace: Pace,
    buf: &mut [u8],
    from: Progress,
) -> Progress
    requires few { length senders.old ≤ 255 }
    requires first { first ≤ 256 }
    ensures packs { PacksChannels pace (record { first = first; senders = senders.old; flow = flow.old }) (record { first = first; senders = senders.new; flow = flow.new })
        (record { progress = from; buf = buf.old }) (record { progress = result; buf = buf.new }) }
    ensures kept { length senders.new ≡ length senders.old }
{
    let channels = senders.len();
    let mut progress = from;
    let mut next = next_turn(senders, first, 0);
    'turns: while next.turn < channels {
        if progress.closed {
            return progress;
        }
        pack_turn(senders, flow, next.channel as u8, pace, buf, &mut progress);
        next = next_turn(senders, first, next.turn + 1);
    }
    progress
}

/// The channel after the last one that had a data command.
fn first_channel(last: Option<u8>) -> usize
    ensures value { result ≡ unwrap_or (option_map (λ channel. channel + 1) last) 0 }
    ensures bound { result ≤ 256 }
{
    match last {
        Some(channel) => usize::from(channel) + 1,
        None => 0,
    }
}

/// The header of a datagram. The sent time stands exactly where a command asks for an acknowledgement, and the session is 0
/// while the other's slot is not known (ENet 1.3).
fn header_of(now: u32, to: Destination, asks: bool) -> Header
    ensures { result ≡ header_asking now to asks }
{
    Header {
        peer: to.slot,
        session: if to.slot % 4096 == NO_PEER {
            0
        } else {
            to.session
        },
        compressed: false,
        sent: if asks {
            Some(told_time(now, to.offset))
        } else {
            None
        },
    }
}

/// Writes the header before the commands, which stand from 4 to `at`, and gives the datagram's length. Without a sent time
/// the commands move two bytes to the front.
pub(crate) fn finish(buf: &mut [u8], at: usize, header: &Header) -> usize
    requires after_header { 4 ≤ at }
    requires within { at ≤ length buf.old }
    ensures text { take result buf.new ≡ header_text header.now ++ slice_range buf.old 4 at }
    ensures ends { result ≡ length (header_text header.now) + (at - 4) }
{
    match header.sent {
        Some(_) => {
            let _ = write_header(buf, 0, header);
            at
        }
        None => {
            buf.copy_within(4..at, 2);
            let _ = write_header(buf, 0, header);
            at - 2
        }
    }
}

impl Outbox {
    /// Puts all that may go now into a datagram of `pace.mtu` bytes, without its header.
    fn pack(&mut self, pace: Pace, buf: &mut [u8]) -> Progress
        requires long { 4 ≤ pace.mtu }
        requires short { pace.mtu ≤ 4096 }
        requires whole { length buf.old ≡ pace.mtu }
        ensures leads { Leads (filled pace self.old.outbox) self.new.outbox result buf.new }
        ensures acknowledgement_room { self.old.acknowledgement_room ≤ self.new.acknowledgement_room }
        ensures control_room { self.old.control_room ≤ self.new.control_room }
    {
        let first = first_channel(self.last);
        let start = Progress {
            at: 4,
            commands: 32,
            closed: false,
            asks: false,
        };
        let acknowledged = pack_acknowledgements(&mut self.acknowledgements, buf, start);
        let controlled = pack_controls(&mut self.control, pace, buf, acknowledged);
        let unsequenced = pack_unsequenced(
            &mut self.unsequenced,
            &mut self.throttle,
            &mut self.last,
            buf,
            controlled,
        );
        let mut flow = Flow {
            throttle: self.throttle,
            transit: self.transit,
            prices: self.prices,
            dearest: self.allowance.limit(),
            kept: self.kept,
            last: self.last,
            traffic: self.traffic,
        };
        let sent = pack_channels(&mut self.senders, &mut flow, first, pace, buf, unsequenced);
        self.idle = false;
        self.throttle = flow.throttle;
        self.transit = flow.transit;
        self.prices = flow.prices;
        self.kept = flow.kept;
        self.last = flow.last;
        self.traffic = flow.traffic;
        sent
    }

    /// Writes the next datagram over the whole of the buffer, which has `pace.mtu` bytes.
    fn emit_whole(&mut self, pace: Pace, to: Destination, buf: &mut [u8]) -> Option<usize>
        requires long { 4 ≤ pace.mtu }
        requires short { pace.mtu ≤ 4096 }
        requires whole { length buf.old ≡ pace.mtu }
        ensures emits { Emits pace to self.old.outbox result buf.new }
        ensures left { self.new.outbox ≡ (filled pace self.old.outbox).outbox }
        ensures acknowledgement_room { self.old.acknowledgement_room ≤ self.new.acknowledgement_room }
        ensures control_room { self.old.control_room ≤ self.new.control_room }
    {
        let progress = self.pack(pace, buf);
        if progress.at == 4 {
            return None;
        }
        let header = header_of(pace.now, to, progress.asks);
        Some(finish(buf, progress.at, &header))
    }

    /// Writes the next datagram at the front of the buffer and gives its length; None where no command goes. It has at most
    /// `pace.mtu` bytes, 576 to 4,096, and at most 32 commands: first the acknowledgements in the order of their arrival, then
    /// the commands of channel 0xFF, then the unsequenced packets as submitted, then the channels, cyclically from the one
    /// after the last that had a data command in an earlier datagram. On a channel first goes what is due to go again, then
    /// what is queued. Nothing goes behind the first command that does not fit: that one waits for a later datagram (our
    /// profile).
    ///
    /// Where what is in transit leaves no room for a command of a channel, the room is kept for that channel if it is kept for none yet, nothing
    /// reliable of the channel went in this datagram, and the command is due to go again or nothing of the channel is sent and
    /// unacknowledged. Then no reliable command of another channel goes for the first time, in this datagram or a later one, until a
    /// reliable command of that channel goes, or an acknowledgement leaves nothing of it that may wait for room (our profile).
    ///
    /// The throttle is asked of each unsequenced packet that fits, and of the first command of each unreliable packet that
    /// fits; it may drop the packet. A drop is no command: also where the answer is None the outbox may have changed. The
    /// header has the sent time exactly where a command asks for an acknowledgement, and session 0 while the other's slot is
    /// not known (ENet 1.3). Behind the datagram anything may stand in the buffer. It takes no memory.
    pub fn emit(&mut self, pace: Pace, to: Destination, buf: &mut [u8; 4096]) -> Option<usize>
        requires { (576 ≤ pace.mtu) × (pace.mtu ≤ 4096) }
        ensures emits { Emits pace to self.old.outbox result buf.new }
        ensures left { self.new.outbox ≡ (filled pace self.old.outbox).outbox }
        ensures acknowledgement_room { self.old.acknowledgement_room ≤ self.new.acknowledgement_room }
        ensures control_room { self.old.control_room ≤ self.new.control_room }
    {
        if self.has_nothing() {
            return None;
        }
        if self.is_at_rest() {
            self.look_for_idle();
            return None;
        }
        let len = self.emit_whole(pace, to, &mut buf[..pace.mtu as usize]);
        if len.is_none() {
            self.look_for_idle();
        }
        len
    }

    /// Whether there is surely nothing queued and nothing unacknowledged, on any channel. Where it answers true, `emit` puts nothing
    /// out and changes nothing; it may also answer false where nothing is left.
    pub fn has_nothing(&self) -> bool
        ensures { IsTrue result → HasNothing self.now.outbox }
    {
        self.idle
            && self.acknowledgements.is_empty()
            && self.unsequenced.is_empty()
            && self.control.is_idle()
    }

    /// Whether there is surely nothing that goes before a call or a moment: no acknowledgement, nothing unsequenced, and on no channel
    /// anything queued or due to go again. What is only unacknowledged may be there. Where it answers true, `emit` puts nothing out
    /// and changes nothing; it may also answer false where nothing goes.
    pub fn is_at_rest(&self) -> bool
        ensures { IsTrue result → IsAtRest self.now.outbox }
    {
        self.acknowledgements.is_empty()
            && self.unsequenced.is_empty()
            && self.senders.next_ready(0) >= self.senders.len()
            && self.control.is_at_rest()
    }

    /// Looks whether the channels have nothing queued or unacknowledged.
    fn look_for_idle(&mut self)
        ensures { self.new ≡ self.old }
    {
        self.idle = self.transit == 0
            && self.senders.have_no_packet()
            && self.senders.have_no_reliable();
    }
}
