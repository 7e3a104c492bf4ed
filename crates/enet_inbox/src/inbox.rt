//! All that comes to a peer.

ghost use Rattle.std.specs.Prelude.{◌≡◌, ◌+◌, ◌*◌, ◌<◌, ◌≤◌, ◌^◌, drop, IsTrue, nat_lt, IfOk, IfErr, OnOk, OnErr, Ok, Err, Some, true, false, length, slice_get};
ghost use Rattle.std.specs.Option.{option_copied, option_map};
ghost use Rattle.enet_codec.specs.Message.{view};
ghost use Rattle.enet_seq.specs.Windows as windows;
ghost use Rattle.enet_fragment.specs.DataCommand.{data_of};
ghost use Rattle.enet_unsequenced.specs.Groups.{dispatches};
ghost use Rattle.enet_receiver.specs.ArrivingData.{data_command};
ghost use Rattle.enet_receiver.specs.Foresight.{ReceivingEnd};
ghost use Rattle.enet_inbox.specs.Bounds.{most_places, most_bytes};
ghost use Rattle.enet_inbox.specs.Invariant.{packets_in};
ghost use Rattle.enet_inbox.specs.Inbox.{empty_inbox, place_limit, places_of, untaken_of, waiting_of, is_at_limit, is_full, is_full_for, cleared, forgotten, narrowed, given_way};
ghost use Rattle.enet_inbox.specs.DataEffect.{handled, plain_arrival, arrival, sequenced, unsequenced_taken, passed_over, passed_length, passed_sequenced, is_kept};
ghost use Rattle.enet_inbox.specs.InboxParts.{foresight_on, foresight_of, unsequenced_verdict, plain_foreseen, foreseen, foreseen_sequenced, with_room, told};
ghost use Rattle.enet_inbox.specs.Private.InboxParts.{met_by, new_at, FindsRoom};

use crate::arriving::{Foreseen, acknowledges, answer_in_room, finds_no_room, seen};
use crate::receivers::{
    clear_all, give_way, give_way_but, held_in, keep_first, make_up_to, packets_in, waiting_in,
    waiting_packets_in,
};
use crate::taking::{append, take_at_once, take_in, take_in_at_once, take_in_instead};
use enet_codec::{Command, Head, Packet, Refusal, Stop};
use enet_packets::{Bodies, look_at};
use enet_receiver::{ArrivingData, Foresight, Incoming};
use enet_unsequenced::Groups;
use std::alloc::Global;
use std::collections::VecDeque;
use std::marker::Model;

/// All that comes to a peer: what its channels hold until it can be dispatched, the unsequenced groups that were dispatched,
/// and the dispatched packets until the user takes them. Contracts see it as the record `Inbox`.
#[derive(Drop)]
pub struct Inbox {
    alloc: Global,
    max_packet: u32,
    max_waiting: u32,
    /// How many channels there are.
    channels: u8,
    /// The receivers of the first channels. Those of the others aren't made before something of theirs is kept, so a peer that isn't known
    /// yet costs none; to them nothing came.
    receivers: Vec<Incoming>,
    groups: Groups,
    untaken: VecDeque<Packet>,
    /// The bytes that are held at the receivers or wait to be taken.
    waiting: u128,
    /// How many packets are held at the receivers.
    packets: usize,
    bodies: Bodies,
}

impl Model for Inbox {
    ghost use Rattle.enet_inbox.specs.Inbox as specs;
    ghost use Rattle.enet_inbox.specs.Codes.{inbox_code};

    ghost Value = { specs.Inbox };

    ghost coded = { inbox_code };

    ghost use Rattle.enet_inbox.specs.Invariant.{Keeps};
    ghost use Rattle.enet_inbox.specs.InboxParts.{inbox_of};
    ghost use Rattle.enet_inbox.specs.Made.{with_all};

    ghost view = { λ b. with_all b.channels (inbox_of b.max_packet b.max_waiting b.receivers.items b.groups b.untaken.items) };

    ghost invariant = { λ b. Keeps (inbox_of b.max_packet b.max_waiting b.receivers.items b.groups b.untaken.items) b.channels b.waiting b.packets };
}

/// At how many packets that wait no further one begins: one for each 128 bytes that may wait, and at least 1,024.
fn place_limit(max_waiting: u32) -> u32
    ensures { result ≡ place_limit max_waiting }
{
    (max_waiting / 128).max(1024)
}

/// Whether so many bytes or so many packets are at their limit or above.
fn is_at_limit(max_waiting: u32, bytes: u128, packets: usize) -> bool
    ensures { result ≡ is_at_limit max_waiting bytes packets }
{
    u128::from(max_waiting) <= bytes || place_limit(max_waiting) as usize <= packets
}

/// How many places are taken: by so many packets at the receivers, and by so many that wait to be taken.
fn places_taken(packets: usize, untaken: usize) -> usize
    requires { packets + untaken < 2 ^ 64 }
    ensures { result ≡ packets + untaken }
{
    packets + untaken
}

impl Inbox {
    /// An inbox of so many channels to which nothing came. It takes packets of at most `max_packet` bytes, and begins none once
    /// `max_waiting` bytes or more wait, or as many packets as a 128th of that, but at least 1,024: as `foresee` says, the next packet
    /// of each channel may come all the same, and unreliable ones may give way. It takes no memory, so it never answers E1.
    pub fn open(
        alloc: Global,
        channels: u8,
        max_packet: u32,
        max_waiting: u32,
    ) -> Result<Inbox, Refusal>
        ensures ok { IfOk result (λ b. b ≡ empty_inbox channels max_packet max_waiting) }
        ensures memory { IfErr result (λ why. why ≡ Refusal.Memory) }
    {
        Ok(Inbox {
            alloc,
            max_packet,
            max_waiting,
            channels,
            receivers: Vec::new(alloc),
            groups: Groups::new(),
            untaken: VecDeque::new(alloc),
            waiting: 0,
            packets: 0,
            bodies: Bodies::new(),
        })
    }

    /// What becomes of a data command with ample memory (SEND_RELIABLE, SEND_UNRELIABLE, SEND_FRAGMENT, SEND_UNRELIABLE_FRAGMENT or
    /// SEND_UNSEQUENCED): why it stops the datagram, or whether it may be acknowledged, if it asks for it, and whether something of it is
    /// kept. Then it goes to `take_in` with this answer; else it changes nothing. Late and repeated ones may be acknowledged, those just
    /// past the window may not (ENet 1.3).
    ///
    /// A stop is the first that applies: S6 for a command that is no data; S8 where the channel is not below the channel
    /// count; S9 where the payload or the packet is above the maximum packet size, or a fragment's fields fit together
    /// neither with themselves nor with the pieces before (fields and sizes before the window: our profile); S10 where it
    /// begins a packet while the bytes or the packets that are held reliably or weren't taken are at their limit or above, or, of
    /// the packet that its channel dispatches next, while those that weren't taken alone are (our profile).
    ///
    /// Where it begins a packet, other than the one that its channel dispatches next, while unreliable packets that wait or are in
    /// the making bring all to a limit, by their bytes or their number, `take_in` gives them up, on all channels (our profile).
    pub fn foresee(&self, command: &Command<'_>) -> Result<Foreseen, Stop>
        ensures answer { told result ≡ (arrival self.now (view command.now)).answer }
        ensures kept { IfOk result (λ foreseen. foreseen.kept ≡ is_kept self.now (view command.now)) }
        ensures value { result ≡ foreseen self.now (view command.now) }
    {
        look_at(&self.receivers);
        let foreseen = self.foresee_plainly(command);
        if finds_no_room(&foreseen) {
            return self.foresee_room(command);
        }
        foreseen
    }

    /// Takes a data command in of which something is kept, as `foresee` told. What it dispatches waits to be taken from then on. S11
    /// where memory is refused (our profile), with nothing changed.
    pub fn take_in(&mut self, command: &Command<'_>, what: Foreseen) -> Result<(), Stop>
        requires foreseen { foreseen self.old (view command.now) ≡ Ok what }
        requires kept { what.kept ≡ true }
        ensures taken { OnOk result (self.new ≡ (arrival self.old (view command.now)).after) }
        ensures unchanged { OnErr result (self.new ≡ self.old) }
        ensures memory { IfErr result (λ why. why ≡ Stop.Memory) }
    {
        if self.take_in_foreseen(command, what) {
            Ok(())
        } else {
            Err(Stop::Memory)
        }
    }

    /// Whether the number of a sequenced data command is in its place on its channel, as `is_in_place` of its receiver says: where it
    /// isn't, or nothing of its channel was kept yet, `take_at_once` wouldn't take it.
    #[inline(always)]
    pub fn is_in_place(&self, arriving: ArrivingData<'_>) -> bool
        ensures { IsTrue result → arriving.entry.head.channel < length self.now.receivers }
    {
        match self.receivers.get(arriving.head.channel as usize) {
            Some(receiver) => receiver.is_in_place(arriving),
            None => false,
        }
    }

    /// Takes a sequenced data command in that may be acknowledged, and of which nothing was foreseen, where its packet waits to be taken
    /// at once: that is all that `foresee` and `take_in` would do with it. False, with nothing changed, where there is no such channel,
    /// nothing of it was kept yet, so much waits that it may begin no packet, its packet doesn't come alone, as `take_at_once` of its
    /// receiver says, or memory is refused; then it is to go to them. The contract says what holds where it is true, not when it must be.
    #[inline(always)]
    pub fn take_at_once(&mut self, arriving: ArrivingData<'_>) -> bool
        ensures taken { IsTrue result → sequenced self.old arriving.entry.head.channel (Some (data_command arriving.entry)) ≡ handled self.new true }
        ensures unchanged { result ≡ false → self.new ≡ self.old }
    {
        let channel = arriving.head.channel as usize;
        if channel >= self.receivers.len() || self.is_full() {
            return false;
        }
        let receiver = &mut self.receivers[channel];
        let Some(bytes) = take_at_once(receiver, &mut self.untaken, arriving, &mut self.bodies)
        else {
            return false;
        };
        self.waiting += bytes;
        true
    }

    /// Passes a data command over, as a peer does that dispatches nothing more: S6, S8 and S9 as in `foresee`, where only
    /// the length of the payload is tested for S9, and else whether the command may be acknowledged. Nothing changes.
    pub fn pass_over(&self, command: &Command<'_>) -> Result<bool, Stop>
        ensures { result ≡ passed_over self.now (view command.now) }
    {
        if let Command::SendUnsequenced { head, payload, .. } = command {
            if !self.has_channel(head.channel) {
                return Err(Stop::BadChannel);
            }
            return self.pass_payload(payload, true);
        }
        self.pass_sequenced(command)
    }

    /// The next packet, in the order of dispatch; None, with nothing changed, where none waits. It takes no memory.
    pub fn take(&mut self) -> Option<Packet>
        ensures first { result ≡ slice_get self.old.untaken 0 }
        ensures rest { self.new ≡ record self.old { untaken = drop 1 self.old.untaken } }
    {
        let packet = self.untaken.pop_front()?;
        self.waiting -= packet.body.len() as u128;
        Some(packet)
    }

    /// The packet that `take` would give; None where none waits.
    pub fn next(&self) -> Option<&Packet>
        ensures { option_copied result ≡ slice_get self.now.untaken 0 }
    {
        self.untaken.front()
    }

    /// How many channels there are, at most 255.
    pub fn channels(&self) -> usize
        ensures count { result ≡ length self.now.receivers }
        ensures few { result ≤ 255 }
    {
        usize::from(self.channels)
    }

    /// How many packets take a place: those that are held, wait or are in the making on any channel, and those that weren't taken.
    /// Whatever came, and whether or not the user takes, they are no more than twice as many as there are places, and 255 more; the
    /// first kind alone no more than there are places, and one more for each channel.
    pub fn places(&self) -> usize
        ensures value { result ≡ places_of self.now }
        ensures bound { places_of self.now ≤ most_places self.now.max_waiting }
        ensures held { packets_in self.now.receivers ≤ place_limit self.now.max_waiting + length self.now.receivers }
        ensures few { result < 2 ^ 27 }
    {
        look_at(&self.receivers);
        let _max_waiting = self.max_waiting;
        places_taken(self.packets, self.untaken.len())
    }

    /// How many of those packets weren't dispatched: they are held, wait or are in the making. Whatever came, they are no more than there
    /// are places, and one more for each channel.
    pub fn undispatched(&self) -> usize
        ensures value { result ≡ packets_in self.now.receivers }
        ensures bound { packets_in self.now.receivers ≤ place_limit self.now.max_waiting + length self.now.receivers }
        ensures few { result < 2 ^ 27 }
    {
        look_at(&self.receivers);
        let _limit = self.max_waiting;
        self.packets
    }

    /// The bytes of all those packets, each counted whole from its first piece on. Whatever came, and whether or not the user takes, they
    /// are no more than twice `max_waiting` and 257 packets of `max_packet`; without the packets that weren't taken no more than
    /// `max_waiting`, a packet, and one more for each channel.
    pub fn bytes(&self) -> u128
        ensures value { result ≡ waiting_of self.now }
        ensures bound { waiting_of self.now ≤ most_bytes self.now.max_packet self.now.max_waiting }
        ensures held { waiting_of self.now ≤ self.now.max_waiting + (length self.now.receivers + 1) * self.now.max_packet + untaken_of self.now }
        ensures light { result < 2 ^ 42 }
    {
        look_at(&self.receivers);
        let _max_packet = self.max_packet;
        let _max_waiting = self.max_waiting;
        self.waiting
    }

    /// Drops all that is not dispatched yet. What wasn't taken stays, and the numbers go on from where they stand.
    pub fn clear(&mut self)
        ensures { self.new ≡ cleared self.old }
    {
        self.waiting -= held_in(&self.receivers);
        self.packets = 0;
        clear_all(&mut self.receivers);
    }

    /// Drops all that is not dispatched yet, and what wasn't taken.
    pub fn forget(&mut self)
        ensures { self.new ≡ forgotten self.old }
    {
        clear_all(&mut self.receivers);
        self.untaken.clear();
        self.waiting = 0;
        self.packets = 0;
    }

    /// Only so many channels stay, from channel 0 on; what the others hold is dropped. Where there are no more than so many
    /// nothing changes.
    pub fn narrow(&mut self, channels: u8)
        ensures { self.new ≡ narrowed self.old channels }
    {
        if channels < self.channels {
            let kept = self.receivers.len().min(usize::from(channels));
            self.waiting -= held_in(&self.receivers[kept..]);
            self.packets -= packets_in(&self.receivers[kept..]);
            keep_first(&mut self.receivers, kept);
            self.channels = channels;
        }
    }

    /// Whether so much waits that no further packet begins.
    fn is_full(&self) -> bool
        ensures { result ≡ is_full self.now }
    {
        look_at(&self.receivers);
        is_at_limit(self.max_waiting, self.waiting, self.places())
    }

    /// Whether so much waits that a command begins no packet at the receiver of its channel.
    fn is_full_for(&self, receiver: &Incoming, arriving: ArrivingData<'_>) -> bool
        ensures { result ≡ is_full_for self.now receiver.now (data_command arriving.entry) }
    {
        if !self.is_full() {
            return false;
        }
        if !receiver.is_next(arriving) {
            return true;
        }
        let bytes = self.waiting - held_in(&self.receivers);
        is_at_limit(self.max_waiting, bytes, self.untaken.len())
    }

    /// Whether there is such a channel.
    fn has_channel(&self, channel: u8) -> bool
        ensures { result ≡ nat_lt channel (length self.now.receivers) }
    {
        channel < self.channels
    }

    /// A receiver like that of a channel of which nothing was kept yet; None where there is no such channel. It takes no memory.
    fn new_receiver(&self, channel: u8) -> Option<Incoming>
        ensures { result ≡ new_at self.now channel }
    {
        if !self.has_channel(channel) {
            return None;
        }
        let Ok(receiver) = Incoming::open(self.alloc, channel, self.max_packet) else {
            unreachable!()
        };
        Some(receiver)
    }

    /// Makes the receivers up to that of a channel, where they aren't made yet. False where there is no such channel or memory is refused.
    /// Nothing that contracts see changes.
    #[inline(always)]
    fn make_receivers(&mut self, channel: u8) -> bool
        ensures { self.new ≡ self.old }
    {
        if usize::from(channel) < self.receivers.len() {
            return true;
        }
        if !self.has_channel(channel) {
            return false;
        }
        make_up_to(
            &mut self.receivers,
            self.alloc,
            channel,
            self.channels,
            self.max_packet,
        )
    }

    /// Whether so much would wait once the unreliable packets that wait had given way.
    fn is_full_without_waiting(&self) -> bool
        ensures { result ≡ is_full (given_way self.now) }
    {
        let bytes = self.waiting - waiting_in(&self.receivers);
        let packets = self.packets - waiting_packets_in(&self.receivers);
        let places = places_taken(packets, self.untaken.len());
        is_at_limit(self.max_waiting, bytes, places)
    }

    /// What becomes of a data command with ample memory, where nothing gives way to it.
    fn foresee_plainly(&self, command: &Command<'_>) -> Result<Foreseen, Stop>
        ensures { result ≡ plain_foreseen self.now (view command.now) }
    {
        if let Command::SendUnsequenced {
            head,
            group,
            payload,
        } = command
        {
            let is_new = self.is_new(head.channel, *group, payload)?;
            return Ok(Foreseen {
                acknowledged: true,
                kept: is_new,
                makes_room: false,
                dispatches: u32::from(is_new),
            });
        }
        self.foresee_sequenced(command)
    }

    /// What becomes of a data command that finds no room, once the unreliable packets that wait have given way. It stays a
    /// function of its own, since few commands come to it.
    #[inline(never)]
    fn foresee_room(&self, command: &Command<'_>) -> Result<Foreseen, Stop>
        requires { (plain_arrival self.now (view command.now)).answer ≡ Err Stop.Waiting }
        ensures { result ≡ with_room (plain_arrival (given_way self.now) (view command.now)).answer }
    {
        let acknowledged = self.answer_in_room(command)?;
        Ok(Foreseen {
            acknowledged,
            kept: true,
            makes_room: true,
            dispatches: 0,
        })
    }

    /// Whether such a command may be acknowledged then, or why it is still stopped.
    fn answer_in_room(&self, command: &Command<'_>) -> Result<bool, Stop>
        requires { (plain_arrival self.now (view command.now)).answer ≡ Err Stop.Waiting }
        ensures { result ≡ (plain_arrival (given_way self.now) (view command.now)).answer }
    {
        look_at(&self.receivers);
        if self.is_full_without_waiting() {
            return Err(Stop::Waiting);
        }
        let Some(arriving) = ArrivingData::of(command) else {
            return Ok(true);
        };
        match self.receivers.get(arriving.head.channel as usize) {
            Some(receiver) => answer_in_room(receiver, arriving),
            None => match self.new_receiver(arriving.head.channel) {
                Some(receiver) => answer_in_room(&receiver, arriving),
                None => Err(Stop::BadChannel),
            },
        }
    }

    /// What the receiver of its channel would do with a sequenced data command.
    fn foresight(&self, command: &Command<'_>) -> Result<Foresight, Stop>
        ensures { result ≡ foresight_of self.now (view command.now).head.channel (data_of (view command.now)) }
    {
        let Some(arriving) = ArrivingData::of(command) else {
            return Err(Stop::BadCommand);
        };
        match self.receivers.get(arriving.head.channel as usize) {
            Some(receiver) => {
                Ok(receiver.foresee_data(arriving, self.is_full_for(receiver, arriving)))
            }
            None => self.foresight_anew(arriving),
        }
    }

    /// The same as if nothing of its channel was kept yet. It stays a function of its own, since few commands come to it.
    #[inline(never)]
    fn foresight_anew(&self, arriving: ArrivingData<'_>) -> Result<Foresight, Stop>
        ensures { result ≡ foresight_on self.now (data_command arriving.entry) (new_at self.now arriving.entry.head.channel) }
    {
        let Some(receiver) = self.new_receiver(arriving.head.channel) else {
            return Err(Stop::BadChannel);
        };
        Ok(receiver.foresee_data(arriving, self.is_full_for(&receiver, arriving)))
    }

    /// What becomes of a sequenced data command with ample memory.
    fn foresee_sequenced(&self, command: &Command<'_>) -> Result<Foreseen, Stop>
        ensures { result ≡ foreseen_sequenced self.now (view command.now).head.channel (data_of (view command.now)) }
    {
        let foresight = self.foresight(command)?;
        seen(foresight)
    }

    /// Takes such a command in, where memory is not refused.
    fn take_in_foreseen(&mut self, command: &Command<'_>, what: Foreseen) -> bool
        requires foreseen { foreseen self.old (view command.now) ≡ Ok what }
        requires kept { what.kept ≡ true }
        ensures taken { IsTrue result → self.new ≡ (arrival self.old (view command.now)).after }
        ensures unchanged { result ≡ false → self.new ≡ self.old }
    {
        let Some(arriving) = ArrivingData::of(command) else {
            return self.take_in_unsequenced(command, what);
        };
        self.take_in_sequenced(arriving, what)
    }

    /// Takes an unsequenced packet in. False, with nothing changed, of any other command.
    fn take_in_unsequenced(&mut self, command: &Command<'_>, what: Foreseen) -> bool
        requires foreseen { foreseen self.old (view command.now) ≡ Ok what }
        requires kept { what.kept ≡ true }
        ensures taken { IsTrue result → self.new ≡ (arrival self.old (view command.now)).after }
        ensures unchanged { result ≡ false → self.new ≡ self.old }
    {
        let Command::SendUnsequenced {
            head,
            group,
            payload,
        } = command
        else {
            return false;
        };
        self.append(head.channel, *group, payload, what.makes_room)
    }

    /// Takes a sequenced data command in that its channel's receiver takes in, where memory is not refused.
    fn take_in_sequenced(&mut self, arriving: ArrivingData<'_>, what: Foreseen) -> bool
        requires plain { what.makes_room ≡ false → foreseen_sequenced self.old arriving.head.channel (Some (data_command arriving)) ≡ Ok what }
        requires room { what.makes_room ≡ true → FindsRoom self.old arriving.head.channel (Some (data_command arriving)) }
        requires not_told { what.makes_room ≡ true → what.dispatches ≡ 0 }
        requires kept { what.kept ≡ true }
        ensures taken { IsTrue result → self.new ≡ (sequenced (met_by what.makes_room self.old) arriving.entry.head.channel (Some (data_command arriving.entry))).after }
        ensures unchanged { result ≡ false → self.new ≡ self.old }
    {
        if !self.make_receivers(arriving.head.channel) {
            return false;
        }
        self.take_in_made(arriving, what)
    }

    /// Takes such a command in where its channel's receiver is made and memory is not refused.
    fn take_in_made(&mut self, arriving: ArrivingData<'_>, what: Foreseen) -> bool
        requires plain { what.makes_room ≡ false → foreseen_sequenced self.old arriving.head.channel (Some (data_command arriving)) ≡ Ok what }
        requires room { what.makes_room ≡ true → FindsRoom self.old arriving.head.channel (Some (data_command arriving)) }
        requires not_told { what.makes_room ≡ true → what.dispatches ≡ 0 }
        requires kept { what.kept ≡ true }
        ensures taken { IsTrue result → self.new ≡ (sequenced (met_by what.makes_room self.old) arriving.entry.head.channel (Some (data_command arriving.entry))).after }
        ensures unchanged { result ≡ false → self.new ≡ self.old }
    {
        if what.dispatches == 1 && self.take_in_at_once(arriving, what) {
            return true;
        }
        if what.makes_room {
            self.take_in_instead(arriving)
        } else {
            self.take_in_any(arriving, what)
        }
    }

    /// Takes such a command in where its packet comes alone, and has that wait to be taken. False, with nothing changed, where its
    /// channel's receiver isn't made, it doesn't come alone or memory is refused.
    fn take_in_at_once(&mut self, arriving: ArrivingData<'_>, what: Foreseen) -> bool
        requires foreseen { foreseen_sequenced self.old arriving.head.channel (Some (data_command arriving)) ≡ Ok what }
        requires kept { what.kept ≡ true }
        ensures taken { IsTrue result → self.new ≡ (sequenced self.old arriving.entry.head.channel (Some (data_command arriving.entry))).after }
        ensures unchanged { result ≡ false → self.new ≡ self.old }
    {
        let channel = arriving.head.channel as usize;
        if channel >= self.receivers.len() {
            return false;
        }
        let receiver = &mut self.receivers[channel];
        let Some(bytes) = take_in_at_once(receiver, &mut self.untaken, arriving, &mut self.bodies)
        else {
            return false;
        };
        self.waiting += bytes;
        true
    }

    /// Takes any such command in. False, with nothing changed, where its channel's receiver isn't made or memory is refused. It stays a
    /// function of its own, so that its callers stay short enough to become part of theirs.
    #[inline(never)]
    fn take_in_any(&mut self, arriving: ArrivingData<'_>, what: Foreseen) -> bool
        requires foreseen { foreseen_sequenced self.old arriving.head.channel (Some (data_command arriving)) ≡ Ok what }
        requires kept { what.kept ≡ true }
        ensures taken { IsTrue result → self.new ≡ (sequenced self.old arriving.entry.head.channel (Some (data_command arriving.entry))).after }
        ensures unchanged { result ≡ false → self.new ≡ self.old }
    {
        let channel = arriving.head.channel as usize;
        if channel >= self.receivers.len() {
            return false;
        }
        let full = self.is_full_for(&self.receivers[channel], arriving);
        let receiver = &mut self.receivers[channel];
        let before = receiver.held();
        let packets_before = receiver.packets();
        let Some(bytes) = take_in(receiver, &mut self.untaken, arriving, full, what.dispatches)
        else {
            return false;
        };
        self.waiting = self.waiting - u128::from(before) + u128::from(receiver.held()) + bytes;
        self.packets = self.packets - packets_before + receiver.packets();
        true
    }

    /// Takes such a command in where the unreliable packets that wait make room for it: they are given up, on all channels. False, with
    /// nothing changed, where its channel's receiver isn't made or memory is refused.
    #[inline(never)]
    fn take_in_instead(&mut self, arriving: ArrivingData<'_>) -> bool
        requires { FindsRoom self.old arriving.head.channel (Some (data_command arriving)) }
        ensures taken { IsTrue result → self.new ≡ (sequenced (given_way self.old) arriving.entry.head.channel (Some (data_command arriving.entry))).after }
        ensures unchanged { result ≡ false → self.new ≡ self.old }
    {
        let channel = arriving.head.channel as usize;
        if channel >= self.receivers.len() {
            return false;
        }
        let others = waiting_in(&self.receivers);
        let other_packets = waiting_packets_in(&self.receivers);
        let receiver = &mut self.receivers[channel];
        let before = receiver.held() - receiver.waiting();
        let packets_before = receiver.packets() - receiver.waiting_packets();
        let Some(bytes) = take_in_instead(receiver, &mut self.untaken, arriving) else {
            return false;
        };
        let after = receiver.held();
        let packets_after = receiver.packets();
        give_way_but(&mut self.receivers, arriving.head.channel);
        self.waiting = self.waiting - others - u128::from(before) + u128::from(after) + bytes;
        self.packets = self.packets - other_packets - packets_before + packets_after;
        true
    }

    /// Whether an unsequenced packet would be dispatched, or why it stops the datagram.
    fn is_new(&self, channel: u8, group: u16, payload: &[u8]) -> Result<bool, Stop>
        ensures { result ≡ unsequenced_verdict self.now channel group payload.now }
    {
        if !self.has_channel(channel) {
            return Err(Stop::BadChannel);
        }
        if payload.len() > self.max_packet as usize {
            return Err(Stop::BadFragment);
        }
        if !self.groups.check(group) {
            return Ok(false);
        }
        if self.is_full() {
            return Err(Stop::Waiting);
        }
        Ok(true)
    }

    /// Dispatches an unsequenced packet of a group that is new, where memory is not refused; `makes_room` says that the unreliable
    /// packets that wait are given up for it.
    fn append(&mut self, channel: u8, group: u16, payload: &[u8], makes_room: bool) -> bool
        requires is_new { IsTrue (dispatches self.old.seen group) }
        requires room { is_full (met_by makes_room self.old) ≡ false }
        requires short { length payload.now ≤ self.old.max_packet }
        ensures added { IsTrue result → self.new ≡ unsequenced_taken (met_by makes_room self.old) channel group payload.now }
        ensures unchanged { result ≡ false → self.new ≡ self.old }
    {
        if makes_room {
            self.append_instead(channel, group, payload)
        } else {
            self.append_plainly(channel, group, payload)
        }
    }

    /// Dispatches such a packet where nothing gives way to it.
    fn append_plainly(&mut self, channel: u8, group: u16, payload: &[u8]) -> bool
        requires is_new { IsTrue (dispatches self.old.seen group) }
        requires room { is_full self.old ≡ false }
        requires short { length payload.now ≤ self.old.max_packet }
        ensures added { IsTrue result → self.new ≡ unsequenced_taken self.old channel group payload.now }
        ensures unchanged { result ≡ false → self.new ≡ self.old }
    {
        if !append(
            self.alloc,
            &mut self.untaken,
            channel,
            payload,
            &mut self.bodies,
        ) {
            return false;
        }
        self.waiting += payload.len() as u128;
        self.groups.mark(group);
        true
    }

    /// Dispatches such a packet where the unreliable packets that wait make room for it: they are given up, on all channels.
    fn append_instead(&mut self, channel: u8, group: u16, payload: &[u8]) -> bool
        requires is_new { IsTrue (dispatches self.old.seen group) }
        requires room { is_full (given_way self.old) ≡ false }
        requires short { length payload.now ≤ self.old.max_packet }
        ensures added { IsTrue result → self.new ≡ unsequenced_taken (given_way self.old) channel group payload.now }
        ensures unchanged { result ≡ false → self.new ≡ self.old }
    {
        let waiting = waiting_in(&self.receivers);
        let packets = waiting_packets_in(&self.receivers);
        if !append(
            self.alloc,
            &mut self.untaken,
            channel,
            payload,
            &mut self.bodies,
        ) {
            return false;
        }
        give_way(&mut self.receivers);
        self.waiting = self.waiting - waiting + payload.len() as u128;
        self.packets -= packets;
        self.groups.mark(group);
        true
    }

    /// Passes a sequenced data command over.
    fn pass_sequenced(&self, command: &Command<'_>) -> Result<bool, Stop>
        ensures { result ≡ passed_sequenced self.now (view command.now).head.channel (data_of (view command.now)) }
    {
        let Some(arriving) = ArrivingData::of(command) else {
            return Err(Stop::BadCommand);
        };
        let Some(may) = self.may_acknowledge(arriving.head) else {
            return Err(Stop::BadChannel);
        };
        self.pass_payload(arriving.payload, may)
    }

    /// Whether the window of its channel lets a command be acknowledged; None where there is no such channel.
    fn may_acknowledge(&self, head: Head) -> Option<bool>
        ensures { result ≡ option_map (λ (r : ReceivingEnd). windows.acknowledges r.receiver.front head.number) (slice_get self.now.receivers head.channel) }
    {
        match self.receivers.get(head.channel as usize) {
            Some(receiver) => Some(acknowledges(receiver, head)),
            None if self.has_channel(head.channel) => {
                Some(enet_seq::acknowledges(0, head.number))
            }
            None => None,
        }
    }

    /// Tests the length of a payload that is passed over.
    fn pass_payload(&self, payload: &[u8], may: bool) -> Result<bool, Stop>
        ensures { result ≡ passed_length self.now payload.now may }
    {
        if payload.len() > self.max_packet as usize {
            return Err(Stop::BadFragment);
        }
        Ok(may)
    }
}
