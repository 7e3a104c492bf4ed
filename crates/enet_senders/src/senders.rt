//! The channels of a peer whose senders are made, over its commands.

ghost use Rattle.std.specs.Prelude.{◌≡◌, ◌≢◌, ℕ, ◌+◌, ◌^◌, true, false, ◌⊎◌, ◌↔◌, ◌<◌, ◌≤◌, IsTrue, OnOk, OnErr, IfOk, IfErr, IfSome, IsErrAnd, Some, [], not, length, map, take, slice_get, slice_set, All};
ghost use Rattle.std.specs.Vec.{vec_capacity};
ghost use Rattle.std.specs.List.{list_all, list_any};
ghost use Rattle.enet_rtt.specs.Clock.{HappensIn};
ghost use Rattle.enet_seq.specs.Numbering.{wire};
ghost use Rattle.enet_fragment.specs.Cutting.{piece_count};
ghost use Rattle.enet_sender.specs.CommandChoice.{fragment_limit};
ghost use Rattle.enet_sender.specs.Sender.{after_match, acknowledged, awaits_room, next, wants_room, with_skipped, ends, is_late, left};
ghost use Rattle.enet_sender.specs.Due.{SendingEnd, Did, with_submitted};
ghost use Rattle.enet_sender.specs.Waiting.{Waits};
ghost use Rattle.enet_sender.specs.declared.outgoing.Outgoing.{Outgoing};
ghost use Rattle.enet_sender.specs.declared.sent.Sent.{Sent};
ghost use Rattle.enet_sender.specs.Rings.{end_in};
ghost use Rattle.enet_sender.specs.Counting.{added};
ghost use Rattle.enet_senders.specs.Counting.{count_over};
ghost use Rattle.enet_senders.specs.Outstanding.{outstanding_over};
ghost use Rattle.enet_senders.specs.Senders.{ends_in, IsLateOver, IsStill, KeepsAllIn, marked_end, cleared_end};
ghost use Rattle.enet_senders.specs.Made.{all_ends};
ghost use Rattle.enet_senders.specs.Sets.{Lacks};
ghost use Rattle.enet_senders.specs.Private.Seeking.{Seek};

use crate::channel_set::ChannelSet;
use bytes::Bytes;
use enet_codec::Refusal;
use enet_rtt::{Patience, Tick};
use enet_sender::{Acknowledged, Due, Late, Occasion, Outgoing, Outstanding, Pending};
use std::alloc::Global;
use std::marker::Model;

/// The senders of a peer's first channels, with all its commands. Contracts see the list of their ends, by channel.
#[derive(Drop)]
pub(crate) struct MadeSenders {
    channels: Vec<Outgoing>,
    pending: Pending,
    /// A channel that is not in it has nothing queued, and nothing that is due to go again.
    ready: ChannelSet,
    /// A channel that is not in it has nothing sent and unacknowledged.
    flying: ChannelSet,
}

impl Model for MadeSenders {
    ghost use Rattle.std.specs.Prelude.{List};
    ghost use Rattle.enet_sender.specs.Due.{SendingEnd};

    ghost Value = { List SendingEnd };

    ghost use Rattle.enet_sender.specs.Counting.{added};
    ghost use Rattle.enet_senders.specs.Counting.{count_over};
    ghost use Rattle.enet_senders.specs.Senders.{ends_in};
    ghost use Rattle.enet_senders.specs.Sets.{AreSenders};

    ghost view = { λ s. ends_in s.pending s.channels.items };

    ghost invariant = { λ s. AreSenders s.pending s.channels.items s.ready s.flying };
}

/// An acknowledgement of a channel's command comes: the other channels stay as they were.
fn acknowledge_on(
    channels: &mut Vec<Outgoing>,
    pending: &mut Pending,
    channel: u8,
    number: u16,
    time: u16,
) -> Option<Acknowledged>
    requires kept { KeepsAllIn pending.old channels.old.items }
    requires inside { channel < length channels.old.items }
    ensures told { (s : SendingEnd) → slice_get (ends_in pending.old channels.old.items) channel ≡ Some s → result ≡ acknowledged s.sender number time }
    ensures ends { (s : SendingEnd) → slice_get (ends_in pending.old channels.old.items) channel ≡ Some s
        → ends_in pending.new channels.new.items ≡ slice_set (ends_in pending.old channels.old.items) channel (record s { sender = after_match s.sender number result }) }
    ensures kept { KeepsAllIn pending.new channels.new.items }
{
    channels[usize::from(channel)].acknowledge(pending, number, time)
}

/// A packet is submitted on a channel: the other channels stay as they were.
fn submit_on(
    channels: &mut Vec<Outgoing>,
    pending: &mut Pending,
    channel: u8,
    flags: u8,
    body: &mut Bytes,
    mtu: u32,
) -> Result<(), Refusal>
    requires low { 576 ≤ mtu }
    requires high { mtu ≤ 4096 }
    requires kept { KeepsAllIn pending.old channels.old.items }
    requires inside { channel < length channels.old.items }
    ensures queued { (s : SendingEnd) → slice_get (ends_in pending.old channels.old.items) channel ≡ Some s
        → OnOk result (ends_in pending.new channels.new.items ≡ slice_set (ends_in pending.old channels.old.items) channel (with_submitted mtu s flags body.old)) }
    ensures too_large { IsErrAnd result (λ why. why ≡ Refusal.TooLarge) ↔ (fragment_limit < piece_count (length body.old) mtu) }
    ensures refused { OnErr result ((ends_in pending.new channels.new.items ≡ ends_in pending.old channels.old.items) × (body.new ≡ body.old)) }
    ensures taken { OnOk result (body.new ≡ []) }
    ensures only { IfErr result (λ why. (why ≡ Refusal.TooLarge) ⊎ (why ≡ Refusal.Memory)) }
    ensures kept { KeepsAllIn pending.new channels.new.items }
{
    channels[usize::from(channel)].submit(pending, flags, body, mtu)
}

/// The next command of a channel is written: the other channels stay as they were.
fn next_due_on(
    channels: &mut Vec<Outgoing>,
    pending: &mut Pending,
    channel: u8,
    occasion: Occasion,
    buf: &mut [u8],
    at: usize,
) -> Due
    requires kept { KeepsAllIn pending.old channels.old.items }
    requires inside { channel < length channels.old.items }
    ensures did { (s : SendingEnd) → slice_get (ends_in pending.old channels.old.items) channel ≡ Some s
        → (t : SendingEnd) × ((ends_in pending.new channels.new.items ≡ slice_set (ends_in pending.old channels.old.items) channel t)
        × Did (next wire occasion s.sender) (wants_room occasion s.sender) result s t
        (record { old = buf.old; at = at; new = buf.new })) }
    ensures kept { KeepsAllIn pending.new channels.new.items }
{
    channels[usize::from(channel)].next_due(pending, occasion, buf, at)
}

/// Whether a channel surely has to wait.
fn has_to_wait_on(channels: &[Outgoing], pending: &Pending, channel: u8, occasion: Occasion) -> bool
    requires kept { KeepsAllIn pending.now channels.now }
    requires inside { channel < length channels.now }
    ensures { (e : SendingEnd) → slice_get (ends_in pending.now channels.now) channel ≡ Some e → IsTrue result → Waits occasion e.sender }
{
    channels[usize::from(channel)].has_to_wait(pending, occasion)
}

/// Whether room may be kept for a channel.
fn awaits_room_on(channels: &[Outgoing], pending: &Pending, channel: u8) -> bool
    requires kept { KeepsAllIn pending.now channels.now }
    requires inside { channel < length channels.now }
    ensures { (e : SendingEnd) → slice_get (ends_in pending.now channels.now) channel ≡ Some e → result ≡ awaits_room e.sender }
{
    channels[usize::from(channel)].awaits_room(pending)
}

/// The rest of a channel's unreliable packet is dropped: the other channels stay as they were.
fn skip_on(channels: &mut Vec<Outgoing>, pending: &mut Pending, channel: u8)
    requires kept { KeepsAllIn pending.old channels.old.items }
    requires inside { channel < length channels.old.items }
    ensures ends { (s : SendingEnd) → slice_get (ends_in pending.old channels.old.items) channel ≡ Some s
        → ends_in pending.new channels.new.items ≡ slice_set (ends_in pending.old channels.old.items) channel (record s { sender = with_skipped s.sender }) }
    ensures kept { KeepsAllIn pending.new channels.new.items }
{
    channels[usize::from(channel)].skip(pending);
}

/// All that is queued or sent on a channel is dropped: the other channels stay as they were.
fn clear_on(channels: &mut Vec<Outgoing>, pending: &mut Pending, channel: usize)
    requires kept { KeepsAllIn pending.old channels.old.items }
    requires inside { channel < length channels.old.items }
    ensures ends { (s : SendingEnd) → slice_get (ends_in pending.old channels.old.items) channel ≡ Some s
        → ends_in pending.new channels.new.items ≡ slice_set (ends_in pending.old channels.old.items) channel (cleared_end s) }
    ensures kept { KeepsAllIn pending.new channels.new.items }
{
    channels[channel].clear(pending);
}

/// All channels seek anew what of theirs is due to go again.
fn seek_anew(channels: &mut Vec<Outgoing>)
    ensures { Seek channels.old.items channels.new.items }
{
    for channel in 0..channels.len() {
        channels[channel].seek_anew();
    }
}

/// What is late on any channel is due to go again.
fn mark_late(channels: &mut Vec<Outgoing>, pending: &mut Pending, tick: Tick) -> Late
    requires { KeepsAllIn pending.old channels.old.items }
    ensures ends { ends_in pending.new channels.new.items ≡ map (marked_end tick) (ends_in pending.old channels.old.items) }
    ensures late { IsLateOver tick (ends_in pending.old channels.old.items) result }
    ensures kept { KeepsAllIn pending.new channels.new.items }
{
    let late = pending.mark_all(tick);
    seek_anew(channels);
    late
}

/// All that is queued or sent on any channel is dropped.
fn clear_each(channels: &mut Vec<Outgoing>, pending: &mut Pending)
    requires { KeepsAllIn pending.old channels.old.items }
    ensures ends { ends_in pending.new channels.new.items ≡ map cleared_end (ends_in pending.old channels.old.items) }
    ensures kept { KeepsAllIn pending.new channels.new.items }
{
    for channel in 0..channels.len() {
        clear_on(channels, pending, channel);
    }
}

/// Keeps so many channels, the first ones. The commands of the others are dropped.
fn keep_first(channels: &mut Vec<Outgoing>, pending: &mut Pending, count: usize)
    requires { KeepsAllIn pending.old channels.old.items }
    ensures ends { ends_in pending.new channels.new.items ≡ take count (ends_in pending.old channels.old.items) }
    ensures kept { KeepsAllIn pending.new channels.new.items }
{
    for dropped in count..channels.len() {
        clear_on(channels, pending, dropped);
    }
    channels.truncate(count);
    channels.shrink_to_fit();
}

/// In how many milliseconds after the moment `now` a sent command of a channel is late first: 0 where one is, 4,294,967,295 where none
/// waits. Channels that aren't in the set have nothing sent. It looks at all that is sent.
fn look_for_late(channels: &[Outgoing], pending: &Pending, flying: &ChannelSet, now: u32) -> u32
    requires { (i : ℕ) (e : SendingEnd) → Lacks flying.now i → slice_get (ends_in pending.now channels.now) i ≡ Some e → e.sender.sent ≡ [] }
    ensures { HappensIn (λ (later : ℕ). list_any (λ (s : SendingEnd). list_any (is_late later) s.sender.sent) (ends_in pending.now channels.now)) now result }
{
    let mut wait = u32::MAX;
    let mut place = flying.next(0);
    'channels: while place < channels.len() {
        let channel = &channels[place];
        wait = wait.min(channel.next_late(pending, now));
        place = flying.next(place + 1);
    }
    wait
}

/// So many, and those of all channels' commands that are sent, not acknowledged, and were sent more than once; it stops at the greatest
/// number.
fn count_each(channels: &[Outgoing], pending: &Pending, so_far: u64) -> u64
    ensures { result ≡ added so_far (count_over (ends_in pending.now channels.now)) }
{
    let mut total = so_far;
    for place in 0..channels.len() {
        total = channels[place].count_sent_again(pending, total);
    }
    total
}

/// Whether no channel has a packet queued. Channels that aren't in the set have none.
fn have_no_packet(channels: &[Outgoing], pending: &Pending, ready: &ChannelSet) -> bool
    requires kept { KeepsAllIn pending.now channels.now }
    requires still { (i : ℕ) (e : SendingEnd) → Lacks ready.now i → slice_get (ends_in pending.now channels.now) i ≡ Some e → IsStill e.sender }
    ensures { result ≡ list_all (λ (s : SendingEnd). not (left s.sender).packets) (ends_in pending.now channels.now) }
{
    let mut place = ready.next(0);
    'channels: while place < channels.len() {
        let channel = &channels[place];
        if channel.left(pending).packets {
            return false;
        }
        place = ready.next(place + 1);
    }
    true
}

/// Whether no channel has a reliable command queued or unacknowledged. Channels that aren't in the set have nothing queued or sent.
fn have_no_reliable(channels: &[Outgoing], pending: &Pending, busy: &ChannelSet) -> bool
    requires kept { KeepsAllIn pending.now channels.now }
    requires empty { (i : ℕ) (e : SendingEnd) → Lacks busy.now i → slice_get (ends_in pending.now channels.now) i ≡ Some e → (e.sender.queued ≡ []) × (e.sender.sent ≡ []) }
    ensures { result ≡ list_all (λ (s : SendingEnd). not (left s.sender).reliable) (ends_in pending.now channels.now) }
{
    let mut place = busy.next(0);
    'channels: while place < channels.len() {
        let channel = &channels[place];
        if channel.left(pending).reliable {
            return false;
        }
        place = busy.next(place + 1);
    }
    true
}

/// A channel changed: it stays in the set unless nothing of it is sent.
fn note_sent(channels: &[Outgoing], pending: &Pending, flying: &mut ChannelSet, channel: u8)
    requires kept { KeepsAllIn pending.now channels.now }
    requires inside { channel < length channels.now }
    ensures this { (e : SendingEnd) → Lacks flying.new channel → slice_get (ends_in pending.now channels.now) channel ≡ Some e → e.sender.sent ≡ [] }
    ensures others { (i : ℕ) → i ≢ channel → Lacks flying.new i → Lacks flying.old i }
{
    if channels[usize::from(channel)].left(pending).reliable {
        flying.insert(channel);
    } else {
        flying.remove(channel);
    }
}

/// Nothing of a channel went: where nothing is queued, and nothing that was sent is due to go again, it leaves the set.
fn note_still(channels: &[Outgoing], pending: &Pending, ready: &mut ChannelSet, channel: u8)
    requires kept { KeepsAllIn pending.now channels.now }
    requires inside { channel < length channels.now }
    ensures this { (e : SendingEnd) → Lacks ready.new channel → slice_get (ends_in pending.now channels.now) channel ≡ Some e → IsStill e.sender ⊎ Lacks ready.old channel }
    ensures others { (i : ℕ) → i ≢ channel → Lacks ready.new i → Lacks ready.old i }
{
    let sender = &channels[usize::from(channel)];
    if !sender.left(pending).packets && !sender.may_be_due(pending) {
        ready.remove(channel);
    }
}

/// Makes room for so many channels, of so many in all: where there is none, for twice as many as there were. False where memory is refused.
fn make_room(channels: &mut Vec<Outgoing>, count: usize, all: usize) -> bool
    requires more { length channels.old.items < count }
    requires within { count ≤ all }
    ensures items { channels.new.items ≡ channels.old.items }
    ensures room { IsTrue result → count ≤ vec_capacity channels.new }
{
    if count <= channels.capacity() {
        return true;
    }
    let made = channels.len();
    let room = count.max(2 * made).min(all);
    channels.reserve_exact(room - made).is_ok()
}

/// Makes the channels up to one, of so many in all; nothing was submitted to them. False where memory is refused. It stays a function of its
/// own, since few packets come to it.
#[inline(never)]
fn make_up_to(
    channels: &mut Vec<Outgoing>,
    alloc: Global,
    _pending: &Pending,
    channel: u8,
    all: usize,
) -> bool
    requires kept { KeepsAllIn _pending.now channels.old.items }
    requires behind { length channels.old.items ≤ channel }
    requires there { channel < all }
    ensures ends { ends_in _pending.now channels.new.items ≡ all_ends (length channels.new.items) (ends_in _pending.now channels.old.items) }
    ensures kept { KeepsAllIn _pending.now channels.new.items }
    ensures within { length channels.new.items ≤ all }
    ensures done { IsTrue result → channel < length channels.new.items }
{
    let made = channels.len();
    let count = usize::from(channel) + 1;
    if !make_room(channels, count, all) {
        return false;
    }
    for next in made..count {
        let Ok(sender) = Outgoing::open(alloc, next as u8) else {
            unreachable!()
        };
        channels.push_reserved(sender);
    }
    true
}

impl MadeSenders {
    /// No channel. It takes no memory, so it never answers E1.
    pub(crate) fn open(alloc: Global) -> Result<MadeSenders, Refusal>
        ensures senders { IfOk result (λ s. s ≡ []) }
        ensures memory { IfErr result (λ why. why ≡ Refusal.Memory) }
    {
        Ok(MadeSenders {
            channels: Vec::new(alloc),
            pending: Pending::open(alloc)?,
            ready: ChannelSet::none(),
            flying: ChannelSet::none(),
        })
    }

    /// Makes the channels up to one, of so many in all, where they aren't made yet; nothing was submitted to them. False where memory is
    /// refused; some may be made then.
    #[inline(always)]
    pub(crate) fn make_up_to(&mut self, alloc: Global, channel: u8, all: usize) -> bool
        requires within { length self.old ≤ all }
        requires there { channel < all }
        ensures made { self.new ≡ all_ends (length self.new) self.old }
        ensures within { length self.new ≤ all }
        ensures done { IsTrue result → channel < length self.new }
    {
        if usize::from(channel) < self.channels.len() {
            return true;
        }
        make_up_to(&mut self.channels, alloc, &self.pending, channel, all)
    }

    /// How many channels are made.
    pub(crate) fn len(&self) -> usize
        ensures { result ≡ length self.now }
    {
        self.channels.len()
    }

    /// `Senders::submit`, of the channels that are made.
    pub(crate) fn submit(
        &mut self,
        channel: u8,
        flags: u8,
        body: &mut Bytes,
        mtu: u32,
    ) -> Result<(), Refusal>
        requires mtu { (576 ≤ mtu) × (mtu ≤ 4096) }
        requires channel { channel < length self.old }
        ensures queued { (s : SendingEnd) → slice_get self.old channel ≡ Some s → OnOk result (self.new ≡ slice_set self.old channel (with_submitted mtu s flags body.old)) }
        ensures too_large { IsErrAnd result (λ why. why ≡ Refusal.TooLarge) ↔ (fragment_limit < piece_count (length body.old) mtu) }
        ensures refused { OnErr result ((self.new ≡ self.old) × (body.new ≡ body.old)) }
        ensures taken { OnOk result (body.new ≡ []) }
        ensures only { IfErr result (λ why. (why ≡ Refusal.TooLarge) ⊎ (why ≡ Refusal.Memory)) }
    {
        let (channels, pending) = (&mut self.channels, &mut self.pending);
        submit_on(channels, pending, channel, flags, body, mtu)?;
        self.ready.insert(channel);
        Ok(())
    }

    /// `Senders::next_due`, of the channels that are made.
    pub(crate) fn next_due(
        &mut self,
        channel: u8,
        occasion: Occasion,
        buf: &mut [u8],
        at: usize,
    ) -> Due
        requires { channel < length self.old }
        ensures { (s : SendingEnd) → slice_get self.old channel ≡ Some s
            → (t : SendingEnd) × ((self.new ≡ slice_set self.old channel t) × Did (next wire occasion s.sender) (wants_room occasion s.sender) result s t
            (record { old = buf.old; at = at; new = buf.new })) }
    {
        let due = next_due_on(
            &mut self.channels,
            &mut self.pending,
            channel,
            occasion,
            buf,
            at,
        );
        match due {
            Due::Sent { .. } => {
                note_sent(&self.channels, &self.pending, &mut self.flying, channel);
            }
            Due::Nothing => note_still(&self.channels, &self.pending, &mut self.ready, channel),
            Due::NoRoom => {}
            Due::Full => {}
        }
        due
    }

    /// `Senders::has_to_wait`, of the channels that are made.
    pub(crate) fn has_to_wait(&self, channel: u8, occasion: Occasion) -> bool
        requires { channel < length self.now }
        ensures { (s : SendingEnd) → slice_get self.now channel ≡ Some s → IsTrue result → Waits occasion s.sender }
    {
        has_to_wait_on(&self.channels, &self.pending, channel, occasion)
    }

    /// `Senders::awaits_room`, of the channels that are made.
    pub(crate) fn awaits_room(&self, channel: u8) -> bool
        requires { channel < length self.now }
        ensures { (s : SendingEnd) → slice_get self.now channel ≡ Some s → result ≡ awaits_room s.sender }
    {
        awaits_room_on(&self.channels, &self.pending, channel)
    }

    /// `Senders::next_ready`, of the channels that are made.
    pub(crate) fn next_ready(&self, from: usize) -> usize
        ensures later { from ≤ result }
        ensures still { (i : ℕ) (e : SendingEnd) → from ≤ i → i < result → slice_get self.now i ≡ Some e → IsStill e.sender }
    {
        self.ready.next(from)
    }

    /// `Senders::skip`, of the channels that are made.
    pub(crate) fn skip(&mut self, channel: u8)
        requires { channel < length self.old }
        ensures { (s : SendingEnd) → slice_get self.old channel ≡ Some s → self.new ≡ slice_set self.old channel (record s { sender = with_skipped s.sender }) }
    {
        skip_on(&mut self.channels, &mut self.pending, channel);
    }

    /// `Senders::acknowledge`, of the channels that are made.
    pub(crate) fn acknowledge(
        &mut self,
        channel: u8,
        number: u16,
        time: u16,
    ) -> Option<Acknowledged>
        requires { channel < length self.old }
        ensures told { (s : SendingEnd) → slice_get self.old channel ≡ Some s → result ≡ acknowledged s.sender number time }
        ensures ends { (s : SendingEnd) → slice_get self.old channel ≡ Some s → self.new ≡ slice_set self.old channel (record s { sender = after_match s.sender number result }) }
    {
        let told = acknowledge_on(&mut self.channels, &mut self.pending, channel, number, time);
        note_sent(&self.channels, &self.pending, &mut self.flying, channel);
        told
    }

    /// `Senders::any_ends`, of the channels that are made.
    pub(crate) fn any_ends(&self, now: u32, patience: &Patience, heard: u32) -> bool
        ensures { result ≡ list_any (λ (s : SendingEnd). list_any (ends now patience.now heard) s.sender.sent) self.now }
    {
        self.pending.any_ends(now, patience, heard)
    }

    /// `Senders::any_late`, of the channels that are made.
    pub(crate) fn any_late(&mut self, now: u32) -> bool
        ensures found { result ≡ list_any (λ (s : SendingEnd). list_any (is_late now) s.sender.sent) self.old }
        ensures same { self.new ≡ self.old }
    {
        self.pending.any_late(now)
    }

    /// `Senders::next_late`, of the channels that are made.
    pub(crate) fn next_late(&self, now: u32) -> u32
        ensures { HappensIn (λ (later : ℕ). list_any (λ (s : SendingEnd). list_any (is_late later) s.sender.sent) self.now) now result }
    {
        match self.pending.first_late(now) {
            Some(wait) => wait,
            None => look_for_late(&self.channels, &self.pending, &self.flying, now),
        }
    }

    /// `Senders::count_sent_again`, of the channels that are made.
    pub(crate) fn count_sent_again(&self, so_far: u64) -> u64
        ensures { result ≡ added so_far (count_over self.now) }
    {
        count_each(&self.channels, &self.pending, so_far)
    }

    /// `Senders::outstanding`, of the channels that are made.
    #[inline(always)]
    pub(crate) fn outstanding(&self) -> Outstanding
        ensures { result ≡ outstanding_over self.now }
    {
        self.pending.outstanding()
    }

    /// `Senders::mark`, of the channels that are made.
    pub(crate) fn mark(&mut self, tick: Tick) -> Late
        ensures marked { self.new ≡ map (marked_end tick) self.old }
        ensures late { IsLateOver tick self.old result }
    {
        let late = mark_late(&mut self.channels, &mut self.pending, tick);
        self.ready.join(&self.flying);
        late
    }

    /// `Senders::have_no_packet`, of the channels that are made.
    pub(crate) fn have_no_packet(&self) -> bool
        ensures { result ≡ list_all (λ (s : SendingEnd). not (left s.sender).packets) self.now }
    {
        have_no_packet(&self.channels, &self.pending, &self.ready)
    }

    /// `Senders::have_no_reliable`, of the channels that are made.
    pub(crate) fn have_no_reliable(&self) -> bool
        ensures { result ≡ list_all (λ (s : SendingEnd). not (left s.sender).reliable) self.now }
    {
        let mut busy = self.ready;
        busy.join(&self.flying);
        have_no_reliable(&self.channels, &self.pending, &busy)
    }

    /// `Senders::clear`, of the channels that are made.
    pub(crate) fn clear(&mut self)
        ensures { self.new ≡ map cleared_end self.old }
    {
        clear_each(&mut self.channels, &mut self.pending);
        self.ready = ChannelSet::none();
        self.flying = ChannelSet::none();
    }

    /// `Senders::narrow`, of the channels that are made.
    pub(crate) fn narrow(&mut self, count: usize)
        ensures { self.new ≡ take count self.old }
    {
        keep_first(&mut self.channels, &mut self.pending, count);
    }
}
