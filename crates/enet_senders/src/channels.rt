//! The channels of a peer.

ghost use Rattle.std.specs.Prelude.{◌≡◌, ℕ, true, false, ◌⊎◌, ◌↔◌, ◌<◌, ◌≤◌, IsTrue, OnOk, OnErr, IfOk, IfErr, IsErrAnd, Some, [], not, length, map, take, slice_get, slice_set};
ghost use Rattle.std.specs.List.{range_with_len, list_all, list_any};
ghost use Rattle.enet_rtt.specs.Clock.{HappensIn};
ghost use Rattle.enet_seq.specs.Numbering.{wire};
ghost use Rattle.enet_fragment.specs.Cutting.{piece_count};
ghost use Rattle.enet_sender.specs.CommandChoice.{fragment_limit};
ghost use Rattle.enet_sender.specs.Sender.{after_match, acknowledged, awaits_room, next, wants_room, with_skipped, ends, is_late, left};
ghost use Rattle.enet_sender.specs.Due.{SendingEnd, Did, with_submitted, new_end};
ghost use Rattle.enet_sender.specs.Waiting.{Waits};
ghost use Rattle.enet_sender.specs.Counting.{added};
ghost use Rattle.enet_senders.specs.Counting.{count_over};
ghost use Rattle.enet_senders.specs.Outstanding.{outstanding_over};
ghost use Rattle.enet_senders.specs.Senders.{IsLateOver, IsStill, marked_end, cleared_end};

use crate::senders::MadeSenders;
use bytes::Bytes;
use enet_codec::Refusal;
use enet_fragment::plan;
use enet_rtt::{Patience, Tick};
use enet_sender::{Acknowledged, Due, Late, Occasion, Outstanding};
use std::alloc::Global;
use std::marker::Model;

/// The senders of a peer's channels, with all their commands. Contracts see the list of their ends, by channel.
///
/// A channel's sender is made once a packet is submitted there, with those of the channels before it. So a peer that isn't known yet costs
/// none, and each call but `submit` does nothing for a channel that isn't made.
#[derive(Drop)]
pub struct Senders {
    alloc: Global,
    made: MadeSenders,
    /// How many channels there are.
    count: usize,
}

impl Model for Senders {
    ghost use Rattle.std.specs.Prelude.{List, ◌≤◌, length};
    ghost use Rattle.enet_sender.specs.Due.{SendingEnd};

    ghost Value = { List SendingEnd };

    ghost use Rattle.enet_senders.specs.Made.{all_ends};

    ghost view = { λ s. all_ends s.count s.made };

    ghost invariant = { λ s. length s.made ≤ s.count };
}

/// Why a packet is refused whose channel can't be made: E5 where it would be cut into too many pieces, else E1.
#[tactic(auto, unfolding(enet_fragment::specs::Cutting::planned, enet_fragment::specs::Cutting::piece_count))]
fn refusal_of(body: &Bytes, mtu: u32) -> Refusal
    requires low { 576 ≤ mtu }
    requires high { mtu ≤ 4096 }
    ensures too_large { (result ≡ Refusal.TooLarge) ↔ (fragment_limit < piece_count (length body.now) mtu) }
    ensures only { (result ≡ Refusal.TooLarge) ⊎ (result ≡ Refusal.Memory) }
{
    match plan(body.len(), mtu) {
        Some(_) => Refusal::Memory,
        None => Refusal::TooLarge,
    }
}

impl Senders {
    /// So many channels to which nothing was submitted. It takes no memory, so it never answers E1.
    pub fn open(alloc: Global, channels: u8) -> Result<Senders, Refusal>
        ensures senders { IfOk result (λ s. s ≡ map new_end (range_with_len 0 channels)) }
        ensures memory { IfErr result (λ why. why ≡ Refusal.Memory) }
    {
        Ok(Senders {
            alloc,
            made: MadeSenders::open(alloc)?,
            count: usize::from(channels),
        })
    }

    /// How many channels there are.
    pub fn len(&self) -> usize
        ensures { result ≡ length self.now }
    {
        self.count
    }

    /// Queues the commands of a packet on a channel, numbered, as `Outgoing::submit` does; `mtu` is the peer's, in bytes.
    ///
    /// E5 exactly where it would be cut into more than 16,384 pieces (our profile), then E1 where memory is refused. After
    /// either nothing has changed, and the body is still there.
    pub fn submit(
        &mut self,
        channel: u8,
        flags: u8,
        body: &mut Bytes,
        mtu: u32,
    ) -> Result<(), Refusal>
        requires mtu { (576 ≤ mtu) × (mtu ≤ 4096) }
        requires channel { channel < length self.old }
        ensures queued { (s : SendingEnd) → slice_get self.old channel ≡ Some s → OnOk result (self.new ≡ slice_set self.old channel (with_submitted mtu s flags body.old)) }
        ensures too_large { IsErrAnd result (λ why. why ≡ Refusal.TooLarge) ↔ (fragment_limit < piece_count (length body.old) mtu) }
        ensures refused { OnErr result ((self.new ≡ self.old) × (body.new ≡ body.old)) }
        ensures taken { OnOk result (body.new ≡ []) }
        ensures only { IfErr result (λ why. (why ≡ Refusal.TooLarge) ⊎ (why ≡ Refusal.Memory)) }
    {
        if !self.made.make_up_to(self.alloc, channel, self.count) {
            return Err(refusal_of(body, mtu));
        }
        self.made.submit(channel, flags, body, mtu)
    }

    /// Writes the next command of a channel at `at`, where one may go, and keeps it as sent if it is reliable, as
    /// `Outgoing::next_due` does. `NoRoom`, `Full` and `Nothing` change nothing, and the buffer stays. It takes no memory.
    pub fn next_due(&mut self, channel: u8, occasion: Occasion, buf: &mut [u8], at: usize) -> Due
        requires { channel < length self.old }
        ensures { (s : SendingEnd) → slice_get self.old channel ≡ Some s
            → (t : SendingEnd) × ((self.new ≡ slice_set self.old channel t) × Did (next wire occasion s.sender) (wants_room occasion s.sender) result s t
            (record { old = buf.old; at = at; new = buf.new })) }
    {
        if usize::from(channel) >= self.made.len() {
            return Due::Nothing;
        }
        self.made.next_due(channel, occasion, buf, at)
    }

    /// Whether a channel surely has to wait: nothing that is sent there is due to go again, the head of its queue may not go yet, and no room
    /// is to be kept for it. Where it answers true, `next_due` answers `Nothing`; it may also answer false where nothing may go.
    pub fn has_to_wait(&self, channel: u8, occasion: Occasion) -> bool
        requires { channel < length self.now }
        ensures { (s : SendingEnd) → slice_get self.now channel ≡ Some s → IsTrue result → Waits occasion s.sender }
    {
        if usize::from(channel) >= self.made.len() {
            return false;
        }
        self.made.has_to_wait(channel, occasion)
    }

    /// Whether room may be kept for a channel: something that is sent there is due to go again; or nothing is sent, and its queue begins with
    /// a reliable command.
    pub fn awaits_room(&self, channel: u8) -> bool
        requires { channel < length self.now }
        ensures { (s : SendingEnd) → slice_get self.now channel ≡ Some s → result ≡ awaits_room s.sender }
    {
        if usize::from(channel) >= self.made.len() {
            return false;
        }
        self.made.awaits_room(channel)
    }

    /// The first channel from `from` on of which something may go. Those that are passed over have nothing queued, and nothing
    /// that is due to go again; where there is no other, it is past the last one.
    pub fn next_ready(&self, from: usize) -> usize
        ensures later { from ≤ result }
        ensures still { (i : ℕ) (e : SendingEnd) → from ≤ i → i < result → slice_get self.now i ≡ Some e → IsStill e.sender }
    {
        self.made.next_ready(from)
    }

    /// Drops the rest of the unreliable packet of a channel whose first command was written last. The numbers stay used.
    pub fn skip(&mut self, channel: u8)
        requires { channel < length self.old }
        ensures { (s : SendingEnd) → slice_get self.old channel ≡ Some s → self.new ≡ slice_set self.old channel (record s { sender = with_skipped s.sender }) }
    {
        if usize::from(channel) >= self.made.len() {
            return;
        }
        self.made.skip(channel);
    }

    /// Takes out the one sent command of a channel with this number, where it was sent at this time, in milliseconds modulo 65,536, and
    /// tells of it. None, with nothing changed, where no sent command has the number, or that one wasn't sent at the time (our profile).
    pub fn acknowledge(&mut self, channel: u8, number: u16, time: u16) -> Option<Acknowledged>
        requires { channel < length self.old }
        ensures told { (s : SendingEnd) → slice_get self.old channel ≡ Some s → result ≡ acknowledged s.sender number time }
        ensures ends { (s : SendingEnd) → slice_get self.old channel ≡ Some s → self.new ≡ slice_set self.old channel (record s { sender = after_match s.sender number result }) }
    {
        if usize::from(channel) >= self.made.len() {
            return None;
        }
        self.made.acknowledge(channel, number, time)
    }

    /// Whether at the moment `now`, in milliseconds, a sent command of a channel has waited out its timeout, and its peer,
    /// heard last at `heard`, has timed out over it by `patience`.
    pub fn any_ends(&self, now: u32, patience: &Patience, heard: u32) -> bool
        ensures { result ≡ list_any (λ (s : SendingEnd). list_any (ends now patience.now heard) s.sender.sent) self.now }
    {
        self.made.any_ends(now, patience, heard)
    }

    /// Whether at the moment `now`, in milliseconds, a sent command of a channel has waited out its timeout, and is not due
    /// to go again already.
    ///
    /// It looks only at commands whose timeout has passed.
    pub fn any_late(&mut self, now: u32) -> bool
        ensures found { result ≡ list_any (λ (s : SendingEnd). list_any (is_late now) s.sender.sent) self.old }
        ensures same { self.new ≡ self.old }
    {
        self.made.any_late(now)
    }

    /// In how many milliseconds after the moment `now` a sent command of a channel has waited out its timeout first, of those
    /// that are not due to go again already: 0 where one has, and 4,294,967,295 where none waits.
    ///
    /// It looks at one command at most, unless one went 2^32 milliseconds ago. Then it looks at all that is sent, until it is asked again what
    /// is late (`any_late`, and `mark` where something is), as each tick does.
    pub fn next_late(&self, now: u32) -> u32
        ensures { HappensIn (λ (later : ℕ). list_any (λ (s : SendingEnd). list_any (is_late later) s.sender.sent) self.now) now result }
    {
        self.made.next_late(now)
    }

    /// So many, and those of all channels' commands that are sent, not acknowledged, and were sent more than once; it stops at 2^64 - 1. It
    /// looks at all that is sent.
    pub fn count_sent_again(&self, so_far: u64) -> u64
        ensures { result ≡ added so_far (count_over self.now) }
    {
        self.made.count_sent_again(so_far)
    }

    /// How many commands are queued, or sent and not acknowledged, on all channels, and the bytes of their payloads. It looks at none of
    /// them.
    #[inline(always)]
    pub fn outstanding(&self) -> Outstanding
        ensures { result ≡ outstanding_over self.now }
    {
        self.made.outstanding()
    }

    /// All that is late at the moment `tick` is due to go again, and has its next timeout (`Transmission::mark`); tells what it is
    /// together. It looks only at commands whose timeout has passed.
    pub fn mark(&mut self, tick: Tick) -> Late
        ensures marked { self.new ≡ map (marked_end tick) self.old }
        ensures late { IsLateOver tick self.old result }
    {
        self.made.mark(tick)
    }

    /// Whether no channel has a packet queued.
    pub fn have_no_packet(&self) -> bool
        ensures { result ≡ list_all (λ (s : SendingEnd). not (left s.sender).packets) self.now }
    {
        self.made.have_no_packet()
    }

    /// Whether no channel has a reliable command queued or unacknowledged.
    pub fn have_no_reliable(&self) -> bool
        ensures { result ≡ list_all (λ (s : SendingEnd). not (left s.sender).reliable) self.now }
    {
        self.made.have_no_reliable()
    }

    /// Drops all that is queued or sent. The numbers go on from where they stand.
    pub fn clear(&mut self)
        ensures { self.new ≡ map cleared_end self.old }
    {
        self.made.clear();
    }

    /// Keeps so many channels, the first ones. The commands of the others are dropped.
    pub fn narrow(&mut self, count: usize)
        ensures { self.new ≡ take count self.old }
    {
        if count < self.count {
            self.made.narrow(count);
            self.count = count;
        }
    }
}
