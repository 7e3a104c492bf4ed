//! One channel's receiver.

ghost use Rattle.std.specs.Prelude.{◌≡◌, ◌≢◌, ◌<◌, ◌^◌, ◌+◌, [], Bool, false, if◌then◌else◌, Ok, Some, None, IfOk, IfSome, IfNone, IfErr, IsTrue, MatchOption, length};
ghost use Rattle.std.specs.Option.{option_copied};
ghost use Rattle.std.specs.FinMap as map;
ghost use Rattle.enet_codec.specs.Message.{view};
ghost use Rattle.enet_seq.specs.Numbering.{wire};
ghost use Rattle.enet_seq.specs.Windows.{acknowledges, after};
ghost use Rattle.enet_fragment.specs.DataCommand.{data_of};
ghost use Rattle.enet_fragment.specs.Whole.{is_whole};
ghost use Rattle.enet_receiver.specs.ArrivingData.{data_command};
ghost use Rattle.enet_receiver.specs.Private.Admitted.{Admitted, IsInside};
ghost use Rattle.enet_receiver.specs.ReceiverParts.{with_first};
ghost use Rattle.enet_receiver.specs.Private.ReceiverParts.{with_kept, grown_at, answered_with};
ghost use Rattle.enet_receiver.specs.Private.InPlace.{ComesAlone, GoesAlone, GoesAtOnce, with_moved, only_packet_from};
ghost use Rattle.enet_receiver.specs.Private.Walk.{Completes};
ghost use Rattle.enet_packets.specs.Packets.{bytes_in, packets_in};
ghost use Rattle.enet_receiver.specs.Receiver.{held_bytes, held_packets, cleared, next_whole};
ghost use Rattle.enet_receiver.specs.DataOutcome.{outcome, outcome_of, place_read, came_at, came_before, is_behind, is_next, is_handled, dispatch_count};
ghost use Rattle.enet_receiver.specs.Foresight.{new_end, data_if, is_reliable, is_unreliable, is_fragment, is_unreliable_fragment, outcome_for, after_command, WouldBeHeld, Receives, foreseen, alone};

use crate::arriving_data::ArrivingData;
use crate::foreseeing::{Completed, dispatches};
use crate::held::Held;
use crate::releasing::release;
use crate::storing::{give_room_back, make_room, store};
use crate::{Foresight, Took};
use enet_codec::{Command, Packet, Refusal};
use enet_fragment::Put;
use enet_packets::{Bodies, Dispatched, IncomingPacket, Waiting, look_at};
use enet_seq::{acknowledges, after, fragment_in_window, in_window};
use std::alloc::Global;
use std::collections::VecDeque;
use std::marker::Model;
use std::mem;

/// One channel's receiver: it dispatches reliable packets in the order of their numbers, and unreliable ones in their places
/// between them, and holds those that came early. Contracts see it as a `ReceivingEnd`.
#[derive(Drop)]
pub struct Incoming {
    alloc: Global,
    channel: u8,
    /// The most bytes of a packet.
    max_packet: u32,
    /// The number of the last reliable command that was dispatched.
    front: u16,
    /// The last unreliable number that was dispatched since.
    unreliable: u16,
    /// Reliable packets past the front, by the number of their first piece.
    held: Held,
    /// Unreliable packets, by the reliable number for which they wait.
    waiting: Waiting,
    /// What was dispatched and not taken yet, in order.
    dispatched: VecDeque<Dispatched>,
}

impl Model for Incoming {
    ghost use Rattle.enet_receiver.specs.Foresight.{ReceivingEnd};
    ghost use Rattle.enet_receiver.specs.Codes.{receiving_code};

    ghost Value = { ReceivingEnd };

    ghost coded = { receiving_code };

    ghost use Rattle.enet_receiver.specs.Invariant.{Keeps};
    ghost use Rattle.enet_receiver.specs.ReceiverParts.{receiver_of};

    ghost view = { λ s. record {
      channel = s.channel;
      max_packet = s.max_packet;
      receiver = receiver_of s.front s.unreliable s.held s.waiting s.dispatched.items;
    } };

    ghost invariant = { λ s. Keeps s.max_packet (receiver_of s.front s.unreliable s.held s.waiting s.dispatched.items) };
}

/// Whether an outcome lets a command be acknowledged.
fn is_handled(took: Took) -> bool
    ensures { result ≡ is_handled took }
{
    match took {
        Took::Held | Took::Again | Took::Outside => true,
        Took::Bad | Took::Waiting | Took::Memory => false,
    }
}

impl Incoming {
    /// A receiver of `channel` to which nothing came, for packets of at most `max_packet` bytes. It takes no memory, so it
    /// never answers E1.
    pub fn open(alloc: Global, channel: u8, max_packet: u32) -> Result<Incoming, Refusal>
        ensures { result ≡ Ok (new_end channel max_packet) }
    {
        Ok(Incoming {
            alloc,
            channel,
            max_packet,
            front: 0,
            unreliable: 0,
            held: Held::new(alloc),
            waiting: Waiting::new(alloc),
            dispatched: VecDeque::new(alloc),
        })
    }

    /// Takes a SEND_RELIABLE in; `full` says that the bytes or the packets that wait at the peer are at their limit or above.
    ///
    /// The outcome is the first that applies of `Bad`, `Outside`, `Again`, `Waiting`, `Memory` and `Held` (ENet 1.3's window
    /// rule; the order is our profile). Where it is `Held`, what it completes is dispatched in this call. All other outcomes
    /// change nothing. A command that is not SEND_RELIABLE is `Bad`.
    pub fn reliable(&mut self, command: &Command<'_>, full: bool) -> Took
        ensures { Receives (data_if (is_reliable (view command.now).body) (view command.now)) full result self.old self.new }
    {
        let Command::SendReliable { head, payload } = command else {
            return Took::Bad;
        };
        let arriving = ArrivingData {
            head: *head,
            reliable: true,
            unreliable: 0,
            fragment: None,
            payload,
        };
        self.receive(arriving, full)
    }

    /// Takes a SEND_UNRELIABLE in, as `reliable` does a SEND_RELIABLE. It is `Again` too where its unreliable number is not
    /// above the last one dispatched with its reliable number (ENet 1.3).
    pub fn unreliable(&mut self, command: &Command<'_>, full: bool) -> Took
        ensures { Receives (data_if (is_unreliable (view command.now).body) (view command.now)) full result self.old self.new }
    {
        let Command::SendUnreliable {
            head,
            unreliable,
            payload,
        } = command
        else {
            return Took::Bad;
        };
        let arriving = ArrivingData {
            head: *head,
            reliable: false,
            unreliable: *unreliable,
            fragment: None,
            payload,
        };
        self.receive(arriving, full)
    }

    /// Takes a SEND_FRAGMENT in, as `reliable` does a SEND_RELIABLE. It is `Bad` too where it can't be a piece of a packet, or
    /// of the one that is held under its start, or its number is not that of its piece (our profile), and `Outside` too where
    /// its start is.
    pub fn fragment(&mut self, command: &Command<'_>, full: bool) -> Took
        ensures { Receives (data_if (is_fragment (view command.now).body) (view command.now)) full result self.old self.new }
    {
        let Command::SendFragment {
            head,
            fragment,
            payload,
        } = command
        else {
            return Took::Bad;
        };
        let arriving = ArrivingData {
            head: *head,
            reliable: true,
            unreliable: 0,
            fragment: Some(*fragment),
            payload,
        };
        self.receive(arriving, full)
    }

    /// Takes a SEND_UNRELIABLE_FRAGMENT in, as `unreliable` does a SEND_UNRELIABLE. It is `Bad` too where it can't be a piece
    /// of a packet, or of the one that waits (our profile).
    pub fn unreliable_fragment(&mut self, command: &Command<'_>, full: bool) -> Took
        ensures { Receives (data_if (is_unreliable_fragment (view command.now).body) (view command.now)) full result self.old self.new }
    {
        let Command::SendUnreliableFragment {
            head,
            fragment,
            payload,
        } = command
        else {
            return Took::Bad;
        };
        let arriving = ArrivingData {
            head: *head,
            reliable: false,
            unreliable: fragment.start,
            fragment: Some(*fragment),
            payload,
        };
        self.receive(arriving, full)
    }

    /// What the call for this command would do with ample memory: its outcome, whether the command is acknowledged, and how
    /// many packets it would dispatch. A command that is not sequenced data is `Bad`.
    ///
    /// A command is not acknowledged where it is `Bad` or `Waiting`, nor where its window is the seventh or the eighth past
    /// that of the last dispatched number (ENet 1.3). Late and repeated ones are. Whether the command asks for it, by its own
    /// flag, is for the caller to test.
    pub fn foresee(&self, command: &Command<'_>, full: bool) -> Foresight
        ensures { result ≡ foreseen self.now (data_of (view command.now)) full }
    {
        match ArrivingData::of(command) {
            Some(arriving) => self.foresee_data(arriving, full),
            None => Foresight {
                took: Took::Bad,
                acknowledged: false,
                dispatches: 0,
            },
        }
    }

    /// What `foresee` tells of a sequenced data command, which is taken apart already.
    #[inline]
    pub fn foresee_data(&self, arriving: ArrivingData<'_>, full: bool) -> Foresight
        ensures { result ≡ foreseen self.now (Some (data_command arriving.entry)) full }
    {
        if !full && self.goes_at_once(arriving) {
            return self.answer(Took::Held, arriving.head.number, 1);
        }
        self.foresee_in_full(arriving, full)
    }

    /// The same of any such command. It stays a function of its own: where it is part of `foresee_data`, that is too long to
    /// become part of its caller, which then copies each command for it.
    #[inline(never)]
    fn foresee_in_full(&self, arriving: ArrivingData<'_>, full: bool) -> Foresight
        ensures { result ≡ foreseen self.now (Some (data_command arriving.entry)) full }
    {
        match self.admit(arriving, full) {
            Ok(place) => {
                let dispatches = self.dispatches(arriving, place);
                self.answer(Took::Held, arriving.head.number, dispatches)
            }
            Err(took) => self.answer(took, arriving.head.number, 0),
        }
    }

    /// Takes a command in of which `foresee_data` told that it would be held, without looking at that again. False, with
    /// nothing changed, where memory is refused.
    pub fn take_in(&mut self, arriving: ArrivingData<'_>) -> bool
        requires { WouldBeHeld self.old (Some (data_command arriving)) }
        ensures taken { IsTrue result → ((full : Bool) → outcome_for self.old (Some (data_command arriving.entry)) full ≡ Took.Held
            → self.new ≡ after_command self.old (Some (data_command arriving.entry)) full) }
        ensures unchanged { result ≡ false → self.new ≡ self.old }
    {
        look_at(&self.held);
        self.keep(arriving, arriving.own_place())
    }

    /// Takes a command in of which `foresee_data` told that it would be held, and hands its packet out at once, where that comes
    /// alone: the next one in order or an unreliable one of the front, whole, while nothing that is held or waits would go with it
    /// and nothing was dispatched and not popped. It is the packet that `pop` would give after `take_in`, and none is left to pop.
    /// None, with nothing changed, where it doesn't come alone or memory is refused. Its body is one of those of its peer's packets.
    pub fn take_in_at_once(
        &mut self,
        arriving: ArrivingData<'_>,
        bodies: &mut Bodies,
    ) -> Option<Packet>
        requires { WouldBeHeld self.old (Some (data_command arriving)) }
        ensures taken { IfSome result (λ packet. (full : Bool) → outcome_for self.old (Some (data_command arriving.entry)) full ≡ Took.Held
            → after_command self.old (Some (data_command arriving.entry)) full ≡ with_first self.new packet) }
        ensures channel { IfSome result (λ packet. packet.channel ≡ self.old.channel) }
        ensures none_left { IfSome result (λ _. self.new.receiver.dispatched ≡ []) }
        ensures unchanged { IfNone result (self.new ≡ self.old) }
        ensures bytes { held_bytes self.new.receiver ≡ held_bytes self.old.receiver }
        ensures packets { held_packets self.new.receiver ≡ held_packets self.old.receiver }
    {
        if !self.dispatched.is_empty() || !self.comes_alone(arriving) {
            return None;
        }
        self.hand_out(arriving, bodies)
    }

    /// Takes a command in that would be held while the peer isn't full, and that may be acknowledged, and hands its packet out at once,
    /// where that comes alone, as `take_in_at_once` does: the caller needn't ask `foresee_data` before. None, with nothing changed,
    /// where it wouldn't be held, its packet doesn't come alone or memory is refused. The contract says what holds where it gives a
    /// packet, not when it must.
    #[inline(always)]
    pub fn take_at_once(
        &mut self,
        arriving: ArrivingData<'_>,
        bodies: &mut Bodies,
    ) -> Option<Packet>
        ensures held { IfSome result (λ _. outcome_for self.old (Some (data_command arriving.entry)) false ≡ Took.Held) }
        ensures acknowledged { IfSome result (λ _. IsTrue (acknowledges self.old.receiver.front arriving.entry.head.number)) }
        ensures taken { IfSome result (λ packet. after_command self.old (Some (data_command arriving.entry)) false ≡ with_first self.new packet) }
        ensures channel { IfSome result (λ packet. packet.channel ≡ self.old.channel) }
        ensures none_left { IfSome result (λ _. self.new.receiver.dispatched ≡ []) }
        ensures unchanged { IfNone result (self.new ≡ self.old) }
        ensures bytes { held_bytes self.new.receiver ≡ held_bytes self.old.receiver }
        ensures packets { held_packets self.new.receiver ≡ held_packets self.old.receiver }
    {
        if !self.dispatched.is_empty() || !self.goes_at_once(arriving) {
            return None;
        }
        self.hand_out(arriving, bodies)
    }

    /// Takes a command in, as `take_in` does, where the unreliable packets that wait or are in the making make room for it: they
    /// are given up first. False, with nothing changed, where memory is refused.
    pub fn take_in_instead(&mut self, arriving: ArrivingData<'_>) -> bool
        requires { WouldBeHeld (alone self.old) (Some (data_command arriving)) }
        ensures taken { IsTrue result → ((full : Bool) → outcome_for (alone self.old) (Some (data_command arriving.entry)) full ≡ Took.Held
            → self.new ≡ after_command (alone self.old) (Some (data_command arriving.entry)) full) }
        ensures unchanged { result ≡ false → self.new ≡ self.old }
    {
        let aside = mem::replace(&mut self.waiting, Waiting::new(self.alloc));
        if self.take_in(arriving) {
            return true;
        }
        self.waiting = aside;
        false
    }

    /// How many packets `take_in_instead` would dispatch. Nothing changes.
    pub fn dispatches_instead(&mut self, arriving: ArrivingData<'_>) -> u32
        ensures count { result ≡ (foreseen (alone self.old) (Some (data_command arriving.entry)) false).dispatches }
        ensures unchanged { self.new ≡ self.old }
    {
        let aside = mem::replace(&mut self.waiting, Waiting::new(self.alloc));
        let foresight = self.foresee_data(arriving, false);
        self.waiting = aside;
        foresight.dispatches
    }

    /// Gives the unreliable packets up that wait or are in the making.
    pub fn give_way(&mut self)
        ensures { self.new ≡ alone self.old }
    {
        self.waiting.clear();
        self.give_room_back();
    }

    /// Whether the number of a command is the next one in order, of a reliable command, or that of the front, of an unreliable one past the
    /// last that was dispatched. No packet of another is handed out at once, so this is asked before all else of it.
    #[inline(always)]
    pub fn is_in_place(&self, arriving: ArrivingData<'_>) -> bool
        ensures at { IsTrue result → arriving.entry.head.number ≡ (if arriving.entry.reliable then after self.now.receiver.front 1 else self.now.receiver.front) }
        ensures not_behind { IsTrue result → is_behind self.now.receiver (data_command arriving.entry) arriving.entry.head.number ≡ false }
    {
        arriving.head.number == self.place_in_order(arriving.reliable)
            && !self.is_behind(arriving, arriving.head.number)
    }

    /// Whether a command is of the packet just past the front, the next that is dispatched.
    pub fn is_next(&self, arriving: ArrivingData<'_>) -> bool
        ensures { result ≡ is_next self.now.receiver (data_command arriving.entry) }
    {
        arriving.reliable && arriving.start() == after(self.front, 1)
    }

    /// The bytes of the packets that are held or wait until those before them have come, each counted whole from its first
    /// piece on. Dispatched packets do not count, whether they were popped or not.
    pub fn held(&self) -> u64
        ensures { result ≡ held_bytes self.now.receiver }
    {
        self.held.bytes() + self.waiting.bytes()
    }

    /// The bytes that `held` counts of unreliable packets.
    pub fn waiting(&self) -> u64
        ensures { result ≡ bytes_in self.now.receiver.waiting }
    {
        self.waiting.bytes()
    }

    /// How many packets are held, wait or are in the making. Dispatched packets do not count.
    pub fn packets(&self) -> usize
        ensures packets { result ≡ held_packets self.now.receiver }
        ensures few { result < 2 ^ 32 }
    {
        self.held.len() + self.waiting.packets()
    }

    /// How many of those that `packets` counts are unreliable.
    pub fn waiting_packets(&self) -> usize
        ensures { result ≡ packets_in self.now.receiver.waiting }
    {
        self.waiting.packets()
    }

    /// The channel whose receiver it is.
    pub fn channel(&self) -> u8
        ensures { result ≡ self.now.channel }
    {
        self.channel
    }

    /// The next dispatched packet, in the order in which they were dispatched; None where none is left. It takes no memory, and gives
    /// back what room is left over where none is left.
    pub fn pop(&mut self) -> Option<Packet>
        ensures { MatchOption result ((self.old.receiver.dispatched ≡ []) × (self.new ≡ self.old))
            (λ packet. (packet.channel ≡ self.old.channel) × (self.old ≡ with_first self.new packet)) }
    {
        let Some(dispatched) = self.dispatched.pop_front() else {
            self.give_room_back();
            return None;
        };
        Some(Packet {
            channel: self.channel,
            flags: dispatched.flags,
            body: dispatched.body,
        })
    }

    /// Gives back what room to dispatch packets is left over.
    fn give_room_back(&mut self)
        ensures { self.new ≡ self.old }
    {
        give_room_back(self.alloc, &self.held, &self.waiting, &mut self.dispatched);
    }

    /// Lets all go that is held or waits; what was dispatched stays.
    pub fn clear(&mut self)
        ensures { self.new ≡ record self.old { receiver = cleared self.old.receiver } }
    {
        self.held.clear();
        self.waiting.clear();
        self.give_room_back();
    }

    /// Takes a command in.
    fn receive(&mut self, arriving: ArrivingData<'_>, full: bool) -> Took
        ensures { Receives (Some (data_command arriving.entry)) full result self.old self.new }
    {
        match self.admit(arriving, full) {
            Ok(place) => {
                if self.keep(arriving, place) {
                    Took::Held
                } else {
                    Took::Memory
                }
            }
            Err(took) => took,
        }
    }

    /// Keeps a command that is taken in, and dispatches what that completes. False, with nothing changed, where memory is
    /// refused.
    fn keep(&mut self, arriving: ArrivingData<'_>, place: u16) -> bool
        requires short { length arriving.payload.now < 2 ^ 32 }
        requires admitted { Admitted self.old.max_packet self.old.receiver (data_command arriving) place }
        requires inside { IsInside self.old.receiver.front place }
        ensures kept { IsTrue result → self.new ≡ with_kept self.old (data_command arriving.entry) place }
        ensures unchanged { result ≡ false → self.new ≡ self.old }
    {
        if !make_room(&self.held, &self.waiting, &mut self.dispatched) {
            return false;
        }
        if !store(
            self.alloc,
            &mut self.held,
            &mut self.waiting,
            place,
            arriving,
        ) {
            return false;
        }
        release(
            &mut self.front,
            &mut self.unreliable,
            &mut self.held,
            &mut self.waiting,
            &mut self.dispatched,
        );
        true
    }

    /// Whether a command is a whole packet that is dispatched as it comes, and nothing else with it: the next reliable one in
    /// order, or an unreliable one that goes with the front.
    #[inline(always)]
    fn comes_alone(&self, arriving: ArrivingData<'_>) -> bool
        ensures { IsTrue result → ComesAlone self.now.receiver (data_command arriving.entry) }
    {
        arriving.fragment.is_none()
            && arriving.head.number == self.place_in_order(arriving.reliable)
            && self.goes_alone(arriving.reliable, arriving.head.number)
    }

    /// Whether nothing goes with a packet that is dispatched as it comes.
    fn goes_alone(&self, reliable: bool, number: u16) -> bool
        ensures { IsTrue result → GoesAlone self.now.receiver reliable number }
    {
        self.holds_nothing() || self.finds_none(reliable, number)
    }

    /// Whether nothing is held and nothing waits.
    fn holds_nothing(&self) -> bool
        ensures held { IsTrue result → map.len self.now.receiver.held ≡ 0 }
        ensures waiting { IsTrue result → map.len self.now.receiver.waiting ≡ 0 }
    {
        self.held.len() == 0 && self.waiting.is_empty()
    }

    /// The same where something is held or waits. It stays a function of its own, since few commands come to it.
    #[inline(never)]
    fn finds_none(&self, reliable: bool, number: u16) -> bool
        ensures { IsTrue result → GoesAlone self.now.receiver reliable number }
    {
        !self.waiting.has_line(number)
            && !self.has_whole(after(number, 1))
            && (!reliable || self.held.get(number).is_none() && !self.waiting.has_line(self.front))
    }

    /// Whether a whole packet is held under this number.
    fn has_whole(&self, number: u16) -> bool
        ensures { result ≡ false → next_whole (map.get self.now.receiver.held number) ≡ None }
    {
        match self.held.get(number) {
            None => false,
            Some(coming) => coming.making.is_whole(),
        }
    }

    /// The number with which a packet goes that is dispatched as it comes.
    fn place_in_order(&self, reliable: bool) -> u16
        ensures { result ≡ (if reliable then after self.now.receiver.front 1 else self.now.receiver.front) }
    {
        if reliable {
            after(self.front, 1)
        } else {
            self.front
        }
    }

    /// Whether a command is taken in and is all that this dispatches, so that no more has to be looked at.
    #[inline(always)]
    fn goes_at_once(&self, arriving: ArrivingData<'_>) -> bool
        ensures { IsTrue result → GoesAtOnce self.now.max_packet self.now.receiver (data_command arriving.entry) }
    {
        arriving.payload.len() <= self.max_packet as usize
            && self.is_in_place(arriving)
            && self.comes_alone(arriving)
    }

    /// Hands a packet of one command out that comes in its place. None, with nothing changed, where memory is refused.
    #[inline(always)]
    fn hand_out(&mut self, arriving: ArrivingData<'_>, bodies: &mut Bodies) -> Option<Packet>
        requires admitted { Admitted self.old.max_packet self.old.receiver (data_command arriving) arriving.head.number }
        requires inside { IsInside self.old.receiver.front arriving.head.number }
        requires alone { ComesAlone self.old.receiver (data_command arriving) }
        ensures moved { IfSome result (λ _. self.new ≡ with_moved self.old (data_command arriving.entry)) }
        ensures packet { IfSome result (λ packet. packet ≡ only_packet_from self.old.channel (data_command arriving.entry)) }
        ensures unchanged { IfNone result (self.new ≡ self.old) }
    {
        let Ok(body) = bodies.body(self.alloc, arriving.payload) else {
            return None;
        };
        self.front = arriving.head.number;
        self.unreliable = arriving.last_unreliable();
        Some(Packet {
            channel: self.channel,
            flags: arriving.flags(),
            body,
        })
    }

    /// What is foreseen of a command of this outcome.
    fn answer(&self, took: Took, number: u16, dispatches: u32) -> Foresight
        ensures { result ≡ answered_with self.now took number dispatches }
    {
        Foresight {
            took,
            acknowledged: is_handled(took) && acknowledges(self.front, number),
            dispatches,
        }
    }

    /// The number under which a command's packet is held or for which it waits, if it would be taken in; else what becomes of
    /// it, with ample memory.
    fn admit(&self, arriving: ArrivingData<'_>, full: bool) -> Result<u16, Took>
        ensures held { IfOk result (λ place. (outcome wire self.now.max_packet self.now.receiver (data_command arriving.entry) full ≡ Took.Held) × (place_read wire self.now.receiver (data_command arriving.entry) ≡ Some place)) }
        ensures inside { IfOk result (λ place. IsInside self.now.receiver.front place) }
        ensures short { IfOk result (λ _. length arriving.entry.payload.now < 2 ^ 32) }
        ensures other { IfErr result (λ took. took ≡ outcome wire self.now.max_packet self.now.receiver (data_command arriving.entry) full) }
        ensures known { IfErr result (λ took. (took ≢ Took.Held) × (took ≢ Took.Memory)) }
    {
        if !arriving.is_piece(self.max_packet) {
            return Err(Took::Bad);
        }
        let earlier = self.came_before(arriving);
        if !arriving.agrees_with(earlier) {
            return Err(Took::Bad);
        }
        let Some(place) = self.place_read(arriving) else {
            return Err(Took::Outside);
        };
        match self.outcome_of(arriving, full, place, earlier) {
            Took::Held => Ok(place),
            took => Err(took),
        }
    }

    /// The number under which its packet is held, or for which it waits, if it is inside the window.
    fn place_read(&self, arriving: ArrivingData<'_>) -> Option<u16>
        ensures value { result ≡ place_read wire self.now.receiver (data_command arriving.entry) }
        ensures inside { IfSome result (λ place. IsInside self.now.receiver.front place) }
    {
        if arriving.reliable {
            let start = arriving.start();
            fragment_in_window(self.front, start, arriving.head.number).then_some(start)
        } else {
            in_window(self.front, arriving.head.number).then_some(arriving.head.number)
        }
    }

    /// What came of its packet, wherever its own number is; nothing where the number that names the packet is outside the window.
    fn came_before(&self, arriving: ArrivingData<'_>) -> Option<&IncomingPacket>
        ensures { option_copied result ≡ came_before wire self.now.receiver (data_command arriving.entry) }
    {
        let place = arriving.own_place();
        if in_window(self.front, place) {
            self.earlier(arriving, place)
        } else {
            None
        }
    }

    /// What came of its packet.
    fn earlier(&self, arriving: ArrivingData<'_>, place: u16) -> Option<&IncomingPacket>
        ensures { option_copied result ≡ came_at self.now.receiver (data_command arriving.entry) place }
    {
        if arriving.reliable {
            self.held.get(place)
        } else {
            self.waiting.get(place, arriving.unreliable)
        }
    }

    /// Whether its packet was dispatched, or has fallen behind.
    fn is_behind(&self, arriving: ArrivingData<'_>, place: u16) -> bool
        ensures { result ≡ is_behind self.now.receiver (data_command arriving.entry) place }
    {
        place == self.front && (arriving.reliable || arriving.unreliable <= self.unreliable)
    }

    /// What becomes of it at its place, where this came of its packet.
    fn outcome_of(
        &self,
        arriving: ArrivingData<'_>,
        full: bool,
        place: u16,
        earlier: Option<&IncomingPacket>,
    ) -> Took
        requires { length arriving.payload.now < 2 ^ 32 }
        ensures value { result ≡ outcome_of self.now.receiver (data_command arriving.entry) full place (option_copied earlier.entry) }
        ensures known { result ≢ Took.Memory }
    {
        if self.is_behind(arriving, place) || arriving.came(earlier) {
            return Took::Again;
        }
        if full && earlier.is_none() {
            Took::Waiting
        } else {
            Took::Held
        }
    }

    /// The packet that a command makes whole once it is taken in, if it does.
    fn completed(&self, arriving: ArrivingData<'_>, place: u16) -> Option<Completed>
        requires short { length arriving.payload.now < 2 ^ 32 }
        requires admitted { Admitted self.now.max_packet self.now.receiver (data_command arriving) place }
        ensures { Completes result self.now.receiver (data_command arriving.entry) place }
    {
        if !self.completes(arriving, place) {
            return None;
        }
        Some(Completed {
            reliable: arriving.reliable,
            place,
            unreliable: arriving.unreliable,
            pieces: arriving.piece().count,
        })
    }

    /// Whether a command that is taken in makes its packet whole.
    fn completes(&self, arriving: ArrivingData<'_>, place: u16) -> bool
        requires short { length arriving.payload.now < 2 ^ 32 }
        requires admitted { Admitted self.now.max_packet self.now.receiver (data_command arriving) place }
        ensures { result ≡ is_whole (grown_at self.now.receiver (data_command arriving.entry) place).making }
    {
        match self.earlier(arriving, place) {
            None => arriving.piece().count == 1,
            Some(coming) => match coming.making.foresee(arriving.place()) {
                Put::Whole => true,
                _ => false,
            },
        }
    }

    /// How many packets a command that is taken in dispatches.
    fn dispatches(&self, arriving: ArrivingData<'_>, place: u16) -> u32
        requires short { length arriving.payload.now < 2 ^ 32 }
        requires admitted { Admitted self.now.max_packet self.now.receiver (data_command arriving) place }
        requires inside { IsInside self.now.receiver.front place }
        ensures { (full : Bool) → outcome wire self.now.max_packet self.now.receiver (data_command arriving.entry) full ≡ Took.Held
            → result ≡ dispatch_count wire self.now.max_packet self.now.receiver (data_command arriving.entry) full }
    {
        dispatches(
            self.completed(arriving, place),
            &self.held,
            &self.waiting,
            self.front,
            self.unreliable,
        )
    }
}
