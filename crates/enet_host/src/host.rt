//! A host, and what it does with slots, datagrams and time.

ghost use Rattle.std.specs.Prelude.{◌≡◌, ◌≤◌, true, IfSome, IfErr, OnOk, OnErr};
ghost use Rattle.std.specs.List.{list_any};
ghost use Rattle.enet_host.specs.Host.{Keeps, KeepsRest};
ghost use Rattle.enet_host.specs.Opening.{opened, joined, Opens, host_basis, Connects};
ghost use Rattle.enet_host.specs.Receiving.{Receives};
ghost use Rattle.enet_host.specs.Shown.{KeepsHost};
ghost use Rattle.enet_slot.specs.Sharing.{wants_room};
ghost use Rattle.enet_slot.specs.Slotted.{all_shown};
ghost use Rattle.enet_host.specs.Serving.{Serves};
ghost use Rattle.enet_host.specs.Ticking.{ticked, clock_after};
ghost use Rattle.enet_host.specs.Calls.{with_bandwidth, with_secret, with_send_limit, Admits, Takes};

use crate::connecting::connect;
use crate::credits::{Credit, count_went, no_credits};
use crate::emitting::emit;
use crate::events::take_from;
use crate::receiving::receive;
use crate::ticking::pass_time;
use crate::totals::Totals;
use crate::turns::slot_after;
use enet_codec::{Addr, Admission, Config, Event, PeerRef, Received, Refusal, Secret};
use enet_outbox::SendLimit;
use enet_sleepers::{Seats, Sleepers, Unproved};
use enet_slot::{Question, Slot, Start, joined_slots, set_bandwidth, unused_slots};
use std::alloc::Global;
use std::marker::Model;

/// The longest tick, in milliseconds (our profile).
const LONGEST_TICK: u32 = 60_000;

/// The clock after so many milliseconds, of which a minute counts at most.
fn clock_after(clock: u32, ms: u32) -> u32
    ensures { result ≡ clock_after clock ms }
{
    clock.wrapping_add(ms.min(LONGEST_TICK))
}

/// A host of ENet 1.3 without a socket. It has a fixed number of slots, each of which is free or holds one peer; contracts see
/// it as a `Host`: its settings, clock and totals, and what each slot holds. Times are in milliseconds.
#[derive(Drop)]
pub struct HostCore {
    /// Its settings and its clock.
    pub(crate) start: Start,
    /// When the bandwidth was last shared out, at first the opening.
    pub(crate) shared_at: u32,
    /// The slot that is asked first for a datagram.
    pub(crate) service_from: u16,
    /// The slot that is asked first for an event.
    pub(crate) event_from: u16,
    pub(crate) totals: Totals,
    pub(crate) slots: Vec<Slot>,
    /// Which of the slots sleep.
    pub(crate) sleepers: Sleepers,
    /// At which slot each connection may be found.
    pub(crate) seats: Seats,
    /// Since when the peers of slots wait for their clients.
    pub(crate) unproved: Unproved,
    /// By slot, what its peer's address sent for it and got.
    pub(crate) credits: Vec<Credit>,
    /// At how much queued or unacknowledged a peer takes no further packet.
    pub(crate) send_limit: Option<SendLimit>,
}

impl Model for HostCore {
    ghost use Rattle.enet_host.specs.Host.{Host};
    ghost use Rattle.enet_slot.specs.Slotted.{all_shown};
    ghost use Rattle.enet_host.specs.Shown.{KeepsHost};
    ghost use Rattle.std.specs.Coded.{codes};
    ghost use Rattle.enet_inbox.specs.Codes.{inbox_code};

    ghost Value = { Host };

    ghost coded = { Prim.hlevel (codes, inbox_code) };

    ghost view = { λ h. record {
      config = h.start.config;
      clock = h.start.clock;
      shared_at = h.shared_at;
      service_from = h.service_from;
      event_from = h.event_from;
      totals = h.totals;
      slots = all_shown h.slots.items;
      credits = h.credits.items;
      send_limit = h.send_limit;
    } };

    ghost invariant = { λ h. KeepsHost (record { peers = h.start.config.peers; clock = h.start.clock; generations = h.start.config.generations; max_packet = h.start.config.max_packet; max_waiting = h.start.config.max_waiting; service_from = h.service_from; event_from = h.event_from }) h.sleepers h.seats h.unproved h.slots.items };
}

impl HostCore {
    /// A host with these settings, whose slots are all free. E8 where a number of the settings is out of its range, E1 where
    /// memory is refused.
    pub fn open(alloc: Global, config: Config) -> Result<HostCore, Refusal>
        ensures { Opens config result (opened config) }
    {
        if !config.is_in_range() {
            return Err(Refusal::BadConfig);
        }
        let slots = unused_slots(alloc, config.peers)?;
        let sleepers = Sleepers::new(alloc, config.peers, config.clock)?;
        let seats = Seats::new(alloc, config.peers, config.secret)?;
        let unproved = Unproved::new(alloc, config.peers, config.clock)?;
        let credits = no_credits(alloc, config.peers)?;
        Ok(HostCore::with_slots(alloc, config, slots, sleepers, seats, unproved, credits))
    }

    /// A law: a slot has at most 4,294,967,295 generations, and none holds a peer that is free.
    pub fn keeps(&self)
        ensures { Keeps self.now }
    {
        let _ = &self.slots;
    }

    /// A host that is connected from the start: slot 0, in generation 0, to slot 0 of a host at this address, with the
    /// channels and the mtu of the settings, sessions and connect id 0; number 1 of channel 0xFF counts as sent, and no event
    /// waits (our profile, for trials of two hosts). E8 and E1 as by `open`.
    pub fn joined(alloc: Global, config: Config, address: Addr) -> Result<HostCore, Refusal>
        ensures { Opens config result (joined config address) }
    {
        if !config.is_in_range() {
            return Err(Refusal::BadConfig);
        }
        let slots = joined_slots(alloc, &config, address)?;
        let sleepers = Sleepers::new(alloc, config.peers, config.clock)?;
        let mut seats = Seats::new(alloc, config.peers, config.secret)?;
        seats.enter(0, address, 0);
        let unproved = Unproved::new(alloc, config.peers, config.clock)?;
        let credits = no_credits(alloc, config.peers)?;
        Ok(HostCore::with_slots(alloc, config, slots, sleepers, seats, unproved, credits))
    }

    /// A host with these settings and slots, to which nothing has happened.
    fn with_slots(
        alloc: Global,
        config: Config,
        slots: Vec<Slot>,
        sleepers: Sleepers,
        seats: Seats,
        unproved: Unproved,
        credits: Vec<Credit>,
    ) -> HostCore
        requires { KeepsHost (record { peers = config.peers; clock = config.clock; generations = config.generations; max_packet = config.max_packet; max_waiting = config.max_waiting; service_from = 0; event_from = 0 }) sleepers seats unproved slots.items }
        ensures { result ≡ record (opened config) { slots = all_shown slots.items; credits = credits.items } }
    {
        HostCore {
            start: Start {
                alloc,
                config,
                clock: config.clock,
            },
            shared_at: config.clock,
            service_from: 0,
            event_from: 0,
            totals: Totals::none(),
            slots,
            sleepers,
            seats,
            unproved,
            credits,
            send_limit: None,
        }
    }

    /// Asks the host at this address for a connection with so many channels, from the lowest slot that is free and has a
    /// generation left. `info` is told to the other host's user (ENet's `data`), `word` is the connect id (ENet's `connectID`). E8 for no channels, E7
    /// where there is no such slot, E1 where memory is refused; after each of them nothing has changed.
    pub fn connect(
        &mut self,
        address: Addr,
        channels: u8,
        info: u32,
        word: u32,
    ) -> Result<PeerRef, Refusal>
        ensures connects { Connects (host_basis self.old) self.old.slots (record { address = address; channels = channels; info = info; word = word }) result self.new.slots }
        ensures rest { KeepsRest self.old self.new }
    {
        let question = Question {
            address,
            channels,
            info,
            word,
        };
        connect(
            &mut self.slots,
            &mut self.sleepers,
            &mut self.seats,
            &self.start,
            question,
        )
    }

    /// A datagram comes from an address. It goes to the peer of the slot that its header names, or is the offer of one who has
    /// no peer yet (ENet 1.3). The stop is the first that applies: S1 where the header is cut short, S2 where the datagram is
    /// compressed, S3 for a stranger's datagram that is anything but one CONNECT and where the slot is free, has ended or is
    /// parting, S4 where the peer is at another address, S5 where its session is another, once the other end's slot is known.
    /// Of an offer S6 where it names no slot, S8 where it asks for no channel or for more than 255, S13 where no slot is free
    /// that has a generation left and none is given up (`Config::gives_way`), or as many peers of the address are there as may be and none of
    /// them is given up (`Config::of_address`), S11 where memory is refused; an offer of a connection that is there has no effect.
    /// Else it is the stop of the first command that the peer stops: the commands before it have taken effect, and the stopped one has
    /// none, that of S12 excepted. Each datagram counts in the totals. Its bytes count for the peer to whose slot it comes from the peer's
    /// address, and an offer's for the peer that it is or becomes, also where the datagram is stopped: see `tick`. Where `Config::of_address`
    /// is set and no more peers of an address were there, no more are there afterwards.
    pub fn receive(&mut self, from: Addr, bytes: &[u8]) -> Received
        ensures { Receives self.old from bytes.now result self.new }
    {
        self.totals = self.totals.with_datagram_in(bytes.len());
        receive(
            &mut self.slots,
            &mut self.sleepers,
            &mut self.seats,
            &mut self.unproved,
            &mut self.credits,
            &self.start,
            from,
            bytes,
        )
    }

    /// Gives one datagram to send, and does no more: ENet's `enet_host_service` also receives and dispatches. It is one of the
    /// next slot that has something to send: whose it is, where it goes, and how many bytes of the buffer it has. Slots are asked in turn, beginning after the one that was served last, at first with slot 0. The peer is named
    /// as it was before the call. None where no slot has something to send. It takes no memory.
    pub fn service(&mut self, buf: &mut [u8; 4096]) -> Option<(PeerRef, Addr, usize)>
        ensures serves { Serves self.old result buf.new self.new }
        ensures fits { IfSome result (λ sent. sent.2 ≤ 4096) }
    {
        let Some(sent) = emit(
            &mut self.slots,
            &mut self.sleepers,
            self.start.config.peers,
            self.service_from,
            self.start.clock,
            buf,
        ) else {
            return None;
        };
        self.service_from = slot_after(self.start.config.peers, sent.0.slot);
        self.totals = self.totals.with_datagram_out(sent.2);
        count_went(&mut self.credits, usize::from(sent.0.slot), sent.2);
        Some(sent)
    }

    /// The clock goes on by so many milliseconds, by a minute at most (our profile). What waited out its timeout is due to go
    /// again, or its connection has ended; connected peers that are quiet are pinged. A client that a CONNECT named is answered again
    /// only while its address got at most three times what it sent for this peer, IP and UDP counted: an answer that would be more counts
    /// as tried, and doesn't go. 7,500 ms after the first one its slot is free. Once a second or more has passed since
    /// the last such moment, the host's outgoing bandwidth is shared out among the connected peers: each one's throttle is
    /// limited by what it put out since and what it may (our profile). It takes no memory.
    pub fn tick(&mut self, ms: u32)
        ensures { self.new ≡ ticked self.old ms }
    {
        self.start.clock = clock_after(self.start.clock, ms);
        self.shared_at = pass_time(
            &mut self.slots,
            &mut self.sleepers,
            &self.credits,
            &self.start,
            self.shared_at,
        );
        self.unproved.advance(&self.slots, self.start.clock);
    }

    /// Sets the host's bandwidths, in bytes per second, where 0 says that no limit is known. Each connected peer is told (ENet
    /// 1.3). E1 where memory for that is refused, with nothing changed; never where no connected peer has a command of channel
    /// 0xFF queued or unacknowledged.
    pub fn set_bandwidth(&mut self, incoming: u32, outgoing: u32) -> Result<(), Refusal>
        ensures set { OnOk result (self.new ≡ with_bandwidth self.old incoming outgoing) }
        ensures unchanged { OnErr result (self.new ≡ self.old) }
        ensures memory { IfErr result (λ why. why ≡ Refusal.Memory) }
        ensures wanted { OnErr result (list_any wants_room self.old.slots ≡ true) }
    {
        set_bandwidth(&mut self.slots, incoming, outgoing)?;
        self.start.config.incoming = incoming;
        self.start.config.outgoing = outgoing;
        self.sleepers.wake_held();
        Ok(())
    }

    /// Sets whom the host lets in (`Config::gives_way`, `Config::most`, `Config::of_address`). Peers that are there stay. E8, with nothing
    /// changed, where more peers may be connected or leaving, or be of one address, than there are slots, or none.
    pub fn admit(&mut self, admission: Admission) -> Result<(), Refusal>
        ensures { Admits admission result self.old self.new }
    {
        if !self.start.config.is_admissible(admission) {
            return Err(Refusal::BadConfig);
        }
        self.start.config = self.start.config.admitting(admission);
        Ok(())
    }

    /// Sets at how much that is queued, or sent and not acknowledged, a peer takes no further packet: at so many bytes of payload, or at so
    /// many commands, `submit` answers E9. It holds for all peers, those that are there and those to come. If nothing is queued or
    /// unacknowledged for a peer, the limit refuses no packet, however long. So no packet that is taken makes it more than the limit and
    /// that packet. Nothing that is there already is dropped, even if it is more. A 0 doesn't mean 'no limit': one packet goes at a time;
    /// 2^64 - 1 is never reached. What is counted is payload that is still to be acknowledged, not memory: the pieces of a packet that was
    /// cut share its body until the last one is gone.
    pub fn set_send_limit(&mut self, bytes: u64, commands: u64)
        ensures { self.new ≡ with_send_limit self.old (record { bytes = bytes; commands = commands }) }
    {
        self.send_limit = Some(SendLimit { bytes, commands });
    }

    /// Sets the host's secret (`Config::secret`): by it each peer that begins from now on gets sent times and numbers of its own. Peers
    /// that are there stay as they are.
    pub fn set_secret(&mut self, secret: Secret)
        ensures { self.new ≡ with_secret self.old secret }
    {
        self.start.config.secret = Some(secret);
        self.seats.rekey(&self.slots, secret);
    }

    /// The next event of the next slot that has one: Connect first, then the packets in the order of dispatch, then Disconnect,
    /// with which the slot is free and the peer's name is spent. Slots are asked in turn, beginning after the one that gave the
    /// last event, at first with slot 0. None, with nothing changed, where there is none. It takes no memory.
    pub fn next_event(&mut self) -> Option<Event>
        ensures { Takes result self.old self.new }
    {
        let slot = self.next_teller()?;
        let event = take_from(&mut self.slots, slot)?;
        self.event_from = slot_after(self.start.config.peers, slot);
        Some(event)
    }
}
