//! A server: a service thread, and a thread that relays; or one thread that does both.
ghost use Rattle.std.specs.Prelude.{◌≡◌, ◌⊎◌, OnOk, IfOk, IfErr};
ghost use Rattle.enet_chat.specs.Relaying.{Relays, IsThrough};
ghost use Rattle.enet_service.specs.ServiceRuns.{CanSettle, IsNotSettled};
ghost use Rattle.enet_serve.specs.Private.Threads.{IsLeft, returned};

use crate::alone::Alone;
use crate::leaving::take_leave;
use crate::registrar::Registrar;
use crate::threads::{Carryover, begin_alone, begin_relay, end_alone, left_or_nothing, relay_on};
use enet_chat::{Gauge, RelayParts};
use enet_codec::{Addr, Config, MAX_PEERS, Refusal, Secret};
use enet_events::Poster;
use enet_guard::{Guarded, PassedOver, Rules};
use enet_host::HostCore;
use enet_service::{
    BoundService, Ends, EventReceiver, MioWire, OrderSender, QueueSink, QueueSource, Queues,
    Report, Returned, RunLength, SendLimit, Shared, Signals, Unopened, Watch, beside_turns, settle,
};
use enet_submit::{Drain, Order};
use std::alloc::Global;
use std::collections::VecDeque;
use std::net::Net;
use std::rt::Clock;
use std::sync::{Arc, Wait};
use std::thread::Threads;
use std::{io, mem};

/// So many slots a server has at most beside those of its peers, for clients that asked for a connection and haven't confirmed yet.
const WAITING_SLOTS: u16 = 1_024;

/// What a server is opened with.
#[derive(Clone, Copy)]
pub struct Settings {
    /// Where it listens.
    pub address: Addr,
    /// How many clients may be connected or leaving at once: 1 to 4,095. Its host has 1,024 slots more for those that asked for a connection
    /// and haven't confirmed yet, 4,095 in all at most.
    pub peers: u16,
    /// How many channels a connection is granted at most: 1 to 255.
    pub channels: u8,
    /// How many places each of the two queues between its threads has: 1 to 65,536.
    pub queue_capacity: u32,
    /// The greatest length of a datagram, in bytes: 576 to 4,096.
    pub mtu: u32,
    /// The greatest packet that is taken of a client, in bytes: 1 to 33,554,432 (`Config::max_packet`).
    pub max_packet: u32,
    /// Bytes of a client's packets at which no further packet begins: 1 to 33,554,432 (`Config::max_waiting`).
    pub max_waiting: u32,
    /// How much is queued or unacknowledged for a client that is full; None for no limit. A packet for a full client is refused (E9). If it
    /// is reliable, the watch of a run is told ([`Note::Lacks`]), and whoever serves ends that client ([`end_of_slow`]).
    ///
    /// [`Note::Lacks`]: enet_service::Note::Lacks
    /// [`end_of_slow`]: enet_chat::end_of_slow
    pub send_limit: Option<SendLimit>,
    /// How many bytes of datagrams the system is asked to keep until they are received; None for as many as [`MioWire`] asks for.
    pub receive_buffer: Option<u32>,
    /// How many clients of one IP address there may be, also those that haven't confirmed yet: 1 to as many as its host has slots
    /// (`Config::of_address`); None for no limit.
    pub of_address: Option<u16>,
    /// Whom the guard in front of its host lets ask for a connection, and how much clients may send.
    pub rules: Rules,
    /// By what its host draws (`Config::secret`); with none it goes as ENet does.
    pub secret: Option<Secret>,
}

impl Settings {
    ghost use Rattle.std.specs.Prelude.{◌≡◌};
    ghost use Rattle.enet_serve.specs.Serving.{config_of, slots_of};

    /// How many slots its host has.
    pub fn slots(&self) -> u16
        ensures { result ≡ slots_of self.now }
    {
        self.peers.saturating_add(WAITING_SLOTS).min(MAX_PEERS)
    }

    // A server runs for years, so its slots have as many generations as there can be. Whoever hasn't confirmed gives way to who asks, so that
    // forged CONNECTs keep nobody out.
    fn config(&self) -> Config
        ensures { result ≡ config_of self.now }
    {
        let mut config = Config::standard(self.slots(), self.channels);
        config.mtu = self.mtu;
        config.max_packet = self.max_packet;
        config.max_waiting = self.max_waiting;
        config.generations = u32::MAX;
        config.secret = self.secret;
        config.gives_way = true;
        config.most = Some(self.peers);
        config.of_address = self.of_address;
        config
    }
}

/// A server between two runs: its socket and its host, and what the relay has not done yet. It is given up by [`ChatServer::close`] alone.
pub struct ChatServer {
    alloc: Global,
    queue_capacity: u32,
    bound: BoundService<Guarded<MioWire>>,
    kept: Carryover,
}

impl ChatServer {
    ghost use Rattle.std.specs.Prelude.{◌≡◌, ◌≢◌, ◌+◌, ◌⊎◌, ◌↔◌, ◌++◌, ◌∷◌, [], IsSome, true, false, None, OnOk, OnErr, IfOk, IfErr, Err};
    ghost use Rattle.std.specs.List.{filter};
    ghost use Rattle.enet_submit.specs.Words.{capacity_of};
    ghost use Rattle.enet_guard.specs.Guarding.{is_other, ruling};
    ghost use Rattle.enet_service.specs.ServiceRuns.{AreNew, IsCapacity};
    ghost use Rattle.enet_turn.specs.LoneTurn.{beside, lone};
    ghost use Rattle.enet_serve.specs.Serving.{Serves, IsCutOffBeside, IsCutOffAlone, EndsRun, IsNotServed, IsOpened, is_in_range, host_of, faults_of, told_of, guard_of, waiting_of, over_wire, peers_of, backlog_of, orders_of, unsettled_of, queue_capacity_of};
    ghost use Rattle.enet_serve.specs.Leaving.{TakesLeave};

    /// A server at this address, with no peer.
    ///
    /// E8 where `peers`, `channels`, `mtu`, `max_packet`, `max_waiting` or `of_address` is out of its range (`queue_capacity` is tested by
    /// [`ChatServer::serve`]), E14 where the address can't be had, with what the system says of it, E1 for want of memory.
    pub fn open<R: Net + AllocGlobal>(rt: &R, settings: Settings) -> Result<ChatServer, Unopened>
        ensures out_of_range { is_in_range settings ≡ false → result ≡ Err (record { why = Refusal.BadConfig; reason = None }) }
        ensures in_range { is_in_range settings ≡ true → IfErr result (λ unopened. (unopened.why ≡ Refusal.WireFault) ⊎ (unopened.why ≡ Refusal.Memory)) }
        ensures said { IfErr result (λ unopened. (unopened.why ≡ Refusal.WireFault) ↔ IsSome unopened.reason) }
        ensures opened { IfOk result (IsOpened settings) }
    {
        let alloc = rt.alloc();
        let config = settings.config();
        if !config.is_in_range() {
            return Err(Unopened::from(Refusal::BadConfig));
        }
        let wire = MioWire::open(rt, settings.address)?;
        ask_for_buffer(&wire, settings.receive_buffer);
        let wire = Guarded::new(alloc, wire, settings.rules, settings.slots())?;
        let mut bound = BoundService::open(alloc, wire, config)?;
        bound.set_send_limit(settings.send_limit);
        Ok(ChatServer {
            alloc,
            queue_capacity: settings.queue_capacity,
            bound,
            kept: Carryover::new(alloc),
        })
    }

    /// Serves for a run: one thread takes the service's turns, and this one or another relays, until the run is over and no
    /// event is left. What was not carried out then is kept for the next run.
    ///
    /// While it serves, `gauge` shows how many peers are connected and how far the relay has come, and `watch` is told of the turns by the
    /// thread that takes them.
    ///
    /// Each run has queues of its own, since a seat submits 4,294,967,295 orders at most.
    ///
    /// E14 where the wire fails, E1 for want of memory, E8 where the queues' places are out of range, E10 where a run is so long
    /// that the seat has submitted as many orders as it may, E16 where the threads ended and a queue isn't empty. By E1 and E10 the relay
    /// ends, and a run for a time soon after it. After E14 what was done until then stands, as after a run that returned, and what was left is
    /// kept, but where the queues weren't settled, as [`ChatServer::unsettled`] says then. Whatever else is refused, nothing is promised of
    /// the server then but how often its socket has failed, and that it can take leave and be closed.
    pub fn serve<R, W>(
        &mut self,
        rt: &R,
        run_length: RunLength,
        gauge: &Gauge,
        watch: &mut W,
    ) -> Result<Report, Refusal>
    where
        R: Threads + Wait + Clock + Sync,
        W: Watch + Send,
        ensures serves { IfOk result (Serves beside (queue_capacity_of self.old + 1) self.old run_length self.new) }
        ensures cut_off { IfErr result (λ why. why ≡ Refusal.WireFault → IsCutOffBeside run_length self.old self.new) }
        ensures refused { IfErr result (IsNotServed self.old) }
        ensures range { OnOk result (IsCapacity (queue_capacity_of self.old)) }
        ensures sound { OnOk result (faults_of self.new ≡ faults_of self.old) }
        ensures failed { IfErr result (λ why. why ≡ Refusal.WireFault → faults_of self.new ≡ faults_of self.old + 1) }
        ensures other { IfErr result (λ why. why ≢ Refusal.WireFault → faults_of self.new ≡ faults_of self.old) }
        ensures guard { ruling (guard_of self.new) ≡ ruling (guard_of self.old) }
    {
        let bell = self.bound.wire.wire().bell()?;
        let register = self.bound.wire.register()?;
        let mut watch = Registrar { register, watch };
        let Queues {
            orders,
            events,
            ends,
        } = Queues::open(self.alloc, self.queue_capacity)?;
        let shared = Shared {
            queue: &orders,
            events: &events,
            bell: &bell,
            signals: &Signals::new(),
        };
        self.run_turns(rt, shared, ends, run_length, gauge, &mut watch)
    }

    /// Serves for a run, as [`ChatServer::serve`] does, in one thread: in each turn this thread expands what the service told, and the
    /// service takes the orders before it sends. A packet wakes no other thread and passes no queue between two of them, so that each takes
    /// less time and there is no use of a second processor.
    /// A turn takes no more events of the host than the relay has room for (`EventList::is_full`); the next one, which comes without a sleep,
    /// goes on.
    ///
    /// E14 where the wire fails: what was done until then stands, and what was left is kept. E1 for want of memory, where an event found none,
    /// too: then nothing is promised of the server but how often its socket has failed, and that it can take leave and be closed.
    pub fn serve_alone<R, W>(
        &mut self,
        rt: &R,
        run_length: RunLength,
        gauge: &Gauge,
        watch: &mut W,
    ) -> Result<Report, Refusal>
    where
        R: Wait + Clock,
        W: Watch,
        ensures serves { IfOk result (Serves lone 256 self.old run_length self.new) }
        ensures cut_off { IfErr result (λ why. why ≡ Refusal.WireFault → IsCutOffAlone run_length self.old self.new) }
        ensures refused { IfErr result (λ why. (why ≡ Refusal.WireFault) ⊎ (why ≡ Refusal.Memory)) }
        ensures sound { OnOk result (faults_of self.new ≡ faults_of self.old) }
        ensures failed { IfErr result (λ why. why ≡ Refusal.WireFault → faults_of self.new ≡ faults_of self.old + 1) }
        ensures other { IfErr result (λ why. why ≢ Refusal.WireFault → faults_of self.new ≡ faults_of self.old) }
        ensures guard { ruling (guard_of self.new) ≡ ruling (guard_of self.old) }
    {
        let bell = self.bound.wire.wire().bell()?;
        let register = self.bound.wire.register()?;
        let mut watch = Registrar { register, watch };
        let kept = mem::replace(&mut self.kept, Carryover::new(self.alloc));
        let mut alone = Alone {
            relay: begin_alone(self.alloc, kept, gauge),
            bell,
            gauge,
        };
        alone.relay.expand()?;
        let served = alone.run(rt, &mut self.bound, run_length, &mut watch);
        self.kept = end_alone(alone.relay);
        served
    }

    // A run between these queues.
    fn run_turns<R: Threads + Wait + Clock + Sync, W: Watch + Send>(
        &mut self,
        rt: &R,
        shared: Shared<'_>,
        ends: Ends,
        run_length: RunLength,
        gauge: &Gauge,
        watch: &mut W,
    ) -> Result<Report, Refusal>
        requires new { AreNew shared.queue.now shared.events.now ends }
        requires places { capacity_of shared.queue.now ≡ queue_capacity_of self.old }
        ensures serves { IfOk result (Serves beside (queue_capacity_of self.old + 1) self.old run_length self.new) }
        ensures cut_off { IfErr result (λ why. why ≡ Refusal.WireFault → IsCutOffBeside run_length self.old self.new) }
        ensures refused { IfErr result EndsRun }
        ensures sound { OnOk result (faults_of self.new ≡ faults_of self.old) }
        ensures failed { IfErr result (λ why. why ≡ Refusal.WireFault → faults_of self.new ≡ faults_of self.old + 1) }
        ensures other { IfErr result (λ why. why ≢ Refusal.WireFault → faults_of self.new ≡ faults_of self.old) }
        ensures guard { ruling (guard_of self.new) ≡ ruling (guard_of self.old) }
    {
        let Shared {
            queue,
            events,
            bell,
            signals,
        } = shared;
        let kept = mem::replace(&mut self.kept, Carryover::new(self.alloc));
        let sender = OrderSender::new(self.alloc, queue, ends.seat, bell);
        let receiver = EventReceiver::new(events, ends.taker);
        let mut relay = begin_relay(self.alloc, kept, sender, receiver)?;
        let mut source = QueueSource::new(queue, ends.drain, bell);
        let mut sink = QueueSink::new(events, ends.poster, &signals.bell);
        let (relayed, report) = beside_turns(
            rt,
            &mut self.bound,
            &mut source,
            &mut sink,
            run_length,
            signals,
            watch,
            &mut || -> Result<(), Refusal>
                ensures relays { Relays relay.entry relay.exit }
                ensures through { OnOk result (IsThrough relay.exit) }
                ensures why { IfErr result (λ why. (why ≡ Refusal.Memory) ⊎ (why ≡ Refusal.SeatSpent)) }
            { relay_on(rt, &mut relay, signals, gauge) },
        );
        let kept = after_run(
            rt,
            self.alloc,
            shared,
            relay.into_parts(),
            source.into_drain(),
            sink.into_poster(),
        );
        let report = match report {
            Ok(report) => report,
            Err(why) => {
                self.kept = left_or_nothing(self.alloc, kept);
                return Err(why);
            }
        };
        relayed?;
        self.kept = kept?;
        Ok(report)
    }

    /// Has the next run begin with these orders, behind those that wait: so what an operator asks for (to end a connection, to say
    /// something) comes to a turn of that run, once. None of them is left in `orders`.
    ///
    /// E1 for want of memory, and then all is as it was.
    pub fn order(&mut self, orders: &mut VecDeque<Order>) -> Result<(), Refusal>
        ensures ordered { OnOk result (orders_of self.new ≡ orders_of self.old ++ orders.old.items) }
        ensures taken { OnOk result (orders.new.items ≡ []) }
        ensures same { OnErr result ((orders_of self.new ≡ orders_of self.old) × (orders.new.items ≡ orders.old.items)) }
        ensures memory { IfErr result (λ why. why ≡ Refusal.Memory) }
        ensures host { (host_of self.new ≡ host_of self.old) × (waiting_of self.new ≡ waiting_of self.old) × (faults_of self.new ≡ faults_of self.old) }
        ensures guard { guard_of self.new ≡ guard_of self.old }
        ensures told { told_of self.new ≡ told_of self.old }
        ensures relay { (peers_of self.new ≡ peers_of self.old) × (backlog_of self.new ≡ backlog_of self.old) × (unsettled_of self.new ≡ unsettled_of self.old) × (queue_capacity_of self.new ≡ queue_capacity_of self.old) }
    {
        match self.kept.orders.append(orders) {
            Ok(()) => Ok(()),
            Err(_) => Err(Refusal::Memory),
        }
    }

    /// Lets no CONNECT of this address pass from now on, whatever its port; who is connected from there stays.
    ///
    /// E1 for want of memory, and then nothing has changed.
    pub fn ban(&mut self, ip: u32) -> Result<(), Refusal>
        ensures banned { OnOk result (guard_of self.new ≡ record (guard_of self.old) { banned = (guard_of self.old).banned ++ ip ∷ [] }) }
        ensures same { OnErr result (guard_of self.new ≡ guard_of self.old) }
        ensures memory { IfErr result (λ why. why ≡ Refusal.Memory) }
        ensures host { (host_of self.new ≡ host_of self.old) × (waiting_of self.new ≡ waiting_of self.old) × (faults_of self.new ≡ faults_of self.old) }
        ensures told { told_of self.new ≡ told_of self.old }
        ensures relay { (peers_of self.new ≡ peers_of self.old) × (backlog_of self.new ≡ backlog_of self.old) × (orders_of self.new ≡ orders_of self.old) × (unsettled_of self.new ≡ unsettled_of self.old) × (queue_capacity_of self.new ≡ queue_capacity_of self.old) }
    {
        self.bound.wire.ban(ip)
    }

    /// Lets the CONNECTs of this address pass again, as the rules say.
    pub fn unban(&mut self, ip: u32)
        ensures unbanned { guard_of self.new ≡ record (guard_of self.old) { banned = filter (is_other ip) (guard_of self.old).banned } }
        ensures host { (host_of self.new ≡ host_of self.old) × (waiting_of self.new ≡ waiting_of self.old) × (faults_of self.new ≡ faults_of self.old) }
        ensures told { told_of self.new ≡ told_of self.old }
        ensures relay { (peers_of self.new ≡ peers_of self.old) × (backlog_of self.new ≡ backlog_of self.old) × (orders_of self.new ≡ orders_of self.old) × (unsettled_of self.new ≡ unsettled_of self.old) × (queue_capacity_of self.new ≡ queue_capacity_of self.old) }
    {
        self.bound.wire.unban(ip);
    }

    /// What tells how many CONNECTs the guard passed over, and how much of what clients sent. E1 where so many of it are held that no more
    /// can be counted.
    pub fn passed_over(&self) -> Result<Arc<PassedOver, Global>, Refusal>
        ensures { IfErr result (λ why. why ≡ Refusal.Memory) }
    {
        self.bound.wire.passed_over()
    }

    /// The host, which tells how much went through it.
    pub fn host(&self) -> &HostCore
        ensures { result.now ≡ host_of self.now }
    {
        self.bound.service.host.host()
    }

    /// How many bytes of datagrams the system keeps until they are received, as [`MioWire::receive_buffer`] tells.
    pub fn receive_buffer(&self) -> Option<u32> {
        self.bound.wire.wire().receive_buffer()
    }

    /// Why nothing was kept of the last run, which E14 ended: its queues weren't settled, by E1 or E16. None where all was kept.
    pub fn unsettled(&self) -> Option<Refusal>
        ensures { result ≡ unsettled_of self.now }
    {
        self.kept.unsettled
    }

    /// What the system said where the wire failed.
    pub fn reason(&self) -> Option<io::Error> {
        self.bound.wire.wire().reason()
    }

    /// Tells each client that the server ends, behind all that was sent to it, and gives them a second to acknowledge it; who is left by then
    /// is cut off. No order is given in these turns. Where the wire fails nobody is told. The relay isn't told of these ends, and keeps its
    /// peers, its events and its orders: nothing is served after it.
    pub fn take_leave<R: Wait + Clock>(&mut self, rt: &R)
        ensures leaves { TakesLeave (over_wire self.old) (over_wire self.new) }
        ensures peers { peers_of self.new ≡ peers_of self.old }
        ensures guard { ruling (guard_of self.new) ≡ ruling (guard_of self.old) }
        ensures kept { (backlog_of self.new ≡ backlog_of self.old) × (orders_of self.new ≡ orders_of self.old) × (unsettled_of self.new ≡ unsettled_of self.old) }
        ensures queues { queue_capacity_of self.new ≡ queue_capacity_of self.old }
    {
        take_leave(rt, self.alloc, &mut self.bound);
    }

    /// Gives its socket up, and its connections, of which no peer is told.
    pub fn close(self) {
        let ChatServer {
            alloc: _,
            queue_capacity: _,
            bound,
            kept,
        } = self;
        drop(kept);
        bound.close();
    }
}

// Asks for a receive buffer of so many bytes, where a number is given.
fn ask_for_buffer(wire: &MioWire, bytes: Option<u32>) {
    if let Some(bytes) = bytes {
        wire.set_receive_buffer(bytes);
    }
}

// What the two threads left. The orders that the service didn't take stand before those that found no room.
fn after_run<R: Wait>(
    rt: &R,
    alloc: Global,
    shared: Shared<'_>,
    parts: RelayParts,
    drain: Drain,
    poster: Poster,
) -> Result<Carryover, Refusal>
    requires { CanSettle shared.queue.now shared.events.now (returned parts drain poster) }
    ensures left { IfOk result (IsLeft parts drain poster) }
    ensures refused { IfErr result IsNotSettled }
{
    let RelayParts {
        table,
        backlog,
        orders: waiting,
        seat,
        taker,
    } = parts;
    let back = Returned {
        drain,
        poster,
        seat,
        taker,
    };
    let mut waiting = waiting;
    let mut orders = settle(rt, alloc, shared.queue, shared.events, back)?;
    if orders.append(&mut waiting).is_err() {
        return Err(Refusal::Memory);
    }
    Ok(Carryover {
        table,
        backlog,
        orders,
        unsettled: None,
    })
}
