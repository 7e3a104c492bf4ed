//! A world of two hosts.

ghost use Rattle.std.specs.Prelude.{◌≡◌, ◌&&◌, true, false, length, slice_get, zip, Some, None, Err, if◌then◌else◌, IfOk, IfErr, IfSome, OnErr};
ghost use Rattle.std.specs.Option.{option_copied, option_map};
ghost use Rattle.enet_codec.specs.Config.{is_in_range};
ghost use Rattle.law_network.specs.Headline.{HasHeadline, end_at, submitted_at, taken_at, events_at};
ghost use Rattle.law_network.specs.World.{World as TwoHosts, Steps, Runs, open_world, site_of, other};
ghost use Rattle.enet_site.specs.Standing.{state_at};
ghost use Rattle.enet_world.specs.Delivered.{HasDelivered};
ghost use Rattle.enet_world.specs.Transcript.{IsOnEachFront};
ghost use Rattle.enet_world.specs.Worlds.{begun, passed_by, passed_in};
ghost use Rattle.enet_world.specs.Needed.{is_timed, rounds_of_a_wait};
ghost use Rattle.enet_world.specs.Private.Enough.{AreOverIn};
ghost use Rattle.enet_world.specs.Private.Worlds.{IsReachedIn};

use crate::enough::rounds_of_a_wait;
use crate::hosts::Hosts;
use enet_codec::{Config, Event, Packet, Refusal};
use enet_host::{HostCore, PeerState};
use law_network::{Answer, Side, WorldEvent, each_connection_in_order};
use std::alloc::Global;
use std::marker::Model;

/// Two hosts, at 10.0.0.1 port 7001 and 10.0.0.2 port 7002, each with what is kept of it, and the network between them, which
/// loses, repeats and reorders datagrams as the events say.
///
/// Every world is one that steps made of two hosts to which nothing had happened, so `step` and `run` promise the headline, and that
/// acknowledged means delivered, without any premise.
#[derive(Drop)]
pub struct World {
    alloc: Global,
    /// Connection 0 stands from the start.
    joined: bool,
    hosts: Hosts,
    /// By how many milliseconds both clocks together have gone on since the beginning, counted up to 2^32 - 1.
    passed: u32,
}

impl Model for World {
    ghost use Rattle.enet_world.specs.Worlds.{Begun};
    ghost use Rattle.enet_world.specs.Private.Worlds.{IsReachedIn};
    ghost use Rattle.std.specs.Coded.{codes};
    ghost use Rattle.enet_inbox.specs.Codes.{inbox_code};

    ghost Value = { Begun };

    ghost coded = { Prim.hlevel (codes, inbox_code) };

    ghost view = { λ w. record { joined = w.joined; passed = w.passed; world = w.hosts } };

    ghost invariant = { λ w. IsReachedIn w.passed w.joined w.hosts };
}

/// The other side.
pub(crate) fn other(side: Side) -> Side
    ensures { result ≡ other side }
{
    match side {
        Side::A => Side::B,
        Side::B => Side::A,
    }
}

/// For so many milliseconds the clocks can go on before a wait that begins then could outlast their 32 bits.
const LATEST: u32 = 4_294_500_000;

/// By how many milliseconds both clocks together have gone on, once an event has happened.
fn passed_by(event: &WorldEvent, passed: u32) -> u32
    ensures { result ≡ passed_by event.now passed }
{
    match event {
        WorldEvent::Tick { ms, .. } => passed.saturating_add((*ms).min(60_000)),
        _ => passed,
    }
}

impl World {
    /// Two hosts with these settings, whose slots are all free. E8 where a number of either is out of its range, before anything is
    /// made; E1 where memory is refused.
    pub fn open(alloc: Global, cfg_a: Config, cfg_b: Config) -> Result<World, Refusal>
        ensures out_of_range { (is_in_range cfg_a && is_in_range cfg_b) ≡ false → result ≡ Err Refusal.BadConfig }
        ensures in_range { (is_in_range cfg_a && is_in_range cfg_b) ≡ true → IfErr result (λ why. why ≡ Refusal.Memory) }
        ensures fresh { IfOk result (λ w. w ≡ begun false cfg_a cfg_b) }
    {
        if !cfg_a.is_in_range() || !cfg_b.is_in_range() {
            return Err(Refusal::BadConfig);
        }
        Ok(World {
            alloc,
            joined: false,
            hosts: Hosts::open(alloc, cfg_a, cfg_b)?,
            passed: 0,
        })
    }

    /// Two hosts that are connected from the start by connection 0, slot 0 in generation 0 of each to slot 0 of the other, with the
    /// lesser channel count and the lesser mtu of both settings. E8 and E1 as by `open`.
    pub fn joined(alloc: Global, cfg_a: Config, cfg_b: Config) -> Result<World, Refusal>
        ensures out_of_range { (is_in_range cfg_a && is_in_range cfg_b) ≡ false → result ≡ Err Refusal.BadConfig }
        ensures in_range { (is_in_range cfg_a && is_in_range cfg_b) ≡ true → IfErr result (λ why. why ≡ Refusal.Memory) }
        ensures fresh { IfOk result (λ w. w ≡ begun true cfg_a cfg_b) }
    {
        if !cfg_a.is_in_range() || !cfg_b.is_in_range() {
            return Err(Refusal::BadConfig);
        }
        Ok(World {
            alloc,
            joined: true,
            hosts: Hosts::joined(alloc, cfg_a, cfg_b)?,
            passed: 0,
        })
    }

    /// Two hosts with these settings, to which these events happen in order: what was answered to each. E8 and E1 as by `open`, and E1
    /// where there is no memory for the answers, before anything happens.
    ///
    /// `steps`: the answers are those of a world's run. `headline`: the headline on one page, of the events and their answers alone
    /// (specs/Transcript), after each event, whichever user asked for a connection: what one user has submitted on a channel to its
    /// peer is followed by what the other has taken of its peer of that connection, a subsequence, each packet whole and once, that
    /// leaves out none flagged RELIABLE before its last; what came unsequenced apart, of which each packet was submitted to go so, with
    /// its bytes. Each end's events are one life, no two connections share a name, a connection keeps its name, and all that was taken
    /// is of these.
    pub fn play(
        alloc: Global,
        cfg_a: Config,
        cfg_b: Config,
        events: &[WorldEvent],
    ) -> Result<Vec<Result<Answer, Refusal>>, Refusal>
        ensures out_of_range { (is_in_range cfg_a && is_in_range cfg_b) ≡ false → result ≡ Err Refusal.BadConfig }
        ensures in_range { (is_in_range cfg_a && is_in_range cfg_b) ≡ true → IfErr result (λ why. why ≡ Refusal.Memory) }
        ensures steps { IfOk result (λ answers. (w : TwoHosts) × Runs (open_world cfg_a cfg_b) events.now answers.items w) }
        ensures headline { IfOk result (λ answers. IsOnEachFront (zip events.now answers.items)) }
    {
        let mut world = World::open(alloc, cfg_a, cfg_b)?;
        let answers = world.run(events);
        world.close();
        answers
    }

    /// The headline, a law of every world. Of each connection, whatever was connected before, at the same time or after, slots used
    /// again included: what the user of one end took of a channel, unsequenced packets apart, is a subsequence of what the user of
    /// the other submitted on it, each packet whole and once, that leaves out no reliable packet before its last; each user takes at
    /// most one Connect, before all else, and nothing after a Disconnect, all of the end's own peer. Each peer of a host is that of
    /// an end, so what is submitted or taken is kept; no two ends of a host share a connection or a name.
    ///
    /// As long as the peers of both ends of a connection stand, they agree on the numbers of each channel that has sequenced data: an
    /// acknowledgement removes a command only if the receiver holds or dispatched it, or no longer dispatches; the front is at most
    /// 16,384 numbers behind the oldest that wasn't acknowledged; and a wire number that comes in time is read as the number that was
    /// meant, or as nothing.
    pub fn headline(&self)
        ensures { HasHeadline self.now.joined self.now.world }
    {
        each_connection_in_order();
        // The field is looked at, so that what holds of every world is known here.
        let _ = &self.hosts;
    }

    /// Acknowledged means delivered, a law of every world. Of each connection, both ways, on each channel below 255: where the peer of the
    /// one end stands, still sends, and has no reliable command of the channel queued or unacknowledged, each reliable packet that its user
    /// submitted there, and that went in order, was dispatched at the other end, in order, taken or not, if the peer of that end stands and
    /// still dispatches.
    pub fn delivered(&self)
        ensures { HasDelivered self.now.world }
    {
        // The field is looked at, so that what holds of every world is known here.
        let _ = &self.hosts;
    }

    /// Every world is one that steps made of two hosts to which nothing had happened, and the time that has passed is counted.
    pub(crate) fn is_reached(&self)
        ensures { IsReachedIn self.now.passed self.now.joined self.now.world }
    {
        // The field is looked at, so that what holds of every world is known here.
        let _ = &self.hosts;
    }

    /// Makes one event happen. An event that is refused changes nothing; `WorldEvent` names the refusals that each can meet, in the
    /// order in which they are tested. Of the time that has passed a tick is counted alone (`passed`).
    pub fn step(&mut self, event: WorldEvent) -> Result<Answer, Refusal>
        ensures steps { Steps self.old.world event result self.new.world }
        ensures joined { self.new.joined ≡ self.old.joined }
        ensures passed { self.new.passed ≡ passed_by event self.old.passed }
        ensures headline { HasHeadline self.new.joined self.new.world }
        ensures delivered { HasDelivered self.new.world }
    {
        let answer = self.happen(&event);
        self.headline();
        self.delivered();
        answer
    }

    /// Makes the events happen in order, and gives the answer of each. E1 where there is no memory for the answers, before anything
    /// happens.
    pub fn run(&mut self, events: &[WorldEvent]) -> Result<Vec<Result<Answer, Refusal>>, Refusal>
        ensures memory { IfErr result (λ why. why ≡ Refusal.Memory) }
        ensures unchanged { OnErr result (self.new ≡ self.old) }
        ensures steps { IfOk result (λ answers. Runs self.old.world events.now answers.items self.new.world) }
        ensures joined { self.new.joined ≡ self.old.joined }
        ensures passed { IfOk result (λ answers. self.new.passed ≡ passed_in events.now self.old.passed) }
        ensures headline { HasHeadline self.new.joined self.new.world }
        ensures delivered { HasDelivered self.new.world }
    {
        let answers = self.run_all(events);
        self.headline();
        self.delivered();
        answers
    }

    fn run_all(&mut self, events: &[WorldEvent]) -> Result<Vec<Result<Answer, Refusal>>, Refusal>
        ensures memory { IfErr result (λ why. why ≡ Refusal.Memory) }
        ensures unchanged { OnErr result (self.new ≡ self.old) }
        ensures steps { IfOk result (λ answers. Runs self.old.world events.now answers.items self.new.world) }
        ensures joined { self.new.joined ≡ self.old.joined }
        ensures passed { IfOk result (λ answers. self.new.passed ≡ passed_in events.now self.old.passed) }
    {
        let Ok(mut answers) = Vec::with_capacity(self.alloc, events.len()) else {
            return Err(Refusal::Memory);
        };
        for event in events {
            answers.push_reserved(self.happen(event));
        }
        Ok(answers)
    }

    pub(crate) fn happen(&mut self, event: &WorldEvent) -> Result<Answer, Refusal>
        ensures steps { Steps self.old.world event.now result self.new.world }
        ensures joined { self.new.joined ≡ self.old.joined }
        ensures passed { self.new.passed ≡ passed_by event.now self.old.passed }
    {
        // A host that puts out a datagram has an end of the peer to which it goes.
        self.headline();
        let passed = passed_by(event, self.passed);
        self.passed = passed;
        self.hosts.happen(self.alloc, event)
    }

    /// After so many rounds of so many milliseconds all that was sent before them is due to go again, or has waited out its timeout, at both
    /// sides. None where `ms` is 0, or the clocks have gone on for so long that the 32 bits of one may have wrapped.
    pub(crate) fn over_in(&self, ms: u32) -> Option<u64>
        ensures exact { result ≡ if is_timed ms self.now.passed then Some (rounds_of_a_wait ms) else None }
        ensures over { IfSome result (λ rounds. AreOverIn rounds ms self.now.world) }
    {
        // The field is looked at, so that what holds of every world is known here.
        let _ = &self.hosts;
        if ms == 0 || self.passed >= LATEST {
            return None;
        }
        Some(rounds_of_a_wait(ms))
    }

    /// The packets of a side's user that were accepted on a channel of a connection, in order; empty where there is no such connection
    /// or channel.
    pub fn submitted(&self, conn: u64, side: Side, channel: u8) -> &[Packet]
        ensures { result.now ≡ submitted_at channel (end_at self.now.world conn side) }
    {
        self.hosts.site(side).submitted(conn, channel)
    }

    /// The packets that the other side's user has taken on that channel, unsequenced ones too, in order; empty where there is no such
    /// connection or channel.
    pub fn dispatched(&self, conn: u64, side: Side, channel: u8) -> &[Packet]
        ensures { result.now ≡ taken_at channel (end_at self.now.world conn (other side)) }
    {
        self.hosts.site(other(side)).taken(conn, channel)
    }

    /// The events that a side's user has taken of a connection, in order; none where there is no such connection.
    pub fn events(&self, conn: u64, side: Side) -> &[Event]
        ensures { result.now ≡ events_at (end_at self.now.world conn side) }
    {
        self.hosts.site(side).events(conn)
    }

    /// How far a connection has come at a side; None where there is no such connection, or its peer is gone there.
    pub fn state(&self, conn: u64, side: Side) -> Option<PeerState>
        ensures { result ≡ state_at (site_of self.now.world side) conn }
    {
        self.hosts.site(side).state(conn)
    }

    /// The bytes of a datagram that a side has put out, or None where it has put out fewer.
    pub fn datagram(&self, side: Side, k: u64) -> Option<&[u8]>
        ensures { option_copied result ≡ option_map (λ d. d.text) (slice_get (site_of self.now.world side).log k) }
    {
        self.hosts.site(side).datagram(k)
    }

    /// The host of a side, to be looked at.
    pub fn host(&self, side: Side) -> &HostCore
        ensures { result.now ≡ (site_of self.now.world side).host }
    {
        self.hosts.site(side).host()
    }

    /// How many slots the host of a side has.
    pub fn slots(&self, side: Side) -> u16
        ensures { result ≡ length (site_of self.now.world side).host.slots }
    {
        self.hosts.site(side).slots()
    }

    /// Lets the world go. A crate that drops one in any other way proves anew how all that two hosts hold is dropped.
    pub fn close(self) {
        self.hosts.close();
    }
}
