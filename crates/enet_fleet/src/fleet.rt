//! A fleet.

ghost use Rattle.std.specs.Prelude.{◌≡◌, ◌&&◌, nat_le, true, false, length, zip, Err, IfOk, IfErr, OnErr};
ghost use Rattle.std.specs.List.{list_all};
ghost use Rattle.std.specs.Option.{option_copied, option_map};
ghost use Rattle.enet_codec.specs.Config.{is_in_range};
ghost use Rattle.law_network.specs.Headline.{submitted_at, taken_at, events_at};
ghost use Rattle.law_headline.specs.Delivered.{HasDelivered};
ghost use Rattle.enet_fleet.specs.Transcript.{IsOnEachFront};
ghost use Rattle.enet_fleet.specs.Fleets.{Fleet as AllHosts, Steps, Runs, open_fleet, place_of, sent_by};
ghost use Rattle.enet_fleet.specs.Ends.{EachIsOneEnd};
ghost use Rattle.enet_fleet.specs.Once.{NoneIsTakenTwice};
ghost use Rattle.enet_fleet.specs.Headline.{HasHeadline, end_at, far_end};
ghost use Rattle.enet_fleet.specs.Reached.{fit};

use crate::answer::Answer;
use crate::each_connection_of_a_fleet;
use crate::event::{End, FleetEvent};
use crate::happening::happen;
use crate::hosts::{Hosts, sent_by};
use enet_codec::{Addr, Config, Event, Packet, Refusal};
use enet_host::HostCore;
use law_headline::Node;
use std::alloc::Global;
use std::marker::Model;

/// The greatest number of clients.
const MAX_CLIENTS: usize = 4095;

/// A server at 10.0.0.1 port 7001 and its clients at 10.0.0.2, client `i` at port 7002 + `i`, each with what is kept of it, and the
/// network between them, which loses, repeats and reorders datagrams as the events say. Strangers are at all other addresses.
///
/// Every fleet is one that steps made of hosts to which nothing had happened, so `step` and `run` promise the headline, and that
/// acknowledged means delivered, without any premise.
#[derive(Drop)]
pub struct Fleet {
    alloc: Global,
    hosts: Hosts,
}

impl Model for Fleet {
    ghost use Rattle.enet_fleet.specs.Fleets.{Fleet};
    ghost use Rattle.enet_fleet.specs.Private.Reached.{IsReached};
    ghost use Rattle.std.specs.Coded.{codes};
    ghost use Rattle.enet_inbox.specs.Codes.{inbox_code};

    ghost Value = { Fleet };

    ghost coded = { Prim.hlevel (codes, inbox_code) };

    ghost view = { λ f. f.hosts };

    ghost invariant = { λ f. IsReached f.hosts };
}

/// Whether each number of each client's settings is in its range.
fn all_in_range(clients: &[Config]) -> bool
    ensures { result ≡ list_all is_in_range clients.now }
{
    clients.iter().all(|client| client.is_in_range())
}

/// Whether a fleet may have so many clients.
fn is_count(clients: usize) -> bool
    ensures { result ≡ (nat_le 1 clients && nat_le clients 4095) }
{
    (1..=MAX_CLIENTS).contains(&clients)
}

/// Whether a fleet opens by these settings.
fn fit(server: &Config, clients: &[Config]) -> bool
    ensures { result ≡ fit server.now clients.now }
{
    if !server.is_in_range() || !all_in_range(clients) {
        return false;
    }
    is_count(clients.len())
}

/// The other end.
fn far_end(end: End) -> End
    ensures { result ≡ far_end end }
{
    match end {
        End::Client => End::Server,
        End::Server => End::Client,
    }
}

impl Fleet {
    /// A server and clients with these settings, whose slots are all free. E8 where a number of any is out of its range or there
    /// aren't 1 to 4,095 clients, before anything is made; E1 where memory is refused.
    pub fn open(alloc: Global, server: Config, clients: &[Config]) -> Result<Fleet, Refusal>
        ensures out_of_range { fit server clients.now ≡ false → result ≡ Err Refusal.BadConfig }
        ensures in_range { fit server clients.now ≡ true → IfErr result (λ why. why ≡ Refusal.Memory) }
        ensures fresh { IfOk result (λ f. f ≡ open_fleet server clients.now) }
    {
        if !fit(&server, clients) {
            return Err(Refusal::BadConfig);
        }
        Ok(Fleet {
            alloc,
            hosts: Hosts::open(alloc, server, clients)?,
        })
    }

    /// A fleet with these settings, to which these events happen in order: what was answered to each. E8 and E1 as `open`, and E1 where
    /// there is no memory for the answers, before anything happens.
    ///
    /// `steps`: the answers are those of a fleet's run. `headline`: the headline on one page, of the events and their answers alone
    /// (specs/Transcript), after each event. What a client's user has submitted on a channel, to the peer that an accepted Connect named,
    /// is followed by what the server's user has taken of its peer of that connection, and the other way round: a subsequence, each
    /// packet whole and once, that leaves out none flagged RELIABLE before its last. What came unsequenced apart: each such packet was
    /// submitted to go so, with its bytes. Each end's events are one life, no two connections share a name, and a connection keeps its
    /// name. Each event that a user takes is told with the address of its peer, also where strangers are: at a client's address the
    /// server's user has the peer of a connection for which that client asked, at the server's a client's user that of one for which it
    /// asked, and neither has anybody else at a host's address, nor the peer of a connection elsewhere. At a host where no stranger's
    /// datagram was taken in, all that was taken is of these connections.
    ///
    /// `ends`: each peer of each host is one end, by the calls that these events make at the host (`calls_at`), whoever is at the other, a
    /// stranger too. What the host's user took of it on a channel was carried by commands in datagrams that came since its connection began,
    /// from the address that the host has for it: the reliable packets have all numbers from 1 on, and each packet is whole. If the other end
    /// keeps the rules of the wire, it follows what that end sent. Each datagram that the host put out for it went there, with commands of what
    /// the user submitted to it, under their numbers (`IsEnd` of `law_one_end`).
    ///
    /// `once`: of each connection, each way, no packet that goes unsequenced is taken twice, where none comes late. To those that a user took
    /// so, different ones belong that the other end's user submitted to go so, each on its channel and with its bytes. Late is one that comes
    /// once more than 32,768 were submitted so after it (`IsRecent`); the bytes of the datagrams that were brought tell which came.
    pub fn play(
        alloc: Global,
        server: Config,
        clients: &[Config],
        events: &[FleetEvent],
    ) -> Result<Vec<Result<Answer, Refusal>>, Refusal>
        ensures out_of_range { fit server clients.now ≡ false → result ≡ Err Refusal.BadConfig }
        ensures in_range { fit server clients.now ≡ true → IfErr result (λ why. why ≡ Refusal.Memory) }
        ensures steps { IfOk result (λ answers. (f : AllHosts) × Runs (open_fleet server clients.now) events.now answers.items f) }
        ensures headline { IfOk result (λ answers. IsOnEachFront (length clients.now) (zip events.now answers.items)) }
        ensures ends { IfOk result (λ answers. EachIsOneEnd server clients.now events.now answers.items) }
        ensures once { IfOk result (λ answers. NoneIsTakenTwice server clients.now events.now answers.items) }
    {
        let mut fleet = Fleet::open(alloc, server, clients)?;
        let answers = fleet.run(events);
        fleet.close();
        answers
    }

    /// The headline, a law of every fleet. Of each connection between the server and a client, whatever the other hosts and
    /// strangers send, whatever was connected before, at the same time or after, slots used again included: what the user of one end
    /// took of a channel, unsequenced packets apart, is a subsequence of what the user of the other submitted on it, each packet
    /// whole and once, that leaves out no reliable packet before its last; each user takes at most one Connect, before all else, and
    /// nothing after a Disconnect, all of the end's own peer. Each peer of a host that is at a host's address is that of an end, so
    /// what is submitted to it or taken from it is kept; no two ends of a host share a connection or a name; a client has ends of just
    /// those connections for which it asked, the server of such alone, and the peer of an end is at the address of the host that has
    /// the other. As long as both ends have their peers, in whatever state, these agree on the numbers of each channel below 255: an
    /// acknowledgement removes a command only if the receiver holds or dispatched it, or no longer dispatches; the front is at most
    /// 16,384 numbers behind the oldest that wasn't acknowledged; and a wire number that comes in time is read as the number that was
    /// meant, or as nothing (`numbers`).
    pub fn headline(&self)
        ensures { HasHeadline self.now }
    {
        each_connection_of_a_fleet();
        // The field is looked at, so that what holds of every fleet is known here.
        let _ = &self.hosts;
    }

    /// Acknowledged means delivered, a law of every fleet. Of each connection between the server and a client, both ways, on each channel
    /// below 255, whatever the other hosts and strangers send: where the peer of the one end stands, still sends, and has no reliable
    /// command of the channel queued or unacknowledged, each reliable packet that its user submitted there, and that went in order, was
    /// dispatched at the other end, in order, taken or not, if the peer of that end stands and still dispatches.
    pub fn delivered(&self)
        ensures { HasDelivered self.now }
    {
        each_connection_of_a_fleet();
        // The field is looked at, so that what holds of every fleet is known here.
        let _ = &self.hosts;
    }

    /// Makes one event happen. An event that is refused changes nothing; `FleetEvent` names the refusals that each can meet, in the
    /// order in which they are tested.
    pub fn step(&mut self, event: FleetEvent) -> Result<Answer, Refusal>
        ensures steps { Steps self.old event result self.new }
        ensures headline { HasHeadline self.new }
        ensures delivered { HasDelivered self.new }
    {
        let answer = self.happen(&event);
        self.headline();
        self.delivered();
        answer
    }

    /// Makes the events happen in order, and gives the answer of each. E1 where there is no memory for the answers, before anything
    /// happens.
    pub fn run(&mut self, events: &[FleetEvent]) -> Result<Vec<Result<Answer, Refusal>>, Refusal>
        ensures memory { IfErr result (λ why. why ≡ Refusal.Memory) }
        ensures unchanged { OnErr result (self.new ≡ self.old) }
        ensures steps { IfOk result (λ answers. Runs self.old events.now answers.items self.new) }
        ensures headline { HasHeadline self.new }
        ensures delivered { HasDelivered self.new }
    {
        let answers = self.run_all(events);
        self.headline();
        self.delivered();
        answers
    }

    fn run_all(&mut self, events: &[FleetEvent]) -> Result<Vec<Result<Answer, Refusal>>, Refusal>
        ensures memory { IfErr result (λ why. why ≡ Refusal.Memory) }
        ensures unchanged { OnErr result (self.new ≡ self.old) }
        ensures steps { IfOk result (λ answers. Runs self.old events.now answers.items self.new) }
    {
        let Ok(mut answers) = Vec::with_capacity(self.alloc, events.len()) else {
            return Err(Refusal::Memory);
        };
        for event in events {
            answers.push_reserved(self.happen(event));
        }
        Ok(answers)
    }

    fn happen(&mut self, event: &FleetEvent) -> Result<Answer, Refusal>
        ensures { Steps self.old event.now result self.new }
    {
        happen(&mut self.hosts, self.alloc, event)
    }

    /// How many clients there are; it never changes.
    pub fn clients(&self) -> usize
        ensures { result ≡ length self.now.clients }
    {
        self.hosts.clients()
    }

    /// The packets of the user of an end of a connection that were accepted on a channel, in order; empty where there is no such
    /// connection or channel.
    pub fn submitted(&self, conn: u64, end: End, channel: u8) -> &[Packet]
        ensures { result.now ≡ submitted_at channel (end_at self.now conn end) }
    {
        match self.hosts.place_at(conn, end) {
            Some(place) => place.site.submitted(conn, channel),
            None => &[],
        }
    }

    /// The packets that the user of the other end has taken on that channel, unsequenced ones too, in order; empty where there is no
    /// such connection or channel.
    pub fn dispatched(&self, conn: u64, end: End, channel: u8) -> &[Packet]
        ensures { result.now ≡ taken_at channel (end_at self.now conn (far_end end)) }
    {
        match self.hosts.place_at(conn, far_end(end)) {
            Some(place) => place.site.taken(conn, channel),
            None => &[],
        }
    }

    /// The events that the user of an end of a connection has taken, in order; none where there is no such connection.
    pub fn events(&self, conn: u64, end: End) -> &[Event]
        ensures { result.now ≡ events_at (end_at self.now conn end) }
    {
        match self.hosts.place_at(conn, end) {
            Some(place) => place.site.events(conn),
            None => &[],
        }
    }

    /// Where to a datagram went that a host has put out, and its bytes; None where the host isn't there or has put out fewer.
    pub fn datagram(&self, node: Node, k: u64) -> Option<(Addr, &[u8])>
        ensures { option_map (λ d. (d.0, d.1.now)) result ≡ sent_by (place_of self.now node) k }
    {
        let place = self.hosts.place(node)?;
        sent_by(place, k)
    }

    /// A host, to be looked at; None where it isn't there.
    pub fn host(&self, node: Node) -> Option<&HostCore>
        ensures { option_copied result ≡ option_map (λ p. p.site.host) (place_of self.now node) }
    {
        let place = self.hosts.place(node)?;
        Some(place.site.host())
    }

    /// How many slots a host has; None where the host isn't there.
    pub fn slots(&self, node: Node) -> Option<u16>
        ensures { result ≡ option_map (λ p. length p.site.host.slots) (place_of self.now node) }
    {
        let place = self.hosts.place(node)?;
        Some(place.site.slots())
    }

    /// Lets the fleet go. A crate that drops one in any other way proves anew how all that its hosts hold is dropped.
    pub fn close(self) {
        self.hosts.close();
    }
}
