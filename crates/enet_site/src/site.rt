//! A host in a network, at its address.

ghost use Rattle.std.specs.Prelude.{◌≡◌, ◌<◌, ◌^◌, ℕ, [], length, ◌∷◌, true, false, Ok, Err, IfSome, IfNone, IfOk, IfErr, OnErr, slice_get};
ghost use Rattle.std.specs.Option.{option_and_then, option_copied, option_map};
ghost use Rattle.enet_codec.specs.Config.{is_in_range};
ghost use Rattle.enet_host.specs.Calls.{address_named};
ghost use Rattle.enet_host.specs.Foretelling.{teller_of, Foretells};
ghost use Rattle.enet_host.specs.Opening.{opened, joined};
ghost use Rattle.law_network.specs.Headline.{AreEnds, submitted_at, taken_at, events_at};
ghost use Rattle.law_network.specs.Network.{end_of, delivery_refusal};
ghost use Rattle.law_network.specs.Calls as call;
ghost use Rattle.law_network.specs.Steps.{Calls, Delivers, Happens, Called};
ghost use Rattle.law_network.specs.World.{joined_end, IsRefusedFor, RefusesCall, RefusesTake};
ghost use Rattle.enet_site.specs.Sites.{CallsAt};
ghost use Rattle.enet_site.specs.Standing.{state_at};
ghost use Rattle.enet_site.specs.Turning.{TurnsAmong};

use crate::arriving::deliver;
use crate::connecting::{Question, connect, connect_refusal};
use crate::delivery::refused_delivery;
use crate::leaving::disconnect;
use crate::put_out::Turned;
use crate::standing::state;
use crate::submitting::submit;
use crate::taking::{next_event_from, take};
use crate::turn::turn;
use crate::{Around, Records, numbers_of};
use bytes::Bytes;
use enet_codec::{
    Addr, Admission, Config, DisconnectMode, Event, Packet, PeerRef, Received, Refusal,
};
use enet_host::{HostCore, PeerState};
use std::alloc::Global;
use std::marker::Model;

/// A host at its address, with all that is kept of it: the datagrams that it put out, and its ends of connections, each with
/// what its user submitted and took and how far its numbers have come.
#[derive(Drop)]
pub struct Site {
    address: Addr,
    host: HostCore,
    records: Records,
}

impl Model for Site {
    ghost use Rattle.law_network.specs.Network.{Site};
    ghost use Rattle.enet_site.specs.Sites.{site};
    ghost use Rattle.enet_site.specs.Private.Sites.{IsWhole};
    ghost use Rattle.std.specs.Coded.{codes};
    ghost use Rattle.enet_inbox.specs.Codes.{inbox_code};

    ghost Value = { Site };

    ghost coded = { Prim.hlevel (codes, inbox_code) };

    ghost view = { λ s. site s.address s.host s.records };

    ghost invariant = { λ s. IsWhole s.host s.records.ends };
}

impl Site {
    /// A host with these settings at this address, whose slots are all free. E8 where a number of the settings is out of its
    /// range, E1 where memory is refused.
    pub fn open(alloc: Global, address: Addr, config: Config) -> Result<Site, Refusal>
        ensures out_of_range { is_in_range config ≡ false → result ≡ Err Refusal.BadConfig }
        ensures in_range { is_in_range config ≡ true → IfErr result (λ why. why ≡ Refusal.Memory) }
        ensures fresh { IfOk result (λ s. s ≡ record { address = address; host = opened config; log = []; ends = [] }) }
    {
        Ok(Site {
            address,
            host: HostCore::open(alloc, config)?,
            records: Records::open(alloc),
        })
    }

    /// A host with these settings at this address, which is connected from the start, by connection 0, to slot 0 of the host at
    /// the address `far`. E8 and E1 as by `open`.
    pub fn joined(alloc: Global, address: Addr, config: Config, far: Addr) -> Result<Site, Refusal>
        ensures out_of_range { is_in_range config ≡ false → result ≡ Err Refusal.BadConfig }
        ensures in_range { is_in_range config ≡ true → IfErr result (λ why. why ≡ Refusal.Memory) }
        ensures fresh { IfOk result (λ s. s ≡ record { address = address; host = joined config far; log = []; ends = joined_end ∷ [] }) }
    {
        if !config.is_in_range() {
            return Err(Refusal::BadConfig);
        }
        // The host comes last: a function in which it may be let go would prove how all that it holds is dropped.
        let records = Records::joined(alloc)?;
        Ok(Site {
            address,
            host: HostCore::joined(alloc, config, far)?,
            records,
        })
    }

    /// Its user asks the host `far` for a connection with so many channels, where there have been `next` connections so far.
    /// `info` is a word for the other user, `word` the connect id. E8 for no channels, E7 where no slot is left, E1 where
    /// memory is refused, with nothing changed.
    pub fn connect(
        &mut self,
        alloc: Global,
        far: &Site,
        next: u64,
        channels: u8,
        info: u32,
        word: u32,
    ) -> Result<PeerRef, Refusal>
        ensures refused { IfErr result (λ why. RefusesCall (call.Connect far.now.address channels info word (Err why)) self.old) }
        ensures unchanged { OnErr result (self.new ≡ self.old) }
        ensures connects { IfOk result (λ name. Happens next far.now (Calls (call.Connect far.now.address channels info word (Ok name))) self.old self.new) }
    {
        let question = Question {
            address: far.address,
            channels,
            info,
            word,
        };
        connect(&mut self.host, &mut self.records, alloc, next, question)
    }

    /// The first refusal but want of memory that asking for a connection with so many channels meets here, if there is one: E8
    /// for no channels, E7 where no slot is left.
    pub fn connect_refusal(&self, channels: u8) -> Option<Refusal>
        ensures refused { IfSome result (λ why. (address : Addr) (info word : ℕ) → RefusesCall (call.Connect address channels info word (Err why)) self.now) }
        ensures memory { IfNone result ((address : Addr) (info word : ℕ) → RefusesCall (call.Connect address channels info word (Err Refusal.Memory)) self.now) }
    {
        connect_refusal(&self.host, channels)
    }

    /// Its user submits a packet to a peer on a channel; `flags` are its flags. E2, E3, E4, E5, E9 as by the host, E1 where memory
    /// is refused, with nothing changed.
    pub fn submit(
        &mut self,
        peer: PeerRef,
        channel: u8,
        flags: u8,
        body: &Bytes,
    ) -> Result<(), Refusal>
        ensures refused { IfErr result (λ why. RefusesCall (call.Submit peer channel (record { flags = flags; body = body.now }) (Err (why, body.now))) self.old) }
        ensures unchanged { OnErr result (self.new ≡ self.old) }
        ensures submits { IfOk result (λ done. CallsAt (call.Submit peer channel (record { flags = flags; body = body.now }) (Ok tt)) self.old self.new) }
    {
        submit(
            &mut self.host,
            &mut self.records,
            peer,
            channel,
            flags,
            body,
        )
    }

    /// The network brings datagram `k` of the host `from`. E13, E12 and E11 as `delivery_refusal` tells them, E1 where memory
    /// is refused, with nothing changed.
    pub fn deliver(&mut self, alloc: Global, from: &Site, k: u64) -> Result<Received, Refusal>
        ensures refused { IfErr result (λ why. IsRefusedFor why (delivery_refusal from.now self.old (slice_get from.now.log k))) }
        ensures unchanged { OnErr result (self.new ≡ self.old) }
        ensures delivers { IfOk result (λ answer. (next : ℕ) → Happens next from.now (Delivers k answer) self.old self.new) }
    {
        deliver(
            &mut self.host,
            &mut self.records,
            alloc,
            from.address,
            &from.records,
            k,
        )
    }

    /// A datagram comes of a stranger, at the address `from`. Nothing is kept of it.
    pub fn receive(&mut self, from: Addr, bytes: &[u8]) -> Received
        ensures { (next : ℕ) → Called next (call.Receive from bytes.now result) self.old self.new }
    {
        self.host.receive(from, bytes)
    }

    /// The host may put out one datagram; None where it has nothing to send. One that goes to a host gets the site's next number,
    /// from 0; one that goes to a stranger is given away. `around` tells which addresses are hosts'. E1 where memory is refused,
    /// with nothing changed.
    pub fn turn<A: Around>(&mut self, alloc: Global, around: &A) -> Result<Option<Turned>, Refusal>
        requires owned { AreEnds (A.hosts around.now) self.old }
        ensures memory { IfErr result (λ why. why ≡ Refusal.Memory) }
        ensures unchanged { OnErr result (self.new ≡ self.old) }
        ensures turns { IfOk result (λ sent. TurnsAmong (A.hosts around.now) (A.numbers around.now) sent self.old self.new) }
    {
        turn(&mut self.host, &mut self.records, around, alloc)
    }

    /// The clock of the host goes on by so many milliseconds, by a minute at most.
    pub fn tick(&mut self, ms: u32)
        ensures { CallsAt (call.Tick ms) self.old self.new }
    {
        self.host.tick(ms);
    }

    /// Its user takes the next event; None where there is none. E1 where one waits and memory is refused, with nothing changed.
    pub fn take(&mut self) -> Result<Option<Event>, Refusal>
        ensures refused { IfErr result (λ why. RefusesTake why self.old.host) }
        ensures unchanged { OnErr result (self.new ≡ self.old) }
        ensures takes { IfOk result (λ event. CallsAt (call.NextEvent event) self.old self.new) }
    {
        take(&mut self.host, &mut self.records)
    }

    /// Where the host has the peer whose event `take` gives next; None where no event waits.
    pub fn next_event_from(&self) -> Option<Addr>
        ensures { Foretells (λ event. option_and_then (address_named self.now.host.slots) (teller_of event)) self.now.host result }
    {
        next_event_from(&self.host)
    }

    /// Its user ends the connection of a peer, with a word for the other user. E2, E3 as by the host, with nothing changed.
    pub fn disconnect(
        &mut self,
        peer: PeerRef,
        how: DisconnectMode,
        info: u32,
    ) -> Result<(), Refusal>
        ensures refused { IfErr result (λ why. RefusesCall (call.Disconnect how peer info (Err why)) self.old) }
        ensures unchanged { OnErr result (self.new ≡ self.old) }
        ensures ends { IfOk result (λ done. CallsAt (call.Disconnect how peer info (Ok tt)) self.old self.new) }
    {
        disconnect(&mut self.host, peer, how, info)
    }

    /// Its user sets whom the host lets in. E8 as by the host, with nothing changed.
    pub fn admit(&mut self, what: Admission) -> Result<(), Refusal>
        ensures refused { IfErr result (λ why. RefusesCall (call.Admit what (Err why)) self.old) }
        ensures unchanged { OnErr result (self.new ≡ self.old) }
        ensures admits { IfOk result (λ done. CallsAt (call.Admit what (Ok tt)) self.old self.new) }
    {
        self.host.admit(what)
    }

    /// Its user sets how much may be queued or unacknowledged for a peer when another packet is submitted to it.
    pub fn set_send_limit(&mut self, bytes: u64, commands: u64)
        ensures { CallsAt (call.SetSendLimit bytes commands) self.old self.new }
    {
        self.host.set_send_limit(bytes, commands);
    }

    /// The host, to be looked at.
    pub fn host(&self) -> &HostCore
        ensures { result.now ≡ self.now.host }
    {
        &self.host
    }

    /// How many slots the host has.
    pub fn slots(&self) -> u16
        ensures { result ≡ length self.now.host.slots }
    {
        self.host.slot_count()
    }

    /// The first refusal but want of memory that datagram `k` of the host `from` meets here, if there is one: E13 where `from`
    /// has put out fewer, E12 where it is of an earlier connection, E11 where a command of it is more than 32,768 late.
    pub fn delivery_refusal(&self, from: &Site, k: u64) -> Option<Refusal>
        ensures { result ≡ delivery_refusal from.now self.now (slice_get from.now.log k) }
    {
        refused_delivery(&self.host, &self.records, from.address, &from.records, k)
    }

    /// How far a connection has come at this end; None where there is no such connection, or its peer is gone.
    pub fn state(&self, connection: u64) -> Option<PeerState>
        ensures { result ≡ state_at self.now connection }
    {
        state(&self.host, &self.records.ends, connection)
    }

    /// How many connections have an end here: fewer than 2^63.
    pub fn connections(&self) -> usize
        ensures count { result ≡ length self.now.ends }
        ensures few { result < 2 ^ 63 }
    {
        self.records.connections()
    }

    /// The bytes of a datagram that the host put out, or None where it has put out fewer.
    pub fn datagram(&self, k: u64) -> Option<&[u8]>
        ensures { option_copied result ≡ option_map (λ d. d.text) (slice_get self.now.log k) }
    {
        let datagram = self.records.logged(k)?;
        Some(&datagram.text)
    }

    /// Where to a datagram went that the host put out, or None where it has put out fewer.
    pub fn destination(&self, k: u64) -> Option<Addr>
        ensures { result ≡ option_map (λ d. d.to) (slice_get self.now.log k) }
    {
        let datagram = self.records.logged(k)?;
        Some(datagram.to)
    }

    /// What the user of this end of a connection submitted on a channel, in order; empty where there is no such connection or
    /// channel.
    pub fn submitted(&self, connection: u64, channel: u8) -> &[Packet]
        ensures { result.now ≡ submitted_at channel (end_of connection self.now.ends) }
    {
        crate::submitted(&self.records.ends, connection, channel)
    }

    /// What the user of this end of a connection took of a channel, in order; empty where there is no such connection or
    /// channel.
    pub fn taken(&self, connection: u64, channel: u8) -> &[Packet]
        ensures { result.now ≡ taken_at channel (end_of connection self.now.ends) }
    {
        crate::taken(&self.records.ends, connection, channel)
    }

    /// The events that the user of this end of a connection took, in order; none where there is no such connection.
    pub fn events(&self, connection: u64) -> &[Event]
        ensures { result.now ≡ events_at (end_of connection self.now.ends) }
    {
        crate::events(&self.records.ends, connection)
    }

    /// Lets the site go. A crate that drops one in any other way proves anew how all that a host holds is dropped.
    pub fn close(self) {}
}

/// Of the two hosts of a pair, each has the other around it alone: no stranger is there.
impl Around for Site {
    ghost use Rattle.law_network.specs.Network.{numbers_of};

    ghost hosts = { λ site address. true };

    ghost numbers = { numbers_of };

    fn is_host(&self, _address: Addr) -> bool {
        true
    }

    fn numbers(&self, connection: u64) -> &[u128] {
        numbers_of(&self.records.ends, connection)
    }
}
