//! How a slot is given out: to one that this host asks, and to one that asks this host.

ghost use Rattle.std.specs.Prelude.{◌≡◌, ◌≤◌, IsTrue, OnOk, OnErr, IfOk, IfErr};
ghost use Rattle.enet_connect.specs.Terms.{is_channel_count};
ghost use Rattle.enet_peer.specs.Peering as peers;
ghost use Rattle.enet_slot.specs.Slot.{name_of};
ghost use Rattle.enet_slot.specs.Yielding.{readied};
ghost use Rattle.enet_slot.specs.Giving.{basis_of, limits_of, joined_terms, offer_from, drawn_for, server_from, given, asking, answering};

use crate::Slot;
use crate::drawing::{Drawn, draw, session_or_drawn};
use enet_codec::{Addr, Config, PeerRef, Refusal};
use enet_connect::{Offer, Server, Terms};
use enet_peer::{Limits, Offsets, Peer};
use enet_throttle::window_of;
use std::alloc::Global;

/// The throttle's standard numbers (ENet 1.3): its interval in milliseconds, and by how much it rises and falls.
const THROTTLE_INTERVAL: u32 = 5000;

const ACCELERATION: u32 = 2;

const DECELERATION: u32 = 2;

/// What a peer begins with.
#[derive(Drop)]
pub struct Start {
    pub alloc: Global,
    /// The host's settings, with the bandwidths as they were last set.
    pub config: Config,
    /// The host's clock, in milliseconds.
    pub clock: u32,
}

/// Whom a host asks for a connection, and for what.
#[derive(Clone, Copy)]
pub struct Question {
    pub address: Addr,
    pub channels: u8,
    /// A word for the other host's user.
    pub info: u32,
    /// The connect id.
    pub word: u32,
}

/// What a host with these settings allows its peers.
fn limits_of(config: &Config) -> Limits
    ensures { result ≡ limits_of config.now }
{
    Limits {
        max_packet: config.max_packet,
        max_waiting: config.max_waiting,
        incoming: config.incoming,
        outgoing: config.outgoing,
    }
}

/// The terms of a host that is connected from the start.
fn joined_terms(config: &Config) -> Terms
    ensures { result ≡ joined_terms config.now }
{
    Terms {
        slot: 0,
        channels: config.channels,
        mtu: config.mtu,
        window: window_of(config.outgoing, 0),
        incoming_session: 0,
        outgoing_session: 0,
        throttle_interval: THROTTLE_INTERVAL,
        acceleration: ACCELERATION,
        deceleration: DECELERATION,
        connect_id: 0,
    }
}

/// What a client offers from the slot of this number.
fn offer_from(config: &Config, number: u16, slot: &Slot, question: &Question) -> Offer
    ensures { result ≡ offer_from config.now number slot.now.slot question.now }
{
    Offer {
        outgoing_peer: number,
        incoming_session: slot.incoming_session,
        outgoing_session: slot.outgoing_session,
        mtu: config.mtu,
        window: window_of(config.outgoing, 0),
        channels: u32::from(question.channels),
        incoming_bandwidth: config.incoming,
        outgoing_bandwidth: config.outgoing,
        throttle_interval: THROTTLE_INTERVAL,
        acceleration: ACCELERATION,
        deceleration: DECELERATION,
        connect_id: question.word,
        info: question.info,
    }
}

/// What a server answers an offer by from a slot, for whose next peer this was drawn.
fn server_from(config: &Config, number: u16, slot: &Slot, offer: &Offer, drawn: &Drawn) -> Server
    requires { drawn.now ≡ drawn_for config.now number slot.now.slot }
    ensures { result ≡ server_from config.now number slot.now.slot offer.now }
{
    Server {
        slot: number,
        incoming_session: session_or_drawn(
            slot.incoming_session,
            offer.outgoing_session,
            drawn.incoming_session,
        ),
        outgoing_session: session_or_drawn(
            slot.outgoing_session,
            offer.incoming_session,
            drawn.outgoing_session,
        ),
        channels: config.channels,
        mtu: config.mtu,
        incoming_bandwidth: config.incoming,
        outgoing_bandwidth: config.outgoing,
    }
}

impl Slot {
    /// Gives the slot to a peer at this address.
    fn give(&mut self, address: Addr, peer: Peer)
        ensures { self.new.slot ≡ given self.old.slot address peer.peer }
    {
        self.address = address;
        self.emitted = 0;
        self.hold(Some(peer));
    }

    /// Gives the slot to a peer at this address that is connected from the start, on terms of our profile. E1 where memory is
    /// refused, with nothing changed.
    pub(crate) fn join(
        &mut self,
        alloc: Global,
        config: &Config,
        address: Addr,
    ) -> Result<(), Refusal>
        requires { (576 ≤ config.now.mtu) × (config.now.mtu ≤ 4096) }
        ensures given { OnOk result (self.new.slot ≡ given self.old.slot address (peers.joined config.now.clock (joined_terms config.now) (limits_of config.now))) }
        ensures unchanged { OnErr result (self.new.slot ≡ self.old.slot) }
        ensures memory { IfErr result (λ why. why ≡ Refusal.Memory) }
    {
        let peer = Peer::joined(alloc, config.clock, joined_terms(config), limits_of(config))?;
        self.give(address, peer);
        Ok(())
    }

    /// Gives the slot of this number to a peer that asks, and names it. E1 where memory is refused, with nothing changed.
    pub fn ask(
        &mut self,
        start: &Start,
        number: u16,
        question: Question,
    ) -> Result<PeerRef, Refusal>
        ensures asks { OnOk result (self.new.slot ≡ asking (basis_of start.now) number self.old.slot question) }
        ensures named { IfOk result (λ name. name ≡ name_of number self.old.slot) }
        ensures unchanged { OnErr result (self.new.slot ≡ self.old.slot) }
        ensures memory { IfErr result (λ why. why ≡ Refusal.Memory) }
    {
        let name = PeerRef {
            slot: number,
            generation: self.generation,
        };
        let drawn = draw(start.config.secret, number, name.generation);
        self.ask_with(start, number, question, drawn.offsets.time)?;
        Ok(name)
    }

    /// The same for a peer that adds this to its sent times.
    fn ask_with(
        &mut self,
        start: &Start,
        number: u16,
        question: Question,
        offset: u16,
    ) -> Result<(), Refusal>
        ensures asks { OnOk result (self.new.slot ≡ given self.old.slot question.address (peers.connecting start.now.clock offset (offer_from start.now.config number self.old.slot question) (limits_of start.now.config))) }
        ensures unchanged { OnErr result (self.new.slot ≡ self.old.slot) }
        ensures memory { IfErr result (λ why. why ≡ Refusal.Memory) }
    {
        let offer = offer_from(&start.config, number, self, &question);
        let limits = limits_of(&start.config);
        let peer = Peer::connecting(start.alloc, start.clock, offset, offer, limits)?;
        self.give(question.address, peer);
        Ok(())
    }

    /// Gives the slot of this number to a peer at this address, whose offer it answers. A peer that it holds gives way. E1 where memory is
    /// refused, with nothing changed.
    pub fn answer(
        &mut self,
        start: &Start,
        number: u16,
        from: Addr,
        offer: Offer,
    ) -> Result<(), Refusal>
        requires { IsTrue (is_channel_count offer.channels) }
        ensures answers { OnOk result (self.new.slot ≡ answering (basis_of start.now) number (readied self.old.slot) from offer) }
        ensures unchanged { OnErr result (self.new.slot ≡ self.old.slot) }
        ensures memory { IfErr result (λ why. why ≡ Refusal.Memory) }
    {
        let mut next = self.readied();
        next.answer_free(start, number, from, offer)?;
        *self = next;
        Ok(())
    }

    /// The same of a slot that is free.
    fn answer_free(
        &mut self,
        start: &Start,
        number: u16,
        from: Addr,
        offer: Offer,
    ) -> Result<(), Refusal>
        requires { IsTrue (is_channel_count offer.channels) }
        ensures answers { OnOk result (self.new.slot ≡ answering (basis_of start.now) number self.old.slot from offer) }
        ensures unchanged { OnErr result (self.new.slot ≡ self.old.slot) }
        ensures memory { IfErr result (λ why. why ≡ Refusal.Memory) }
    {
        let drawn = draw(start.config.secret, number, self.generation);
        let server = server_from(&start.config, number, self, &offer, &drawn);
        self.answer_with(start, from, offer, server, drawn.offsets)
    }

    /// The same as this server, for a peer that adds these to what it tells.
    fn answer_with(
        &mut self,
        start: &Start,
        from: Addr,
        offer: Offer,
        server: Server,
        offsets: Offsets,
    ) -> Result<(), Refusal>
        requires { IsTrue (is_channel_count offer.channels) }
        ensures answers { OnOk result (self.new.slot ≡ given self.old.slot from (peers.answering start.now.clock offsets offer server (limits_of start.now.config))) }
        ensures unchanged { OnErr result (self.new.slot ≡ self.old.slot) }
        ensures memory { IfErr result (λ why. why ≡ Refusal.Memory) }
    {
        let limits = limits_of(&start.config);
        let peer = Peer::answering(start.alloc, start.clock, offsets, offer, server, limits)?;
        self.give(from, peer);
        Ok(())
    }
}
