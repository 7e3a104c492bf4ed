//! How a peer begins.

ghost use Rattle.std.specs.Prelude.{◌≡◌, ◌≤◌, IsTrue, IfOk, IfErr};
ghost use Rattle.enet_connect.specs.Terms.{is_channel_count};
ghost use Rattle.enet_outbox.specs.Outbox.{empty_outbox};
ghost use Rattle.enet_peer.specs.Peered.{is_agreed_in};
ghost use Rattle.enet_peer.specs.Peering.{no_offer, throttle_for, joined, connecting, answering};

use crate::{Limits, Offsets, Peer, PeerState};
use enet_codec::{Offer, Refusal};
use enet_connect::{Server, Terms, answer, asked_terms, verification};
use enet_inbox::Inbox;
use enet_outbox::Outbox;
use enet_rtt::{Patience, Timing};
use enet_senders::Control;
use enet_throttle::Throttle;
use std::alloc::Global;

impl Peer {
    /// A peer that is connected from the start on these terms, whose mtu is 576 to 4,096 bytes, at the time `now` in
    /// milliseconds; the first command of channel 0xFF counts as sent. E1 where memory is refused.
    pub fn joined(alloc: Global, now: u32, terms: Terms, limits: Limits) -> Result<Peer, Refusal>
        requires { (576 ≤ terms.mtu) × (terms.mtu ≤ 4096) }
        ensures peer { IfOk result (λ p. p.peer ≡ joined now terms limits) }
        ensures memory { IfErr result (λ why. why ≡ Refusal.Memory) }
    {
        Peer::opened(alloc, now, PeerState::Connected, 1, terms, limits)
    }

    /// A client that asks for a connection at the time `now` in milliseconds: CONNECT waits to be put out. It adds `offset` to its
    /// sent times. E1 where memory is refused.
    pub fn connecting(
        alloc: Global,
        now: u32,
        offset: u16,
        offer: Offer,
        limits: Limits,
    ) -> Result<Peer, Refusal>
        ensures peer { IfOk result (λ p. p.peer ≡ connecting now offset offer limits) }
        ensures memory { IfErr result (λ why. why ≡ Refusal.Memory) }
    {
        let terms = asked_terms(&offer);
        let mut peer = Peer::opened(alloc, now, PeerState::Connecting, 0, terms, limits)?;
        peer.offset = offset;
        peer.offer = offer;
        peer.outbox.queue_control(Control::Connect(offer));
        Ok(peer)
    }

    /// A server that answers an offer of 1 to 255 channels at the time `now` in milliseconds: VERIFY_CONNECT waits to be put
    /// out, under the number after `offsets.number`. E1 where memory is refused.
    pub fn answering(
        alloc: Global,
        now: u32,
        offsets: Offsets,
        offer: Offer,
        server: Server,
        limits: Limits,
    ) -> Result<Peer, Refusal>
        requires { IsTrue (is_channel_count offer.channels) }
        ensures peer { IfOk result (λ p. p.peer ≡ answering now offsets offer server limits) }
        ensures memory { IfErr result (λ why. why ≡ Refusal.Memory) }
    {
        let Some(terms) = answer(&offer, &server) else {
            unreachable!()
        };
        let mut peer = Peer::opened(
            alloc,
            now,
            PeerState::Answering,
            offsets.number,
            terms,
            limits,
        )?;
        peer.offset = offsets.time;
        peer.is_server = true;
        peer.info = offer.info;
        peer.other_incoming = offer.incoming_bandwidth;
        let verify = verification(&offer, &server);
        peer.outbox.queue_control(Control::VerifyConnect(verify));
        Ok(peer)
    }

    /// A peer in this state with nothing to send, where `number` is the last number given on channel 0xFF. There is room for
    /// one command of that channel.
    fn opened(
        alloc: Global,
        now: u32,
        state: PeerState,
        number: u16,
        terms: Terms,
        limits: Limits,
    ) -> Result<Peer, Refusal>
        requires mtu_least { IsTrue (is_agreed_in state) → 576 ≤ terms.mtu }
        requires mtu_most { IsTrue (is_agreed_in state) → terms.mtu ≤ 4096 }
        ensures peer { IfOk result (λ p. p.peer ≡ record (joined now terms limits) { state = state; outbox = empty_outbox terms.channels number (throttle_for terms) }) }
        ensures room { IfOk result (λ p. 1 ≤ p.room) }
        ensures memory { IfErr result (λ why. why ≡ Refusal.Memory) }
    {
        let inbox = Inbox::open(alloc, terms.channels, limits.max_packet, limits.max_waiting)?;
        let outbox = Outbox::open(alloc, terms.channels, number, throttle_for(&terms))?;
        Ok(Peer {
            state,
            is_server: false,
            info: 0,
            terms,
            offer: no_offer(),
            limits,
            offset: 0,
            patience: Patience::standard(),
            ping_interval: 500,
            timing: Timing::new(),
            heard: now,
            made: now,
            refused: false,
            other_incoming: 0,
            greeting: None,
            ending: None,
            inbox,
            outbox,
        })
    }
}

/// The throttle by the numbers of the terms.
fn throttle_for(terms: &Terms) -> Throttle
    ensures { result ≡ throttle_for terms.now }
{
    let mut throttle = Throttle::new();
    throttle.configure(
        terms.throttle_interval,
        terms.acceleration,
        terms.deceleration,
    );
    throttle
}

/// What stands in place of an offer where this end made none.
fn no_offer() -> Offer
    ensures { result ≡ no_offer }
{
    Offer {
        outgoing_peer: 0,
        incoming_session: 0,
        outgoing_session: 0,
        mtu: 0,
        window: 0,
        channels: 0,
        incoming_bandwidth: 0,
        outgoing_bandwidth: 0,
        throttle_interval: 0,
        acceleration: 0,
        deceleration: 0,
        connect_id: 0,
        info: 0,
    }
}
