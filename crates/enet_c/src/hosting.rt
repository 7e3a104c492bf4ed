//! The host's calls on what a handle holds, with numbers in place of refusals.

ghost use Rattle.std.specs.Prelude.{◌≡◌, ◌≤◌, None, length, map};
ghost use Rattle.enet_codec.specs.Outward.{errands};
ghost use Rattle.enet_host.specs.Broadcast.{SubmitsEach};
ghost use Rattle.enet_c.specs.Border.{AnswersEach, Asks, Broadcasts, BroadcastsEach, Copies, PutsOut, SubmitsStaged, SubmitsTo, Tells};
ghost use Rattle.enet_c.specs.Shapes.{name_meant, reading_named, line_named, traffic_named};

use crate::held::Held;
use crate::numbers::{OK, SHORT, UNSTAGED, UNTOLD, answer, number_of};
use crate::shapes::{
    CoreAddress, CoreDatagram, CoreEvent, CoreLine, CorePeer, CoreReading, CoreTraffic,
    state_number,
};
use bytes::Bytes;
use enet_host::{Addr, Event, Outward, PeerRef, Refusal};
use std::alloc::Global;

/// A body of no more bytes is copied before the host is asked whether it would refuse it, which it seldom does.
const SHORT_BODY: usize = 4096;

impl Held {
    /// Asks the host at an address for a connection. The peer is named where the answer is 0, and left as it was elsewhere.
    pub(crate) fn connect(
        &mut self,
        to: Addr,
        channels: u8,
        info: u32,
        word: u32,
        peer: &mut CorePeer,
    ) -> u32
        ensures { Asks (record { address = to; channels = channels; info = info; word = word }) peer.old peer.new (record { before = self.old; number = result; after = self.new }) }
    {
        match self.host.connect(to, channels, info, word) {
            Ok(name) => {
                *peer = CorePeer::of(name);
                OK
            }
            Err(why) => number_of(why),
        }
    }

    /// Submits a packet with a body of its own.
    pub(crate) fn give(&mut self, name: PeerRef, channel: u8, flags: u8, body: Bytes) -> u32
        ensures { SubmitsTo name channel (record { flags = flags; body = body }) (record { before = self.old; number = result; after = self.new }) }
    {
        match self.host.submit(name, channel, flags, body) {
            Ok(()) => OK,
            Err((why, _body)) => number_of(why),
        }
    }

    /// Submits a packet whose body is copied. A long body is copied only where the host wouldn't refuse it.
    pub(crate) fn submit(
        &mut self,
        alloc: Global,
        name: PeerRef,
        channel: u8,
        flags: u8,
        body: &[u8],
    ) -> u32
        ensures { SubmitsTo name channel (record { flags = flags; body = body.now }) (record { before = self.old; number = result; after = self.new }) }
    {
        if body.len() > SHORT_BODY {
            if let Some(why) = self.host.submission_refusal(name, channel, body.len()) {
                return number_of(why);
            }
        }
        if let Ok(body) = Bytes::copy_from_slice(alloc, body) {
            return self.give(name, channel, flags, body);
        }
        match self.host.submission_refusal(name, channel, body.len()) {
            Some(why) => number_of(why),
            None => number_of(Refusal::Memory),
        }
    }

    /// Submits a packet with the staged body, which is shared.
    pub(crate) fn submit_staged(&mut self, name: PeerRef, channel: u8, flags: u8) -> u32
        ensures { SubmitsStaged name channel flags (record { before = self.old; number = result; after = self.new }) }
    {
        let Some(staged) = &self.staged else {
            return UNSTAGED;
        };
        if let Ok(body) = staged.clone() {
            return self.give(name, channel, flags, body);
        }
        match self.host.submission_refusal(name, channel, staged.len()) {
            Some(why) => number_of(why),
            None => number_of(Refusal::Memory),
        }
    }

    /// Submits a packet, whose body is copied once, to each of these peers.
    pub(crate) fn broadcast(
        &mut self,
        alloc: Global,
        peers: &[CorePeer],
        channel: u8,
        flags: u8,
        body: &[u8],
    ) -> u32
        ensures { Broadcasts (map name_meant peers.now) (record { except = None; channel = channel; flags = flags; body = body.now }) (record { before = self.old; number = result; after = self.new }) }
    {
        let Ok(body) = Bytes::copy_from_slice(alloc, body) else {
            return number_of(Refusal::Memory);
        };
        let packet = Outward {
            except: None,
            channel,
            flags,
            body,
        };
        answer(self.submit_each(peers, &[packet]))
    }

    /// Submits packets to each of these peers.
    fn submit_each(&mut self, peers: &[CorePeer], packets: &[Outward]) -> Result<(), Refusal>
        ensures submits { SubmitsEach self.old.host.send_limit (errands (map name_meant peers.now) packets.now) result self.old.host.slots self.new.host.slots }
        ensures rest { self.new ≡ record self.old { host = record self.old.host { slots = self.new.host.slots } } }
    {
        let mut told = Ok(());
        for peer in peers {
            told = told.and(self.host.submit_each(&[peer.into_name()], packets));
        }
        told
    }

    /// Submits a packet, whose body is copied once, to each of these peers, and writes what each submission answered to the front of a
    /// buffer.
    pub(crate) fn broadcast_each(
        &mut self,
        alloc: Global,
        peers: &[CorePeer],
        channel: u8,
        flags: u8,
        body: &[u8],
        answers: &mut [u32],
    ) -> u32
        ensures { BroadcastsEach (map name_meant peers.now) channel (record { flags = flags; body = body.now }) answers.old answers.new (record { before = self.old; number = result; after = self.new }) }
    {
        if answers.len() < peers.len() {
            return SHORT;
        }
        let Ok(body) = Bytes::copy_from_slice(alloc, body) else {
            return number_of(Refusal::Memory);
        };
        self.submit_in_turn(peers, channel, flags, &body, answers);
        OK
    }

    /// Submits a packet with this body to each of these peers, and writes what each submission answered to the front of a buffer.
    fn submit_in_turn(
        &mut self,
        peers: &[CorePeer],
        channel: u8,
        flags: u8,
        body: &Bytes,
        answers: &mut [u32],
    )
        requires { length peers.now ≤ length answers.old }
        ensures { AnswersEach (map name_meant peers.now) channel (record { flags = flags; body = body.now }) answers.old answers.new (record { before = self.old; number = 0; after = self.new }) }
    {
        for place in 0..peers.len() {
            answers[place] = self.submit_shared(peers[place].into_name(), channel, flags, body);
        }
    }

    /// Submits a packet with this body, which is shared and not copied.
    fn submit_shared(&mut self, name: PeerRef, channel: u8, flags: u8, shared: &Bytes) -> u32
        ensures { SubmitsTo name channel (record { flags = flags; body = shared.now }) (record { before = self.old; number = result; after = self.new }) }
    {
        if let Ok(body) = shared.clone() {
            return self.give(name, channel, flags, body);
        }
        match self.host.submission_refusal(name, channel, shared.len()) {
            Some(why) => number_of(why),
            None => number_of(Refusal::Memory),
        }
    }

    /// Puts out the next datagram, into the first 4,096 bytes of a buffer.
    pub(crate) fn service(&mut self, buffer: &mut [u8], datagram: &mut CoreDatagram) -> u32
        ensures { PutsOut buffer.old buffer.new datagram.new (record { before = self.old; number = result; after = self.new }) }
    {
        *datagram = CoreDatagram::none();
        let Some(front) = buffer.first_chunk_mut::<4096>() else {
            return SHORT;
        };
        *datagram = CoreDatagram::of(self.host.service(front));
        OK
    }

    /// Tells the next event, and keeps the body of its packet.
    pub(crate) fn next_event(&mut self, event: &mut CoreEvent) -> u32
        ensures { Tells event.new (record { before = self.old; number = result; after = self.new }) }
    {
        let told = self.host.next_event();
        *event = CoreEvent::of(&told);
        self.told = match told {
            Some(Event::Receive { peer: _, packet }) => Some(packet.body),
            _ => None,
        };
        OK
    }

    /// Copies the body that is kept to the front of a buffer.
    pub(crate) fn copy_body(&self, buffer: &mut [u8]) -> u32
        ensures { Copies self.now.told buffer.old result buffer.new }
    {
        let Some(body) = &self.told else {
            return UNTOLD;
        };
        let count = body.len();
        if count > buffer.len() {
            return SHORT;
        }
        buffer[..count].copy_from_slice(body);
        OK
    }

    /// What can be read of a peer.
    pub(crate) fn reading(&self, name: PeerRef) -> Option<CoreReading>
        ensures { result ≡ reading_named self.now.host.slots name }
    {
        let host = &self.host;
        let state = host.state(name)?;
        let terms = host.terms(name)?;
        let trip = host.round_trip(name)?;
        let in_transit = host.in_transit(name)?;
        let throttle = host.throttle(name)?;
        let address = host.address(name)?;
        Some(CoreReading {
            state: state_number(state),
            mtu: terms.mtu,
            window: terms.window,
            connect_id: terms.connect_id,
            round_trip: trip.mean,
            variance: trip.variance,
            in_transit,
            throttle,
            throttle_interval: terms.throttle_interval,
            acceleration: terms.acceleration,
            deceleration: terms.deceleration,
            address: CoreAddress::of(address),
            slot: terms.slot,
            channels: terms.channels,
            incoming_session: terms.incoming_session,
            outgoing_session: terms.outgoing_session,
        })
    }

    /// How the line to a peer is, and what is queued or unacknowledged for it.
    pub(crate) fn line(&self, name: PeerRef) -> Option<CoreLine>
        ensures { result ≡ line_named self.now.host.slots name }
    {
        let host = &self.host;
        let trips = host.round_trip(name)?;
        let lows = host.lows(name)?;
        let throttle = host.throttle(name)?;
        let allowance = host.allowance(name)?;
        let in_transit = host.in_transit(name)?;
        let there = host.outstanding(name)?;
        Some(CoreLine {
            round_trip: trips.mean,
            variance: trips.variance,
            lowest: lows.running,
            lowest_before: lows.last,
            throttle,
            allowance,
            in_transit,
            commands: there.commands,
            bytes: there.bytes,
        })
    }

    /// What went to a peer and was acknowledged.
    pub(crate) fn traffic(&self, name: PeerRef) -> Option<CoreTraffic>
        ensures { result ≡ traffic_named self.now.host.slots name }
    {
        let counts = self.host.traffic(name)?;
        Some(CoreTraffic {
            sent: counts.sent,
            again: counts.again,
            acknowledged: counts.acknowledged,
        })
    }
}
