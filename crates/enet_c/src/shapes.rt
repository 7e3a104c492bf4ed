//! What goes over the border by value or into the caller's memory.

ghost use Rattle.std.specs.Prelude.{◌≡◌, ◌≤◌, IfSome};
ghost use Rattle.enet_c.specs.Shapes.{config_shown, config_meant, secret_meant, address_shown, address_meant, name_shown, name_meant, no_datagram, datagram_shown, no_event, event_shown, received_shown, state_number, ending_number, held_shown, slots_meant};

use enet_host::{Addr, Config, Event, HostCore, PeerRef, PeerState, Received, Secret, SlotCounts};
use enet_peer::Ending;
use std::mem::size_of;

const _: () = prove!(size_of::<CoreConfig>() == 32);

const _: () = prove!(size_of::<CoreSecret>() == 32);

const _: () = prove!(size_of::<CoreAddress>() == 8);

const _: () = prove!(size_of::<CorePeer>() == 8);

const _: () = prove!(size_of::<CoreReceived>() == 12);

const _: () = prove!(size_of::<CoreDatagram>() == 20);

const _: () = prove!(size_of::<CoreEvent>() == 32);

const _: () = prove!(size_of::<CoreReading>() == 60);

const _: () = prove!(size_of::<CoreLine>() == 48);

const _: () = prove!(size_of::<CoreTraffic>() == 24);

const _: () = prove!(size_of::<CoreTotals>() == 32);

const _: () = prove!(size_of::<CoreHeld>() == 64);

const _: () = prove!(size_of::<CoreSlots>() == 12);

/// The settings of a host: those of `enet_codec::Config` but its secret.
#[repr(C)]
#[derive(Clone, Copy)]
pub struct CoreConfig {
    pub peers: u16,
    pub channels: u8,
    pub mtu: u32,
    pub incoming: u32,
    pub outgoing: u32,
    pub max_packet: u32,
    pub max_waiting: u32,
    pub generations: u32,
    pub clock: u32,
}

/// The secret of a host.
#[repr(C)]
#[derive(Clone, Copy)]
pub struct CoreSecret {
    pub key: [u8; 32],
}

/// An IPv4 address and a UDP port, both as numbers: 10.0.0.1 is 0x0A00_0001.
#[repr(C)]
#[derive(Clone, Copy)]
pub struct CoreAddress {
    pub ip: u32,
    pub port: u16,
}

/// The name of a peer.
#[repr(C)]
#[derive(Clone, Copy)]
pub struct CorePeer {
    pub slot: u16,
    pub generation: u32,
}

/// What a host answers to a datagram.
#[repr(C)]
#[derive(Clone, Copy)]
pub struct CoreReceived {
    /// 0, or that the handle is closed.
    pub status: u32,
    /// How many commands took effect.
    pub handled: u32,
    /// Why the rest was not looked at: 1 to 13, 0 where all of it was.
    pub stop: u32,
}

/// A datagram that a host puts out.
#[repr(C)]
#[derive(Clone, Copy)]
pub struct CoreDatagram {
    /// How many bytes of the buffer it has; 0 where there is none.
    pub length: u32,
    pub to: CoreAddress,
    pub peer: CorePeer,
}

/// An event.
#[repr(C)]
#[derive(Clone, Copy)]
pub struct CoreEvent {
    /// 0 none, 1 connect, 2 disconnect, 3 receive.
    pub kind: u32,
    /// The word of a connect or disconnect.
    pub info: u32,
    pub peer: CorePeer,
    pub channel: u8,
    pub flags: u8,
    /// How many bytes the packet has.
    pub length: u64,
}

/// What can be read of a peer.
#[repr(C)]
#[derive(Clone, Copy)]
pub struct CoreReading {
    /// 0 free, 1 connecting, 2 answering, 3 connected, 4 to disconnect later, 5 disconnecting, 6 acknowledging a disconnect,
    /// 7 ended, 8 parting.
    pub state: u32,
    pub mtu: u32,
    pub window: u32,
    pub connect_id: u32,
    /// The mean round trip and its mean deviation, in milliseconds.
    pub round_trip: u32,
    pub variance: u32,
    pub in_transit: u32,
    /// The throttle's value, 0 to 32, its interval in milliseconds, and by how much it rises and falls in one move.
    pub throttle: u32,
    pub throttle_interval: u32,
    pub acceleration: u32,
    pub deceleration: u32,
    pub address: CoreAddress,
    /// The other end's slot.
    pub slot: u16,
    pub channels: u8,
    pub incoming_session: u8,
    pub outgoing_session: u8,
}

/// How the line to a peer is, and what is queued or unacknowledged for it.
#[repr(C)]
#[derive(Clone, Copy)]
pub struct CoreLine {
    /// The mean round trip and its mean deviation, in milliseconds.
    pub round_trip: u32,
    pub variance: u32,
    /// The lowest mean in the throttle's running interval, and in the one before.
    pub lowest: u32,
    pub lowest_before: u32,
    /// The throttle's value, 0 to 32.
    pub throttle: u32,
    /// Bytes that may be in transit by the allowance, and those that are.
    pub allowance: u32,
    pub in_transit: u32,
    /// Queued, or sent and not acknowledged: how many commands, and the bytes of their payloads.
    pub commands: u64,
    pub bytes: u64,
}

/// How many commands with data went to a peer that ask for an acknowledgement, each count modulo 2^64.
#[repr(C)]
#[derive(Clone, Copy)]
pub struct CoreTraffic {
    /// How often one went, for the first time or again; how often one went again; how many were acknowledged.
    pub sent: u64,
    pub again: u64,
    pub acknowledged: u64,
}

/// How much went through a host.
#[repr(C)]
#[derive(Clone, Copy)]
pub struct CoreTotals {
    pub datagrams_in: u64,
    pub bytes_in: u64,
    pub datagrams_out: u64,
    pub bytes_out: u64,
}

/// How much a host holds of what others sent, and the memory that this takes with its slots.
#[repr(C)]
#[derive(Clone, Copy)]
pub struct CoreHeld {
    pub channels: u64,
    pub senders: u64,
    pub packets: u64,
    pub undispatched: u64,
    pub bytes: u64,
    pub acknowledgements: u64,
    /// In bytes, each thing as one of its kind.
    pub memory: u64,
    /// The most that this ever is, by the host's settings.
    pub most_memory: u64,
}

/// How many slots are free, with a generation left or none, and how far the connections of the others have come.
#[repr(C)]
#[derive(Clone, Copy)]
pub struct CoreSlots {
    pub free: u16,
    pub spent: u16,
    pub connecting: u16,
    pub answering: u16,
    pub connected: u16,
    pub leaving: u16,
}

impl CoreConfig {
    pub(crate) fn of(config: Config) -> CoreConfig
        ensures { result ≡ config_shown config }
    {
        CoreConfig {
            peers: config.peers,
            channels: config.channels,
            mtu: config.mtu,
            incoming: config.incoming,
            outgoing: config.outgoing,
            max_packet: config.max_packet,
            max_waiting: config.max_waiting,
            generations: config.generations,
            clock: config.clock,
        }
    }

    pub(crate) fn into_config(self) -> Config
        ensures { result ≡ config_meant self }
    {
        Config {
            peers: self.peers,
            channels: self.channels,
            mtu: self.mtu,
            incoming: self.incoming,
            outgoing: self.outgoing,
            max_packet: self.max_packet,
            max_waiting: self.max_waiting,
            generations: self.generations,
            clock: self.clock,
            secret: None,
            gives_way: false,
            most: None,
            of_address: None,
        }
    }
}

impl CoreSecret {
    pub(crate) fn into_secret(self) -> Secret
        ensures { result ≡ secret_meant self }
    {
        let key = self.key;
        Secret { key }
    }
}

impl CoreAddress {
    pub(crate) fn of(address: Addr) -> CoreAddress
        ensures { result ≡ address_shown address }
    {
        CoreAddress {
            ip: address.ip,
            port: address.port,
        }
    }

    pub(crate) fn into_address(self) -> Addr
        ensures { result ≡ address_meant self }
    {
        Addr {
            ip: self.ip,
            port: self.port,
        }
    }
}

impl CorePeer {
    pub(crate) fn of(peer: PeerRef) -> CorePeer
        ensures { result ≡ name_shown peer }
    {
        CorePeer {
            slot: peer.slot,
            generation: peer.generation,
        }
    }

    pub(crate) fn into_name(self) -> PeerRef
        ensures { result ≡ name_meant self }
    {
        PeerRef {
            slot: self.slot,
            generation: self.generation,
        }
    }
}

impl CoreDatagram {
    pub(crate) fn none() -> CoreDatagram
        ensures { result ≡ no_datagram }
    {
        CoreDatagram {
            length: 0,
            to: CoreAddress { ip: 0, port: 0 },
            peer: CorePeer {
                slot: 0,
                generation: 0,
            },
        }
    }

    /// A datagram as C sees it.
    pub(crate) fn of(sent: Option<(PeerRef, Addr, usize)>) -> CoreDatagram
        requires { IfSome sent (λ gave. gave.2 ≤ 4096) }
        ensures { result ≡ datagram_shown sent }
    {
        match sent {
            Some((peer, to, length)) => CoreDatagram {
                length: length as u32,
                to: CoreAddress::of(to),
                peer: CorePeer::of(peer),
            },
            None => CoreDatagram::none(),
        }
    }
}

impl CoreReceived {
    pub(crate) fn of(received: Received) -> CoreReceived
        ensures { result ≡ received_shown received }
    {
        CoreReceived {
            status: 0,
            handled: received.handled,
            stop: match received.stop {
                Some(stop) => u32::from(stop.number()),
                None => 0,
            },
        }
    }
}

impl CoreEvent {
    pub(crate) fn none() -> CoreEvent
        ensures { result ≡ no_event }
    {
        CoreEvent {
            kind: 0,
            info: 0,
            peer: CorePeer {
                slot: 0,
                generation: 0,
            },
            channel: 0,
            flags: 0,
            length: 0,
        }
    }

    /// An event as C sees it. A service's `Refused`, which no host gives, counts as none.
    pub(crate) fn of(told: &Option<Event>) -> CoreEvent
        ensures { result ≡ event_shown told.now }
    {
        let mut event = CoreEvent::none();
        match told {
            Some(Event::Connect { peer, info }) => {
                event.kind = 1;
                event.info = *info;
                event.peer = CorePeer::of(*peer);
            }
            Some(Event::Disconnect { peer, info }) => {
                event.kind = 2;
                event.info = *info;
                event.peer = CorePeer::of(*peer);
            }
            Some(Event::Receive { peer, packet }) => {
                event.kind = 3;
                event.peer = CorePeer::of(*peer);
                event.channel = packet.channel;
                event.flags = packet.flags;
                event.length = packet.body.len() as u64;
            }
            Some(Event::Refused { .. }) | None => {}
        }
        event
    }
}

impl CoreHeld {
    /// What a host holds. Each slot is looked at, twice.
    pub(crate) fn of(host: &HostCore) -> CoreHeld
        ensures shown { result ≡ held_shown host.now }
        ensures bound { result.memory ≤ result.most_memory }
    {
        let held = host.held();
        CoreHeld {
            channels: held.channels,
            senders: held.senders,
            packets: held.packets,
            undispatched: held.undispatched,
            bytes: held.bytes,
            acknowledgements: held.acknowledgements,
            memory: host.memory_held(),
            most_memory: host.most_memory_held(),
        }
    }
}

impl CoreSlots {
    pub(crate) fn of(counts: SlotCounts) -> CoreSlots
        ensures { slots_meant result ≡ counts }
    {
        CoreSlots {
            free: counts.free,
            spent: counts.spent,
            connecting: counts.connecting,
            answering: counts.answering,
            connected: counts.connected,
            leaving: counts.leaving,
        }
    }
}

/// The number of a state, as `CoreReading` has it.
pub(crate) fn state_number(state: PeerState) -> u32
    ensures { result ≡ state_number state }
{
    match state {
        PeerState::Free => 0,
        PeerState::Connecting => 1,
        PeerState::Answering => 2,
        PeerState::Connected => 3,
        PeerState::DisconnectLater => 4,
        PeerState::Disconnecting => 5,
        PeerState::AckDisconnect => 6,
        PeerState::Ended => 7,
        PeerState::Parting => 8,
    }
}

/// The number of an ending, 0 where nothing is known of one.
pub(crate) fn ending_number(ending: Option<Ending>) -> u32
    ensures { result ≡ ending_number ending }
{
    match ending {
        None => 0,
        Some(Ending::AskedHere) => 1,
        Some(Ending::AskedThere) => 2,
        Some(Ending::TimedOut) => 3,
        Some(Ending::NeverAnswered) => 4,
        Some(Ending::BadAnswer) => 5,
    }
}
