//! The settings of a host.

ghost use Rattle.std.specs.Prelude.{◌≡◌};
ghost use Rattle.enet_codec.specs.Config.{admitting, is_admissible, is_in_range, is_limit_in_range, standard_config};

use crate::limits::MAX_PEERS;
use std::fmt;

const MIN_MTU: u32 = 576;

const MAX_MTU: u32 = 4096;

const MAX_BYTES: u32 = 33_554_432;

/// What a host draws by, so that others can't guess it: 32 bytes that the system gave, and that nobody else has. It prints as
/// `Secret`, without its key.
#[derive(Clone, Copy, PartialEq, Eq)]
pub struct Secret {
    pub key: [u8; 32],
}

impl fmt::Debug for Secret {
    fn fmt<W: fmt::Write>(&self, f: &mut fmt::Formatter<W>) -> fmt::Result {
        f.write_str("Secret")
    }
}

/// The settings of a host. What opens a host answers E8 where one of the numbers is out of its range.
#[derive(Clone, Copy, Debug, PartialEq, Eq)]
pub struct Config {
    /// How many slots there are for peers: 1 to 4,095.
    pub peers: u16,
    /// How many channels a connection is granted at most: 1 to 255.
    pub channels: u8,
    /// The greatest length of a datagram, in bytes: 576 to 4,096.
    pub mtu: u32,
    /// Bytes per second that this host can take in; 0 says that no limit is known.
    pub incoming: u32,
    /// Bytes per second that this host can send; 0 says that no limit is known.
    pub outgoing: u32,
    /// The greatest packet that is taken in or submitted, in bytes: 1 to 33,554,432.
    pub max_packet: u32,
    /// Bytes of a peer's packets at which no further packet begins: 1 to 33,554,432. Those count that are held or not yet taken by
    /// the user; for the packet that its channel dispatches next only the latter do. Unreliable packets that wait are given up
    /// where that makes room for another. Nor does a packet begin where as many wait as a 128th of this, but at least 1,024.
    pub max_waiting: u32,
    /// How many peers a slot has one after another, before it is used up: 1 to 4,294,967,295 (our profile).
    pub generations: u32,
    /// The clock at the opening, in milliseconds.
    pub clock: u32,
    /// By this each peer gets sent times and numbers of its own, and a slot its first session, so that who doesn't see the line can't
    /// confirm a connection in another's name. With none all begin at 0, as in ENet: whoever knows the clock knows the sent times, and can
    /// tell which CONNECTs are looked for in the same place.
    pub secret: Option<Secret>,
    /// Whether a CONNECT that finds no free slot takes that of the peer which has been waiting longest for its client to confirm an answer,
    /// or to hear that the host is full (`most`): that peer is let go, with no event (our profile). Each such CONNECT uses up a generation of a
    /// slot, so this wants 4,294,967,295 `generations`: a flood spends the standard 1,000,000 within hours.
    pub gives_way: bool,
    /// How many peers that began by a CONNECT may be connected or leaving at once: 1 to `peers`; with none said as many as there are slots.
    /// A client that confirms where as many are there is told that the host is full, and let go, with no event (our profile).
    pub most: Option<u16>,
    /// How many peers that began by a CONNECT there may be at once of one IP address, whatever their ports: 1 to `peers`. None is no limit,
    /// which `Some(peers)` isn't: with that an address that has all slots gives way to itself. A CONNECT that comes where as many are there
    /// takes the slot of the one of them that has been waiting longest for its client: that peer is let go, with no event. It is stopped where
    /// none of them waits in a slot that has a generation left (our profile). This, too, wants 4,294,967,295 `generations`.
    pub of_address: Option<u16>,
}

/// What the user of a host sets of whom it lets in (`Config::gives_way`, `Config::most`, `Config::of_address`).
#[derive(Clone, Copy, Debug, PartialEq, Eq)]
pub enum Admission {
    /// From now on the peer which has been waiting longest for its client gives way where no slot is free. See `Config::gives_way` for the
    /// generations that this wants.
    GiveWay,
    /// So many peers that began by a CONNECT may be connected or leaving at once: 1 to the number of slots.
    Most {
        /// How many.
        peers: u16,
    },
    /// So many peers of one IP address that began by a CONNECT may be there: 1 to the number of slots. See `Config::of_address`.
    OfAddress {
        /// How many.
        peers: u16,
    },
}

impl Config {
    /// The settings that serve most hosts: an mtu of 1,392 bytes (libenet 1.3.18's default), no bandwidth limits, 33,554,432 bytes each for a
    /// packet and for what waits, 1,000,000 generations, a clock that begins at 0, and no secret; no peer gives way, and as many as there
    /// are slots may be connected, and of one address. It tests nothing: what opens a host does.
    pub fn standard(peers: u16, channels: u8) -> Config
        ensures { result ≡ standard_config peers channels }
    {
        Config {
            peers,
            channels,
            mtu: 1392,
            incoming: 0,
            outgoing: 0,
            max_packet: MAX_BYTES,
            max_waiting: MAX_BYTES,
            generations: 1_000_000,
            clock: 0,
            secret: None,
            gives_way: false,
            most: None,
            of_address: None,
        }
    }

    /// Whether each number is in its range, so that a host opens with these settings.
    pub fn is_in_range(&self) -> bool
        ensures { result ≡ is_in_range self.now }
    {
        let counts = (1..=MAX_PEERS).contains(&self.peers)
            && self.channels >= 1
            && self.generations >= 1;
        let mtu = (MIN_MTU..=MAX_MTU).contains(&self.mtu);
        let bytes = (1..=MAX_BYTES).contains(&self.max_packet)
            && (1..=MAX_BYTES).contains(&self.max_waiting);
        counts
            && mtu
            && bytes
            && self.is_limit_in_range(self.most)
            && self.is_limit_in_range(self.of_address)
    }

    /// Whether a limit, if there is one, lets one peer in, and no more than there are slots.
    fn is_limit_in_range(&self, limit: Option<u16>) -> bool
        ensures { result ≡ is_limit_in_range self.now.peers limit }
    {
        match limit {
            Some(most) => (1..=self.peers).contains(&most),
            None => true,
        }
    }

    /// Whether this can be set of whom a host of these settings lets in.
    pub fn is_admissible(&self, admission: Admission) -> bool
        ensures { result ≡ is_admissible self.now admission }
    {
        match admission {
            Admission::GiveWay => true,
            Admission::Most { peers } => (1..=self.peers).contains(&peers),
            Admission::OfAddress { peers } => (1..=self.peers).contains(&peers),
        }
    }

    /// These settings, once this is set.
    pub fn admitting(self, admission: Admission) -> Config
        ensures { result ≡ admitting self admission }
    {
        match admission {
            Admission::GiveWay => Config {
                gives_way: true,
                ..self
            },
            Admission::Most { peers } => Config {
                most: Some(peers),
                ..self
            },
            Admission::OfAddress { peers } => Config {
                of_address: Some(peers),
                ..self
            },
        }
    }
}
