//! The commands of a datagram.

/// What each command begins with: four bytes on the wire.
#[derive(Clone, Copy)]
pub struct Head {
    /// ACKNOWLEDGE: the sender asks for an acknowledgement.
    pub acknowledge: bool,
    /// UNSEQUENCED: the command stands outside the order of its channel.
    pub unsequenced: bool,
    /// The channel; 0xFF for commands that concern the connection itself.
    pub channel: u8,
    /// The reliable number: the sender's count of reliable commands on this channel, modulo 65536.
    pub number: u16,
}

/// The fields of CONNECT: what a client offers to a server.
#[derive(Clone, Copy)]
pub struct Offer {
    /// The client's slot, to which the server sends from then on.
    pub outgoing_peer: u16,
    /// The session that the client's slot had for datagrams that come in; 0xFF at its first use.
    pub incoming_session: u8,
    /// The session that the client's slot had for datagrams that go out; 0xFF at its first use.
    pub outgoing_session: u8,
    /// The greatest length of a datagram, in bytes.
    pub mtu: u32,
    /// The most bytes of reliable data in transit.
    pub window: u32,
    /// How many channels are asked for.
    pub channels: u32,
    /// Bytes per second that the client takes in; 0 says that no limit is known.
    pub incoming_bandwidth: u32,
    /// Bytes per second that the client sends; 0 says that no limit is known.
    pub outgoing_bandwidth: u32,
    /// Milliseconds after which the throttle takes a new round trip to compare with.
    pub throttle_interval: u32,
    /// By how much the throttle rises in one move; its scale is 32.
    pub acceleration: u32,
    /// By how much the throttle falls in one move.
    pub deceleration: u32,
    /// Four bytes that name this attempt and come back unchanged. They are read and written as a big-endian number (our
    /// profile).
    pub connect_id: u32,
    /// A word for the server's user.
    pub info: u32,
}

/// The fields of VERIFY_CONNECT: what a server grants to a client.
#[derive(Clone, Copy, PartialEq, Eq)]
pub struct Verify {
    /// The server's slot, to which the client sends from then on.
    pub outgoing_peer: u16,
    /// The session of the datagrams that the server will send, and the client takes in.
    pub incoming_session: u8,
    /// The session of the datagrams that the client will send.
    pub outgoing_session: u8,
    /// The greatest length of a datagram, in bytes.
    pub mtu: u32,
    /// The most bytes of reliable data in transit.
    pub window: u32,
    /// How many channels there are.
    pub channels: u32,
    /// Bytes per second that the server takes in; 0 says that no limit is known.
    pub incoming_bandwidth: u32,
    /// Bytes per second that the server sends; 0 says that no limit is known.
    pub outgoing_bandwidth: u32,
    /// The client's, repeated.
    pub throttle_interval: u32,
    /// The client's, repeated.
    pub acceleration: u32,
    /// The client's, repeated.
    pub deceleration: u32,
    /// The client's, repeated.
    pub connect_id: u32,
}

/// Where a fragment stands in its packet.
#[derive(Clone, Copy)]
pub struct Fragment {
    /// The number of the packet's first fragment: its reliable number, or the unreliable number that all of them share.
    pub start: u16,
    /// How many fragments the packet has.
    pub count: u32,
    /// Which fragment this is, from 0.
    pub number: u32,
    /// How many bytes the packet has.
    pub total: u32,
    /// How many bytes of the packet stand before this fragment.
    pub offset: u32,
}

/// A command of ENet 1.3: its `head`, and what it says. A `payload` is the bytes of a packet or of one fragment, borrowed from
/// the datagram that the command was read from, or from what is to be written. Its length is a field of 16 bits on the wire,
/// so it has at most 65,535 bytes.
#[derive(Clone, Copy)]
pub enum Command<'a> {
    /// Command 1: a command with ACKNOWLEDGE came. Channel and number of the head are those of that command.
    Acknowledge {
        head: Head,
        /// The reliable number of the command that came.
        received_number: u16,
        /// The time of sending that its datagram told, the low 16 bits in milliseconds.
        received_time: u16,
    },
    /// Command 2: a client asks for a connection.
    Connect {
        head: Head,
        offer: Offer,
    },
    /// Command 3: a server answers CONNECT.
    VerifyConnect {
        head: Head,
        verify: Verify,
    },
    /// Command 4: the connection ends.
    Disconnect {
        head: Head,
        /// A word for the other end's user. ENet calls the field data.
        info: u32,
    },
    /// Command 5: asks for nothing but its acknowledgement.
    Ping {
        head: Head,
    },
    /// Command 6: a reliable packet.
    SendReliable {
        head: Head,
        payload: &'a [u8],
    },
    /// Command 7: an unreliable packet.
    SendUnreliable {
        head: Head,
        /// Its place among the unreliable packets that carry the same reliable number.
        unreliable: u16,
        payload: &'a [u8],
    },
    /// Command 8: a fragment of a reliable packet.
    SendFragment {
        head: Head,
        fragment: Fragment,
        payload: &'a [u8],
    },
    /// Command 9: an unsequenced packet.
    SendUnsequenced {
        head: Head,
        /// The packet's number among the unsequenced ones to this peer, modulo 65536.
        group: u16,
        payload: &'a [u8],
    },
    /// Command 10: the sender's bandwidths have changed.
    BandwidthLimit {
        head: Head,
        /// Bytes per second that the sender takes in; 0 says that no limit is known.
        incoming: u32,
        /// Bytes per second that the sender sends; 0 says that no limit is known.
        outgoing: u32,
    },
    /// Command 11: how the receiver's throttle moves.
    ThrottleConfigure {
        head: Head,
        /// Milliseconds after which the throttle takes a new round trip to compare with.
        interval: u32,
        /// By how much the throttle rises in one move; its scale is 32.
        acceleration: u32,
        /// By how much the throttle falls in one move.
        deceleration: u32,
    },
    /// Command 12: a fragment of an unreliable packet.
    SendUnreliableFragment {
        head: Head,
        fragment: Fragment,
        payload: &'a [u8],
    },
}

/// The bit of a command's first byte that asks for an acknowledgement.
pub(crate) const ACKNOWLEDGE: u8 = 0x80;

/// The bit of a command's first byte that takes it out of the channel's order.
pub(crate) const UNSEQUENCED: u8 = 0x40;
