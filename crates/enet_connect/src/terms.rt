//! The terms of a connection.

ghost use Rattle.std.specs.Prelude.{◌≡◌};
ghost use Rattle.enet_connect.specs.Sizes.{mtu_of, window_within};

/// The terms on which one end of a connection stands.
#[derive(Clone, Copy, Debug, PartialEq, Eq)]
pub struct Terms {
    /// The other end's slot, to which this end sends; 0xFFF before it is known.
    pub slot: u16,
    /// How many channels there are, 1 to 255.
    pub channels: u8,
    /// The greatest length of a datagram in bytes, 576 to 4,096.
    pub mtu: u32,
    /// The most bytes of reliable packets in transit from this end, 4,096 to 65,536, before the throttle's part.
    pub window: u32,
    /// The session, 0 to 3, of the datagrams that this end takes in; 0xFF in asked terms at a slot's first use.
    pub incoming_session: u8,
    /// The session, 0 to 3, of the datagrams that this end sends; 0xFF in asked terms at a slot's first use.
    pub outgoing_session: u8,
    /// The throttle's interval, in milliseconds: the client's.
    pub throttle_interval: u32,
    /// By how much the throttle rises in one move: the client's.
    pub acceleration: u32,
    /// By how much the throttle falls in one move: the client's.
    pub deceleration: u32,
    /// The number that names this connection: the client's.
    pub connect_id: u32,
}

// The least of both hosts' mtus and 4,096, at least 576.
pub(crate) fn agreed_mtu(one: u32, other: u32) -> u32
    ensures { result ≡ mtu_of one other }
{
    one.min(other).clamp(576, 4_096)
}

// The lesser of two windows, 4,096 to 65,536.
pub(crate) fn agreed_window(one: u32, other: u32) -> u32
    ensures { result ≡ window_within one other }
{
    one.min(other).clamp(4_096, 65_536)
}
