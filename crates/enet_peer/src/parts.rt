//! What a peer is made of.

use enet_codec::Packet;

/// How far a connection has come.
#[derive(Clone, Copy, Debug, PartialEq, Eq)]
pub enum PeerState {
    /// There is no connection. ENet: DISCONNECTED.
    Free,
    /// A client has asked, and waits for the server's answer. ENet: CONNECTING.
    Connecting,
    /// A server has answered, and waits for the client's acknowledgement. ENet: ACKNOWLEDGING_CONNECT.
    Answering,
    /// The connection stands. ENet: CONNECTED, or until its event is taken CONNECTION_PENDING or CONNECTION_SUCCEEDED.
    Connected,
    /// The user has asked for the end; what is queued and unacknowledged goes first. ENet: DISCONNECT_LATER.
    DisconnectLater,
    /// DISCONNECT waits for its acknowledgement. ENet: DISCONNECTING.
    Disconnecting,
    /// The other end's DISCONNECT is to be acknowledged. ENet: ACKNOWLEDGING_DISCONNECT.
    AckDisconnect,
    /// The connection has ended, and the user hasn't been told yet. ENet: ZOMBIE.
    Ended,
    /// One unsequenced DISCONNECT is still to go; ENet has no such state, since it sends that at once.
    Parting,
}

/// Why a connection of which a Disconnect event is told has ended for this end.
#[derive(Clone, Copy, Debug, PartialEq, Eq)]
pub enum Ending {
    /// This end's DISCONNECT (`disconnect`, `disconnect_later`) was acknowledged, or wasn't for longer than this end waits.
    AskedHere,
    /// The other end sent DISCONNECT, with which it also refuses a connection; also if this end had asked, too. The event has its word.
    AskedThere,
    /// The other end left a command unacknowledged for longer than this end waits (`Peer::set_timeout`), also before the DISCONNECT of
    /// `disconnect_later` went.
    TimedOut,
    /// No answer of the server to a client's CONNECT took effect for as long as the client waits.
    NeverAnswered,
    /// The server's VERIFY_CONNECT doesn't fit what the client asked for.
    BadAnswer,
}

/// What a host allows a peer.
#[derive(Clone, Copy)]
pub struct Limits {
    /// The greatest packet that is taken in or submitted, in bytes: 1 to 33,554,432.
    pub max_packet: u32,
    /// Bytes of packets, held or not yet taken by the user, at which no further packet begins: 1 to 33,554,432. How many packets
    /// there may be then goes by it, too (`Inbox::open`).
    pub max_waiting: u32,
    /// Bytes per second that the host can take in; 0 says that no limit is known.
    pub incoming: u32,
    /// Bytes per second that the host can send; 0 says that no limit is known.
    pub outgoing: u32,
}

/// What a peer adds to its sent times, in milliseconds, and to its numbers on channel 0xFF, both modulo 65,536. Only who sees its
/// datagrams knows them. The other end repeats both, and needs to know neither.
#[derive(Clone, Copy)]
pub struct Offsets {
    pub time: u16,
    pub number: u16,
}

/// What a peer tells its user.
#[derive(Drop)]
pub enum PeerEvent {
    /// The connection stands. `info` (ENet's `data`) is the word that the connecting end gave, at that end itself 0.
    Connect { info: u32 },
    /// A packet came.
    Receive { packet: Packet },
    /// The connection has ended. `info` is the word of the other end's DISCONNECT where that ended it, else 0.
    Disconnect { info: u32 },
}
