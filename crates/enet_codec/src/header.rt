//! The header of a datagram.

/// What a datagram begins with. On the wire it is one 16-bit word, and with SENT_TIME a second one.
#[derive(Clone, Copy)]
pub struct Header {
    /// The slot of the peer at the receiver: 0 to 4,095. 4,095 (0xFFF) says that the sender doesn't know it yet.
    pub peer: u16,
    /// The session of the connection: 0 to 3. It tells a connection from earlier ones in the same slot.
    pub session: u8,
    /// The commands that follow are compressed.
    pub compressed: bool,
    /// The low 16 bits of the sender's clock, in milliseconds, where SENT_TIME is set.
    pub sent: Option<u16>,
}

/// The bit of the first word that says that the datagram is compressed.
pub(crate) const COMPRESSED: u16 = 0x4000;

/// The bit of the first word that says that the time of sending follows.
pub(crate) const SENT_TIME: u16 = 0x8000;
