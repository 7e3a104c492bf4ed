//! What an open handle holds.

use bytes::Bytes;
use enet_host::HostCore;

/// A host, with what the border keeps for it.
#[derive(Drop)]
pub struct Held {
    pub(crate) host: HostCore,
    /// The body that was staged last, which goes to several peers without being copied again.
    pub(crate) staged: Option<Bytes>,
    /// The body of the packet that the last call of `next_event` told, if it told one.
    pub(crate) told: Option<Bytes>,
}
