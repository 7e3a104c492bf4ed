//! What a turn put out.

use enet_codec::Addr;
use law_network::Text;

/// What a turn of a site put out.
#[derive(Drop)]
pub enum Turned {
    /// A datagram of a connection: this number of the site's log, from 0.
    Sent(u64),
    /// A datagram to a stranger, of no connection. The site keeps nothing of it.
    Away { to: Addr, text: Text },
}
