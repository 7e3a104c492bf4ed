//! The server's side: what it grants, and the VERIFY_CONNECT with which it does.

ghost use Rattle.std.specs.Prelude.{◌≡◌, true, IfSome};
ghost use Rattle.enet_connect.specs.Terms.{granted, granted_channels, answered, IsWithinLimits};
ghost use Rattle.enet_connect.specs.Verification.{verification_of, is_accepted, agreed, IsOffered, AreAlike};

use crate::session::next_session;
use crate::terms::{Terms, agreed_mtu, agreed_window};
use enet_codec::{MAX_CHANNELS, Offer, Verify};
use enet_throttle::window_of;

/// A server's slot and settings, by which it answers a CONNECT.
#[derive(Clone, Copy)]
pub struct Server {
    /// The slot that the client gets.
    pub slot: u16,
    /// The session that the slot had for datagrams that come in; 0xFF at its first use.
    pub incoming_session: u8,
    /// The session that the slot had for datagrams that go out; 0xFF at its first use.
    pub outgoing_session: u8,
    /// How many channels the server grants at most, 1 to 255.
    pub channels: u8,
    /// The greatest length of a datagram in bytes, 576 to 4,096.
    pub mtu: u32,
    /// Bytes per second that the server takes in; 0 says that no limit is known.
    pub incoming_bandwidth: u32,
    /// Bytes per second that the server sends; 0 says that no limit is known.
    pub outgoing_bandwidth: u32,
}

/// The terms on which a server stands that answers the offer; None exactly where the offer asks for no channel or for
/// more than 255. The channels are the lesser of asked and allowed; the mtu is the least of both hosts' and 4,096, at
/// least 576 (our profile); the window goes by the server's outgoing and the client's incoming bandwidth; each session
/// is new to the slot (our profile); the throttle's numbers and the connect id are the client's.
pub fn answer(offer: &Offer, server: &Server) -> Option<Terms>
    ensures terms { result ≡ answered offer.now server.now }
    ensures limits { IfSome result IsWithinLimits }
{
    if offer.channels < 1 || offer.channels > MAX_CHANNELS {
        return None;
    }
    Some(Terms {
        slot: offer.outgoing_peer,
        channels: channels_for(offer, server),
        mtu: agreed_mtu(offer.mtu, server.mtu),
        window: window_of(server.outgoing_bandwidth, offer.incoming_bandwidth),
        incoming_session: next_session(offer.outgoing_session, server.incoming_session),
        outgoing_session: next_session(offer.incoming_session, server.outgoing_session),
        throttle_interval: offer.throttle_interval,
        acceleration: offer.acceleration,
        deceleration: offer.deceleration,
        connect_id: offer.connect_id,
    })
}

/// The fields of the VERIFY_CONNECT with which a server accepts the offer, where `answer` gives terms. It has the
/// server's slot and bandwidths, the agreed channels and mtu, and what it repeats of the client's. Its sessions are the
/// client's view: incoming is what the server sends with (our profile). Its window is the one for the server's incoming
/// bandwidth, at most the one that the offer names, 4,096 to 65,536 (ENet 1.3).
pub fn verification(offer: &Offer, server: &Server) -> Verify
    ensures { result ≡ verification_of offer.now server.now }
{
    Verify {
        outgoing_peer: server.slot,
        incoming_session: next_session(offer.incoming_session, server.outgoing_session),
        outgoing_session: next_session(offer.outgoing_session, server.incoming_session),
        mtu: agreed_mtu(offer.mtu, server.mtu),
        window: agreed_window(offer.window, window_of(server.incoming_bandwidth, 0)),
        channels: u32::from(channels_for(offer, server)),
        incoming_bandwidth: server.incoming_bandwidth,
        outgoing_bandwidth: server.outgoing_bandwidth,
        throttle_interval: offer.throttle_interval,
        acceleration: offer.acceleration,
        deceleration: offer.deceleration,
        connect_id: offer.connect_id,
    }
}

// The lesser of asked and allowed channels.
fn channels_for(offer: &Offer, server: &Server) -> u8
    ensures { result ≡ granted_channels offer.now server.now }
{
    offer.channels.min(u32::from(server.channels)) as u8
}

/// A law of the definitions: a client accepts the VERIFY_CONNECT with which a server answers its offer, and both then
/// stand on like terms, where the offer asks for 1 to 255 channels and the server grants at least one.
pub fn both_ends_agree(offer: Offer, server: Server)
    ensures accepted { IsOffered offer server → is_accepted offer (verification_of offer server) ≡ true }
    ensures alike { IsOffered offer server → AreAlike (agreed offer (verification_of offer server)) (granted offer server) }
{}
