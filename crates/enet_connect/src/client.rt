//! The client's side: what it asked for, and whether it accepts what the server grants.

ghost use Rattle.std.specs.Prelude.{◌≡◌, IfSome};
ghost use Rattle.enet_connect.specs.Terms.{IsWithinLimits};
ghost use Rattle.enet_connect.specs.Verification.{confirmed, asked, has_same_throttle};

use crate::terms::{Terms, agreed_mtu, agreed_window};
use enet_codec::{MAX_CHANNELS, NO_PEER, Offer, Verify};

/// The terms that a client stands on until the server answers: those that it asked for, with slot 0xFFF. More than 255
/// channels, which no client asks for, count as 255.
pub fn asked_terms(offer: &Offer) -> Terms
    ensures { result ≡ asked offer.now }
{
    Terms {
        slot: NO_PEER,
        channels: offer.channels.min(MAX_CHANNELS) as u8,
        mtu: offer.mtu,
        window: offer.window,
        incoming_session: offer.incoming_session,
        outgoing_session: offer.outgoing_session,
        throttle_interval: offer.throttle_interval,
        acceleration: offer.acceleration,
        deceleration: offer.deceleration,
        connect_id: offer.connect_id,
    }
}

/// The terms on which a client stands whose offer was answered so; None exactly where the answer isn't accepted: where
/// it has no channel or more than 255, or another throttle interval, acceleration, deceleration or connect id than the
/// offer (ENet 1.3). Channels, mtu and window are the lesser of offered and answered, the mtu 576 to 4,096, the window
/// 4,096 to 65,536; the sessions are the answer's, modulo 4 (our profile).
pub fn confirm(offer: &Offer, verify: &Verify) -> Option<Terms>
    ensures terms { result ≡ confirmed offer.now verify.now }
    ensures limits { IfSome result IsWithinLimits }
{
    let is_countable = verify.channels >= 1 && verify.channels <= MAX_CHANNELS;
    if !is_countable || !is_same_throttle(offer, verify) || offer.connect_id != verify.connect_id {
        return None;
    }
    Some(Terms {
        slot: verify.outgoing_peer,
        channels: offer.channels.min(verify.channels) as u8,
        mtu: agreed_mtu(offer.mtu, verify.mtu),
        window: agreed_window(offer.window, verify.window),
        incoming_session: verify.incoming_session % 4,
        outgoing_session: verify.outgoing_session % 4,
        throttle_interval: offer.throttle_interval,
        acceleration: offer.acceleration,
        deceleration: offer.deceleration,
        connect_id: offer.connect_id,
    })
}

// Whether the answer repeats the offer's throttle interval, acceleration and deceleration.
fn is_same_throttle(offer: &Offer, verify: &Verify) -> bool
    ensures { result ≡ has_same_throttle offer.now verify.now }
{
    offer.throttle_interval == verify.throttle_interval
        && offer.acceleration == verify.acceleration
        && offer.deceleration == verify.deceleration
}
