//! What a host put out, to strangers too.

use enet_codec::Addr;
use std::marker::Model;

/// The bytes of a datagram.
#[derive(Drop)]
pub struct Text {
    pub bytes: Vec<u8>,
}

impl Model for Text {
    ghost use Rattle.std.specs.Prelude.{ℕ, List};

    ghost Value = { List ℕ };

    ghost view = { λ t. t.bytes.items };
}

/// A datagram that a host put out.
#[derive(Drop)]
pub enum Sent {
    /// Of a connection: this one of the site's log, from 0.
    Of(u64),
    /// To a stranger.
    Away { to: Addr, text: Text },
}
