//! What a host with a secret draws for the peer of a slot.

ghost use Rattle.std.specs.Prelude.{◌≡◌, ◌+◌, ◌*◌, ◌%◌, ◌^◌};
ghost use Rattle.enet_slot.specs.Drawing.{drawn, drawn_by, nothing_drawn, session_or_drawn};

use enet_codec::Secret;
use enet_peer::Offsets;
use rand_chacha::ChaCha20Rng;
use rand_core::SeedableRng;
use rand_core::utils::NextWord;

/// A session that stands for none.
const NO_SESSION: u8 = 0xFF;

/// What is drawn for a peer.
#[derive(Clone, Copy)]
pub struct Drawn {
    pub offsets: Offsets,
    /// The sessions that its slot had, if it is the slot's first peer; 0xFF if none is drawn.
    pub incoming_session: u8,
    pub outgoing_session: u8,
}

/// Nothing is added to what a peer tells, and no session is drawn.
const NOTHING: Drawn = Drawn {
    offsets: Offsets { time: 0, number: 0 },
    incoming_session: NO_SESSION,
    outgoing_session: NO_SESSION,
};

/// What a host draws for the peer of this generation in the slot of this number.
pub(crate) fn draw(secret: Option<Secret>, number: u16, generation: u32) -> Drawn
    ensures { result ≡ drawn secret number generation }
{
    match secret {
        Some(secret) => draw_by(secret, number, generation),
        None => NOTHING,
    }
}

/// The words of the key stream whose number is the slot and the generation, so that each peer of a host has its own.
fn draw_by(secret: Secret, number: u16, generation: u32) -> Drawn
    ensures { result ≡ drawn_by secret number generation }
{
    let mut words = ChaCha20Rng::from_seed(secret.key);
    words.set_stream(stream_of(number, generation));
    let time = words.next_word();
    let first_number = words.next_word();
    let incoming = words.next_word();
    drawn_from(time, first_number, incoming, words.next_word())
}

/// The number of the key stream of a peer.
fn stream_of(number: u16, generation: u32) -> u64
    ensures { result ≡ number * 2 ^ 32 + generation }
{
    (u64::from(number) << 32) + u64::from(generation)
}

/// What four words give.
fn drawn_from(time: u32, number: u32, incoming: u32, outgoing: u32) -> Drawn
    ensures offsets { result.offsets ≡ record { time = time % 65536; number = number % 65536 } }
    ensures incoming { result.incoming_session ≡ incoming % 4 }
    ensures outgoing { result.outgoing_session ≡ outgoing % 4 }
{
    Drawn {
        offsets: Offsets {
            time: (time % 65_536) as u16,
            number: (number % 65_536) as u16,
        },
        incoming_session: (incoming % 4) as u8,
        outgoing_session: (outgoing % 4) as u8,
    }
}

/// The session that a slot had; where it had none and none came, the one that is drawn.
pub(crate) fn session_or_drawn(held: u8, came: u8, drawn: u8) -> u8
    ensures { result ≡ session_or_drawn held came drawn }
{
    if held == NO_SESSION && came == NO_SESSION {
        drawn
    } else {
        held
    }
}
