//! Where connections are looked for: places that only who knows a secret can foretell.

ghost use Rattle.std.specs.Prelude.{◌≡◌, ◌<◌};
ghost use Rattle.enet_sleepers.specs.Places.{stirred, first_cell, row_of};

use enet_codec::{Addr, Secret};
use rand_chacha::ChaCha20Rng;
use rand_core::SeedableRng;
use rand_core::utils::NextWord;

/// How many connections are noted at one place.
pub(crate) const CELLS: usize = 8;

/// The key stream of a secret that no peer draws from (`enet_slot`).
const STREAM: u64 = u64::MAX;

/// By what connections are spread over places.
#[derive(Clone, Copy)]
pub struct Key {
    pub(crate) address: u64,
    pub(crate) word: u64,
    pub(crate) last: u64,
}

/// Where there is no secret: the fractions of the square roots of 2, 3 and 5.
const KNOWN_KEY: Key = Key {
    address: 0x6A09_E667_F3BC_C908,
    word: 0xBB67_AE85_84CA_A73B,
    last: 0x3C6E_F372_FE94_F82B,
};

/// Two words as one.
fn joined(high: u32, low: u32) -> u64 {
    (u64::from(high) << 32) | u64::from(low)
}

/// The key of a host with this secret. It is drawn, so that nothing of the secret would follow from it.
pub(crate) fn key_of(secret: Option<Secret>) -> Key {
    let Some(secret) = secret else {
        return KNOWN_KEY;
    };
    let mut words = ChaCha20Rng::from_seed(secret.key);
    words.set_stream(STREAM);
    Key {
        address: joined(words.next_word(), words.next_word()),
        word: joined(words.next_word(), words.next_word()),
        last: joined(words.next_word(), words.next_word()),
    }
}

/// The middle of the square of this number and a key, 32 bits.
#[tactic(auto, unfolding(crate::specs::Places::stirred))]
fn stirred(number: u64, key: u64) -> u64
    ensures is { result ≡ stirred number key }
    ensures low { result < 4294967296 }
{
    let sum = number.wrapping_add(key);
    sum.wrapping_mul(sum) / 4_294_967_296
}

/// The first cell of the place of a connection, where there are so many cells.
#[tactic(auto, unfolding(crate::specs::Places::first_cell))]
pub(crate) fn first_cell(key: Key, cells: usize, from: Addr, connect_id: u32) -> usize
    ensures is { result ≡ first_cell key cells from connect_id }
    ensures low { result < 34359738368 }
{
    let address = stirred(
        u64::from(from.ip) * 65536 + u64::from(from.port),
        key.address,
    );
    let word = stirred(address * 4_294_967_296 + u64::from(connect_id), key.word);
    let spread = stirred(word, key.last).wrapping_mul((cells / CELLS) as u64);
    (spread / 4_294_967_296) as usize * CELLS
}

/// The row of an IP address.
#[tactic(auto, unfolding(crate::specs::Places::row_of))]
pub(crate) fn row_of(key: Key, ip: u32) -> u8
    ensures { result ≡ row_of key ip }
{
    (stirred(stirred(u64::from(ip), key.address), key.last) / 16_777_216) as u8
}
