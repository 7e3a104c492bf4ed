//! What a word of a line may be.

use crate::forms::Made;
use enet_text::{bytes_of, id_of, ip_of, peer_of, u8_of, u16_of, u32_of, u64_of};
use std::alloc::{AllocError, Global};

/// How many rounds a line makes happen at most.
const MOST_ROUNDS: u64 = 16_777_216;

/// Whether a word may stand where a form has this name. An error where there is no memory for its bytes.
pub(crate) fn fits(alloc: Global, made: Made, name: &str, word: &[u8]) -> Result<bool, AllocError> {
    Ok(match name {
        "<host>" => is_host(made, word),
        "<from>" => is_host_of_fleet(word),
        "<client>" => is_client(word),
        "<peer>" => peer_of(word).is_some(),
        "<ip>" => ip_of(word).is_some(),
        "<id>" => id_of(word).is_some(),
        "<bytes>" => bytes_of(alloc, word)?.is_some(),
        "<channel>" | "<channels>" | "<flags>" => u8_of(word).is_some(),
        "<slots>" | "<clients>" | "<port>" | "<n>" => u16_of(word).is_some(),
        "<ms>" | "<data>" => u32_of(word).is_some(),
        "<rounds>" => match u64_of(word) {
            Some(rounds) => rounds <= MOST_ROUNDS,
            None => false,
        },
        "<k>" => u64_of(word).is_some() || word == b"last".as_slice(),
        _ => u64_of(word).is_some(),
    })
}

/// What may stand there.
pub(crate) fn told(made: Made, name: &str) -> &'static str {
    match name {
        "<host>" if made == Made::World => "A or B",
        "<host>" | "<from>" => "S or a client: C0, C1 and on",
        "<client>" => "a client: C0, C1 and on",
        "<peer>" => "slot.generation, as 0.0",
        "<ip>" => "four numbers with points between them, as 10.0.9.9",
        "<id>" => "8 hex digits",
        "<bytes>" => "hex, text in quotes, or - for none",
        "<channel>" | "<channels>" | "<flags>" => "a number up to 255",
        "<slots>" | "<clients>" | "<port>" => "a number up to 65535",
        "<n>" => "a number from 1 to that of the host's slots",
        "<ms>" | "<data>" => "a number up to 4294967295",
        "<rounds>" => "a number up to 16777216",
        "<k>" => "a number up to 18446744073709551615, or last",
        _ => "a number up to 18446744073709551615",
    }
}

fn is_host(made: Made, word: &[u8]) -> bool {
    match made {
        Made::World => word == b"A".as_slice() || word == b"B".as_slice(),
        _ => is_host_of_fleet(word),
    }
}

fn is_host_of_fleet(word: &[u8]) -> bool {
    word == b"S".as_slice() || is_client(word)
}

fn is_client(word: &[u8]) -> bool {
    match word.split_first() {
        Some((b'C', number)) => u16_of(number).is_some(),
        _ => false,
    }
}
