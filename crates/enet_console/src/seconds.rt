//! Times of the command line.

ghost use Rattle.std.specs.Prelude.{◌≡◌, ◌==◌, ◌-◌, ◌*◌, ◌^◌, ◌≤◌, position, IfSome};
ghost use Rattle.enet_console.specs.Seconds.{microseconds_of, parts_of, whole_of, with_parts};

use enet_text::u32_of;

/// The microseconds of a time in seconds, as `12` or `12.5`: at most six digits are behind the point. None where a word isn't one.
pub(crate) fn microseconds_of(word: &[u8]) -> Option<u64>
    ensures { result ≡ microseconds_of word.now }
{
    match point_in(word) {
        None => whole_of(word),
        Some(point) => with_parts(&word[..point], &word[point + 1..]),
    }
}

// Where the first point stands.
fn point_in(word: &[u8]) -> Option<usize>
    ensures { result ≡ position (λ byte. byte == 46) word.now }
{
    word.iter().position(|byte| *byte == b'.')
}

// The microseconds of whole seconds.
fn whole_of(word: &[u8]) -> Option<u64>
    ensures value { result ≡ whole_of word.now }
    ensures few { IfSome result (λ whole. whole ≤ 4294967295000000) }
{
    match u32_of(word) {
        None => None,
        Some(seconds) => Some(u64::from(seconds) * 1_000_000),
    }
}

// The same with digits behind the point.
fn with_parts(word: &[u8], digits: &[u8]) -> Option<u64>
    ensures { result ≡ with_parts word.now digits.now }
{
    let whole = whole_of(word)?;
    let parts = parts_of(digits)?;
    Some(whole + parts)
}

// The microseconds of the digits behind the point.
fn parts_of(digits: &[u8]) -> Option<u64>
    ensures value { result ≡ parts_of digits.now }
    ensures few { IfSome result (λ parts. parts ≤ 4294967295000000) }
{
    if digits.len() > 6 {
        return None;
    }
    match u32_of(digits) {
        None => None,
        Some(number) => Some(scaled(number, digits.len())),
    }
}

// The microseconds of a number that so many digits behind the point spell.
fn scaled(number: u32, digits: usize) -> u64
    ensures value { result ≡ number * 10 ^ (6 - digits) }
    ensures most { result ≤ 4294967295000000 }
{
    let number = u64::from(number);
    match digits {
        0 => number * 1_000_000,
        1 => number * 100_000,
        2 => number * 10_000,
        3 => number * 1_000,
        4 => number * 100,
        5 => number * 10,
        _ => number,
    }
}
