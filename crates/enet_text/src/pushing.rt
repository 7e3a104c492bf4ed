//! Numbers and bytes, put behind the text that is there.

ghost use Rattle.std.specs.Prelude.{◌≡◌, ◌++◌, ◌*◌, ◌<◌, ◌≤◌, length, slice_index, IfSome, OnOk};
ghost use Rattle.std.specs.String.{string_bytes};
ghost use Rattle.hex.specs.Hex.{encode_lower, lower_digits};
ghost use Rattle.enet_text.specs.Texts.{bytes_text};

use std::alloc::AllocError;
use std::fmt::Display;
use std::str::from_utf8;

/// The most bytes whose hex digits are put into a text at once.
const CHUNK: usize = 64;

/// A number in decimal, behind its name. An error where there is no memory for it.
pub(crate) fn push_number<N: Display + Drop>(
    text: &mut String,
    name: &str,
    number: N,
) -> Result<(), AllocError>
    ensures { IfSome (N.output number) (λ told. OnOk result (string_bytes text.new ≡ string_bytes text.old ++ name.now ++ told)) }
{
    text.push_str(name)?;
    write!(text, "{number}")
}

/// Bytes in hex of lower case, or `-` for none. An error where there is no memory for them.
pub(crate) fn push_bytes(text: &mut String, bytes: &[u8]) -> Result<(), AllocError>
    ensures { OnOk result (string_bytes text.new ≡ string_bytes text.old ++ bytes_text bytes.now) }
{
    if bytes.is_empty() {
        text.push_str("-")?;
        return Ok(());
    }
    let mut rest = bytes;
    while rest.len() > CHUNK {
        let (chunk, others) = rest.split_at(CHUNK);
        push_chunk(text, chunk)?;
        rest = others;
    }
    push_chunk(text, rest)?;
    Ok(())
}

// A few bytes in hex.
fn push_chunk(text: &mut String, bytes: &[u8]) -> Result<(), AllocError>
    requires { length bytes.now ≤ 64 }
    ensures { OnOk result (string_bytes text.new ≡ string_bytes text.old ++ encode_lower bytes.now) }
{
    let mut digits = [0u8; 2 * CHUNK];
    let digits = &mut digits[..2 * bytes.len()];
    write_digits(bytes, digits);
    text.push_str(from_utf8(digits).unwrap())?;
    Ok(())
}

// Two hex digits for each byte.
fn write_digits(bytes: &[u8], digits: &mut [u8])
    requires { length digits.old ≡ 2 * length bytes.now }
    ensures { digits.new ≡ encode_lower bytes.now }
{
    'bytes: for i in 0..bytes.len() {
        let byte = bytes[i];
        digits[2 * i] = hex_digit(byte >> 4);
        digits[2 * i + 1] = hex_digit(byte & 15);
    }
}

// The hex digit of a number, in lower case.
fn hex_digit(value: u8) -> u8
    requires { value < 16 }
    ensures { result ≡ slice_index lower_digits value }
{
    if value < 10 {
        b'0' + value
    } else {
        b'a' - 10 + value
    }
}
