//! An input is read, and its datagrams are told one after another.

ghost use Rattle.std.specs.Prelude.{◌≡◌, ◌≢◌, ◌==◌, ◌<◌, ◌+◌, ◌++◌, [], ◌∷◌, codes, if◌then◌else◌, length, List, ℕ, min, position, None, IfOk, IfErr, IfSome, IfNone, IsSome, OnOk};
ghost use Rattle.std.specs.Io.KnownBytes.{Appends, Keeps};
ghost use Rattle.std.specs.Fmt.{decimal};
ghost use Rattle.std.specs.String.{string_bytes};
ghost use Rattle.enet_text.specs.Inspected.{IsCutOff, TellsEach, TellsLines, TellsOne, TellsSome, Wrote, found_in, lines_of, number_text};
ghost use Rattle.enet_text.specs.Lines.{line_of};
ghost use Rattle.enet_text.specs.Captures.{IsShortCapture, IsTold, IsToldInPart, IsToldToLine, IsToldToPacket, TellsCapture, TellsSomePackets, begun_text, moment, since_begun, time_text, way_text, with_zeros};
ghost use Rattle.enet_text.specs.Private.InputTexts.{lines_left};

use crate::answers::push_address;
use crate::body::Bodies;
use crate::datagram::push_description;
use crate::fault::InspectFault;
use crate::line::{Line, read_line};
use crate::pcap::{
    Captured, Datagram, Format, begun_at, datagram_in, is_capture, moment, parts_of_second,
    read_format, read_packet,
};
use crate::pushing::push_number;
use std::alloc::{AllocError, Global};
use std::io::{ErrorKind, Read, Write};

/// Reads the input to its end, and writes what each datagram of it says: a line with its number, counted from 0, and its length, and
/// below it the lines of `describe`. The input is a datagram in hex a line, as `read_line` reads them, or a capture in the classic pcap
/// format, by its first four bytes. Of a capture also whence and whither a datagram went and how long after the first packet it was captured
/// are told, and last how many packets were passed over, since they weren't whole UDP datagrams over IPv4, and when the first was captured.
///
/// BadLine at the first line that can't be read. LinkType and CutShort where a capture can't be read, or not to its end. Memory where a
/// growth was refused, Io where a read, a write or the flush failed. What was told before is written, unless a write or the flush
/// failed.
pub fn inspect<R: Read, W: Write>(
    alloc: Global,
    bodies: Bodies,
    reader: &mut R,
    writer: &mut W,
) -> Result<(), InspectFault>
    ensures whole { OnOk result (IfSome (R.remaining reader.old) (λ input.
        Wrote (W.contents writer.old) (W.contents writer.new) (IsTold bodies input))) }
    ensures bad_line { IfErr result (λ fault. (number : ℕ) → fault ≡ InspectFault.BadLine number
        → IfSome (R.remaining reader.old) (λ input.
        Wrote (W.contents writer.old) (W.contents writer.new) (λ text. IsToldToLine bodies input text number))) }
    ensures cut_short { IfErr result (λ fault. (number : ℕ) → fault ≡ InspectFault.CutShort number
        → IfSome (R.remaining reader.old) (λ input.
        Wrote (W.contents writer.old) (W.contents writer.new) (λ text. IsToldToPacket bodies input text number))) }
    ensures short { IfErr result (λ fault. fault ≡ InspectFault.Memory → IfSome (R.remaining reader.old) (λ input.
        Wrote (W.contents writer.old) (W.contents writer.new) (IsToldInPart bodies input))) }
{
    let outcome = tell_input(alloc, bodies, reader, writer);
    if writer.flush().is_err() {
        return Err(InspectFault::Io);
    }
    outcome
}

// Reads the input to its end, and tells what it says.
fn tell_input<R: Read, W: Write>(
    alloc: Global,
    bodies: Bodies,
    reader: &mut R,
    writer: &mut W,
) -> Result<(), InspectFault>
    ensures whole { OnOk result (IfSome (R.remaining reader.old) (λ input.
        Wrote (W.contents writer.old) (W.contents writer.new) (IsTold bodies input))) }
    ensures bad_line { IfErr result (λ fault. (number : ℕ) → fault ≡ InspectFault.BadLine number
        → IfSome (R.remaining reader.old) (λ input.
        Wrote (W.contents writer.old) (W.contents writer.new) (λ text. IsToldToLine bodies input text number))) }
    ensures cut_short { IfErr result (λ fault. (number : ℕ) → fault ≡ InspectFault.CutShort number
        → IfSome (R.remaining reader.old) (λ input.
        Wrote (W.contents writer.old) (W.contents writer.new) (λ text. IsToldToPacket bodies input text number))) }
    ensures short { IfErr result (λ fault. fault ≡ InspectFault.Memory → IfSome (R.remaining reader.old) (λ input.
        Wrote (W.contents writer.old) (W.contents writer.new) (IsToldInPart bodies input))) }
{
    let mut input = Vec::new(alloc);
    match reader.read_to_end(&mut input) {
        Ok(_) => tell_all(alloc, bodies, input.as_slice(), writer),
        Err(error) if error.kind() == ErrorKind::OutOfMemory => Err(InspectFault::Memory),
        Err(_) => Err(InspectFault::Io),
    }
}

// Tells what an input says.
fn tell_all<W: Write>(
    alloc: Global,
    bodies: Bodies,
    input: &[u8],
    writer: &mut W,
) -> Result<(), InspectFault>
    ensures whole { OnOk result (Wrote (W.contents writer.old) (W.contents writer.new) (IsTold bodies input.now)) }
    ensures bad_line { IfErr result (λ fault. (number : ℕ) → fault ≡ InspectFault.BadLine number
        → Wrote (W.contents writer.old) (W.contents writer.new) (λ text. IsToldToLine bodies input.now text number)) }
    ensures cut_short { IfErr result (λ fault. (number : ℕ) → fault ≡ InspectFault.CutShort number
        → Wrote (W.contents writer.old) (W.contents writer.new) (λ text. IsToldToPacket bodies input.now text number)) }
    ensures short { IfErr result (λ fault. fault ≡ InspectFault.Memory
        → Wrote (W.contents writer.old) (W.contents writer.new) (IsToldInPart bodies input.now)) }
{
    if is_capture(input) {
        let (format, packets) = read_format(input)?;
        tell_capture(alloc, bodies, format, packets, writer)
    } else {
        tell_lines(alloc, bodies, input, writer)
    }
}

// Tells the datagrams of lines in hex.
fn tell_lines<W: Write>(
    alloc: Global,
    bodies: Bodies,
    input: &[u8],
    writer: &mut W,
) -> Result<(), InspectFault>
    ensures whole { OnOk result (Wrote (W.contents writer.old) (W.contents writer.new) (TellsLines bodies (lines_of input.now))) }
    ensures stopped { IfErr result (λ fault. (number : ℕ) → fault ≡ InspectFault.BadLine number
        → Wrote (W.contents writer.old) (W.contents writer.new) (λ text. IsCutOff bodies (lines_of input.now) text number)) }
    ensures short { IfErr result (λ fault. fault ≡ InspectFault.Memory
        → Wrote (W.contents writer.old) (W.contents writer.new) (TellsSome bodies (lines_of input.now))) }
    ensures uncut { IfErr result (λ fault. (packets : ℕ) → fault ≢ InspectFault.CutShort packets) }
{
    let mut text = String::new(alloc);
    let mut lines = 0u64;
    let mut told = 0u64;
    let mut left = Some(input);
    'lines: while let Some(rest) = left {
        let (line, behind) = cut_line(rest);
        lines = lines.saturating_add(1);
        match tell_line(alloc, bodies, &mut text, told, line, writer)? {
            Some(next) => told = next,
            None => return Err(InspectFault::BadLine(lines)),
        }
        left = behind;
    }
    Ok(())
}

// The first line, and what stands behind the line feed that ends it; None where none does.
fn cut_line(input: &[u8]) -> (&[u8], Option<&[u8]>)
    ensures lines { lines_of input.now ≡ result.0.now ∷ lines_left result.1 }
    ensures shorter { IfSome result.1 (λ rest. length rest.now < length input.now) }
{
    match line_end(input) {
        Some(end) => (&input[..end], Some(&input[end + 1..])),
        None => (input, None),
    }
}

// Where the first line feed stands.
fn line_end(input: &[u8]) -> Option<usize>
    ensures { result ≡ position (λ byte. byte == 10) input.now }
{
    input.iter().position(|byte| *byte == b'\n')
}

// Tells the datagram of a line under this number, where the line has one, and gives the number of the next. None where the line can't be
// read.
fn tell_line<W: Write>(
    alloc: Global,
    bodies: Bodies,
    text: &mut String,
    number: u64,
    line: &[u8],
    writer: &mut W,
) -> Result<Option<u64>, InspectFault>
    ensures readable { IfOk result (λ next. IfSome next (λ _. IsSome (line_of line.now))) }
    ensures told { IfOk result (λ next. IfSome next (λ _. Wrote (W.contents writer.old) (W.contents writer.new)
        (TellsEach bodies number (found_in (line_of line.now))))) }
    ensures next { IfOk result (λ next. IfSome next (λ next. next ≡ min (number + length (found_in (line_of line.now))) 18446744073709551615)) }
    ensures unread { IfOk result (λ next. IfNone next ((line_of line.now ≡ None) × Keeps (W.contents writer.old) (W.contents writer.new))) }
    ensures short { IfErr result (λ fault. fault ≡ InspectFault.Memory → Keeps (W.contents writer.old) (W.contents writer.new)) }
    ensures other { IfErr result (λ fault. (line : ℕ) → fault ≢ InspectFault.BadLine line) }
    ensures uncut { IfErr result (λ fault. (packets : ℕ) → fault ≢ InspectFault.CutShort packets) }
{
    match read_line(alloc, line)? {
        Some(Line::PassedOver) => Ok(Some(number)),
        Some(Line::Datagram(bytes)) => {
            fill(text, bodies, number, bytes.as_slice())?;
            write_text(text.as_str(), writer)?;
            Ok(Some(number.saturating_add(1)))
        }
        None => Ok(None),
    }
}

// Tells the datagrams of a capture, whose packets these are.
fn tell_capture<W: Write>(
    alloc: Global,
    bodies: Bodies,
    format: Format,
    packets: &[u8],
    writer: &mut W,
) -> Result<(), InspectFault>
    ensures whole { OnOk result (Wrote (W.contents writer.old) (W.contents writer.new) (TellsCapture bodies format packets.now)) }
    ensures stopped { IfErr result (λ fault. (number : ℕ) → fault ≡ InspectFault.CutShort number
        → Wrote (W.contents writer.old) (W.contents writer.new) (λ text. IsShortCapture bodies format packets.now text number)) }
    ensures short { IfErr result (λ fault. fault ≡ InspectFault.Memory
        → Wrote (W.contents writer.old) (W.contents writer.new) (TellsSomePackets bodies format packets.now)) }
    ensures other { IfErr result (λ fault. (line : ℕ) → fault ≢ InspectFault.BadLine line) }
{
    let begun = begun_at(format, packets);
    let mut text = String::new(alloc);
    let mut rest = packets;
    let mut told = 0u64;
    let mut others = 0u64;
    'packets: while !rest.is_empty() {
        let Some((captured, behind)) = read_packet(format, rest) else {
            return Err(InspectFault::CutShort(told.saturating_add(others)));
        };
        rest = behind;
        match datagram_in(format, captured.bytes) {
            Some(datagram) => {
                let since = since_begun(begun, captured, format.nanoseconds);
                fill_captured(&mut text, bodies, told, since, datagram, format.nanoseconds)?;
                write_text(text.as_str(), writer)?;
                told = told.saturating_add(1);
            }
            None => others = others.saturating_add(1),
        }
    }
    let text = last_line(alloc, others, begun, format.nanoseconds)?;
    write_text(text.as_str(), writer)
}

// How long after the first packet one was captured.
fn since_begun(begun: Option<u64>, captured: Captured<'_>, nanoseconds: bool) -> u64
    ensures { result ≡ since_begun begun (moment captured.entry.seconds captured.entry.parts nanoseconds) }
{
    moment(captured.seconds, captured.parts, nanoseconds).saturating_sub(begun.unwrap_or(0))
}

// The last line: how many packets were passed over, and when the first one was captured.
fn last_line(
    alloc: Global,
    others: u64,
    begun: Option<u64>,
    nanoseconds: bool,
) -> Result<String, AllocError>
    ensures { IfOk result (λ text. string_bytes text ≡ decimal others ++ codes " other packets" ++ begun_text begun nanoseconds ++ codes "\n") }
{
    let mut text = format!(in alloc; "{others} other packets")?;
    push_begun(&mut text, begun, nanoseconds)?;
    text.push_str("\n")?;
    Ok(text)
}

fn push_begun(text: &mut String, begun: Option<u64>, nanoseconds: bool) -> Result<(), AllocError>
    ensures { OnOk result (string_bytes text.new ≡ string_bytes text.old ++ begun_text begun nanoseconds) }
{
    match begun {
        None => Ok(()),
        Some(begun) => {
            text.push_str(", begun at ")?;
            push_time(text, begun, nanoseconds)
        }
    }
}

// The text becomes what is told of a datagram: its number, its length, and what it says.
fn fill(text: &mut String, bodies: Bodies, number: u64, bytes: &[u8]) -> Result<(), AllocError>
    ensures { OnOk result (TellsOne bodies number (record { way = []; bytes = bytes.now }) (string_bytes text.new)) }
{
    begin(text, number, bytes)?;
    text.push_str("\n")?;
    push_description(text, bodies, bytes)
}

// The same of a datagram of a capture, with its way behind its length.
fn fill_captured(
    text: &mut String,
    bodies: Bodies,
    number: u64,
    since: u64,
    datagram: Datagram<'_>,
    nanoseconds: bool,
) -> Result<(), AllocError>
    ensures { OnOk result (TellsOne bodies number (record { way = way_text datagram.entry since nanoseconds; bytes = datagram.entry.payload.now })
        (string_bytes text.new)) }
{
    begin(text, number, datagram.payload)?;
    push_way(text, since, datagram, nanoseconds)?;
    text.push_str("\n")?;
    push_description(text, bodies, datagram.payload)
}

// The text becomes the number of a datagram, and its length.
fn begin(text: &mut String, number: u64, bytes: &[u8]) -> Result<(), AllocError>
    ensures { OnOk result (string_bytes text.new ≡ number_text number (length bytes.now)) }
{
    text.clear();
    push_number(text, "datagram ", number)?;
    push_number(text, " length ", bytes.len())?;
    Ok(())
}

// Whence and whither a datagram of a capture went, and how long after the first packet.
fn push_way(
    text: &mut String,
    since: u64,
    datagram: Datagram<'_>,
    nanoseconds: bool,
) -> Result<(), AllocError>
    ensures { OnOk result (string_bytes text.new ≡ string_bytes text.old ++ way_text datagram.entry since nanoseconds) }
{
    text.push_str(" from ")?;
    push_address(text, datagram.from)?;
    text.push_str(" to ")?;
    push_address(text, datagram.to)?;
    text.push_str(" at ")?;
    push_time(text, since, nanoseconds)
}

// A time in seconds, with the digits of its parts behind the point.
fn push_time(text: &mut String, time: u64, nanoseconds: bool) -> Result<(), AllocError>
    ensures { OnOk result (string_bytes text.new ≡ string_bytes text.old ++ time_text time nanoseconds) }
{
    let second = parts_of_second(nanoseconds);
    push_number(text, "", time / second)?;
    push_parts(text, time % second, nanoseconds)
}

// Billionths or millionths of a second, behind a point.
fn push_parts(text: &mut String, parts: u64, nanoseconds: bool) -> Result<(), AllocError>
    ensures { OnOk result (string_bytes text.new ≡ string_bytes text.old ++ codes "." ++ with_zeros (if nanoseconds then 9 else 6) parts) }
{
    if nanoseconds {
        write!(text, ".{parts:09}")
    } else {
        write!(text, ".{parts:06}")
    }
}

fn write_text<W: Write>(text: &str, writer: &mut W) -> Result<(), InspectFault>
    ensures wrote { OnOk result (Appends (W.contents writer.old) (W.contents writer.new) text.now) }
    ensures failed { IfErr result (λ fault. fault ≡ InspectFault.Io) }
{
    writer
        .write_all(text.as_bytes())
        .map_err(|_| InspectFault::Io)
}
