//! A script is read from a reader, and its answers go to a writer.

ghost use Rattle.std.specs.Prelude.{◌≡◌, ◌≤◌, ◌+◌, ◌++◌, ℕ, List, Option, min, false, IfOk, IfErr, IfSome, IsNone, OnOk};
ghost use Rattle.std.specs.Io.KnownBytes.{Keeps, Consumes, IsAtEnd};
ghost use Rattle.enet_lab.specs.declared.stage.Stage.TheVariants as stages;
ghost use Rattle.enet_lab.specs.Lines.{RunsLine, can_read};
ghost use Rattle.enet_text.specs.Inspected.{Wrote};
ghost use Rattle.enet_lab.specs.Scripts.{HasRun, IsPart, IsRun, IsStopped, written_for};
ghost use Rattle.enet_lab.specs.Private.Scripts.{given};

use crate::fault::LabFault;
use crate::script::Script;
use std::alloc::Global;
use std::io::{ErrorKind, Read, Write};

/// How often the reader is read at most.
const READS: u32 = 16_777_216;

// Runs a line, and writes its answer where it has one.
fn run_line<W: Write>(script: &mut Script, line: &[u8], writer: &mut W) -> Result<(), LabFault>
    ensures ran { OnOk result (Wrote (W.contents writer.old) (W.contents writer.new)
        (λ wrote. (text : Option (List ℕ)) × RunsLine script.old.stage line.now text script.new.stage × (wrote ≡ written_for text))) }
    ensures counted { script.new.lines ≡ min (script.old.lines + 1) 4294967295 }
    ensures stopped { IfErr result (λ fault. (number : ℕ) → fault ≡ LabFault.BadScript number
        → (number ≡ script.new.lines) × (can_read script.old.stage line.now ≡ false) × Keeps (W.contents writer.old) (W.contents writer.new)) }
    ensures short { IfErr result (λ fault. fault ≡ LabFault.Memory → Keeps (W.contents writer.old) (W.contents writer.new)) }
{
    let Some(mut answer) = script.run(line)? else {
        return Ok(());
    };
    answer.push('\n')?;
    writer
        .write_all(answer.as_bytes())
        .map_err(|_| LabFault::Io)
}

// Takes in bytes of the script: runs each line that they end, and keeps the line that they begin.
fn take_in<W: Write>(
    script: &mut Script,
    line: &mut Vec<u8>,
    bytes: &[u8],
    writer: &mut W,
) -> Result<(), LabFault>
    ensures ran { OnOk result (Wrote (W.contents writer.old) (W.contents writer.new) (λ more.
        (seen wrote : List ℕ) → HasRun seen wrote script.old.stage script.old.lines line.old.items
        → HasRun (seen ++ bytes.now) (wrote ++ more) script.new.stage script.new.lines line.new.items)) }
    ensures stopped { IfErr result (λ fault. (number : ℕ) → fault ≡ LabFault.BadScript number
        → Wrote (W.contents writer.old) (W.contents writer.new) (λ more.
        (seen wrote later : List ℕ) → HasRun seen wrote script.old.stage script.old.lines line.old.items
        → IsStopped (seen ++ bytes.now ++ later) (wrote ++ more) number)) }
    ensures short { IfErr result (λ fault. fault ≡ LabFault.Memory → Wrote (W.contents writer.old) (W.contents writer.new) (λ more.
        (seen wrote later : List ℕ) → HasRun seen wrote script.old.stage script.old.lines line.old.items
        → IsPart (seen ++ bytes.now ++ later) (wrote ++ more))) }
{
    for byte in bytes {
        if *byte == b'\n' {
            run_line(script, line.as_slice(), writer)?;
            line.clear();
        } else {
            line.push(*byte)?;
        }
    }
    Ok(())
}

// The next bytes of the script: how many there are, or None at its end. An interrupted read gives 0.
fn read_some<R: Read>(reader: &mut R, buf: &mut [u8; 4096]) -> Result<Option<usize>, LabFault>
    ensures bound { IfOk result (λ read. IfSome read (λ len. len ≤ 4096)) }
    ensures bytes { IfOk result (λ read. Consumes (R.remaining reader.old) (R.remaining reader.new) (given read buf.new)) }
    ensures end { IfOk result (λ read. IsNone read → IsAtEnd (R.remaining reader.new)) }
    ensures failed { IfErr result (λ fault. fault ≡ LabFault.Io) }
{
    match reader.read(buf) {
        Ok(0) => Ok(None),
        Ok(len) => Ok(Some(len)),
        Err(error) if error.kind() == ErrorKind::Interrupted => Ok(Some(0)),
        Err(_) => Err(LabFault::Io),
    }
}

// Reads the lines of a script that hasn't begun and runs them, to the reader's end.
fn run_script<R: Read, W: Write>(
    alloc: Global,
    script: &mut Script,
    reader: &mut R,
    writer: &mut W,
) -> Result<(), LabFault>
    requires empty { script.old.stage ≡ stages.Empty }
    requires first { script.old.lines ≡ 0 }
    ensures whole { OnOk result (IfSome (R.remaining reader.old) (λ script.
        Wrote (W.contents writer.old) (W.contents writer.new) (IsRun script))) }
    ensures stopped { IfErr result (λ fault. (number : ℕ) → fault ≡ LabFault.BadScript number
        → IfSome (R.remaining reader.old) (λ script.
        Wrote (W.contents writer.old) (W.contents writer.new) (λ wrote. IsStopped script wrote number))) }
    ensures short { IfErr result (λ fault. fault ≡ LabFault.Memory → IfSome (R.remaining reader.old) (λ script.
        Wrote (W.contents writer.old) (W.contents writer.new) (IsPart script))) }
{
    let mut line = Vec::new(alloc);
    let mut buf = [0u8; 4096];
    'reads: for _ in 0..READS {
        let Some(len) = read_some(reader, &mut buf)? else {
            return run_line(script, line.as_slice(), writer);
        };
        take_in(script, &mut line, &buf[..len], writer)?;
    }
    Err(LabFault::Io)
}

/// Runs a script: reads it from the reader to its end and writes one answer a line. A line ends at a line feed or at the
/// end of the script. Blank lines and lines that begin with `#` are counted and passed over. `pair <channels>`,
/// `open <peers A> <channels A> <peers B> <channels B>` or `fleet <clients> <peers> <channels>` comes first and once; then
/// `connect <host> <channels> <data> <id>`, `submit <host> <peer> <channel> <flags> <bytes>`, `turn <host>`, `tick <host> <ms>`,
/// `take <host>`, and `now`, `ask` or `later <host> <peer> <data>`, which disconnect. The hosts behind `pair` and `open` are `A` and
/// `B`; `deliver <host> <k>` brings a host a datagram of the other, with `last` in the place of `<k>` the newest, `calm <rounds> <ms>` makes
/// rounds happen in which none is lost, at most 16,777,216, and `rounds <connection> <ms>` tells how many of them are enough. Those of a fleet
/// are the server `S`, which doesn't connect, and the clients `C0`, `C1` and on; `deliver <host> <from> <k>` brings a host a datagram of
/// another, or with `last` the newest of that host, and
/// `stranger <host> <ip> <port> <bytes>` one that a stranger sends. Words are separated by spaces, numbers are decimal, a peer is
/// `slot.generation`, bytes are hex of either case, text in quotes, or `-` for none, a connect id is 8 hex digits, an ip four numbers with
/// points between them. Behind a line's words a word that begins with `#` begins a comment. A refusal of the world or the fleet is answered by its number and its name, and the script goes on.
///
/// BadScript at the first line that can't be read; behind a first line that was refused that is the next one that isn't passed
/// over. Memory where a growth of the lab itself was refused; Io where a read, a write or the flush failed, and after 16,777,216
/// reads. The answers so far are written, unless a write or the flush failed.
pub fn lab<R: Read, W: Write>(alloc: Global, reader: &mut R, writer: &mut W) -> Result<(), LabFault>
    ensures whole { OnOk result (IfSome (R.remaining reader.old) (λ script.
        Wrote (W.contents writer.old) (W.contents writer.new) (IsRun script))) }
    ensures stopped { IfErr result (λ fault. (number : ℕ) → fault ≡ LabFault.BadScript number
        → IfSome (R.remaining reader.old) (λ script.
        Wrote (W.contents writer.old) (W.contents writer.new) (λ wrote. IsStopped script wrote number))) }
    ensures short { IfErr result (λ fault. fault ≡ LabFault.Memory → IfSome (R.remaining reader.old) (λ script.
        Wrote (W.contents writer.old) (W.contents writer.new) (IsPart script))) }
{
    let mut script = Script::new(alloc);
    let outcome = run_script(alloc, &mut script, reader, writer);
    script.close();
    if writer.flush().is_err() {
        return Err(LabFault::Io);
    }
    outcome
}
