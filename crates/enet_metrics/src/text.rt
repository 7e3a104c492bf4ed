//! Lines of the text format of Prometheus.

ghost use Rattle.std.specs.Prelude.{◌≡◌, ◌++◌, OnOk};
ghost use Rattle.std.specs.String.{string_bytes};
ghost use Rattle.enet_metrics.specs.Texts.{head_text, line_text, figure_text, reason_text, reasons_from, seconds_text};

use std::alloc::AllocError;

/// What stands before the lines of a figure. An error for want of memory, as by all that follow.
pub(crate) fn push_head(
    text: &mut String,
    name: &str,
    kind: &str,
    help: &str,
) -> Result<(), AllocError>
    ensures { OnOk result (string_bytes text.new ≡ string_bytes text.old ++ head_text name.now kind.now help.now) }
{
    write!(text, "# HELP {name} {help}\n# TYPE {name} {kind}\n")
}

/// A figure's line, by its name and labels.
pub(crate) fn push_line(text: &mut String, name: &str, value: u64) -> Result<(), AllocError>
    ensures { OnOk result (string_bytes text.new ≡ string_bytes text.old ++ line_text name.now value) }
{
    write!(text, "{name} {value}\n")
}

/// A figure of one line.
pub(crate) fn push_figure(
    text: &mut String,
    name: &str,
    kind: &str,
    help: &str,
    value: u64,
) -> Result<(), AllocError>
    ensures { OnOk result (string_bytes text.new ≡ string_bytes text.old ++ figure_text name.now kind.now help.now value) }
{
    push_head(text, name, kind, help)?;
    push_line(text, name, value)?;
    Ok(())
}

/// A line for each reason, whose numbers begin with 1.
pub(crate) fn push_reasons(
    text: &mut String,
    name: &str,
    letter: &str,
    counts: &[u64],
) -> Result<(), AllocError>
    ensures { OnOk result (string_bytes text.new ≡ string_bytes text.old ++ reasons_from name.now letter.now 1 counts.now) }
{
    for index in 0..counts.len() {
        push_reason(text, name, letter, index + 1, counts[index])?;
    }
    Ok(())
}

fn push_reason(
    text: &mut String,
    name: &str,
    letter: &str,
    number: usize,
    count: u64,
) -> Result<(), AllocError>
    ensures { OnOk result (string_bytes text.new ≡ string_bytes text.old ++ reason_text name.now letter.now number count) }
{
    write!(text, "{name}{{reason=\"{letter}{number}\"}} {count}\n")
}

/// A line of so many milliseconds, in seconds.
pub(crate) fn push_seconds(text: &mut String, name: &str, ms: u64) -> Result<(), AllocError>
    ensures { OnOk result (string_bytes text.new ≡ string_bytes text.old ++ seconds_text name.now ms) }
{
    let whole = ms / 1_000;
    let hundreds = ms / 100 % 10;
    let tens = ms / 10 % 10;
    let ones = ms % 10;
    write!(text, "{name} {whole}.{hundreds}{tens}{ones}\n")
}
