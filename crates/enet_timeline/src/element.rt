//! The elements of the picture, each put behind the text that is there. Their words have no letter that XML keeps for itself: they are numbers,
//! and names and sentences of this crate.

ghost use Rattle.std.specs.Prelude.{◌≡◌, ◌++◌, OnOk};
ghost use Rattle.std.specs.String.{string_bytes};
ghost use Rattle.enet_timeline.specs.Pictures.{words_text};

use std::alloc::AllocError;

/// A line between two points. Classes are those of the style sheet.
pub(crate) fn push_line(
    text: &mut String,
    class: &str,
    from: (u64, u64),
    to: (u64, u64),
) -> Result<(), AllocError> {
    let (left, top) = from;
    let (right, bottom) = to;
    write!(
        text,
        "<path class=\"{class}\" d=\"M{left} {top}L{right} {bottom}\"/>\n"
    )
}

/// The head of an arrow to the right, whose point is there.
pub(crate) fn push_right_head(
    text: &mut String,
    class: &str,
    x: u64,
    y: u64,
) -> Result<(), AllocError> {
    write!(
        text,
        "<path class=\"{class} head\" d=\"M{x} {y}l-8 -3.5v7z\"/>\n"
    )
}

/// The head of an arrow to the left.
pub(crate) fn push_left_head(
    text: &mut String,
    class: &str,
    x: u64,
    y: u64,
) -> Result<(), AllocError> {
    write!(
        text,
        "<path class=\"{class} head\" d=\"M{x} {y}l8 -3.5v7z\"/>\n"
    )
}

/// A hollow cross whose middle is there.
pub(crate) fn push_cross(text: &mut String, class: &str, x: u64, y: u64) -> Result<(), AllocError> {
    write!(
        text,
        "<path class=\"{class}\" d=\"M{x} {y}m-6 -4l2 -2l4 4l4 -4l2 2l-4 4l4 4l-2 2l-4 -4l-4 4l-2 -2l4 -4z\"/>\n"
    )
}

/// A full cross whose middle is there.
pub(crate) fn push_full_cross(
    text: &mut String,
    class: &str,
    x: u64,
    y: u64,
) -> Result<(), AllocError> {
    write!(
        text,
        "<path class=\"{class}\" d=\"M{x} {y}m-8 -5l3 -3l5 5l5 -5l3 3l-5 5l5 5l-3 3l-5 -5l-5 5l-3 -3l5 -5z\"/>\n"
    )
}

/// A diamond whose middle is there.
pub(crate) fn push_diamond(
    text: &mut String,
    class: &str,
    x: u64,
    y: u64,
) -> Result<(), AllocError> {
    write!(
        text,
        "<path class=\"{class}\" d=\"M{x} {y}m-6 0l6 -6l6 6l-6 6z\"/>\n"
    )
}

/// A ring whose middle is there.
pub(crate) fn push_ring(text: &mut String, class: &str, x: u64, y: u64) -> Result<(), AllocError> {
    write!(
        text,
        "<circle class=\"{class}\" cx=\"{x}\" cy=\"{y}\" r=\"5\"/>\n"
    )
}

/// A dot whose middle is there.
pub(crate) fn push_dot(text: &mut String, class: &str, x: u64, y: u64) -> Result<(), AllocError> {
    write!(
        text,
        "<circle class=\"{class}\" cx=\"{x}\" cy=\"{y}\" r=\"4.5\"/>\n"
    )
}

/// Words that begin there, end there or stand around there, as the class says.
pub(crate) fn push_words(
    text: &mut String,
    class: &str,
    x: u64,
    y: u64,
    words: &str,
) -> Result<(), AllocError>
    ensures { OnOk result (string_bytes text.new ≡ string_bytes text.old ++ words_text class.now x y words.now) }
{
    write!(
        text,
        "<text class=\"{class}\" x=\"{x}\" y=\"{y}\">{words}</text>\n"
    )
}

/// Words that begin there and are written from top to bottom.
pub(crate) fn push_words_down(
    text: &mut String,
    class: &str,
    x: u64,
    y: u64,
    words: &str,
) -> Result<(), AllocError> {
    write!(
        text,
        "<text class=\"{class}\" transform=\"translate({x} {y})rotate(90)\">{words}</text>\n"
    )
}

/// What a viewer shows where the pointer rests on the group that holds it.
pub(crate) fn push_title(text: &mut String, words: &str) -> Result<(), AllocError> {
    write!(text, "<title>{words}</title>\n")
}
