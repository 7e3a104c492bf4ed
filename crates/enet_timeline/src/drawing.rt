//! The picture.

ghost use Rattle.std.specs.Prelude.{◌≡◌, ◌++◌, ℕ, List, codes, IfOk, OnOk};
ghost use Rattle.std.specs.Str.Lines.{lines};
ghost use Rattle.std.specs.String.{string_bytes};
ghost use Rattle.enet_timeline.specs.Pictures.{opening_text, ground_text, lines_text, IsPicture};

use crate::element::{
    push_cross, push_diamond, push_full_cross, push_left_head, push_line, push_right_head,
    push_ring, push_title, push_words,
};
use crate::labels::{label, name_of, push_seconds, title};
use crate::legend::{IN_VAIN, LEGEND, LOST, NONE_SEEN, TOO_EARLY, help_of};
use crate::places::{LEFT, PAGE, PAGE_LENGTH, RIGHT, is_long, step_of};
use crate::queue::Queue;
use crate::summary::{push_part, push_whole, vain_words};
use enet_captured::{Filter, Kind, Mark, Marked, Outcome, Part, Seen, Source, Timeline, Way};
use enet_codec::Addr;
use enet_text::address_text;
use std::alloc::{AllocError, Global};

/// So many connections are drawn at most: the first.
pub(crate) const CONNECTIONS: usize = 24;

/// So many datagrams of each are drawn at most: the first.
pub(crate) const DATAGRAMS: usize = 500;

/// So many commands of a datagram are followed to their acknowledgement at most.
const COMMANDS: usize = 64;

/// What becomes of the picture: its text, how far down it reaches, and where the marks of the connection stand that come next.
#[derive(Drop)]
struct Pen {
    text: String,
    y: u64,
    /// When it begins.
    begun: u64,
    /// Whence it is.
    source: Source,
    queue: Queue,
    /// The next command.
    next: usize,
    /// Where the heads of the columns stand last.
    head: u64,
    /// Those that are repeated, which stand above all else of the connection.
    bands: String,
    /// The way that leads to the end at which the capture was made, if that is known.
    at: Option<Way>,
}

/// Draws what is shown of a timeline, whose parts these are, as an SVG. The way leads to the end at which the capture was made, if that is
/// known. An error where there is no memory for it.
pub(crate) fn draw(
    alloc: Global,
    timeline: &Timeline,
    asked: Filter,
    parts: &[Part],
    at: Option<Way>,
) -> Result<String, AllocError>
    ensures { IfOk result (λ text. IsPicture timeline.now asked parts.now (string_bytes text)) }
{
    let mut summary = String::new(alloc);
    push_whole(&mut summary, timeline, asked, parts.len())?;
    let mut top = String::new(alloc);
    let y = push_lines(&mut top, 24, summary.as_str())?;
    let mut pen = Pen {
        text: String::new(alloc),
        y,
        begun: timeline.begun,
        source: timeline.source,
        queue: Queue::new(alloc),
        next: 0,
        head: y,
        bands: String::new(alloc),
        at,
    };
    pen.y = push_legend(&mut pen.text, pen.y, pen.source)?;
    push_summary(&mut pen, help_of(timeline.source))?;
    for part in parts.iter().take(CONNECTIONS) {
        draw_part(alloc, &mut pen, timeline, part)?;
    }
    picture(alloc, top.as_str(), &pen)
}

// The picture with these lines on top, and below what was drawn.
fn picture(alloc: Global, top: &str, pen: &Pen) -> Result<String, AllocError>
    ensures { IfOk result (λ text. (height : ℕ) × (style drawn : List ℕ)
        × (string_bytes text ≡ opening_text height ++ style ++ ground_text height ++ top.now ++ drawn ++ codes "</svg>\n")) }
{
    let mut text = String::new(alloc);
    push_head(&mut text, pen.y.saturating_add(20))?;
    text.push_str(top)?;
    text.push_str(pen.text.as_str())?;
    text.push_str("</svg>\n")?;
    Ok(text)
}

// What the picture begins with.
fn push_head(text: &mut String, height: u64) -> Result<(), AllocError>
    ensures { OnOk result ((style : List ℕ) × (string_bytes text.new ≡ string_bytes text.old ++ (opening_text height ++ style ++ ground_text height))) }
{
    push_opening(text, height)?;
    text.push_str(STYLE)?;
    push_ground(text, height)?;
    Ok(())
}

fn push_opening(text: &mut String, height: u64) -> Result<(), AllocError>
    ensures { OnOk result (string_bytes text.new ≡ string_bytes text.old ++ opening_text height) }
{
    write!(
        text,
        "<svg xmlns=\"http://www.w3.org/2000/svg\" width=\"{PAGE}\" height=\"{height}\" viewBox=\"0 0 {PAGE} {height}\">\n"
    )
}

fn push_ground(text: &mut String, height: u64) -> Result<(), AllocError>
    ensures { OnOk result (string_bytes text.new ≡ string_bytes text.old ++ ground_text height) }
{
    write!(
        text,
        "<rect width=\"{PAGE}\" height=\"{height}\" fill=\"#fff\"/>\n"
    )
}

const STYLE: &str = "<style>
text{font:10px monospace;fill:#333}
path{fill:none;stroke:#333;stroke-width:1.3}
.head{stroke:none}
.title{font:bold 14px sans-serif;fill:#111}
.sum{font:11px sans-serif;fill:#444}
.end{font:bold 11px sans-serif;text-anchor:middle;fill:#111}
.axis{stroke:#999}
.time{fill:#888}
.to{text-anchor:end}
.pause{fill:#999;font-style:italic;text-anchor:middle}
.name{font-size:8px;fill:#567;paint-order:stroke;stroke:#fff;stroke-width:2px}
.band{fill:#f4f4f4}
.bar{stroke:#7fa8e0;stroke-width:3}
.late{stroke:#e58a1f}
.open{stroke:#d33;stroke-dasharray:4 2}
.dot{fill:#e58a1f;stroke:#fff}
.cross{fill:#fff;stroke:#d11;stroke-width:1.2}
.lost{fill:#d11;stroke:#fff;stroke-width:1}
.early{fill:#e58a1f;stroke:#fff;stroke-width:1}
.vain{fill:#fff;stroke:#e58a1f;stroke-width:2}
.twice{stroke-dasharray:2 3}
.rule{stroke:#ddd}
.again{stroke-width:2.2}
text.again{fill:#b85c00;font-weight:bold}
.data{stroke:#1f5fbf}.data.head{fill:#1f5fbf}
.plain{stroke:#2a9d5c}.plain.head{fill:#2a9d5c}
.control{stroke:#7a3fb0}.control.head{fill:#7a3fb0}
.ping{stroke:#777}.ping.head{fill:#777}
.ack{stroke:#bbb}.ack.head{fill:#bbb}
.unread{stroke:#c00}.unread.head{fill:#c00}
</style>
";

// The lines of a summary, one below another.
fn push_summary(pen: &mut Pen, summary: &str) -> Result<(), AllocError> {
    pen.y = push_lines(&mut pen.text, pen.y, summary)?;
    Ok(())
}

// Lines from there on, one below another. Where the next one would stand.
fn push_lines(text: &mut String, top: u64, words: &str) -> Result<u64, AllocError>
    ensures { OnOk result (string_bytes text.new ≡ string_bytes text.old ++ lines_text top (lines words.now)) }
{
    let mut y = top;
    for line in words.lines() {
        push_words(text, "sum", 16, y, line)?;
        y = y.saturating_add(15);
    }
    Ok(y)
}

// What the looks of arrows and the marks on them say, from there on. Where that ends.
fn push_legend(text: &mut String, top: u64, source: Source) -> Result<u64, AllocError> {
    let y = top.saturating_add(4);
    push_samples(text, y)?;
    let y = y.saturating_add(17);
    push_mark_samples(text, y)?;
    push_lost_sample(text, y, source)?;
    Ok(y.saturating_add(20))
}

fn push_samples(text: &mut String, y: u64) -> Result<(), AllocError> {
    for (x, class, words) in &LEGEND {
        push_sample(text, class, *x, y, words)?;
    }
    Ok(())
}

fn push_mark_samples(text: &mut String, y: u64) -> Result<(), AllocError> {
    let base = y.saturating_add(4);
    push_cross(text, "cross", 24, y)?;
    push_words(text, "sum", 36, base, NONE_SEEN)?;
    push_diamond(text, "early", 216, y)?;
    push_words(text, "sum", 228, base, TOO_EARLY)?;
    push_ring(text, "vain", 368, y)?;
    push_words(text, "sum", 380, base, IN_VAIN)
}

// The mark that no capture has.
fn push_lost_sample(text: &mut String, y: u64, source: Source) -> Result<(), AllocError> {
    if source == Source::Capture {
        return Ok(());
    }
    push_full_cross(text, "lost", 990, y)?;
    push_words(text, "sum", 1002, y.saturating_add(4), LOST)
}

fn push_sample(
    text: &mut String,
    class: &str,
    x: u64,
    y: u64,
    words: &str,
) -> Result<(), AllocError> {
    push_line(text, class, (x, y), (x.saturating_add(24), y))?;
    push_words(
        text,
        "sum",
        x.saturating_add(30),
        y.saturating_add(4),
        words,
    )
}

// A connection below what is there.
fn draw_part(
    alloc: Global,
    pen: &mut Pen,
    timeline: &Timeline,
    part: &Part,
) -> Result<(), AllocError> {
    pen.y = pen.y.saturating_add(18);
    push_line(&mut pen.text, "rule", (16, pen.y), (PAGE - 16, pen.y))?;
    pen.y = pen.y.saturating_add(22);
    push_part_summary(alloc, pen, part)?;
    pen.y = push_heads(alloc, &mut pen.text, timeline, part, pen.y)?;
    let top = pen.y;
    pen.head = top;
    pen.queue = Queue::new(alloc);
    pen.next = 0;
    draw_datagrams(alloc, pen, timeline, part)?;
    pen.y = pen.y.saturating_add(14);
    pen.queue.push_left_over(&mut pen.text, pen.y)?;
    push_line(&mut pen.text, "axis", (LEFT, top), (LEFT, pen.y))?;
    push_line(&mut pen.text, "axis", (RIGHT, top), (RIGHT, pen.y))?;
    pen.text.push_str(pen.bands.as_str())?;
    pen.bands.clear();
    Ok(())
}

fn push_part_summary(alloc: Global, pen: &mut Pen, part: &Part) -> Result<(), AllocError> {
    let mut summary = String::new(alloc);
    push_part(alloc, &mut summary, part, pen.source, pen.at)?;
    push_summary(pen, summary.as_str())
}

// The heads of the columns, below there: the ends, and what stands beside them. Where they end.
fn push_heads(
    alloc: Global,
    text: &mut String,
    timeline: &Timeline,
    part: &Part,
    top: u64,
) -> Result<u64, AllocError> {
    let y = top.saturating_add(10);
    let left = end_text(alloc, timeline, part.connection.left)?;
    let right = end_text(alloc, timeline, part.connection.right)?;
    push_words(text, "time", 16, y, "seconds")?;
    push_words(text, "end", LEFT, y, left.as_str())?;
    push_words(text, "end", RIGHT, y, right.as_str())?;
    push_words(text, "time to", PAGE - 8, y, "datagram")?;
    Ok(y.saturating_add(6))
}

// What an end is called: by its address where it has no name.
fn end_text(alloc: Global, timeline: &Timeline, at: Addr) -> Result<String, AllocError> {
    match timeline.hosts.iter().find(|host| host.at == at) {
        None => address_text(alloc, at),
        Some(host) => String::from_str(alloc, host.name.as_str()),
    }
}

// The legend and the heads once more, where the last ones are out of sight.
fn push_heads_again(
    alloc: Global,
    pen: &mut Pen,
    timeline: &Timeline,
    part: &Part,
) -> Result<(), AllocError> {
    if pen.y.saturating_sub(pen.head) < PAGE_LENGTH {
        return Ok(());
    }
    let top = pen.y.saturating_add(30);
    push_band(&mut pen.bands, top)?;
    let y = push_legend(&mut pen.bands, top.saturating_add(12), pen.source)?;
    pen.y = push_heads(alloc, &mut pen.bands, timeline, part, y)?;
    pen.head = pen.y;
    Ok(())
}

// The datagrams of a connection.
fn draw_datagrams(
    alloc: Global,
    pen: &mut Pen,
    timeline: &Timeline,
    part: &Part,
) -> Result<(), AllocError> {
    let mut before: Option<u64> = None;
    for one in part.marked.iter().take(DATAGRAMS) {
        let gap = one.seen.at.saturating_sub(before.unwrap_or(one.seen.at));
        before = Some(one.seen.at);
        push_heads_again(alloc, pen, timeline, part)?;
        push_pause(alloc, pen, gap)?;
        pen.y = pen.y.saturating_add(step_of(gap));
        draw_seen(alloc, pen, timeline, part, one)?;
    }
    Ok(())
}

// The ground of heads that are repeated.
fn push_band(text: &mut String, y: u64) -> Result<(), AllocError> {
    write!(
        text,
        "<rect class=\"band\" y=\"{y}\" width=\"{PAGE}\" height=\"70\"/>\n"
    )
}

// A pause that is longer than the picture shows.
fn push_pause(alloc: Global, pen: &mut Pen, gap: u64) -> Result<(), AllocError> {
    if !is_long(gap) {
        return Ok(());
    }
    let mut words = String::new(alloc);
    push_seconds(&mut words, gap)?;
    words.push_str(" s later")?;
    push_words(
        &mut pen.text,
        "pause",
        LEFT.midpoint(RIGHT),
        pen.y.saturating_add(30),
        words.as_str(),
    )
}

// A datagram, with what it does to what waits.
fn draw_seen(
    alloc: Global,
    pen: &mut Pen,
    timeline: &Timeline,
    part: &Part,
    one: &Marked,
) -> Result<(), AllocError> {
    let marks = part.marks.as_slice();
    let first = pen.next.min(marks.len());
    let count = count_in(&marks[first..], one.seen.number);
    let marks = marks.get(first..first.saturating_add(count)).unwrap_or(&[]);
    pen.next = first.saturating_add(count);
    push_moment(alloc, pen, &one.seen)?;
    push_arrow(alloc, pen, name_of(timeline, one.seen.number), one, marks)?;
    let followed = marks.get(..COMMANDS).unwrap_or(marks);
    pen.queue.follow(alloc, &mut pen.text, followed, one, pen.y)
}

// How many of the first commands are of a datagram.
fn count_in(marks: &[Mark], datagram: u64) -> usize {
    marks
        .iter()
        .take_while(|mark| mark.datagram == datagram)
        .count()
}

// The class of the most telling command.
fn class_of(seen: &Seen, marks: &[Mark]) -> &'static str {
    if seen.stop.is_some() {
        return "unread";
    }
    let mut best = 0;
    for mark in marks {
        best = rank_of(mark.told.kind).max(best);
    }
    match best {
        5 => "control",
        4 => "data",
        3 => "plain",
        2 => "ping",
        _ => "ack",
    }
}

fn rank_of(kind: Kind) -> u8 {
    match kind {
        Kind::Connect | Kind::VerifyConnect | Kind::Disconnect => 5,
        Kind::BandwidthLimit | Kind::ThrottleConfigure => 5,
        Kind::SendReliable | Kind::SendFragment => 4,
        Kind::SendUnreliable | Kind::SendUnsequenced | Kind::SendUnreliableFragment => 3,
        Kind::Ping => 2,
        Kind::Acknowledge => 1,
    }
}

// When a datagram was captured, and its number.
fn push_moment(alloc: Global, pen: &mut Pen, seen: &Seen) -> Result<(), AllocError> {
    let mut words = String::new(alloc);
    push_seconds(&mut words, seen.at.saturating_sub(pen.begun))?;
    push_words(
        &mut pen.text,
        "time",
        16,
        pen.y.saturating_add(3),
        words.as_str(),
    )?;
    let number = seen.number;
    let words = format!(in alloc; "#{number}")?;
    push_words(
        &mut pen.text,
        "time to",
        PAGE - 8,
        pen.y.saturating_add(3),
        words.as_str(),
    )
}

// The arrow of a datagram, with its words and marks.
fn push_arrow(
    alloc: Global,
    pen: &mut Pen,
    name: &str,
    one: &Marked,
    marks: &[Mark],
) -> Result<(), AllocError> {
    let seen = one.seen;
    let words = label(alloc, name, &seen, marks)?;
    let mut more = title(alloc, name, &seen, marks)?;
    push_reasons(&mut more, one, pen.at)?;
    let line = line_class(one);
    let class = class_of(&seen, marks);
    let class = format!(in alloc; "{line}{class}")?;
    let text = &mut pen.text;
    text.push_str("<g>")?;
    push_title(text, more.as_str())?;
    if seen.is_lost {
        push_lost_shaft(text, class.as_str(), seen.way, pen.y)?;
    } else {
        push_shaft(text, class.as_str(), seen.way, pen.y)?;
    }
    push_marks(text, one, pen.y)?;
    let x = match seen.way {
        Way::Right => LEFT + 10,
        Way::Left => RIGHT - 10,
    };
    push_words(
        text,
        words_class(one),
        x,
        pen.y.saturating_sub(4),
        words.as_str(),
    )?;
    text.push_str("</g>\n")?;
    Ok(())
}

// How the line of a datagram differs from others of its class.
fn line_class(one: &Marked) -> &'static str {
    match (one.fate.went_before, one.fate.was_seen) {
        (true, _) => "again ",
        (false, true) => "twice ",
        (false, false) => "",
    }
}

fn words_class(one: &Marked) -> &'static str {
    match (one.seen.way, one.fate.went_before) {
        (Way::Right, false) => "",
        (Way::Right, true) => "again",
        (Way::Left, false) => "to",
        (Way::Left, true) => "to again",
    }
}

// The line of an arrow, and its head.
fn push_shaft(text: &mut String, class: &str, way: Way, y: u64) -> Result<(), AllocError> {
    push_line(text, class, (LEFT, y), (RIGHT, y))?;
    match way {
        Way::Right => push_right_head(text, class, RIGHT, y),
        Way::Left => push_left_head(text, class, LEFT, y),
    }
}

// The line of an arrow that doesn't arrive: it ends where its cross stands.
fn push_lost_shaft(text: &mut String, class: &str, way: Way, y: u64) -> Result<(), AllocError> {
    let end = behind_head(way, LOST_AT);
    match way {
        Way::Right => push_line(text, class, (LEFT, y), (end, y)),
        Way::Left => push_line(text, class, (end, y), (RIGHT, y)),
    }
}

/// How far behind the other end a datagram's arrow ends that was never delivered.
const LOST_AT: u64 = 60;

// The marks of a datagram, near its arrow's head.
fn push_marks(text: &mut String, one: &Marked, y: u64) -> Result<(), AllocError> {
    let way = one.seen.way;
    if one.seen.is_lost {
        push_full_cross(text, "lost", behind_head(way, LOST_AT), y)?;
    } else if one.fate.outcome().is(Outcome::NoneSeen) {
        push_cross(text, "cross", behind_head(way, 40), y)?;
    }
    if one.fate.is_early {
        push_diamond(text, "early", behind_head(way, early_at(one)), y)?;
    }
    if one.fate.is_in_vain {
        push_ring(text, "vain", behind_head(way, 80), y)?;
    }
    Ok(())
}

// How far behind the other end the mark stands of what was sent again too early: on the line, which ends before if it was lost.
fn early_at(one: &Marked) -> u64 {
    if one.seen.is_lost { LOST_AT + 40 } else { 22 }
}

// So far behind the head of an arrow.
fn behind_head(way: Way, far: u64) -> u64 {
    match way {
        Way::Right => RIGHT.saturating_sub(far),
        Way::Left => LEFT.saturating_add(far),
    }
}

// What the marks of a datagram say, a line each.
fn push_reasons(text: &mut String, one: &Marked, at: Option<Way>) -> Result<(), AllocError> {
    if one.seen.is_lost {
        text.push_str("\n")?;
        text.push_str(LOST)?;
    } else if one.fate.outcome().is(Outcome::NoneSeen) {
        text.push_str("\n")?;
        text.push_str(NONE_SEEN)?;
    }
    if one.fate.is_early {
        text.push_str("\n")?;
        text.push_str(TOO_EARLY)?;
    }
    if one.fate.is_in_vain {
        let words = vain_words(at, one.seen.way);
        write!(
            text,
            "\nwhat it acknowledges was sent again all the same: {words}"
        )?;
    }
    if one.fate.was_seen {
        text.push_str("\nthe same datagram, seen before")?;
    }
    Ok(())
}
