//! The summary in words.

ghost use Rattle.std.specs.Prelude.{◌≡◌, ◌++◌, ℕ, List, Option, codes, IfOk, OnOk};
ghost use Rattle.std.specs.List.{flat_map};
ghost use Rattle.std.specs.String.{string_bytes};
ghost use Rattle.enet_timeline.specs.Summaries.{counts_text, unkept_text, cut_text, first_connections_text, whole_text, asked_text, is_all, words_asked_text, number_asked_text, time_asked_text, names_text, id_text, began_text, ends_text, ways_text, going_text, lasting, unread_text, stopped_text, stops_text, counted_text, kind_text, all_text, commands_text, outcomes_text, ended_text, resent_text, way_name, vain_words, vain_text, vain_line, lost_text, fates_text, before_text, longest_text, gap_text, first_datagrams_text, delays_from, end_text, far_text, guess_text, is_guessed, made_text, near_text, seems_text, shortest_of, TellsPart, Summarizes};

use crate::drawing::{CONNECTIONS, DATAGRAMS};
use crate::labels::push_seconds;
use enet_captured::{
    Delays, Filter, Kind, Mark, Marked, Outcome, Part, Seen, Source, Timeline, Way, count_of,
    early, ended, going, in_vain, longest_gap, lost, made_at, resent, stopped_by,
};
use enet_codec::Stop;
use enet_text::{address_text, bytes_text};
use std::alloc::{AllocError, Global};

/// The kinds that carry no packet, and those that do.
const KINDS: [Kind; 7] = [
    Kind::Connect,
    Kind::VerifyConnect,
    Kind::Disconnect,
    Kind::Ping,
    Kind::Acknowledge,
    Kind::BandwidthLimit,
    Kind::ThrottleConfigure,
];

const PACKETS: [Kind; 5] = [
    Kind::SendReliable,
    Kind::SendFragment,
    Kind::SendUnreliable,
    Kind::SendUnreliableFragment,
    Kind::SendUnsequenced,
];

/// What a timeline holds, in words: how much of everything, and the same of each connection that is shown, whose parts these are. The way leads
/// to the end at which the capture was made, if that is known. An error where there is no memory for it.
pub(crate) fn summarize(
    alloc: Global,
    timeline: &Timeline,
    asked: Filter,
    parts: &[Part],
    at: Option<Way>,
) -> Result<String, AllocError>
    ensures { IfOk result (λ text. Summarizes timeline.now asked parts.now at (string_bytes text)) }
{
    let mut text = String::new(alloc);
    push_whole(&mut text, timeline, asked, parts.len())?;
    for index in 0..parts.len() {
        push_part(alloc, &mut text, &parts[index], timeline.source, at)?;
    }
    Ok(text)
}

/// The lines of the whole, where so many connections are shown.
pub(crate) fn push_whole(
    text: &mut String,
    timeline: &Timeline,
    asked: Filter,
    connections: usize,
) -> Result<(), AllocError>
    ensures { OnOk result (string_bytes text.new ≡ string_bytes text.old ++ whole_text timeline.now asked connections) }
{
    push_counts(text, timeline)?;
    push_unkept(text, timeline.unkept)?;
    push_cut(text, timeline.is_cut)?;
    push_asked(text, asked)?;
    push_first_connections(text, connections)?;
    Ok(())
}

// What is asked for of it, where something is.
fn push_asked(text: &mut String, asked: Filter) -> Result<(), AllocError>
    ensures { OnOk result (string_bytes text.new ≡ string_bytes text.old ++ asked_text asked) }
{
    if is_all(asked) {
        return Ok(());
    }
    push_words_asked(text, asked)
}

fn is_all(asked: Filter) -> bool
    ensures { result ≡ is_all asked }
{
    asked.connection.is_none()
        && asked.channel.is_none()
        && asked.from.is_none()
        && asked.to.is_none()
}

fn push_words_asked(text: &mut String, asked: Filter) -> Result<(), AllocError>
    ensures { OnOk result (string_bytes text.new ≡ string_bytes text.old ++ words_asked_text asked) }
{
    text.push_str("shown of it:")?;
    push_number_asked(text, " connection ", asked.connection)?;
    push_number_asked(text, " channel ", as_number(asked.channel))?;
    push_time_asked(text, " from ", asked.from)?;
    push_time_asked(text, " to ", asked.to)?;
    text.push_str("\n")?;
    Ok(())
}

fn as_number(channel: Option<u8>) -> Option<usize>
    ensures { result ≡ channel }
{
    match channel {
        None => None,
        Some(channel) => Some(usize::from(channel)),
    }
}

fn push_number_asked(text: &mut String, name: &str, asked: Option<usize>) -> Result<(), AllocError>
    ensures { OnOk result (string_bytes text.new ≡ string_bytes text.old ++ number_asked_text name.now asked) }
{
    match asked {
        None => Ok(()),
        Some(number) => write!(text, "{name}{number}"),
    }
}

fn push_time_asked(text: &mut String, name: &str, asked: Option<u64>) -> Result<(), AllocError>
    ensures { OnOk result (string_bytes text.new ≡ string_bytes text.old ++ time_asked_text name.now asked) }
{
    match asked {
        None => Ok(()),
        Some(time) => {
            text.push_str(name)?;
            push_seconds(text, time)
        }
    }
}

// How many datagrams, connections and other packets there are.
fn push_counts(text: &mut String, timeline: &Timeline) -> Result<(), AllocError>
    ensures { OnOk result (string_bytes text.new ≡ string_bytes text.old ++ counts_text timeline.now) }
{
    let datagrams = timeline.datagrams;
    let connections = timeline.connections.len();
    let others = timeline.others;
    write!(
        text,
        "datagrams {datagrams}, connections {connections}, other packets {others}\n"
    )
}

// What isn't told, where something isn't.
fn push_unkept(text: &mut String, unkept: u64) -> Result<(), AllocError>
    ensures { OnOk result (string_bytes text.new ≡ string_bytes text.old ++ unkept_text unkept) }
{
    if unkept == 0 {
        return Ok(());
    }
    write!(
        text,
        "{unkept} datagrams of further connections aren't told\n"
    )
}

// What isn't there.
fn push_cut(text: &mut String, is_cut: bool) -> Result<(), AllocError>
    ensures { OnOk result (string_bytes text.new ≡ string_bytes text.old ++ cut_text is_cut) }
{
    if is_cut {
        text.push_str("the capture is cut short\n")?;
    }
    Ok(())
}

// What isn't drawn.
fn push_first_connections(text: &mut String, connections: usize) -> Result<(), AllocError>
    ensures { OnOk result (string_bytes text.new ≡ string_bytes text.old ++ first_connections_text connections) }
{
    if connections > CONNECTIONS {
        write!(text, "drawn are the first {CONNECTIONS} connections\n")?;
    }
    Ok(())
}

/// The lines of a connection of what is from such a source.
pub(crate) fn push_part(
    alloc: Global,
    text: &mut String,
    part: &Part,
    source: Source,
    at: Option<Way>,
) -> Result<(), AllocError>
    ensures { OnOk result ((told : List ℕ) × (string_bytes text.new ≡ string_bytes text.old ++ told) × TellsPart part.now source at told) }
{
    push_ends(alloc, text, part)?;
    push_datagrams(text, part.seen.as_slice())?;
    push_stops(text, part.seen.as_slice())?;
    push_commands(text, part.marks.as_slice())?;
    push_fates(text, part.marked.as_slice(), at)?;
    push_guess(text, part, source, at)?;
    push_gap(text, longest_gap(part.seen.as_slice()))?;
    push_first_datagrams(text, part.seen.len())?;
    Ok(())
}

// The line that names the ends of a connection.
fn push_ends(alloc: Global, text: &mut String, part: &Part) -> Result<(), AllocError>
    ensures { OnOk result (string_bytes text.new ≡ string_bytes text.old ++ ends_text part.now) }
{
    let left = address_text(alloc, part.connection.left)?;
    let right = address_text(alloc, part.connection.right)?;
    push_names(text, part.index, left.as_str(), right.as_str())?;
    push_began(alloc, text, part.connection.id)?;
    Ok(())
}

fn push_names(text: &mut String, index: usize, left: &str, right: &str) -> Result<(), AllocError>
    ensures { OnOk result (string_bytes text.new ≡ string_bytes text.old ++ names_text index left.now right.now) }
{
    write!(text, "connection {index}: {left} and {right}")
}

// The connect id that began it, where one did.
fn push_began(alloc: Global, text: &mut String, began: Option<u32>) -> Result<(), AllocError>
    ensures { OnOk result (string_bytes text.new ≡ string_bytes text.old ++ began_text began) }
{
    match began {
        None => push_end(text),
        Some(id) => push_id(alloc, text, id),
    }
}

fn push_end(text: &mut String) -> Result<(), AllocError>
    ensures { OnOk result (string_bytes text.new ≡ string_bytes text.old ++ codes "\n") }
{
    text.push_str("\n")?;
    Ok(())
}

fn push_id(alloc: Global, text: &mut String, id: u32) -> Result<(), AllocError>
    ensures { OnOk result (string_bytes text.new ≡ string_bytes text.old ++ id_text id) }
{
    let id = bytes_text(alloc, &id.to_be_bytes())?;
    text.push_str(", connect id ")?;
    text.push_str(id.as_str())?;
    text.push_str("\n")?;
    Ok(())
}

// The datagrams: how many, and in which time.
fn push_datagrams(text: &mut String, seen: &[Seen]) -> Result<(), AllocError>
    ensures { OnOk result (string_bytes text.new ≡ string_bytes text.old ++ going_text seen.now) }
{
    push_ways(text, seen)?;
    push_seconds(text, lasting(seen))?;
    text.push_str(" s\n")?;
    Ok(())
}

// How many datagrams go to the right and to the left.
fn push_ways(text: &mut String, seen: &[Seen]) -> Result<(), AllocError>
    ensures { OnOk result (string_bytes text.new ≡ string_bytes text.old ++ ways_text seen.now) }
{
    let all = seen.len();
    let right = going(seen, Way::Right);
    let left = going(seen, Way::Left);
    write!(
        text,
        "  {all} datagrams, {right} to the right and {left} to the left, in "
    )
}

// From the first datagram to the last.
fn lasting(seen: &[Seen]) -> u64
    ensures { result ≡ lasting seen.now }
{
    match (seen.first(), seen.last()) {
        (Some(first), Some(last)) => last.at.saturating_sub(first.at),
        _ => 0,
    }
}

fn push_stops(text: &mut String, seen: &[Seen]) -> Result<(), AllocError>
    ensures { OnOk result (string_bytes text.new ≡ string_bytes text.old ++ stops_text seen.now) }
{
    push_stopped(text, seen, Stop::Short)?;
    push_stopped(text, seen, Stop::Compressed)?;
    push_stopped(text, seen, Stop::BadCommand)?;
    Ok(())
}

// How many datagrams can't be read for this reason, where any can't.
fn push_stopped(text: &mut String, seen: &[Seen], stop: Stop) -> Result<(), AllocError>
    ensures { OnOk result (string_bytes text.new ≡ string_bytes text.old ++ stopped_text seen.now stop) }
{
    push_unread(text, stop.label(), stopped_by(seen, stop))
}

fn push_unread(text: &mut String, why: &str, count: usize) -> Result<(), AllocError>
    ensures { OnOk result (string_bytes text.new ≡ string_bytes text.old ++ unread_text why.now count) }
{
    if count == 0 {
        return Ok(());
    }
    write!(text, "  {count} can't be read to their end: {why}\n")
}

fn push_commands(text: &mut String, marks: &[Mark]) -> Result<(), AllocError>
    ensures { OnOk result (string_bytes text.new ≡ string_bytes text.old ++ commands_text marks.now) }
{
    push_all(text, marks.len())?;
    push_kinds(text, marks, &KINDS)?;
    text.push_str("\n  packets:")?;
    push_kinds(text, marks, &PACKETS)?;
    text.push_str("\n")?;
    Ok(())
}

fn push_all(text: &mut String, commands: usize) -> Result<(), AllocError>
    ensures { OnOk result (string_bytes text.new ≡ string_bytes text.old ++ all_text commands) }
{
    write!(text, "  {commands} commands:")
}

// How many commands are of each of these kinds, where any are.
fn push_kinds(text: &mut String, marks: &[Mark], kinds: &[Kind]) -> Result<(), AllocError>
    ensures { OnOk result (string_bytes text.new ≡ string_bytes text.old ++ flat_map (kind_text marks.now) kinds.now) }
{
    for kind in kinds {
        push_kind(text, marks, *kind)?;
    }
    Ok(())
}

fn push_kind(text: &mut String, marks: &[Mark], kind: Kind) -> Result<(), AllocError>
    ensures { OnOk result (string_bytes text.new ≡ string_bytes text.old ++ kind_text marks.now kind) }
{
    push_counted(text, kind.name(), count_of(marks, kind))
}

fn push_counted(text: &mut String, name: &str, count: usize) -> Result<(), AllocError>
    ensures { OnOk result (string_bytes text.new ≡ string_bytes text.old ++ counted_text name.now count) }
{
    if count == 0 {
        return Ok(());
    }
    write!(text, " {name} {count}")
}

// What became of the datagrams that go one way and the other.
fn push_fates(text: &mut String, marked: &[Marked], at: Option<Way>) -> Result<(), AllocError>
    ensures { OnOk result (string_bytes text.new ≡ string_bytes text.old ++ fates_text at marked.now) }
{
    push_outcomes(text, "right", Way::Right, marked)?;
    push_outcomes(text, "left", Way::Left, marked)?;
    push_vain(text, at, Way::Right, in_vain(marked, Way::Right))?;
    push_vain(text, at, Way::Left, in_vain(marked, Way::Left))?;
    push_lost(text, "right", lost(marked, Way::Right))?;
    push_lost(text, "left", lost(marked, Way::Left))?;
    Ok(())
}

// What became of those that go one way.
fn push_outcomes(
    text: &mut String,
    name: &str,
    way: Way,
    marked: &[Marked],
) -> Result<(), AllocError>
    ensures { OnOk result (string_bytes text.new ≡ string_bytes text.old ++ outcomes_text name.now way marked.now) }
{
    let acknowledged = ended(marked, way, Outcome::Acknowledged);
    let unseen = ended(marked, way, Outcome::NoneSeen);
    let left_open = ended(marked, way, Outcome::Open);
    push_ended(text, name, acknowledged, unseen, left_open)?;
    push_resent(text, resent(marked, way), early(marked, way))?;
    Ok(())
}

fn push_ended(
    text: &mut String,
    name: &str,
    acknowledged: usize,
    unseen: usize,
    left_open: usize,
) -> Result<(), AllocError>
    ensures { OnOk result (string_bytes text.new ≡ string_bytes text.old ++ ended_text name.now acknowledged unseen left_open) }
{
    write!(
        text,
        "  to the {name}: acknowledged {acknowledged}; no acknowledgement seen {unseen}; not acknowledged and not sent again {left_open}; "
    )
}

fn push_resent(text: &mut String, resent: usize, early: usize) -> Result<(), AllocError>
    ensures { OnOk result (string_bytes text.new ≡ string_bytes text.old ++ resent_text resent early) }
{
    write!(text, "sent again {resent}, too early {early}\n")
}

// How many that go one way acknowledge what is sent again all the same, where any do.
fn push_vain(text: &mut String, at: Option<Way>, way: Way, count: usize) -> Result<(), AllocError>
    ensures { OnOk result (string_bytes text.new ≡ string_bytes text.old ++ vain_text at way count) }
{
    if count == 0 {
        return Ok(());
    }
    push_vain_count(text, count, way_name(way), vain_words(at, way))
}

fn push_vain_count(
    text: &mut String,
    count: usize,
    name: &str,
    words: &str,
) -> Result<(), AllocError>
    ensures { OnOk result (string_bytes text.new ≡ string_bytes text.old ++ vain_line count name.now words.now) }
{
    write!(
        text,
        "  {count} to the {name} acknowledge what is sent again all the same: {words}\n"
    )
}

// How many that go one way were never delivered, where that is known of any.
fn push_lost(text: &mut String, name: &str, count: usize) -> Result<(), AllocError>
    ensures { OnOk result (string_bytes text.new ≡ string_bytes text.old ++ lost_text name.now count) }
{
    if count == 0 {
        return Ok(());
    }
    write!(text, "  {count} to the {name} never delivered\n")
}

fn way_name(way: Way) -> &'static str
    ensures { result.now ≡ way_name way }
{
    match way {
        Way::Right => "right",
        Way::Left => "left",
    }
}

/// Why what was acknowledged is sent again all the same, by the way of the acknowledgement and the end at which the capture was made, if that
/// is known: an acknowledgement that leads there had arrived.
pub(crate) fn vain_words(at: Option<Way>, way: Way) -> &'static str
    ensures { result.now ≡ vain_words at way }
{
    match at {
        None => "lost or late behind this point, or not yet read",
        Some(end) => {
            if end.is(way) {
                "had arrived, not read in time"
            } else {
                "lost or late"
            }
        }
    }
}

// At which end it was captured, as it seems, where that is asked.
fn push_guess(
    text: &mut String,
    part: &Part,
    source: Source,
    at: Option<Way>,
) -> Result<(), AllocError>
    ensures { OnOk result (string_bytes text.new ≡ string_bytes text.old ++ guess_text source at part.now) }
{
    if !is_guessed(source, at) {
        return Ok(());
    }
    push_seems(text, made_at(part.right, part.left), part.right, part.left)
}

// Whether it is to be guessed at which end it was captured: a capture was, and nobody says where.
fn is_guessed(source: Source, at: Option<Way>) -> bool
    ensures { result ≡ is_guessed source at }
{
    match source {
        Source::Capture => at.is_none(),
        Source::Script | Source::Sockets => false,
    }
}

fn push_seems(
    text: &mut String,
    end: Option<Way>,
    right: Delays,
    left: Delays,
) -> Result<(), AllocError>
    ensures { OnOk result (string_bytes text.new ≡ string_bytes text.old ++ seems_text end right left) }
{
    match end {
        None => push_untold(text),
        Some(end) => push_seen_at(text, end, right, left),
    }
}

fn push_seen_at(text: &mut String, end: Way, right: Delays, left: Delays) -> Result<(), AllocError>
    ensures { OnOk result (string_bytes text.new ≡ string_bytes text.old ++ end_text end right left) }
{
    let soon = shortest_of(delays_from(end, right, left));
    let late = shortest_of(delays_from(end.other(), right, left));
    push_made(text, end, soon, late)
}

// How soon an end acknowledges: what goes there.
fn delays_from(end: Way, right: Delays, left: Delays) -> Delays
    ensures { result ≡ delays_from end right left }
{
    match end {
        Way::Right => right,
        Way::Left => left,
    }
}

fn push_untold(text: &mut String) -> Result<(), AllocError>
    ensures { OnOk result (string_bytes text.new ≡ string_bytes text.old ++ codes "  it can't be told at which end it was captured\n") }
{
    text.push_str("  it can't be told at which end it was captured\n")?;
    Ok(())
}

fn shortest_of(delays: Delays) -> u64
    ensures { result ≡ shortest_of delays }
{
    delays.shortest.unwrap_or(0)
}

// The end, and how soon acknowledgements came from there and from the other end.
fn push_made(text: &mut String, end: Way, soon: u64, late: u64) -> Result<(), AllocError>
    ensures { OnOk result (string_bytes text.new ≡ string_bytes text.old ++ made_text end soon late) }
{
    push_near(text, way_name(end))?;
    push_seconds(text, soon)?;
    text.push_str(" s from there, ")?;
    push_seconds(text, late)?;
    push_far(text, way_name(end.other()))?;
    Ok(())
}

fn push_near(text: &mut String, name: &str) -> Result<(), AllocError>
    ensures { OnOk result (string_bytes text.new ≡ string_bytes text.old ++ near_text name.now) }
{
    write!(
        text,
        "  captured at the {name} end, as it seems: the soonest acknowledgement took "
    )
}

fn push_far(text: &mut String, name: &str) -> Result<(), AllocError>
    ensures { OnOk result (string_bytes text.new ≡ string_bytes text.old ++ far_text name.now) }
{
    write!(text, " s from the {name} end\n")
}

fn push_gap(text: &mut String, gap: Option<(u64, u64)>) -> Result<(), AllocError>
    ensures { OnOk result (string_bytes text.new ≡ string_bytes text.old ++ gap_text gap) }
{
    match gap {
        None => Ok(()),
        Some(gap) => push_longest(text, gap.0, gap.1),
    }
}

fn push_longest(text: &mut String, gap: u64, number: u64) -> Result<(), AllocError>
    ensures { OnOk result (string_bytes text.new ≡ string_bytes text.old ++ longest_text gap number) }
{
    text.push_str("  longest gap: ")?;
    push_seconds(text, gap)?;
    push_before(text, number)?;
    Ok(())
}

fn push_before(text: &mut String, number: u64) -> Result<(), AllocError>
    ensures { OnOk result (string_bytes text.new ≡ string_bytes text.old ++ before_text number) }
{
    write!(text, " s, before datagram {number}\n")
}

// What of it isn't drawn.
fn push_first_datagrams(text: &mut String, datagrams: usize) -> Result<(), AllocError>
    ensures { OnOk result (string_bytes text.new ≡ string_bytes text.old ++ first_datagrams_text datagrams) }
{
    if datagrams > DATAGRAMS {
        write!(text, "  drawn are the first {DATAGRAMS} datagrams\n")?;
    }
    Ok(())
}
