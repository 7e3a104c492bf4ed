//! What `inspect`, `lab` and `demo` draw where they are told `--timeline`.

use crate::failure::Failure;
use crate::reading::read_input;
use enet_captured::{Filter, Timeline, Way, read_timeline};
use enet_console::{Asked, End};
use enet_text::InspectFault;
use enet_timeline::show;
use std::io::Write;
use std::rt::Files;
use std::{fs, io};

/// Draws what is asked for of the capture of a file, or of standard input, into the file that `picture` names, and tells it on standard output.
/// A capture that is cut short is drawn up to there.
pub fn draw_capture<R>(
    rt: &R,
    file: Option<String>,
    picture: &str,
    asked: Asked,
    at: Option<End>,
) -> Result<(), Failure>
where
    R: Files + Input + Print + AllocGlobal,
{
    let input = read_input(rt, file)?;
    let timeline = read_timeline(rt.alloc(), input.as_slice()).map_err(Failure::Timeline)?;
    let at = at.map(way_to);
    let shown = show(rt.alloc(), &timeline, filter_of(asked), at)?;
    fs::write(rt, picture, shown.picture.as_str()).map_err(Failure::File)?;
    write_words(rt, shown.summary.as_str())?;
    if timeline.is_cut {
        let packets = timeline.datagrams.saturating_add(timeline.others);
        return Err(Failure::Inspect(InspectFault::CutShort(packets)));
    }
    Ok(())
}

/// Draws all of a timeline into the file that `picture` names. The way leads to the end at which it was noted, if it was at one.
pub fn draw_all<R>(
    rt: &R,
    picture: &str,
    timeline: &Timeline,
    at: Option<Way>,
) -> Result<(), Failure>
where
    R: Files + AllocGlobal,
{
    let all = Filter {
        connection: None,
        channel: None,
        from: None,
        to: None,
    };
    let shown = show(rt.alloc(), timeline, all, at)?;
    fs::write(rt, picture, shown.picture.as_str()).map_err(Failure::File)
}

// No connection of a capture has the number that a machine of fewer bits couldn't hold.
fn filter_of(asked: Asked) -> Filter {
    Filter {
        connection: asked
            .connection
            .map(|index| usize::try_from(index).unwrap_or(usize::MAX)),
        channel: asked.channel,
        from: asked.from,
        to: asked.to,
    }
}

// The way that leads to an end.
fn way_to(end: End) -> Way {
    match end {
        End::Left => Way::Left,
        End::Right => Way::Right,
    }
}

fn write_words<R: Print>(rt: &R, words: &str) -> Result<(), Failure> {
    let mut writer = io::writer(rt);
    let written = writer.write_all(words.as_bytes());
    match (written, writer.flush()) {
        (Ok(()), Ok(())) => Ok(()),
        _ => Err(Failure::Io),
    }
}
