//! What is shown of a capture.

ghost use Rattle.std.specs.Prelude.{IfOk};
ghost use Rattle.std.specs.String.{string_bytes};
ghost use Rattle.enet_timeline.specs.Shown.{Shows};

use crate::drawing::draw;
use crate::summary::summarize;
use enet_captured::{Filter, Timeline, Way, parts_of};
use std::alloc::{AllocError, Global};

/// What is shown of a capture.
#[derive(Drop)]
pub struct Shown {
    /// What it holds, in words.
    pub summary: String,
    /// The same, drawn as an SVG.
    pub picture: String,
}

/// What passes a filter, in words and as a picture. The way leads to the end at which the capture was made, if that is known. An error where
/// there is no memory for it.
pub fn show(
    alloc: Global,
    timeline: &Timeline,
    asked: Filter,
    at: Option<Way>,
) -> Result<Shown, AllocError>
    ensures { IfOk result (λ shown. Shows timeline.now asked at (string_bytes shown.summary) (string_bytes shown.picture)) }
{
    let parts = parts_of(alloc, timeline, asked)?;
    let summary = summarize(alloc, timeline, asked, parts.as_slice(), at)?;
    let picture = draw(alloc, timeline, asked, parts.as_slice(), at)?;
    Ok(Shown { summary, picture })
}
