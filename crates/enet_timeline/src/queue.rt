//! The reliable numbers that wait for their acknowledgement.

ghost use Rattle.std.specs.Prelude.{◌≡◌, ◌<◌, ◌≤◌, position};
ghost use Rattle.enet_timeline.specs.Private.Queues.{is_answer_to, is_of};

use crate::element::{push_dot, push_line, push_words_down};
use crate::labels::push_channel;
use crate::places::{LANES, left_lane, reach_of, right_lane};
use enet_captured::{Fate, Mark, Marked, Told, Way, answers, is_same};
use std::alloc::{AllocError, Global};

/// No more numbers than these are followed at once.
const MOST: usize = 256;

/// A reliable number that waits for its acknowledgement.
#[derive(Clone, Copy)]
pub(crate) struct Waiting {
    told: Told,
    way: Way,
    /// Where it is drawn; `LANES` where it isn't.
    lane: usize,
    /// Since where in the picture.
    since: u64,
    /// Whether it went again.
    is_again: bool,
    /// Whether a datagram that had it was acknowledged, which may not be shown.
    is_acknowledged: bool,
}

/// What waits at both ends, and which lanes are free again from where in the picture on: those of the left end, then those of the right one.
#[derive(Drop)]
pub(crate) struct Queue {
    waiting: Vec<Waiting>,
    free_from: [u64; 2 * LANES],
}

impl Queue {
    /// Nothing waits.
    pub(crate) fn new(alloc: Global) -> Queue {
        Queue {
            waiting: Vec::new(alloc),
            free_from: [0; 2 * LANES],
        }
    }

    /// Follows the commands of a datagram that stands there, and of which that became. What was never delivered ends no bar.
    pub(crate) fn follow(
        &mut self,
        alloc: Global,
        text: &mut String,
        marks: &[Mark],
        one: &Marked,
        y: u64,
    ) -> Result<(), AllocError> {
        let mut undrawn = None;
        for mark in marks {
            if !one.seen.is_lost {
                self.end_answered(text, mark, y)?;
            }
            undrawn = self.follow_one(alloc, text, mark, one.fate, y)?.or(undrawn);
        }
        match undrawn {
            None => Ok(()),
            Some(way) => push_undrawn(alloc, text, self.waiting.as_slice(), way, y),
        }
    }

    // Draws the bar of the number that a command answers, where one waits.
    fn end_answered(&mut self, text: &mut String, mark: &Mark, y: u64) -> Result<(), AllocError> {
        match answered(self.waiting.as_slice(), mark) {
            None => Ok(()),
            Some(place) => {
                let waiting = self.waiting.remove(place);
                push_bar(text, &waiting, y, bar_class(&waiting))
            }
        }
    }

    // Follows a command that may wait for an answer. Its way where it begins to wait and there is no lane for it.
    fn follow_one(
        &mut self,
        alloc: Global,
        text: &mut String,
        mark: &Mark,
        fate: Fate,
        y: u64,
    ) -> Result<Option<Way>, AllocError> {
        if !mark.told.asks {
            return Ok(None);
        }
        let Some(place) = waiting_place(self.waiting.as_slice(), mark) else {
            return self.begin(alloc, text, mark, fate, y);
        };
        let waiting = &mut self.waiting[place];
        waiting.is_again = true;
        waiting.is_acknowledged = waiting.is_acknowledged || fate.is_acknowledged;
        push_again(text, waiting.way, waiting.lane, y)?;
        Ok(None)
    }

    // Takes in a number that goes for the first time.
    fn begin(
        &mut self,
        alloc: Global,
        text: &mut String,
        mark: &Mark,
        fate: Fate,
        y: u64,
    ) -> Result<Option<Way>, AllocError> {
        if self.waiting.len() >= MOST {
            return Ok(None);
        }
        let lane = free_lane(self.waiting.as_slice(), &self.free_from, mark.way, y);
        self.waiting.push(Waiting {
            told: mark.told,
            way: mark.way,
            lane,
            since: y,
            is_again: false,
            is_acknowledged: fate.is_acknowledged,
        })?;
        if lane >= LANES {
            return Ok(Some(mark.way));
        }
        let name = name_of(alloc, mark.told)?;
        self.free_from[slot_of(mark.way, lane)] = y.saturating_add(reach_of(name.len()));
        push_name(text, mark.way, lane, y, name.as_str())?;
        Ok(None)
    }

    /// Draws what waits at the end, down to there: of what was acknowledged the acknowledgement isn't shown.
    pub(crate) fn push_left_over(&self, text: &mut String, y: u64) -> Result<(), AllocError> {
        for waiting in &self.waiting {
            push_bar(text, waiting, y, left_class(waiting))?;
        }
        Ok(())
    }
}

// A number, with its channel.
fn name_of(alloc: Global, told: Told) -> Result<String, AllocError> {
    let mut name = String::new(alloc);
    push_channel(&mut name, told.channel)?;
    let number = told.number;
    write!(name, "{number}")?;
    Ok(name)
}

// The place of a lane among those of both ends.
fn slot_of(way: Way, lane: usize) -> usize
    requires { lane < 12 }
    ensures { result < 24 }
{
    match way {
        Way::Right => lane,
        Way::Left => LANES + lane,
    }
}

// How many numbers wait there that aren't drawn.
fn push_undrawn(
    alloc: Global,
    text: &mut String,
    waiting: &[Waiting],
    way: Way,
    y: u64,
) -> Result<(), AllocError> {
    let more = undrawn(waiting, way);
    let name = format!(in alloc; "+{more}")?;
    push_name(text, way, LANES, y, name.as_str())
}

// Where the number stands that a command answers.
fn answered(queue: &[Waiting], mark: &Mark) -> Option<usize>
    ensures { result ≡ position (is_answer_to mark.now) queue.now }
{
    queue.iter().position(|waiting| !waiting.way.is(mark.way) && answers(mark.told, waiting.told))
}

// Where the number of a command stands.
fn waiting_place(queue: &[Waiting], mark: &Mark) -> Option<usize>
    ensures { result ≡ position (is_of mark.now) queue.now }
{
    queue.iter().position(|waiting| waiting.way.is(mark.way) && is_same(waiting.told, mark.told))
}

// The first lane that none has, and that is free from there on; `LANES` where there is none.
fn free_lane(queue: &[Waiting], free_from: &[u64; 2 * LANES], way: Way, y: u64) -> usize
    ensures { result ≤ 12 }
{
    for lane in 0..LANES {
        if free_from[slot_of(way, lane)] <= y && !is_taken(queue, way, lane) {
            return lane;
        }
    }
    LANES
}

fn is_taken(queue: &[Waiting], way: Way, lane: usize) -> bool {
    queue
        .iter()
        .any(|waiting| waiting.way.is(way) && waiting.lane == lane)
}

// How many numbers that go one way aren't drawn.
fn undrawn(queue: &[Waiting], way: Way) -> usize {
    queue
        .iter()
        .filter(|waiting| waiting.way.is(way) && waiting.lane >= LANES)
        .count()
}

fn left_class(waiting: &Waiting) -> &'static str {
    if waiting.is_acknowledged {
        bar_class(waiting)
    } else {
        "bar open"
    }
}

fn bar_class(waiting: &Waiting) -> &'static str {
    if waiting.is_again { "bar late" } else { "bar" }
}

// Where a lane stands.
fn lane_at(way: Way, lane: usize) -> u64 {
    let lane = lane.min(LANES);
    match way {
        Way::Right => left_lane(lane),
        Way::Left => right_lane(lane),
    }
}

// The bar of a number, down to there.
fn push_bar(text: &mut String, waiting: &Waiting, y: u64, class: &str) -> Result<(), AllocError> {
    if waiting.lane >= LANES {
        return Ok(());
    }
    let x = lane_at(waiting.way, waiting.lane);
    push_line(text, class, (x, waiting.since), (x, y))
}

// A dot where a number goes again.
fn push_again(text: &mut String, way: Way, lane: usize, y: u64) -> Result<(), AllocError> {
    if lane >= LANES {
        return Ok(());
    }
    push_dot(text, "dot", lane_at(way, lane), y)
}

// The name of a number, down along its bar.
fn push_name(
    text: &mut String,
    way: Way,
    lane: usize,
    y: u64,
    name: &str,
) -> Result<(), AllocError> {
    push_words_down(
        text,
        "name",
        lane_at(way, lane).saturating_add(3),
        y.saturating_add(2),
        name,
    )
}
