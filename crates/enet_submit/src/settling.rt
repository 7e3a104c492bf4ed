//! How a queue is settled: the counts are compared, and then the seats' tokens are joined to the drain's.
ghost use Rattle.std.specs.Prelude.{◌≡◌, ◌↔◌, [], length, sum, IsTrue};
ghost use Rattle.std.specs.List.{All, Contains};
ghost use Rattle.crossbeam_queue.specs.Passes.{view, IsPassOf};
ghost use Rattle.enet_submit.specs.Rule.{draining, seats_in, taken_in, log, Among};
ghost use Rattle.enet_submit.specs.Private.Rule.{finished_in};
ghost use Rattle.enet_submit.specs.Words.{seat_of, all_sent, IsFinishedOf, AllBack, HasSent};

use crate::order::Parcel;
use crate::queue::SubmitQueue;
use crate::rule::{Finishes, View};
use crate::token::{Drain, Finished};
use crossbeam_queue::Pass;

pub(crate) fn all_back(queue: &SubmitQueue, drain: &Drain, finished: &[Finished]) -> bool
    requires { seats_in (view drain.now.pass) ≡ queue.now.seats }
    ensures { IsTrue result ↔ AllBack queue.now drain.now finished.now }
{
    for seat in 0..queue.seats {
        if !has_sent(finished, seat, drain.counts[seat as usize]) {
            return false;
        }
    }
    true
}

fn has_sent(finished: &[Finished], seat: u8, count: u32) -> bool
    ensures { IsTrue result ↔ HasSent seat count finished.now }
{
    for f in finished {
        if f.number == seat && f.count == count {
            return true;
        }
    }
    false
}

// The drain's pass, which then knows what each of these seats submitted.
pub(crate) fn take_in(
    queue: &SubmitQueue,
    pass: Pass<Parcel, View>,
    mut finished: Vec<Finished>,
) -> Pass<Parcel, View>
    requires pass { IsPassOf queue.now.ring pass × (view pass ≡ draining (seats_in (view pass)) (seats_in (view pass)) (taken_in (view pass)) []) }
    requires seats { All (IsFinishedOf queue.now) finished.items }
    ensures pass { IsPassOf queue.now.ring result × (view result ≡ draining (seats_in (view pass)) (seats_in (view pass)) (taken_in (view pass)) (finished_in (view result))) }
    ensures known { (f : _) → Contains finished.items f → Among (log (seat_of f) (all_sent f)) (finished_in (view result)) }
{
    let mut pass = pass;
    while let Some(last) = finished.pop() {
        let Finished {
            number: _,
            count: _,
            pass: theirs,
        } = last;
        queue.ring.absorb::<Finishes>(&mut pass, theirs);
    }
    pass
}

pub(crate) fn total_of(counts: &[u32; 16]) -> u64
    ensures len { length counts.now ≡ 16 }
    ensures sum { result ≡ sum counts.now }
{
    let mut total = 0u64;
    for count in counts {
        total += u64::from(*count);
    }
    total
}
