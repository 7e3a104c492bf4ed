//! The queue and its calls.

use crate::account::{Account, account_of};
use crate::numbered::Numbered;
use crate::rule::{Posts, Settles, Takes};
use crate::takers::{Ring, make_takers, take_in, widen};
use crate::token::{Poster, Taker};
use enet_codec::{Event, Refusal};
use std::alloc::Global;
use std::marker::Model;
use std::sync::Wait;

/// A bounded queue of events, for one poster and 1 to 16 takers, with no lock. It is shared by `&` among the threads.
/// A contract sees which queue it is and its capacity.
#[derive(Drop)]
pub struct EventQueue {
    ring: Ring,
    takers: u8,
}

impl Model for EventQueue {
    ghost use Rattle.enet_events.specs.Words.{Queue};

    ghost Value = { Queue };

    ghost use Rattle.std.specs.Prelude.{◌≤◌};
    ghost use Rattle.crossbeam_queue.specs.Passes.{ruled_capacity};

    ghost view = { λ q. record { id = record { table = q.ring.table.shared.table_id; takers = q.takers }; capacity = ruled_capacity q.ring } };

    ghost invariant = { λ q. q.takers ≤ 16 };
}

impl EventQueue {
    ghost use Rattle.std.specs.Prelude.{◌≡◌, ◌<◌, ◌≤◌, ◌++◌, ◌∷◌, [], List, length, OnOk, OnErr, IfOk, IfErr, IfSome, IfNone};
    ghost use Rattle.std.specs.List.{All};
    ghost use Rattle.crossbeam_queue.specs.Fifo.{Held};
    ghost use Rattle.enet_events.specs.Words.{IsInRange, IsNotOpened, new_takers, next, PosterFits, TakerFits, IsNotPosted};
    ghost use Rattle.enet_events.specs.Words.{IsAllTaken, AreCounts, IsSharedOut};

    /// A queue that holds at most `capacity` events (1 to 65,536), its poster, and its 1 to 16 takers in the order of
    /// their indices. E8 where a number is out of range, else E1 where memory ran out. This is the one call that
    /// allocates.
    pub fn open(
        alloc: Global,
        capacity: u32,
        takers: u32,
    ) -> Result<(EventQueue, Poster, Vec<Taker>), Refusal>
        ensures range { OnOk result (IsInRange capacity takers) }
        ensures queue { IfOk result (λ r. (r.0.capacity ≡ capacity) × (r.0.id.takers ≡ takers)) }
        ensures poster { IfOk result (λ r. r.1 ≡ record { queue = r.0.id; posted = [] }) }
        ensures takers { IfOk result (λ r. r.2.items ≡ new_takers r.0.id takers) }
        ensures own { IfOk result (λ r. All (λ t. t.queue ≡ r.0.id) r.2.items) }
        ensures err { IfErr result (IsNotOpened capacity takers) }
    {
        if capacity == 0 || capacity > 65_536 || takers == 0 || takers > 16 {
            return Err(Refusal::BadConfig);
        }
        let takers = takers as u8;
        let Ok((ring, mut pass)) = Ring::ruled(alloc, capacity as usize) else {
            return Err(Refusal::Memory);
        };
        widen(&ring, &mut pass, takers);
        let Ok(all) = make_takers(alloc, &ring, &mut pass, takers) else {
            return Err(Refusal::Memory);
        };
        let poster = Poster {
            takers,
            count: 0,
            pass,
        };
        Ok((EventQueue { ring, takers }, poster, all))
    }

    /// Hands an event over under the next number, which it answers: 0 for the first. E10 once 4,294,967,295 events were
    /// posted, else E9 where the queue was full at a moment of the call; then nothing has changed and the event comes
    /// back.
    pub fn post<R: Wait>(
        &self,
        rt: &R,
        poster: &mut Poster,
        event: Event,
    ) -> Result<u64, (Refusal, Event)>
        requires { poster.old.queue ≡ self.now.id }
        ensures own { poster.new.queue ≡ poster.old.queue }
        ensures number { IfOk result (λ n. (n ≡ length poster.old.posted) × (n < 4294967295)) }
        ensures posted { OnOk result (poster.new.posted ≡ poster.old.posted ++ next poster.old event ∷ []) }
        // at the moment of its own step the event is the last that the queue holds
        ensures moment { OnOk result ((held : List _) × PosterFits poster.new (held ++ next poster.old event ∷ [])) }
        ensures refused { IfErr result (λ e. IsNotPosted self.now poster.old e.0) }
        ensures back { IfErr result (λ e. (e.1 ≡ event) × (poster.new.posted ≡ poster.old.posted)) }
    {
        if poster.count >= 4_294_967_295 {
            return Err((Refusal::SeatSpent, event));
        }
        let number = poster.count;
        let item = Numbered { number, event };
        if let Err(back) = self.ring.try_push_as::<Posts>(&mut poster.pass, item) {
            return self.post_again(rt, poster, back.event);
        }
        poster.count = number + 1;
        Ok(number)
    }

    // Hands an event over where the first attempt failed: the queue is full, or a taker is in the way.
    #[cold]
    #[inline(never)]
    fn post_again<R: Wait>(
        &self,
        rt: &R,
        poster: &mut Poster,
        event: Event,
    ) -> Result<u64, (Refusal, Event)>
        requires { (poster.old.queue ≡ self.now.id) × (length poster.old.posted < 4294967295) }
        ensures own { poster.new.queue ≡ poster.old.queue }
        ensures number { IfOk result (λ n. n ≡ length poster.old.posted) }
        ensures posted { OnOk result (poster.new.posted ≡ poster.old.posted ++ next poster.old event ∷ []) }
        ensures moment { OnOk result ((held : List _) × PosterFits poster.new (held ++ next poster.old event ∷ [])) }
        ensures back { IfErr result (λ e. (e.1 ≡ event) × (poster.new.posted ≡ poster.old.posted) × (e.0 ≡ Refusal.Full)) }
        ensures full { OnErr result (Held self.now.capacity (PosterFits poster.old)) }
    {
        let number = poster.count;
        let item = Numbered { number, event };
        match self.ring.push_as::<Posts, R>(rt, &mut poster.pass, item) {
            Ok(()) => {
                poster.count = number + 1;
                Ok(number)
            }
            Err(Numbered { event, .. }) => Err((Refusal::Full, event)),
        }
    }

    /// The oldest event that the queue holds, which leaves it, or None where the queue was empty at a moment of the call.
    /// It doesn't wait for an event.
    pub fn take<R: Wait>(&self, rt: &R, taker: &mut Taker) -> Option<Numbered>
        requires { taker.old.queue ≡ self.now.id }
        ensures own { (taker.new.queue ≡ taker.old.queue) × (taker.new.index ≡ taker.old.index) }
        ensures taken { IfSome result (λ x. taker.new.taken ≡ taker.old.taken ++ x ∷ []) }
        ensures rises { IfSome result (λ x. All (λ y. y.number < x.number) taker.old.taken) }
        // at the moment of its own step the event is the first that the queue holds, and then it holds the others
        ensures moment { IfSome result (λ x. (posted : List _) × (held : List _)
            × TakerFits taker.old posted (x ∷ held) × TakerFits taker.new posted held) }
        ensures none { IfNone result (taker.new.taken ≡ taker.old.taken) }
        ensures empty { IfNone result (Held 0 (λ held. (posted : List _) × TakerFits taker.old posted held)) }
    {
        let item = self.ring.pop_as::<Takes, R>(rt, &mut taker.pass)?;
        taker.count += 1;
        Some(item)
    }

    /// Ends the queue's use: how many events each taker took, once the poster and each taker are back and all that was
    /// posted is taken. Else E16, and all of them come back as they were.
    pub fn settle(
        &self,
        poster: Poster,
        takers: Vec<Taker>,
    ) -> Result<Account, (Refusal, Poster, Vec<Taker>)>
        requires poster { poster.queue ≡ self.now.id }
        requires takers { All (λ t. t.queue ≡ self.now.id) takers.items }
        ensures taken { OnOk result (IsAllTaken poster takers.items) }
        ensures total { IfOk result (λ a. a.total ≡ length poster.posted) }
        ensures counts { IfOk result (λ a. AreCounts poster.queue.takers a.by_taker takers.items) }
        ensures shared { OnOk result (IsSharedOut poster takers.items) }
        ensures held { IfErr result (λ e. (e.0 ≡ Refusal.StillHeld) × ¬ (IsAllTaken poster takers.items)) }
        ensures back { IfErr result (λ e. (e.1 ≡ poster) × (e.2.items ≡ takers.items)) }
    {
        let account = match account_of(takers.as_slice(), self.takers) {
            Some(account) if account.total == poster.count => account,
            _ => return Err((Refusal::StillHeld, poster, takers)),
        };
        let Poster { pass, .. } = poster;
        let mut pass = take_in(&self.ring, pass, takers);
        self.ring.learn_as::<Settles>(&mut pass);
        Ok(account)
    }
}
