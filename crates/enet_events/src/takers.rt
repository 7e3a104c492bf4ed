//! How the takers' passes are made, and joined at the end.

ghost use Rattle.std.specs.Prelude.{◌≡◌, ◌<◌, ◌≤◌, [], IfOk};
ghost use Rattle.std.specs.List.{All};
ghost use Rattle.crossbeam_queue.specs.Passes.{view, IsPassOf};
ghost use Rattle.enet_events.specs.Rule.{posting, taking, known_of, posted_of, takers_of, share, Among};
ghost use Rattle.enet_events.specs.Private.Rule.{made_of};
ghost use Rattle.enet_events.specs.Words.{new_takers};

use crate::numbered::Numbered;
use crate::rule::{Finishes, Makes, Shared, View, Widens};
use crate::token::Taker;
use crossbeam_queue::{Pass, RuledArrayQueue};
use std::alloc::{AllocError, Global};

pub(crate) type Ring = RuledArrayQueue<Numbered, View, Shared>;

// Tells the poster's pass how many takers there are to be.
pub(crate) fn widen(ring: &Ring, pass: &mut Pass<Numbered, View>, takers: u8)
    requires { IsPassOf ring.now pass.old × (view pass.old ≡ posting 0 0 [] []) }
    ensures { IsPassOf ring.now pass.new × (view pass.new ≡ posting takers 0 [] []) }
{
    for _ in 0..takers {
        let _spent = ring.another::<Widens>(pass);
    }
}

pub(crate) fn make_takers(
    alloc: Global,
    ring: &Ring,
    pass: &mut Pass<Numbered, View>,
    takers: u8,
) -> Result<Vec<Taker>, AllocError>
    requires few { takers ≤ 16 }
    requires pass { IsPassOf ring.now pass.old × (view pass.old ≡ posting takers 0 [] []) }
    ensures pass { IfOk result (λ _. IsPassOf ring.now pass.new × (view pass.new ≡ posting takers takers [] [])) }
    ensures takers { IfOk result (λ v. v.items ≡ new_takers (record { table = ring.now.table.shared.table_id; takers = takers }) takers) }
{
    let mut all = Vec::with_capacity(alloc, takers as usize)?;
    for index in 0..takers {
        let theirs = ring.another::<Makes>(pass);
        all.push_reserved(new_taker(index, takers, theirs));
    }
    Ok(all)
}

fn new_taker(index: u8, takers: u8, pass: Pass<Numbered, View>) -> Taker
    requires few { (index < takers) × (takers ≤ 16) }
    requires pass { (pass.me.1 ≡ []) × (view pass ≡ taking takers index []) }
    ensures { result ≡ record { queue = record { table = pass.table_id; takers = takers }; index = index; taken = [] } }
{
    Taker {
        index,
        takers,
        count: 0,
        pass,
    }
}

// Joins the takers' passes to the poster's.
pub(crate) fn take_in(
    ring: &Ring,
    mut pass: Pass<Numbered, View>,
    mut takers: Vec<Taker>,
) -> Pass<Numbered, View>
    requires pass { IsPassOf ring.now pass × (view pass ≡ posting (takers_of (view pass)) (made_of (view pass)) (posted_of (view pass)) []) }
    requires takers { All (λ t. t.queue.table ≡ ring.now.table.shared.table_id) takers.items }
    ensures pass { IsPassOf ring.now result
        × (view result ≡ posting (takers_of (view pass)) (made_of (view pass)) (posted_of (view pass)) (known_of (view result))) }
    ensures known { All (λ t. Among (share t.index t.taken) (known_of (view result))) takers.items }
{
    while let Some(last) = takers.pop() {
        let Taker { pass: theirs, .. } = last;
        ring.absorb::<Finishes>(&mut pass, theirs);
    }
    pass
}
