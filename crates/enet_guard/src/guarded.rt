//! A wire behind a guard.
ghost use Rattle.std.specs.Prelude.{◌≡◌, ◌<◌, ◌≤◌, true, false, None, Ok, IfOk, IfSome, IfNone, IfErr};
ghost use Rattle.enet_wire.specs.Wires.{faults_after, last_fault};
ghost use Rattle.enet_guard.specs.Guarding.{ruling, HasLearned, Charges};
ghost use Rattle.enet_guard.specs.Passing.{Lets, Refuses, Receives};

use crate::asking::asks;
use crate::guard::{Guard, Rules};
use crate::loads::carried;
use crate::passed_over::{Over, PassedOver};
use crate::register::Register;
use enet_codec::{Addr, Refusal};
use enet_wire::{Journal, Note, SendOutcome, Wire};
use std::alloc::Global;
use std::marker::Model;
use std::sync::{Arc, Wait};
use std::time::Clock;

/// In a call so many datagrams are passed over at most.
const MOST_PASSED_OVER: u32 = 64;

/// A wire that passes over the CONNECTs that its guard doesn't let pass, and what clients send beyond their share. It tells what its own
/// calls did, in a list that clauses alone read: that is what the wire inside told since then, less those datagrams. So nobody has the wire
/// inside take or send a datagram but through the guard.
#[derive(Drop)]
pub struct Guarded<N: Wire> {
    wire: N,
    guard: Guard,
    register: Arc<Register, Global>,
    passed_over: Arc<PassedOver, Global>,
    journal: Journal,
}

impl<N: Wire> Model for Guarded<N> {
    ghost use Rattle.enet_guard.specs.Journals.{BehindGuard, TellsTheRest};

    ghost Value = { BehindGuard N };

    ghost view = { λ g. record { wire = g.wire; guard = g.guard; told = g.journal.told } };

    ghost invariant = { λ g. TellsTheRest (N.told g.wire) g.journal.told };
}

impl<N: Wire + Drop> Guarded<N> {
    ghost use Rattle.std.specs.Prelude.{◌≡◌, ◌++◌, ◌∷◌, [], OnOk, OnErr, IfOk, IfErr};
    ghost use Rattle.std.specs.List.{filter};
    ghost use Rattle.enet_guard.specs.Guarding.{new_guard, is_other};
    ghost use Rattle.enet_guard.specs.Journals.{told_of, TellsTheRest};

    /// The wire of a host of so many slots behind a guard with these rules, to which nothing came. E1 for want of memory.
    pub fn new(alloc: Global, wire: N, rules: Rules, slots: u16) -> Result<Guarded<N>, Refusal>
        ensures wire { IfOk result (λ guarded. guarded.wire ≡ wire) }
        ensures guard { IfOk result (λ guarded. guarded.guard ≡ new_guard rules slots) }
        ensures untold { IfOk result (λ guarded. told_of guarded ≡ []) }
        ensures memory { IfErr result (λ why. why ≡ Refusal.Memory) }
    {
        let guard = Guard::new(alloc, rules, slots)?;
        let Ok(register) = Arc::new(alloc, Register::new(alloc, slots)?) else {
            return Err(Refusal::Memory);
        };
        let Ok(passed_over) = Arc::new(alloc, PassedOver::new(alloc, slots)?) else {
            return Err(Refusal::Memory);
        };
        Ok(Guarded {
            wire,
            guard,
            register,
            passed_over,
            journal: Journal::new(),
        })
    }

    /// The wire inside. It told what is told here, and what was passed over, and nothing else since it is behind the guard.
    pub fn wire(&self) -> &N
        ensures wire { result.now ≡ self.now.wire }
        ensures tells { TellsTheRest (N.told self.now.wire) (told_of self.now) }
    {
        &self.wire
    }

    /// Has the guard let no CONNECT of this address pass from now on ([`Guard::ban`]). E1 for want of memory, and then nothing has changed.
    pub fn ban(&mut self, ip: u32) -> Result<(), Refusal>
        ensures banned { OnOk result (self.new ≡ record self.old { guard = record (self.old.guard) { banned = self.old.guard.banned ++ ip ∷ [] } }) }
        ensures memory { IfErr result (λ why. why ≡ Refusal.Memory) }
        ensures same { OnErr result (self.new ≡ self.old) }
    {
        self.guard.ban(ip)
    }

    /// Has the guard let the CONNECTs of this address pass again, as the rules say ([`Guard::unban`]).
    pub fn unban(&mut self, ip: u32)
        ensures { self.new ≡ record self.old { guard = record (self.old.guard) { banned = filter (is_other ip) self.old.guard.banned } } }
    {
        self.guard.unban(ip);
    }

    /// Where its guard is told who is connected. E1 where so many of it are held that no more can be counted.
    pub fn register(&self) -> Result<Arc<Register, Global>, Refusal>
        ensures { IfErr result (λ why. why ≡ Refusal.Memory) }
    {
        match Arc::try_clone(&self.register) {
            Ok(register) => Ok(register),
            Err(_) => Err(Refusal::Memory),
        }
    }

    /// What tells how much was passed over. E1 where so many of it are held that no more can be counted.
    pub fn passed_over(&self) -> Result<Arc<PassedOver, Global>, Refusal>
        ensures { IfErr result (λ why. why ≡ Refusal.Memory) }
    {
        match Arc::try_clone(&self.passed_over) {
            Ok(passed_over) => Ok(passed_over),
            Err(_) => Err(Refusal::Memory),
        }
    }
}

impl<N: Wire> Wire for Guarded<N> {
    ghost use Rattle.std.specs.Prelude.{◌≡◌, ◌<◌, ◌≤◌, ◌++◌, Some, None, Ok, IfOk, IfSome, IfErr, OnErr};
    ghost use Rattle.enet_wire.specs.Wires.{also, came, went, waited, unless_spent, faults_after, last_fault};
    ghost use Rattle.enet_guard.specs.Guarding.{Ruling, ruling, Waits};
    ghost use Rattle.enet_guard.specs.Passing.{Receives};
    ghost use Rattle.enet_guard.specs.Journals.{told_of};

    ghost told = { λ w. Some (told_of w) };

    ghost faults = { λ w. N.faults w.wire };

    ghost Kept = { Ruling };

    ghost kept = { λ w. ruling w.guard };

    /// None, too, where 64 datagrams were passed over.
    fn recv(&mut self, buf: &mut [u8; 4096]) -> Result<Option<(Addr, usize)>, Refusal>
        ensures told { told_of self.new ≡ told_of self.old ++ unless_spent (N.faults self.old.wire) (came result buf.new) }
        ensures len { IfOk result (λ given. IfSome given (λ d. d.1 ≤ 4096)) }
        ensures answerable { IfOk result (λ given. IfSome given (λ d. 0 < d.0.port)) }
        ensures fault { IfErr result (λ why. why ≡ Refusal.WireFault) }
        ensures faults { N.faults self.new.wire ≡ faults_after (N.faults self.old.wire) result }
        ensures spent { N.faults self.old.wire ≡ last_fault → result ≡ Ok None }
        ensures kept { ruling self.new.guard ≡ ruling self.old.guard }
        ensures receives { Receives (N.told self.old.wire) (N.faults self.old.wire) self.old.guard result buf.new (N.told self.new.wire) self.new.guard }
    {
        let spent = self.wire.failures() == u64::MAX;
        let given = first_passing(&mut self.wire, &mut self.guard, &self.passed_over, buf)?;
        if spent {
            return Ok(given);
        }
        let note = match given {
            Some((from, len)) => Note::GaveOn {
                from,
                bytes: &buf[..len],
            },
            None => Note::NothingCame,
        };
        self.journal = self.journal.and(&note);
        Ok(given)
    }

    /// As the wire behind the guard does.
    fn send(&mut self, to: Addr, bytes: &[u8]) -> Result<SendOutcome, Refusal>
        ensures told { told_of self.new ≡ told_of self.old ++ unless_spent (N.faults self.old.wire) (went to bytes.now result) }
        ensures fault { IfErr result (λ why. why ≡ Refusal.WireFault) }
        ensures faults { N.faults self.new.wire ≡ faults_after (N.faults self.old.wire) result }
        ensures spent { N.faults self.old.wire ≡ last_fault → result ≡ Ok SendOutcome.Blocked }
        ensures kept { ruling self.new.guard ≡ ruling self.old.guard }
        ensures sends { N.told self.new.wire ≡ also (N.told self.old.wire) (unless_spent (N.faults self.old.wire) (went to bytes.now result)) }
        ensures guard { self.new.guard ≡ self.old.guard }
    {
        let spent = self.wire.failures() == u64::MAX;
        let became = self.wire.send(to, bytes)?;
        if spent {
            return Ok(became);
        }
        let note = match became {
            SendOutcome::Sent => Note::TookOn { to, bytes },
            SendOutcome::Lost => Note::Lost { to, bytes },
            SendOutcome::Blocked => Note::Blocked { to, bytes },
        };
        self.journal = self.journal.and(&note);
        Ok(became)
    }

    /// As the wire behind the guard does. Time goes on for the guard, and it is told who is connected; its rules and whom it bans stay.
    fn wait<R: Wait + Clock>(&mut self, rt: &R) -> Result<u32, Refusal>
        ensures told { told_of self.new ≡ told_of self.old ++ unless_spent (N.faults self.old.wire) (waited result) }
        ensures fault { IfErr result (λ why. why ≡ Refusal.WireFault) }
        ensures faults { N.faults self.new.wire ≡ faults_after (N.faults self.old.wire) result }
        ensures spent { N.faults self.old.wire ≡ last_fault → result ≡ Ok 0 }
        ensures kept { ruling self.new.guard ≡ ruling self.old.guard }
        ensures waits { N.told self.new.wire ≡ also (N.told self.old.wire) (unless_spent (N.faults self.old.wire) (waited result)) }
        ensures guard { IfOk result (λ ms. Waits self.old.guard ms self.new.guard) }
        ensures same { OnErr result (self.new.guard ≡ self.old.guard) }
    {
        let spent = self.wire.failures() == u64::MAX;
        let ms = self.wire.wait(rt)?;
        self.guard.tick(ms);
        learn(&mut self.guard, &self.register);
        if !spent {
            self.journal = self.journal.and(&Note::Waited { ms });
        }
        Ok(ms)
    }

    fn failures(&self) -> u64 {
        self.wire.failures()
    }
}

// The next datagram that passes, if it comes behind fewer than 64 that are passed over.
fn first_passing<N: Wire>(
    wire: &mut N,
    guard: &mut Guard,
    passed_over: &PassedOver,
    buf: &mut [u8; 4096],
) -> Result<Option<(Addr, usize)>, Refusal>
    ensures len { IfOk result (λ given. IfSome given (λ d. d.1 ≤ 4096)) }
    ensures answerable { IfOk result (λ given. IfSome given (λ d. 0 < d.0.port)) }
    ensures fault { IfErr result (λ why. why ≡ Refusal.WireFault) }
    ensures faults { N.faults wire.new ≡ faults_after (N.faults wire.old) result }
    ensures spent { N.faults wire.old ≡ last_fault → result ≡ Ok None }
    ensures ruling { ruling guard.new ≡ ruling guard.old }
    ensures receives { Receives (N.told wire.old) (N.faults wire.old) guard.old result buf.new (N.told wire.new) guard.new }
{
    for _over in 0..MOST_PASSED_OVER {
        let Some((from, len)) = wire.recv(buf)? else {
            return Ok(None);
        };
        match judge(guard, from, &buf[..len]) {
            None => return Ok(Some((from, len))),
            Some(over) => passed_over.count(over),
        }
    }
    Ok(None)
}

// Why a datagram is passed over; None where it passes.
fn judge(guard: &mut Guard, from: Addr, bytes: &[u8]) -> Option<Over>
    ensures lets { IfNone result (Lets guard.old from bytes.now guard.new) }
    ensures refuses { IfSome result (λ over. Refuses guard.old from bytes.now guard.new) }
    ensures ruling { ruling guard.new ≡ ruling guard.old }
{
    if guard.has_no_rule() {
        return None;
    }
    let Some(connect_id) = asks(bytes) else {
        return judge_load(guard, from, bytes);
    };
    if guard.lets_pass(from, connect_id) {
        None
    } else {
        Some(Over::Connect)
    }
}

// The same of a datagram that is no CONNECT.
fn judge_load(guard: &mut Guard, from: Addr, bytes: &[u8]) -> Option<Over>
    ensures lets { IfNone result (Charges guard.old from bytes.now true guard.new) }
    ensures refuses { IfSome result (λ over. Charges guard.old from bytes.now false guard.new) }
    ensures ruling { ruling guard.new ≡ ruling guard.old }
{
    if !guard.has_share() {
        return None;
    }
    let (slot, load) = carried(bytes)?;
    let slot = usize::from(slot);
    if guard.lets_bring(from, slot, load) {
        None
    } else {
        Some(Over::Share { slot, load })
    }
}

// Has the guard know who is connected in each slot, where something was told since it last knew.
fn learn(guard: &mut Guard, register: &Register)
    ensures learned { HasLearned guard.old guard.new }
    ensures ruling { ruling guard.new ≡ ruling guard.old }
{
    if !register.has_changed() {
        return;
    }
    for slot in 0..register.len() {
        guard.seat(slot, register.seated(slot));
    }
}
