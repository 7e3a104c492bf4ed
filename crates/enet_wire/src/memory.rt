//! A wire in memory.
ghost use Rattle.std.specs.Prelude.{◌≡◌, ◌∷◌, [], ◌+◌, ◌<◌, ◌≤◌, Ok, IfOk, IfErr, IfSome, take, length};
ghost use Rattle.enet_wire.specs.WireMemory.{NextIs, Takes, Waits};
ghost use Rattle.enet_wire.specs.Wires.{went};

use crate::journaled::is_answerable;
use crate::told::{Step, Told};
use crate::wire::{SendOutcome, Wire};
use bytes::Bytes;
use enet_codec::{Addr, Refusal};
use std::alloc::Global;
use std::collections::VecDeque;
use std::marker::Model;
use std::sync::Wait;
use std::time::Clock;

/// A wire that does what its script says, step by step, and keeps what its calls did. A step that isn't meant for a call stays
/// in front: then nothing comes, every send is taken, and a wait gives 0.
///
/// A call fails where the script has a fault in front. It fails, too, where there is no memory to keep what it did; the script stays
/// then, and [`MemoryWire::starved`] tells how often that was.
#[derive(Drop)]
pub struct MemoryWire {
    script: VecDeque<Step>,
    told: Vec<Told>,
    failures: u64,
    starved: u64,
}

impl Model for MemoryWire {
    ghost use Rattle.std.specs.Prelude.{◌≤◌};
    ghost use Rattle.enet_wire.specs.WireMemory.{Memory};

    ghost Value = { Memory };

    ghost view = { λ w. record { script = w.script.items; told = w.told.items; faults = w.failures; starved = w.starved } };

    ghost invariant = { λ w. w.starved ≤ w.failures };
}

impl MemoryWire {
    ghost use Rattle.std.specs.Prelude.{◌≡◌};
    ghost use Rattle.enet_wire.specs.WireMemory.{fresh};

    /// A wire with this script.
    pub fn new(alloc: Global, script: VecDeque<Step>) -> MemoryWire
        ensures { result ≡ fresh script.items }
    {
        MemoryWire {
            script,
            told: Vec::new(alloc),
            failures: 0,
            starved: 0,
        }
    }

    /// What its calls did so far, in order.
    pub fn told(&self) -> &[Told]
        ensures { result.now ≡ self.now.told }
    {
        self.told.as_slice()
    }

    /// How many of its calls failed for want of memory.
    pub fn starved(&self) -> u64
        ensures { result ≡ self.now.starved }
    {
        self.starved
    }
}

impl MemoryWire {
    ghost use Rattle.std.specs.Prelude.{◌≡◌, ◌+◌, ◌<◌, Err};
    ghost use Rattle.enet_wire.specs.WireMemory.{Fails};

    // Fails where there is no memory: as the script says, where it has a fault in front.
    fn fail_for_memory<T>(&mut self) -> Result<T, Refusal>
        requires { self.old.faults < 18446744073709551615 }
        ensures answer { result ≡ Err Refusal.WireFault }
        ensures count { self.new.faults ≡ self.old.faults + 1 }
        ensures told { self.new.told ≡ self.old.told }
        ensures fails { Fails self.old self.new }
    {
        if let Some(Step::Fault) = self.script.front() {
            let _ = self.script.pop_front();
        } else {
            self.starved += 1;
        }
        fault(&mut self.failures)
    }
}

impl Wire for MemoryWire {
    ghost use Rattle.std.specs.Prelude.{◌≡◌, ◌≤◌, ◌++◌, ◌<◌, Some, None, Ok, IfOk, OnOk, IfSome, IfErr};
    ghost use Rattle.enet_wire.specs.Wires.{came, went, waited, unless_spent, faults_after, last_fault};
    ghost use Rattle.enet_wire.specs.WireMemory.{NextIs, Takes, Waits, Fails, given_of};

    ghost told = { λ w. Some w.told };

    ghost faults = { λ w. w.faults };

    ghost kept = { λ w. tt };

    fn recv(&mut self, buf: &mut [u8; 4096]) -> Result<Option<(Addr, usize)>, Refusal>
        ensures told { self.new.told ≡ self.old.told ++ unless_spent self.old.faults (came result buf.new) }
        ensures len { IfOk result (λ given. IfSome given (λ d. d.1 ≤ 4096)) }
        ensures answerable { IfOk result (λ given. IfSome given (λ d. 0 < d.0.port)) }
        ensures fault { IfErr result (λ why. why ≡ Refusal.WireFault) }
        ensures faults { self.new.faults ≡ faults_after self.old.faults result }
        ensures spent { self.old.faults ≡ last_fault → (result ≡ Ok None) × (self.new ≡ self.old) }
        ensures script { self.old.faults < last_fault → IfOk result (λ given. NextIs self.old.script (given_of given buf.new) self.new.script) }
        ensures fails { IfErr result (λ why. Fails self.old self.new) }
        ensures fed { OnOk result (self.new.starved ≡ self.old.starved) }
    {
        if self.failures == u64::MAX {
            return Ok(None);
        }
        if self.told.reserve(1).is_err() {
            return self.fail_for_memory();
        }
        match next_datagram(&mut self.script) {
            Ok(Some((from, bytes))) => {
                let len = copy_front(buf, bytes.as_slice());
                self.told.push_reserved(Told::Came { from, bytes });
                Ok(Some((from, len)))
            }
            Ok(None) => {
                self.told.push_reserved(Told::NothingCame);
                Ok(None)
            }
            Err(Broken) => fault(&mut self.failures),
        }
    }

    fn send(&mut self, to: Addr, bytes: &[u8]) -> Result<SendOutcome, Refusal>
        ensures told { self.new.told ≡ self.old.told ++ unless_spent self.old.faults (went to bytes.now result) }
        ensures fault { IfErr result (λ why. why ≡ Refusal.WireFault) }
        ensures faults { self.new.faults ≡ faults_after self.old.faults result }
        ensures spent { self.old.faults ≡ last_fault → (result ≡ Ok SendOutcome.Blocked) × (self.new ≡ self.old) }
        ensures script { self.old.faults < last_fault → IfOk result (λ became. Takes self.old.script became self.new.script) }
        ensures fails { IfErr result (λ why. Fails self.old self.new) }
        ensures fed { OnOk result (self.new.starved ≡ self.old.starved) }
    {
        if self.failures == u64::MAX {
            return Ok(SendOutcome::Blocked);
        }
        let kept = Bytes::copy_from_slice(*self.told.allocator(), bytes);
        let (Ok(bytes), Ok(())) = (kept, self.told.reserve(1)) else {
            return self.fail_for_memory();
        };
        match next_outcome(&mut self.script) {
            Ok(became) => {
                self.told.push_reserved(told_of(became, to, bytes));
                Ok(became)
            }
            Err(Broken) => fault(&mut self.failures),
        }
    }

    fn wait<R: Wait + Clock>(&mut self, _rt: &R) -> Result<u32, Refusal>
        ensures told { self.new.told ≡ self.old.told ++ unless_spent self.old.faults (waited result) }
        ensures fault { IfErr result (λ why. why ≡ Refusal.WireFault) }
        ensures faults { self.new.faults ≡ faults_after self.old.faults result }
        ensures spent { self.old.faults ≡ last_fault → (result ≡ Ok 0) × (self.new ≡ self.old) }
        ensures script { self.old.faults < last_fault → IfOk result (λ ms. Waits self.old.script ms self.new.script) }
        ensures fails { IfErr result (λ why. Fails self.old self.new) }
        ensures fed { OnOk result (self.new.starved ≡ self.old.starved) }
    {
        if self.failures == u64::MAX {
            return Ok(0);
        }
        if self.told.reserve(1).is_err() {
            return self.fail_for_memory();
        }
        match next_wait(&mut self.script) {
            Ok(ms) => {
                self.told.push_reserved(Told::Waited { ms });
                Ok(ms)
            }
            Err(Broken) => fault(&mut self.failures),
        }
    }

    fn failures(&self) -> u64 {
        self.failures
    }
}

// The script says that the call fails.
#[derive(Drop)]
struct Broken;

fn fault<T>(failures: &mut u64) -> Result<T, Refusal>
    requires { failures.old < 18446744073709551615 }
    ensures answer { result ≡ Err Refusal.WireFault }
    ensures count { failures.new ≡ failures.old + 1 }
{
    *failures += 1;
    Err(Refusal::WireFault)
}

// The datagram that is next, cut to 4,096 bytes; one from port 0 is passed over.
fn next_datagram(script: &mut VecDeque<Step>) -> Result<Option<(Addr, Bytes)>, Broken>
    ensures given { IfOk result (λ given. NextIs script.old.items given script.new.items) }
    ensures short { IfOk result (λ given. IfSome given (λ d. length d.1 ≤ 4096)) }
    ensures answerable { IfOk result (λ given. IfSome given (λ d. 0 < d.0.port)) }
    ensures broken { IfErr result (λ b. script.old.items ≡ Step.Fault ∷ script.new.items) }
{
    match script.pop_front() {
        Some(Step::Datagram { from, mut bytes }) => {
            if !is_answerable(from.port) {
                return Ok(None);
            }
            bytes.truncate(4096);
            Ok(Some((from, bytes)))
        }
        Some(Step::Fault) => Err(Broken),
        Some(other) => {
            script.push_front_reserved(other);
            Ok(None)
        }
        None => Ok(None),
    }
}

// What is told of a datagram that was sent.
fn told_of(became: SendOutcome, to: Addr, bytes: Bytes) -> Told
    ensures { result ∷ [] ≡ went to bytes (Ok became) }
{
    match became {
        SendOutcome::Sent => Told::Went { to, bytes },
        SendOutcome::Lost => Told::Lost { to, bytes },
        SendOutcome::Blocked => Told::Blocked { to, bytes },
    }
}

// What becomes of a datagram that is sent.
fn next_outcome(script: &mut VecDeque<Step>) -> Result<SendOutcome, Broken>
    ensures taken { IfOk result (λ became. Takes script.old.items became script.new.items) }
    ensures broken { IfErr result (λ b. script.old.items ≡ Step.Fault ∷ script.new.items) }
{
    match script.pop_front() {
        Some(Step::Lose) => Ok(SendOutcome::Lost),
        Some(Step::Block) => Ok(SendOutcome::Blocked),
        Some(Step::Fault) => Err(Broken),
        Some(other) => {
            script.push_front_reserved(other);
            Ok(SendOutcome::Sent)
        }
        None => Ok(SendOutcome::Sent),
    }
}

fn next_wait(script: &mut VecDeque<Step>) -> Result<u32, Broken>
    ensures waits { IfOk result (λ ms. Waits script.old.items ms script.new.items) }
    ensures broken { IfErr result (λ b. script.old.items ≡ Step.Fault ∷ script.new.items) }
{
    match script.pop_front() {
        Some(Step::Wait { ms }) => Ok(ms),
        Some(Step::Fault) => Err(Broken),
        Some(other) => {
            script.push_front_reserved(other);
            Ok(0)
        }
        None => Ok(0),
    }
}

// Copies the bytes to the front of the buffer.
fn copy_front(buf: &mut [u8; 4096], bytes: &[u8]) -> usize
    requires { length bytes.now ≤ 4096 }
    ensures len { result ≡ length bytes.now }
    ensures front { take result buf.new ≡ bytes.now }
{
    let len = bytes.len();
    buf[..len].copy_from_slice(bytes);
    len
}
