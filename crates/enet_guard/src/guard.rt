//! The guard: whom it lets pass.
ghost use Rattle.std.specs.Prelude.{◌≡◌, ◌<◌, ◌≤◌, ◌++◌, ◌∷◌, [], length, IfOk, IfErr, slice_get, vec_capacity};
ghost use Rattle.std.specs.List.{filter};
ghost use Rattle.enet_guard.specs.Guarding.{is_below, is_kept, is_known, is_other, is_same};
ghost use Rattle.enet_guard.specs.Private.Room.{most_noted};

use crate::loads::Load;
use crate::share::{Spent, has_left, is_client};
use enet_codec::{Addr, Refusal};
use std::alloc::Global;
use std::marker::Model;

/// A CONNECT that passed is known again for so many milliseconds: for so long, at most, a host keeps a slot for a peer that doesn't answer.
const KNOWN: u64 = 8_000;

/// And it counts against the limits of a second for so many.
const SECOND: u64 = 1_000;

/// So many CONNECTs that passed are known at most, and so many count. There is room for them from the start, so that nobody is kept out for
/// want of memory.
const MOST_NOTED: usize = 16_384;

/// What is allowed. Where None stands there is no limit.
#[derive(Clone, Copy)]
pub struct Rules {
    /// How many CONNECTs of an address (whatever their ports) may pass in a second.
    pub connects_of_address: Option<u32>,
    /// How many CONNECTs may pass in a second in all.
    pub connects: Option<u32>,
    /// How many packets, or pieces of long ones, a client may send in a second. It may send those of two seconds at once.
    pub packets_of_client: Option<u32>,
    /// How many bytes of packets, in the same way.
    pub bytes_of_client: Option<u32>,
}

impl Rules {
    ghost use Rattle.std.specs.Prelude.{◌≡◌};
    ghost use Rattle.enet_guard.specs.Guarding.{no_rules};

    /// No limit.
    pub fn none() -> Rules
        ensures { result ≡ no_rules }
    {
        Rules {
            connects_of_address: None,
            connects: None,
            packets_of_client: None,
            bytes_of_client: None,
        }
    }
}

/// A CONNECT that passed.
#[derive(Clone, Copy)]
pub struct Asked {
    pub address: Addr,
    pub connect_id: u32,
    /// It is noted before this moment.
    pub until: u64,
}

/// Who is connected in a slot.
#[derive(Clone, Copy)]
pub struct Seated {
    pub address: Addr,
    /// The generation of the slot.
    pub generation: u32,
}

/// Decides which CONNECTs pass, and what clients send. A contract sees what it goes by.
#[derive(Drop)]
pub struct Guard {
    rules: Rules,
    banned: Vec<u32>,
    seats: Vec<Option<Seated>>,
    // What the clients have spent, by their slots.
    spent: Vec<Spent>,
    passed: Vec<Asked>,
    recent: Vec<Asked>,
    clock: u64,
}

impl Model for Guard {
    ghost use Rattle.std.specs.Prelude.{◌≤◌, length, vec_capacity};
    ghost use Rattle.enet_guard.specs.Guarding.{Guarding};
    ghost use Rattle.enet_guard.specs.Private.Room.{most_noted};

    ghost Value = { Guarding };

    ghost view = { λ g. record { rules = g.rules; banned = g.banned.items; seats = g.seats.items; spent = g.spent.items; passed = g.passed.items; recent = g.recent.items; clock = g.clock } };

    ghost invariant = { λ g. (length g.passed.items ≤ most_noted) × (length g.recent.items ≤ most_noted)
        × (most_noted ≤ vec_capacity g.passed) × (most_noted ≤ vec_capacity g.recent) };
}

impl Guard {
    ghost use Rattle.std.specs.Prelude.{◌≡◌, ◌<◌, ◌++◌, ◌∷◌, [], ◌&&◌, if◌then◌else◌, length, slice_set, OnOk, OnErr, IfOk, IfErr, count_by};
    ghost use Rattle.std.specs.List.{filter, list_any};
    ghost use Rattle.std.specs.Prelude.{eqb};
    ghost use Rattle.enet_guard.specs.Guarding.{new_guard, has_no_rule, has_share, forgotten, Judges, noted, is_again, has_room, is_other, ruling, ticked, seated, payer, can_pay, charged, spent_now};
    ghost use Rattle.enet_guard.specs.Shares.{unspent, has_left};
    ghost use Rattle.enet_guard.specs.Private.Room.{most_noted};

    /// A guard with these rules for a host of so many slots, to which nothing came, with room for all that it may note. E1 for want of memory.
    pub fn new(alloc: Global, rules: Rules, slots: u16) -> Result<Guard, Refusal>
        ensures new { IfOk result (λ guard. guard ≡ new_guard rules slots) }
        ensures memory { IfErr result (λ why. why ≡ Refusal.Memory) }
    {
        let mut seats = Vec::new(alloc);
        let mut spent = Vec::new(alloc);
        let slots = usize::from(slots);
        if seats.resize(slots, None).is_err() || spent.resize(slots, Spent::nothing(0)).is_err() {
            return Err(Refusal::Memory);
        }
        Ok(Guard {
            rules,
            banned: Vec::new(alloc),
            seats,
            spent,
            passed: with_room(alloc)?,
            recent: with_room(alloc)?,
            clock: 0,
        })
    }

    /// Lets no CONNECT of this address pass from now on. E1 for want of memory, and then nothing has changed.
    pub fn ban(&mut self, ip: u32) -> Result<(), Refusal>
        ensures banned { OnOk result (self.new ≡ record self.old { banned = self.old.banned ++ ip ∷ [] }) }
        ensures memory { IfErr result (λ why. why ≡ Refusal.Memory) }
        ensures same { OnErr result (self.new ≡ self.old) }
    {
        match self.banned.push(ip) {
            Ok(()) => Ok(()),
            Err(_) => Err(Refusal::Memory),
        }
    }

    /// Lets the CONNECTs of this address pass again, as the rules say, however often it was banned.
    pub fn unban(&mut self, ip: u32)
        ensures { self.new ≡ record self.old { banned = filter (is_other ip) self.old.banned } }
    {
        let_go(&mut self.banned, ip);
    }

    /// Whether it has no rule and nobody is banned.
    pub fn has_no_rule(&self) -> bool
        ensures { result ≡ has_no_rule self.now }
    {
        self.rules.connects_of_address.is_none()
            && self.rules.connects.is_none()
            && !self.has_share()
            && self.banned.is_empty()
    }

    /// Whether its rules give clients a share.
    pub(crate) fn has_share(&self) -> bool
        ensures { result ≡ has_share self.now.rules }
    {
        self.rules.packets_of_client.is_some() || self.rules.bytes_of_client.is_some()
    }

    /// Whether what a datagram from there brings to a slot passes, by the share of the client there; then it counts. It passes as long as the
    /// client has something left, and may be more than that. What brings no packet passes, and what isn't of the client in that slot.
    pub fn lets_bring(&mut self, from: Addr, slot: usize, load: Load) -> bool
        ensures passes { result ≡ can_pay self.old (payer self.old from slot load) }
        ensures state { self.new ≡ (if result then charged self.old slot load (payer self.old from slot load) else self.old) }
        ensures ruling { ruling self.new ≡ ruling self.old }
    {
        let Some(spent) = self.payer(from, slot, load) else {
            return true;
        };
        let spent = self.spent_now(spent);
        if !self.has_left(spent) {
            return false;
        }
        if let Some(place) = self.spent.get_mut(slot) {
            *place = spent.and(load);
        }
        true
    }

    // What the client has spent that pays for this; None where nobody pays.
    fn payer(&self, from: Addr, slot: usize, load: Load) -> Option<Spent>
        ensures { result ≡ payer self.now from slot load }
    {
        if self.has_share() && (0 < load.packets && is_client(self.seats.as_slice(), slot, from)) {
            self.spent.get(slot).copied()
        } else {
            None
        }
    }

    // What of it counts still.
    fn spent_now(&self, spent: Spent) -> Spent
        ensures { result ≡ spent_now self.now spent }
    {
        let rules = self.rules;
        spent.at(rules.packets_of_client, rules.bytes_of_client, self.clock)
    }

    // Whether less counts than the rules allow in two seconds.
    fn has_left(&self, spent: Spent) -> bool
        ensures { result ≡ (has_left spent.packets self.now.rules.packets_of_client && has_left spent.bytes self.now.rules.bytes_of_client) }
    {
        has_left(spent.packets, self.rules.packets_of_client)
            && has_left(spent.bytes, self.rules.bytes_of_client)
    }

    // Drops what is too old to count.
    fn forget(&mut self)
        ensures { self.new ≡ forgotten self.old }
    {
        keep_young(&mut self.passed, self.clock);
        keep_young(&mut self.recent, self.clock);
    }

    fn is_banned(&self, ip: u32) -> bool
        ensures { result ≡ list_any (λ b. eqb b ip) self.now.banned }
    {
        self.banned.iter().any(|banned| *banned == ip)
    }

    fn is_again(&self, from: Addr, connect_id: u32) -> bool
        ensures { result ≡ is_again self.now from connect_id }
    {
        self.passed.iter().any(|asked| {
            asked.address.ip == from.ip
                && asked.address.port == from.port
                && asked.connect_id == connect_id
        })
    }

    /// Whether a CONNECT from there, with this connect id, passes; then it counts. One that comes again counts once. It takes no memory.
    pub fn lets_pass(&mut self, from: Addr, connect_id: u32) -> bool
        ensures judges { Judges self.old from connect_id result self.new }
        ensures ruling { ruling self.new ≡ ruling self.old }
    {
        self.forget();
        if self.is_banned(from.ip) {
            return false;
        }
        if self.is_again(from, connect_id) {
            return true;
        }
        if !self.has_room(from.ip) {
            return false;
        }
        self.note(from, connect_id);
        true
    }

    // Whether the rules leave room for another CONNECT of this address.
    fn has_room(&self, ip: u32) -> bool
        ensures { result ≡ has_room self.now ip }
    {
        is_below(self.recent_of(ip), self.rules.connects_of_address)
            && is_below(self.recent.len(), self.rules.connects)
            && self.passed.len() < MOST_NOTED
            && self.recent.len() < MOST_NOTED
    }

    // How many CONNECTs of this address passed in the last second.
    fn recent_of(&self, ip: u32) -> usize
        ensures { result ≡ count_by (λ a. eqb a.address.ip ip) self.now.recent }
    {
        self.recent
            .iter()
            .filter(|asked| asked.address.ip == ip)
            .count()
    }

    // Counts a CONNECT that passes.
    fn note(&mut self, from: Addr, connect_id: u32)
        requires passed { length self.old.passed < most_noted }
        requires recent { length self.old.recent < most_noted }
        ensures { self.new ≡ noted self.old from connect_id }
    {
        let clock = self.clock;
        self.passed.push_reserved(Asked {
            address: from,
            connect_id,
            until: clock.saturating_add(KNOWN),
        });
        self.recent.push_reserved(Asked {
            address: from,
            connect_id,
            until: clock.saturating_add(SECOND),
        });
    }

    /// So many milliseconds have passed.
    pub fn tick(&mut self, ms: u32)
        ensures { self.new ≡ ticked self.old ms }
    {
        self.clock = self.clock.saturating_add(u64::from(ms));
    }

    // Who is connected in a slot has spent nothing.
    fn begin_share(&mut self, slot: usize)
        ensures { self.new ≡ record self.old { spent = slice_set self.old.spent slot (unspent self.old.clock) } }
    {
        if let Some(place) = self.spent.get_mut(slot) {
            *place = Spent::nothing(self.clock);
        }
    }

    /// Tells who is connected in a slot. Where that is somebody new, who is there has spent nothing. A slot that the host doesn't have is
    /// passed over.
    pub fn seat(&mut self, slot: usize, there: Option<Seated>)
        ensures seated { self.new ≡ seated self.old slot there }
        ensures ruling { ruling self.new ≡ ruling self.old }
    {
        if is_known(self.seats.as_slice(), slot, there) {
            return;
        }
        if let Some(place) = self.seats.get_mut(slot) {
            *place = there;
        }
        if there.is_some() {
            self.begin_share(slot);
        }
    }
}

// Drops each that is this address.
fn let_go(banned: &mut Vec<u32>, ip: u32)
    ensures { banned.new.items ≡ filter (is_other ip) banned.old.items }
{
    banned.retain(|banned| *banned != ip);
}

// An empty list with room for all that may be noted.
fn with_room(alloc: Global) -> Result<Vec<Asked>, Refusal>
    ensures empty { IfOk result (λ asked. asked.items ≡ []) }
    ensures room { IfOk result (λ asked. most_noted ≤ vec_capacity asked) }
    ensures memory { IfErr result (λ why. why ≡ Refusal.Memory) }
{
    match Vec::with_capacity(alloc, MOST_NOTED) {
        Ok(asked) => Ok(asked),
        Err(_) => Err(Refusal::Memory),
    }
}

// Keeps those that still count.
fn keep_young(asked: &mut Vec<Asked>, clock: u64)
    ensures kept { asked.new.items ≡ filter (is_kept clock) asked.old.items }
    ensures fewer { length asked.new.items ≤ length asked.old.items }
    ensures room { vec_capacity asked.new ≡ vec_capacity asked.old }
{
    asked.retain(|asked| clock < asked.until);
}

// Whether that was told already of a slot, or there is no such slot.
fn is_known(seats: &[Option<Seated>], slot: usize, there: Option<Seated>) -> bool
    ensures { result ≡ is_known (slice_get seats.now slot) there }
{
    match (seats.get(slot), there) {
        (None, _) => true,
        (Some(None), None) => true,
        (Some(Some(known)), Some(there)) => is_same(known, there),
        _ => false,
    }
}

fn is_same(known: &Seated, there: Seated) -> bool
    ensures { result ≡ is_same known.now there }
{
    known.address.ip == there.address.ip
        && known.address.port == there.address.port
        && known.generation == there.generation
}

fn is_below(count: usize, most: Option<u32>) -> bool
    ensures { result ≡ is_below count most }
{
    match most {
        Some(most) => count < most as usize,
        None => true,
    }
}
