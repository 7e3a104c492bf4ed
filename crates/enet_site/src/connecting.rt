//! A user asks the other host for a connection.

ghost use Rattle.std.specs.Prelude.{◌≡◌, ℕ, Some, Ok, Err, IfSome, IfNone, IfOk, IfErr, OnErr};
ghost use Rattle.enet_codec.specs.declared.address.Addr.{Addr};
ghost use Rattle.enet_host.specs.Foretelling.{next_name};
ghost use Rattle.law_network.specs.Calls.{Acts};
ghost use Rattle.law_network.specs.Calls as call;
ghost use Rattle.enet_site.specs.Private.Sites.{IsWhole, CallsOn};

use crate::{Records, fresh_end};
use enet_codec::{Addr, PeerRef, Refusal};
use enet_host::HostCore;
use std::alloc::Global;

/// Whom a host asks for a connection, and for what.
#[derive(Clone, Copy)]
pub(crate) struct Question {
    pub address: Addr,
    pub channels: u8,
    /// A word for the other host's user.
    pub info: u32,
    /// The connect id.
    pub word: u32,
}

/// The name of the peer that would ask for so many channels. E8 for none, E7 where no slot is left.
fn asking_peer(host: &HostCore, channels: u8) -> Result<PeerRef, Refusal>
    ensures refused { IfErr result (λ why. (address : Addr) (info word : ℕ) → Acts (call.Connect address channels info word (Err why)) host.now host.now) }
    ensures memory { IfOk result (λ name. (address : Addr) (info word : ℕ) → Acts (call.Connect address channels info word (Err Refusal.Memory)) host.now host.now) }
    ensures next { IfOk result (λ name. next_name host.now.config host.now.slots ≡ Some name) }
{
    if channels == 0 {
        return Err(Refusal::BadConfig);
    }
    match host.next_peer() {
        Some(name) => Ok(name),
        None => Err(Refusal::NoSlot),
    }
}

/// The first refusal but want of memory that asking for so many channels meets.
pub(crate) fn connect_refusal(host: &HostCore, channels: u8) -> Option<Refusal>
    ensures refused { IfSome result (λ why. (address : Addr) (info word : ℕ) → Acts (call.Connect address channels info word (Err why)) host.now host.now) }
    ensures memory { IfNone result ((address : Addr) (info word : ℕ) → Acts (call.Connect address channels info word (Err Refusal.Memory)) host.now host.now) }
{
    match asking_peer(host, channels) {
        Ok(_name) => None,
        Err(why) => Some(why),
    }
}

/// Asks for a connection, which is the next one after so many, and begins its end. E8, E7 and E1 as by the host, with nothing
/// changed.
pub(crate) fn connect(
    host: &mut HostCore,
    own: &mut Records,
    alloc: Global,
    next: u64,
    question: Question,
) -> Result<PeerRef, Refusal>
    requires { IsWhole host.old own.old.ends }
    ensures refused { IfErr result (λ why. Acts (call.Connect question.address question.channels question.info question.word (Err why)) host.old host.old) }
    ensures host { OnErr result (host.new ≡ host.old) }
    ensures unchanged { OnErr result (own.new ≡ own.old) }
    ensures connects { IfOk result (λ name. CallsOn next (call.Connect question.address question.channels question.info question.word (Ok name)) (record { host = host.old; records = own.old }) (record { host = host.new; records = own.new })) }
{
    let name = asking_peer(host, question.channels)?;
    let end = fresh_end(alloc, next, name)?;
    let ends = &mut own.ends;
    if ends.reserve(1).is_err() {
        return Err(Refusal::Memory);
    }
    let made = host.connect(
        question.address,
        question.channels,
        question.info,
        question.word,
    )?;
    ends.push_reserved(end);
    Ok(made)
}
