//! A host may put out a datagram.

ghost use Rattle.std.specs.Prelude.{◌≡◌, ◌+◌, ◌≤◌, [], vec_len, vec_capacity, IfSome, IfNone, IfOk, IfErr, OnErr};
ghost use Rattle.law_network.specs.Headline.{AreEnds};
ghost use Rattle.enet_site.specs.Private.Sites.{with_ends};
ghost use Rattle.enet_site.specs.Private.Turning.{EmitsNothing, EmitsOne, Turns};

use crate::put_out::Turned;
use crate::{Around, MAX_COMMANDS, Records, note};
use enet_codec::{Addr, PeerRef, Refusal};
use enet_host::HostCore;
use law_network::Text;
use std::alloc::Global;

/// The greatest length of a datagram, in bytes.
const MAX_DATAGRAM: usize = 4096;

/// The bytes of the host's next datagram, put into a vector that has room for them: whose it is and where it goes.
fn emit(host: &mut HostCore, room: Vec<u8>) -> Option<(PeerRef, Addr, Vec<u8>)>
    requires empty { room.items ≡ [] }
    requires room { vec_len room + 4096 ≤ vec_capacity room }
    ensures none { IfNone result (EmitsNothing host.old host.new) }
    ensures gives { IfSome result (λ gave. EmitsOne host.old (record { name = gave.0; to = gave.1; text = gave.2.items }) host.new) }
{
    let mut buf = [0; MAX_DATAGRAM];
    let (name, to, len) = host.service(&mut buf)?;
    let mut text = room;
    let _ = text.extend_from_slice(&buf[..len]);
    text.shrink_to_fit();
    Some((name, to, text))
}

/// The host may put out a datagram, which gets the next number where it goes to a host. E1 where memory is refused, with nothing
/// changed.
pub(crate) fn turn<A: Around>(
    host: &mut HostCore,
    own: &mut Records,
    around: &A,
    alloc: Global,
) -> Result<Option<Turned>, Refusal>
    requires { AreEnds (A.hosts around.now) (with_ends host.old own.old.ends) }
    ensures memory { IfErr result (λ why. why ≡ Refusal.Memory) }
    ensures host { OnErr result (host.new ≡ host.old) }
    ensures unchanged { OnErr result (own.new ≡ own.old) }
    ensures turns { IfOk result (λ sent. Turns (A.hosts around.now) (A.numbers around.now) sent
        (record { host = host.old; records = own.old }) (record { host = host.new; records = own.new })) }
{
    let Ok(room) = Vec::with_capacity(alloc, MAX_DATAGRAM) else {
        return Err(Refusal::Memory);
    };
    let Ok(marks) = Vec::with_capacity(alloc, MAX_COMMANDS) else {
        return Err(Refusal::Memory);
    };
    let log = &mut own.log;
    if log.reserve(1).is_err() {
        return Err(Refusal::Memory);
    }
    let Some((name, to, text)) = emit(host, room) else {
        return Ok(None);
    };
    if !around.is_host(to) {
        let text = Text { bytes: text };
        return Ok(Some(Turned::Away { to, text }));
    }
    let number = log.len() as u64;
    let datagram = note(&mut own.ends, around, name, to, text, marks);
    log.push_reserved(datagram);
    Ok(Some(Turned::Sent(number)))
}
