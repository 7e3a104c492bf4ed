//! What the address of a peer sent for it, and what it got: so a host answers nobody at length who may not be there.

ghost use Rattle.std.specs.Prelude.{◌≡◌, IfOk, IfErr, replicate};
ghost use Rattle.enet_host.specs.Crediting.{came, is_short, is_short_at, no_credit, size_of, went, with_came, with_went};
ghost use Rattle.enet_host.specs.Private.Crediting.{offered, with_offer};

use enet_codec::Refusal;
use std::alloc::Global;

/// Bytes of a datagram's headers of IP and UDP.
const HEADERS: u32 = 28;

/// Bytes of the datagram that answers a CONNECT, with those.
const ANSWER: u32 = 76;

/// How much an address gets for each byte that it sent, before it is known that somebody is there.
const FACTOR: u64 = 3;

/// Bytes that came from the address of a slot's peer for it, and that went there, since a CONNECT began that peer; the headers of IP and
/// UDP count too. Each number stops at its greatest value. Of a peer that we asked for its connection they go on from those of the
/// slot's last one, and nothing looks at them.
#[derive(Clone, Copy)]
pub struct Credit {
    pub came: u32,
    pub went: u32,
}

/// The bytes that a datagram of so many has with its headers, at most the greatest number of 32 bits.
fn size_of(len: usize) -> u32
    ensures { result ≡ size_of len }
{
    u32::try_from(len)
        .unwrap_or(u32::MAX)
        .saturating_add(HEADERS)
}

impl Credit {
    /// Nothing came and nothing went.
    pub(crate) fn none() -> Credit
        ensures { result ≡ no_credit }
    {
        Credit { came: 0, went: 0 }
    }

    /// A datagram of so many bytes came.
    fn with_came(self, len: usize) -> Credit
        ensures { result ≡ came len self }
    {
        Credit {
            came: self.came.saturating_add(size_of(len)),
            ..self
        }
    }

    /// A datagram of so many bytes went.
    fn with_went(self, len: usize) -> Credit
        ensures { result ≡ went len self }
    {
        Credit {
            went: self.went.saturating_add(size_of(len)),
            ..self
        }
    }

    /// A CONNECT of so many bytes came: of the peer that is there, or of one that begins by it.
    fn with_offer(self, is_known: bool, len: usize) -> Credit
        ensures { result ≡ offered is_known len self }
    {
        if is_known {
            self.with_came(len)
        } else {
            Credit::none().with_came(len)
        }
    }

    /// Whether another answer would bring what went above three times what came.
    pub(crate) fn is_short(self) -> bool
        ensures { result ≡ is_short self }
    {
        u64::from(self.came) * FACTOR < u64::from(self.went) + u64::from(ANSWER)
    }
}

/// So many slots, for which nothing came and nothing went. E1 where memory is refused.
pub(crate) fn no_credits(alloc: Global, count: u16) -> Result<Vec<Credit>, Refusal>
    ensures credits { IfOk result (λ credits. credits.items ≡ replicate count no_credit) }
    ensures memory { IfErr result (λ why. why ≡ Refusal.Memory) }
{
    let Ok(credits) = vec![in alloc; Credit::none(); usize::from(count)] else {
        return Err(Refusal::Memory);
    };
    Ok(credits)
}

/// A datagram of so many bytes came for the peer of the slot of this number.
pub(crate) fn count_came(credits: &mut Vec<Credit>, number: usize, len: usize)
    ensures { credits.new.items ≡ with_came credits.old.items number len }
{
    if let Some(credit) = credits.get_mut(number) {
        *credit = credit.with_came(len);
    }
}

/// A CONNECT of so many bytes came for the slot of this number: of the peer that it holds, or of one that began by it.
pub(crate) fn count_offer(credits: &mut Vec<Credit>, number: usize, is_known: bool, len: usize)
    ensures { credits.new.items ≡ with_offer credits.old.items number is_known len }
{
    if let Some(credit) = credits.get_mut(number) {
        *credit = credit.with_offer(is_known, len);
    }
}

/// A datagram of so many bytes went out from the slot of this number.
pub(crate) fn count_went(credits: &mut Vec<Credit>, number: usize, len: usize)
    ensures { credits.new.items ≡ with_went credits.old.items number len }
{
    if let Some(credit) = credits.get_mut(number) {
        *credit = credit.with_went(len);
    }
}

/// Whether the address of the peer of the slot of this number sent too little for another answer.
pub(crate) fn is_short_at(credits: &[Credit], number: usize) -> bool
    ensures { result ≡ is_short_at credits.now number }
{
    match credits.get(number) {
        Some(credit) => credit.is_short(),
        None => Credit::none().is_short(),
    }
}
