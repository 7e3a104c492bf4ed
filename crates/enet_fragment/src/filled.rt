//! Room for exactly so many items, and lists of one value that fill it.

ghost use Rattle.std.specs.Prelude.{◌≡◌, [], IsOk, IfOk, IfErr, replicate};
ghost use Rattle.std.specs.Vec.{vec_capacity};

use enet_codec::Refusal;
use std::alloc::Global;

/// So many copies of a value, in exactly as much room.
pub(crate) fn filled<T: Copy>(alloc: Global, value: T, len: usize) -> Result<Vec<T>, Refusal>
    ensures ok { IfOk result (λ items. items.items ≡ replicate len value) }
    ensures memory { IfErr result (λ why. why ≡ Refusal.Memory) }
{
    let mut items = room_for(alloc, len)?;
    match items.resize(len, value) {
        Ok(()) => Ok(items),
        Err(_) => Err(Refusal::Memory),
    }
}

/// Room for exactly so many items.
pub(crate) fn room_for<T>(alloc: Global, len: usize) -> Result<Vec<T>, Refusal>
    ensures empty { IfOk result (λ items. items.items ≡ []) }
    ensures exact { IfOk result (λ items. vec_capacity items ≡ len) }
    ensures nothing { len ≡ 0 → IsOk result }
    ensures memory { IfErr result (λ why. why ≡ Refusal.Memory) }
{
    match Vec::with_capacity(alloc, len) {
        Ok(items) => Ok(items),
        Err(_) => Err(Refusal::Memory),
    }
}
