//! Events.

ghost use Rattle.std.specs.Prelude.{◌≡◌, IfNone};
ghost use Rattle.enet_c.specs.Border.{Crosses, Copies, Tells};

use crate::numbers::CLOSED;
use crate::own::Handle;
use crate::shapes::CoreEvent;
use std::alloc::Global;

/// The next event, of kind 0 where there is none. The body of its packet is kept until the next call of this function, and of
/// that alone.
#[unsafe(no_mangle)]
pub extern "C" fn gofnjerta_core_next_event(
    alloc: Global,
    handle: &mut Handle,
    event: &mut CoreEvent,
) -> u32
    ensures tells { Crosses (Tells event.new) handle.old.own.value result handle.new.own.value }
    ensures closed { IfNone handle.old.own.value (event.new ≡ event.old) }
{
    let Some(mut held) = handle.take(alloc) else {
        return CLOSED;
    };
    let number = held.next_event(event);
    handle.put(held);
    number
}

/// Copies the body that is kept to the front of a buffer: 34 where the buffer is shorter than it, 36 where none is kept.
#[unsafe(no_mangle)]
pub extern "C" fn gofnjerta_core_body(alloc: Global, handle: &mut Handle, buffer: &mut [u8]) -> u32
    ensures copies { Crosses (λ c. Copies c.before.told buffer.old c.number buffer.new × (c.after ≡ c.before)) handle.old.own.value result handle.new.own.value }
    ensures closed { IfNone handle.old.own.value (buffer.new ≡ buffer.old) }
{
    let Some(held) = handle.take(alloc) else {
        return CLOSED;
    };
    let number = held.copy_body(buffer);
    handle.put(held);
    number
}
