//! The names of refusals and stops.

ghost use Rattle.std.specs.Prelude.{◌≡◌, ◌≢◌, IfSome, IfNone};
ghost use Rattle.enet_codec.specs.Stop.{stop_label, stop_number};
ghost use Rattle.enet_codec.specs.Refusal.{label_of};
ghost use Rattle.enet_c.specs.Numbers.{number_of, Names, Writes};
ghost use Rattle.enet_codec.specs.declared.refusal.Refusal.{Refusal};
ghost use Rattle.enet_codec.specs.declared.stop.Stop.{Stop};

use enet_host::{Refusal, Stop};

/// The name of the refusal with this number, as `E5 TooLarge`, goes to the front of the buffer, and how many bytes it has is
/// answered: 0, with nothing written, where there is no such refusal or the buffer is too short.
#[unsafe(no_mangle)]
pub extern "C" fn gofnjerta_core_error_name(number: u32, name: &mut [u8]) -> usize
    ensures { Names (λ why. number_of why ≡ number) label_of name.old result name.new }
{
    match refusal_numbered(number) {
        Some(why) => written(why.label(), name),
        None => 0,
    }
}

/// The same of a stop, as `S6 BadCommand`.
#[unsafe(no_mangle)]
pub extern "C" fn gofnjerta_core_stop_name(number: u32, name: &mut [u8]) -> usize
    ensures { Names (λ stop. stop_number stop ≡ number) stop_label name.old result name.new }
{
    match stop_numbered(number) {
        Some(stop) => written(stop.label(), name),
        None => 0,
    }
}

/// The refusal with this number.
fn refusal_numbered(number: u32) -> Option<Refusal>
    ensures some { IfSome result (λ why. number_of why ≡ number) }
    ensures none { IfNone result ((why : Refusal) → number_of why ≢ number) }
{
    match number {
        1 => Some(Refusal::Memory),
        2 => Some(Refusal::NoSuchPeer),
        3 => Some(Refusal::NotConnected),
        4 => Some(Refusal::NoSuchChannel),
        5 => Some(Refusal::TooLarge),
        6 => Some(Refusal::WindowEnd),
        7 => Some(Refusal::NoSlot),
        8 => Some(Refusal::BadConfig),
        9 => Some(Refusal::Full),
        10 => Some(Refusal::SeatSpent),
        11 => Some(Refusal::Late),
        12 => Some(Refusal::Earlier),
        13 => Some(Refusal::NoSuchDatagram),
        14 => Some(Refusal::WireFault),
        15 => Some(Refusal::BadScript(0)),
        16 => Some(Refusal::StillHeld),
        17 => Some(Refusal::NoSuchHost),
        _ => None,
    }
}

/// The stop with this number.
fn stop_numbered(number: u32) -> Option<Stop>
    ensures some { IfSome result (λ stop. stop_number stop ≡ number) }
    ensures none { IfNone result ((stop : Stop) → stop_number stop ≢ number) }
{
    match number {
        1 => Some(Stop::Short),
        2 => Some(Stop::Compressed),
        3 => Some(Stop::UnknownPeer),
        4 => Some(Stop::WrongAddress),
        5 => Some(Stop::WrongSession),
        6 => Some(Stop::BadCommand),
        7 => Some(Stop::NotConnected),
        8 => Some(Stop::BadChannel),
        9 => Some(Stop::BadFragment),
        10 => Some(Stop::Waiting),
        11 => Some(Stop::Memory),
        12 => Some(Stop::NoSentTime),
        13 => Some(Stop::NoSlot),
        _ => None,
    }
}

/// Writes a name to the front of a buffer where it fits, and tells how many bytes it has, 0 where it doesn't.
fn written(label: &str, name: &mut [u8]) -> usize
    ensures { Writes label.now name.old result name.new }
{
    let count = label.len();
    if count > name.len() {
        return 0;
    }
    name[..count].copy_from_slice(label.as_bytes());
    count
}
