//! The numbers that C gets for refusals.

ghost use Rattle.std.specs.Prelude.{◌≡◌};
ghost use Rattle.enet_c.specs.Numbers.{number_of, answered_by};

use enet_host::Refusal;

/// The call did what it is for.
pub(crate) const OK: u32 = 0;

/// The handle holds no host.
pub(crate) const CLOSED: u32 = 32;

/// The handle holds a host already.
pub(crate) const OPEN: u32 = 33;

/// The buffer is too short; nothing has changed.
pub(crate) const SHORT: u32 = 34;

/// No body is staged.
pub(crate) const UNSTAGED: u32 = 35;

/// The last event that was told is no packet's, or none was told yet.
pub(crate) const UNTOLD: u32 = 36;

/// The number in a refusal's name: 1 to 17.
pub(crate) fn number_of(why: Refusal) -> u32
    ensures { result ≡ number_of why }
{
    match why {
        Refusal::Memory => 1,
        Refusal::NoSuchPeer => 2,
        Refusal::NotConnected => 3,
        Refusal::NoSuchChannel => 4,
        Refusal::TooLarge => 5,
        Refusal::WindowEnd => 6,
        Refusal::NoSlot => 7,
        Refusal::BadConfig => 8,
        Refusal::Full => 9,
        Refusal::SeatSpent => 10,
        Refusal::Late => 11,
        Refusal::Earlier => 12,
        Refusal::NoSuchDatagram => 13,
        Refusal::WireFault => 14,
        Refusal::BadScript(_) => 15,
        Refusal::StillHeld => 16,
        Refusal::NoSuchHost => 17,
    }
}

/// 0 for what was done, else the number of the refusal.
pub(crate) fn answer(answered: Result<(), Refusal>) -> u32
    ensures { result ≡ answered_by answered }
{
    match answered {
        Ok(()) => OK,
        Err(why) => number_of(why),
    }
}
