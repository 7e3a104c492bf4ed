//! When a sent command is due for resending, and when its peer has timed out.

ghost use Rattle.std.specs.Prelude.{◌≡◌, ◌+◌, ◌-◌, ◌^◌, ◌<◌, ◌&&◌, ◌||◌, false, nat_le};
ghost use Rattle.enet_rtt.specs.Clock.{since_later};
ghost use Rattle.enet_rtt.specs.Expiry.{expiry, standard_patience, patience_with_defaults, or_default_number};

use crate::clock::elapsed;

/// How long a peer may leave a command unacknowledged before it has timed out (ENet 1.3's timeout limit, minimum and
/// maximum).
#[derive(Clone, Copy, PartialEq, Eq)]
pub struct Patience {
    /// The minimum ends the peer only once 2^(attempts - 1) is this number or more.
    pub limit: u32,
    /// Milliseconds since the command's first send or the last matching acknowledgement, whichever was later, after which two
    /// more sends that aren't acknowledged in time end the peer, the limit being reached.
    pub minimum: u32,
    /// Milliseconds since the command's first send after which a peer ends in any case.
    pub maximum: u32,
}

/// What is to be done with a sent command that is not acknowledged.
#[derive(Clone, Copy, PartialEq, Eq)]
pub enum Expiry {
    /// Nothing: its timeout has not passed.
    No,
    /// It is due for resending.
    Resend,
    /// Its peer has timed out.
    End,
}

impl Patience {
    /// The numbers of ENet 1.3: limit 32, minimum 5,000 ms, maximum 30,000 ms.
    pub fn standard() -> Self
        ensures { result ≡ standard_patience }
    {
        Patience {
            limit: 32,
            minimum: 5_000,
            maximum: 30_000,
        }
    }

    /// These numbers, where a 0 stands for the standard one.
    pub fn with_defaults(limit: u32, minimum: u32, maximum: u32) -> Self
        ensures { result ≡ patience_with_defaults limit minimum maximum }
    {
        let standard = Patience::standard();
        Patience {
            limit: or_default(limit, standard.limit),
            minimum: or_default(minimum, standard.minimum),
            maximum: or_default(maximum, standard.maximum),
        }
    }
}

/// What is to be done at the time `now` with a command that was first sent at `first` and last at `last`, whose timeout
/// in milliseconds is `timeout`, after so many attempts (0 counts as 1), the peer having been heard last at `heard`. Nothing
/// before its timeout has passed since it was last sent. Then the peer ends where the maximum has passed since it was first
/// sent, or where 2^(attempts - 1) is the limit or more and, a timeout before it was last sent, the minimum had passed since it was
/// first sent and since the peer was heard: so two tries that were made after the minimum have failed. Otherwise the command is due
/// for resending (our profile).
pub fn expired(
    patience: &Patience,
    now: u32,
    heard: u32,
    first: u32,
    last: u32,
    timeout: u32,
    attempts: u8,
) -> Expiry
    ensures { result ≡ expiry patience.now now heard (record { first = first; last = last; timeout = timeout; attempts = attempts; due = false }) }
{
    let waited = elapsed(now, last);
    if waited < timeout {
        return Expiry::No;
    }
    let tries = u64::from(waited) + u64::from(timeout);
    let silence = since_later(now, first, heard);
    if gives_up(patience, elapsed(now, first), silence, tries, attempts) {
        Expiry::End
    } else {
        Expiry::Resend
    }
}

// Whether a peer has timed out over a command that went first `age` milliseconds ago, after a silence of so many, of which the last
// two tries took `tries`.
fn gives_up(patience: &Patience, age: u32, silence: u32, tries: u64, attempts: u8) -> bool
    requires { tries < 2 ^ 33 }
    ensures { result ≡ (nat_le patience.now.maximum age || (nat_le patience.now.limit (2 ^ (attempts - 1)) && nat_le (tries + patience.now.minimum) silence)) }
{
    let is_silent = u64::from(silence) >= tries + u64::from(patience.minimum);
    age >= patience.maximum || is_at_limit(attempts, patience.limit) && is_silent
}

// The milliseconds since the later of two moments.
fn since_later(now: u32, a: u32, b: u32) -> u32
    ensures { result ≡ since_later now a b }
{
    elapsed(now, a).min(elapsed(now, b))
}

// Whether 2^(attempts - 1) is the limit or more.
fn is_at_limit(attempts: u8, limit: u32) -> bool
    ensures { result ≡ nat_le limit (2 ^ (attempts - 1)) }
{
    let doublings = attempts.saturating_sub(1);
    doublings >= 32 || 1u32 << doublings >= limit
}

// A number, or its default where it is 0.
fn or_default(number: u32, default: u32) -> u32
    ensures { result ≡ or_default_number number default }
{
    if number == 0 { default } else { number }
}
