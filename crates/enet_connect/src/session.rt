//! Sessions, by which the datagrams of a slot's connections are told apart.

ghost use Rattle.std.specs.Prelude.{◌≡◌, ◌≢◌, ◌+◌, ◌%◌, ◌<◌};
ghost use Rattle.enet_connect.specs.Session.{new_session};

/// The session, 0 to 3, that a server takes for one that came in CONNECT, where its slot had the session `held`:
/// one more than the received one, modulo 4, where 0xFF stands for the held one; and one more again where that is the
/// held one. So it is never the one that the slot had (our profile).
pub fn next_session(received: u8, held: u8) -> u8
    ensures session { result ≡ new_session received held }
    ensures range { result < 4 }
    ensures advanced { result ≢ held }
{
    let from = if received == 0xFF { held } else { received };
    let next = one_more(from);
    if next == held { one_more(next) } else { next }
}

// The session after one, modulo 4.
fn one_more(session: u8) -> u8
    ensures { result ≡ (session + 1) % 4 }
{
    session.wrapping_add(1) % 4
}
