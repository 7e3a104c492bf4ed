//! Which datagrams ask for a connection.
ghost use Rattle.std.specs.Prelude.{◌≡◌, ℕ, IfSome, IfNone};
ghost use Rattle.enet_codec.specs.Message.{view};
ghost use Rattle.enet_guard.specs.Asking.{Asks};
ghost use Rattle.enet_guard.specs.Private.Ids.{id_in};

use enet_codec::{Command, NO_PEER, read_command, read_header};

/// The connect id of a datagram that asks for a connection: a header that names no slot, and a CONNECT, whatever follows. None for every
/// other datagram. Takes no memory.
pub fn asks(bytes: &[u8]) -> Option<u32>
    ensures asks { IfSome result (Asks bytes.now) }
    ensures only { IfNone result ((connect_id : ℕ) → Asks bytes.now connect_id → ⊥) }
{
    let (header, len) = read_header(bytes)?;
    if header.peer != NO_PEER {
        return None;
    }
    let (command, _) = read_command(&bytes[len..])?;
    connect_id_of(command)
}

fn connect_id_of(command: Command<'_>) -> Option<u32>
    ensures { result ≡ id_in (view command.entry).body }
{
    match command {
        Command::Connect { offer, .. } => Some(offer.connect_id),
        _ => None,
    }
}
