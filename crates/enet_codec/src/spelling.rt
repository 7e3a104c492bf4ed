//! What the definitions of a datagram's spelling promise. These functions have no body: their contracts are laws.

ghost use Rattle.std.specs.Prelude.{◌≡◌, ℕ, ◌<◌, ◌^◌, List, flat_map, IfSome};
ghost use Rattle.std.specs.List.{AllByRecursion};
ghost use Rattle.enet_codec.specs.declared.header.Header.{Header};
ghost use Rattle.enet_codec.specs.Header.{SpellsHeader, header_text, masked};
ghost use Rattle.enet_codec.specs.Message.{IsMessage, Message, Spells, canonical};
ghost use Rattle.enet_codec.specs.Datagram.{SpellsAll, SpellsDatagram};

/// What is written is spelled: a command whose numbers are in their ranges, such commands one after another, and a header, of
/// which the low twelve bits of the peer id and the low two of the session are written.
pub fn what_is_written_is_spelled()
    ensures command { (m : Message) → IsMessage m → Spells (canonical m) m }
    ensures commands { (ms : List Message) → AllByRecursion IsMessage ms → SpellsAll (flat_map canonical ms) ms }
    ensures header { (h : Header) → IfSome h.sent (λ time. time < 2 ^ 16) → SpellsHeader (header_text h) (masked h) }
{}

/// No bytes spell two lists of commands, nor two datagrams: what is read is what was written.
pub fn one_datagram()
    ensures commands { (bytes : List ℕ) (ms ns : List Message) → SpellsAll bytes ms → SpellsAll bytes ns → ms ≡ ns }
    ensures datagram { (bytes : List ℕ) (g h : Header) (ms ns : List Message) → SpellsDatagram bytes g ms → SpellsDatagram bytes h ns → (g ≡ h) × (ms ≡ ns) }
{}
