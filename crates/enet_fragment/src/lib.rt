//! Long packets: how they are cut into fragments, and how a receiver puts the fragments together.
//!
//! Proved: `plan` gives the least number of pieces of at most `mtu - 28` bytes, and none exactly where that is above 16,384
//! (`planned`; clauses `enough`, `least`, `none`). `piece` gives each piece's offset and length, which are those of the
//! pieces in order (`piece_span`), and the pieces one after another are the body (`pieces_make_the_body`). `Assembly::put`
//! and `foresee` answer Bad, Again, Whole or New exactly by the definition `put_outcome`, where Whole is decided by the set
//! of numbers that have come, and `put` changes exactly what `after_put` says, nothing for Again and Bad, and nothing where it
//! can't have memory (E1); `unmark` takes back one piece alone; `is_whole` is that the piece of every number has come; `finish`
//! gives the pieces' bytes in the order of their numbers, and for want of memory hands back the same assembly; `Assembly::new`
//! fails with E1 alone; `word` gives the marks of what has come, 32 to a word. `Marks` has them: each call on the list of
//! marks, exactly. `PartialPacket`, a packet that came or is coming, does the same, but the piece that makes it whole is
//! finished in the call that brings it (`add`), so that handing the body out (`into_body`) takes no memory.
//! `PartialPacket::memory`, what it has taken for its pieces, is at most `memory_bound`: twice the bytes of the pieces that
//! came, 64 for each of them, a bit for each piece of the packet, and 512 bytes. So a piece that comes early takes no room for
//! those before it. `DataCommand::command` is the command on the wire, and what is written so is read again as itself
//! (`what_is_read_was_written`). Where memory is wanting for a huge count, that is E1 at the first piece; for a huge total, at
//! the piece with which half of it has come, or at the last one; never a wrapped size. A piece that is its whole packet may be
//! longer than 4,068 bytes: only of several pieces are lengths judged.
//! Only tested, in `check_numbers` and `check_peer`: that calls succeed with ample memory; by hand, not by the gate, that each
//! allocation may fail (one in `new`, two at most in `put`, two in `finish`).
//! Neither: how much time the calls take, and what the allocator gives for what is asked of it. By the code, `put` copies its
//! piece once and walks over nothing else; but with the piece with which half of the packet has come it copies those before it
//! once more, into room for the whole packet. Where the end of a packet comes last, this room becomes the body of a
//! `PartialPacket`. Else the piece that makes it whole, as `finish` does, copies each byte once more into a body of exactly the
//! packet's length. An assembly from which marks were taken back keeps those pieces' bytes, too.
#![tactic(auto)]

mod assembly;
mod buffer;
mod collected;
mod cutting;
mod data;
mod filled;
mod marks;
mod partial_packet;
mod piece_store;
mod place;

pub use assembly::{Assembly, Put};
pub use cutting::{piece, piece_length, pieces_make_the_body, plan};
pub use data::{DataCommand, what_is_read_was_written};
pub use marks::Marks;
pub use partial_packet::PartialPacket;
pub use place::Place;

/// How many fragments a packet has at most (our profile).
pub const FRAGMENT_LIMIT: u32 = 16_384;

/// How many bytes of a datagram a fragment's payload can't use: 4 of the datagram's header, 24 of the command.
pub const FRAGMENT_OVERHEAD: u32 = 28;
