//! Texts: the language of scripts (the words of a line, the texts of answers), and datagrams of ENet 1.3 in words, for whoever looks at what
//! a game sent.
//!
//! Proved, by the definitions of specs/: which words a line has, up to a comment (`first_word`, `word`, `one` to `five`, `end`); which
//! number, peer, address, connect id or bytes a word spells, in hex or as text in quotes, and that no other word spells one (`u8_of` and its
//! kin); the text of each answer. What is told of a datagram (`describe`, by `Describes` over the definitions of `enet_codec`): its header,
//! each command that the bytes behind it spell, one after another, with all its fields, its packet's bytes in quotes where they are text
//! (`body_text`), and from which byte on and why the rest can't be read;
//! what a line in hex spells (`read_line`). What `inspect` writes of an input, over a reader and a writer that tell their bytes (`IsTold`):
//! of lines in hex the text of each datagram, in order, numbered from 0 on, and which line is the first that can't be read; of a capture
//! the packets that stand in it, one after another, each told as a datagram whose bytes stand in it, with its time, or counted in the last
//! line, and where it is cut short. Where memory is wanting, what was written is a part of that from its beginning.
//! Only tested, by scripts/rows and scripts/check/check-inspect.sh: that the texts find memory; that the lines tell of 446 captured
//! datagrams what their remarks say; which packets of a capture are datagrams, which of their bytes, and between which addresses. Neither:
//! what was written before reading or writing failed.
#![tactic(auto)]

mod answers;
mod body;
mod datagram;
mod fault;
mod inspecting;
mod line;
mod pcap;
mod pushing;
mod quotes;
mod texts;
mod words;

pub use answers::{address_text, bytes_text, event_text, peer_text, received_text, refusal_text};
pub use body::{Bodies, body_text};
pub use datagram::{describe, why_unread};
pub use fault::InspectFault;
pub use inspecting::inspect;
pub use line::{Line, read_line};
pub use pcap::{Captured, Datagram, Format, datagram_in, is_capture, read_format, read_packet};
pub use words::{
    bytes_of, bytes_word, end, first_word, five, four, id_of, ip_of, one, peer_of, peer_word,
    three, two, u8_of, u8_word, u16_of, u32_of, u32_word, u64_of, u64_word, word,
};
