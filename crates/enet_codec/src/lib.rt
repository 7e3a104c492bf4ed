//! ENet 1.3 datagrams as bytes: the header, the twelve commands, reading and writing them; and the types that all crates share: addresses,
//! packets, refusals and stops, a host's peers, events and settings. Integers on the wire are big-endian. The rules are ENet 1.3's; those
//! of our own profile are marked so.
//!
//! Proved: reading a command is exact (`read_command`: `found`, `only`, `none`): it gives the command that a prefix of the
//! bytes spells and that prefix's length, and None exactly where no prefix spells one. The three that come most often are read without
//! the enum of all by `read_acknowledged` and `read_whole_packet`: what these give a prefix spells, too (`found`), and of their None nothing
//! is said. Writing puts the canonical spelling and changes no other byte, and answers None with nothing changed exactly where it doesn't
//! fit (`write_command`, and for the three that go most often `write_acknowledge`, `write_reliable` and `write_unreliable`: `written`,
//! `fits`, `unchanged`, `spells`). No spelling begins another's, so what was written is read again, whatever follows (`one_spelling`).
//! The same of headers (`read_header`, `write_header`, `one_header`), of lists of commands and of whole datagrams (`what_is_written_is_spelled`, `one_datagram`).
//! What 'spells' means is specs/Message and specs/Header, a line a command. Numbers and names of refusals and stops (`label`,
//! `number`); `Config::standard` gives exactly the stated numbers, and `Config::is_in_range` is exactly the test that opening
//! answers E8 by; `Packet::is_same` compares channel and bytes; `Outward::goes_to` says who gets a packet that goes to several peers.
//! Only tested, by `check_peer`: that these definitions are ENet 1.3's, on 446 captured datagrams of the reference
//! library; in `check_numbers`: worked settings, packets and names. Neither: the text of the derived `Display`.
#![tactic(auto)]

mod address;
mod command;
mod config;
mod event;
mod frequent;
mod header;
mod header_read;
mod header_write;
mod limits;
mod packet;
mod read;
mod refusal;
mod spelling;
mod stop;
mod table;
mod write;

pub use address::Addr;
pub use command::{Command, Fragment, Head, Offer, Verify};
pub use config::{Admission, Config, Secret};
pub use event::{DisconnectMode, Event, Outward, PeerRef, Received};
pub use frequent::{Acknowledged, WholePacket, read_acknowledged, read_whole_packet};
pub use header::Header;
pub use header_read::{one_header, read_header};
pub use header_write::write_header;
pub use limits::{CONTROL_CHANNEL, MAX_CHANNELS, MAX_PEERS, NO_PEER};
pub use packet::{Packet, RELIABLE, UNRELIABLE_FRAGMENT, UNSEQUENCED};
pub use read::{one_spelling, read_command};
pub use refusal::Refusal;
pub use spelling::{one_datagram, what_is_written_is_spelled};
pub use stop::Stop;
pub use write::{write_acknowledge, write_command, write_reliable, write_unreliable};
