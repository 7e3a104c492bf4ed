//! The range coder of ENet hosts: an adaptive coder of bytes in contexts of 0, 1 and 2 bytes. It keeps nothing from one body to the next.
//!
//! Proved: the code of a body opens to the body, whatever was in either coder, where there is room for it; and what opens to a body is its
//! code, so that each body has one code, with nothing behind it (`codes_open`). `compress` gives the body's code or refuses, for want of room
//! alone where it has one; `decompress` gives the code's body, and refuses where it has none that there is room for. Both are safe and return
//! for all bytes, and write no more than the buffer holds: `decompress` looks at no more bytes than there is room for, and one, in three
//! contexts each at most, of 256 bytes each at most; `compress` at each byte of the body once.
//! The definitions: `specs/Span` (intervals, and the bytes put out), `Context` (lists of bytes and weights, and how they share out an
//! interval) and `Body` know nothing of the memory; `Memory` says which contexts a memory holds, and `Learning` what it learns, cell by cell.
//! The law is proved of every such memory.
//! Only tested: that these are libenet's codes, by bodies whose codes libenet made, in the trials and in `c/tests/coder.c`; and that three bytes a part
//! are always enough, so that every body has a code. Not promised: libenet's answers to what no coder made.
#![tactic(auto)]

mod cell;
mod chain;
mod coder;
mod coding;
mod context;
mod interval;
mod laws;
mod learning;
mod packing;
mod root;
mod unpacking;

pub use cell::Cell;
pub use coder::Coder;
pub use laws::codes_open;
