//! What `inspect` tells.

use crate::failure::Failure;
use crate::reading::read_input;
use enet_text::{Bodies, inspect};
use std::io;
use std::rt::Files;

/// Tells the datagrams of a file, or of standard input, with all bytes of each packet or the first of them.
pub fn inspect_input<R>(rt: &R, file: Option<String>, is_full: bool) -> Result<(), Failure>
where
    R: Files + Input + Print + AllocGlobal,
{
    let input = read_input(rt, file)?;
    let bodies = if is_full {
        Bodies::Whole
    } else {
        Bodies::Short
    };
    let mut rest = input.as_slice();
    inspect(rt.alloc(), bodies, &mut rest, &mut io::writer(rt)).map_err(Failure::Inspect)
}
