//! What `inspect` reads.

use crate::failure::Failure;
use enet_pcapng::{is_pcapng, rewrite};
use std::fs;
use std::io::{ErrorKind, Read};
use std::rt::Files;

/// Reads a file, or standard input, to its end. A capture in pcapng is rewritten as a classic one.
pub fn read_input<R>(rt: &R, file: Option<String>) -> Result<Vec<u8>, Failure>
where
    R: Files + Input + AllocGlobal,
{
    let input = match file {
        Some(path) => {
            let mut file = fs::open(rt, path.as_str()).map_err(Failure::File)?;
            read_whole(rt, &mut file)?
        }
        None => read_whole(rt, &mut rt.reader())?,
    };
    if is_pcapng(input.as_slice()) {
        Ok(rewrite(rt.alloc(), input.as_slice())?)
    } else {
        Ok(input)
    }
}

fn read_whole<R: AllocGlobal, S: Read>(rt: &R, reader: &mut S) -> Result<Vec<u8>, Failure> {
    let mut input = Vec::new(rt.alloc());
    match reader.read_to_end(&mut input) {
        Ok(_) => Ok(input),
        Err(error) if error.kind() == ErrorKind::OutOfMemory => Err(Failure::Memory),
        Err(_) => Err(Failure::Io),
    }
}
