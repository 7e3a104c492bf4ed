//! Bodies of packets that came.

ghost use Rattle.std.specs.Prelude.{◌≡◌, ◌≤◌, length, IfOk};

use bytes::{Bytes, BytesMut};
use std::alloc::{AllocError, Global};

/// A body of at most so many bytes shares a block with others.
const SHORT: usize = 128;

/// How many bytes such a block has, at least.
const BLOCK: usize = 512;

/// Where the short bodies of one peer's packets are put one behind another, so that memory is asked for once for many of them, and
/// mostly not at all: once nobody has a body of the last block any more, that is used again. Contracts see nothing of it.
#[derive(Drop)]
pub struct Bodies {
    /// The last block, from the first byte on that is no body's.
    block: Option<Box<BytesMut>>,
}

impl Bodies {
    /// No block yet.
    pub fn new() -> Bodies {
        Bodies { block: None }
    }

    /// A body of these bytes. One of up to 128 bytes may have a block of 512 with others, which stays as long as one of them does. An error
    /// where memory is refused.
    pub fn body(&mut self, alloc: Global, bytes: &[u8]) -> Result<Bytes, AllocError>
        ensures { IfOk result (λ body. body ≡ bytes.now) }
    {
        if bytes.is_empty() || bytes.len() > SHORT {
            return Bytes::copy_from_slice(alloc, bytes);
        }
        if let Some(block) = &mut self.block {
            return put(block, bytes);
        }
        let mut block = Box::new(alloc, BytesMut::new(alloc))?;
        let body = put(&mut block, bytes)?;
        self.block = Some(block);
        Ok(body)
    }
}

/// Puts a body behind those that the block has, or into another block where it has no more room.
fn put(block: &mut BytesMut, bytes: &[u8]) -> Result<Bytes, AllocError>
    requires { length bytes.now ≤ 128 }
    ensures { IfOk result (λ body. body ≡ bytes.now) }
{
    block.clear();
    if block.capacity() < bytes.len() {
        block.reserve(BLOCK)?;
    }
    block.extend_reserved(bytes);
    block.freeze_to(bytes.len())
}
