//! The range coder.

ghost use Rattle.std.specs.Prelude.{◌≡◌, ◌<◌, ◌≤◌, length, take, Some};
ghost use Rattle.enet_range_coder.specs.Code.{code_of};
ghost use Rattle.enet_c.specs.Packing.{HasNoRoom, Opened};

use enet_range_coder::Coder;
use std::mem;

/// What C reserves for a coder.
const _: () = prove!(mem::size_of::<Coder>() == 41_734);

/// Codes a body to the front of a buffer, and answers in how many bytes: 0 where there is no room for them, or nothing to code. What
/// was in the coder doesn't matter.
#[unsafe(no_mangle)]
pub extern "C" fn gofnjerta_core_compress(coder: &mut Coder, body: &[u8], out: &mut [u8]) -> usize
    ensures within { result ≤ length out.old }
    ensures codes { 0 < result → code_of body.now ≡ Some (take result out.new) }
    ensures refuses { result ≡ 0 → HasNoRoom (length out.old) body.now }
{
    coder.compress(body, out).unwrap_or(0)
}

/// Opens a code to the front of a buffer, and answers into how many bytes: 0 where no coder made it, or its body is longer than the
/// buffer. What was in the coder doesn't matter.
#[unsafe(no_mangle)]
pub extern "C" fn gofnjerta_core_decompress(coder: &mut Coder, code: &[u8], out: &mut [u8]) -> usize
    ensures within { result ≤ length out.old }
    ensures opens { Opened result out.old code.now out.new }
{
    coder.decompress(code, out).unwrap_or(0)
}
