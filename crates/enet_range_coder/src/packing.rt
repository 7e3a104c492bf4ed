//! Coding a body.

ghost use Rattle.std.specs.Prelude.{◌≡◌, ◌+◌, ◌<◌, ◌≤◌, ◌++◌, length, take, IfSome, IfNone, Some, List, ℕ};
ghost use Rattle.enet_range_coder.specs.Code.{code_of, coded_whole};
ghost use Rattle.enet_range_coder.specs.Private.Meant.{said};

use crate::coder::Coder;
use crate::interval::{Coded, Interval};

impl Coder {
    /// Codes `body` to the front of `out`, and says in how many bytes, at least one. None where there is no room for them, or nothing to
    /// code: of an empty body libenet makes no code, too.
    pub fn compress(&mut self, body: &[u8], out: &mut [u8]) -> Option<usize>
        // The answer stays within the buffer, and is never that there are no bytes.
        ensures within { IfSome result (λ n. n ≤ length out.old) }
        ensures some { IfSome result (λ n. 0 < n) }
        // What is answered is the body's code.
        ensures codes { IfSome result (λ n. code_of body.now ≡ Some (take n out.new)) }
        // It is refused where there is none, or no room for it.
        ensures refuses { IfNone result ((code : List ℕ) → code_of body.now ≡ Some code → length out.old < length code) }
    {
        if body.is_empty() {
            return None;
        }
        self.pack(body, out)
    }

    // The same of any bytes, also none.
    fn pack(&mut self, body: &[u8], out: &mut [u8]) -> Option<usize>
        ensures within { IfSome result (λ n. n ≤ length out.old) }
        ensures codes { IfSome result (λ n. coded_whole body.now ≡ Some (take n out.new)) }
        ensures refuses { IfNone result ((code : List ℕ) → coded_whole body.now ≡ Some code → length out.old < length code) }
    {
        self.clear();
        let mut interval = Interval::whole();
        let mut at: usize = 0;
        for byte in body {
            let coded = self.code(*byte, interval)?;
            at = append(out, at, &coded)?;
            interval = coded.interval;
            self.learn(*byte);
        }
        append(out, at, &Coded::at(interval).end(4))
    }
}

/// Writes the bytes that were put out behind the first `at`, and says where they end. None where there is no room.
fn append(out: &mut [u8], at: usize, coded: &Coded) -> Option<usize>
    requires within { at ≤ length out.old }
    requires count { coded.now.count ≤ 9 }
    ensures within { IfSome result (λ n. n ≤ length out.old) }
    ensures appended { IfSome result (λ n. take n out.new ≡ take at out.old ++ said coded.now) }
    ensures none { IfNone result (length out.old < at + length (said coded.now)) }
{
    if out.len() - at < coded.count {
        return None;
    }
    for i in 0..coded.count {
        out[at + i] = coded.bytes[i];
    }
    Some(at + coded.count)
}
