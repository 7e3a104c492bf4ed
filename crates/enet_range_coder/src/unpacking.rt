//! Opening a body.

ghost use Rattle.std.specs.Prelude.{◌≡◌, ◌<◌, ◌≤◌, length, take, IfSome};
ghost use Rattle.enet_range_coder.specs.Code.{answered, body_of, opened_whole};
ghost use Rattle.enet_range_coder.specs.Private.Span.{IsWide};
ghost use Rattle.enet_range_coder.specs.Body.{strip, is_end};
ghost use Rattle.enet_range_coder.specs.Private.Meant.{span_meant, said, rest_meant};

use crate::coder::Coder;
use crate::interval::{Coded, Interval};

impl Coder {
    /// Opens `code` to the front of `out`, and says into how many bytes, at least one. None where no encoder made it, or where there is no
    /// room. No encoder makes a code of no bytes; libenet answers 0 there, as to all that it refuses.
    pub fn decompress(&mut self, code: &[u8], out: &mut [u8]) -> Option<usize>
        // The answer stays within the buffer, and is never that there are no bytes.
        ensures within { IfSome result (λ n. n ≤ length out.old) }
        ensures some { IfSome result (λ n. 0 < n) }
        // What is answered is the code's body; where it has none that there is room for, it is refused.
        ensures opens { answered result out.new ≡ body_of (length out.old) code.now }
    {
        if code.is_empty() {
            return None;
        }
        self.unpack(code, out)
    }

    // The same of any bytes, also none.
    fn unpack(&mut self, code: &[u8], out: &mut [u8]) -> Option<usize>
        ensures within { IfSome result (λ n. n ≤ length out.old) }
        ensures opens { answered result out.new ≡ opened_whole (length out.old) code.now }
    {
        self.clear();
        let mut interval = Interval::whole();
        let mut rest = code;
        for at in 0..out.len() {
            if is_end(interval, rest) {
                return Some(at);
            }
            let byte = self.guess(interval, rest)?;
            let coded = self.code(byte, interval)?;
            rest = strip(rest, &coded)?;
            interval = coded.interval;
            self.learn(byte);
            out[at] = byte;
        }
        if is_end(interval, rest) {
            Some(out.len())
        } else {
            None
        }
    }
}

/// Whether this is all that is put out at the end.
fn is_end(interval: Interval, rest: &[u8]) -> bool
    requires { IsWide (span_meant interval) }
    ensures { result ≡ is_end (span_meant interval) rest.now }
{
    if rest.len() > 4 {
        return false;
    }
    match strip(rest, &Coded::at(interval).end(4)) {
        Some(rest) => rest.is_empty(),
        None => false,
    }
}

/// What follows the bytes that were put out. None where others stand there.
fn strip<'a>(code: &'a [u8], coded: &Coded) -> Option<&'a [u8]>
    requires { coded.now.count ≤ 9 }
    ensures { rest_meant result ≡ strip (said coded.now) code.now }
{
    if coded.count > code.len() {
        return None;
    }
    for i in 0..coded.count {
        if code[i] != coded.bytes[i] {
            return None;
        }
    }
    Some(&code[coded.count..])
}
