//! How a byte is coded, and what byte a code stands for.

ghost use Rattle.std.specs.Prelude.{◌≡◌, ◌+◌, ◌-◌, ◌*◌, ◌<◌, ◌≤◌, ◌==◌, if◌then◌else◌, length, drop, take, slice_index, IfSome};
ghost use Rattle.enet_range_coder.specs.Span.{window};
ghost use Rattle.enet_range_coder.specs.Private.Span.{IsWide};
ghost use Rattle.enet_range_coder.specs.Context.{total, coding, guess, aim, aim_at};
ghost use Rattle.enet_range_coder.specs.Memory.{context_at, contexts, contexts_from};
ghost use Rattle.enet_range_coder.specs.Private.Meant.{span_meant, aim_meant, said, Puts, put_of};

use crate::coder::Coder;
use crate::context::{Aim, Share};
use crate::interval::{Coded, Interval};

/// How many current contexts there are at most.
pub(crate) const CONTEXTS: u8 = 3;

impl Coder {
    /// Codes a byte: an escape from each context that hasn't it, and its part of the first that has.
    pub(crate) fn code(&self, byte: u8, interval: Interval) -> Option<Coded>
        requires { IsWide (span_meant interval) }
        ensures puts { put_of result ≡ coding (contexts self.now) byte (span_meant interval) }
        ensures wide { IfSome result (λ r. IsWide (span_meant r.interval)) }
        ensures count { IfSome result (λ r. r.count ≤ 9) }
    {
        self.code_from(self.here, CONTEXTS, byte, Coded::at(interval))
    }

    /// The same from a context on, of at most `left`.
    fn code_from(&self, context: u16, left: u8, byte: u8, coded: Coded) -> Option<Coded>
        requires wide { IsWide (span_meant coded.interval) }
        requires room { coded.count + 3 * left ≤ 9 }
        ensures puts { Puts coded result (coding (contexts_from left self.now context) byte (span_meant coded.interval)) }
        ensures wide { IfSome result (λ r. IsWide (span_meant r.interval)) }
        ensures count { IfSome result (λ r. r.count ≤ 9) }
    {
        if left == 0 {
            return None;
        }
        let rest = further(context, left);
        let shorter = self.at(context).shorter;
        match self.share_of(context, byte) {
            Share::Found(part) => coded.take(part),
            Share::Escape(part) => match coded.take(part) {
                None => None,
                Some(next) => self.code_from(shorter, rest, byte, next),
            },
            Share::Nothing => self.code_from(shorter, rest, byte, coded),
        }
    }

    /// The byte that the code at the front of `bytes` stands for, if an encoder made it.
    pub(crate) fn guess(&self, interval: Interval, bytes: &[u8]) -> Option<u8>
        requires { IsWide (span_meant interval) }
        ensures { result ≡ guess (contexts self.now) (span_meant interval) bytes.now }
    {
        self.guess_from(self.here, CONTEXTS, Coded::at(interval), bytes)
    }

    /// The same from a context on, of at most `left`.
    fn guess_from(&self, context: u16, left: u8, coded: Coded, bytes: &[u8]) -> Option<u8>
        requires wide { IsWide (span_meant coded.interval) }
        requires room { coded.count + 3 * left ≤ 9 }
        ensures { result ≡ guess (contexts_from left self.now context) (span_meant coded.interval) (drop coded.count bytes.now) }
    {
        if left == 0 {
            return None;
        }
        let rest = further(context, left);
        let shorter = self.at(context).shorter;
        match self.aimed(context, coded, bytes) {
            Aim::At(byte) => Some(byte),
            Aim::Leave(part) => match coded.take(part) {
                None => None,
                Some(next) => self.guess_from(shorter, rest, next, bytes),
            },
            Aim::Pass => self.guess_from(shorter, rest, coded, bytes),
        }
    }

    /// What the code behind what was put out aims at in a context.
    fn aimed(&self, context: u16, coded: Coded, bytes: &[u8]) -> Aim
        requires { coded.count ≤ 9 }
        ensures { aim_meant result ≡ aim_at (context_at self.now context) (aim (span_meant coded.interval) (total (context_at self.now context)) (drop coded.count bytes.now)) }
    {
        let weights = self.weights_of(context);
        let aim = coded
            .interval
            .aim(weights.total, window(bytes, coded.count));
        self.aim_at(context, weights, aim)
    }
}

/// How many contexts may follow a context, of at most `left` with it: none follows the empty one.
fn further(context: u16, left: u8) -> u8
    requires { 0 < left }
    ensures rest { result ≡ (if context == 0 then 0 else left - 1) }
    ensures less { result < left }
{
    if context == 0 { 0 } else { left - 1 }
}

/// Four bytes from `at` on, with zeros behind the last.
pub(crate) fn window(bytes: &[u8], at: usize) -> u64
    requires { at ≤ 9 }
    ensures window { result ≡ window (drop at bytes.now) }
    ensures bound { result < 4294967296 }
{
    let high = byte_at(bytes, at) * 0x100 + byte_at(bytes, at + 1);
    let low = byte_at(bytes, at + 2) * 0x100 + byte_at(bytes, at + 3);
    high * 0x1_0000 + low
}

/// A byte, 0 behind the last.
fn byte_at(bytes: &[u8], at: usize) -> u64
    ensures byte { result ≡ slice_index bytes.now at }
    ensures bound { result < 256 }
{
    if at < bytes.len() {
        bytes[at] as u64
    } else {
        0
    }
}
