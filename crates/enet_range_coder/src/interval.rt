//! The interval of 32 bits that a coder narrows.

ghost use Rattle.std.specs.Prelude.{◌≡◌, ◌+◌, ◌-◌, ◌/◌, ◌<◌, ◌≤◌, max, [], ◌∷◌, ◌++◌, IfSome};
ghost use Rattle.enet_range_coder.specs.Span.{whole, narrowed, is_apart, is_settled, without_top, shifted, put_out, coded, ending};
ghost use Rattle.enet_range_coder.specs.Private.Span.{IsSpan, IsWide, IsCut};
ghost use Rattle.enet_range_coder.specs.Private.Meant.{span_meant, cut_meant, said, Puts};

use crate::context::Part;

/// The places of the top byte.
const TOP: u64 = 1 << 24;

/// The least range that a part may be taken of.
const BOTTOM: u64 = 1 << 16;

/// The numbers from `low` on, below `low + range`, which is 2 ^ 32 at most.
#[derive(Clone, Copy)]
pub(crate) struct Interval {
    pub(crate) low: u64,
    pub(crate) range: u64,
}

/// An interval, and the bytes that were put out on the way to it, at most nine.
#[derive(Clone, Copy)]
pub(crate) struct Coded {
    pub(crate) interval: Interval,
    pub(crate) bytes: [u8; 9],
    pub(crate) count: usize,
}

/// A number of 32 bits without its top byte, and a zero byte behind it.
fn without_top(low: u64) -> u64
    ensures { result ≡ without_top low }
{
    low % TOP * 256
}

impl Interval {
    /// All that 32 bits can say, but the highest.
    pub(crate) fn whole() -> Interval
        ensures { span_meant result ≡ whole }
    {
        Interval {
            low: 0,
            range: 0xFFFF_FFFF,
        }
    }

    /// A part of it, before bytes are put out.
    fn narrowed(self, part: Part) -> Interval
        requires wide { IsWide (span_meant self) }
        requires part { IsCut (cut_meant part) }
        ensures { span_meant result ≡ narrowed (span_meant self) (cut_meant part) }
    {
        let unit = self.range / part.total as u64;
        Interval {
            low: self.low + part.start as u64 * unit,
            range: part.size as u64 * unit,
        }
    }

    /// How many shares of `total` lie below `code`.
    pub(crate) fn aim(self, total: u32, code: u64) -> u32
        requires { code < 4294967296 }
        ensures { result ≡ (code - self.low) / max (self.range / total) 1 }
    {
        let unit = if total == 0 {
            1
        } else {
            (self.range / total as u64).max(1)
        };
        (code.saturating_sub(self.low) / unit) as u32
    }

    /// Whether the top bytes of its ends differ.
    fn is_apart(self) -> bool
        requires { IsSpan (span_meant self) }
        ensures { result ≡ is_apart (span_meant self) }
    {
        self.low / TOP != (self.low + self.range) / TOP
    }

    /// Whether no byte is put out yet.
    fn is_settled(self) -> bool
        requires { IsSpan (span_meant self) }
        ensures { result ≡ is_settled (span_meant self) }
    {
        self.range >= BOTTOM && self.is_apart()
    }

    /// What is left once its top byte is put out. It is cut at the next multiple of 2 ^ 16 where the top bytes of its ends differ.
    fn shifted(self) -> Interval
        requires { IsSpan (span_meant self) }
        ensures { span_meant result ≡ shifted (span_meant self) }
    {
        let range = if self.is_apart() {
            BOTTOM - self.low % BOTTOM
        } else {
            self.range
        };
        Interval {
            low: without_top(self.low),
            range: range * 256,
        }
    }
}

impl Coded {
    /// Nothing is put out yet.
    pub(crate) fn at(interval: Interval) -> Coded
        ensures { result ≡ record { interval = interval; bytes = result.bytes; count = 0 } }
    {
        Coded {
            interval,
            bytes: [0; 9],
            count: 0,
        }
    }

    /// Takes a part, and puts out the bytes that are settled by it.
    pub(crate) fn take(self, part: Part) -> Option<Coded>
        requires wide { IsWide (span_meant self.interval) }
        requires part { IsCut (cut_meant part) }
        requires room { self.count + 3 ≤ 9 }
        ensures puts { Puts self result (coded (span_meant self.interval) (cut_meant part)) }
        ensures wide { IfSome result (λ r. IsWide (span_meant r.interval)) }
        ensures count { IfSome result (λ r. r.count ≤ self.count + 3) }
    {
        let bytes = self.bytes;
        let narrowed = Coded {
            interval: self.interval.narrowed(part),
            bytes,
            count: self.count,
        };
        narrowed.put_out(3)
    }

    /// Puts out at most `left` bytes, until the top byte isn't settled. None where more would be.
    fn put_out(self, left: u8) -> Option<Coded>
        requires span { IsSpan (span_meant self.interval) }
        requires room { self.count + left ≤ 9 }
        ensures puts { Puts self result (put_out left (span_meant self.interval)) }
        ensures wide { IfSome result (λ r. IsWide (span_meant r.interval)) }
        ensures count { IfSome result (λ r. r.count ≤ self.count + left) }
    {
        if self.interval.is_settled() {
            return Some(self);
        }
        if left == 0 {
            return None;
        }
        let next = self.with_top(self.interval.shifted());
        next.put_out(left - 1)
    }

    /// Puts out the top byte of the lower end; what is left is `interval`.
    fn with_top(self, interval: Interval) -> Coded
        requires low { self.interval.low < 4294967296 }
        requires room { self.count < 9 }
        ensures interval { result.interval ≡ interval }
        ensures count { result.count ≡ self.count + 1 }
        ensures said { said result ≡ said self ++ self.interval.low / 16777216 ∷ [] }
    {
        let mut bytes = self.bytes;
        bytes[self.count] = (self.interval.low / TOP) as u8;
        Coded {
            interval,
            bytes,
            count: self.count + 1,
        }
    }

    /// The end: puts out the lower end, without zeros behind it, in at most `left` bytes.
    pub(crate) fn end(self, left: u8) -> Coded
        requires low { self.interval.low < 4294967296 }
        requires room { self.count + left ≤ 9 }
        ensures said { said result ≡ said self ++ ending left self.interval.low }
        ensures count { result.count ≤ self.count + left }
    {
        if left == 0 || self.interval.low == 0 {
            return self;
        }
        let low = without_top(self.interval.low);
        let next = self.with_top(Interval { low, range: 0 });
        next.end(left - 1)
    }
}
