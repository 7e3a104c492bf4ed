//! A set of channels.

ghost use Rattle.std.specs.Prelude.{◌≡◌, ◌≢◌, ℕ, ◌<◌, ◌≤◌, IfSome, IfNone};
ghost use Rattle.std.specs.Int.{bit_at};
ghost use Rattle.enet_senders.specs.Sets.{Lacks};

/// How many channels a word tells of.
const WORD: usize = 64;

/// How many words there are.
const WORDS: usize = 4;

/// A set of channels: channel i is in it where bit `i % 64` of word `i / 64` is set.
#[derive(Clone, Copy)]
pub(crate) struct ChannelSet {
    words: [u64; WORDS],
}

impl ChannelSet {
    /// No channel.
    pub(crate) fn none() -> ChannelSet {
        ChannelSet { words: [0; WORDS] }
    }

    /// A channel is in it from now on.
    pub(crate) fn insert(&mut self, channel: u8)
        ensures this { Lacks self.new channel → ⊥ }
        ensures others { (i : ℕ) → i ≢ channel → Lacks self.new i → Lacks self.old i }
    {
        self.words[usize::from(channel) / WORD] |= 1 << (channel % 64);
    }

    /// A channel is not in it from now on.
    pub(crate) fn remove(&mut self, channel: u8)
        ensures { (i : ℕ) → i ≢ channel → Lacks self.new i → Lacks self.old i }
    {
        self.words[usize::from(channel) / WORD] &= !(1 << (channel % 64));
    }

    /// What is in the other set is in it, too, from now on.
    pub(crate) fn join(&mut self, other: &ChannelSet)
        ensures { (i : ℕ) → Lacks self.new i → Lacks self.old i × Lacks other.now i }
    {
        for place in 0..WORDS {
            self.words[place] |= other.words[place];
        }
    }

    /// The first channel of it from `from` on; where there is none, 256, or `from` where that is greater.
    pub(crate) fn next(&self, from: usize) -> usize
        ensures later { from ≤ result }
        ensures lacks { (i : ℕ) → from ≤ i → i < result → Lacks self.now i }
    {
        let mut next = from;
        'words: while next < WORDS * WORD {
            let begin = next - next % WORD;
            if let Some(bit) = first_bit(self.words[next / WORD], next % WORD) {
                return begin + bit;
            }
            next = begin + WORD;
        }
        next
    }
}

/// The place of the first bit of a word that is set, from `from` on.
fn first_bit(word: u64, from: usize) -> Option<usize>
    requires { from < 64 }
    ensures later { IfSome result (λ bit. from ≤ bit) }
    ensures within { IfSome result (λ bit. bit < 64) }
    ensures clear { IfSome result (λ bit. (i : ℕ) → from ≤ i → i < bit → bit_at word i ≡ 0) }
    ensures none { IfNone result ((i : ℕ) → from ≤ i → i < 64 → bit_at word i ≡ 0) }
{
    let rest = word >> from;
    if rest == 0 {
        return None;
    }
    Some(from + rest.trailing_zeros() as usize)
}
