// Marks of a job's points, a bit each: one is set, and all below a count are tested a word at a time.
#![tactic(auto)]

ghost use Rattle.std.specs.Prelude.{◌≡◌, ◌<◌, ◌≤◌, replicate};
ghost use Rattle.marks.specs.Marks.{bit, with_bit, marked, with_mark, with_bits, all_below};
ghost use Rattle.marks.specs.Marks as spec;

use job::Job;

// The bits of a word, and the words that hold a bit for each point.
pub const BITS: usize = 64;

pub const WORDS: usize = Job::POINTS / BITS;

// A word whose bits are all set.
const FULL: u64 = !0;

// The numbers that definitions cite are the code's.
fn numbers_agree()
    ensures bits { BITS ≡ spec.BITS }
    ensures words { WORDS ≡ spec.WORDS }
{}

// A word with bit i set.
pub fn with_bit(w: u64, i: usize) -> u64
    requires { i < spec.BITS }
    ensures { result ≡ with_bit w i }
{
    w | (1 << i)
}

// Whether all bits of a word are set.
fn is_full(w: u64) -> bool
    ensures { result ≡ all_below spec.BITS (bit w) }
{
    w == FULL
}

// Whether the n low bits of a word are set.
fn low_set(w: u64, n: usize) -> bool
    requires { n < spec.BITS }
    ensures { result ≡ all_below n (bit w) }
{
    let low = (1 << n) - 1;
    w & low == low
}

// The marks by value: bit i % BITS of word i / BITS is point i's.
#[derive(Clone, Copy)]
pub struct Marks {
    pub words: [u64; WORDS],
}

impl Marks {
    // No point is marked.
    pub fn none() -> Marks
        ensures { result.words ≡ replicate spec.WORDS 0 }
    {
        Marks { words: [0; WORDS] }
    }

    // Point i is marked too; a number past the points has no mark.
    pub fn set(self, i: usize) -> Marks
        ensures { result.words ≡ with_mark self.words i }
    {
        self.set_bits(i / BITS, with_bit(0, i % BITS))
    }

    // The points of word j that b has the bits of are marked too.
    pub fn set_bits(mut self, j: usize, b: u64) -> Marks
        ensures { result.words ≡ with_bits self.words j b }
    {
        if WORDS <= j {
            return self;
        }
        self.words[j] |= b;
        self
    }

    // Whether every point below count is marked, whatever the marks past it are.
    pub fn all_set(self, count: usize) -> bool
        ensures { result ≡ all_below count (marked self.words) }
    {
        if Job::POINTS < count {
            return false;
        }
        let whole = count / BITS;
        if !self.words[..whole].iter().all(|w| is_full(*w)) {
            return false;
        }
        let rest = count % BITS;
        rest == 0 || low_set(self.words[whole], rest)
    }
}
