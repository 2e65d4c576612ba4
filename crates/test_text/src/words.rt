// Words and numbers of a test program's input.
ghost use Rattle.std.specs.Prelude.{◌≡◌};
ghost use Rattle.test_text.specs.Words.{WORD, DIGITS, end_of, more_of, digits_at};

use crate::{byte, further};

// No word or line has so many bytes.
const WORD: usize = 100000;

// A number has at most so many digits.
const DIGITS: usize = 16;

// The next place, from one on, of a byte that is at most `stop`.
pub fn end_of(s: &[u8], at: usize, stop: u8) -> usize
    ensures { result ≡ end_of stop WORD s.now at }
{
    let mut i = at;
    for _ in 0..WORD {
        if byte(s, i) <= stop {
            return i;
        }
        i = further(i, 1);
    }
    i
}

// A number with one digit more; one that has 16 already stays.
fn more(v: u64, b: u8) -> u64
    ensures { result ≡ more_of v b }
{
    if v < 1000000000000000 {
        return v * 10 + (b % 16) as u64;
    }
    v
}

// The decimal number at a place, of at most 16 digits.
pub fn digits(s: &[u8], at: usize) -> u64
    ensures { result ≡ digits_at DIGITS 0 s.now at }
{
    let mut i = at;
    let mut v: u64 = 0;
    for _ in 0..DIGITS {
        let b = byte(s, i);
        if b < b'0' {
            return v;
        }
        if b'9' < b {
            return v;
        }
        v = more(v, b);
        i = further(i, 1);
    }
    v
}
