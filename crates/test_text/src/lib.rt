// What the test programs share: reading stored cases from a slice of bytes, and a ring's text. Every answer is defined past the end too, so that no caller needs a bound.
#![tactic(auto)]

pub mod ring;
pub mod words;

ghost use Rattle.std.specs.Prelude.{◌≡◌, ◌+◌, ◌<◌, ◌≤◌, min, length, get_or, take, drop, set};
ghost use Rattle.numbers.specs.Written.{Number};
ghost use Rattle.test_text.specs.Places.{FAR};

// A place that no input reaches.
pub const FAR: usize = 1000000;

// The place n further on, as far as places go.
pub fn further(at: usize, n: usize) -> usize
    ensures { result ≡ min (at + n) FAR }
{
    at.saturating_add(n).min(FAR)
}

// The byte at a place; 0 past the end.
pub fn byte(s: &[u8], at: usize) -> u8
    ensures { result ≡ get_or s.now at 0 }
{
    s.get(at).copied().unwrap_or(0)
}

// The number of two bytes at a place, low byte first.
pub fn number_at(s: &[u8], at: usize) -> usize
    ensures { Number 2 at s.now result }
{
    if at < s.len() {
        return byte(s, at) as usize + 256 * byte(s, at + 1) as usize;
    }
    0
}

// The bytes from a place on.
pub fn from(s: &[u8], at: usize) -> &[u8]
    ensures { result.now ≡ drop at s.now }
{
    if at <= s.len() {
        return numbers::from(s, at);
    }
    numbers::from(s, s.len())
}

fn head(s: &[u8], n: usize) -> &[u8]
    requires { n ≤ length s.now }
    ensures { result.now ≡ take n s.now }
{
    &s[..n]
}

// The first n bytes, or all.
pub fn first(s: &[u8], n: usize) -> &[u8]
    ensures { result.now ≡ take n s.now }
{
    if n < s.len() {
        return head(s, n);
    }
    s
}

// Stores a byte, if there is room. (Not by `get_mut`: of a slice's it is known what the length stays, and of no element, so `set` does not follow.)
pub fn put(s: &mut [u8], at: usize, v: u8)
    ensures { s.new ≡ set s.old at v }
{
    if at < s.len() {
        s[at] = v;
    }
}
