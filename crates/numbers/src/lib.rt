// Numbers in bytes, low byte first, and signed numbers as raised words.
#![tactic(auto)]

ghost use Rattle.std.specs.Prelude.{◌≡◌, ◌+◌, ◌<◌, ◌≤◌, length, slice_set};
ghost use Rattle.numbers.specs.Bytes.{le};
ghost use Rattle.numbers.specs.Written.{put_le, Number, Part};
ghost use Rattle.numbers.specs.Raised.{raised, lowered};

// The part of s from at on.
pub fn from(s: &[u8], at: usize) -> &[u8]
    requires { at ≤ length s.now }
    ensures { Part at s.now result.now }
{
    &s[at..]
}

// One byte.
pub fn byte(s: &[u8], at: usize) -> u32
    requires { at < length s.now }
    ensures { Number 1 at s.now result }
{
    u32::from(s[at])
}

// A number of two bytes. The library's `from_le_bytes` was tried here and below: a ring of 2,000 points took some five in a hundred longer to finish. Two widths stay two functions, here and in
// writing: one with a parameter would loop over the bytes, and is no plainer.
pub fn read_u16(s: &[u8], at: usize) -> u32
    requires { at + 2 ≤ length s.now }
    ensures { Number 2 at s.now result }
{
    byte(s, at) + 256 * byte(s, at + 1)
}

// A number of four bytes.
pub fn read_u32(s: &[u8], at: usize) -> u32
    requires { at + 4 ≤ length s.now }
    ensures { Number 4 at s.now result }
{
    byte(s, at) + 256 * byte(s, at + 1) + 65536 * byte(s, at + 2) + 16777216 * byte(s, at + 3)
}

// Writes the two low bytes of v.
pub fn write_u16(s: &mut [u8], at: usize, v: u32)
    requires { at + 2 ≤ length s.old }
    ensures { s.new ≡ put_le 2 at v s.old }
{
    let [a, b, ..] = v.to_le_bytes();
    s[at] = a;
    s[at + 1] = b;
}

// Writes the four bytes of v.
pub fn write_u32(s: &mut [u8], at: usize, v: u32)
    requires { at + 4 ≤ length s.old }
    ensures { s.new ≡ put_le 4 at v s.old }
{
    let [a, b, c, d] = v.to_le_bytes();
    s[at] = a;
    s[at + 1] = b;
    s[at + 2] = c;
    s[at + 3] = d;
}

// The signed number of four bytes, as a word raised by `by`.
pub fn read_raised(s: &[u8], at: usize, by: u32) -> u32
    requires { at + 4 ≤ length s.now }
    ensures { result ≡ raised by (le 4 at s.now) }
{
    read_u32(s, at).wrapping_add(by)
}

// Writes the signed number of a word raised by `by`, in four bytes.
pub fn write_lowered(s: &mut [u8], at: usize, w: u32, by: u32)
    requires { at + 4 ≤ length s.old }
    ensures { s.new ≡ put_le 4 at (lowered by w) s.old }
{
    write_u32(s, at, w.wrapping_sub(by));
}
