// A work space of zeros. What a small job left is nearly all zeros, and to read a zero costs less than to write one: a block is written only where another word is in it.
ghost use Rattle.std.specs.Prelude.{◌≡◌, ◌++◌, ◌+◌, ◌-◌, ◌≤◌, length, take, drop, replicate};
ghost use Rattle.store.specs.Field as field;
ghost use Rattle.opening.specs.Blank.{CHUNK, ZeroTo, IsBlank};
ghost use Rattle.opening.specs.Open.{cleared};

use store::{BOXES, KEPT, NAMES};

// How many words are looked at together.
const CHUNK: usize = 128;

// Whether the block at `at` has only zeros, as all words before it. (No `all`: it stops at the first word that is not zero, so a block isn't read many words at once.)
fn is_blank(t: &[u32], at: usize) -> bool
    requires { (at + CHUNK ≤ length t.now) × ZeroTo at t.now }
    ensures { IsBlank at t.now result }
{
    let mut found = false;
    for k in 0..CHUNK {
        found |= t[at + k] != 0;
    }
    !found
}

// Writes zeros from `at` up to `to`.
fn write_zeros(t: &mut [u32], at: usize, to: usize)
    requires { (at ≤ to) × (to ≤ length t.old) }
    ensures { t.new ≡ take at t.old ++ (replicate (to - at) 0 ++ drop to t.old) }
{
    t[at..to].fill(0);
}

// Makes the block at `at` zeros; the words before it are zero already.
fn clear_block(t: &mut [u32], at: usize)
    requires { (at + CHUNK ≤ length t.old) × ZeroTo at t.old }
    ensures { t.new ≡ replicate (at + CHUNK) 0 ++ drop (at + CHUNK) t.old }
{
    if is_blank(t, at) {
        return;
    }
    write_zeros(t, at, at + CHUNK);
}

// The first n words are zero.
fn clear_to(work: &mut [u32], n: usize)
    requires { n ≤ length work.old }
    ensures { work.new ≡ replicate n 0 ++ drop n work.old }
{
    let blocks = n / CHUNK;
    for k in 0..blocks {
        clear_block(work, k * CHUNK);
    }
    write_zeros(work, blocks * CHUNK, n);
}

// Every word is zero.
pub fn clear(work: &mut [u32])
    ensures { work.new ≡ replicate (length work.old) 0 }
{
    let n = work.len();
    clear_to(work, n);
}

// Zeros for a job that is read: in every column, and for the names. The boxes between them are not read before they are written, and the copies of kept states behind are many words: zeros there would cost a small job
// several times what the rest of it does.
pub(crate) fn clear_live(work: &mut [u32])
    requires { field.KEPT ≤ length work.old }
    ensures { work.new ≡ cleared work.old }
{
    clear_to(work, BOXES);
    write_zeros(work, NAMES, KEPT);
}
