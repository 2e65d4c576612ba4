// The names of kept states: a word for each place.
ghost use Rattle.std.specs.Prelude.{◌≡◌, ◌+◌, ◌<◌, ◌≤◌, ◌^◌, length, set};
ghost use Rattle.store.specs.Field.{STATES, NAMES, KEPT};
ghost use Rattle.store.specs.States.{name_at, is_name, same_name};

use crate::NAMES;

// A word that says a name says one more than it.
pub const FIRST_NAME: usize = 1;

pub const LAST_NAME: usize = 256;

// The word of place p.
pub fn name_word(w: &[u32], p: usize) -> usize
    requires { (KEPT ≤ length w.now) × (p < STATES) }
    ensures { result ≡ name_at w.now p }
{
    crate::load(w, NAMES + p)
}

// Stores the word of place p.
pub fn set_name_word(w: &mut [u32], p: usize, v: usize)
    requires { (KEPT ≤ length w.old) × (p < STATES) × (v < 2 ^ 32) }
    ensures { w.new ≡ set w.old (NAMES + p) v }
{
    w[NAMES + p] = v as u32;
}

// Whether a word says a name; any other word says that the place is free.
pub fn is_name(v: usize) -> bool
    ensures { result ≡ is_name v }
{
    (FIRST_NAME..=LAST_NAME).contains(&v)
}

// Whether two places keep one name.
pub fn same_name(w: &[u32], p: usize, q: usize) -> bool
    requires { (KEPT ≤ length w.now) × (p < STATES) × (q < STATES) }
    ensures { result ≡ same_name w.now p q }
{
    let a = name_word(w, p);
    is_name(a) & (a == name_word(w, q))
}
