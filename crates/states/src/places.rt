// Which place keeps a name, and which is free.
ghost use Rattle.std.specs.Prelude.{◌≡◌, ◌≤◌, ◌<◌, length};
ghost use Rattle.store.specs.Field.{STATES, LENGTH};
ghost use Rattle.store.specs.States.{BYTES};
ghost use Rattle.states.specs.Places.{keeps_name, is_free, place_of, free_place, keep_place, Names};

use store::STATES;
use store::names::{is_name, name_word};

// Whether place p keeps a name.
fn keeps_name(w: &[u32], name: usize, p: usize) -> bool
    requires { (LENGTH ≤ length w.now) × (name < BYTES) × (p < STATES) }
    ensures { result ≡ keeps_name w.now name p }
{
    name_word(w, p) == name + 1
}

// Whether place p is free.
fn is_free(w: &[u32], p: usize) -> bool
    requires { (LENGTH ≤ length w.now) × (p < STATES) }
    ensures { result ≡ is_free w.now p }
{
    !is_name(name_word(w, p))
}

// The place that keeps a name. (The definition says one past all where none does.)
pub(crate) fn place_of(w: &[u32], name: usize) -> Option<usize>
    requires { (LENGTH ≤ length w.now) × (name < BYTES) }
    ensures { Names result (place_of w.now name) }
{
    (0..STATES).find(|&p| keeps_name(w, name, p))
}

// The lowest free place.
fn free_place(w: &[u32]) -> Option<usize>
    requires { LENGTH ≤ length w.now }
    ensures { Names result (free_place w.now) }
{
    (0..STATES).find(|&p| is_free(w, p))
}

// The place that a name is kept at: its own, or else the lowest free one.
pub(crate) fn keep_place(w: &[u32], name: usize) -> Option<usize>
    requires { (LENGTH ≤ length w.now) × (name < BYTES) }
    ensures { Names result (keep_place w.now name) }
{
    place_of(w, name).or_else(|| free_place(w))
}
