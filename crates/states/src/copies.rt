// Copies of the live block.
ghost use Rattle.std.specs.Prelude.{◌≡◌, ◌≤◌, ◌<◌, length};
ghost use Rattle.store.specs.Field.{STATES, LENGTH};
ghost use Rattle.store.specs.States.{BYTES, copy_at};
ghost use Rattle.states.specs.Calls.{stored, restored};

use store::names::set_name_word;
use store::{BLOCK, KEPT};

// Where the copy of place p begins.
fn copy_at(p: usize) -> usize
    requires { p < STATES }
    ensures { result ≡ copy_at p }
{
    KEPT + BLOCK * p
}

// The live block and a name go to place p.
pub(crate) fn store_at(w: &mut [u32], p: usize, name: usize)
    requires { (LENGTH ≤ length w.old) × (p < STATES) × (name < BYTES) }
    ensures { w.new ≡ stored w.old p name }
{
    w.copy_within(0..BLOCK, copy_at(p));
    set_name_word(w, p, name + 1);
}

// The block of place p becomes the live one.
pub(crate) fn restore_from(w: &mut [u32], p: usize)
    requires { (LENGTH ≤ length w.old) × (p < STATES) }
    ensures { w.new ≡ restored w.old p }
{
    let at = copy_at(p);
    w.copy_within(at..at + BLOCK, 0);
}
