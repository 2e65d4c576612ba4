// The boxes beside the rings: four words for each record.
ghost use Rattle.std.specs.Prelude.{◌≡◌, ◌<◌, ◌≤◌, ◌^◌, length, set};
ghost use Rattle.job.specs.Limits as limit;
ghost use Rattle.store.specs.Field.{BLOCK};
ghost use Rattle.store.specs.Boxes.{sides_at, set_sides};
ghost use Rattle.store.specs.Needs.{Small};

use crate::{BOXES, load};
use job::Job;

// A box by its words: the least x and y and the greatest, raised as coordinates are.
#[derive(Clone, Copy, PartialEq, Eq)]
pub struct Sides {
    pub left: usize,
    pub top: usize,
    pub right: usize,
    pub bottom: usize,
}

// The words of record i's box.
pub fn sides_of(w: &[u32], i: usize) -> Sides
    requires { (BLOCK ≤ length w.now) × (i < limit.RECORDS) }
    ensures { result ≡ sides_at w.now i }
{
    Sides {
        left: load(w, BOXES + Job::RECORDS * 0 + i),
        top: load(w, BOXES + Job::RECORDS * 1 + i),
        right: load(w, BOXES + Job::RECORDS * 2 + i),
        bottom: load(w, BOXES + Job::RECORDS * 3 + i),
    }
}

// Stores word k.
fn put_word(w: &mut [u32], k: usize, v: usize)
    requires { (k < length w.old) × (v < 2 ^ 32) }
    ensures { w.new ≡ set w.old k v }
{
    w[k] = v as u32;
}

// Record i has the box b.
pub fn set_sides(w: &mut [u32], i: usize, b: Sides)
    requires { (BLOCK ≤ length w.old) × (i < limit.RECORDS) × Small b }
    ensures { w.new ≡ set_sides w.old i b }
{
    put_word(w, BOXES + Job::RECORDS * 0 + i, b.left);
    put_word(w, BOXES + Job::RECORDS * 1 + i, b.top);
    put_word(w, BOXES + Job::RECORDS * 2 + i, b.right);
    put_word(w, BOXES + Job::RECORDS * 3 + i, b.bottom);
}
