// The walks along next from the first points, which mark what they reach; and the marked points, by one test.
ghost use Rattle.std.specs.Prelude.{◌≡◌, ◌≤◌, ℕ, Bool, length};
ghost use Rattle.job.specs.Limits as limit;
ghost use Rattle.store.specs.Field.{BLOCK};
ghost use Rattle.store.specs.Named.{points_of, next_of};
ghost use Rattle.audit.specs.Marks.{Counted, is_marked, mark_from, AllMarked, any_marked};

use job::Job;
use store::{Col, get};

// Whether a number is a marked point.
fn is_marked(marks: &[u8], k: usize) -> bool
    ensures { result ≡ is_marked marks.now k }
{
    if k < marks.len() {
        return marks[k] != 0;
    }
    false
}

// Marks the points from a on, up to a number that names none of the m points or to a marked one.
fn mark_from(w: &[u32], marks: &mut [u8], m: usize, a: usize)
    requires { Counted w.now × (points_of w.now ≤ length marks.old) × (m ≡ points_of w.now) }
    ensures { marks.new ≡ mark_from limit.POINTS (next_of w.now) (points_of w.now) marks.old a }
{
    let mut p = a;
    for _turn in 0..Job::POINTS {
        if m <= p {
            return;
        }
        if marks[p] != 0 {
            return;
        }
        marks[p] = 1;
        p = get(w, Col::Next, p);
    }
}

// Marks every reached point: was a first point marked from an earlier record's?
pub fn mark_all(w: &[u32], marks: &mut [u8]) -> bool
    requires { Counted w.now × (points_of w.now ≤ length marks.old) }
    ensures { AllMarked w.now marks.old marks.new result }
{
    let m = get(w, Col::Points, 0);
    let mut shared = false;
    for i in 0..get(w, Col::Records, 0) {
        let a = get(w, Col::First, i);
        shared = shared | is_marked(marks, a);
        mark_from(w, marks, m, a);
    }
    shared
}

// ---- the marked points, by one test

// Whether a marked point fails the test.
pub fn any_marked<F: Fn(usize) -> bool>(w: &[u32], marks: &[u8], fails: F) -> bool
    requires long { BLOCK ≤ length w.now }
    requires callable { F.IsAlwaysCallable fails }
    ensures { (q : ℕ → Bool) → ((k : ℕ) (r : Bool) → F.post fails k r → r ≡ q k) → result ≡ any_marked w.now marks.now q }
{
    (0..get(w, Col::Points, 0)).any(|k| is_marked(marks, k) && fails(k))
}
