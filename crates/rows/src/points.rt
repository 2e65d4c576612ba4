// What rows 4 to 6 ask of a point, all at once: the first that fails ends it.
ghost use Rattle.std.specs.Prelude.{◌≡◌, ◌||◌, ◌<◌};
ghost use Rattle.job.specs.Limits as limit;
ghost use Rattle.store.specs.Named.{points_of, records_of, next_of, prev_of};
ghost use Rattle.audit.specs.Tests.{any_below, no_such, loose};
ghost use Rattle.audit.specs.Marks.{Counted};
ghost use Rattle.rows.specs.Found.{faulty_point};

use audit::points::FAR;
use store::{Col, get};

// Whether one of the links of point k is loose; a is its next, b its prev.
fn is_loose(w: &[u32], k: usize, a: usize, b: usize) -> bool
    requires { Counted w.now × (a ≡ next_of w.now k) × (b ≡ prev_of w.now k) × (a < limit.POINTS) × (b < limit.POINTS) }
    ensures { result ≡ loose w.now k }
{
    let c = get(w, Col::Next, b);
    if c != k {
        return true;
    }
    let d = get(w, Col::Prev, a);
    !(d == k)
}

// Whether a number of point k, of m points and n records, names nothing, or one of its links is loose.
fn is_astray(w: &[u32], m: usize, n: usize, k: usize) -> bool
    requires { Counted w.now × (m ≡ points_of w.now) × (n ≡ records_of w.now) × (k < limit.POINTS) }
    ensures { result ≡ (no_such w.now k || loose w.now k) }
{
    let a = get(w, Col::Next, k);
    if m <= a {
        return true;
    }
    let b = get(w, Col::Prev, k);
    if m <= b {
        return true;
    }
    let r = get(w, Col::Rec, k);
    if n <= r {
        return true;
    }
    is_loose(w, k, a, b)
}

// Whether point k fails one of the three tests. (The audit's asks less of prev, and is told the point's next.)
fn is_faulty(w: &[u32], m: usize, n: usize, k: usize) -> bool
    requires { Counted w.now × (m ≡ points_of w.now) × (n ≡ records_of w.now) × (k < limit.POINTS) }
    ensures { result ≡ faulty_point w.now k }
{
    let x = get(w, Col::X, k);
    if FAR < x {
        return true;
    }
    let y = get(w, Col::Y, k);
    if FAR < y {
        return true;
    }
    is_astray(w, m, n, k)
}

// Whether a point does.
pub fn any_faulty(w: &[u32]) -> bool
    requires { Counted w.now }
    ensures { result ≡ any_below (points_of w.now) (faulty_point w.now) }
{
    let m = get(w, Col::Points, 0);
    let n = get(w, Col::Records, 0);
    for k in 0..m {
        if is_faulty(w, m, n, k) {
            return true;
        }
    }
    false
}
