// The tests of a reached point, one by one, and what a walk asks of a point that it meets.
ghost use Rattle.std.specs.Prelude.{◌≡◌, ◌<◌, ◌≤◌, length};
ghost use Rattle.job.specs.Limits as limit;
ghost use Rattle.store.specs.Field.{BLOCK};
ghost use Rattle.store.specs.Named.{points_of, records_of, next_of};
ghost use Rattle.audit.specs.Tests.{off_table, no_such, loose};
ghost use Rattle.audit.specs.Marks.{Counted, faulty};

use job::Job;
use store::{Col, get, read};

// The word of the largest coordinate.
pub const FAR: usize = 2 * (Job::COORDINATE as usize);

pub fn off_table(w: &[u32], k: usize) -> bool
    requires { BLOCK ≤ length w.now }
    ensures { result ≡ off_table w.now k }
{
    let x = read(w, Col::X, k);
    let y = read(w, Col::Y, k);
    (FAR < x) | (FAR < y)
}

pub fn no_such(w: &[u32], k: usize) -> bool
    requires { BLOCK ≤ length w.now }
    ensures { result ≡ no_such w.now k }
{
    let m = get(w, Col::Points, 0);
    let n = get(w, Col::Records, 0);
    let a = read(w, Col::Next, k);
    let b = read(w, Col::Prev, k);
    let r = read(w, Col::Rec, k);
    !(a < m) | (!(b < m) | !(r < n))
}

pub fn loose(w: &[u32], k: usize) -> bool
    requires { BLOCK ≤ length w.now }
    ensures { result ≡ loose w.now k }
{
    let a = read(w, Col::Next, k);
    let b = read(w, Col::Prev, k);
    let c = read(w, Col::Next, b);
    let d = read(w, Col::Prev, a);
    !(c == k) | !(d == k)
}

// Whether point k, of m points and n records, fails a test that a walk asks; a is its next. Of prev only that of a is asked: where each passes, the rest follows.
pub fn is_faulty(w: &[u32], m: usize, n: usize, k: usize, a: usize) -> bool
    requires { Counted w.now × (m ≡ points_of w.now) × (n ≡ records_of w.now) × (k < limit.POINTS) × (a ≡ next_of w.now k) }
    ensures { result ≡ faulty w.now k }
{
    if m <= a {
        return true;
    }
    let r = get(w, Col::Rec, k);
    if n <= r {
        return true;
    }
    let d = get(w, Col::Prev, a);
    if d != k {
        return true;
    }
    let x = get(w, Col::X, k);
    if FAR < x {
        return true;
    }
    let y = get(w, Col::Y, k);
    FAR < y
}
