// The tests of a record, one by one.
ghost use Rattle.std.specs.Prelude.{◌≡◌, ◌≢◌, ◌||◌, ◌≤◌, length};
ghost use Rattle.store.specs.Field as field;
ghost use Rattle.store.specs.Field.{BLOCK};
ghost use Rattle.store.specs.Named.{first_of, ring_of};
ghost use Rattle.audit.specs.Tests.{is_in, names_nothing, no_such_of, lost_taker, misplaced, untold};

use job::Job;
use store::{AT_SPLIT, Col, JOINED, NO_RING, NONE, get, read};

pub fn names_nothing(n: usize, v: usize) -> bool
    ensures { result ≡ names_nothing n v }
{
    !(v == NONE) & !(v < n)
}

pub fn no_such_of(w: &[u32], i: usize) -> bool
    requires { BLOCK ≤ length w.now }
    ensures { result ≡ no_such_of w.now i }
{
    let m = get(w, Col::Points, 0);
    let n = get(w, Col::Records, 0);
    let o = read(w, Col::Owner, i);
    let f = read(w, Col::First, i);
    let a = names_nothing(n, o);
    let b = names_nothing(m, f);
    a | b
}

pub(crate) fn lost_taker(w: &[u32], i: usize) -> bool
    requires { BLOCK ≤ length w.now }
    ensures { result ≡ lost_taker w.now i }
{
    let n = get(w, Col::Records, 0);
    let f = read(w, Col::First, i);
    let r = read(w, Col::Reason, i);
    let t = read(w, Col::Taker, i);
    (f == NONE) & ((r == JOINED) & !(t < n))
}

pub(crate) fn untold(w: &[u32], i: usize) -> bool
    requires { BLOCK ≤ length w.now }
    ensures { result ≡ untold w.now i }
{
    let f = read(w, Col::First, i);
    let r = read(w, Col::Reason, i);
    (f == NONE) & !((NO_RING <= r) & (r <= AT_SPLIT))
}

// Whether k is on the ring that starts at a.
fn is_on_ring(w: &[u32], a: usize, k: usize) -> bool
    requires { BLOCK ≤ length w.now }
    ensures { result ≡ is_in k (ring_of w.now a) }
{
    let mut p = a;
    for _turn in 0..Job::POINTS {
        if p == k {
            return true;
        }
        p = read(w, Col::Next, p);
        if p == a {
            return false;
        }
    }
    false
}

// The progress of a record whose ring starts at f.
fn misplaced_on(w: &[u32], i: usize, f: usize) -> bool
    requires { (BLOCK ≤ length w.now) × (f ≡ first_of w.now i) × (f ≢ field.NONE) }
    ensures { result ≡ misplaced w.now i }
{
    let g = read(w, Col::Flags, i);
    if g % 2 == 1 {
        return false;
    }
    let d = read(w, Col::Mark, i);
    if 4 < d {
        return true;
    }
    if d == 4 {
        return false;
    }
    let p = read(w, Col::Present, i);
    let on = is_on_ring(w, f, p);
    !on
}

pub(crate) fn misplaced(w: &[u32], i: usize) -> bool
    requires { BLOCK ≤ length w.now }
    ensures { result ≡ misplaced w.now i }
{
    let f = read(w, Col::First, i);
    if f == NONE {
        return false;
    }
    misplaced_on(w, i, f)
}

// What a record without a ring keeps: does it fail a test?
pub fn ill_kept(w: &[u32], i: usize) -> bool
    requires { BLOCK ≤ length w.now }
    ensures { result ≡ (lost_taker w.now i || untold w.now i) }
{
    let a = lost_taker(w, i);
    let b = untold(w, i);
    a | b
}
