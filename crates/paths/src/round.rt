// A ring walked round in a path's direction, along links, so that no index is counted: its points counted, and laid into a tray, neighbouring equals dropped.
ghost use Rattle.std.specs.Prelude.{◌≡◌, ◌+◌, ◌*◌, ◌<◌, ◌≤◌, leb, length};
ghost use Rattle.job.specs.Limits as limit;
ghost use Rattle.store.specs.Field.{BLOCK};
ghost use Rattle.store.specs.Words.{view};
ghost use Rattle.paths.specs.Path.{point_at};
ghost use Rattle.paths.specs.Tray.{path_bytes};
ghost use Rattle.paths.specs.Tray as trays;
ghost use Rattle.paths.specs.Filling.{lay_over};
ghost use Rattle.paths.specs.Walking.{link_of, Readable, Round, Room, path_round, more, put_point, laid, put_more};

use crate::POINT;
use geometry::Point;
use job::Job;
use primitives::point;
use store::Col;

// The point of number k, by value.
pub fn point_at(w: &[u32], k: usize) -> Point
    requires { Readable w.now k }
    ensures { result ≡ point_at (view w.now) k }
{
    point(w, k)
}

// The point after k in a path: prev in a reversed one.
fn link(w: &[u32], rev: bool, k: usize) -> usize
    requires { (BLOCK ≤ length w.now) × (k < limit.POINTS) }
    ensures { result ≡ link_of (view w.now) rev k }
{
    if rev {
        return store::get(w, Col::Prev, k);
    }
    store::get(w, Col::Next, k)
}

// How many points q adds to a path after b: none if the two are equal.
fn adds(w: &[u32], b: usize, q: usize) -> usize
    requires { Readable w.now b × Readable w.now q }
    ensures { result ≡ more (view w.now) b q }
{
    let p = point_at(w, q);
    let last = point_at(w, b);
    if geometry::same_point(p, last) {
        return 0;
    }
    1
}

// How many points the path has that goes round from a.
pub fn round_size(w: &[u32], rev: bool, a: usize) -> usize
    requires { Round w.now rev a }
    ensures { result ≡ length (path_round (view w.now) rev a) }
{
    let mut n: usize = 1;
    let mut b = a;
    let mut q = link(w, rev, a);
    while q != a {
        let d = adds(w, b, q);
        n += d;
        b = q;
        q = link(w, rev, q);
    }
    n
}

// The bytes of point q, from `at` on: the only place where a point's bytes are written.
fn put_point(w: &[u32], q: usize, t: &mut [u8], at: usize)
    requires { Readable w.now q × (at + trays.POINT ≤ length t.old) }
    ensures { t.new ≡ put_point (view w.now) q at t.old }
{
    let x = store::get(w, Col::X, q);
    let y = store::get(w, Col::Y, q);
    let z = store::get(w, Col::Z, q);
    numbers::write_lowered(t, at, x as u32, Job::COORDINATE);
    numbers::write_lowered(t, at + 4, y as u32, Job::COORDINATE);
    numbers::write_u32(t, at + 8, z as u32);
}

// The same, unless q and b are equal; answers how far the tray is filled.
fn put_more(w: &[u32], b: usize, q: usize, t: &mut [u8], at: usize) -> usize
    requires { Readable w.now b × Readable w.now q × (at + trays.POINT * more (view w.now) b q ≤ length t.old) }
    ensures { laid result t.new ≡ put_more (view w.now) b q at t.old }
{
    let d = adds(w, b, q);
    if d == 0 {
        return at;
    }
    put_point(w, q, t, at);
    at + POINT
}

// Whether the path that goes round from a has four points or more.
pub fn has_four(w: &[u32], rev: bool, a: usize) -> bool
    requires { Round w.now rev a }
    ensures { result ≡ leb 4 (length (path_round (view w.now) rev a)) }
{
    let mut n: usize = 1;
    let mut b = a;
    let mut q = link(w, rev, a);
    while q != a {
        let d = adds(w, b, q);
        n += d;
        if 3 < n {
            return true;
        }
        b = q;
        q = link(w, rev, q);
    }
    false
}

// The path that goes round from a, laid over the beginning of t; answers how many bytes.
pub fn write_round(w: &[u32], rev: bool, a: usize, t: &mut [u8]) -> usize
    requires { Room w.now rev a t.old }
    ensures { laid result t.new ≡ lay_over (path_bytes (path_round (view w.now) rev a)) t.old }
{
    put_point(w, a, t, 0);
    let mut at: usize = POINT;
    let mut b = a;
    let mut q = link(w, rev, a);
    while q != a {
        at = put_more(w, b, q, t, at);
        b = q;
        q = link(w, rev, q);
    }
    at
}
