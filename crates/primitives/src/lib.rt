// Points by value, and the Rust's primitives that make and unlink them.
#![tactic(auto)]

ghost use Rattle.std.specs.Prelude.{◌≡◌, ◌+◌, ◌*◌, ◌<◌, ◌≤◌, ◌^◌, length};
ghost use Rattle.job.specs.Limits as limit;
ghost use Rattle.numbers.specs.Raised.{coordinate};
ghost use Rattle.exact.specs.Num.{Within};
ghost use Rattle.geometry.specs.Table.{InTable};
ghost use Rattle.store.specs.Field.{pt, X, Y, BLOCK};
ghost use Rattle.store.specs.Words.{view, on_words};
ghost use Rattle.store.specs.Value.{point_of, word_of};
ghost use Rattle.primitives.specs.Primitive.{taken, point_writes, link_writes, unlink_writes, start_writes, duplicate_op};
ghost use Rattle.primitives.specs.Beside.{disposed, dispose_out_pt, dispose_out_pts, Beside};

use geometry::Point;
use job::Job;
use store::{Col, NONE, get, set};

// What a coordinate's word is raised by.
const RAISE: i32 = Job::COORDINATE as i32;

// ---- by value

// The coordinate that a word stands for.
pub fn lower(v: usize) -> i32
    requires { v ≤ 2 * limit.COORDINATE }
    ensures { result ≡ coordinate limit.COORDINATE v }
{
    v as i32 - RAISE
}

// Point k by value.
pub fn point(w: &[u32], k: usize) -> Point
    requires { (BLOCK ≤ length w.now) × (k < limit.POINTS) × (view w.now (pt X) k ≤ 2 * limit.COORDINATE) × (view w.now (pt Y) k ≤ 2 * limit.COORDINATE) }
    ensures { result ≡ point_of w.now k }
{
    Point {
        x: lower(get(w, Col::X, k)),
        y: lower(get(w, Col::Y, k)),
        z: get(w, Col::Z, k) as u32,
    }
}

// ---- writes

// A point's words and record go to place k, the next free one.
fn take_point(w: &mut [u32], k: usize, vx: usize, vy: usize, vz: usize, r: usize)
    requires { (BLOCK ≤ length w.old) × (k < limit.POINTS) × (vx < 2 ^ 32) × (vy < 2 ^ 32) × (vz < 2 ^ 32) × (r < 2 ^ 32) }
    ensures { w.new ≡ on_words w.old (point_writes k vx vy vz r) }
{
    set(w, Col::Points, 0, k + 1);
    set(w, Col::X, k, vx);
    set(w, Col::Y, k, vy);
    set(w, Col::Z, k, vz);
    set(w, Col::Rec, k, r);
}

// Point k goes in between p and n.
pub fn link_between(w: &mut [u32], p: usize, k: usize, n: usize)
    requires { (BLOCK ≤ length w.old) × (p < limit.POINTS) × (k < limit.POINTS) × (n < limit.POINTS) }
    ensures { w.new ≡ on_words w.old (link_writes p k n) }
{
    set(w, Col::Next, k, n);
    set(w, Col::Prev, k, p);
    set(w, Col::Next, p, k);
    set(w, Col::Prev, n, k);
}

// What was between p and n goes out.
pub fn unlink(w: &mut [u32], p: usize, n: usize)
    requires { (BLOCK ≤ length w.old) × (p < limit.POINTS) × (n < limit.POINTS) }
    ensures { w.new ≡ on_words w.old (unlink_writes p n) }
{
    set(w, Col::Next, p, n);
    set(w, Col::Prev, n, p);
}

// Record k is a closed ring at its start.
pub fn start_record(w: &mut [u32], k: usize, o: usize, b: usize, i: usize)
    requires { (BLOCK ≤ length w.old) × (k < limit.RECORDS) × (o < 2 ^ 32) × (b < 2 ^ 32) × (i < 2 ^ 32) }
    ensures { w.new ≡ on_words w.old (start_writes k o b i) }
{
    set(w, Col::Flags, k, 0);
    set(w, Col::Owner, k, o);
    set(w, Col::First, k, b);
    set(w, Col::Mark, k, 0);
    set(w, Col::Present, k, b);
    set(w, Col::Start, k, b);
    set(w, Col::Cut, k, i);
}

// ---- the primitives

// The word of a coordinate.
fn raise(x: i32) -> usize
    requires { Within limit.COORDINATE x }
    ensures { (result ≡ word_of x) × (result < 2 ^ 32) }
{
    (x + RAISE) as usize
}

// Point p goes to place k, the next free one. The Rust links it with itself; here its callers link it at once.
pub fn new_out_pt(w: &mut [u32], k: usize, p: Point, r: usize)
    requires fact_1 { BLOCK ≤ length w.old }
    requires fact_2 { InTable p }
    requires fact_3 { k < limit.POINTS }
    requires fact_4 { r < 2 ^ 32 }
    ensures { w.new ≡ on_words w.old (point_writes k (word_of p.x) (word_of p.y) p.z r) }
{
    take_point(w, k, raise(p.x), raise(p.y), p.z as usize, r);
}

// A copy of op, after it or before it, at the place that it names, where there is room for a point.
pub fn duplicate_op(w: &mut [u32], op: usize, after: bool) -> Option<usize>
    requires { Beside w.old op }
    ensures { taken result w.new ≡ duplicate_op w.old op after }
{
    let k = get(w, Col::Points, 0);
    if k >= Job::POINTS {
        return None;
    }
    let (p, n) = if after {
        (op, get(w, Col::Next, op))
    } else {
        (get(w, Col::Prev, op), op)
    };
    let vx = get(w, Col::X, op);
    let vy = get(w, Col::Y, op);
    let vz = get(w, Col::Z, op);
    let r = get(w, Col::Rec, op);
    take_point(w, k, vx, vy, vz, r);
    link_between(w, p, k, n);
    Some(k)
}

// Point op goes out of its ring; its next.
pub fn dispose_out_pt(w: &mut [u32], op: usize) -> usize
    requires { Beside w.old op }
    ensures { disposed result w.new ≡ dispose_out_pt w.old op }
{
    let n = get(w, Col::Next, op);
    let p = get(w, Col::Prev, op);
    unlink(w, p, n);
    n
}

// The record is emptied.
pub fn dispose_out_pts(w: &mut [u32], i: usize)
    requires { (BLOCK ≤ length w.old) × (i < limit.RECORDS) }
    ensures { w.new ≡ dispose_out_pts w.old i }
{
    set(w, Col::First, i, NONE);
}
