// Deciding a step: reads only. Ports of `clean_collinear`, `fix_self_intersects` and `do_split_op`.
ghost use Rattle.std.specs.Prelude.{◌≡◌, cond, not, ◌||◌, ◌+◌, ◌<◌, ◌≤◌, length};
ghost use Rattle.job.specs.Limits as limit;
ghost use Rattle.rings.specs.Progress.{split, done, while_removing};
ghost use Rattle.geometry.specs.Plane.{same_point, area_triangle};
ghost use Rattle.geometry.specs.Table.{InTable};
ghost use Rattle.crossing.specs.Within.{Paired, Crossed};
ghost use Rattle.lone.specs.Act.{drop_point, discard};
ghost use Rattle.store.specs.Field.{rc, FIRST, PRESENT, BLOCK};
ghost use Rattle.store.specs.Words.{cell, view};
ghost use Rattle.store.specs.Value.{preserve_collinear};
ghost use Rattle.walks.specs.Ring.{OnRing};
ghost use Rattle.turns.specs.Code.{due_is, act_is};
ghost use Rattle.turns.specs.Form.{raised, geometry_of};
ghost use Rattle.turns.specs.Reads.{Found, Steps, Going, Three, Four, EdgesAt};
ghost use Rattle.turns.specs.Decide.{keeps_by, small_at, remove_at, valid_without, removal_at, validity_at, triangle_at, three_from, three_left, due_on, cut_at, split_op_at, crossed_at, split_at, decide_at};
ghost use Rattle.acts.specs.Step.{act_at};

use crate::ring::{due_at, next_of, point_at, prev_of};
use crate::{Act, Discard, Due};
use crossing::{Crossing, Edges};
use geometry::Point;
use store::{Col, get};
use walks::area_outpt;

// The setting `preserve_collinear`: bit 0.
fn preserve(w: &[u32]) -> bool
    requires { BLOCK ≤ length w.now }
    ensures { result ≡ preserve_collinear (view w.now) }
{
    get(w, Col::Settings, 0) % 2 == 1
}

// The present place of record i.
pub fn present_of(w: &[u32], i: usize) -> usize
    requires { Going w.now i }
    ensures { Found w.now (cell (rc PRESENT) w.now i) result }
{
    get(w, Col::Present, i)
}

// Its first point.
fn first_of(w: &[u32], i: usize) -> usize
    requires { Going w.now i }
    ensures { Found w.now (cell (rc FIRST) w.now i) result }
{
    get(w, Col::First, i)
}

// ---- the validity test

fn validity_test(w: &[u32], i: usize) -> Act
    requires { Going w.now i }
    ensures { act_is result ≡ validity_at raised.of (geometry_of (view w.now)) (view w.now) i }
{
    let f = first_of(w, i);
    if walks::is_valid_closed_path(w, f) {
        return Act::ToFirst(Due::Removal);
    }
    Act::Discard(Discard::AtValidity)
}

// ---- a turn of the removal loop

// Whether the point x, between p and n, is dropped.
pub fn removable_at(w: &[u32], p: usize, x: usize, n: usize) -> bool
    requires { Three w.now p x n }
    ensures { result ≡ remove_at raised.of (geometry_of (view w.now)) (view w.now) p x n }
{
    let keep = preserve(w);
    let a = point_at(w, p);
    let b = point_at(w, x);
    let c = point_at(w, n);
    geometry::removable(keep, a, b, c)
}

// Whether two of the ring of three a, b, c are really close.
fn small_at(w: &[u32], a: usize, b: usize, c: usize) -> bool
    requires { Three w.now a b c }
    ensures { result ≡ small_at raised.of (geometry_of (view w.now)) (view w.now) a b c }
{
    let p = point_at(w, a);
    let q = point_at(w, b);
    let r = point_at(w, c);
    geometry::is_very_small_triangle(r, p, q)
}

// Whether the ring without x is valid.
pub fn valid_without(w: &[u32], x: usize) -> bool
    requires { OnRing w.now x }
    ensures { result ≡ valid_without raised.of (geometry_of (view w.now)) (view w.now) x }
{
    let a = next_of(w, x);
    let b = next_of(w, a);
    let c = next_of(w, b);
    let e = next_of(w, c);
    if a == x {
        return false;
    }
    if b == x {
        return false;
    }
    if c == x {
        return false;
    }
    if e == x {
        return !small_at(w, a, b, c);
    }
    true
}

// What becomes of the ring if x is dropped.
fn after_drop(w: &[u32], x: usize) -> Act
    requires { OnRing w.now x }
    ensures { act_is result ≡ cond (valid_without raised.of (geometry_of (view w.now)) (view w.now) x) drop_point (discard while_removing) }
{
    if valid_without(w, x) {
        return Act::Drop;
    }
    Act::Discard(Discard::WhileRemoving)
}

fn removal_turn(w: &[u32], i: usize) -> Act
    requires { Going w.now i }
    ensures { act_is result ≡ removal_at raised.of (geometry_of (view w.now)) (view w.now) i }
{
    let x = present_of(w, i);
    let n = next_of(w, x);
    let p = prev_of(w, x);
    if removable_at(w, p, x, n) {
        return after_drop(w, x);
    }
    let s = get(w, Col::Start, i);
    if n == s {
        return Act::MoveOn(Due::Triangle);
    }
    Act::MoveOn(Due::Removal)
}

// ---- the triangle test

// Whether the point before a is the second after it.
fn is_three(w: &[u32], a: usize) -> bool
    requires { OnRing w.now a }
    ensures { result ≡ three_from (view w.now) a }
{
    let p = prev_of(w, a);
    let n = next_of(w, a);
    let m = next_of(w, n);
    p == m
}

fn triangle_test(w: &[u32], i: usize) -> Act
    requires { Going w.now i }
    ensures { act_is result ≡ triangle_at (view w.now) i }
{
    let f = first_of(w, i);
    if is_three(w, f) {
        return Act::ToFirst(Due::Done);
    }
    Act::ToFirst(Due::Split)
}

// ---- a turn of the split loop

// Whether the loop ends at k: it is the first point or the loop's start.
fn due_on(w: &[u32], i: usize, k: usize) -> Due
    requires { (BLOCK ≤ length w.now) × (i < limit.RECORDS) }
    ensures { due_is result ≡ due_on (view w.now) i k }
{
    let f = get(w, Col::First, i);
    if k == f {
        return Due::Done;
    }
    let s = get(w, Col::Start, i);
    if k == s {
        return Due::Done;
    }
    Due::Split
}

// The edges from p to x and from y to z.
pub fn edges_at(w: &[u32], p: usize, x: usize, y: usize, z: usize) -> Edges
    requires { Four w.now p x y z }
    ensures { EdgesAt w.now p x y z result }
{
    let prev = point_at(w, p);
    let pt = point_at(w, x);
    let next = point_at(w, y);
    let after = point_at(w, z);
    crossing::edges_of(prev, pt, next, after)
}

// Whether the crossing is put into the ring: it is neither the point before nor the second after.
fn put_in(ip: Point, prev: Point, next_next: Point) -> bool
    ensures { result ≡ not (same_point ip prev || same_point ip next_next) }
{
    let a = geometry::same_point(ip, prev);
    let b = geometry::same_point(ip, next_next);
    !(a | b)
}

// Whether the sizes or the signs of the ring's doubled area and of the triangle's ask for an offcut.
fn keeps(area1: i64, area2: i64) -> bool
    ensures { result ≡ keeps_by area1 area2 }
{
    let n2 = area2.unsigned_abs();
    if n2 < 1 {
        return false;
    }
    if area1.unsigned_abs() / 2 < n2 {
        return true;
    }
    (0 < area1) == (0 < area2)
}

// The same, by the triangle's points.
fn keeps_offcut(area1: i64, ip: Point, pt: Point, next: Point) -> bool
    requires fact_1 { InTable ip }
    requires fact_2 { InTable pt }
    requires fact_3 { InTable next }
    ensures { result ≡ keeps_by area1 (area_triangle ip pt next) }
{
    let area2 = geometry::area_triangle(ip, pt, next);
    keeps(area1, area2)
}

// Whether three points are left once x and its next are cut away.
fn three_left(w: &[u32], x: usize, put: bool) -> bool
    requires { OnRing w.now x }
    ensures { result ≡ three_left (view w.now) put x }
{
    let a = next_of(w, x);
    let b = next_of(w, a);
    let c = next_of(w, b);
    let e = next_of(w, c);
    if put {
        return e == x;
    }
    let f = next_of(w, e);
    f == x
}

// The step due after the cut.
fn due_left(w: &[u32], x: usize, put: bool) -> Due
    requires { OnRing w.now x }
    ensures { due_is result ≡ cond (three_left (view w.now) put x) done split }
{
    if three_left(w, x, put) {
        return Due::Done;
    }
    Due::Split
}

// Where the edges cross, by the crossing's kind; the Rust's `ip` begins as the first edge's start, and parallel edges leave it.
fn crossing_of(e: Edges) -> Point
    requires { Paired e }
    ensures { Crossed e.a e.b e.c e.d result }
{
    match crossing::get_segment_intersect_pt(e) {
        Crossing::Parallel => e.a,
        Crossing::Start => e.a,
        Crossing::End => e.b,
        Crossing::Inside { first, second: _ } => crossing::point_inside(e, first),
    }
}

// The cut at x, of a ring whose doubled area is area1; the edges are those to x and from the next.
fn cut_at(w: &[u32], x: usize, e: Edges, area1: i64) -> Act
    requires { OnRing w.now x × Paired e }
    ensures { act_is result ≡ cut_at raised.of (geometry_of (view w.now)) (view w.now) area1 x e.a e.b e.c e.d }
{
    let ip = crossing_of(e);
    let put = put_in(ip, e.a, e.d);
    let off = keeps_offcut(area1, ip, e.b, e.c);
    let due = due_left(w, x, put);
    Act::Cut(ip, put, off, due)
}

// `do_split_op` at x, after the point p.
fn do_split_op(w: &[u32], p: usize, x: usize, e: Edges) -> Act
    requires { OnRing w.now p × OnRing w.now x × Paired e }
    ensures { act_is result ≡ split_op_at raised.of (geometry_of (view w.now)) (view w.now) p x e.a e.b e.c e.d }
{
    let area1 = area_outpt(w, p);
    if area1.unsigned_abs() < 4 {
        return Act::Discard(Discard::AtSplit);
    }
    cut_at(w, x, e, area1)
}

// A split turn where the edges about x cross; z is the second after it.
fn crossed_turn(w: &[u32], i: usize, p: usize, x: usize, z: usize, e: Edges) -> Act
    requires { Going w.now i × Three w.now p x z × Paired e }
    ensures { act_is result ≡ crossed_at raised.of (geometry_of (view w.now)) (view w.now) i p x z e.a e.b e.c e.d }
{
    let u = next_of(w, z);
    let v = point_at(w, u);
    if crossing::segments_intersect(crossing::edges_of(e.a, e.b, e.d, v)) {
        return Act::Double(e.d, due_on(w, i, x));
    }
    do_split_op(w, p, x, e)
}

fn split_turn(w: &[u32], i: usize) -> Act
    requires { Going w.now i }
    ensures { act_is result ≡ split_at raised.of (geometry_of (view w.now)) (view w.now) i }
{
    let x = present_of(w, i);
    let y = next_of(w, x);
    let z = next_of(w, y);
    let p = prev_of(w, x);
    let e = edges_at(w, p, x, y, z);
    if crossing::segments_intersect(e) {
        return crossed_turn(w, i, p, x, z, e);
    }
    Act::MoveOn(due_on(w, i, y))
}

// The step due, decided.
fn decide_due(w: &[u32], i: usize) -> Act
    requires { Going w.now i }
    ensures { act_is result ≡ decide_at raised.of (geometry_of (view w.now)) (view w.now) i }
{
    match due_at(w, i) {
        Due::Validity => validity_test(w, i),
        Due::Removal => removal_turn(w, i),
        Due::Triangle => triangle_test(w, i),
        Due::Split => split_turn(w, i),
        Due::Done => Act::Stay,
    }
}

// What the lone ring of record i would do.
pub fn decide(w: &[u32], i: usize) -> Act
    requires { Steps w.now i }
    ensures { act_is result ≡ act_at (geometry_of (view w.now)) raised (view w.now) i }
{
    decide_due(w, i)
}
