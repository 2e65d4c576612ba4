// Walks round a ring: the doubled area, whether it is valid.
#![tactic(auto)]

ghost use Rattle.std.specs.Prelude.{◌≡◌, true};
ghost use Rattle.geometry.specs.Plane.{edge_area, area_outpt, is_very_small_triangle};
ghost use Rattle.lone.specs.Lone.{is_valid_closed_path};
ghost use Rattle.lone.specs.Plane.{plane};
ghost use Rattle.store.specs.Named.{prev_of};
ghost use Rattle.store.specs.Value.{point_of};
ghost use Rattle.walks.specs.Ring.{OnRing, MaybeOnRing, Edge, Neighbours, values_from, values_of, is_very_small};

use geometry::edge_area;
use primitives::point;
use store::{Col, NONE, get};

// The part of the edge to op in the doubled area.
fn edge_to(w: &[u32], op: usize) -> i64
    requires { Edge w.now op }
    ensures { result ≡ edge_area (point_of w.now (prev_of w.now op)) (point_of w.now op) }
{
    let p = get(w, Col::Prev, op);
    let a = point(w, p);
    let b = point(w, op);
    edge_area(a, b)
}

// The ring's doubled area: once round along links, so that no index is counted.
pub fn area_outpt(w: &[u32], op_start: usize) -> i64
    requires { OnRing w.now op_start }
    ensures { result ≡ area_outpt (values_from w.now op_start) }
{
    let mut result: i64 = 0;
    let mut op2 = op_start;
    loop {
        result += edge_to(w, op2);
        op2 = get(w, Col::Next, op2);
        if op2 == op_start {
            return result;
        }
    }
}

// Whether two of the three points are really close.
fn small_three(w: &[u32], p: usize, op: usize, n: usize) -> bool
    requires { Neighbours w.now p op n }
    ensures { result ≡ is_very_small_triangle (point_of w.now p) (point_of w.now op) (point_of w.now n) }
{
    let a = point(w, p);
    let b = point(w, op);
    let c = point(w, n);
    geometry::is_very_small_triangle(a, b, c)
}

// Whether the ring is a triangle of which two points are really close.
pub fn is_very_small_triangle(w: &[u32], op: usize) -> bool
    requires { OnRing w.now op }
    ensures { result ≡ is_very_small (values_from w.now op) }
{
    let n = get(w, Col::Next, op);
    let p = get(w, Col::Prev, op);
    let m = get(w, Col::Next, n);
    if m != p {
        return false;
    }
    small_three(w, p, op, n)
}

// Whether the ring has at least three points, and is no such triangle.
pub fn is_valid_closed_path(w: &[u32], op: usize) -> bool
    requires { MaybeOnRing w.now op }
    ensures { result ≡ is_valid_closed_path (plane true) (values_of w.now op) }
{
    if op == NONE {
        return false;
    }
    let n = get(w, Col::Next, op);
    if n == op {
        return false;
    }
    let p = get(w, Col::Prev, op);
    if n == p {
        return false;
    }
    !is_very_small_triangle(w, op)
}
