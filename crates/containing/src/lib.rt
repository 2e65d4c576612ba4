// Whether one closed path contains another: `path2_contains_path1` of engine_fns.rs, with `get_bounds_path` and the middle of a box from core.rs, over paths that lie in a tray's bytes.
#![tactic(auto)]

ghost use Rattle.std.specs.Prelude.{◌≡◌, ◌<◌, ◌^◌};
ghost use Rattle.std.proofs.Math.Option.{some};
ghost use Rattle.exact.specs.Num.{Within};
ghost use Rattle.geometry.specs.Box.{around, widen, box_of};
ghost use Rattle.listing.specs.Fields.{points_in};
ghost use Rattle.listing.specs.Needs.{Run};
ghost use Rattle.containing.specs.Middle.{half, mid_point};
ghost use Rattle.containing.specs.Outside.{outside, begins_outside};
ghost use Rattle.containing.specs.Needs.{BoxIn};
ghost use Rattle.containing.specs.Contains.{is_inside, repeats, latest, middle_inside, path2_contains_path1};

use geometry::{Point, Rect};
use listing::point_in;
use paths::POINT;
use polygons::{PointInPolygonResult, point_in_polygon};

// ---- the box of a path, and its middle

// The box of one point.
fn around(p: Point) -> Rect
    ensures { result ≡ around p }
{
    Rect {
        left: p.x,
        top: p.y,
        right: p.x,
        bottom: p.y,
    }
}

// The lesser box that has a further point too.
fn widen(b: Rect, p: Point) -> Rect
    ensures { result ≡ widen b p }
{
    Rect {
        left: b.left.min(p.x),
        top: b.top.min(p.y),
        right: p.x.max(b.right),
        bottom: p.y.max(b.bottom),
    }
}

// The box of the n points from `from` on.
pub fn get_bounds_path(t: &[u8], from: usize, n: usize) -> Rect
    requires fact_1 { Run t.now n from }
    requires fact_2 { 0 < n }
    ensures { some result ≡ box_of (points_in t.now n from) }
{
    let p = point_in(t, from);
    let mut b = around(p);
    let mut at = from + POINT;
    for i in 1..n {
        b = widen(b, point_in(t, at));
        at += POINT;
    }
    b
}

// The middle between two coordinates, toward zero.
fn half(a: i32, b: i32) -> i32
    requires fact_1 { Within (2 ^ 20) a }
    requires fact_2 { Within (2 ^ 20) b }
    ensures { result ≡ half a b }
{
    (a + b) / 2
}

// The middle of a box.
fn mid_point(b: Rect) -> Point
    requires { BoxIn b }
    ensures { result ≡ mid_point b }
{
    let x = half(b.left, b.right);
    let y = half(b.top, b.bottom);
    Point { x, y, z: 0 }
}

// Whether p lies outside the box b, whose sides count as inside.
fn outside(b: Rect, p: Point) -> bool
    ensures { result ≡ outside b p }
{
    (p.x < b.left) | (b.right < p.x) | (p.y < b.top) | (b.bottom < p.y)
}

// Whether the path of the n points from `from` on begins with two points outside the box b: then no path within b contains it.
pub fn begins_outside(t: &[u8], from: usize, n: usize, b: Rect) -> bool
    requires { Run t.now n from }
    ensures { result ≡ begins_outside b (points_in t.now n from) }
{
    if n < 2 {
        return false;
    }
    let p = point_in(t, from);
    let q = point_in(t, from + POINT);
    outside(b, p) & outside(b, q)
}

// ---- one path in another

// Whether it is inside.
fn is_inside(r: PointInPolygonResult) -> bool
    ensures { result ≡ is_inside r }
{
    r == PointInPolygonResult::IsInside
}

// Whether r, off the path, is as the last one off the path was.
fn repeats(last: PointInPolygonResult, r: PointInPolygonResult) -> bool
    ensures { result ≡ repeats last r }
{
    r != PointInPolygonResult::IsOn && r == last
}

// The last one off the path.
fn latest(last: PointInPolygonResult, r: PointInPolygonResult) -> PointInPolygonResult
    ensures { result ≡ latest last r }
{
    if r == PointInPolygonResult::IsOn {
        last
    } else {
        r
    }
}

// Whether the middle of path1's box lies inside path2.
fn middle_inside(t: &[u8], from1: usize, n1: usize, from2: usize, n2: usize) -> bool
    requires fact_1 { Run t.now n1 from1 }
    requires fact_2 { 0 < n1 }
    requires fact_3 { Run t.now n2 from2 }
    ensures { result ≡ middle_inside (box_of (points_in t.now n1 from1)) (points_in t.now n2 from2) }
{
    let b = get_bounds_path(t, from1, n1);
    let middle = mid_point(b);
    let r = point_in_polygon(middle, t, from2, n2);
    is_inside(r)
}

// Whether the closed path of n2 points from `from2` on contains that of n1 points from `from1` on.
pub fn path2_contains_path1(t: &[u8], from1: usize, n1: usize, from2: usize, n2: usize) -> bool
    requires fact_1 { Run t.now n1 from1 }
    requires fact_2 { Run t.now n2 from2 }
    ensures { result ≡ path2_contains_path1 (points_in t.now n1 from1) (points_in t.now n2 from2) }
{
    if n1 == 0 {
        return false;
    }
    let mut pip = PointInPolygonResult::IsOn;
    let mut at = from1;
    for i in 0..n1 {
        let pt = point_in(t, at);
        let r = point_in_polygon(pt, t, from2, n2);
        if repeats(pip, r) {
            return is_inside(r);
        }
        pip = latest(pip, r);
        at += POINT;
    }
    if is_inside(pip) {
        return middle_inside(t, from1, n1, from2, n2);
    }
    false
}
