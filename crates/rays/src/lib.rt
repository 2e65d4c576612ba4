// How an edge goes, seen from a point: the crossing rule of `point_in_polygon` of core.rs, for one edge. A ray goes from the point to its left, along its level.
#![tactic(auto)]

ghost use Rattle.std.specs.Prelude.{◌≡◌};
ghost use Rattle.std.specs.Int.Signed.{lt_z};
ghost use Rattle.exact.specs.Equal.{eq_z};
ghost use Rattle.geometry.specs.Plane.{cross_product_sign};
ghost use Rattle.geometry.specs.Table.{InTable};
ghost use Rattle.rays.specs.Edge.{is_level, is_above, between_way, level_way, over_way, way_of};
ghost use Rattle.rays.specs.Needs.{BeginsOn, GoesOver};

use geometry::{Point, cross_product_sign};

// An edge touches the point, stays on its side of the level, or goes over to the other side: past the point, or crossing the ray.
#[derive(Clone, Copy)]
pub enum Way {
    Touches,
    Stays,
    Passes,
    Crosses,
}

// Whether q is on the level of pt.
pub fn is_level(pt: Point, q: Point) -> bool
    ensures { result ≡ is_level pt q }
{
    q.y == pt.y
}

// Whether q is off that level, on the side that the Rust calls above.
pub fn is_above(pt: Point, q: Point) -> bool
    ensures { result ≡ is_above pt q }
{
    q.y < pt.y
}

// Whether q has the x of pt. A test in place, `q.x == pt.x`, speaks of words, and these three say it over whole numbers.
fn is_column(pt: Point, q: Point) -> bool
    ensures { result ≡ eq_z q.x pt.x }
{
    q.x == pt.x
}

// Whether q is on the right of pt.
fn is_right(pt: Point, q: Point) -> bool
    ensures { result ≡ lt_z pt.x q.x }
{
    pt.x < q.x
}

// Whether q is on the left of pt.
fn is_left(pt: Point, q: Point) -> bool
    ensures { result ≡ lt_z q.x pt.x }
{
    q.x < pt.x
}

// A level edge from p to q on the point's level, with the point at neither end.
fn between_way(pt: Point, p: Point, q: Point) -> Way
    ensures { result ≡ between_way pt p q }
{
    if is_right(pt, p) == is_right(pt, q) {
        return Way::Stays;
    }
    Way::Touches
}

// The edge from p to q, with q on the point's level.
fn level_way(pt: Point, p: Point, q: Point) -> Way
    ensures { result ≡ level_way pt p q }
{
    if is_column(pt, q) {
        return Way::Touches;
    }
    if is_level(pt, p) {
        return between_way(pt, p, q);
    }
    Way::Stays
}

// An edge that goes over to the other side, by the sign of the cross product.
fn over_way(above: bool, d: i32) -> Way
    ensures { result ≡ over_way above d }
{
    if d == 0 {
        return Way::Touches;
    }
    if (d < 0) == above {
        return Way::Crosses;
    }
    Way::Passes
}

// An edge from p, on the side `above` or on the level, to q on the other side.
fn over(pt: Point, above: bool, p: Point, q: Point) -> Way
    requires fact_1 { InTable pt }
    requires fact_2 { InTable p }
    requires fact_3 { InTable q }
    requires fact_4 { GoesOver pt above p q }
    ensures { result ≡ over_way above (cross_product_sign p q pt) }
{
    if is_right(pt, p) & is_right(pt, q) {
        return Way::Passes;
    }
    if is_left(pt, p) & is_left(pt, q) {
        return Way::Crosses;
    }
    let d = cross_product_sign(p, q, pt);
    over_way(above, d)
}

// The edge from p to q, which begins on the side `above` or on the level.
pub fn way_of(pt: Point, above: bool, p: Point, q: Point) -> Way
    requires fact_1 { InTable pt }
    requires fact_2 { InTable p }
    requires fact_3 { InTable q }
    requires fact_4 { BeginsOn pt above p }
    ensures { result ≡ way_of pt above p q }
{
    if is_level(pt, q) {
        return level_way(pt, p, q);
    }
    if is_above(pt, q) == above {
        return Way::Stays;
    }
    over(pt, above, p, q)
}
