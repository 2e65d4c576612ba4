// Where a point lies in respect of a closed path: `point_in_polygon` of core.rs, over a path that lies in a tray's bytes.
#![tactic(auto)]

ghost use Rattle.std.specs.Prelude.{◌≡◌, not, ◌+◌, ◌-◌, ◌*◌, ◌<◌};
ghost use Rattle.geometry.specs.Table.{InTable};
ghost use Rattle.paths.specs.Tray as trays;
ghost use Rattle.listing.specs.Fields.{point_in, points_in};
ghost use Rattle.listing.specs.Needs.{Held, Run};
ghost use Rattle.rays.specs.Edge.{is_level};
ghost use Rattle.polygons.specs.Polygon.{after, along, walk, start, result_of, round_from, levels, point_in_polygon};
ghost use Rattle.polygons.specs.Needs.{Sided};

use geometry::Point;
use listing::point_in;
use paths::POINT;
use rays::{Way, is_above, is_level, way_of};

// Where a point lies in respect of a closed path.
#[derive(Clone, Copy, PartialEq, Eq)]
pub enum PointInPolygonResult {
    IsOn,
    IsInside,
    IsOutside,
}

// Going round a path: whether the point was met, the side of its level, whether the crossings are odd.
#[derive(Clone, Copy)]
struct Tour {
    on: bool,
    above: bool,
    odd: bool,
}

// The tour after an edge that goes so.
fn after(s: Tour, way: Way) -> Tour
    ensures { result ≡ after s way }
{
    match way {
        Way::Touches => Tour { on: true, ..s },
        Way::Stays => s,
        Way::Passes => Tour {
            above: !s.above,
            ..s
        },
        Way::Crosses => Tour {
            above: !s.above,
            odd: !s.odd,
            ..s
        },
    }
}

// Along the edge from the point at `prev` to that at `at`.
fn along(pt: Point, t: &[u8], prev: usize, at: usize, s: Tour) -> Tour
    requires fact_1 { InTable pt }
    requires fact_2 { Held t.now prev }
    requires fact_3 { Held t.now at }
    requires fact_4 { Sided pt s (point_in t.now prev) }
    ensures { result ≡ along pt s (point_in t.now prev) (point_in t.now at) }
{
    if s.on {
        return s;
    }
    let p = point_in(t, prev);
    let q = point_in(t, at);
    let way = way_of(pt, s.above, p, q);
    after(s, way)
}

// From the point at `prev` through the n points from `from` on.
fn walk(pt: Point, t: &[u8], prev: usize, from: usize, n: usize, s: Tour) -> Tour
    requires fact_1 { InTable pt }
    requires fact_2 { Held t.now prev }
    requires fact_3 { Run t.now n from }
    requires fact_4 { Sided pt s (point_in t.now prev) }
    ensures { result ≡ walk pt s (point_in t.now prev) (points_in t.now n from) }
{
    let mut tour = s;
    let mut before = prev;
    let mut at = from;
    for i in 0..n {
        if tour.on {
            return tour;
        }
        tour = along(pt, t, before, at, tour);
        before = at;
        at += POINT;
    }
    tour
}

// How many points on the level of pt a path begins with.
fn levels(pt: Point, t: &[u8], from: usize, n: usize) -> usize
    requires { Run t.now n from }
    ensures { result ≡ levels pt (points_in t.now n from) }
{
    let mut at = from;
    for i in 0..n {
        if !is_level(pt, point_in(t, at)) {
            return i;
        }
        at += POINT;
    }
    n
}

// A tour that begins at the vertex at `at`.
fn start(pt: Point, t: &[u8], at: usize) -> Tour
    requires { Held t.now at }
    ensures { result ≡ start pt (point_in t.now at) }
{
    let v = point_in(t, at);
    let above = is_above(pt, v);
    Tour {
        on: false,
        above,
        odd: false,
    }
}

// What a tour once round says.
fn result_of(s: Tour) -> PointInPolygonResult
    ensures { result ≡ result_of s }
{
    if s.on {
        return PointInPolygonResult::IsOn;
    }
    if s.odd {
        return PointInPolygonResult::IsInside;
    }
    PointInPolygonResult::IsOutside
}

// Once round from point number f: to the path's end, and from its beginning back to f.
fn round_from(pt: Point, t: &[u8], from: usize, n: usize, f: usize) -> PointInPolygonResult
    requires fact_1 { InTable pt }
    requires fact_2 { Run t.now n from }
    requires fact_3 { f < n }
    ensures { result ≡ round_from pt (points_in t.now f from) (points_in t.now (n - f) (from + trays.POINT * f)) }
{
    let at = from + POINT * f;
    let last = from + POINT * (n - 1);
    let a = start(pt, t, at);
    let b = walk(pt, t, at, at + POINT, n - f - 1, a);
    let c = walk(pt, t, last, from, f + 1, b);
    result_of(c)
}

// Where pt lies in respect of the closed path of the n points from `from` on.
pub fn point_in_polygon(pt: Point, t: &[u8], from: usize, n: usize) -> PointInPolygonResult
    requires fact_1 { InTable pt }
    requires fact_2 { Run t.now n from }
    ensures { result ≡ point_in_polygon pt (points_in t.now n from) }
{
    if n < 3 {
        return PointInPolygonResult::IsOutside;
    }
    let f = levels(pt, t, from, n);
    if f == n {
        return PointInPolygonResult::IsOutside;
    }
    round_from(pt, t, from, n, f)
}
