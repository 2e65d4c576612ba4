// Whether two edges cross, over whole numbers: what the walk of the split loop asks of every point. It is `segments_intersect`, without a float: document 01 names floats for the test of a split turn (`crossing`), and whole numbers are faster in the walk.
#![tactic(auto)]

ghost use Rattle.std.specs.Prelude.{◌≡◌, ◌-ℤ◌, ◌*ℤ◌};
ghost use Rattle.geometry.specs.Plane.{divisor, strictly_within, segments_intersect};
ghost use Rattle.geometry.specs.Table.{InTable};

use geometry::{Point, product};

// The cross product of the edges from a to b and from c to d.
fn divisor(a: Point, b: Point, c: Point, d: Point) -> i64
    requires fact_1 { InTable a }
    requires fact_2 { InTable b }
    requires fact_3 { InTable c }
    requires fact_4 { InTable d }
    ensures { result ≡ divisor a b c d }
{
    product(b.y, a.y, d.x, c.x) - product(d.y, c.y, b.x, a.x)
}

// The cross product of the edge from p to q and the way from c to a.
fn along(a: Point, c: Point, p: Point, q: Point) -> i64
    requires fact_1 { InTable a }
    requires fact_2 { InTable c }
    requires fact_3 { InTable p }
    requires fact_4 { InTable q }
    ensures { result ≡ (a.x -ℤ c.x) *ℤ (q.y -ℤ p.y) -ℤ (a.y -ℤ c.y) *ℤ (q.x -ℤ p.x) }
{
    product(a.x, c.x, q.y, p.y) - product(a.y, c.y, q.x, p.x)
}

// Whether t lies strictly between 0 and cp.
fn is_between(t: i64, cp: i64) -> bool
    ensures { result ≡ strictly_within t cp }
{
    if t > 0 {
        return t < cp;
    }
    if t < 0 {
        return cp < t;
    }
    false
}

// Whether the edges from a to b and from c to d cross at an inner point of both.
pub fn edges_cross(a: Point, b: Point, c: Point, d: Point) -> bool
    requires fact_1 { InTable a }
    requires fact_2 { InTable b }
    requires fact_3 { InTable c }
    requires fact_4 { InTable d }
    ensures { result ≡ segments_intersect a b c d }
{
    let cp = divisor(a, b, c, d);
    if cp == 0 {
        return false;
    }
    is_between(along(a, c, c, d), cp) && is_between(along(a, c, a, b), cp)
}
