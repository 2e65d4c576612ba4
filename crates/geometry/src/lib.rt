// Geometry of rings: the tests on points that core.rs and engine_fns.rs have.
#![tactic(auto)]

ghost use Rattle.std.specs.Prelude.{◌≡◌, ◌^◌, ◌+ℤ◌, ◌-ℤ◌, ◌*ℤ◌};
ghost use Rattle.exact.specs.Num.{Within};
ghost use Rattle.geometry.specs.Plane.{same_point, is_collinear, sign_of, cross_product_sign, dot_product_three_points, edge_area, area_triangle, close_by, pts_really_close, is_very_small_triangle, removable};
ghost use Rattle.geometry.specs.Table.{InTable};

// A point: x and y in micrometres, and its depth z, a signed number of 32 bits kept as its word in two's complement. Only x and y are compared.
#[derive(Clone, Copy)]
pub struct Point {
    pub x: i32,
    pub y: i32,
    pub z: u32,
}

// A box: the least and greatest x and y. As in core.rs, top is the least y.
#[derive(Clone, Copy)]
pub struct Rect {
    pub left: i32,
    pub top: i32,
    pub right: i32,
    pub bottom: i32,
}

// Equality of points: the only one. z does not count. It keeps a name: an impl of `==` that skips a field is longer, and no plainer.
pub fn same_point(p: Point, q: Point) -> bool
    ensures { result ≡ same_point p q }
{
    (p.x == q.x) & (p.y == q.y)
}

// The product of two differences of coordinates.
pub fn product(a: i32, b: i32, c: i32, d: i32) -> i64
    requires fact_1 { Within (2 ^ 20) a }
    requires fact_2 { Within (2 ^ 20) b }
    requires fact_3 { Within (2 ^ 20) c }
    requires fact_4 { Within (2 ^ 20) d }
    ensures { result ≡ (a -ℤ b) *ℤ (c -ℤ d) }
{
    (a as i64 - b as i64) * (c as i64 - d as i64)
}

// Whether the three points lie on one line.
pub fn is_collinear(pt1: Point, shared_pt: Point, pt2: Point) -> bool
    requires fact_1 { InTable pt1 }
    requires fact_2 { InTable shared_pt }
    requires fact_3 { InTable pt2 }
    ensures { result ≡ is_collinear pt1 shared_pt pt2 }
{
    product(shared_pt.x, pt1.x, pt2.y, shared_pt.y)
        == product(shared_pt.y, pt1.y, pt2.x, shared_pt.x)
}

// 1, -1 or 0, as ab is greater than cd, less, or equal.
fn sign_of(ab: i64, cd: i64) -> i32
    ensures { result ≡ sign_of ab cd }
{
    if ab > cd {
        return 1;
    }
    if ab < cd {
        return -1;
    }
    0
}

// To which side the way turns at pt2.
pub fn cross_product_sign(pt1: Point, pt2: Point, pt3: Point) -> i32
    requires fact_1 { InTable pt1 }
    requires fact_2 { InTable pt2 }
    requires fact_3 { InTable pt3 }
    ensures { result ≡ cross_product_sign pt1 pt2 pt3 }
{
    sign_of(
        product(pt2.x, pt1.x, pt3.y, pt2.y),
        product(pt2.y, pt1.y, pt3.x, pt2.x),
    )
}

// The edge to pt2 times the edge from it.
pub fn dot_product_three_points(pt1: Point, pt2: Point, pt3: Point) -> i64
    requires fact_1 { InTable pt1 }
    requires fact_2 { InTable pt2 }
    requires fact_3 { InTable pt3 }
    ensures { result ≡ dot_product_three_points pt1 pt2 pt3 }
{
    product(pt2.x, pt1.x, pt3.x, pt2.x) + product(pt2.y, pt1.y, pt3.y, pt2.y)
}

// One edge's part in a doubled area.
pub fn edge_area(prev: Point, pt: Point) -> i64
    requires fact_1 { InTable prev }
    requires fact_2 { InTable pt }
    ensures { result ≡ edge_area prev pt }
{
    (prev.y as i64 + pt.y as i64) * (prev.x as i64 - pt.x as i64)
}

// The doubled area of three points.
pub fn area_triangle(pt1: Point, pt2: Point, pt3: Point) -> i64
    requires fact_1 { InTable pt1 }
    requires fact_2 { InTable pt2 }
    requires fact_3 { InTable pt3 }
    ensures { result ≡ area_triangle pt1 pt2 pt3 }
{
    edge_area(pt3, pt1) + edge_area(pt1, pt2) + edge_area(pt2, pt3)
}

// Whether a and b differ by under 2.
fn close(a: i32, b: i32) -> bool
    ensures { result ≡ close_by a b }
{
    a.abs_diff(b) < 2
}

// Whether two points differ by under 2 in both x and y.
pub fn pts_really_close(pt1: Point, pt2: Point) -> bool
    ensures { result ≡ pts_really_close pt1 pt2 }
{
    close(pt1.x, pt2.x) & close(pt1.y, pt2.y)
}

// Whether two of the three are really close.
pub fn is_very_small_triangle(prev: Point, pt: Point, next: Point) -> bool
    ensures { result ≡ is_very_small_triangle prev pt next }
{
    pts_really_close(prev, next) | pts_really_close(pt, next) | pts_really_close(pt, prev)
}

// Whether `clean_collinear` drops pt: it lies in line, and is double, or in-line points go, or it is a spike.
pub fn removable(preserve: bool, prev: Point, pt: Point, next: Point) -> bool
    requires fact_1 { InTable prev }
    requires fact_2 { InTable pt }
    requires fact_3 { InTable next }
    ensures { result ≡ removable preserve prev pt next }
{
    let spike = dot_product_three_points(prev, pt, next) < 0;
    is_collinear(prev, pt, next) & (same_point(pt, prev) | same_point(pt, next) | !preserve | spike)
}
