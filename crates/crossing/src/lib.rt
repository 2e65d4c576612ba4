// Where two edges cross: core.rs and engine_fns.rs of the Rust, in floats that hold whole numbers but for one division for each fraction.
#![tactic(auto)]

ghost use Rattle.std.specs.Prelude.{◌≡◌};
ghost use Rattle.geometry.specs.Plane.{segments_intersect};
ghost use Rattle.geometry.specs.Table.{InTable};
ghost use Rattle.crossing.specs.Crossing.{edge_pair, crossing, point_at};
ghost use Rattle.crossing.specs.Within.{edges_of, Paired, MeetAt};
ghost use Rattle.crossing.specs.Floats.{divisor_f, along_f, strictly_within_f, quotient_f, fraction_f, Reach, stepped_f};

use geometry::Point;

// The differences of two edges: the first from a to b, the second from c to d.
#[derive(Clone, Copy)]
pub struct EdgePair {
    pub dx1: f64,
    pub dy1: f64,
    pub dx2: f64,
    pub dy2: f64,
}

// Two edges by value, the first from a to b, the second from c to d, with their differences, made once.
// `Paired` is asked for in clauses and is no ghost field here: the definition `edges_of` makes Edges of any four points, on the table or not.
#[derive(Clone, Copy)]
pub struct Edges {
    pub a: Point,
    pub b: Point,
    pub c: Point,
    pub d: Point,
    pub pair: EdgePair,
}

// Where the line of the second edge meets the first: nowhere, at or before its start, at or after its end, or inside, with the fractions
// of the first edge and of the second at which they meet.
#[derive(Clone, Copy)]
pub enum Crossing {
    Parallel,
    Start,
    End,
    Inside { first: f64, second: f64 },
}

// The differences of the edges from a to b and from c to d.
fn edge_pair(a: Point, b: Point, c: Point, d: Point) -> EdgePair
    requires fact_1 { InTable a }
    requires fact_2 { InTable b }
    requires fact_3 { InTable c }
    requires fact_4 { InTable d }
    ensures { result ≡ edge_pair a b c d }
{
    EdgePair {
        dx1: b.x as f64 - a.x as f64,
        dy1: b.y as f64 - a.y as f64,
        dx2: d.x as f64 - c.x as f64,
        dy2: d.y as f64 - c.y as f64,
    }
}

// The edges from a to b and from c to d.
pub fn edges_of(a: Point, b: Point, c: Point, d: Point) -> Edges
    requires fact_1 { InTable a }
    requires fact_2 { InTable b }
    requires fact_3 { InTable c }
    requires fact_4 { InTable d }
    ensures { result ≡ edges_of a b c d }
{
    Edges {
        a,
        b,
        c,
        d,
        pair: edge_pair(a, b, c, d),
    }
}

// The cross product of the two edges.
fn divisor(e: EdgePair) -> f64
    ensures { result ≡ divisor_f e }
{
    e.dy1 * e.dx2 - e.dy2 * e.dx1
}

// The cross product of the edge (dx, dy) and the way from c to a.
fn along(a: Point, c: Point, dx: f64, dy: f64) -> f64
    requires { (InTable a) × (InTable c) }
    ensures { result ≡ along_f a.x a.y c.x c.y dx dy }
{
    (a.x as f64 - c.x as f64) * dy - (a.y as f64 - c.y as f64) * dx
}

// Whether t lies strictly between 0 and cp.
fn strictly_within(t: f64, cp: f64) -> bool
    ensures { result ≡ strictly_within_f t cp }
{
    if t > 0.0 {
        return t < cp;
    }
    if t < 0.0 {
        return cp < t;
    }
    false
}

// Whether the two edges cross at an inner point of both.
pub fn segments_intersect(e: Edges) -> bool
    requires { Paired e }
    ensures { result ≡ segments_intersect e.a e.b e.c e.d }
{
    let cp = divisor(e.pair);
    if cp == 0.0 {
        return false;
    }
    strictly_within(along(e.a, e.c, e.pair.dx2, e.pair.dy2), cp)
        && strictly_within(along(e.a, e.c, e.pair.dx1, e.pair.dy1), cp)
}

// num / det, rounded once; 0 is plus, also where num is -0.
fn quotient(num: f64, det: f64) -> f64
    ensures { result ≡ quotient_f num det }
{
    if num == 0.0 {
        return 0.0;
    }
    num / det
}

// The crossing, by the numerators of both fractions and their divisor.
fn fraction(num1: f64, num2: f64, det: f64) -> Crossing
    ensures { result ≡ fraction_f num1 num2 det }
{
    if det == 0.0 {
        return Crossing::Parallel;
    }
    let first = num1 / det;
    if first <= 0.0 {
        return Crossing::Start;
    }
    if first >= 1.0 {
        return Crossing::End;
    }
    Crossing::Inside {
        first,
        second: quotient(num2, det),
    }
}

// Where the second edge's line meets the first. The Rust's `ip` is what the split makes of the answer; its `false` is `Parallel`.
pub fn get_segment_intersect_pt(e: Edges) -> Crossing
    requires { Paired e }
    ensures { result ≡ crossing e.a e.b e.c e.d }
{
    let num1 = along(e.a, e.c, e.pair.dx2, e.pair.dy2);
    let num2 = along(e.a, e.c, e.pair.dx1, e.pair.dy1);
    fraction(num1, num2, divisor(e.pair))
}

// From a by the fraction t of the difference d: product and sum rounded once each, then dropped toward zero.
fn stepped(a: i32, d: f64, t: f64) -> i32
    requires { Reach a d t }
    ensures { result ≡ stepped_f a d t }
{
    std::num::truncating_f64_to_i64(a as f64 + t * d) as i32
}

// The point of the first edge at its fraction t, where the edges meet inside it: `ip` of `get_segment_intersect_pt`. Its z is 0.
pub fn point_inside(e: Edges, t: f64) -> Point
    requires { MeetAt e t }
    ensures { result ≡ point_at e.a e.b t }
{
    Point {
        x: stepped(e.a.x, e.pair.dx1, t),
        y: stepped(e.a.y, e.pair.dy1, t),
        z: 0,
    }
}
