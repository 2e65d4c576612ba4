// Runs the stored cases on standard input, which the oracle made with the real Rust, through the functions that a step calls, and writes
// how many there are and how many differ. `oracle vectors geometry 1 150` made them. A case is a line: the function's name, its numbers, ` = ` and
// what the Rust answered (tests/oracle/README.md has the format).
#![tactic(auto)]

ghost use Rattle.std.specs.Prelude.{◌^◌};
ghost use Rattle.exact.specs.Num.{Within};
ghost use Rattle.geometry.specs.Table.{InTable};
ghost use Rattle.crossing.specs.Within.{Paired, MeetAt};

use crossing::{Crossing, Edges};
use geometry::Point;
use job::Job;
use std::io;
use streams::fill;
use test_text::words::{digits, end_of};
use test_text::{byte, further};

// The place after the word at a place and the one byte that ends it.
fn past_word(s: &[u8], at: usize) -> usize {
    further(end_of(s, at, b' '), 1)
}

// The place after the line at a place.
fn past_line(s: &[u8], at: usize) -> usize {
    further(end_of(s, at, b'\n'), 1)
}

fn signed(v: u64, minus: bool) -> i64 {
    if v >= 1000000000000000000 {
        return 0;
    }
    let z = v as i64;
    if minus { -z } else { z }
}

fn number(s: &[u8], at: usize) -> i64 {
    if byte(s, at) == b'-' {
        return signed(digits(s, further(at, 1)), true);
    }
    signed(digits(s, at), false)
}

// The largest coordinate and the least.
const MOST: i64 = Job::COORDINATE as i64;

const LEAST: i64 = -MOST;

// A coordinate; what no case has, one beyond the limit, is 0.
fn coordinate(z: i64) -> i32
    ensures { Within (2 ^ 20) result }
{
    if z < LEAST || MOST < z {
        return 0;
    }
    z as i32
}

// The word of a depth whose size and sign are given.
fn depth(v: u64, minus: bool) -> u32 {
    let w = (v % 4294967296) as u32;
    if minus { w.wrapping_neg() } else { w }
}

// The word of the depth at a place.
fn depth_at(s: &[u8], at: usize) -> u32 {
    if byte(s, at) == b'-' {
        return depth(digits(s, further(at, 1)), true);
    }
    depth(digits(s, at), false)
}

// The point at a place.
fn point(s: &[u8], at: usize) -> Point
    ensures { InTable result }
{
    let y = past_word(s, at);
    let z = past_word(s, y);
    Point {
        x: coordinate(number(s, at)),
        y: coordinate(number(s, y)),
        z: depth_at(s, z),
    }
}

// The place after the point at a place.
fn past_point(s: &[u8], at: usize) -> usize {
    past_word(s, past_word(s, past_word(s, at)))
}

// Two points agree in x, y and z.
fn whole(p: Point, q: Point) -> bool {
    geometry::same_point(p, q) & (p.z == q.z)
}

// The number after `= `.
fn answer(s: &[u8], at: usize) -> i64 {
    number(s, past_word(s, at))
}

// A case of two points: pts_really_close.
fn two_agree(s: &[u8], at: usize) -> bool {
    let b = past_point(s, at);
    i64::from(geometry::pts_really_close(point(s, at), point(s, b))) == answer(s, past_point(s, b))
}

// What a function of three points answers, by a letter of its name.
fn of_three(letter: u8, a: Point, b: Point, c: Point) -> i64
    requires { (InTable a) × ((InTable b) × (InTable c)) }
{
    if letter == b'c' {
        return i64::from(geometry::is_collinear(a, b, c));
    }
    if letter == b'v' {
        return i64::from(geometry::is_very_small_triangle(a, b, c));
    }
    if letter == b'd' {
        return geometry::dot_product_three_points(a, b, c).signum();
    }
    geometry::area_triangle(a, b, c)
}

// A case of three points: is_collinear, is_very_small_triangle, dot_product_three_points or area_triangle.
fn three_agree(s: &[u8], letter: u8, at: usize) -> bool {
    let b = past_point(s, at);
    let c = past_point(s, b);
    of_three(letter, point(s, at), point(s, b), point(s, c)) == answer(s, past_point(s, c))
}

// A case of the removal test: whether `preserve_collinear` is set, and three points.
fn removable_agrees(s: &[u8], at: usize) -> bool {
    let a = past_word(s, at);
    let b = past_point(s, a);
    let c = past_point(s, b);
    let preserve = byte(s, at) == b'1';
    i64::from(geometry::removable(preserve, point(s, a), point(s, b), point(s, c)))
        == answer(s, past_point(s, c))
}

// The fraction M / 2^E at a place, which is a float.
fn fraction(s: &[u8], at: usize) -> f64 {
    let mut v = std::num::nearest_i64_to_f64(number(s, at));
    for _ in 0..digits(s, past_word(s, at)) {
        v = v * 0.5;
    }
    v
}

// Whether the crossing inside is what stands at a place: its point, and the fractions of both edges.
fn inside_agrees(s: &[u8], at: usize, e: Edges, first: f64, second: f64) -> bool
    requires { MeetAt e first }
{
    let p = past_point(s, at);
    let q = past_word(s, past_word(s, p));
    whole(crossing::point_inside(e, first), point(s, at))
        & (fraction(s, p) == first)
        & (fraction(s, q) == second)
}

// Whether the crossing of the edges is what stands after `= `: a word and, where they are not parallel, a point; inside, both fractions.
fn crossing_agrees(s: &[u8], at: usize, e: Edges) -> bool
    requires { Paired e }
{
    let word = byte(s, at);
    let p = past_word(s, at);
    match crossing::get_segment_intersect_pt(e) {
        Crossing::Parallel => word == b'p',
        Crossing::Start => (word == b's') & whole(e.a, point(s, p)),
        Crossing::End => (word == b'e') & whole(e.b, point(s, p)),
        Crossing::Inside { first, second } => {
            (word == b'i') & inside_agrees(s, p, e, first, second)
        }
    }
}

// What a case of four points says: segments_intersect or get_segment_intersect_pt.
fn of_four(s: &[u8], name: u8, at: usize, e: Edges) -> bool
    requires { Paired e }
{
    if name == b's' {
        return i64::from(crossing::segments_intersect(e)) == number(s, at);
    }
    crossing_agrees(s, at, e)
}

// The edges of the four points at a place.
fn edges(s: &[u8], at: usize) -> Edges
    ensures { Paired result }
{
    let b = past_point(s, at);
    let c = past_point(s, b);
    let d = past_point(s, c);
    crossing::edges_of(point(s, at), point(s, b), point(s, c), point(s, d))
}

fn four_agree(s: &[u8], name: u8, at: usize) -> bool {
    let e = edges(s, at);
    let last = past_point(s, past_point(s, past_point(s, past_point(s, at))));
    of_four(s, name, past_word(s, last), e)
}

// Whether the case on the line at a place agrees. The names differ in their first letters, but for `is_`, after which they do.
fn agrees(s: &[u8], at: usize) -> bool {
    let name = byte(s, at);
    let first = past_word(s, at);
    if name == b'p' {
        return two_agree(s, first);
    }
    if name == b'r' {
        return removable_agrees(s, first);
    }
    if (name == b's') | (name == b'g') {
        return four_agree(s, name, first);
    }
    if name == b'i' {
        return three_agree(s, byte(s, further(at, 3)), first);
    }
    three_agree(s, name, first)
}

// The counts of cases and of those that differ.
#[derive(Clone, Copy)]
struct Counts {
    cases: u64,
    differ: u64,
}

fn run(s: &[u8]) -> Counts {
    let mut at: usize = 0;
    let mut differ: u64 = 0;
    for cases in 0..10000 {
        if byte(s, at) == 0 {
            return Counts { cases, differ };
        }
        if !agrees(s, at) {
            differ += 1;
        }
        at = past_line(s, at);
    }
    Counts {
        cases: 10000,
        differ,
    }
}

fn main(rt: HostRuntime) -> io::Result<()> {
    let mut buf = [0u8; 262144];
    let n = fill(&mut rt.stdin(), &mut buf)?;
    let c = run(&buf[..n]);
    let cases = c.cases;
    let differ = c.differ;
    println!(rt; "{cases} cases, {differ} differ")
}
