// The listing of a tray, as text in a lent slice.
#![tactic(auto)]

pub mod charge;

ghost use Rattle.std.specs.Prelude.{◌≡◌, cond, [], ◌∷◌, ◌++◌, ◌+◌, ◌-◌, ◌<◌, ◌≤◌, ◌^◌, nat_abs, length};
ghost use Rattle.geometry.specs.Plane.{edge_area, area_outpt};
ghost use Rattle.exact.specs.Num.{Within};
ghost use Rattle.text.specs.Pour.{poured, pour};
ghost use Rattle.text.specs.Text.{SPACE, decimal, signed_text};
ghost use Rattle.listing.specs.Words.{PIECE, HOLE};
ghost use Rattle.listing.specs.Fields.{point_in, points_in, value_length, path_in, paths_in, field_after};
ghost use Rattle.listing.specs.Needs.{Held, Run, Sized, FieldIn, FieldsIn};
ghost use Rattle.listing.specs.Lines.{word_of, point_text, place_text, depth_text, points_text, closed_head, head_of, line_of, lines_of, first_line, listing_of, refused_line};
ghost use Rattle.listing.specs.Room as lines;
ghost use Rattle.listing.specs.Told.{told, answer_at, tell};
ghost use Rattle.listing.specs.Needs.{Listable};

use geometry::Point;
use job::Job;
use paths::POINT;
use primitives::lower;
use text::{put, put_decimal, put_text};

// A slice of so many bytes has room for the listing of any job.
pub const TEXT: usize = 54 + 49 * Job::RECORDS + 66 * Job::POINTS + 49;

// The number that definitions cite is the code's.
fn text_agrees()
    ensures { TEXT ≡ lines.TEXT }
{}

// A decimal number with its sign.
fn put_signed(out: &mut [u8], at: usize, z: i64) -> usize
    requires { Within (2 ^ 62) z }
    ensures { poured result out.new ≡ pour (signed_text z) at out.old }
{
    let n = z.unsigned_abs();
    if z < 0 {
        let k = put(out, at, b'-');
        return put_decimal(out, k, n);
    }
    put_decimal(out, at, n)
}

// `piece` or `hole`.
fn put_sense(out: &mut [u8], at: usize, piece: bool) -> usize
    ensures { poured result out.new ≡ pour (cond piece PIECE HOLE ++ (SPACE ∷ [])) at out.old }
{
    if piece {
        return put_text(out, at, b"piece ");
    }
    put_text(out, at, b"hole ")
}

// The word of a closed path, by its doubled area and the setting `reverse_solution`.
fn put_word(out: &mut [u8], at: usize, a: i64, rev: bool) -> usize
    requires { Within (2 ^ 62) a }
    ensures { poured result out.new ≡ pour (word_of rev a ++ (SPACE ∷ [])) at out.old }
{
    if a < 0 {
        return put_sense(out, at, rev);
    }
    if 0 < a {
        return put_sense(out, at, !rev);
    }
    put_text(out, at, b"flat ")
}

// ---- points of a tray

// The point whose bytes begin at `at`.
pub fn point_in(t: &[u8], at: usize) -> Point
    requires { Held t.now at }
    ensures { result ≡ point_in t.now at }
{
    let x = numbers::read_raised(t, at, Job::COORDINATE);
    let y = numbers::read_raised(t, at + 4, Job::COORDINATE);
    let z = numbers::read_u32(t, at + 8);
    Point {
        x: lower(x as usize),
        y: lower(y as usize),
        z,
    }
}

// A point's x and y after a space.
fn put_place(t: &[u8], from: usize, out: &mut [u8], at: usize) -> usize
    requires { Held t.now from }
    ensures { poured result out.new ≡ pour (place_text (point_in t.now from)) at out.old }
{
    let p = point_in(t, from);
    let a = put(out, at, b' ');
    let b = put_signed(out, a, p.x as i64);
    let c = put(out, b, b',');
    put_signed(out, c, p.y as i64)
}

// From this word on, 2^31, the sign's bit is set and z is below zero.
const SIGN: u32 = 2147483648;

// Its number is then so much less than its word: 2^32.
const WORDS: u64 = 4294967296;

// How far below zero the signed number is that a z's word stands for.
fn depth_below(z: u32) -> u64
    ensures { (result ≡ 4294967296 - z) × (z < 4294967296) }
{
    WORDS - z as u64
}

// The signed number that a z's word is.
fn put_depth(out: &mut [u8], at: usize, z: u32) -> usize
    ensures { poured result out.new ≡ pour (depth_text z) at out.old }
{
    if z < SIGN {
        return put_decimal(out, at, z as u64);
    }
    let n = depth_below(z);
    let k = put(out, at, b'-');
    put_decimal(out, k, n)
}

// A point after a space.
fn put_point(t: &[u8], from: usize, out: &mut [u8], at: usize) -> usize
    requires { Held t.now from }
    ensures { poured result out.new ≡ pour (point_text (point_in t.now from)) at out.old }
{
    let k = put_place(t, from, out, at);
    let c = put(out, k, b',');
    let z = numbers::read_u32(t, from + 8);
    put_depth(out, c, z)
}

// The points of a path, one after another.
fn put_points(t: &[u8], from: usize, n: usize, out: &mut [u8], at: usize) -> usize
    requires { Run t.now n from }
    ensures { poured result out.new ≡ pour (points_text (points_in t.now n from)) at out.old }
{
    let mut k = at;
    let mut f = from;
    for i in 0..n {
        k = put_point(t, f, out, k);
        f += POINT;
    }
    k
}

// The part of the edge from one point to another in a doubled area.
fn edge_in(t: &[u8], prev: usize, at: usize) -> i64
    requires { Held t.now prev × Held t.now at }
    ensures { result ≡ edge_area (point_in t.now prev) (point_in t.now at) }
{
    let p = point_in(t, prev);
    let q = point_in(t, at);
    geometry::edge_area(p, q)
}

// The doubled area of a path of n points.
fn area_in(t: &[u8], from: usize, n: usize) -> i64
    requires { Run t.now n from × (n ≤ 8191) }
    ensures { result ≡ area_outpt (points_in t.now n from) }
{
    if n == 0 {
        return 0;
    }
    let mut a: i64 = 0;
    let mut prev = from + POINT * (n - 1);
    let mut at = from;
    for i in 0..n {
        a += edge_in(t, prev, at);
        prev = at;
        at += POINT;
    }
    a
}

// ---- a path's line

// A closed path's word, number of points and doubled area.
fn put_closed(t: &[u8], from: usize, n: usize, rev: bool, out: &mut [u8], at: usize) -> usize
    requires { Sized t.now n from }
    ensures { poured result out.new ≡ pour (closed_head rev (points_in t.now n from)) at out.old }
{
    let area = area_in(t, from, n);
    let a = put_word(out, at, area, rev);
    let b = put_decimal(out, a, n as u64);
    let c = put(out, b, b' ');
    put_signed(out, c, area)
}

// What stands before a path's points.
fn put_head(
    t: &[u8],
    from: usize,
    n: usize,
    rev: bool,
    opened: bool,
    out: &mut [u8],
    at: usize,
) -> usize
    requires { Sized t.now n from }
    ensures { poured result out.new ≡ pour (head_of rev opened (points_in t.now n from)) at out.old }
{
    if opened {
        let a = put_text(out, at, b"line ");
        return put_decimal(out, a, n as u64);
    }
    put_closed(t, from, n, rev, out, at)
}

// The length of the value of the field at `from`.
pub fn value_length(t: &[u8], from: usize) -> usize
    requires { from + 3 ≤ length t.now }
    ensures { (result ≡ value_length t.now from) × (result < 65536) }
{
    numbers::read_u16(t, from + 1) as usize
}

// The line of the path of the field at `from`.
fn put_line(t: &[u8], from: usize, rev: bool, opened: bool, out: &mut [u8], at: usize) -> usize
    requires { FieldIn t.now from }
    ensures { poured result out.new ≡ pour (line_of rev opened (path_in t.now from)) at out.old }
{
    let n = value_length(t, from) / POINT;
    let body = from + 3;
    let a = put_head(t, body, n, rev, opened, out, at);
    let b = put_points(t, body, n, out, a);
    put(out, b, b'\n')
}

// ---- the listing

// Where reading and writing are.
#[derive(Clone, Copy)]
struct Places {
    from: usize,
    at: usize,
}

// The lines of `count` paths, the first field at `from`.
fn put_lines(
    t: &[u8],
    from: usize,
    count: usize,
    rev: bool,
    opened: bool,
    out: &mut [u8],
    at: usize,
) -> Places
    requires { FieldsIn t.now count from }
    ensures { (result.from ≡ field_after t.now count from) × (poured result.at out.new ≡ pour (lines_of rev opened (paths_in t.now count from)) at out.old) }
{
    let mut k = at;
    let mut f = from;
    for i in 0..count {
        k = put_line(t, f, rev, opened, out, k);
        f = f + 3 + value_length(t, f);
    }
    Places { from: f, at: k }
}

// The first line: the two counts.
fn put_counts(closed: usize, opened: usize, out: &mut [u8]) -> usize
    ensures { poured result out.new ≡ pour (first_line closed opened) 0 out.old }
{
    let a = put_text(out, 0, b"closed ");
    let b = put_decimal(out, a, closed as u64);
    let c = put_text(out, b, b" open ");
    let d = put_decimal(out, c, opened as u64);
    put(out, d, b'\n')
}

// How many bytes a text that ends at `at` has, if there is room for it.
fn answer(at: usize, out: &[u8]) -> Option<usize>
    ensures { result ≡ answer_at at out.now }
{
    if at <= out.len() { Some(at) } else { None }
}

// The lines of a tray that begins with the fields of so many closed and then so many open paths, written under the setting `rev` of `reverse_solution`.
fn put_listing(t: &[u8], closed: usize, opened: usize, rev: bool, out: &mut [u8]) -> usize
    requires { Listable closed opened t.now }
    ensures { poured result out.new ≡ pour (listing_of rev closed opened t.now) 0 out.old }
{
    let a = put_counts(closed, opened, out);
    let b = put_lines(t, 0, closed, rev, false, out, a);
    put_lines(t, b.from, opened, rev, true, out, b.at).at
}

// The listing of such a tray: how many bytes it has, or none where there is no room for it.
pub fn listing(t: &[u8], closed: usize, opened: usize, rev: bool, out: &mut [u8]) -> Option<usize>
    requires { Listable closed opened t.now }
    ensures { told result out.new ≡ tell (listing_of rev closed opened t.now) out.old }
{
    let a = put_listing(t, closed, opened, rev, out);
    answer(a, out)
}

// The line of a refusal.
pub fn refusal(number: u32, out: &mut [u8]) -> Option<usize>
    ensures { told result out.new ≡ tell (refused_line number) out.old }
{
    let a = put_text(out, 0, b"refused ");
    let b = put_decimal(out, a, number as u64);
    let c = put(out, b, b'\n');
    answer(c, out)
}
