// A ring as the test programs print it, as text in a lent slice: how many points, then each from the first in walk order.
ghost use Rattle.std.specs.Prelude.{◌≡◌, ◌≤◌, ◌<◌, ◌^◌, length};
ghost use Rattle.store.specs.Field.{BLOCK};
ghost use Rattle.store.specs.Named.{ring_of};
ghost use Rattle.text.specs.Pour.{poured, pour};
ghost use Rattle.listing.specs.Lines.{depth_text};
ghost use Rattle.test_text.specs.Ring.{coordinate_text, name_text, pair_text, place_text, places_text, ring_text};

use job::Job;
use store::{Col, NONE, read};
use text::{put, put_decimal, put_text};

const RAISE: usize = Job::COORDINATE as usize;

// So many bytes have room for the text of any ring: a point takes at most 47.
pub const TEXT: usize = 32 + 47 * Job::POINTS;

// A coordinate, by its word.
fn put_coordinate(v: usize, out: &mut [u8], at: usize) -> usize
    ensures { poured result out.new ≡ pour (coordinate_text v) at out.old }
{
    if v < RAISE {
        let k = put(out, at, b'-');
        return put_decimal(out, k, (RAISE - v) as u64);
    }
    put_decimal(out, at, (v - RAISE) as u64)
}

// A point's number and a colon, if it is to be named.
fn put_name(named: bool, p: usize, out: &mut [u8], at: usize) -> usize
    ensures { poured result out.new ≡ pour (name_text named p) at out.old }
{
    if named {
        let k = put_decimal(out, at, p as u64);
        return put(out, k, b':');
    }
    at
}

// Two coordinates.
fn put_pair(x: usize, y: usize, out: &mut [u8], at: usize) -> usize
    ensures { poured result out.new ≡ pour (pair_text x y) at out.old }
{
    let a = put_coordinate(x, out, at);
    let b = put(out, a, b',');
    put_coordinate(y, out, b)
}

// A depth, by its word: the signed number that it is.
fn put_depth(v: usize, out: &mut [u8], at: usize) -> usize
    requires { v < 2 ^ 32 }
    ensures { poured result out.new ≡ pour (depth_text v) at out.old }
{
    if v < 2147483648 {
        return put_decimal(out, at, v as u64);
    }
    let k = put(out, at, b'-');
    put_decimal(out, k, (4294967296 - v) as u64)
}

// A point after a space.
fn put_place(w: &[u32], named: bool, p: usize, out: &mut [u8], at: usize) -> usize
    requires { BLOCK ≤ length w.now }
    ensures { poured result out.new ≡ pour (place_text named w.now p) at out.old }
{
    let x = read(w, Col::X, p);
    let y = read(w, Col::Y, p);
    let z = read(w, Col::Z, p);
    let a = put(out, at, b' ');
    let b = put_name(named, p, out, a);
    let c = put_pair(x, y, out, b);
    let d = put(out, c, b',');
    put_depth(z, out, d)
}

// How many points the ring from a on has.
fn count(w: &[u32], a: usize) -> usize
    requires { BLOCK ≤ length w.now }
    ensures { result ≡ length (ring_of w.now a) }
{
    let mut p = a;
    let mut n: usize = 0;
    for _ in 0..Job::POINTS {
        p = read(w, Col::Next, p);
        n += 1;
        if p == a {
            return n;
        }
    }
    n
}

// The points of the ring from a on.
fn put_places(w: &[u32], named: bool, a: usize, out: &mut [u8], at: usize) -> usize
    requires { BLOCK ≤ length w.now }
    ensures { poured result out.new ≡ pour (places_text named w.now (ring_of w.now a)) at out.old }
{
    let mut k = at;
    let mut p = a;
    for _ in 0..Job::POINTS {
        k = put_place(w, named, p, out, k);
        p = read(w, Col::Next, p);
        if p == a {
            return k;
        }
    }
    k
}

// The ring from a record's first point a on, which may be none.
pub fn put_ring(w: &[u32], named: bool, a: usize, out: &mut [u8], at: usize) -> usize
    requires { BLOCK ≤ length w.now }
    ensures { poured result out.new ≡ pour (ring_text named w.now a) at out.old }
{
    let h = put_text(out, at, b" ring ");
    if a == NONE {
        let k = put_decimal(out, h, 0);
        return put(out, k, b'\n');
    }
    let n = count(w, a);
    let k = put_decimal(out, h, n as u64);
    let e = put_places(w, named, a, out, k);
    put(out, e, b'\n')
}
