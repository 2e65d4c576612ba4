// The fields of a job that was read, one kind after the other, points under their new numbers.
ghost use Rattle.std.specs.Prelude.{◌≡◌, map, ◌*◌, ◌≤◌, ◌<◌, length, get_or};
ghost use Rattle.rings.specs.Count.{table};
ghost use Rattle.store.specs.Field.{BLOCK};
ghost use Rattle.store.specs.Words.{view, cell};
ghost use Rattle.store.specs.Named.{records_of, ring_of};
ghost use Rattle.store.specs.Column.{column_of};
ghost use Rattle.store.specs.Sound.{ring_at};
ghost use Rattle.text.specs.Pour.{poured, pour};
ghost use Rattle.encoding.specs.Sheet.{bytes_of, all_bytes};
ghost use Rattle.rewriting.specs.Fields.{corner_field, corner_fields, start_number, drawn_field, new_number, level_field, pair_field};

use fields::{put_join, put_point, put_record, put_segment};
use job::Job;
use joins::point_at;
use numbering::number_of;
use store::{Col, NONE, get, read};

// ---- points, ring by ring

// The number of the point that a column names.
fn number_at(w: &[u32], numbers: &[usize], c: Col, p: usize) -> usize
    requires { BLOCK ≤ length w.now }
    ensures { result ≡ get_or numbers.now (cell (column_of c) w.now p) 0 }
{
    let q = read(w, c, p);
    number_of(numbers, q)
}

// Point p, on the ring of record i.
fn put_corner(w: &[u32], numbers: &[usize], i: usize, p: usize, out: &mut [u8], at: usize) -> usize
    requires { BLOCK ≤ length w.now }
    ensures { poured result out.new ≡ pour (bytes_of (corner_field w.now numbers.now i p)) at out.old }
{
    let x = read(w, Col::X, p);
    let y = read(w, Col::Y, p);
    let next = number_at(w, numbers, Col::Next, p);
    let prev = number_at(w, numbers, Col::Prev, p);
    let z = read(w, Col::Z, p);
    put_point(x as u32, y as u32, next, prev, i, z, out, at)
}

// The points of the ring from a, which is record i's.
fn put_ring(w: &[u32], numbers: &[usize], i: usize, a: usize, out: &mut [u8], at: usize) -> usize
    requires { BLOCK ≤ length w.now }
    ensures { poured result out.new ≡ pour (all_bytes (map (corner_field w.now numbers.now i) (ring_of w.now a))) at out.old }
{
    let mut k = at;
    let mut p = a;
    for _ in 0..Job::POINTS {
        k = put_corner(w, numbers, i, p, out, k);
        p = read(w, Col::Next, p);
        if p == a {
            return k;
        }
    }
    k
}

// The points of record i's ring, if it has one.
fn put_corners(w: &[u32], numbers: &[usize], i: usize, out: &mut [u8], at: usize) -> usize
    requires { BLOCK ≤ length w.now }
    ensures { poured result out.new ≡ pour (all_bytes (map (corner_field w.now numbers.now i) (ring_at (view w.now) i))) at out.old }
{
    let a = read(w, Col::First, i);
    if a == NONE {
        return at;
    }
    put_ring(w, numbers, i, a, out, at)
}

// The points of every ring, records in their order.
pub(crate) fn put_points(w: &[u32], numbers: &[usize], out: &mut [u8], at: usize) -> usize
    requires { BLOCK ≤ length w.now }
    ensures { poured result out.new ≡ pour (all_bytes (corner_fields w.now numbers.now (records_of w.now))) at out.old }
{
    let mut k = at;
    for i in 0..get(w, Col::Records, 0) {
        k = put_corners(w, numbers, i, out, k);
    }
    k
}

// ---- records

// The number of record i's first point, or none.
fn start_number(w: &[u32], numbers: &[usize], i: usize) -> usize
    requires { BLOCK ≤ length w.now }
    ensures { result ≡ start_number w.now numbers.now i }
{
    let a = read(w, Col::First, i);
    if a == NONE {
        return NONE;
    }
    number_of(numbers, a)
}

// Record i.
fn put_drawn(w: &[u32], numbers: &[usize], i: usize, out: &mut [u8], at: usize) -> usize
    requires { BLOCK ≤ length w.now }
    ensures { poured result out.new ≡ pour (bytes_of (drawn_field w.now numbers.now i)) at out.old }
{
    let flags = read(w, Col::Flags, i);
    let owner = read(w, Col::Owner, i);
    let first = start_number(w, numbers, i);
    put_record(flags, owner, first, out, at)
}

pub(crate) fn put_records(w: &[u32], numbers: &[usize], out: &mut [u8], at: usize) -> usize
    requires { BLOCK ≤ length w.now }
    ensures { poured result out.new ≡ pour (all_bytes (table (drawn_field w.now numbers.now) 0 (records_of w.now))) at out.old }
{
    let n = get(w, Col::Records, 0);
    let mut k = at;
    for i in 0..n {
        k = put_drawn(w, numbers, i, out, k);
    }
    k
}

// ---- segments and joins

// The number of the point that is number k of a list.
fn new_number(numbers: &[usize], list: &[u32], k: usize) -> usize
    requires { k < length list.now }
    ensures { result ≡ new_number numbers.now list.now k }
{
    let p = point_at(list, k);
    number_of(numbers, p)
}

pub(crate) fn put_segments(
    numbers: &[usize],
    list: &[u32],
    m: usize,
    out: &mut [u8],
    at: usize,
) -> usize
    requires { m ≤ length list.now }
    ensures { poured result out.new ≡ pour (all_bytes (table (level_field numbers.now list.now) 0 m)) at out.old }
{
    let mut k = at;
    for i in 0..m {
        let p = new_number(numbers, list, i);
        k = put_segment(p, out, k);
    }
    k
}

// Their points stand two by two.
pub(crate) fn put_joins(
    numbers: &[usize],
    list: &[u32],
    n: usize,
    out: &mut [u8],
    at: usize,
) -> usize
    requires { 2 * n ≤ length list.now }
    ensures { poured result out.new ≡ pour (all_bytes (table (pair_field numbers.now list.now) 0 n)) at out.old }
{
    let mut k = at;
    for i in 0..n {
        let first = new_number(numbers, list, 2 * i);
        let second = new_number(numbers, list, 2 * i + 1);
        k = put_join(first, second, out, k);
    }
    k
}
