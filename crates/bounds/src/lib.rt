// The box of a ring, by one walk over the words of its points; and the box beside it, written and tested.
#![tactic(auto)]

ghost use Rattle.std.specs.Prelude.{◌≡◌, ◌<◌, ◌≤◌, length};
ghost use Rattle.std.proofs.Math.Option.{some};
ghost use Rattle.job.specs.Limits as limit;
ghost use Rattle.store.specs.Field.{BLOCK};
ghost use Rattle.store.specs.Words.{view};
ghost use Rattle.store.specs.Named.{records_of};
ghost use Rattle.store.specs.Boxes.{rect_of, sides_of, ring_box, misboxed, boxed_at, all_boxed};
ghost use Rattle.store.specs.Needs.{Small};
ghost use Rattle.bounds.specs.Along.{point_sides, widen_by, widen_sides, box_from, same_sides};

use job::Job;
use store::boxed::{Sides, set_sides, sides_of};
use store::{Col, NONE, get, read};

// The box of one point.
fn point_sides(w: &[u32], k: usize) -> Sides
    requires { BLOCK ≤ length w.now }
    ensures { (result ≡ point_sides (view w.now) k) × Small result }
{
    let x = read(w, Col::X, k);
    let y = read(w, Col::Y, k);
    Sides {
        left: x,
        top: y,
        right: x,
        bottom: y,
    }
}

// The least box that has the place of x and y too.
pub fn widen_by(b: Sides, x: usize, y: usize) -> Sides
    ensures { result ≡ widen_by b x y }
{
    Sides {
        left: b.left.min(x),
        top: b.top.min(y),
        right: b.right.max(x),
        bottom: b.bottom.max(y),
    }
}

// A further point's.
fn widen(w: &[u32], b: Sides, k: usize) -> Sides
    requires { (BLOCK ≤ length w.now) × Small b }
    ensures { (result ≡ widen_sides (view w.now) b k) × Small result }
{
    widen_by(b, read(w, Col::X, k), read(w, Col::Y, k))
}

// The box of the ring that starts at a.
fn ring_sides(w: &[u32], a: usize) -> Sides
    requires { BLOCK ≤ length w.now }
    ensures { (box_from (view w.now) a ≡ some (rect_of result)) × Small result }
{
    let mut b = point_sides(w, a);
    let mut p = read(w, Col::Next, a);
    for _ in 1..Job::POINTS {
        if p == a {
            return b;
        }
        b = widen(w, b, p);
        p = read(w, Col::Next, p);
    }
    b
}

// The words of the box of record i's ring; zeros, where it has none.
fn record_sides(w: &[u32], i: usize) -> Sides
    requires { (BLOCK ≤ length w.now) × (i < limit.RECORDS) }
    ensures { (result ≡ sides_of (ring_box (view w.now) i)) × Small result }
{
    let a = get(w, Col::First, i);
    if a == NONE {
        return Sides {
            left: 0,
            top: 0,
            right: 0,
            bottom: 0,
        };
    }
    ring_sides(w, a)
}

// Record i, if it is one, has its ring's box.
pub fn box_record(w: &mut [u32], i: usize)
    requires { (BLOCK ≤ length w.old) × (records_of w.old ≤ limit.RECORDS) }
    ensures { w.new ≡ boxed_at w.old i }
{
    if get(w, Col::Records, 0) <= i {
        return;
    }
    set_sides(w, i, record_sides(w, i));
}

// Every record has its ring's box.
pub fn box_records(w: &mut [u32])
    requires { (BLOCK ≤ length w.old) × (records_of w.old ≤ limit.RECORDS) }
    ensures { w.new ≡ all_boxed w.old }
{
    for i in 0..get(w, Col::Records, 0) {
        box_record(w, i);
    }
}

// Whether two boxes have the same words: `==`, under the name that `handed` calls.
pub fn same_sides(a: Sides, b: Sides) -> bool
    ensures { result ≡ same_sides a b }
{
    a == b
}

// Whether record i has a ring, and its words are not that ring's box.
pub fn misboxed(w: &[u32], i: usize) -> bool
    requires { (BLOCK ≤ length w.now) × (i < limit.RECORDS) }
    ensures { result ≡ misboxed w.now i }
{
    let a = get(w, Col::First, i);
    if a == NONE {
        return false;
    }
    ring_sides(w, a) != sides_of(w, i)
}
