// The second loop of convert_horz_segs_to_joins: pairs of segments, their left points moved together, and a join of two new points.
ghost use Rattle.std.specs.Prelude.{true, false, ◌≡◌, ◌≢◌, ◌+◌, ◌*◌, ◌-◌, ◌<◌, ◌≤◌, ◌^◌, length, get_or, set, ltb};
ghost use Rattle.job.specs.Limits as limit;
ghost use Rattle.store.specs.Field as field;
ghost use Rattle.store.specs.Field.{BLOCK};
ghost use Rattle.primitives.specs.Primitive.{duplicate_op};
ghost use Rattle.joins.specs.Needs.{Point};
ghost use Rattle.segments.specs.Level.{x_of};
ghost use Rattle.converting.specs.Make.{made, second_at, make_join, out, apart_of, moved_pair, pair_of, first_one, second_one, inner_from, outer_from};
ghost use Rattle.converting.specs.Needs.{Making, Pairing, Valid, Moving, Joining, PairAt};

use job::Job;
use primitives::duplicate_op;
use segments::level;
use segments::level::Two;
use sorting::{load, save};
use store::{Col, NONE, get};

// A join's point.
fn put_point(joins: &mut [u32], i: usize, k: usize)
    requires { (i < length joins.old) × (k < 2 ^ 32) }
    ensures { joins.new ≡ set joins.old i k }
{
    joins[i] = k as u32;
}

// The second point of join m, and the join; how many joins there are now, or none where there is no room for a point.
fn second(w: &mut [u32], joins: &mut [u32], m: usize, k: usize, b: usize) -> Option<usize>
    requires { Point w.old b × (2 * m + 1 < length joins.old) × (k < limit.POINTS) }
    ensures { made result w.new joins.new ≡ second_at joins.old m k (duplicate_op w.old b false) }
{
    let j = duplicate_op(w, b, false)?;
    put_point(joins, 2 * m, k);
    put_point(joins, 2 * m + 1, j);
    Some(m + 1)
}

// A copy of a after it, a copy of b before it, and their join.
fn make_join(w: &mut [u32], joins: &mut [u32], m: usize, a: usize, b: usize) -> Option<usize>
    requires { Making w.old joins.old m a b }
    ensures { made result w.new joins.new ≡ make_join w.old joins.old m a b }
{
    let k = duplicate_op(w, a, true)?;
    second(w, joins, m, k, b)
}

// The left point of row i is left of the right point of row j.
fn left_of(w: &[u32], lefts: &[usize], i: usize, rights: &[usize], j: usize) -> bool
    requires { (BLOCK ≤ length w.now) × (i < length lefts.now) × (j < length rights.now) × (get_or lefts.now i 0 < limit.POINTS) × (get_or rights.now j 0 < limit.POINTS) }
    ensures { result ≡ ltb (x_of w.now (get_or lefts.now i 0)) (x_of w.now (get_or rights.now j 0)) }
{
    let p = load(lefts, i);
    let q = load(rights, j);
    let a = get(w, Col::X, p);
    let b = get(w, Col::X, q);
    a < b
}

// Two valid segments that give no join.
fn apart(
    w: &[u32],
    lefts: &[usize],
    rights: &[usize],
    forwards: &[usize],
    i: usize,
    j: usize,
) -> bool
    requires { Valid w.now lefts.now rights.now forwards.now i j }
    ensures { result ≡ apart_of w.now lefts.now rights.now forwards.now i j }
{
    let p = left_of(w, lefts, j, rights, i);
    let q = left_of(w, lefts, i, rights, j);
    let a = load(forwards, j);
    let b = load(forwards, i);
    !p | ((a == b) | !q)
}

// The left points of two overlapping segments, moved together.
fn moved(w: &[u32], lefts: &[usize], forwards: &[usize], i: usize, j: usize) -> Two
    requires { Moving w.now lefts.now forwards.now i j }
    ensures { (result.one ≡ first_one w.now lefts.now forwards.now i j) × (result.two ≡ second_one w.now lefts.now forwards.now i j) }
{
    let l1 = load(lefts, i);
    let l2 = load(lefts, j);
    let f = load(forwards, i);
    let y = get(w, Col::Y, l1);
    level::move_pair(w, f == 1, y, l1, l2)
}

// They move, and two new points are joined.
fn join_pair(
    w: &mut [u32],
    lefts: &mut [usize],
    forwards: &[usize],
    joins: &mut [u32],
    m: usize,
    i: usize,
    j: usize,
) -> Option<usize>
    requires { Joining w.old lefts.old forwards.now joins.old m i j }
    ensures { out result w.new lefts.new joins.new ≡ moved_pair w.old lefts.old forwards.now joins.old m i j }
{
    let t = moved(w, lefts, forwards, i, j);
    let f = load(forwards, i);
    let a = t.one;
    let b = t.two;
    save(lefts, i, a);
    save(lefts, j, b);
    if f == 1 {
        return make_join(w, joins, m, a, b);
    }
    make_join(w, joins, m, b, a)
}

// A pair of valid segments: apart, or joined.
fn pair(
    w: &mut [u32],
    lefts: &mut [usize],
    rights: &[usize],
    forwards: &[usize],
    joins: &mut [u32],
    m: usize,
    i: usize,
    j: usize,
) -> Option<usize>
    requires { PairAt w.old lefts.old rights.now forwards.now joins.old m i j }
    ensures { out result w.new lefts.new joins.new ≡ pair_of rights.now forwards.now joins.old i j w.old lefts.old m }
{
    if apart(w, lefts, rights, forwards, i, j) {
        return Some(m);
    }
    join_pair(w, lefts, forwards, joins, m, i, j)
}

// Segment i with those after it, up to the first that is not valid.
fn inner(
    w: &mut [u32],
    lefts: &mut [usize],
    rights: &[usize],
    forwards: &[usize],
    joins: &mut [u32],
    before: usize,
    i: usize,
) -> Option<usize>
    requires { Pairing w.old lefts.old rights.now forwards.now joins.old before × (i < limit.SEGMENTS) × (get_or rights.now i 0 ≢ field.NONE) }
    ensures { out result w.new lefts.new joins.new ≡ inner_from (limit.SEGMENTS - (i + 1)) rights.now forwards.now i (i + 1) w.old lefts.old joins.old before }
{
    let mut m = before;
    for j in i + 1..Job::SEGMENTS {
        if load(rights, j) == NONE {
            return Some(m);
        }
        m = pair(w, lefts, rights, forwards, joins, m, i, j)?;
    }
    Some(m)
}

// Every segment with those after it, up to the first that is not valid.
pub(crate) fn outer(
    w: &mut [u32],
    lefts: &mut [usize],
    rights: &[usize],
    forwards: &[usize],
    joins: &mut [u32],
    before: usize,
) -> Option<usize>
    requires { Pairing w.old lefts.old rights.now forwards.now joins.old before }
    ensures { out result w.new lefts.new joins.new ≡ outer_from limit.SEGMENTS rights.now forwards.now 0 w.old lefts.old joins.old before }
{
    let mut m = before;
    for i in 0..Job::SEGMENTS {
        if load(rights, i) == NONE {
            return Some(m);
        }
        m = inner(w, lefts, rights, forwards, joins, m, i)?;
    }
    Some(m)
}
