// Joins (`process_horz_joins`): document 01, "Segment and join". A join at its turn is refused (9, 10), splits one ring in two, or makes one ring of two.
#![tactic(auto)]

ghost use Rattle.std.specs.Prelude.{◌≡◌, ◌+◌, ◌<◌, ◌≤◌, length, get_or};
ghost use Rattle.job.specs.Limits as limit;
ghost use Rattle.store.specs.Field.{BLOCK};
ghost use Rattle.store.specs.Named.{records_of, first_of};
ghost use Rattle.joins.specs.Error.{row_of};
ghost use Rattle.joins.specs.Resolve.{get_real_outrec, home_of};
ghost use Rattle.joins.specs.Needs.{Resolving, Point, Points, Four, Ringed, Unknotted, Joins};
ghost use Rattle.joins.specs.Join.{end, relink_of, new_out_rec, fix_outrec_pts, move_first, split_ring, split_of, merge_of, by_records, join_of, process_horz_joins};

use job::Job;
use job::refusal::Refusal;
use store::{Col, JOINED, NONE, get, set};

// Why a join is refused: it is a knot (9), or there is no room for a record (10).
#[derive(Clone, Copy, PartialEq, Eq, Debug)]
pub enum JoinError {
    Knot,
    Full,
}

impl From<JoinError> for Refusal {
    ghost from_gives = { λ e r. r ≡ row_of e };

    fn from(e: JoinError) -> Refusal {
        match e {
            JoinError::Knot => Refusal::Knot,
            JoinError::Full => Refusal::Full,
        }
    }
}

// The first with points among r and its owners.
fn get_real_outrec(w: &[u32], r: usize) -> usize
    requires { Resolving w.now r }
    ensures { result ≡ get_real_outrec w.now r }
{
    let mut q = r;
    let mut f = get(w, Col::First, q);
    // along the owners: no index is counted
    while f == NONE {
        q = get(w, Col::Owner, q);
        f = get(w, Col::First, q);
    }
    q
}

// The record on whose ring the point is.
pub fn home(w: &[u32], p: usize) -> usize
    requires { Point w.now p }
    ensures { result ≡ home_of w.now p }
{
    let r = get(w, Col::Rec, p);
    get_real_outrec(w, r)
}

// The four links of a join.
fn relink(w: &mut [u32], op1: usize, op2: usize)
    requires { Four w.old op1 op2 }
    ensures { w.new ≡ relink_of w.old op1 op2 }
{
    let n = get(w, Col::Next, op1);
    let p = get(w, Col::Prev, op2);
    set(w, Col::Next, op1, op2);
    set(w, Col::Prev, op2, op1);
    set(w, Col::Prev, n, p);
    set(w, Col::Next, p, n);
}

// Record k is new: its first point is n, its owner i.
fn new_out_rec(w: &mut [u32], k: usize, n: usize, i: usize)
    requires { (BLOCK ≤ length w.old) × (k < limit.RECORDS) × (n < limit.POINTS) × (i < limit.RECORDS) }
    ensures { w.new ≡ new_out_rec w.old k n i }
{
    set(w, Col::Records, 0, k + 1);
    set(w, Col::Flags, k, 0);
    set(w, Col::First, k, n);
    set(w, Col::Owner, k, i);
}

// The points of record k's ring name it.
fn fix_outrec_pts(w: &mut [u32], k: usize)
    requires { Ringed w.old k }
    ensures { w.new ≡ fix_outrec_pts w.old k }
{
    let start = get(w, Col::First, k);
    let mut p = start;
    // round the ring, at least once: no index is counted
    loop {
        set(w, Col::Rec, p, k);
        p = get(w, Col::Next, p);
        if p == start {
            break;
        }
    }
}

// The first point of record i, if it went to record k, is now a.
fn move_first(w: &mut [u32], i: usize, k: usize, a: usize)
    requires { (BLOCK ≤ length w.old) × (i < limit.RECORDS) × (a < limit.POINTS) × (first_of w.old i < limit.POINTS) }
    ensures { w.new ≡ move_first w.old i k a }
{
    let f = get(w, Col::First, i);
    let r = get(w, Col::Rec, f);
    if r == k {
        set(w, Col::First, i, a);
        set(w, Col::Rec, a, i);
    }
}

// Two records: the second is emptied, and now owned by the first, which took it.
fn merge(w: &mut [u32], op1: usize, op2: usize, i: usize, j: usize)
    requires { Unknotted w.old op1 op2 i j }
    ensures { w.new ≡ merge_of w.old op1 op2 i j }
{
    relink(w, op1, op2);
    set(w, Col::First, j, NONE);
    set(w, Col::Owner, j, i);
    set(w, Col::Reason, j, JOINED);
    set(w, Col::Taker, j, i);
}

// One record for both points: its ring is split, and record k is new.
fn split_ring(w: &mut [u32], op1: usize, op2: usize, i: usize, k: usize)
    requires { Unknotted w.old op1 op2 i i × (k ≡ records_of w.old) × (k < limit.RECORDS) }
    ensures { w.new ≡ split_ring w.old op1 op2 i k }
{
    let n = get(w, Col::Next, op1);
    relink(w, op1, op2);
    new_out_rec(w, k, n, i);
    fix_outrec_pts(w, k);
    move_first(w, i, k, op1);
}

// The same, if there is room for a record.
fn split(w: &mut [u32], op1: usize, op2: usize, i: usize) -> Result<(), JoinError>
    requires { Unknotted w.old op1 op2 i i }
    ensures { end result w.new ≡ split_of w.old op1 op2 i }
{
    let k = get(w, Col::Records, 0);
    if k < Job::RECORDS {
        split_ring(w, op1, op2, i, k);
        return Ok(());
    }
    Err(JoinError::Full)
}

fn by_records(w: &mut [u32], op1: usize, op2: usize, i: usize, j: usize) -> Result<(), JoinError>
    requires { Unknotted w.old op1 op2 i j }
    ensures { end result w.new ≡ by_records w.old op1 op2 i j }
{
    if i == j {
        return split(w, op1, op2, i);
    }
    merge(w, op1, op2, i, j);
    Ok(())
}

// A join at its turn.
fn join(w: &mut [u32], op1: usize, op2: usize) -> Result<(), JoinError>
    requires { Points w.old op1 op2 }
    ensures { end result w.new ≡ join_of w.old op1 op2 }
{
    let n = get(w, Col::Next, op1);
    if n == op2 {
        return Err(JoinError::Knot);
    }
    let i = home(w, op1);
    let j = home(w, op2);
    by_records(w, op1, op2, i, j)
}

// Number k of a list of points.
pub fn point_at(list: &[u32], k: usize) -> usize
    requires { k < length list.now }
    ensures { result ≡ get_or list.now k 0 }
{
    list[k] as usize
}

// The joins in order, up to the first that is refused. Their points stand two by two.
pub fn process_horz_joins(w: &mut [u32], joins: &[u32], n: usize) -> Result<(), JoinError>
    requires { Joins w.old n joins.now }
    ensures { end result w.new ≡ process_horz_joins n joins.now w.old }
{
    for i in 0..n {
        let a = point_at(joins, 2 * i);
        let b = point_at(joins, 2 * i + 1);
        join(w, a, b)?;
    }
    Ok(())
}
