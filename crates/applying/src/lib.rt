// Applying an act: link surgery and progress, as the act's list of writes.
#![tactic(auto)]

ghost use Rattle.std.specs.Prelude.{◌≡◌, cond, ◌+◌, ◌<◌, ◌≤◌, ◌^◌, eqb, length};
ghost use Rattle.job.specs.Limits as limit;
ghost use Rattle.store.specs.Field.{rc, FIRST, PRESENT, START, BLOCK};
ghost use Rattle.store.specs.Sound.{mark_of};
ghost use Rattle.store.specs.Words.{cell, put, view, on_words};
ghost use Rattle.acts.specs.Writes.{move_writes, to_first_writes, discard_writes, drop_writes, put_writes, double_writes, place_writes, cut_writes, cut_put_writes, record_writes, offcut_writes};
ghost use Rattle.acts.specs.Apply.{ring_writes, after_w};
ghost use Rattle.store.specs.Reason.{reason_number};
ghost use Rattle.turns.specs.Code.{due_is, discard_is, act_is};
ghost use Rattle.store.specs.Value.{word_of};
ghost use Rattle.turns.specs.Form.{raised};
ghost use Rattle.lone.specs.Act.{cut};
ghost use Rattle.applying.specs.Applies.{Reach, PointFits, NewPoint, CutFits, OffcutFits, Applies};

use geometry::Point;
use primitives::{dispose_out_pt, dispose_out_pts, link_between, new_out_pt, start_record, unlink};
use store::{AT_SPLIT, AT_VALIDITY, Col, WHILE_REMOVING, get, set};
use turns::{Act, Discard, Due};

// The progress mark of a step due. A From for it would have to stand in turns, and is no plainer than this match.
fn mark_of(d: Due) -> usize
    ensures { (result ≡ mark_of (due_is d)) × (result < 2 ^ 32) }
{
    match d {
        Due::Validity => 0,
        Due::Removal => 1,
        Due::Triangle => 2,
        Due::Split => 3,
        Due::Done => 4,
    }
}

// The present place goes on to the next point.
fn move_on(w: &mut [u32], i: usize, d: Due)
    requires { Reach w.old i }
    ensures { w.new ≡ on_words w.old (move_writes (view w.old) i (due_is d)) }
{
    let m = mark_of(d);
    let x = get(w, Col::Present, i);
    let n = get(w, Col::Next, x);
    set(w, Col::Present, i, n);
    set(w, Col::Mark, i, m);
}

// Present place and loop's start are n.
fn set_loop(w: &mut [u32], i: usize, n: usize)
    requires { (BLOCK ≤ length w.old) × (i < limit.RECORDS) × (n < 2 ^ 32) }
    ensures { w.new ≡ put (rc START) (put (rc PRESENT) w.old i n) i n }
{
    set(w, Col::Present, i, n);
    set(w, Col::Start, i, n);
}

// Present place and loop's start are the first point.
fn to_first(w: &mut [u32], i: usize, d: Due)
    requires { Reach w.old i }
    ensures { w.new ≡ on_words w.old (to_first_writes (view w.old) i (due_is d)) }
{
    let m = mark_of(d);
    let f = get(w, Col::First, i);
    set_loop(w, i, f);
    set(w, Col::Mark, i, m);
}

// The number that is kept of the rule that discards a ring; a From is no plainer here either.
fn reason_number(y: Discard) -> usize
    ensures { (result ≡ reason_number (discard_is y)) × (result < 2 ^ 32) }
{
    match y {
        Discard::AtValidity => AT_VALIDITY,
        Discard::WhileRemoving => WHILE_REMOVING,
        Discard::AtSplit => AT_SPLIT,
    }
}

// The record is emptied, the ring is done, and the rule that said so is kept.
pub fn discard_ring(w: &mut [u32], i: usize, y: Discard)
    requires { Reach w.old i }
    ensures { w.new ≡ on_words w.old (discard_writes i (discard_is y)) }
{
    let r = reason_number(y);
    dispose_out_pts(w, i);
    set(w, Col::Mark, i, 4);
    set(w, Col::Reason, i, r);
}

// A first point that is x is p from now on.
fn fix_first(w: &mut [u32], i: usize, x: usize, p: usize)
    requires { (BLOCK ≤ length w.old) × (i < limit.RECORDS) × (p < 2 ^ 32) }
    ensures { w.new ≡ put (rc FIRST) w.old i (cond (eqb (cell (rc FIRST) w.old i) x) p (cell (rc FIRST) w.old i)) }
{
    let f = get(w, Col::First, i);
    if f == x {
        set(w, Col::First, i, p);
    } else {
        set(w, Col::First, i, f);
    }
}

// The present point goes out.
pub fn drop_point(w: &mut [u32], i: usize)
    requires { Reach w.old i }
    ensures { w.new ≡ on_words w.old (drop_writes (view w.old) i) }
{
    let x = get(w, Col::Present, i);
    let p = get(w, Col::Prev, x);
    fix_first(w, i, x, p);
    let n = dispose_out_pt(w, x);
    set_loop(w, i, n);
}

// A new point k of value v between p and n.
fn put_between(w: &mut [u32], k: usize, v: Point, r: usize, p: usize, n: usize)
    requires { NewPoint w.old k v × (r < 2 ^ 32) × (p < limit.POINTS) × (n < limit.POINTS) }
    ensures { w.new ≡ on_words w.old (put_writes k (word_of v.x) (word_of v.y) v.z r p n) }
{
    new_out_pt(w, k, v, r);
    link_between(w, p, k, n);
}

// A new point of value v before the present one: `duplicate_op`, with the value that `fix_self_intersects` then gives it.
fn double_point(w: &mut [u32], i: usize, v: Point, d: Due)
    requires { Reach w.old i × PointFits w.old v }
    ensures { w.new ≡ on_words w.old (double_writes (view w.old) i (word_of v.x) (word_of v.y) v.z (due_is d)) }
{
    let m = mark_of(d);
    let x = get(w, Col::Present, i);
    let p = get(w, Col::Prev, x);
    let r = get(w, Col::Rec, x);
    let k = get(w, Col::Points, 0);
    put_between(w, k, v, r, p, x);
    set(w, Col::Mark, i, m);
}

// First point and present place are p.
fn set_place(w: &mut [u32], i: usize, p: usize, d: Due)
    requires { (BLOCK ≤ length w.old) × (i < limit.RECORDS) × (p < 2 ^ 32) }
    ensures { w.new ≡ on_words w.old (place_writes i p (due_is d)) }
{
    let m = mark_of(d);
    set(w, Col::First, i, p);
    set(w, Col::Present, i, p);
    set(w, Col::Mark, i, m);
}

// The present point and the next go out.
fn cut_ring(w: &mut [u32], i: usize, d: Due)
    requires { Reach w.old i }
    ensures { w.new ≡ on_words w.old (cut_writes (view w.old) i (due_is d)) }
{
    let x = get(w, Col::Present, i);
    let y = get(w, Col::Next, x);
    let z = get(w, Col::Next, y);
    let p = get(w, Col::Prev, x);
    unlink(w, p, z);
    set_place(w, i, p, d);
}

// And a new point of value v goes in in their place.
fn cut_put(w: &mut [u32], i: usize, v: Point, d: Due)
    requires { Reach w.old i × PointFits w.old v }
    ensures { w.new ≡ on_words w.old (cut_put_writes (view w.old) i (word_of v.x) (word_of v.y) v.z (due_is d)) }
{
    let x = get(w, Col::Present, i);
    let y = get(w, Col::Next, x);
    let z = get(w, Col::Next, y);
    let p = get(w, Col::Prev, x);
    let r = get(w, Col::Rec, p);
    let k = get(w, Col::Points, 0);
    put_between(w, k, v, r, p, z);
    set_place(w, i, p, d);
}

// A record is taken for x and y: `new_out_rec`, but for what `start_record` sets.
fn take_record(w: &mut [u32], r: usize, x: usize, y: usize)
    requires { (BLOCK ≤ length w.old) × (r < limit.RECORDS) × (x < limit.POINTS) × (y < limit.POINTS) }
    ensures { w.new ≡ on_words w.old (record_writes r x y) }
{
    set(w, Col::Records, 0, r + 1);
    set(w, Col::Rec, x, r);
    set(w, Col::Rec, y, r);
}

// x and y, and a new point of value v, become the ring of a new record.
fn make_offcut(w: &mut [u32], i: usize, x: usize, y: usize, v: Point)
    requires { OffcutFits w.old i x y v }
    ensures { w.new ≡ on_words w.old (offcut_writes (view w.old) i x y (word_of v.x) (word_of v.y) v.z) }
{
    let r = get(w, Col::Records, 0);
    let b = get(w, Col::Points, 0);
    let o = get(w, Col::Owner, i);
    take_record(w, r, x, y);
    put_between(w, b, v, r, y, x);
    start_record(w, r, o, b, i);
}

// What a cut does in the ring itself.
fn cut_itself(w: &mut [u32], i: usize, v: Point, put: bool, d: Due)
    requires { CutFits w.old i v put }
    ensures { w.new ≡ on_words w.old (ring_writes raised (view w.old) i v put (due_is d)) }
{
    if put {
        cut_put(w, i, v, d);
    } else {
        cut_ring(w, i, d);
    }
}

// A cut, with an offcut or not: `do_split_op`.
fn cut(w: &mut [u32], i: usize, v: Point, put: bool, off: bool, d: Due)
    requires { Applies w.old i (cut v put off (due_is d)) }
    ensures { w.new ≡ after_w raised w.old i (cut v put off (due_is d)) }
{
    let x = get(w, Col::Present, i);
    let y = get(w, Col::Next, x);
    cut_itself(w, i, v, put, d);
    if off {
        make_offcut(w, i, x, y, v);
    }
}

// An act on record i.
pub fn apply(w: &mut [u32], i: usize, act: Act)
    requires { Applies w.old i (act_is act) }
    ensures { w.new ≡ after_w raised w.old i (act_is act) }
{
    match act {
        Act::Stay => {}
        Act::Discard(y) => discard_ring(w, i, y),
        Act::Drop => drop_point(w, i),
        Act::MoveOn(d) => move_on(w, i, d),
        Act::ToFirst(d) => to_first(w, i, d),
        Act::Double(v, d) => double_point(w, i, v, d),
        Act::Cut(v, put, off, d) => cut(w, i, v, put, off, d),
    }
}
