// Turns of the removal and of the split loop that only move on, many at once: a loop walks by reading, and the present place is written once. As many steps leave the same words.
ghost use Rattle.std.specs.Prelude.{◌≡◌, ◌<◌, ◌≤◌, ◌^◌, length};
ghost use Rattle.job.specs.Limits as limit;
ghost use Rattle.rings.specs.Progress.{removal, triangle, split, done};
ghost use Rattle.geometry.specs.Plane.{segments_intersect};
ghost use Rattle.store.specs.Field.{pt, NEXT, BLOCK};
ghost use Rattle.store.specs.Words.{cell, view};
ghost use Rattle.store.specs.Value.{point_of};
ghost use Rattle.store.specs.Good.{SoundWords};
ghost use Rattle.turns.specs.Form.{raised, geometry_of};
ghost use Rattle.turns.specs.Reads.{Three, Steps};
ghost use Rattle.turns.specs.Decide.{remove_at};
ghost use Rattle.steps.specs.Glide.{Glides, DueAt, leaves, place_of, coming_by, GlidesTo};

use crate::coming::Coming;
use crate::step::is_live;
use job::Job;
use store::{Col, get, set};
use turns::Due;
use turns::decide::{present_of, removable_at};
use turns::ring::{due_at, next_of, point_at, prev_of};

// How a loop's walk ended: at a point where a step is to be decided, at one that the removal loop drops, or past the loop's end, at the point that its last turn moved on to.
#[derive(Clone, Copy)]
pub enum WalkEnd {
    At(usize),
    Gone(usize),
    Past(usize),
}

// Whether the point x, between p and n, is dropped; most are not, since they are not in line.
fn gone_at(w: &[u32], p: usize, x: usize, n: usize) -> bool
    requires { Three w.now p x n }
    ensures { result ≡ remove_at raised.of (geometry_of (view w.now)) (view w.now) p x n }
{
    let a = point_at(w, p);
    let b = point_at(w, x);
    let c = point_at(w, n);
    if !geometry::is_collinear(a, b, c) {
        return false;
    }
    removable_at(w, p, x, n)
}

// The removal loop, up to a point to drop or past its end.
fn removal_walk(w: &[u32], i: usize) -> WalkEnd
    requires { DueAt removal w.now i }
    ensures { GlidesTo triangle w.now i result }
{
    let s = get(w, Col::Start, i);
    let mut x = present_of(w, i);
    let mut p = prev_of(w, x);
    for _ in 0..Job::POINTS {
        let n = next_of(w, x);
        if gone_at(w, p, x, n) {
            return WalkEnd::Gone(x);
        }
        if n == s {
            return WalkEnd::Past(n);
        }
        p = x;
        x = n;
    }
    WalkEnd::At(x)
}

// Whether the edge from p to x and the edge from y on cross.
fn crosses_at(w: &[u32], p: usize, x: usize, y: usize) -> bool
    requires { Three w.now p x y }
    ensures { result ≡ segments_intersect (point_of w.now p) (point_of w.now x) (point_of w.now y) (point_of w.now (cell (pt NEXT) w.now y)) }
{
    let a = point_at(w, p);
    let b = point_at(w, x);
    let c = point_at(w, y);
    let z = next_of(w, y);
    let d = point_at(w, z);
    crosses::edges_cross(a, b, c, d)
}

// The split loop, up to a crossing or past its end.
fn split_walk(w: &[u32], i: usize) -> WalkEnd
    requires { DueAt split w.now i }
    ensures { GlidesTo done w.now i result }
{
    let f = get(w, Col::First, i);
    let s = get(w, Col::Start, i);
    let mut x = present_of(w, i);
    let mut p = prev_of(w, x);
    for _ in 0..Job::POINTS {
        let y = next_of(w, x);
        if crosses_at(w, p, x, y) {
            return WalkEnd::At(x);
        }
        if y == f {
            return WalkEnd::Past(y);
        }
        if y == s {
            return WalkEnd::Past(y);
        }
        p = x;
        x = y;
    }
    WalkEnd::At(x)
}

// A walk's end is written; m is the mark past the loop's end.
fn put_end(w: &mut [u32], i: usize, r: WalkEnd, m: usize)
    requires { (BLOCK ≤ length w.old) × (i < limit.RECORDS) × (place_of r < limit.POINTS) × (m < 2 ^ 32) }
    ensures { w.new ≡ leaves m w.old i r }
{
    match r {
        WalkEnd::At(x) => set(w, Col::Present, i, x),
        WalkEnd::Gone(x) => set(w, Col::Present, i, x),
        WalkEnd::Past(x) => {
            set(w, Col::Present, i, x);
            set(w, Col::Mark, i, m);
        }
    }
}

// What comes next after a walk; past the loop's end, what is handed in.
fn coming_by(past: Coming, r: WalkEnd) -> Coming
    ensures { result ≡ coming_by past r }
{
    match r {
        WalkEnd::At(_) => Coming::Step,
        WalkEnd::Gone(x) => Coming::Drop(x),
        WalkEnd::Past(_) => past,
    }
}

// The removal loop's turns at once.
fn glide_removal(w: &mut [u32], i: usize) -> Coming
    requires { DueAt removal w.old i }
    ensures { Glides i w.old w.new result }
{
    let r = removal_walk(w, i);
    put_end(w, i, r, 2);
    coming_by(Coming::Step, r)
}

// The split loop's turns at once.
fn glide_split(w: &mut [u32], i: usize) -> Coming
    requires { DueAt split w.old i }
    ensures { Glides i w.old w.new result }
{
    let r = split_walk(w, i);
    put_end(w, i, r, 4);
    coming_by(Coming::Nothing, r)
}

// The same for an unfinished ring in either loop; any other stays.
fn glide_ring(w: &mut [u32], i: usize) -> Coming
    requires { Steps w.old i }
    ensures { Glides i w.old w.new result }
{
    match due_at(w, i) {
        Due::Removal => glide_removal(w, i),
        Due::Split => glide_split(w, i),
        Due::Validity | Due::Triangle | Due::Done => Coming::Step,
    }
}

// Steps on record i that only move on, none or many. Answers what comes next then.
pub fn glide(w: &mut [u32], i: usize) -> Coming
    requires { SoundWords w.old }
    ensures { Glides i w.old w.new result }
{
    if is_live(w, i) {
        return glide_ring(w, i);
    }
    Coming::Nothing
}
