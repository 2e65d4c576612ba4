// The first loop of convert_horz_segs_to_joins: each segment is run to both sides, headed, and struck out where its left point is taken.
ghost use Rattle.std.specs.Prelude.{◌≡◌, ◌+◌, ◌<◌, ◌≤◌, length};
ghost use Rattle.store.specs.Field.{BLOCK};
ghost use Rattle.job.specs.Limits as limit;
ghost use Rattle.joins.specs.Needs.{Point};
ghost use Rattle.segments.specs.Needs.{Home};
ghost use Rattle.segments.specs.Update.{has_front, ends_of, headed, segment_through, claim, claim_of, segments_of};
ghost use Rattle.segments.specs.Needs.{Listed};

use crate::level;
use crate::level::Ends;
use job::Job;
use joins::{home, point_at};
use sorting::{HorzSegment, LAST};
use store::{Col, NONE, get};

// Bit 1 of a record's flags.
fn has_front(w: &[u32], i: usize) -> bool
    requires { (BLOCK ≤ length w.now) × (i < limit.RECORDS) }
    ensures { result ≡ has_front w.now i }
{
    let f = get(w, Col::Flags, i);
    f / 2 % 2 == 1
}

// Both ends of the level run through op.
fn ends(w: &[u32], op: usize, i: usize) -> Ends
    requires { Home w.now op i }
    ensures { result ≡ ends_of w.now op i }
{
    let y = get(w, Col::Y, op);
    if has_front(w, i) {
        return level::walled_ends(w, op, y, i);
    }
    level::free_ends(w, op, y)
}

// Which end is left; a run of one x is no segment.
fn set_horz_seg_heading_forward(w: &[u32], op: usize, p: usize, n: usize) -> HorzSegment
    requires { (BLOCK ≤ length w.now) × (p < limit.POINTS) × (n < limit.POINTS) }
    ensures { result ≡ headed w.now op p n }
{
    let a = get(w, Col::X, p);
    let b = get(w, Col::X, n);
    if a == b {
        return HorzSegment {
            key: LAST,
            left: op,
            right: NONE,
            forward: 1,
        };
    }
    if a < b {
        return HorzSegment {
            key: a,
            left: p,
            right: n,
            forward: 1,
        };
    }
    HorzSegment {
        key: b,
        left: n,
        right: p,
        forward: 0,
    }
}

// The level segment through op. (Where the Rust goes on without a left point or a record, here there are both: rows 5 and 7.)
fn segment_through(w: &[u32], op: usize) -> HorzSegment
    requires { Point w.now op }
    ensures { result ≡ segment_through w.now op }
{
    let i = home(w, op);
    let e = ends(w, op, i);
    set_horz_seg_heading_forward(w, op, e.back, e.ahead)
}

// A valid segment takes its left point, unless it is taken.
fn claim(marks: &mut [u8; Job::POINTS], s: HorzSegment) -> HorzSegment
    requires { s.left < limit.POINTS }
    ensures { claim result marks.new ≡ claim_of marks.old s }
{
    let l = s.left;
    let r = s.right;
    if r == NONE {
        return s;
    }
    if marks[l] == 0 {
        marks[l] = 1;
        return s;
    }
    let f = s.forward;
    HorzSegment {
        key: LAST,
        left: l,
        right: NONE,
        forward: f,
    }
}

// The job's segments, in their order.
pub fn update_segments(w: &[u32], segments: &[u32], n: usize) -> [HorzSegment; Job::SEGMENTS]
    requires { Listed w.now n segments.now }
    ensures { result ≡ segments_of w.now n segments.now }
{
    let blank = HorzSegment {
        key: LAST,
        left: NONE,
        right: NONE,
        forward: 0,
    };
    let mut list = [blank; Job::SEGMENTS];
    let mut marks = [0u8; Job::POINTS];
    for i in 0..n {
        let s = segment_through(w, point_at(segments, i));
        list[i] = claim(&mut marks, s);
    }
    list
}
