// A record's progress: the step due, and any other progress that a case gives it before its steps.
ghost use Rattle.std.specs.Prelude.{◌≤◌, ◌<◌, ◌^◌, length};
ghost use Rattle.store.specs.Field.{BLOCK};

use job::Job;
use store::{Col, LENGTH, NONE, read, set};
use test_text::{further, number_at};
use turns::Due;
use turns::ring::due_at;

// The step due; done for an open ring and for none.
pub(crate) fn due_of(w: &[u32], i: usize) -> Due
    requires { BLOCK ≤ length w.now }
{
    if Job::RECORDS <= i {
        return Due::Done;
    }
    let f = read(w, Col::Flags, i);
    if f % 2 == 1 {
        return Due::Done;
    }
    let p = read(w, Col::First, i);
    if p == NONE {
        return Due::Done;
    }
    due_at(w, i)
}

// The point k places along next from the first of record i; none for a k that is none.
fn place(w: &[u32], i: usize, k: usize) -> usize
    requires { BLOCK ≤ length w.now }
    ensures { result < 2 ^ 32 }
{
    if k == NONE {
        return NONE;
    }
    let mut p = read(w, Col::First, i);
    for _ in 0..k {
        p = read(w, Col::Next, p);
    }
    p
}

// Four numbers at a place: record, mark, present place and start, both counted from the first point.
fn set_one(w: &mut [u32; LENGTH], s: &[u8], at: usize) {
    let i = number_at(s, at);
    let m = number_at(s, further(at, 2));
    let p = place(w, i, number_at(s, further(at, 4)));
    let a = place(w, i, number_at(s, further(at, 6)));
    if i < Job::RECORDS {
        set(w, Col::Mark, i, m);
        set(w, Col::Present, i, p);
        set(w, Col::Start, i, a);
    }
}

// The progress of some records.
pub(crate) fn set_all(w: &mut [u32; LENGTH], s: &[u8]) {
    let mut at: usize = 0;
    for _ in 0..100000 {
        if s.len() <= at {
            return;
        }
        set_one(w, s, at);
        at = further(at, 8);
    }
}
