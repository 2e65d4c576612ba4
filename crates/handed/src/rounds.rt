// All tests at once: a record after the other, and round its ring, whose points are marked and tested and whose box is gathered. The first thing that fails ends them.
ghost use Rattle.std.specs.Prelude.{◌≡◌, ◌≢◌, ◌<◌, ◌≤◌, IfSome, length, get_or};
ghost use Rattle.job.specs.Limits as limit;
ghost use Rattle.store.specs.Field as field;
ghost use Rattle.store.specs.Named.{points_of, records_of, first_of};
ghost use Rattle.audit.specs.Marks.{Counted, Clear};
ghost use Rattle.handed.specs.Rounds.{Unless, misplaced_if, RoundPassed, RingPassed, RecordPassed, RecordsPassed};

use audit::points::{FAR, is_faulty};
use audit::records::{ill_kept, names_nothing};
use bounds::{same_sides, widen_by};
use job::Job;
use store::boxed::{Sides, sides_of};
use store::{Col, NONE, get};

// What a round finds: whether it met the point that it was to look for, and the box of its ring.
#[derive(Clone, Copy)]
struct Trail {
    met: bool,
    sides: Sides,
}

// The words of a job, with its m points and n records.
#[derive(Clone, Copy)]
struct Tested<'a> {
    w: &'a [u32],
    m: usize,
    n: usize,
    ghost counted: { Counted w.now },
    ghost points: { m ≡ points_of w.now },
    ghost records: { n ≡ records_of w.now },
}

impl Tested<'_> {
    // Goes round from a, which is one of the m points and not marked, up to a marked point, and looks for k on its way; None where a point fails a test or it did not come back to its beginning.
    fn try_from(self, marks: &mut [u8], a: usize, k: usize) -> Option<Trail>
        requires { (points_of self.w.now ≤ length marks.old) × (a < self.m) × (get_or marks.old a 0 ≡ 0) }
        ensures { IfSome result (λ t. RoundPassed self.entry.w.now marks.old a k marks.new t.met t.sides) }
    {
        // no point is in it, and any is beyond it
        let mut b = Sides {
            left: FAR,
            top: FAR,
            right: 0,
            bottom: 0,
        };
        let mut met = false;
        let mut p = a;
        for _turn in 0..Job::POINTS {
            if marks[p] != 0 {
                if p != a {
                    return None;
                }
                return Some(Trail { met: met, sides: b });
            }
            marks[p] = 1;
            met = met | (p == k);
            let q = get(self.w, Col::Next, p);
            if is_faulty(self.w, self.m, self.n, p, q) {
                return None;
            }
            let x = get(self.w, Col::X, p);
            let y = get(self.w, Col::Y, p);
            b = widen_by(b, x, y);
            p = q;
        }
        Some(Trail { met: met, sides: b })
    }

    // Whether record i's progress has no meaning: its ring is closed, and its mark is none of the five, or it is unfinished and its present place is not on the ring.
    fn is_misplaced(self, i: usize, on: bool) -> bool
        requires { i < self.n }
        ensures { result ≡ misplaced_if self.entry.w.now i on }
    {
        let g = get(self.w, Col::Flags, i);
        if g % 2 == 1 {
            return false;
        }
        let d = get(self.w, Col::Mark, i);
        (4 < d) | ((d < 4) & !on)
    }

    // Whether the round along record i's ring, which starts at a, finds something, its progress is misplaced, or the box beside it is another.
    fn is_bad_ring(self, marks: &mut [u8], i: usize, a: usize) -> bool
        requires { (points_of self.w.now ≤ length marks.old) × (i < self.n) × (a ≡ first_of self.w.now i) × (a ≢ field.NONE) × (a < self.m) × (get_or marks.old a 0 ≡ 0) }
        ensures { Unless result (RingPassed self.entry.w.now marks.old i marks.new) }
    {
        let k = get(self.w, Col::Present, i);
        let Some(t) = self.try_from(marks, a, k) else {
            return true;
        };
        if self.is_misplaced(i, t.met) {
            return true;
        }
        let b = sides_of(self.w, i);
        !same_sides(t.sides, b)
    }

    // Whether record i fails a test, its ring is an earlier record's, or its ring is bad.
    fn is_bad_record(self, marks: &mut [u8], i: usize) -> bool
        requires { (points_of self.w.now ≤ length marks.old) × (length marks.old ≤ limit.POINTS) × (i < self.n) }
        ensures { Unless result (RecordPassed self.entry.w.now marks.old i marks.new) }
    {
        let o = get(self.w, Col::Owner, i);
        if names_nothing(self.n, o) {
            return true;
        }
        let a = get(self.w, Col::First, i);
        if a == NONE {
            return ill_kept(self.w, i);
        }
        if self.m <= a {
            return true;
        }
        if marks[a] != 0 {
            return true;
        }
        self.is_bad_ring(marks, i, a)
    }
}

// Whether a record has something that fails; where none has, every reached point is marked.
pub fn any_bad_record(w: &[u32], marks: &mut [u8]) -> bool
    requires { Counted w.now × Clear w.now marks.old }
    ensures { Unless result (RecordsPassed w.now marks.old (records_of w.now) marks.new) }
{
    let t = Tested {
        w,
        m: get(w, Col::Points, 0),
        n: get(w, Col::Records, 0),
    };
    for i in 0..t.n {
        if t.is_bad_record(marks, i) {
            return true;
        }
    }
    false
}
