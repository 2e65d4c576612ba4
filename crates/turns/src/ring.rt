// Reading a ring: its points by number and by value, a record's places and its step due.
ghost use Rattle.std.specs.Prelude.{◌≡◌, ◌<◌, ◌≤◌, length};
ghost use Rattle.job.specs.Limits as limit;
ghost use Rattle.store.specs.Field.{pt, NEXT, PREV, BLOCK};
ghost use Rattle.store.specs.Words.{cell, view};
ghost use Rattle.store.specs.Sound.{due_at};
ghost use Rattle.turns.specs.Code.{due_is};
ghost use Rattle.walks.specs.Ring.{OnRing};
ghost use Rattle.turns.specs.Reads.{Found, Valued};

use crate::Due;
use geometry::Point;
use primitives::point;
use store::{Col, get};

// The next point.
pub fn next_of(w: &[u32], x: usize) -> usize
    requires { OnRing w.now x }
    ensures { Found w.now (cell (pt NEXT) w.now x) result }
{
    get(w, Col::Next, x)
}

// The point before.
pub fn prev_of(w: &[u32], x: usize) -> usize
    requires { OnRing w.now x }
    ensures { Found w.now (cell (pt PREV) w.now x) result }
{
    get(w, Col::Prev, x)
}

// A point by value.
pub fn point_at(w: &[u32], k: usize) -> Point
    requires { OnRing w.now k }
    ensures { Valued w.now k result }
{
    point(w, k)
}

// The step due: a record's progress mark. The marks are words of the work space, which C hands over; a From of a word would be this match.
pub fn due_at(w: &[u32], i: usize) -> Due
    requires { (BLOCK ≤ length w.now) × (i < limit.RECORDS) }
    ensures { due_is result ≡ due_at (view w.now) i }
{
    match get(w, Col::Mark, i) {
        0 => Due::Validity,
        1 => Due::Removal,
        2 => Due::Triangle,
        3 => Due::Split,
        _ => Due::Done,
    }
}
