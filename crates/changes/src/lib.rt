// Whether an act may change the box of its ring, by what is at hand before it: only a spike that is dropped, or a point that is cut away, from a side of the box does; or the ring is discarded.
#![tactic(auto)]

ghost use Rattle.std.specs.Prelude.{◌≡◌, ◌≤◌, length};
ghost use Rattle.store.specs.Field.{rc, PRESENT, BLOCK};
ghost use Rattle.store.specs.Words.{view};
ghost use Rattle.store.specs.Boxes.{sides_at};
ghost use Rattle.walks.specs.Ring.{OnRing};
ghost use Rattle.turns.specs.Code.{act_is};
ghost use Rattle.turns.specs.Reads.{Going, Three};
ghost use Rattle.lone.specs.Act.{drop_point};
ghost use Rattle.boxes.specs.AtHand.{side_word, back_at, spike_at, either_at, changes_at};

use store::boxed::{Sides, sides_of};
use store::{Col, read};
use turns::Act;
use turns::decide::present_of;
use turns::ring::{next_of, point_at, prev_of};

// Whether point k is on a side of the box.
fn on_side(w: &[u32], b: Sides, k: usize) -> bool
    requires { BLOCK ≤ length w.now }
    ensures { result ≡ side_word b (view w.now) k }
{
    let x = read(w, Col::X, k);
    let y = read(w, Col::Y, k);
    (b.left == x) | ((b.top == y) | ((b.right == x) | (b.bottom == y)))
}

// Whether the way from p by x to n turns back at x.
fn turns_back(w: &[u32], p: usize, x: usize, n: usize) -> bool
    requires { Three w.now p x n }
    ensures { result ≡ back_at (view w.now) p x n }
{
    let a = point_at(w, p);
    let b = point_at(w, x);
    let c = point_at(w, n);
    let d = geometry::dot_product_three_points(a, b, c);
    d < 0
}

// Whether it does at the point x of a ring.
fn is_spike(w: &[u32], x: usize) -> bool
    requires { OnRing w.now x }
    ensures { result ≡ spike_at (view w.now) x }
{
    let p = prev_of(w, x);
    let n = next_of(w, x);
    turns_back(w, p, x, n)
}

// The present point of record i is dropped: a spike on a side.
fn drop_may_change(w: &[u32], i: usize) -> bool
    requires { Going w.now i }
    ensures { result ≡ changes_at (sides_at w.now i) (view w.now) (view w.now (rc PRESENT) i) drop_point }
{
    let x = present_of(w, i);
    let b = sides_of(w, i);
    on_side(w, b, x) && is_spike(w, x)
}

// The present point and the next are cut away: one of them on a side.
fn cut_may_change(w: &[u32], i: usize) -> bool
    requires { Going w.now i }
    ensures { result ≡ either_at (sides_at w.now i) (view w.now) (view w.now (rc PRESENT) i) }
{
    let x = present_of(w, i);
    let b = sides_of(w, i);
    let y = next_of(w, x);
    let one = on_side(w, b, x);
    let other = on_side(w, b, y);
    one | other
}

// Whether an act on record i may change its ring's box. Most acts only move on, and read nothing here.
pub fn may_change(w: &[u32], i: usize, act: Act) -> bool
    requires { Going w.now i }
    ensures { result ≡ changes_at (sides_at w.now i) (view w.now) (view w.now (rc PRESENT) i) (act_is act) }
{
    match act {
        Act::Discard(_) => true,
        Act::Drop => drop_may_change(w, i),
        Act::Cut(_, _, _, _) => cut_may_change(w, i),
        Act::Stay | Act::MoveOn(_) | Act::ToFirst(_) | Act::Double(_, _) => false,
    }
}
