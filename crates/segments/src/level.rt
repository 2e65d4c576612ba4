// The walks of convert_horz_segs_to_joins. `on`: along next; else along prev.
ghost use Rattle.std.specs.Prelude.{true, false, ◌≡◌, ◌<◌};
ghost use Rattle.joins.specs.Needs.{Point};
ghost use Rattle.segments.specs.Level.{along_of, halts_at, run_of};
ghost use Rattle.segments.specs.Needs.{Together, Ending, Home};
ghost use Rattle.segments.specs.Update.{walled_ends, free_ends};
ghost use Rattle.segments.specs.Pair.{one_of, two_of};
ghost use Rattle.segments.specs.Needs.{Meeting};

use store::{Col, get};

// The neighbour that way.
fn along(w: &[u32], on: bool, p: usize) -> usize
    requires { Point w.now p }
    ensures { result ≡ along_of w.now on p }
{
    if on {
        return get(w, Col::Next, p);
    }
    get(w, Col::Prev, p)
}

// What ends a walk: the wall of a ring with a front edge; the other end of a run without one; another segment's x. An enum and no closure: the definitions `halts_at` and `run_of` go by its cases.
#[derive(Clone, Copy)]
pub enum Halt {
    Wall(usize),
    Stop(usize),
    Limit(usize),
}

// Whether a walk ends at p: there, or because the one after is at another height.
fn halts(w: &[u32], on: bool, h: Halt, y: usize, p: usize) -> bool
    requires { Point w.now p }
    ensures { result ≡ halts_at w.now on h y p }
{
    let q = along(w, on, p);
    let x = get(w, Col::X, q);
    let v = get(w, Col::Y, q);
    match h {
        Halt::Wall(k) => (p == k) | !(v == y),
        Halt::Stop(k) => (q == k) | !(v == y),
        Halt::Limit(k) => (k < x) | !(v == y),
    }
}

// The walk, along links: no index is counted.
fn run(w: &[u32], on: bool, h: Halt, y: usize, start: usize) -> usize
    requires { Ending w.now start h }
    ensures { result ≡ run_of w.now on h y start }
{
    let mut p = start;
    loop {
        if halts(w, on, h, y, p) {
            return p;
        }
        p = along(w, on, p);
    }
}

#[derive(Clone, Copy)]
pub struct Two {
    pub one: usize,
    pub two: usize,
}

// The left points of two overlapping segments, moved together.
pub fn move_pair(w: &[u32], on: bool, y: usize, l1: usize, l2: usize) -> Two
    requires { Meeting w.now l1 l2 }
    ensures { (result.one ≡ one_of w.now on y l1 l2) × (result.two ≡ two_of w.now on y l1 l2) }
{
    let limit = get(w, Col::X, l2);
    let one = run(w, on, Halt::Limit(limit), y, l1);
    let far = get(w, Col::X, one);
    let two = run(w, !on, Halt::Limit(far), y, l2);
    Two { one, two }
}

// Both ends of a level run: back along prev, ahead along next.
#[derive(Clone, Copy)]
pub struct Ends {
    pub back: usize,
    pub ahead: usize,
}

// With a front edge: the walls are the first point and its next.
pub(crate) fn walled_ends(w: &[u32], p: usize, y: usize, i: usize) -> Ends
    requires { Home w.now p i }
    ensures { result ≡ walled_ends w.now p y i }
{
    let a = get(w, Col::First, i);
    let z = get(w, Col::Next, a);
    let back = run(w, false, Halt::Wall(z), y, p);
    let ahead = run(w, true, Halt::Wall(a), y, p);
    Ends { back, ahead }
}

// Without one: back as far as p itself, then on as far as that end.
pub(crate) fn free_ends(w: &[u32], p: usize, y: usize) -> Ends
    requires { Together w.now p p }
    ensures { result ≡ free_ends w.now p y }
{
    let back = run(w, false, Halt::Stop(p), y, p);
    let ahead = run(w, true, Halt::Stop(back), y, p);
    Ends { back, ahead }
}
