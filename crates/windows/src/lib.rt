// The records in a window: those whose boxes meet it. `records_in` has no `requires`.
#![tactic(auto)]

ghost use Rattle.std.specs.Prelude.{◌≡◌, ◌<◌, ◌≤◌, length, pos, ◌+ℤ◌, Ok};
ghost use Rattle.std.specs.Int.Signed.{le_z};
ghost use Rattle.numbers.specs.Raised.{coordinate};
ghost use Rattle.job.specs.Limits as limit;
ghost use Rattle.store.specs.Field.{BLOCK};
ghost use Rattle.store.specs.Named.{records_of};
ghost use Rattle.store.specs.Good.{SoundWords};
ghost use Rattle.store.specs.Boxes.{rect_of};
ghost use Rattle.paths.specs.Tray.{padded};
ghost use Rattle.windows.specs.Window.{overlap, box_meets};
ghost use Rattle.windows.specs.RecordsIn.{is_in, all_in, placed, place_if, found, records_by, records_in};
ghost use Rattle.windows.specs.Needs.{Counted, Roomy, Listable};

use geometry::Rect;
use handed::handed;
use job::Job;
use job::refusal::Refusal;
use opening::clear::clear;
use store::boxed::{Sides, sides_of};
use store::{Col, NONE, get};

// Words of boxes are raised as coordinates are.
const RAISE: i64 = Job::COORDINATE as i64;

// A side of a window, raised so.
fn raised(z: i32) -> i64
    ensures { result ≡ z +ℤ pos limit.COORDINATE }
{
    z as i64 + RAISE
}

// Whether the coordinate of the word v is at most z.
fn at_most(v: usize, z: i32) -> bool
    ensures { result ≡ le_z (coordinate limit.COORDINATE v) z }
{
    let r = raised(z);
    if r < 0 {
        return false;
    }
    v <= r as usize
}

// Whether z is at most the coordinate of the word v.
fn at_least(v: usize, z: i32) -> bool
    ensures { result ≡ le_z z (coordinate limit.COORDINATE v) }
{
    let r = raised(z);
    if r < 0 {
        return true;
    }
    r as usize <= v
}

// Whether some place lies between the coordinates of two words and between two sides of the window.
fn overlaps(low: usize, high: usize, from: i32, to: i32) -> bool
    ensures { result ≡ overlap (coordinate limit.COORDINATE low) (coordinate limit.COORDINATE high) from to }
{
    let a = at_most(low, to);
    let b = at_least(high, from);
    (from <= to) & (a & b)
}

// Whether the box of these words meets the window.
fn box_meets(b: Sides, window: Rect) -> bool
    ensures { result ≡ box_meets (rect_of b) window }
{
    let x = overlaps(b.left, b.right, window.left, window.right);
    let y = overlaps(b.top, b.bottom, window.top, window.bottom);
    x & y
}

// Whether record i has a ring, and its box meets the window.
fn is_in(w: &[u32], window: Rect, i: usize) -> bool
    requires { (BLOCK ≤ length w.now) × (i < limit.RECORDS) }
    ensures { result ≡ is_in w.now window i }
{
    let f = get(w, Col::First, i);
    if f == NONE {
        return false;
    }
    box_meets(sides_of(w, i), window)
}

// How many records there are.
fn count_in(w: &[u32], window: Rect) -> usize
    requires { Counted w.now }
    ensures { result ≡ length (all_in w.now window) }
{
    let n = get(w, Col::Records, 0);
    let mut m: usize = 0;
    for i in 0..n {
        m += usize::from(is_in(w, window, i));
    }
    m
}

// Record i at a place of the list, if it is in the window; then the place after it.
fn list_one(w: &[u32], window: Rect, i: usize, list: &mut [u32], at: usize) -> usize
    requires { Counted w.now × (i < records_of w.now) × Roomy w.now window i list.old at }
    ensures { placed result list.new ≡ place_if (is_in w.now window i) i at list.old }
{
    if is_in(w, window, i) {
        list[at] = i as u32;
        return at + 1;
    }
    at
}

// Lists the records in a list of zeros.
fn list_in(w: &[u32], window: Rect, list: &mut [u32])
    requires { Listable w.now window list.old }
    ensures { list.new ≡ padded (length list.old) (all_in w.now window) }
{
    let n = get(w, Col::Records, 0);
    let mut at: usize = 0;
    for i in 0..n {
        at = list_one(w, window, i, list, at);
    }
}

// On a work space that passed the tests.
fn in_tested(w: &[u32], window: Rect, list: &mut [u32]) -> Result<usize, Refusal>
    requires { SoundWords w.now }
    ensures { found result list.new ≡ records_by (Ok tt) w.now window list.old }
{
    let n = count_in(w, window);
    if list.len() < n {
        return Err(Refusal::SmallTray);
    }
    clear(list);
    list_in(w, window, list);
    Ok(n)
}

// The records whose boxes meet a window, ascending, in the list, and how many they are. The work space is only read; a refusal leaves the list.
pub fn records_in(work: &[u32], window: Rect, list: &mut [u32]) -> Result<usize, Refusal>
    ensures { found result list.new ≡ records_in work.now window list.old }
{
    handed(work)?;
    in_tested(work, window, list)
}
