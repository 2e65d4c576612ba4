// The tests of the live block of a work space, in their order: read only, linear in points and records.
#![tactic(auto)]

pub mod points;
pub mod records;
mod walks;

ghost use Rattle.std.specs.Prelude.{◌≡◌, ◌||◌, ◌≤◌, ℕ, Bool, length};
ghost use Rattle.store.specs.Field.{BLOCK};
ghost use Rattle.store.specs.Named.{records_of};
ghost use Rattle.audit.specs.Tests.{any_below, no_such, no_such_of, lost_taker, misplaced, untold, crowded, any_record, tests_of};
ghost use Rattle.audit.specs.Marks.{Counted, any_marked, links_of, passes_of};

use crate::points::{loose, no_such, off_table};
use crate::records::{lost_taker, misplaced, no_such_of, untold};
use crate::walks::{any_marked, mark_all};
use job::Job;
use job::refusal::Refusal;
use store::{Col, get};

// Whether a count is above its limit.
pub fn crowded(w: &[u32]) -> bool
    requires { BLOCK ≤ length w.now }
    ensures { result ≡ crowded w.now }
{
    let m = get(w, Col::Points, 0);
    let n = get(w, Col::Records, 0);
    (Job::POINTS < m) | (Job::RECORDS < n)
}

// Whether a record fails the test.
fn any_record<F: Fn(usize) -> bool>(w: &[u32], fails: F) -> bool
    requires long { BLOCK ≤ length w.now }
    requires callable { F.IsAlwaysCallable fails }
    ensures { (q : ℕ → Bool) → ((i : ℕ) (r : Bool) → F.post fails i r → r ≡ q i) → result ≡ any_below (records_of w.now) q }
{
    (0..get(w, Col::Records, 0)).any(|i| fails(i))
}

// ---- all tests, in order

// Whether a number names nothing: of a marked point, a record's owner's or first point's, or a taker's.
fn any_no_such(w: &[u32], marks: &[u8]) -> bool
    requires { BLOCK ≤ length w.now }
    ensures { result ≡ (any_marked w.now marks.now (no_such w.now) || (any_record w.now (no_such_of w.now) || any_record w.now (lost_taker w.now))) }
{
    let a = any_marked(w, marks, |k| no_such(w, k));
    let b = any_record(w, |i| no_such_of(w, i));
    let c = any_record(w, |i| lost_taker(w, i));
    a | (b | c)
}

// Whether two records share a ring, a record's progress is misplaced, or a record without a ring keeps no reason.
fn any_muddled(w: &[u32], shares: bool) -> bool
    requires { BLOCK ≤ length w.now }
    ensures { result ≡ (shares || (any_record w.now (misplaced w.now) || any_record w.now (untold w.now))) }
{
    if shares {
        return true;
    }
    let a = any_record(w, |i| misplaced(w, i));
    let b = any_record(w, |i| untold(w, i));
    a | b
}

// The tests after the coordinates: numbers, links, rings and progress.
fn links_of(w: &[u32], marks: &[u8], shares: bool) -> Result<(), Refusal>
    requires { BLOCK ≤ length w.now }
    ensures { result ≡ links_of w.now marks.now shares }
{
    if any_no_such(w, marks) {
        return Err(Refusal::NoSuch);
    }
    if any_marked(w, marks, |k| loose(w, k)) {
        return Err(Refusal::Loose);
    }
    if any_muddled(w, shares) {
        return Err(Refusal::Muddled);
    }
    Ok(())
}

// The tests after the counts, one after the other.
fn passes_of(w: &[u32], marks: &[u8], shares: bool) -> Result<(), Refusal>
    requires { BLOCK ≤ length w.now }
    ensures { result ≡ passes_of w.now marks.now shares }
{
    if any_marked(w, marks, |k| off_table(w, k)) {
        return Err(Refusal::OffTheTable);
    }
    links_of(w, marks, shares)
}

// The tests after the counts, in their order.
pub fn in_order(w: &[u32]) -> Result<(), Refusal>
    requires { Counted w.now }
    ensures { result ≡ tests_of w.now }
{
    let mut marks = [0u8; Job::POINTS];
    let shared = mark_all(w, &mut marks);
    passes_of(w, &marks, shared)
}

// The tests of the live block, in their order.
pub fn tests_of(w: &[u32]) -> Result<(), Refusal>
    requires { BLOCK ≤ length w.now }
    ensures { result ≡ tests_of w.now }
{
    if crowded(w) {
        return Err(Refusal::Crowded);
    }
    in_order(w)
}
