// What every call on an opened work space asks first: its length, then all tests at once; in their order only where something fails.
#![tactic(auto)]

mod boxes;
mod names;
mod rounds;

ghost use Rattle.std.specs.Prelude.{◌≡◌, ◌≤◌, length};
ghost use Rattle.store.specs.Field.{LENGTH};
ghost use Rattle.handed.specs.Handed.{tested_of, handed_of};
ghost use Rattle.audit.specs.Marks.{Counted, Clear};
ghost use Rattle.handed.specs.Rounds.{Looked};

use crate::boxes::last_tested;
use crate::names::names_tested;
use crate::rounds::any_bad_record;
use audit::{crowded, in_order};
use job::Job;
use job::refusal::Refusal;
use store::{Col, LENGTH, get};

// As many points as a small array has marks for: zeros for all that a job may have would cost a small one more than its tests.
const FEW: usize = 64;

// ---- all tests at once

// Whether no record has anything that fails.
fn none_found(w: &[u32], marks: &mut [u8]) -> bool
    requires { Counted w.now × Clear w.now marks.old }
    ensures { Looked w.now result }
{
    let bad = any_bad_record(w, marks);
    !bad
}

// The same, with marks of its own.
fn is_good(w: &[u32]) -> bool
    requires { Counted w.now }
    ensures { Looked w.now result }
{
    let m = get(w, Col::Points, 0);
    if m <= FEW {
        let mut marks = [0u8; FEW];
        return none_found(w, &mut marks);
    }
    let mut marks = [0u8; Job::POINTS];
    none_found(w, &mut marks)
}

// ---- what a call asks first

// The tests of a work space that is long enough: its counts; its live block and its boxes at once, and in their order only where something fails; then its names.
pub fn tested(w: &[u32]) -> Result<(), Refusal>
    requires { LENGTH ≤ length w.now }
    ensures { result ≡ tested_of w.now }
{
    if crowded(w) {
        return Err(Refusal::Crowded);
    }
    if is_good(w) {
        return names_tested(w);
    }
    in_order(w)?;
    last_tested(w)
}

// What every call on an opened work space asks first: its length, then its tests.
pub fn handed(w: &[u32]) -> Result<(), Refusal>
    ensures { result ≡ handed_of w.now }
{
    if w.len() < LENGTH {
        return Err(Refusal::Full);
    }
    tested(w)
}
