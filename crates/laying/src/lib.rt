// Laying two drawings together: the tests of both work spaces, one by one, then the second's drawing beside the first's.
#![tactic(auto)]

ghost use Rattle.std.specs.Prelude.{◌≡◌, ◌+◌, ◌<◌, ◌≤◌, length, Ok};
ghost use Rattle.store.specs.Field as layout;
ghost use Rattle.store.specs.Good.{SoundWords};
ghost use Rattle.store.specs.Words.{view};
ghost use Rattle.audit.specs.Left.{left};
ghost use Rattle.pooling.specs.Needs.{CountsOf};
ghost use Rattle.laying.specs.Lay.{settings_byte, is_stepped, any_stepped, lay_room, lay_tested, lay_by, lay_of};

use handed::tested;
use job::Job;
use job::refusal::Refusal;
use pooling::{Used, lay_all};
use store::{Col, JOINED, LENGTH, NONE, get, read};

// How many values a byte has.
const BYTES: usize = 256;

// ---- the tests

// The settings byte of a work space.
fn settings_byte(w: &[u32]) -> usize
    requires { layout.BLOCK ≤ length w.now }
    ensures { result ≡ settings_byte (view w.now) }
{
    let s = get(w, Col::Settings, 0);
    s % BYTES
}

// The counts of a sound work space.
fn counts_of(w: &[u32]) -> Used
    requires { SoundWords w.now }
    ensures { CountsOf w.now result }
{
    let p = get(w, Col::Points, 0);
    let r = get(w, Col::Records, 0);
    Used {
        points: p,
        records: r,
    }
}

// Whether a record is an offcut, was discarded by a step, or is a closed ring that isn't at its start.
fn is_stepped(w: &[u32], i: usize) -> bool
    requires { layout.BLOCK ≤ length w.now }
    ensures { result ≡ is_stepped (view w.now) i }
{
    let c = read(w, Col::Cut, i);
    let f = read(w, Col::First, i);
    let g = read(w, Col::Flags, i);
    let d = read(w, Col::Mark, i);
    let p = read(w, Col::Present, i);
    let k = read(w, Col::Reason, i);
    if c != NONE {
        return true;
    }
    if f == NONE {
        return JOINED < k;
    }
    if g % 2 == 1 {
        return false;
    }
    !((d == 0) & (p == f))
}

// Whether any record of a work space is.
fn any_stepped(w: &[u32]) -> bool
    requires { layout.BLOCK ≤ length w.now }
    ensures { result ≡ any_stepped (view w.now) }
{
    (0..get(w, Col::Records, 0)).any(|i| is_stepped(w, i))
}

// ---- the call, test by test

// Settings and steps are in order: is there room?
fn lay_room(first: &mut [u32], second: &[u32]) -> Result<(), Refusal>
    requires { (SoundWords first.old) × (SoundWords second.now) }
    ensures { left result first.new ≡ lay_room first.old second.now }
{
    let a = counts_of(first);
    let b = counts_of(second);
    let p = a.points + b.points;
    let r = a.records + b.records;
    if Job::POINTS < p {
        return Err(Refusal::Full);
    }
    if Job::RECORDS < r {
        return Err(Refusal::Full);
    }
    lay_all(first, second, a, b);
    Ok(())
}

// Both passed their tests.
fn lay_tested(first: &mut [u32], second: &[u32]) -> Result<(), Refusal>
    requires { (SoundWords first.old) × (SoundWords second.now) }
    ensures { left result first.new ≡ lay_tested first.old second.now }
{
    let a = settings_byte(first);
    let b = settings_byte(second);
    if a != b {
        return Err(Refusal::SettingsDiffer);
    }
    let x = any_stepped(first);
    let y = any_stepped(second);
    if x {
        return Err(Refusal::OutOfTurn);
    }
    if y {
        return Err(Refusal::OutOfTurn);
    }
    lay_room(first, second)
}

// The first passed its tests, and the second is long enough.
fn lay_first(first: &mut [u32], second: &[u32]) -> Result<(), Refusal>
    requires { (SoundWords first.old) × (layout.LENGTH ≤ length second.now) }
    ensures { left result first.new ≡ lay_by (Ok tt) first.old second.now }
{
    tested(second)?;
    lay_tested(first, second)
}

// Lays the second's drawing beside the first's: the answer, and every word left. A refusal leaves every word as found.
pub fn lay_together(first: &mut [u32], second: &[u32]) -> Result<(), Refusal>
    ensures { left result first.new ≡ lay_of first.old second.now }
{
    if first.len() < LENGTH {
        return Err(Refusal::Full);
    }
    if second.len() < LENGTH {
        return Err(Refusal::Full);
    }
    tested(first)?;
    lay_first(first, second)
}
