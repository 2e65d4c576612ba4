// Mends the backward links of a job, in its bytes. No function of this file that is `pub` has a `requires`.
#![tactic(auto)]

ghost use Rattle.std.specs.Prelude.{◌≡◌, ◌+◌, ◌*◌, ◌<◌, ◌≤◌, ◌^◌, length, set};
ghost use Rattle.job.specs.Field as field;
ghost use Rattle.job.specs.declared.field.Kind.TheVariants as kind;
ghost use Rattle.job.specs.Limits as limit;
ghost use Rattle.store.specs.Field as layout;
ghost use Rattle.store.specs.Named.{points_of, next_of};
ghost use Rattle.audit.specs.Tests.{any_below};
ghost use Rattle.mending.specs.Mend.{mended, prev_at, with_prevs, checked, checked_of, fix_of, mend_of};
ghost use Rattle.mending.specs.Needs.{table_of, table_at, spoilt, Roomy, Fixable};

use job::Job;
use job::field::{HEADER, PREV_AT};
use job::refusal::Refusal;
use store::{BLOCK, Col, NONE, get, read};

// No point.
const NOBODY: u32 = NONE as u32;

// The fields of the settings and of a point, in bytes.
const SETTINGS: usize = HEADER + 1;

const POINT: usize = HEADER + 18;

// The numbers that definitions cite are the code's.
fn sizes_agree()
    ensures settings { SETTINGS ≡ field.HEADER + field.size_of kind.Settings }
    ensures point { POINT ≡ field.HEADER + field.size_of kind.Point }
    ensures nobody { NOBODY ≡ limit.NONE }
{}

// The place of point k's prev in the job.
fn prev_at(k: usize) -> usize
    requires { k < limit.POINTS }
    ensures { (result ≡ prev_at k) × (result < 2 ^ 16) }
{
    SETTINGS + POINT * k + HEADER + PREV_AT
}

// The number in place k of a table; none past its end.
fn at(t: &[u32], k: usize) -> u32
    ensures { result ≡ table_at t.now k }
{
    t.get(k).copied().unwrap_or(NOBODY)
}

// Puts v in place k, if there is such a place. (Not by `get_mut`: of a slice's it is known what the length stays, and of no element, so `set` does not follow.)
fn put(t: &mut [u32], k: usize, v: usize)
    requires { v < 2 ^ 32 }
    ensures { t.new ≡ set t.old k v }
{
    if k < t.len() {
        t[k] = v as u32;
    }
}

// Of each point, the last one whose next it is.
fn tabulate(w: &[u32], t: &mut [u32])
    requires { layout.BLOCK ≤ length w.now }
    ensures { t.new ≡ table_of (next_of w.now) (points_of w.now) t.old }
{
    for k in 0..get(w, Col::Points, 0) {
        let p = read(w, Col::Next, k);
        put(t, p, k);
    }
}

// Whether point k has none before it, or is not the one before its next.
fn is_spoilt(w: &[u32], t: &[u32], k: usize) -> bool
    requires { layout.BLOCK ≤ length w.now }
    ensures { result ≡ spoilt w.now t.now k }
{
    let a = at(t, k);
    let b = at(t, read(w, Col::Next, k));
    (a == NOBODY) | (b as usize != k)
}

// Whether any point is so.
fn any_spoilt(w: &[u32], t: &[u32]) -> bool
    requires { layout.BLOCK ≤ length w.now }
    ensures { result ≡ any_below (points_of w.now) (spoilt w.now t.now) }
{
    (0..get(w, Col::Points, 0)).any(|k| is_spoilt(w, t, k))
}

// Sets the prev of each of the first n points by the table.
fn write_prevs(job: &mut [u8], t: &[u32], n: usize)
    requires { Roomy job.old n }
    ensures { job.new ≡ with_prevs (table_at t.now) n job.old }
{
    for k in 0..n {
        numbers::write_u16(job, prev_at(k), at(t, k));
    }
}

// Mends a job that passed rows 1 to 5, from its words.
fn fix(job: &mut [u8], w: &[u32]) -> Result<(), Refusal>
    requires { Fixable job.old w.now }
    ensures { mended result job.new ≡ fix_of job.old w.now }
{
    let mut t = [NOBODY; Job::POINTS];
    tabulate(w, &mut t);
    if any_spoilt(w, &t) {
        return Err(Refusal::PastMending);
    }
    let n = get(w, Col::Points, 0);
    write_prevs(job, &t, n);
    Ok(())
}

// Rows 1 to 5; the job's words, for a job that passes them.
fn check(bytes: &[u8], w: &mut [u32]) -> Result<(), Refusal>
    requires { layout.BLOCK ≤ length w.old }
    ensures { checked result w.new ≡ checked_of bytes.now w.old }
{
    let mut segments = [0u32; Job::SEGMENTS];
    let mut joins = [0u32; 2 * Job::JOINS];
    let j = reading::read_job(bytes, w, &mut segments, &mut joins)?;
    rows::first_rows(w, &segments, j.segments, &joins, j.joins)
}

// Sets each point's prev to the one point whose next it is; every other byte is kept. A refused job is left as it was. Its words are its own, so it takes some 90 kB of stack.
pub fn mend(job: &mut [u8]) -> Result<(), Refusal>
    ensures { mended result job.new ≡ mend_of job.old }
{
    let mut w = [0u32; BLOCK];
    check(job, &mut w)?;
    fix(job, &w)
}
