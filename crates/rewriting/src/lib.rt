// One way to write a job: an accepted job's bytes with its points numbered ring by ring, each ring from its first point in walk order.
#![tactic(auto)]

mod writing;

ghost use Rattle.std.specs.Prelude.{◌≡◌, ◌≤◌, length};
ghost use Rattle.store.specs.Field.{BLOCK};
ghost use Rattle.prefix.specs.Decides as decides;
ghost use Rattle.text.specs.Pour.{poured, pour};
ghost use Rattle.encoding.specs.Sheet.{all_bytes};
ghost use Rattle.rewriting.specs.Fields.{job_fields, job_bytes};
ghost use Rattle.rewriting.specs.Rewrite.{rewrote, rewrite_of};
ghost use Rattle.rewriting.specs.Stages.{Lists, job_written, rewritten_at, poured_answer, writing_of, settled_tray};

use crate::writing::{put_joins, put_points, put_records, put_segments};
use accepting::accept;
use fields::put_settings;
use job::Job;
use job::refusal::Refusal;
use numbering::number_rings;
use opening::clear::clear;
use store::{Col, LENGTH, read};

// A tray of so many bytes is never too small: settings once, and as many of each other field as there may be.
pub const LONGEST: usize = 4
    + 21 * Job::POINTS
    + 8 * Job::RECORDS
    + 5 * Job::SEGMENTS
    + 7 * Job::JOINS;

// The number that definitions cite is the code's.
fn longest_agrees()
    ensures { LONGEST ≡ decides.LONGEST }
{}

// All fields of a job that was read, by the new numbers of its points.
fn put_job(
    w: &[u32],
    numbers: &[usize],
    segments: &[u32],
    m: usize,
    joins: &[u32],
    n: usize,
    tray: &mut [u8],
) -> usize
    requires { Lists w.now segments.now m joins.now n }
    ensures { poured result tray.new ≡ pour (all_bytes (job_fields w.now numbers.now segments.now m joins.now n)) 0 tray.old }
{
    let bits = read(w, Col::Settings, 0);
    let a = put_settings(bits, tray, 0);
    let b = put_points(w, numbers, tray, a);
    let c = put_records(w, numbers, tray, b);
    let d = put_segments(numbers, segments, m, tray, c);
    put_joins(numbers, joins, n, tray, d)
}

// Row 11: a byte is lost.
fn answer(at: usize, tray: &[u8]) -> Result<usize, Refusal>
    ensures { result ≡ rewritten_at at tray.now }
{
    if tray.len() < at {
        return Err(Refusal::SmallTray);
    }
    Ok(at)
}

// A job that was read: its points are numbered anew, and its fields written.
fn write_job(
    w: &[u32],
    segments: &[u32],
    m: usize,
    joins: &[u32],
    n: usize,
    tray: &mut [u8],
) -> Result<usize, Refusal>
    requires { Lists w.now segments.now m joins.now n }
    ensures { job_written result tray.new ≡ poured_answer (pour (job_bytes w.now segments.now m joins.now n) 0 tray.old) }
{
    let mut numbers = [0usize; Job::POINTS];
    number_rings(w, &mut numbers);
    let at = put_job(w, &numbers, segments, m, joins, n, tray);
    answer(at, tray)
}

// Rows 1 to 8, and then the job's bytes. Segments and joins stand in local arrays.
fn stages(bytes: &[u8], work: &mut [u32], tray: &mut [u8]) -> Result<usize, Refusal>
    requires { BLOCK ≤ length work.old }
    ensures { rewrote result work.new tray.new ≡ writing_of bytes.now work.old tray.old }
{
    let mut segments = [0u32; Job::SEGMENTS];
    let mut joins = [0u32; 2 * Job::JOINS + Job::POINTS];
    let j = accept(bytes, work, &mut segments, &mut joins)?;
    write_job(work, &segments, j.segments, &joins, j.joins, tray)
}

// A refusal leaves zeros only.
fn settle(a: Result<usize, Refusal>, tray: &mut [u8])
    ensures { job_written a tray.new ≡ settled_tray a tray.old }
{
    if a.is_err() {
        paths::clear(tray);
    }
}

// Rewrites a job: how many bytes of the tray are the job, or a refusal, every word and every byte left. Both slices are zeroed first.
pub fn rewrite(job: &[u8], work: &mut [u32], tray: &mut [u8]) -> Result<usize, Refusal>
    ensures { rewrote result work.new tray.new ≡ rewrite_of job.now (length work.old) (length tray.old) }
{
    clear(work);
    paths::clear(tray);
    if work.len() < LENGTH {
        return Err(Refusal::Full);
    }
    let a = stages(job, work, tray);
    clear(work);
    settle(a, tray);
    a
}
