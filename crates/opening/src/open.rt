// Opening a job: its stages, one function for each, and zeros on a refusal. The stages write no boxes: whoever opens a job writes them once, when its rings are as they are to be left.
ghost use Rattle.std.specs.Prelude.{◌≡◌, ◌*◌, ◌≤◌, ◌++◌, length, drop, replicate};
ghost use Rattle.job.specs.Limits as limit;
ghost use Rattle.store.specs.Field.{BLOCK};
ghost use Rattle.converting.specs.Make.{convert_horz_segs_to_joins};
ghost use Rattle.converting.specs.Needs.{Converting};
ghost use Rattle.joins.specs.Join.{process_horz_joins};
ghost use Rattle.joins.specs.Needs.{Joins};
ghost use Rattle.opening.specs.Open.{end, after_joins, after_segments, stages_of, settled, open_of};
ghost use Rattle.opening.specs.Unboxed.{boxed_end};

use crate::clear::{clear, clear_live};
use crate::start::start_rings;
use accepting::accept;
use bounds::box_records;
use converting::convert::convert_horz_segs_to_joins;
use job::Job;
use job::refusal::Refusal;
use joins::process_horz_joins;
use store::LENGTH;

// k joins are made, and every ring is set at its start.
fn make_joins(work: &mut [u32], joins: &[u32], k: usize) -> Result<(), Refusal>
    requires { Joins work.old k joins.now }
    ensures { boxed_end (end result work.new) ≡ after_joins (process_horz_joins k joins.now work.old) }
{
    process_horz_joins(work, joins, k)?;
    start_rings(work);
    Ok(())
}

// m segments become joins, after the job's own n.
fn convert(
    work: &mut [u32],
    segments: &[u32],
    m: usize,
    joins: &mut [u32],
    n: usize,
) -> Result<(), Refusal>
    requires { Converting work.old segments.now m joins.old n }
    ensures { boxed_end (end result work.new) ≡ after_segments (convert_horz_segs_to_joins work.old m segments.now joins.old n) }
{
    let k = convert_horz_segs_to_joins(work, segments, m, joins, n).ok_or(Refusal::Full)?;
    make_joins(work, joins, k)
}

// Puts one list over the beginning of another.
fn lay(list: &[u32], over: &mut [u32])
    requires { length list.now ≤ length over.old }
    ensures { over.new ≡ list.now ++ drop (length list.now) over.old }
{
    over[..list.len()].copy_from_slice(list);
}

// The job's n joins stand in `own`; the joins that are made of its m segments need more places, and fewer than two make none.
fn join_all(
    work: &mut [u32],
    segments: &[u32],
    m: usize,
    own: &[u32],
    n: usize,
) -> Result<(), Refusal>
    requires { Converting work.old segments.now m (own.now ++ replicate limit.POINTS 0) n × (length own.now ≡ 2 * limit.JOINS) }
    ensures { boxed_end (end result work.new) ≡ after_segments (convert_horz_segs_to_joins work.old m segments.now (own.now ++ replicate limit.POINTS 0) n) }
{
    if m < 2 {
        return make_joins(work, own, n);
    }
    let mut joins = [0u32; 2 * Job::JOINS + Job::POINTS];
    lay(own, &mut joins);
    convert(work, segments, m, &mut joins, n)
}

// Rows 1 to 8, and then the joins. Segments and joins stand in local arrays.
fn stages(bytes: &[u8], work: &mut [u32]) -> Result<(), Refusal>
    requires { BLOCK ≤ length work.old }
    ensures { boxed_end (end result work.new) ≡ stages_of bytes.now work.old }
{
    let mut segments = [0u32; Job::SEGMENTS];
    let mut own = [0u32; 2 * Job::JOINS];
    let j = accept(bytes, work, &mut segments, &mut own)?;
    join_all(work, &segments, j.segments, &own, j.joins)
}

// A refusal leaves zeros only.
fn settle(a: Result<(), Refusal>, work: &mut [u32])
    ensures { end a work.new ≡ settled (length work.old) (end a work.old) }
{
    if a.is_err() {
        clear(work);
    }
}

// Opens a job, without the boxes beside its rings: it is read into the work space, tested, and joined; every ring is then at its start.
pub fn open_unboxed(bytes: &[u8], work: &mut [u32]) -> Result<(), Refusal>
    ensures { boxed_end (end result work.new) ≡ open_of bytes.now work.old }
{
    if work.len() < LENGTH {
        clear(work);
        return Err(Refusal::Full);
    }
    clear_live(work);
    let a = stages(bytes, work);
    settle(a, work);
    a
}

// Opens a job, with the boxes.
pub fn open(bytes: &[u8], work: &mut [u32]) -> Result<(), Refusal>
    ensures { end result work.new ≡ open_of bytes.now work.old }
{
    open_unboxed(bytes, work)?;
    box_records(work);
    Ok(())
}
