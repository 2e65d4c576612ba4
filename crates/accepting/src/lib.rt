// A job read and judged: rows 1 to 8.
#![tactic(auto)]

ghost use Rattle.std.specs.Prelude.{◌≡◌};
ghost use Rattle.reading.specs.Fill.{end};
ghost use Rattle.reading.specs.Needs.{Space};
ghost use Rattle.rows.specs.Found.{Filled};
ghost use Rattle.accepting.specs.Accept.{judge_of, accept_of};

use job::Job;
use job::refusal::Refusal;

// Rows 4 to 8 of a job that was read.
fn judge(j: Job, w: &[u32], segments: &[u32], joins: &[u32]) -> Result<Job, Refusal>
    requires { Filled w.now segments.now j.segments joins.now j.joins }
    ensures { result ≡ judge_of j w.now segments.now joins.now }
{
    rows::rows(w, segments, j.segments, joins, j.joins)?;
    Ok(j)
}

// Reads a job into the work space and two lists, and refuses it by the first of rows 1 to 8 that holds.
pub fn accept(
    bytes: &[u8],
    w: &mut [u32],
    segments: &mut [u32],
    joins: &mut [u32],
) -> Result<Job, Refusal>
    requires { Space w.old segments.old joins.old }
    ensures { end result w.new segments.new joins.new ≡ accept_of bytes.now w.old segments.old joins.old }
{
    let j = reading::read_job(bytes, w, segments, joins)?;
    judge(j, w, segments, joins)
}
