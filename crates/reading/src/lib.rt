// A job read into the work space.
#![tactic(auto)]

pub mod fill;
mod points;

ghost use Rattle.std.specs.Prelude.{◌≡◌, ◌≤◌, length};
ghost use Rattle.job.specs.Job.{Within};
ghost use Rattle.store.specs.Field.{BLOCK};
ghost use Rattle.reading.specs.Fill.{end};
ghost use Rattle.reading.specs.Needs.{Space};
ghost use Rattle.reading.specs.Read.{counted, read_of};

use job::Job;
use job::refusal::Refusal;
use store::Col;

// The settings and the counts.
fn put_counts(w: &mut [u32], j: Job)
    requires { (BLOCK ≤ length w.old) × Within j }
    ensures { w.new ≡ counted j w.old }
{
    fill::put(w, Col::Settings, 0, j.bits);
    store::set(w, Col::Points, 0, j.points);
    store::set(w, Col::Records, 0, j.records);
}

// Reads a job into the work space and two lists; what was counted, or its refusal by row 1, 2 or 3.
pub fn read_job(
    bytes: &[u8],
    w: &mut [u32],
    segments: &mut [u32],
    joins: &mut [u32],
) -> Result<Job, Refusal>
    requires { Space w.old segments.old joins.old }
    ensures { end result w.new segments.new joins.new ≡ read_of bytes.now w.old segments.old joins.old }
{
    let j = fill::fill(bytes, w, segments, joins)?;
    put_counts(w, j);
    Ok(j)
}
