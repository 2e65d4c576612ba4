// A run of point fields, each read straight into the columns: as many turns of reading.
ghost use Rattle.std.specs.Prelude.{◌≡◌, ◌+◌, ◌<◌, ◌≤◌, ◌^◌, length};
ghost use Rattle.job.specs.Limits as limit;
ghost use Rattle.job.specs.Field.{size_of};
ghost use Rattle.job.specs.Job.{Within};
ghost use Rattle.job.specs.declared.field.Kind.TheVariants as kind;
ghost use Rattle.store.specs.Field.{BLOCK};
ghost use Rattle.reading.specs.Points.{WHOLE_POINT, point_next, put_value, past_point, PointTurns};

use crate::fill::put_point;
use job::Job;
use job::field::{HEADER, NEXT_AT, PREV_AT, RECORD_AT, Y_AT, Z_AT};

// The bytes of a point's field: its value has 18.
const POINT_BYTES: usize = HEADER + 18;

// Whether a point's field that a turn would place begins the part.
fn point_next(part: &[u8], j: Job) -> bool
    ensures { result ≡ point_next j part.now }
{
    if part.len() < POINT_BYTES {
        return false;
    }
    let tag = part[0];
    let says = numbers::read_u16(part, 1);
    (tag == 2) & (says == 18) & (0 < j.last) & (j.last < 3) & (j.points < Job::POINTS)
}

// Point i, by its value's bytes.
fn put_value(v: &[u8], i: usize, w: &mut [u32])
    requires { (size_of kind.Point ≤ length v.now) × (BLOCK ≤ length w.old) × (i < limit.POINTS) }
    ensures { w.new ≡ put_value v.now i w.old }
{
    let x = numbers::read_raised(v, 0, Job::COORDINATE);
    let y = numbers::read_raised(v, Y_AT, Job::COORDINATE);
    let next = numbers::read_u16(v, NEXT_AT);
    let prev = numbers::read_u16(v, PREV_AT);
    let rec = numbers::read_u16(v, RECORD_AT);
    let z = numbers::read_raised(v, Z_AT, 0);
    put_point(w, i, x, y, next, prev, rec, z);
}

// Past a point's field.
fn past_point(j: Job) -> Job
    requires { Within j × (j.at + WHOLE_POINT < 2 ^ 64) }
    ensures { result ≡ past_point j }
{
    Job {
        at: j.at + POINT_BYTES,
        last: 2,
        points: j.points + 1,
        ..j
    }
}

// The points from the state j on, up to a field of another kind or one that a turn would refuse.
pub(crate) fn run_points(bytes: &[u8], j: Job, w: &mut [u32]) -> Job
    requires { (BLOCK ≤ length w.old) × Within j }
    ensures { PointTurns bytes.now j w.old result w.new }
{
    let mut k = j;
    // on by each field's length: no index is counted
    while k.at < bytes.len() {
        let part = numbers::from(bytes, k.at);
        if !point_next(part, k) {
            return k;
        }
        put_value(numbers::from(part, HEADER), k.points, w);
        k = past_point(k);
    }
    k
}
