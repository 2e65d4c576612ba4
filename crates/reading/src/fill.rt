// Reads the fields of a job, one after the other, into the work space and two lists.
ghost use Rattle.std.specs.Prelude.{◌≡◌, ◌+◌, ◌*◌, ◌<◌, ◌≤◌, length, set, Ok};
ghost use Rattle.job.specs.Limits as limit;
ghost use Rattle.job.specs.Job.{Within};
ghost use Rattle.store.specs.Field.{BLOCK, size};
ghost use Rattle.store.specs.Words as words;
ghost use Rattle.store.specs.Column.{column_of};
ghost use Rattle.reading.specs.Fill.{end, put_point, reason_read, put_record, put_join, placed, turn_of, fill_of};
ghost use Rattle.reading.specs.Needs.{Space, Placing};

use crate::points::run_points;
use job::field::Field;
use job::refusal::Refusal;
use job::{Job, field};
use store::{Col, NO_RING, NONE};

// Stores a word of a column.
pub(crate) fn put(w: &mut [u32], c: Col, i: usize, v: u32)
    requires { (BLOCK ≤ length w.old) × (i < size (column_of c)) }
    ensures { w.new ≡ words.put (column_of c) w.old i v }
{
    store::set(w, c, i, v as usize);
}

pub(crate) fn put_point(
    w: &mut [u32],
    i: usize,
    x: u32,
    y: u32,
    next: u32,
    prev: u32,
    rec: u32,
    z: u32,
)
    requires { (BLOCK ≤ length w.old) × (i < limit.POINTS) }
    ensures { w.new ≡ put_point i x y next prev rec z w.old }
{
    put(w, Col::X, i, x);
    put(w, Col::Y, i, y);
    put(w, Col::Next, i, next);
    put(w, Col::Prev, i, prev);
    put(w, Col::Rec, i, rec);
    put(w, Col::Z, i, z);
}

// Why a record has no ring: there is none in the job.
fn reason_read(first: u32) -> u32
    ensures { result ≡ reason_read first }
{
    if first as usize == NONE {
        return NO_RING as u32;
    }
    0
}

fn put_record(w: &mut [u32], i: usize, flags: u32, owner: u32, first: u32)
    requires { (BLOCK ≤ length w.old) × (i < limit.RECORDS) }
    ensures { w.new ≡ put_record i flags owner first w.old }
{
    put(w, Col::Flags, i, flags);
    put(w, Col::Owner, i, owner);
    put(w, Col::First, i, first);
    put(w, Col::Reason, i, reason_read(first));
}

// Puts a number on a list.
fn list(s: &mut [u32], i: usize, v: u32)
    requires { i < length s.old }
    ensures { s.new ≡ set s.old i v }
{
    s[i] = v;
}

fn put_join(s: &mut [u32], i: usize, a: u32, b: u32)
    requires { (i < limit.JOINS) × (2 * limit.JOINS ≤ length s.old) }
    ensures { s.new ≡ put_join i a b s.old }
{
    list(s, 2 * i, a);
    list(s, 2 * i + 1, b);
}

// Puts a field of n bytes where it belongs, and goes past it.
fn place(f: Field, n: usize, j: Job, w: &mut [u32], segments: &mut [u32], joins: &mut [u32]) -> Job
    requires { Placing f n j w.old segments.old joins.old }
    ensures { end (Ok result) w.new segments.new joins.new ≡ placed f n j w.old segments.old joins.old }
{
    match f {
        Field::Settings { .. } => {}
        Field::Point {
            x,
            y,
            next,
            prev,
            record,
            z,
        } => put_point(w, j.points, x, y, next, prev, record, z),
        Field::Record {
            flags,
            owner,
            first,
        } => put_record(w, j.records, flags, owner, first),
        Field::Segment { point } => list(segments, j.segments, point),
        Field::Join { first, second } => put_join(joins, j.joins, first, second),
    }
    j.past(f, n)
}

fn turn(
    bytes: &[u8],
    j: Job,
    w: &mut [u32],
    segments: &mut [u32],
    joins: &mut [u32],
) -> Result<Job, Refusal>
    requires { Space w.old segments.old joins.old × Within j × (j.at < length bytes.now) }
    ensures { end result w.new segments.new joins.new ≡ turn_of bytes.now j w.old segments.old joins.old }
{
    let (field, length) = field::read_field(numbers::from(bytes, j.at), j)?;
    Ok(place(field, length, j, w, segments, joins))
}

// What was counted in the fields of a job, up to its end, or the first refusal; points in a row are read at once.
pub(crate) fn fill(
    bytes: &[u8],
    w: &mut [u32],
    segments: &mut [u32],
    joins: &mut [u32],
) -> Result<Job, Refusal>
    requires { Space w.old segments.old joins.old }
    ensures { end result w.new segments.new joins.new ≡ fill_of bytes.now w.old segments.old joins.old }
{
    if bytes.is_empty() {
        return Err(Refusal::Strange);
    }
    let mut j = Job::fresh();
    // on by each field's length: no index is counted
    while j.at < bytes.len() {
        let n = turn(bytes, j, w, segments, joins)?;
        j = run_points(bytes, n, w);
    }
    Ok(j)
}
