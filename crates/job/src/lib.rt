// A job: its limits, what reading it carries along, its refusals and its fields.
#![tactic(auto)]

pub mod field;
pub mod refusal;

ghost use Rattle.std.specs.Prelude.{◌≡◌, ◌+◌, ◌<◌, ◌^◌};
ghost use Rattle.job.specs.Limits as limit;
ghost use Rattle.job.specs.Job.{fresh, past, Within};

use crate::field::Field;

// What reading carries from field to field: how far it is, the last tag (0 before the first field), the settings' bits, and
// how many fields of each kind there were.
#[derive(Clone, Copy)]
pub struct Job {
    pub at: usize,
    pub last: u8,
    pub bits: u32,
    pub points: usize,
    pub records: usize,
    pub segments: usize,
    pub joins: usize,
}

impl Job {
    pub const POINTS: usize = 2048;

    pub const RECORDS: usize = 512;

    pub const SEGMENTS: usize = 256;

    pub const JOINS: usize = 256;

    pub const COORDINATE: u32 = 1048576;

    pub const NONE: usize = 65535;

    pub fn fresh() -> Job
        ensures { result ≡ fresh }
    {
        Job {
            at: 0,
            last: 0,
            bits: 0,
            points: 0,
            records: 0,
            segments: 0,
            joins: 0,
        }
    }

    // Past a field of n bytes.
    pub fn past(self, f: Field, n: usize) -> Job
        requires { Within self × (self.at + n < 2 ^ 64) }
        ensures { result ≡ past f n self }
    {
        let mut j = self;
        j.at = self.at + n;
        match f {
            Field::Settings { bits } => {
                j.last = 1;
                j.bits = bits;
            }
            Field::Point { .. } => {
                j.last = 2;
                j.points += 1;
            }
            Field::Record { .. } => {
                j.last = 3;
                j.records += 1;
            }
            Field::Segment { .. } => {
                j.last = 4;
                j.segments += 1;
            }
            Field::Join { .. } => {
                j.last = 5;
                j.joins += 1;
            }
        }
        j
    }
}

// The limits that definitions cite are the code's.
fn limits_agree()
    ensures points { Job.POINTS ≡ limit.POINTS }
    ensures records { Job.RECORDS ≡ limit.RECORDS }
    ensures segments { Job.SEGMENTS ≡ limit.SEGMENTS }
    ensures joins { Job.JOINS ≡ limit.JOINS }
    ensures coordinate { Job.COORDINATE ≡ limit.COORDINATE }
    ensures none { Job.NONE ≡ limit.NONE }
{}
