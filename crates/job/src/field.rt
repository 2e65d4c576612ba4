// Reads the field at the front of a part of the job.
ghost use Rattle.std.specs.Prelude.{◌≡◌, ◌+◌, ◌≤◌, length};
ghost use Rattle.job.specs.Field.{HEADER, kind_of, size_of, field_in, strange_tag, torn_value, strange_bits, crowded, body_of, field_of};

use crate::Job;
use crate::refusal::Refusal;

// Tag and length stand before a value.
pub const HEADER: usize = 3;

// Where in a value its numbers stand: a point's, a record's, a join's.
pub const Y_AT: usize = 4;

pub const NEXT_AT: usize = 8;

pub const PREV_AT: usize = 10;

pub const RECORD_AT: usize = 12;

pub const Z_AT: usize = 14;

pub const OWNER_AT: usize = 1;

pub const FIRST_AT: usize = 3;

pub const SECOND_AT: usize = 2;

#[derive(Clone, Copy, PartialEq, Eq, Debug)]
pub enum Kind {
    Settings,
    Point,
    Record,
    Segment,
    Join,
}

// A field's numbers; x and y as words raised by the limit, z as a word in two's complement.
#[derive(Clone, Copy, PartialEq, Eq, Debug)]
pub enum Field {
    Settings {
        bits: u32,
    },
    Point {
        x: u32,
        y: u32,
        next: u32,
        prev: u32,
        record: u32,
        z: u32,
    },
    Record {
        flags: u32,
        owner: u32,
        first: u32,
    },
    Segment {
        point: u32,
    },
    Join {
        first: u32,
        second: u32,
    },
}

// The kind that a tag names, 1 to 5. A TryFrom would be no plainer: `strange_tag` refuses every other tag before this is asked.
fn kind_of(tag: u8) -> Kind
    ensures { result ≡ kind_of tag }
{
    match tag {
        1 => Kind::Settings,
        2 => Kind::Point,
        3 => Kind::Record,
        4 => Kind::Segment,
        _ => Kind::Join,
    }
}

// How many bytes a kind's value has.
pub fn size_of(k: Kind) -> usize
    ensures { (result ≡ size_of k) × (result ≤ size_of Kind.Point) }
{
    match k {
        Kind::Settings => 1,
        Kind::Point => 18,
        Kind::Record => 5,
        Kind::Segment => 2,
        Kind::Join => 4,
    }
}

fn read_point(v: &[u8]) -> Field
    requires { size_of Kind.Point ≤ length v.now }
    ensures { result ≡ field_in Kind.Point v.now }
{
    Field::Point {
        x: numbers::read_raised(v, 0, Job::COORDINATE),
        y: numbers::read_raised(v, Y_AT, Job::COORDINATE),
        next: numbers::read_u16(v, NEXT_AT),
        prev: numbers::read_u16(v, PREV_AT),
        record: numbers::read_u16(v, RECORD_AT),
        z: numbers::read_raised(v, Z_AT, 0),
    }
}

fn read_value(k: Kind, v: &[u8]) -> Field
    requires { size_of k ≤ length v.now }
    ensures { result ≡ field_in k v.now }
{
    match k {
        Kind::Settings => Field::Settings {
            bits: numbers::byte(v, 0),
        },
        Kind::Point => read_point(v),
        Kind::Record => Field::Record {
            flags: numbers::byte(v, 0),
            owner: numbers::read_u16(v, OWNER_AT),
            first: numbers::read_u16(v, FIRST_AT),
        },
        Kind::Segment => Field::Segment {
            point: numbers::read_u16(v, 0),
        },
        Kind::Join => Field::Join {
            first: numbers::read_u16(v, 0),
            second: numbers::read_u16(v, SECOND_AT),
        },
    }
}

fn strange_tag(last: u8, tag: u8) -> bool
    ensures { result ≡ strange_tag last tag }
{
    tag == 0 || 5 < tag || tag < last || (last == 0 && tag != 1) || (0 < last && tag == 1)
}

fn torn_value(k: Kind, part: &[u8]) -> bool
    requires { HEADER ≤ length part.now }
    ensures { result ≡ torn_value k part.now }
{
    let size = size_of(k);
    numbers::read_u16(part, 1) as usize != size || part.len() < HEADER + size
}

fn strange_bits(f: Field) -> bool
    ensures { result ≡ strange_bits f }
{
    match f {
        Field::Settings { bits } => 3 < bits,
        Field::Record { flags, .. } => 3 < flags,
        Field::Point { .. } | Field::Segment { .. } | Field::Join { .. } => false,
    }
}

fn crowded(k: Kind, job: Job) -> bool
    ensures { result ≡ crowded k job }
{
    match k {
        Kind::Settings => false,
        Kind::Point => Job::POINTS <= job.points,
        Kind::Record => Job::RECORDS <= job.records,
        Kind::Segment => Job::SEGMENTS <= job.segments,
        Kind::Join => Job::JOINS <= job.joins,
    }
}

fn read_body(k: Kind, job: Job, part: &[u8]) -> Result<(Field, usize), Refusal>
    requires { HEADER ≤ length part.now }
    ensures { result ≡ body_of k job part.now }
{
    if torn_value(k, part) {
        return Err(Refusal::Torn);
    }
    let field = read_value(k, numbers::from(part, HEADER));
    if strange_bits(field) {
        return Err(Refusal::Strange);
    }
    if crowded(k, job) {
        return Err(Refusal::Crowded);
    }
    Ok((field, HEADER + size_of(k)))
}

// The field at the front of a part of the job and its whole length, or the refusal that it earns.
pub fn read_field(part: &[u8], job: Job) -> Result<(Field, usize), Refusal>
    ensures { result ≡ field_of job part.now }
{
    if part.len() < HEADER {
        return Err(Refusal::Torn);
    }
    let tag = part[0];
    if strange_tag(job.last, tag) {
        return Err(Refusal::Strange);
    }
    read_body(kind_of(tag), job, part)
}
