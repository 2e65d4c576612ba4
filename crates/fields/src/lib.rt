// One field of a job, written into a tray from a place on; a byte past the tray's end is lost. Each function answers where the next byte goes.
#![tactic(auto)]

ghost use Rattle.std.specs.Prelude.{◌≡◌, ◌++◌};
ghost use Rattle.numbers.specs.Raised.{lowered};
ghost use Rattle.job.specs.Limits.{COORDINATE};
ghost use Rattle.job.specs.declared.field.Field.TheVariants.{Settings, Point, Record, Segment, Join};
ghost use Rattle.paths.specs.Tray.{low_bytes};
ghost use Rattle.text.specs.Pour.{poured, pour};
ghost use Rattle.encoding.specs.Sheet.{coordinate_bytes, bytes_of};

use job::Job;
use text::put;

// ---- numbers

// The N low bytes of v, low byte first.
fn put_low<const N: usize>(v: usize, out: &mut [u8], at: usize) -> usize
    ensures { poured result out.new ≡ pour (low_bytes N v) at out.old }
{
    let mut k = at;
    let mut rest = v;
    for _ in 0..N {
        k = put(out, k, (rest % 256) as u8);
        rest = rest / 256;
    }
    k
}

// What the four bytes of a coordinate make, of which x is the word.
fn lower(x: u32) -> u32
    ensures { result ≡ lowered COORDINATE x }
{
    std::num::wrapping_sub_u32(x, Job::COORDINATE)
}

// A coordinate, of which x is the word.
fn put_coordinate(x: u32, out: &mut [u8], at: usize) -> usize
    ensures { poured result out.new ≡ pour (coordinate_bytes x) at out.old }
{
    put_low::<4>(lower(x) as usize, out, at)
}

// ---- fields

// A field's tag and the length of its value.
fn put_header(tag: usize, size: usize, out: &mut [u8], at: usize) -> usize
    ensures { poured result out.new ≡ pour (low_bytes 1 tag ++ low_bytes 2 size) at out.old }
{
    let a = put_low::<1>(tag, out, at);
    put_low::<2>(size, out, a)
}

pub fn put_settings(bits: usize, out: &mut [u8], at: usize) -> usize
    ensures { poured result out.new ≡ pour (bytes_of (Settings bits)) at out.old }
{
    let a = put_header(1, 1, out, at);
    put_low::<1>(bits, out, a)
}

pub fn put_point(
    x: u32,
    y: u32,
    next: usize,
    prev: usize,
    i: usize,
    z: usize,
    out: &mut [u8],
    at: usize,
) -> usize
    ensures { poured result out.new ≡ pour (bytes_of (Point x y next prev i z)) at out.old }
{
    let a = put_header(2, 18, out, at);
    let b = put_coordinate(x, out, a);
    let c = put_coordinate(y, out, b);
    let d = put_low::<2>(next, out, c);
    let e = put_low::<2>(prev, out, d);
    let f = put_low::<2>(i, out, e);
    put_low::<4>(z, out, f)
}

pub fn put_record(flags: usize, owner: usize, first: usize, out: &mut [u8], at: usize) -> usize
    ensures { poured result out.new ≡ pour (bytes_of (Record flags owner first)) at out.old }
{
    let a = put_header(3, 5, out, at);
    let b = put_low::<1>(flags, out, a);
    let c = put_low::<2>(owner, out, b);
    put_low::<2>(first, out, c)
}

pub fn put_segment(p: usize, out: &mut [u8], at: usize) -> usize
    ensures { poured result out.new ≡ pour (bytes_of (Segment p)) at out.old }
{
    let a = put_header(4, 2, out, at);
    put_low::<2>(p, out, a)
}

pub fn put_join(first: usize, second: usize, out: &mut [u8], at: usize) -> usize
    ensures { poured result out.new ≡ pour (bytes_of (Join first second)) at out.old }
{
    let a = put_header(5, 4, out, at);
    let b = put_low::<2>(first, out, a);
    put_low::<2>(second, out, b)
}
