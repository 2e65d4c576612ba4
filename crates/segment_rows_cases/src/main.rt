// Sorts the lists of level segments on standard input both ways, as records and over parallel slices, and prints them in order: key (---: above every x), left point, right
// point (255: not valid) and heading of each. A list is two bytes that add up to how many, then a byte each for left x, left point, right point and heading of each. The
// lists, and what the crate's file `stdout` has, come from `tests/segment_rows_cases`: the Rust's own comparison and sort.
#![tactic(auto)]

ghost use Rattle.std.specs.Prelude.{◌≡◌, ◌+◌, ◌*◌, ◌≤◌, ◌<◌, ◌^◌, length, IfOk};
ghost use Rattle.job.specs.Limits as limit;
ghost use Rattle.sorting.specs.Columns.{Even};

use job::Job;
use segment_rows::sort_rows;
use sorting::{HorzSegment, LAST};
use std::io;
use streams::fill;

fn small(s: &[u8], at: usize) -> usize
    requires { at < length s.now }
    ensures { result < 2 ^ 8 }
{
    usize::from(s[at])
}

// The key of a segment.
fn key(x: usize, right: usize) -> usize {
    if right == 255 {
        return LAST;
    }
    x
}

// The segment at a place of the input.
fn segment_at(s: &[u8], at: usize) -> HorzSegment
    requires { at + 4 ≤ length s.now }
{
    let x = small(s, at);
    let left = small(s, at + 1);
    let right = small(s, at + 2);
    let forward = small(s, at + 3);
    HorzSegment {
        key: key(x, right),
        left,
        right,
        forward,
    }
}

// The first n are the segments at a place of the input.
fn records_at(s: &[u8], at: usize, n: usize) -> [HorzSegment; Job::SEGMENTS]
    requires { (at + 4 * n ≤ length s.now) × (n ≤ limit.SEGMENTS) }
{
    let blank = HorzSegment {
        key: LAST,
        left: 0,
        right: 255,
        forward: 0,
    };
    let mut list = [blank; Job::SEGMENTS];
    for k in 0..n {
        list[k] = segment_at(s, at + 4 * k);
    }
    list
}

// The same over parallel slices: document 01, "A form for each place", keeps that covered form (`sorting::sort`) beside the records.
fn put_segments(
    s: &[u8],
    at: usize,
    n: usize,
    keys: &mut [usize],
    lefts: &mut [usize],
    rights: &mut [usize],
    forwards: &mut [usize],
)
    requires { (at + 4 * n ≤ length s.now) × (n ≤ length keys.old) × Even keys.old lefts.old rights.old forwards.old }
{
    for k in 0..n {
        let t = segment_at(s, at + 4 * k);
        keys[k] = t.key;
        lefts[k] = t.left;
        rights[k] = t.right;
        forwards[k] = t.forward;
    }
}

// Key (--- for one above every x), left point, right point and heading.
fn say_segment<R: Print>(
    rt: &R,
    key: usize,
    left: usize,
    right: usize,
    forward: usize,
) -> io::Result<()> {
    if key == LAST {
        print!(rt; " ---")?;
    } else {
        print!(rt; " {key:03}")?;
    }
    print!(rt; ",{left:03},{right:03},{forward:03}")
}

// The first n, and the end of the line.
fn say_records<R: Print>(rt: &R, list: [HorzSegment; Job::SEGMENTS], n: usize) -> io::Result<()>
    requires { n ≤ limit.SEGMENTS }
{
    for t in &list[..n] {
        say_segment(rt, t.key, t.left, t.right, t.forward)?;
    }
    println!(rt)
}

fn say_slices<R: Print>(
    rt: &R,
    keys: &[usize],
    lefts: &[usize],
    rights: &[usize],
    forwards: &[usize],
    n: usize,
) -> io::Result<()>
    requires { (n ≤ length keys.now) × Even keys.now lefts.now rights.now forwards.now }
{
    for k in 0..n {
        say_segment(rt, keys[k], lefts[k], rights[k], forwards[k])?;
    }
    println!(rt)
}

fn by_records<R: Print>(rt: &R, s: &[u8], at: usize, n: usize) -> io::Result<()>
    requires { (at + 4 * n ≤ length s.now) × (n ≤ limit.SEGMENTS) }
{
    let list = records_at(s, at, n);
    let ordered = sort_rows(list);
    rt.write_all(b"records")?;
    say_records(rt, ordered, n)
}

fn by_slices<R: Print>(rt: &R, s: &[u8], at: usize, n: usize) -> io::Result<()>
    requires { (at + 4 * n ≤ length s.now) × (n ≤ limit.SEGMENTS) }
{
    let mut keys = [LAST; Job::SEGMENTS];
    let mut lefts = [0; Job::SEGMENTS];
    let mut rights = [255; Job::SEGMENTS];
    let mut forwards = [0; Job::SEGMENTS];
    put_segments(s, at, n, &mut keys, &mut lefts, &mut rights, &mut forwards);
    sorting::sort(&mut keys, &mut lefts, &mut rights, &mut forwards);
    rt.write_all(b"slices ")?;
    say_slices(rt, &keys, &lefts, &rights, &forwards, n)
}

// The list at a place: sorts it both ways, answers where the next one begins.
fn one<R: Print>(rt: &R, s: &[u8], at: usize) -> io::Result<usize>
    requires { at + 1 < length s.now }
    ensures { IfOk result (λ next. next ≤ length s.now) }
{
    let n = small(s, at) + small(s, at + 1);
    let end = at + 2 + 4 * n;
    if s.len() < end {
        return Ok(s.len());
    }
    if Job::SEGMENTS < n {
        return Ok(s.len());
    }
    by_records(rt, s, at + 2, n)?;
    by_slices(rt, s, at + 2, n)?;
    Ok(end)
}

fn run<R: Print>(rt: &R, s: &[u8]) -> io::Result<()> {
    let mut at: usize = 0;
    for _ in 0..65536 {
        if s.len() <= at + 1 {
            return Ok(());
        }
        at = one(rt, s, at)?;
    }
    Ok(())
}

fn main(rt: HostRuntime) -> io::Result<()> {
    let mut input = [0u8; 65536];
    let n = fill(&mut rt.stdin(), &mut input)?;
    run(&rt, &input[..n])
}
