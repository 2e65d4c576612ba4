// Writes the path of each ring on standard input and lists it. The rings, and the listings that the crate's file `stdout` has, come from the real Rust:
// `tests/paths_cases` makes both from `oracle vectors paths`. A ring is a byte each for reverse, open and how many points, a byte 0, then x, y and z of
// each point (four bytes each, low byte first).
#![tactic(auto)]

ghost use Rattle.std.specs.Prelude.{◌+◌, ◌*◌, ◌≤◌, ◌<◌, ◌^◌, length, IfOk};
ghost use Rattle.job.specs.Limits as limit;
ghost use Rattle.store.specs.Field.{BLOCK};

use job::Job;
use paths::TRAY;
use std::io;
use store::{Col, LENGTH};
use streams::fill;

// What stands at a place of the input, for which there is room.
fn small(s: &[u8], at: usize) -> usize
    requires { at < length s.now }
    ensures { result < 256 }
{
    numbers::byte(s, at) as usize
}

// The raised word of the coordinate at a place.
fn word(s: &[u8], at: usize) -> usize
    requires { at + 4 ≤ length s.now }
    ensures { result < 2 ^ 32 }
{
    numbers::read_raised(s, at, Job::COORDINATE) as usize
}

// The depth at a place, which is its word.
fn depth(s: &[u8], at: usize) -> usize
    requires { at + 4 ≤ length s.now }
    ensures { result < 2 ^ 32 }
{
    numbers::read_raised(s, at, 0) as usize
}

// The point after k on a ring of n.
fn next(k: usize, n: usize) -> usize
    requires { (k < n) × (n < limit.POINTS) }
    ensures { result < 2 ^ 32 }
{
    if k + 1 < n {
        return k + 1;
    }
    0
}

// The point before k.
fn prev(k: usize, n: usize) -> usize
    requires { (k < n) × (n < limit.POINTS) }
    ensures { result < 2 ^ 32 }
{
    if 0 < k {
        return k - 1;
    }
    n - 1
}

// Point k of a ring of n.
fn set_point(work: &mut [u32; LENGTH], s: &[u8], at: usize, k: usize, n: usize)
    requires { (at + 12 ≤ length s.now) × (k < n) × (n < limit.POINTS) }
{
    let x = word(s, at);
    let y = word(s, at + 4);
    let z = depth(s, at + 8);
    let a = next(k, n);
    let b = prev(k, n);
    store::set(work, Col::X, k, x);
    store::set(work, Col::Y, k, y);
    store::set(work, Col::Next, k, a);
    store::set(work, Col::Prev, k, b);
    store::set(work, Col::Rec, k, 0);
    store::set(work, Col::Z, k, z);
}

// One record, with the first point 0, done.
fn set_record(work: &mut [u32; LENGTH], rev: usize, opened: usize, n: usize)
    requires { (rev < 2 ^ 8) × (opened < 2 ^ 8) × (n < limit.POINTS) }
{
    store::set(work, Col::Settings, 0, rev * 2);
    store::set(work, Col::Points, 0, n);
    store::set(work, Col::Records, 0, 1);
    store::set(work, Col::Flags, 0, opened);
    store::set(work, Col::Owner, 0, store::NONE);
    store::set(work, Col::First, 0, 0);
    store::set(work, Col::Mark, 0, 4);
}

fn set_points(work: &mut [u32; LENGTH], s: &[u8], at: usize, n: usize)
    requires { (at + 12 * n ≤ length s.now) × (n < limit.POINTS) }
{
    for k in 0..n {
        set_point(work, s, at + 12 * k, k, n);
    }
}

// The text of the ring's path: nothing where the work space fails its tests.
fn list(work: &[u32], tray: &mut [u8], out: &mut [u8]) -> usize
    requires { BLOCK ≤ length work.now }
    ensures { result ≤ length out.new }
{
    let Ok(()) = audit::tests_of(work) else {
        return 0;
    };
    let Ok(p) = paths::build_paths64(work, tray) else {
        return 0;
    };
    let rev = paths::reverse_solution(work);
    listing::listing(tray, p.closed, p.open, rev, out).unwrap_or(0)
}

// The ring at a place: lists its path, answers where the next ring begins.
fn one<R: Print>(
    rt: &R,
    work: &mut [u32; LENGTH],
    tray: &mut [u8],
    out: &mut [u8],
    s: &[u8],
    at: usize,
) -> io::Result<usize>
    requires { at + 4 ≤ length s.now }
    ensures { IfOk result (λ next. next ≤ length s.now) }
{
    let rev = small(s, at);
    let opened = small(s, at + 1);
    let n = small(s, at + 2);
    let end = at + 4 + 12 * n;
    if s.len() < end {
        return Ok(s.len());
    }
    set_points(work, s, at + 4, n);
    set_record(work, rev, opened, n);
    let k = list(work, tray, out);
    rt.write_all(&out[..k])?;
    Ok(end)
}

fn run<R: Print>(
    rt: &R,
    work: &mut [u32; LENGTH],
    tray: &mut [u8],
    out: &mut [u8],
    s: &[u8],
) -> io::Result<()> {
    let mut at: usize = 0;
    for _ in 0..65536 {
        if s.len() < at + 4 {
            return Ok(());
        }
        at = one(rt, work, tray, out, s, at)?;
    }
    Ok(())
}

fn main(rt: HostRuntime) -> io::Result<()> {
    let mut input = [0u8; 65536];
    let mut work = [0u32; LENGTH];
    let mut tray = [0u8; TRAY];
    let mut out = [0u8; 4096];
    let n = fill(&mut rt.stdin(), &mut input)?;
    run(&rt, &mut work, &mut tray, &mut out, &input[..n])
}
