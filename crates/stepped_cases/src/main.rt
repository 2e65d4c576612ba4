// Steps stored rings with the entry points and prints each step: the step that was due, the act that the proved decision names, the step then due; then the rings,
// and the paths that writing out gives. Input and the file `stdout` are the oracle's: `oracle stepped make tests/answers`, `oracle stepped`.
#![tactic(auto)]

mod print;
mod progress;

ghost use Rattle.std.specs.Prelude.{◌≤◌, length};
ghost use Rattle.store.specs.Field.{BLOCK};
ghost use Rattle.store.specs.Good.{SoundWords};

use crate::print::{print_act, print_due, print_refusal, print_store};
use crate::progress::{due_of, set_all};
use finishing::{step, write_out};
use handed::handed;
use job::Job;
use listing::TEXT;
use opening::open::open;
use paths::TRAY;
use std::io;
use steps::step::is_live;
use store::{Col, LENGTH, read};
use streams::fill;
use test_text::{first, from, further, number_at};
use turns::decide::decide;
use turns::{Act, Due};

// ---- a step

// What a step on record i of a sound work space would do.
fn act_on(w: &[u32], i: usize) -> Act
    requires { SoundWords w.now }
{
    if is_live(w, i) {
        return decide(w, i);
    }
    Act::Stay
}

fn act_of(w: &[u32], i: usize) -> Act {
    match handed(w) {
        Ok(()) => act_on(w, i),
        Err(_) => Act::Stay,
    }
}

// A step on a record number, and its line; answers whether it was carried out.
fn tell_step<R: Print>(rt: &R, w: &mut [u32; LENGTH], i: usize) -> io::Result<bool> {
    if 65536 <= i {
        return Ok(false);
    }
    let d = due_of(w, i);
    let a = act_of(w, i);
    let s = step(w, i as u32);
    rt.print(i)?;
    match s {
        Ok(()) => {
            let e = due_of(w, i);
            print_due(rt, d)?;
            print_act(rt, a)?;
            print!(rt; " due")?;
            print_due(rt, e)?;
            println!(rt)?;
            Ok(true)
        }
        Err(r) => {
            print!(rt; " ")?;
            print_refusal(rt, r)?;
            Ok(false)
        }
    }
}

// ---- lists of steps

// A step on record i, unless it is done; answers the record to look at next, one past all after a refusal.
fn turn<R: Print>(rt: &R, w: &mut [u32; LENGTH], i: usize) -> io::Result<usize> {
    if matches!(due_of(w, i), Due::Done) {
        return Ok(further(i, 1));
    }
    if tell_step(rt, w, i)? {
        return Ok(i);
    }
    Ok(Job::RECORDS)
}

// Every ring to done, in rising record order.
fn rising<R: Print>(rt: &R, w: &mut [u32; LENGTH]) -> io::Result<()> {
    let mut i: usize = 0;
    for _ in 0..100000 {
        if read(w, Col::Records, 0) <= i {
            return Ok(());
        }
        i = turn(rt, w, i)?;
    }
    Ok(())
}

// The steps of a list of record numbers, two bytes each.
fn listed<R: Print>(rt: &R, w: &mut [u32; LENGTH], steps: &[u8]) -> io::Result<()> {
    let mut at: usize = 0;
    for _ in 0..100000 {
        if steps.len() <= at {
            return Ok(());
        }
        let i = number_at(steps, at);
        tell_step(rt, w, i)?;
        at = further(at, 2);
    }
    Ok(())
}

// ---- writing out

// The listing of what writing out gives, in a lent slice; nothing after a refusal, which is printed.
fn list<R: Print>(rt: &R, work: &[u32], tray: &mut [u8], out: &mut [u8]) -> io::Result<usize>
    requires { BLOCK ≤ length work.now }
{
    match write_out(work, tray) {
        Ok(p) => {
            let rev = paths::reverse_solution(work);
            Ok(listing::listing(tray, p.closed, p.open, rev, out).unwrap_or(0))
        }
        Err(x) => {
            print_refusal(rt, x)?;
            Ok(0)
        }
    }
}

// Writes the first n bytes.
fn write<R: Print>(rt: &R, text: &[u8], n: usize) -> io::Result<()> {
    rt.write_all(first(text, n))
}

fn write_paths<R: Print>(rt: &R, work: &[u32; LENGTH]) -> io::Result<()> {
    let mut tray = [0u8; TRAY];
    let mut out = [0u8; TEXT];
    let k = list(rt, work, &mut tray, &mut out)?;
    write(rt, &out, k)
}

// ---- cases

// An opened job: some progress, steps, what is left, the paths.
fn run_opened<R: Print>(
    rt: &R,
    w: &mut [u32; LENGTH],
    progress: &[u8],
    steps: &[u8],
) -> io::Result<()> {
    set_all(w, progress);
    if steps.len() == 0 {
        rising(rt, w)?;
    }
    listed(rt, w, steps)?;
    print_store(rt, w)?;
    write_paths(rt, w)
}

fn run_case<R: Print>(
    rt: &R,
    w: &mut [u32; LENGTH],
    job: &[u8],
    progress: &[u8],
    steps: &[u8],
) -> io::Result<()> {
    match open(job, w) {
        Ok(()) => run_opened(rt, w, progress, steps),
        Err(r) => print_refusal(rt, r),
    }
}

// The part of the input at a place: its length in four bytes, then its bytes.
fn part(s: &[u8], at: usize) -> &[u8] {
    first(from(s, further(at, 4)), number_at(s, at))
}

// Where the next part begins.
fn past(s: &[u8], at: usize) -> usize {
    let n = number_at(s, at);
    further(further(at, 4), n)
}

fn run<R: Print>(rt: &R, s: &[u8], w: &mut [u32; LENGTH]) -> io::Result<()> {
    let mut at: usize = 0;
    for k in 0..1000 {
        if s.len() <= at {
            return Ok(());
        }
        let b = past(s, at);
        let c = past(s, b);
        println!(rt; "case {k}")?;
        run_case(rt, w, part(s, at), part(s, b), part(s, c))?;
        at = past(s, c);
    }
    Ok(())
}

fn main(rt: HostRuntime) -> io::Result<()> {
    let mut input = [0u8; 262144];
    let mut w = [0u32; LENGTH];
    let n = fill(&mut rt.stdin(), &mut input)?;
    run(&rt, &input[..n], &mut w)
}
