// Runs the tests of a handed work space on a good one and on altered ones, and prints what each says.
#![tactic(auto)]

ghost use Rattle.std.specs.Prelude.{◌+◌, ◌<◌, ◌≤◌, ◌^◌, length};
ghost use Rattle.job.specs.Limits as limit;
ghost use Rattle.store.specs.Field.{size, BLOCK};
ghost use Rattle.store.specs.Column.{column_of};

use audit::tests_of;
use job::Job;
use job::refusal::Refusal;
use primitives::start_record;
use std::io;
use store::{Col, JOINED, LENGTH, NO_RING, NONE, set};

// The word of the coordinate 0.
const AT: usize = Job::COORDINATE as usize;

// Point i at (x, y), by the words of its coordinates, between p and n, of record r.
fn put_point(w: &mut [u32], i: usize, x: usize, y: usize, n: usize, p: usize, r: usize)
    requires { (BLOCK ≤ length w.old) × (i < limit.POINTS) × (x < 2 ^ 32) × (y < 2 ^ 32) × (n < 2 ^ 32) × (p < 2 ^ 32) × (r < 2 ^ 32) }
{
    set(w, Col::X, i, x);
    set(w, Col::Y, i, y);
    set(w, Col::Next, i, n);
    set(w, Col::Prev, i, p);
    set(w, Col::Rec, i, r);
}

// A square of points a to a + 3, of record r.
fn put_square(w: &mut [u32], a: usize, r: usize)
    requires { (BLOCK ≤ length w.old) × (a + 3 < limit.POINTS) × (r < limit.RECORDS) }
{
    put_point(w, a, AT, AT, a + 1, a + 3, r);
    put_point(w, a + 1, AT + 10, AT, a + 2, a, r);
    put_point(w, a + 2, AT + 10, AT + 10, a + 3, a + 1, r);
    put_point(w, a + 3, AT, AT + 10, a, a + 2, r);
}

// Two squares, each a closed ring at its start; record 1 is owned by record 0.
fn build(w: &mut [u32])
    requires { BLOCK ≤ length w.old }
{
    set(w, Col::Points, 0, 8);
    set(w, Col::Records, 0, 2);
    put_square(w, 0, 0);
    put_square(w, 4, 1);
    start_record(w, 0, NONE, 0, NONE);
    start_record(w, 1, 0, 4, NONE);
}

// What the tests say.
fn say<R: Print>(rt: &R, v: Result<(), Refusal>) -> io::Result<()> {
    match v {
        Ok(()) => println!(rt; "passed"),
        Err(r) => println!(rt; "refused {:02}", r.number()),
    }
}

// The good work space with one word altered.
fn altered<R: Print>(rt: &R, w: &mut [u32], c: Col, i: usize, v: usize) -> io::Result<()>
    requires { (BLOCK ≤ length w.old) × (i < size (column_of c)) × (v < 2 ^ 32) }
{
    build(w);
    set(w, c, i, v);
    let r = tests_of(w);
    say(rt, r)
}

// Numbers, coordinates and counts.
fn alter_numbers<R: Print>(rt: &R, w: &mut [u32]) -> io::Result<()>
    requires { BLOCK ≤ length w.old }
{
    altered(rt, w, Col::Points, 0, Job::POINTS + 1)?;
    altered(rt, w, Col::Records, 0, Job::RECORDS + 1)?;
    altered(rt, w, Col::X, 2, 2 * AT)?;
    altered(rt, w, Col::X, 2, 2 * AT + 1)?;
    altered(rt, w, Col::Next, 1, 8)?;
    altered(rt, w, Col::Prev, 5, 8)?;
    altered(rt, w, Col::Rec, 0, 2)?;
    altered(rt, w, Col::Owner, 0, 2)
}

// A depth that no coordinate may have: nothing binds it.
fn alter_depth<R: Print>(rt: &R, w: &mut [u32]) -> io::Result<()>
    requires { BLOCK ≤ length w.old }
{
    altered(rt, w, Col::Z, 2, 2 * AT + 1)
}

// Links, rings and progress.
fn alter_rings<R: Print>(rt: &R, w: &mut [u32]) -> io::Result<()>
    requires { BLOCK ≤ length w.old }
{
    altered(rt, w, Col::First, 1, 8)?;
    altered(rt, w, Col::Next, 1, 3)?;
    altered(rt, w, Col::Prev, 1, 3)?;
    altered(rt, w, Col::First, 1, 2)?;
    altered(rt, w, Col::Present, 1, 2)?;
    altered(rt, w, Col::Mark, 1, 4)?;
    altered(rt, w, Col::Mark, 1, 5)?;
    altered(rt, w, Col::Flags, 1, 1)
}

// The good work space with record 1 emptied: the reason that it keeps, and its taker.
fn emptied<R: Print>(rt: &R, w: &mut [u32], reason: usize, taker: usize) -> io::Result<()>
    requires { (BLOCK ≤ length w.old) × (reason < 2 ^ 32) × (taker < 2 ^ 32) }
{
    build(w);
    set(w, Col::First, 1, NONE);
    set(w, Col::Reason, 1, reason);
    set(w, Col::Taker, 1, taker);
    let r = tests_of(w);
    say(rt, r)
}

// Reasons and takers.
fn alter_reasons<R: Print>(rt: &R, w: &mut [u32]) -> io::Result<()>
    requires { BLOCK ≤ length w.old }
{
    emptied(rt, w, 0, 0)?;
    emptied(rt, w, NO_RING, 2)?;
    emptied(rt, w, JOINED, 0)?;
    emptied(rt, w, JOINED, 2)?;
    emptied(rt, w, 5, 2)?;
    emptied(rt, w, 6, 0)?;
    emptied(rt, w, JOINED, NONE)
}

fn main(rt: HostRuntime) -> io::Result<()> {
    let mut w = [0u32; LENGTH];
    build(&mut w);
    let r = tests_of(&w);
    say(&rt, r)?;
    alter_numbers(&rt, &mut w)?;
    alter_depth(&rt, &mut w)?;
    alter_rings(&rt, &mut w)?;
    alter_reasons(&rt, &mut w)
}
