// Opens the stored jobs on standard input, each after its length (four bytes, low byte first), and prints what the oracle's command `opened` prints: both counts
// and each record's ring, or the refusal's number. The jobs are cases written by hand and the generator's; `tests/opened_cases ORACLE crates/opened_cases` makes both files.
#![tactic(auto)]

ghost use Rattle.std.specs.Prelude.{◌≤◌, length};
ghost use Rattle.store.specs.Field.{BLOCK};

use job::refusal::Refusal;
use opening::open::open;
use std::io;
use store::{Col, LENGTH, NONE, read};
use streams::fill;
use test_text::ring::{TEXT, put_ring};
use test_text::{first, from, further, number_at};

fn print_owner<R: Print>(rt: &R, o: usize) -> io::Result<()> {
    if o == NONE {
        return print!(rt; "-");
    }
    rt.print(o)
}

// The ring from a record's first point on, each point by its number and value.
fn print_ring<R: Print>(rt: &R, w: &[u32], a: usize) -> io::Result<()>
    requires { BLOCK ≤ length w.now }
{
    let mut text = [0u8; TEXT];
    let n = put_ring(w, true, a, &mut text, 0);
    rt.write_all(first(&text, n))
}

fn print_record<R: Print>(rt: &R, w: &[u32], i: usize) -> io::Result<()>
    requires { BLOCK ≤ length w.now }
{
    let f = read(w, Col::Flags, i);
    print!(rt; "record {i} flags {f} owner ")?;
    let o = read(w, Col::Owner, i);
    print_owner(rt, o)?;
    let a = read(w, Col::First, i);
    print_ring(rt, w, a)
}

fn print_records<R: Print>(rt: &R, w: &[u32]) -> io::Result<()>
    requires { BLOCK ≤ length w.now }
{
    for i in 0..read(w, Col::Records, 0) {
        print_record(rt, w, i)?;
    }
    Ok(())
}

fn print_counts<R: Print>(rt: &R, w: &[u32]) -> io::Result<()>
    requires { BLOCK ≤ length w.now }
{
    let p = read(w, Col::Points, 0);
    let n = read(w, Col::Records, 0);
    println!(rt; "points {p} records {n}")
}

fn print_refusal<R: Print>(rt: &R, r: Refusal) -> io::Result<()> {
    let n = r.number();
    println!(rt; "refused {n}")
}

fn open_one<R: Print>(rt: &R, job: &[u8], w: &mut [u32]) -> io::Result<()>
    requires { BLOCK ≤ length w.old }
{
    match open(job, w) {
        Ok(()) => {
            print_counts(rt, w)?;
            print_records(rt, w)
        }
        Err(r) => print_refusal(rt, r),
    }
}

fn run<R: Print>(rt: &R, s: &[u8], w: &mut [u32]) -> io::Result<()>
    requires { BLOCK ≤ length w.old }
{
    let mut at: usize = 0;
    for _ in 0..1000 {
        let n = number_at(s, at);
        if n == 0 {
            return Ok(());
        }
        at = further(at, 4);
        open_one(rt, first(from(s, at), n), w)?;
        at = further(at, n);
    }
    Ok(())
}

fn main(rt: HostRuntime) -> io::Result<()> {
    let mut input = [0u8; 131072];
    let mut w = [0u32; LENGTH];
    let n = fill(&mut rt.stdin(), &mut input)?;
    run(&rt, &input[..n], &mut w)
}
