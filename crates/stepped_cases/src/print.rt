// What is printed: steps due and acts by the oracle's words, rings by value from the first point.
ghost use Rattle.std.specs.Prelude.{◌≤◌, length};
ghost use Rattle.store.specs.Field.{BLOCK};

use crate::progress::due_of;
use geometry::Point;
use job::refusal::Refusal;
use std::io;
use store::{Col, read};
use test_text::first;
use test_text::ring::{TEXT, put_ring};
use turns::{Act, Due};

pub(crate) fn print_refusal<R: Print>(rt: &R, r: Refusal) -> io::Result<()> {
    println!(rt; "refused {}", r.number())
}

// The words are the oracle's, not the crate turns' own: a Display there would say them for every program.
pub(crate) fn print_due<R: Print>(rt: &R, d: Due) -> io::Result<()> {
    match d {
        Due::Validity => print!(rt; " validity"),
        Due::Removal => print!(rt; " removal"),
        Due::Triangle => print!(rt; " triangle"),
        Due::Split => print!(rt; " split"),
        Due::Done => print!(rt; " done"),
    }
}

// The depth's word is that of a signed number.
fn print_cut<R: Print>(rt: &R, v: Point, put: bool, off: bool) -> io::Result<()> {
    let point = if put { "point" } else { "spliced" };
    let offcut = if off { "offcut" } else { "nothing" };
    print!(rt;
        " cut {},{},{} {point} {offcut}",
        v.x,
        v.y,
        v.z.cast_signed()
    )
}

pub(crate) fn print_act<R: Print>(rt: &R, a: Act) -> io::Result<()> {
    match a {
        Act::Stay => print!(rt; " stay"),
        Act::Discard(_) => print!(rt; " discard"),
        Act::Drop => print!(rt; " drop"),
        Act::MoveOn(_) => print!(rt; " move"),
        // A test finds nothing against the ring, or the triangle test ends it.
        Act::ToFirst(Due::Done) => print!(rt; " settle"),
        Act::ToFirst(_) => print!(rt; " begin"),
        Act::Double(_, _) => print!(rt; " double"),
        Act::Cut(v, put, off, _) => print_cut(rt, v, put, off),
    }
}

// The ring from a record's first point on, by value.
fn print_ring<R: Print>(rt: &R, w: &[u32], a: usize) -> io::Result<()>
    requires { BLOCK ≤ length w.now }
{
    let mut text = [0u8; TEXT];
    let n = put_ring(w, false, a, &mut text, 0);
    rt.write_all(first(&text, n))
}

fn print_record<R: Print>(rt: &R, w: &[u32], i: usize) -> io::Result<()>
    requires { BLOCK ≤ length w.now }
{
    print!(rt; "record {i} due")?;
    let d = due_of(w, i);
    print_due(rt, d)?;
    let a = read(w, Col::First, i);
    print_ring(rt, w, a)
}

fn print_records<R: Print>(rt: &R, w: &[u32], n: usize) -> io::Result<()>
    requires { BLOCK ≤ length w.now }
{
    for i in 0..n {
        print_record(rt, w, i)?;
    }
    Ok(())
}

// Both counts and each record's ring.
pub(crate) fn print_store<R: Print>(rt: &R, w: &[u32]) -> io::Result<()>
    requires { BLOCK ≤ length w.now }
{
    let p = read(w, Col::Points, 0);
    let n = read(w, Col::Records, 0);
    println!(rt; "points {p} records {n}")?;
    print_records(rt, w, n)
}
