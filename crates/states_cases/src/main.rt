// Keeps states of the job on standard input, goes back to them and drops them, between steps on record 0, and prints what each call answers: its own letter, and the refusal's number, 0 for none.
// After every call the counts of points and records follow.
#![tactic(auto)]

use finishing::{open, step};
use job::refusal::Refusal;
use states::{drop, go_back, keep};
use std::io;
use store::{BLOCK, Col, LENGTH, read};
use streams::fill;

// A line: the call's letter, the name or record, the answer, the counts.
fn line<R: Print>(rt: &R, w: &[u32; LENGTH], call: &str, name: u8, answer: u32) -> io::Result<()> {
    let m = read(w, Col::Points, 0);
    let n = read(w, Col::Records, 0);
    println!(rt; "{call} {name} {answer} {m} {n}")
}

fn number(a: Result<(), Refusal>) -> u32 {
    match a {
        Ok(()) => 0,
        Err(r) => r.number(),
    }
}

fn keeps<R: Print>(rt: &R, w: &mut [u32; LENGTH], name: u8) -> io::Result<()> {
    let k = number(keep(w, name));
    line(rt, w, "keep", name, k)
}

fn goes_back<R: Print>(rt: &R, w: &mut [u32; LENGTH], name: u8) -> io::Result<()> {
    let k = number(go_back(w, name));
    line(rt, w, "back", name, k)
}

fn drops<R: Print>(rt: &R, w: &mut [u32; LENGTH], name: u8) -> io::Result<()> {
    let k = number(drop(w, name));
    line(rt, w, "drop", name, k)
}

// Steps on record 0.
fn steps<R: Print>(rt: &R, w: &mut [u32; LENGTH], many: u8) -> io::Result<()> {
    for _ in 0..many {
        let k = number(step(w, 0));
        line(rt, w, "step", 0, k)?;
    }
    Ok(())
}

// Four names and no fifth; a name kept again; steps, and back; a name dropped, and its place taken.
fn names<R: Print>(rt: &R, w: &mut [u32; LENGTH]) -> io::Result<()> {
    goes_back(rt, w, 7)?;
    drops(rt, w, 7)?;
    keeps(rt, w, 0)?;
    steps(rt, w, 4)?;
    keeps(rt, w, 255)?;
    keeps(rt, w, 2)?;
    keeps(rt, w, 3)?;
    keeps(rt, w, 4)?;
    steps(rt, w, 9)?;
    keeps(rt, w, 2)
}

fn returns<R: Print>(rt: &R, w: &mut [u32; LENGTH]) -> io::Result<()> {
    goes_back(rt, w, 0)?;
    steps(rt, w, 13)?;
    goes_back(rt, w, 255)?;
    drops(rt, w, 3)?;
    goes_back(rt, w, 3)?;
    keeps(rt, w, 4)?;
    goes_back(rt, w, 2)?;
    steps(rt, w, 1)
}

// One name at two places; a word that says none.
fn twice<R: Print>(rt: &R, w: &mut [u32; LENGTH]) -> io::Result<()> {
    w[BLOCK + 1] = w[BLOCK];
    steps(rt, w, 1)?;
    keeps(rt, w, 9)?;
    w[BLOCK + 1] = 257;
    goes_back(rt, w, 0)?;
    keeps(rt, w, 9)
}

fn run<R: Print>(rt: &R, job: &[u8], w: &mut [u32; LENGTH]) -> io::Result<()> {
    let _ = open(job, w);
    names(rt, w)?;
    returns(rt, w)?;
    twice(rt, w)?;
    let _ = open(job, w);
    goes_back(rt, w, 0)
}

fn main(rt: HostRuntime) -> io::Result<()> {
    let mut buf = [0u8; 65536];
    let n = fill(&mut rt.stdin(), &mut buf)?;
    let mut w = [7u32; LENGTH];
    run(&rt, &buf[..n], &mut w)
}
