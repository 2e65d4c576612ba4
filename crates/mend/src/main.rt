// The job on standard input with its backward links mended, on standard output: `mend` does the work, and `main` only reads, calls and writes. Of a job that is refused nothing is
// printed there, and `refused` with its number on standard error.
#![tactic(auto)]

use job::refusal::Refusal;
use mending::mend;
use prefix::DECIDES;
use std::io;
use std::process::ExitCode;
use streams::{fill, write_or_say};

// The line of a refusal.
fn refuse<R: Eprint>(rt: &R, x: Refusal) -> io::Result<ExitCode> {
    let n = x.number();
    eprintln!(rt; "refused {n}")?;
    Ok(ExitCode::SUCCESS)
}

// Mends a job that was read, and writes it, or why there is none.
fn answer<R: Print + Eprint>(rt: &R, job: &mut [u8]) -> io::Result<ExitCode> {
    match mend(job) {
        Ok(()) => write_or_say(rt, "mend", job),
        Err(x) => refuse(rt, x),
    }
}

// Reads as many bytes as decide any job: what follows them changes nothing of the answer, and a job that is mended has no more (`mends`, crate mending).
fn main(rt: HostRuntime) -> io::Result<ExitCode> {
    let mut job = [0u8; DECIDES];
    let n = fill(&mut rt.stdin(), &mut job)?;
    answer(&rt, &mut job[..n])
}
