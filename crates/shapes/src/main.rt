// Which shape lies in which, of the job on standard input: a byte for each ordered pair of its closed paths, 1 or 0, on standard output. `contained` does the work, and `main` only reads, calls and writes. Of a job
// that is refused nothing is written there, and `refused` with its number on standard error. (`./shapes` says the bytes in words.)
#![tactic(auto)]

ghost use Rattle.std.specs.Prelude.{length};
ghost use Rattle.containment.specs.Needs.{AnswersWithin};

use containment::{ANSWERS, contained, pair_count};
use job::refusal::Refusal;
use paths::{TRAY, Written};
use prefix::DECIDES;
use std::io;
use std::process::ExitCode;
use store::LENGTH;
use streams::{fill, write_or_say};

// The line of a refusal.
fn refuse<R: Eprint>(rt: &R, x: Refusal) -> io::Result<ExitCode> {
    let n = x.number();
    eprintln!(rt; "refused {n}")?;
    Ok(ExitCode::SUCCESS)
}

// Writes the answers, or why there are none.
fn say<R: Print + Eprint>(
    rt: &R,
    r: Result<Written, Refusal>,
    answers: &[u8],
) -> io::Result<ExitCode>
    requires { AnswersWithin r (length answers.now) }
{
    match r {
        Ok(p) => {
            let m = pair_count(p.closed);
            write_or_say(rt, "shapes", &answers[..m])
        }
        Err(x) => refuse(rt, x),
    }
}

// Reads as many bytes as decide any job, into a tray and a slice of answers that suffice for any (`lies_in`, crate containment).
fn main(rt: HostRuntime) -> io::Result<ExitCode> {
    let mut job = [0u8; DECIDES];
    let mut work = [0u32; LENGTH];
    let mut tray = [0u8; TRAY];
    let mut answers = [0u8; ANSWERS];
    let n = fill(&mut rt.stdin(), &mut job)?;
    let r = contained(&job[..n], &mut work, &mut tray, &mut answers);
    say(&rt, r, &answers)
}
