// The job on standard input, written the one way, on standard output: `rewrite` does the work, and `main` only reads, calls and writes. Of a job that is refused nothing is
// printed there, and `refused` with its number on standard error.
#![tactic(auto)]

ghost use Rattle.std.specs.Prelude.{length};
ghost use Rattle.rewriting.specs.Answers.{BytesWithin};

use job::refusal::Refusal;
use prefix::DECIDES;
use rewriting::{LONGEST, rewrite};
use std::io;
use std::process::ExitCode;
use store::LENGTH;
use streams::{fill, write_or_say};

// The line of a refusal.
fn refuse<R: Eprint>(rt: &R, x: Refusal) -> io::Result<ExitCode> {
    let n = x.number();
    eprintln!(rt; "refused {n}")?;
    Ok(ExitCode::SUCCESS)
}

// Writes the job, or why there is none.
fn say<R: Print + Eprint>(rt: &R, a: Result<usize, Refusal>, tray: &[u8]) -> io::Result<ExitCode>
    requires { BytesWithin a (length tray.now) }
{
    match a {
        Ok(m) => write_or_say(rt, "canon", &tray[..m]),
        Err(x) => refuse(rt, x),
    }
}

// Reads as many bytes as decide any job, into a tray that suffices for any: what follows them changes nothing (`rewrites`, crate rewriting).
fn main(rt: HostRuntime) -> io::Result<ExitCode> {
    let mut job = [0u8; DECIDES];
    let mut work = [0u32; LENGTH];
    let mut tray = [0u8; LONGEST];
    let n = fill(&mut rt.stdin(), &mut job)?;
    let a = rewrite(&job[..n], &mut work, &mut tray);
    say(&rt, a, &tray)
}
