// Where each record of the job on standard input went, a line each on standard output: `tell_job` does the work, and `main` only reads, calls and writes.
#![tactic(auto)]

ghost use Rattle.std.specs.Prelude.{length};
ghost use Rattle.listing.specs.Needs.{Whole};

use job_reasons::{TEXT, tell_job};
use paths::TRAY;
use prefix::DECIDES;
use std::io;
use std::process::ExitCode;
use store::LENGTH;
use streams::{fill, write_or_say};

// Writes the text, for which there was room.
fn say<R: Print + Eprint>(rt: &R, a: Option<usize>, text: &[u8]) -> io::Result<ExitCode>
    requires { Whole a (length text.now) }
{
    match a {
        Some(m) => write_or_say(rt, "reasons", &text[..m]),
        None => unreachable!(),
    }
}

// Reads as many bytes as decide any job: what follows them changes nothing of the text (`reasons_decided`, crate job_reasons).
fn main(rt: HostRuntime) -> io::Result<ExitCode> {
    let mut job = [0u8; DECIDES];
    let mut work = [0u32; LENGTH];
    let mut tray = [0u8; TRAY];
    let mut text = [0u8; TEXT];
    let n = fill(&mut rt.stdin(), &mut job)?;
    let a = tell_job(&job[..n], &mut work, &mut tray, &mut text);
    say(&rt, a, &text)
}
