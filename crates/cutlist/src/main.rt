// The listing of the job on standard input, on standard output, with the charge at the rate that is the program's argument, if there is one: `list_job` does the
// work, and `main` only reads, calls and writes.
#![tactic(auto)]

ghost use Rattle.std.specs.Prelude.{◌≡◌, ◌≤◌, length};
ghost use Rattle.std.specs.Io.{ReadsAtMost};
ghost use Rattle.listing.specs.Needs.{Whole};
ghost use Rattle.cutlist.specs.Taking.{Untaken};

use job_listing::list_job;
use listing::TEXT;
use paths::TRAY;
use prefix::DECIDES;
use rates::{Rate, rate_of};
use std::env::{Env, FillError};
use std::io;
use std::io::Read;
use std::process::ExitCode;
use store::LENGTH;
use streams::{fill, write_or_say};

// Writes the text, for which there was room.
fn say<R: Print + Eprint>(rt: &R, text: &[u8], a: Option<usize>) -> io::Result<ExitCode>
    requires { Whole a (length text.now) }
{
    match a {
        Some(m) => write_or_say(rt, "cutlist", &text[..m]),
        None => unreachable!(),
    }
}

// No argument that the system passes is as long; one that did not fit would be bad.
const ARGUMENT: usize = 131072;

// Whether the program was started with a word at a place; its own name is at 0.
fn is_given<E: Env>(rt: &E, i: usize) -> bool {
    let mut arg = [0u8; 1];
    match rt.arg(i, &mut arg) {
        Ok(_) => true,
        Err(FillError::TooLong) => true,
        Err(FillError::NotPresent) => false,
    }
}

// How many words the program was started with, as far as a rate asks: 3 are too many.
fn word_count<E: Env>(rt: &E) -> usize {
    if !is_given(rt, 1) {
        return 1;
    }
    if !is_given(rt, 2) {
        return 2;
    }
    3
}

// The argument's length, at the start of the buffer; 0 for one that is missing or does not fit.
fn argument<E: Env>(rt: &E, arg: &mut [u8]) -> usize
    ensures { result ≤ length arg.new }
{
    match rt.arg(1, arg) {
        Ok(n) => n,
        Err(_) => 0,
    }
}

// The rate that the arguments say.
fn rate_given<E: Env>(rt: &E) -> Rate {
    let mut arg = [0u8; ARGUMENT];
    let n = argument(rt, &mut arg);
    rate_of(word_count(rt), &arg[..n])
}

// Reads the job, unless the rate is bad: then no byte is taken, the buffer stays as it was, and nothing fails.
fn read_job<R: Read>(from: &mut R, rate: Rate, job: &mut [u8]) -> io::Result<usize>
    ensures within { ReadsAtMost result job.new }
    ensures untaken { Untaken rate job.old job.new }
    ensures bad { rate ≡ Rate.Bad → result ≡ Ok 0 }
{
    match rate {
        Rate::NoRate => fill(from, job),
        Rate::Cents(_) => fill(from, job),
        Rate::Bad => Ok(0),
    }
}

// Reads as many bytes as decide any job: what follows them changes nothing of the listing (`cutlist_decided`, crate job_listing).
fn main(rt: HostRuntime) -> io::Result<ExitCode> {
    let mut job = [0u8; DECIDES];
    let mut work = [0u32; LENGTH];
    let mut tray = [0u8; TRAY];
    let mut text = [0u8; TEXT];
    let rate = rate_given(&rt);
    let n = read_job(&mut rt.stdin(), rate, &mut job)?;
    let a = list_job(&job[..n], rate, &mut work, &mut tray, &mut text);
    say(&rt, &text, a)
}
