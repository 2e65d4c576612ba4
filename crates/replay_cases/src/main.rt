// Replays the stored jobs on standard input through `list_job`, with no Rust at hand, and prints each case's name, listing and tray: first document 01's bench
// examples, then the other stored answers, then the jobs at the limits, then those with a rate. A case is two lines, `case NAME` and `job HEX`; between them a
// line `at "ARGUMENT"` may say the rate. In the job a space begins a field, and `+N` after it is N more of it (see `again`). `tests/replay_cases ORACLE
// crates/replay_cases` makes both files from what the real Rust answers.
#![tactic(auto)]

ghost use Rattle.std.specs.Prelude.{◌<◌};

use job::Job;
use job_listing::list_job;
use listing::TEXT;
use paths::TRAY;
use prefix::DECIDES;
use rates::{Rate, rate_in};
use std::io;
use store::LENGTH;
use streams::fill;
use test_text::words::end_of;
use test_text::{byte, first, from, further, number_at, put, words};

fn back(at: usize, n: usize) -> usize {
    at.saturating_sub(n)
}

// Writes the first n bytes.
fn say<R: Print>(rt: &R, s: &[u8], n: usize) -> io::Result<()> {
    rt.write_all(first(s, n))
}

// The line at a place, which ends at another.
fn say_line<R: Print>(rt: &R, s: &[u8], at: usize, end: usize) -> io::Result<()> {
    if at <= end {
        say(rt, from(s, at), end - at)?;
    }
    println!(rt)
}

// The number of a hexadecimal digit.
fn value(digit: u8) -> u8
    ensures { result < 16 }
{
    if digit <= b'9' {
        return digit % 16;
    }
    (digit % 16 + 9) % 16
}

fn digit(v: u8) -> u8 {
    b"0123456789abcdef"[(v % 16) as usize]
}

// The byte whose two digits stand at a place.
fn pair(s: &[u8], at: usize) -> u8 {
    let high = value(byte(s, at));
    let low = value(byte(s, further(at, 1)));
    high * 16 + low
}

// The number of two bytes at a place, one higher.
fn raise(job: &mut [u8], at: usize) {
    let low = byte(job, at);
    if low < 255 {
        put(job, at, low + 1);
        return;
    }
    put(job, at, 0);
    let high = byte(job, further(at, 1));
    if high < 255 {
        put(job, further(at, 1), high + 1);
    }
}

// The bytes before a place once more.
fn double(job: &mut [u8], at: usize, size: usize) {
    let mut i = at;
    for _ in 0..size {
        let v = byte(job, back(i, size));
        put(job, i, v);
        i = further(i, 1);
    }
}

// The field before a place once more; a point's next and prev are one higher.
fn again(job: &mut [u8], at: usize, size: usize) -> usize {
    double(job, at, size);
    if size == 21 {
        raise(job, further(at, 11));
        raise(job, further(at, 13));
        return further(at, size);
    }
    further(at, size)
}

fn repeat(job: &mut [u8], n: usize, size: usize, times: usize) -> usize {
    let mut at = n;
    for _ in 0..times {
        at = again(job, at, size);
    }
    at
}

// Where the last field begins, n bytes being there.
fn begun(b: u8, start: usize, n: usize) -> usize {
    if b == b' ' {
        return n;
    }
    start
}

// How many bytes there are after what stands at a place.
fn taken(s: &[u8], at: usize, start: usize, job: &mut [u8], n: usize) -> usize {
    let b = byte(s, at);
    if b == b' ' {
        return n;
    }
    if b == b'+' {
        return repeat(
            job,
            n,
            back(n, start),
            words::digits(s, further(at, 1)) as usize,
        );
    }
    put(job, n, pair(s, at));
    further(n, 1)
}

fn past(s: &[u8], at: usize) -> usize {
    let b = byte(s, at);
    if b == b' ' {
        return further(at, 1);
    }
    if b == b'+' {
        return end_of(s, at, b' ');
    }
    further(at, 2)
}

// The job that stands at a place, and how many bytes it has.
fn decode(s: &[u8], at: usize, job: &mut [u8]) -> usize {
    let mut i = at;
    let mut start: usize = 0;
    let mut n: usize = 0;
    for _ in 0..100000 {
        let b = byte(s, i);
        if b <= b'\n' {
            return n;
        }
        start = begun(b, start, n);
        n = taken(s, i, start, job, n);
        i = past(s, i);
    }
    n
}

// The length of the field at a place, header and value.
fn field(tray: &[u8], at: usize) -> usize {
    further(number_at(tray, further(at, 1)), 3)
}

// How many bytes the tray's fields have: the first tag 0 comes after them.
fn used(tray: &[u8]) -> usize {
    let mut at: usize = 0;
    for _ in 0..Job::RECORDS {
        if byte(tray, at) == 0 {
            return at;
        }
        at = further(at, field(tray, at));
    }
    at
}

// The first n bytes in hexadecimal digits, and how many digits there are.
fn digits(tray: &[u8], n: usize, line: &mut [u8]) -> usize {
    let mut at: usize = 0;
    for &v in first(tray, n) {
        put(line, at, digit(v / 16));
        put(line, further(at, 1), digit(v));
        at = further(at, 2);
    }
    at
}

// The tray's fields.
fn say_tray<R: Print>(rt: &R, tray: &[u8], line: &mut [u8]) -> io::Result<()> {
    let n = digits(tray, used(tray), line);
    print!(rt; "tray ")?;
    say(rt, line, n)?;
    print!(rt; "\n\n")
}

// One job: its listing, then its tray.
fn replay<R: Print>(
    rt: &R,
    job: &[u8],
    rate: Rate,
    work: &mut [u32],
    tray: &mut [u8],
    text: &mut [u8],
) -> io::Result<()> {
    if let Some(m) = list_job(job, rate, work, tray, text) {
        say(rt, text, m)?;
    }
    say_tray(rt, tray, text)
}

// The job at a place, at a rate, and the place after it.
fn replay_at<R: Print>(
    rt: &R,
    s: &[u8],
    at: usize,
    rate: Rate,
    job: &mut [u8],
    work: &mut [u32],
    tray: &mut [u8],
    text: &mut [u8],
) -> io::Result<usize> {
    let n = decode(s, at, job);
    replay(rt, first(job, n), rate, work, tray, text)?;
    Ok(further(end_of(s, at, b'\n'), 1))
}

// The rate that a line `at "ARGUMENT"` says, which stands at a place and ends at another.
fn rate_at(s: &[u8], at: usize, end: usize) -> Rate {
    let begin = further(at, 4);
    rate_in(first(from(s, begin), back(end, further(begin, 1))))
}

// The case at a place, and the place after it.
fn one<R: Print>(
    rt: &R,
    s: &[u8],
    at: usize,
    job: &mut [u8],
    work: &mut [u32],
    tray: &mut [u8],
    text: &mut [u8],
) -> io::Result<usize> {
    let end = end_of(s, at, b'\n');
    say_line(rt, s, at, end)?;
    let second = further(end, 1);
    if byte(s, second) == b'a' {
        let stop = end_of(s, second, b'\n');
        say_line(rt, s, second, stop)?;
        let rate = rate_at(s, second, stop);
        return replay_at(rt, s, further(stop, 5), rate, job, work, tray, text);
    }
    replay_at(
        rt,
        s,
        further(second, 4),
        Rate::NoRate,
        job,
        work,
        tray,
        text,
    )
}

// Every case.
fn run<R: Print>(
    rt: &R,
    s: &[u8],
    job: &mut [u8],
    work: &mut [u32],
    tray: &mut [u8],
    text: &mut [u8],
) -> io::Result<()> {
    let mut at: usize = 0;
    for _ in 0..1000 {
        if byte(s, at) == 0 {
            return Ok(());
        }
        at = one(rt, s, at, job, work, tray, text)?;
    }
    Ok(())
}

fn main(rt: HostRuntime) -> io::Result<()> {
    let mut input = [0u8; 400000];
    let mut job = [0u8; DECIDES];
    let mut work = [0u32; LENGTH];
    let mut tray = [0u8; TRAY];
    let mut text = [0u8; TEXT];
    let n = fill(&mut rt.stdin(), &mut input)?;
    run(&rt, &input[..n], &mut job, &mut work, &mut tray, &mut text)
}
