// Where each record of a job went, from its bytes: finishing it in one call, then a line for each record with the reason that `reason_of` tells.
#![tactic(auto)]

ghost use Rattle.std.specs.Prelude.{◌≡◌, ◌++◌};
ghost use Rattle.store.specs.Words.{view};
ghost use Rattle.telling.specs.Telling.{reason_at};
ghost use Rattle.text.specs.Pour.{poured, pour};
ghost use Rattle.text.specs.Text.{decimal};
ghost use Rattle.listing.specs.Told.{told, tell};
ghost use Rattle.job_listing.specs.Cutlist.{listed_job};
ghost use Rattle.job_reasons.specs.Room as lines;
ghost use Rattle.job_reasons.specs.Lines.{outline_text, why_text, line_of, reasons_text};
ghost use Rattle.job_reasons.specs.Needs.{Tellable, TellableAt};
ghost use Rattle.job_reasons.specs.Reasons.{tell_job_of};

use finishing::finish::finish;
use job::Job;
use store::{Col, get};
use telling::{Reason, reason_of};
use text::{put, put_decimal, put_text};

// A slice of so many bytes has room for the text of any job.
pub const TEXT: usize = 53 * Job::RECORDS;

// The number that definitions cite is the code's.
fn text_agrees()
    ensures { TEXT ≡ lines.TEXT }
{}

// ---- a line

// Words, and a number.
fn put_numbered(out: &mut [u8], at: usize, words: &[u8], n: usize) -> usize
    ensures { poured result out.new ≡ pour (words.now ++ decimal n) at out.old }
{
    let a = put_text(out, at, words);
    put_decimal(out, a, n as u64)
}

// The list and the place of a path that was written.
fn put_outline(out: &mut [u8], at: usize, opened: bool, place: usize) -> usize
    ensures { poured result out.new ≡ pour (outline_text opened place) at out.old }
{
    if opened {
        return put_numbered(out, at, b"open outline ", place);
    }
    put_numbered(out, at, b"closed outline ", place)
}

// A reason.
fn put_why(out: &mut [u8], at: usize, x: Reason) -> usize
    ensures { poured result out.new ≡ pour (why_text x) at out.old }
{
    match x {
        Reason::NoRing => put_text(out, at, b"no ring in the job"),
        Reason::Joined(taker) => put_numbered(out, at, b"joined into record ", taker),
        Reason::SmallRing => put_text(out, at, b"too small to begin with"),
        Reason::RingFell => put_text(out, at, b"too little left once points were removed"),
        Reason::SmallArea => put_text(out, at, b"area under 2 at a crossing"),
        Reason::ShortPath => put_text(out, at, b"too few points left for an outline"),
        Reason::SmallPath => put_text(out, at, b"too small for an outline"),
        Reason::Written { open, place } => put_outline(out, at, open, place),
    }
}

// Record i's line.
fn put_line(out: &mut [u8], at: usize, i: usize, x: Reason) -> usize
    ensures { poured result out.new ≡ pour (line_of i x) at out.old }
{
    let a = put_numbered(out, at, b"record ", i);
    let b = put_text(out, a, b": ");
    let c = put_why(out, b, x);
    put(out, c, b'\n')
}

// ---- a work space

// The line of one of its records. The call is never refused here.
fn put_record(w: &[u32], i: usize, out: &mut [u8], at: usize) -> usize
    requires { TellableAt w.now i }
    ensures { poured result out.new ≡ pour (line_of i (reason_at (view w.now) i)) at out.old }
{
    match reason_of(w, i as u32) {
        Ok(x) => put_line(out, at, i, x),
        Err(_) => at,
    }
}

// The lines of all of them.
fn put_records(w: &[u32], out: &mut [u8]) -> usize
    requires { Tellable w.now }
    ensures { poured result out.new ≡ pour (reasons_text (view w.now)) 0 out.old }
{
    let n = get(w, Col::Records, 0);
    let mut k: usize = 0;
    for i in 0..n {
        k = put_record(w, i, out, k);
    }
    k
}

fn tell_records(w: &[u32], out: &mut [u8]) -> Option<usize>
    requires { Tellable w.now }
    ensures { told result out.new ≡ tell (reasons_text (view w.now)) out.old }
{
    let k = put_records(w, out);
    if k <= out.len() { Some(k) } else { None }
}

// ---- a job

// Where each record of a job went, in a lent slice: the answer, every word and every byte left. `TEXT` bytes are always room enough (`reasons_fit`), the first `prefix::DECIDES`
// bytes of an input are enough (`reasons_decided`), and each line tells the rule that in fact ended the ring (`in_fact`).
pub fn tell_job(job: &[u8], work: &mut [u32], tray: &mut [u8], text: &mut [u8]) -> Option<usize>
    ensures { listed_job (told result text.new) work.new tray.new ≡ tell_job_of job.now work.old tray.old text.old }
{
    match finish(job, work, tray) {
        Ok(_) => tell_records(work, text),
        Err(x) => listing::refusal(x.number(), text),
    }
}
