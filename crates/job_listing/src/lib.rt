// The listing of a job, from its bytes: finishing it in one call, then its answer and tray as text, with the charge at a rate.
#![tactic(auto)]

ghost use Rattle.std.specs.Prelude.{◌≡◌, length};
ghost use Rattle.job.specs.Refusal.{number_of};
ghost use Rattle.rates.specs.Rate.{asked};
ghost use Rattle.finishing.specs.InOneCall.{finish_of};
ghost use Rattle.listing.specs.Lines.{refused_line};
ghost use Rattle.listing.specs.Told.{told, tell};
ghost use Rattle.listing.specs.Needs.{Listable, Summable};
ghost use Rattle.job_listing.specs.Cutlist.{paths_at, listed_job, listed_out, listed_by, list_job_of};

use finishing::finish::finish;
use job::refusal::Refusal;
use listing::charge::charged;
use paths::reverse_solution;
use rates::{Rate, asked};
use store::LENGTH;

// The line of a refusal.
fn refused(x: Refusal, out: &mut [u8]) -> Option<usize>
    ensures { told result out.new ≡ tell (refused_line (number_of x)) out.old }
{
    let k = x.number();
    listing::refusal(k, out)
}

// The lines of an accepted job's tray, under a setting of `reverse_solution`, at a rate that is as asked.
fn list_paths(
    tray: &[u8],
    closed: usize,
    opened: usize,
    rev: bool,
    rate: Rate,
    out: &mut [u8],
) -> Option<usize>
    requires fact_1 { Listable closed opened tray.now }
    requires fact_2 { Summable tray.now closed }
    requires fact_3 { asked rate ≡ rate }
    ensures { told result out.new ≡ tell (paths_at rate rev closed opened tray.now) out.old }
{
    match rate {
        Rate::NoRate => listing::listing(tray, closed, opened, rev, out),
        Rate::Cents(n) => charged(tray, closed, opened, rev, n, out),
        Rate::Bad => refused(Refusal::BadRate, out),
    }
}

// The job finished in one call, and listed under the setting that finishing left in the work space.
fn list_finished(
    bytes: &[u8],
    rate: Rate,
    work: &mut [u32],
    tray: &mut [u8],
    out: &mut [u8],
) -> Option<usize>
    requires { asked rate ≡ rate }
    ensures { listed_job (told result out.new) work.new tray.new ≡ listed_out rate (finish_of bytes.now work.old tray.old) out.old }
{
    match finish(bytes, work, tray) {
        Ok(p) => {
            let rev = reverse_solution(work);
            list_paths(tray, p.closed, p.open, rev, rate, out)
        }
        Err(x) => refused(x, out),
    }
}

// By the rate that is asked for. A bad one is refused before the job is looked at.
fn list_at(
    bytes: &[u8],
    rate: Rate,
    work: &mut [u32],
    tray: &mut [u8],
    out: &mut [u8],
) -> Option<usize>
    ensures { listed_job (told result out.new) work.new tray.new ≡ listed_by (asked rate) bytes.now work.old tray.old out.old }
{
    let at = asked(rate);
    match at {
        Rate::NoRate => list_finished(bytes, Rate::NoRate, work, tray, out),
        Rate::Cents(n) => list_finished(bytes, Rate::Cents(n), work, tray, out),
        Rate::Bad => refused(Refusal::BadRate, out),
    }
}

// The listing of a job, in a lent slice: the answer, every word and every byte left. `listing::TEXT` bytes are always room enough (`cutlist_fits`), and the first
// `prefix::DECIDES` bytes of an input are enough (`cutlist_decided`). A work space that is too short is refused first of all, then a bad rate, then the job.
pub fn list_job(
    bytes: &[u8],
    rate: Rate,
    work: &mut [u32],
    tray: &mut [u8],
    out: &mut [u8],
) -> Option<usize>
    ensures { listed_job (told result out.new) work.new tray.new ≡ list_job_of rate bytes.now work.old tray.old out.old }
{
    if work.len() < LENGTH {
        return list_finished(bytes, Rate::NoRate, work, tray, out);
    }
    list_at(bytes, rate, work, tray, out)
}
