// The entry points for C and Rust: the same calls, answering 0 or the refusal's number; the listing; rewriting; laying two drawings together; telling a record's reason; which shape lies in which; mending a job's backward links; and the records in a window.
#![tactic(auto)]

ghost use Rattle.std.specs.Prelude.{◌≡◌, ◌<◌, length};
ghost use Rattle.store.specs.Field.{LENGTH};
ghost use Rattle.outline.specs.Calls.{text_short, worked, wrote, finished, listing, pairs, found_in, window, open_c, step_c, keep_c, back_c, drop_c, lay_c, write_c, finish_c, list_c, rewrite_c, reason_c, contained_c, mended_job, mend_c, records_c};

use answers::{
    found_number, listed_bytes, opened_number, rate_from, reply_number, rewritten_number,
    told_number, written_number,
};
use containment::contained;
use finishing::finish::finish;
use finishing::{open, step, write_out};
use geometry::Rect;
use job_listing::list_job;
use laying::lay_together;
use listing::TEXT;
use mending::mend;
use rewriting::rewrite;
use states::{drop, go_back, keep};
use store::LENGTH;
use telling::reason_of;
use windows::records_in;

// ---- the calls

// The fixed length of a work space, in words.
pub fn outline_work_words() -> u64
    ensures { result ≡ LENGTH }
{
    LENGTH as u64
}

// Opens a job.
pub fn outline_open(job: &[u8], work: &mut [u32]) -> u32
    ensures { worked result work.new ≡ open_c job.now work.old }
{
    let a = open(job, work);
    opened_number(a)
}

// A step on a record.
pub fn outline_step(work: &mut [u32], number: u32) -> u32
    ensures { worked result work.new ≡ step_c work.old number }
{
    let a = step(work, number);
    reply_number(a)
}

// Keeps the live state under a name.
pub fn outline_keep(work: &mut [u32], name: u8) -> u32
    ensures { worked result work.new ≡ keep_c work.old name }
{
    let a = keep(work, name);
    reply_number(a)
}

// Goes back to the state that a name keeps.
pub fn outline_go_back(work: &mut [u32], name: u8) -> u32
    ensures { worked result work.new ≡ back_c work.old name }
{
    let a = go_back(work, name);
    reply_number(a)
}

// Drops a name.
pub fn outline_drop(work: &mut [u32], name: u8) -> u32
    ensures { worked result work.new ≡ drop_c work.old name }
{
    let a = drop(work, name);
    reply_number(a)
}

// Lays the second's drawing beside the first's, in the first's work space. The second's is only read.
pub fn outline_lay_together(first: &mut [u32], second: &[u32]) -> u32
    ensures { worked result first.new ≡ lay_c first.old second.now }
{
    let a = lay_together(first, second);
    reply_number(a)
}

// Writes all paths into the tray.
pub fn outline_write(work: &[u32], tray: &mut [u8]) -> u32
    ensures { wrote result tray.new ≡ write_c work.now tray.old }
{
    let a = write_out(work, tray);
    written_number(a)
}

// Finishes a job in one call.
pub fn outline_finish(job: &[u8], work: &mut [u32], tray: &mut [u8]) -> u32
    ensures { finished result work.new tray.new ≡ finish_c job.now work.old tray.old }
{
    let a = finish(job, work, tray);
    written_number(a)
}

// Whether the work space is long enough and the text too short for some job's listing.
fn text_short(words: usize, bytes: usize) -> bool
    ensures { result ≡ text_short words bytes }
{
    (LENGTH <= words) & (bytes < TEXT)
}

// Finishes a job and lists it, with the charge unless the rate is 0. A work space that is too short is refused first; then a text shorter than `TEXT` is left as found, and so is all else.
pub fn outline_list(
    job: &[u8],
    work: &mut [u32],
    tray: &mut [u8],
    rate: u32,
    text: &mut [u8],
) -> u64
    ensures { listing result work.new tray.new text.new ≡ list_c job.now work.old tray.old rate text.old }
{
    let short = text_short(work.len(), text.len());
    if short {
        return 0;
    }
    let given = rate_from(rate);
    let a = list_job(job, given, work, tray, text);
    listed_bytes(a)
}

// Writes a job the one way.
pub fn outline_rewrite(job: &[u8], work: &mut [u32], tray: &mut [u8]) -> u64
    ensures { finished result work.new tray.new ≡ rewrite_c job.now (length work.old) (length tray.old) }
{
    let a = rewrite(job, work, tray);
    rewritten_number(a)
}

// Why a record has an outline, or none. The work space is only read.
pub fn outline_reason(work: &[u32], number: u32) -> u64
    ensures { result ≡ reason_c work.now number }
{
    let a = reason_of(work, number);
    told_number(a)
}

// Finishes a job in one call, and answers for every ordered pair of its closed paths whether the second contains the first.
pub fn outline_contained(job: &[u8], work: &mut [u32], tray: &mut [u8], answers: &mut [u8]) -> u32
    ensures { pairs result work.new tray.new answers.new ≡ contained_c job.now work.old tray.old (length answers.old) }
{
    let a = contained(job, work, tray, answers);
    written_number(a)
}

// Mends a job's backward links, in its bytes.
pub fn outline_mend(job: &mut [u8]) -> u32
    ensures { mended_job result job.new ≡ mend_c job.old }
{
    let a = mend(job);
    reply_number(a)
}

// The records whose boxes meet a window, into the list. The work space is only read.
pub fn outline_records_in(
    work: &[u32],
    left: i32,
    top: i32,
    right: i32,
    bottom: i32,
    list: &mut [u32],
) -> u64
    ensures { found_in result list.new ≡ records_c work.now (window left top right bottom) list.old }
{
    let v = Rect {
        left,
        top,
        right,
        bottom,
    };
    let a = records_in(work, v, list);
    found_number(a)
}
