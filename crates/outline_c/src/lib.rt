// The calls for C and Rust as a static library has them: each export is the function of its name in the crate outline, with its clause.
#![tactic(auto)]

ghost use Rattle.std.specs.Prelude.{◌≡◌, length};
ghost use Rattle.store.specs.Field.{LENGTH};
ghost use Rattle.outline.specs.Calls.{worked, wrote, finished, listing, pairs, found_in, window, open_c, step_c, keep_c, back_c, drop_c, lay_c, write_c, finish_c, list_c, rewrite_c, reason_c, contained_c, mended_job, mend_c, records_c};

// The fixed length of a work space, in words.
#[unsafe(no_mangle)]
pub extern "C" fn outline_work_words() -> u64
    ensures { result ≡ LENGTH }
{
    outline::outline_work_words()
}

// Opens a job.
#[unsafe(no_mangle)]
pub extern "C" fn outline_open(job: &[u8], work: &mut [u32]) -> u32
    ensures { worked result work.new ≡ open_c job.now work.old }
{
    outline::outline_open(job, work)
}

// A step on a record.
#[unsafe(no_mangle)]
pub extern "C" fn outline_step(work: &mut [u32], number: u32) -> u32
    ensures { worked result work.new ≡ step_c work.old number }
{
    outline::outline_step(work, number)
}

// Keeps the live state under a name.
#[unsafe(no_mangle)]
pub extern "C" fn outline_keep(work: &mut [u32], name: u8) -> u32
    ensures { worked result work.new ≡ keep_c work.old name }
{
    outline::outline_keep(work, name)
}

// Goes back to the state that a name keeps.
#[unsafe(no_mangle)]
pub extern "C" fn outline_go_back(work: &mut [u32], name: u8) -> u32
    ensures { worked result work.new ≡ back_c work.old name }
{
    outline::outline_go_back(work, name)
}

// Drops a name.
#[unsafe(no_mangle)]
pub extern "C" fn outline_drop(work: &mut [u32], name: u8) -> u32
    ensures { worked result work.new ≡ drop_c work.old name }
{
    outline::outline_drop(work, name)
}

// Lays the second's drawing beside the first's, in the first's work space. The second's is only read.
#[unsafe(no_mangle)]
pub extern "C" fn outline_lay_together(first: &mut [u32], second: &[u32]) -> u32
    ensures { worked result first.new ≡ lay_c first.old second.now }
{
    outline::outline_lay_together(first, second)
}

// Writes all paths into the tray.
#[unsafe(no_mangle)]
pub extern "C" fn outline_write(work: &[u32], tray: &mut [u8]) -> u32
    ensures { wrote result tray.new ≡ write_c work.now tray.old }
{
    outline::outline_write(work, tray)
}

// Finishes a job in one call.
#[unsafe(no_mangle)]
pub extern "C" fn outline_finish(job: &[u8], work: &mut [u32], tray: &mut [u8]) -> u32
    ensures { finished result work.new tray.new ≡ finish_c job.now work.old tray.old }
{
    outline::outline_finish(job, work, tray)
}

// Finishes a job and lists it, with the charge unless the rate is 0. A work space that is too short is refused first; then a text shorter than `TEXT` is left as found, and so is all else.
#[unsafe(no_mangle)]
pub extern "C" fn outline_list(
    job: &[u8],
    work: &mut [u32],
    tray: &mut [u8],
    rate: u32,
    text: &mut [u8],
) -> u64
    ensures { listing result work.new tray.new text.new ≡ list_c job.now work.old tray.old rate text.old }
{
    outline::outline_list(job, work, tray, rate, text)
}

// Writes a job the one way.
#[unsafe(no_mangle)]
pub extern "C" fn outline_rewrite(job: &[u8], work: &mut [u32], tray: &mut [u8]) -> u64
    ensures { finished result work.new tray.new ≡ rewrite_c job.now (length work.old) (length tray.old) }
{
    outline::outline_rewrite(job, work, tray)
}

// Why a record has an outline, or none. The work space is only read.
#[unsafe(no_mangle)]
pub extern "C" fn outline_reason(work: &[u32], number: u32) -> u64
    ensures { result ≡ reason_c work.now number }
{
    outline::outline_reason(work, number)
}

// Finishes a job in one call, and answers for every ordered pair of its closed paths whether the second contains the first.
#[unsafe(no_mangle)]
pub extern "C" fn outline_contained(
    job: &[u8],
    work: &mut [u32],
    tray: &mut [u8],
    answers: &mut [u8],
) -> u32
    ensures { pairs result work.new tray.new answers.new ≡ contained_c job.now work.old tray.old (length answers.old) }
{
    outline::outline_contained(job, work, tray, answers)
}

// Mends a job's backward links, in its bytes.
#[unsafe(no_mangle)]
pub extern "C" fn outline_mend(job: &mut [u8]) -> u32
    ensures { mended_job result job.new ≡ mend_c job.old }
{
    outline::outline_mend(job)
}

// The records whose boxes meet a window, into the list. The work space is only read.
#[unsafe(no_mangle)]
pub extern "C" fn outline_records_in(
    work: &[u32],
    left: i32,
    top: i32,
    right: i32,
    bottom: i32,
    list: &mut [u32],
) -> u64
    ensures { found_in result list.new ≡ records_c work.now (window left top right bottom) list.old }
{
    outline::outline_records_in(work, left, top, right, bottom, list)
}
