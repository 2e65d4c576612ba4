// Finishing in one call: opening, every ring stepped until it is done, the boxes, writing out.
ghost use Rattle.std.specs.Prelude.{◌≡◌, length};
ghost use Rattle.store.specs.Words.{view};
ghost use Rattle.store.specs.Good.{SoundWords};
ghost use Rattle.store.specs.Boxes.{all_boxed};
ghost use Rattle.paths.specs.Wrote.{build_paths64};
ghost use Rattle.finishing.specs.Start.{Start};
ghost use Rattle.finishing.specs.Finish.{finish_rings};
ghost use Rattle.finishing.specs.InOneCall.{finished, refused, after_writing, after_steps, finish_of};

use bounds::box_records;
use job::refusal::Refusal;
use opening::clear::clear;
use opening::open::open_unboxed;
use paths::{Written, build_paths64};
use steps::finish::finish_records;

// A refusal leaves zeros only.
fn refuse(x: Refusal, work: &mut [u32], tray: &mut [u8]) -> Result<Written, Refusal>
    ensures { finished result work.new tray.new ≡ refused x (length work.old) (length tray.old) }
{
    clear(work);
    paths::clear(tray);
    Err(x)
}

// The paths of rings that are done.
fn write_finished(work: &mut [u32], tray: &mut [u8]) -> Result<Written, Refusal>
    requires { SoundWords work.old }
    ensures { finished result work.new tray.new ≡ after_writing work.old (build_paths64 (view work.old) tray.old).answer (build_paths64 (view work.old) tray.old).tray }
{
    match build_paths64(work, tray) {
        Ok(p) => Ok(p),
        Err(x) => refuse(x, work, tray),
    }
}

// Every ring stepped until it is done, in rising record order; then the boxes, which are not there before, and the paths.
fn finish_opened(work: &mut [u32], tray: &mut [u8]) -> Result<Written, Refusal>
    requires { Start (all_boxed work.old) }
    ensures { finished result work.new tray.new ≡ after_steps (finish_rings (all_boxed work.old)) tray.old }
{
    match finish_records(work) {
        Ok(()) => {
            box_records(work);
            write_finished(work, tray)
        }
        Err(e) => refuse(e.into(), work, tray),
    }
}

// Finishes a job in one call: the answer, every word and every byte left. Boxes that opening would write are written over at the end, so it writes none.
pub fn finish(bytes: &[u8], work: &mut [u32], tray: &mut [u8]) -> Result<Written, Refusal>
    ensures { finished result work.new tray.new ≡ finish_of bytes.now work.old tray.old }
{
    match open_unboxed(bytes, work) {
        Ok(()) => finish_opened(work, tray),
        Err(x) => refuse(x, work, tray),
    }
}
