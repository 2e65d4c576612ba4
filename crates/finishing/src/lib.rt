// The public entry points: opening, a step, and writing out. No function of this file that is `pub` has a `requires`.
#![tactic(auto)]

pub mod finish;

ghost use Rattle.std.specs.Prelude.{◌≡◌, ◌+◌, ◌<◌, Ok};
ghost use Rattle.store.specs.Good.{SoundWords};
ghost use Rattle.handed.specs.Handed.{Usable};
ghost use Rattle.paths.specs.Wrote.{wrote};
ghost use Rattle.opening.specs.Open.{end, open_of};
ghost use Rattle.audit.specs.Left.{left};
ghost use Rattle.finishing.specs.Step.{step_by, step_of};
ghost use Rattle.finishing.specs.Write.{write_by, write_of};

use boxed_steps::step_record;
use handed::handed;
use job::refusal::Refusal;
use paths::{Written, build_paths64};
use steps::step::any_live;

// ---- opening

// Opens a job: its answer, and every word left.
pub fn open(bytes: &[u8], work: &mut [u32]) -> Result<(), Refusal>
    ensures { end result work.new ≡ open_of bytes.now work.old }
{
    opening::open::open(bytes, work)
}

// ---- a step

// A step on a work space that passed the tests.
fn step_tested(work: &mut [u32], i: usize) -> Result<(), Refusal>
    requires { Usable work.old }
    ensures { left result work.new ≡ step_by (Ok tt) work.old i }
{
    step_record(work, i)?;
    Ok(())
}

// A step on a record number: its answer, and every word left.
pub fn step(work: &mut [u32], number: u32) -> Result<(), Refusal>
    ensures { left result work.new ≡ step_of work.old number }
{
    handed(work)?;
    step_tested(work, number as usize)
}

// ---- writing out

// Writing out a work space that passed the tests.
fn write_tested(work: &[u32], tray: &mut [u8]) -> Result<Written, Refusal>
    requires { SoundWords work.now }
    ensures { wrote result tray.new ≡ write_by (Ok tt) work.now tray.old }
{
    if any_live(work) {
        return Err(Refusal::OutOfTurn);
    }
    build_paths64(work, tray)
}

// All paths into the tray: the answer, and every byte left.
pub fn write_out(work: &[u32], tray: &mut [u8]) -> Result<Written, Refusal>
    ensures { wrote result tray.new ≡ write_of work.now tray.old }
{
    handed(work)?;
    write_tested(work, tray)
}
