// A step on a record, and the boxes that it leaves beside the rings: the ring is walked again only where its box may have changed.
#![tactic(auto)]

ghost use Rattle.std.specs.Prelude.{◌≡◌};
ghost use Rattle.store.specs.Boxes.{boxed_at};
ghost use Rattle.turns.specs.Reads.{Steps};
ghost use Rattle.acts.specs.Step.{outcome};
ghost use Rattle.steps.specs.Code.{answer_is};
ghost use Rattle.handed.specs.Handed.{Usable};
ghost use Rattle.boxed_steps.specs.Leaves.{boxed_step};
ghost use Rattle.boxed_steps.specs.Needs.{Unchanged, Boxable};

use bounds::box_record;
use steps::StepError;
use steps::step::{is_live, step_ring};
use store::{Col, get};

// Record i has its ring's box, which is there already unless it may have changed.
fn box_changed(w: &mut [u32], i: usize, changes: bool)
    requires { Boxable w.old × Unchanged w.old i changes }
    ensures { w.new ≡ boxed_at w.old i }
{
    if changes {
        box_record(w, i);
        return;
    }
}

// After a step on record i of n records: its box, and that of the record that a cut made.
fn box_stepped(w: &mut [u32], i: usize, n: usize, changes: bool)
    requires { Boxable w.old × Unchanged w.old i changes }
    ensures { w.new ≡ boxed_at (boxed_at w.old i) n }
{
    box_changed(w, i, changes);
    box_record(w, n);
}

// A step on an unfinished closed ring.
fn step_boxed(w: &mut [u32], i: usize) -> Result<(), StepError>
    requires { Usable w.old × Steps w.old i }
    ensures { outcome (answer_is result) w.new ≡ boxed_step w.old i }
{
    let n = get(w, Col::Records, 0);
    let changes = step_ring(w, i)?;
    box_stepped(w, i, n, changes);
    Ok(())
}

// A step on any record number.
pub fn step_record(w: &mut [u32], i: usize) -> Result<(), StepError>
    requires { Usable w.old }
    ensures { outcome (answer_is result) w.new ≡ boxed_step w.old i }
{
    if is_live(w, i) {
        return step_boxed(w, i);
    }
    Err(StepError::OutOfTurn)
}
