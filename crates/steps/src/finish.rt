// Finishing: one record, or all in rising order, stepped until done; it ends where a step is full.
ghost use Rattle.std.specs.Prelude.{◌≡◌};
ghost use Rattle.store.specs.Words.{view};
ghost use Rattle.acts.specs.Step.{outcome};
ghost use Rattle.acts.specs.Finish.{finish_record, finish_w};
ghost use Rattle.acts.specs.Finishable.{MayFinish};
ghost use Rattle.turns.specs.Form.{raised, geometry_of};
ghost use Rattle.steps.specs.Code.{error_is, end_is};

use crate::coming::step_coming;
use crate::glide::glide;
use crate::{RingsFull, StepError};
use job::Job;
use store::{Col, get};

// Record i stepped until a step is refused: out of turn, since it is done, or full. No index is counted: the measure is of places, rings and walk left.
pub fn finish_record(w: &mut [u32], i: usize) -> StepError
    requires { MayFinish (geometry_of (view w.old)) raised w.old }
    ensures { outcome (error_is result) w.new ≡ finish_record (geometry_of (view w.old)) raised w.old i }
{
    loop {
        let c = glide(w, i);
        if let Err(e) = step_coming(w, i, c) {
            return e;
        }
    }
}

// Every record in rising order, offcuts as they come: done, or full.
pub fn finish_records(w: &mut [u32]) -> Result<(), RingsFull>
    requires { MayFinish (geometry_of (view w.old)) raised w.old }
    ensures { end_is result w.new ≡ finish_w (geometry_of (view w.old)) raised w.old }
{
    for i in 0..Job::RECORDS {
        if get(w, Col::Records, 0) <= i {
            return Ok(());
        }
        if finish_record(w, i) == StepError::Full {
            return Err(RingsFull);
        }
    }
    Ok(())
}
