// The step that comes next, as a walk leaves it, and that step: a point that the walk found to be dropped is not tested again.
ghost use Rattle.std.specs.Prelude.{◌≡◌};
ghost use Rattle.lone.specs.Forest.{ok};
ghost use Rattle.store.specs.Words.{view};
ghost use Rattle.store.specs.Good.{SoundWords};
ghost use Rattle.acts.specs.Step.{outcome};
ghost use Rattle.acts.specs.Run.{step_words};
ghost use Rattle.turns.specs.Form.{raised, geometry_of};
ghost use Rattle.steps.specs.Code.{answer_is};
ghost use Rattle.steps.specs.Expects.{Dropping, Expects};

use crate::StepError;
use crate::step::step_ring;
use applying::{discard_ring, drop_point};
use turns::Discard;
use turns::decide::valid_without;

// None, since the record is no unfinished closed ring; one that is to be decided; or the drop of the present point.
#[derive(Clone, Copy)]
pub enum Coming {
    Nothing,
    Step,
    Drop(usize),
}

// The present point x goes out, or the ring with it.
fn drop_at(w: &mut [u32], i: usize, x: usize)
    requires { Dropping w.old i x }
    ensures { outcome ok w.new ≡ step_words (geometry_of (view w.old)) raised w.old i }
{
    if valid_without(w, x) {
        drop_point(w, i);
        return;
    }
    discard_ring(w, i, Discard::WhileRemoving);
}

// The step on record i that comes next.
pub fn step_coming(w: &mut [u32], i: usize, c: Coming) -> Result<(), StepError>
    requires { SoundWords w.old × Expects c w.old i }
    ensures { outcome (answer_is result) w.new ≡ step_words (geometry_of (view w.old)) raised w.old i }
{
    match c {
        Coming::Nothing => Err(StepError::OutOfTurn),
        Coming::Step => {
            step_ring(w, i)?;
            Ok(())
        }
        Coming::Drop(x) => {
            drop_at(w, i, x);
            Ok(())
        }
    }
}
