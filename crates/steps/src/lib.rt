// Steps carried out: an act that `turns` decided, applied as a list of writes; and records stepped until they are done.
#![tactic(auto)]

ghost use Rattle.std.specs.Prelude.{◌≡◌};
ghost use Rattle.job.specs.declared.refusal.Refusal.TheVariants.{Full};
ghost use Rattle.steps.specs.Code.{refusal_is};

use job::refusal::Refusal;

// What a step on a record is refused with: 10, or 12.
#[derive(Clone, Copy, PartialEq, Eq)]
pub enum StepError {
    Full,
    OutOfTurn,
}

impl From<StepError> for Refusal {
    ghost from_gives = { λ e x. x ≡ refusal_is e };

    fn from(e: StepError) -> Refusal {
        match e {
            StepError::Full => Refusal::Full,
            StepError::OutOfTurn => Refusal::OutOfTurn,
        }
    }
}

// Finishing all rings met a step that was refused with 10.
#[derive(Clone, Copy, PartialEq, Eq)]
pub struct RingsFull;

impl From<RingsFull> for Refusal {
    ghost from_gives = { λ e x. x ≡ Full };

    fn from(_e: RingsFull) -> Refusal {
        Refusal::Full
    }
}

mod coming;
pub mod finish;
mod glide;
pub mod step;
