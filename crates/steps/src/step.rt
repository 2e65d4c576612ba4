// One step on a record: decided, tested for places, applied.
ghost use Rattle.std.specs.Prelude.{◌≡◌, ◌+◌, ◌<◌, ◌≤◌, length};
ghost use Rattle.lone.specs.Act.{takes_points};
ghost use Rattle.store.specs.Field.{BLOCK};
ghost use Rattle.store.specs.Words.{view};
ghost use Rattle.acts.specs.Apply.{takes_record};
ghost use Rattle.acts.specs.Step.{outcome, fits, live};
ghost use Rattle.acts.specs.Run.{step_words};
ghost use Rattle.store.specs.Good.{SoundWords};
ghost use Rattle.turns.specs.Code.{act_is};
ghost use Rattle.turns.specs.Form.{raised, geometry_of};
ghost use Rattle.turns.specs.Reads.{Steps};
ghost use Rattle.steps.specs.Code.{answer_is};
ghost use Rattle.steps.specs.Foretold.{Foretold};
ghost use Rattle.steps.specs.Live.{any_live};

use crate::StepError;
use applying::apply;
use changes::may_change;
use job::Job;
use store::{Col, NONE, get};
use turns::Act;
use turns::decide::decide;

// How many points an act takes.
fn takes_points(act: Act) -> usize
    ensures { (result ≡ takes_points (act_is act)) × (result ≤ 2) }
{
    match act {
        Act::Stay | Act::Discard(_) | Act::Drop | Act::MoveOn(_) | Act::ToFirst(_) => 0,
        Act::Double(_, _) => 1,
        Act::Cut(_, put, off, _) => usize::from(put) + usize::from(off),
    }
}

// How many records an act takes.
fn takes_record(act: Act) -> usize
    ensures { (result ≡ takes_record (act_is act)) × (result ≤ 1) }
{
    match act {
        Act::Cut(_, _, off, _) => usize::from(off),
        _ => 0,
    }
}

// The test of places left.
fn has_room(w: &[u32], act: Act) -> bool
    requires { BLOCK ≤ length w.now }
    ensures { result ≡ fits (view w.now) (act_is act) }
{
    let p = get(w, Col::Points, 0);
    let r = get(w, Col::Records, 0);
    let a = takes_points(act);
    let b = takes_record(act);
    (p + a <= Job::POINTS) & (r + b <= Job::RECORDS)
}

// A step on an unfinished closed ring. Where it is carried out: whether it may have changed its ring's box.
pub fn step_ring(w: &mut [u32], i: usize) -> Result<bool, StepError>
    requires { Steps w.old i }
    ensures { (outcome (answer_is result) w.new ≡ step_words (geometry_of (view w.old)) raised w.old i) × Foretold w.old i result }
{
    let act = decide(w, i);
    if has_room(w, act) {
        let changes = may_change(w, i, act);
        apply(w, i, act);
        return Ok(changes);
    }
    Err(StepError::Full)
}

// Whether record i is an unfinished closed ring.
pub fn is_live(w: &[u32], i: usize) -> bool
    requires { SoundWords w.now }
    ensures { result ≡ live (view w.now) i }
{
    let n = get(w, Col::Records, 0);
    if n <= i {
        return false;
    }
    let f = get(w, Col::Flags, i);
    if f % 2 == 1 {
        return false;
    }
    let p = get(w, Col::First, i);
    if p == NONE {
        return false;
    }
    let m = get(w, Col::Mark, i);
    m < 4
}

// Whether a closed ring isn't done.
pub fn any_live(w: &[u32]) -> bool
    requires { SoundWords w.now }
    ensures { result ≡ any_live (view w.now) }
{
    (0..get(w, Col::Records, 0)).any(|i| is_live(w, i))
}
