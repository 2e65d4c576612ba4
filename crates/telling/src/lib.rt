// Where a record's ring went: one of eight reasons, told of a work space whose closed rings are all done. `reason_of` has no `requires`.
#![tactic(auto)]

ghost use Rattle.std.specs.Prelude.{◌≡◌, ◌<◌, ◌≤◌, length, Ok};
ghost use Rattle.job.specs.Limits as limit;
ghost use Rattle.store.specs.Field.{rc, REASON, TAKER, BLOCK};
ghost use Rattle.store.specs.Words.{view};
ghost use Rattle.store.specs.Good.{SoundWords};
ghost use Rattle.paths.specs.Walking.{Known};
ghost use Rattle.telling.specs.Telling.{kept_reason, path_reason, reason_at, reason_by, reason_of};

use handed::handed;
use job::refusal::Refusal;
use paths::{NoPath, is_open, path_end, paths_below, reverse_solution};
use steps::step::any_live;
use store::{AT_SPLIT, AT_VALIDITY, Col, JOINED, NONE, WHILE_REMOVING, get};

// The eight: no ring in the job; joined into another record; discarded, by the validity test, while points were removed, at a split; no path, which was too short or too small; a path, at a
// place of its list.
#[derive(Clone, Copy)]
pub enum Reason {
    NoRing,
    Joined(usize),
    SmallRing,
    RingFell,
    SmallArea,
    ShortPath,
    SmallPath,
    Written { open: bool, place: usize },
}

// Of a record without a ring: what it keeps. The reasons are words of the work space, which C hands over; a From of a word could not name the taker.
fn kept_reason(w: &[u32], i: usize) -> Reason
    requires { (BLOCK ≤ length w.now) × (i < limit.RECORDS) }
    ensures { result ≡ kept_reason (view w.now (rc REASON) i) (view w.now (rc TAKER) i) }
{
    let v = get(w, Col::Reason, i);
    if v == JOINED {
        let t = get(w, Col::Taker, i);
        return Reason::Joined(t);
    }
    if v == AT_VALIDITY {
        return Reason::SmallRing;
    }
    if v == WHILE_REMOVING {
        return Reason::RingFell;
    }
    if v == AT_SPLIT {
        return Reason::SmallArea;
    }
    Reason::NoRing
}

// Of a record with a ring: how building its path ends.
fn path_reason(w: &[u32], i: usize) -> Reason
    requires { Known w.now i }
    ensures { result ≡ path_reason (view w.now) i }
{
    let rev = reverse_solution(w);
    let open = is_open(w, i);
    let e = path_end(w, rev, open, i);
    let place = paths_below(w, rev, open, i);
    match e {
        Ok(_) => Reason::Written { open, place },
        Err(why) => match why {
            NoPath::Short => Reason::ShortPath,
            NoPath::Small => Reason::SmallPath,
        },
    }
}

fn reason_at(w: &[u32], i: usize) -> Reason
    requires { Known w.now i }
    ensures { result ≡ reason_at (view w.now) i }
{
    let f = get(w, Col::First, i);
    if f == NONE {
        return kept_reason(w, i);
    }
    path_reason(w, i)
}

// Of a work space that passed the tests.
fn reason_tested(w: &[u32], i: usize) -> Result<Reason, Refusal>
    requires { SoundWords w.now }
    ensures { result ≡ reason_by (Ok tt) w.now i }
{
    let n = get(w, Col::Records, 0);
    if n <= i {
        return Err(Refusal::OutOfTurn);
    }
    if any_live(w) {
        return Err(Refusal::OutOfTurn);
    }
    Ok(reason_at(w, i))
}

// Why a record has an outline, or none. The work space is only read.
pub fn reason_of(work: &[u32], number: u32) -> Result<Reason, Refusal>
    ensures { result ≡ reason_of work.now number }
{
    handed(work)?;
    reason_tested(work, number as usize)
}
