// What a ring's next step is to do, decided by reading only; the crate `steps` carries it out.
#![tactic(auto)]

use geometry::Point;

// The step due, or done.
#[derive(Clone, Copy)]
pub enum Due {
    Validity,
    Removal,
    Triangle,
    Split,
    Done,
}

// The rule by which a ring is discarded: too small at the validity test; fell invalid while points were removed; area under 2.0 at a split.
#[derive(Clone, Copy)]
pub enum Discard {
    AtValidity,
    WhileRemoving,
    AtSplit,
}

// What a step does, with the step due then.
#[derive(Clone, Copy)]
pub enum Act {
    Stay,
    Discard(Discard),
    Drop,
    MoveOn(Due),
    ToFirst(Due),
    Double(Point, Due),
    // The crossing; is it put into the ring; is there an offcut.
    Cut(Point, bool, bool, Due),
}

pub mod decide;
pub mod ring;
