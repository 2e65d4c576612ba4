// How many bytes of its input decide a job, whatever follows them.
#![tactic(auto)]

ghost use Rattle.std.specs.Prelude.{◌≡◌};
ghost use Rattle.prefix.specs.Decides as decides;

use job::Job;

// A reader may take this much of its input and no more: settings once, as many of each other field as there may be, and one point's field.
pub const DECIDES: usize = 4
    + 21 * Job::POINTS
    + 8 * Job::RECORDS
    + 5 * Job::SEGMENTS
    + 7 * Job::JOINS
    + 21;

// The number that definitions cite is the code's.
fn number_agrees()
    ensures { DECIDES ≡ decides.DECIDES }
{}
