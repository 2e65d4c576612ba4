// `convert_horz_segs_to_joins`: the job's level segments become joins, after the job's own.
ghost use Rattle.std.specs.Prelude.{◌≡◌};
ghost use Rattle.converting.specs.Make.{made, convert_horz_segs_to_joins};
ghost use Rattle.converting.specs.Needs.{Converting};

use crate::pairs;
use job::Job;
use segment_rows::columns::spread;
use segment_rows::sort_rows;
use segments::update;
use store::NONE;

// n segments by their points; m joins of the job's own stand in `joins`, points two by two. How many joins there are then, or none where there is no room for a point (10).
// One segment makes no join: the Rust ends there too, where fewer than two are valid.
pub fn convert_horz_segs_to_joins(
    w: &mut [u32],
    segments: &[u32],
    n: usize,
    joins: &mut [u32],
    m: usize,
) -> Option<usize>
    requires { Converting w.old segments.now n joins.old m }
    ensures { made result w.new joins.new ≡ convert_horz_segs_to_joins w.old n segments.now joins.old m }
{
    if n < 2 {
        return Some(m);
    }
    let list = update::update_segments(w, segments, n);
    let ordered = sort_rows(list);
    let mut lefts = [NONE; Job::SEGMENTS];
    let mut rights = [NONE; Job::SEGMENTS];
    let mut forwards = [0; Job::SEGMENTS];
    spread(ordered, &mut lefts, &mut rights, &mut forwards);
    pairs::outer(w, &mut lefts, &rights, &forwards, joins, m)
}
