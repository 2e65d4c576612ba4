// The boxes beside the rings, one after the other; and the last tests.
ghost use Rattle.std.specs.Prelude.{◌≡◌, ◌≤◌, length, Ok};
ghost use Rattle.job.specs.Limits as limit;
ghost use Rattle.store.specs.Field.{BLOCK, KEPT};
ghost use Rattle.store.specs.Named.{records_of};
ghost use Rattle.handed.specs.Handed.{any_misboxed, boxes_tested, names_tested};

use crate::names::names_tested;
use bounds::misboxed;
use job::refusal::Refusal;
use store::{Col, get};

// Whether a record with a ring has words that are not its ring's box.
fn any_misboxed(w: &[u32]) -> bool
    requires { (BLOCK ≤ length w.now) × (records_of w.now ≤ limit.RECORDS) }
    ensures { result ≡ any_misboxed w.now }
{
    (0..get(w, Col::Records, 0)).any(|i| misboxed(w, i))
}

// The last tests, where all before them passed: boxes, then names.
pub fn last_tested(w: &[u32]) -> Result<(), Refusal>
    requires { (KEPT ≤ length w.now) × (records_of w.now ≤ limit.RECORDS) }
    ensures { result ≡ names_tested w.now (boxes_tested w.now (Ok tt)) }
{
    if any_misboxed(w) {
        return Err(Refusal::Muddled);
    }
    names_tested(w)
}
