// Every ring at its start.
ghost use Rattle.std.specs.Prelude.{◌≡◌, ◌<◌, ◌≤◌, length};
ghost use Rattle.job.specs.Limits as limit;
ghost use Rattle.store.specs.Field.{BLOCK};
ghost use Rattle.store.specs.Named.{records_of};
ghost use Rattle.opening.specs.Start.{start_ring, start_to};

use store::{Col, NONE, get, set};

// Record i is at its start: the validity test is due, its first point is its present place, and it was cut from none.
fn start_ring(w: &mut [u32], i: usize)
    requires { (BLOCK ≤ length w.old) × (i < limit.RECORDS) }
    ensures { w.new ≡ start_ring w.old i }
{
    let a = get(w, Col::First, i);
    set(w, Col::Mark, i, 0);
    set(w, Col::Present, i, a);
    set(w, Col::Start, i, a);
    set(w, Col::Cut, i, NONE);
}

// Every record is at its start.
pub(crate) fn start_rings(w: &mut [u32])
    requires { (BLOCK ≤ length w.old) × (records_of w.old ≤ limit.RECORDS) }
    ensures { w.new ≡ start_to (records_of w.old) w.old }
{
    for i in 0..get(w, Col::Records, 0) {
        start_ring(w, i);
    }
}
