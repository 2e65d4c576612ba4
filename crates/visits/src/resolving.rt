// What each record resolves to: each chain is followed only as far as nothing is known of it, so that all take linear time.
ghost use Rattle.std.specs.Prelude.{◌≡◌, false, ◌<◌, ◌≤◌, ◌^◌, length, replicate};
ghost use Rattle.job.specs.Limits.{RECORDS};
ghost use Rattle.store.specs.Field.{BLOCK};
ghost use Rattle.store.specs.Named.{records_of};
ghost use Rattle.audit.specs.Tests.{any_below};
ghost use Rattle.owners.specs.Owners.{circles};
ghost use Rattle.joins.specs.Resolve.{get_real_outrec};
ghost use Rattle.owners.specs.Tables.{UNKNOWN, Homes, Noted, Found};

use job::Job;
use owners::tables::{UNKNOWN, at, put};
use store::{Col, NONE, get, read};

// The first with points among r and its owners, or none; followed up to a record that is known.
fn reach(w: &[u32], homes: &[u32], r: usize) -> usize
    requires { (BLOCK ≤ length w.now) × Homes w.now homes.now × (circles w.now r ≡ false) × (r < 2 ^ 32) }
    ensures { (result ≡ get_real_outrec w.now r) × (result < 2 ^ 32) }
{
    let mut q = r;
    for _turn in 0..Job::RECORDS {
        let h = at(homes, q);
        if h != UNKNOWN {
            return h;
        }
        let f = read(w, Col::First, q);
        if f != NONE {
            return q;
        }
        q = read(w, Col::Owner, q);
        if q == NONE {
            return NONE;
        }
    }
    NONE
}

// Writes down h, what record r resolves to, along its chain, up to a record that is known or has points.
fn note(w: &[u32], homes: &mut [u32], r: usize, h: usize)
    requires { (BLOCK ≤ length w.now) × Homes w.now homes.old × (circles w.now r ≡ false) × (h ≡ get_real_outrec w.now r) × (h < 2 ^ 32) }
    ensures { Noted w.now homes.old r homes.new }
{
    let mut q = r;
    for _turn in 0..Job::RECORDS {
        if at(homes, q) != UNKNOWN {
            return;
        }
        put(homes, q, h);
        let f = read(w, Col::First, q);
        if f != NONE {
            return;
        }
        q = read(w, Col::Owner, q);
        if q == NONE {
            return;
        }
    }
}

// The table of a job whose owner chains end.
pub fn find_all(w: &[u32], homes: &mut [u32])
    requires { (BLOCK ≤ length w.now) × (records_of w.now ≤ RECORDS) × (homes.old ≡ replicate RECORDS UNKNOWN) × (any_below (records_of w.now) (circles w.now) ≡ false) }
    ensures { Found w.now homes.new (records_of w.now) }
{
    for i in 0..get(w, Col::Records, 0) {
        let h = reach(w, homes, i);
        note(w, homes, i, h);
    }
}

// The first with points among r and its owners, or none.
fn walk(w: &[u32], r: usize) -> usize
    requires { BLOCK ≤ length w.now }
    ensures { result ≡ get_real_outrec w.now r }
{
    let mut q = r;
    for _turn in 0..Job::RECORDS {
        let f = read(w, Col::First, q);
        if f != NONE {
            return q;
        }
        q = read(w, Col::Owner, q);
        if q == NONE {
            return NONE;
        }
    }
    NONE
}

// The same by the table; only a number that names no record is not in it.
pub fn find(w: &[u32], homes: &[u32], r: usize) -> usize
    requires { (BLOCK ≤ length w.now) × Homes w.now homes.now }
    ensures { result ≡ get_real_outrec w.now r }
{
    let h = at(homes, r);
    if h != UNKNOWN {
        return h;
    }
    walk(w, r)
}
