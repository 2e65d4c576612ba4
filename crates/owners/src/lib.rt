// Owner chains, before they are known to end: does one circle? Each is followed only as far as nothing is known of it, so that all take linear time; and whether any need be followed.
#![tactic(auto)]

pub mod tables;

ghost use Rattle.std.specs.Prelude.{◌≡◌, ◌≤◌, length};
ghost use Rattle.job.specs.Limits.{RECORDS};
ghost use Rattle.store.specs.Field.{BLOCK};
ghost use Rattle.store.specs.Named.{records_of};
ghost use Rattle.audit.specs.Tests.{any_below};
ghost use Rattle.owners.specs.Owners.{chained, circles};
ghost use Rattle.owners.specs.Tables.{Long, Lengths, Followed};

use crate::tables::{BLANK, UNKNOWN, at, put};
use job::Job;
use store::{Col, NONE, get, read};

// How long the owner chain from record i is, followed up to a record whose length is known; more than there may be records, if it circles.
fn follow(w: &[u32], lengths: &[u32], i: usize) -> usize
    requires { (BLOCK ≤ length w.now) × Lengths w.now lengths.now }
    ensures { Followed w.now i result }
{
    let mut q = i;
    for h in 0..Job::RECORDS {
        let d = at(lengths, q);
        if d != UNKNOWN {
            return h + d;
        }
        q = read(w, Col::Owner, q);
        if q == NONE {
            return h + 1;
        }
    }
    Job::RECORDS + 1
}

// Writes down the lengths along the chain from record i, whose own is n, up to a record whose length is known.
fn note(w: &[u32], lengths: &mut [u32], i: usize, n: usize)
    requires { (BLOCK ≤ length w.now) × Lengths w.now lengths.old × Long w.now i n × (n ≤ RECORDS) }
    ensures { Lengths w.now lengths.new }
{
    let mut q = i;
    for k in 0..n {
        if at(lengths, q) != UNKNOWN {
            return;
        }
        put(lengths, q, n - k);
        q = read(w, Col::Owner, q);
    }
}

// Whether an owner chain circles.
pub fn any_circle(w: &[u32]) -> bool
    requires { BLOCK ≤ length w.now }
    ensures { result ≡ any_below (records_of w.now) (circles w.now) }
{
    let mut lengths = [BLANK; Job::RECORDS];
    for i in 0..get(w, Col::Records, 0) {
        let m = follow(w, &lengths, i);
        if Job::RECORDS < m {
            return true;
        }
        note(w, &mut lengths, i, m);
    }
    false
}

// Whether record i has no ring, or an owner that is not before it.
fn is_chained(w: &[u32], i: usize) -> bool
    requires { BLOCK ≤ length w.now }
    ensures { result ≡ chained w.now i }
{
    let f = read(w, Col::First, i);
    let o = read(w, Col::Owner, i);
    (f == NONE) | ((o != NONE) & (i <= o))
}

// Whether there is such a record.
pub fn any_chained(w: &[u32]) -> bool
    requires { BLOCK ≤ length w.now }
    ensures { result ≡ any_below (records_of w.now) (chained w.now) }
{
    (0..get(w, Col::Records, 0)).any(|i| is_chained(w, i))
}
