// The new number of each point: ring by ring, records in their order, each ring from its first point in walk order.
#![tactic(auto)]

ghost use Rattle.std.specs.Prelude.{◌≡◌, ◌≤◌, ◌<◌, ◌^◌, length, get_or, set};
ghost use Rattle.store.specs.Field.{BLOCK};
ghost use Rattle.store.specs.Words.{view};
ghost use Rattle.store.specs.Named.{records_of, ring_of};
ghost use Rattle.store.specs.Sound.{ring_at};
ghost use Rattle.numbering.specs.Numbers.{numbered_to, number_on, number_to};

use job::Job;
use store::{Col, NONE, get, read};

// Point p's number.
pub fn number_of(numbers: &[usize], p: usize) -> usize
    ensures { result ≡ get_or numbers.now p 0 }
{
    numbers.get(p).copied().unwrap_or(0)
}

// Point p is number k. (Not by `get_mut`: of a slice's it is known what the length stays, and of no element, so `set` does not follow.)
fn set_number(numbers: &mut [usize], p: usize, k: usize)
    ensures { numbers.new ≡ set numbers.old p k }
{
    if p < numbers.len() {
        numbers[p] = k;
    }
}

// The points of the ring from a, from k on; answers the number after them.
fn number_ring(w: &[u32], a: usize, k: usize, numbers: &mut [usize]) -> usize
    requires { (BLOCK ≤ length w.now) × (k < 2 ^ 43) }
    ensures { numbered_to result numbers.new ≡ number_on (ring_of w.now a) k numbers.old }
{
    let mut n = k;
    let mut p = a;
    for _ in 0..Job::POINTS {
        set_number(numbers, p, n);
        n += 1;
        p = read(w, Col::Next, p);
        if p == a {
            return n;
        }
    }
    n
}

// The same for record i's ring, if it has one.
fn number_record(w: &[u32], i: usize, k: usize, numbers: &mut [usize]) -> usize
    requires { (BLOCK ≤ length w.now) × (k < 2 ^ 43) }
    ensures { numbered_to result numbers.new ≡ number_on (ring_at (view w.now) i) k numbers.old }
{
    let a = read(w, Col::First, i);
    if a == NONE {
        return k;
    }
    number_ring(w, a, k, numbers)
}

// The same for every record's ring; answers how many points there are.
pub fn number_rings(w: &[u32], numbers: &mut [usize]) -> usize
    requires { BLOCK ≤ length w.now }
    ensures { numbered_to result numbers.new ≡ number_to (view w.now) (records_of w.now) numbers.old }
{
    let mut k: usize = 0;
    for i in 0..get(w, Col::Records, 0) {
        k = number_record(w, i, k, numbers);
    }
    k
}
