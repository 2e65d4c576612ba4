// Walks round the rings of a job, with a mark for each point.
#![tactic(auto)]

pub mod resolving;

ghost use Rattle.std.specs.Prelude.{◌≡◌, not, ◌&&◌, ◌||◌, ◌≤◌, eqb, length};
ghost use Rattle.std.specs.Option.{MatchOption};
ghost use Rattle.marks.specs.Marks.{marked, all_below};
ghost use Rattle.store.specs.Field.{BLOCK, NONE};
ghost use Rattle.store.specs.Named.{points_of, records_of, first_of};
ghost use Rattle.audit.specs.Tests.{any_below};
ghost use Rattle.audit.specs.Marks.{Counted};
ghost use Rattle.visits.specs.Rings.{alone, elsewhere, estranged};
ghost use Rattle.visits.specs.Marks.{Begins, Met, Back, Onward, Strays, Gathers};
ghost use Rattle.owners.specs.Tables.{Homes};

use job::Job;
use marks::{BITS, Marks, with_bit};
use store::{Col, NONE, get, read};

// Whether r is record i, and has a ring: then it resolves to itself.
fn is_own(w: &[u32], i: usize, r: usize) -> bool
    requires { BLOCK ≤ length w.now }
    ensures { result ≡ (eqb r i && not (eqb (first_of w.now i) NONE)) }
{
    let f = read(w, Col::First, i);
    (r == i) & (f != NONE)
}

// Whether point k resolves to another record than i.
fn elsewhere(w: &[u32], homes: &[u32], i: usize, k: usize) -> bool
    requires { (BLOCK ≤ length w.now) × Homes w.now homes.now }
    ensures { result ≡ elsewhere w.now i k }
{
    let r = read(w, Col::Rec, k);
    if is_own(w, i, r) {
        return false;
    }
    resolving::find(w, homes, r) != i
}

// Where the walks stand: the record whose ring is walked, the point that the ring began at, the one that it goes on at, and how many points are to go at most.
#[derive(Clone, Copy)]
pub struct Place {
    pub ring: usize,
    pub first: usize,
    pub point: usize,
    pub left: usize,
}

// The beginning of record i's ring; nothing is to go if it has none.
fn place_of(w: &[u32], i: usize) -> Place
    requires { BLOCK ≤ length w.now }
    ensures { Begins w.now i result }
{
    let a = read(w, Col::First, i);
    if a == NONE {
        return Place {
            ring: i,
            first: a,
            point: a,
            left: 0,
        };
    }
    Place {
        ring: i,
        first: a,
        point: a,
        left: Job::POINTS,
    }
}

// A stretch of a ring whose points lie in one word of the marks: the points' bits, and the place where the ring goes on; None where the ring ends.
#[derive(Clone, Copy)]
struct Stretch {
    bits: u64,
    on: Option<Place>,
}

// The stretch of a ring in the word, from the place c on; None if a point resolves elsewhere.
fn walk_word(w: &[u32], homes: &[u32], c: Place, word: usize) -> Option<Stretch>
    requires { (BLOCK ≤ length w.now) × Homes w.now homes.now }
    ensures { MatchOption result (Met w.now c) (λ s. MatchOption s.on (Back w.now c word s.bits) (λ d. Onward w.now c word s.bits d)) }
{
    let mut bits: u64 = 0;
    let mut q = c.point;
    for gone in 0..c.left {
        if q / BITS != word {
            let on = Place {
                point: q,
                left: c.left - gone,
                ..c
            };
            return Some(Stretch { bits, on: Some(on) });
        }
        if elsewhere(w, homes, c.ring, q) {
            return None;
        }
        bits = with_bit(bits, q % BITS);
        q = read(w, Col::Next, q);
        if q == c.first {
            return Some(Stretch { bits, on: None });
        }
    }
    Some(Stretch { bits, on: None })
}

// What is gathered in one word: the word and its points' bits; where the walks go on.
#[derive(Clone, Copy)]
pub struct Gathered {
    pub word: usize,
    pub bits: u64,
    pub place: Place,
}

// The bits of the points that lie in the word of the next one, ring after ring: up to a point in another word or the last of the n rings' end; none if a point resolves elsewhere.
fn gather(w: &[u32], homes: &[u32], n: usize, from: Place) -> Option<Gathered>
    requires { (BLOCK ≤ length w.now) × Homes w.now homes.now × (n ≡ records_of w.now) }
    ensures { MatchOption result (Strays w.now from) (λ g. Gathers w.now from g) }
{
    let word = from.point / BITS;
    let mut bits: u64 = 0;
    let mut c = from;
    // no `for`: the place says which ring it is
    while c.ring < n {
        let s = walk_word(w, homes, c, word)?;
        bits |= s.bits;
        match s.on {
            Some(place) => return Some(Gathered { word, bits, place }),
            None => c = place_of(w, c.ring + 1),
        }
    }
    Some(Gathered {
        word,
        bits,
        place: c,
    })
}

// Whether a point has no mark.
fn any_bare(w: &[u32], marks: Marks) -> bool
    requires { BLOCK ≤ length w.now }
    ensures { result ≡ not (all_below (points_of w.now) (marked marks.words)) }
{
    !marks.all_set(get(w, Col::Points, 0))
}

// Whether a point resolves to another record than its ring's, or has no mark after the walks round all rings. The marks are handed on once for the points gathered in a word.
pub fn any_stray(w: &[u32], homes: &[u32]) -> bool
    requires { Counted w.now × Homes w.now homes.now }
    ensures { result ≡ (any_below (records_of w.now) (estranged w.now) || any_below (points_of w.now) (alone w.now)) }
{
    let n = get(w, Col::Records, 0);
    let mut m = Marks::none();
    let mut c = place_of(w, 0);
    // no `for`: a turn goes on as far as one word of the marks does
    while c.ring < n {
        let Some(g) = gather(w, homes, n, c) else {
            return true;
        };
        m = m.set_bits(g.word, g.bits);
        c = g.place;
    }
    any_bare(w, m)
}
