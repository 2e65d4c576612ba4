// Rows 4 to 8 of document 01's table, each over the whole job as it was read.
#![tactic(auto)]

mod points;

ghost use Rattle.std.specs.Prelude.{◌≡◌, false, ◌*◌, ◌≤◌, length, get_or, replicate, Ok, ℕ, Bool};
ghost use Rattle.job.specs.Limits.{RECORDS};
ghost use Rattle.store.specs.Field.{BLOCK};
ghost use Rattle.store.specs.Words.{view};
ghost use Rattle.store.specs.Named.{points_of, records_of};
ghost use Rattle.store.specs.Sound.{is_open};
ghost use Rattle.audit.specs.Tests.{any_below};
ghost use Rattle.audit.specs.Marks.{Counted};
ghost use Rattle.rows.specs.Rows.{unnamed, no_such_number, on_open, muddled, open_edge, rows_of};
ghost use Rattle.owners.specs.Owners.{chained};
ghost use Rattle.rows.specs.Found.{first_rows, last_rows, faulty_point, no_such_beside, Filled, Named};
ghost use Rattle.joins.specs.Resolve.{home_of};
ghost use Rattle.owners.specs.Tables.{UNKNOWN, Homes};

use audit::points::{loose, no_such, off_table};
use audit::records::no_such_of;
use job::Job;
use job::refusal::Refusal;
use owners::tables::BLANK;
use store::{Col, get, read};
use visits::resolving;

// Whether a point fails the test.
fn any_point<F: Fn(usize) -> bool>(w: &[u32], fails: F) -> bool
    requires long { BLOCK ≤ length w.now }
    requires callable { F.IsAlwaysCallable fails }
    ensures { (q : ℕ → Bool) → ((k : ℕ) (r : Bool) → F.post fails k r → r ≡ q k) → result ≡ any_below (points_of w.now) q }
{
    (0..get(w, Col::Points, 0)).any(|k| fails(k))
}

// Whether one of the first n numbers of a list names no point.
fn any_unnamed(w: &[u32], list: &[u32], n: usize) -> bool
    requires { (BLOCK ≤ length w.now) × (n ≤ length list.now) }
    ensures { result ≡ unnamed w.now list.now n }
{
    let m = get(w, Col::Points, 0);
    list[..n].iter().any(|p| m <= *p as usize)
}

// Row 5 of all but points: records, segments, joins.
fn no_such_beside(w: &[u32], segments: &[u32], m: usize, joins: &[u32], n: usize) -> bool
    requires { Filled w.now segments.now m joins.now n }
    ensures { result ≡ no_such_beside w.now segments.now m joins.now n }
{
    let a = (0..get(w, Col::Records, 0)).any(|i| no_such_of(w, i));
    let b = any_unnamed(w, segments, m);
    let c = any_unnamed(w, joins, 2 * n);
    a | (b | c)
}

// Row 5.
fn no_such_number(w: &[u32], segments: &[u32], m: usize, joins: &[u32], n: usize) -> bool
    requires { Filled w.now segments.now m joins.now n }
    ensures { result ≡ no_such_number w.now segments.now m joins.now n }
{
    let a = any_point(w, |k| no_such(w, k));
    let b = no_such_beside(w, segments, m, joins, n);
    a | b
}

// Whether the point is on an open ring: its ring's record is the one it resolves to.
fn on_open(w: &[u32], homes: &[u32], k: usize) -> bool
    requires { (BLOCK ≤ length w.now) × Homes w.now homes.now }
    ensures { result ≡ is_open (view w.now) (home_of w.now k) }
{
    let r = read(w, Col::Rec, k);
    let i = resolving::find(w, homes, r);
    let g = read(w, Col::Flags, i);
    g % 2 == 1
}

// Whether one of the first n points of a list is on an open ring.
fn any_open(w: &[u32], homes: &[u32], list: &[u32], n: usize) -> bool
    requires { Named w.now list.now n × Homes w.now homes.now }
    ensures { result ≡ any_below n (λ i. on_open w.now (get_or list.now i 0)) }
{
    list[..n].iter().any(|p| on_open(w, homes, *p as usize))
}

// Row 7, and the table of homes.
fn muddled(w: &[u32], homes: &mut [u32]) -> bool
    requires { Counted w.now × (homes.old ≡ replicate RECORDS UNKNOWN) }
    ensures { (result ≡ muddled w.now) × Homes w.now homes.new }
{
    if owners::any_circle(w) {
        return true;
    }
    resolving::find_all(w, homes);
    visits::any_stray(w, homes)
}

// Row 8.
fn open_edge(w: &[u32], homes: &[u32], segments: &[u32], m: usize, joins: &[u32], n: usize) -> bool
    requires { Named w.now segments.now m × Named w.now joins.now (2 * n) × Homes w.now homes.now }
    ensures { result ≡ open_edge w.now segments.now m joins.now n }
{
    let a = any_open(w, homes, segments, m);
    let b = any_open(w, homes, joins, 2 * n);
    a | b
}

// Rows 4 and 5.
pub fn first_rows(
    w: &[u32],
    segments: &[u32],
    m: usize,
    joins: &[u32],
    n: usize,
) -> Result<(), Refusal>
    requires { Filled w.now segments.now m joins.now n }
    ensures { result ≡ first_rows w.now segments.now m joins.now n }
{
    if any_point(w, |k| off_table(w, k)) {
        return Err(Refusal::OffTheTable);
    }
    if no_such_number(w, segments, m, joins, n) {
        return Err(Refusal::NoSuch);
    }
    Ok(())
}

// Rows 7 and 8, once it is known whether row 7 holds.
fn last_rows(
    w: &[u32],
    homes: &[u32],
    found: bool,
    segments: &[u32],
    m: usize,
    joins: &[u32],
    n: usize,
) -> Result<(), Refusal>
    requires { Filled w.now segments.now m joins.now n × (first_rows w.now segments.now m joins.now n ≡ Ok tt) × Homes w.now homes.now × (found ≡ muddled w.now) }
    ensures { result ≡ last_rows w.now segments.now m joins.now n }
{
    if found {
        return Err(Refusal::Muddled);
    }
    if open_edge(w, homes, segments, m, joins, n) {
        return Err(Refusal::OpenEdge);
    }
    Ok(())
}

// Rows 7 and 8 by tables, so that chains of any kind take linear time.
fn by_table(w: &[u32], segments: &[u32], m: usize, joins: &[u32], n: usize) -> Result<(), Refusal>
    requires { Filled w.now segments.now m joins.now n × (first_rows w.now segments.now m joins.now n ≡ Ok tt) }
    ensures { result ≡ last_rows w.now segments.now m joins.now n }
{
    let mut homes = [BLANK; Job::RECORDS];
    let found = muddled(w, &mut homes);
    last_rows(w, &homes, found, segments, m, joins, n)
}

// Rows 7 and 8 without tables: no owner chain circles, and a record with a ring resolves to itself.
fn plainly(w: &[u32], segments: &[u32], m: usize, joins: &[u32], n: usize) -> Result<(), Refusal>
    requires { Filled w.now segments.now m joins.now n × (first_rows w.now segments.now m joins.now n ≡ Ok tt) × (any_below (records_of w.now) (chained w.now) ≡ false) }
    ensures { result ≡ last_rows w.now segments.now m joins.now n }
{
    let homes = [BLANK; 1];
    let found = visits::any_stray(w, &homes);
    last_rows(w, &homes, found, segments, m, joins, n)
}

// Rows 7 and 8, with tables only where a chain may need them.
fn ring_rows(w: &[u32], segments: &[u32], m: usize, joins: &[u32], n: usize) -> Result<(), Refusal>
    requires { Filled w.now segments.now m joins.now n × (first_rows w.now segments.now m joins.now n ≡ Ok tt) }
    ensures { result ≡ last_rows w.now segments.now m joins.now n }
{
    if owners::any_chained(w) {
        return by_table(w, segments, m, joins, n);
    }
    plainly(w, segments, m, joins, n)
}

// Rows 6 to 8, of a job that has passed 4 and 5.
fn later_rows(w: &[u32], segments: &[u32], m: usize, joins: &[u32], n: usize) -> Result<(), Refusal>
    requires { Filled w.now segments.now m joins.now n × (first_rows w.now segments.now m joins.now n ≡ Ok tt) }
    ensures { result ≡ rows_of w.now segments.now m joins.now n }
{
    if any_point(w, |k| loose(w, k)) {
        return Err(Refusal::Loose);
    }
    ring_rows(w, segments, m, joins, n)
}

// Rows 4 to 8, one after the other.
fn in_order(w: &[u32], segments: &[u32], m: usize, joins: &[u32], n: usize) -> Result<(), Refusal>
    requires { Filled w.now segments.now m joins.now n }
    ensures { result ≡ rows_of w.now segments.now m joins.now n }
{
    first_rows(w, segments, m, joins, n)?;
    later_rows(w, segments, m, joins, n)
}

// What is left of rows 4 to 8, of a job with no point that fails what rows 4 to 6 ask of it.
fn rest_of_rows(
    w: &[u32],
    segments: &[u32],
    m: usize,
    joins: &[u32],
    n: usize,
) -> Result<(), Refusal>
    requires { Filled w.now segments.now m joins.now n × (any_below (points_of w.now) (faulty_point w.now) ≡ false) }
    ensures { result ≡ rows_of w.now segments.now m joins.now n }
{
    if no_such_beside(w, segments, m, joins, n) {
        return Err(Refusal::NoSuch);
    }
    ring_rows(w, segments, m, joins, n)
}

// Rows 4 to 8: rows 4 to 6 in one pass over the points, and in their order only where a point fails one.
pub fn rows(w: &[u32], segments: &[u32], m: usize, joins: &[u32], n: usize) -> Result<(), Refusal>
    requires { Filled w.now segments.now m joins.now n }
    ensures { result ≡ rows_of w.now segments.now m joins.now n }
{
    if points::any_faulty(w) {
        return in_order(w, segments, m, joins, n);
    }
    rest_of_rows(w, segments, m, joins, n)
}
