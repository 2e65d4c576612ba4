// The second's columns, boxes and counts after the first's, in the first's work space.
#![tactic(auto)]

ghost use Rattle.std.specs.Prelude.{◌≡◌, ◌+◌, ◌<◌, ◌≤◌, ◌^◌, length};
ghost use Rattle.store.specs.Field as layout;
ghost use Rattle.store.specs.Field.{size};
ghost use Rattle.job.specs.Limits as limit;
ghost use Rattle.store.specs.Column.{column_of};
ghost use Rattle.pooling.specs.Pooled.{raise};
ghost use Rattle.pooling.specs.Words.{lay_column, point_columns, given_columns, progress_columns, reason_columns, record_columns, lay_sides, lay_points, lay_records, lay_all};
ghost use Rattle.pooling.specs.Needs.{RoomForBoth};

use store::boxed::{set_sides, sides_of};
use store::{Col, get, set};

// The points and records that are in use.
#[derive(Clone, Copy)]
pub struct Used {
    pub points: usize,
    pub records: usize,
}

// ---- the columns

// A number that names one of n things is raised by m; any other stays.
fn raise(m: usize, n: usize, v: usize) -> usize
    requires { (m + n ≤ limit.POINTS) × (v < 2 ^ 32) }
    ensures { (result ≡ raise m n v) × (result < 2 ^ 32) }
{
    if v < n {
        return m + v;
    }
    v
}

// The second's n numbers of a column, each raised, after the first's m. (A number that names one of `of` things is raised by `by`.)
fn lay_column(first: &mut [u32], second: &[u32], c: Col, m: usize, n: usize, by: usize, of: usize)
    requires { (layout.BLOCK ≤ length first.old) × (layout.BLOCK ≤ length second.now) × (m + n ≤ size (column_of c)) × (m + n ≤ limit.POINTS) × (by + of ≤ limit.POINTS) }
    ensures { first.new ≡ lay_column (column_of c) (raise by of) m n second.now first.old }
{
    for i in 0..n {
        let v = get(second, c, i);
        let u = raise(by, of, v);
        set(first, c, m + i, u);
    }
}

// The points' columns.
fn lay_points(first: &mut [u32], second: &[u32], a: Used, b: Used)
    requires { RoomForBoth first.old second.now a b }
    ensures { first.new ≡ lay_points a b second.now point_columns first.old }
{
    let m = a.points;
    let n = b.points;
    lay_column(first, second, Col::X, m, n, 0, 0);
    lay_column(first, second, Col::Y, m, n, 0, 0);
    lay_column(first, second, Col::Next, m, n, m, n);
    lay_column(first, second, Col::Prev, m, n, m, n);
    lay_column(first, second, Col::Rec, m, n, a.records, b.records);
    lay_column(first, second, Col::Z, m, n, 0, 0);
}

// The records' columns: what a record is.
fn lay_records(first: &mut [u32], second: &[u32], a: Used, b: Used)
    requires { RoomForBoth first.old second.now a b }
    ensures { first.new ≡ lay_records a b second.now given_columns first.old }
{
    let m = a.records;
    let n = b.records;
    lay_column(first, second, Col::Flags, m, n, 0, 0);
    lay_column(first, second, Col::Owner, m, n, m, n);
    lay_column(first, second, Col::First, m, n, a.points, b.points);
}

// How far it is, and what it was cut from.
fn lay_progress(first: &mut [u32], second: &[u32], a: Used, b: Used)
    requires { RoomForBoth first.old second.now a b }
    ensures { first.new ≡ lay_records a b second.now progress_columns first.old }
{
    let m = a.records;
    let n = b.records;
    lay_column(first, second, Col::Mark, m, n, 0, 0);
    lay_column(first, second, Col::Present, m, n, a.points, b.points);
    lay_column(first, second, Col::Start, m, n, a.points, b.points);
    lay_column(first, second, Col::Cut, m, n, m, n);
}

// Why a record has no ring, and the record that took it.
fn lay_reasons(first: &mut [u32], second: &[u32], a: Used, b: Used)
    requires { RoomForBoth first.old second.now a b }
    ensures { first.new ≡ lay_records a b second.now reason_columns first.old }
{
    let m = a.records;
    let n = b.records;
    lay_column(first, second, Col::Reason, m, n, 0, 0);
    lay_column(first, second, Col::Taker, m, n, m, n);
}

// All columns.
fn lay_columns(first: &mut [u32], second: &[u32], a: Used, b: Used)
    requires { RoomForBoth first.old second.now a b }
    ensures { first.new ≡ lay_records a b second.now record_columns (lay_points a b second.now point_columns first.old) }
{
    lay_points(first, second, a, b);
    lay_records(first, second, a, b);
    lay_progress(first, second, a, b);
    lay_reasons(first, second, a, b);
}

// The boxes of the second's n records after those of the first's m, as they are.
fn lay_boxes(first: &mut [u32], second: &[u32], m: usize, n: usize)
    requires { (layout.BLOCK ≤ length first.old) × (layout.BLOCK ≤ length second.now) × (m + n ≤ limit.RECORDS) }
    ensures { first.new ≡ lay_sides m n second.now first.old }
{
    for i in 0..n {
        let b = sides_of(second, i);
        set_sides(first, m + i, b);
    }
}

// The columns, the boxes, and the counts.
pub fn lay_all(first: &mut [u32], second: &[u32], a: Used, b: Used)
    requires { RoomForBoth first.old second.now a b }
    ensures { first.new ≡ lay_all a b second.now first.old }
{
    lay_columns(first, second, a, b);
    lay_boxes(first, second, a.records, b.records);
    let p = a.points + b.points;
    let r = a.records + b.records;
    set(first, Col::Points, 0, p);
    set(first, Col::Records, 0, r);
}
