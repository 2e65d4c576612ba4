// Which shape lies in which: a job finished in one call, and a byte for every ordered pair of its closed paths, 1 where the second contains the first.
#![tactic(auto)]

ghost use Rattle.std.specs.Prelude.{◌≡◌, ◌++◌, ◌-◌, ◌<◌, ◌≤◌, length, replicate};
ghost use Rattle.job.specs.Limits.{RECORDS};
ghost use Rattle.job.specs.declared.refusal.Refusal.TheVariants.{SmallTray};
ghost use Rattle.text.specs.Pour.{poured, pour};
ghost use Rattle.listing.specs.Fields.{next_field, path_in, paths_in};
ghost use Rattle.listing.specs.Needs.{FieldIn, FieldsIn};
ghost use Rattle.finishing.specs.InOneCall.{finished, refused};
ghost use Rattle.containing.specs.Contains.{path2_contains_path1};
ghost use Rattle.path_boxes.specs.Table.{Boxed};
ghost use Rattle.containment.specs.Answers.{row, pair_answers, pair_count};
ghost use Rattle.containment.specs.Needs.{Fielded, FieldOf, BoxFor, BoxesFrom};
ghost use Rattle.containment.specs.Contained.{contained, answered, contained_of};
ghost use Rattle.containment.specs.Contained as size;

use containing::{begins_outside, path2_contains_path1};
use finishing::finish::finish;
use geometry::Rect;
use job::Job;
use job::refusal::Refusal;
use listing::value_length;
use opening::clear::clear;
use path_boxes::{NOWHERE, fill_boxes};
use paths::{POINT, Written};
use text::put;

// Whether the path of the field at g contains that of the field at f. Box number j encloses the path at g: where the path at f begins with two points outside of it, the answer is no.
fn contains(t: &[u8], boxes: &[Rect], j: usize, f: usize, g: usize) -> bool
    requires fact_1 { FieldIn t.now f }
    requires fact_2 { FieldIn t.now g }
    requires fact_3 { BoxFor t.now boxes.now j g }
    ensures { result ≡ path2_contains_path1 (path_in t.now f) (path_in t.now g) }
{
    let a = value_length(t, f);
    if begins_outside(t, f + 3, a / POINT, boxes[j]) {
        return false;
    }
    let b = value_length(t, g);
    path2_contains_path1(t, f + 3, a / POINT, g + 3, b / POINT)
}

// One answer, 1 for yes and 0 for no: the path of the field at f against that of the field at g.
fn put_one(
    t: &[u8],
    boxes: &[Rect],
    j: usize,
    f: usize,
    g: usize,
    out: &mut [u8],
    at: usize,
) -> usize
    requires fact_1 { FieldIn t.now f }
    requires fact_2 { FieldIn t.now g }
    requires fact_3 { BoxFor t.now boxes.now j g }
    ensures { poured result out.new ≡ pour (row (path_in t.now f) (paths_in t.now 1 g)) at out.old }
{
    let yes = contains(t, boxes, j, f, g);
    put(out, at, u8::from(yes))
}

// The path of the field at f against those of `count` fields from `from` on, of which the first is number `first`.
fn put_row(
    t: &[u8],
    boxes: &[Rect],
    f: usize,
    first: usize,
    from: usize,
    count: usize,
    out: &mut [u8],
    at: usize,
) -> usize
    requires fact_1 { FieldIn t.now f }
    requires fact_2 { FieldsIn t.now count from }
    requires fact_3 { BoxesFrom t.now boxes.now first from count }
    ensures { poured result out.new ≡ pour (row (path_in t.now f) (paths_in t.now count from)) at out.old }
{
    let mut k = at;
    let mut g = from;
    for j in first..first + count {
        k = put_one(t, boxes, j, f, g, out, k);
        let length = value_length(t, g);
        g = g + 3 + length;
    }
    k
}

// Path number i of c, in the field at f, against those before and those after it.
fn put_others(
    t: &[u8],
    boxes: &[Rect],
    c: usize,
    i: usize,
    f: usize,
    out: &mut [u8],
    at: usize,
) -> usize
    requires fact_1 { FieldOf t.now c i f }
    requires fact_2 { i < c }
    requires fact_3 { Boxed t.now boxes.now c }
    ensures { poured result out.new ≡ pour (row (path_in t.now f) (paths_in t.now i 0 ++ paths_in t.now (c - i - 1) (next_field t.now f))) at out.old }
{
    let length = value_length(t, f);
    let next = f + 3 + length;
    let rest = c - i - 1;
    let a = put_row(t, boxes, f, 0, 0, i, out, at);
    put_row(t, boxes, f, i + 1, next, rest, out, a)
}

// Every path of c against every other, by their boxes.
fn put_by_boxes(t: &[u8], boxes: &[Rect], c: usize, out: &mut [u8]) -> usize
    requires fact_1 { Fielded t.now c }
    requires fact_2 { Boxed t.now boxes.now c }
    ensures { poured result out.new ≡ pour (pair_answers (paths_in t.now c 0)) 0 out.old }
{
    let mut k: usize = 0;
    let mut f: usize = 0;
    for i in 0..c {
        k = put_others(t, boxes, c, i, f, out, k);
        let length = value_length(t, f);
        f = f + 3 + length;
    }
    k
}

// Every path of c against every other.
fn put_pairs(t: &[u8], c: usize, out: &mut [u8]) -> usize
    requires { Fielded t.now c }
    ensures { poured result out.new ≡ pour (pair_answers (paths_in t.now c 0)) 0 out.old }
{
    let mut boxes = [NOWHERE; Job::RECORDS];
    fill_boxes(t, c, &mut boxes);
    put_by_boxes(t, &boxes, c, out)
}

// A slice of so many bytes has room for the answers of any job.
pub const ANSWERS: usize = Job::RECORDS * (Job::RECORDS - 1);

// The number that definitions cite is the code's.
fn answers_agree()
    ensures { ANSWERS ≡ size.ANSWERS }
{}

// How many answers there are for c paths.
pub fn pair_count(c: usize) -> usize
    requires { c ≤ RECORDS }
    ensures { result ≡ pair_count c }
{
    if c == 0 {
        return 0;
    }
    c * (c - 1)
}

// Row 11: zeros only.
fn refuse(work: &mut [u32], tray: &mut [u8]) -> Result<Written, Refusal>
    ensures { finished result work.new tray.new ≡ refused SmallTray (length work.old) (length tray.old) }
{
    clear(work);
    paths::clear(tray);
    Err(Refusal::SmallTray)
}

// The answers of a tray, in a slice that is zero.
fn answer(
    p: Written,
    work: &mut [u32],
    tray: &mut [u8],
    answers: &mut [u8],
) -> Result<Written, Refusal>
    requires fact_1 { Fielded tray.old p.closed }
    requires fact_2 { answers.old ≡ replicate (length answers.old) 0 }
    ensures { contained result work.new tray.new answers.new ≡ answered p.closed p.«open» work.old tray.old (pair_answers (paths_in tray.old p.closed 0)) (length answers.old) }
{
    let need = pair_count(p.closed);
    if answers.len() < need {
        return refuse(work, tray);
    }
    put_pairs(tray, p.closed, answers);
    Ok(p)
}

// Which shape lies in which: finishes a job in one call, and answers for every ordered pair of its closed paths.
pub fn contained(
    job: &[u8],
    work: &mut [u32],
    tray: &mut [u8],
    answers: &mut [u8],
) -> Result<Written, Refusal>
    ensures { contained result work.new tray.new answers.new ≡ contained_of job.now work.old tray.old (length answers.old) }
{
    paths::clear(answers);
    let p = finish(job, work, tray)?;
    answer(p, work, tray, answers)
}
