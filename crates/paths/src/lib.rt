// One record's path, how many bytes all paths take, and the tray's fields.
#![tactic(auto)]

mod field;
mod round;

ghost use Rattle.std.specs.Prelude.{◌≡◌, ◌+◌, ◌*◌, ◌<◌, ◌≤◌, false, cond, not, ◌&&◌, map, eqb, leb, ltb, length, replicate, Ok};
ghost use Rattle.std.specs.Bool.{beq};
ghost use Rattle.job.specs.Limits as limit;
ghost use Rattle.lone.specs.Plane.{plane};
ghost use Rattle.lone.specs.Path.{is_small_ring};
ghost use Rattle.store.specs.Field.{BLOCK};
ghost use Rattle.store.specs.Words.{view};
ghost use Rattle.store.specs.Sound.{recs, is_open};
ghost use Rattle.store.specs.Good.{SoundWords};
ghost use Rattle.store.specs.Value.{preserve_collinear, reverse_solution};
ghost use Rattle.paths.specs.Path.{point_at, path_by, path_end, path_if, paths_below, size_of, closed_paths, open_paths};
ghost use Rattle.paths.specs.Count.{path_count, field_size, need_of};
ghost use Rattle.paths.specs.Tray.{tag_of, fields_of, padded};
ghost use Rattle.paths.specs.Tray as trays;
ghost use Rattle.paths.specs.Filling.{fields_below, lay_over, FieldsFit, AllFit};
ghost use Rattle.paths.specs.Wrote.{ok_paths, wrote, build_paths64};
ghost use Rattle.paths.specs.Walking.{start_from, round_from, Known, Directed, Asked, ThreeOrMore, Sized, Round, laid};

use crate::field::write_path;
use crate::round::{point_at, round_size};
use job::Job;
use job::refusal::Refusal;
use store::{Col, NONE};

// The bytes of a path's point: x, y and z.
pub const POINT: usize = 12;

// A tray of so many bytes is never too small.
pub const TRAY: usize = 3 * Job::RECORDS + POINT * Job::POINTS;

// The numbers that definitions cite are the code's.
fn tray_agrees()
    ensures { (POINT ≡ trays.POINT) × (TRAY ≡ trays.TRAY) }
{}

// What was written out: how many closed and open paths the tray holds.
#[derive(Clone, Copy, PartialEq, Eq)]
pub struct Written {
    pub closed: usize,
    pub open: usize,
}

// Why a record has no path: by the small test, or by another one.
#[derive(Clone, Copy, PartialEq, Eq)]
pub enum NoPath {
    Short,
    Small,
}

// ---- one record's path

// Whether a ring is too short: one point, or two of a closed one.
fn too_short(w: &[u32], opened: bool, f: usize) -> bool
    requires { Round w.now false f }
    ensures { result ≡ leb (length (round_from (view w.now) false f)) (cond opened 1 2) }
{
    let n = store::get(w, Col::Next, f);
    let p = store::get(w, Col::Prev, f);
    if n == f {
        return true;
    }
    if opened {
        return false;
    }
    n == p
}

// Whether the ring from a has three points of which two are really close.
fn is_small_ring(w: &[u32], a: usize) -> bool
    requires { ThreeOrMore w.now a }
    ensures { result ≡ is_small_ring (plane (preserve_collinear (view w.now))) (map (point_at (view w.now)) (round_from (view w.now) false a)) }
{
    let n = store::get(w, Col::Next, a);
    let p = store::get(w, Col::Prev, a);
    let m = store::get(w, Col::Next, n);
    if m != p {
        return false;
    }
    let prev = point_at(w, p);
    let pt = point_at(w, a);
    let next = point_at(w, n);
    geometry::is_very_small_triangle(prev, pt, next)
}

// The small test of a path of n points: it is closed, has three, and so has its ring.
fn is_small(w: &[u32], opened: bool, a: usize, n: usize) -> bool
    requires { Sized w.now a n }
    ensures { result ≡ (not opened && eqb n 3 && is_small_ring (plane (preserve_collinear (view w.now))) (map (point_at (view w.now)) (round_from (view w.now) false a))) }
{
    if opened {
        return false;
    }
    if n != 3 {
        return false;
    }
    is_small_ring(w, a)
}

// Where a path starts.
fn start_from(w: &[u32], rev: bool, f: usize) -> usize
    requires { (BLOCK ≤ length w.now) × (f < limit.POINTS) }
    ensures { result ≡ start_from (view w.now) rev f }
{
    if rev {
        return f;
    }
    store::get(w, Col::Next, f)
}

// How many points the path of record i has, or why there is none.
pub fn path_end(w: &[u32], rev: bool, opened: bool, i: usize) -> Result<usize, NoPath>
    requires { Known w.now i }
    ensures { result ≡ path_end (view w.now) rev opened i }
{
    let f = store::get(w, Col::First, i);
    if f == NONE {
        return Err(NoPath::Short);
    }
    if too_short(w, opened, f) {
        return Err(NoPath::Short);
    }
    let a = start_from(w, rev, f);
    let n = round_size(w, rev, a);
    if is_small(w, opened, a, n) {
        return Err(NoPath::Small);
    }
    if n < 2 {
        return Err(NoPath::Short);
    }
    Ok(n)
}

// How many points the path of record i has, 0 for none.
fn path_size(w: &[u32], rev: bool, opened: bool, i: usize) -> usize
    requires { Known w.now i }
    ensures { result ≡ size_of (path_by (view w.now) rev opened i) }
{
    path_end(w, rev, opened, i).unwrap_or(0)
}

// Whether record i is open.
pub fn is_open(w: &[u32], i: usize) -> bool
    requires { (BLOCK ≤ length w.now) × (i < limit.RECORDS) }
    ensures { result ≡ is_open (view w.now) i }
{
    store::get(w, Col::Flags, i) % 2 == 1
}

// The setting `reverse_solution`.
pub fn reverse_solution(w: &[u32]) -> bool
    requires { BLOCK ≤ length w.now }
    ensures { result ≡ reverse_solution (view w.now) }
{
    store::get(w, Col::Settings, 0) / 2 % 2 == 1
}

// How many points the path of record i has, if the record is open or closed as asked; 0 if not, and for none.
fn size_if(w: &[u32], rev: bool, opened: bool, i: usize) -> usize
    requires { Asked w.now rev i }
    ensures { result ≡ size_of (path_if (view w.now) opened i) }
{
    let o = is_open(w, i);
    if o == opened {
        return path_size(w, rev, o, i);
    }
    0
}

// How many of the records below i have a path and are open or closed as asked.
pub fn paths_below(w: &[u32], rev: bool, opened: bool, i: usize) -> usize
    requires { Asked w.now rev i }
    ensures { result ≡ length (paths_below i opened (view w.now)) }
{
    let mut paths: usize = 0;
    for j in 0..i {
        paths += path_count(size_if(w, rev, opened, j));
    }
    paths
}

// ---- how many bytes

// What the open, or the closed, paths come to.
#[derive(Clone, Copy)]
struct Need {
    paths: usize,
    bytes: usize,
}

fn path_count(k: usize) -> usize
    ensures { result ≡ path_count k }
{
    if k == 0 {
        return 0;
    }
    1
}

fn field_size(k: usize) -> usize
    requires { k ≤ limit.POINTS }
    ensures { result ≡ field_size k }
{
    if k == 0 {
        return 0;
    }
    3 + POINT * k
}

// How many bytes the fields of the open, or the closed, paths have.
fn count_bytes(w: &[u32], rev: bool, opened: bool) -> usize
    requires { Directed w.now rev }
    ensures { result ≡ (need_of (view w.now) opened).bytes }
{
    let n = store::get(w, Col::Records, 0);
    let mut bytes: usize = 0;
    for i in 0..n {
        bytes += field_size(size_if(w, rev, opened, i));
    }
    bytes
}

// Whether all fields need more than n bytes; they are counted only if another job's could.
fn too_small(w: &[u32], rev: bool, n: usize) -> bool
    requires { Directed w.now rev }
    ensures { result ≡ ltb n (length (fields_of (view w.now))) }
{
    if TRAY <= n {
        return false;
    }
    let closed = count_bytes(w, rev, false);
    let opened = count_bytes(w, rev, true);
    n < closed + opened
}

// ---- the tray

// The tag of the list that a path is in.
pub fn tag_of(opened: bool) -> u8
    ensures { result ≡ tag_of opened }
{
    if opened {
        return 7;
    }
    6
}

// The fields of all records that are open or closed as asked; answers what they come to.
fn write_paths(w: &[u32], rev: bool, opened: bool, t: &mut [u8]) -> Need
    requires { FieldsFit w.now rev opened t.old }
    ensures { (laid result.bytes t.new ≡ lay_over (fields_below (recs (view w.now)) (view w.now) opened) t.old) × (result.paths ≡ (need_of (view w.now) opened).paths) }
{
    let n = store::get(w, Col::Records, 0);
    let mut paths: usize = 0;
    let mut used: usize = 0;
    for i in 0..n {
        let size = write_path(w, rev, opened, i, &mut t[used..]);
        paths += path_count(size);
        used += size;
    }
    Need { paths, bytes: used }
}

// Zeros.
pub fn clear(t: &mut [u8])
    ensures { t.new ≡ replicate (length t.old) 0 }
{
    t.fill(0);
}

// All fields, and zeros past them; answers how many paths there are.
fn fill(w: &[u32], rev: bool, t: &mut [u8]) -> Written
    requires { AllFit w.now rev t.old }
    ensures { wrote (Ok result) t.new ≡ wrote (ok_paths (length (closed_paths (view w.now))) (length (open_paths (view w.now)))) (padded (length t.old) (fields_of (view w.now))) }
{
    let closed = write_paths(w, rev, false, t);
    let at = closed.bytes;
    let opened = write_paths(w, rev, true, &mut t[at..]);
    let used = at + opened.bytes;
    clear(&mut t[used..]);
    Written {
        closed: closed.paths,
        open: opened.paths,
    }
}

// `build_paths64`: all paths into the tray, or a refusal, found before anything is written.
pub fn build_paths64(w: &[u32], tray: &mut [u8]) -> Result<Written, Refusal>
    requires { SoundWords w.now }
    ensures { wrote result tray.new ≡ build_paths64 (view w.now) tray.old }
{
    let rev = reverse_solution(w);
    if too_small(w, rev, tray.len()) {
        return Err(Refusal::SmallTray);
    }
    Ok(fill(w, rev, tray))
}
