// The field of one record's path, laid over the beginning of a part of the tray.
ghost use Rattle.std.specs.Prelude.{◌≡◌, ◌≢◌, true, ◌*◌, ◌≤◌, length, set};
ghost use Rattle.numbers.specs.Written.{put_le};
ghost use Rattle.job.specs.Limits as limit;
ghost use Rattle.store.specs.Words.{view};
ghost use Rattle.paths.specs.Path.{path_if, size_of};
ghost use Rattle.paths.specs.Tray.{path_bytes};
ghost use Rattle.paths.specs.Tray as trays;
ghost use Rattle.paths.specs.Filling.{path_points, field_at, lay_over, PointsFit, FieldFits};
ghost use Rattle.paths.specs.Walking.{Asked, laid};

use crate::round::{has_four, write_round};
use crate::{POINT, is_open, size_if, start_from, tag_of};
use store::{Col, NONE};

// The tag and the length of a field for k points.
fn put_header(t: &mut [u8], tag: u8, k: usize)
    requires { (3 ≤ length t.old) × (k ≤ limit.POINTS) }
    ensures { t.new ≡ put_le 2 1 (trays.POINT * k) (set t.old 0 tag) }
{
    t[0] = tag;
    numbers::write_u16(t, 1, (POINT * k) as u32);
}

// The points of record i's path, laid over the beginning of t; answers how many bytes.
fn write_points(w: &[u32], rev: bool, i: usize, t: &mut [u8]) -> usize
    requires { PointsFit w.now rev i t.old }
    ensures { laid result t.new ≡ lay_over (path_bytes (path_points (view w.now) rev i)) t.old }
{
    let f = store::get(w, Col::First, i);
    let start = start_from(w, rev, f);
    write_round(w, rev, start, t)
}

// Whether record i is open or closed as asked, and its first points show that it has a path.
fn is_long(w: &[u32], rev: bool, opened: bool, i: usize) -> bool
    requires { Asked w.now rev i }
    ensures { result ≡ true → size_of (path_if (view w.now) opened i) ≢ 0 }
{
    if is_open(w, i) != opened {
        return false;
    }
    let f = store::get(w, Col::First, i);
    if f == NONE {
        return false;
    }
    let start = start_from(w, rev, f);
    has_four(w, rev, start)
}

// The field of a path that is there: its points on one walk, and then its length.
fn write_long(w: &[u32], rev: bool, opened: bool, i: usize, t: &mut [u8]) -> usize
    requires { FieldFits w.now rev opened i t.old × (size_of (path_if (view w.now) opened i) ≢ 0) }
    ensures { laid result t.new ≡ lay_over (field_at (view w.now) opened i) t.old }
{
    let n = write_points(w, rev, i, &mut t[3..]);
    let tag = tag_of(opened);
    put_header(t, tag, n / POINT);
    3 + n
}

// The field of record i's path, its points counted first, if it has one and is open or closed as asked; answers how long it is.
fn write_counted(w: &[u32], rev: bool, opened: bool, i: usize, t: &mut [u8]) -> usize
    requires { FieldFits w.now rev opened i t.old }
    ensures { laid result t.new ≡ lay_over (field_at (view w.now) opened i) t.old }
{
    let k = size_if(w, rev, opened, i);
    if k == 0 {
        return 0;
    }
    let tag = tag_of(opened);
    put_header(t, tag, k);
    write_points(w, rev, i, &mut t[3..]);
    3 + POINT * k
}

// The same, and counted only where the first points do not show that there is a path.
pub fn write_path(w: &[u32], rev: bool, opened: bool, i: usize, t: &mut [u8]) -> usize
    requires { FieldFits w.now rev opened i t.old }
    ensures { laid result t.new ≡ lay_over (field_at (view w.now) opened i) t.old }
{
    if is_long(w, rev, opened, i) {
        return write_long(w, rev, opened, i, t);
    }
    write_counted(w, rev, opened, i, t)
}
