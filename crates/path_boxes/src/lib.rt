// The boxes of a tray's first paths, in a table: a path is walked once for its box, not once for every pair.
#![tactic(auto)]

ghost use Rattle.std.specs.Prelude.{◌≡◌, ◌≤◌, length};
ghost use Rattle.geometry.specs.Box.{box_of};
ghost use Rattle.listing.specs.Fields.{path_in};
ghost use Rattle.listing.specs.Needs.{FieldIn, FieldsIn};
ghost use Rattle.path_boxes.specs.Table.{or_nowhere, filled};

use containing::get_bounds_path;
use geometry::Rect;
use listing::value_length;
use paths::POINT;

// The box of a path of no points.
pub const NOWHERE: Rect = Rect {
    left: 0,
    top: 0,
    right: 0,
    bottom: 0,
};

// The box of the path of the field at f; zeros if it has no points.
fn bounds_of(t: &[u8], f: usize) -> Rect
    requires { FieldIn t.now f }
    ensures { result ≡ or_nowhere (box_of (path_in t.now f)) }
{
    let n = value_length(t, f) / POINT;
    if n == 0 {
        return NOWHERE;
    }
    get_bounds_path(t, f + 3, n)
}

// The boxes of the first c paths.
pub fn fill_boxes(t: &[u8], c: usize, boxes: &mut [Rect])
    requires fact_1 { FieldsIn t.now c 0 }
    requires fact_2 { c ≤ length boxes.old }
    ensures { boxes.new ≡ filled t.now c 0 0 boxes.old }
{
    let mut f: usize = 0;
    for i in 0..c {
        boxes[i] = bounds_of(t, f);
        f = f + 3 + value_length(t, f);
    }
}
