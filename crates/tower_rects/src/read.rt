// The six rectangles of a row in the tall picture. "Jobs that 8 or 14 refuse still count for clashes; other refused jobs touch nothing."
// (document 02, request (v))
ghost use Rattle.std.specs.Prelude.{◌≡◌, ◌≤◌, length};
ghost use Rattle.tower_rects.specs.Rows.{rects_of, row_rects};

use crate::rects::JobRects;
use crate::{base, colour, rects};
use tower_job::rules;
use tower_job::tower::TowerMode;

pub fn row_rects(width: usize, height: usize, n: usize, row: &[u16]) -> JobRects
    requires { (width ≤ 4096) × (height ≤ 4096) × (length row.now ≡ 32) }
    ensures { rects_of result ≡ row_rects width height n row.now }
{
    let Ok(job) = rules::read_row(width, height, n, row) else {
        return rects::untouched();
    };
    let top = job.plane as usize * height;
    let mode = job.mode;
    match mode {
        TowerMode::Base(b) => rects::lower_all(top, top, base::base_rects(b.spec)),
        TowerMode::Colour(c) => rects::lower_all(0, top, colour::colour_rects(c)),
    }
}
