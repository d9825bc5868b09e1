// The six rectangles of a job (document 02, request (v)): what it writes, and the five that it reads, of which some are empty.
ghost use Rattle.std.specs.Prelude.{◌≡◌, ◌≤◌};
ghost use Rattle.clash.specs.Rects.{rect_of};
ghost use Rattle.tower_touches.specs.Rects.{nothing};
ghost use Rattle.tower_rects.specs.Rows.{rects_of, lowered, lowered_all, nothings, Inside};

use clash::rect::Rect;

#[derive(Clone, Copy)]
pub struct JobRects {
    pub written: Rect,
    pub a: Rect,
    pub b: Rect,
    pub c: Rect,
    pub d: Rect,
    pub e: Rect,
}

// An empty rectangle.
pub fn none() -> Rect
    ensures { rect_of result ≡ nothing }
{
    Rect {
        x: 0,
        y: 0,
        w: 0,
        h: 0,
    }
}

// Those of a job that touches nothing.
pub fn untouched() -> JobRects
    ensures { rects_of result ≡ nothings }
{
    let none = none();
    JobRects {
        written: none,
        a: none,
        b: none,
        c: none,
        d: none,
        e: none,
    }
}

// A rectangle of a plane whose first row is row `top` of the tall picture.
fn lower(top: usize, r: Rect) -> Rect
    requires { (top ≤ 8192) × (r.y ≤ 4096) }
    ensures { rect_of result ≡ lowered top (rect_of r) }
{
    Rect {
        x: r.x,
        y: top + r.y,
        w: r.w,
        h: r.h,
    }
}

// All six: the first that is read is of a plane that starts at row `first`, the others of one that starts at row `top`.
pub fn lower_all(first: usize, top: usize, r: JobRects) -> JobRects
    requires { (first ≤ 8192) × (top ≤ 8192) × Inside 4096 4096 (rects_of r) }
    ensures { rects_of result ≡ lowered_all first top (rects_of r) }
{
    JobRects {
        written: lower(top, r.written),
        a: lower(first, r.a),
        b: lower(top, r.b),
        c: lower(top, r.c),
        d: lower(top, r.d),
        e: lower(top, r.e),
    }
}
