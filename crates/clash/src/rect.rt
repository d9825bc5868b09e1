// Rectangles of the plane's samples.
ghost use Rattle.std.specs.Prelude.{◌≡◌};
ghost use Rattle.reorder.specs.Rect.{meet_b};
ghost use Rattle.clash.specs.Rects.{rect_of, Small};

// w columns from x on, h rows from y on.
#[derive(Clone, Copy)]
pub struct Rect {
    pub x: usize,
    pub y: usize,
    pub w: usize,
    pub h: usize,
}

// Whether two rectangles share a sample.
pub fn meet(a: Rect, b: Rect) -> bool
    requires { Small a × Small b }
    ensures { result ≡ meet_b (rect_of a) (rect_of b) }
{
    if minmax::max(a.x, b.x) < minmax::min(a.x + a.w, b.x + b.w) {
        minmax::max(a.y, b.y) < minmax::min(a.y + a.h, b.y + b.h)
    } else {
        false
    }
}
