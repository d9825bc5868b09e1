// Lists of bounds, four for 1,024 rows in one list of 4,096: 16-bit numbers that are compared eight at a time.
ghost use Rattle.std.specs.Prelude.{◌≡◌, ◌+◌, ◌-◌, ◌≤◌, ◌<◌, length};
ghost use Rattle.clash.specs.Rects.{rect_of};
ghost use Rattle.order.specs.Sides.{sides_of, met, any_met, noted};

use clash::rect::Rect;

// The first column and the one past the last, the first row and the one past the last.
#[derive(Clone, Copy)]
pub struct Sides {
    pub x0: i16,
    pub x1: i16,
    pub y0: i16,
    pub y1: i16,
}

// The bounds of a rectangle.
pub fn sides_of(r: Rect) -> Sides
    requires { (r.x + r.w ≤ 32767) × (r.y + r.h ≤ 32767) }
    ensures { result ≡ sides_of (rect_of r) }
{
    let x1 = r.x + r.w;
    let y1 = r.y + r.h;
    Sides {
        x0: r.x as i16,
        x1: x1 as i16,
        y0: r.y as i16,
        y1: y1 as i16,
    }
}

// Whether row j of the lists overlaps a rectangle.
pub fn meets_at(lists: &[i16], j: usize, s: Sides) -> bool
    requires { (length lists.now ≡ 4096) × (j < 1024) }
    ensures { result ≡ met lists.now j s }
{
    let x0 = lists[j];
    let x1 = lists[1024 + j];
    let y0 = lists[2048 + j];
    let y1 = lists[3072 + j];
    (x0 < s.x1) & (s.x0 < x1) & (y0 < s.y1) & (s.y0 < y1)
}

// Whether any of the rows from `from` up to `to` overlaps it: no branch, so that eight rows are compared at a time.
pub fn any_meets(lists: &[i16], from: usize, to: usize, s: Sides) -> bool
    requires { (length lists.now ≡ 4096) × (to ≤ 1024) }
    ensures { result ≡ any_met lists.now s from (to - from) }
{
    let mut hit = false;
    let mut j = from;
    while j < to {
        let here = meets_at(lists, j, s);
        hit = hit | here;
        j += 1;
    }
    hit
}

// The bounds are noted in row j.
pub fn note(lists: &mut [i16], j: usize, s: Sides)
    requires { (length lists.old ≡ 4096) × (j < 1024) }
    ensures { lists.new ≡ noted lists.old j s }
{
    let x0 = s.x0;
    lists[j] = x0;
    let x1 = s.x1;
    lists[1024 + j] = x1;
    let y0 = s.y0;
    lists[2048 + j] = y0;
    let y1 = s.y1;
    lists[3072 + j] = y1;
}
