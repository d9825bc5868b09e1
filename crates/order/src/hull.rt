// A job's block and its hull, the rectangle around all that it reads and writes: two jobs whose blocks and hulls do not meet cannot clash
// (clash/proofs/Meets). Both are empty if it fails 1 to 7.
ghost use Rattle.std.specs.Prelude.{◌≡◌, true};
ghost use Rattle.touches.specs.Touches.{block_at};
ghost use Rattle.clash.specs.Hull.{one, past, hull_of, only_if};
ghost use Rattle.clash.specs.Rects.{rect_of, Near, HullFits};
ghost use Rattle.order.specs.Sides.{sides_of};

use crate::bound_lists;
use crate::bound_lists::Sides;
use block_spec::spec::IntraRefSpec;
use clash::hits;
use clash::rect::Rect;

// One row or column more if the neighbour is there.
fn one(there: bool) -> usize
    ensures { result ≡ one there }
{
    if there { 1 } else { 0 }
}

// How many samples past the block are read along a neighbour: none if it is missing.
fn past(there: bool, more: usize, b: usize) -> usize
    ensures { result ≡ past there more b }
{
    if there { minmax::min(more, b) } else { 0 }
}

// The hull.
fn hull(s: IntraRefSpec) -> Rect
    requires { Near s }
    ensures { rect_of result ≡ hull_of s }
{
    let b = s.b as usize;
    let left = one(s.have_left);
    let above = one(s.have_above);
    Rect {
        x: s.x as usize - left,
        y: s.y as usize - above,
        w: left + b + past(s.have_above, s.top_right as usize, b),
        h: above + b + past(s.have_left, s.bottom_left as usize, b),
    }
}

// The bounds of an empty rectangle.
fn none() -> Sides
    ensures { result ≡ sides_of (record { x = 0; y = 0; w = 0; h = 0 }) }
{
    Sides {
        x0: 0,
        x1: 0,
        y0: 0,
        y1: 0,
    }
}

// The bounds of the block.
pub fn block_sides(on: bool, s: IntraRefSpec) -> Sides
    requires { on ≡ true → HullFits s }
    ensures { result ≡ sides_of (only_if on (block_at s)) }
{
    if !on {
        return none();
    }
    bound_lists::sides_of(hits::square(s))
}

// The bounds of the hull.
pub fn hull_sides(on: bool, s: IntraRefSpec) -> Sides
    requires { on ≡ true → HullFits s }
    ensures { result ≡ sides_of (only_if on (hull_of s)) }
{
    if !on {
        return none();
    }
    bound_lists::sides_of(hull(s))
}
