// "A job reads all these samples, in every mode; it writes its block." (document 01, From samples to edges) Two jobs clash if one writes a sample that
// the other reads or writes: the block of one is held against the runs that the other reads, and against its block.
ghost use Rattle.std.specs.Prelude.{◌≡◌, true, ◌&&◌, ◌||◌, [], ◌∷◌, ◌+◌, ◌-◌, min};
ghost use Rattle.reorder.specs.Rect.{meet_b, cross_b};
ghost use Rattle.touches.specs.Rects.{rect_if, runs_of};
ghost use Rattle.touches.specs.Touches.{block_at};
ghost use Rattle.clash.specs.Rects.{rect_of, Small, Near};

use crate::rect;
use crate::rect::Rect;
use block_spec::spec::IntraRefSpec;

// The block.
pub fn square(s: IntraRefSpec) -> Rect
    ensures { (rect_of result ≡ block_at s) × Small result }
{
    Rect {
        x: s.x as usize,
        y: s.y as usize,
        w: s.b as usize,
        h: s.b as usize,
    }
}

// Whether a rectangle meets the samples above that are available, or those to the right.
fn meets_above(a: Rect, s: IntraRefSpec) -> bool
    requires { Small a × Near s }
    ensures { result ≡ (meet_b (rect_of a) (rect_if s.have_above s.x (s.y - 1) (min s.b s.available_above) 1) || meet_b (rect_of a) (rect_if s.have_above (s.x + s.b) (s.y - 1) (min s.top_right s.b) 1)) }
{
    if !s.have_above {
        return false;
    }
    let x = s.x as usize;
    let y = s.y as usize - 1;
    let b = s.b as usize;
    let w = minmax::min(b, s.available_above as usize);
    let near = rect::meet(a, Rect { x, y, w, h: 1 });
    let x = x + b;
    let w = minmax::min(s.top_right as usize, b);
    let far = rect::meet(a, Rect { x, y, w, h: 1 });
    near | far
}

// Whether it meets the samples at the left that are available, or those below them.
fn meets_left(a: Rect, s: IntraRefSpec) -> bool
    requires { Small a × Near s }
    ensures { result ≡ (meet_b (rect_of a) (rect_if s.have_left (s.x - 1) s.y 1 (min s.b s.available_left)) || meet_b (rect_of a) (rect_if s.have_left (s.x - 1) (s.y + s.b) 1 (min s.bottom_left s.b))) }
{
    if !s.have_left {
        return false;
    }
    let x = s.x as usize - 1;
    let y = s.y as usize;
    let b = s.b as usize;
    let h = minmax::min(b, s.available_left as usize);
    let near = rect::meet(a, Rect { x, y, w: 1, h });
    let y = y + b;
    let h = minmax::min(s.bottom_left as usize, b);
    let far = rect::meet(a, Rect { x, y, w: 1, h });
    near | far
}

// Whether it meets the corner's sample.
fn meets_corner(a: Rect, s: IntraRefSpec) -> bool
    requires { Small a × Near s }
    ensures { result ≡ meet_b (rect_of a) (rect_if (s.have_above && s.have_left) (s.x - 1) (s.y - 1) 1 1) }
{
    if !s.have_above {
        return false;
    }
    if !s.have_left {
        return false;
    }
    let x = s.x as usize - 1;
    let y = s.y as usize - 1;
    rect::meet(a, Rect { x, y, w: 1, h: 1 })
}

// Whether the block of s meets what t reads or writes.
pub fn hits(s: IntraRefSpec, t: IntraRefSpec) -> bool
    requires { Near t }
    ensures { result ≡ (cross_b (block_at s ∷ []) (runs_of true t) || cross_b (block_at s ∷ []) (block_at t ∷ [])) }
{
    let a = square(s);
    let above = meets_above(a, t);
    let left = meets_left(a, t);
    let corner = meets_corner(a, t);
    let block = rect::meet(a, square(t));
    above | left | corner | block
}
