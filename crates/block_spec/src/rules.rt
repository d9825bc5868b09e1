// The rules of where a block stands, one by one, each with its number (document 01, Refusal numbers).
ghost use Rattle.std.specs.Prelude.{◌≡◌, pos};
ghost use Rattle.numbers.specs.Depth.{most};
ghost use Rattle.block_spec.specs.Rules.{is_plane, is_inside, is_reach, has_neighbours, is_base};

use crate::spec::IntraRefSpec;
use numbers::plane::Plane;

// 20: the plane.
pub fn is_plane(w: usize, h: usize, n: usize) -> bool
    ensures { result ≡ is_plane w h n }
{
    if w < Plane::LEAST {
        return false;
    }
    if Plane::MOST < w {
        return false;
    }
    if h < Plane::LEAST {
        return false;
    }
    if Plane::MOST < h {
        return false;
    }
    n == w * h
}

// 4: the block lies in the plane.
pub fn is_inside(w: usize, h: usize, s: IntraRefSpec) -> bool
    ensures { result ≡ is_inside w h s }
{
    if w < s.x as usize + s.b as usize {
        return false;
    }
    s.y as usize + s.b as usize <= h
}

// Whether a neighbour's samples lie in the plane, if it is there.
fn is_reach(
    there: bool,
    across: u16,
    available: u16,
    start: u16,
    b: u16,
    more: u16,
    end: usize,
) -> bool
    ensures { result ≡ is_reach there across available start b more end }
{
    if !there {
        return true;
    }
    if across == 0 {
        return false;
    }
    if available == 0 {
        return false;
    }
    start as usize + b as usize + minmax::min(more as usize, b as usize) <= end
}

// 5: the neighbours' samples.
pub fn has_neighbours(w: usize, h: usize, s: IntraRefSpec) -> bool
    ensures { result ≡ has_neighbours w h s }
{
    if !is_reach(
        s.have_above,
        s.y,
        s.available_above,
        s.x,
        s.b,
        s.top_right,
        w,
    ) {
        return false;
    }
    is_reach(
        s.have_left,
        s.x,
        s.available_left,
        s.y,
        s.b,
        s.bottom_left,
        h,
    )
}

// 6: the base, where it is needed.
pub fn is_base(s: IntraRefSpec, m: i32) -> bool
    requires { m ≡ pos (most s.d) }
    ensures { result ≡ is_base s }
{
    if s.have_above {
        return true;
    }
    if s.have_left {
        return true;
    }
    if s.base == 0 {
        return false;
    }
    (s.base as i32) < m
}
