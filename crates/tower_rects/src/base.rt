// Modes 0 to 4: the block, and the five runs that the first library reads (document 01, From samples to edges).
ghost use Rattle.std.specs.Prelude.{◌≡◌, true, ◌&&◌, ◌∷◌, ◌-◌};
ghost use Rattle.touches.specs.Touches.{block_at};
ghost use Rattle.touches.specs.Rects.{rect_if, runs_of};
ghost use Rattle.clash.specs.Rects.{rect_of, Near};
ghost use Rattle.tower_rects.specs.Rows.{rects_of};

use crate::rects;
use crate::rects::JobRects;
use block_spec::spec::IntraRefSpec;
use clash::hits;
use clash::rect::Rect;

// A run of the row above, if there is one.
fn run_above(s: IntraRefSpec, x: usize, w: usize) -> Rect
    requires { Near s }
    ensures { rect_of result ≡ rect_if s.have_above x (s.y - 1) w 1 }
{
    if !s.have_above {
        return rects::none();
    }
    let y = s.y as usize - 1;
    Rect { x, y, w, h: 1 }
}

// A run of the column at the left, if there is one.
fn run_left(s: IntraRefSpec, y: usize, h: usize) -> Rect
    requires { Near s }
    ensures { rect_of result ≡ rect_if s.have_left (s.x - 1) y 1 h }
{
    if !s.have_left {
        return rects::none();
    }
    let x = s.x as usize - 1;
    Rect { x, y, w: 1, h }
}

// The corner's sample, if there are both.
fn corner(s: IntraRefSpec) -> Rect
    requires { Near s }
    ensures { rect_of result ≡ rect_if (s.have_above && s.have_left) (s.x - 1) (s.y - 1) 1 1 }
{
    if !s.have_above {
        return rects::none();
    }
    if !s.have_left {
        return rects::none();
    }
    let x = s.x as usize - 1;
    let y = s.y as usize - 1;
    Rect { x, y, w: 1, h: 1 }
}

// All six, in their plane.
pub fn base_rects(s: IntraRefSpec) -> JobRects
    requires { Near s }
    ensures { rects_of result ≡ block_at s ∷ runs_of true s }
{
    let x = s.x as usize;
    let y = s.y as usize;
    let side = s.b as usize;
    JobRects {
        written: hits::square(s),
        a: run_above(s, x, minmax::min(side, s.available_above as usize)),
        b: run_above(s, x + side, minmax::min(s.top_right as usize, side)),
        c: run_left(s, y, minmax::min(side, s.available_left as usize)),
        d: run_left(s, y + side, minmax::min(s.bottom_left as usize, side)),
        e: corner(s),
    }
}
