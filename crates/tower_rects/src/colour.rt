// Mode 5: "It reads its whole luma window and the chroma samples that count." (document 02, request (v))
ghost use Rattle.std.specs.Prelude.{◌≡◌, [], ◌∷◌};
ghost use Rattle.clash.specs.Rects.{rect_of};
ghost use Rattle.colour_words.specs.Colour.{luma_rect, colour_rect};
ghost use Rattle.colour_words.specs.Counted.{above_rect, beside_rect};
ghost use Rattle.tower_touches.specs.Rects.{nothing};
ghost use Rattle.tower_rects.specs.Rows.{rects_of, ChromaStarts};

use crate::rects;
use crate::rects::JobRects;
use clash::rect::Rect;
use colour_sums::places;
use colour_words::ColourWords;

// The block.
fn block(c: ColourWords) -> Rect
    ensures { rect_of result ≡ colour_rect c }
{
    Rect {
        x: c.x as usize,
        y: c.y as usize,
        w: c.width as usize,
        h: c.height as usize,
    }
}

// The luma window.
fn luma_window(c: ColourWords) -> Rect
    ensures { rect_of result ≡ luma_rect c }
{
    Rect {
        x: c.luma_x as usize,
        y: c.luma_y as usize,
        w: c.ref_width as usize,
        h: c.ref_height as usize,
    }
}

// The chroma samples that count in the rows inside the above lines.
fn counted_above(c: ColourWords) -> Rect
    requires { ChromaStarts c }
    ensures { rect_of result ≡ above_rect c }
{
    let w = c.window();
    Rect {
        x: c.x as usize - c.left_lines as usize + 1,
        y: c.y as usize - c.above_lines as usize + 1,
        w: w.ref_width.saturating_sub(2),
        h: places::rows_above(w),
    }
}

// Those that count in the rows below them.
fn counted_beside(c: ColourWords) -> Rect
    requires { ChromaStarts c }
    ensures { rect_of result ≡ beside_rect c }
{
    let w = c.window();
    let above = places::rows_above(w);
    let high = w.ref_height.saturating_sub(2);
    Rect {
        x: c.x as usize - c.left_lines as usize + 1,
        y: c.y as usize - c.above_lines as usize + 1 + above,
        w: places::few(w),
        h: high.saturating_sub(above),
    }
}

// All six, in their planes.
pub fn colour_rects(c: ColourWords) -> JobRects
    requires { ChromaStarts c }
    ensures { rects_of result ≡ colour_rect c ∷ luma_rect c ∷ above_rect c ∷ beside_rect c ∷ nothing ∷ nothing ∷ [] }
{
    JobRects {
        written: block(c),
        a: luma_window(c),
        b: counted_above(c),
        c: counted_beside(c),
        d: rects::none(),
        e: rects::none(),
    }
}
