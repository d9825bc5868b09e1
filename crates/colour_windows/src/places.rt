// Where a job's windows are used (document 02, request (v)): where the chroma window stands, and the rectangles of both windows that have the places
// that count inside the above lines, those below them, and the block.
ghost use Rattle.std.specs.Prelude.{◌≡◌, ◌-◌, ◌≤◌};
ghost use Rattle.colour_windows.specs.Held.{above_in, below_in, block_in};

use colour_sums::places;
use colour_sums::window::Window;
use colour_words::ColourWords;
use plane_windows::patch::Patch;

// The chroma window's first column.
pub fn chroma_x(c: ColourWords) -> usize
    requires { c.left_lines ≤ c.x }
    ensures { result ≡ c.x - c.left_lines }
{
    let left = c.left_lines as usize;
    c.x as usize - left
}

// The chroma window's first row.
pub fn chroma_y(c: ColourWords) -> usize
    requires { c.above_lines ≤ c.y }
    ensures { result ≡ c.y - c.above_lines }
{
    let above = c.above_lines as usize;
    c.y as usize - above
}

// The places that count inside the above lines.
pub fn above_in(w: Window) -> Patch
    ensures { result ≡ above_in w }
{
    Patch {
        x: 1,
        y: 1,
        w: w.ref_width.saturating_sub(2),
        h: places::rows_above(w),
    }
}

// Those below them, inside the left lines.
pub fn below_in(w: Window) -> Patch
    requires { w.ref_height ≤ 256 }
    ensures { result ≡ below_in w }
{
    let above = places::rows_above(w);
    Patch {
        x: 1,
        y: 1 + above,
        w: places::few(w),
        h: w.ref_height.saturating_sub(2) - above,
    }
}

// The block.
pub fn block_in(c: ColourWords) -> Patch
    ensures { result ≡ block_in c }
{
    Patch {
        x: c.left_lines as usize,
        y: c.above_lines as usize,
        w: c.width as usize,
        h: c.height as usize,
    }
}
