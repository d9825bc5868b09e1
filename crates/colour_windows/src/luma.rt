// The luma window, at luma x, y, "each sample's reading times 8" (document 02, request (v)): all of it is tested, and what is used is read.
ghost use Rattle.std.specs.Prelude.{◌≡◌, true, ◌≤◌, pos, length};
ghost use Rattle.numbers.specs.Depth.{most};
ghost use Rattle.colour_words.specs.Placed.{ColourLaid};
ghost use Rattle.colour_windows.specs.Windows.{luma_in, luma_read};
ghost use Rattle.colour_windows.specs.Held.{PatchInWindow, Room, Around, Counted, LumaHeld};

use crate::places;
use colour_rules::range;
use colour_words::ColourWords;
use plane_windows::patch::Patch;
use plane_windows::read;

// "each sample's reading times 8"
const TIMES: i32 = 8;

// 8: whether each sample of the window is a number in 0..m.
pub fn luma_read(luma: &[f32], width: usize, c: ColourWords, m: i32) -> bool
    requires { ColourLaid (length luma.now) width c × (m ≡ pos (most c.d)) }
    ensures { result ≡ luma_read width c luma.now }
{
    let window = Patch {
        x: c.luma_x as usize,
        y: c.luma_y as usize,
        w: c.ref_width as usize,
        h: c.ref_height as usize,
    };
    plane_windows::range::all_samples(luma, width, window, m)
}

// A rectangle of the window, with so many rows above it and columns before it, read into the list.
fn read_around(
    luma: &[f32],
    width: usize,
    c: ColourWords,
    p: Patch,
    up: usize,
    left: usize,
    window: &mut [i32],
)
    requires colour_laid { ColourLaid (length luma.now) width c × Room c window.old × (luma_read width c luma.now ≡ true) }
    requires patch_in_window { PatchInWindow c p × (left ≤ p.x) × (up ≤ p.y) }
    ensures { Around (luma_in width c luma.now) p up left window.old window.new }
{
    let x = c.luma_x as usize;
    let y = c.luma_y as usize;
    read::read_patch(luma, width, x, y, p.widened(up, left), TIMES, window);
}

// What the places that count need.
fn read_counted(luma: &[f32], width: usize, c: ColourWords, window: &mut [i32])
    requires { ColourLaid (length luma.now) width c × Room c window.old × (luma_read width c luma.now ≡ true) }
    ensures { Counted c (luma_in width c luma.now) window.old window.new }
{
    let w = c.window();
    let direction = c.block().colour();
    let up = direction.rows_up();
    let left = direction.columns_left();
    read_around(luma, width, c, places::above_in(w), up, left, window);
    read_around(luma, width, c, places::below_in(w), up, left, window);
}

// What the places that count need, and what the block needs.
pub fn read_luma(luma: &[f32], width: usize, c: ColourWords, window: &mut [i32])
    requires { ColourLaid (length luma.now) width c × Room c window.old × (luma_read width c luma.now ≡ true) }
    ensures { (length window.new ≡ length window.old) × LumaHeld c (luma_in width c luma.now) window.new }
{
    read_counted(luma, width, c, window);
    let b = c.block();
    let up = range::up_of(b);
    let left = range::beside_of(b);
    read_around(luma, width, c, places::block_in(c), up, left, window);
}
