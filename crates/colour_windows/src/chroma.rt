// The chroma window, at x - left_lines, y - above_lines (document 02, request (v)): of it only "the chroma samples that count" are tested and read.
ghost use Rattle.std.specs.Prelude.{◌≡◌, true, ◌+◌, ◌-◌, pos, length, get_or};
ghost use Rattle.std.specs.Float.{nan};
ghost use Rattle.numbers.specs.Depth.{most};
ghost use Rattle.samples.specs.Sample.{is_sample};
ghost use Rattle.edge_line.specs.Every.{every};
ghost use Rattle.plane_windows.specs.Into.{Into};
ghost use Rattle.colour_words.specs.Placed.{ColourLaid};
ghost use Rattle.colour_words.specs.Colour.{chroma_place};
ghost use Rattle.colour_windows.specs.Windows.{chroma_in, chroma_read};
ghost use Rattle.colour_windows.specs.Held.{PatchInWindow, Room, Sampled, ChromaHeld};

use crate::places;
use colour_words::ColourWords;
use plane_windows::patch::Patch;
use plane_windows::{range, read};

// Whether each sample of a rectangle of the window is a number in 0..m.
fn part_read(chroma: &[f32], width: usize, c: ColourWords, p: Patch, m: i32) -> bool
    requires { ColourLaid (length chroma.now) width c × (m ≡ pos (most c.d)) × PatchInWindow c p }
    ensures { result ≡ every (λ j. every (λ i. is_sample (pos (most c.d)) (get_or chroma.now (chroma_place width c (p.x + i) (p.y + j)) nan)) p.w) p.h }
{
    let x = places::chroma_x(c);
    let y = places::chroma_y(c);
    range::all_samples(chroma, width, p.moved(x, y), m)
}

// 8: whether each sample that counts is a number in 0..m.
pub fn chroma_read(chroma: &[f32], width: usize, c: ColourWords, m: i32) -> bool
    requires { ColourLaid (length chroma.now) width c × (m ≡ pos (most c.d)) }
    ensures { result ≡ chroma_read width c chroma.now }
{
    let w = c.window();
    part_read(chroma, width, c, places::above_in(w), m)
        && part_read(chroma, width, c, places::below_in(w), m)
}

// A rectangle of the window, read into the list.
fn read_part(chroma: &[f32], width: usize, c: ColourWords, p: Patch, window: &mut [i32])
    requires { ColourLaid (length chroma.now) width c × Room c window.old × PatchInWindow c p × Sampled c p (λ i j. get_or chroma.now (chroma_place width c i j) nan) }
    ensures { Into (chroma_in width c chroma.now) p.x p.y p.w p.h window.old window.new }
{
    let x = places::chroma_x(c);
    let y = places::chroma_y(c);
    read::read_patch(chroma, width, x, y, p, 1, window);
}

// The samples that count, read into the list.
pub fn read_chroma(chroma: &[f32], width: usize, c: ColourWords, window: &mut [i32])
    requires { ColourLaid (length chroma.now) width c × Room c window.old × (chroma_read width c chroma.now ≡ true) }
    ensures { (length window.new ≡ length window.old) × ChromaHeld c (chroma_in width c chroma.now) window.new }
{
    let w = c.window();
    read_part(chroma, width, c, places::above_in(w), window);
    read_part(chroma, width, c, places::below_in(w), window);
}
