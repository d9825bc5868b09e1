// A colour job on its plane: luma is plane 0's, chroma its own plane's, 1 or 2 (document 02, request (v)).
ghost use Rattle.std.specs.Prelude.{◌≤◌, length};
ghost use Rattle.colour_words.specs.Placed.{ColourLaid};
ghost use Rattle.tower_work.specs.Granted.{three, OnePlane, ColourOn, ColourRoom};

use colour_words::ColourWords;
use numbers::answer::Answer;

// A job that no rule before 8 refuses, on plane k: 8 and 14, and then its block.
pub fn on_plane(
    p0: &[f32],
    p1: &mut [f32],
    p2: &mut [f32],
    k: u16,
    width: usize,
    c: ColourWords,
    luma: &mut [i32],
    chroma: &mut [i32],
    block: &mut [i32],
) -> Answer
    requires one_plane { OnePlane p0.now p1.old p2.old k × (1 ≤ k) × ColourLaid (length p0.now) width c }
    requires colour_room { ColourRoom c (length luma.old) (length chroma.old) (length block.old) }
    ensures { ColourOn width c k (three p0.now p1.old p2.old) (three p0.now p1.new p2.new) result }
{
    if k == 1 {
        return colour_job::do_colour(p0, p1, width, c, luma, chroma, block);
    }
    colour_job::do_colour(p0, p2, width, c, luma, chroma, block)
}
