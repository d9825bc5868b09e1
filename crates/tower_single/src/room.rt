// A colour job by itself, with a room of its size class: clearing a large one would cost more than a small job. The windows' rows lie 256 entries
// apart, and a block has at most 128 columns and as many rows as its window.
ghost use Rattle.std.specs.Prelude.{◌≤◌, length};
ghost use Rattle.colour_words.specs.Placed.{ColourLaid};
ghost use Rattle.tower_work.specs.Granted.{three, OnePlane, ColourOn, ColourRoom};

use colour_words::ColourWords;
use numbers::answer::Answer;
use tower_work::colour;

// A job that no rule before 8 refuses, on plane k, with room for windows of WINDOW entries and a block of BLOCK.
fn with_room<const WINDOW: usize, const BLOCK: usize>(
    p0: &[f32],
    p1: &mut [f32],
    p2: &mut [f32],
    k: u16,
    width: usize,
    c: ColourWords,
) -> Answer
    requires one_plane { OnePlane p0.now p1.old p2.old k × (1 ≤ k) × ColourLaid (length p0.now) width c }
    requires colour_room { ColourRoom c WINDOW WINDOW BLOCK × (WINDOW ≤ 65536) × (BLOCK ≤ 16384) }
    ensures { ColourOn width c k (three p0.now p1.old p2.old) (three p0.now p1.new p2.new) result }
{
    let mut luma = [0i32; WINDOW];
    let mut chroma = [0i32; WINDOW];
    let mut block = [0i32; BLOCK];
    colour::on_plane(p0, p1, p2, k, width, c, &mut luma, &mut chroma, &mut block)
}

// The same by its size class: a window of at most 16 rows, of at most 64, or of any height.
pub fn colour_alone(
    p0: &[f32],
    p1: &mut [f32],
    p2: &mut [f32],
    k: u16,
    width: usize,
    c: ColourWords,
) -> Answer
    requires { OnePlane p0.now p1.old p2.old k × (1 ≤ k) × ColourLaid (length p0.now) width c }
    ensures { ColourOn width c k (three p0.now p1.old p2.old) (three p0.now p1.new p2.new) result }
{
    if c.ref_height <= 16 {
        with_room::<4096, 2048>(p0, p1, p2, k, width, c)
    } else if c.ref_height <= 64 {
        with_room::<16384, 8192>(p0, p1, p2, k, width, c)
    } else {
        with_room::<65536, 16384>(p0, p1, p2, k, width, c)
    }
}
