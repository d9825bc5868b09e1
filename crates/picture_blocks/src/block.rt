// A block's samples, and the same as numbers.
ghost use Rattle.std.specs.Prelude.{◌<◌};

use crate::Spot;
use greymap::Greymap;
use std::array;

// A whole sample as a number, and 0 for what is none.
pub fn whole(v: f32) -> u16 {
    if samples::is_sample(v, 4095) {
        samples::read_sample(v) as u16
    } else {
        0
    }
}

// The place of a block's sample in the picture, with i its number in the block.
fn place(g: Greymap, at: Spot, i: usize) -> usize
    requires { i < 64 }
{
    (usize::from(at.y()) + i / 8) * g.width() + usize::from(at.x()) + i % 8
}

// The samples that a plane has at a block, and 0.0 where it has none.
pub fn samples_of(plane: &[f32], g: Greymap, at: Spot) -> [f32; 64] {
    array::from_fn(|i| plane.get(place(g, at, i)).copied().unwrap_or(0.0))
}

// The same as numbers.
pub fn block_of(plane: &[f32], g: Greymap, at: Spot) -> [u16; 64] {
    samples_of(plane, g, at).map(whole)
}
