// How far a prediction is off a block: the sum of its samples' distances, and the differences that a job has.
use crate::block;
use std::array;

// How far a prediction is off the block. The sum of 64 distances fits.
pub fn error_of(out: &[f32; 64], block: &[u16; 64]) -> u32 {
    out.iter()
        .zip(block)
        .map(|(v, b)| u32::from(block::whole(*v).abs_diff(*b)))
        .fold(0, u32::saturating_add)
}

// b - a, as a difference has it; samples are so small that none is cut.
fn minus(a: u16, b: u16) -> i16 {
    let difference = i32::from(b) - i32::from(a);
    difference.clamp(-32768, 32767) as i16
}

// The block's differences from a prediction.
pub fn differences_of(out: &[f32; 64], block: &[u16; 64]) -> [i16; 64] {
    array::from_fn(|i| minus(block::whole(out[i]), block[i]))
}
