// Which job a block of a colour still gets: jobs are tried one by one over the planes as they are rebuilt so far.
#![tactic(auto)]

use picture_blocks::candidate::Choice;
use picture_blocks::{candidate, distance};
use std::ops::Range;
use tower_blocks::plane::{Plane, Planes};
use tower_blocks::{PlaneBlock, row};

// Two a sample on the average, of 8 bits; with each bit more twice as much.
fn near_enough(d: u16) -> u32 {
    match d {
        8 => 128,
        10 => 512,
        _ => 2048,
    }
}

// How far a job without differences, by its number, is off the block, if it is done.
fn error_of(planes: &mut Planes, b: PlaneBlock, number: u8, due: &[u16; 64]) -> Option<u32> {
    let row = row::row_of(planes.g, b, number, 0);
    if !planes.run_alone(&row, &[0; 64]) {
        return None;
    }
    Some(distance::error_of(&planes.block(b), due))
}

// The nearest of some jobs, by their numbers.
fn nearest(planes: &mut Planes, b: PlaneBlock, numbers: Range<u8>, due: &[u16; 64]) -> Choice {
    candidate::nearest(numbers, |number| error_of(planes, b, number, due))
}

// The number of the job that a block gets.
pub fn choose(planes: &mut Planes, b: PlaneBlock, due: &[u16; 64]) -> u8 {
    if b.plane != Plane::Luma {
        let colour = nearest(planes, b, row::COLOUR, due);
        if colour.error <= near_enough(planes.g.d) {
            return colour.number;
        }
    }
    nearest(planes, b, row::PLAIN, due).number
}
