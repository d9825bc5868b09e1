// A colour still's plan: for each block of each plane a job. A block of chroma is made from luma where that comes near enough; any other is made by
// the plain mode that comes nearest, with its differences, and so is exact.
#![tactic(auto)]

use picture_blocks::{Spot, block, distance};
use tower_blocks::plane::{Plane, Planes};
use tower_blocks::{PlaneBlock, row};

// The differences of a job by a plain mode: the block's from what the job without them makes of it.
fn put_differences(
    planes: &mut Planes,
    b: PlaneBlock,
    number: u8,
    due: &[u16; 64],
    differences: &mut [[i16; 64]],
) {
    let g = planes.g;
    planes.run_alone(&row::row_of(g, b, number, 0), &[0; 64]);
    let left = distance::differences_of(&planes.block(b), due);
    picture_blocks::put(differences, b.job(g), left);
}

// The job of a block, and its differences at their place. It is run as it is chosen: the next ones read what it wrote.
fn put_job(
    planes: &mut Planes,
    original: &Planes,
    b: PlaneBlock,
    rows: &mut [[u16; 32]],
    differences: &mut [[i16; 64]],
) {
    let g = planes.g;
    let due = block::block_of(original.samples(b.plane), g, b.at);
    let number = tower_choice::choose(planes, b, &due);
    if number < row::FIRST_COLOUR {
        put_differences(planes, b, number, &due, differences);
    }
    planes.run_alone(&row::planned(g, b, number), differences.as_flattened());
    row::put_row(g, b, number, rows);
}

// The whole plan of an original, as far as there is room. The planes that it is tried on are off the stack when this returns.
#[inline(never)]
pub fn make(original: &Planes, rows: &mut [[u16; 32]], differences: &mut [[i16; 64]]) {
    let g = original.g;
    let mut planes = Planes::unwritten(g);
    for plane in Plane::ALL {
        for k in 0..greymap::product(g.across, g.down) {
            let at = Spot::of(k, g.across);
            put_job(
                &mut planes,
                original,
                PlaneBlock { plane, at },
                rows,
                differences,
            );
        }
    }
}
