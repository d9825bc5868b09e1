// The second order of a colour still's jobs; the plan's own goes plane by plane.
use crate::job_of;
use crate::plane::Plane;
use greymap::Greymap;
use picture_blocks::order;

// A wavefront over all three planes: a block reads those to its left and above it in its own plane, and of luma these and the one that it covers. Each
// block's three jobs come one after the other, luma first.
pub fn in_waves(g: Greymap, order: &mut [[u16; 3]; 64]) {
    let mut blocks = [0; 64];
    order::in_waves(g, &mut blocks);
    for (jobs, block) in order.iter_mut().zip(blocks) {
        *jobs = Plane::ALL.map(|plane| job_of(g, plane, block));
    }
}
