// A picture's plan: for each block, row by row, a job by the predictor that comes nearest to it, with its differences.
#![tactic(auto)]

mod tried;

use greymap::Greymap;
use picture_blocks::candidate::Choice;
use picture_blocks::{Spot, row};
use tried::Tried;

// The whole plan, as far as there is room: for each block its row, its differences, and which predictor was taken.
pub fn make(
    original: &[f32],
    g: Greymap,
    rows: &mut [[u16; 16]],
    differences: &mut [[i16; 64]],
    choices: &mut [Choice],
) {
    for k in 0..greymap::product(g.across, g.down) {
        let at = Spot::of(k, g.across);
        let tried = Tried::on(original, g, at);
        let best = tried.nearest();
        picture_blocks::put(rows, k, row::row_of(g, at, best.number));
        picture_blocks::put(differences, k, tried.differences(best.number));
        picture_blocks::put(choices, k, best);
    }
}
