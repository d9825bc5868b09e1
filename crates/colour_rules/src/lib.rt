// The tests of a colour prediction, 2, 10, 11, 12, 9, 13 in that order (document 01, Refusal numbers), and the block that they are of.
#![tactic(auto)]

pub mod block;
pub mod place;
pub mod range;

ghost use Rattle.std.specs.Prelude.{◌≡◌};
ghost use Rattle.colour_rules.specs.Rules.{predict_answer};

use crate::block::Block;
use colour_terms::reference;
use numbers::answer::{Answer, Refusal};
use numbers::colour::ColourDirection;

// What a call answers, whose output has n entries.
pub fn refused(luma: &[i32], b: Block, n: usize) -> Answer
    ensures { result ≡ predict_answer luma.now b n }
{
    let depth = colour_terms::depth_of(b.d)?;
    ColourDirection::try_from(b.direction)?;
    if !reference::is_reference(b.ref_width, b.ref_height, luma.len()) {
        return Err(Refusal::BadReference);
    }
    if !reference::is_lines(b.above_lines, b.left_lines) {
        return Err(Refusal::BadLines);
    }
    if !place::is_placed(b) {
        return Err(Refusal::BadLines);
    }
    if !place::has_neighbours(b) {
        return Err(Refusal::BadLines);
    }
    if n < b.width * b.height {
        return Err(Refusal::ShortList);
    }
    if !range::luma_in_range(luma, b, depth.max()) {
        return Err(Refusal::BadColourSample);
    }
    Ok(())
}
