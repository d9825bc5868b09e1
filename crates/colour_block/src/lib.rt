// Colour prediction, `predict_block` of mhccp.rs (document 01, Colour parameters). The public call takes any input, and tests the refusals 2, 10, 11, 12,
// 9, 13 in that order.
#![tactic(auto)]

pub mod block;

ghost use Rattle.colour_block.specs.Predicted.{block_from, PredictedBlock};

use colour_rules::block::Block;
use colour_sums::window::Window;
use numbers::answer::Answer;

// Done, with the block in out[..width * height], or a refusal, with nothing written.
pub fn predict_block(
    luma: &[i32],
    sizes: Window,
    width: usize,
    height: usize,
    have_top: bool,
    have_left: bool,
    direction: u32,
    d: u32,
    p0: i32,
    p1: i32,
    p2: i32,
    out: &mut [i32],
) -> Answer
    ensures { PredictedBlock luma.now (block_from sizes width height have_top have_left direction d) p0 p1 p2 out.old out.new result }
{
    let b = Block {
        ref_width: sizes.ref_width,
        ref_height: sizes.ref_height,
        above_lines: sizes.above_lines,
        left_lines: sizes.left_lines,
        width: width,
        height: height,
        have_top: have_top,
        have_left: have_left,
        direction: direction,
        d: d,
    };
    colour_rules::refused(luma, b, out.len())?;
    block::predict_into(luma, b, p0, p1, p2, out);
    Ok(())
}
