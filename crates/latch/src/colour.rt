// The colour calls (document 01, Colour parameters).
ghost use Rattle.colour_block.specs.Predicted.{block_from};
ghost use Rattle.latch.specs.Exported.{window, DerivedC, PredictedBlockC};

use colour_sums::window::Window;
use numbers::answer;

// `colour_params::derive_into`, by its answer's number.
#[unsafe(no_mangle)]
pub extern "C" fn latch_derive_params(
    luma: &[i32],
    chroma: &[i32],
    ref_width: usize,
    ref_height: usize,
    above_lines: usize,
    left_lines: usize,
    direction: u32,
    d: u32,
    params: &mut [i32],
) -> u32
    ensures { DerivedC luma.now chroma.now (window ref_width ref_height above_lines left_lines) direction d params.old params.new result }
{
    let w = Window {
        ref_width,
        ref_height,
        above_lines,
        left_lines,
    };
    answer::number(colour_params::derive_into(luma, chroma, w, direction, d, params))
}

// `colour_block::predict_block`, by its answer's number.
#[unsafe(no_mangle)]
pub extern "C" fn latch_predict_block(
    luma: &[i32],
    ref_width: usize,
    ref_height: usize,
    above_lines: usize,
    left_lines: usize,
    width: usize,
    height: usize,
    have_top: bool,
    have_left: bool,
    direction: u32,
    d: u32,
    p0: i32,
    p1: i32,
    p2: i32,
    out: &mut [i32],
) -> u32
    ensures { PredictedBlockC luma.now (block_from (window ref_width ref_height above_lines left_lines) width height have_top have_left direction d) p0 p1 p2 out.old out.new result }
{
    let w = Window {
        ref_width,
        ref_height,
        above_lines,
        left_lines,
    };
    answer::number(colour_block::predict_block(
        luma, w, width, height, have_top, have_left, direction, d, p0, p1, p2, out,
    ))
}
