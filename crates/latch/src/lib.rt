// What C, C++ and Rust programs link: include/latchorchard.h declares these functions. Each takes any input, returns 0 or a refusal's number, and
// changes nothing that it was lent when it refuses.
#![tactic(auto)]

pub mod blocks;
pub mod colour;
pub mod jobs;

ghost use Rattle.paeth.specs.Paeth.{paeth_at};
ghost use Rattle.smooth_spec.specs.Smooth.{smooth_at, smooth_v_at, smooth_h_at};
ghost use Rattle.directional.specs.Words.{is_named, directed};
ghost use Rattle.latch.specs.Exported.{spec, lists, BuiltC, PredictedC, PredictedByC};

use block_spec::spec::IntraRefSpec;
use numbers::answer;

// `edges::build_refs`, by its answer's number. The corner is an output of at least one entry.
#[unsafe(no_mangle)]
pub extern "C" fn latch_build_refs(
    plane: &[f32],
    width: usize,
    height: usize,
    x: u16,
    y: u16,
    b: u16,
    d: u16,
    have_above: bool,
    have_left: bool,
    top_right: u16,
    bottom_left: u16,
    available_above: u16,
    available_left: u16,
    base: u16,
    above: &mut [i32],
    left: &mut [i32],
    corner: &mut [i32],
) -> u32
    ensures { BuiltC plane.now width height (spec x y b d have_above have_left top_right bottom_left available_above available_left base) (lists above.old left.old corner.old) (lists above.new left.new corner.new) result }
{
    let s = IntraRefSpec {
        x,
        y,
        b,
        d,
        have_above,
        have_left,
        top_right,
        bottom_left,
        available_above,
        available_left,
        base,
    };
    answer::number(edges::build_refs(plane, width, height, s, above, left, corner))
}

// `paeth::paeth`, by its answer's number.
#[unsafe(no_mangle)]
pub extern "C" fn latch_paeth(
    b: u16,
    d: u16,
    above: &[i32],
    left: &[i32],
    corner: i32,
    out: &mut [f32],
) -> u32
    ensures { PredictedC paeth_at b d above.now left.now corner out.old out.new result }
{
    answer::number(paeth::paeth(b, d, above, left, corner, out))
}

// `smooth::smooth`, by its answer's number.
#[unsafe(no_mangle)]
pub extern "C" fn latch_smooth(
    b: u16,
    d: u16,
    above: &[i32],
    left: &[i32],
    corner: i32,
    out: &mut [f32],
) -> u32
    ensures { PredictedC smooth_at b d above.now left.now corner out.old out.new result }
{
    answer::number(smooth::smooth(b, d, above, left, corner, out))
}

// `smooth::smooth_v`, by its answer's number.
#[unsafe(no_mangle)]
pub extern "C" fn latch_smooth_v(
    b: u16,
    d: u16,
    above: &[i32],
    left: &[i32],
    corner: i32,
    out: &mut [f32],
) -> u32
    ensures { PredictedC smooth_v_at b d above.now left.now corner out.old out.new result }
{
    answer::number(smooth::smooth_v(b, d, above, left, corner, out))
}

// `smooth::smooth_h`, by its answer's number.
#[unsafe(no_mangle)]
pub extern "C" fn latch_smooth_h(
    b: u16,
    d: u16,
    above: &[i32],
    left: &[i32],
    corner: i32,
    out: &mut [f32],
) -> u32
    ensures { PredictedC smooth_h_at b d above.now left.now corner out.old out.new result }
{
    answer::number(smooth::smooth_h(b, d, above, left, corner, out))
}

// `directional::directional`, by its answer's number. delta is the row's word, delta + 3.
#[unsafe(no_mangle)]
pub extern "C" fn latch_directional(
    b: u16,
    d: u16,
    direction: u16,
    delta: u16,
    flags: u16,
    wide: u16,
    high: u16,
    above: &[i32],
    left: &[i32],
    corner: i32,
    out: &mut [f32],
) -> u32
    ensures { PredictedByC (is_named direction delta flags) (directed d direction delta flags wide high) b d above.now left.now corner out.old out.new result }
{
    answer::number(directional::directional(
        b, d, direction, delta, flags, wide, high, above, left, corner, out,
    ))
}
