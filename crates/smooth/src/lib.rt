// smooth, smooth_v and smooth_h (document 01, The predictors). The public calls take any input, and test the refusals 1, 2, 9, 8 in that order.
#![tactic(auto)]

pub mod block;

ghost use Rattle.direct_calls.specs.Direct.{Predicted};
ghost use Rattle.smooth_spec.specs.Smooth.{smooth_v_at, smooth_h_at, smooth_at};

use numbers::answer::Answer;

// smooth: done, with the block in out[..b * b], or a refusal, with nothing written.
pub fn smooth(b: u16, d: u16, above: &[i32], left: &[i32], corner: i32, out: &mut [f32]) -> Answer
    ensures { Predicted smooth_at b d above.now left.now corner out.old out.new result }
{
    direct_calls::direct::direct(b, d, true, above, left, corner, out.len())?;
    block::smooth_into(b as usize, above, left, out);
    Ok(())
}

// smooth_v: the same with its own samples.
pub fn smooth_v(b: u16, d: u16, above: &[i32], left: &[i32], corner: i32, out: &mut [f32]) -> Answer
    ensures { Predicted smooth_v_at b d above.now left.now corner out.old out.new result }
{
    direct_calls::direct::direct(b, d, true, above, left, corner, out.len())?;
    block::smooth_v_into(b as usize, above, left, out);
    Ok(())
}

// smooth_h: the same with its own samples.
pub fn smooth_h(b: u16, d: u16, above: &[i32], left: &[i32], corner: i32, out: &mut [f32]) -> Answer
    ensures { Predicted smooth_h_at b d above.now left.now corner out.old out.new result }
{
    direct_calls::direct::direct(b, d, true, above, left, corner, out.len())?;
    block::smooth_h_into(b as usize, above, left, out);
    Ok(())
}
