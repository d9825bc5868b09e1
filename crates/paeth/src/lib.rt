// Paeth (document 01, The predictors). The public call takes any input, and tests the refusals 1, 2, 9, 8 in that order.
#![tactic(auto)]

pub mod block;

ghost use Rattle.direct_calls.specs.Direct.{Predicted};
ghost use Rattle.paeth.specs.Paeth.{paeth_at};

use numbers::answer::Answer;

// Done, with the block in out[..b * b], or a refusal, with nothing written.
pub fn paeth(b: u16, d: u16, above: &[i32], left: &[i32], corner: i32, out: &mut [f32]) -> Answer
    ensures { Predicted paeth_at b d above.now left.now corner out.old out.new result }
{
    direct_calls::direct::direct(b, d, true, above, left, corner, out.len())?;
    block::paeth_into(b as usize, above, left, corner, out);
    Ok(())
}
