// Directions (document 01, Directions). The public call takes any input, and tests the refusals 1, 2, 3, 9, 8 in that order.
#![tactic(auto)]

mod choice;
mod copies;
pub mod turned;
mod words;

ghost use Rattle.direct_calls.specs.Direct.{PredictedBy};
ghost use Rattle.directional.specs.Words.{is_named, directed};

use numbers::answer::Answer;

// Done, with the block in out[..b * b], or a refusal, with nothing written. delta is the row's word, delta + 3; wide and high are max-width and
// max-height.
pub fn directional(
    b: u16,
    d: u16,
    direction: u16,
    delta: u16,
    flags: u16,
    wide: u16,
    high: u16,
    above: &[i32],
    left: &[i32],
    corner: i32,
    out: &mut [f32],
) -> Answer
    ensures { PredictedBy (is_named direction delta flags) (directed d direction delta flags wide high) b d above.now left.now corner out.old out.new result }
{
    let named = words::is_named(direction, delta, flags);
    direct_calls::direct::direct(b, d, named, above, left, corner, out.len())?;
    words::directed_into(
        b, d, direction, delta, flags, wide, high, above, left, corner, out,
    );
    Ok(())
}
