// From samples to edges (document 01, section of that name): `build_refs` takes any input, tests 20, 1, 2, 4, 5, 6, 9, 8 in that order, and writes
// both edges and the corner.
#![tactic(auto)]

mod answer;

ghost use Rattle.edges.specs.Refs.{Built};

use crate::answer::Lengths;
use block_spec::spec::IntraRefSpec;
use neighbours::fill;
use numbers::answer::Answer;

// Done, with 128 entries of above and left and one of corner written, or a refusal, with nothing written.
pub fn build_refs(
    plane: &[f32],
    width: usize,
    height: usize,
    s: IntraRefSpec,
    above: &mut [i32],
    left: &mut [i32],
    corner: &mut [i32],
) -> Answer
    ensures { Built plane.now width height s (record { above = above.entry.now; left = left.old; corner = corner.old }) (record { above = above.exit.now; left = left.new; corner = corner.new }) result }
{
    let n = Lengths {
        above: above.len(),
        left: left.len(),
        corner: corner.len(),
    };
    answer::refused(plane, width, height, s, n)?;
    corner[0] = fill::fill_edges(plane, width, s, above, left);
    Ok(())
}
