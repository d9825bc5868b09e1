// A plan of block jobs over one picture, run in an order (document 01, Refusal numbers). `run` takes any input and tests 20 to 23; the plane and the answers that it
// leaves are those of the plan's own order, whichever accepted order it was given.
#![tactic(auto)]

mod walk;

ghost use Rattle.plan.specs.Run.{RanOver};

use numbers::answer::{Answer, Refusal};

// Done, with the jobs done in the order given and each job's number at its plan row in `answers`; or a refusal, with nothing written.
pub fn run(
    plane: &mut [f32],
    width: usize,
    height: usize,
    plan: &[u16],
    order: &[u16],
    differences: &[i16],
    answers: &mut [u16],
) -> Answer
    ensures { RanOver width height differences.now plan.now order.now plane.old answers.old plane.new answers.new result }
{
    run_rules::refused(
        plane.len(),
        width,
        height,
        plan,
        order,
        differences.len(),
        answers.len(),
    )?;
    walk::run_order(plane, width, height, plan, order, differences, answers);
    Ok(())
}
