// A tower's plan, block jobs over one luma and two chroma planes, run in an order (document 02, request (v)). `run` takes any input and tests 20 to 23;
// the planes and the answers that it leaves are those of the plan's own order, whichever accepted order it was given.
#![tactic(auto)]

mod walk;

ghost use Rattle.tower_work.specs.Granted.{three};
ghost use Rattle.tower_plan.specs.Run.{TowerRanOver};

use numbers::answer::Answer;

// Done, with the jobs done in the order given and each job's number at its plan row in `answers`; or a refusal, with nothing written.
pub fn run(
    p0: &mut [f32],
    p1: &mut [f32],
    p2: &mut [f32],
    width: usize,
    height: usize,
    plan: &[u16],
    order: &[u16],
    differences: &[i16],
    answers: &mut [u16],
) -> Answer
    ensures { TowerRanOver width height differences.now plan.now order.now (three p0.old p1.old p2.old) answers.old (three p0.new p1.new p2.new) answers.new result }
{
    tower_rules::refused(
        p0.len(),
        p1.len(),
        p2.len(),
        width,
        height,
        plan,
        order,
        differences.len(),
        answers.len(),
    )?;
    walk::run_order(p0, p1, p2, width, height, plan, order, differences, answers);
    Ok(())
}
