// The calls on jobs: a single one, and a plan's in an order (document 01, Refusal numbers, in order of checking).
ghost use Rattle.latch.specs.Jobs.{JobDoneC, RanC};

use numbers::answer;

// `single_job::run_job`, by its answer's number.
#[unsafe(no_mangle)]
pub extern "C" fn latch_run_job(
    plane: &mut [f32],
    width: usize,
    height: usize,
    row: &[u16],
    differences: &[i16],
) -> u32
    ensures { JobDoneC width height differences.now row.now plane.old plane.new result }
{
    answer::number(single_job::run_job(plane, width, height, row, differences))
}

// `plan::run`, by its answer's number.
#[unsafe(no_mangle)]
pub extern "C" fn latch_run(
    plane: &mut [f32],
    width: usize,
    height: usize,
    plan: &[u16],
    order: &[u16],
    differences: &[i16],
    answers: &mut [u16],
) -> u32
    ensures { RanC width height differences.now plan.now order.now plane.old answers.old plane.new answers.new result }
{
    answer::number(plan::run(plane, width, height, plan, order, differences, answers))
}
