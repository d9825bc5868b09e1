// The calls on jobs and plans over three planes, luma and then the two of chroma (document 02, request (v)).
ghost use Rattle.tower_work.specs.Granted.{three};
ghost use Rattle.tower.specs.Jobs.{TowerSingleC, TowerRanC};

use numbers::answer;

// `tower_single::run_job`, by its answer's number.
#[unsafe(no_mangle)]
pub extern "C" fn tower_run_job(
    plane0: &mut [f32],
    plane1: &mut [f32],
    plane2: &mut [f32],
    width: usize,
    height: usize,
    row: &[u16],
    differences: &[i16],
) -> u32
    ensures { TowerSingleC width height differences.now row.now (three plane0.old plane1.old plane2.old) (three plane0.new plane1.new plane2.new) result }
{
    answer::number(tower_single::run_job(plane0, plane1, plane2, width, height, row, differences))
}

// `tower_plan::run`, by its answer's number.
#[unsafe(no_mangle)]
pub extern "C" fn tower_run(
    plane0: &mut [f32],
    plane1: &mut [f32],
    plane2: &mut [f32],
    width: usize,
    height: usize,
    plan: &[u16],
    order: &[u16],
    differences: &[i16],
    answers: &mut [u16],
) -> u32
    ensures { TowerRanC width height differences.now plan.now order.now (three plane0.old plane1.old plane2.old) answers.old (three plane0.new plane1.new plane2.new) answers.new result }
{
    answer::number(tower_plan::run(
        plane0,
        plane1,
        plane2,
        width,
        height,
        plan,
        order,
        differences,
        answers,
    ))
}
