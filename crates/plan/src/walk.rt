// "Job refusals go into the answer list (0 is done; entry i is plan row i) and the run continues." (document 01, Refusal numbers)
ghost use Rattle.std.specs.Prelude.{◌≡◌, length};
ghost use Rattle.plan.specs.Run.{DoneInOrder, Rows};

use numbers::answer::number;

// The rows that the order names, one after the other, with room for the edges and a predicted block.
fn run_rows(
    plane: &mut [f32],
    width: usize,
    height: usize,
    plan: &[u16],
    order: &[u16],
    differences: &[i16],
    answers: &mut [u16],
    above: &mut [i32],
    left: &mut [i32],
    out: &mut [f32],
)
    requires rows { Rows width height (length plane.old) plan.now order.now (length answers.old) }
    requires above_len { (length above.old ≡ 128) × (length left.old ≡ 128) × (length out.old ≡ 4096) }
    ensures { DoneInOrder width height differences.now plan.now order.now plane.old answers.old plane.new answers.new }
{
    for &entry in order {
        let i = entry as usize;
        let o = 16 * i;
        let e = o + 16;
        let answer = job_work::do_job(
            plane,
            width,
            height,
            &plan[o..e],
            differences,
            above,
            left,
            out,
        );
        answers[i] = number(answer) as u16;
    }
}

// The rows in an order, with that room made once for all jobs.
pub fn run_order(
    plane: &mut [f32],
    width: usize,
    height: usize,
    plan: &[u16],
    order: &[u16],
    differences: &[i16],
    answers: &mut [u16],
)
    requires { Rows width height (length plane.old) plan.now order.now (length answers.old) }
    ensures { DoneInOrder width height differences.now plan.now order.now plane.old answers.old plane.new answers.new }
{
    // no room is made where there is no job
    if order.is_empty() {
        return;
    }
    let mut above = [0i32; 128];
    let mut left = [0i32; 128];
    let mut out = [0.0f32; 4096];
    run_rows(
        plane,
        width,
        height,
        plan,
        order,
        differences,
        answers,
        &mut above,
        &mut left,
        &mut out,
    );
}
