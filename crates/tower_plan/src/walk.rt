// "Job refusals go into the answer list (0 is done; entry i is plan row i) and the run continues." (document 01, Refusal numbers)
ghost use Rattle.std.specs.Prelude.{◌≡◌, length};
ghost use Rattle.tower_work.specs.Granted.{three};
ghost use Rattle.tower_plan.specs.Run.{TowerInOrder, TowerRows};

use numbers::answer::number;

// The rows that the order names, one after the other, with room for the windows, a colour block and a predicted block.
fn run_rows(
    p0: &mut [f32],
    p1: &mut [f32],
    p2: &mut [f32],
    width: usize,
    height: usize,
    plan: &[u16],
    order: &[u16],
    differences: &[i16],
    answers: &mut [u16],
    luma: &mut [i32],
    chroma: &mut [i32],
    block: &mut [i32],
    out: &mut [f32],
)
    requires tower_rows { TowerRows width height (three p0.old p1.old p2.old) plan.now order.now (length answers.old) }
    requires luma_len { (length luma.old ≡ 65536) × (length chroma.old ≡ 65536) × (length block.old ≡ 16384) × (length out.old ≡ 4096) }
    ensures { TowerInOrder width height differences.now plan.now order.now (three p0.old p1.old p2.old) answers.old (three p0.new p1.new p2.new) answers.new }
{
    for &entry in order {
        let i = entry as usize;
        let o = 32 * i;
        let e = o + 32;
        let answer = tower_work::do_job(
            p0,
            p1,
            p2,
            width,
            height,
            &plan[o..e],
            differences,
            luma,
            chroma,
            block,
            out,
        );
        answers[i] = number(answer) as u16;
    }
}

// The rows in an order, with that room made once for all jobs.
pub fn run_order(
    p0: &mut [f32],
    p1: &mut [f32],
    p2: &mut [f32],
    width: usize,
    height: usize,
    plan: &[u16],
    order: &[u16],
    differences: &[i16],
    answers: &mut [u16],
)
    requires { TowerRows width height (three p0.old p1.old p2.old) plan.now order.now (length answers.old) }
    ensures { TowerInOrder width height differences.now plan.now order.now (three p0.old p1.old p2.old) answers.old (three p0.new p1.new p2.new) answers.new }
{
    // no room is made where there is no job
    if order.is_empty() {
        return;
    }
    let mut luma = [0i32; 65536];
    let mut chroma = [0i32; 65536];
    let mut block = [0i32; 16384];
    let mut out = [0.0f32; 4096];
    run_rows(
        p0,
        p1,
        p2,
        width,
        height,
        plan,
        order,
        differences,
        answers,
        &mut luma,
        &mut chroma,
        &mut block,
        &mut out,
    );
}
