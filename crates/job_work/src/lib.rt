// One job over its plane: the edges are built, the block predicted, and the differences added into the plane.
#![tactic(auto)]

ghost use Rattle.std.specs.Prelude.{◌≡◌, true, ◌*◌, ◌≤◌, pos, length};
ghost use Rattle.numbers.specs.Depth.{most};
ghost use Rattle.lists.specs.Block.{block};
ghost use Rattle.refusals.specs.Promise.{Promise};
ghost use Rattle.block_spec.specs.Rules.{is_plane};
ghost use Rattle.touches.specs.Touches.{block_at};
ghost use Rattle.job_work.specs.Written.{predicted_at, written_at};
ghost use Rattle.paint.specs.Painted.{painted};
ghost use Rattle.job_work.specs.Done.{JobDone};
ghost use Rattle.job_work.specs.Granted.{Tested, Granted, read_answer, read_done};

use block_spec::answer;
use job::job::Job;
use neighbours::{fill, reads};
use numbers::answer::{Answer, Refusal};

// The predicted block, in out[..b * b], with room for the edges.
fn block_into(
    plane: &[f32],
    width: usize,
    n: usize,
    job: Job,
    above: &mut [i32],
    left: &mut [i32],
    out: &mut [f32],
)
    requires { Granted width n job plane.now × (length above.old ≡ 128) × (length left.old ≡ 128) × (job.spec.b * job.spec.b ≤ length out.old) }
    ensures { out.new ≡ block job.spec.b job.spec.b (predicted_at width job plane.now) out.old }
{
    let s = job.spec;
    let corner = fill::fill_edges(plane, width, s, above, left);
    modes::predict_into(job, above, left, corner, out);
}

// The block predicted, and written with its differences.
fn lent_job(
    plane: &mut [f32],
    width: usize,
    job: Job,
    m: i32,
    differences: &[i16],
    above: &mut [i32],
    left: &mut [i32],
    out: &mut [f32],
)
    requires granted { Granted width (length differences.now) job plane.old × (m ≡ pos (most job.spec.d)) }
    requires above_len { (length above.old ≡ 128) × (length left.old ≡ 128) × (job.spec.b * job.spec.b ≤ length out.old) }
    ensures { plane.new ≡ painted width (block_at job.spec) (written_at width differences.now job plane.old) plane.old }
{
    let s = job.spec;
    let start = job.start as usize;
    block_into(plane, width, differences.len(), job, above, left, out);
    paint::write_block(
        plane,
        width,
        s.x as usize,
        s.y as usize,
        s.b as usize,
        m,
        out,
        &differences[start..],
    );
}

// A job that 1 to 7 do not refuse: 8, and then its block.
pub fn do_read(
    plane: &mut [f32],
    width: usize,
    job: Job,
    differences: &[i16],
    above: &mut [i32],
    left: &mut [i32],
    out: &mut [f32],
) -> Answer
    requires tested { Tested width (length differences.now) (length plane.old) job }
    requires above_len { (length above.old ≡ 128) × (length left.old ≡ 128) × (job.spec.b * job.spec.b ≤ length out.old) }
    ensures { Promise (read_answer width job plane.old) (read_done width differences.now job plane.old) result plane.new }
{
    let s = job.spec;
    let m = answer::max_of(s.d);
    if !reads::all_read(plane, width, s, m) {
        return Err(Refusal::BadSample);
    }
    lent_job(plane, width, job, m, differences, above, left, out);
    Ok(())
}

// A job of a run: 1 to 7 and 8, and then its block. The edges and the predicted block have room in what is lent.
pub fn do_job(
    plane: &mut [f32],
    width: usize,
    height: usize,
    row: &[u16],
    differences: &[i16],
    above: &mut [i32],
    left: &mut [i32],
    out: &mut [f32],
) -> Answer
    requires plane_value { (is_plane width height (length plane.old) ≡ true) × (length row.now ≡ 16) }
    requires above_len { (length above.old ≡ 128) × (length left.old ≡ 128) × (length out.old ≡ 4096) }
    ensures { JobDone width height differences.now row.now plane.old plane.new result }
{
    let job = job::rules::read_row(width, height, differences.len(), row)?;
    do_read(plane, width, job, differences, above, left, out)
}
