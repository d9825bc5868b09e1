// A single job (document 01, Refusal numbers): "a single job 20, 21, then the same". `run_job` takes any input.
#![tactic(auto)]

ghost use Rattle.std.specs.Prelude.{◌*◌, ◌≤◌, length};
ghost use Rattle.refusals.specs.Promise.{Promise};
ghost use Rattle.job_work.specs.Granted.{Tested, read_answer, read_done};
ghost use Rattle.single_job.specs.Single.{SingleDone};

use job::job::Job;
use numbers::answer::{Answer, Refusal};
use row_words::word::Word;

// A job that 1 to 7 do not refuse, with room for N samples of its prediction, and for its edges.
fn with_room<const N: usize>(
    plane: &mut [f32],
    width: usize,
    job: Job,
    differences: &[i16],
) -> Answer
    requires { Tested width (length differences.now) (length plane.old) job × (job.spec.b * job.spec.b ≤ N) × (N ≤ 4096) }
    ensures { Promise (read_answer width job plane.old) (read_done width differences.now job plane.old) result plane.new }
{
    let mut above = [0i32; 128];
    let mut left = [0i32; 128];
    let mut out = [0.0f32; N];
    job_work::do_read(
        plane,
        width,
        job,
        differences,
        &mut above,
        &mut left,
        &mut out,
    )
}

// A job that 1 to 7 do not refuse, with a room of its size class: clearing a large one would cost more than a small job.
pub fn alone(plane: &mut [f32], width: usize, job: Job, differences: &[i16]) -> Answer
    requires { Tested width (length differences.now) (length plane.old) job }
    ensures { Promise (read_answer width job plane.old) (read_done width differences.now job plane.old) result plane.new }
{
    if job.spec.b <= 8 {
        with_room::<64>(plane, width, job, differences)
    } else if job.spec.b <= 16 {
        with_room::<256>(plane, width, job, differences)
    } else if job.spec.b <= 32 {
        with_room::<1024>(plane, width, job, differences)
    } else {
        with_room::<4096>(plane, width, job, differences)
    }
}

// A single job: done, with its block written, or a refusal, with nothing written.
pub fn run_job(
    plane: &mut [f32],
    width: usize,
    height: usize,
    row: &[u16],
    differences: &[i16],
) -> Answer
    ensures { SingleDone width height differences.now row.now plane.old plane.new result }
{
    if !block_spec::rules::is_plane(width, height, plane.len()) {
        return Err(Refusal::BadPlane);
    }
    if row.len() != Word::COUNT {
        return Err(Refusal::BadPlan);
    }
    let job = job::rules::read_row(width, height, differences.len(), row)?;
    alone(plane, width, job, differences)
}
