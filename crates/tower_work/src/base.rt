// A job of the first library on its plane, any of the three, in modes 0 to 4 (document 02, request (v)).
ghost use Rattle.std.specs.Prelude.{◌≡◌, ◌*◌, ◌≤◌, length};
ghost use Rattle.job_work.specs.Granted.{Tested};
ghost use Rattle.tower_work.specs.Granted.{three, OnePlane, BaseOn};

use job::job::Job;
use numbers::answer::Answer;

// A job that 1 to 7 do not refuse, on plane k: 8, and then its block. The edges and the predicted block have room in what is lent.
pub fn on_plane(
    p0: &mut [f32],
    p1: &mut [f32],
    p2: &mut [f32],
    k: u16,
    width: usize,
    job: Job,
    differences: &[i16],
    above: &mut [i32],
    left: &mut [i32],
    out: &mut [f32],
) -> Answer
    requires one_plane { OnePlane p0.old p1.old p2.old k × Tested width (length differences.now) (length p0.old) job }
    requires above_len { (length above.old ≡ 128) × (length left.old ≡ 128) × (job.spec.b * job.spec.b ≤ length out.old) }
    ensures { BaseOn width differences.now job k (three p0.old p1.old p2.old) (three p0.new p1.new p2.new) result }
{
    if k == 0 {
        return job_work::do_read(p0, width, job, differences, above, left, out);
    }
    if k == 1 {
        return job_work::do_read(p1, width, job, differences, above, left, out);
    }
    job_work::do_read(p2, width, job, differences, above, left, out)
}
