// A job that no rule before 8 refuses, by itself: on its plane, with a room of its size class.
ghost use Rattle.std.specs.Prelude.{length};
ghost use Rattle.job_work.specs.Granted.{Tested};
ghost use Rattle.tower_work.specs.Granted.{three, OnePlane, TowerRead, TowerLeft, BaseOn};

use crate::room;
use job::job::Job;
use numbers::answer::Answer;
use tower_job::tower::{TowerJob, TowerMode};

// A job of the first library on plane k.
fn base_alone(
    p0: &mut [f32],
    p1: &mut [f32],
    p2: &mut [f32],
    k: u16,
    width: usize,
    job: Job,
    differences: &[i16],
) -> Answer
    requires { OnePlane p0.old p1.old p2.old k × Tested width (length differences.now) (length p0.old) job }
    ensures { BaseOn width differences.now job k (three p0.old p1.old p2.old) (three p0.new p1.new p2.new) result }
{
    if k == 0 {
        return single_job::alone(p0, width, job, differences);
    }
    if k == 1 {
        return single_job::alone(p1, width, job, differences);
    }
    single_job::alone(p2, width, job, differences)
}

// By its mode.
pub fn alone(
    p0: &mut [f32],
    p1: &mut [f32],
    p2: &mut [f32],
    width: usize,
    job: TowerJob,
    differences: &[i16],
) -> Answer
    requires { OnePlane p0.old p1.old p2.old job.plane × TowerRead width (length differences.now) (length p0.old) job.mode job.plane }
    ensures { TowerLeft width differences.now job.mode job.plane (three p0.old p1.old p2.old) (three p0.new p1.new p2.new) result }
{
    let k = job.plane;
    let mode = job.mode;
    match mode {
        TowerMode::Base(base) => base_alone(p0, p1, p2, k, width, base, differences),
        TowerMode::Colour(c) => room::colour_alone(p0, p1, p2, k, width, c),
    }
}
