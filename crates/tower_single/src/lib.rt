// A single job of a tower (document 01, Refusal numbers; document 02, request (v)): "a single job 20, 21, then the same". `run_job` takes any input.
#![tactic(auto)]

mod alone;
mod room;

ghost use Rattle.tower_work.specs.Granted.{three};
ghost use Rattle.tower_single.specs.Single.{TowerSingle};

use numbers::answer::{Answer, Refusal};
use tower_words::word::TowerWord;

// A single job: done, with its block written, or a refusal, with nothing written.
pub fn run_job(
    p0: &mut [f32],
    p1: &mut [f32],
    p2: &mut [f32],
    width: usize,
    height: usize,
    row: &[u16],
    differences: &[i16],
) -> Answer
    ensures { TowerSingle width height differences.now row.now (three p0.old p1.old p2.old) (three p0.new p1.new p2.new) result }
{
    if !tower_rules::are_planes(width, height, p0.len(), p1.len(), p2.len()) {
        return Err(Refusal::BadPlane);
    }
    if row.len() != TowerWord::COUNT {
        return Err(Refusal::BadPlan);
    }
    let job = tower_job::rules::read_row(width, height, differences.len(), row)?;
    alone::alone(p0, p1, p2, width, job, differences)
}
