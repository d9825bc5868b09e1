// "A run tests 20 to 23" (document 01, Refusal numbers, in order of checking), of a tower's run (document 02, request (v)): "All planes are W by H"; "21 for rows not 32 words".
#![tactic(auto)]

ghost use Rattle.std.specs.Prelude.{◌≡◌};
ghost use Rattle.tower_rules.specs.Rules.{are_planes, is_tower_plan, tower_run_answer};

use numbers::answer::{Answer, Refusal};
use numbers::plan::Plan;
use tower_order::kept;
use tower_words::word::TowerWord;

// 20: each of the three planes, with so many samples.
pub fn are_planes(width: usize, height: usize, n0: usize, n1: usize, n2: usize) -> bool
    ensures { result ≡ are_planes width height n0 n1 n2 }
{
    let first = block_spec::rules::is_plane(width, height, n0);
    let second = block_spec::rules::is_plane(width, height, n1);
    let third = block_spec::rules::is_plane(width, height, n2);
    first & second & third
}

// 21: whole rows, at most 1,024 of them, with one entry a job in the order and in the answer list.
fn is_plan(plan: &[u16], order: usize, answers: usize) -> bool
    ensures { result ≡ is_tower_plan plan.now order answers }
{
    let n = plan.len() / TowerWord::COUNT;
    if plan.len() % TowerWord::COUNT != 0 {
        return false;
    }
    if Plan::MOST < n {
        return false;
    }
    if order != n {
        return false;
    }
    answers == n
}

// What a run answers, whose planes have so many samples, with n differences and an answer list of `answers` entries.
pub fn refused(
    n0: usize,
    n1: usize,
    n2: usize,
    width: usize,
    height: usize,
    plan: &[u16],
    order: &[u16],
    n: usize,
    answers: usize,
) -> Answer
    ensures { result ≡ tower_run_answer width height n0 n1 n2 n plan.now order.now answers }
{
    if !are_planes(width, height, n0, n1, n2) {
        return Err(Refusal::BadPlane);
    }
    if !is_plan(plan, order.len(), answers) {
        return Err(Refusal::BadPlan);
    }
    if each_once::is_plan_order(order) {
        return Ok(());
    }
    if !each_once::once(order) {
        return Err(Refusal::NotEachOnce);
    }
    if !kept::kept(width, height, n, plan, order) {
        return Err(Refusal::PairTurned);
    }
    Ok(())
}
