// "A run tests 20 to 23" (document 01, Refusal numbers, in order of checking).
#![tactic(auto)]

ghost use Rattle.std.specs.Prelude.{◌≡◌};
ghost use Rattle.run_rules.specs.Rules.{is_plan, run_answer};

use numbers::answer::{Answer, Refusal};
use numbers::plan::Plan;
use order::kept;
use row_words::word::Word;

// 21: whole rows, at most 1,024 of them, with one entry a job in the order and in the answer list.
fn is_plan(plan: &[u16], order: usize, answers: usize) -> bool
    ensures { result ≡ is_plan plan.now order answers }
{
    let n = plan.len() / Word::COUNT;
    if plan.len() % Word::COUNT != 0 {
        return false;
    }
    if Plan::MOST < n {
        return false;
    }
    if order != n {
        return false;
    }
    answers == n
}

// What a run answers, whose plane has `samples` entries, its answer list `answers`, with n differences.
pub fn refused(
    samples: usize,
    width: usize,
    height: usize,
    plan: &[u16],
    order: &[u16],
    n: usize,
    answers: usize,
) -> Answer
    ensures { result ≡ run_answer width height samples n plan.now order.now answers }
{
    if !block_spec::rules::is_plane(width, height, samples) {
        return Err(Refusal::BadPlane);
    }
    if !is_plan(plan, order.len(), answers) {
        return Err(Refusal::BadPlan);
    }
    if each_once::is_plan_order(order) {
        return Ok(());
    }
    if !each_once::once(order) {
        return Err(Refusal::NotEachOnce);
    }
    if !kept::kept(width, height, n, plan, order) {
        return Err(Refusal::PairTurned);
    }
    Ok(())
}
