// A case of `run` in the replayed list (document 01, Refusal numbers, in order of checking): its lists as long as the case says, its answer's number,
// and what the answers and the plane hold afterwards.
#![tactic(auto)]

use numbers::answer;
use series::{kind, room};
use text::line;
use text::line::Line;

// The text after a case that agrees.
fn past_case(line: Line<'_>) -> Option<&[u8]> {
    let mut plane = [0.0; room::PLANE];
    let mut plan = [0; room::PLAN];
    let mut order = [0; room::PLAN];
    let mut differences = [0; room::DIFFERENCES];
    let mut answers = [u16::MAX; room::PLAN];
    let plane = plane.get_mut(..line.size(2))?;
    let plan = plan.get_mut(..line.size(3))?;
    let order = order.get_mut(..line.size(4))?;
    let differences = differences.get_mut(..line.size(5))?;
    let answers = answers.get_mut(..line.size(6))?;
    let rest = series::fill(line.past(8), plane, kind::sample);
    let rest = series::fill(rest, plan, kind::word);
    let rest = series::fill(rest, order, kind::word);
    let rest = series::fill(rest, differences, kind::difference);
    let answer = plan::run(
        plane,
        line.size(0),
        line.size(1),
        plan,
        order,
        differences,
        answers,
    );
    if answer::number(answer) != line.number(7) {
        return None;
    }
    let rest = series::same(rest, answers, kind::word)?;
    series::same(rest, plane, kind::sample)
}

// Whether a case agrees, and nothing stands after it.
pub fn agrees(line: Line<'_>) -> bool {
    past_case(line).is_some_and(line::ends)
}
