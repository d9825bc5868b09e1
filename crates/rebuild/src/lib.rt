// A picture rebuilt from nothing by one run of its plan in an order, and held against the original.
#![tactic(auto)]

pub mod count;

use greymap::Greymap;
use numbers::answer::Answer;
use picture_blocks::{UNWRITTEN, order};

// A plan of a picture or of a still: its jobs' rows of N words, and their differences.
#[derive(Clone, Copy)]
pub struct Plan<'a, const N: usize> {
    pub g: Greymap,
    pub rows: &'a [[u16; N]],
    pub differences: &'a [[i16; 64]],
}

// The run's answer, how many jobs it did, and how many samples equal the original's.
#[derive(Clone, Copy, Debug, PartialEq, Eq)]
pub struct Rebuilt {
    pub answer: Answer,
    pub done: usize,
    pub equal: usize,
}

// An answer that no run gives.
pub const UNANSWERED: u16 = u16::MAX;

// The jobs are run in an order over a picture that holds no sample yet; where a list is too short the run itself refuses.
fn rebuild(original: &[f32], plan: Plan<'_, 16>, order: &[u16; 64]) -> Rebuilt {
    let g = plan.g;
    let order = series::first(order, g.jobs());
    let mut plane = UNWRITTEN;
    let plane = &mut plane[..original.len().min(4096)];
    let mut answers = [UNANSWERED; 64];
    let answers = &mut answers[..order.len().min(64)];
    let answer = plan::run(
        plane,
        g.width(),
        g.height(),
        series::first(plan.rows, g.jobs()).as_flattened(),
        order,
        plan.differences.as_flattened(),
        answers,
    );
    Rebuilt {
        answer,
        done: count::count_done(answers),
        equal: count::count_equal(original, plane),
    }
}

// The picture rebuilt row by row.
pub fn in_rows(original: &[f32], plan: Plan<'_, 16>) -> Rebuilt {
    let mut order = [0; 64];
    order::in_rows(&mut order);
    rebuild(original, plan, &order)
}

// The picture rebuilt as a wavefront.
pub fn in_waves(original: &[f32], plan: Plan<'_, 16>) -> Rebuilt {
    let mut order = [0; 64];
    order::in_waves(plan.g, &mut order);
    rebuild(original, plan, &order)
}
