// A colour still rebuilt from nothing by one run of its plan in an order, and held against another run.
#![tactic(auto)]

ghost use Rattle.std.specs.Prelude.{◌≤◌};

use numbers::answer::Answer;
use picture_blocks::order;
use rebuild::{Plan, UNANSWERED, count};
use tower_blocks::plane::{Plane, Planes};
use tower_blocks::waves;

// What a run left: the planes, which it was lent, its answer, and the jobs' answers in the first places.
#[derive(Clone, Copy)]
pub struct Rebuilt<'a> {
    pub planes: &'a Planes,
    pub answer: Answer,
    answers: [u16; 192],
}

impl Rebuilt<'_> {
    // The jobs' answers, by their numbers.
    pub fn answers(&self) -> &[u16] {
        series::first(&self.answers, tower_blocks::jobs(self.planes.g))
    }

    // How many jobs it did.
    pub fn done(&self) -> usize {
        count::count_done(self.answers())
    }

    // How many samples of a plane are other than those of another run.
    fn others_in(&self, run: &Rebuilt<'_>, plane: Plane) -> usize
        ensures { result ≤ 4096 }
    {
        let samples = run.planes.samples(plane);
        let equal = count::count_equal(samples, self.planes.samples(plane));
        samples.len().saturating_sub(equal)
    }

    // How many samples are other than those of another run.
    pub fn others(&self, run: &Rebuilt<'_>) -> usize {
        self.others_in(run, Plane::Luma)
            + self.others_in(run, Plane::Cb)
            + self.others_in(run, Plane::Cr)
    }
}

// The jobs are run in an order over the planes, which then hold no sample yet; where a list is too short the run itself refuses.
fn rebuild<'a>(plan: Plan<'_, 32>, order: &[u16], planes: &'a mut Planes) -> Rebuilt<'a> {
    let order = series::first(order, tower_blocks::jobs(plan.g));
    *planes = Planes::unwritten(plan.g);
    let mut answers = [UNANSWERED; 192];
    let n = order.len().min(192);
    let answer = planes.run(
        plan.rows.as_flattened(),
        order,
        plan.differences.as_flattened(),
        &mut answers[..n],
    );
    Rebuilt {
        planes,
        answer,
        answers,
    }
}

// The planes rebuilt plane by plane, in the plan's own order. Whatever the lent planes held is gone.
pub fn in_planes<'a>(plan: Plan<'_, 32>, planes: &'a mut Planes) -> Rebuilt<'a> {
    let mut order = [0; 192];
    order::in_rows(&mut order);
    rebuild(plan, &order, planes)
}

// The same as a wavefront.
pub fn in_waves<'a>(plan: Plan<'_, 32>, planes: &'a mut Planes) -> Rebuilt<'a> {
    let mut order = [[0; 3]; 64];
    waves::in_waves(plan.g, &mut order);
    rebuild(plan, order.as_flattened(), planes)
}
