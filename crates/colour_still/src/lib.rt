// A colour still's plan is made, run in two orders, and told.
#![tactic(auto)]

use colour_page::{map, runs, table};
use rebuild::Plan;
use tower_blocks::plane::{Plane, Planes};

// The most blocks that a colour still has, of three planes.
const BLOCKS: usize = 192;

// Both runs of the plan, the first one's jobs that were refused, and what it rebuilt. Their planes are on the stack only while it runs.
#[inline(never)]
fn tell(rt: &impl Print, plan: Plan<'_, 32>, original: &Planes) {
    runs::print_heading(rt);
    let mut planes = Planes::EMPTY;
    let first = tower_rebuild::in_planes(plan, &mut planes);
    runs::print_first(rt, &first);
    if first.answer.is_ok() {
        runs::print_refused(rt, plan.rows, first.answers());
    }
    let mut again = Planes::EMPTY;
    let second = tower_rebuild::in_waves(plan, &mut again);
    runs::print_second(rt, &second, &first);
    table::print_heading(rt);
    for plane in Plane::ALL {
        table::print_plane(rt, plane, plan, original, first.planes);
    }
    for plane in [Plane::Cb, Plane::Cr] {
        let (original, rebuilt) = (original.samples(plane), first.planes.samples(plane));
        plane_picture::print_picture(rt, plane.name(), plan.g, original, rebuilt);
    }
}

// Its rows and differences are not on the stack of a grey still.
#[inline(never)]
pub fn show(rt: &impl Print, name: &str, original: &Planes) {
    let g = original.g;
    let mut rows = [[0; 32]; BLOCKS];
    let mut differences = [[0; 64]; BLOCKS];
    tower_planner::make(original, &mut rows, &mut differences);
    let plan = Plan {
        g,
        rows: series::first(&rows, tower_blocks::jobs(g)),
        differences: &differences,
    };
    colour_page::print_heading(rt, name, g);
    tell(rt, plan, original);
    map::print_map(rt, plan);
}
