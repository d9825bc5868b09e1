// A still's plan is made, run in two orders, and told.
use greymap::Greymap;
use picture_blocks::candidate::Choice;
use rebuild::Plan;
use still_page::{map, rebuilding};

// The most blocks that a still has.
const BLOCKS: usize = 64;

pub fn show(rt: &impl Print, name: &str, original: &[f32], g: Greymap) {
    let mut rows = [[0; 16]; BLOCKS];
    let mut differences = [[0; 64]; BLOCKS];
    let mut choices = [Choice::default(); BLOCKS];
    planner::make(original, g, &mut rows, &mut differences, &mut choices);
    let plan = Plan {
        g,
        rows: &rows,
        differences: &differences,
    };
    let choices = series::first(&choices, g.jobs());
    still_page::print_top(rt, name, g, choices);
    rebuilding::print_rebuilt(rt, "row by row", g, rebuild::in_rows(original, plan));
    rebuilding::print_rebuilt(rt, "as a wavefront", g, rebuild::in_waves(original, plan));
    map::print_map(rt, g, choices);
}
