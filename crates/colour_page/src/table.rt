// The table of planes: a line for each, with how many of its jobs are from luma and how far what they rebuilt is off the original.
use plane_picture::measure;
use rebuild::{Plan, count};
use still_page::print::right;
use still_page::{print, rebuilding};
use tower_blocks::plane::{Plane, Planes};
use tower_blocks::row;

pub fn print_heading(rt: &impl Print) {
    let _ = println!(rt;
        "\n     plane      from luma   samples equal   largest error   mean error"
    );
}

// How many of a plane's jobs are from luma.
fn count_colour(plan: Plan<'_, 32>, plane: Plane) -> usize {
    let g = plan.g;
    (0..greymap::product(g.across, g.down))
        .map(|block| row::number_of(plan.rows, tower_blocks::job_of(g, plane, block)))
        .filter(|number| *number >= row::FIRST_COLOUR)
        .count()
}

// A sum's part of so many samples, with two digits after the point, the last rounded.
fn print_mean(rt: &impl Print, sum: u32, samples: usize) {
    if samples == 0 {
        return;
    }
    let samples = samples as u64;
    let hundredths = (100 * u64::from(sum) + samples / 2) / samples;
    print::say(rt, right(hundredths / 100, 10));
    let _ = print!(rt; ".{:02}", hundredths % 100);
}

// A plane, the original's and the rebuilt one.
pub fn print_plane(
    rt: &impl Print,
    plane: Plane,
    plan: Plan<'_, 32>,
    original: &Planes,
    rebuilt: &Planes,
) {
    let g = plan.g;
    let original = original.samples(plane);
    let rebuilt = rebuilt.samples(plane);
    let error = measure::error_of(original, rebuilt);
    let equal = count::count_equal(original, rebuilt);
    let _ = print!(rt; "     {:<9}", plane.name());
    rebuilding::print_part(
        rt,
        right(count_colour(plan, plane) as u64, 5),
        right(g.jobs() as u64, 2),
    );
    rebuilding::print_part(rt, right(equal as u64, 8), right(g.area() as u64, 4));
    print::say(rt, right(u64::from(error.largest), 16));
    print_mean(rt, error.sum, g.area());
    let _ = println!(rt;);
}
