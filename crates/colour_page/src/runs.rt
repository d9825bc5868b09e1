// What came of the planes rebuilt from nothing: a line for each order, and one for each job that was refused.
use numbers::answer::DONE;
use still_page::print::right;
use still_page::{print, rebuilding};
use tower_rebuild::Rebuilt;

pub fn print_heading(rt: &impl Print) {
    let _ = println!(rt; "     rebuilt from nothing     jobs done");
}

// What a run in an order, by its name, gave.
fn print_run(rt: &impl Print, name: &str, run: &Rebuilt<'_>) {
    let all = tower_blocks::jobs(run.planes.g);
    let _ = print!(rt; "     {name:<20}");
    rebuilding::print_part(rt, right(run.done() as u64, 8), right(all as u64, 0));
    rebuilding::print_refusal(rt, run.answer);
}

pub fn print_first(rt: &impl Print, run: &Rebuilt<'_>) {
    print_run(rt, "plane by plane", run);
    let _ = println!(rt;);
}

// The second run, held against the first.
pub fn print_second(rt: &impl Print, run: &Rebuilt<'_>, first: &Rebuilt<'_>) {
    print_run(rt, "as a wavefront", run);
    match run.others(first) {
        0 => print::say(rt, "   the same\n"),
        others => print::say(rt, format_args!("   {others} samples differ\n")),
    }
}

// A refused job: its index, its answer's number and its row.
fn print_job(rt: &impl Print, job: usize, answer: u16, row: &[u16; 32]) {
    print::say(rt, format_args!("     job {job} refused with {answer}:"));
    for word in row {
        print::say(rt, format_args!(" {word}"));
    }
    let _ = println!(rt;);
}

// The jobs that a run refused.
pub fn print_refused(rt: &impl Print, rows: &[[u16; 32]], answers: &[u16]) {
    for (job, (row, answer)) in rows.iter().zip(answers).enumerate() {
        if u32::from(*answer) != DONE {
            print_job(rt, job, *answer, row);
        }
    }
}
